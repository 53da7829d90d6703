//! `Source`: a data file whose blocks are read through a window.
//!
//! `slide_to` goes to a place with the window, and answers what the header of the block there says; a block
//! that the window can hold, and a whole one of any size, is then in it whole, and `row_bytes` lends its row
//! bytes. `header` answers it for any other place, and leaves the window where it is. The row bytes of other
//! blocks are appended to a buffer by `append`. Where the file gives the window fewer bytes than its end
//! says, it ends behind them from then on; the further blocks of a chain count as that end allows.
ghost use Rattle.std.specs.Prelude.{◌≡◌, ◌≤◌, ◌<◌, ◌+◌, ◌^◌, ◌++◌, ℕ, true, length, take, drop, IfOk, IfErr, IfSome};
ghost use Rattle.myi_base.specs.Holding.{IfTold, bytes_of};
ghost use Rattle.myi_base.specs.Causes.{HasCause};
ghost use Rattle.myi_io.specs.declared.files.FileErr.TheVariants.{Failed};
ghost use Rattle.myi_frames.specs.Block.{block_of};
ghost use Rattle.myi_frames.specs.Seeing.{HeadsBlock};
ghost use Rattle.myi_chain.specs.declared.piece.ScanFault.TheVariants.{File};
ghost use Rattle.myi_chain.specs.Source.{IsHeader};

use crate::piece::ScanFault;
use myi_frames::{FrameKind, Header, LEAST_SIZE, header_at};
use myi_io::{FileErr, Files};
use myi_window::{WINDOW, Window};
use std::alloc::{AllocError, Global};
use std::marker::Model;

/// Fills a buffer behind its first bytes from a place of a file on, and answers how many bytes it gave.
fn fill<F: Files>(
    files: &mut F,
    name: &str,
    at: u64,
    into: &mut [u8],
    start: usize,
) -> Result<usize, ScanFault>
    requires { start ≤ length into.old }
    ensures told { IfOk result (λ count. IfTold (F.holds files.old) (λ m.
        at + length into.old ≤ start + length (bytes_of name.now m)
        → (start + count ≡ length into.old)
        × (into.new ≡ take start into.old ++ take count (drop at (bytes_of name.now m))))) }
    ensures holds { F.holds files.new ≡ F.holds files.old }
    ensures cause { HasCause File (F.faults files.old) (F.faults files.new) result }
{
    let count = files.read_at(name, at, &mut into[start..])?;
    Ok(count)
}

/// Appends a range of a file to a buffer, and says whether it was there whole.
fn append_range<F: Files>(
    files: &mut F,
    name: &str,
    at: u64,
    len: usize,
    joined: &mut Vec<u8>,
) -> Result<bool, ScanFault>
    requires few { length joined.old.items + len < 2 ^ 32 }
    ensures grown { IfOk result (λ whole.
        length joined.new.items ≡ length joined.old.items + len) }
    ensures told { IfOk result (λ whole. IfTold (F.holds files.old) (λ m.
        at + len ≤ length (bytes_of name.now m) → (whole ≡ true)
        × (joined.new.items ≡ joined.old.items ++ take len (drop at (bytes_of name.now m))))) }
    ensures holds { F.holds files.new ≡ F.holds files.old }
    ensures cause { HasCause File (F.faults files.old) (F.faults files.new) result }
{
    let start = joined.len();
    joined.resize(start + len, 0)?;
    let count = fill(files, name, at, joined, start)?;
    Ok(count == len)
}

/// The header of the block at a place of a file, by one read of its first 20 bytes.
fn read_header<F: Files>(
    files: &mut F,
    name: &str,
    at: u64,
    end: u64,
) -> Result<Option<Header>, FileErr>
    requires room { at + 20 ≤ end }
    ensures told { IfOk result (λ found. IfTold (F.holds files.old) (λ m.
        end ≤ length (bytes_of name.now m) → HeadsBlock (take end (bytes_of name.now m)) found
        (block_of (take end (bytes_of name.now m)) at))) }
    ensures place { IfOk result (λ found. IfSome found (IsHeader at end)) }
    ensures failed { IfErr result (λ e. e ≡ Failed) }
    ensures holds { F.holds files.new ≡ F.holds files.old }
    ensures cause { HasCause Failed (F.faults files.old) (F.faults files.new) result }
{
    let mut bytes = [0u8; LEAST_SIZE];
    let count = files.read_at(name, at, &mut bytes)?;
    if count < LEAST_SIZE {
        return Ok(None);
    }
    Ok(header_at(&bytes, at, end))
}

/// A data file that is read up to an end.
pub(crate) struct Source {
    name: String,
    end: u64,
    window: Window,
}

impl Drop for Source {
    fn drop(self) {
        let Source {
            name: _,
            end: _,
            window: _,
        } = self;
    }
}

impl Model for Source {
    ghost use Rattle.std.specs.Prelude.{string_bytes};
    ghost use Rattle.myi_window.specs.Excerpt.{EndsBy};
    ghost use Rattle.myi_chain.specs.Source.{SourceModel};

    ghost Value = { SourceModel };

    ghost view = { λ s. record { name = string_bytes s.name; end = s.end; kept = s.window } };

    ghost invariant = { λ s. EndsBy s.end s.window };
}

impl Source {
    ghost use Rattle.std.specs.Prelude.{◌≡◌, ◌≤◌, ◌<◌, ◌+◌, ◌^◌, ◌++◌, ℕ, true, false, Some, length, take, drop, IfOk, IfErr, IfSome, OnOk};
    ghost use Rattle.myi_base.specs.Holding.{IfTold, bytes_of};
    ghost use Rattle.myi_base.specs.Causes.{HasCause};
    ghost use Rattle.myi_io.specs.declared.files.FileErr.TheVariants.{Failed, Memory};
    ghost use Rattle.myi_frames.specs.Block.{Block};
    ghost use Rattle.myi_frames.specs.Seeing.{Heads, HeadsBlock};
    ghost use Rattle.myi_window.specs.declared.window.TheConstants.{WINDOW};
    ghost use Rattle.myi_window.specs.Excerpt.{nothing, bytes_from};
    ghost use Rattle.myi_chain.specs.declared.piece.ScanFault.TheVariants.{File};
    ghost use Rattle.myi_chain.specs.Source.{read_bytes, read_blocks, IsReady, ReadsOn, MayFall, StaysAt, IsFilledAt, IsHeader, HoldsWhole, kept_bytes, IsKept};

    /// The file of a name up to an end, of which nothing is read yet. Its window takes its memory here.
    pub(crate) fn new(alloc: Global, name: &str, end: u64) -> Result<Source, AllocError>
        ensures { IfOk result (λ s. s ≡ record { name = name.now; end = end; kept = nothing }) }
    {
        let name = String::from_str(alloc, name)?;
        let window = Window::new(alloc)?;
        Ok(Source { name, end, window })
    }

    /// The place at which the file ends, or at which it is to end.
    pub(crate) fn end(&self) -> u64
        ensures { result ≡ self.now.end }
    {
        self.end
    }

    // Slides the window to a place. Where fewer bytes come than it can hold, the file ends behind them.
    fn slide<F: Files>(&mut self, files: &mut F, at: u64) -> Result<(), FileErr>
        requires order { at ≤ self.old.end }
        requires ready { IfTold (F.holds files.old) (IsReady self.old) }
        ensures full { OnOk result (IsFilledAt at self.new) }
        ensures falls { MayFall at self.old self.new }
        ensures behind { at ≤ self.new.end }
        ensures reads { ReadsOn (F.holds files.old) self.old self.new }
        ensures failed { IfErr result (λ e. e ≡ Failed) }
        ensures holds { F.holds files.new ≡ F.holds files.old }
        ensures cause { HasCause Failed (F.faults files.old) (F.faults files.new) result }
    {
        self.window.slide(files, self.name.as_str(), at, self.end)?;
        let count = self.window.bytes_from(at).len();
        if WINDOW <= count {
            return Ok(());
        }
        self.end = at + count as u64;
        Ok(())
    }

    /// Whether the window holds so many bytes from a place on, once it is there. If not, the file ends
    /// before them.
    fn ready<F: Files>(&mut self, files: &mut F, at: u64, size: usize) -> Result<bool, FileErr>
        requires order { at ≤ self.old.end }
        requires narrow { size ≤ WINDOW }
        requires ready { IfTold (F.holds files.old) (IsReady self.old) }
        ensures shown { IfOk result (λ is. is ≡ true
            → size ≤ length (bytes_from at self.new.kept)) }
        ensures inside { IfOk result (λ is. is ≡ true → at + size ≤ self.new.end) }
        ensures short { IfOk result (λ is. is ≡ false → self.new.end < at + size) }
        ensures falls { MayFall at self.old self.new }
        ensures stays { StaysAt at self.old self.new }
        ensures behind { at ≤ self.new.end }
        ensures reads { ReadsOn (F.holds files.old) self.old self.new }
        ensures failed { IfErr result (λ e. e ≡ Failed) }
        ensures holds { F.holds files.new ≡ F.holds files.old }
        ensures cause { HasCause Failed (F.faults files.old) (F.faults files.new) result }
    {
        if self.end - at < size as u64 {
            return Ok(false);
        }
        if size <= self.window.bytes_from(at).len() {
            return Ok(true);
        }
        self.slide(files, at)?;
        Ok(size <= self.window.bytes_from(at).len())
    }

    // Whether the window holds a block that is longer than a window, once it is stretched over it. Where
    // fewer bytes come, the file ends behind them.
    fn reach<F: Files>(&mut self, files: &mut F, block: &Header) -> Result<bool, FileErr>
        requires block { IsHeader block.now.head.at self.old.end block.now }
        requires long { WINDOW < block.now.head.size }
        requires ready { IfTold (F.holds files.old) (IsReady self.old) }
        ensures held { IfOk result (λ is. is ≡ true → block.now.head.size
            ≤ length (bytes_from block.now.head.at self.new.kept)) }
        ensures inside { IfOk result (λ is. is ≡ true
            → block.now.head.at + block.now.head.size ≤ self.new.end) }
        ensures short { IfOk result (λ is. is ≡ false
            → self.new.end < block.now.head.at + block.now.head.size) }
        ensures falls { MayFall block.now.head.at self.old self.new }
        ensures stays { StaysAt block.now.head.at self.old self.new }
        ensures behind { block.now.head.at ≤ self.new.end }
        ensures reads { ReadsOn (F.holds files.old) self.old self.new }
        ensures holds { F.holds files.new ≡ F.holds files.old }
        ensures cause { HasCause Failed (F.faults files.old) (F.faults files.new) result }
    {
        let at = block.head.at;
        let size = block.head.size;
        if size as usize <= self.window.bytes_from(at).len() {
            return Ok(true);
        }
        self.window
            .stretch(files, self.name.as_str(), at, size, self.end)?;
        let count = self.window.bytes_from(at).len();
        if size as usize <= count {
            return Ok(true);
        }
        self.end = at + count as u64;
        Ok(false)
    }

    // Whether the file goes on to the end of a block that is longer than a window. Its last byte shows it.
    fn ends_there<F: Files>(&self, files: &mut F, block: &Header) -> Result<bool, FileErr>
        requires block { IsHeader block.now.head.at self.now.end block.now }
        requires ready { IfTold (F.holds files.old) (IsReady self.now) }
        ensures short { IfOk result (λ is. is ≡ false → IfTold (F.holds files.old) (λ m. ⊥)) }
        ensures failed { IfErr result (λ e. e ≡ Failed) }
        ensures holds { F.holds files.new ≡ F.holds files.old }
        ensures cause { HasCause Failed (F.faults files.old) (F.faults files.new) result }
    {
        let size = block.head.size;
        if size as usize <= self.window.bytes_from(block.head.at).len() {
            return Ok(true);
        }
        let mut last = [0u8];
        let at = block.head.at + (size - 1) as u64;
        let count = files.read_at(self.name.as_str(), at, &mut last)?;
        Ok(count == 1)
    }

    // Whether the file has a block as far as that matters. One that a window can hold, and a whole one, is in
    // the window then. Of a longer start the chain reads what it needs; of any other block the end is looked
    // for only if it `is_passed` by its size, so that no byte is read twice where each place is tried.
    fn hold<F: Files>(
        &mut self,
        files: &mut F,
        block: &Header,
        is_passed: bool,
    ) -> Result<bool, FileErr>
        requires block { IsHeader block.now.head.at self.old.end block.now }
        requires ready { IfTold (F.holds files.old) (IsReady self.old) }
        ensures held { IfOk result (λ is. is ≡ true → HoldsWhole block.now self.new.kept) }
        ensures inside { IfOk result (λ is. is ≡ true
            → IsHeader block.now.head.at self.new.end block.now) }
        ensures short { IfOk result (λ is. is ≡ false → IfTold (F.holds files.old) (λ m. ⊥)) }
        ensures falls { MayFall block.now.head.at self.old self.new }
        ensures stays { StaysAt block.now.head.at self.old self.new }
        ensures behind { block.now.head.at ≤ self.new.end }
        ensures reads { ReadsOn (F.holds files.old) self.old self.new }
        ensures never { IfErr result (λ e. e ≡ Memory → WINDOW < block.now.head.size) }
        ensures holds { F.holds files.new ≡ F.holds files.old }
        ensures cause { HasCause Failed (F.faults files.old) (F.faults files.new) result }
    {
        let size = block.head.size as usize;
        if size <= WINDOW {
            let there = self.ready(files, block.head.at, size)?;
            return Ok(there);
        }
        match block.head.kind {
            FrameKind::Whole => {
                let there = self.reach(files, block)?;
                Ok(there)
            }
            FrameKind::Deleted | FrameKind::Middle | FrameKind::End => {
                let there = !is_passed || self.ends_there(files, block)?;
                Ok(there)
            }
            FrameKind::Start => Ok(true),
        }
    }

    /// The header of the block at a place, to which the window goes, and None where no block is. If the
    /// window can hold the block, or if it is a whole one, the window does. Whether the file goes on to the
    /// end of a longer block is asked where such a block `is_passed` by its size.
    pub(crate) fn slide_to<F: Files>(
        &mut self,
        files: &mut F,
        at: u64,
        is_passed: bool,
    ) -> Result<Option<Header>, FileErr>
        requires order { at ≤ self.old.end }
        requires ready { IfTold (F.holds files.old) (IsReady self.old) }
        ensures told { IfOk result (λ found. IfTold (F.holds files.old) (λ m.
            HeadsBlock (read_bytes self.old m) found (read_blocks self.old m at))) }
        ensures place { IfOk result (λ found. IfSome found (IsHeader at self.new.end)) }
        ensures held { IfOk result (λ found. IfSome found (λ h. HoldsWhole h self.new.kept)) }
        ensures falls { MayFall at self.old self.new }
        ensures stays { StaysAt at self.old self.new }
        ensures behind { at ≤ self.new.end }
        ensures reads { ReadsOn (F.holds files.old) self.old self.new }
        ensures never { IfErr result (λ e. e ≡ Memory → IfTold (F.holds files.old) (λ m.
            IfSome (read_blocks self.old m at) (λ b. WINDOW < b.size))) }
        ensures holds { F.holds files.new ≡ F.holds files.old }
        ensures cause { HasCause Failed (F.faults files.old) (F.faults files.new) result }
    {
        if !self.ready(files, at, LEAST_SIZE)? {
            return Ok(None);
        }
        let Some(block) = header_at(self.window.bytes_from(at), at, self.end) else {
            return Ok(None);
        };
        if !self.hold(files, &block, is_passed)? {
            return Ok(None);
        }
        Ok(Some(block))
    }

    /// The header of the block at a place, and None where no block is. The window stays where it is.
    pub(crate) fn header<F: Files>(&self, files: &mut F, at: u64) -> Result<Option<Header>, FileErr>
        requires ready { IfTold (F.holds files.old) (IsReady self.now) }
        ensures told { IfOk result (λ found. IfTold (F.holds files.old) (λ m.
            HeadsBlock (read_bytes self.now m) found (read_blocks self.now m at))) }
        ensures place { IfOk result (λ found. IfSome found (IsHeader at self.now.end)) }
        ensures failed { IfErr result (λ e. e ≡ Failed) }
        ensures holds { F.holds files.new ≡ F.holds files.old }
        ensures cause { HasCause Failed (F.faults files.old) (F.faults files.new) result }
    {
        if self.end < at {
            return Ok(None);
        }
        if self.end - at < LEAST_SIZE as u64 {
            return Ok(None);
        }
        let held = self.window.bytes_from(at);
        if LEAST_SIZE <= held.len() {
            return Ok(header_at(held, at, self.end));
        }
        let found = read_header(files, self.name.as_str(), at, self.end)?;
        Ok(found)
    }

    /// The row bytes of a block that the window holds whole.
    pub(crate) fn row_bytes(&self, block: &Header) -> &[u8]
        requires { IsKept block.now self.now.kept }
        ensures { result.now ≡ kept_bytes block.now self.now.kept }
    {
        &self.window.bytes_from(block.head.at)[block.start..block.start + block.data_len]
    }

    /// Appends the row bytes of a block to a buffer, and says whether they were there. Those that the
    /// window holds are not read again.
    pub(crate) fn append<F: Files>(
        &self,
        files: &mut F,
        block: &Header,
        joined: &mut Vec<u8>,
    ) -> Result<bool, ScanFault>
        requires block { IsHeader block.now.head.at self.now.end block.now }
        requires few { length joined.old.items + block.now.data_len < 2 ^ 32 }
        requires ready { IfTold (F.holds files.old) (IsReady self.now) }
        ensures grown { IfOk result (λ whole.
            length joined.new.items ≡ length joined.old.items + block.now.data_len) }
        ensures told { IfOk result (λ whole. IfTold (F.holds files.old) (λ m.
            (b : Block) → Heads (read_bytes self.now m) block.now b
            → (whole ≡ true) × (joined.new.items ≡ joined.old.items ++ b.bytes))) }
        ensures holds { F.holds files.new ≡ F.holds files.old }
        ensures cause { HasCause File (F.faults files.old) (F.faults files.new) result }
    {
        let at = block.head.at + block.start as u64;
        let held = self.window.bytes_from(at);
        let count = held.len().min(block.data_len);
        joined.extend_from_slice(&held[..count])?;
        if count == block.data_len {
            return Ok(true);
        }
        let rest = block.data_len - count;
        let whole = append_range(files, self.name.as_str(), at + count as u64, rest, joined)?;
        Ok(whole)
    }
}
