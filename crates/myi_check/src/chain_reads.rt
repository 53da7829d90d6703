//! `ChainReads`: rows of a dynamic table, read block by block from the place of the first.
//!
//! A `Link` says how a row goes on behind a block. Where a row stands at the place, its bytes are read: which
//! blocks it has is told by the first one and by those that it names.
ghost use Rattle.std.specs.Prelude.{◌≡◌, ◌≤◌, ◌<◌, ◌+◌, ◌^◌, ◌++◌, ℕ, List, Some, true, length, IfOk, IfErr, IfSome, OnOk};
ghost use Rattle.myi_base.specs.Holding.{IfTold, bytes_of};
ghost use Rattle.myi_base.specs.Causes.{HasCause};
ghost use Rattle.myi_opening.specs.Opening.{IsCutOff};
ghost use Rattle.myi_frames.specs.Block.{Block, block_of};
ghost use Rattle.myi_frames.specs.Seeing.{IsPartAt, shown};
ghost use Rattle.myi_chain.specs.Chain.{Reading, AreLinked};
ghost use Rattle.myi_check.specs.ChainReads.{IsShort, GoesOn, Remains, most_reads};

use crate::rows::ScannedFile;
use myi_frames::{Frame, FrameKind, LEAST_SIZE, Seen, frame_at};
use myi_io::Files;
use myi_opening::TableFault;
use std::alloc::Global;

// How many bytes of a block are read at first. The rows of most tables are no longer.
const FRONT: usize = 256;

/// How a row goes on behind a block.
#[derive(Clone, Copy)]
pub(crate) enum Link {
    /// Not at all: the block is none of a row.
    Broken,
    /// The block is the last one.
    Last,
    /// The next block is to stand at this place, and it and those behind it hold so many row bytes at most.
    More { at: u64, left: usize },
}

// How a row goes on at the place that a block names, if it names one.
fn more_at(next: Option<u64>, left: usize) -> Link
    ensures goes { (read : Reading) (all rest : List Block) (before : List ℕ)
        → Remains read all before next rest → GoesOn read all before result }
    ensures short { (before : List ℕ) → length before + left < 2 ^ 32 → IsShort before result }
    ensures falls { most_reads result ≤ left + 1 }
{
    match next {
        None => Link::Broken,
        Some(at) => Link::More { at, left },
    }
}

// How a row goes on behind its first block.
fn first_link(block: &Frame<'_>) -> Link
    requires few { length block.now.bytes.now < 2 ^ 32 }
    ensures goes { (read : Reading) (at : ℕ) (all : List Block)
        → read at ≡ Some (shown block.now) → AreLinked read at all
        → GoesOn read all block.now.bytes.now result }
    ensures short { IsShort block.now.bytes.now result }
{
    let count = block.bytes.len();
    let whole = block.rec_len as usize;
    match block.kind {
        FrameKind::Whole => Link::Last,
        FrameKind::Start if count < whole => more_at(block.next, whole - count),
        _ => Link::Broken,
    }
}

// How a row goes on behind a further block, where no more than so many row bytes were to come.
fn next_link(block: &Frame<'_>, left: usize) -> Link
    ensures goes { (read : Reading) (at : ℕ) (all rest : List Block) (before : List ℕ)
        → read at ≡ Some (shown block.now) → Remains read all before (Some at) rest
        → GoesOn read all (before ++ block.now.bytes.now) result }
    ensures short { (before : List ℕ) → length before + left < 2 ^ 32
        → IsShort (before ++ block.now.bytes.now) result }
    ensures falls { most_reads result ≤ left }
{
    let count = block.bytes.len();
    match block.kind {
        FrameKind::Middle if 0 < count && count < left => more_at(block.next, left - count),
        FrameKind::End if count <= left => Link::Last,
        _ => Link::Broken,
    }
}

// Reads so many bytes of a file from a place on, or those that it has there.
fn read_part<F: Files>(
    files: &mut F,
    name: &str,
    at: u64,
    size: usize,
    bytes: &mut Vec<u8>,
) -> Result<(), TableFault>
    ensures part { OnOk result (IfTold (F.holds files.old) (λ m.
        IsPartAt at bytes.new.items (bytes_of name.now m))) }
    ensures cut { IfErr result IsCutOff }
    ensures holds { F.holds files.new ≡ F.holds files.old }
    ensures cause { HasCause TableFault.File (F.faults files.old) (F.faults files.new) result }
{
    bytes.resize(size, 0)?;
    let count = files.read_at(name, at, bytes)?;
    bytes.truncate(count);
    Ok(())
}

// The size of the block at a place of a file that ends at `end`, if it has more bytes than these from there on.
fn longer_size(bytes: &[u8], at: u64, end: u64) -> Option<u32> {
    if bytes.len() < LEAST_SIZE {
        return None;
    }
    match frame_at(bytes, at, end) {
        Seen::Longer(size) => Some(size),
        _ => None,
    }
}

// Reads the block at a place of a file, or another part of the file from there on.
fn read_block<F: Files>(
    files: &mut F,
    file: &ScannedFile<'_>,
    at: u64,
    bytes: &mut Vec<u8>,
) -> Result<(), TableFault>
    ensures part { OnOk result (IfTold (F.holds files.old) (λ m.
        IsPartAt at bytes.new.items (bytes_of file.now.name.now m))) }
    ensures cut { IfErr result IsCutOff }
    ensures holds { F.holds files.new ≡ F.holds files.old }
    ensures cause { HasCause TableFault.File (F.faults files.old) (F.faults files.new) result }
{
    read_part(files, file.name, at, FRONT, bytes)?;
    if let Some(size) = longer_size(bytes, at, file.length) {
        read_part(files, file.name, at, size as usize, bytes)?;
    }
    Ok(())
}

// The block at a place of a file that ends at `end`, by the file's bytes from there on.
fn block_in<'a>(bytes: &'a [u8], at: u64, end: u64) -> Option<Frame<'a>>
    ensures block { IfSome result (λ block. (x : List ℕ) → length x ≡ end
        → IsPartAt at bytes.now x → block_of x at ≡ Some (shown block)) }
    ensures few { IfSome result (λ block. length block.bytes.now < 2 ^ 32) }
{
    if bytes.len() < LEAST_SIZE {
        return None;
    }
    match frame_at(bytes, at, end) {
        Seen::Frame(block) => Some(block),
        _ => None,
    }
}

/// A buffer for the bytes of a block, and the bytes of the row that was read.
#[derive(Drop)]
pub(crate) struct ChainReads {
    block: Vec<u8>,
    pub(crate) row: Vec<u8>,
}

impl ChainReads {
    ghost use Rattle.std.specs.Prelude.{◌≡◌, ◌≤◌, ◌<◌, ◌+◌, ◌^◌, List, true, length, IfOk, IfErr};
    ghost use Rattle.myi_base.specs.Holding.{IfTold, bytes_of};
    ghost use Rattle.myi_base.specs.Causes.{HasCause};
    ghost use Rattle.myi_opening.specs.Opening.{IsCutOff};
    ghost use Rattle.myi_frames.specs.Block.{Block, block_of};
    ghost use Rattle.myi_chain.specs.Chain.{AreLinked, row_bytes};
    ghost use Rattle.myi_check.specs.ChainReads.{IsShort, GoesOn, Remains, most_reads};

    /// No row yet.
    pub(crate) fn new(alloc: Global) -> ChainReads {
        ChainReads {
            block: Vec::new(alloc),
            row: Vec::new(alloc),
        }
    }

    // Reads the first block of the row at a place, in place of the row that was read before.
    fn read_first<F: Files>(
        &mut self,
        files: &mut F,
        file: &ScannedFile<'_>,
        at: u64,
    ) -> Result<Link, TableFault>
        ensures goes { IfOk result (λ link. IfTold (F.holds files.old) (λ m.
            length (bytes_of file.now.name.now m) ≡ file.now.length
            → (all : List Block) → AreLinked (block_of (bytes_of file.now.name.now m)) at all
            → GoesOn (block_of (bytes_of file.now.name.now m)) all self.new.row.items link)) }
        ensures short { IfOk result (IsShort self.new.row.items) }
        ensures cut { IfErr result IsCutOff }
        ensures holds { F.holds files.new ≡ F.holds files.old }
        ensures cause { HasCause TableFault.File (F.faults files.old) (F.faults files.new) result }
    {
        self.row.clear();
        read_block(files, file, at, &mut self.block)?;
        let Some(block) = block_in(&self.block, at, file.length) else {
            return Ok(Link::Broken);
        };
        self.row.extend_from_slice(block.bytes)?;
        Ok(first_link(&block))
    }

    // Reads the block at a place, where no more than so many row bytes are to come.
    fn read_next<F: Files>(
        &mut self,
        files: &mut F,
        file: &ScannedFile<'_>,
        at: u64,
        left: usize,
    ) -> Result<Link, TableFault>
        requires short { length self.old.row.items + left < 2 ^ 32 }
        ensures goes { IfOk result (λ link. IfTold (F.holds files.old) (λ m.
            length (bytes_of file.now.name.now m) ≡ file.now.length → (all rest : List Block)
            → Remains (block_of (bytes_of file.now.name.now m)) all self.old.row.items (Some at) rest
            → GoesOn (block_of (bytes_of file.now.name.now m)) all self.new.row.items link)) }
        ensures short { IfOk result (IsShort self.new.row.items) }
        ensures falls { IfOk result (λ link. most_reads link ≤ left) }
        ensures cut { IfErr result IsCutOff }
        ensures holds { F.holds files.new ≡ F.holds files.old }
        ensures cause { HasCause TableFault.File (F.faults files.old) (F.faults files.new) result }
    {
        read_block(files, file, at, &mut self.block)?;
        let Some(block) = block_in(&self.block, at, file.length) else {
            return Ok(Link::Broken);
        };
        self.row.extend_from_slice(block.bytes)?;
        Ok(next_link(&block, left))
    }

    /// Reads the row that stands at a place of a file. True only where all its blocks were read.
    pub(crate) fn read<F: Files>(
        &mut self,
        files: &mut F,
        file: &ScannedFile<'_>,
        at: u64,
    ) -> Result<bool, TableFault>
        ensures row { IfOk result (λ is. is ≡ true → IfTold (F.holds files.old) (λ m.
            length (bytes_of file.now.name.now m) ≡ file.now.length
            → (all : List Block) → AreLinked (block_of (bytes_of file.now.name.now m)) at all
            → self.new.row.items ≡ row_bytes all)) }
        ensures short { IfOk result (λ is. is ≡ true → length self.new.row.items < 2 ^ 32) }
        ensures cut { IfErr result IsCutOff }
        ensures holds { F.holds files.new ≡ F.holds files.old }
        ensures cause { HasCause TableFault.File (F.faults files.old) (F.faults files.new) result }
    {
        let mut link = self.read_first(files, file, at)?;
        while let Link::More { at: place, left } = link {
            link = self.read_next(files, file, place, left)?;
        }
        match link {
            Link::Last => Ok(true),
            _ => Ok(false),
        }
    }
}
