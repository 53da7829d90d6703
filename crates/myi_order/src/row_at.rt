//! `RowAt`: a row that is read from its place in a data file.
//!
//! A row of a static table is a slot. That of a dynamic table is read block by block: a `Link` says how it goes
//! on behind a block, not at all or at the place that the block names. A row that is not there counts as want
//! of memory: no file that tells what it holds has lost one since its places were noted.
ghost use Rattle.std.specs.Prelude.{◌≡◌, ◌≤◌, ◌<◌, ◌+◌, ◌-◌, ◌^◌, ◌++◌, ◌∷◌, [], length, take, drop, true, IfOk, IfErr, IfSome, OnOk};
ghost use Rattle.myi_base.specs.Holding.{IfTold, bytes_of};
ghost use Rattle.myi_base.specs.Causes.{HasCause};
ghost use Rattle.myi_frames.specs.Block.{Block, block_of};
ghost use Rattle.myi_frames.specs.Seeing.{Heads};
ghost use Rattle.myi_chain.specs.Chain.{IsChain, row_bytes};
ghost use Rattle.myi_order.specs.Faults.{CutsOff};
ghost use Rattle.myi_order.specs.RowLinks.{IsHeaderAt, IsBlockThere, more_at, first_link, next_link, left_of, noted, GoesOn, Remains};

use crate::fault::OrderFault;
use crate::nearby::{Nearby, append_near, header_near};
use myi_defs::{Defs, RowFormat};
use myi_frames::{FrameKind, Header};
use myi_io::Files;
use std::alloc::Global;

/// How a row goes on behind a block.
#[derive(Clone, Copy)]
pub(crate) enum Link {
    /// The block is the last one.
    Last,
    /// The next block is to stand at this place, and it and those behind it are to hold so many row bytes.
    More { at: u64, left: usize },
}

/// How a row goes on at a place, if there is one.
fn more_at(next: Option<u64>, left: usize) -> Option<Link>
    ensures { result ≡ more_at next left }
{
    match next {
        None => None,
        Some(at) => Some(Link::More { at, left }),
    }
}

/// How a row goes on behind its first block. None where the block is no first one.
fn first_link(block: &Header) -> Option<Link>
    ensures link { result ≡ first_link block.now }
    ensures few { IfSome result (λ link. block.now.data_len + left_of link
        ≤ block.now.head.rec_len) }
{
    let whole = block.head.rec_len as usize;
    match block.head.kind {
        FrameKind::Whole if block.data_len == whole => Some(Link::Last),
        FrameKind::Start if block.data_len < whole => {
            more_at(block.head.next, whole - block.data_len)
        }
        _ => None,
    }
}

/// How a row goes on behind a further block, where so many row bytes were to come. None where the block is
/// not such a one.
fn next_link(block: &Header, left: usize) -> Option<Link>
    ensures link { result ≡ next_link block.now left }
    ensures few { IfSome result (λ link. block.now.data_len + left_of link ≤ left) }
    ensures falls { IfSome result (λ link. left_of link < left) }
{
    if block.data_len == 0 {
        return None;
    }
    match block.head.kind {
        FrameKind::Middle if block.data_len < left => {
            more_at(block.head.next, left - block.data_len)
        }
        FrameKind::End if block.data_len == left => Some(Link::Last),
        _ => None,
    }
}

/// The bytes of a row, and the places and sizes of its blocks.
#[derive(Drop)]
pub(crate) struct RowAt {
    pub(crate) bytes: Vec<u8>,
    pub(crate) blocks: Vec<(u64, u32)>,
}

impl RowAt {
    ghost use Rattle.std.specs.Prelude.{◌≡◌, ◌≤◌, ◌<◌, ◌+◌, ◌^◌, ◌++◌, List, [], length, take, drop, IfOk, IfErr, OnOk};
    ghost use Rattle.myi_base.specs.Holding.{IfTold, bytes_of};
    ghost use Rattle.myi_base.specs.Causes.{HasCause};
    ghost use Rattle.myi_frames.specs.Block.{Block, block_of};
    ghost use Rattle.myi_frames.specs.Seeing.{Heads};
    ghost use Rattle.myi_chain.specs.Chain.{IsChain, placed, row_bytes};
    ghost use Rattle.myi_chain.specs.Readable.{Row};
    ghost use Rattle.myi_order.specs.Faults.{CutsOff};
    ghost use Rattle.myi_order.specs.RowLinks.{left_of, noted, GoesOn, Remains};
    ghost use Rattle.myi_order.specs.AtPlaces.{IsInSlot, Stands, Holds};
    ghost use Rattle.myi_order.specs.Nearby.{Knows};

    /// No row yet.
    pub(crate) fn new(alloc: Global) -> RowAt {
        RowAt {
            bytes: Vec::new(alloc),
            blocks: Vec::new(alloc),
        }
    }

    // Appends the row bytes of a block, and notes the block.
    fn take_block<F: Files>(
        &mut self,
        files: &mut F,
        name: &str,
        near: &Nearby,
        block: &Header,
    ) -> Result<(), OrderFault>
        requires place { block.now.head.at + block.now.start < 2 ^ 64 }
        requires few { length self.old.bytes.items + block.now.data_len < 2 ^ 32 }
        ensures grown { OnOk result
            (length self.new.bytes.items ≡ length self.old.bytes.items + block.now.data_len) }
        ensures told { OnOk result (IfTold (F.holds files.old) (λ m.
            Knows near.now name.now m → (b : Block) → Heads (bytes_of name.now m) block.now b
            → self.new.bytes.items ≡ self.old.bytes.items ++ b.bytes)) }
        ensures seen { OnOk result
            (self.new.blocks.items ≡ self.old.blocks.items ++ noted block.now) }
        ensures cut { IfErr result CutsOff }
        ensures holds { F.holds files.new ≡ F.holds files.old }
        ensures cause { HasCause OrderFault.File (F.faults files.old) (F.faults files.new) result }
    {
        let at = block.head.at + block.start as u64;
        append_near(files, name, near, at, block.data_len, &mut self.bytes)?;
        self.blocks.push((block.head.at, block.head.size))?;
        Ok(())
    }

    // Reads the first block of the row at a place, in place of the row that was read before.
    fn read_first<F: Files>(
        &mut self,
        files: &mut F,
        name: &str,
        near: &Nearby,
        at: u64,
    ) -> Result<Link, OrderFault>
        ensures told { IfOk result (λ link. IfTold (F.holds files.old) (λ m.
            Knows near.now name.now m
            → (bs : List Block) → IsChain (block_of (bytes_of name.now m)) at [] bs
            → GoesOn (block_of (bytes_of name.now m)) bs link self.new.bytes.items
            self.new.blocks.items)) }
        ensures few { IfOk result (λ link. length self.new.bytes.items + left_of link < 2 ^ 32) }
        ensures cut { IfErr result CutsOff }
        ensures holds { F.holds files.new ≡ F.holds files.old }
        ensures cause { HasCause OrderFault.File (F.faults files.old) (F.faults files.new) result }
    {
        self.bytes.clear();
        self.blocks.clear();
        let block = header_near(files, name, near, at)?;
        let Some(link) = first_link(&block) else {
            return Err(OrderFault::Memory);
        };
        self.take_block(files, name, near, &block)?;
        Ok(link)
    }

    // Reads the block at a place, where so many row bytes are to come.
    fn read_next<F: Files>(
        &mut self,
        files: &mut F,
        name: &str,
        near: &Nearby,
        at: u64,
        left: usize,
    ) -> Result<Link, OrderFault>
        requires few { length self.old.bytes.items + left < 2 ^ 32 }
        ensures told { IfOk result (λ link. IfTold (F.holds files.old) (λ m.
            Knows near.now name.now m → (bs : List Block)
            → Remains (block_of (bytes_of name.now m)) bs at left self.old.bytes.items
            self.old.blocks.items
            → GoesOn (block_of (bytes_of name.now m)) bs link self.new.bytes.items
            self.new.blocks.items)) }
        ensures few { IfOk result (λ link. length self.new.bytes.items + left_of link < 2 ^ 32) }
        ensures falls { IfOk result (λ link. left_of link < left) }
        ensures cut { IfErr result CutsOff }
        ensures holds { F.holds files.new ≡ F.holds files.old }
        ensures cause { HasCause OrderFault.File (F.faults files.old) (F.faults files.new) result }
    {
        let block = header_near(files, name, near, at)?;
        let Some(link) = next_link(&block, left) else {
            return Err(OrderFault::Memory);
        };
        self.take_block(files, name, near, &block)?;
        Ok(link)
    }

    // Reads the row whose first block stands at a place.
    fn read_chain<F: Files>(
        &mut self,
        files: &mut F,
        name: &str,
        near: &Nearby,
        at: u64,
    ) -> Result<(), OrderFault>
        ensures told { OnOk result (IfTold (F.holds files.old) (λ m.
            Knows near.now name.now m
            → (bs : List Block) → IsChain (block_of (bytes_of name.now m)) at [] bs
            → (self.new.bytes.items ≡ row_bytes bs) × (self.new.blocks.items ≡ placed bs))) }
        ensures few { OnOk result (length self.new.bytes.items < 2 ^ 32) }
        ensures cut { IfErr result CutsOff }
        ensures holds { F.holds files.new ≡ F.holds files.old }
        ensures cause { HasCause OrderFault.File (F.faults files.old) (F.faults files.new) result }
    {
        let mut link = self.read_first(files, name, near, at)?;
        while let Link::More { at: place, left } = link {
            link = self.read_next(files, name, near, place, left)?;
        }
        Ok(())
    }

    // Reads the slot at a place.
    fn read_slot<F: Files>(
        &mut self,
        files: &mut F,
        name: &str,
        near: &Nearby,
        at: u64,
        size: u32,
    ) -> Result<(), OrderFault>
        ensures told { OnOk result (IfTold (F.holds files.old) (λ m.
            Knows near.now name.now m → self.new.bytes.items ≡ take size (drop at (bytes_of name.now m)))) }
        ensures long { OnOk result (length self.new.bytes.items ≡ size) }
        ensures seen { OnOk result (self.new.blocks.items ≡ (at, size) ∷ []) }
        ensures cut { IfErr result CutsOff }
        ensures holds { F.holds files.new ≡ F.holds files.old }
        ensures cause { HasCause OrderFault.File (F.faults files.old) (F.faults files.new) result }
    {
        self.bytes.clear();
        self.blocks.clear();
        append_near(files, name, near, at, size as usize, &mut self.bytes)?;
        self.blocks.push((at, size))?;
        Ok(())
    }

    /// Reads the row at a place of the data file of a table with these definitions, of which a part is held.
    pub(crate) fn read<F: Files>(
        &mut self,
        files: &mut F,
        name: &str,
        near: &Nearby,
        defs: &Defs,
        at: u64,
    ) -> Result<(), OrderFault>
        ensures told { OnOk result (IfTold (F.holds files.old) (λ m.
            Knows near.now name.now m → (r : Row) → r.at ≡ at
            → Stands defs.now (bytes_of name.now m) r → Holds self.new r)) }
        ensures few { OnOk result (length self.new.bytes.items < 2 ^ 32) }
        ensures cut { IfErr result CutsOff }
        ensures holds { F.holds files.new ≡ F.holds files.old }
        ensures cause { HasCause OrderFault.File (F.faults files.old) (F.faults files.new) result }
    {
        match defs.format {
            RowFormat::Static => self.read_slot(files, name, near, at, defs.slot_length),
            RowFormat::Dynamic => self.read_chain(files, name, near, at),
        }
    }
}
