//! `Chain`: the blocks that hold one row, while they are followed.
//!
//! A `Link` says what a block is in a chain, by its header. `begin` takes the first block, `follow` those
//! behind it, each at the place that the one before it names, and `join` appends the row bytes of the
//! blocks that were taken to a buffer, once the chain has ended.
ghost use Rattle.std.specs.Prelude.{◌≡◌, ◌<◌, ◌≤◌, ◌^◌, ◌++◌, true, List, length, IfOk};
ghost use Rattle.myi_base.specs.Holding.{IfTold};
ghost use Rattle.myi_base.specs.Causes.{HasCause};
ghost use Rattle.myi_base.specs.Ranges.{is_apart};
ghost use Rattle.myi_frames.specs.Block.{Block};
ghost use Rattle.myi_chain.specs.declared.piece.ScanFault.TheVariants.{File};
ghost use Rattle.myi_chain.specs.Chain.{tail, row_bytes};
ghost use Rattle.myi_chain.specs.Used.{IsRange};
ghost use Rattle.myi_chain.specs.Chain.{placed, ranges_at};
ghost use Rattle.myi_chain.specs.Source.{read_blocks, IsReady, range_by, first_by, next_by, with_rest, HasFollowed, CanAdd, LiesOn, AreRead};

use crate::piece::ScanFault;
use crate::ranges::Ranges;
use crate::source::Source;
use crate::used::Used;
use myi_frames::{FrameKind, Header};
use myi_io::Files;
use std::alloc::{AllocError, Global};
use std::marker::Model;
use std::mem;

/// What a block is in a chain.
#[derive(Clone, Copy)]
pub(crate) enum Link {
    /// It is not the next block of the chain, and so there is none.
    Broken,
    /// It is the last block.
    Last,
    /// It is taken, and more are to come.
    More,
}

/// What a block is as the first of a chain.
pub(crate) fn first_link(block: &Header, used: &Used) -> Link
    requires { IsRange (range_by block.now) }
    ensures link { result ≡ first_by block.now used.now }
    ensures below { result ≡ Link.More → block.now.data_len < block.now.head.rec_len }
    ensures counted { result ≡ Link.Last → block.now.data_len < 2 ^ 32 }
{
    let at = block.head.at;
    if block.data_len == 0 || !used.is_apart(at, at + block.head.size as u64) {
        return Link::Broken;
    }
    let whole = block.head.rec_len as usize;
    match block.head.kind {
        FrameKind::Whole if block.data_len == whole => Link::Last,
        FrameKind::Start if block.data_len < whole => Link::More,
        _ => Link::Broken,
    }
}

/// What a block is behind others of its chain, whose ranges are its own.
fn next_link(block: &Header, used: &Used, own: &Ranges, left: u64) -> Link
    requires { IsRange (range_by block.now) }
    ensures link { result ≡ next_by block.now (used.now ++ own.now) left }
    ensures last { result ≡ Link.Last → is_apart (range_by block.now) own.now ≡ true }
    ensures more { result ≡ Link.More → is_apart (range_by block.now) own.now ≡ true }
{
    let at = block.head.at;
    let end = at + block.head.size as u64;
    if block.data_len == 0 || !used.is_apart(at, end) || !own.is_apart(at, end) {
        return Link::Broken;
    }
    let len = block.data_len as u64;
    match block.head.kind {
        FrameKind::Middle if len < left => Link::More,
        FrameKind::End if len == left => Link::Last,
        _ => Link::Broken,
    }
}

/// The blocks of a row while they are followed.
pub(crate) struct Chain {
    /// The blocks that were taken, each by its place and its size.
    taken: Vec<(u64, u32)>,
    /// Their ranges.
    own: Ranges,
    /// Where the next block is to be.
    next: Option<u64>,
    /// How many row bytes it and those behind it are to hold.
    left: u64,
}

impl Drop for Chain {
    fn drop(self) {
        let Chain {
            taken: _,
            own: _,
            next: _,
            left: _,
        } = self;
    }
}

impl Model for Chain {
    ghost use Rattle.myi_chain.specs.Chain.{ranges_at};
    ghost use Rattle.myi_chain.specs.Used.{SameUsed};
    ghost use Rattle.myi_chain.specs.Source.{ChainModel};

    ghost Value = { ChainModel };

    ghost view = { λ s. record { taken = s.taken.items; next = s.next; left = s.left } };

    ghost invariant = { λ s. SameUsed s.own (ranges_at s.taken.items) };
}

impl Chain {
    ghost use Rattle.std.specs.Prelude.{◌≡◌, ◌≤◌, ◌-◌, ◌<◌, ◌+◌, ◌^◌, ◌++◌, ◌∷◌, [], true, IfOk, OnOk, OnErr};
    ghost use Rattle.myi_base.specs.Ranges.{is_apart};
    ghost use Rattle.myi_chain.specs.declared.chain.Link.TheVariants.{Broken, Last, More};
    ghost use Rattle.myi_chain.specs.Used.{IsRange};
    ghost use Rattle.myi_chain.specs.Chain.{ranges_at};
    ghost use Rattle.myi_chain.specs.Source.{range_by, next_by, IsTaken, with_block, begun_with};

    /// A chain without blocks.
    pub(crate) fn new(alloc: Global) -> Chain
        ensures { result.taken ≡ [] }
    {
        Chain {
            taken: Vec::new(alloc),
            own: Ranges::new(alloc),
            next: None,
            left: 0,
        }
    }

    /// The blocks that were taken, each by its place and its size.
    pub(crate) fn taken(&self) -> &[(u64, u32)]
        ensures { result.now ≡ self.now.taken }
    {
        &self.taken
    }

    /// Moves the blocks that were taken into a list, in place of what it held.
    pub(crate) fn move_into(&mut self, blocks: &mut Vec<(u64, u32)>)
        ensures { blocks.new.items ≡ self.old.taken }
    {
        mem::swap(blocks, &mut self.taken);
        self.taken.clear();
        self.own.clear();
    }

    fn clear(&mut self)
        ensures { self.new ≡ record { taken = []; next = self.old.next; left = self.old.left } }
    {
        self.taken.clear();
        self.own.clear();
    }

    // Puts a block behind the others, or leaves all as it was.
    fn put(&mut self, at: u64, size: u32) -> Result<(), AllocError>
        requires some { IsRange (at, at + size) }
        requires apart { is_apart (at, at + size) (ranges_at self.old.taken) ≡ true }
        ensures ok { OnOk result (self.new ≡ with_block self.old at size) }
        ensures err { OnErr result (self.new ≡ self.old) }
    {
        self.taken.push((at, size))?;
        match self.own.add(&[(at, size)]) {
            Ok(()) => Ok(()),
            Err(fault) => {
                self.taken.pop();
                Err(fault)
            }
        }
    }

    /// Begins with the first block of a chain, in place of what was taken before.
    pub(crate) fn begin(&mut self, block: &Header) -> Result<(), AllocError>
        requires some { IsRange (range_by block.now) }
        requires below { block.now.data_len ≤ block.now.head.rec_len }
        ensures { OnOk result (self.new ≡ begun_with block.now) }
    {
        self.clear();
        self.put(block.head.at, block.head.size)?;
        self.next = block.head.next;
        self.left = block.head.rec_len as u64 - block.data_len as u64;
        Ok(())
    }

    // Where the next block is to be.
    fn next(&self) -> Option<u64>
        ensures { result ≡ self.now.next }
    {
        self.next
    }

    // What a block is in this chain.
    fn link(&self, block: &Header, used: &Used) -> Link
        requires { IsRange (range_by block.now) }
        ensures link { result
            ≡ next_by block.now (used.now ++ ranges_at self.now.taken) self.now.left }
        ensures last { result ≡ Link.Last
            → is_apart (range_by block.now) (ranges_at self.now.taken) ≡ true }
        ensures more { result ≡ Link.More
            → is_apart (range_by block.now) (ranges_at self.now.taken) ≡ true }
    {
        next_link(block, used, &self.own, self.left)
    }

    // Takes a block, if it is the next one.
    fn take(&mut self, block: &Header, used: &Used) -> Result<Link, AllocError>
        requires { IsRange (range_by block.now) }
        ensures link { IfOk result (λ link. link
            ≡ next_by block.now (used.now ++ ranges_at self.old.taken) self.old.left) }
        ensures taken { IfOk result (IsTaken block.now self.old self.new) }
    {
        let link = self.link(block, used);
        match link {
            Link::Broken => {}
            Link::Last => self.put(block.head.at, block.head.size)?,
            Link::More => {
                self.put(block.head.at, block.head.size)?;
                self.next = block.head.next;
                self.left -= block.data_len as u64;
            }
        }
        Ok(link)
    }
}

/// Follows a chain behind its first block, and says whether it ends as it should. Its blocks are taken.
pub(crate) fn follow<F: Files>(
    files: &mut F,
    source: &Source,
    used: &Used,
    chain: &mut Chain,
) -> Result<bool, ScanFault>
    requires more { 0 < chain.old.left }
    requires ready { IfTold (F.holds files.old) (IsReady source.now) }
    requires can { CanAdd used.now chain.old.taken }
    ensures told { IfOk result (λ found. IfTold (F.holds files.old) (λ m.
        HasFollowed found chain.new.taken (with_rest chain.old.taken
        (tail (read_blocks source.now m) chain.old.next
        (used.now ++ ranges_at chain.old.taken) chain.old.left)))) }
    ensures can { IfOk result (λ found. found ≡ true → CanAdd used.now chain.new.taken) }
    ensures many { IfOk result (λ found. found ≡ true
        → length chain.old.taken < length chain.new.taken) }
    ensures lies { IfOk result (λ found. found ≡ true
        → LiesOn source.now.end chain.old.taken chain.new.taken) }
    ensures holds { F.holds files.new ≡ F.holds files.old }
    ensures cause { HasCause File (F.faults files.old) (F.faults files.new) result }
{
    loop {
        let Some(at) = chain.next() else {
            return Ok(false);
        };
        let Some(block) = source.header(files, at)? else {
            return Ok(false);
        };
        match chain.take(&block, used)? {
            Link::Broken => return Ok(false),
            Link::Last => return Ok(true),
            Link::More => {}
        }
    }
}

/// Appends the row bytes of blocks, each read at its place, and says whether all were there and the buffer
/// has at most `len` bytes then.
pub(crate) fn join<F: Files>(
    files: &mut F,
    source: &Source,
    taken: &[(u64, u32)],
    len: u32,
    joined: &mut Vec<u8>,
) -> Result<bool, ScanFault>
    requires room { length joined.old.items ≤ len }
    requires ready { IfTold (F.holds files.old) (IsReady source.now) }
    ensures told { IfOk result (λ whole. IfTold (F.holds files.old) (λ m.
        (bs : List Block) → taken.now ≡ placed bs → AreRead (read_blocks source.now m) bs
        → length (joined.old.items ++ row_bytes bs) ≤ len
        → (whole ≡ true) × (joined.new.items ≡ joined.old.items ++ row_bytes bs))) }
    ensures holds { F.holds files.new ≡ F.holds files.old }
    ensures cause { HasCause File (F.faults files.old) (F.faults files.new) result }
{
    let mut rest = taken;
    while let Some((first, more)) = rest.split_first() {
        let Some(block) = source.header(files, first.0)? else {
            return Ok(false);
        };
        // A file that tells nothing may have changed since the chain was followed.
        if len as usize - joined.len() < block.data_len {
            return Ok(false);
        }
        if !source.append(files, &block, joined)? {
            return Ok(false);
        }
        rest = more;
    }
    Ok(true)
}
