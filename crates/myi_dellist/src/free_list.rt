//! `FreeList`: the deleted list of a data file of dynamic rows, by its head.
//!
//! The links stand in the file; a `FreeList` keeps where the list begins and where the file ends.
use crate::chains::read_row;
use crate::fault::FreeFault;
use crate::heads::Heads;
use crate::links::{merge_one, release_one, release_two};
use crate::pieces::{Piece, sizes_of};
use crate::replacing::{add_own, replaced, take_own};
use crate::rows::{FileEnd, Freed, Put, Replaced, Room, put_at_end, put_beyond, put_row};
use crate::several::{Part, plan_releases, split, write_heads};
use crate::taking::ListEnds;
use crate::writing::write_pieces;
use myi_frames::MOST_SIZE;
use myi_io::Files;
use std::alloc::{AllocError, Global};
use std::marker::Model;

/// How long a data file may become.
#[derive(Clone, Copy, Debug, PartialEq, Eq)]
pub struct Limits {
    /// The file's end stays below this place.
    pub end_below: u128,
}

/// The deleted list of a data file, by the name of the file.
pub struct FreeList {
    name: String,
    head: Option<u64>,
    end: u64,
    limits: Limits,
    /// The blocks of the row that is put or released, so that no row takes memory that one before had.
    pieces: Vec<Piece>,
    /// The blocks of the row in whose place one is put, and these as it takes them.
    own: Vec<Piece>,
    areas: Vec<Piece>,
    /// What is released of them, and the headers that this writes.
    parts: Vec<Part>,
    heads: Heads,
}

impl Drop for FreeList {
    fn drop(self) {
        let FreeList {
            name: _,
            head: _,
            end: _,
            limits: _,
            pieces: _,
            own: _,
            areas: _,
            parts: _,
            heads: _,
        } = self;
    }
}

impl Model for FreeList {
    ghost use Rattle.std.specs.Prelude.{◌<◌, string_bytes};
    ghost use Rattle.myi_dellist.specs.FreeList.{ListState};

    ghost Value = { ListState };

    ghost view = { λ l. record {
      name = string_bytes l.name;
      head = l.head;
      end = l.end;
      end_below = l.limits.end_below;
    } };

    ghost invariant = { λ l. l.end < l.limits.end_below };
}

impl FreeList {
    ghost use Rattle.std.specs.Prelude.{◌≡◌, ◌≤◌, ◌<◌, ◌+◌, Some, None, Err, IfOk, IfErr, OnOk, OnErr, IsTrue, ◌^◌, length};
    ghost use Rattle.std.specs.Option.{option_map_or};
    ghost use Rattle.myi_base.specs.Holding.{Told, IfTold, OthersStay, bytes_of};
    ghost use Rattle.myi_base.specs.Causes.{HasCause};
    ghost use Rattle.myi_frames.specs.Block.{IsPlace};
    ghost use Rattle.myi_dellist.specs.declared.fault.FreeFault.TheVariants.{File};
    ghost use Rattle.myi_dellist.specs.Releasing.{most_size, half_size};
    ghost use Rattle.myi_dellist.specs.Freeing.{IfDamaged, IsNotFull};
    ghost use Rattle.myi_dellist.specs.FreeList.{next_by, Releases, IsLong, FindsAll, FindsBad};
    ghost use Rattle.myi_dellist.specs.Freed.{RowIsFreed, FreesRow, RowFindsBad, TalliesFreed};
    ghost use Rattle.myi_dellist.specs.Replacing.{PutsAgain, RewritesRow, RewriteFindsBad, RewriteIsLong, TalliesReplaced};
    ghost use Rattle.myi_dellist.specs.Merging.{Merges, MergeFinds, MergeFindsBad};
    ghost use Rattle.myi_dellist.specs.Putting.{Puts, ends_of, PutFindsBad, PutIsLong};
    ghost use Rattle.myi_dellist.specs.Appending.{Appends, AppendsNew};
    ghost use Rattle.myi_dellist.specs.Rows.{most_end, end_with, IfFull, IsNotDamaged, PutsAtEnd, PutsBehind, PutsNew, TalliesAtEnd, TalliesNew};

    /// The deleted list of the file of a name, by the place of its first block and the file's length.
    pub fn new(
        alloc: Global,
        name: &str,
        head: Option<u64>,
        end: u64,
        limits: Limits,
    ) -> Result<FreeList, AllocError>
        requires { end < limits.end_below }
        ensures { IfOk result (λ list. list ≡ record {
          name = name.now;
          head = head;
          end = end;
          end_below = limits.end_below;
        }) }
    {
        Ok(FreeList {
            name: String::from_str(alloc, name)?,
            head,
            end,
            limits,
            pieces: Vec::new(alloc),
            own: Vec::new(alloc),
            areas: Vec::new(alloc),
            parts: Vec::new(alloc),
            heads: Heads::new(alloc),
        })
    }

    /// Where the next row goes, and whether a deleted block is there. It takes no memory.
    pub fn place(&self) -> (u64, bool)
        ensures { result ≡ next_by self.now.head self.now.end }
    {
        match self.head {
            Some(at) => (at, true),
            None => (self.end, false),
        }
    }

    /// The place of the first deleted block. It takes no memory.
    pub fn head(&self) -> Option<u64>
        ensures { result ≡ self.now.head }
    {
        self.head
    }

    /// Where the file ends. It takes no memory.
    pub fn end(&self) -> u64
        ensures { result ≡ self.now.end }
    {
        self.end
    }

    /// Puts a row at the file's end, whatever is deleted, and answers what that did. `Full` comes exactly where
    /// the end would not stay below its limit, or where no file can end there, and then nothing is changed.
    pub fn put_at_end<F: Files>(&mut self, files: &mut F, packed: &[u8]) -> Result<Put, FreeFault>
        requires writable { IsTrue F.writable }
        requires some { 0 < length packed.now }
        requires few { length packed.now < 2 ^ 32 }
        requires long { IfTold (F.holds files.old) (IsLong self.old) }
        ensures ok { IfOk result (λ put. Told (F.holds files.old) (F.holds files.new)
            (PutsAtEnd self.old self.new packed.now put.at)) }
        ensures tallies { IfOk result (TalliesAtEnd self.old (length packed.now)) }
        ensures puts { OnOk result (Told (F.holds files.old) (F.holds files.new)
            (PutsBehind self.old packed.now)) }
        ensures appended { OnOk result (Told (F.holds files.old) (F.holds files.new)
            (Appends self.old self.new packed.now)) }
        ensures others { Told (F.holds files.old) (F.holds files.new) (OthersStay self.old.name) }
        ensures place { IfOk result (λ put. put.at ≡ self.old.end) }
        ensures inside { IfOk result (λ put. put.at ≤ self.new.end) }
        ensures end { OnOk result
            (self.new ≡ record self.old { end = end_with self.old (length packed.now) }) }
        ensures room { OnOk result (end_with self.old (length packed.now) < most_end self.old) }
        ensures full { IfErr result (λ f. IfFull f
            (most_end self.old ≤ end_with self.old (length packed.now))) }
        ensures unchanged { IfErr result (λ f. IfFull f (F.holds files.new ≡ F.holds files.old)) }
        ensures found { IfErr result IsNotDamaged }
        ensures list { OnErr result (self.new ≡ self.old) }
        ensures cause { HasCause File (F.faults files.old) (F.faults files.new) result }
    {
        let at = self.end;
        let end = FileEnd {
            at,
            below: self.limits.end_below,
        };
        self.end = put_at_end(files, &self.name, &mut self.pieces, packed, &end)?;
        Ok(Put {
            at,
            blocks: self.pieces.len() as u64,
            bytes: sizes_of(&self.pieces),
            taken: 0,
            more: 0,
        })
    }

    /// Puts a row at the file's end, whatever is deleted, and answers its place: `put_at_end`. `Full` comes exactly where
    /// the end would not stay below its limit, or where no file can end there, and then nothing is changed.
    pub fn write_row_at_end<F: Files>(
        &mut self,
        files: &mut F,
        packed: &[u8],
    ) -> Result<u64, FreeFault>
        requires writable { IsTrue F.writable }
        requires some { 0 < length packed.now }
        requires few { length packed.now < 2 ^ 32 }
        requires long { IfTold (F.holds files.old) (IsLong self.old) }
        ensures ok { IfOk result (λ at. Told (F.holds files.old) (F.holds files.new)
            (PutsAtEnd self.old self.new packed.now at)) }
        ensures puts { OnOk result (Told (F.holds files.old) (F.holds files.new)
            (PutsBehind self.old packed.now)) }
        ensures appended { OnOk result (Told (F.holds files.old) (F.holds files.new)
            (Appends self.old self.new packed.now)) }
        ensures others { Told (F.holds files.old) (F.holds files.new) (OthersStay self.old.name) }
        ensures place { IfOk result (λ at. at ≡ self.old.end) }
        ensures end { OnOk result
            (self.new ≡ record self.old { end = end_with self.old (length packed.now) }) }
        ensures room { OnOk result (end_with self.old (length packed.now) < most_end self.old) }
        ensures full { IfErr result (λ f. IfFull f
            (most_end self.old ≤ end_with self.old (length packed.now))) }
        ensures unchanged { IfErr result (λ f. IfFull f (F.holds files.new ≡ F.holds files.old)) }
        ensures found { IfErr result IsNotDamaged }
        ensures list { OnErr result (self.new ≡ self.old) }
        ensures cause { HasCause File (F.faults files.old) (F.faults files.new) result }
    {
        let put = self.put_at_end(files, packed)?;
        Ok(put.at)
    }

    /// Puts a row into the deleted blocks from the head of the list, as many as it takes, and behind the
    /// end what they do not hold, and answers what that did. What the last block leaves over is released. All
    /// that is read is read before anything is written: `Damaged` comes exactly where a block that is read
    /// is not what the list needs there, and then `Full` exactly where the end would not stay below its
    /// limit, or where no file can end there; then nothing is changed.
    pub fn put<F: Files>(&mut self, files: &mut F, packed: &[u8]) -> Result<Put, FreeFault>
        requires writable { IsTrue F.writable }
        requires some { 0 < length packed.now }
        requires few { length packed.now < 2 ^ 32 }
        requires long { IfTold (F.holds files.old) (IsLong self.old) }
        ensures ok { IfOk result (λ put. Told (F.holds files.old) (F.holds files.new)
            (PutsNew self.old self.new packed.now put.at)) }
        ensures tallies { IfOk result (λ put. IfTold (F.holds files.old)
            (TalliesNew self.old (length packed.now) put)) }
        ensures puts { OnOk result (Told (F.holds files.old) (F.holds files.new)
            (Puts self.old.name (ends_of self.old) packed.now (ends_of self.new))) }
        ensures appended { OnOk result (Told (F.holds files.old) (F.holds files.new)
            (AppendsNew self.old self.new packed.now)) }
        ensures others { Told (F.holds files.old) (F.holds files.new) (OthersStay self.old.name) }
        ensures place { IfOk result (λ put. put.at ≡ (next_by self.old.head self.old.end).0) }
        ensures inside { IfOk result (λ put. put.at ≤ self.new.end) }
        ensures state { self.new ≡ record self.old { head = self.new.head; end = self.new.end } }
        ensures room { OnOk result (self.new.end < most_end self.old) }
        ensures damaged { IfErr result (λ f. IfDamaged f (λ p. IfTold (F.holds files.old)
            (PutFindsBad self.old (length packed.now) p))) }
        ensures full { IfErr result (λ f. IfFull f (IfTold (F.holds files.old)
            (PutIsLong self.old (length packed.now)))) }
        ensures unchanged { IfErr result (λ f. IfDamaged f (λ p.
            F.holds files.new ≡ F.holds files.old)) }
        ensures refused { IfErr result (λ f. IfFull f (F.holds files.new ≡ F.holds files.old)) }
        ensures list { OnErr result (self.new ≡ self.old) }
        ensures cause { HasCause File (F.faults files.old) (F.faults files.new) result }
    {
        let (at, _) = self.place();
        let list = ListEnds {
            head: self.head,
            end: self.end,
        };
        let end_below = self.limits.end_below;
        let new = put_row(files, &self.name, list, &mut self.pieces, packed, end_below)?;
        self.head = new.list.head;
        self.end = new.list.end;
        Ok(Put {
            at,
            blocks: self.pieces.len() as u64,
            bytes: sizes_of(&self.pieces),
            taken: new.taken,
            more: new.more,
        })
    }

    /// Puts a row into the deleted blocks from the head of the list, as many as it takes, and behind the
    /// end what they do not hold, and answers its place: `put`. What the last block leaves over is released. All
    /// that is read is read before anything is written: `Damaged` comes exactly where a block that is read
    /// is not what the list needs there, and then `Full` exactly where the end would not stay below its
    /// limit, or where no file can end there; then nothing is changed.
    pub fn write_row<F: Files>(&mut self, files: &mut F, packed: &[u8]) -> Result<u64, FreeFault>
        requires writable { IsTrue F.writable }
        requires some { 0 < length packed.now }
        requires few { length packed.now < 2 ^ 32 }
        requires long { IfTold (F.holds files.old) (IsLong self.old) }
        ensures ok { IfOk result (λ at. Told (F.holds files.old) (F.holds files.new)
            (PutsNew self.old self.new packed.now at)) }
        ensures puts { OnOk result (Told (F.holds files.old) (F.holds files.new)
            (Puts self.old.name (ends_of self.old) packed.now (ends_of self.new))) }
        ensures appended { OnOk result (Told (F.holds files.old) (F.holds files.new)
            (AppendsNew self.old self.new packed.now)) }
        ensures others { Told (F.holds files.old) (F.holds files.new) (OthersStay self.old.name) }
        ensures place { IfOk result (λ at. at ≡ (next_by self.old.head self.old.end).0) }
        ensures state { self.new ≡ record self.old { head = self.new.head; end = self.new.end } }
        ensures room { OnOk result (self.new.end < most_end self.old) }
        ensures damaged { IfErr result (λ f. IfDamaged f (λ p. IfTold (F.holds files.old)
            (PutFindsBad self.old (length packed.now) p))) }
        ensures full { IfErr result (λ f. IfFull f (IfTold (F.holds files.old)
            (PutIsLong self.old (length packed.now)))) }
        ensures unchanged { IfErr result (λ f. IfDamaged f (λ p.
            F.holds files.new ≡ F.holds files.old)) }
        ensures refused { IfErr result (λ f. IfFull f (F.holds files.new ≡ F.holds files.old)) }
        ensures list { OnErr result (self.new ≡ self.old) }
        ensures cause { HasCause File (F.faults files.old) (F.faults files.new) result }
    {
        let put = self.put(files, packed)?;
        Ok(put.at)
    }

    /// Releases an area: it is joined with the deleted block directly behind it, where both together are
    /// not too long, and becomes the head of the list. One that is longer than a deleted block can be is
    /// released as two, the back part first. `Damaged` comes exactly where a block that is read is not
    /// what the list needs there, and then nothing is changed.
    pub fn release<F: Files>(&mut self, files: &mut F, at: u64, size: u32) -> Result<(), FreeFault>
        requires writable { IsTrue F.writable }
        requires place { IsPlace at size self.old.end }
        requires most { size ≤ half_size + most_size }
        requires long { IfTold (F.holds files.old) (IsLong self.old) }
        ensures ok { OnOk result (Told (F.holds files.old) (F.holds files.new)
            (Releases self.old self.new (record { at = at; size = size }))) }
        ensures others { Told (F.holds files.old) (F.holds files.new) (OthersStay self.old.name) }
        ensures finds { OnOk result (IfTold (F.holds files.old)
            (FindsAll self.old (record { at = at; size = size }))) }
        ensures head { OnOk result (self.new ≡ record self.old { head = Some at }) }
        ensures damaged { IfErr result (λ f. IfDamaged f (λ p. IfTold (F.holds files.old)
            (FindsBad self.old (record { at = at; size = size }) p))) }
        ensures unchanged { IfErr result (λ f. IfDamaged f (λ p.
            F.holds files.new ≡ F.holds files.old)) }
        ensures room { IfErr result IsNotFull }
        ensures list { OnErr result (self.new ≡ self.old) }
        ensures cause { HasCause File (F.faults files.old) (F.faults files.new) result }
    {
        if size <= MOST_SIZE {
            release_one(files, &self.name, self.end, self.head, at, size)?;
            self.head = Some(at);
            return Ok(());
        }
        release_two(files, &self.name, self.end, self.head, at, size)?;
        self.head = Some(at);
        Ok(())
    }

    /// Releases the blocks of the row at a place, from the first to the last, and answers what that did. All
    /// that is read is read before anything is written: `Damaged` comes exactly where a block that is read is
    /// not what the row's chain or the list needs there, and then nothing is changed. Blocks of a chain that
    /// overlap one another are taken as they are; no row that stands has such.
    pub fn release_row<F: Files>(&mut self, files: &mut F, at: u64) -> Result<Freed, FreeFault>
        requires writable { IsTrue F.writable }
        requires long { IfTold (F.holds files.old) (IsLong self.old) }
        ensures ok { OnOk result (Told (F.holds files.old) (F.holds files.new)
            (RowIsFreed self.old self.new at)) }
        ensures tallies { IfOk result (λ freed. IfTold (F.holds files.old)
            (TalliesFreed self.old at freed)) }
        ensures frees { OnOk result (Told (F.holds files.old) (F.holds files.new)
            (FreesRow self.old self.new at)) }
        ensures others { Told (F.holds files.old) (F.holds files.new) (OthersStay self.old.name) }
        ensures state { self.new ≡ record self.old { head = self.new.head } }
        ensures damaged { IfErr result (λ f. IfDamaged f (λ p. IfTold (F.holds files.old)
            (RowFindsBad self.old at p))) }
        ensures unchanged { IfErr result (λ f. IfDamaged f (λ p.
            F.holds files.new ≡ F.holds files.old)) }
        ensures room { IfErr result IsNotFull }
        ensures list { OnErr result (self.new ≡ self.old) }
        ensures cause { HasCause File (F.faults files.old) (F.faults files.new) result }
    {
        let list = ListEnds {
            head: self.head,
            end: self.end,
        };
        self.pieces.clear();
        read_row(files, &self.name, self.end, at, &mut self.pieces)?;
        self.parts.clear();
        split(&self.pieces, &mut self.parts)?;
        self.heads.clear();
        let released = plan_releases(files, &self.name, &list, &self.parts, &mut self.heads)?;
        write_heads(files, &self.name, self.heads.as_slice())?;
        self.head = released.head;
        Ok(Freed {
            blocks: self.pieces.len() as u64,
            bytes: sizes_of(&self.pieces),
            more: released.more,
        })
    }

    /// Puts a row in the place of the one at a place, and answers what that did: into the blocks of that one, in
    /// their order, then into the deleted blocks from the head of the list, and behind the end what they do not
    /// hold. What it leaves of them is released, once it is written. All that is read is read before anything is written: `Damaged`
    /// comes exactly where a block that is read is not what the chain of the other row or the list needs there,
    /// and then `Full` exactly where the end would not stay below its limit, or where no file can end there;
    /// then nothing is changed. Blocks of a chain that overlap one another are taken as they are; no row that
    /// stands has such.
    pub fn replace<F: Files>(
        &mut self,
        files: &mut F,
        at: u64,
        packed: &[u8],
    ) -> Result<Replaced, FreeFault>
        requires writable { IsTrue F.writable }
        requires some { 0 < length packed.now }
        requires few { length packed.now < 2 ^ 32 }
        requires long { IfTold (F.holds files.old) (IsLong self.old) }
        ensures ok { OnOk result (Told (F.holds files.old) (F.holds files.new)
            (PutsAgain self.old self.new at packed.now)) }
        ensures tallies { IfOk result (λ r. IfTold (F.holds files.old)
            (TalliesReplaced self.old at (length packed.now) r)) }
        ensures rewrites { OnOk result (Told (F.holds files.old) (F.holds files.new)
            (RewritesRow self.old self.new at packed.now)) }
        ensures others { Told (F.holds files.old) (F.holds files.new) (OthersStay self.old.name) }
        ensures state { self.new ≡ record self.old { head = self.new.head; end = self.new.end } }
        ensures inside { OnOk result (at < self.new.end) }
        ensures room { OnOk result (self.new.end < most_end self.old) }
        ensures damaged { IfErr result (λ f. IfDamaged f (λ p. IfTold (F.holds files.old)
            (RewriteFindsBad self.old at (length packed.now) p))) }
        ensures full { IfErr result (λ f. IfFull f (IfTold (F.holds files.old)
            (RewriteIsLong self.old at (length packed.now)))) }
        ensures unchanged { IfErr result (λ f. IfDamaged f (λ p.
            F.holds files.new ≡ F.holds files.old)) }
        ensures refused { IfErr result (λ f. IfFull f (F.holds files.new ≡ F.holds files.old)) }
        ensures list { OnErr result (self.new ≡ self.old) }
        ensures cause { HasCause File (F.faults files.old) (F.faults files.new) result }
    {
        let room = Room {
            list: ListEnds {
                head: self.head,
                end: self.end,
            },
            below: self.limits.end_below,
        };
        let len = packed.len() as u32;
        self.own.clear();
        read_row(files, &self.name, self.end, at, &mut self.own)?;
        self.areas.clear();
        add_own(&mut self.areas, &self.own, len)?;
        self.pieces.clear();
        self.parts.clear();
        let left = take_own(&self.areas, len, &mut self.pieces, &mut self.parts)?;
        if left > 0 {
            let filled = self.pieces.len() as u64;
            let new = put_beyond(files, &self.name, room, &mut self.pieces, packed, left)?;
            self.head = new.list.head;
            self.end = new.list.end;
            let taken = new.taken - filled;
            return Ok(replaced(at, &self.own, &self.pieces, taken, new.more));
        }
        self.heads.clear();
        let freed = plan_releases(files, &self.name, &room.list, &self.parts, &mut self.heads)?;
        write_pieces(files, &self.name, &self.pieces, packed)?;
        write_heads(files, &self.name, self.heads.as_slice())?;
        self.head = freed.head;
        Ok(replaced(at, &self.own, &self.pieces, 0, freed.more))
    }

    /// Puts a row in the place of the one at a place: into the blocks of that one, in their order, then into
    /// the deleted blocks from the head of the list, and behind the end what they do not hold: `replace`. What it leaves
    /// of them is released, once it is written. All that is read is read before anything is written: `Damaged`
    /// comes exactly where a block that is read is not what the chain of the other row or the list needs there,
    /// and then `Full` exactly where the end would not stay below its limit, or where no file can end there;
    /// then nothing is changed. Blocks of a chain that overlap one another are taken as they are; no row that
    /// stands has such.
    pub fn rewrite_row<F: Files>(
        &mut self,
        files: &mut F,
        at: u64,
        packed: &[u8],
    ) -> Result<(), FreeFault>
        requires writable { IsTrue F.writable }
        requires some { 0 < length packed.now }
        requires few { length packed.now < 2 ^ 32 }
        requires long { IfTold (F.holds files.old) (IsLong self.old) }
        ensures ok { OnOk result (Told (F.holds files.old) (F.holds files.new)
            (PutsAgain self.old self.new at packed.now)) }
        ensures rewrites { OnOk result (Told (F.holds files.old) (F.holds files.new)
            (RewritesRow self.old self.new at packed.now)) }
        ensures others { Told (F.holds files.old) (F.holds files.new) (OthersStay self.old.name) }
        ensures state { self.new ≡ record self.old { head = self.new.head; end = self.new.end } }
        ensures room { OnOk result (self.new.end < most_end self.old) }
        ensures damaged { IfErr result (λ f. IfDamaged f (λ p. IfTold (F.holds files.old)
            (RewriteFindsBad self.old at (length packed.now) p))) }
        ensures full { IfErr result (λ f. IfFull f (IfTold (F.holds files.old)
            (RewriteIsLong self.old at (length packed.now)))) }
        ensures unchanged { IfErr result (λ f. IfDamaged f (λ p.
            F.holds files.new ≡ F.holds files.old)) }
        ensures refused { IfErr result (λ f. IfFull f (F.holds files.new ≡ F.holds files.old)) }
        ensures list { OnErr result (self.new ≡ self.old) }
        ensures cause { HasCause File (F.faults files.old) (F.faults files.new) result }
    {
        self.replace(files, at, packed)?;
        Ok(())
    }

    /// Takes the deleted block directly behind a free area off the list, where both together are not too
    /// long for one deleted block, and answers how long the area is then; else nothing is changed.
    /// `Damaged` comes exactly where a block that is read is not what the list needs there, and then
    /// nothing is changed.
    pub fn merge_next<F: Files>(
        &mut self,
        files: &mut F,
        at: u64,
        size: u32,
    ) -> Result<u32, FreeFault>
        requires writable { IsTrue F.writable }
        requires place { IsPlace at size self.old.end }
        requires most { size ≤ most_size }
        requires long { IfTold (F.holds files.old) (IsLong self.old) }
        ensures ok { IfOk result (λ whole. Told (F.holds files.old) (F.holds files.new)
            (Merges self.old self.new (record { at = at; size = size }) whole)) }
        ensures others { Told (F.holds files.old) (F.holds files.new) (OthersStay self.old.name) }
        ensures finds { OnOk result (IfTold (F.holds files.old)
            (MergeFinds self.old (record { at = at; size = size }))) }
        ensures most { IfOk result (λ whole. whole ≤ most_size) }
        ensures state { self.new ≡ record self.old { head = self.new.head } }
        ensures damaged { IfErr result (λ f. IfDamaged f (λ p. IfTold (F.holds files.old)
            (MergeFindsBad self.old (record { at = at; size = size }) p))) }
        ensures unchanged { IfErr result (λ f. IfDamaged f (λ p.
            F.holds files.new ≡ F.holds files.old)) }
        ensures room { IfErr result IsNotFull }
        ensures list { OnErr result (self.new ≡ self.old) }
        ensures cause { HasCause File (F.faults files.old) (F.faults files.new) result }
    {
        let merged = merge_one(files, &self.name, self.end, self.head, at, size)?;
        self.head = merged.head;
        Ok(merged.size)
    }
}
