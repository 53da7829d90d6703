//! `RowBlocks`: the blocks of a dynamic data file that changes, wherever rows stand in it.
//!
//! What it keeps is what the index file is to say, and no note of the rows, which `BlockFile` adds.
ghost use Rattle.std.specs.Prelude.{◌≡◌, ◌<◌, ◌^◌, true, length, IfOk, IfSome};
ghost use Rattle.myi_defs.specs.Sound.{IsSound};
ghost use Rattle.myi_defs.specs.declared.types.RowFormat.TheVariants.{Dynamic};
ghost use Rattle.myi_defs.specs.Addressable.{is_addressable};
ghost use Rattle.myi_pack.specs.Spelling.{fits};
ghost use Rattle.myi_pack.specs.Unpacking.{row_of};
ghost use Rattle.myi_blocks.specs.BlockFile.{end_limit};

use crate::numbers::{Tally, end_limit, with_other, with_row, without_row};
use crate::places::note_rows;
use crate::row_chain::read_chain;
use myi_chain::{ScanFault, ScanSetup};
use myi_data::DataScan;
use myi_defs::Defs;
use myi_dellist::{FreeList, Limits, Put, Replaced};
use myi_header::State;
use myi_io::Files;
use myi_pack::{Row, pack, unpack, view};
use myi_slots::DataFault;
use myi_state::Counts;
use std::alloc::{AllocError, Global};
use std::collections::BTreeSet;
use std::marker::Model;

/// The blocks of a dynamic data file, by the name of the file.
pub(crate) struct RowBlocks {
    name: String,
    list: FreeList,
    defs: Defs,
    tally: Tally,
    /// The bytes of the row that was read last.
    row: Vec<u8>,
}

impl Drop for RowBlocks {
    fn drop(self) {
        let RowBlocks {
            name: _,
            list: _,
            defs: _,
            tally: _,
            row: _,
        } = self;
    }
}

impl Model for RowBlocks {
    ghost use Rattle.std.specs.Prelude.{◌≡◌, string_bytes};
    ghost use Rattle.myi_defs.specs.Sound.{IsSound};
    ghost use Rattle.myi_defs.specs.declared.types.RowFormat.TheVariants.{Dynamic};
    ghost use Rattle.myi_slots.specs.SlotFile.{SlotFile};
    ghost use Rattle.myi_blocks.specs.BlockFile.{HasLimit};

    ghost Value = { SlotFile };

    ghost view = { λ s. record {
      name = s.list.name;
      defs = s.defs;
      counts = record {
        records = s.tally.records;
        del = s.tally.del;
        split = s.tally.split;
        empty = s.tally.empty;
        length = s.list.end;
        dellink = s.list.head;
      };
    } };

    ghost invariant = { λ s. IsSound s.defs × (s.defs.format ≡ Dynamic) × HasLimit s.defs s.list
        × (string_bytes s.name ≡ s.list.name) };
}

/// The place that the end of a file stays below: row pointers reach all of a file that ends before it, if they
/// reach all of this one.
fn limit_of(defs: &Defs, end: u64) -> u128
    requires { defs.now.format ≡ Dynamic }
    ensures above { end < result }
    ensures limit { is_addressable defs.now end ≡ true → result ≡ end_limit defs.now }
{
    if !defs.addressable(end) {
        return end as u128 + 1;
    }
    end_limit(defs.rec_ref) as u128
}

impl RowBlocks {
    ghost use Rattle.std.specs.Prelude.{◌≡◌, ◌⊎◌, ◌≤◌, ◌<◌, ◌-◌, ◌^◌, true, false, is_some, unwrap_or, length, None, IfOk, IfErr, OnOk, OnErr, IsTrue};
    ghost use Rattle.myi_base.specs.Holding.{IfTold, Told, OthersStay, bytes_of};
    ghost use Rattle.myi_base.specs.Causes.{HasCause};
    ghost use Rattle.myi_defs.specs.declared.types.RowFormat.TheVariants.{Dynamic};
    ghost use Rattle.myi_defs.specs.Sound.{IsSound};
    ghost use Rattle.myi_pack.specs.Spelling.{spelling, fits};
    ghost use Rattle.myi_dellist.specs.Rows.{PutsNew, PutsAtEnd, TalliesNew, TalliesAtEnd};
    ghost use Rattle.myi_dellist.specs.Freed.{RowIsFreed};
    ghost use Rattle.myi_dellist.specs.Replacing.{PutsAgain, TalliesReplaced, RewritesRow};
    ghost use Rattle.myi_dellist.specs.Putting.{Puts, ends_of};
    ghost use Rattle.myi_dellist.specs.Appending.{Appends, AppendsNew};
    ghost use Rattle.myi_state.specs.Changes.{insert, insert_at_end, delete, update};
    ghost use Rattle.myi_slots.specs.declared.fault.DataFault.TheVariants.{File};
    ghost use Rattle.myi_slots.specs.SlotFile.{IsLong, Steps, Refuses, Adds, AddsNew, CutsOff, IfRefused, ByCause, Never, counts_in, is_reached, risen};
    ghost use Rattle.myi_blocks.specs.BlockFile.{list_in, end_with, FindsBad, FindsRowBad, FindsOtherBad, LacksRoom, LacksOtherRoom, WritesNew, WritesGone, WritesOther, counts_with, counts_again};
    ghost use Rattle.myi_blocks.specs.Standing.{StepsRow, RefusesRow};
    ghost use Rattle.myi_blocks.specs.RowReading.{LacksRow, IsRowAt, ReadsFew};
    ghost use Rattle.myi_blocks.specs.Places.{AreRead};

    /// The data file of that name, with these definitions of a dynamic table and this state.
    pub(crate) fn new(
        alloc: Global,
        name: &str,
        defs: &Defs,
        state: &State,
    ) -> Result<RowBlocks, AllocError>
        requires sound { IsSound defs.now }
        requires format { defs.now.format ≡ Dynamic }
        ensures { IfOk result (λ file. file ≡ record {
          name = name.now;
          defs = defs.now;
          counts = counts_in state.now;
        }) }
    {
        let end = state.data_file_length;
        let limits = Limits {
            end_below: limit_of(defs, end),
        };
        Ok(RowBlocks {
            name: String::from_str(alloc, name)?,
            list: FreeList::new(alloc, name, state.dellink, end, limits)?,
            defs: defs.copy()?,
            tally: Tally {
                records: state.records,
                del: state.del,
                split: state.split,
                empty: state.empty,
            },
            row: Vec::new(alloc),
        })
    }

    /// The numbers that the table's state is to have. It takes no memory.
    pub(crate) fn counts(&self) -> Counts
        ensures { result ≡ self.now.counts }
    {
        Counts {
            records: self.tally.records,
            del: self.tally.del,
            split: self.tally.split,
            empty: self.tally.empty,
            length: self.list.end(),
            dellink: self.list.head(),
        }
    }

    /// Whether a block is deleted, so that the next row goes there. It takes no memory.
    pub(crate) fn holes(&self) -> bool
        ensures { result ≡ is_some self.now.counts.dellink }
    {
        self.list.head().is_some()
    }

    /// Puts a row of these bytes where it is to go.
    fn put<F: Files>(&mut self, files: &mut F, packed: &[u8]) -> Result<Put, DataFault>
        requires writable { IsTrue F.writable }
        requires some { 0 < length packed.now }
        requires few { length packed.now < 2 ^ 32 }
        requires long { IfTold (F.holds files.old) (IsLong self.old) }
        ensures sound { IsSound self.old.defs }
        ensures format { self.old.defs.format ≡ Dynamic }
        ensures ok { IfOk result (λ put. Told (F.holds files.old) (F.holds files.new)
            (PutsNew (list_in self.old) (list_in self.new) packed.now put.at)) }
        ensures tallies { IfOk result (λ put. IfTold (F.holds files.old)
            (TalliesNew (list_in self.old) (length packed.now) put)) }
        ensures counted { IfOk result (λ put. self.new ≡ record self.old {
          counts = counts_with put self.new.counts.length self.new.counts.dellink self.old.counts;
        }) }
        ensures written { OnOk result (Told (F.holds files.old) (F.holds files.new)
            (Puts self.old.name (ends_of (list_in self.old)) packed.now
            (ends_of (list_in self.new)))) }
        ensures appended { OnOk result (Told (F.holds files.old) (F.holds files.new)
            (AppendsNew (list_in self.old) (list_in self.new) packed.now)) }
        ensures others { Told (F.holds files.old) (F.holds files.new) (OthersStay self.old.name) }
        ensures place { IfOk result (λ put.
            put.at ≡ unwrap_or self.old.counts.dellink self.old.counts.length) }
        ensures inside { IfOk result (λ put. put.at ≤ self.new.counts.length) }
        ensures room { OnOk result (is_reached self.new.counts.length self.old ≡ true) }
        ensures causes { IfErr result (ByCause Never
            ((is_reached self.old.counts.length self.old ≡ false)
            ⊎ IfTold (F.holds files.old) (LacksRoom self.old (length packed.now)))
            (λ p. IfTold (F.holds files.old) (FindsBad self.old (length packed.now) p))) }
        ensures unchanged { IfErr result (λ f. IfRefused f
            (F.holds files.new ≡ F.holds files.old)) }
        ensures same { OnErr result (self.new ≡ self.old) }
        ensures cause { HasCause File (F.faults files.old) (F.faults files.new) result }
    {
        let before = self.list.end();
        if !self.defs.addressable(before) {
            return Err(DataFault::Full);
        }
        let put = self.list.put(files, packed)?;
        let grown = self.list.end().saturating_sub(before);
        self.tally = with_row(self.tally, put, grown);
        Ok(put)
    }

    /// Puts a row of these bytes behind the end.
    fn append<F: Files>(&mut self, files: &mut F, packed: &[u8]) -> Result<Put, DataFault>
        requires writable { IsTrue F.writable }
        requires some { 0 < length packed.now }
        requires few { length packed.now < 2 ^ 32 }
        requires long { IfTold (F.holds files.old) (IsLong self.old) }
        ensures sound { IsSound self.old.defs }
        ensures format { self.old.defs.format ≡ Dynamic }
        ensures ok { IfOk result (λ put. Told (F.holds files.old) (F.holds files.new)
            (PutsAtEnd (list_in self.old) (list_in self.new) packed.now put.at)) }
        ensures tallies { IfOk result (TalliesAtEnd (list_in self.old) (length packed.now)) }
        ensures counted { IfOk result (λ put. self.new ≡ record self.old {
          counts = counts_with put self.new.counts.length self.new.counts.dellink self.old.counts;
        }) }
        ensures appended { OnOk result (Told (F.holds files.old) (F.holds files.new)
            (Appends (list_in self.old) (list_in self.new) packed.now)) }
        ensures others { Told (F.holds files.old) (F.holds files.new) (OthersStay self.old.name) }
        ensures place { IfOk result (λ put. put.at ≡ self.old.counts.length) }
        ensures inside { IfOk result (λ put. put.at ≤ self.new.counts.length) }
        ensures room { OnOk result (is_reached self.new.counts.length self.old ≡ true) }
        ensures causes { IfErr result (ByCause Never
            (is_reached (end_with self.old (length packed.now)) self.old ≡ false) Never) }
        ensures unchanged { IfErr result (λ f. IfRefused f
            (F.holds files.new ≡ F.holds files.old)) }
        ensures same { OnErr result (self.new ≡ self.old) }
        ensures cause { HasCause File (F.faults files.old) (F.faults files.new) result }
    {
        let before = self.list.end();
        if !self.defs.addressable(before) {
            return Err(DataFault::Full);
        }
        let put = self.list.put_at_end(files, packed)?;
        let grown = self.list.end().saturating_sub(before);
        self.tally = with_row(self.tally, put, grown);
        Ok(put)
    }

    /// Puts a new row into the deleted blocks from the head of the list, and behind the end what they do not
    /// hold, and answers its position. `Full` comes exactly where row pointers would not reach the whole
    /// file, `Damaged` only where a block that is read is not what the list needs there. Both change
    /// nothing.
    pub(crate) fn insert<F: Files>(&mut self, files: &mut F, row: &Row) -> Result<u64, DataFault>
        requires writable { IsTrue F.writable }
        requires fits { IsTrue (fits self.old.defs row.now) }
        requires long { IfTold (F.holds files.old) (IsLong self.old) }
        ensures ok { IfOk result (λ at. Told (F.holds files.old) (F.holds files.new)
            (Steps (insert row.now) self.old self.new at)) }
        ensures refused { IfErr result (λ f. IfTold (F.holds files.old)
            (Refuses (insert row.now) self.old f)) }
        ensures puts { IfOk result (λ at. Told (F.holds files.old) (F.holds files.new)
            (PutsNew (list_in self.old) (list_in self.new) (spelling self.old.defs row.now) at)) }
        ensures written { OnOk result (Told (F.holds files.old) (F.holds files.new)
            (WritesNew self.old self.new row.now)) }
        ensures appended { OnOk result (Told (F.holds files.old) (F.holds files.new)
            (AddsNew self.old self.new row.now)) }
        ensures others { Told (F.holds files.old) (F.holds files.new) (OthersStay self.old.name) }
        ensures place { IfOk result (λ at.
            at ≡ unwrap_or self.old.counts.dellink self.old.counts.length) }
        ensures inside { IfOk result (λ at. at ≤ self.new.counts.length) }
        ensures room { OnOk result (is_reached self.new.counts.length self.old ≡ true) }
        ensures object { self.new ≡ record self.old { counts = self.new.counts } }
        ensures records { OnOk result
            (self.new.counts.records ≡ risen self.old.counts.records 1) }
        ensures causes { IfErr result (ByCause Never
            ((is_reached self.old.counts.length self.old ≡ false)
            ⊎ IfTold (F.holds files.old)
            (LacksRoom self.old (length (spelling self.old.defs row.now))))
            (λ p. IfTold (F.holds files.old)
            (FindsBad self.old (length (spelling self.old.defs row.now)) p))) }
        ensures unchanged { IfErr result (λ f. IfRefused f
            (F.holds files.new ≡ F.holds files.old)) }
        ensures same { OnErr result (self.new ≡ self.old) }
        ensures cause { HasCause File (F.faults files.old) (F.faults files.new) result }
    {
        let packed = pack(self.defs.raw.allocator(), &self.defs, row)?;
        let put = self.put(files, packed.as_slice())?;
        Ok(put.at)
    }

    /// Puts a new row behind the end, whatever is deleted, and answers its position. `Full` comes exactly
    /// where row pointers would not reach the whole file, and changes nothing.
    pub(crate) fn insert_at_end<F: Files>(
        &mut self,
        files: &mut F,
        row: &Row,
    ) -> Result<u64, DataFault>
        requires writable { IsTrue F.writable }
        requires fits { IsTrue (fits self.old.defs row.now) }
        requires long { IfTold (F.holds files.old) (IsLong self.old) }
        ensures ok { IfOk result (λ at. Told (F.holds files.old) (F.holds files.new)
            (Steps (insert_at_end row.now) self.old self.new at)) }
        ensures refused { IfErr result (λ f. IfTold (F.holds files.old)
            (Refuses (insert_at_end row.now) self.old f)) }
        ensures puts { IfOk result (λ at. Told (F.holds files.old) (F.holds files.new)
            (PutsAtEnd (list_in self.old) (list_in self.new) (spelling self.old.defs row.now) at)) }
        ensures appended { OnOk result (Told (F.holds files.old) (F.holds files.new)
            (Adds self.old self.new row.now)) }
        ensures others { Told (F.holds files.old) (F.holds files.new) (OthersStay self.old.name) }
        ensures place { IfOk result (λ at. at ≡ self.old.counts.length) }
        ensures inside { IfOk result (λ at. at ≤ self.new.counts.length) }
        ensures room { OnOk result (is_reached self.new.counts.length self.old ≡ true) }
        ensures object { self.new ≡ record self.old { counts = self.new.counts } }
        ensures records { OnOk result
            (self.new.counts.records ≡ risen self.old.counts.records 1) }
        ensures causes { IfErr result (ByCause Never
            (is_reached (end_with self.old (length (spelling self.old.defs row.now))) self.old
            ≡ false) Never) }
        ensures unchanged { IfErr result (λ f. IfRefused f
            (F.holds files.new ≡ F.holds files.old)) }
        ensures same { OnErr result (self.new ≡ self.old) }
        ensures cause { HasCause File (F.faults files.old) (F.faults files.new) result }
    {
        let packed = pack(self.defs.raw.allocator(), &self.defs, row)?;
        let put = self.append(files, packed.as_slice())?;
        Ok(put.at)
    }

    /// Releases the blocks of the row at a position, where one stands. `Full` comes exactly where row pointers do
    /// not reach the whole file, and then `Damaged` only where a block that is read is not what the row or
    /// the list needs there. Both change nothing.
    pub(crate) fn delete<F: Files>(&mut self, files: &mut F, at: u64) -> Result<(), DataFault>
        requires writable { IsTrue F.writable }
        requires long { IfTold (F.holds files.old) (IsLong self.old) }
        ensures ok { OnOk result (Told (F.holds files.old) (F.holds files.new)
            (StepsRow (delete at) at self.old self.new)) }
        ensures refused { IfErr result (λ f. IfTold (F.holds files.old)
            (RefusesRow (delete at) at self.old f)) }
        ensures frees { OnOk result (Told (F.holds files.old) (F.holds files.new)
            (RowIsFreed (list_in self.old) (list_in self.new) at)) }
        ensures written { OnOk result (Told (F.holds files.old) (F.holds files.new)
            (WritesGone self.old self.new at)) }
        ensures others { Told (F.holds files.old) (F.holds files.new) (OthersStay self.old.name) }
        ensures room { OnOk result (is_reached self.old.counts.length self.old ≡ true) }
        ensures object { self.new ≡ record self.old { counts = self.new.counts } }
        ensures records { OnOk result (self.new.counts.records ≡ self.old.counts.records - 1) }
        ensures length { OnOk result (self.new.counts.length ≡ self.old.counts.length) }
        ensures causes { IfErr result (ByCause Never
            (is_reached self.old.counts.length self.old ≡ false)
            (λ p. IfTold (F.holds files.old) (FindsRowBad self.old at p))) }
        ensures unchanged { IfErr result (λ f. IfRefused f
            (F.holds files.new ≡ F.holds files.old)) }
        ensures same { OnErr result (self.new ≡ self.old) }
        ensures cause { HasCause File (F.faults files.old) (F.faults files.new) result }
    {
        if !self.defs.addressable(self.list.end()) {
            return Err(DataFault::Full);
        }
        let freed = self.list.release_row(files, at)?;
        self.tally = without_row(self.tally, freed);
        Ok(())
    }

    /// Puts a row of these bytes in the place of the one at a position.
    fn replace<F: Files>(
        &mut self,
        files: &mut F,
        at: u64,
        packed: &[u8],
    ) -> Result<Replaced, DataFault>
        requires writable { IsTrue F.writable }
        requires some { 0 < length packed.now }
        requires few { length packed.now < 2 ^ 32 }
        requires long { IfTold (F.holds files.old) (IsLong self.old) }
        ensures sound { IsSound self.old.defs }
        ensures format { self.old.defs.format ≡ Dynamic }
        ensures ok { OnOk result (Told (F.holds files.old) (F.holds files.new)
            (PutsAgain (list_in self.old) (list_in self.new) at packed.now)) }
        ensures tallies { IfOk result (λ new. IfTold (F.holds files.old)
            (TalliesReplaced (list_in self.old) at (length packed.now) new)) }
        ensures written { OnOk result (Told (F.holds files.old) (F.holds files.new)
            (RewritesRow (list_in self.old) (list_in self.new) at packed.now)) }
        ensures counted { IfOk result (λ new. self.new ≡ record self.old {
          counts = counts_again new self.new.counts.length self.new.counts.dellink self.old.counts;
        }) }
        ensures others { Told (F.holds files.old) (F.holds files.new) (OthersStay self.old.name) }
        ensures inside { OnOk result (at < self.new.counts.length) }
        ensures room { OnOk result (is_reached self.new.counts.length self.old ≡ true) }
        ensures causes { IfErr result (ByCause Never
            ((is_reached self.old.counts.length self.old ≡ false)
            ⊎ IfTold (F.holds files.old) (LacksOtherRoom self.old at (length packed.now)))
            (λ p. IfTold (F.holds files.old)
            (FindsOtherBad self.old at (length packed.now) p))) }
        ensures unchanged { IfErr result (λ f. IfRefused f
            (F.holds files.new ≡ F.holds files.old)) }
        ensures same { OnErr result (self.new ≡ self.old) }
        ensures cause { HasCause File (F.faults files.old) (F.faults files.new) result }
    {
        let before = self.list.end();
        if !self.defs.addressable(before) {
            return Err(DataFault::Full);
        }
        let new = self.list.replace(files, at, packed)?;
        let grown = self.list.end().saturating_sub(before);
        self.tally = with_other(self.tally, new, grown);
        Ok(new)
    }

    /// Puts other values in the place of the row at a position, where one stands: into its blocks, then into the
    /// deleted ones from the head of the list, and behind the end what they do not hold. `Full` comes only where
    /// row pointers would not reach the whole file, `Damaged` only where a block that is read is not what the
    /// row or the list needs there. Both change nothing.
    pub(crate) fn update<F: Files>(
        &mut self,
        files: &mut F,
        at: u64,
        row: &Row,
    ) -> Result<(), DataFault>
        requires writable { IsTrue F.writable }
        requires fits { IsTrue (fits self.old.defs row.now) }
        requires long { IfTold (F.holds files.old) (IsLong self.old) }
        ensures ok { OnOk result (Told (F.holds files.old) (F.holds files.new)
            (StepsRow (update at row.now) at self.old self.new)) }
        ensures refused { IfErr result (λ f. IfTold (F.holds files.old)
            (RefusesRow (update at row.now) at self.old f)) }
        ensures puts { OnOk result (Told (F.holds files.old) (F.holds files.new)
            (PutsAgain (list_in self.old) (list_in self.new) at
            (spelling self.old.defs row.now))) }
        ensures written { OnOk result (Told (F.holds files.old) (F.holds files.new)
            (WritesOther self.old self.new at row.now)) }
        ensures others { Told (F.holds files.old) (F.holds files.new) (OthersStay self.old.name) }
        ensures inside { OnOk result (at < self.new.counts.length) }
        ensures room { OnOk result (is_reached self.new.counts.length self.old ≡ true) }
        ensures object { self.new ≡ record self.old { counts = self.new.counts } }
        ensures records { OnOk result (self.new.counts.records ≡ self.old.counts.records) }
        ensures causes { IfErr result (ByCause Never
            ((is_reached self.old.counts.length self.old ≡ false)
            ⊎ IfTold (F.holds files.old)
            (LacksOtherRoom self.old at (length (spelling self.old.defs row.now))))
            (λ p. IfTold (F.holds files.old)
            (FindsOtherBad self.old at (length (spelling self.old.defs row.now)) p))) }
        ensures unchanged { IfErr result (λ f. IfRefused f
            (F.holds files.new ≡ F.holds files.old)) }
        ensures same { OnErr result (self.new ≡ self.old) }
        ensures cause { HasCause File (F.faults files.old) (F.faults files.new) result }
    {
        let packed = pack(self.defs.raw.allocator(), &self.defs, row)?;
        self.replace(files, at, packed.as_slice())?;
        Ok(())
    }

    /// Reads the row at a position. `Damaged` comes only where none stands there.
    pub(crate) fn read_row<F: Files>(&mut self, files: &mut F, at: u64) -> Result<Row, DataFault>
        requires long { IfTold (F.holds files.old) (IsLong self.old) }
        ensures told { IfOk result (λ row. IfTold (F.holds files.old) (IsRowAt self.old at row)) }
        ensures fits { IfOk result (λ row. fits self.old.defs row ≡ true) }
        ensures err { IfErr result (ByCause Never ⊥ (λ p.
            IfTold (F.holds files.old) (LacksRow self.old at))) }
        ensures few { IfTold (F.holds files.old)
            (ReadsFew self.old at (F.reads files.old) (F.reads files.new)) }
        ensures same { self.new ≡ self.old }
        ensures holds { F.holds files.new ≡ F.holds files.old }
        ensures cause { HasCause File (F.faults files.old) (F.faults files.new) result }
    {
        read_chain(
            files,
            self.name.as_str(),
            at,
            self.list.end(),
            &mut self.row,
        )?;
        match row_in(&self.defs, self.row.as_slice())? {
            Some(row) => Ok(row),
            None => Err(DataFault::Damaged { at }),
        }
    }

    /// The positions at which rows stand, by one scan of the file.
    pub(crate) fn places<F: Files>(&self, files: &mut F) -> Result<BTreeSet<u64>, DataFault>
        requires long { IfTold (F.holds files.old) (IsLong self.now) }
        ensures told { IfOk result (λ places. IfTold (F.holds files.old)
            (AreRead self.now places.keys)) }
        ensures cut { IfErr result CutsOff }
        ensures holds { F.holds files.new ≡ F.holds files.old }
        ensures cause { HasCause File (F.faults files.old) (F.faults files.new) result }
    {
        let setup = ScanSetup {
            extend: false,
            file_len: self.list.end(),
        };
        let mut scan = DataScan::of_file(self.name.as_str(), &self.defs, setup)?;
        let mut places = BTreeSet::new(self.defs.raw.allocator());
        match note_rows(files, &mut scan, &mut places) {
            Ok(()) => Ok(places),
            Err(ScanFault::File) => Err(DataFault::File),
            Err(ScanFault::Memory) => Err(DataFault::Memory),
        }
    }
}

/// The row that bytes pack, if they pack one.
fn row_in(defs: &Defs, bytes: &[u8]) -> Result<Option<Row>, AllocError>
    requires sound { IsSound defs.now }
    requires few { length bytes.now < 2 ^ 32 }
    ensures row { IfOk result (λ row. row ≡ row_of defs.now bytes.now) }
    ensures fits { IfOk result (λ row. IfSome row (λ r. fits defs.now r ≡ true)) }
{
    let alloc = defs.raw.allocator();
    match view(defs, bytes) {
        Some(row) => Ok(Some(unpack(alloc, &row)?)),
        None => Ok(None),
    }
}
