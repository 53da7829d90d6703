//! `StaticFile`: the data file of a static table that changes.
ghost use Rattle.std.specs.Prelude.{◌≡◌, true, IfOk, IfSome};
ghost use Rattle.myi_defs.specs.Sound.{IsSound};
ghost use Rattle.myi_defs.specs.declared.types.RowFormat.TheVariants.{Static};
ghost use Rattle.myi_pack.specs.Spelling.{fits};
ghost use Rattle.myi_pack.specs.Unpacking.{row_of};

use crate::fault::DataFault;
use crate::numbers::{appended, counts_in, filled, freed};
use crate::slots::{Slots, check_link, hole_at, read_slot, write_hole};
use myi_defs::Defs;
use myi_header::State;
use myi_io::{FileErr, Files};
use myi_pack::{Row, pack, unpack, view};
use myi_state::Counts;
use std::alloc::{AllocError, Global};
use std::marker::Model;

/// The data file of a static table, by the name of the file.
pub struct StaticFile {
    name: String,
    defs: Defs,
    /// As long as a slot: the last one that was read.
    slot: Vec<u8>,
    counts: Counts,
}

impl Drop for StaticFile {
    fn drop(self) {
        let StaticFile {
            name: _,
            defs: _,
            slot: _,
            counts: _,
        } = self;
    }
}

impl Model for StaticFile {
    ghost use Rattle.std.specs.Prelude.{◌≡◌, string_bytes, length};
    ghost use Rattle.myi_defs.specs.Sound.{IsSound};
    ghost use Rattle.myi_defs.specs.declared.types.RowFormat.TheVariants.{Static};
    ghost use Rattle.myi_slots.specs.SlotFile.{SlotFile};

    ghost Value = { SlotFile };

    ghost view = { λ s. record { name = string_bytes s.name; defs = s.defs; counts = s.counts } };

    ghost invariant = { λ s. IsSound s.defs × (s.defs.format ≡ Static)
        × (length s.slot.items ≡ s.defs.slot_length) };
}

impl StaticFile {
    ghost use Rattle.std.specs.Prelude.{◌≡◌, ◌≤◌, ◌<◌, ◌+◌, true, false, Some, None, is_some, unwrap_or, MatchOption, length, IfOk, IfErr, IfSome, OnOk, OnErr, IsTrue};
    ghost use Rattle.myi_base.specs.Holding.{IfTold, Told, Writes, OthersStay, bytes_of, blocks};
    ghost use Rattle.myi_base.specs.Causes.{HasCause};
    ghost use Rattle.myi_io.specs.declared.files.FileErr.TheVariants.{Failed};
    ghost use Rattle.myi_defs.specs.declared.types.RowFormat.TheVariants.{Static};
    ghost use Rattle.myi_defs.specs.Addressable.{is_addressable};
    ghost use Rattle.myi_defs.specs.Sound.{IsSound};
    ghost use Rattle.myi_pack.specs.Spelling.{spelling, fits};
    ghost use Rattle.myi_dellist.specs.Placing.{next_place};
    ghost use Rattle.myi_state.specs.Changes.{insert, insert_at_end, delete, update};
    ghost use Rattle.myi_slots.specs.declared.fault.DataFault.TheVariants.{File};
    ghost use Rattle.myi_slots.specs.SlotBytes.{is_row, row_there, hole_in, hole_bytes};
    ghost use Rattle.myi_slots.specs.SlotFile.{IsLong, Steps, Refuses, Reads, Adds, AddsNew, CutsOff, IfRefused, ByCause, Never, Fills, LacksHole, HasRow, LacksRow, LacksFirst, counts_in, appended_counts, freed_counts, IsLink, is_reached, risen, end_with, end_behind, appended};

    /// The data file of that name, with these definitions of a static table and this state.
    pub fn new(
        alloc: Global,
        name: &str,
        defs: &Defs,
        state: &State,
    ) -> Result<StaticFile, AllocError>
        requires sound { IsSound defs.now }
        requires format { defs.now.format ≡ Static }
        ensures { IfOk result (λ file. file ≡ record {
          name = name.now;
          defs = defs.now;
          counts = counts_in state.now;
        }) }
    {
        Ok(StaticFile {
            name: String::from_str(alloc, name)?,
            defs: defs.copy()?,
            slot: vec![in alloc; 0u8; defs.slot_length as usize]?,
            counts: counts_in(state),
        })
    }

    /// The numbers that the table's state is to have. It takes no memory.
    pub fn counts(&self) -> Counts
        ensures { result ≡ self.now.counts }
    {
        self.counts
    }

    /// Whether a slot is deleted, so that the next row goes there. It takes no memory.
    pub fn holes(&self) -> bool
        ensures { result ≡ is_some self.now.counts.dellink }
    {
        self.counts.dellink.is_some()
    }

    fn slots(&self) -> Slots
        ensures value { result ≡ record {
          size = self.now.defs.slot_length;
          width = self.now.defs.rec_ref;
          end = self.now.counts.length;
        } }
        ensures some { 1 ≤ result.width }
        ensures few { result.width ≤ 8 }
        ensures wide { result.width + 1 ≤ result.size }
    {
        Slots {
            size: self.defs.slot_length as u64,
            width: self.defs.rec_ref as usize,
            end: self.counts.length,
        }
    }

    /// Reads the slot at a place, and answers whether it packs a row.
    fn is_row<F: Files>(&mut self, files: &mut F, at: u64) -> Result<bool, FileErr>
        ensures sound { IsSound self.old.defs }
        ensures format { self.old.defs.format ≡ Static }
        ensures told { IfOk result (λ is. IfTold (F.holds files.old) (λ m. IsLong self.old m
            → is ≡ is_row self.old.defs (bytes_of self.old.name m) at)) }
        ensures has { IfOk result (λ is. is ≡ true → IfTold (F.holds files.old) (λ m.
            IsLong self.old m → HasRow self.old at m)) }
        ensures lacks { IfOk result (λ is. is ≡ false → IfTold (F.holds files.old) (λ m.
            IsLong self.old m → LacksRow self.old at m)) }
        ensures inside { IfOk result (λ is. is ≡ true
            → at + self.old.defs.slot_length ≤ self.old.counts.length) }
        ensures object { self.new ≡ self.old }
        ensures holds { F.holds files.new ≡ F.holds files.old }
        ensures few { F.reads files.new ≤ F.reads files.old + blocks self.old.defs.slot_length }
        ensures cause { HasCause Failed (F.faults files.old) (F.faults files.new) result }
    {
        let slots = self.slots();
        if !read_slot(files, self.name.as_str(), slots, at, &mut self.slot)? {
            return Ok(false);
        }
        Ok(view(&self.defs, self.slot.as_slice()).is_some())
    }

    /// Writes a row behind the end.
    fn append<F: Files>(&mut self, files: &mut F, packed: &[u8]) -> Result<u64, DataFault>
        requires writable { IsTrue F.writable }
        ensures at { IfOk result (λ at. at ≡ self.old.counts.length) }
        ensures room { OnOk result (is_addressable self.old.defs
            (self.old.counts.length + length packed.now) ≡ true) }
        ensures written { OnOk result (Told (F.holds files.old) (F.holds files.new)
            (Writes self.old.name self.old.counts.length packed.now)) }
        ensures others { Told (F.holds files.old) (F.holds files.new) (OthersStay self.old.name) }
        ensures object { OnOk result (self.new ≡ record self.old {
          counts = appended_counts
              (self.old.counts.length + length packed.now) self.old.counts;
        }) }
        ensures refused { IfErr result (ByCause Never (is_addressable self.old.defs
            (self.old.counts.length + length packed.now) ≡ false) Never) }
        ensures unchanged { IfErr result (λ f. IfRefused f
            (F.holds files.new ≡ F.holds files.old)) }
        ensures same { OnErr result (self.new ≡ self.old) }
        ensures reads { F.reads files.new ≡ F.reads files.old }
        ensures cause { HasCause File (F.faults files.old) (F.faults files.new) result }
    {
        let at = self.counts.length;
        let Some(end) = at.checked_add(packed.len() as u64) else {
            return Err(DataFault::Full);
        };
        if !self.defs.addressable(end) {
            return Err(DataFault::Full);
        }
        files.write_at(self.name.as_str(), at, packed)?;
        self.counts = appended(self.counts, end);
        Ok(at)
    }

    /// Writes a row into the first deleted slot.
    fn fill<F: Files>(&mut self, files: &mut F, at: u64, packed: &[u8]) -> Result<u64, DataFault>
        requires writable { IsTrue F.writable }
        requires long { IfTold (F.holds files.old) (IsLong self.old) }
        ensures at { IfOk result (λ p. p ≡ at) }
        ensures room { OnOk result (is_addressable self.old.defs self.old.counts.length ≡ true) }
        ensures written { OnOk result (Told (F.holds files.old) (F.holds files.new)
            (Writes self.old.name at packed.now)) }
        ensures others { Told (F.holds files.old) (F.holds files.new) (OthersStay self.old.name) }
        ensures hole { OnOk result (IfTold (F.holds files.old) (Fills self.old self.new at)) }
        ensures inside { OnOk result
            (at + self.old.defs.slot_length ≤ self.old.counts.length) }
        ensures records { OnOk result
            (self.new.counts.records ≡ risen self.old.counts.records 1) }
        ensures length { OnOk result (self.new.counts.length ≡ self.old.counts.length) }
        ensures object { self.new ≡ record self.old { counts = self.new.counts } }
        ensures refused { IfErr result (ByCause Never
            (is_addressable self.old.defs self.old.counts.length ≡ false)
            (λ p. (p ≡ at) × IfTold (F.holds files.old) (LacksHole self.old at))) }
        ensures unchanged { IfErr result (λ f. IfRefused f
            (F.holds files.new ≡ F.holds files.old)) }
        ensures same { OnErr result (self.new ≡ self.old) }
        ensures few { F.reads files.new ≤ F.reads files.old + 1 }
        ensures cause { HasCause File (F.faults files.old) (F.faults files.new) result }
    {
        if !self.defs.addressable(self.counts.length) {
            return Err(DataFault::Full);
        }
        let slots = self.slots();
        let next = hole_at(files, self.name.as_str(), slots, at)?;
        files.write_at(self.name.as_str(), at, packed)?;
        self.counts = filled(self.counts, slots.size, next);
        Ok(at)
    }

    /// Puts a new row into the first deleted slot, or behind the end where none is deleted, and answers its
    /// position. `Full` comes exactly where row pointers would not reach the whole file, `Damaged` exactly
    /// where no deleted slot stands where the list begins. Both change nothing.
    pub fn insert<F: Files>(&mut self, files: &mut F, row: &Row) -> Result<u64, DataFault>
        requires writable { IsTrue F.writable }
        requires fits { IsTrue (fits self.old.defs row.now) }
        requires long { IfTold (F.holds files.old) (IsLong self.old) }
        ensures ok { IfOk result (λ at. Told (F.holds files.old) (F.holds files.new)
            (Steps (insert row.now) self.old self.new at)) }
        ensures refused { IfErr result (λ f. IfTold (F.holds files.old)
            (Refuses (insert row.now) self.old f)) }
        ensures written { IfOk result (λ at. Told (F.holds files.old) (F.holds files.new)
            (Writes self.old.name at (spelling self.old.defs row.now))) }
        ensures others { Told (F.holds files.old) (F.holds files.new) (OthersStay self.old.name) }
        ensures appended { OnOk result (Told (F.holds files.old) (F.holds files.new)
            (AddsNew self.old self.new row.now)) }
        ensures place { IfOk result (λ at.
            at ≡ unwrap_or self.old.counts.dellink self.old.counts.length) }
        ensures room { OnOk result (is_reached (end_with self.old) self.old ≡ true) }
        ensures inside { IfOk result (λ at.
            at + self.old.defs.slot_length ≤ self.new.counts.length) }
        ensures numbers { OnOk result (MatchOption self.old.counts.dellink
            (self.new ≡ appended self.old)
            (λ at. IfTold (F.holds files.old) (Fills self.old self.new at))) }
        ensures records { OnOk result
            (self.new.counts.records ≡ risen self.old.counts.records 1) }
        ensures length { OnOk result (self.new.counts.length ≡ end_with self.old) }
        ensures object { self.new ≡ record self.old { counts = self.new.counts } }
        ensures causes { IfErr result (ByCause Never
            (is_reached (end_with self.old) self.old ≡ false)
            (λ p. (self.old.counts.dellink ≡ Some p)
            × IfTold (F.holds files.old) (LacksHole self.old p))) }
        ensures unchanged { IfErr result (λ f. IfRefused f
            (F.holds files.new ≡ F.holds files.old)) }
        ensures same { OnErr result (self.new ≡ self.old) }
        ensures few { F.reads files.new ≤ F.reads files.old + 1 }
        ensures cause { HasCause File (F.faults files.old) (F.faults files.new) result }
    {
        let packed = pack(self.defs.raw.allocator(), &self.defs, row)?;
        match self.counts.dellink {
            Some(at) => self.fill(files, at, packed.as_slice()),
            None => self.append(files, packed.as_slice()),
        }
    }

    /// Puts a new row behind the end, whatever is deleted, and answers its position. `Full` comes exactly
    /// where row pointers would not reach the whole file, and changes nothing.
    pub fn insert_at_end<F: Files>(&mut self, files: &mut F, row: &Row) -> Result<u64, DataFault>
        requires writable { IsTrue F.writable }
        requires fits { IsTrue (fits self.old.defs row.now) }
        requires long { IfTold (F.holds files.old) (IsLong self.old) }
        ensures ok { IfOk result (λ at. Told (F.holds files.old) (F.holds files.new)
            (Steps (insert_at_end row.now) self.old self.new at)) }
        ensures refused { IfErr result (λ f. IfTold (F.holds files.old)
            (Refuses (insert_at_end row.now) self.old f)) }
        ensures written { IfOk result (λ at. Told (F.holds files.old) (F.holds files.new)
            (Writes self.old.name at (spelling self.old.defs row.now))) }
        ensures others { Told (F.holds files.old) (F.holds files.new) (OthersStay self.old.name) }
        ensures appended { OnOk result (Told (F.holds files.old) (F.holds files.new)
            (Adds self.old self.new row.now)) }
        ensures place { IfOk result (λ at. at ≡ self.old.counts.length) }
        ensures room { OnOk result (is_reached (end_behind self.old) self.old ≡ true) }
        ensures numbers { OnOk result (self.new ≡ appended self.old) }
        ensures object { self.new ≡ record self.old { counts = self.new.counts } }
        ensures causes { IfErr result (ByCause Never
            (is_reached (end_behind self.old) self.old ≡ false) Never) }
        ensures unchanged { IfErr result (λ f. IfRefused f
            (F.holds files.new ≡ F.holds files.old)) }
        ensures same { OnErr result (self.new ≡ self.old) }
        ensures reads { F.reads files.new ≡ F.reads files.old }
        ensures cause { HasCause File (F.faults files.old) (F.faults files.new) result }
    {
        let packed = pack(self.defs.raw.allocator(), &self.defs, row)?;
        self.append(files, packed.as_slice())
    }

    /// Puts other values in the place of a row. `NoRow` comes exactly where no row stands at the position,
    /// and then `Full` exactly where row pointers do not reach the whole file. Both change nothing.
    pub fn update_at<F: Files>(
        &mut self,
        files: &mut F,
        at: u64,
        row: &Row,
    ) -> Result<(), DataFault>
        requires writable { IsTrue F.writable }
        requires fits { IsTrue (fits self.old.defs row.now) }
        requires long { IfTold (F.holds files.old) (IsLong self.old) }
        ensures ok { OnOk result (Told (F.holds files.old) (F.holds files.new)
            (Steps (update at row.now) self.old self.new at)) }
        ensures refused { IfErr result (λ f. IfTold (F.holds files.old)
            (Refuses (update at row.now) self.old f)) }
        ensures written { OnOk result (Told (F.holds files.old) (F.holds files.new)
            (Writes self.old.name at (spelling self.old.defs row.now))) }
        ensures others { Told (F.holds files.old) (F.holds files.new) (OthersStay self.old.name) }
        ensures stood { OnOk result (IfTold (F.holds files.old) (HasRow self.old at)) }
        ensures inside { OnOk result
            (at + self.old.defs.slot_length ≤ self.old.counts.length) }
        ensures room { OnOk result (is_reached self.old.counts.length self.old ≡ true) }
        ensures causes { IfErr result (ByCause (λ p. (p ≡ at)
            × IfTold (F.holds files.old) (LacksRow self.old at))
            (is_reached self.old.counts.length self.old ≡ false) Never) }
        ensures unchanged { IfErr result (λ f. IfRefused f
            (F.holds files.new ≡ F.holds files.old)) }
        ensures same { self.new ≡ self.old }
        ensures few { F.reads files.new ≤ F.reads files.old + blocks self.old.defs.slot_length }
        ensures cause { HasCause File (F.faults files.old) (F.faults files.new) result }
    {
        let packed = pack(self.defs.raw.allocator(), &self.defs, row)?;
        if !self.is_row(files, at)? {
            return Err(DataFault::NoRow { at });
        }
        if !self.defs.addressable(self.counts.length) {
            return Err(DataFault::Full);
        }
        files.write_at(self.name.as_str(), at, packed.as_slice())?;
        Ok(())
    }

    /// Deletes a row: its slot becomes the first deleted one. `NoRow` comes exactly where no row stands at
    /// the position, then `Full` exactly where row pointers do not reach the whole file, and then `Damaged`
    /// exactly where the first deleted slot is none of the file. All change nothing.
    pub fn delete_at<F: Files>(&mut self, files: &mut F, at: u64) -> Result<(), DataFault>
        requires writable { IsTrue F.writable }
        requires long { IfTold (F.holds files.old) (IsLong self.old) }
        ensures ok { OnOk result (Told (F.holds files.old) (F.holds files.new)
            (Steps (delete at) self.old self.new at)) }
        ensures refused { IfErr result (λ f. IfTold (F.holds files.old)
            (Refuses (delete at) self.old f)) }
        ensures written { OnOk result (Told (F.holds files.old) (F.holds files.new)
            (Writes self.old.name at (hole_bytes self.old.defs.slot_length self.old.defs.rec_ref
            self.old.counts.dellink))) }
        ensures others { Told (F.holds files.old) (F.holds files.new) (OthersStay self.old.name) }
        ensures object { self.new ≡ record self.old { counts = self.new.counts } }
        ensures stood { OnOk result (IfTold (F.holds files.old) (HasRow self.old at)) }
        ensures room { OnOk result (is_reached self.old.counts.length self.old ≡ true) }
        ensures link { OnOk result (IsLink self.old.defs.slot_length self.old.counts.length
            self.old.counts.dellink) }
        ensures numbers { OnOk result (self.new ≡ record self.old {
          counts = freed_counts self.old.defs.slot_length at self.old.counts;
        }) }
        ensures causes { IfErr result (ByCause (λ p. (p ≡ at)
            × IfTold (F.holds files.old) (LacksRow self.old at))
            (is_reached self.old.counts.length self.old ≡ false)
            (LacksFirst self.old)) }
        ensures unchanged { IfErr result (λ f. IfRefused f
            (F.holds files.new ≡ F.holds files.old)) }
        ensures same { OnErr result (self.new ≡ self.old) }
        ensures few { F.reads files.new ≤ F.reads files.old + blocks self.old.defs.slot_length }
        ensures cause { HasCause File (F.faults files.old) (F.faults files.new) result }
    {
        if !self.is_row(files, at)? {
            return Err(DataFault::NoRow { at });
        }
        if !self.defs.addressable(self.counts.length) {
            return Err(DataFault::Full);
        }
        let slots = self.slots();
        check_link(slots, self.counts.dellink)?;
        write_hole(files, self.name.as_str(), slots, at, self.counts.dellink)?;
        self.counts = freed(self.counts, slots.size, at);
        Ok(())
    }

    /// Reads the row at a position, if one stands there.
    fn read_row<F: Files>(&mut self, files: &mut F, at: u64) -> Result<Option<Row>, DataFault>
        ensures sound { IsSound self.old.defs }
        ensures format { self.old.defs.format ≡ Static }
        ensures told { IfOk result (λ row. IfTold (F.holds files.old) (λ m. IsLong self.old m
            → row ≡ row_there self.old.defs (bytes_of self.old.name m) at)) }
        ensures fits { IfOk result (λ row. IfSome row (λ r. fits self.old.defs r ≡ true)) }
        ensures cut { IfErr result CutsOff }
        ensures object { self.new ≡ self.old }
        ensures holds { F.holds files.new ≡ F.holds files.old }
        ensures few { F.reads files.new ≤ F.reads files.old + blocks self.old.defs.slot_length }
        ensures cause { HasCause File (F.faults files.old) (F.faults files.new) result }
    {
        let slots = self.slots();
        if !read_slot(files, self.name.as_str(), slots, at, &mut self.slot)? {
            return Ok(None);
        }
        let row = row_in(&self.defs, self.slot.as_slice())?;
        Ok(row)
    }

    /// The row at a position. `NoRow` comes exactly where none stands there.
    pub fn read_at<F: Files>(&mut self, files: &mut F, at: u64) -> Result<Row, DataFault>
        requires long { IfTold (F.holds files.old) (IsLong self.old) }
        ensures told { IfTold (F.holds files.old) (Reads self.old at result) }
        ensures there { IfOk result (λ row. IfTold (F.holds files.old) (λ m.
            Some row ≡ row_there self.old.defs (bytes_of self.old.name m) at)) }
        ensures fits { IfOk result (λ row. fits self.old.defs row ≡ true) }
        ensures stood { OnOk result (IfTold (F.holds files.old) (HasRow self.old at)) }
        ensures causes { IfErr result (ByCause (λ p. (p ≡ at)
            × IfTold (F.holds files.old) (LacksRow self.old at)) ⊥ Never) }
        ensures same { self.new ≡ self.old }
        ensures holds { F.holds files.new ≡ F.holds files.old }
        ensures few { F.reads files.new ≤ F.reads files.old + blocks self.old.defs.slot_length }
        ensures cause { HasCause File (F.faults files.old) (F.faults files.new) result }
    {
        match self.read_row(files, at)? {
            Some(row) => Ok(row),
            None => Err(DataFault::NoRow { at }),
        }
    }

    /// The row at a position where one stands, as an index names it. `Damaged` comes only where none does.
    pub fn row_at<F: Files>(&mut self, files: &mut F, at: u64) -> Result<Row, DataFault>
        requires long { IfTold (F.holds files.old) (IsLong self.old) }
        requires there { IfTold (F.holds files.old) (λ m.
            is_row self.old.defs (bytes_of self.old.name m) at ≡ true) }
        ensures told { IfOk result (λ row. IfTold (F.holds files.old) (λ m.
            Some row ≡ row_there self.old.defs (bytes_of self.old.name m) at)) }
        ensures fits { IfOk result (λ row. fits self.old.defs row ≡ true) }
        ensures err { IfErr result (ByCause Never ⊥ (λ p.
            (p ≡ at) × (F.holds files.old ≡ None))) }
        ensures same { self.new ≡ self.old }
        ensures holds { F.holds files.new ≡ F.holds files.old }
        ensures few { F.reads files.new ≤ F.reads files.old + blocks self.old.defs.slot_length }
        ensures cause { HasCause File (F.faults files.old) (F.faults files.new) result }
    {
        match self.read_row(files, at)? {
            Some(row) => Ok(row),
            None => Err(DataFault::Damaged { at }),
        }
    }
}

/// The row in a slot of these bytes, if they pack one.
fn row_in(defs: &Defs, slot: &[u8]) -> Result<Option<Row>, AllocError>
    requires sound { IsSound defs.now }
    requires format { defs.now.format ≡ Static }
    ensures row { IfOk result (λ row. row ≡ row_of defs.now slot.now) }
    ensures fits { IfOk result (λ row. IfSome row (λ r. fits defs.now r ≡ true)) }
{
    let alloc = defs.raw.allocator();
    match view(defs, slot) {
        Some(row) => Ok(Some(unpack(alloc, &row)?)),
        None => Ok(None),
    }
}
