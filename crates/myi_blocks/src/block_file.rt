//! `BlockFile`: the data file of a dynamic table that changes.
//!
//! It is the blocks of the file (`RowBlocks`) and, once they were looked up, the positions at which rows stand:
//! a block that looks like a row's first may stand inside a row or a deleted block, so that the bytes at a position
//! alone do not tell. They are noted by one scan at the first call that needs them, and each change keeps them, where memory for
//! that is there.
use crate::row_blocks::RowBlocks;
use myi_defs::Defs;
use myi_header::State;
use myi_io::Files;
use myi_pack::Row;
use myi_slots::DataFault;
use myi_state::{Counts, standing_files_are_read};
use std::alloc::{AllocError, Global};
use std::collections::BTreeSet;
use std::marker::Model;

/// The data file of a dynamic table, by the name of the file.
pub struct BlockFile {
    blocks: RowBlocks,
    /// Where rows stand, once that was looked up.
    places: Option<BTreeSet<u64>>,
}

impl Drop for BlockFile {
    fn drop(self) {
        let BlockFile {
            blocks: _,
            places: _,
        } = self;
    }
}

impl Model for BlockFile {
    ghost use Rattle.std.specs.Prelude.{◌≡◌};
    ghost use Rattle.std.specs.Option.{option_map};
    ghost use Rattle.myi_defs.specs.Sound.{IsSound};
    ghost use Rattle.myi_defs.specs.declared.types.RowFormat.TheVariants.{Dynamic};
    ghost use Rattle.myi_blocks.specs.Places.{NotedFile};

    ghost Value = { NotedFile };

    ghost view = { λ s. record { file = s.blocks; places = option_map (λ p. p.keys) s.places } };

    ghost invariant = { λ s. IsSound s.blocks.defs × (s.blocks.defs.format ≡ Dynamic) };
}

impl BlockFile {
    ghost use Rattle.std.specs.Prelude.{◌≡◌, ◌⊎◌, ◌≤◌, ◌<◌, ◌-◌, true, false, is_some, unwrap_or, length, None, Some, IfOk, IfErr, OnOk, OnErr, IsTrue};
    ghost use Rattle.myi_base.specs.Holding.{IfTold, Told, OthersStay};
    ghost use Rattle.myi_base.specs.Causes.{HasCause};
    ghost use Rattle.myi_defs.specs.declared.types.RowFormat.TheVariants.{Dynamic};
    ghost use Rattle.myi_defs.specs.Sound.{IsSound};
    ghost use Rattle.myi_pack.specs.Spelling.{spelling, fits};
    ghost use Rattle.myi_dellist.specs.Rows.{PutsNew, PutsAtEnd};
    ghost use Rattle.myi_dellist.specs.Freed.{RowIsFreed};
    ghost use Rattle.myi_dellist.specs.Replacing.{PutsAgain};
    ghost use Rattle.myi_state.specs.Changes.{insert, insert_at_end, delete, update};
    ghost use Rattle.myi_slots.specs.declared.fault.DataFault.TheVariants.{File};
    ghost use Rattle.myi_slots.specs.SlotFile.{IsLong, Steps, Refuses, Adds, AddsNew, CutsOff, IfRefused, ByCause, Never, counts_in, is_reached, risen};
    ghost use Rattle.myi_blocks.specs.BlockFile.{list_in, end_with, FindsBad, FindsRowBad, FindsOtherBad, LacksRoom, LacksOtherRoom, WritesNew, WritesGone, WritesOther};
    ghost use Rattle.myi_blocks.specs.RowReading.{HasRow, LacksRow, IsRowAt, ReadsFew};
    ghost use Rattle.myi_blocks.specs.Places.{KeepsNotes, StaysNoted, ReadsNoted, LooksUp, HasNoted, MayNote, MayForget, Forgets, StepsNoted, RefusesNoted};

    /// The data file of that name, with these definitions of a dynamic table and this state. Nothing is read yet.
    pub fn new(
        alloc: Global,
        name: &str,
        defs: &Defs,
        state: &State,
    ) -> Result<BlockFile, AllocError>
        requires sound { IsSound defs.now }
        requires format { defs.now.format ≡ Dynamic }
        ensures file { IfOk result (λ file. file.file ≡ record {
          name = name.now;
          defs = defs.now;
          counts = counts_in state.now;
        }) }
        ensures places { IfOk result (λ file. file.places ≡ None) }
    {
        Ok(BlockFile {
            blocks: RowBlocks::new(alloc, name, defs, state)?,
            places: None,
        })
    }

    /// The numbers that the table's state is to have. It takes no memory.
    pub fn counts(&self) -> Counts
        ensures { result ≡ self.now.file.counts }
    {
        self.blocks.counts()
    }

    /// Whether a block is deleted, so that the next row goes there. It takes no memory.
    pub fn holes(&self) -> bool
        ensures { result ≡ is_some self.now.file.counts.dellink }
    {
        self.blocks.holes()
    }

    /// Notes a position, where positions are noted. Where memory for it is wanting, none is from then on, so that
    /// they are looked up again when they are needed.
    fn note(&mut self, at: u64)
        ensures file { self.new.file ≡ self.old.file }
        ensures places { MayNote at self.old.places self.new.places }
    {
        let Some(places) = &mut self.places else {
            return;
        };
        if places.insert(at).is_ok() {
            return;
        }
        self.places = None;
    }

    /// Puts a new row into the deleted blocks from the head of the list, and behind the end what they do not
    /// hold, and answers its position. `Full` comes exactly where row pointers would not reach the whole
    /// file, `Damaged` only where a block that is read is not what the list needs there. Both change
    /// nothing.
    pub fn insert<F: Files>(&mut self, files: &mut F, row: &Row) -> Result<u64, DataFault>
        requires writable { IsTrue F.writable }
        requires fits { IsTrue (fits self.old.file.defs row.now) }
        requires long { IfTold (F.holds files.old) (IsLong self.old.file) }
        ensures ok { IfOk result (λ at. Told (F.holds files.old) (F.holds files.new)
            (Steps (insert row.now) self.old.file self.new.file at)) }
        ensures refused { IfErr result (λ f. IfTold (F.holds files.old)
            (Refuses (insert row.now) self.old.file f)) }
        ensures notes { OnOk result (IfTold (F.holds files.old)
            (KeepsNotes (insert row.now) self.old self.new)) }
        ensures puts { IfOk result (λ at. Told (F.holds files.old) (F.holds files.new)
            (PutsNew (list_in self.old.file) (list_in self.new.file)
            (spelling self.old.file.defs row.now) at)) }
        ensures written { OnOk result (Told (F.holds files.old) (F.holds files.new)
            (WritesNew self.old.file self.new.file row.now)) }
        ensures appended { OnOk result (Told (F.holds files.old) (F.holds files.new)
            (AddsNew self.old.file self.new.file row.now)) }
        ensures others { Told (F.holds files.old) (F.holds files.new)
            (OthersStay self.old.file.name) }
        ensures place { IfOk result (λ at.
            at ≡ unwrap_or self.old.file.counts.dellink self.old.file.counts.length) }
        ensures inside { IfOk result (λ at. at ≤ self.new.file.counts.length) }
        ensures room { OnOk result
            (is_reached self.new.file.counts.length self.old.file ≡ true) }
        ensures object { self.new.file ≡ record self.old.file {
          counts = self.new.file.counts;
        } }
        ensures records { OnOk result
            (self.new.file.counts.records ≡ risen self.old.file.counts.records 1) }
        ensures causes { IfErr result (ByCause Never
            ((is_reached self.old.file.counts.length self.old.file ≡ false)
            ⊎ IfTold (F.holds files.old)
            (LacksRoom self.old.file (length (spelling self.old.file.defs row.now))))
            (λ p. IfTold (F.holds files.old)
            (FindsBad self.old.file (length (spelling self.old.file.defs row.now)) p))) }
        ensures unchanged { IfErr result (λ f. IfRefused f
            (F.holds files.new ≡ F.holds files.old)) }
        ensures same { OnErr result (self.new ≡ self.old) }
        ensures cause { HasCause File (F.faults files.old) (F.faults files.new) result }
    {
        let at = self.blocks.insert(files, row)?;
        self.note(at);
        Ok(at)
    }

    /// Puts a new row behind the end, whatever is deleted, and answers its position. `Full` comes exactly
    /// where row pointers would not reach the whole file, and changes nothing.
    pub fn insert_at_end<F: Files>(&mut self, files: &mut F, row: &Row) -> Result<u64, DataFault>
        requires writable { IsTrue F.writable }
        requires fits { IsTrue (fits self.old.file.defs row.now) }
        requires long { IfTold (F.holds files.old) (IsLong self.old.file) }
        ensures ok { IfOk result (λ at. Told (F.holds files.old) (F.holds files.new)
            (Steps (insert_at_end row.now) self.old.file self.new.file at)) }
        ensures refused { IfErr result (λ f. IfTold (F.holds files.old)
            (Refuses (insert_at_end row.now) self.old.file f)) }
        ensures notes { OnOk result (IfTold (F.holds files.old)
            (KeepsNotes (insert_at_end row.now) self.old self.new)) }
        ensures puts { IfOk result (λ at. Told (F.holds files.old) (F.holds files.new)
            (PutsAtEnd (list_in self.old.file) (list_in self.new.file)
            (spelling self.old.file.defs row.now) at)) }
        ensures appended { OnOk result (Told (F.holds files.old) (F.holds files.new)
            (Adds self.old.file self.new.file row.now)) }
        ensures others { Told (F.holds files.old) (F.holds files.new)
            (OthersStay self.old.file.name) }
        ensures place { IfOk result (λ at. at ≡ self.old.file.counts.length) }
        ensures inside { IfOk result (λ at. at ≤ self.new.file.counts.length) }
        ensures room { OnOk result
            (is_reached self.new.file.counts.length self.old.file ≡ true) }
        ensures object { self.new.file ≡ record self.old.file {
          counts = self.new.file.counts;
        } }
        ensures records { OnOk result
            (self.new.file.counts.records ≡ risen self.old.file.counts.records 1) }
        ensures causes { IfErr result (ByCause Never (is_reached (end_with self.old.file
            (length (spelling self.old.file.defs row.now))) self.old.file ≡ false) Never) }
        ensures unchanged { IfErr result (λ f. IfRefused f
            (F.holds files.new ≡ F.holds files.old)) }
        ensures same { OnErr result (self.new ≡ self.old) }
        ensures cause { HasCause File (F.faults files.old) (F.faults files.new) result }
    {
        let at = self.blocks.insert_at_end(files, row)?;
        self.note(at);
        Ok(at)
    }

    /// Notes where rows stand, by one scan of the file, if that is not noted.
    fn look_up<F: Files>(&mut self, files: &mut F) -> Result<(), DataFault>
        requires long { IfTold (F.holds files.old) (IsLong self.old.file) }
        ensures noted { OnOk result (is_some self.new.places ≡ true) }
        ensures told { IfTold (F.holds files.old) (LooksUp self.old self.new) }
        ensures kept { IfTold (F.holds files.old) (StaysNoted self.old self.new) }
        ensures sound { IsSound self.old.file.defs }
        ensures format { self.old.file.defs.format ≡ Dynamic }
        ensures cut { IfErr result CutsOff }
        ensures file { self.new.file ≡ self.old.file }
        ensures holds { F.holds files.new ≡ F.holds files.old }
        ensures once { is_some self.old.places ≡ true → F.reads files.new ≡ F.reads files.old }
        ensures cause { HasCause File (F.faults files.old) (F.faults files.new) result }
    {
        standing_files_are_read();
        if self.places.is_some() {
            return Ok(());
        }
        let places = self.blocks.places(files)?;
        self.places = Some(places);
        Ok(())
    }

    /// Whether a row stands at a position, by what is noted.
    fn has(&self, at: u64) -> bool
        requires { is_some self.now.places ≡ true }
        ensures { HasNoted at result self.now.places }
    {
        match &self.places {
            Some(places) => places.contains(&at),
            None => false,
        }
    }

    /// Notes that no row stands at a position any more, where positions are noted.
    fn forget(&mut self, at: u64)
        ensures file { self.new.file ≡ self.old.file }
        ensures places { MayForget at self.old.places self.new.places }
    {
        let Some(places) = &mut self.places else {
            return;
        };
        places.remove(&at);
    }

    /// Deletes a row: its blocks are released, from the first to the last. `NoRow` comes exactly where no row stands
    /// at the position, by the positions that are noted: where none are, the file is scanned once for them. Then
    /// `Full` comes exactly where row pointers do not reach the whole file, and then `Damaged` only where a
    /// block that is read is not what the row or the list needs there. All change nothing in the file.
    pub fn delete_at<F: Files>(&mut self, files: &mut F, at: u64) -> Result<(), DataFault>
        requires writable { IsTrue F.writable }
        requires long { IfTold (F.holds files.old) (IsLong self.old.file) }
        ensures ok { OnOk result (Told (F.holds files.old) (F.holds files.new)
            (StepsNoted (delete at) self.old self.new at)) }
        ensures refused { IfErr result (λ f. IfTold (F.holds files.old)
            (RefusesNoted (delete at) self.old f)) }
        ensures frees { OnOk result (Told (F.holds files.old) (F.holds files.new)
            (RowIsFreed (list_in self.old.file) (list_in self.new.file) at)) }
        ensures written { OnOk result (Told (F.holds files.old) (F.holds files.new)
            (WritesGone self.old.file self.new.file at)) }
        ensures others { Told (F.holds files.old) (F.holds files.new)
            (OthersStay self.old.file.name) }
        ensures stood { OnOk result (Forgets (F.holds files.old) at self.old self.new) }
        ensures room { OnOk result
            (is_reached self.old.file.counts.length self.old.file ≡ true) }
        ensures object { self.new.file ≡ record self.old.file {
          counts = self.new.file.counts;
        } }
        ensures records { OnOk result
            (self.new.file.counts.records ≡ self.old.file.counts.records - 1) }
        ensures length { OnOk result
            (self.new.file.counts.length ≡ self.old.file.counts.length) }
        ensures causes { IfErr result (ByCause
            (λ p. (p ≡ at) × HasNoted at false self.new.places)
            (HasNoted at true self.new.places
            × (is_reached self.old.file.counts.length self.old.file ≡ false))
            (λ p. HasNoted at true self.new.places
            × IfTold (F.holds files.old) (FindsRowBad self.old.file at p))) }
        ensures noted { OnErr result (IfTold (F.holds files.old) (LooksUp self.old self.new)) }
        ensures kept { OnErr result (IfTold (F.holds files.old) (StaysNoted self.old self.new)) }
        ensures unchanged { IfErr result (λ f. IfRefused f
            (F.holds files.new ≡ F.holds files.old)) }
        ensures same { OnErr result (self.new.file ≡ self.old.file) }
        ensures cause { HasCause File (F.faults files.old) (F.faults files.new) result }
    {
        self.look_up(files)?;
        if !self.has(at) {
            return Err(DataFault::NoRow { at });
        }
        self.blocks.delete(files, at)?;
        self.forget(at);
        Ok(())
    }

    /// Puts other values in the place of a row: into its blocks, then into the deleted ones from the head of the
    /// list, and behind the end what they do not hold; what it leaves of its blocks is released. `NoRow` comes
    /// exactly where no row stands at the position, as for `delete_at`. Then `Full` comes only where row
    /// pointers would not reach the whole file, and `Damaged` only where a block that is read is not what the
    /// row or the list needs there. All change nothing in the file.
    pub fn update_at<F: Files>(
        &mut self,
        files: &mut F,
        at: u64,
        row: &Row,
    ) -> Result<(), DataFault>
        requires writable { IsTrue F.writable }
        requires fits { IsTrue (fits self.old.file.defs row.now) }
        requires long { IfTold (F.holds files.old) (IsLong self.old.file) }
        ensures ok { OnOk result (Told (F.holds files.old) (F.holds files.new)
            (StepsNoted (update at row.now) self.old self.new at)) }
        ensures refused { IfErr result (λ f. IfTold (F.holds files.old)
            (RefusesNoted (update at row.now) self.old f)) }
        ensures puts { OnOk result (Told (F.holds files.old) (F.holds files.new)
            (PutsAgain (list_in self.old.file) (list_in self.new.file) at
            (spelling self.old.file.defs row.now))) }
        ensures written { OnOk result (Told (F.holds files.old) (F.holds files.new)
            (WritesOther self.old.file self.new.file at row.now)) }
        ensures others { Told (F.holds files.old) (F.holds files.new)
            (OthersStay self.old.file.name) }
        ensures stood { OnOk result (HasNoted at true self.new.places) }
        ensures inside { OnOk result (at < self.new.file.counts.length) }
        ensures room { OnOk result
            (is_reached self.new.file.counts.length self.old.file ≡ true) }
        ensures object { self.new.file ≡ record self.old.file {
          counts = self.new.file.counts;
        } }
        ensures records { OnOk result
            (self.new.file.counts.records ≡ self.old.file.counts.records) }
        ensures causes { IfErr result (ByCause
            (λ p. (p ≡ at) × HasNoted at false self.new.places)
            (HasNoted at true self.new.places
            × ((is_reached self.old.file.counts.length self.old.file ≡ false)
            ⊎ IfTold (F.holds files.old) (LacksOtherRoom self.old.file at
            (length (spelling self.old.file.defs row.now)))))
            (λ p. HasNoted at true self.new.places
            × IfTold (F.holds files.old) (FindsOtherBad self.old.file at
            (length (spelling self.old.file.defs row.now)) p))) }
        ensures noted { IfTold (F.holds files.old) (LooksUp self.old self.new) }
        ensures kept { IfTold (F.holds files.old) (StaysNoted self.old self.new) }
        ensures unchanged { IfErr result (λ f. IfRefused f
            (F.holds files.new ≡ F.holds files.old)) }
        ensures same { OnErr result (self.new.file ≡ self.old.file) }
        ensures cause { HasCause File (F.faults files.old) (F.faults files.new) result }
    {
        self.look_up(files)?;
        if !self.has(at) {
            return Err(DataFault::NoRow { at });
        }
        self.blocks.update(files, at, row)?;
        Ok(())
    }

    /// The row at a position. `NoRow` comes exactly where none stands there, by the positions that are noted: where
    /// none are, the file is scanned once for them. `Damaged` comes only where no row
    /// stands there.
    pub fn read_at<F: Files>(&mut self, files: &mut F, at: u64) -> Result<Row, DataFault>
        requires long { IfTold (F.holds files.old) (IsLong self.old.file) }
        ensures told { IfTold (F.holds files.old) (ReadsNoted self.old at result) }
        ensures there { IfOk result (λ row. IfTold (F.holds files.old)
            (IsRowAt self.old.file at row)) }
        ensures fits { IfOk result (λ row. fits self.old.file.defs row ≡ true) }
        ensures stood { OnOk result (HasNoted at true self.new.places) }
        ensures causes { IfErr result (ByCause
            (λ p. (p ≡ at) × HasNoted at false self.new.places) ⊥ (λ p.
            HasNoted at true self.new.places
            × IfTold (F.holds files.old) (LacksRow self.old.file at))) }
        ensures noted { IfTold (F.holds files.old) (LooksUp self.old self.new) }
        ensures kept { IfTold (F.holds files.old) (StaysNoted self.old self.new) }
        ensures file { self.new.file ≡ self.old.file }
        ensures holds { F.holds files.new ≡ F.holds files.old }
        ensures few { is_some self.old.places ≡ true → IfTold (F.holds files.old)
            (ReadsFew self.old.file at (F.reads files.old) (F.reads files.new)) }
        ensures cause { HasCause File (F.faults files.old) (F.faults files.new) result }
    {
        self.look_up(files)?;
        if !self.has(at) {
            return Err(DataFault::NoRow { at });
        }
        self.blocks.read_row(files, at)
    }

    /// The row at a position where one stands, as an index names it, in no more reads than its blocks may count
    /// for. `Damaged` comes only where files tell nothing.
    pub fn row_at<F: Files>(&mut self, files: &mut F, at: u64) -> Result<Row, DataFault>
        requires long { IfTold (F.holds files.old) (IsLong self.old.file) }
        requires there { IfTold (F.holds files.old) (HasRow self.old.file at) }
        ensures told { IfOk result (λ row. IfTold (F.holds files.old)
            (IsRowAt self.old.file at row)) }
        ensures fits { IfOk result (λ row. fits self.old.file.defs row ≡ true) }
        ensures err { IfErr result (ByCause Never ⊥ (λ p. F.holds files.old ≡ None)) }
        ensures few { IfTold (F.holds files.old)
            (ReadsFew self.old.file at (F.reads files.old) (F.reads files.new)) }
        ensures same { self.new ≡ self.old }
        ensures holds { F.holds files.new ≡ F.holds files.old }
        ensures cause { HasCause File (F.faults files.old) (F.faults files.new) result }
    {
        self.blocks.read_row(files, at)
    }
}
