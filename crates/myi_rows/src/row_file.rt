//! `RowFile`: the data file of a table that changes, in the format that the definitions of the table say.
use myi_blocks::BlockFile;
use myi_defs::{Defs, RowFormat};
use myi_header::State;
use myi_io::Files;
use myi_pack::Row;
use myi_slots::{DataFault, StaticFile};
use myi_state::Counts;
use std::alloc::{AllocError, Global};
use std::marker::Model;

/// The slots or the blocks of a data file.
#[derive(Drop)]
enum Rows {
    Static(StaticFile),
    Dynamic(BlockFile),
}

/// The data file of a table, by the name of the file.
pub struct RowFile {
    rows: Rows,
}

impl Drop for RowFile {
    fn drop(self) {
        let RowFile { rows: _ } = self;
    }
}

impl Model for RowFile {
    ghost use Rattle.myi_defs.specs.Sound.{IsSound};
    ghost use Rattle.myi_blocks.specs.Places.{NotedFile};
    ghost use Rattle.myi_rows.specs.RowFile.{noted_of, AreInFormat};

    ghost Value = { NotedFile };

    ghost view = { λ s. noted_of s.rows };

    ghost invariant = { λ s. IsSound (noted_of s.rows).file.defs × AreInFormat s.rows };
}

impl RowFile {
    ghost use Rattle.std.specs.Prelude.{◌≡◌, ◌≤◌, ◌<◌, ◌-◌, true, is_some, unwrap_or, None, IfOk, IfErr, OnOk, OnErr, IsTrue};
    ghost use Rattle.myi_base.specs.Holding.{IfTold, Told, OthersStay};
    ghost use Rattle.myi_base.specs.Causes.{HasCause};
    ghost use Rattle.myi_defs.specs.Sound.{IsSound};
    ghost use Rattle.myi_pack.specs.Spelling.{fits};
    ghost use Rattle.myi_state.specs.Changes.{insert, insert_at_end, delete, update};
    ghost use Rattle.myi_slots.specs.declared.fault.DataFault.TheVariants.{File};
    ghost use Rattle.myi_slots.specs.SlotFile.{IsLong, Adds, AddsNew, IfRefused, ByCause, Never, counts_in, is_reached, risen};
    ghost use Rattle.myi_blocks.specs.Places.{StepsNoted, RefusesNoted, StaysNoted, ReadsNoted, LooksUp};
    ghost use Rattle.myi_rows.specs.RowFile.{HasRow, IsRowAt, KnowsRows, ReadsFew, SaysNoRow};
    ghost use Rattle.myi_rows.specs.Writing.{PutsNew, WritesNew, WritesGone, WritesOther};
    ghost use Rattle.myi_rows.specs.Refusals.{FindsRow, FindsNone, TakesAway, LacksRoom, LacksEnd, LacksOther, LacksReach, FindsBad, FindsOtherBad, FindsRowBad, ReadsBad};

    /// The data file of that name, with these definitions of a table and this state. Nothing is read yet.
    pub fn new(alloc: Global, name: &str, defs: &Defs, state: &State) -> Result<RowFile, AllocError>
        requires sound { IsSound defs.now }
        ensures file { IfOk result (λ file. file.file ≡ record {
          name = name.now;
          defs = defs.now;
          counts = counts_in state.now;
        }) }
        ensures places { IfOk result (λ file. file.places ≡ None) }
    {
        let rows = match defs.format {
            RowFormat::Static => Rows::Static(StaticFile::new(alloc, name, defs, state)?),
            RowFormat::Dynamic => Rows::Dynamic(BlockFile::new(alloc, name, defs, state)?),
        };
        Ok(RowFile { rows })
    }

    /// The numbers that the table's state is to have. It takes no memory.
    pub fn counts(&self) -> Counts
        ensures { result ≡ self.now.file.counts }
    {
        match &self.rows {
            Rows::Static(file) => file.counts(),
            Rows::Dynamic(file) => file.counts(),
        }
    }

    /// Whether a slot or block is deleted, so that the next row goes there. It takes no memory.
    pub fn holes(&self) -> bool
        ensures { result ≡ is_some self.now.file.counts.dellink }
    {
        match &self.rows {
            Rows::Static(file) => file.holes(),
            Rows::Dynamic(file) => file.holes(),
        }
    }

    /// Puts a new row into the first deleted slot, or into deleted blocks and behind the end what they do not hold,
    /// and answers its position. Of a file that stands for a state `Full` comes as the step's reply, and `Damaged`
    /// never; both change nothing.
    pub fn insert<F: Files>(&mut self, files: &mut F, row: &Row) -> Result<u64, DataFault>
        requires writable { IsTrue F.writable }
        requires fits { IsTrue (fits self.old.file.defs row.now) }
        requires long { IfTold (F.holds files.old) (IsLong self.old.file) }
        ensures ok { IfOk result (λ at. Told (F.holds files.old) (F.holds files.new)
            (StepsNoted (insert row.now) self.old self.new at)) }
        ensures refused { IfErr result (λ f. IfTold (F.holds files.old)
            (RefusesNoted (insert row.now) self.old f)) }
        ensures puts { IfOk result (λ at. PutsNew self.old.file self.new.file row.now at
            (F.holds files.old) (F.holds files.new)) }
        ensures written { IfOk result (λ at. Told (F.holds files.old) (F.holds files.new)
            (WritesNew self.old.file self.new.file row.now at)) }
        ensures appended { OnOk result (Told (F.holds files.old) (F.holds files.new)
            (AddsNew self.old.file self.new.file row.now)) }
        ensures others { Told (F.holds files.old) (F.holds files.new)
            (OthersStay self.old.file.name) }
        ensures place { IfOk result (λ at.
            at ≡ unwrap_or self.old.file.counts.dellink self.old.file.counts.length) }
        ensures inside { IfOk result (λ at. at ≤ self.new.file.counts.length) }
        ensures room { OnOk result
            (is_reached self.new.file.counts.length self.old.file ≡ true) }
        ensures records { OnOk result
            (self.new.file.counts.records ≡ risen self.old.file.counts.records 1) }
        ensures rows { IfErr result (λ f. SaysNoRow f → ⊥) }
        ensures object { self.new.file ≡ record self.old.file {
          counts = self.new.file.counts;
        } }
        ensures causes { IfErr result (ByCause Never
            (LacksRoom self.old.file row.now (F.holds files.old))
            (FindsBad self.old.file row.now (F.holds files.old))) }
        ensures unchanged { IfErr result (λ f. IfRefused f
            (F.holds files.new ≡ F.holds files.old)) }
        ensures same { OnErr result (self.new ≡ self.old) }
        ensures cause { HasCause File (F.faults files.old) (F.faults files.new) result }
    {
        match &mut self.rows {
            Rows::Static(file) => file.insert(files, row),
            Rows::Dynamic(file) => file.insert(files, row),
        }
    }

    /// Puts a new row behind the end, whatever is deleted, and answers its position. Of a file that stands for a
    /// state `Full` comes as the step's reply; it changes nothing.
    pub fn insert_at_end<F: Files>(&mut self, files: &mut F, row: &Row) -> Result<u64, DataFault>
        requires writable { IsTrue F.writable }
        requires fits { IsTrue (fits self.old.file.defs row.now) }
        requires long { IfTold (F.holds files.old) (IsLong self.old.file) }
        ensures ok { IfOk result (λ at. Told (F.holds files.old) (F.holds files.new)
            (StepsNoted (insert_at_end row.now) self.old self.new at)) }
        ensures refused { IfErr result (λ f. IfTold (F.holds files.old)
            (RefusesNoted (insert_at_end row.now) self.old f)) }
        ensures appended { OnOk result (Told (F.holds files.old) (F.holds files.new)
            (Adds self.old.file self.new.file row.now)) }
        ensures others { Told (F.holds files.old) (F.holds files.new)
            (OthersStay self.old.file.name) }
        ensures place { IfOk result (λ at. at ≡ self.old.file.counts.length) }
        ensures inside { IfOk result (λ at. at ≤ self.new.file.counts.length) }
        ensures room { OnOk result
            (is_reached self.new.file.counts.length self.old.file ≡ true) }
        ensures records { OnOk result
            (self.new.file.counts.records ≡ risen self.old.file.counts.records 1) }
        ensures rows { IfErr result (λ f. SaysNoRow f → ⊥) }
        ensures object { self.new.file ≡ record self.old.file {
          counts = self.new.file.counts;
        } }
        ensures causes { IfErr result
            (ByCause Never (LacksEnd self.old.file row.now) Never) }
        ensures unchanged { IfErr result (λ f. IfRefused f
            (F.holds files.new ≡ F.holds files.old)) }
        ensures same { OnErr result (self.new ≡ self.old) }
        ensures cause { HasCause File (F.faults files.old) (F.faults files.new) result }
    {
        match &mut self.rows {
            Rows::Static(file) => file.insert_at_end(files, row),
            Rows::Dynamic(file) => file.insert_at_end(files, row),
        }
    }

    /// Takes the row at a position away. Of a file that stands for a state `NoRow` and `Full` come as the step's
    /// reply, and `Damaged` never; all change nothing.
    pub fn delete_at<F: Files>(&mut self, files: &mut F, at: u64) -> Result<(), DataFault>
        requires writable { IsTrue F.writable }
        requires long { IfTold (F.holds files.old) (IsLong self.old.file) }
        ensures ok { OnOk result (Told (F.holds files.old) (F.holds files.new)
            (StepsNoted (delete at) self.old self.new at)) }
        ensures refused { IfErr result (λ f. IfTold (F.holds files.old)
            (RefusesNoted (delete at) self.old f)) }
        ensures written { OnOk result (Told (F.holds files.old) (F.holds files.new)
            (WritesGone self.old.file self.new.file at)) }
        ensures others { Told (F.holds files.old) (F.holds files.new)
            (OthersStay self.old.file.name) }
        ensures stood { OnOk result (TakesAway self.old self.new at (F.holds files.old)) }
        ensures room { OnOk result
            (is_reached self.old.file.counts.length self.old.file ≡ true) }
        ensures object { self.new.file ≡ record self.old.file {
          counts = self.new.file.counts;
        } }
        ensures records { OnOk result
            (self.new.file.counts.records ≡ self.old.file.counts.records - 1) }
        ensures length { OnOk result
            (self.new.file.counts.length ≡ self.old.file.counts.length) }
        ensures causes { IfErr result (ByCause (λ p. (p ≡ at)
            × FindsNone self.old.file self.new.places at (F.holds files.old))
            (LacksReach self.old.file self.new.places at)
            (FindsRowBad self.old.file self.new.places at (F.holds files.old))) }
        ensures noted { OnErr result (IfTold (F.holds files.old) (LooksUp self.old self.new)) }
        ensures unchanged { IfErr result (λ f. IfRefused f
            (F.holds files.new ≡ F.holds files.old)) }
        ensures kept { OnErr result (IfTold (F.holds files.old) (StaysNoted self.old self.new)) }
        ensures same { OnErr result (self.new.file ≡ self.old.file) }
        ensures cause { HasCause File (F.faults files.old) (F.faults files.new) result }
    {
        match &mut self.rows {
            Rows::Static(file) => file.delete_at(files, at),
            Rows::Dynamic(file) => file.delete_at(files, at),
        }
    }

    /// Puts other values in the place of the row at a position, which it keeps. Of a file that stands for a state
    /// `NoRow` and `Full` come as the step's reply, and `Damaged` never; all change nothing.
    pub fn update_at<F: Files>(
        &mut self,
        files: &mut F,
        at: u64,
        row: &Row,
    ) -> Result<(), DataFault>
        requires writable { IsTrue F.writable }
        requires fits { IsTrue (fits self.old.file.defs row.now) }
        requires long { IfTold (F.holds files.old) (IsLong self.old.file) }
        ensures ok { OnOk result (Told (F.holds files.old) (F.holds files.new)
            (StepsNoted (update at row.now) self.old self.new at)) }
        ensures refused { IfErr result (λ f. IfTold (F.holds files.old)
            (RefusesNoted (update at row.now) self.old f)) }
        ensures written { OnOk result (Told (F.holds files.old) (F.holds files.new)
            (WritesOther self.old.file self.new.file at row.now)) }
        ensures others { Told (F.holds files.old) (F.holds files.new)
            (OthersStay self.old.file.name) }
        ensures stood { OnOk result
            (FindsRow self.old.file self.new.places at (F.holds files.old)) }
        ensures inside { OnOk result (at < self.new.file.counts.length) }
        ensures room { OnOk result
            (is_reached self.new.file.counts.length self.old.file ≡ true) }
        ensures object { self.new.file ≡ record self.old.file {
          counts = self.new.file.counts;
        } }
        ensures records { OnOk result
            (self.new.file.counts.records ≡ self.old.file.counts.records) }
        ensures causes { IfErr result (ByCause (λ p. (p ≡ at)
            × FindsNone self.old.file self.new.places at (F.holds files.old))
            (LacksOther self.old.file self.new.places at row.now (F.holds files.old))
            (FindsOtherBad self.old.file self.new.places at row.now (F.holds files.old))) }
        ensures noted { IfTold (F.holds files.old) (LooksUp self.old self.new) }
        ensures unchanged { IfErr result (λ f. IfRefused f
            (F.holds files.new ≡ F.holds files.old)) }
        ensures kept { OnErr result (IfTold (F.holds files.old) (StaysNoted self.old self.new)) }
        ensures same { OnErr result (self.new.file ≡ self.old.file) }
        ensures cause { HasCause File (F.faults files.old) (F.faults files.new) result }
    {
        match &mut self.rows {
            Rows::Static(file) => file.update_at(files, at, row),
            Rows::Dynamic(file) => file.update_at(files, at, row),
        }
    }

    /// The row at any position, which fits the definitions, and of a file that stands for a state `NoRow` where the
    /// state has none there. `NoRow` names the position. Where it is known where rows stand, it is read in no more
    /// reads than its slot or its blocks may count for; else a dynamic file is scanned once before.
    pub fn read_at<F: Files>(&mut self, files: &mut F, at: u64) -> Result<Row, DataFault>
        requires long { IfTold (F.holds files.old) (IsLong self.old.file) }
        ensures told { IfTold (F.holds files.old) (ReadsNoted self.old at result) }
        ensures there { IfOk result (λ row. IfTold (F.holds files.old)
            (IsRowAt self.old.file at row)) }
        ensures fits { IfOk result (λ row. fits self.old.file.defs row ≡ true) }
        ensures stood { OnOk result
            (FindsRow self.old.file self.new.places at (F.holds files.old)) }
        ensures causes { IfErr result (ByCause (λ p. (p ≡ at)
            × FindsNone self.old.file self.new.places at (F.holds files.old))
            ⊥ (λ p. ReadsBad self.old.file self.new.places at (F.holds files.old))) }
        ensures noted { IfTold (F.holds files.old) (LooksUp self.old self.new) }
        ensures kept { IfTold (F.holds files.old) (StaysNoted self.old self.new) }
        ensures few { KnowsRows self.old → IfTold (F.holds files.old)
            (ReadsFew self.old.file at (F.reads files.old) (F.reads files.new)) }
        ensures file { self.new.file ≡ self.old.file }
        ensures holds { F.holds files.new ≡ F.holds files.old }
        ensures cause { HasCause File (F.faults files.old) (F.faults files.new) result }
    {
        match &mut self.rows {
            Rows::Static(file) => file.read_at(files, at),
            Rows::Dynamic(file) => file.read_at(files, at),
        }
    }

    /// The row at a position where one stands, as an index names it. It is read in no more reads than its
    /// slot or its blocks may count for.
    pub fn row_at<F: Files>(&mut self, files: &mut F, at: u64) -> Result<Row, DataFault>
        requires long { IfTold (F.holds files.old) (IsLong self.old.file) }
        requires there { IfTold (F.holds files.old) (HasRow self.old.file at) }
        ensures told { IfOk result (λ row. IfTold (F.holds files.old)
            (IsRowAt self.old.file at row)) }
        ensures fits { IfOk result (λ row. fits self.old.file.defs row ≡ true) }
        ensures err { IfErr result (ByCause Never ⊥ (λ p. F.holds files.old ≡ None)) }
        ensures few { IfTold (F.holds files.old)
            (ReadsFew self.old.file at (F.reads files.old) (F.reads files.new)) }
        ensures same { self.new ≡ self.old }
        ensures holds { F.holds files.new ≡ F.holds files.old }
        ensures cause { HasCause File (F.faults files.old) (F.faults files.new) result }
    {
        match &mut self.rows {
            Rows::Static(file) => file.row_at(files, at),
            Rows::Dynamic(file) => file.row_at(files, at),
        }
    }
}
