//! `Inserter`: an inserter with the reader objects of the table's two files.
use crate::fault::InsertFault;
use crate::inserter::TableInserter;
use myi_adapters::ReaderFiles;
use myi_io::FileReader;
use myi_pack::Row;

/// An inserter of a shared table with a reader object for each of its two files.
#[derive(Drop)]
pub struct Inserter<R: FileReader> {
    pub table: TableInserter,
    pub files: ReaderFiles<R>,
}

impl<R: FileReader> Inserter<R> {
    ghost use Rattle.std.specs.Prelude.{◌≡◌, ◌+◌, ◌≤◌, ◌∷◌, ◌++◌, List, [], true, IfOk, IfErr, OnOk, OnErr};
    ghost use Rattle.myi_base.specs.Causes.{HasCause};
    ghost use Rattle.myi_adapters.specs.TwoReaders.{told_by};
    ghost use Rattle.myi_defs.specs.Addressable.{is_addressable};
    ghost use Rattle.myi_pack.specs.Packed.{Values};
    ghost use Rattle.myi_pack.specs.Spelling.{spelling, fits};
    ghost use Rattle.myi_keyedrows.specs.KeyedRows.{HoldTable, IfHold};
    ghost use Rattle.myi_tail.specs.Rows.{row_words};
    ghost use Rattle.myi_tail.specs.Seats.{free_words};
    ghost use Rattle.myi_inserter.specs.declared.fault.InsertFault.TheVariants.{File};
    ghost use Rattle.myi_inserter.specs.Inserter.{IsInserter, IsSameInserter, IsPut, IsReplyOf, IsCaused, step_behind, end_behind, needed, with_words};

    /// Puts a row behind the end, as `TableInserter::insert`.
    pub fn insert(&mut self, row: &Row) -> Result<u64, InsertFault>
        requires ready { (rows : List Values) × IsInserter self.old.table rows }
        requires fits { fits self.old.table.defs row.now ≡ true }
        ensures made { IfOk result (λ at.
            IfHold (told_by R.holds self.old.files) self.old.table.rows (λ m own base.
            (rows : List Values) → IsInserter self.old.table rows
            → IsPut self.old.table.defs base rows row.now at)) }
        ensures refused { IfErr result (λ f.
            IfHold (told_by R.holds self.old.files) self.old.table.rows (λ m own base.
            (rows : List Values) → IsInserter self.old.table rows
            → IsReplyOf self.old.table.end
            (step_behind self.old.table.defs base rows row.now).reply f)) }
        ensures place { IfOk result (λ at. at ≡ self.old.table.end) }
        ensures more { OnOk result ((rows : List Values) → IsInserter self.old.table rows
            → IsInserter self.new.table (rows ++ row.now ∷ [])) }
        ensures end { OnOk result (self.new.table.end ≡ end_behind self.old.table row.now) }
        ensures reached { OnOk result
            (is_addressable self.old.table.defs self.new.table.end ≡ true) }
        ensures room { OnOk result
            (needed self.old.table row.now ≤ free_words self.old.table.appender) }
        ensures words { OnOk result (self.new.table.appender
            ≡ with_words self.old.table.appender
            (row_words (spelling self.old.table.defs row.now))) }
        ensures causes { IfErr result (IsCaused self.old.table row.now) }
        ensures again { OnErr result ((rows : List Values) → IsInserter self.old.table rows
            → IsInserter self.new.table rows) }
        ensures unmoved { OnErr result (self.new.table.end ≡ self.old.table.end) }
        ensures unstored { OnErr result (self.new.table.appender ≡ self.old.table.appender) }
        ensures same { IsSameInserter self.old.table self.new.table }
        ensures still { IfHold (told_by R.holds self.old.files) self.old.table.rows
            (λ m own base. HoldTable self.new.table.rows own base m) }
        ensures holds { told_by R.holds self.new.files ≡ told_by R.holds self.old.files }
        ensures cause { HasCause File
            (R.faults self.old.files.rows.reader + R.faults self.old.files.index.reader)
            (R.faults self.new.files.rows.reader + R.faults self.new.files.index.reader) result }
    {
        self.table.insert(&mut self.files, row)
    }
}
