//! `Reader`: a reader with the reader objects of the table's two files.
use crate::fault::SeenFault;
use crate::reader::TableReader;
use myi_adapters::ReaderFiles;
use myi_io::FileReader;
use myi_pack::Row;
use myi_snapshots::Snapshot;
use myi_table::Range;

/// A reader of a shared table with a reader object for each of its two files.
#[derive(Drop)]
pub struct Reader<R: FileReader> {
    pub table: TableReader,
    pub files: ReaderFiles<R>,
}

impl<R: FileReader> Reader<R> {
    ghost use Rattle.std.specs.Prelude.{◌≡◌, ◌+◌, ◌^◌, ◌<◌, ◌≤◌, List, map, length, IfOk, IfErr, OnOk};
    ghost use Rattle.myi_base.specs.Causes.{HasCause};
    ghost use Rattle.myi_adapters.specs.TwoReaders.{told_by};
    ghost use Rattle.myi_pack.specs.Packed.{Values};
    ghost use Rattle.myi_state.specs.State.{TableState};
    ghost use Rattle.myi_tablestate.specs.Listed.{placed};
    ghost use Rattle.myi_keyedrows.specs.KeyedRows.{HoldTable, IsKept, IfHold};
    ghost use Rattle.myi_table.specs.Reading.{ReadsInRange};
    ghost use Rattle.myi_tail.specs.Prefix.{BeginsWith};
    ghost use Rattle.myi_snapshots.specs.Knowing.{told_place};
    ghost use Rattle.myi_snapshots.specs.Seen.{seen_rows, IsTaken};
    ghost use Rattle.myi_readers.specs.declared.fault.SeenFault.TheVariants.{File};
    ghost use Rattle.myi_readers.specs.Faults.{IsCutOff};
    ghost use Rattle.myi_readers.specs.Reader.{IsReader, AreKnown, IsSameReader, rows_known, end_known};
    ghost use Rattle.myi_readers.specs.Ranges.{AnswersSeen, ReadsFew, NeverDamaged};

    /// A snapshot of this moment, as `TableReader::lock`. It takes no memory.
    pub fn lock(&mut self) -> Snapshot
        requires ready { IsReader self.old.table }
        ensures number { result.number
            ≡ self.old.table.number + length (rows_known self.new.table) }
        ensures length { result.length ≡ told_place (end_known self.new.table) }
        ensures seen { self.old.table.seat.seen ≤ self.new.table.seat.seen }
        ensures caught { length self.new.table.seat.known ≡ self.new.table.seat.seen }
        ensures more { BeginsWith self.new.table.seat.known self.old.table.seat.known }
        ensures later { self.old.table.number + length (rows_known self.old.table)
            ≤ result.number }
        ensures taken { (base : TableState) (rows : List Values) → AreKnown self.new.table rows
            → base.space.end ≡ self.old.table.rows.rows.file.counts.length
            → end_known self.new.table < 2 ^ 64
            → IsTaken self.old.table.defs base self.old.table.number rows result }
        ensures ready { IsReader self.new.table }
        ensures same { IsSameReader self.old.table self.new.table }
        ensures rows { self.new.table.rows ≡ self.old.table.rows }
        ensures files { self.new.files ≡ self.old.files }
    {
        self.table.lock()
    }

    /// All rows that are seen by a snapshot, as `TableReader::scan`.
    pub fn scan(&mut self, snap: &Snapshot) -> Result<Vec<(u64, Row)>, SeenFault>
        requires ready { IsReader self.old.table }
        requires kept { IsKept (told_by R.holds self.old.files) self.old.table.rows }
        ensures rows { IfOk result (λ rows.
            IfHold (told_by R.holds self.old.files) self.old.table.rows (λ m own base.
            (known : List Values) → AreKnown self.old.table known
            → rows.items ≡ map placed (seen_rows self.old.table.defs base known snap.now))) }
        ensures cut { IfErr result IsCutOff }
        ensures table { self.new.table ≡ self.old.table }
        ensures holds { told_by R.holds self.new.files ≡ told_by R.holds self.old.files }
        ensures cause { HasCause File
            (R.faults self.old.files.rows.reader + R.faults self.old.files.index.reader)
            (R.faults self.new.files.rows.reader + R.faults self.new.files.index.reader) result }
    {
        self.table.scan(&mut self.files, snap)
    }

    /// The rows that are seen by a snapshot and match, as `TableReader::range`.
    pub fn range(&mut self, snap: &Snapshot, range: &Range) -> Result<Vec<(u64, Row)>, SeenFault>
        requires ready { IsReader self.old.table }
        requires key { range.now.key < length self.old.table.rows.trees.places }
        requires kept { IsKept (told_by R.holds self.old.files) self.old.table.rows }
        ensures rows { IfOk result (λ rows.
            IfHold (told_by R.holds self.old.files) self.old.table.rows (λ m own base.
            (known : List Values) → AreKnown self.old.table known
            → AnswersSeen self.old.table.defs base known snap.now range.now rows.items)) }
        ensures few { OnOk result (IfHold (told_by R.holds self.old.files) self.old.table.rows
            (λ m own base. ReadsFew self.old.table.defs base range.now
            (R.reads self.old.files.rows.reader + R.reads self.old.files.index.reader)
            (R.reads self.new.files.rows.reader + R.reads self.new.files.index.reader))) }
        ensures read { IfHold (told_by R.holds self.old.files) self.old.table.rows
            (λ m own base. ReadsInRange self.old.table.defs base range.now
            (R.reads self.old.files.rows.reader + R.reads self.old.files.index.reader)
            (R.reads self.new.files.rows.reader + R.reads self.new.files.index.reader)) }
        ensures ready { IsReader self.new.table }
        ensures same { IsSameReader self.old.table self.new.table }
        ensures known { self.new.table.known ≡ self.old.table.known }
        ensures seat { self.new.table.seat ≡ self.old.table.seat }
        ensures still { IfHold (told_by R.holds self.old.files) self.old.table.rows
            (λ m own base. HoldTable self.new.table.rows own base m) }
        ensures never { IfErr result (NeverDamaged (told_by R.holds self.old.files)) }
        ensures holds { told_by R.holds self.new.files ≡ told_by R.holds self.old.files }
        ensures cause { HasCause File
            (R.faults self.old.files.rows.reader + R.faults self.old.files.index.reader)
            (R.faults self.new.files.rows.reader + R.faults self.new.files.index.reader) result }
    {
        self.table.range(&mut self.files, snap, range)
    }
}
