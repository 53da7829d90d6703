//! Reading the rows of a MERGE list whose key lies between bounds: of the next rows of all tables the one with the least
//! key comes first, and of those with one key that of the first table.
ghost use Rattle.std.specs.Prelude.{◌≡◌, ◌+◌, true, None, IfOk, IfErr, IfSome, IfNone, OnOk, IsTrue};
ghost use Rattle.myi_ranges.specs.Ranges.{ReadInFew};
ghost use Rattle.std.specs.List.{AllByRecursion};
ghost use Rattle.myi_merge.specs.declared.ranges.Reading.{Reading};
ghost use Rattle.myi_base.specs.Causes.{HasCause};
ghost use Rattle.myi_defs.specs.Sound.{IsSound};
ghost use Rattle.myi_data.specs.Keys.{IsKeyNumber, key_of};
ghost use Rattle.myi_pack.specs.Spelling.{fits};
ghost use Rattle.myi_table.specs.Table.{defs_in, IsKept, IfHolds};
ghost use Rattle.myi_base.specs.Holding.{Told, OthersStay};
ghost use Rattle.myi_opening.specs.Names.{index_file};
ghost use Rattle.myi_table.specs.Reading.{HasKey, IsAhead, IsSameReading};
ghost use Rattle.myi_table.specs.Faults.{NeverDamaged, IsBrokenFor};
ghost use Rattle.myi_merge.specs.Merged.{IsSoundTable};
ghost use Rattle.myi_table.specs.declared.fault.ReadFault.TheVariants.{File};
ghost use Rattle.myi_merge.specs.Reading.{IsOnlyRead};
ghost use Rattle.myi_merge.specs.Merging.{answer_of, comes_before, IsLeast, IsNextOf, SearchesOnce};

use crate::merge::{Merge, table_is_sound};
use myi_data::key_of;
use myi_defs::{Defs, definitions_are_sound};
use myi_io::Files;
use myi_keys::KeyVal;
use myi_pack::{Row, fits, pack, spellings_are_shortest, view_packed};
use myi_ranges::{RangeRows, rows_that_come_match};
use myi_table::{Range, ReadFault, Table, tables_rest_on_their_files};
use std::alloc::{AllocError, Global};

/// The next row of a table, with its key and its position.
pub(crate) struct Head {
    pub(crate) key: KeyVal,
    pub(crate) at: u64,
    pub(crate) row: Row,
}

impl Drop for Head {
    fn drop(self) {
        let Head {
            key: _,
            at: _,
            row: _,
        } = self;
    }
}

impl Head {
    ghost use Rattle.std.specs.Prelude.{◌≡◌};

    // As it is answered.
    fn numbered(self, table: u32) -> (u32, u64, Row)
        ensures { result ≡ (table, self.at, self.row) }
    {
        let Head { key: _, at, row } = self;
        (table, at, row)
    }
}

/// The reading of a table, and its next row, where one is to come.
pub(crate) struct Reading {
    pub(crate) rows: RangeRows,
    pub(crate) head: Option<Head>,
}

impl Drop for Reading {
    fn drop(self) {
        let Reading { rows: _, head: _ } = self;
    }
}

// The key of a row, for the key of that number, from 0.
fn key_of_row(alloc: Global, defs: &Defs, key: usize, row: &Row) -> Result<KeyVal, AllocError>
    requires sound { IsSound defs.now }
    requires key { IsKeyNumber defs.now (key + 1) }
    requires fits { fits defs.now row.now ≡ true }
    ensures { IfOk result (λ k. k ≡ key_of defs.now (key + 1) row.now) }
{
    spellings_are_shortest();
    let packed = pack(alloc, defs, row)?;
    let view = view_packed(defs, &packed);
    key_of(alloc, defs, key + 1, &view)
}

// The next row of a reading. No table has a row that does not fit.
fn next_head<F: Files>(
    alloc: Global,
    files: &mut F,
    table: &mut Table,
    key: usize,
    rows: &mut RangeRows,
) -> Result<Option<Head>, ReadFault>
    requires writable { IsTrue F.writable }
    requires key { rows.old.key ≡ key }
    requires has { HasKey table.old rows.old }
    requires kept { IsKept (F.holds files.old) table.old }
    requires ahead { IfHolds (F.holds files.old) table.old (λ m s. IsAhead table.old rows.old s) }
    ensures head { IfOk result (λ head. IfHolds (F.holds files.old) table.old (λ m s.
        IsNextOf (defs_in table.old) s rows.old rows.new head)) }
    ensures ahead { IfHolds (F.holds files.new) table.new (λ m s. IsAhead table.new rows.new s) }
    ensures few { IfOk result (λ head. IfHolds (F.holds files.old) table.old (λ m s.
        ReadInFew (defs_in table.old) s rows.old (answer_of head)
        (F.reads files.old) (F.reads files.new))) }
    ensures once { IfOk result (SearchesOnce rows.new) }
    ensures reading { IsSameReading rows.old rows.new }
    ensures first { IfErr result (IsBrokenFor table.old.broken) }
    ensures never { IfErr result (NeverDamaged (F.holds files.old)) }
    ensures only { IsOnlyRead (F.holds files.old) (F.holds files.new) table.old table.new }
    ensures kept { IsKept (F.holds files.new) table.new }
    ensures sound { IsSoundTable table.new }
    ensures others { Told (F.holds files.old) (F.holds files.new)
        (OthersStay (index_file table.old.name)) }
    ensures cause { HasCause File (F.faults files.old) (F.faults files.new) result }
{
    definitions_are_sound();
    let next = table.next_in_range(files, rows);
    table_is_sound(table);
    let Some((at, row)) = next? else {
        return Ok(None);
    };
    if !fits(table.defs(), &row) {
        return Err(ReadFault::Damaged { at });
    }
    let key = key_of_row(alloc, table.defs(), key, &row)?;
    Ok(Some(Head { key, at, row }))
}

// Whether a row comes before another: its key is less.
fn comes_before(head: &Option<Head>, best: &Option<Head>) -> bool
    ensures { result ≡ comes_before head.now best.now }
{
    match (head, best) {
        (Some(head), Some(best)) => head.key < best.key,
        (Some(_), None) => true,
        (None, _) => false,
    }
}

// The reading whose next row has the least key, the first of those; None where no row is to come.
fn least(readings: &[Reading]) -> Option<usize>
    ensures found { IfSome result (IsLeast readings.now) }
    ensures none { IfNone result (AllByRecursion (λ (r : Reading). r.head ≡ None) readings.now) }
{
    let mut least: Option<usize> = None;
    for index in 0..readings.len() {
        let better = match least {
            None => readings[index].head.is_some(),
            Some(best) => comes_before(&readings[index].head, &readings[best].head),
        };
        if better {
            least = Some(index);
        }
    }
    least
}

impl Merge {
    ghost use Rattle.std.specs.Prelude.{◌≡◌, ◌<◌, [], length, slice_get, IfOk, IfErr, IfSome, OnOk, IsTrue};
    ghost use Rattle.std.specs.List.{AllByRecursion};
    ghost use Rattle.myi_base.specs.Causes.{HasCause};
    ghost use Rattle.myi_table.specs.declared.fault.ReadFault.TheVariants.{File};
    ghost use Rattle.myi_table.specs.Faults.{NeverDamaged, IsBrokenFor};
    ghost use Rattle.myi_table.specs.Table.{OpenTable, defs_in, IfHolds};
    ghost use Rattle.myi_ranges.specs.Ranges.{ReadInFew};
    ghost use Rattle.myi_table.specs.Reading.{IsAhead, IsSameReading, IfBroken, begun};
    ghost use Rattle.myi_merge.specs.Merged.{AreKept, AreWhole, IsRefusedFor, IfHoldEach};
    ghost use Rattle.myi_merge.specs.Merging.{answer_of, IsNextOf, ReadEach, AheadEach, AtTable, IsOneRead, IsNotBroken};
    ghost use Rattle.myi_merge.specs.Merging.{SearchesOnce, ReadInFewEach};
    ghost use Rattle.myi_merge.specs.Reading.{AnswersMerged, AreCarried};

    /// The rows that match, each with the number of its table and its position, in order of the key, then of these
    /// numbers, then of the positions. Keys are counted from 0, tables from 1. The first table that is broken is the
    /// refusal before any other, and nothing is changed then. Else the tables are not changed but for their key caches,
    /// and of the files only their index files may be, by pages that these write.
    pub fn range<F: Files>(
        &mut self,
        files: &mut F,
        range: &Range,
    ) -> Result<Vec<(u32, u64, Row)>, ReadFault>
        requires writable { IsTrue F.writable }
        requires key { IfSome (slice_get self.old.tables 0) (λ (t : OpenTable).
            range.now.key < length (defs_in t).keys) }
        requires kept { AreKept (F.holds files.old) self.old.tables }
        ensures rows { IfOk result (λ rows. IfHoldEach (F.holds files.old) self.old.tables (λ m ss.
            IfSome (slice_get self.old.tables 0) (λ (t : OpenTable).
            AnswersMerged (defs_in t) self.old.tables ss range.now
            (F.reads files.old) (F.reads files.new) rows.items))) }
        ensures whole { OnOk result (AreWhole self.old.tables) }
        ensures first { IfErr result (IsRefusedFor self.old.tables) }
        ensures unread { IfErr result (λ f. IfBroken f ((self.new ≡ self.old)
            × (F.holds files.new ≡ F.holds files.old))) }
        ensures never { IfErr result (NeverDamaged (F.holds files.old)) }
        ensures carried { AreCarried (F.holds files.old) (F.holds files.new)
            self.old.tables self.new.tables }
        ensures method { self.new.method ≡ self.old.method }
        ensures cause { HasCause File (F.faults files.old) (F.faults files.new) result }
    {
        tables_rest_on_their_files();
        rows_that_come_match();
        self.refuse_reading()?;
        let mut readings = self.begin(files, range)?;
        let mut found = Vec::new(self.alloc);
        while let Some(index) = least(&readings) {
            let reading = &mut readings[index];
            let next = self.read_ahead(files, range.key, index, &mut reading.rows)?;
            if let Some(head) = std::mem::replace(&mut reading.head, next) {
                found.push(head.numbered(index as u32 + 1))?;
            }
        }
        Ok(found)
    }

    // The readings of all tables, none of which is broken, each with its first row.
    fn begin<F: Files>(&mut self, files: &mut F, range: &Range) -> Result<Vec<Reading>, ReadFault>
        requires writable { IsTrue F.writable }
        requires key { IfSome (slice_get self.old.tables 0) (λ (t : OpenTable).
            range.now.key < length (defs_in t).keys) }
        requires kept { AreKept (F.holds files.old) self.old.tables }
        requires whole { AreWhole self.old.tables }
        ensures each { IfOk result (λ rs. IfHoldEach (F.holds files.old) self.old.tables (λ m ss.
            ReadEach range.now 1 self.old.tables ss rs.items [])) }
        ensures same { IfOk result (λ rs. AllByRecursion (λ (r : Reading).
            IsSameReading (begun range.now) r.rows) rs.items) }
        ensures few { IfOk result (λ rs. IfHoldEach (F.holds files.old) self.old.tables (λ m ss.
            ReadInFewEach range.now 1 self.old.tables ss rs.items []
            (F.reads files.old) (F.reads files.new))) }
        ensures once { IfOk result (λ rs. AllByRecursion (λ (r : Reading).
            SearchesOnce r.rows r.head) rs.items) }
        ensures ahead { IfOk result (λ rs.
            AheadEach (F.holds files.new) self.new.tables rs.items) }
        ensures carried { AreCarried (F.holds files.old) (F.holds files.new)
            self.old.tables self.new.tables }
        ensures method { self.new.method ≡ self.old.method }
        ensures refused { IfErr result (λ f. IsNotBroken f) }
        ensures never { IfErr result (NeverDamaged (F.holds files.old)) }
        ensures cause { HasCause File (F.faults files.old) (F.faults files.new) result }
    {
        tables_rest_on_their_files();
        let mut readings = Vec::with_capacity(self.alloc, self.tables.len())?;
        for index in 0..self.tables.len() {
            let mut rows = range.begin(self.alloc)?;
            let head = self.read_ahead(files, range.key, index, &mut rows)?;
            readings.push(Reading { rows, head })?;
        }
        Ok(readings)
    }

    // The next row of a reading of the table of that number, from 0, for the key of that number.
    fn read_ahead<F: Files>(
        &mut self,
        files: &mut F,
        key: usize,
        index: usize,
        rows: &mut RangeRows,
    ) -> Result<Option<Head>, ReadFault>
        requires writable { IsTrue F.writable }
        requires index { index < length self.old.tables }
        requires has { IfSome (slice_get self.old.tables 0) (λ (t : OpenTable).
            key < length (defs_in t).keys) }
        requires key { rows.old.key ≡ key }
        requires kept { AreKept (F.holds files.old) self.old.tables }
        requires ahead { AtTable self.old.tables index (λ t. IfHolds (F.holds files.old) t (λ m s.
            IsAhead t rows.old s)) }
        ensures head { IfOk result (λ head. AtTable self.old.tables index (λ t.
            IfHolds (F.holds files.old) t (λ m s.
            IsNextOf (defs_in t) s rows.old rows.new head))) }
        ensures few { IfOk result (λ head. AtTable self.old.tables index (λ t.
            IfHolds (F.holds files.old) t (λ m s.
            ReadInFew (defs_in t) s rows.old (answer_of head)
            (F.reads files.old) (F.reads files.new)))) }
        ensures once { IfOk result (SearchesOnce rows.new) }
        ensures ahead { AtTable self.new.tables index (λ t. IfHolds (F.holds files.new) t (λ m s.
            IsAhead t rows.new s)) }
        ensures reading { IsSameReading rows.old rows.new }
        ensures one { IsOneRead (F.holds files.old) (F.holds files.new) index
            self.old.tables self.new.tables }
        ensures carried { AreCarried (F.holds files.old) (F.holds files.new)
            self.old.tables self.new.tables }
        ensures method { self.new.method ≡ self.old.method }
        ensures first { IfErr result (λ f. AtTable self.old.tables index (λ t.
            IsBrokenFor t.broken f)) }
        ensures never { IfErr result (NeverDamaged (F.holds files.old)) }
        ensures cause { HasCause File (F.faults files.old) (F.faults files.new) result }
    {
        tables_rest_on_their_files();
        let table = &mut self.tables[index];
        next_head(self.alloc, files, table, key, rows)
    }
}
