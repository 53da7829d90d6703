//! Reading the rows of a table whose key lies between bounds, in order of the key and then of their positions.
ghost use Rattle.std.specs.Prelude.{◌≡◌, IfOk};

use crate::fault::ReadFault;
use crate::table::Table;
use myi_io::Files;
use myi_keys::KeyVal;
use myi_pack::Row;
use myi_ranges::{RangeRows, rows_that_come_match};
use myi_state::standing_files_are_read;
use std::alloc::{AllocError, Global};

/// The rows that are asked for: those whose key of that number, counted from 0, is not below `from` and not above
/// `to`. None is no bound.
#[derive(Drop)]
pub struct Range {
    pub key: usize,
    pub from: Option<KeyVal>,
    pub to: Option<KeyVal>,
}

// The same bound.
fn copy_of(alloc: Global, bound: &Option<KeyVal>) -> Result<Option<KeyVal>, AllocError>
    ensures { IfOk result (λ copy. copy ≡ bound.now) }
{
    let Some(key) = bound else { return Ok(None) };
    let code = Vec::from_slice(alloc, key.code())?;
    Ok(Some(KeyVal::of_code(code)))
}

impl Range {
    ghost use Rattle.std.specs.Prelude.{◌≡◌, IfOk};
    ghost use Rattle.myi_table.specs.Reading.{begun};

    /// A reading of these rows, which has read nothing.
    pub fn begin(&self, alloc: Global) -> Result<RangeRows, AllocError>
        ensures { IfOk result (λ rows. rows ≡ begun self.now) }
    {
        let from = copy_of(alloc, &self.from)?;
        let to = copy_of(alloc, &self.to)?;
        Ok(RangeRows::new(self.key, from, to))
    }
}

impl Table {
    ghost use Rattle.std.specs.Prelude.{◌≡◌, ◌<◌, ◌≤◌, List, length, None, Ok, IfOk, IfErr, IfSome, OnOk, OnErr, IsTrue};
    ghost use Rattle.myi_base.specs.Holding.{Told, OthersStay};
    ghost use Rattle.myi_base.specs.Causes.{HasCause};
    ghost use Rattle.myi_search.specs.Counting.{CountsOn};
    ghost use Rattle.myi_defs.specs.declared.types.Defs.{Defs};
    ghost use Rattle.myi_state.specs.State.{StoredRow, TableState};
    ghost use Rattle.myi_ranges.specs.Ranges.{Answers, ReadInFew, FailsInFew, searches, coming};
    ghost use Rattle.myi_keyedrows.specs.KeyedRows.{IsLeft};
    ghost use Rattle.myi_opening.specs.Names.{index_file};
    ghost use Rattle.myi_table.specs.declared.fault.ReadFault.TheVariants.{File};
    ghost use Rattle.myi_table.specs.Faults.{NeverDamaged, IsBrokenFor};
    ghost use Rattle.myi_table.specs.Table.{OpenTable, defs_in, IsKept, IfHolds, StillHolds, IsSame};
    ghost use Rattle.myi_table.specs.Reading.{HasKey, IsAhead, IsSameReading, IsAtEnd, StopsAt, IfBroken, AnswersRange, ReadsInRange};

    /// The next row of a reading and its position, and None where none is to come. What the reading has read ahead
    /// are the next pairs of the table (`ahead`): it has read nothing yet, or the table was not changed since. `forget_ahead`
    /// comes between a change and the next row. The table is not changed. After a refusal the reading is at its
    /// end, but of a broken table, of which nothing is read.
    pub fn next_in_range<F: Files>(
        &mut self,
        files: &mut F,
        rows: &mut RangeRows,
    ) -> Result<Option<(u64, Row)>, ReadFault>
        requires writable { IsTrue F.writable }
        requires key { HasKey self.old rows.old }
        requires kept { IsKept (F.holds files.old) self.old }
        requires ahead { IfHolds (F.holds files.old) self.old (λ m s. IsAhead self.old rows.old s) }
        ensures row { IfOk result (λ row. IfHolds (F.holds files.old) self.old (λ m s.
            Answers (defs_in self.old) s rows.old rows.new row)) }
        ensures ahead { IfHolds (F.holds files.new) self.new (λ m s.
            IsAhead self.new rows.new s) }
        ensures reading { IsSameReading rows.old rows.new }
        ensures ended { IfOk result (λ row. row ≡ None → IsAtEnd rows.new) }
        ensures past { self.old.broken ≡ None → IsAtEnd rows.old → result ≡ Ok None }
        ensures onward { IfOk result (λ row. IfSome row (λ found. searches rows.new.reached ≤ 1)) }
        ensures stops { IfErr result (λ f. StopsAt f rows.old rows.new) }
        ensures unread { IfErr result (λ f. IfBroken f ((self.new ≡ self.old)
            × (F.holds files.new ≡ F.holds files.old))) }
        ensures few { IfOk result (λ row. IfHolds (F.holds files.old) self.old (λ m s.
            ReadInFew (defs_in self.old) s rows.old row (F.reads files.old) (F.reads files.new))) }
        ensures failed { IfErr result (λ f. IfHolds (F.holds files.old) self.old (λ m s.
            FailsInFew (defs_in self.old) s rows.old (F.reads files.old) (F.reads files.new))) }
        ensures whole { OnOk result (self.old.broken ≡ None) }
        ensures first { IfErr result (IsBrokenFor self.old.broken) }
        ensures never { IfErr result (NeverDamaged (F.holds files.old)) }
        ensures still { StillHolds (F.holds files.old) (F.holds files.new) self.old self.new }
        ensures kept { IsKept (F.holds files.new) self.new }
        ensures same { IsSame self.old self.new }
        ensures broken { self.new.broken ≡ self.old.broken }
        ensures changed { self.new.changed ≡ self.old.changed }
        ensures left { IsLeft self.old.rows self.new.rows }
        ensures others { Told (F.holds files.old) (F.holds files.new)
            (OthersStay (index_file self.old.name)) }
        ensures counted { CountsOn self.old.rows.trees.cache self.new.rows.trees.cache }
        ensures cause { HasCause File (F.faults files.old) (F.faults files.new) result }
    {
        standing_files_are_read();
        self.refuse_reading()?;
        let trees = &mut self.rows.trees;
        let row = rows.next_row(files, &self.defs, trees, &mut self.rows.rows)?;
        Ok(row)
    }

    /// Forgets the pairs that a reading has read ahead, so that the table may be changed before the next row is asked
    /// for; the same pairs of a table are to come. For want of memory the reading is at its end.
    pub fn forget_ahead(&self, rows: &mut RangeRows) -> Result<(), AllocError>
        ensures forgotten { OnOk result ((t : OpenTable) (s : TableState) → IsAhead t rows.new s) }
        ensures same { OnOk result ((d : Defs) (all : List StoredRow)
            → coming d rows.new all ≡ coming d rows.old all) }
        ensures reading { IsSameReading rows.old rows.new }
        ensures end { OnErr result (IsAtEnd rows.new) }
    {
        rows.forget(&self.rows.trees)
    }

    /// The rows that match with their positions, in order of the key and then of the positions. They are searched for
    /// in the tree of the key and then read one by one.
    pub fn range<F: Files>(
        &mut self,
        files: &mut F,
        range: &Range,
    ) -> Result<Vec<(u64, Row)>, ReadFault>
        requires writable { IsTrue F.writable }
        requires key { range.now.key < length self.old.rows.trees.places }
        requires kept { IsKept (F.holds files.old) self.old }
        ensures rows { IfOk result (λ rows. IfHolds (F.holds files.old) self.old (λ m s.
            AnswersRange (defs_in self.old) s range.now
            (F.reads files.old) (F.reads files.new) rows.items)) }
        ensures unread { IfErr result (λ f. IfBroken f ((self.new ≡ self.old)
            × (F.holds files.new ≡ F.holds files.old))) }
        ensures few { IfHolds (F.holds files.old) self.old (λ m s.
            ReadsInRange (defs_in self.old) s range.now (F.reads files.old) (F.reads files.new)) }
        ensures whole { OnOk result (self.old.broken ≡ None) }
        ensures first { IfErr result (IsBrokenFor self.old.broken) }
        ensures never { IfErr result (NeverDamaged (F.holds files.old)) }
        ensures still { StillHolds (F.holds files.old) (F.holds files.new) self.old self.new }
        ensures kept { IsKept (F.holds files.new) self.new }
        ensures same { IsSame self.old self.new }
        ensures broken { self.new.broken ≡ self.old.broken }
        ensures changed { self.new.changed ≡ self.old.changed }
        ensures left { IsLeft self.old.rows self.new.rows }
        ensures others { Told (F.holds files.old) (F.holds files.new)
            (OthersStay (index_file self.old.name)) }
        ensures counted { CountsOn self.old.rows.trees.cache self.new.rows.trees.cache }
        ensures cause { HasCause File (F.faults files.old) (F.faults files.new) result }
    {
        rows_that_come_match();
        self.refuse_reading()?;
        let mut reading = range.begin(self.alloc)?;
        let mut rows = Vec::new(self.alloc);
        while let Some(row) = self.next_in_range(files, &mut reading)? {
            rows.push(row)?;
        }
        Ok(rows)
    }
}
