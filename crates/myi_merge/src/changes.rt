//! Inserting a row in a MERGE list, and closing it.
use crate::fault::MergeInsertFault;
use crate::merge::{Merge, table_is_sound};
use myi_io::Files;
use myi_mergelist::InsertMethod;
use myi_pack::Row;
use myi_table::{ChangeFault, tables_rest_on_their_files};

impl Merge {
    ghost use Rattle.std.specs.Prelude.{◌≡◌, ◌≢◌, ◌<◌, length, true, None, Err, slice_get, IfOk, IfErr, IfSome, OnOk, OnErr, IsTrue};
    ghost use Rattle.std.specs.List.{AllByRecursion};
    ghost use Rattle.myi_base.specs.Holding.{IfTold, Told};
    ghost use Rattle.myi_base.specs.Causes.{HasCause};
    ghost use Rattle.myi_pack.specs.Spelling.{fits};
    ghost use Rattle.myi_search.specs.Counting.{CountsOn};
    ghost use Rattle.myi_state.specs.Changes.{insert};
    ghost use Rattle.myi_slots.specs.SlotFile.{AddsNew, Never};
    ghost use Rattle.myi_rows.specs.Refusals.{LacksRoom};
    ghost use Rattle.myi_rowtrees.specs.Duplicates.{MayRepeat};
    ghost use Rattle.myi_keyedrows.specs.KeyedRows.{IsLeft};
    ghost use Rattle.myi_table.specs.declared.fault.ChangeFault.{ChangeFault};
    ghost use Rattle.myi_table.specs.declared.fault.ChangeFault.TheVariants as change;
    ghost use Rattle.myi_table.specs.Faults.{CutsOff};
    ghost use Rattle.myi_table.specs.Refusals.{ByCause};
    ghost use Rattle.myi_table.specs.Table.{OpenTable, defs_in, StillHolds, IsSame, KeepsRows};
    ghost use Rattle.myi_merge.specs.declared.fault.MergeInsertFault.TheVariants.{NoInsertMethod, Change};
    ghost use Rattle.myi_merge.specs.Merged.{AreKept, AreWhole, IfHoldEach};
    ghost use Rattle.myi_merge.specs.Changing.{target, ChangesTarget, OfTarget, broken_behind, IfReplied};
    ghost use Rattle.myi_merge.specs.Changing.{Inserts, RefusesRow, ChangesTheirOwn};
    ghost use Rattle.myi_merge.specs.Changing.{EachClosed, ClosesOne, StopsAtTable, KeepEachRows};

    /// Puts a new row into the first or the last table, as the list says, and answers that table's number, counted
    /// from 1, and the row's position. The answer, also a refusal, is that of `Table::insert` there: a unique key
    /// holds in that table alone. Where the list does not say in which table rows are inserted, that is the refusal,
    /// whether a table is broken or not. A broken table refuses each row, and nothing is changed; that another table
    /// is broken is no matter.
    pub fn insert<F: Files>(
        &mut self,
        files: &mut F,
        row: &Row,
    ) -> Result<(u32, u64), MergeInsertFault>
        requires writable { IsTrue F.writable }
        requires fits { IfSome (slice_get self.old.tables 0) (λ (t : OpenTable).
            fits (defs_in t) row.now ≡ true) }
        requires kept { AreKept (F.holds files.old) self.old.tables }
        ensures made { IfOk result (Inserts (insert row.now) (F.holds files.old) (F.holds files.new)
            self.old self.new) }
        ensures refused { (f : ChangeFault) → result ≡ Err (Change f)
            → RefusesRow (insert row.now) (F.holds files.old) (F.holds files.new)
            self.old self.new f }
        ensures nowhere { result ≡ Err NoInsertMethod → (self.old.method ≡ None)
            × (self.new ≡ self.old) × (F.holds files.new ≡ F.holds files.old) }
        ensures somewhere { OnOk result (self.old.method ≢ None) }

        // Of the table that takes the rows, as of a call on it alone.
        ensures alone { ChangesTarget self.old self.new }
        ensures appended { OnOk result (OfTarget self.old self.new (λ t u.
            Told (F.holds files.old) (F.holds files.new)
            (AddsNew t.rows.rows.file u.rows.rows.file row.now))) }
        ensures whole { OnOk result (OfTarget self.old self.new (λ t u. t.broken ≡ None)) }
        ensures changed { OnOk result (OfTarget self.old self.new (λ t u. u.changed ≡ true)) }
        ensures unmarked { OnErr result (OfTarget self.old self.new (λ t u.
            u.changed ≡ t.changed)) }
        ensures unchanged { IfErr result (λ f. IfReplied f (OfTarget self.old self.new
            (StillHolds (F.holds files.old) (F.holds files.new)))) }
        ensures rows { IfErr result (λ f. IfReplied f (OfTarget self.old self.new (λ t u.
            Told (F.holds files.old) (F.holds files.new) (KeepsRows t.name)))) }
        ensures causes { (f : ChangeFault) → result ≡ Err (Change f) → OfTarget self.old self.new
            (λ t u. ByCause Never (MayRepeat (defs_in t) row.now)
            (LacksRoom t.rows.rows.file row.now (F.holds files.old)) f) }
        ensures left { IfErr result (λ f. IfReplied f (OfTarget self.old self.new (λ t u.
            IsLeft t.rows u.rows))) }
        ensures broken { OfTarget self.old self.new (λ t u.
            u.broken ≡ broken_behind result (F.faults files.new) t.broken) }
        ensures same { OfTarget self.old self.new IsSame }
        ensures counted { OfTarget self.old self.new (λ t u.
            CountsOn t.rows.trees.cache u.rows.trees.cache) }

        // Of all tables and files.
        ensures kept { AreKept (F.holds files.new) self.new.tables }
        ensures others { ChangesTheirOwn (F.holds files.old) (F.holds files.new) self.old.tables }
        ensures cause { HasCause (Change change.File)
            (F.faults files.old) (F.faults files.new) result }
    {
        tables_rest_on_their_files();
        let Some(index) = self.target() else {
            return Err(MergeInsertFault::NoInsertMethod);
        };
        let table = &mut self.tables[index];
        let made = table.insert(files, row);
        table_is_sound(table);
        Ok((index as u32 + 1, made?))
    }

    // The number of the table that takes the rows, from 0.
    fn target(&self) -> Option<usize>
        ensures target { result ≡ target self.now }
        ensures inside { IfSome result (λ index. index < length self.now.tables) }
    {
        match self.method {
            None => None,
            Some(InsertMethod::First) => Some(0),
            Some(InsertMethod::Last) => Some(self.tables.len() - 1),
        }
    }

    /// Closes the tables, in the order of the list, up to the first that refuses it. Where each stands for a state its
    /// two files stand for it then, and are a clean pair. After a refusal those before that table are closed, the
    /// files of those behind it are as they were, and its own index file is what the calls left. Data files stay. A
    /// broken table refuses to be closed, and its files are as they were. Memory comes where a call found none, and where files that tell
    /// nothing have a page or a deleted block at 2^64 - 1. A list that is dropped without `close` writes nothing: the
    /// headers, and pages that the key caches still hold, stay unwritten, so the index files of changed tables are no
    /// longer those of their data files.
    pub fn close<F: Files>(self, files: &mut F) -> Result<(), ChangeFault>
        requires writable { IsTrue F.writable }
        requires kept { AreKept (F.holds files.old) self.tables }
        ensures closed { OnOk result (IfHoldEach (F.holds files.old) self.tables (λ m ss.
            IfTold (F.holds files.new) (EachClosed self.tables ss))) }
        ensures refused { IfErr result (λ f.
            IfHoldEach (F.holds files.old) self.tables (λ m ss. CutsOff f)) }
        ensures stops { IfErr result
            (StopsAtTable (F.holds files.old) (F.holds files.new) self.tables) }
        ensures each { OnOk result (AllByRecursion
            (ClosesOne (F.holds files.old) (F.holds files.new)) self.tables) }
        ensures rows { OnOk result (Told (F.holds files.old) (F.holds files.new)
            (KeepEachRows self.tables)) }
        ensures whole { OnOk result (AreWhole self.tables) }
        ensures others { ChangesTheirOwn (F.holds files.old) (F.holds files.new) self.tables }
        ensures cause { HasCause change.File (F.faults files.old) (F.faults files.new) result }
    {
        tables_rest_on_their_files();
        let _ = &self.alloc;
        for table in self.into_tables() {
            table.close(files)?;
        }
        Ok(())
    }
}
