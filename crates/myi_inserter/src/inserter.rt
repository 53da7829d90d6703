//! `TableInserter`: an appender, the keys of the rows that were put, and an object on the table's files.
ghost use Rattle.std.specs.Prelude.{◌≡◌, ℕ, List, [], None, IfOk};
ghost use Rattle.myi_base.specs.Holding.{Holding, bytes_of};
ghost use Rattle.myi_keycache.specs.Kept.{AllWritten};
ghost use Rattle.myi_keycache.specs.Caching.{pages_of};
ghost use Rattle.myi_keyedrows.specs.KeyedRows.{HoldTable};
ghost use Rattle.myi_table.specs.Table.{HoldState};
ghost use Rattle.myi_state.specs.State.{TableState};
ghost use Rattle.myi_inserter.specs.Inserter.{IsInserter};

use crate::fault::InsertFault;
use crate::put_keys::{ReadyRow, make_ready, put_keys};
use crate::sizes::size_of;
use crate::unique_key::UniqueKey;
use indexmap::IndexMap;
use myi_defs::Defs;
use myi_io::Files;
use myi_keyedrows::KeyedRows;
use myi_pack::{Row, spellings_are_shortest};
use myi_table::Table;
use myi_tablestate::keyed_refusals_come_in_order;
use myi_tail::Appender;
use std::alloc::{AllocError, Global};

/// An inserter of a shared table.
pub struct TableInserter {
    /// The definitions of the table.
    pub defs: Defs,
    /// The rows and trees of the base.
    pub rows: KeyedRows,
    pub appender: Appender,
    /// How many changes were made before the table was shared.
    pub number: u64,
    /// Where the next row goes.
    pub end: u64,
    /// The complete keys in unique keys of the rows that were put, with the positions of these.
    pub put: IndexMap<UniqueKey, u64>,
}

impl Drop for TableInserter {
    fn drop(self) {
        let TableInserter {
            defs: _,
            rows: _,
            appender: _,
            number: _,
            end: _,
            put: _,
        } = self;
    }
}

impl TableInserter {
    ghost use Rattle.std.specs.Prelude.{◌≡◌, ◌+◌, ◌^◌, ◌<◌, ◌≤◌, ◌∷◌, ◌++◌, true, false, List, [], length, IfOk, IfErr, OnOk, OnErr};
    ghost use Rattle.myi_base.specs.Causes.{HasCause};
    ghost use Rattle.myi_base.specs.Numbers.{AreBytes};
    ghost use Rattle.myi_defs.specs.Addressable.{is_addressable};
    ghost use Rattle.myi_defs.specs.Sound.{IsSound};
    ghost use Rattle.myi_defs.specs.declared.types.RowFormat.TheVariants.{Dynamic};
    ghost use Rattle.myi_pack.specs.Packed.{Values};
    ghost use Rattle.myi_pack.specs.Spelling.{spelling, fits};
    ghost use Rattle.myi_keyedrows.specs.KeyedRows.{HoldTable, IfHold};
    ghost use Rattle.myi_tail.specs.Rows.{row_words};
    ghost use Rattle.myi_tail.specs.Seats.{free_words};
    ghost use Rattle.myi_snapshots.specs.Known.{size_of};
    ghost use Rattle.myi_inserter.specs.declared.fault.InsertFault.TheVariants.{File, Full};
    ghost use Rattle.myi_inserter.specs.UniqueKeys.{unique_keys, FindsNone};
    ghost use Rattle.myi_inserter.specs.Putting.{FindsMore, LacksWords, IsNotPut, IsOfBase};
    ghost use Rattle.myi_inserter.specs.Inserter.{IsInserter, IsSameInserter, IsSearched, IsPut, IsReplyOf, IsCaused, step_behind, end_behind, needed, with_words};

    /// An inserter of a table, with an appender that has stored no words.
    pub fn new(
        alloc: Global,
        table: &Table,
        appender: Appender,
        number: u64,
    ) -> Result<TableInserter, AllocError>
        requires empty { appender.words ≡ [] }
        requires unpublished { appender.published ≡ 0 }
        ensures ready { IfOk result (λ i. IsInserter i []) }
        ensures appender { IfOk result (λ i. i.appender ≡ appender) }
        ensures number { IfOk result (λ i. i.number ≡ number) }
        ensures defs { IfOk result (λ i. i.defs ≡ table.now.rows.rows.file.defs) }
        ensures file { IfOk result (λ i. i.rows.rows ≡ record {
          file = table.now.rows.rows.file;
          places = None;
        }) }
        ensures places { IfOk result (λ i.
            i.rows.trees.places ≡ table.now.rows.trees.places) }

        // Once all pages of the table are written, other files that hold the same of its two hold its state.
        ensures base { IfOk result (λ i. (s : TableState) (m n : Holding)
            → HoldState table.now s m → AllWritten (pages_of table.now.rows.trees.cache)
            → bytes_of table.now.rows.rows.file.name n ≡ bytes_of table.now.rows.rows.file.name m
            → bytes_of table.now.rows.trees.cache.name n
            ≡ bytes_of table.now.rows.trees.cache.name m
            → (own : ℕ → ℕ) × HoldTable i.rows own s n) }
    {
        let defs = table.defs().copy()?;
        let rows = table.open_again()?;
        Ok(TableInserter {
            defs,
            rows,
            appender,
            number,
            end: table.length(),
            put: IndexMap::new(alloc),
        })
    }

    // Where the data file ends behind a row that is packed.
    fn end_with(&self, packed: &[u8]) -> Result<u64, InsertFault>
        requires few { self.now.defs.format ≡ Dynamic → length packed.now < 2 ^ 32 }
        ensures end { IfOk result (λ end. end ≡ self.now.end + size_of self.now.defs packed.now) }
        ensures reached { IfOk result (λ end. is_addressable self.now.defs end ≡ true) }
        ensures full { IfErr result (λ f. f ≡ Full) }
        ensures long { OnErr result (is_addressable self.now.defs
            (self.now.end + size_of self.now.defs packed.now) ≡ false) }
    {
        let Some(end) = self.end.checked_add(size_of(&self.defs, packed)) else {
            return Err(InsertFault::Full);
        };
        if !self.defs.addressable(end) {
            return Err(InsertFault::Full);
        }
        Ok(end)
    }

    // Makes a row ready to be put, and answers it with the end of the data file behind it. It is refused where another
    // row has one of its keys, and then where row pointers would not reach the whole file.
    fn check_row<F: Files>(
        &mut self,
        files: &mut F,
        row: &Row,
    ) -> Result<(ReadyRow, u64), InsertFault>
        requires ready { (rows : List Values) × IsInserter self.old rows }
        requires fits { fits self.old.defs row.now ≡ true }
        ensures packed { IfOk result (λ r. r.0.packed.items ≡ spelling self.old.defs row.now) }
        ensures bytes { OnOk result (AreBytes (spelling self.old.defs row.now)) }
        ensures keys { IfOk result (λ r. r.0.keys.items ≡ unique_keys self.old.defs row.now) }
        ensures end { IfOk result (λ r. r.1 ≡ end_behind self.old row.now) }
        ensures reached { IfOk result (λ r. is_addressable self.old.defs r.1 ≡ true) }
        ensures absent { IfOk result (λ r. FindsNone self.old.put r.0.keys.items) }
        ensures accepted { OnOk result (IfHold (F.holds files.old) self.old.rows (λ m own base.
            (rows : List Values) → IsInserter self.old rows
            → IsPut self.old.defs base rows row.now self.old.end)) }
        ensures refused { IfErr result (λ f. IfHold (F.holds files.old) self.old.rows
            (λ m own base. (rows : List Values) → IsInserter self.old rows → IsReplyOf self.old.end
            (step_behind self.old.defs base rows row.now).reply f)) }
        ensures causes { IfErr result (IsCaused self.old row.now) }
        ensures searched { IsSearched self.old self.new }
        ensures still { IfHold (F.holds files.old) self.old.rows (λ m own base.
            HoldTable self.new.rows own base m) }
        ensures holds { F.holds files.new ≡ F.holds files.old }
        ensures cause { HasCause File (F.faults files.old) (F.faults files.new) result }
    {
        spellings_are_shortest();
        keyed_refusals_come_in_order();
        let ready = make_ready(self.defs.raw.allocator(), &self.defs, row)?;
        let keys = ready.keys.as_slice();
        self.refuse_duplicate(files, keys)?;
        let packed = ready.packed.as_slice();
        let end = self.end_with(packed)?;
        Ok((ready, end))
    }

    // Puts a row that is ready, up to an end, and answers its position.
    fn put_ready(&mut self, ready: ReadyRow, end: u64) -> Result<u64, InsertFault>
        ensures place { IfOk result (λ at. at ≡ self.old.end) }
        ensures end { OnOk result (self.new.end ≡ end) }
        ensures room { OnOk result
            (length (row_words ready.packed.items) ≤ free_words self.old.appender) }
        ensures words { OnOk result (self.new.appender ≡ with_words self.old.appender
            (row_words ready.packed.items)) }
        ensures found { OnOk result (FindsMore self.old.put self.new.put ready.keys.items
            self.old.end) }
        ensures lacks { IfErr result (LacksWords self.old.appender ready.packed.items) }
        ensures none { OnErr result (IsNotPut self.old self.new) }
        ensures base { IsOfBase self.old self.new }
    {
        let ReadyRow { packed, keys } = ready;
        self.put.reserve(keys.len())?;
        self.appender.stage(&packed)?;
        self.appender.publish();
        let at = self.end;
        put_keys(&mut self.put, keys, at);
        self.end = end;
        Ok(at)
    }

    /// Puts a row behind the end, publishes its words, and answers its position. Where the object on the files stands for a
    /// base the answer, also a refusal, is the reply of the step on the table that has the rows that were put behind those
    /// of the base; but `NoRoom` comes where this is accepted and the row needs more words than are free. After each
    /// refusal the inserter has what it had.
    pub fn insert<F: Files>(&mut self, files: &mut F, row: &Row) -> Result<u64, InsertFault>
        requires ready { (rows : List Values) × IsInserter self.old rows }
        requires fits { fits self.old.defs row.now ≡ true }
        ensures made { IfOk result (λ at. IfHold (F.holds files.old) self.old.rows (λ m own base.
            (rows : List Values) → IsInserter self.old rows
            → IsPut self.old.defs base rows row.now at)) }
        ensures refused { IfErr result (λ f. IfHold (F.holds files.old) self.old.rows
            (λ m own base. (rows : List Values) → IsInserter self.old rows → IsReplyOf self.old.end
            (step_behind self.old.defs base rows row.now).reply f)) }
        ensures place { IfOk result (λ at. at ≡ self.old.end) }
        ensures more { OnOk result ((rows : List Values) → IsInserter self.old rows
            → IsInserter self.new (rows ++ row.now ∷ [])) }
        ensures end { OnOk result (self.new.end ≡ end_behind self.old row.now) }
        ensures reached { OnOk result (is_addressable self.old.defs self.new.end ≡ true) }
        ensures room { OnOk result (needed self.old row.now ≤ free_words self.old.appender) }
        ensures words { OnOk result (self.new.appender ≡ with_words self.old.appender
            (row_words (spelling self.old.defs row.now))) }
        ensures causes { IfErr result (IsCaused self.old row.now) }
        ensures again { OnErr result ((rows : List Values) → IsInserter self.old rows
            → IsInserter self.new rows) }
        ensures unmoved { OnErr result (self.new.end ≡ self.old.end) }
        ensures unstored { OnErr result (self.new.appender ≡ self.old.appender) }
        ensures same { IsSameInserter self.old self.new }
        ensures still { IfHold (F.holds files.old) self.old.rows (λ m own base.
            HoldTable self.new.rows own base m) }
        ensures holds { F.holds files.new ≡ F.holds files.old }
        ensures cause { HasCause File (F.faults files.old) (F.faults files.new) result }
    {
        let (ready, end) = self.check_row(files, row)?;
        let at = self.put_ready(ready, end)?;
        Ok(at)
    }

    /// The appender of an inserter that is given up.
    pub fn into_appender(self) -> Appender
        ensures { result ≡ self.appender }
    {
        let TableInserter {
            defs: _,
            rows: _,
            appender,
            number: _,
            end: _,
            put: _,
        } = self;
        appender
    }
}
