//! `take_back` and `Shared::close`: a table is taken back, with the rows that were put while it was shared.
ghost use Rattle.std.specs.Prelude.{◌≡◌, ◌<◌, true, None, List, [], All, Any, IfOk, IfErr, OnOk, IsTrue, map, length};
ghost use Rattle.myi_base.specs.Causes.{HasCause};
ghost use Rattle.myi_base.specs.Holding.{Told};
ghost use Rattle.myi_defs.specs.Sound.{IsSound};
ghost use Rattle.myi_pack.specs.Packed.{Values};
ghost use Rattle.myi_pack.specs.Spelling.{fits};
ghost use Rattle.myi_search.specs.Counting.{CountsOn};
ghost use Rattle.myi_slots.specs.SlotFile.{Never};
ghost use Rattle.myi_tablestate.specs.Keyed.{after_keyed};
ghost use Rattle.myi_rowtrees.specs.Duplicates.{MayRepeat};
ghost use Rattle.myi_table.specs.declared.fault.ChangeFault.TheVariants.{File};
ghost use Rattle.myi_table.specs.Faults.{CutsOff};
ghost use Rattle.myi_table.specs.Folding.{appended, CanFold};
ghost use Rattle.myi_table.specs.Refusals.{ByCause};
ghost use Rattle.myi_table.specs.Table.{defs_in, IsKept, IfHolds, HoldsThen, IsSame, KeepsRows, ChangesItsOwn};
ghost use Rattle.myi_tail.specs.Prefix.{BeginsWith};
ghost use Rattle.myi_snapshots.specs.Appended.{with_rows};
ghost use Rattle.myi_snapshots.specs.Known.{known_rows, values_of};
ghost use Rattle.myi_readers.specs.declared.file_reader.Reader.{Reader};
ghost use Rattle.myi_inserter.specs.Inserter.{IsInserter};
ghost use Rattle.myi_share.specs.Sharing.{ArePartsBeside};
ghost use Rattle.myi_share.specs.Taking.{sum_with, counted, counting, with_counts, all_counted, AreNotBelow};

use crate::sharing::{ShareRest, Shared};
use myi_defs::Defs;
use myi_inserter::{Inserter, put_rows_are_known, put_rows_can_be_folded};
use myi_io::{FileReader, Files};
use myi_pack::Row;
use myi_readers::Reader;
use myi_snapshots::KnownRows;
use myi_table::{ChangeFault, Table};
use myi_tail::{Appender, ReaderSeat, Tail};
use std::alloc::{AllocError, Global};

// The rows that words spell.
fn rows_of(alloc: Global, defs: &Defs, words: &[u64]) -> Result<Vec<Row>, AllocError>
    requires { IsSound defs.now }
    ensures { IfOk result (λ rows. rows.items ≡ values_of defs.now (known_rows defs.now words.now)) }
{
    let mut known = KnownRows::new(alloc, defs, 0, words.len())?;
    known.read_on(words);
    let mut rows = Vec::with_capacity(alloc, known.count())?;
    for i in 0..known.count() {
        rows.push(known.row(alloc, i)?)?;
    }
    Ok(rows)
}

// The seats of readers. What their key caches counted is added to the table.
fn seats_of<R: FileReader>(
    alloc: Global,
    table: &mut Table,
    readers: Vec<Reader<R>>,
) -> Result<Vec<ReaderSeat>, AllocError>
    ensures seats { IfOk result (λ seats. seats.items ≡ map (λ r. r.table.seat) readers.items) }
    ensures table { IfOk result (λ _. table.new ≡ counting table.old
        (sum_with table.old.added (map counted readers.items))) }
    ensures rest { table.new ≡ counting table.old table.new.added }
    ensures counts { AreNotBelow (all_counted table.old) (all_counted table.new) }
{
    let mut seats = Vec::with_capacity(alloc, readers.len())?;
    for reader in readers {
        table.add_counters(reader.table.rows.trees.counters());
        seats.push(reader.table.into_seat())?;
    }
    Ok(seats)
}

// The words that were published at a tail, of which each reader knows the first.
fn published<R: FileReader>(
    alloc: Global,
    table: &mut Table,
    appender: Appender,
    readers: Vec<Reader<R>>,
) -> Result<Vec<u64>, AllocError>
    requires all { appender.published ≡ length appender.words }
    requires tail { All (λ r. r.table.seat.tail ≡ appender.tail) readers.items }
    ensures words { IfOk result (λ words. words.items ≡ appender.words) }
    ensures known { IfOk result (λ _. All (λ r. BeginsWith appender.words r.table.seat.known)
        readers.items) }
    ensures table { IfOk result (λ _. table.new ≡ counting table.old
        (sum_with table.old.added (map counted readers.items))) }
    ensures rest { table.new ≡ counting table.old table.new.added }
    ensures counts { AreNotBelow (all_counted table.old) (all_counted table.new) }
{
    let seats = seats_of(alloc, table, readers)?;
    let tail = Tail {
        appender,
        readers: seats,
    };
    let words = tail.close()?;
    Ok(words)
}

// Puts rows behind the end of a table in their order. Where there is none nothing is touched.
fn put_behind<F: Files>(table: &mut Table, files: &mut F, rows: &[Row]) -> Result<(), ChangeFault>
    requires writable { IsTrue F.writable }
    requires whole { table.old.broken ≡ None }
    requires fits { All (λ (row : Values). fits (defs_in table.old) row ≡ true) rows.now }
    requires kept { IsKept (F.holds files.old) table.old }
    requires can { IfHolds (F.holds files.old) table.old (λ m s.
        CanFold (defs_in table.old) s rows.now) }
    ensures folded { OnOk result (IfHolds (F.holds files.old) table.old (λ m s.
        HoldsThen (F.holds files.new) table.new
        (after_keyed (defs_in table.old) s (appended rows.now)))) }
    ensures cut { IfErr result (λ f. IfHolds (F.holds files.old) table.old (λ m s. CutsOff f)) }
    ensures causes { IfErr result (ByCause Never (λ key. Any (λ (row : Values).
        MayRepeat (defs_in table.old) row key) rows.now) (Unit {0})) }
    ensures whole { OnOk result (table.new.broken ≡ None) }
    ensures changed { OnOk result (0 < length rows.now → table.new.changed ≡ true) }
    ensures none { length rows.now ≡ 0
        → (table.new ≡ table.old) × (F.holds files.new ≡ F.holds files.old) }
    ensures marked { table.old.changed ≡ true → table.new.changed ≡ true }
    ensures kept { IsKept (F.holds files.new) table.new }
    ensures same { IsSame table.old table.new }
    ensures others { ChangesItsOwn (F.holds files.old) (F.holds files.new) table.old }
    ensures counted { CountsOn table.old.rows.trees.cache table.new.rows.trees.cache }
    ensures cause { HasCause File (F.faults files.old) (F.faults files.new) result }
{
    if rows.is_empty() {
        return Ok(());
    }
    table.fold(files, rows)
}

/// Takes a table back that stayed with its owner while it was shared, and puts the rows behind its end that were put meanwhile.
/// The parts are of one sharing of it, and its two files hold what they held then; readers may be missing. What the inserter
/// and the readers counted is added to what the table counted. It answers how many rows were put.
///
/// A refusal puts no row, or the first of them, and the table is good for nothing but to be dropped.
pub fn take_back<F: Files, R: FileReader>(
    table: &mut Table,
    files: &mut F,
    inserter: Inserter<R>,
    readers: Vec<Reader<R>>,
) -> Result<u64, ChangeFault>
    requires writable { IsTrue F.writable }
    requires parts { (rows : List Values) × ArePartsBeside R.holds table.old
        (F.holds files.old) inserter readers.items rows }
    ensures folded { OnOk result (IfHolds (F.holds files.old) table.old (λ m s.
        (rows : List Values) → IsInserter inserter.table rows
        → HoldsThen (F.holds files.new) table.new (with_rows (defs_in table.old) s rows))) }
    ensures made { IfOk result (λ made. (rows : List Values) → IsInserter inserter.table rows
        → made ≡ length rows) }
    ensures known { OnOk result (All (λ r.
        BeginsWith inserter.table.appender.words r.table.seat.known) readers.items) }
    ensures whole { OnOk result (table.new.broken ≡ None) }
    ensures counted { OnOk result (IsSame
        (with_counts table.old inserter.table readers.items) table.new) }
    ensures changed { OnOk result ((rows : List Values)
        → IsInserter inserter.table rows → 0 < length rows → table.new.changed ≡ true) }
    ensures none { OnOk result (IsInserter inserter.table []
        → table.new ≡ with_counts table.old inserter.table readers.items) }
    ensures cut { IfErr result (λ f. IfHolds (F.holds files.old) table.old (λ m s. CutsOff f)) }
    ensures causes { IfErr result (λ f. (rows : List Values) → IsInserter inserter.table rows
        → ByCause Never (λ key. Any (λ (row : Values). MayRepeat (defs_in table.old) row key)
        rows) (Unit {0}) f) }

    // At every outcome.
    ensures kept { IsKept (F.holds files.new) table.new }
    ensures same { IsSame (counting table.old table.new.added) table.new }
    ensures marked { table.old.changed ≡ true → table.new.changed ≡ true }
    ensures cache { CountsOn table.old.rows.trees.cache table.new.rows.trees.cache }
    ensures counts { AreNotBelow (all_counted table.old) (all_counted table.new) }
    ensures unchanged { IsInserter inserter.table [] → table.new.changed ≡ table.old.changed }
    ensures rows { IsInserter inserter.table []
        → Told (F.holds files.old) (F.holds files.new) (KeepsRows table.old.name) }
    ensures others { ChangesItsOwn (F.holds files.old) (F.holds files.new) table.old }
    ensures cause { HasCause File (F.faults files.old) (F.faults files.new) result }
{
    put_rows_are_known();
    put_rows_can_be_folded();
    table.add_counters(inserter.table.rows.trees.counters());
    let alloc = table.defs().raw.allocator();
    let appender = inserter.table.into_appender();
    let words = published(alloc, table, appender, readers)?;
    let rows = rows_of(alloc, table.defs(), &words)?;
    put_behind(table, files, &rows)?;
    Ok(rows.len() as u64)
}

impl<R: FileReader> Shared<R> {
    ghost use Rattle.myi_share.specs.Sharing.{sharing_of, ArePartsOf};

    /// Takes a table back, and puts the rows behind its end that were put while it was shared. The parts are of one sharing,
    /// and the table's two files hold what they held then; readers may be missing. What the inserter and the readers counted
    /// is added to what the table counted.
    ///
    /// A refusal gives the table up, and the files are what the calls left.
    pub fn close<F: Files>(self, files: &mut F) -> Result<Table, ChangeFault>
        requires writable { IsTrue F.writable }
        requires parts { (rows : List Values) × ArePartsOf R.holds
            (sharing_of self.rest self.inserter.table) (F.holds files.old) self rows }
        ensures folded { IfOk result (λ t. IfHolds (F.holds files.old) self.rest (λ m s.
            (rows : List Values) → IsInserter self.inserter.table rows
            → HoldsThen (F.holds files.new) t (with_rows (defs_in self.rest) s rows))) }
        ensures known { IfOk result (λ _. All (λ r.
            BeginsWith self.inserter.table.appender.words r.table.seat.known)
            self.readers.items) }
        ensures kept { IfOk result (λ t. IsKept (F.holds files.new) t) }
        ensures whole { IfOk result (λ t. t.broken ≡ None) }
        ensures same { IfOk result (λ t. IsSame
            (with_counts self.rest self.inserter.table self.readers.items) t) }
        ensures changed { IfOk result (λ t. (rows : List Values)
            → IsInserter self.inserter.table rows → 0 < length rows → t.changed ≡ true) }
        ensures none { IfOk result (λ t. IsInserter self.inserter.table []
            → t ≡ with_counts self.rest self.inserter.table self.readers.items) }
        ensures marked { IfOk result (λ t. self.rest.changed ≡ true → t.changed ≡ true) }
        ensures counted { IfOk result (λ t. CountsOn self.rest.rows.trees.cache
            t.rows.trees.cache) }
        ensures cut { IfErr result (λ f. IfHolds (F.holds files.old) self.rest
            (λ m s. CutsOff f)) }
        ensures causes { IfErr result (λ f. (rows : List Values)
            → IsInserter self.inserter.table rows
            → ByCause Never (λ key. Any (λ (row : Values). MayRepeat (defs_in self.rest) row key)
            rows) (Unit {0}) f) }
        ensures others { ChangesItsOwn (F.holds files.old) (F.holds files.new) self.rest }
        ensures cause { HasCause File (F.faults files.old) (F.faults files.new) result }
    {
        let Shared {
            rest,
            inserter,
            readers,
        } = self;
        let ShareRest { mut table } = rest;
        take_back(&mut table, files, inserter, readers)?;
        Ok(table)
    }
}
