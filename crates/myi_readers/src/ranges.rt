//! The rows that are seen by a snapshot and match bounds.
ghost use Rattle.std.specs.Prelude.{◌≡◌, ◌≢◌, ◌<◌, ◌≤◌, ◌∷◌, ◌++◌, ℕ, suc, [], length, map, filter, nat_lt, IfOk, IfErr, IfSome, OnOk, OnErr};
ghost use Rattle.myi_base.specs.Holding.{IfTold};
ghost use Rattle.myi_base.specs.Causes.{HasCause};
ghost use Rattle.myi_defs.specs.Sound.{IsSound};
ghost use Rattle.myi_pack.specs.Spelling.{fits};
ghost use Rattle.myi_keys.specs.declared.values.KeySeg.{KeySeg};
ghost use Rattle.myi_keycache.specs.Kept.{AllWritten};
ghost use Rattle.myi_keycache.specs.Caching.{pages_of};
ghost use Rattle.myi_state.specs.State.{TableState};
ghost use Rattle.myi_ranges.specs.Ranges.{Answers, ReadInFew, FailsInFew, searches};
ghost use Rattle.myi_keyedrows.specs.KeyedRows.{defs_of, HoldTable, IsKept, IfHold, IsLeft};
ghost use Rattle.myi_table.specs.Reading.{IsSameReading, ReadsInRange};
ghost use Rattle.myi_readers.specs.declared.fault.SeenFault.TheVariants.{File};
ghost use Rattle.myi_readers.specs.declared.keyed_row.KeyedRow.{KeyedRow};
ghost use Rattle.myi_readers.specs.Indexes.{are_crossed, from_key, to_key};
ghost use Rattle.myi_readers.specs.KeyedRows.{keyed_of, placed_of};
ghost use Rattle.myi_readers.specs.Matches.{FindsBase};
ghost use Rattle.myi_readers.specs.Ranges.{HoldRange, NeverDamaged, IsUnfit};

use crate::fault::SeenFault;
use crate::keyed_row::KeyedRow;
use crate::known_keys::KnownKeys;
use crate::reader::TableReader;
use myi_data::key_of;
use myi_defs::Defs;
use myi_io::Files;
use myi_keyedrows::KeyedRows;
use myi_keylist::Pair;
use myi_keys::KeyVal;
use myi_pack::{Row, fits, pack, spellings_are_shortest, view_packed};
use myi_ranges::{RangeRows, rows_that_come_match};
use myi_snapshots::Snapshot;
use myi_table::Range;
use myi_tablestate::key_lists_are_in_order;
use std::alloc::{AllocError, Global};
use std::ops::Bound;

// Whether no key lies between the bounds of a range, since its least key is above its greatest.
fn are_crossed(range: &Range) -> bool
    ensures { result ≡ are_crossed range.now.from range.now.to }
{
    let Some(low) = &range.from else {
        return false;
    };
    match &range.to {
        Some(high) => low.compare(high).is_gt(),
        None => false,
    }
}

// The same key.
fn copy_of(alloc: Global, key: &KeyVal) -> Result<KeyVal, AllocError>
    ensures { IfOk result (λ copy. copy ≡ key.now) }
{
    let code = Vec::from_slice(alloc, key.code())?;
    Ok(KeyVal::of_code(code))
}

// The bound of the pairs of a least key and above.
fn from_key(alloc: Global, from: &Option<KeyVal>) -> Result<Bound<Pair>, AllocError>
    ensures { IfOk result (λ bound. bound ≡ from_key from.now) }
{
    let Some(low) = from else {
        return Ok(Bound::Unbounded);
    };
    let key = copy_of(alloc, low)?;
    Ok(Bound::Included(Pair { key, row: 0 }))
}

// The bound of the pairs of a greatest key and below.
fn to_key(alloc: Global, to: &Option<KeyVal>) -> Result<Bound<Pair>, AllocError>
    ensures { IfOk result (λ bound. bound ≡ to_key to.now) }
{
    let Some(high) = to else {
        return Ok(Bound::Unbounded);
    };
    let key = copy_of(alloc, high)?;
    Ok(Bound::Included(Pair { key, row: u64::MAX }))
}

// Appends a row of a file by its key in the key of that number, counted from 0. It is refused as damaged where it has not
// the form that the definitions ask for.
fn push_keyed(
    found: &mut Vec<KeyedRow>,
    defs: &Defs,
    key: usize,
    placed: (u64, Row),
) -> Result<(), SeenFault>
    requires sound { IsSound defs.now }
    requires key { key < length defs.now.keys }
    ensures found { OnOk result
        (found.new.items ≡ found.old.items ++ keyed_of defs.now (suc key) placed ∷ []) }
    ensures unfit { IfErr result (IsUnfit defs.now placed) }
{
    spellings_are_shortest();
    let (at, row) = placed;
    if !fits(defs, &row) {
        return Err(SeenFault::Damaged { at });
    }
    let alloc = defs.raw.allocator();
    let packed = pack(alloc, defs, &row)?;
    let view = view_packed(defs, &packed);
    let value = key_of(alloc, defs, key + 1, &view)?;
    let pair = Pair {
        key: value,
        row: at,
    };
    found.push(KeyedRow { pair, row })?;
    Ok(())
}

// The next row of a table's base that matches, with its position, and None where none is to come. The trees keep no
// unwritten page.
fn next_match<F: Files>(
    files: &mut F,
    defs: &Defs,
    rows: &mut KeyedRows,
    reading: &mut RangeRows,
) -> Result<Option<(u64, Row)>, SeenFault>
    requires sound { IsSound defs.now }
    requires defs { defs_of rows.old ≡ defs.now }
    requires apart { rows.old.rows.file.name ≢ rows.old.trees.cache.name }
    requires each { length rows.old.trees.places ≡ length defs.now.keys }
    requires key { reading.old.key < length rows.old.trees.places }
    requires written { AllWritten (pages_of rows.old.trees.cache) }
    requires kept { IfTold (F.holds files.old) (λ m. (own : ℕ → ℕ) × (s : TableState)
        × HoldRange defs.now reading.old rows.old own s m) }
    ensures row { IfOk result (λ row. IfTold (F.holds files.old) (λ m. (own : ℕ → ℕ) (s : TableState)
        → HoldRange defs.now reading.old rows.old own s m
        → Answers defs.now s reading.old reading.new row)) }
    ensures few { IfOk result (λ row. IfTold (F.holds files.old) (λ m. (own : ℕ → ℕ) (s : TableState)
        → HoldRange defs.now reading.old rows.old own s m
        → ReadInFew defs.now s reading.old row (F.reads files.old) (F.reads files.new))) }
    ensures failed { OnErr result (IfTold (F.holds files.old) (λ m. (own : ℕ → ℕ) (s : TableState)
        → HoldRange defs.now reading.old rows.old own s m
        → FailsInFew defs.now s reading.old (F.reads files.old) (F.reads files.new))) }
    ensures again { IfTold (F.holds files.old) (λ m. (own : ℕ → ℕ) (s : TableState)
        → HoldRange defs.now reading.old rows.old own s m
        → HoldRange defs.now reading.new rows.new own s m) }
    ensures onward { IfOk result (λ row. IfSome row (λ found. searches reading.new.reached ≤ 1)) }
    ensures reading { IsSameReading reading.old reading.new }
    ensures written { AllWritten (pages_of rows.new.trees.cache) }
    ensures left { IsLeft rows.old rows.new }
    ensures rows { rows.new.rows ≡ rows.old.rows }
    ensures name { rows.new.trees.cache.name ≡ rows.old.trees.cache.name }
    ensures holds { F.holds files.new ≡ F.holds files.old }
    ensures never { IfErr result (NeverDamaged (F.holds files.old)) }
    ensures cause { HasCause File (F.faults files.old) (F.faults files.new) result }
{
    let row = reading.next_row(files, defs, &mut rows.trees, &mut rows.rows)?;
    Ok(row)
}

// The rows of a table's base that match, by their keys, in order. The trees keep no unwritten page.
fn base_matches<F: Files>(
    files: &mut F,
    defs: &Defs,
    rows: &mut KeyedRows,
    range: &Range,
) -> Result<Vec<KeyedRow>, SeenFault>
    requires sound { IsSound defs.now }
    requires defs { defs_of rows.old ≡ defs.now }
    requires apart { rows.old.rows.file.name ≢ rows.old.trees.cache.name }
    requires each { length rows.old.trees.places ≡ length defs.now.keys }
    requires key { range.now.key < length rows.old.trees.places }
    requires written { AllWritten (pages_of rows.old.trees.cache) }
    requires kept { IsKept (F.holds files.old) rows.old }
    ensures found { IfOk result (λ found. IfHold (F.holds files.old) rows.old (λ m own base.
        FindsBase defs.now base range.now (F.reads files.old) (F.reads files.new) found.items)) }
    ensures read { IfHold (F.holds files.old) rows.old (λ m own base.
        ReadsInRange defs.now base range.now (F.reads files.old) (F.reads files.new)) }
    ensures still { IfHold (F.holds files.old) rows.old (λ m own base.
        HoldTable rows.new own base m) }
    ensures written { AllWritten (pages_of rows.new.trees.cache) }
    ensures left { IsLeft rows.old rows.new }
    ensures name { rows.new.trees.cache.name ≡ rows.old.trees.cache.name }
    ensures holds { F.holds files.new ≡ F.holds files.old }
    ensures never { IfErr result (NeverDamaged (F.holds files.old)) }
    ensures cause { HasCause File (F.faults files.old) (F.faults files.new) result }
{
    rows_that_come_match();
    let alloc = defs.raw.allocator();
    let mut reading = range.begin(alloc)?;
    let mut found = Vec::new(alloc);
    while let Some(row) = next_match(files, defs, rows, &mut reading)? {
        push_keyed(&mut found, defs, range.key, row)?;
    }
    Ok(found)
}

// Keeps those rows that stand before a place.
fn keep_before(found: &mut Vec<KeyedRow>, below: u64)
    ensures { found.new.items ≡ filter (λ (x : KeyedRow). nat_lt x.pair.row below) found.old.items }
{
    found.retain(|one| one.pair.row < below);
}

// The rows, each with its position.
fn placed_rows(found: Vec<KeyedRow>) -> Result<Vec<(u64, Row)>, AllocError>
    ensures { IfOk result (λ rows. rows.items ≡ map placed_of found.items) }
{
    let mut rows = Vec::with_capacity(*found.allocator(), found.len())?;
    for one in found {
        rows.push(one.into_placed())?;
    }
    Ok(rows)
}

impl TableReader {
    ghost use Rattle.std.specs.Prelude.{◌≡◌, ◌^◌, ◌<◌, ◌∷◌, ◌++◌, List, [], All, length, IsPermutation, IfOk, IfErr, OnOk};
    ghost use Rattle.std.specs.Range.Bound.{IsForward};
    ghost use Rattle.std.specs.BTreeMap.Range.{IsLeBy, IsLtBy, entries_between};
    ghost use Rattle.myi_base.specs.Causes.{HasCause};
    ghost use Rattle.myi_pack.specs.Packed.{Values};
    ghost use Rattle.myi_keylist.specs.PairOrder.{pair_cmp};
    ghost use Rattle.myi_keyedrows.specs.KeyedRows.{HoldTable, IsKept, IfHold};
    ghost use Rattle.myi_table.specs.Reading.{ReadsInRange};
    ghost use Rattle.myi_readers.specs.declared.fault.SeenFault.TheVariants.{File};
    ghost use Rattle.myi_readers.specs.Reader.{IsReader, AreKnown, IsSameReader, IndexesAll, rows_known};
    ghost use Rattle.myi_readers.specs.Indexes.{entry_rows};
    ghost use Rattle.myi_readers.specs.Matches.{known_matches};
    ghost use Rattle.myi_readers.specs.Ranges.{AnswersSeen, ReadsFew, NeverDamaged};

    // Takes the rows that became known into the index of the key of that number, counted from 0.
    fn index_known(&mut self, key: usize) -> Result<(), AllocError>
        requires ready { IsReader self.old }
        requires key { key < length self.old.defs.keys }
        ensures ready { IsReader self.new }
        ensures whole { OnOk result (IndexesAll self.new key) }
        ensures few { OnOk result (length (rows_known self.new) < 2 ^ 64) }
        ensures same { self.new ≡ record self.old { index = self.new.index } }
    {
        self.index[key].read_on(&self.defs, key, &self.known)?;
        Ok(())
    }

    // Appends the row of an entry of an index, where it stands before a place.
    fn push_entry(
        &self,
        found: &mut Vec<KeyedRow>,
        pair: &Pair,
        at: u64,
        below: u64,
    ) -> Result<(), AllocError>
        requires ready { IsReader self.now }
        requires there { pair.now.row < length (rows_known self.now) }
        ensures { OnOk result (found.new.items ≡ found.old.items
            ++ entry_rows self.now.defs (rows_known self.now) below ((pair.now, at) ∷ [])) }
    {
        if at >= below {
            return Ok(());
        }
        let alloc = self.defs.raw.allocator();
        let row = self.known.row(alloc, pair.row as usize)?;
        let key = copy_of(alloc, &pair.key)?;
        let pair = Pair { key, row: at };
        found.push(KeyedRow { pair, row })?;
        Ok(())
    }

    // Appends the rows of the entries of an index between bounds, where they stand before a place.
    fn push_between(
        &self,
        found: &mut Vec<KeyedRow>,
        keys: &KnownKeys,
        bounds: (Bound<Pair>, Bound<Pair>),
        below: u64,
    ) -> Result<(), AllocError>
        requires ready { IsReader self.now }
        requires there { All (λ e. e.0.row < length (rows_known self.now))
            keys.now.places }
        requires forward { IsForward (IsLeBy pair_cmp) (IsLtBy pair_cmp) bounds.0 bounds.1 }
        ensures { OnOk result (found.new.items ≡ found.old.items
            ++ entry_rows self.now.defs (rows_known self.now) below
            (entries_between pair_cmp bounds.0 bounds.1 keys.now.places)) }
    {
        for (pair, at) in keys.places.between(bounds) {
            self.push_entry(found, pair, *at, below)?;
        }
        Ok(())
    }

    // Appends the rows that are known, match and stand before a place, of an index that has all that are known.
    fn push_known_matches(
        &self,
        found: &mut Vec<KeyedRow>,
        range: &Range,
        below: u64,
    ) -> Result<(), AllocError>
        requires ready { IsReader self.now }
        requires key { range.now.key < length self.now.defs.keys }
        requires whole { IndexesAll self.now range.now.key }
        requires few { length (rows_known self.now) < 2 ^ 64 }
        ensures { OnOk result (IsPermutation
            (found.old.items ++ known_matches self.now range.now below) found.new.items) }
    {
        if are_crossed(range) {
            return Ok(());
        }
        let alloc = self.defs.raw.allocator();
        let from = from_key(alloc, &range.from)?;
        let to = to_key(alloc, &range.to)?;
        self.push_between(found, &self.index[range.key], (from, to), below)?;
        Ok(())
    }

    /// The rows that are seen by a snapshot and match, with their positions, in order of the key and then of the positions.
    /// Those of the base are searched for in the tree of the key and then read one by one, and those that are known in an
    /// index of their keys, into which those come first that became known since the last range in this key. How often the
    /// files are read is said of each answer (`read`).
    pub fn range<F: Files>(
        &mut self,
        files: &mut F,
        snap: &Snapshot,
        range: &Range,
    ) -> Result<Vec<(u64, Row)>, SeenFault>
        requires ready { IsReader self.old }
        requires key { range.now.key < length self.old.rows.trees.places }
        requires kept { IsKept (F.holds files.old) self.old.rows }
        ensures rows { IfOk result (λ rows. IfHold (F.holds files.old) self.old.rows (λ m own base.
            (known : List Values) → AreKnown self.old known
            → AnswersSeen self.old.defs base known snap.now range.now rows.items)) }
        ensures few { OnOk result (IfHold (F.holds files.old) self.old.rows (λ m own base.
            ReadsFew self.old.defs base range.now (F.reads files.old) (F.reads files.new))) }
        ensures read { IfHold (F.holds files.old) self.old.rows (λ m own base.
            ReadsInRange self.old.defs base range.now (F.reads files.old) (F.reads files.new)) }
        ensures ready { IsReader self.new }
        ensures same { IsSameReader self.old self.new }
        ensures known { self.new.known ≡ self.old.known }
        ensures seat { self.new.seat ≡ self.old.seat }
        ensures still { IfHold (F.holds files.old) self.old.rows (λ m own base.
            HoldTable self.new.rows own base m) }
        ensures never { IfErr result (NeverDamaged (F.holds files.old)) }
        ensures holds { F.holds files.new ≡ F.holds files.old }
        ensures cause { HasCause File (F.faults files.old) (F.faults files.new) result }
    {
        let mut found = base_matches(files, &self.defs, &mut self.rows, range)?;
        keep_before(&mut found, snap.length);
        self.index_known(range.key)?;
        self.push_known_matches(&mut found, range, snap.length)?;
        found.sort()?;
        let rows = placed_rows(found)?;
        Ok(rows)
    }
}
