//! `RangeRows`: the rows whose key lies between bounds, one after the other.
ghost use Rattle.std.specs.Prelude.{◌≡◌, ◌≢◌, ◌<◌, ◌≤◌, true, min, List, length, is_some, None, Some, Ok, IfOk, IfErr, IfSome, OnOk, OnErr};
ghost use Rattle.myi_base.specs.Holding.{IfTold, Told};
ghost use Rattle.myi_base.specs.Causes.{HasCause};
ghost use Rattle.myi_defs.specs.declared.types.Defs.{Defs};
ghost use Rattle.myi_defs.specs.Sound.{IsSound};
ghost use Rattle.myi_keys.specs.Comparing.{key_front};
ghost use Rattle.myi_keylist.specs.declared.pair.Pair.{Pair};
ghost use Rattle.myi_keylist.specs.PairOrder.{pair_with};
ghost use Rattle.myi_slots.specs.declared.fault.DataFault.TheVariants as read;
ghost use Rattle.myi_btree.specs.declared.fault.TreeFault.TheVariants as tree;
ghost use Rattle.myi_btree.specs.Faults.{DamagedAt};
ghost use Rattle.myi_search.specs.Counting.{CountsOn};
ghost use Rattle.myi_search.specs.Cursor.{StandsIn};
ghost use Rattle.myi_state.specs.State.{StoredRow, TableState};
ghost use Rattle.myi_keytrees.specs.Standing.{list_of, IfStand, CanSearch};
ghost use Rattle.myi_tablestate.specs.Matching.{stays_below};
ghost use Rattle.myi_ranges.specs.declared.fault.RangeFault.TheVariants.{Index, Data};
ghost use Rattle.myi_ranges.specs.declared.ranges.Reached.TheVariants.{Key, Behind, End};
ghost use Rattle.myi_ranges.specs.Ranges.{begin_at, is_left, ReadsAhead, ComesTo, coming, position_within, Searched, HasTable, Answers, NeverDamaged, searches, RoseBySearches, ReadInFew, FailsInFew};

use crate::fault::RangeFault;
use myi_blocks::rows_of_states_stand;
use myi_btree::{Pair, TreeFault};
use myi_defs::{Defs, RowFormat};
use myi_io::Files;
use myi_keys::{KeyVal, compare_codes};
use myi_keytrees::KeyTrees;
use myi_pack::Row;
use myi_rows::RowFile;
use myi_search::TreeCursor;
use myi_tablestate::key_lists_are_in_order;
use std::alloc::AllocError;
use std::mem::replace;

/// How far a reading came.
#[derive(Drop)]
enum Reached {
    /// Before all pairs.
    Start,
    /// Before the pairs of a key.
    Key(KeyVal),
    /// Behind the pair that a cursor stands behind.
    Behind(TreeCursor),
    /// Behind all pairs.
    End,
}

/// A reading of the rows of a key, in order of the key and then of their positions.
pub struct RangeRows {
    key: usize,
    to: Option<KeyVal>,
    reached: Reached,
}

impl Drop for RangeRows {
    fn drop(self) {
        let RangeRows {
            key: _,
            to: _,
            reached: _,
        } = self;
    }
}

// The cursor behind the next pair of a key's tree.
fn go_on<F: Files>(
    files: &mut F,
    trees: &mut KeyTrees,
    key: usize,
    after: TreeCursor,
) -> Result<Option<TreeCursor>, TreeFault>
    requires key { key < length trees.old.places }
    requires kept { CanSearch F.writable (F.holds files.old) trees.old }
    ensures next { IfOk result (λ next. IfStand (F.holds files.old) trees.old (λ m own lists.
        StandsIn (list_of lists key) after → ComesTo (Behind after) (list_of lists key) next)) }
    ensures some { IfOk result (λ next. IfSome next (λ c. is_some c.last ≡ true)) }
    ensures searched { Searched (F.holds files.old) (F.holds files.new) trees.old trees.new }
    ensures counted { CountsOn trees.old.cache trees.new.cache }
    ensures never { IfErr result (DamagedAt (λ at.
        IfStand (F.holds files.old) trees.old (λ m own lists. ⊥))) }
    ensures few { IfStand (F.holds files.old) trees.old (λ m own lists.
        RoseBySearches (searches (Behind after)) (length (list_of lists key)) 0
        (F.reads files.old) (F.reads files.new)) }
    ensures asked { IfStand (F.holds files.old) trees.old (λ m own lists.
        RoseBySearches (searches (Behind after)) (length (list_of lists key)) 0
        trees.old.cache.counters.read_requests trees.new.cache.counters.read_requests) }
    ensures cause { HasCause tree.File (F.faults files.old) (F.faults files.new) result }
    ensures reads { F.reads files.old ≤ F.reads files.new }
{
    let mut cursor = after;
    let there = trees.advance(files, key, &mut cursor)?;
    if there { Ok(Some(cursor)) } else { Ok(None) }
}

// A cursor behind the first pair of a key's tree whose key is not below this one.
fn first_from<F: Files>(
    files: &mut F,
    trees: &mut KeyTrees,
    key: usize,
    low: KeyVal,
) -> Result<Option<TreeCursor>, TreeFault>
    requires key { key < length trees.old.places }
    requires kept { CanSearch F.writable (F.holds files.old) trees.old }
    ensures next { IfOk result (λ first. IfStand (F.holds files.old) trees.old (λ m own lists.
        ComesTo (Key low) (list_of lists key) first)) }
    ensures some { IfOk result (λ first. IfSome first (λ c. is_some c.last ≡ true)) }
    ensures searched { Searched (F.holds files.old) (F.holds files.new) trees.old trees.new }
    ensures counted { CountsOn trees.old.cache trees.new.cache }
    ensures never { IfErr result (DamagedAt (λ at.
        IfStand (F.holds files.old) trees.old (λ m own lists. ⊥))) }
    ensures few { IfStand (F.holds files.old) trees.old (λ m own lists.
        RoseBySearches 2 (length (list_of lists key)) 0
        (F.reads files.old) (F.reads files.new)) }
    ensures asked { IfStand (F.holds files.old) trees.old (λ m own lists.
        RoseBySearches 2 (length (list_of lists key)) 0
        trees.old.cache.counters.read_requests trees.new.cache.counters.read_requests) }
    ensures cause { HasCause tree.File (F.faults files.old) (F.faults files.new) result }
    ensures reads { F.reads files.old ≤ F.reads files.new }
{
    let found = trees.find(files, key, &low)?;
    match found {
        Some(row) => {
            let pair = Pair { key: low, row };
            let first = trees.cursor(Some(&pair))?;
            Ok(Some(first))
        }
        None => {
            let pair = Pair { key: low, row: 0 };
            let before = trees.cursor(Some(&pair))?;
            let first = go_on(files, trees, key, before)?;
            Ok(first)
        }
    }
}

// The same place, with no pair read ahead.
fn unread(trees: &KeyTrees, reached: Reached) -> Result<Reached, AllocError>
    ensures forgotten { IfOk result (λ place. (pairs : List Pair) → ReadsAhead place pairs) }
    ensures left { IfOk result (λ place. (p : Pair) → is_left place p ≡ is_left reached p) }
{
    match reached {
        Reached::Start => Ok(Reached::Start),
        Reached::Key(low) => Ok(Reached::Key(low)),
        Reached::Behind(cursor) => {
            let again = trees.cursor_again(&cursor)?;
            Ok(Reached::Behind(again))
        }
        Reached::End => Ok(Reached::End),
    }
}

// The code of the key and the pointer of the pair that a cursor stands behind.
fn pair_of(cursor: &TreeCursor) -> (&[u8], u64)
    requires { is_some cursor.now.last ≡ true }
    ensures { cursor.now.last ≡ Some (pair_with (key_front result.0.now) result.1) }
{
    cursor.pair().unwrap()
}

/// The position of the row that a pointer names, but in a static table no place behind the end of the data file.
pub fn position_of(defs: &Defs, pointer: u64, end: u64) -> u64
    ensures { result ≡ position_within defs.now end pointer }
{
    match defs.format {
        RowFormat::Static => pointer.saturating_mul(defs.slot_length as u64).min(end),
        RowFormat::Dynamic => pointer,
    }
}

impl RangeRows {
    /// A reading of the rows whose key of that number, counted from 0, is not below `from` and not above `to`; None is
    /// no bound.
    pub fn new(key: usize, from: Option<KeyVal>, to: Option<KeyVal>) -> RangeRows
        ensures { result ≡ record { key = key; to = to; reached = begin_at from } }
    {
        let reached = match from {
            Some(low) => Reached::Key(low),
            None => Reached::Start,
        };
        RangeRows { key, to, reached }
    }

    /// Forgets what was read ahead, so that the table may be changed before the next row is asked for; the same pairs are
    /// left. After a refusal the reading is at its end.
    pub fn forget(&mut self, trees: &KeyTrees) -> Result<(), AllocError>
        ensures forgotten { OnOk result ((pairs : List Pair) → ReadsAhead self.new.reached pairs) }
        ensures same { OnOk result ((d : Defs) (rows : List StoredRow)
            → coming d self.new rows ≡ coming d self.old rows) }
        ensures cursor { self.new ≡ record self.old { reached = self.new.reached } }
        ensures end { OnErr result (self.new.reached ≡ End) }
    {
        let before = replace(&mut self.reached, Reached::End);
        let reached = unread(trees, before)?;
        self.reached = reached;
        Ok(())
    }

    // Whether the key of this code is not above the bound.
    fn may_come(&self, code: &[u8]) -> bool
        ensures { result ≡ stays_below self.now.to (key_front code.now) }
    {
        match &self.to {
            Some(high) => compare_codes(code, high.code()).is_le(),
            None => true,
        }
    }

    // A cursor behind the first pair of the key's tree that is still left.
    fn next_pair<F: Files>(
        &mut self,
        files: &mut F,
        trees: &mut KeyTrees,
    ) -> Result<Option<TreeCursor>, TreeFault>
        requires key { self.old.key < length trees.old.places }
        requires kept { CanSearch F.writable (F.holds files.old) trees.old }
        ensures next { IfOk result (λ next. IfStand (F.holds files.old) trees.old (λ m own lists.
            ReadsAhead self.old.reached (list_of lists self.old.key)
            → ComesTo self.old.reached (list_of lists self.old.key) next)) }
        ensures some { IfOk result (λ next. IfSome next (λ c. is_some c.last ≡ true)) }
        ensures end { self.new ≡ record self.old { reached = End } }
        ensures past { self.old.reached ≡ End → result ≡ Ok None }
        ensures searched { Searched (F.holds files.old) (F.holds files.new) trees.old trees.new }
        ensures counted { CountsOn trees.old.cache trees.new.cache }
        ensures never { IfErr result (DamagedAt (λ at.
            IfStand (F.holds files.old) trees.old (λ m own lists. ⊥))) }
        ensures few { IfStand (F.holds files.old) trees.old (λ m own lists.
            RoseBySearches (searches self.old.reached) (length (list_of lists self.old.key)) 0
            (F.reads files.old) (F.reads files.new)) }
        ensures asked { IfStand (F.holds files.old) trees.old (λ m own lists.
            RoseBySearches (searches self.old.reached) (length (list_of lists self.old.key)) 0
            trees.old.cache.counters.read_requests trees.new.cache.counters.read_requests) }
        ensures cause { HasCause tree.File (F.faults files.old) (F.faults files.new) result }
        ensures reads { F.reads files.old ≤ F.reads files.new }
    {
        match replace(&mut self.reached, Reached::End) {
            Reached::Start => {
                let start = trees.cursor(None)?;
                let first = go_on(files, trees, self.key, start)?;
                Ok(first)
            }
            Reached::Key(low) => {
                let first = first_from(files, trees, self.key, low)?;
                Ok(first)
            }
            Reached::Behind(cursor) => {
                let next = go_on(files, trees, self.key, cursor)?;
                Ok(next)
            }
            Reached::End => Ok(None),
        }
    }

    /// The next row and its position, and None where none is to come. The files are those of one table, of whose pairs
    /// the next ones were read ahead (`HasTable`), and are so afterwards. After a refusal the reading is at its end, and
    /// answers None from then on. What a row takes is said where one is answered or could not be read, and what searches
    /// take always.
    pub fn next_row<F: Files>(
        &mut self,
        files: &mut F,
        defs: &Defs,
        trees: &mut KeyTrees,
        rows: &mut RowFile,
    ) -> Result<Option<(u64, Row)>, RangeFault>
        requires sound { IsSound defs.now }
        requires defs { rows.old.file.defs ≡ defs.now }
        requires names { rows.old.file.name ≢ trees.old.cache.name }
        requires key { self.old.key < length trees.old.places }
        requires kept { CanSearch F.writable (F.holds files.old) trees.old }
        requires table { IfTold (F.holds files.old) (λ m. (s : TableState)
            × HasTable defs.now self.old trees.old rows.old.file s m) }
        ensures row { IfOk result (λ row. IfTold (F.holds files.old) (λ m. (s : TableState)
            → HasTable defs.now self.old trees.old rows.old.file s m
            → Answers defs.now s self.old self.new row)) }
        ensures again { Told (F.holds files.old) (F.holds files.new) (λ m n. (s : TableState)
            → HasTable defs.now self.old trees.old rows.old.file s m
            → HasTable defs.now self.new trees.new rows.old.file s n) }
        ensures cursor { self.new ≡ record self.old { reached = self.new.reached } }
        ensures ended { IfOk result (λ row. row ≡ None → self.new.reached ≡ End) }
        ensures past { self.old.reached ≡ End → result ≡ Ok None }
        ensures end { OnErr result (self.new.reached ≡ End) }
        ensures onward { IfOk result (λ row. IfSome row (λ found. searches self.new.reached ≤ 1)) }
        ensures searched { Searched (F.holds files.old) (F.holds files.new) trees.old trees.new }
        ensures counted { CountsOn trees.old.cache trees.new.cache }
        ensures rows { rows.new ≡ rows.old }
        ensures few { IfOk result (λ row. IfTold (F.holds files.old) (λ m. (s : TableState)
            → HasTable defs.now self.old trees.old rows.old.file s m
            → ReadInFew defs.now s self.old row (F.reads files.old) (F.reads files.new))) }
        ensures failed { IfErr result (λ f. IfTold (F.holds files.old) (λ m. (s : TableState)
            → HasTable defs.now self.old trees.old rows.old.file s m
            → FailsInFew defs.now s self.old (F.reads files.old) (F.reads files.new))) }
        ensures asked { IfStand (F.holds files.old) trees.old (λ m own lists.
            RoseBySearches (searches self.old.reached) (length (list_of lists self.old.key)) 0
            trees.old.cache.counters.read_requests trees.new.cache.counters.read_requests) }
        ensures never { IfErr result (NeverDamaged (F.holds files.old)) }
        ensures index_file { HasCause (Index tree.File)
            (F.faults files.old) (F.faults files.new) result }
        ensures rows_file { HasCause (Data read.File)
            (F.faults files.old) (F.faults files.new) result }
    {
        key_lists_are_in_order();
        rows_of_states_stand();
        let Some(cursor) = self.next_pair(files, trees)? else {
            return Ok(None);
        };
        let (code, pointer) = pair_of(&cursor);
        if !self.may_come(code) {
            return Ok(None);
        }
        let at = position_of(defs, pointer, rows.counts().length);
        let row = rows.row_at(files, at)?;
        self.reached = Reached::Behind(cursor);
        Ok(Some((at, row)))
    }
}
