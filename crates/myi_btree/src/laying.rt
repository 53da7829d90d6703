//! The pages of a tree, one after the other, wherever they are put.
//!
//! A `Laying` gives the pages of a tree in the order of their places, level by level: `next_page` writes
//! the next one into a buffer and answers its place. The pairs that are set aside between the pages of a
//! level are those of the level above it, of which the last has a single page, the root.
ghost use Rattle.std.specs.Prelude.{◌≡◌, ◌+◌, ◌%◌, ◌^◌, ◌<◌, ◌≤◌, ◌==◌, ◌∷◌, ◌++◌, not, List, [], length, take, drop, slice_index_or, IfOk, IfErr, OnOk};
ghost use Rattle.myi_keylist.specs.declared.pair.Pair.{Pair};
ghost use Rattle.myi_btree.specs.declared.fault.TreeFault.TheVariants.{Memory};
ghost use Rattle.myi_btree.specs.Walk.{Node};
ghost use Rattle.myi_btree.specs.Sizes.{IsPlaced, AreSized, IsCount};
ghost use Rattle.myi_btree.specs.Building.{laid_at, page_for};
ghost use Rattle.myi_btree.specs.Levels.{CanLevel};
ghost use Rattle.myi_btree.specs.Laying.{level_pairs, pairs_left, children_left, next_node};
ghost use Rattle.myi_btree.specs.Laying.{IsToCome, GivesNext};

use crate::fault::TreeFault;
use crate::level::{children_at, page_count, write_pairs};
use crate::place::TreeSetup;
use myi_keylist::PairList;
use std::alloc::Global;
use std::mem::replace;

/// What a level leaves: the pairs that were set aside between its pages, and the places of these.
pub(crate) struct Level {
    separators: PairList,
    places: Vec<u64>,
}

impl Drop for Level {
    fn drop(self) {
        let Level {
            separators: _,
            places: _,
        } = self;
    }
}

impl Level {
    // A level of which nothing is laid.
    fn new(alloc: Global) -> Level
        ensures separators { result.separators ≡ [] }
        ensures places { result.places.items ≡ [] }
    {
        Level {
            separators: PairList::new(alloc),
            places: Vec::new(alloc),
        }
    }
}

/// A tree that is being laid: the pairs of its lowest level, the level below the one that is laid, what
/// that one leaves so far, how many of its pairs are laid or set aside, and the place of the next page.
pub(crate) struct Laying<'a> {
    setup: TreeSetup,
    pairs: &'a PairList,
    below: Level,
    level: Level,
    start: usize,
    end: u64,
}

impl<'a> Drop for Laying<'a> {
    fn drop(self) {
        let Laying {
            setup: _,
            pairs: _,
            below: _,
            level: _,
            start: _,
            end: _,
        } = self;
    }
}

// The pairs of a level: in the lowest those of the tree, and else those that were set aside below.
fn pairs_of<'b>(pairs: &'b PairList, below: &'b Level) -> &'b PairList
    ensures { result.now ≡ level_pairs pairs.now below.now }
{
    if below.places.is_empty() {
        pairs
    } else {
        &below.separators
    }
}

impl<'a> Laying<'a> {
    /// The tree of these pairs, from a place on.
    pub(crate) fn new(setup: TreeSetup, first: u64, pairs: &'a PairList) -> Laying<'a>
        requires at { first % 1024 ≡ 0 }
        requires sized { AreSized setup.place pairs.now }
        ensures comes { IsToCome result (laid_at setup.place first pairs.now) }
        ensures setup { result.setup ≡ setup }
        ensures end { result.end ≡ first }
    {
        Laying {
            setup,
            pairs,
            below: Level::new(setup.alloc),
            level: Level::new(setup.alloc),
            start: 0,
            end: first,
        }
    }

    /// The place behind the pages so far.
    pub(crate) fn end(&self) -> u64
        ensures { result ≡ self.now.end }
    {
        self.end
    }

    // How many pairs of the level are left.
    fn count_left(&self) -> usize
        ensures { result ≡ length (pairs_left self.now) }
    {
        pairs_of(self.pairs, &self.below)
            .len()
            .saturating_sub(self.start)
    }

    // Writes the next page of the level, and answers how many pairs it takes.
    fn write_next(&self, page: &mut [u8]) -> usize
        requires placed { IsPlaced self.now.setup.place }
        requires buffer { length page.old ≡ self.now.setup.place.block_length }
        requires level { CanLevel self.now.setup.place
            (pairs_left self.now) (children_left self.now) }
        ensures count { IsCount self.now.setup.place (not (length (children_left self.now) == 0))
            (pairs_left self.now) result }
        ensures page { page.new ≡ page_for self.now.setup.place (next_node self.now result) }
        ensures long { length page.new ≡ self.now.setup.place.block_length }
        ensures bound { length (level_pairs self.now.pairs.now self.now.below) < 2 ^ 64 }
    {
        let place = self.setup.place;
        let pairs = pairs_of(self.pairs, &self.below);
        let children = children_at(&self.below.places, self.start).1;
        let count = page_count(place, !children.is_empty(), pairs, self.start);
        let first = children_at(children, count + 1).0;
        write_pairs(place, pairs, self.start, count, first, page);
        count
    }

    // Notes the place of a page that was written: answers it.
    fn add_place(&mut self) -> Result<u64, TreeFault>
        ensures at { IfOk result (λ at. at ≡ self.old.end) }
        ensures places { OnOk result (self.new.level.places.items
            ≡ self.old.level.places.items ++ self.old.end ∷ []) }
        ensures end { OnOk result
            (self.new.end ≡ self.old.end + self.old.setup.place.block_length) }
        ensures small { OnOk result (self.new.end < 2 ^ 64) }
        ensures setup { self.new.setup ≡ self.old.setup }
        ensures pairs { self.new.pairs ≡ self.old.pairs }
        ensures below { self.new.below ≡ self.old.below }
        ensures start { self.new.start ≡ self.old.start }
        ensures separators { self.new.level.separators ≡ self.old.level.separators }
        ensures memory { IfErr result (λ fault. fault ≡ Memory) }
    {
        let at = self.end;
        let Some(end) = at.checked_add(self.setup.place.block_length as u64) else {
            return Err(TreeFault::Memory);
        };
        self.level.places.push(at)?;
        self.end = end;
        Ok(at)
    }

    // Sets the pair behind so many aside, and goes past it.
    fn set_aside(&mut self, count: usize) -> Result<(), TreeFault>
        requires inside { count < length (pairs_left self.old) }
        requires bound { length (level_pairs self.old.pairs.now self.old.below) < 2 ^ 64 }
        ensures separators { (other : Pair) → OnOk result (self.new.level.separators
            ≡ self.old.level.separators
            ++ slice_index_or (pairs_left self.old) count other ∷ []) }
        ensures start { OnOk result (self.new.start ≡ self.old.start + (count + 1)) }
        ensures setup { self.new.setup ≡ self.old.setup }
        ensures pairs { self.new.pairs ≡ self.old.pairs }
        ensures below { self.new.below ≡ self.old.below }
        ensures places { self.new.level.places ≡ self.old.level.places }
        ensures end { self.new.end ≡ self.old.end }
        ensures memory { IfErr result (λ fault. fault ≡ Memory) }
    {
        let pairs = pairs_of(self.pairs, &self.below);
        let i = self.start + count;
        self.level.separators.push(pairs.code(i), pairs.row(i))?;
        self.start = i + 1;
        Ok(())
    }

    // Goes on to the level above, of which there is one where this one has more than one page.
    fn end_level(&mut self)
        ensures up { 1 < length self.old.level.places.items
            → (self.new.below ≡ self.old.level) × (self.new.start ≡ 0)
            × (self.new.level.separators ≡ []) × (self.new.level.places.items ≡ []) }
        ensures done { length self.old.level.places.items ≤ 1
            → (pairs_left self.new ≡ []) × (self.new.level ≡ self.old.level) }
        ensures setup { self.new.setup ≡ self.old.setup }
        ensures pairs { self.new.pairs ≡ self.old.pairs }
        ensures end { self.new.end ≡ self.old.end }
    {
        if self.level.places.len() > 1 {
            self.below = replace(&mut self.level, Level::new(self.setup.alloc));
            self.start = 0;
        } else {
            self.start = pairs_of(self.pairs, &self.below).len();
        }
    }

    /// Writes the next page, and answers its place: None where all pages came. The only fault is that
    /// memory or places run out.
    pub(crate) fn next_page(&mut self, page: &mut [u8]) -> Result<Option<u64>, TreeFault>
        requires placed { IsPlaced self.old.setup.place }
        requires buffer { length page.old ≡ self.old.setup.place.block_length }
        requires comes { (nodes : List Node) × IsToCome self.old nodes }
        ensures next { (nodes : List Node) → IsToCome self.old nodes
            → IfOk result (λ at. GivesNext self.old page.new at self.new nodes) }
        ensures setup { self.new.setup ≡ self.old.setup }
        ensures long { length page.new ≡ self.old.setup.place.block_length }
        ensures memory { IfErr result (λ fault. fault ≡ Memory) }
    {
        let left = self.count_left();
        if left == 0 {
            return Ok(None);
        }
        let count = self.write_next(page);
        let at = self.add_place()?;
        if count < left {
            self.set_aside(count)?;
        } else {
            self.end_level();
        }
        Ok(Some(at))
    }
}
