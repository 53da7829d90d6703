//! `TreeCursor`: the pairs of a tree one after the other.
//!
//! A cursor stands behind a pair. It goes down the tree as `next_after` does, and keeps the pairs of the leaf
//! that it comes to and the pair of a page above it that comes behind them. From these it goes on without asking
//! for a page, and goes down again where none is left.
ghost use Rattle.std.specs.Prelude.{◌≡◌, ◌≢◌, ◌+◌, ◌^◌, ◌<◌, ◌≤◌, ℕ, true, false, [], List, None, Some, is_some, option_map, drop, length, IsOk, IfOk, IfErr, IfNone, IfSome, OnOk, OnErr};
ghost use Rattle.std.specs.List.Sorted.{IsStrictlySortedBy};
ghost use Rattle.myi_base.specs.Holding.{IfTold, Told};
ghost use Rattle.myi_base.specs.Causes.{HasCause};
ghost use Rattle.myi_keylist.specs.declared.pair.Pair.{Pair};
ghost use Rattle.myi_keylist.specs.PairOrder.{pair_with, pair_cmp};
ghost use Rattle.myi_keys.specs.Comparing.{key_front, IsCode};
ghost use Rattle.myi_keycache.specs.Caching.{IsCurrent, Stays};
ghost use Rattle.myi_btree.specs.declared.fault.TreeFault.TheVariants.{File};
ghost use Rattle.myi_btree.specs.Sizes.{IsPlaced};
ghost use Rattle.myi_btree.specs.Faults.{DamagedAt};
ghost use Rattle.myi_btree.specs.CachedTrees.{node_lent, CanWalk, ReadsOnly, AddsNamed};
ghost use Rattle.myi_search.specs.Path.{is_up_to, IsStopped, Arrives};
ghost use Rattle.myi_search.specs.Trees.{HasTree};
ghost use Rattle.myi_search.specs.Counting.{CountsOn};
ghost use Rattle.myi_search.specs.Cursor.{from_kept, Advances, StandsIn};
ghost use Rattle.myi_search.specs.Passing.{passes, IsParted};
ghost use Rattle.myi_search.specs.Runs.{IsFound};

use crate::bound::Bound;
use crate::descent::descend;
use crate::reached::Reached;
use myi_btree::{Place, TreeFault};
use myi_io::Files;
use myi_keycache::KeyCache;
use myi_keylist::{Pair, PairList};
use std::alloc::{AllocError, Global};
use std::marker::Model;

/// A cursor in the pairs of a tree.
pub struct TreeCursor {
    /// The pairs that it keeps.
    pairs: PairList,
    /// How many of them it has passed.
    next: usize,
}

impl Drop for TreeCursor {
    fn drop(self) {
        let TreeCursor { pairs: _, next: _ } = self;
    }
}

impl Model for TreeCursor {
    ghost use Rattle.std.specs.Prelude.{◌≤◌, drop, length};
    ghost use Rattle.myi_search.specs.Cursor.{CursorAt};
    ghost use Rattle.myi_search.specs.Runs.{pair_before};

    ghost Value = { CursorAt };

    ghost view = { λ c. record {
      last = pair_before c.next c.pairs;
      ahead = drop c.next c.pairs;
    } };

    ghost invariant = { λ c. c.next ≤ length c.pairs };
}

// The place of the first pair that is not passed by.
fn first_kept(bound: &Bound, pairs: &PairList) -> Option<usize>
    ensures inside { IfSome result (λ i. i < length pairs.now) }
    ensures small { IfSome result (λ i. i + 1 < 2 ^ 64) }
    ensures kept { IfSome result (λ i.
        from_kept (passes bound.now) pairs.now ≡ drop i pairs.now) }
    ensures none { IfNone result (from_kept (passes bound.now) pairs.now ≡ []) }
{
    for i in 0..pairs.len() {
        if !bound.passes(pairs.code(i), pairs.row(i)) {
            return Some(i);
        }
    }
    None
}

// Goes down a tree to a leaf, and answers what was gathered of it and the place of the first pair that is not
// passed by, and None where there is none.
fn read_ahead<F: Files>(
    alloc: Global,
    place: &Place,
    files: &mut F,
    cache: &mut KeyCache,
    bound: &Bound,
) -> Result<Option<(PairList, usize)>, TreeFault>
    requires placed { IsPlaced place.now }
    requires kept { CanWalk F.writable (F.holds files.old) place.now cache.old }
    ensures found { IfOk result (λ found. IfTold (F.holds files.old) (λ m. IsCurrent cache.old m
        → (height : ℕ) (pairs : List Pair)
        → HasTree place.now cache.old m place.now.root height pairs
        → IsParted (passes bound.now) pairs → IsFound (passes bound.now) pairs found)) }
    ensures inside { IfOk result (λ found. IfSome found (λ found. found.1 < length found.0)) }
    ensures small { IfOk result (λ found. IfSome found (λ found. found.1 + 1 < 2 ^ 64)) }
    ensures arrives { OnOk result (IfTold (F.holds files.old) (λ m. IsCurrent cache.old m
        → Arrives (node_lent place.now cache.old m) (passes bound.now) place.now.root)) }
    ensures stopped { IfErr result (DamagedAt (λ at. IfTold (F.holds files.old) (λ m.
        IsCurrent cache.old m
        → IsStopped (node_lent place.now cache.old m) (passes bound.now) place.now.root at))) }
    ensures never { IfErr result (DamagedAt (λ at. IfTold (F.holds files.old) (λ m.
        IsCurrent cache.old m → (height : ℕ) (pairs : List Pair)
        → HasTree place.now cache.old m place.now.root height pairs → ⊥))) }
    ensures cache { ReadsOnly (F.holds files.old) (F.holds files.new) cache.old cache.new }
    ensures counted { CountsOn cache.old cache.new }
    ensures stays { Told (F.holds files.old) (F.holds files.new)
        (λ m n. IsCurrent cache.old m → Stays cache.old cache.new m n) }
    ensures added { IfTold (F.holds files.old) (λ m. IsCurrent cache.old m
        → AddsNamed place.now cache.old m cache.new) }
    ensures asked { IfTold (F.holds files.old) (λ m. IsCurrent cache.old m
        → (height : ℕ) (pairs : List Pair)
        → HasTree place.now cache.old m place.now.root height pairs
        → cache.new.counters.read_requests ≤ cache.old.counters.read_requests + (height + 1)) }
    ensures few { IfTold (F.holds files.old) (λ m. IsCurrent cache.old m
        → (height : ℕ) (pairs : List Pair)
        → HasTree place.now cache.old m place.now.root height pairs
        → F.reads files.new ≤ F.reads files.old + (height + 1)) }
    ensures cause { HasCause File (F.faults files.old) (F.faults files.new) result }
    ensures reads { F.reads files.old ≤ F.reads files.new }
{
    let mut reached = Reached::new(alloc, true);
    descend(place, files, cache, bound, &mut reached)?;
    let run = reached.into_run();
    match first_kept(bound, &run) {
        Some(i) => Ok(Some((run, i))),
        None => Ok(None),
    }
}

impl TreeCursor {
    /// A cursor before all pairs.
    pub fn new(alloc: Global) -> TreeCursor
        ensures { result ≡ record { last = None; ahead = [] } }
    {
        TreeCursor {
            pairs: PairList::new(alloc),
            next: 0,
        }
    }

    /// A cursor behind a pair, whether a tree has it or not.
    pub fn behind(alloc: Global, pair: &Pair) -> Result<TreeCursor, AllocError>
        ensures { IfOk result (λ cursor. cursor ≡ record { last = Some pair.now; ahead = [] }) }
    {
        let mut pairs = PairList::new(alloc);
        pairs.push(pair.key.code(), pair.row)?;
        Ok(TreeCursor { pairs, next: 1 })
    }

    // Behind the pair that it stands behind.
    fn bound(&self) -> Bound<'_>
        ensures { passes result ≡ is_up_to self.now.last }
    {
        if self.next == 0 {
            return Bound::Start;
        }
        let i = self.next - 1;
        Bound::Behind(self.pairs.code(i), self.pairs.row(i))
    }

    /// The pair that it stands behind, as the code of its key and its row, and None where it stands before all.
    pub fn pair(&self) -> Option<(&[u8], u64)>
        ensures pair { option_map (λ x. pair_with (key_front x.0.now) x.1) result ≡ self.now.last }
        ensures code { IfSome result (λ x. IsCode x.0.now) }
    {
        if self.next == 0 {
            return None;
        }
        let i = self.next - 1;
        Some((self.pairs.code(i), self.pairs.row(i)))
    }

    /// Goes on behind the next pair of a tree, and answers whether there is one. It is asked of the cursor that it
    /// stands in the pairs of the tree (`StandsIn`), as one that has read no pair does in all trees, and as it does
    /// afterwards where the tree stays as it is. What is said of `next_after` of damage, of the cache and of
    /// what is read holds of this call too; where the cursor has read a pair before, nothing is asked for.
    pub fn advance<F: Files>(
        &mut self,
        alloc: Global,
        place: &Place,
        files: &mut F,
        cache: &mut KeyCache,
    ) -> Result<bool, TreeFault>
        requires placed { IsPlaced place.now }
        requires kept { CanWalk F.writable (F.holds files.old) place.now cache.old }

        // It stands behind the least pair above the one before, or there is none and it stays.
        ensures next { IfOk result (λ there. IfTold (F.holds files.old) (λ m. IsCurrent cache.old m
            → (height : ℕ) (pairs : List Pair)
            → HasTree place.now cache.old m place.now.root height pairs
            → IsStrictlySortedBy pair_cmp pairs → StandsIn pairs self.old
            → Advances pairs self.old self.new there)) }
        ensures some { IfOk result (λ there. there ≡ true → is_some self.new.last ≡ true) }
        ensures end { IfOk result (λ there. there ≡ false → self.new ≡ self.old) }
        ensures refused { OnErr result (self.new ≡ self.old) }

        // What was read before is answered with no page asked for.
        ensures quiet { self.old.ahead ≢ []
            → IsOk result × (files.new ≡ files.old) × (cache.new ≡ cache.old) }

        // Else the path ends in a leaf, or at a place where no page stands or that was met; never in a whole tree.
        ensures arrives { OnOk result (self.old.ahead ≡ [] → IfTold (F.holds files.old) (λ m.
            IsCurrent cache.old m → Arrives (node_lent place.now cache.old m)
            (is_up_to self.old.last) place.now.root)) }
        ensures damaged { IfErr result (DamagedAt (λ at. IfTold (F.holds files.old) (λ m.
            IsCurrent cache.old m
            → IsStopped (node_lent place.now cache.old m) (is_up_to self.old.last)
            place.now.root at))) }
        ensures never { IfErr result (DamagedAt (λ at. IfTold (F.holds files.old) (λ m.
            IsCurrent cache.old m → (height : ℕ) (pairs : List Pair)
            → HasTree place.now cache.old m place.now.root height pairs → ⊥))) }

        // Nothing was put, the same is lent, and no page came to be kept but those named from the root on.
        ensures cache { ReadsOnly (F.holds files.old) (F.holds files.new) cache.old cache.new }
        ensures counted { CountsOn cache.old cache.new }
        ensures stays { Told (F.holds files.old) (F.holds files.new)
            (λ m n. IsCurrent cache.old m → Stays cache.old cache.new m n) }
        ensures added { IfTold (F.holds files.old) (λ m. IsCurrent cache.old m
            → AddsNamed place.now cache.old m cache.new) }

        // No more pages are asked for and read than stand on the way to a leaf.
        ensures asked { IfTold (F.holds files.old) (λ m. IsCurrent cache.old m
            → (height : ℕ) (pairs : List Pair)
            → HasTree place.now cache.old m place.now.root height pairs
            → cache.new.counters.read_requests ≤ cache.old.counters.read_requests + (height + 1)) }
        ensures few { IfTold (F.holds files.old) (λ m. IsCurrent cache.old m
            → (height : ℕ) (pairs : List Pair)
            → HasTree place.now cache.old m place.now.root height pairs
            → F.reads files.new ≤ F.reads files.old + (height + 1)) }
        ensures cause { HasCause File (F.faults files.old) (F.faults files.new) result }
        ensures reads { F.reads files.old ≤ F.reads files.new }
    {
        if self.next < self.pairs.len() {
            self.next += 1;
            return Ok(true);
        }
        let found = read_ahead(alloc, place, files, cache, &self.bound())?;
        let Some((pairs, i)) = found else {
            return Ok(false);
        };
        self.pairs = pairs;
        self.next = i + 1;
        Ok(true)
    }
}
