//! The calls of a search.
ghost use Rattle.std.specs.Prelude.{◌≡◌, ◌+◌, ◌≤◌, ℕ, List, IfOk, IfErr, OnOk, IsSorted};
ghost use Rattle.std.specs.Option.{option_copied};
ghost use Rattle.myi_base.specs.Holding.{IfTold, Told};
ghost use Rattle.myi_base.specs.Causes.{HasCause};
ghost use Rattle.myi_keylist.specs.declared.pair.Pair.{Pair};
ghost use Rattle.myi_keylist.specs.PairOrder.{pair_cmp};
ghost use Rattle.myi_keycache.specs.Caching.{IsCurrent, Stays};
ghost use Rattle.myi_btree.specs.declared.fault.TreeFault.TheVariants.{File};
ghost use Rattle.myi_btree.specs.Sizes.{IsPlaced};
ghost use Rattle.myi_btree.specs.Faults.{DamagedAt};
ghost use Rattle.myi_btree.specs.CachedTrees.{node_lent, CanWalk, ReadsOnly, AddsNamed};
ghost use Rattle.myi_search.specs.Least.{IsLeastRow, IsLeastAbove};
ghost use Rattle.myi_search.specs.Path.{is_below, is_up_to, IsStopped, Arrives};
ghost use Rattle.myi_search.specs.Trees.{HasTree};
ghost use Rattle.myi_search.specs.Counting.{CountsOn};

use crate::bound::Bound;
use crate::descent::descend;
use crate::reached::Reached;
use myi_btree::{Place, TreeFault};
use myi_io::Files;
use myi_keycache::KeyCache;
use myi_keylist::Pair;
use myi_keys::KeyVal;
use std::alloc::Global;

/// The least row of a key among the pairs of a tree, and None where none has it. `Damaged` comes at the first place
/// on the path of the search where no page stands, or that it went into before. What is said of pairs, places
/// and what is kept holds where the file is as the last call of the cache left it, and what is said of the answer where
/// the pairs of the tree are in order. It is asked that the cache keeps no unwritten page, or that the files
/// can be written, the tree is whole and no other page that is kept meets one of it; then that holds afterwards too
/// (`walks_add_their_own` and `walks_leave_trees_clear` of `myi_btree`).
pub fn find<F: Files>(
    alloc: Global,
    place: &Place,
    files: &mut F,
    cache: &mut KeyCache,
    key: &KeyVal,
) -> Result<Option<u64>, TreeFault>
    requires placed { IsPlaced place.now }
    requires kept { CanWalk F.writable (F.holds files.old) place.now cache.old }

    // The answer is the least row of the key among the pairs of the tree's walk.
    ensures least { IfOk result (λ row. IfTold (F.holds files.old) (λ m. IsCurrent cache.old m
        → (height : ℕ) (pairs : List Pair)
        → HasTree place.now cache.old m place.now.root height pairs → IsSorted pair_cmp pairs
        → IsLeastRow key.now pairs row)) }

    // The path ends in a leaf, or at a place where no page stands or that was met; never in a whole tree.
    ensures arrives { OnOk result (IfTold (F.holds files.old) (λ m. IsCurrent cache.old m
        → Arrives (node_lent place.now cache.old m) (is_below key.now) place.now.root)) }
    ensures damaged { IfErr result (DamagedAt (λ at. IfTold (F.holds files.old) (λ m.
        IsCurrent cache.old m
        → IsStopped (node_lent place.now cache.old m) (is_below key.now) place.now.root at))) }
    ensures never { IfErr result (DamagedAt (λ at. IfTold (F.holds files.old) (λ m.
        IsCurrent cache.old m → (height : ℕ) (pairs : List Pair)
        → HasTree place.now cache.old m place.now.root height pairs → ⊥))) }

    // Nothing was put, the same is lent, and no page came to be kept but those named from the root on.
    ensures cache { ReadsOnly (F.holds files.old) (F.holds files.new) cache.old cache.new }
    ensures counted { CountsOn cache.old cache.new }
    ensures stays { Told (F.holds files.old) (F.holds files.new)
        (λ m n. IsCurrent cache.old m → Stays cache.old cache.new m n) }
    ensures added { IfTold (F.holds files.old) (λ m. IsCurrent cache.old m
        → AddsNamed place.now cache.old m cache.new) }

    // No more pages are asked for and read than stand on the way to a leaf.
    ensures asked { IfTold (F.holds files.old) (λ m. IsCurrent cache.old m
        → (height : ℕ) (pairs : List Pair)
        → HasTree place.now cache.old m place.now.root height pairs
        → cache.new.counters.read_requests ≤ cache.old.counters.read_requests + (height + 1)) }
    ensures few { IfTold (F.holds files.old) (λ m. IsCurrent cache.old m
        → (height : ℕ) (pairs : List Pair)
        → HasTree place.now cache.old m place.now.root height pairs
        → F.reads files.new ≤ F.reads files.old + (height + 1)) }
    ensures cause { HasCause File (F.faults files.old) (F.faults files.new) result }
    ensures reads { F.reads files.old ≤ F.reads files.new }
{
    let mut reached = Reached::new(alloc, false);
    let bound = Bound::before_key(key);
    descend(place, files, cache, &bound, &mut reached)?;
    Ok(reached.row_of(key))
}

/// The least pair of a tree above the given one, or where none is given the least of all. None where there is
/// none. What is said of `find` of damage, of the cache and of what is read holds of this call too.
pub fn next_after<F: Files>(
    alloc: Global,
    place: &Place,
    files: &mut F,
    cache: &mut KeyCache,
    after: Option<&Pair>,
) -> Result<Option<Pair>, TreeFault>
    requires placed { IsPlaced place.now }
    requires kept { CanWalk F.writable (F.holds files.old) place.now cache.old }

    // The answer is the least pair above the given one among the pairs of the tree's walk.
    ensures least { IfOk result (λ pair. IfTold (F.holds files.old) (λ m. IsCurrent cache.old m
        → (height : ℕ) (pairs : List Pair)
        → HasTree place.now cache.old m place.now.root height pairs → IsSorted pair_cmp pairs
        → IsLeastAbove (option_copied after.entry) pairs pair)) }

    // The path ends in a leaf, or at a place where no page stands or that was met; never in a whole tree.
    ensures arrives { OnOk result (IfTold (F.holds files.old) (λ m. IsCurrent cache.old m
        → Arrives (node_lent place.now cache.old m) (is_up_to (option_copied after.entry))
        place.now.root)) }
    ensures damaged { IfErr result (DamagedAt (λ at. IfTold (F.holds files.old) (λ m.
        IsCurrent cache.old m
        → IsStopped (node_lent place.now cache.old m) (is_up_to (option_copied after.entry))
        place.now.root at))) }
    ensures never { IfErr result (DamagedAt (λ at. IfTold (F.holds files.old) (λ m.
        IsCurrent cache.old m → (height : ℕ) (pairs : List Pair)
        → HasTree place.now cache.old m place.now.root height pairs → ⊥))) }

    // Nothing was put, the same is lent, and no page came to be kept but those named from the root on.
    ensures cache { ReadsOnly (F.holds files.old) (F.holds files.new) cache.old cache.new }
    ensures counted { CountsOn cache.old cache.new }
    ensures stays { Told (F.holds files.old) (F.holds files.new)
        (λ m n. IsCurrent cache.old m → Stays cache.old cache.new m n) }
    ensures added { IfTold (F.holds files.old) (λ m. IsCurrent cache.old m
        → AddsNamed place.now cache.old m cache.new) }

    // No more pages are asked for and read than stand on the way to a leaf.
    ensures asked { IfTold (F.holds files.old) (λ m. IsCurrent cache.old m
        → (height : ℕ) (pairs : List Pair)
        → HasTree place.now cache.old m place.now.root height pairs
        → cache.new.counters.read_requests ≤ cache.old.counters.read_requests + (height + 1)) }
    ensures few { IfTold (F.holds files.old) (λ m. IsCurrent cache.old m
        → (height : ℕ) (pairs : List Pair)
        → HasTree place.now cache.old m place.now.root height pairs
        → F.reads files.new ≤ F.reads files.old + (height + 1)) }
    ensures cause { HasCause File (F.faults files.old) (F.faults files.new) result }
    ensures reads { F.reads files.old ≤ F.reads files.new }
{
    let mut reached = Reached::new(alloc, false);
    let bound = Bound::behind(after);
    descend(place, files, cache, &bound, &mut reached)?;
    Ok(reached.into_pair())
}
