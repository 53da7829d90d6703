//! Going down a tree, page by page.
ghost use Rattle.std.specs.Prelude.{◌≡◌, ◌+◌, ◌≤◌, ◌⊎◌, ℕ, true, [], Some, None, IfOk, IfErr, OnOk};
ghost use Rattle.myi_base.specs.Holding.{IfTold, Told};
ghost use Rattle.myi_base.specs.Causes.{HasCause};
ghost use Rattle.myi_keylist.specs.declared.pair.Pair.{Pair};
ghost use Rattle.std.specs.Prelude.{List};
ghost use Rattle.myi_keycache.specs.Kept.{AddsOnly};
ghost use Rattle.myi_keycache.specs.Caching.{pages_of, CanGet, IsCurrent, Stays};
ghost use Rattle.myi_btree.specs.declared.fault.TreeFault.TheVariants.{File};
ghost use Rattle.myi_btree.specs.Walk.{Walked, walk_of, content};
ghost use Rattle.myi_btree.specs.Sizes.{IsPlaced};
ghost use Rattle.myi_btree.specs.Faults.{DamagedAt};
ghost use Rattle.myi_btree.specs.CachedTrees.{node_lent, MayGet, CanWalk, ReadsOnly, AddsNamed};
ghost use Rattle.myi_btree.specs.Serving.{View, nodes_at, CanAsk};
ghost use Rattle.myi_search.specs.Path.{IsStopped, Arrives};
ghost use Rattle.myi_search.specs.Trees.{HasTree};
ghost use Rattle.myi_search.specs.Counting.{CountsOn};
ghost use Rattle.myi_search.specs.Passing.{passes, first_kept, IsParted, best_of, HasCode};
ghost use Rattle.myi_search.specs.Seeking.{Enters, AskedSome, Ends, Stops};
ghost use Rattle.myi_search.specs.Runs.{GathersLeaf, IsRun};

use crate::bound::Bound;
use crate::page::{Way, seek_in};
use crate::reached::Reached;
use myi_btree::{Place, TreeFault, walks_begin};
use myi_io::Files;
use myi_keycache::KeyCache;
use std::alloc::Global;
use std::collections::BTreeSet;

// Goes into the page at a place, and answers the child that is next.
fn enter<F: Files>(
    place: &Place,
    files: &mut F,
    cache: &mut KeyCache,
    at: u64,
    bound: &Bound,
    reached: &mut Reached,
) -> Result<Option<u64>, TreeFault>
    requires placed { IsPlaced place.now }
    requires kept { MayGet F.writable cache.old }
    requires code { HasCode reached.old }
    ensures enters { IfOk result (λ child. (v : View)
        → CanAsk place.now v (F.holds files.old) cache.old at
        → Enters (passes bound.now) (nodes_at place.now v at) child
        (best_of reached.old) (best_of reached.new)) }
    ensures damaged { IfErr result (DamagedAt (λ p. (p ≡ at) × ((v : View)
        → CanAsk place.now v (F.holds files.old) cache.old at
        → nodes_at place.now v at ≡ None))) }
    ensures code { OnOk result (HasCode reached.new) }
    ensures gathers { reached.new.gathers ≡ reached.old.gathers }
    ensures run { IfOk result (λ child. reached.old.gathers ≡ true → (v : View)
        → CanAsk place.now v (F.holds files.old) cache.old at
        → GathersLeaf (nodes_at place.now v at) (best_of reached.old) reached.new.run) }
    ensures stays { Told (F.holds files.old) (F.holds files.new)
        (λ m n. CanGet cache.old m at place.now.block_length → Stays cache.old cache.new m n) }
    ensures added { AddsOnly at place.now.block_length (pages_of cache.old) (pages_of cache.new) }
    ensures cache { ReadsOnly (F.holds files.old) (F.holds files.new) cache.old cache.new }
    ensures counted { CountsOn cache.old cache.new }
    ensures requests { cache.new.counters.read_requests ≤ cache.old.counters.read_requests + 1 }
    ensures cause { HasCause File (F.faults files.old) (F.faults files.new) result }
    ensures reads { F.reads files.old ≤ F.reads files.new }
    ensures once { F.reads files.new ≤ F.reads files.old + 1 }
{
    if at % 1024 != 0 {
        return Err(TreeFault::Damaged { at });
    }
    let bytes = cache.get(files, at, place.block_length as usize)?;
    match seek_in(bytes, place.rec_ref, bound, reached)? {
        Way::Child(child) => Ok(Some(child)),
        Way::Leaf => Ok(None),
        Way::NoPage => Err(TreeFault::Damaged { at }),
    }
}

// Goes down from a root to a leaf.
fn go_down<F: Files>(
    root: u64,
    place: &Place,
    files: &mut F,
    cache: &mut KeyCache,
    bound: &Bound,
    reached: &mut Reached,
) -> Result<(), TreeFault>
    requires placed { IsPlaced place.now }
    requires kept { MayGet F.writable cache.old }
    requires code { HasCode reached.old }
    requires none { best_of reached.old ≡ None }
    ensures asked { AskedSome place.now (F.holds files.old) (F.holds files.new) cache.old cache.new
        (F.reads files.old) (F.reads files.new) root }
    ensures ends { OnOk result ((v : View)
        → CanAsk place.now v (F.holds files.old) cache.old root
        → Ends place.now (passes bound.now) v root (best_of reached.new)) }
    ensures stops { IfErr result (DamagedAt (λ at. (v : View)
        → CanAsk place.now v (F.holds files.old) cache.old root
        → Stops place.now (passes bound.now) v root at)) }
    ensures code { OnOk result (HasCode reached.new) }
    ensures run { OnOk result (reached.old.gathers ≡ true → (v : View)
        → CanAsk place.now v (F.holds files.old) cache.old root → (height : ℕ) (w : Walked)
        → walk_of (nodes_at place.now v) height root ≡ Some w
        → IsParted (passes bound.now) (content w)
        → IsRun (passes bound.now) (content w) reached.new.run) }
    ensures cache { ReadsOnly (F.holds files.old) (F.holds files.new) cache.old cache.new }
    ensures counted { CountsOn cache.old cache.new }
    ensures cause { HasCause File (F.faults files.old) (F.faults files.new) result }
    ensures reads { F.reads files.old ≤ F.reads files.new }
{
    let mut met: BTreeSet<u64> = BTreeSet::new(*reached.code.allocator());
    let mut down = Some(root);
    while let Some(at) = down {
        prove!(met.len() < usize::MAX);
        if !met.insert(at)? {
            return Err(TreeFault::Damaged { at });
        }
        down = enter(place, files, cache, at, bound, reached)?;
    }
    Ok(())
}

/// Goes down a tree to a leaf. Then the best pair is the first of the tree that is not passed by.
pub(crate) fn descend<F: Files>(
    place: &Place,
    files: &mut F,
    cache: &mut KeyCache,
    bound: &Bound,
    reached: &mut Reached,
) -> Result<(), TreeFault>
    requires placed { IsPlaced place.now }
    requires kept { CanWalk F.writable (F.holds files.old) place.now cache.old }
    requires none { reached.old.row ≡ None }
    requires empty { reached.old.run ≡ [] }
    ensures found { OnOk result (IfTold (F.holds files.old) (λ m. IsCurrent cache.old m
        → (height : ℕ) (pairs : List Pair)
        → HasTree place.now cache.old m place.now.root height pairs
        → IsParted (passes bound.now) pairs
        → best_of reached.new ≡ first_kept (passes bound.now) pairs)) }
    ensures run { OnOk result (reached.old.gathers ≡ true → IfTold (F.holds files.old) (λ m.
        IsCurrent cache.old m → (height : ℕ) (pairs : List Pair)
        → HasTree place.now cache.old m place.now.root height pairs
        → IsParted (passes bound.now) pairs
        → IsRun (passes bound.now) pairs reached.new.run)) }
    ensures arrives { OnOk result (IfTold (F.holds files.old) (λ m. IsCurrent cache.old m
        → Arrives (node_lent place.now cache.old m) (passes bound.now) place.now.root)) }
    ensures stopped { IfErr result (DamagedAt (λ at. IfTold (F.holds files.old) (λ m.
        IsCurrent cache.old m
        → IsStopped (node_lent place.now cache.old m) (passes bound.now) place.now.root at))) }
    ensures never { IfErr result (DamagedAt (λ at. IfTold (F.holds files.old) (λ m.
        IsCurrent cache.old m → (height : ℕ) (pairs : List Pair)
        → HasTree place.now cache.old m place.now.root height pairs → ⊥))) }
    ensures code { OnOk result (HasCode reached.new) }
    ensures cache { ReadsOnly (F.holds files.old) (F.holds files.new) cache.old cache.new }
    ensures counted { CountsOn cache.old cache.new }
    ensures stays { Told (F.holds files.old) (F.holds files.new)
        (λ m n. IsCurrent cache.old m → Stays cache.old cache.new m n) }
    ensures added { IfTold (F.holds files.old) (λ m. IsCurrent cache.old m
        → AddsNamed place.now cache.old m cache.new) }
    ensures asked { IfTold (F.holds files.old) (λ m. IsCurrent cache.old m
        → (height : ℕ) (pairs : List Pair)
        → HasTree place.now cache.old m place.now.root height pairs
        → cache.new.counters.read_requests ≤ cache.old.counters.read_requests + (height + 1)) }
    ensures few { IfTold (F.holds files.old) (λ m. IsCurrent cache.old m
        → (height : ℕ) (pairs : List Pair)
        → HasTree place.now cache.old m place.now.root height pairs
        → F.reads files.new ≤ F.reads files.old + (height + 1)) }
    ensures cause { HasCause File (F.faults files.old) (F.faults files.new) result }
    ensures reads { F.reads files.old ≤ F.reads files.new }
{
    walks_begin();
    let Some(root) = place.root else {
        return Ok(());
    };
    go_down(root, place, files, cache, bound, reached)?;
    Ok(())
}
