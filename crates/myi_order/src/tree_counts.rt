//! Counting the prefixes of the pairs of a tree, in one walk of it.
ghost use Rattle.std.specs.Prelude.{◌≡◌, ◌∷◌, ◌<◌, ◌^◌, ℕ, List, [], length, true, is_some, Some, IfOk, IfErr, OnOk};
ghost use Rattle.std.specs.List.{AllByRecursion};
ghost use Rattle.myi_base.specs.Holding.{IfTold};
ghost use Rattle.myi_base.specs.Causes.{HasCause};
ghost use Rattle.myi_base.specs.HandsOn.{HandsOn};
ghost use Rattle.myi_keycache.specs.Kept.{AllWritten};
ghost use Rattle.myi_keycache.specs.Caching.{pages_of, IsCurrent};
ghost use Rattle.myi_btree.specs.Sizes.{IsPlaced};
ghost use Rattle.myi_btree.specs.Faults.{IsFileOrMemory};
ghost use Rattle.myi_btree.specs.CachedTrees.{node_lent};
ghost use Rattle.myi_btree.specs.Events.{MeetsTree};
ghost use Rattle.myi_btree.specs.Cursors.{event_of};
ghost use Rattle.myi_check.specs.Walks.{EventList, events_in};
ghost use Rattle.myi_order.specs.Faults.{CutsOff};
ghost use Rattle.myi_order.specs.PrefixCounts.{HasRoom, HasCounted, CountsTo, CountsTree};

use crate::fault::OrderFault;
use crate::prefixes::PrefixCount;
use myi_btree::{Event, Events, Place, TreeFault};
use myi_io::Files;
use myi_keycache::{CacheSetup, KeyCache};
use std::alloc::{AllocError, Global};

/// How index pages are kept. A walk asks for each page once.
const SETUP: CacheSetup = CacheSetup {
    blocks: 4,
    division: 100,
    age: 300,
};

// Counts what a walk meets next.
fn note(count: &mut PrefixCount, event: Event) -> Result<(), AllocError>
    requires { HasRoom count.old }
    ensures counts { OnOk result ((all left : EventList)
        → CountsTo count.old all (event_of event ∷ left) → CountsTo count.new all left) }
    ensures room { OnOk result (HasRoom count.new) }
    ensures segments { length count.new.ended.items ≡ length count.old.ended.items }
{
    match event {
        Event::Page { at: _ } => {}
        Event::Pair { pair, at: _ } => count.note(pair)?,
        // The tree was found whole before: only a file that tells nothing has another one by now.
        Event::Bad { at: _ } => return Err(AllocError),
    }
    Ok(())
}

// Why a walk does not go on.
fn of_tree(fault: TreeFault) -> OrderFault
    requires { IsFileOrMemory fault }
    ensures { HandsOn (TreeFault.File, OrderFault.File) (TreeFault.Memory, OrderFault.Memory)
        fault result }
{
    match fault {
        TreeFault::File => OrderFault::File,
        TreeFault::Memory => OrderFault::Memory,
        // Events tell damage as an event.
        TreeFault::Damaged { .. } => unreachable!(),
    }
}

// Counts the pairs of a tree, by what a cache lends that keeps no unwritten page.
fn count_pairs<F: Files>(
    alloc: Global,
    files: &mut F,
    cache: &mut KeyCache,
    place: Place,
    count: &mut PrefixCount,
) -> Result<(), OrderFault>
    requires placed { IsPlaced place }
    requires rooted { is_some place.root ≡ true }
    requires written { AllWritten (pages_of cache.old) }
    requires room { HasRoom count.old }
    ensures counts { OnOk result (IfTold (F.holds files.old) (λ m. IsCurrent cache.old m
        → HasCounted [] count.old → (all : EventList)
        → MeetsTree place.block_length (node_lent place cache.old m) place.root all
        → CountsTo count.new all [])) }
    ensures room { OnOk result (HasRoom count.new) }
    ensures segments { length count.new.ended.items ≡ length count.old.ended.items }
    ensures cut { IfErr result CutsOff }
    ensures holds { F.holds files.new ≡ F.holds files.old }
    ensures cause { HasCause OrderFault.File (F.faults files.old) (F.faults files.new) result }
{
    let mut events = Events::new(alloc, place);
    loop {
        match events.next(files, cache) {
            Ok(Some(event)) => note(count, event)?,
            Ok(None) => return Ok(()),
            Err(fault) => return Err(of_tree(fault)),
        }
    }
}

// Counts the pairs of a tree of an index file.
fn count_rooted<F: Files>(
    alloc: Global,
    files: &mut F,
    index: &str,
    place: Place,
    count: &mut PrefixCount,
) -> Result<(), OrderFault>
    requires placed { IsPlaced place }
    requires room { HasRoom count.old }
    requires none { HasCounted [] count.old }
    ensures counts { OnOk result (IfTold (F.holds files.old) (λ m. (x : List ℕ)
        → m index.now ≡ Some x → CountsTo count.new (events_in place x) [])) }
    ensures room { OnOk result (HasRoom count.new) }
    ensures segments { length count.new.ended.items ≡ length count.old.ended.items }
    ensures cut { IfErr result CutsOff }
    ensures holds { F.holds files.new ≡ F.holds files.old }
    ensures cause { HasCause OrderFault.File (F.faults files.old) (F.faults files.new) result }
{
    if place.root.is_none() {
        return Ok(());
    }
    let mut cache = KeyCache::new(alloc, index, SETUP)?;
    count_pairs(alloc, files, &mut cache, place, count)
}

/// How many rows go to one prefix of the key of a tree, whose keys have so many segments.
pub(crate) fn count_tree<F: Files>(
    alloc: Global,
    files: &mut F,
    index: &str,
    place: Place,
    segments: usize,
) -> Result<Vec<u64>, OrderFault>
    requires { IsPlaced place }
    ensures counts { IfOk result (λ per. IfTold (F.holds files.old) (λ m. (x : List ℕ)
        → m index.now ≡ Some x → CountsTree place segments x per.items)) }
    ensures small { IfOk result (λ per. AllByRecursion (λ n. n < 256 ^ 4) per.items) }
    ensures cut { IfErr result CutsOff }
    ensures holds { F.holds files.new ≡ F.holds files.old }
    ensures cause { HasCause OrderFault.File (F.faults files.old) (F.faults files.new) result }
{
    let mut count = PrefixCount::new(alloc, segments)?;
    count_rooted(alloc, files, index, place, &mut count)?;
    Ok(count.into_per())
}
