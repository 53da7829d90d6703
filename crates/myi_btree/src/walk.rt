//! Going into one page of a tree.
ghost use Rattle.std.specs.Prelude.{◌≡◌, ◌+◌, ◌^◌, ◌<◌, ◌≤◌, length, ◌++◌, ◌∷◌, ℕ, List, [], None, Some, IfOk, IfErr, OnOk, OnErr};
ghost use Rattle.myi_base.specs.Holding.{Told};
ghost use Rattle.myi_base.specs.Causes.{HasCause};
ghost use Rattle.myi_keycache.specs.Kept.{AddsOnly};
ghost use Rattle.myi_keycache.specs.Caching.{pages_of, CanGet, Stays};
ghost use Rattle.myi_btree.specs.declared.fault.TreeFault.TheVariants.{File};
ghost use Rattle.myi_btree.specs.Nodes.{node_view};
ghost use Rattle.myi_btree.specs.Sizes.{IsPlaced};
ghost use Rattle.myi_btree.specs.Faults.{DamagedAt};
ghost use Rattle.myi_btree.specs.CachedTrees.{MayGet, ReadsOnly, RoseBy};
ghost use Rattle.myi_btree.specs.Serving.{View, nodes_at, GoesOn, CanAsk, CanEnter, ReadsAsked};
ghost use Rattle.myi_btree.specs.Visit.{entered};
ghost use Rattle.myi_btree.specs.Visited.{HasPlaces, CountsMet, IsCounted, ReadsMet, ReadsOneMore, node_left};

use crate::fault::TreeFault;
use crate::node::{NodeData, read_node};
use crate::place::TreeSetup;
use crate::visited::{OpenPage, Visited, is_apart};
use myi_io::Files;
use myi_keycache::KeyCache;

/// The node at a place, as the key cache lends it.
fn load_node<F: Files>(
    setup: TreeSetup,
    files: &mut F,
    cache: &mut KeyCache,
    at: u64,
) -> Result<NodeData, TreeFault>
    requires placed { IsPlaced setup.place }
    requires kept { MayGet F.writable cache.old }
    ensures node { IfOk result (λ node. (v : View)
        → CanAsk setup.place v (F.holds files.old) cache.old at
        → nodes_at setup.place v at ≡ Some (node_view node)) }
    ensures damaged { IfErr result (DamagedAt (λ p. (p ≡ at) × ((v : View)
        → CanAsk setup.place v (F.holds files.old) cache.old at
        → nodes_at setup.place v at ≡ None))) }
    ensures stays { Told (F.holds files.old) (F.holds files.new)
        (λ m n. CanGet cache.old m at setup.place.block_length → Stays cache.old cache.new m n) }
    ensures added { AddsOnly at setup.place.block_length (pages_of cache.old) (pages_of cache.new) }
    ensures cache { ReadsOnly (F.holds files.old) (F.holds files.new) cache.old cache.new }
    ensures cause { HasCause File (F.faults files.old) (F.faults files.new) result }
    ensures reads { F.reads files.old ≤ F.reads files.new }
    ensures once { F.reads files.new ≤ F.reads files.old + 1 }
    ensures counted { OnOk result (RoseBy 1 cache.old.counters.read_requests
        cache.new.counters.read_requests) }
{
    if at % 1024 != 0 {
        return Err(TreeFault::Damaged { at });
    }
    let bytes = cache.get(files, at, setup.place.block_length as usize)?;
    match read_node(setup.alloc, bytes, setup.place.rec_ref)? {
        Some(node) => Ok(node),
        None => Err(TreeFault::Damaged { at }),
    }
}

/// Goes into the page at a place, and notes the place once the page was read.
pub(crate) fn enter<F: Files>(
    setup: TreeSetup,
    files: &mut F,
    cache: &mut KeyCache,
    at: u64,
    visited: &mut Visited,
) -> Result<OpenPage, TreeFault>
    requires placed { IsPlaced setup.place }
    requires kept { MayGet F.writable cache.old }
    ensures at { IfOk result (λ page. page.at ≡ at) }
    ensures few { IfOk result (λ page. IsCounted (node_left page)) }
    ensures small { length visited.old.places.keys < 2 ^ 63 }
    ensures node { IfOk result (λ page. (v : View) (seen : List ℕ)
        → CanEnter setup.place v (F.holds files.old) cache.old at seen visited.old
        → entered setup.place.block_length (nodes_at setup.place v) at seen ≡ Some (node_left page)) }
    ensures damaged { IfErr result (DamagedAt (λ _. (v : View) (seen : List ℕ)
        → CanEnter setup.place v (F.holds files.old) cache.old at seen visited.old
        → entered setup.place.block_length (nodes_at setup.place v) at seen ≡ None)) }
    ensures served { (v : View) (seen : List ℕ)
        → CanEnter setup.place v (F.holds files.old) cache.old at seen visited.old
        → GoesOn setup.place v (F.holds files.new) cache.new visited.new }
    ensures asked { (v : View) (seen : List ℕ)
        → CanEnter setup.place v (F.holds files.old) cache.old at seen visited.old
        → ReadsAsked setup.place v (F.holds files.new) cache.new
        (F.reads files.old) (F.reads files.new) visited.old.places.keys }
    ensures met { OnOk result ((seen : List ℕ) → HasPlaces visited.old.places.keys seen
        → HasPlaces visited.new.places.keys (seen ++ at ∷ [])) }
    ensures same { OnErr result (visited.new.places.keys ≡ visited.old.places.keys) }
    ensures cache { ReadsOnly (F.holds files.old) (F.holds files.new) cache.old cache.new }
    ensures cause { HasCause File (F.faults files.old) (F.faults files.new) result }
    ensures reads { F.reads files.old ≤ F.reads files.new }
    ensures once { OnOk result (ReadsMet (F.reads files.old) (F.reads files.new)
        visited.old.places.keys visited.new.places.keys) }
    ensures most { ReadsOneMore (F.reads files.old) (F.reads files.new)
        visited.old.places.keys visited.new.places.keys }
    ensures counted { OnOk result (CountsMet cache.old cache.new
        visited.old.places.keys visited.new.places.keys) }
{
    prove!(visited.places.len() < usize::MAX);
    if !is_apart(&visited.places, at, setup.place.block_length) {
        return Err(TreeFault::Damaged { at });
    }
    let node = load_node(setup, files, cache, at)?;
    visited.places.insert(at)?;
    Ok(node.open(at))
}
