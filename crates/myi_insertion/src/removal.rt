//! Taking a pair out of a tree.
//!
//! `without_pair` goes down one path of pages to the pair. Where it stands in a node, the last pair below the
//! child before it takes its place (`without_last`). Both answer what the page that they were asked for is to
//! have, which is not written: the page above writes it (`write_child`), or, where no pair is left on it, writes
//! a page beside it with what is left of both, and gives its own to the room (`join_child`).

ghost use Rattle.std.specs.Prelude.{◌≡◌, ◌+◌, ◌∷◌, ◌++◌, ◌^◌, ◌<◌, ◌≤◌, ℕ, suc, false, List, [], Some, length, slice_index_or, IfOk, IfErr, IfSome, IfNone, OnOk, IsTrue};
ghost use Rattle.std.specs.List.Sorted.{IsStrictlySortedBy};
ghost use Rattle.myi_base.specs.Holding.{IfTold, Told, OthersStay};
ghost use Rattle.myi_base.specs.Causes.{HasCause};
ghost use Rattle.myi_keycache.specs.Caching.{Stays};
ghost use Rattle.myi_keypage.specs.Page.{IsPlace};
ghost use Rattle.myi_keylist.specs.declared.pair.Pair.{Pair};
ghost use Rattle.myi_keylist.specs.PairOrder.{pair_cmp};
ghost use Rattle.myi_btree.specs.declared.fault.TreeFault.TheVariants.{File};
ghost use Rattle.myi_btree.specs.Walk.{Walked, walk_of, content};
ghost use Rattle.myi_btree.specs.Sizes.{IsPlaced};
ghost use Rattle.myi_btree.specs.Faults.{DamagedAt, IsFileOrMemory};
ghost use Rattle.myi_btree.specs.CachedTrees.{node_lent, ReadsOnly};
ghost use Rattle.myi_search.specs.Counting.{CountsOn};
ghost use Rattle.myi_insertion.specs.Rooms.{IsWhole};
ghost use Rattle.myi_insertion.specs.Strips.{StandFor};
ghost use Rattle.myi_insertion.specs.CachedChanges.{CanChange};
ghost use Rattle.myi_insertion.specs.CachedTree.{IsTree};
ghost use Rattle.myi_insertion.specs.Removal.{has_pair, without_pair, Removed};
ghost use Rattle.myi_insertion.specs.Written.{CanWrite};
ghost use Rattle.myi_insertion.specs.Damage.{IsInFile, AreNeighbours, IsNearPath, IsNearPair, goes_last, IsDamage};
ghost use Rattle.myi_insertion.specs.Openings.{IsLeftOver, IsOnePair, IsPending, CanPend, Opened, TakenOut, Sought, Planted};

use crate::insertion::{MOST_LEVELS, Task, raise};
use crate::load::load;
use crate::page::{PageData, is_at, join_pages, pair_at, place_of};
use crate::room::give_page;
use crate::settle::{Setup, settle};
use myi_btree::{Place, Room, TreeFault};
use myi_io::Files;
use myi_keycache::KeyCache;
use myi_keylist::{Pair, PairList};
use std::alloc::{AllocError, Global};

/// A node, and what the page of its child `i` is to have, which is not written.
#[derive(Clone, Copy)]
pub(crate) struct Pending<'a> {
    pub(crate) page: &'a PageData,
    pub(crate) i: usize,
    pub(crate) inner: &'a PageData,
}

// The child beside child `i`: the one before it, or the one behind the first.
fn place_beside(children: &[u64], i: usize) -> u64
    requires inside { i < length children.now }
    requires others { 2 ≤ length children.now }
    ensures first { i ≡ 0 → result ≡ slice_index_or children.now 1 0 }
    ensures second { (left : ℕ) → i ≡ suc left → result ≡ slice_index_or children.now left 0 }
{
    if i == 0 { children[1] } else { children[i - 1] }
}

// What is to stand on the page beside the child, of which no pair is left: what stands there, the pair between
// them, which is pair `left` of the node, and what is left of the child.
fn both(
    alloc: Global,
    pending: &Pending,
    left: usize,
    other: &PageData,
) -> Result<PageData, AllocError>
    requires inside { left < length pending.now.page.now.pairs }
    ensures first { (pair : Pair) → IfOk result (λ page. left ≡ pending.now.i → (page.pairs
        ≡ pending.now.inner.now.pairs ++ slice_index_or pending.now.page.now.pairs left pair
        ∷ other.now.pairs) × (page.children.items
        ≡ pending.now.inner.now.children.items ++ other.now.children.items)) }
    ensures second { (pair : Pair) → IfOk result (λ page. (left ≡ pending.now.i → ⊥) → (page.pairs
        ≡ other.now.pairs ++ slice_index_or pending.now.page.now.pairs left pair
        ∷ pending.now.inner.now.pairs) × (page.children.items
        ≡ other.now.children.items ++ pending.now.inner.now.children.items)) }
{
    let page = pending.page;
    if left == pending.i {
        let first = join_pages(alloc, pending.inner, &page.pairs, left, other)?;
        return Ok(first);
    }
    let second = join_pages(alloc, other, &page.pairs, left, pending.inner)?;
    Ok(second)
}

// Writes what is left of a child without a pair on a page beside it, gives its own page to the room, and answers
// what the node is to have.
fn join_child<F: Files>(
    setup: Setup,
    files: &mut F,
    cache: &mut KeyCache,
    room: &mut Room,
    pending: &Pending,
) -> Result<PageData, TreeFault>
    requires writable { IsTrue F.writable }
    requires placed { IsPlaced setup.place }
    requires whole { IsWhole room.old }
    requires pending { CanPend setup.place.rec_ref pending.now }
    requires empty { length pending.now.inner.now.pairs ≡ 0 }
    ensures written { IfOk result (λ page. IfTold (F.holds files.old) (λ m. (height at : ℕ)
        (xs : List Pair) (pages : List ℕ)
        → IsPending (node_lent setup.place cache.old m) height pending.now xs pages
        → CanChange setup.place cache.old m (at ∷ pages) room.old
        → Opened setup.place cache.old m (at ∷ pages) room.old (F.holds files.new) cache.new
        room.new at (suc height) page.pairs page.children.items xs
        (slice_index_or pending.now.page.now.children.items pending.now.i 0 ∷ []))) }
    ensures never { IfErr result (DamagedAt (λ p. IfTold (F.holds files.old) (λ m. (height at : ℕ)
        (xs : List Pair) (pages : List ℕ)
        → IsPending (node_lent setup.place cache.old m) height pending.now xs pages
        → CanChange setup.place cache.old m (at ∷ pages) room.old → ⊥))) }
    ensures beside { IfErr result (DamagedAt (λ p. AreNeighbours
        (slice_index_or pending.now.page.now.children.items pending.now.i 0) p
        pending.now.page.now.children.items)) }
    ensures shape { IfOk result (IsLeftOver setup.place.rec_ref) }
    ensures whole { IsWhole room.new }
    ensures others { Told (F.holds files.old) (F.holds files.new) (OthersStay cache.old.name) }
    ensures name { cache.new.name ≡ cache.old.name }
    ensures counted { CountsOn cache.old cache.new }
    ensures cause { HasCause File (F.faults files.old) (F.faults files.new) result }
    ensures reads { F.reads files.old ≤ F.reads files.new }
{
    let page = pending.page;
    let i = pending.i;
    let left = i.saturating_sub(1);
    let beside = place_beside(&page.children, i);
    let other = load(setup, files, cache, beside)?;
    if other.children.is_empty() != pending.inner.children.is_empty() {
        return Err(TreeFault::Damaged { at: beside });
    }
    let joined = both(setup.alloc, pending, left, &other)?;
    let strip = settle(setup, files, cache, room, beside, &joined)?;
    give_page(room, page.children[i], setup.place.block_length)?;
    let made = page.with_joined(setup.alloc, left, &strip.places, &strip.separators)?;
    Ok(made)
}

// Writes the child, and answers what the node is to have.
fn write_child<F: Files>(
    setup: Setup,
    files: &mut F,
    cache: &mut KeyCache,
    room: &mut Room,
    pending: &Pending,
) -> Result<PageData, TreeFault>
    requires writable { IsTrue F.writable }
    requires placed { IsPlaced setup.place }
    requires whole { IsWhole room.old }
    requires pending { CanPend setup.place.rec_ref pending.now }
    ensures written { IfOk result (λ page. IfTold (F.holds files.old) (λ m. (height at : ℕ)
        (xs : List Pair) (pages : List ℕ)
        → IsPending (node_lent setup.place cache.old m) height pending.now xs pages
        → CanChange setup.place cache.old m (at ∷ pages) room.old
        → Opened setup.place cache.old m (at ∷ pages) room.old (F.holds files.new) cache.new
        room.new at (suc height) page.pairs page.children.items xs
        (slice_index_or pending.now.page.now.children.items pending.now.i 0 ∷ []))) }
    ensures never { IfErr result (DamagedAt (λ p. IfTold (F.holds files.old) (λ m. (height at : ℕ)
        (xs : List Pair) (pages : List ℕ)
        → IsPending (node_lent setup.place cache.old m) height pending.now xs pages
        → CanChange setup.place cache.old m (at ∷ pages) room.old → ⊥))) }
    ensures beside { IfErr result (DamagedAt (λ p. AreNeighbours
        (slice_index_or pending.now.page.now.children.items pending.now.i 0) p
        pending.now.page.now.children.items)) }
    ensures shape { IfOk result (IsLeftOver setup.place.rec_ref) }
    ensures whole { IsWhole room.new }
    ensures others { Told (F.holds files.old) (F.holds files.new) (OthersStay cache.old.name) }
    ensures name { cache.new.name ≡ cache.old.name }
    ensures counted { CountsOn cache.old cache.new }
    ensures cause { HasCause File (F.faults files.old) (F.faults files.new) result }
    ensures reads { F.reads files.old ≤ F.reads files.new }
{
    if pending.inner.pairs.len() == 0 {
        let joined = join_child(setup, files, cache, room, pending)?;
        return Ok(joined);
    }
    let page = pending.page;
    let child = page.children[pending.i];
    let strip = settle(setup, files, cache, room, child, pending.inner)?;
    let made = page.with_strip(setup.alloc, pending.i, &strip.places, &strip.separators)?;
    Ok(made)
}

// Takes the last pair out of the tree at a place, which has at most so many levels below its root, and answers
// what the page there is to have, and the pair.
fn without_last<F: Files>(
    setup: Setup,
    files: &mut F,
    cache: &mut KeyCache,
    room: &mut Room,
    at: u64,
    levels: u64,
) -> Result<(PageData, PairList), TreeFault>
    requires writable { IsTrue F.writable }
    requires placed { IsPlaced setup.place }
    requires whole { IsWhole room.old }
    ensures opened { IfOk result (λ left. IfTold (F.holds files.old) (λ m. (height : ℕ) (w : Walked)
        → walk_of (node_lent setup.place cache.old m) height at ≡ Some w
        → CanChange setup.place cache.old m w.pages room.old
        → (xs : List Pair) × (content w ≡ xs ++ left.1)
        × Opened setup.place cache.old m w.pages room.old (F.holds files.new) cache.new room.new at
        height left.0.pairs left.0.children.items xs w.pages)) }
    ensures never { IfErr result (DamagedAt (λ p. IfTold (F.holds files.old) (λ m. (height : ℕ)
        (w : Walked) → walk_of (node_lent setup.place cache.old m) height at ≡ Some w
        → CanChange setup.place cache.old m w.pages room.old → ⊥))) }
    ensures damaged { IfErr result (DamagedAt (λ p. IfTold (F.holds files.old) (λ m.
        IsInFile cache.old m → IsNearPath (node_lent setup.place cache.old m) goes_last at p))) }
    ensures shape { IfOk result (λ left. IsLeftOver setup.place.rec_ref left.0) }
    ensures one { IfOk result (λ left. IsOnePair setup.place.rec_ref left.1) }
    ensures whole { IsWhole room.new }
    ensures others { Told (F.holds files.old) (F.holds files.new) (OthersStay cache.old.name) }
    ensures name { cache.new.name ≡ cache.old.name }
    ensures counted { CountsOn cache.old cache.new }
    ensures cause { HasCause File (F.faults files.old) (F.faults files.new) result }
    ensures reads { F.reads files.old ≤ F.reads files.new }
{
    let page = load(setup, files, cache, at)?;
    let count = page.pairs.len();
    if page.children.is_empty() {
        let last = pair_at(setup.alloc, &page.pairs, count - 1)?;
        let left = page.without_pair(setup.alloc, count - 1)?;
        return Ok((left, last));
    }
    if levels == 0 {
        return Err(TreeFault::Memory);
    }
    let child = page.children[count];
    let (inner, last) = without_last(setup, files, cache, room, child, levels - 1)?;
    let pending = Pending {
        page: &page,
        i: count,
        inner: &inner,
    };
    let left = write_child(setup, files, cache, room, &pending)?;
    Ok((left, last))
}

// Takes the pair out of the tree at a place, which has at most so many levels below its root, and answers what
// the page there is to have, or None where the pair is not there.
fn without_pair<F: Files>(
    task: &Task,
    files: &mut F,
    cache: &mut KeyCache,
    room: &mut Room,
    at: u64,
    levels: u64,
) -> Result<Option<PageData>, TreeFault>
    requires writable { IsTrue F.writable }
    requires placed { IsPlaced task.now.setup.place }
    requires whole { IsWhole room.old }
    ensures taken { IfOk result (λ page. IfSome page (λ page. IfTold (F.holds files.old) (λ m.
        (height : ℕ) (w : Walked)
        → walk_of (node_lent task.now.setup.place cache.old m) height at ≡ Some w
        → CanChange task.now.setup.place cache.old m w.pages room.old
        → IsStrictlySortedBy pair_cmp (content w)
        → TakenOut task.now.pair.now task.now.setup.place cache.old m w room.old
        (F.holds files.new) cache.new room.new at height page.pairs page.children.items))) }
    ensures sought { IfOk result (λ page. IfNone page (IfTold (F.holds files.old) (λ m. (height : ℕ)
        (w : Walked) → walk_of (node_lent task.now.setup.place cache.old m) height at ≡ Some w
        → CanChange task.now.setup.place cache.old m w.pages room.old
        → IsStrictlySortedBy pair_cmp (content w)
        → Sought task.now.pair.now task.now.setup.place cache.old m w room.old
        (F.holds files.new) cache.new))) }
    ensures never { IfErr result (DamagedAt (λ p. IfTold (F.holds files.old) (λ m. (height : ℕ)
        (w : Walked) → walk_of (node_lent task.now.setup.place cache.old m) height at ≡ Some w
        → CanChange task.now.setup.place cache.old m w.pages room.old
        → IsStrictlySortedBy pair_cmp (content w) → ⊥))) }
    ensures damaged { IfErr result (DamagedAt (λ p. IfTold (F.holds files.old) (λ m.
        IsInFile cache.old m → IsNearPair (node_lent task.now.setup.place cache.old m)
        task.now.pair.now at p))) }
    ensures shape { IfOk result (λ page. IfSome page (IsLeftOver task.now.setup.place.rec_ref)) }
    ensures at { OnOk result (IsPlace at) }
    ensures kept { IfOk result (λ page. IfNone page (room.new ≡ room.old)) }
    ensures quiet { IfOk result (λ page. IfNone page (ReadsOnly
        (F.holds files.old) (F.holds files.new) cache.old cache.new)) }
    ensures whole { IsWhole room.new }
    ensures others { Told (F.holds files.old) (F.holds files.new) (OthersStay cache.old.name) }
    ensures name { cache.new.name ≡ cache.old.name }
    ensures counted { CountsOn cache.old cache.new }
    ensures cause { HasCause File (F.faults files.old) (F.faults files.new) result }
    ensures reads { F.reads files.old ≤ F.reads files.new }
{
    let setup = task.setup;
    let page = load(setup, files, cache, at)?;
    let code = task.pair.key.code();
    let i = place_of(&page.pairs, code, task.pair.row);
    let found = is_at(&page.pairs, i, code, task.pair.row);
    if page.children.is_empty() {
        if !found {
            return Ok(None);
        }
        let leaf = page.without_pair(setup.alloc, i)?;
        return Ok(Some(leaf));
    }
    if levels == 0 {
        return Err(TreeFault::Memory);
    }
    let child = page.children[i];
    if found {
        let (inner, last) = without_last(setup, files, cache, room, child, levels - 1)?;
        let node = page.with_other(setup.alloc, i, &last)?;
        let pending = Pending {
            page: &node,
            i,
            inner: &inner,
        };
        let made = write_child(setup, files, cache, room, &pending)?;
        return Ok(Some(made));
    }
    let taken = without_pair(task, files, cache, room, child, levels - 1)?;
    let Some(inner) = taken else {
        return Ok(None);
    };
    let pending = Pending {
        page: &page,
        i,
        inner: &inner,
    };
    let left = write_child(setup, files, cache, room, &pending)?;
    Ok(Some(left))
}

// Writes what the page of a root is to have, and answers the new root.
fn write_root<F: Files>(
    setup: Setup,
    files: &mut F,
    cache: &mut KeyCache,
    room: &mut Room,
    at: u64,
    page: &PageData,
) -> Result<Option<u64>, TreeFault>
    requires writable { IsTrue F.writable }
    requires placed { IsPlaced setup.place }
    requires whole { IsWhole room.old }
    requires at { IsPlace at }
    requires page { IsLeftOver setup.place.rec_ref page.now }
    ensures rooted { IfOk result (λ root. IfTold (F.holds files.old) (λ m. (height : ℕ)
        (xs : List Pair) (below : List ℕ)
        → StandFor (node_lent setup.place cache.old m) height page.now.pairs
        page.now.children.items xs below
        → CanChange setup.place cache.old m (at ∷ below) room.old
        → Planted setup.place cache.old m (at ∷ below) room.old (F.holds files.new) cache.new
        room.new root xs (at ∷ []))) }
    ensures faults { IfErr result IsFileOrMemory }
    ensures whole { IsWhole room.new }
    ensures others { Told (F.holds files.old) (F.holds files.new) (OthersStay cache.old.name) }
    ensures name { cache.new.name ≡ cache.old.name }
    ensures counted { CountsOn cache.old cache.new }
    ensures cause { HasCause File (F.faults files.old) (F.faults files.new) result }
    ensures reads { F.reads files.old ≤ F.reads files.new }
{
    if page.pairs.len() == 0 {
        give_page(room, at, setup.place.block_length)?;
        return Ok(page.children.first().copied());
    }
    let strip = settle(setup, files, cache, room, at, page)?;
    let root = raise(setup, files, cache, room, strip, MOST_LEVELS)?;
    Ok(Some(root))
}

/// Takes a pair out of the tree at a place, and moves its root where it has a new one. Answers whether the pair
/// was there. `Damaged` comes where no page stands on the path to the pair and on to the one before it, or at a
/// neighbour of a child on it.
pub fn remove<F: Files>(
    alloc: Global,
    place: &mut Place,
    files: &mut F,
    cache: &mut KeyCache,
    room: &mut Room,
    pair: &Pair,
) -> Result<bool, TreeFault>
    requires writable { IsTrue F.writable }
    requires placed { IsPlaced place.old }
    requires whole { IsWhole room.old }
    ensures there { IfOk result (λ there. IfTold (F.holds files.old) (λ m. (xs : List Pair)
        (pages : List ℕ) → IsTree place.old cache.old m place.old.root xs pages
        → CanChange place.old cache.old m pages room.old → IsStrictlySortedBy pair_cmp xs
        → there ≡ has_pair pair.now xs)) }
    ensures removed { OnOk result (IfTold (F.holds files.old) (λ m. (xs : List Pair)
        (pages : List ℕ) → IsTree place.old cache.old m place.old.root xs pages
        → CanChange place.old cache.old m pages room.old → IsStrictlySortedBy pair_cmp xs
        → Removed place.old cache.old m pages room.old (F.holds files.new) cache.new room.new
        place.new.root (without_pair pair.now xs))) }

    // Where the pair was not there nothing changes: nothing was put, and the same is lent.
    ensures kept { IfOk result (λ there. there ≡ false → (place.new ≡ place.old)
        × (room.new ≡ room.old)) }
    ensures quiet { IfOk result (λ there. there ≡ false → ReadsOnly
        (F.holds files.old) (F.holds files.new) cache.old cache.new) }
    ensures same { IfOk result (λ there. there ≡ false → Told
        (F.holds files.old) (F.holds files.new) (λ m n. (xs : List Pair) (pages : List ℕ)
        → IsTree place.old cache.old m place.old.root xs pages
        → CanChange place.old cache.old m pages room.old → IsStrictlySortedBy pair_cmp xs
        → Stays cache.old cache.new m n)) }

    ensures never { IfErr result (DamagedAt (λ p. IfTold (F.holds files.old) (λ m. (xs : List Pair)
        (pages : List ℕ) → IsTree place.old cache.old m place.old.root xs pages
        → CanChange place.old cache.old m pages room.old → IsStrictlySortedBy pair_cmp xs
        → ⊥))) }
    ensures damaged { IfErr result (DamagedAt (λ at. IfTold (F.holds files.old) (λ m.
        IsInFile cache.old m → IsDamage (node_lent place.old cache.old m) pair.now place.old.root
        at))) }
    ensures length { place.new.block_length ≡ place.old.block_length }
    ensures pointers { place.new.rec_ref ≡ place.old.rec_ref }
    ensures whole { IsWhole room.new }
    ensures others { Told (F.holds files.old) (F.holds files.new) (OthersStay cache.old.name) }
    ensures name { cache.new.name ≡ cache.old.name }
    ensures counted { CountsOn cache.old cache.new }
    ensures cause { HasCause File (F.faults files.old) (F.faults files.new) result }
    ensures reads { F.reads files.old ≤ F.reads files.new }
{
    let setup = Setup {
        alloc,
        place: *place,
    };
    let Some(root) = place.root else {
        return Ok(false);
    };
    let task = Task { setup, pair };
    let taken = without_pair(&task, files, cache, room, root, MOST_LEVELS)?;
    let Some(page) = taken else {
        return Ok(false);
    };
    let top = write_root(setup, files, cache, room, root, &page)?;
    place.root = top;
    Ok(true)
}
