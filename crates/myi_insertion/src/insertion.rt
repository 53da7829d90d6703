//! Putting a pair into a tree.
//!
//! `insert_at` goes down one path of pages to the leaf that the pair goes into, and writes that leaf; where it
//! is cut, the page above it is written too, and so on up; `raise` puts pages above a root that became several.
ghost use Rattle.std.specs.Prelude.{◌≡◌, ◌+◌, ◌^◌, ◌<◌, ◌≤◌, ◌∷◌, [], ℕ, List, Some, None, false, is_some, length, IfOk, IfErr, IfSome, IfNone, OnOk, IsTrue};
ghost use Rattle.std.specs.List.Sorted.{IsStrictlySortedBy};
ghost use Rattle.myi_base.specs.Holding.{IfTold, Told, OthersStay};
ghost use Rattle.myi_base.specs.Causes.{HasCause};
ghost use Rattle.myi_keylist.specs.PairOrder.{pair_cmp, put_pair};
ghost use Rattle.myi_btree.specs.declared.fault.TreeFault.TheVariants.{File};
ghost use Rattle.myi_keypage.specs.Page.{IsPlace};
ghost use Rattle.myi_keypage.specs.Fitting.{used_length};
ghost use Rattle.myi_btree.specs.Nodes.{entries_of, node_in};
ghost use Rattle.myi_btree.specs.Walk.{Walked, node_with, walk_of, content};
ghost use Rattle.myi_btree.specs.Sizes.{IsPlaced};
ghost use Rattle.myi_btree.specs.Faults.{DamagedAt, IsFileOrMemory};
ghost use Rattle.myi_btree.specs.CachedTrees.{node_lent};
ghost use Rattle.myi_search.specs.Counting.{CountsOn};
ghost use Rattle.myi_insertion.specs.Rooms.{IsWhole};
ghost use Rattle.myi_insertion.specs.CachedChanges.{CanChange};
ghost use Rattle.myi_insertion.specs.Written.{IsStripOf};
ghost use Rattle.myi_keylist.specs.declared.pair.Pair.{Pair};
ghost use Rattle.myi_insertion.specs.Spots.{IsOnPage, IsSpot, with_pair};
ghost use Rattle.myi_insertion.specs.Strips.{IsStrip, StandFor};
ghost use Rattle.myi_insertion.specs.CachedTree.{IsTree, Inserted};
ghost use Rattle.myi_insertion.specs.Filled.{KeepsFilled};
ghost use Rattle.myi_insertion.specs.Steps.{PutsIn, Lays, Grafts, Rooted};
ghost use Rattle.myi_insertion.specs.Damage.{IsInFile, LacksPage, goes_behind, IsMissing};

use crate::page::PageData;
use crate::pass::{Passed, pass};
use crate::room::take_page;
use crate::settle::{Setup, Strip, settle};
use myi_btree::{Place, Room, TreeFault, laid_pages_are_written};
use myi_io::Files;
use myi_keycache::KeyCache;
use myi_keylist::{Pair, PairList};
use myi_keypage::{LentEntry, entries_fit, write_with};
use std::alloc::{AllocError, Global};

/// The most levels that a tree has: one with more levels has more pairs than there are places for pages.
pub(crate) const MOST_LEVELS: u64 = 64;

/// The pair that goes into a tree.
#[derive(Clone, Copy)]
pub(crate) struct Task<'a> {
    pub(crate) setup: Setup,
    pub(crate) pair: &'a Pair,
}

// The bytes of a leaf that was passed with the pair in it, and None where it does not fit.
fn leaf_bytes(task: &Task, page: &Passed) -> Result<Option<Vec<u8>>, AllocError>
    requires placed { IsPlaced task.now.setup.place }
    requires row { task.now.pair.now.row < 256 ^ task.now.setup.place.rec_ref }
    requires page { IsOnPage task.now.setup.place.rec_ref page.now.bytes.items page.now.spot }
    requires spot { IsTrue (is_some (node_in task.now.setup.place.rec_ref page.now.bytes.items))
        → IsSpot task.now.setup.place.rec_ref page.now.bytes.items task.now.pair.now
        page.now.spot }
    requires leaf { page.now.spot.child ≡ None }
    requires long { length page.now.bytes.items ≡ task.now.setup.place.block_length }
    ensures bytes { IfOk result (λ made. IfSome made (λ bytes. (pairs : List Pair)
        → node_in task.now.setup.place.rec_ref page.now.bytes.items ≡ Some (node_with pairs [])
        → node_in task.now.setup.place.rec_ref bytes.items ≡ Some (node_with
        (with_pair page.now.spot.index task.now.pair.now pairs) []))) }
    ensures long { IfOk result (λ made. IfSome made (λ bytes. length bytes.items
        ≡ task.now.setup.place.block_length)) }
    ensures full { IfOk result (λ made. IfNone made ((pairs : List Pair)
        → node_in task.now.setup.place.rec_ref page.now.bytes.items ≡ Some (node_with pairs [])
        → task.now.setup.place.block_length < used_length task.now.setup.place.rec_ref false
        (entries_of (with_pair page.now.spot.index task.now.pair.now pairs)))) }
{
    laid_pages_are_written();
    let place = task.setup.place;
    let entry = LentEntry {
        key: task.pair.key.code(),
        row: task.pair.row,
    };
    let mut bytes = vec![in task.setup.alloc; 0u8; place.block_length as usize]?;
    let fits = write_with(
        &page.bytes,
        page.spot.index,
        &entry,
        place.rec_ref,
        &mut bytes,
    );
    if !fits {
        return Ok(None);
    }
    Ok(Some(bytes))
}

// Writes a leaf that was passed with the pair in it.
fn put_leaf<F: Files>(
    task: &Task,
    files: &mut F,
    cache: &mut KeyCache,
    room: &mut Room,
    at: u64,
    page: &Passed,
) -> Result<Strip, TreeFault>
    requires writable { IsTrue F.writable }
    requires placed { IsPlaced task.now.setup.place }
    requires whole { IsWhole room.old }
    requires at { IsPlace at }
    requires row { task.now.pair.now.row < 256 ^ task.now.setup.place.rec_ref }
    requires page { IsOnPage task.now.setup.place.rec_ref page.now.bytes.items page.now.spot }
    requires spot { IsTrue (is_some (node_in task.now.setup.place.rec_ref page.now.bytes.items))
        → IsSpot task.now.setup.place.rec_ref page.now.bytes.items task.now.pair.now
        page.now.spot }
    requires leaf { page.now.spot.child ≡ None }
    requires long { length page.now.bytes.items ≡ task.now.setup.place.block_length }
    ensures settles { IfOk result (λ strip. IfTold (F.holds files.old) (λ m. (pairs : List Pair)
        → node_in task.now.setup.place.rec_ref page.now.bytes.items ≡ Some (node_with pairs [])
        → (height : ℕ) (xs : List Pair) (below : List ℕ)
        → StandFor (node_lent task.now.setup.place cache.old m) height
        (with_pair page.now.spot.index task.now.pair.now pairs) [] xs below
        → CanChange task.now.setup.place cache.old m (at ∷ below) room.old
        → Lays task.now.setup.place cache.old m at below room.old (F.holds files.new) cache.new
        room.new (node_with (with_pair page.now.spot.index task.now.pair.now pairs) []) height xs
        strip.places.items strip.separators)) }
    ensures shape { IfOk result (λ strip. IsStripOf task.now.setup.place.rec_ref at
        strip.places.items strip.separators) }
    ensures whole { IsWhole room.new }
    ensures others { Told (F.holds files.old) (F.holds files.new) (OthersStay cache.old.name) }
    ensures name { cache.new.name ≡ cache.old.name }
    ensures counted { CountsOn cache.old cache.new }
    ensures damaged { IfErr result (DamagedAt (λ p. (p ≡ at)
        × (node_in task.now.setup.place.rec_ref page.now.bytes.items ≡ None))) }
    ensures cause { HasCause File (F.faults files.old) (F.faults files.new) result }
    ensures reads { F.reads files.old ≤ F.reads files.new }
{
    let setup = task.setup;
    if let Some(bytes) = leaf_bytes(task, page)? {
        cache.put(files, at, &bytes)?;
        let same = Strip::of_page(setup.alloc, at)?;
        return Ok(same);
    }
    let leaf = page.read(setup.alloc, setup.place.rec_ref, at)?;
    let grown = leaf.with_pair(
        setup.alloc,
        page.spot.index,
        task.pair.key.code(),
        task.pair.row,
    )?;
    let strip = settle(setup, files, cache, room, at, &grown)?;
    Ok(strip)
}

/// Puts the pair into the tree at a place, which has at most so many levels below its root.
pub(crate) fn insert_at<F: Files>(
    task: &Task,
    files: &mut F,
    cache: &mut KeyCache,
    room: &mut Room,
    at: u64,
    levels: u64,
) -> Result<Strip, TreeFault>
    requires writable { IsTrue F.writable }
    requires placed { IsPlaced task.now.setup.place }
    requires whole { IsWhole room.old }
    requires row { task.now.pair.now.row < 256 ^ task.now.setup.place.rec_ref }
    ensures stands { IfOk result (λ strip. IfTold (F.holds files.old) (λ m. (height : ℕ) (w : Walked)
        → walk_of (node_lent task.now.setup.place cache.old m) height at ≡ Some w
        → CanChange task.now.setup.place cache.old m w.pages room.old
        → IsStrictlySortedBy pair_cmp (content w)
        → PutsIn task.now.setup.place cache.old m w.pages room.old (F.holds files.new) cache.new
        room.new at height (put_pair task.now.pair.now (content w)) strip.places.items
        strip.separators)) }
    ensures never { IfErr result (DamagedAt (λ p. IfTold (F.holds files.old) (λ m. (height : ℕ)
        (w : Walked) → walk_of (node_lent task.now.setup.place cache.old m) height at ≡ Some w
        → CanChange task.now.setup.place cache.old m w.pages room.old
        → IsStrictlySortedBy pair_cmp (content w) → ⊥))) }
    ensures damaged { IfErr result (DamagedAt (λ p. IfTold (F.holds files.old) (λ m.
        IsInFile cache.old m → LacksPage (node_lent task.now.setup.place cache.old m)
        (goes_behind task.now.pair.now) at p))) }
    ensures shape { IfOk result (λ strip. IsStripOf task.now.setup.place.rec_ref at
        strip.places.items strip.separators) }
    ensures whole { IsWhole room.new }
    ensures others { Told (F.holds files.old) (F.holds files.new) (OthersStay cache.old.name) }
    ensures name { cache.new.name ≡ cache.old.name }
    ensures counted { CountsOn cache.old cache.new }
    ensures cause { HasCause File (F.faults files.old) (F.faults files.new) result }
    ensures reads { F.reads files.old ≤ F.reads files.new }
{
    entries_fit();
    let setup = task.setup;
    let page = pass(task, files, cache, at)?;
    let Some(child) = page.spot.child else {
        let strip = put_leaf(task, files, cache, room, at, &page)?;
        return Ok(strip);
    };
    if levels == 0 {
        return Err(TreeFault::Memory);
    }
    let strip = match insert_at(task, files, cache, room, child, levels - 1) {
        Ok(strip) => strip,
        Err(fault) => {
            return Err(page.fault_from(setup.alloc, setup.place.rec_ref, at, fault));
        }
    };
    if strip.places.len() == 1 {
        let same = Strip::of_page(setup.alloc, at)?;
        return Ok(same);
    }
    let node = page.read(setup.alloc, setup.place.rec_ref, at)?;
    let grown = node.with_strip(
        setup.alloc,
        page.spot.index,
        &strip.places,
        &strip.separators,
    )?;
    let made = settle(setup, files, cache, room, at, &grown)?;
    Ok(made)
}

// Puts the pair into the tree, or makes the first page of one that has none.
fn put_in<F: Files>(
    task: &Task,
    files: &mut F,
    cache: &mut KeyCache,
    room: &mut Room,
) -> Result<Strip, TreeFault>
    requires writable { IsTrue F.writable }
    requires placed { IsPlaced task.now.setup.place }
    requires whole { IsWhole room.old }
    requires row { task.now.pair.now.row < 256 ^ task.now.setup.place.rec_ref }
    ensures stands { IfOk result (λ strip. IfTold (F.holds files.old) (λ m. (xs : List Pair)
        (pages : List ℕ)
        → IsTree task.now.setup.place cache.old m task.now.setup.place.root xs pages
        → CanChange task.now.setup.place cache.old m pages room.old
        → IsStrictlySortedBy pair_cmp xs
        → (height : ℕ) × Grafts task.now.setup.place cache.old m pages room.old
        (F.holds files.new) cache.new room.new height (put_pair task.now.pair.now xs)
        strip.places.items strip.separators)) }
    ensures never { IfErr result (DamagedAt (λ p. IfTold (F.holds files.old) (λ m. (xs : List Pair)
        (pages : List ℕ)
        → IsTree task.now.setup.place cache.old m task.now.setup.place.root xs pages
        → CanChange task.now.setup.place cache.old m pages room.old
        → IsStrictlySortedBy pair_cmp xs → ⊥))) }
    ensures damaged { IfErr result (DamagedAt (λ at. IfTold (F.holds files.old) (λ m.
        IsInFile cache.old m → IsMissing (node_lent task.now.setup.place cache.old m)
        task.now.pair.now task.now.setup.place.root at))) }
    ensures shape { IfOk result (λ strip. (at : ℕ) × IsStripOf task.now.setup.place.rec_ref at
        strip.places.items strip.separators) }
    ensures whole { IsWhole room.new }
    ensures others { Told (F.holds files.old) (F.holds files.new) (OthersStay cache.old.name) }
    ensures name { cache.new.name ≡ cache.old.name }
    ensures counted { CountsOn cache.old cache.new }
    ensures cause { HasCause File (F.faults files.old) (F.faults files.new) result }
    ensures reads { F.reads files.old ≤ F.reads files.new }
{
    let setup = task.setup;
    if let Some(root) = setup.place.root {
        let strip = insert_at(task, files, cache, room, root, MOST_LEVELS)?;
        return Ok(strip);
    }
    let at = take_page(room, setup.place.block_length)?;
    let mut pairs = PairList::new(setup.alloc);
    pairs.push(task.pair.key.code(), task.pair.row)?;
    let page = PageData {
        pairs,
        children: Vec::new(setup.alloc),
    };
    let strip = settle(setup, files, cache, room, at, &page)?;
    Ok(strip)
}

/// Puts pages above trees side by side until they are one, and answers the place of its root.
pub(crate) fn raise<F: Files>(
    setup: Setup,
    files: &mut F,
    cache: &mut KeyCache,
    room: &mut Room,
    strip: Strip,
    levels: u64,
) -> Result<u64, TreeFault>
    requires writable { IsTrue F.writable }
    requires placed { IsPlaced setup.place }
    requires whole { IsWhole room.old }
    requires shape { (at : ℕ) × IsStripOf setup.place.rec_ref at strip.places.items
        strip.separators }
    ensures rooted { IfOk result (λ root. IfTold (F.holds files.old) (λ m. (height : ℕ)
        (xs : List Pair) (pages : List ℕ)
        → IsStrip (node_lent setup.place cache.old m) height strip.places.items strip.separators
        xs pages → CanChange setup.place cache.old m pages room.old
        → Rooted setup.place cache.old m pages room.old (F.holds files.new) cache.new room.new
        xs root)) }
    ensures alone { IfOk result (λ root. (at : ℕ) → strip.places.items ≡ at ∷ [] → root ≡ at) }
    ensures faults { IfErr result IsFileOrMemory }
    ensures whole { IsWhole room.new }
    ensures others { Told (F.holds files.old) (F.holds files.new) (OthersStay cache.old.name) }
    ensures name { cache.new.name ≡ cache.old.name }
    ensures counted { CountsOn cache.old cache.new }
    ensures cause { HasCause File (F.faults files.old) (F.faults files.new) result }
    ensures reads { F.reads files.old ≤ F.reads files.new }
{
    if strip.places.len() == 1 {
        return Ok(strip.places[0]);
    }
    if levels == 0 {
        return Err(TreeFault::Memory);
    }
    let at = take_page(room, setup.place.block_length)?;
    let page = strip.into_page();
    let above = settle(setup, files, cache, room, at, &page)?;
    let root = raise(setup, files, cache, room, above, levels - 1)?;
    Ok(root)
}

/// Puts a pair that is not there into the tree at a place, and moves its root where it has a new one. `Damaged`
/// comes at the place on the path of the pair where no page stands; a path of more than 64 levels is answered by
/// `Memory`. A key that is no key's code is looked for only on a page that is cut, or above a fault.
pub fn insert<F: Files>(
    alloc: Global,
    place: &mut Place,
    files: &mut F,
    cache: &mut KeyCache,
    room: &mut Room,
    pair: &Pair,
) -> Result<(), TreeFault>
    requires writable { IsTrue F.writable }
    requires placed { IsPlaced place.old }
    requires whole { IsWhole room.old }
    requires row { pair.now.row < 256 ^ place.old.rec_ref }
    ensures inserted { OnOk result (IfTold (F.holds files.old) (λ m. (xs : List Pair)
        (pages : List ℕ) → IsTree place.old cache.old m place.old.root xs pages
        → CanChange place.old cache.old m pages room.old → IsStrictlySortedBy pair_cmp xs
        → Inserted place.old cache.old m pages room.old (F.holds files.new) cache.new room.new
        place.new.root (put_pair pair.now xs))) }

    // A page below the root is filled at least to the half, less two of the longest entries, or it is one that
    // was there and loses nothing.
    ensures filled { OnOk result (IfTold (F.holds files.old) (λ m. (xs : List Pair)
        (pages : List ℕ) → IsTree place.old cache.old m place.old.root xs pages
        → CanChange place.old cache.old m pages room.old → IsStrictlySortedBy pair_cmp xs
        → KeepsFilled place.old cache.old m pages (F.holds files.new) cache.new place.new.root
        (put_pair pair.now xs))) }

    ensures never { IfErr result (DamagedAt (λ p. IfTold (F.holds files.old) (λ m. (xs : List Pair)
        (pages : List ℕ) → IsTree place.old cache.old m place.old.root xs pages
        → CanChange place.old cache.old m pages room.old → IsStrictlySortedBy pair_cmp xs
        → ⊥))) }
    ensures damaged { IfErr result (DamagedAt (λ at. IfTold (F.holds files.old) (λ m.
        IsInFile cache.old m → IsMissing (node_lent place.old cache.old m) pair.now place.old.root
        at))) }
    ensures length { place.new.block_length ≡ place.old.block_length }
    ensures pointers { place.new.rec_ref ≡ place.old.rec_ref }
    ensures whole { IsWhole room.new }
    ensures others { Told (F.holds files.old) (F.holds files.new) (OthersStay cache.old.name) }
    ensures name { cache.new.name ≡ cache.old.name }
    ensures counted { CountsOn cache.old cache.new }
    ensures cause { HasCause File (F.faults files.old) (F.faults files.new) result }
    ensures reads { F.reads files.old ≤ F.reads files.new }
{
    let setup = Setup {
        alloc,
        place: *place,
    };
    let task = Task { setup, pair };
    let strip = put_in(&task, files, cache, room)?;
    let root = raise(setup, files, cache, room, strip, MOST_LEVELS)?;
    place.root = Some(root);
    Ok(())
}
