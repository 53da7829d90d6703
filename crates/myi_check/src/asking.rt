//! `ask_keys`: the trees of all keys of a table, walked one after the other, with each pair asked of its
//! row.
//!
//! Where each pair of a tree is above the one before it and is that of a row, and the pairs are as many as
//! the rows, they are the key list. So no list of keys is held in memory. Where this is not so of
//! some tree nothing is told, and `keys` looks for what is wrong.
ghost use Rattle.std.specs.Prelude.{◌≡◌, ◌<◌, ◌+◌, ◌-◌, ◌^◌, ◌∷◌, ℕ, List, [], true, false, length, All};
ghost use Rattle.std.specs.Prelude.{IfOk, IfErr, OnOk, IfSome, is_some, Some};
ghost use Rattle.myi_base.specs.Holding.{IfTold};
ghost use Rattle.myi_base.specs.Causes.{HasCause};
ghost use Rattle.myi_opening.specs.Opening.{IsCutOff};
ghost use Rattle.myi_defs.specs.ReadDefs.{AreDefs};
ghost use Rattle.myi_header.specs.StateOf.{state_of};
ghost use Rattle.myi_keycache.specs.Kept.{AllWritten};
ghost use Rattle.myi_keycache.specs.Caching.{pages_of, IsCurrent};
ghost use Rattle.myi_btree.specs.Sizes.{IsPlaced};
ghost use Rattle.myi_btree.specs.CachedTrees.{node_lent};
ghost use Rattle.myi_btree.specs.Events.{MeetsTree};
ghost use Rattle.myi_btree.specs.Events as events;
ghost use Rattle.myi_btree.specs.Cursors.{event_of};
ghost use Rattle.myi_check.specs.Rows.{IsScanned, rows_in};
ghost use Rattle.myi_check.specs.WalksBusy.{HasBytes};
ghost use Rattle.myi_check.specs.Walks.{EventList, events_in};
ghost use Rattle.myi_check.specs.Keys.{HasKeys};
ghost use Rattle.myi_check.specs.Asked.{AsksApart, IsNextAsked, IsGood, CanBeAsked, OfKey, AddsAsked};
ghost use Rattle.myi_check.specs.Sections.{AreInOrder};

use crate::busy::BusyPages;
use crate::keys::{KeysFound, KeysSoFar, tree_key};
use crate::pairs_met::PairsMet;
use crate::row_reads::{RowBuffers, RowsKey, has_pair};
use crate::rows::ScannedFile;
use crate::walks::{SETUP, TreeKey, TreeWalk, of_tree};
use myi_btree::{Event, Events, Pair};
use myi_defs::Defs;
use myi_header::first_page;
use myi_io::Files;
use myi_keycache::KeyCache;
use myi_opening::TableFault;

/// A key whose pairs are asked of the rows.
#[derive(Clone, Copy)]
pub(crate) struct AskedKey<'a> {
    pub(crate) of_rows: RowsKey<'a>,
    pub(crate) tree: TreeKey,
}

// Whether the pair may be met next: fewer pairs than rows were met, it is above the last one, it does not
// repeat its complete key in a unique key, and it is that of a row.
fn is_next<F: Files>(
    files: &mut F,
    key: &AskedKey<'_>,
    buffers: &mut RowBuffers,
    met: &PairsMet,
    pair: &Pair,
) -> Result<bool, TableFault>
    requires asked { CanBeAsked key.now }
    ensures next { IfOk result (λ is. is ≡ true
        → IsNextAsked (OfKey (F.holds files.old) key.now) key.now.tree.unique met.now pair.now) }
    ensures few { IfOk result (λ is. is ≡ true → met.now.count < 2 ^ 64 - 1) }
    ensures cut { IfErr result IsCutOff }
    ensures holds { F.holds files.new ≡ F.holds files.old }
    ensures cause { HasCause TableFault.File (F.faults files.old) (F.faults files.new) result }
{
    if met.count as u64 >= key.of_rows.file.records || !met.rises_to(key.tree.unique, pair) {
        return Ok(false);
    }
    has_pair(files, &key.of_rows, buffers, pair)
}

// Notes a pair of the page at a place, once it is asked.
fn note_pair<F: Files>(
    files: &mut F,
    key: &AskedKey<'_>,
    buffers: &mut RowBuffers,
    walk: &mut TreeWalk,
    pair: Pair,
    at: u64,
) -> Result<(), TableFault>
    requires asked { CanBeAsked key.now }
    ensures asks { OnOk result (IsGood walk.new → (busy : BusyPages) (all left : EventList)
        → AsksApart (OfKey (F.holds files.old) key.now) key.now.tree busy walk.old all
        (events.pair pair at ∷ left)
        → AsksApart (OfKey (F.holds files.old) key.now) key.now.tree busy walk.new all left) }
    ensures cut { IfErr result IsCutOff }
    ensures holds { F.holds files.new ≡ F.holds files.old }
    ensures cause { HasCause TableFault.File (F.faults files.old) (F.faults files.new) result }
{
    if is_next(files, key, buffers, &walk.met, &pair)? {
        walk.met.note_next(pair);
    } else {
        walk.met.note_bad(at);
    }
    Ok(())
}

// Notes what the walk met next.
fn note<F: Files>(
    files: &mut F,
    key: &AskedKey<'_>,
    busy: &BusyPages,
    buffers: &mut RowBuffers,
    walk: &mut TreeWalk,
    event: Event,
) -> Result<(), TableFault>
    requires asked { CanBeAsked key.now }
    requires placed { IsPlaced key.now.tree.place }
    requires sized { All HasBytes busy.now.trees.items }
    ensures asks { OnOk result (IsGood walk.new → (all left : EventList)
        → AsksApart (OfKey (F.holds files.old) key.now) key.now.tree busy.now walk.old all
        (event_of event ∷ left)
        → AsksApart (OfKey (F.holds files.old) key.now) key.now.tree busy.now walk.new all left) }
    ensures cut { IfErr result IsCutOff }
    ensures holds { F.holds files.new ≡ F.holds files.old }
    ensures cause { HasCause TableFault.File (F.faults files.old) (F.faults files.new) result }
{
    match event {
        Event::Page { at } => walk.note_page(key.tree, busy, at)?,
        Event::Pair { pair, at } => note_pair(files, key, buffers, walk, pair, at)?,
        Event::Bad { at } => walk.cut(at),
    }
    Ok(())
}

// What the walk of a tree shows, by what a cache lends that keeps no unwritten page. It goes no further
// than to the first bad thing.
fn follow_asking<F: Files>(
    files: &mut F,
    cache: &mut KeyCache,
    key: &AskedKey<'_>,
    busy: &BusyPages,
    buffers: &mut RowBuffers,
) -> Result<TreeWalk, TableFault>
    requires asked { CanBeAsked key.now }
    requires placed { IsPlaced key.now.tree.place }
    requires rooted { is_some key.now.tree.place.root ≡ true }
    requires written { AllWritten (pages_of cache.old) }
    requires sized { All HasBytes busy.now.trees.items }
    ensures asks { IfOk result (λ walk. IsGood walk
        → IfTold (F.holds files.old) (λ m. IsCurrent cache.old m
        → (all : EventList) → MeetsTree key.now.tree.place.block_length
        (node_lent key.now.tree.place cache.old m) key.now.tree.place.root all
        → AsksApart (OfKey (F.holds files.old) key.now) key.now.tree busy.now walk all [])) }
    ensures cut { IfErr result IsCutOff }
    ensures holds { F.holds files.new ≡ F.holds files.old }
    ensures cause { HasCause TableFault.File (F.faults files.old) (F.faults files.new) result }
{
    let alloc = key.of_rows.defs.raw.allocator();
    let mut events = Events::new(alloc, key.tree.place);
    let mut walk = TreeWalk::new(alloc);
    while walk.met.bad.is_none() {
        match events.next(files, cache) {
            Ok(Some(event)) => note(files, key, busy, buffers, &mut walk, event)?,
            Ok(None) => return Ok(walk),
            Err(fault) => return Err(of_tree(fault)),
        }
    }
    Ok(walk)
}

// What the walk of a tree shows, of which each pair is asked. It goes no further than to the first bad
// thing.
fn ask_tree<F: Files>(
    files: &mut F,
    index: &str,
    key: &AskedKey<'_>,
    busy: &BusyPages,
    buffers: &mut RowBuffers,
) -> Result<TreeWalk, TableFault>
    requires asked { CanBeAsked key.now }
    requires placed { IsPlaced key.now.tree.place }
    requires sized { All HasBytes busy.now.trees.items }
    ensures asks { IfOk result (λ walk. IsGood walk
        → IfTold (F.holds files.old) (λ m. (x : List ℕ) → m index.now ≡ Some x
        → AsksApart (OfKey (F.holds files.old) key.now) key.now.tree busy.now walk
        (events_in key.now.tree.place x) [])) }
    ensures cut { IfErr result IsCutOff }
    ensures holds { F.holds files.new ≡ F.holds files.old }
    ensures cause { HasCause TableFault.File (F.faults files.old) (F.faults files.new) result }
{
    let alloc = key.of_rows.defs.raw.allocator();
    if key.tree.place.root.is_none() {
        return Ok(TreeWalk::new(alloc));
    }
    let mut cache = KeyCache::new(alloc, index, SETUP)?;
    follow_asking(files, &mut cache, key, busy, buffers)
}

// Walks the tree of the key that comes next. It says true only where its pairs are the key list. If not, nothing
// is added.
fn ask_key<F: Files>(
    files: &mut F,
    index: &str,
    key: &AskedKey<'_>,
    buffers: &mut RowBuffers,
    found: &mut KeysSoFar,
) -> Result<bool, TableFault>
    requires asked { CanBeAsked key.now }
    requires placed { IsPlaced key.now.tree.place }
    requires sized { All HasBytes found.old.busy.trees.items }
    requires number { found.old.number < 255 }
    ensures number { IfOk result (λ is. is ≡ true → found.new.number ≡ found.old.number + 1) }
    ensures sized { IfOk result (λ is. is ≡ true → All HasBytes found.new.busy.trees.items) }
    ensures shows { IfOk result (λ is. is ≡ true → IfTold (F.holds files.old)
        (AddsAsked index.now key.now found.old found.new)) }
    ensures order { IfOk result (λ is. is ≡ true
        → AreInOrder 2 (1 + found.old.number) found.old.findings.items
        → AreInOrder 2 (1 + found.new.number) found.new.findings.items) }
    ensures cut { IfErr result IsCutOff }
    ensures holds { F.holds files.new ≡ F.holds files.old }
    ensures cause { HasCause TableFault.File (F.faults files.old) (F.faults files.new) result }
{
    let walk = ask_tree(files, index, key, &found.busy, buffers)?;
    if !walk.met.is_whole(key.of_rows.file.records) {
        return Ok(false);
    }
    found.add_pages(key.tree.place.block_length, walk)?;
    found.number += 1;
    Ok(true)
}

/// What the walks of all trees show, where the pairs of each tree are its key list. The data file was scanned.
pub(crate) fn ask_keys<F: Files>(
    files: &mut F,
    index: &str,
    file: &ScannedFile<'_>,
    defs: &Defs,
    roots: &[Option<u64>],
) -> Result<Option<KeysFound>, TableFault>
    requires defs { AreDefs defs.now }
    requires roots { length roots.now ≡ length defs.now.keys }
    ensures found { IfOk result (λ o. IfSome o (λ r. IfTold (F.holds files.old) (λ m.
        (x d : List ℕ) → m index.now ≡ Some x → m file.now.name.now ≡ Some d
        → roots.now ≡ (state_of defs.now x).roots → IsScanned defs.now file.now d
        → HasKeys defs.now x (rows_in defs.now d) r))) }
    ensures order { IfOk result (λ o. IfSome o (λ r. AreInOrder 2 256 r.findings.items)) }
    ensures cut { IfErr result IsCutOff }
    ensures holds { F.holds files.new ≡ F.holds files.old }
    ensures cause { HasCause TableFault.File (F.faults files.old) (F.faults files.new) result }
{
    let alloc = defs.raw.allocator();
    let mut buffers = RowBuffers::new(alloc);
    let mut found = KeysSoFar::new(alloc, first_page(defs));
    for _key in 0..roots.len() {
        let number = found.number as usize;
        let of_rows = RowsKey {
            file: *file,
            defs,
            number,
        };
        let tree = tree_key(defs, number, roots[number - 1]);
        let key = AskedKey { of_rows, tree };
        if !ask_key(files, index, &key, &mut buffers, &mut found)? {
            return Ok(None);
        }
    }
    Ok(Some(found.into_found()))
}
