//! `TreeWalk`: what the walk of a key's tree shows, page by page.
ghost use Rattle.std.specs.Prelude.{◌≡◌, ◌∷◌, ℕ, List, [], true, false, is_none, is_some, Some, None, All};
ghost use Rattle.std.specs.Prelude.{IfOk, IfErr, OnOk};
ghost use Rattle.myi_base.specs.Holding.{IfTold};
ghost use Rattle.myi_base.specs.Causes.{HasCause};
ghost use Rattle.myi_base.specs.HandsOn.{HandsOn};
ghost use Rattle.myi_opening.specs.Opening.{IsCutOff};
ghost use Rattle.myi_keylist.specs.declared.pair.Pair.{Pair};
ghost use Rattle.myi_keycache.specs.Kept.{AllWritten};
ghost use Rattle.myi_keycache.specs.Caching.{pages_of, IsCurrent};
ghost use Rattle.myi_btree.specs.Sizes.{IsPlaced};
ghost use Rattle.myi_btree.specs.Faults.{IsFileOrMemory};
ghost use Rattle.myi_btree.specs.CachedTrees.{node_lent};
ghost use Rattle.myi_btree.specs.Events.{MeetsTree, page, bad};
ghost use Rattle.myi_btree.specs.Cursors.{event_of};
ghost use Rattle.myi_check.specs.WalksBusy.{HasBytes};
ghost use Rattle.myi_check.specs.Walks.{EventList, ShowsApart, events_in};
ghost use Rattle.myi_check.specs.Asked.{IsGood};

use crate::busy::{BusyPages, TreePages};
use crate::pairs_met::PairsMet;
use myi_btree::{Event, Events, Place, TreeFault};
use myi_io::Files;
use myi_keycache::{CacheSetup, KeyCache};
use myi_keylist::PairList;
use myi_opening::TableFault;
use std::alloc::{AllocError, Global};
use std::collections::BTreeSet;

/// How a check keeps index pages. A walk asks for each page once.
pub(crate) const SETUP: CacheSetup = CacheSetup {
    blocks: 4,
    division: 100,
    age: 300,
};

/// A key, as far as its tree is looked at.
#[derive(Clone, Copy)]
pub(crate) struct TreeKey {
    pub(crate) place: Place,
    /// Whether no two pairs may have one complete key.
    pub(crate) unique: bool,
}

/// What the walk of a tree met so far.
pub(crate) struct TreeWalk {
    pub(crate) met: PairsMet,
    /// Whether it met a place where no page of the tree stands, or a page that has a busy byte.
    pub(crate) is_cut: bool,
    /// The places of the pages that it went into before.
    pub(crate) places: BTreeSet<u64>,
    /// How many bytes they have, and 2^64 - 1 where that is more.
    pub(crate) bytes: u64,
}

impl Drop for TreeWalk {
    fn drop(self) {
        let TreeWalk {
            met: _,
            is_cut: _,
            places: _,
            bytes: _,
        } = self;
    }
}

impl TreeWalk {
    /// The pages, of so many bytes each.
    pub(crate) fn into_pages(self, block_length: u16) -> TreePages
        ensures { result ≡ record { block_length = block_length; places = self.places } }
    {
        let TreeWalk {
            met: _,
            is_cut: _,
            places,
            bytes: _,
        } = self;
        TreePages {
            block_length,
            places,
        }
    }

    /// Nothing yet.
    pub(crate) fn new(alloc: Global) -> TreeWalk
        ensures shows { (key : TreeKey) (pairs : List Pair) (busy : BusyPages) (all : EventList)
            → ShowsApart key pairs busy result all all }
        ensures none { result.met ≡ record { count = 0; last = None; bad = None } }
    {
        TreeWalk {
            met: PairsMet::none(),
            is_cut: false,
            places: BTreeSet::new(alloc),
            bytes: 0,
        }
    }

    /// Notes a bad place. What is met behind it does not count.
    pub(crate) fn cut(&mut self, at: u64)
        ensures shows { (key : TreeKey) (pairs : List Pair) (busy : BusyPages) (all left : EventList)
            → ShowsApart key pairs busy self.old all (bad at ∷ left)
            → ShowsApart key pairs busy self.new all left }
        ensures bad { is_none self.new.met.bad ≡ false }
    {
        self.met.note_bad(at);
        self.is_cut = true;
    }

    /// Notes a page.
    pub(crate) fn note_page(
        &mut self,
        key: TreeKey,
        busy: &BusyPages,
        at: u64,
    ) -> Result<(), AllocError>
        requires placed { IsPlaced key.place }
        requires sized { All HasBytes busy.now.trees.items }
        ensures shows { OnOk result ((pairs : List Pair) (all left : EventList)
            → ShowsApart key pairs busy.now self.old all (page at ∷ left)
            → ShowsApart key pairs busy.now self.new all left) }
        ensures met { OnOk result (IsGood self.new → self.new.met ≡ self.old.met) }
    {
        if self.is_cut {
            return Ok(());
        }
        if !busy.is_free(at, key.place.block_length) {
            self.cut(at);
            return Ok(());
        }
        self.places.insert(at)?;
        self.bytes = self.bytes.saturating_add(key.place.block_length as u64);
        Ok(())
    }

    // Notes what the walk met next.
    fn note(
        &mut self,
        key: TreeKey,
        pairs: &PairList,
        busy: &BusyPages,
        event: Event,
    ) -> Result<(), AllocError>
        requires placed { IsPlaced key.place }
        requires sized { All HasBytes busy.now.trees.items }
        ensures { OnOk result ((all left : EventList)
            → ShowsApart key pairs.now busy.now self.old all (event_of event ∷ left)
            → ShowsApart key pairs.now busy.now self.new all left) }
    {
        match event {
            Event::Page { at } => self.note_page(key, busy, at)?,
            Event::Pair { pair, at } => self.met.note(key.unique, pairs, pair, at),
            Event::Bad { at } => self.cut(at),
        }
        Ok(())
    }
}

/// Why a walk does not go on, as a fault of the table.
pub(crate) fn of_tree(fault: TreeFault) -> TableFault
    requires { IsFileOrMemory fault }
    ensures { HandsOn (TreeFault.File, TableFault.File) (TreeFault.Memory, TableFault.Memory)
        fault result }
{
    match fault {
        TreeFault::File => TableFault::File,
        TreeFault::Memory => TableFault::Memory,
        // Events tell damage as an event.
        TreeFault::Damaged { .. } => unreachable!(),
    }
}

// What the walk of a tree shows, by what a cache lends that keeps no unwritten page.
fn follow<F: Files>(
    alloc: Global,
    files: &mut F,
    cache: &mut KeyCache,
    key: TreeKey,
    pairs: &PairList,
    busy: &BusyPages,
) -> Result<TreeWalk, TableFault>
    requires placed { IsPlaced key.place }
    requires rooted { is_some key.place.root ≡ true }
    requires written { AllWritten (pages_of cache.old) }
    requires sized { All HasBytes busy.now.trees.items }
    ensures shows { IfOk result (λ walk. IfTold (F.holds files.old) (λ m. IsCurrent cache.old m
        → (all : EventList) → MeetsTree key.place.block_length
        (node_lent key.place cache.old m) key.place.root all
        → ShowsApart key pairs.now busy.now walk all [])) }
    ensures cut { IfErr result IsCutOff }
    ensures holds { F.holds files.new ≡ F.holds files.old }
    ensures cause { HasCause TableFault.File (F.faults files.old) (F.faults files.new) result }
{
    let mut events = Events::new(alloc, key.place);
    let mut walk = TreeWalk::new(alloc);
    loop {
        match events.next(files, cache) {
            Ok(Some(event)) => walk.note(key, pairs, busy, event)?,
            Ok(None) => return Ok(walk),
            Err(fault) => return Err(of_tree(fault)),
        }
    }
}

/// What the walk of a tree shows, beside the sorted pairs of its key.
pub(crate) fn walk_tree<F: Files>(
    alloc: Global,
    files: &mut F,
    index: &str,
    key: TreeKey,
    pairs: &PairList,
    busy: &BusyPages,
) -> Result<TreeWalk, TableFault>
    requires placed { IsPlaced key.place }
    requires sized { All HasBytes busy.now.trees.items }
    ensures shows { IfOk result (λ walk. IfTold (F.holds files.old) (λ m. (x : List ℕ)
        → m index.now ≡ Some x
        → ShowsApart key pairs.now busy.now walk (events_in key.place x) [])) }
    ensures cut { IfErr result IsCutOff }
    ensures holds { F.holds files.new ≡ F.holds files.old }
    ensures cause { HasCause TableFault.File (F.faults files.old) (F.faults files.new) result }
{
    if key.place.root.is_none() {
        return Ok(TreeWalk::new(alloc));
    }
    let mut cache = KeyCache::new(alloc, index, SETUP)?;
    follow(alloc, files, &mut cache, key, pairs, busy)
}
