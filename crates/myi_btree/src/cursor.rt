//! `Cursor`: going through a tree, one event after the other.
//!
//! It goes down the first children to the first leaf, which says how deep the leaves are. Behind a leaf, and
//! behind all that stands below a child, the page that is open gives its next pair, and the next child is gone
//! into. Only the pages on the way from the root are open.
ghost use Rattle.std.specs.Prelude.{◌≡◌, ◌+◌, ◌<◌, ◌≤◌, ◌++◌, ◌∷◌, ℕ, List, [], None, Some, length, map, IfOk, IfErr, OnOk, OnErr};
ghost use Rattle.std.specs.Vec.{vec_len, vec_capacity};
ghost use Rattle.std.specs.Vec.Iter.{into_iter_items};
ghost use Rattle.myi_base.specs.Causes.{HasCause};
ghost use Rattle.myi_btree.specs.declared.fault.TreeFault.TheVariants.{File};
ghost use Rattle.myi_btree.specs.declared.event.Event.TheVariants.{Bad};
ghost use Rattle.myi_btree.specs.Sizes.{IsPlaced};
ghost use Rattle.myi_btree.specs.Faults.{DamagedAt, IsFileOrMemory};
ghost use Rattle.myi_btree.specs.CachedTrees.{MayGet, ReadsOnly};
ghost use Rattle.myi_btree.specs.Walk.{Places};
ghost use Rattle.myi_btree.specs.Visit.{entered};
ghost use Rattle.myi_btree.specs.Events.{Event, pairs_in, first_bad};
ghost use Rattle.myi_btree.specs.Visited.{CountsMet, ReadsMet, ReadsOneMore, node_left};
ghost use Rattle.myi_btree.specs.Serving.{View, nodes_at, GoesOn, ReadsAsked};
ghost use Rattle.myi_btree.specs.Cursors.{events_of, event_of, Leaves, FitsIn, AsksFor, CanGo, Moves, IsDone, Runs, RunsInto, may_stand, height_with, walking_of, HasNoPage, Opens, Rises};
ghost use Rattle.myi_btree.specs.Walking.{at_hand, steps_left};

use crate::event::Event;
use crate::fault::TreeFault;
use crate::place::TreeSetup;
use crate::visited::{OpenPage, Visited};
use crate::walk::enter;
use myi_io::Files;
use myi_keycache::KeyCache;
use myi_keylist::Pair;
use std::alloc::Global;

/// A walk of a tree, as far as it went.
pub(crate) struct Cursor {
    pub(crate) setup: TreeSetup,
    /// How many pages stand on the way from the root to each leaf, once the first leaf was met.
    pub(crate) height: Option<usize>,
    /// The page that is gone into next.
    pub(crate) down: Option<u64>,
    /// The pages that are open, each a child of the one before.
    pub(crate) path: Vec<OpenPage>,
    /// The pages that it went into.
    pub(crate) visited: Visited,
}

impl Drop for Cursor {
    fn drop(self) {
        let Cursor {
            setup: _,
            height: _,
            down: _,
            path: _,
            visited: _,
        } = self;
    }
}

impl Cursor {
    /// Before the page at a place: None where there is no tree.
    pub(crate) fn new(setup: TreeSetup, root: Option<u64>) -> Cursor
        ensures setup { result.setup ≡ setup }
        ensures height { result.height ≡ None }
        ensures down { result.down ≡ root }
        ensures path { result.path.items ≡ [] }
        ensures visited { result.visited.places.keys ≡ [] }
    {
        Cursor {
            setup,
            height: None,
            down: root,
            path: Vec::new(setup.alloc),
            visited: Visited::new(setup.alloc),
        }
    }

    // Ends at a bad place.
    fn stop(&mut self, at: u64) -> Event
        ensures event { result ≡ Bad at }
        ensures done { IsDone self.new }
        ensures height { self.new.height ≡ self.old.height }
        ensures visited { self.new.visited ≡ self.old.visited }
        ensures setup { self.new.setup ≡ self.old.setup }
    {
        self.down = None;
        self.path.clear();
        Event::Bad { at }
    }

    // Whether a leaf, or a node, may stand behind the open pages.
    fn may_stand(&self, is_leaf: bool) -> bool
        ensures { result ≡ may_stand self.now.height (length self.now.path.items) is_leaf }
    {
        let depth = self.path.len() + 1;
        match self.height {
            None => true,
            Some(height) => {
                if is_leaf {
                    depth == height
                } else {
                    depth < height
                }
            }
        }
    }

    // How many pages stand on the way to each leaf, where a leaf is met, or a node, behind the open pages.
    fn height_with(&self, is_leaf: bool) -> Option<usize>
        ensures { result ≡ height_with self.now.height (length self.now.path.items) is_leaf }
    {
        if is_leaf {
            Some(self.path.len() + 1)
        } else {
            self.height
        }
    }

    // Opens the page that was gone into.
    fn open_page(&mut self, page: OpenPage) -> Event
        requires down { self.old.down ≡ Some page.at }
        requires room { vec_len self.old.path < vec_capacity self.old.path }
        ensures opens { Opens self.old self.new page (event_of result) }
        ensures hand { at_hand (walking_of self.new) < at_hand (walking_of self.old)
            + (length (node_left page).pairs + length (node_left page).children) }
        ensures visited { self.new.visited ≡ self.old.visited }
        ensures setup { self.new.setup ≡ self.old.setup }
    {
        let at = page.at;
        if !self.may_stand(page.is_leaf()) {
            return self.stop(at);
        }
        let mut page = page;
        self.height = self.height_with(page.is_leaf());
        self.down = page.next_child();
        match self.path.push(page) {
            Ok(()) => Event::Page { at },
            Err(_) => unreachable!(),
        }
    }

    // Goes up to the next pair, or to the next child where that stands before it, where no page is to be gone
    // into.
    fn rise(&mut self) -> Option<Event>
        ensures rises { Rises self.old self.new (events_of result) }
        ensures pair { HasNoPage (events_of result) }
        ensures hand { at_hand (walking_of self.new) + length (events_of result)
            ≤ at_hand (walking_of self.old) }
        ensures done { result ≡ None → self.new.down ≡ None → self.new.path.items ≡ [] }
        ensures visited { self.new.visited ≡ self.old.visited }
        ensures setup { self.new.setup ≡ self.old.setup }
    {
        if self.down.is_some() {
            return None;
        }
        while let Some(page) = self.path.last_mut() {
            let at = page.at;
            let pair = page.next_pair();
            self.down = page.next_child();
            if let Some(pair) = pair {
                return Some(Event::Pair { pair, at });
            }
            if self.down.is_some() {
                return None;
            }
            self.path.pop();
        }
        None
    }

    // Goes into the next page.
    fn go_down<F: Files>(
        &mut self,
        files: &mut F,
        cache: &mut KeyCache,
        at: u64,
    ) -> Result<Event, TreeFault>
        requires placed { IsPlaced self.old.setup.place }
        requires kept { MayGet F.writable cache.old }
        requires down { self.old.down ≡ Some at }
        ensures moves { IfOk result (λ event. (v : View) (seen : List ℕ)
            → CanGo self.old.setup.place v (F.holds files.old) cache.old seen self.old
            → Moves self.old.setup.place.block_length (nodes_at self.old.setup.place v) v.asked seen
            self.old self.new (event_of event ∷ [])) }
        ensures served { (v : View) (seen : List ℕ)
            → CanGo self.old.setup.place v (F.holds files.old) cache.old seen self.old
            → GoesOn self.old.setup.place v (F.holds files.new) cache.new self.new.visited }
        ensures setup { self.new.setup ≡ self.old.setup }
        ensures cache { ReadsOnly (F.holds files.old) (F.holds files.new) cache.old cache.new }
        ensures fewer { IfOk result (λ event. steps_left (walking_of self.new)
            + length (event_of event ∷ []) ≤ steps_left (walking_of self.old)) }
        ensures same { OnErr result ((v : View) (seen : List ℕ)
            → CanGo self.old.setup.place v (F.holds files.old) cache.old seen self.old
            → Moves self.old.setup.place.block_length (nodes_at self.old.setup.place v) v.asked seen
            self.old self.new []) }
        ensures asked { (v : View) (seen : List ℕ)
            → CanGo self.old.setup.place v (F.holds files.old) cache.old seen self.old
            → ReadsAsked self.old.setup.place v (F.holds files.new) cache.new
            (F.reads files.old) (F.reads files.new) self.old.visited.places.keys }
        ensures faults { IfErr result IsFileOrMemory }
        ensures cause { HasCause File (F.faults files.old) (F.faults files.new) result }
        ensures reads { F.reads files.old ≤ F.reads files.new }
        ensures once { IfOk result (λ event. first_bad (event_of event ∷ []) ≡ None
            → ReadsMet (F.reads files.old) (F.reads files.new)
            self.old.visited.places.keys self.new.visited.places.keys) }
        ensures most { ReadsOneMore (F.reads files.old) (F.reads files.new)
            self.old.visited.places.keys self.new.visited.places.keys }
        ensures counted { IfOk result (λ event. first_bad (event_of event ∷ []) ≡ None
            → CountsMet cache.old cache.new
            self.old.visited.places.keys self.new.visited.places.keys) }
    {
        self.path.reserve(1)?;
        match enter(self.setup, files, cache, at, &mut self.visited) {
            Ok(page) => Ok(self.open_page(page)),
            Err(TreeFault::Damaged { .. }) => Ok(self.stop(at)),
            Err(TreeFault::File) => Err(TreeFault::File),
            Err(TreeFault::Memory) => Err(TreeFault::Memory),
        }
    }

    /// Meets the next event: None where it met all. After an error it meets the same event by the next call.
    pub(crate) fn next<F: Files>(
        &mut self,
        files: &mut F,
        cache: &mut KeyCache,
    ) -> Result<Option<Event>, TreeFault>
        requires placed { IsPlaced self.old.setup.place }
        requires kept { MayGet F.writable cache.old }
        ensures moves { IfOk result (λ event. (v : View) (seen : List ℕ)
            → CanGo self.old.setup.place v (F.holds files.old) cache.old seen self.old
            → Moves self.old.setup.place.block_length (nodes_at self.old.setup.place v) v.asked seen
            self.old self.new (events_of event)) }
        ensures done { IfOk result (λ event. event ≡ None → IsDone self.new) }
        ensures served { (v : View) (seen : List ℕ)
            → CanGo self.old.setup.place v (F.holds files.old) cache.old seen self.old
            → GoesOn self.old.setup.place v (F.holds files.new) cache.new self.new.visited }
        ensures setup { self.new.setup ≡ self.old.setup }
        ensures cache { ReadsOnly (F.holds files.old) (F.holds files.new) cache.old cache.new }
        ensures fewer { IfOk result (λ event. steps_left (walking_of self.new)
            + length (events_of event) ≤ steps_left (walking_of self.old)) }
        ensures same { OnErr result ((v : View) (seen : List ℕ)
            → CanGo self.old.setup.place v (F.holds files.old) cache.old seen self.old
            → Moves self.old.setup.place.block_length (nodes_at self.old.setup.place v) v.asked seen
            self.old self.new []) }
        ensures asked { (v : View) (seen : List ℕ)
            → CanGo self.old.setup.place v (F.holds files.old) cache.old seen self.old
            → ReadsAsked self.old.setup.place v (F.holds files.new) cache.new
            (F.reads files.old) (F.reads files.new) self.old.visited.places.keys }
        ensures faults { IfErr result IsFileOrMemory }
        ensures cause { HasCause File (F.faults files.old) (F.faults files.new) result }
        ensures reads { F.reads files.old ≤ F.reads files.new }
        ensures once { IfOk result (λ event. first_bad (events_of event) ≡ None
            → ReadsMet (F.reads files.old) (F.reads files.new)
            self.old.visited.places.keys self.new.visited.places.keys) }
        ensures most { ReadsOneMore (F.reads files.old) (F.reads files.new)
            self.old.visited.places.keys self.new.visited.places.keys }
        ensures counted { IfOk result (λ event. first_bad (events_of event) ≡ None
            → CountsMet cache.old cache.new
            self.old.visited.places.keys self.new.visited.places.keys) }
    {
        if let Some(event) = self.rise() {
            return Ok(Some(event));
        }
        match self.down {
            Some(at) => Ok(Some(self.go_down(files, cache, at)?)),
            None => Ok(None),
        }
    }

    /// Meets all that is left: the pairs, each with the place of its page. `Damaged` comes at a bad place.
    pub(crate) fn run<F: Files>(
        &mut self,
        files: &mut F,
        cache: &mut KeyCache,
    ) -> Result<Vec<(Pair, u64)>, TreeFault>
        requires placed { IsPlaced self.old.setup.place }
        requires kept { MayGet F.writable cache.old }
        ensures ran { IfOk result (λ pairs. (v : View)
            → CanGo self.old.setup.place v (F.holds files.old) cache.old [] self.old
            → Runs self.old.setup.place.block_length (nodes_at self.old.setup.place v)
            self.old self.new (λ es. pairs_in es ≡ pairs.items)) }
        ensures damaged { IfErr result (DamagedAt (λ at. (v : View)
            → CanGo self.old.setup.place v (F.holds files.old) cache.old [] self.old
            → RunsInto self.old.setup.place.block_length (nodes_at self.old.setup.place v)
            self.old at)) }
        ensures served { (v : View)
            → CanGo self.old.setup.place v (F.holds files.old) cache.old [] self.old
            → GoesOn self.old.setup.place v (F.holds files.new) cache.new self.new.visited }
        ensures cache { ReadsOnly (F.holds files.old) (F.holds files.new) cache.old cache.new }
        ensures cause { HasCause File (F.faults files.old) (F.faults files.new) result }
        ensures reads { F.reads files.old ≤ F.reads files.new }
        ensures asked { (v : View)
            → CanGo self.old.setup.place v (F.holds files.old) cache.old [] self.old
            → ReadsAsked self.old.setup.place v (F.holds files.new) cache.new
            (F.reads files.old) (F.reads files.new) self.old.visited.places.keys }
        ensures counted { OnOk result (CountsMet cache.old cache.new
            self.old.visited.places.keys self.new.visited.places.keys) }
    {
        let mut pairs = Vec::new(self.setup.alloc);
        while let Some(event) = self.next(files, cache)? {
            match event {
                Event::Page { at: _ } => {}
                Event::Pair { pair, at } => pairs.push((pair, at))?,
                Event::Bad { at } => return Err(TreeFault::Damaged { at }),
            }
        }
        Ok(pairs)
    }
}
