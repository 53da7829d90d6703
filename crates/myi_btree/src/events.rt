//! `Events`: what a walk of a tree meets, one after the other.
ghost use Rattle.std.specs.Prelude.{◌≡◌, ◌+◌, ◌≤◌, ℕ, List, [], length, None, IfOk, IfErr, OnErr, IsTrue};
ghost use Rattle.myi_base.specs.Causes.{HasCause};
ghost use Rattle.myi_btree.specs.declared.fault.TreeFault.TheVariants.{File};
ghost use Rattle.myi_btree.specs.Sizes.{IsPlaced};
ghost use Rattle.myi_btree.specs.Faults.{IsFileOrMemory};
ghost use Rattle.myi_btree.specs.CachedTrees.{MayGet, ReadsOnly};
ghost use Rattle.myi_btree.specs.Events.{first_bad};
ghost use Rattle.myi_btree.specs.Visited.{CountsMet, ReadsMet, ReadsOneMore};
ghost use Rattle.myi_btree.specs.Serving.{View, nodes_at, IsServed};
ghost use Rattle.myi_btree.specs.Walking.{walk_at, steps_left, IsOver, MayGo, Goes};
ghost use Rattle.myi_btree.specs.Cursors.{events_of};

use crate::cursor::Cursor;
use crate::event::Event;
use crate::fault::TreeFault;
use crate::place::{Place, TreeSetup};
use myi_io::Files;
use myi_keycache::KeyCache;
use std::alloc::Global;
use std::marker::Model;

/// The events of a tree's walk, one after the other, of which a contract sees where the walk stands. It keeps
/// the pages on the way from the root, and the places of the pages that it met.
#[derive(Drop)]
pub struct Events {
    cursor: Cursor,
}

impl Model for Events {
    ghost use Rattle.myi_btree.specs.Walking.{Walking};
    ghost use Rattle.myi_btree.specs.Cursors.{walking_of};

    ghost Value = { Walking };

    ghost view = { λ events. walking_of events.cursor };
}

impl Events {
    /// Before the first page of the tree.
    pub fn new(alloc: Global, place: Place) -> Events
        ensures { result ≡ walk_at place }
    {
        let setup = TreeSetup { alloc, place };
        Events {
            cursor: Cursor::new(setup, place.root),
        }
    }

    /// Meets the next event: None where the walk met all, and behind a bad place. What is said of events holds
    /// of what stood there when the walk began (`walks_begin`), where only calls of this walk used the cache
    /// and the files since.
    pub fn next<F: Files>(
        &mut self,
        files: &mut F,
        cache: &mut KeyCache,
    ) -> Result<Option<Event>, TreeFault>
        requires placed { IsPlaced self.old.place }
        requires kept { MayGet F.writable cache.old }

        // The event is the first of those that are left.
        ensures goes { IfOk result (λ event. (v : View) (seen : List ℕ)
            → MayGo self.old.place v (F.holds files.old) cache.old seen self.old
            → Goes self.old.place.block_length (nodes_at self.old.place v) v.asked seen
            self.old self.new (events_of event)) }
        ensures over { IfOk result (λ event. event ≡ None → IsOver self.new) }

        // Each event makes the steps that are left fewer, so that a loop over events ends.
        ensures fewer { IfOk result (λ event. steps_left self.new + length (events_of event)
            ≤ steps_left self.old) }

        // After an error the same is left: the next call tries the same place again.
        ensures same { OnErr result ((v : View) (seen : List ℕ)
            → MayGo self.old.place v (F.holds files.old) cache.old seen self.old
            → Goes self.old.place.block_length (nodes_at self.old.place v) v.asked seen
            self.old self.new []) }

        // The cache goes on serving the walk, at each answer.
        ensures served { (v : View) (seen : List ℕ)
            → MayGo self.old.place v (F.holds files.old) cache.old seen self.old
            → IsServed self.old.place v (F.holds files.new) cache.new self.new.met }
        ensures place { self.new.place ≡ self.old.place }
        ensures cache { ReadsOnly (F.holds files.old) (F.holds files.new) cache.old cache.new }
        ensures faults { IfErr result IsFileOrMemory }
        ensures cause { HasCause File (F.faults files.old) (F.faults files.new) result }
        ensures reads { F.reads files.old ≤ F.reads files.new }

        // No more is read than pages are met, and each page that is met is a read request. At an error and
        // at a bad place one more may have been read, which was not met.
        ensures once { IfOk result (λ event. first_bad (events_of event) ≡ None
            → ReadsMet (F.reads files.old) (F.reads files.new) self.old.met self.new.met) }
        ensures most { ReadsOneMore (F.reads files.old) (F.reads files.new)
            self.old.met self.new.met }
        ensures counted { IfOk result (λ event. first_bad (events_of event) ≡ None
            → CountsMet cache.old cache.new self.old.met self.new.met) }
    {
        self.cursor.next(files, cache)
    }
}
