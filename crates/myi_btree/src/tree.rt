//! `Tree`: the pairs of one key, sorted, on pages of an index file.
ghost use Rattle.std.specs.Prelude.{◌≡◌, ◌+◌, ◌*◌, ◌%◌, ◌≤◌, Some, length, IfOk, IfErr, OnOk, OnErr, IsTrue};
ghost use Rattle.myi_base.specs.Holding.{IfTold, Told};
ghost use Rattle.myi_base.specs.Causes.{HasCause};
ghost use Rattle.myi_btree.specs.declared.fault.TreeFault.TheVariants.{File};
ghost use Rattle.myi_btree.specs.Sizes.{IsPlaced, AreSized};
ghost use Rattle.myi_btree.specs.Building.{laid_at, built_at, CanLay, Spares, Lays, PutsOnly, CountsPuts};
ghost use Rattle.myi_btree.specs.Building.{LaysOnly};
ghost use Rattle.myi_keycache.specs.Caching.{IsCurrent, Stays};
ghost use Rattle.myi_btree.specs.CachedTrees.{node_lent, CanWalk, ReadsOnly, AddsNamed, ReadsOnce, CountsPages};
ghost use Rattle.myi_btree.specs.Faults.{DamagedAt, IsFileOrMemory};
ghost use Rattle.myi_btree.specs.Events.{FindsPairs, FindsBad};

use crate::build::lay_cached;
use crate::cursor::Cursor;
use crate::fault::TreeFault;
use crate::place::{Place, Room, TreeSetup};
use myi_io::Files;
use myi_keycache::KeyCache;
use myi_keylist::{Pair, PairList};
use std::alloc::Global;
use std::marker::Model;

/// A tree of an index file, which a contract sees as its place.
#[derive(Debug, Drop)]
pub struct Tree {
    place: Place,
}

impl Model for Tree {
    ghost use Rattle.myi_btree.specs.declared.place.Place.{Place};

    ghost Value = { Place };

    ghost view = { λ tree. tree.place };
}

impl Tree {
    /// The tree at a place. It takes no memory.
    pub fn new(place: Place) -> Tree
        ensures { result ≡ place }
    {
        Tree { place }
    }

    /// The place of the root page, and None where the tree has no pair. It takes no memory.
    pub fn root(&self) -> Option<u64>
        ensures { result ≡ self.now.root }
    {
        self.place.root
    }

    /// The pairs of the tree in the order of its walk, each with the place of its page. `Damaged` comes at the
    /// first bad place that the walk meets: no page stands there, or its page has a byte of one that was met
    /// before, or it is a leaf above the depth of the first leaf, or a node at that depth. What is said of
    /// pairs and places, and of what is read and kept, holds where the file is as the last call of the cache
    /// left it. No more is read than places are named from the root on, and no other page comes to be kept.
    /// Pages are held open in a list, so a deep tree takes no deep stack. The cache keeps no unwritten page, or
    /// the tree is whole and no other page that is kept meets one of it; then that holds afterwards too, of
    /// this tree and of others that share no byte with it (`walks_leave_trees_clear`).
    pub fn walk<F: Files>(
        &self,
        alloc: Global,
        files: &mut F,
        cache: &mut KeyCache,
    ) -> Result<Vec<(Pair, u64)>, TreeFault>
        requires placed { IsPlaced self.now }
        requires kept { CanWalk F.writable (F.holds files.old) self.now cache.old }

        // The answer is the walk, or the first bad place on its path.
        ensures pairs { IfOk result (λ pairs. IfTold (F.holds files.old) (λ m. IsCurrent cache.old m
            → FindsPairs self.now.block_length (node_lent self.now cache.old m) self.now.root
            pairs.items)) }
        ensures damaged { IfErr result (DamagedAt (λ at. IfTold (F.holds files.old) (λ m.
            IsCurrent cache.old m
            → FindsBad self.now.block_length (node_lent self.now cache.old m) self.now.root at))) }

        // Nothing was put, the same is lent, and no page came to be kept but those named from the root on.
        ensures cache { ReadsOnly (F.holds files.old) (F.holds files.new) cache.old cache.new }
        ensures stays { Told (F.holds files.old) (F.holds files.new)
            (λ m n. IsCurrent cache.old m → Stays cache.old cache.new m n) }
        ensures added { IfTold (F.holds files.old) (λ m. IsCurrent cache.old m
            → AddsNamed self.now cache.old m cache.new) }
        ensures cause { HasCause File (F.faults files.old) (F.faults files.new) result }
        ensures reads { F.reads files.old ≤ F.reads files.new }

        // No more is read than places are named from the root on, and as many pages are asked for as a walk has.
        ensures once { IfTold (F.holds files.old) (λ m. IsCurrent cache.old m
            → ReadsOnce self.now cache.old m (F.reads files.old) (F.reads files.new)) }
        ensures counted { OnOk result (IfTold (F.holds files.old) (λ m. IsCurrent cache.old m
            → CountsPages self.now cache.old m cache.new)) }
    {
        let Some(root) = self.place.root else {
            return Ok(Vec::new(alloc));
        };
        let setup = TreeSetup {
            alloc,
            place: self.place,
        };
        Cursor::new(setup, Some(root)).run(files, cache)
    }

    /// Puts the laid pages of sorted pairs into the room from its end on, and moves the end past them. The
    /// root that `place` names is not looked at. Then the tree is clear in the cache, and each tree before it
    /// stays so (`builds_leave_trees_clear`). After a refusal what the cache lends before the room's end is
    /// the same, trees there stay clear, and the room is as it was; what stands from its end on may be
    /// anything. What is said of pages and files
    /// holds where the file is as the last call of the cache left it and no page that is kept ends behind the
    /// room's end. A page may have no other place than one below 2^64: past it the answer is an error.
    pub fn build<F: Files>(
        alloc: Global,
        files: &mut F,
        cache: &mut KeyCache,
        place: Place,
        room: &mut Room,
        pairs: &PairList,
    ) -> Result<Tree, TreeFault>
        requires writable { IsTrue F.writable }
        requires placed { IsPlaced place }
        requires end { room.old.end % 1024 ≡ 0 }
        requires sized { AreSized place pairs.now }

        // The pages are those that are laid, one behind the other, and nothing else is put.
        ensures laid { OnOk result (Told (F.holds files.old) (F.holds files.new) (λ m n.
            CanLay cache.old m room.old.end
            → Lays place room.old.end (laid_at place room.old.end pairs.now)
            cache.old cache.new m n)) }
        ensures root { IfOk result (λ tree. tree ≡ built_at place room.old.end pairs.now) }
        ensures end { OnOk result (room.new.end ≡ room.old.end
            + place.block_length * length (laid_at place room.old.end pairs.now)) }
        ensures free { room.new.free ≡ room.old.free }

        // After a refusal nothing before the room's end was changed.
        ensures refused { OnErr result (Told (F.holds files.old) (F.holds files.new) (λ m n.
            CanLay cache.old m room.old.end → Spares room.old.end cache.old cache.new m n)) }
        ensures room { OnErr result (room.new.end ≡ room.old.end) }

        // At any answer other files stay, where they tell what they hold, and no page comes to be kept but
        // pages from the room's end on.
        ensures only { LaysOnly (F.holds files.old) (F.holds files.new)
            place.block_length room.old.end cache.old cache.new }

        // The cache's setup and its counters of reads stay, and each page is a write request.
        ensures name { cache.new.name ≡ cache.old.name }
        ensures puts { PutsOnly cache.old cache.new }
        ensures counted { OnOk result (CountsPuts (length (laid_at place room.old.end pairs.now))
            cache.old cache.new) }
        ensures faults { IfErr result IsFileOrMemory }
        ensures cause { HasCause File (F.faults files.old) (F.faults files.new) result }
        ensures reads { F.reads files.new ≡ F.reads files.old }
    {
        if pairs.len() == 0 {
            return Ok(Tree {
                place: Place {
                    root: None,
                    ..place
                },
            });
        }
        let end = lay_cached(TreeSetup { alloc, place }, files, cache, room.end, pairs)?;
        room.end = end;
        let root = end - place.block_length as u64;
        Ok(Tree {
            place: Place {
                root: Some(root),
                ..place
            },
        })
    }
}
