//! The trees of the new index file.
ghost use Rattle.std.specs.Prelude.{◌≡◌, ◌⊎◌, ◌%◌, All, IfOk, OnOk, IsTrue};
ghost use Rattle.myi_base.specs.Holding.{Told, OthersStay};
ghost use Rattle.myi_base.specs.HandsOn.{HandsOn};
ghost use Rattle.myi_defs.specs.ReadDefs.{AreDefs};
ghost use Rattle.myi_defs.specs.Sound.{IsSound};
ghost use Rattle.myi_header.specs.StateOf.{IsPlace};
ghost use Rattle.myi_header.specs.Layout.{first_page_of};
ghost use Rattle.myi_data.specs.Keys.{IsKeyNumber};
ghost use Rattle.myi_btree.specs.Sizes.{IsPlaced, AreSized};
ghost use Rattle.myi_btree.specs.LaidPages.{root_of};
ghost use Rattle.myi_btree.specs.Building.{laid_at, CanLay, Lays};
ghost use Rattle.myi_btree.specs.TreePages.{tree_end};
ghost use Rattle.myi_keylist.specs.PairOrder.{sorted};
ghost use Rattle.myi_pair.specs.Trees.{place_of};
ghost use Rattle.myi_repair.specs.Outcome.{EndsIn, EndsWith};
ghost use Rattle.myi_repair.specs.Sized.{AreSizedPairs};
ghost use Rattle.myi_repair.specs.Building.{AreTrees, Builds, LaysTrees};

use crate::fault::RepairFault;
use myi_base::Sequence;
use myi_btree::{Place, Room, Tree, TreeFault};
use myi_defs::Defs;
use myi_header::first_page;
use myi_io::Files;
use myi_keycache::{CacheFault, CacheSetup, KeyCache};
use myi_keylist::PairList;
use std::alloc::{AllocError, Global};

/// How a repair keeps index pages.
const SETUP: CacheSetup = CacheSetup {
    blocks: 64,
    division: 100,
    age: 300,
};

/// The roots of the trees, and the place behind their pages.
pub(crate) struct Trees {
    pub(crate) roots: Vec<Option<u64>>,
    pub(crate) end: u64,
}

impl Drop for Trees {
    fn drop(self) {
        let Trees { roots: _, end: _ } = self;
    }
}

impl Trees {
    ghost use Rattle.std.specs.Prelude.{◌≡◌, ◌<◌, ◌^◌, [], ◌∷◌, ◌++◌, IfOk, OnOk};

    /// No tree yet, and memory for so many; the first page will stand there.
    pub(crate) fn new(alloc: Global, count: usize, end: u64) -> Result<Trees, AllocError>
        ensures roots { IfOk result (λ trees. trees.roots.items ≡ []) }
        ensures end { IfOk result (λ trees. trees.end ≡ end) }
    {
        Ok(Trees {
            roots: Vec::with_capacity(alloc, count)?,
            end,
        })
    }

    /// Adds a tree with that root, whose pages end there.
    pub(crate) fn push(&mut self, root: Option<u64>, end: u64) -> Result<(), AllocError>
        ensures roots { OnOk result (self.new.roots.items ≡ self.old.roots.items ++ root ∷ []) }
        ensures end { OnOk result (self.new.end ≡ end) }
        ensures fits { end < 2 ^ 64 }
    {
        self.roots.push(root)?;
        self.end = end;
        Ok(())
    }
}

/// Builds the trees of these pairs, one list for each key, in the file of that name, which is made anew.
/// The pages stand from the first page place on, key after key.
pub(crate) fn build_trees<F: Files>(
    alloc: Global,
    files: &mut F,
    file: &str,
    defs: &Defs,
    pairs: Vec<PairList>,
) -> Result<Trees, RepairFault>
    requires writable { IsTrue F.writable }
    requires defs { AreDefs defs.now }
    requires pairs { AreSizedPairs defs.now pairs.items }
    ensures built { OnOk result (Told (F.holds files.old) (F.holds files.new)
        (Builds defs.now pairs.items file.now)) }
    ensures trees { IfOk result (AreTrees defs.now pairs.items) }
    ensures places { IfOk result (λ trees. All IsPlace trees.roots.items) }
    ensures ends { EndsIn file.now (F.holds files.old) (F.holds files.new)
        (F.faults files.old) (F.faults files.new) result }
{
    files.cut(file, 0)?;
    let mut cache = KeyCache::new(alloc, file, SETUP)?;
    let trees = lay_trees(alloc, files, &mut cache, defs, pairs)?;
    match cache.flush(files) {
        Ok(()) => Ok(trees),
        Err(fault) => Err(of_flush(fault)),
    }
}

// Puts the pages of the trees, key after key.
fn lay_trees<F: Files>(
    alloc: Global,
    files: &mut F,
    cache: &mut KeyCache,
    defs: &Defs,
    pairs: Vec<PairList>,
) -> Result<Trees, RepairFault>
    requires writable { IsTrue F.writable }
    requires sound { IsSound defs.now }
    requires pairs { AreSizedPairs defs.now pairs.items }
    ensures laid { OnOk result (Told (F.holds files.old) (F.holds files.new)
        (LaysTrees defs.now pairs.items cache.old cache.new)) }
    ensures trees { IfOk result (AreTrees defs.now pairs.items) }
    ensures places { IfOk result (λ trees. All IsPlace trees.roots.items) }
    ensures name { cache.new.name ≡ cache.old.name }
    ensures ends { EndsWith (Told (F.holds files.old) (F.holds files.new)
        (λ m n. CanLay cache.old m (first_page_of defs.now) → OthersStay cache.old.name m n))
        (F.faults files.old) (F.faults files.new) result }
{
    let mut room = Room {
        end: first_page(defs),
        free: Sequence::new(Vec::new(alloc)),
    };
    let mut trees = Trees::new(alloc, pairs.len(), room.end)?;
    for pairs in pairs {
        let place = place_of(defs, trees.roots.len() + 1);
        let root = build_tree(alloc, files, cache, place, &mut room, pairs)?;
        trees.push(root, room.end)?;
    }
    Ok(trees)
}

/// How the pages of the key of that number are made.
pub fn place_of(defs: &Defs, key: usize) -> Place
    requires { IsKeyNumber defs.now key }
    ensures { result ≡ place_of defs.now key }
{
    Place {
        block_length: defs.keys.as_slice()[key - 1].block_length,
        rec_ref: defs.rec_ref,
        root: None,
    }
}

// Sorts the pairs, builds their tree, and answers its root.
fn build_tree<F: Files>(
    alloc: Global,
    files: &mut F,
    cache: &mut KeyCache,
    place: Place,
    room: &mut Room,
    mut pairs: PairList,
) -> Result<Option<u64>, RepairFault>
    requires writable { IsTrue F.writable }
    requires placed { IsPlaced place }
    requires end { room.old.end % 1024 ≡ 0 }
    requires sized { AreSized place pairs }
    ensures laid { OnOk result (Told (F.holds files.old) (F.holds files.new) (λ m n.
        CanLay cache.old m room.old.end
        → Lays place room.old.end (laid_at place room.old.end (sorted pairs))
        cache.old cache.new m n)) }
    ensures root { IfOk result (λ root. root ≡ root_of place.block_length room.old.end
        (laid_at place room.old.end (sorted pairs))) }
    ensures end { OnOk result (room.new.end ≡ tree_end place room.old.end (sorted pairs)) }
    ensures name { cache.new.name ≡ cache.old.name }
    ensures ends { EndsWith (Told (F.holds files.old) (F.holds files.new)
        (λ m n. CanLay cache.old m room.old.end → OthersStay cache.old.name m n))
        (F.faults files.old) (F.faults files.new) result }
{
    pairs.sort();
    match Tree::build(alloc, files, cache, place, room, &pairs) {
        Ok(tree) => Ok(tree.root()),
        Err(fault) => Err(of_build(fault)),
    }
}

fn of_build(fault: TreeFault) -> RepairFault
    requires { (fault ≡ TreeFault.File) ⊎ (fault ≡ TreeFault.Memory) }
    ensures { HandsOn (TreeFault.File, RepairFault.File) (TreeFault.Memory, RepairFault.Memory)
        fault result }
{
    match fault {
        TreeFault::File => RepairFault::File,
        TreeFault::Memory => RepairFault::Memory,
        // Building meets no damage.
        TreeFault::Damaged { .. } => unreachable!(),
    }
}

fn of_flush(fault: CacheFault) -> RepairFault
    requires { (fault ≡ CacheFault.File) ⊎ (fault ≡ CacheFault.Memory) }
    ensures { HandsOn (CacheFault.File, RepairFault.File) (CacheFault.Memory, RepairFault.Memory)
        fault result }
{
    match fault {
        CacheFault::File => RepairFault::File,
        CacheFault::Memory => RepairFault::Memory,
        // Nor does a flush read.
        CacheFault::Short { .. } => unreachable!(),
    }
}
