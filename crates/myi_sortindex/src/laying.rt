//! Laying the trees of all keys of an index file into another one, key after key.
ghost use Rattle.std.specs.Prelude.{◌≡◌, ◌≢◌, ◌⊎◌, ◌≤◌, ◌+◌, ◌%◌, ◌∷◌, ◌++◌, [], All, length, IfOk, IfErr, OnOk, IsTrue};
ghost use Rattle.std.specs.Prelude as std;
ghost use Rattle.myi_base.specs.Holding.{IfTold, Told, OthersStay, bytes_of};
ghost use Rattle.myi_base.specs.Causes.{HasCause};
ghost use Rattle.myi_defs.specs.Sound.{IsSound};
ghost use Rattle.myi_header.specs.Layout.{first_page_of};
ghost use Rattle.myi_header.specs.StateOf.{IsPlace};
ghost use Rattle.myi_btree.specs.Sizes.{IsPlaced};
ghost use Rattle.myi_sortindex.specs.Refusals.{CutsOff};
ghost use Rattle.myi_sortindex.specs.Sorting.{root_at};
ghost use Rattle.myi_sortindex.specs.Laying.{LaysNext, LaysAll, HasNoRoom, HaveNoRoom, copy_fault};

use crate::fault::SortFault;
use myi_btree::{Place, walks_depend_on_their_pages};
use myi_defs::Defs;
use myi_header::first_page;
use myi_io::Files;
use myi_pair::Finding;
use myi_repair::place_of;
use myi_treecopy::{CopyFault, TreeCopy, copy_tree};
use std::alloc::Global;

/// From where and to where the trees of an index file are laid.
#[derive(Clone, Copy)]
pub(crate) struct IndexCopy<'a> {
    pub(crate) alloc: Global,
    pub(crate) index: &'a str,
    pub(crate) working: &'a str,
    /// No page ends behind this place of the working file.
    pub(crate) limit: u64,
}

/// The trees that were laid so far.
#[derive(Drop)]
pub(crate) struct LaidTrees {
    /// The root of each key's tree, and None where it has no pair.
    pub(crate) roots: Vec<Option<u64>>,
    /// The place behind their pages.
    pub(crate) end: u64,
    /// How many pages they have.
    pub(crate) pages: u64,
}

/// Lays the trees of these roots, one for each key, into the working file, which ends at the first page place.
pub(crate) fn lay_trees<F: Files>(
    copy: &IndexCopy,
    files: &mut F,
    defs: &Defs,
    roots: &[Option<u64>],
) -> Result<LaidTrees, SortFault>
    requires writable { IsTrue F.writable }
    requires sound { IsSound defs.now }
    requires apart { copy.now.index.now ≢ copy.now.working.now }
    requires roots { length roots.now ≡ length defs.now.keys }
    requires long { IfTold (F.holds files.old)
        (λ m. length (bytes_of copy.now.working.now m) ≡ first_page_of defs.now) }
    ensures laid { IfOk result (λ laid. Told (F.holds files.old) (F.holds files.new)
        (LaysAll copy.now defs.now roots.now laid)) }
    ensures count { IfOk result (λ laid. length laid.roots.items ≡ length roots.now) }
    ensures places { IfOk result (λ laid. All IsPlace laid.roots.items) }
    ensures others { Told (F.holds files.old) (F.holds files.new)
        (OthersStay copy.now.working.now) }
    ensures refused { IfErr result (λ f. CutsOff f
        ⊎ IfTold (F.holds files.old) (HaveNoRoom copy.now defs.now roots.now)) }
    ensures cause { HasCause SortFault.File (F.faults files.old) (F.faults files.new) result }
{
    walks_depend_on_their_pages();
    let mut laid = LaidTrees {
        roots: Vec::with_capacity(copy.alloc, roots.len())?,
        end: first_page(defs),
        pages: 0,
    };
    for i in 0..roots.len() {
        let place = place_of(defs, i + 1);
        lay_tree(copy, files, place, i as u8 + 1, roots[i], &mut laid)?;
    }
    Ok(laid)
}

// Lays the tree of the key of that number behind the others.
fn lay_tree<F: Files>(
    copy: &IndexCopy,
    files: &mut F,
    place: Place,
    key: u8,
    root: Option<u64>,
    laid: &mut LaidTrees,
) -> Result<(), SortFault>
    requires writable { IsTrue F.writable }
    requires apart { copy.now.index.now ≢ copy.now.working.now }
    requires placed { IsPlaced place }
    requires whole { laid.old.end % 1024 ≡ 0 }
    requires few { laid.old.pages ≤ laid.old.end }
    requires long { IfTold (F.holds files.old)
        (λ m. length (bytes_of copy.now.working.now m) ≡ laid.old.end) }
    ensures tree { OnOk result (Told (F.holds files.old) (F.holds files.new)
        (LaysNext copy.now place root laid.old laid.new)) }
    ensures root { OnOk result (laid.new.roots.items
        ≡ laid.old.roots.items ++ root_at laid.old.end root ∷ []) }
    ensures behind { OnOk result (laid.old.end ≤ laid.new.end) }
    ensures whole { OnOk result (laid.new.end % 1024 ≡ 0) }
    ensures few { OnOk result (laid.new.pages ≤ laid.new.end) }
    ensures others { Told (F.holds files.old) (F.holds files.new)
        (OthersStay copy.now.working.now) }
    ensures refused { IfErr result (λ f. CutsOff f
        ⊎ IfTold (F.holds files.old) (HasNoRoom copy.now place root laid.old.end)) }
    ensures cause { HasCause SortFault.File (F.faults files.old) (F.faults files.new) result }
{
    let start = laid.end;
    laid.roots.push(root.map(|_| start))?;
    let Some(root) = root else {
        return Ok(());
    };
    let tree = TreeCopy {
        alloc: copy.alloc,
        old: copy.index,
        new: copy.working,
        place,
        limit: copy.limit,
    };
    let end = match copy_tree(&tree, files, root, start) {
        Ok(end) => end,
        Err(fault) => return Err(of_copy(key, fault)),
    };
    laid.pages += (end - start) / place.block_length as u64;
    laid.end = end;
    Ok(())
}

// Why the tree of a key is not laid.
fn of_copy(key: u8, fault: CopyFault) -> SortFault
    ensures { result ≡ copy_fault key fault }
{
    match fault {
        CopyFault::Damaged { at } => SortFault::Damaged(Finding::Key { key, at }),
        CopyFault::File => SortFault::File,
        CopyFault::Memory => SortFault::Memory,
    }
}
