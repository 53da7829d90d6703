//! Laying one tree: a page, behind it what stands below its first child, then what stands below the second, and so
//! on.
ghost use Rattle.std.specs.Prelude.{◌≡◌, ◌+◌, ◌%◌, ◌≤◌, Some, IfOk, IfErr, OnOk, IsTrue};
ghost use Rattle.myi_base.specs.Holding.{IfTold, Told, OthersStay};
ghost use Rattle.myi_base.specs.Causes.{HasCause};
ghost use Rattle.myi_treecopy.specs.declared.fault.CopyFault.TheVariants.{File};
ghost use Rattle.myi_treecopy.specs.Copying.{IsMade, CutsOrLacks, EndsBefore, Copies, LaysWhole, NoTree, NoTreeWithin};

use crate::fault::CopyFault;
use crate::page::{TreeCopy, children_of};
use myi_base::slices_are_bytes;
use myi_btree::{index_pages_are_nodes, walks_depend_on_their_pages};
use myi_io::Files;
use myi_keypage::{entries_fit, pages_read_back, put_children};

// The most levels that a tree has below its root: one with more levels has more pages than there are places, since
// each page that is no leaf has two children at least.
const MOST_LEVELS: u64 = 64;

// Lays the tree below the page at a place of the old file from a place of the new one on, and answers where it ends
// there. Of a tree of more than so many levels below its root a page that stands too deep is answered by `Damaged`.
fn lay<F: Files>(
    tree: &TreeCopy,
    files: &mut F,
    at: u64,
    start: u64,
    levels: u64,
) -> Result<u64, CopyFault>
    requires writable { IsTrue F.writable }
    requires made { IsMade tree.now }
    requires whole { start % 1024 ≡ 0 }
    requires short { IfTold (F.holds files.old) (EndsBefore tree.now start) }
    ensures copies { IfOk result (λ end. Told (F.holds files.old) (F.holds files.new)
        (Copies tree.now at start end)) }
    ensures some { IfOk result (λ end. start + tree.now.place.block_length ≤ end) }
    ensures inside { IfOk result (λ end. end ≤ tree.now.limit) }
    ensures place { IfOk result (λ end. end % 1024 ≡ 0) }
    ensures others { Told (F.holds files.old) (F.holds files.new) (OthersStay tree.now.new.now) }
    ensures never { IfErr result (CutsOrLacks (λ m. F.holds files.old ≡ Some m
        → NoTreeWithin tree.now levels at start m)) }
    ensures cause { HasCause File (F.faults files.old) (F.faults files.new) result }
{
    pages_read_back();
    entries_fit();
    walks_depend_on_their_pages();
    let mut page = tree.read(files, at)?;
    slices_are_bytes(&page);
    let Some(mut children) = children_of(tree.alloc, &page, tree.place.rec_ref)? else {
        return Err(CopyFault::Damaged { at });
    };
    let mut end = tree.behind(at, start)?;
    if levels == 0 && !children.is_empty() {
        return Err(CopyFault::Damaged { at });
    }
    for i in 0..children.len() {
        let child = children[i];
        children[i] = end;
        end = lay(tree, files, child, end, levels - 1)?;
    }
    put_children(&mut page, tree.place.rec_ref, &children);
    files.write_at(tree.new, start, &page)?;
    Ok(end)
}

/// Lays the tree whose root stands at a place of the old file into the new file, from a place on that is a multiple
/// of 1024 and behind which the new file has nothing, and answers where it ends there: `start` and the length of a
/// page for each of its pages. `Damaged` comes only where no such tree is there, or no room for it before the limit;
/// its place is that of the first page, in the order of the walk, that is none, has no room, or has children
/// though it stands 64 levels below the root, as where a page names itself. After an error the new file may have
/// pages of the tree from `start` on, each with what stands below it, and of one whose write failed a first part.
pub fn copy_tree<F: Files>(
    tree: &TreeCopy,
    files: &mut F,
    root: u64,
    start: u64,
) -> Result<u64, CopyFault>
    requires writable { IsTrue F.writable }
    requires made { IsMade tree.now }
    requires whole { start % 1024 ≡ 0 }
    requires short { IfTold (F.holds files.old) (EndsBefore tree.now start) }
    ensures copies { IfOk result (λ end. Told (F.holds files.old) (F.holds files.new)
        (Copies tree.now root start end)) }
    ensures bytes { OnOk result (Told (F.holds files.old) (F.holds files.new)
        (LaysWhole tree.now root start)) }
    ensures some { IfOk result (λ end. start + tree.now.place.block_length ≤ end) }
    ensures inside { IfOk result (λ end. end ≤ tree.now.limit) }
    ensures place { IfOk result (λ end. end % 1024 ≡ 0) }
    ensures others { Told (F.holds files.old) (F.holds files.new) (OthersStay tree.now.new.now) }
    ensures never { IfErr result (CutsOrLacks (λ m. F.holds files.old ≡ Some m
        → NoTree tree.now root start m)) }
    ensures cause { HasCause File (F.faults files.old) (F.faults files.new) result }
{
    pages_read_back();
    index_pages_are_nodes();
    let _limit = tree.limit;
    lay(tree, files, root, start, MOST_LEVELS)
}
