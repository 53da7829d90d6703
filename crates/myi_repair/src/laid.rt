//! The end of a repair whose trees are laid in memory: they are put into the working index file, each
//! behind the one before, and the new files take the place of the old ones.
ghost use Rattle.std.specs.Prelude.{◌≡◌, ◌<◌, ◌%◌, ◌^◌, ◌++◌, ◌∷◌, [], List, length, All, IfOk, OnOk, IsTrue};
ghost use Rattle.myi_base.specs.Holding.{Told, Writes};
ghost use Rattle.myi_defs.specs.ReadDefs.{AreDefs};
ghost use Rattle.myi_defs.specs.Sound.{IsSound};
ghost use Rattle.myi_header.specs.StateOf.{IsPlace};
ghost use Rattle.myi_keylist.specs.declared.pair.Pair.{Pair};
ghost use Rattle.myi_btree.specs.declared.place.Place.{Place};
ghost use Rattle.myi_btree.specs.Building.{laid_at};
ghost use Rattle.myi_btree.specs.LaidPages.{root_of};
ghost use Rattle.myi_btree.specs.TreePages.{tree_pages, tree_end};
ghost use Rattle.myi_repair.specs.Names.{names_of, AreApart, KeepsBoth, NoWorking};
ghost use Rattle.myi_repair.specs.Outcome.{EndsCutOff, EndsIn};
ghost use Rattle.myi_repair.specs.Building.{AreTrees, Builds};
ghost use Rattle.myi_repair.specs.LaidInMemory.{IsTreeOf, AreTreesOf};
ghost use Rattle.myi_repair.specs.Repaired.{Completes, CompletesPart, KeepsOrTakesRows};

use crate::fault::RepairFault;
use crate::finishing::finish_table;
use crate::gathering::Gathered;
use crate::names::TableFiles;
use crate::report::Report;
use crate::trees::Trees;
use myi_btree::Laid;
use myi_defs::Defs;
use myi_header::first_page;
use myi_io::Files;
use std::alloc::AllocError;

/// Puts the trees that were laid of the pairs that were gathered into the working index file, and puts
/// the new files in the place of the old ones. The pairs themselves are not looked at any more. Where
/// there was no memory for the trees, and after a refusal, the working files are taken away, each as far
/// as that succeeds.
pub fn complete_laid<F: Files>(
    files: &mut F,
    table: &TableFiles,
    gathered: &Gathered,
    laid: Result<Vec<Laid>, AllocError>,
    now: u64,
) -> Result<Report, RepairFault>
    requires writable { IsTrue F.writable }
    requires apart { AreApart (names_of table.now) }
    requires defs { AreDefs gathered.now.defs }
    requires laid { (pairs : List (List Pair))
        × IfOk laid (λ trees. AreTreesOf gathered.now.defs pairs trees.items) }
    ensures done { (pairs : List (List Pair))
        → IfOk laid (λ trees. AreTreesOf gathered.now.defs pairs trees.items)
        → OnOk result (Told (F.holds files.old) (F.holds files.new)
        (Completes (names_of table.now) (record gathered.now { pairs = pairs }) now)) }
    ensures said { IfOk result (λ said. said ≡ gathered.now.report) }
    ensures whole { (pairs : List (List Pair))
        → IfOk laid (λ trees. AreTreesOf gathered.now.defs pairs trees.items)
        → Told (F.holds files.old) (F.holds files.new)
        (CompletesPart (names_of table.now) (record gathered.now { pairs = pairs }) now) }
    ensures rows { Told (F.holds files.old) (F.holds files.new)
        (KeepsOrTakesRows (names_of table.now)) }
    ensures gone { OnOk result (Told (F.holds files.old) (F.holds files.new)
        (λ _ n. NoWorking (names_of table.now) n)) }
    ensures ends { EndsCutOff (names_of table.now) (F.holds files.old) (F.holds files.new)
        (F.faults files.old) (F.faults files.new) result }
{
    let trees = put_laid(files, table, &gathered.defs, laid)?;
    finish_table(files, table, gathered, &trees.roots, trees.end, now)?;
    Ok(gathered.report)
}

// Puts the trees into the working index file, and takes the working files away where that is refused.
fn put_laid<F: Files>(
    files: &mut F,
    table: &TableFiles,
    defs: &Defs,
    laid: Result<Vec<Laid>, AllocError>,
) -> Result<Trees, RepairFault>
    requires writable { IsTrue F.writable }
    requires apart { AreApart (names_of table.now) }
    requires defs { AreDefs defs.now }
    requires laid { (pairs : List (List Pair))
        × IfOk laid (λ trees. AreTreesOf defs.now pairs trees.items) }
    ensures built { (pairs : List (List Pair))
        → IfOk laid (λ trees. AreTreesOf defs.now pairs trees.items)
        → OnOk result (Told (F.holds files.old) (F.holds files.new)
        (Builds defs.now pairs (names_of table.now).new_index)) }
    ensures rows { OnOk result (Told (F.holds files.old) (F.holds files.new)
        (λ m n. n (names_of table.now).new_rows ≡ m (names_of table.now).new_rows)) }
    ensures trees { (pairs : List (List Pair))
        → IfOk laid (λ trees. AreTreesOf defs.now pairs trees.items)
        → IfOk result (AreTrees defs.now pairs) }
    ensures counted { (pairs : List (List Pair))
        → IfOk laid (λ trees. AreTreesOf defs.now pairs trees.items)
        → OnOk result (length pairs ≡ length defs.now.keys) }
    ensures places { IfOk result (λ trees. All IsPlace trees.roots.items) }
    ensures both { Told (F.holds files.old) (F.holds files.new) (KeepsBoth (names_of table.now)) }
    ensures ends { EndsCutOff (names_of table.now) (F.holds files.old) (F.holds files.new)
        (F.faults files.old) (F.faults files.new) result }
{
    match put_if_laid(files, table.new_index.as_str(), defs, laid) {
        Ok(trees) => Ok(trees),
        Err(fault) => {
            table.clear(files);
            Err(fault)
        }
    }
}

// Puts the trees into the file of that name, if there was memory for them.
fn put_if_laid<F: Files>(
    files: &mut F,
    file: &str,
    defs: &Defs,
    laid: Result<Vec<Laid>, AllocError>,
) -> Result<Trees, RepairFault>
    requires writable { IsTrue F.writable }
    requires defs { AreDefs defs.now }
    requires laid { (pairs : List (List Pair))
        × IfOk laid (λ trees. AreTreesOf defs.now pairs trees.items) }
    ensures built { (pairs : List (List Pair))
        → IfOk laid (λ trees. AreTreesOf defs.now pairs trees.items)
        → OnOk result (Told (F.holds files.old) (F.holds files.new)
        (Builds defs.now pairs file.now)) }
    ensures trees { (pairs : List (List Pair))
        → IfOk laid (λ trees. AreTreesOf defs.now pairs trees.items)
        → IfOk result (AreTrees defs.now pairs) }
    ensures counted { (pairs : List (List Pair))
        → IfOk laid (λ trees. AreTreesOf defs.now pairs trees.items)
        → OnOk result (length pairs ≡ length defs.now.keys) }
    ensures places { IfOk result (λ trees. All IsPlace trees.roots.items) }
    ensures ends { EndsIn file.now (F.holds files.old) (F.holds files.new)
        (F.faults files.old) (F.faults files.new) result }
{
    put_trees(files, file, defs, laid?)
}

// Puts the trees into the file of that name, which is made anew. The pages stand from the first page place on,
// key after key.
fn put_trees<F: Files>(
    files: &mut F,
    file: &str,
    defs: &Defs,
    laid: Vec<Laid>,
) -> Result<Trees, RepairFault>
    requires writable { IsTrue F.writable }
    requires sound { IsSound defs.now }
    requires laid { (pairs : List (List Pair)) × AreTreesOf defs.now pairs laid.items }
    ensures built { (pairs : List (List Pair)) → AreTreesOf defs.now pairs laid.items
        → OnOk result (Told (F.holds files.old) (F.holds files.new)
        (Builds defs.now pairs file.now)) }
    ensures trees { (pairs : List (List Pair)) → AreTreesOf defs.now pairs laid.items
        → IfOk result (AreTrees defs.now pairs) }
    ensures places { IfOk result (λ trees. All IsPlace trees.roots.items) }
    ensures ends { EndsIn file.now (F.holds files.old) (F.holds files.new)
        (F.faults files.old) (F.faults files.new) result }
{
    files.cut(file, 0)?;
    let alloc = defs.raw.allocator();
    let mut trees = Trees::new(alloc, laid.len(), first_page(defs))?;
    for tree in laid {
        put_tree(files, file, &mut trees, tree)?;
    }
    Ok(trees)
}

// Puts the pages of a tree behind those that stand there. The only fault besides those of the file is that
// memory or places run out.
fn put_tree<F: Files>(
    files: &mut F,
    file: &str,
    trees: &mut Trees,
    mut tree: Laid,
) -> Result<(), RepairFault>
    requires writable { IsTrue F.writable }
    requires end { trees.old.end % 1024 ≡ 0 }
    requires tree { (place : Place) × (pairs : List Pair) × IsTreeOf place pairs tree }
    ensures written { (place : Place) (pairs : List Pair) → IsTreeOf place pairs tree
        → OnOk result (Told (F.holds files.old) (F.holds files.new)
        (Writes file.now trees.old.end (tree_pages place trees.old.end pairs))) }
    ensures root { (place : Place) (pairs : List Pair) → IsTreeOf place pairs tree
        → OnOk result (trees.new.roots.items ≡ trees.old.roots.items
        ++ root_of place.block_length trees.old.end
        (laid_at place trees.old.end pairs) ∷ []) }
    ensures end { (place : Place) (pairs : List Pair) → IsTreeOf place pairs tree
        → OnOk result (trees.new.end ≡ tree_end place trees.old.end pairs) }
    ensures fits { OnOk result (trees.new.end < 2 ^ 64) }
    ensures ends { EndsIn file.now (F.holds files.old) (F.holds files.new)
        (F.faults files.old) (F.faults files.new) result }
{
    let start = trees.end;
    let Some(end) = start.checked_add(tree.pages.len() as u64) else {
        return Err(RepairFault::Memory);
    };
    tree.shift(start);
    files.write_at(file, start, &tree.pages)?;
    trees.push(tree.place.root, end)?;
    Ok(())
}
