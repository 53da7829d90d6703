//! Sorting the pages of a table's index file.
ghost use Rattle.std.specs.Prelude.{◌⊎◌, [], IfOk, IfErr, OnErr, IsTrue};
ghost use Rattle.myi_base.specs.Holding.{IfTold, Told};
ghost use Rattle.myi_base.specs.Causes.{HasCause};
ghost use Rattle.myi_check.specs.Checking.{Finds};
ghost use Rattle.myi_repair.specs.Names.{names_for, new_index_file, KeepsBoth};
ghost use Rattle.myi_sortindex.specs.Refusals.{CutsOff, IsRefused, IsCleared};
ghost use Rattle.myi_sortindex.specs.Sorting.{Sorts, OthersStay};

use crate::fault::SortFault;
use crate::replacing::replace_index;
use myi_check::check;
use myi_io::Files;
use myi_opening::open_table;
use myi_repair::TableFiles;
use std::alloc::Global;

/// Lays the pages of the trees of a table with which nothing is wrong anew, each before those below it, one behind the
/// other, into a new index file, and answers how many there are. The new index file is `NAME.TMI` until it is whole.
/// After an error both files are as before.
pub fn sort_index<F: Files>(alloc: Global, files: &mut F, name: &str) -> Result<u64, SortFault>
    requires { IsTrue F.writable }

    // The data file stays, and the index file is the sorted one: clean again, with the same trees.
    ensures sorted { IfOk result (λ pages. Told (F.holds files.old) (F.holds files.new)
        (Sorts name.now pages)) }

    // What stays.
    ensures kept { OnErr result (Told (F.holds files.old) (F.holds files.new)
        (KeepsBoth (names_for name.now))) }
    ensures others { Told (F.holds files.old) (F.holds files.new) (OthersStay name.now) }
    ensures cleared { IfErr result (IsCleared (new_index_file name.now)
        (F.holds files.old) (F.holds files.new) (F.faults files.old) (F.faults files.new)) }

    // Why a table is refused, when nothing at all is changed, and what else an error tells.
    ensures refused { IfErr result (λ f.
        CutsOff f ⊎ IsRefused name.now f (F.holds files.old) (F.holds files.new)) }
    ensures cause { HasCause SortFault.File (F.faults files.old) (F.faults files.new) result }
{
    let found = check(alloc, files, name)?;
    if let Some(finding) = found.first() {
        return Err(SortFault::Damaged(*finding));
    }
    sort_clean(alloc, files, name)
}

// The same for a table with which nothing is wrong.
fn sort_clean<F: Files>(alloc: Global, files: &mut F, name: &str) -> Result<u64, SortFault>
    requires writable { IsTrue F.writable }
    requires clean { IfTold (F.holds files.old) (Finds name.now []) }
    ensures sorted { IfOk result (λ pages. Told (F.holds files.old) (F.holds files.new)
        (Sorts name.now pages)) }
    ensures kept { OnErr result (Told (F.holds files.old) (F.holds files.new)
        (KeepsBoth (names_for name.now))) }
    ensures others { Told (F.holds files.old) (F.holds files.new) (OthersStay name.now) }
    ensures cleared { IfErr result (IsCleared (new_index_file name.now)
        (F.holds files.old) (F.holds files.new) (F.faults files.old) (F.faults files.new)) }
    ensures refused { IfErr result (λ f.
        CutsOff f ⊎ IsRefused name.now f (F.holds files.old) (F.holds files.new)) }
    ensures cause { HasCause SortFault.File (F.faults files.old) (F.faults files.new) result }
{
    let table = TableFiles::of(alloc, name)?;
    let (index, rows) = (table.index.as_str(), table.rows.as_str());
    let opened = open_table(alloc, files, index, rows)?;
    replace_index(alloc, files, index, table.new_index.as_str(), &opened.defs)
}
