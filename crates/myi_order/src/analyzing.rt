//! Analyzing a table: how many rows go to one prefix of each of its keys, and these numbers in its index file.
ghost use Rattle.std.specs.Prelude.{◌<◌, ◌^◌, ◌⊎◌, [], IfOk, IfErr, OnErr, OnOk, IsTrue};
ghost use Rattle.std.specs.List.{AllByRecursion};
ghost use Rattle.myi_base.specs.Holding.{IfTold, Told};
ghost use Rattle.myi_base.specs.Causes.{HasCause};
ghost use Rattle.myi_defs.specs.Sound.{IsSound};
ghost use Rattle.myi_repair.specs.Names.{names_of, new_index_file, AreApart};
ghost use Rattle.myi_check.specs.Checking.{Finds};
ghost use Rattle.myi_order.specs.Faults.{CutsOff, IsCleared, MissesNoKey};
ghost use Rattle.myi_order.specs.Numbers.{all_per};
ghost use Rattle.myi_order.specs.Storing.{KeepsIndex, OthersStayOf, Stores};
ghost use Rattle.myi_order.specs.Analyzing.{IsRefused, Analyzes, KeepsBoth, OthersStay};

use crate::counting::{Counted, count_trees};
use crate::fault::OrderFault;
use crate::key_parts::KeyParts;
use crate::laws::analyzed_tables_are_clean;
use crate::numbers::all_numbers;
use crate::storing::replace_index;
use myi_check::check;
use myi_defs::{Defs, definitions_are_sound};
use myi_header::new_numbers;
use myi_io::Files;
use myi_opening::open_table;
use myi_repair::TableFiles;
use std::alloc::Global;

/// Counts how many rows go to one prefix of each key of a table with which nothing is wrong, and stores
/// these numbers and the number of rows in its index file, which is then said to be analyzed. The new index
/// file is `NAME.TMI` until it is whole. After an error both files are as before.
pub fn analyze<F: Files>(
    alloc: Global,
    files: &mut F,
    name: &str,
) -> Result<Vec<KeyParts>, OrderFault>
    requires { IsTrue F.writable }

    // The rows per prefix of all keys, and the index file with their numbers.
    ensures analyzed { IfOk result (λ parts. Told (F.holds files.old) (F.holds files.new)
        (Analyzes name.now parts.items)) }

    // No number is greater than four bytes hold, over any files.
    ensures small { IfOk result (λ parts.
        AllByRecursion (λ n. n < 256 ^ 4) (all_per parts.items)) }

    // What stays.
    ensures kept { OnErr result (Told (F.holds files.old) (F.holds files.new)
        (KeepsBoth name.now)) }
    ensures others { Told (F.holds files.old) (F.holds files.new) (OthersStay name.now) }
    ensures cleared { IfErr result (IsCleared (new_index_file name.now)
        (F.holds files.old) (F.holds files.new) (F.faults files.old) (F.faults files.new)) }

    // Why a table is refused, when nothing at all is changed, and what else an error tells. A missing key is
    // never told.
    ensures refused { IfErr result (λ f.
        CutsOff f ⊎ IsRefused name.now f (F.holds files.old) (F.holds files.new)) }
    ensures keys { IfErr result MissesNoKey }
    ensures cause { HasCause OrderFault.File (F.faults files.old) (F.faults files.new) result }
{
    let found = check(alloc, files, name)?;
    if let Some(finding) = found.first() {
        return Err(OrderFault::Damaged(*finding));
    }
    analyze_clean(alloc, files, name)
}

// The same for a table with which nothing is wrong.
fn analyze_clean<F: Files>(
    alloc: Global,
    files: &mut F,
    name: &str,
) -> Result<Vec<KeyParts>, OrderFault>
    requires writable { IsTrue F.writable }
    requires clean { IfTold (F.holds files.old) (Finds name.now []) }
    ensures analyzed { IfOk result (λ parts. Told (F.holds files.old) (F.holds files.new)
        (Analyzes name.now parts.items)) }
    ensures small { IfOk result (λ parts.
        AllByRecursion (λ n. n < 256 ^ 4) (all_per parts.items)) }
    ensures kept { OnErr result (Told (F.holds files.old) (F.holds files.new)
        (KeepsBoth name.now)) }
    ensures others { Told (F.holds files.old) (F.holds files.new) (OthersStay name.now) }
    ensures cleared { IfErr result (IsCleared (new_index_file name.now)
        (F.holds files.old) (F.holds files.new) (F.faults files.old) (F.faults files.new)) }
    ensures refused { IfErr result (λ f.
        CutsOff f ⊎ IsRefused name.now f (F.holds files.old) (F.holds files.new)) }
    ensures keys { IfErr result MissesNoKey }
    ensures cause { HasCause OrderFault.File (F.faults files.old) (F.faults files.new) result }
{
    definitions_are_sound();
    analyzed_tables_are_clean();
    let table = TableFiles::of(alloc, name)?;
    let opened = open_table(alloc, files, table.index.as_str(), table.rows.as_str())?;
    let counted = count_trees(alloc, files, table.index.as_str(), &opened.defs)?;
    store(alloc, files, &table, &opened.defs, &counted)?;
    Ok(counted.parts)
}

// Stores what was counted of a table with these definitions in its index file.
fn store<F: Files>(
    alloc: Global,
    files: &mut F,
    table: &TableFiles,
    defs: &Defs,
    counted: &Counted,
) -> Result<(), OrderFault>
    requires writable { IsTrue F.writable }
    requires apart { AreApart (names_of table.now) }
    requires sound { IsSound defs.now }
    requires small { AllByRecursion (λ n. n < 256 ^ 4) (all_per counted.now.parts.items) }
    ensures stored { OnOk result (Told (F.holds files.old) (F.holds files.new)
        (Stores (names_of table.now).index (names_of table.now).new_index defs.now counted.now)) }
    ensures kept { OnErr result (Told (F.holds files.old) (F.holds files.new)
        (KeepsIndex (names_of table.now).index)) }
    ensures others { Told (F.holds files.old) (F.holds files.new)
        (OthersStayOf (names_of table.now).index (names_of table.now).new_index) }
    ensures cleared { IfErr result (IsCleared (names_of table.now).new_index
        (F.holds files.old) (F.holds files.new) (F.faults files.old) (F.faults files.new)) }
    ensures cut { IfErr result CutsOff }
    ensures cause { HasCause OrderFault.File (F.faults files.old) (F.faults files.new) result }
{
    definitions_are_sound();
    let parts = all_numbers(alloc, &counted.parts)?;
    let numbers = new_numbers(alloc, defs, counted.rows, &parts)?;
    let working = table.new_index.as_str();
    replace_index(alloc, files, table.index.as_str(), working, &numbers)
}
