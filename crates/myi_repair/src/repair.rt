//! Repairing a table.
ghost use Rattle.std.specs.Prelude.{◌≡◌, [], All, IfOk, OnOk, IsTrue};
ghost use Rattle.myi_base.specs.Holding.{Told};
ghost use Rattle.myi_defs.specs.ReadDefs.{AreDefs};
ghost use Rattle.myi_header.specs.StateOf.{IsPlace};
ghost use Rattle.myi_repair.specs.Names.{names_of, names_for, AreApart, KeepsBoth};
ghost use Rattle.myi_repair.specs.Outcome.{Ends, EndsCutOff};
ghost use Rattle.myi_repair.specs.Sized.{AreSizedPairs};
ghost use Rattle.myi_repair.specs.Building.{trees_of, AreTrees, Builds};
ghost use Rattle.myi_repair.specs.Repaired.{LeavesRepaired, OldOrNew, Completes, CompletesPart};

use crate::fault::RepairFault;
use crate::finishing::finish_table;
use crate::gathering::{Gathered, gather_table};
use crate::names::TableFiles;
use crate::report::Report;
use crate::trees::{Trees, build_trees};
use myi_base::Sequence;
use myi_io::Files;
use std::alloc::Global;
use std::mem;

/// Repairs a table: its readable rows, less those that repeat a unique key of one kept before, go into a
/// new data file, and the trees of their keys into a new index file. `extend` has every position of a
/// dynamic table tried; `now` is the moment, in seconds since 1970.
pub fn recover<F: Files>(
    alloc: Global,
    files: &mut F,
    name: &str,
    extend: bool,
    now: u64,
) -> Result<Report, RepairFault>
    requires { IsTrue F.writable }

    // The two files are the recovered bytes, which are recovered; the report says how many rows and bytes.
    ensures repaired { IfOk result (λ said. Told (F.holds files.old) (F.holds files.new)
        (LeavesRepaired name.now extend now said)) }

    // At every outcome the table's files are the old ones or whole new ones.
    ensures files { Told (F.holds files.old) (F.holds files.new) (OldOrNew name.now extend now) }

    // Why a table is refused, and what is left then; other files stay.
    ensures ends { Ends (names_for name.now) (F.holds files.old) (F.holds files.new)
        (F.faults files.old) (F.faults files.new) result }
{
    let table = TableFiles::of(alloc, name)?;
    let gathered = gather_table(alloc, files, &table, extend)?;
    complete(alloc, files, &table, gathered, now)
}

/// Builds the trees of what was gathered, of whatever rows, and puts the new files in the place of the old
/// ones. After a refusal the working files are taken away, each as far as that succeeds.
pub fn complete<F: Files>(
    alloc: Global,
    files: &mut F,
    table: &TableFiles,
    mut gathered: Gathered,
    now: u64,
) -> Result<Report, RepairFault>
    requires writable { IsTrue F.writable }
    requires apart { AreApart (names_of table.now) }
    requires defs { AreDefs gathered.defs }
    requires pairs { AreSizedPairs gathered.defs gathered.pairs }
    ensures done { OnOk result (Told (F.holds files.old) (F.holds files.new)
        (Completes (names_of table.now) gathered now)) }
    ensures said { IfOk result (λ said. said ≡ gathered.report) }
    ensures whole { Told (F.holds files.old) (F.holds files.new)
        (CompletesPart (names_of table.now) gathered now) }
    ensures ends { EndsCutOff (names_of table.now) (F.holds files.old) (F.holds files.new)
        (F.faults files.old) (F.faults files.new) result }
{
    let trees = build(alloc, files, table, &mut gathered)?;
    finish_table(files, table, &gathered, &trees.roots, trees.end, now)?;
    Ok(gathered.report)
}

// Builds the trees of the pairs in the working index file, and takes the working files away where that is
// refused.
fn build<F: Files>(
    alloc: Global,
    files: &mut F,
    table: &TableFiles,
    gathered: &mut Gathered,
) -> Result<Trees, RepairFault>
    requires writable { IsTrue F.writable }
    requires apart { AreApart (names_of table.now) }
    requires defs { AreDefs gathered.old.defs }
    requires pairs { AreSizedPairs gathered.old.defs gathered.old.pairs }
    ensures left { gathered.new ≡ record gathered.old { pairs = [] } }
    ensures built { OnOk result (Told (F.holds files.old) (F.holds files.new)
        (Builds gathered.old.defs gathered.old.pairs (names_of table.now).new_index)) }
    ensures rows { OnOk result (Told (F.holds files.old) (F.holds files.new)
        (λ m n. n (names_of table.now).new_rows ≡ m (names_of table.now).new_rows)) }
    ensures trees { IfOk result (AreTrees gathered.old.defs gathered.old.pairs) }
    ensures places { IfOk result (λ trees. All IsPlace trees.roots.items) }
    ensures both { Told (F.holds files.old) (F.holds files.new) (KeepsBoth (names_of table.now)) }
    ensures ends { EndsCutOff (names_of table.now) (F.holds files.old) (F.holds files.new)
        (F.faults files.old) (F.faults files.new) result }
{
    let none = Sequence::new(Vec::new(alloc));
    let pairs = mem::replace(&mut gathered.pairs, none).into_vec();
    let index = table.new_index.as_str();
    match build_trees(alloc, files, index, &gathered.defs, pairs) {
        Ok(trees) => Ok(trees),
        Err(fault) => {
            table.clear(files);
            Err(fault)
        }
    }
}
