//! Repairing a table row by row.
ghost use Rattle.std.specs.Prelude.{IfOk, IsTrue};
ghost use Rattle.myi_base.specs.Holding.{Told};
ghost use Rattle.myi_repair.specs.Names.{names_for};
ghost use Rattle.myi_repair.specs.Outcome.{Ends};
ghost use Rattle.myi_saferepair.specs.Repaired.{LeavesRepaired, OldOrNew};

use crate::fault::Stop;
use crate::filling::fill;
use myi_io::Files;
use myi_keytrees::walks_stay_between;
use myi_repair::{RepairFault, Report, TableFiles, finish_table, open_reached, recover};
use std::alloc::Global;

/// Repairs a table as `recover` does, but puts the pairs of each row that is kept into the trees before the next row
/// is read. `extend` has every position of a dynamic table tried; `now` is the moment, in seconds since 1970.
pub fn safe_recover<F: Files>(
    alloc: Global,
    files: &mut F,
    name: &str,
    extend: bool,
    now: u64,
) -> Result<Report, RepairFault>
    requires { IsTrue F.writable }

    // The data file is the recovered one, and the two files are recovered, with trees that stand anywhere; the report
    // says how many rows and bytes.
    ensures repaired { IfOk result (λ said. Told (F.holds files.old) (F.holds files.new)
        (LeavesRepaired name.now extend now said)) }

    // At every outcome the table's files are the old ones or whole new ones.
    ensures files { Told (F.holds files.old) (F.holds files.new) (OldOrNew name.now extend now) }

    // Why a table is refused, and what is left then; other files stay.
    ensures ends { Ends (names_for name.now) (F.holds files.old) (F.holds files.new)
        (F.faults files.old) (F.faults files.new) result }
{
    walks_stay_between();
    let table = TableFiles::of(alloc, name)?;
    let opened = open_reached(alloc, files, &table)?;
    let stop = match fill(alloc, files, &table, opened, extend) {
        Ok(filled) => {
            finish_table(
                files,
                &table,
                &filled.gathered,
                &filled.roots,
                filled.end,
                now,
            )?;
            return Ok(filled.gathered.report);
        }
        Err(stop) => stop,
    };
    table.clear(files);
    match stop {
        Stop::Damaged => recover(alloc, files, name, extend, now),
        Stop::Cut(fault) => Err(fault),
    }
}
