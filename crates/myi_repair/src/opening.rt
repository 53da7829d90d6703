//! Opening a table that is to be repaired.
ghost use Rattle.std.specs.Prelude.{◌≡◌, ◌⊎◌, true, IfOk, IfErr};
ghost use Rattle.myi_base.specs.Holding.{IfTold};
ghost use Rattle.myi_base.specs.Causes.{HasCause};
ghost use Rattle.myi_base.specs.Numbers.{AreBytes};
ghost use Rattle.myi_defs.specs.Addressable.{is_addressable};
ghost use Rattle.myi_defs.specs.ReadDefs.{AreDefs};
ghost use Rattle.myi_repair.specs.Names.{names_of};
ghost use Rattle.myi_repair.specs.Opening.{HasTable, Refuses, CutsOff};

use crate::fault::RepairFault;
use crate::names::TableFiles;
use myi_io::Files;
use myi_opening::{OpenedTable, open_table};
use std::alloc::Global;

/// Opens a table whose row pointers reach the whole data file. The files stay as they are.
pub fn open_reached<F: Files>(
    alloc: Global,
    files: &mut F,
    table: &TableFiles,
) -> Result<OpenedTable, RepairFault>
    ensures table { IfOk result (λ o.
        IfTold (F.holds files.old) (HasTable (names_of table.now) o.defs o.length)) }
    ensures defs { IfOk result (λ o. AreDefs o.defs) }
    ensures header { IfOk result (λ o. AreBytes o.defs.raw) }
    ensures reached { IfOk result (λ o. is_addressable o.defs o.length ≡ true) }
    ensures refused { IfErr result (λ f.
        CutsOff f ⊎ IfTold (F.holds files.old) (Refuses (names_of table.now) f)) }
    ensures holds { F.holds files.new ≡ F.holds files.old }
    ensures cause { HasCause RepairFault.File (F.faults files.old) (F.faults files.new) result }
{
    let opened = open_table(alloc, files, table.index.as_str(), table.rows.as_str())?;
    if !opened.defs.addressable(opened.length) {
        return Err(RepairFault::TooLong);
    }
    Ok(opened)
}
