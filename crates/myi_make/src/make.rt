//! Making a table of rows, and recovering it.
ghost use Rattle.std.specs.Prelude.{◌≡◌, ◌⊎◌, ◌/◌, ◌≤◌, None, IfOk, IfErr, OnOk, IsTrue};
ghost use Rattle.myi_base.specs.Holding.{Told};
ghost use Rattle.myi_base.specs.Causes.{HasCause};
ghost use Rattle.myi_repair.specs.Names.{names_for, KeepsBut};
ghost use Rattle.myi_make.specs.Making.{LeavesMade};
ghost use Rattle.myi_make.specs.Faults.{CutsOff};
ghost use Rattle.myi_make.specs.Filling.{HasDamaged};

use crate::damage::damage_blocks;
use crate::fault::MakeFault;
use crate::filling::fill_table;
use myi_check::check;
use myi_io::Files;
use myi_opening::TableFile;
use myi_pair::Finding;
use myi_repair::{Report, recover};
use std::alloc::Global;

/// A table that was made and recovered.
pub struct Made {
    /// How many blocks were damaged.
    pub damaged: u32,
    /// What the repair did.
    pub report: Report,
    /// What a check found then.
    pub found: Vec<Finding>,
}

impl Drop for Made {
    fn drop(self) {
        let Made {
            damaged: _,
            report: _,
            found: _,
        } = self;
    }
}

/// Makes a table of so many rows, damages every tenth, recovers the table and checks it. Files of the table's
/// names are replaced, and `now` is the moment, in seconds since 1970. The memory is first that of a table with a key
/// cache of 64 pages and a place for each damaged block, and then that of a repair.
pub fn make_table<F: Files>(
    alloc: Global,
    files: &mut F,
    name: &str,
    count: u32,
    seed: u64,
    now: u64,
) -> Result<Made, MakeFault>
    requires writable { IsTrue F.writable }
    requires some { 1 ≤ count }
    requires few { count ≤ 100000 }

    // The files are what a repair leaves of the damaged data file, and a check finds nothing in them.
    ensures made { IfOk result (λ made. Told (F.holds files.old) (F.holds files.new)
        (LeavesMade name.now count seed now made)) }
    ensures damaged { IfOk result (λ made. made.damaged ≡ count / 10) }

    // Files of other names stay.
    ensures others { Told (F.holds files.old) (F.holds files.new) (KeepsBut (names_for name.now)) }

    // Where the files tell what they hold, nothing but a failed file call or want of memory is in the way.
    ensures refused { IfErr result (λ f. CutsOff f ⊎ (F.holds files.old ≡ None)) }
    ensures cause { HasCause MakeFault.File (F.faults files.old) (F.faults files.new) result }
{
    make_damaged(alloc, files, name, count, seed)?;
    let report = recover(alloc, files, name, false, now)?;
    let found = check(alloc, files, name)?;
    Ok(Made {
        damaged: count / 10,
        report,
        found,
    })
}

// Makes the table with the damaged data file.
fn make_damaged<F: Files>(
    alloc: Global,
    files: &mut F,
    name: &str,
    count: u32,
    seed: u64,
) -> Result<(), MakeFault>
    requires writable { IsTrue F.writable }
    requires some { 1 ≤ count }
    requires few { count ≤ 100000 }
    ensures made { OnOk result (Told (F.holds files.old) (F.holds files.new)
        (HasDamaged name.now count seed)) }
    ensures others { Told (F.holds files.old) (F.holds files.new) (KeepsBut (names_for name.now)) }
    ensures refused { IfErr result (λ f. CutsOff f ⊎ (F.holds files.old ≡ None)) }
    ensures cause { HasCause MakeFault.File (F.faults files.old) (F.faults files.new) result }
{
    let rows = TableFile::Data.of(alloc, name)?;
    let blocks = fill_table(alloc, files, name, count, seed)?;
    damage_blocks(files, rows.as_str(), blocks.as_slice())?;
    Ok(())
}
