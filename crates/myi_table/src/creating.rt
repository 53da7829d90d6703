//! Making an empty table.
ghost use Rattle.std.specs.Prelude.{◌≡◌, [], OnOk, OnErr, IsTrue};
ghost use Rattle.myi_base.specs.Holding.{Told};
ghost use Rattle.myi_base.specs.Causes.{HasCause};
ghost use Rattle.myi_base.specs.Numbers.{AreBytes};
ghost use Rattle.myi_defs.specs.declared.types.Defs.{Defs};
ghost use Rattle.myi_defs.specs.EmptyTable.{empty_header};
ghost use Rattle.myi_defs.specs.ReadDefs.{AreDefs};
ghost use Rattle.myi_create.specs.declared.fault.CreateFault.TheVariants as create;
ghost use Rattle.myi_create.specs.Creating.{IsCutOff, PutsPart};
ghost use Rattle.myi_create.specs.Names.{names_for};
ghost use Rattle.myi_io.specs.declared.files.FileErr.TheVariants.{Failed};
ghost use Rattle.myi_state.specs.State.{empty_table};
ghost use Rattle.myi_tablestate.specs.Standing.{StandForTable};
ghost use Rattle.myi_table.specs.Creating.{empty_defs, MakesEmpty};

use crate::table::Table;
use myi_base::slices_are_bytes;
use myi_create::{CreateFault, create_with};
use myi_defs::Defs;
use myi_io::{FileErr, Files};
use myi_pair::empty_tables_are_clean;
use myi_tablestate::clean_pairs_stand_for_tables;
use std::alloc::Global;

// Why a table was not made whose definitions are there.
fn cut_off(fault: CreateFault) -> FileErr
    requires { IsCutOff fault }
    ensures { result ≡ Failed → fault ≡ create.File }
{
    match fault {
        CreateFault::File => FileErr::Failed,
        CreateFault::Memory => FileErr::Memory,
        _ => unreachable!(),
    }
}

// The files of an empty table stand for a table without rows.
fn empty_tables_stand()
    ensures { (d : Defs) → AreDefs d → AreBytes d.raw
        → StandForTable (empty_defs d) empty_table [] (empty_header d.raw) }
{
    empty_tables_are_clean();
    clean_pairs_stand_for_tables();
}

impl Table {
    /// Makes the two files of an empty table of this name with these definitions, and replaces those that are there. Where
    /// files tell what they hold, they are a clean pair that stands for a table without rows.
    pub fn create<F: Files>(
        alloc: Global,
        files: &mut F,
        name: &str,
        defs: &Defs,
    ) -> Result<(), FileErr>
        requires writable { IsTrue F.writable }
        requires defs { AreDefs defs.now }
        ensures made { OnOk result (Told (F.holds files.old) (F.holds files.new)
            (MakesEmpty name.now defs.now)) }

        // Where it is cut off the index file is the old one, and the data file is the old one, or empty.
        ensures part { OnErr result (Told (F.holds files.old) (F.holds files.new)
            (PutsPart (names_for name.now))) }
        ensures cause { HasCause Failed (F.faults files.old) (F.faults files.new) result }
    {
        empty_tables_stand();
        slices_are_bytes(defs.raw.as_slice());
        match create_with(alloc, files, name, defs) {
            Ok(()) => Ok(()),
            Err(fault) => Err(cut_off(fault)),
        }
    }
}
