//! Noting where the rows of a data file stand, by a scan.
ghost use Rattle.std.specs.Prelude.{◌≡◌, ◌<◌, ◌≤◌, IfOk, OnOk, [], false, true};
ghost use Rattle.myi_base.specs.Holding.{IfTold};
ghost use Rattle.myi_base.specs.Causes.{HasCause};
ghost use Rattle.myi_chain.specs.declared.piece.ScanFault.TheVariants.{File};
ghost use Rattle.myi_chain.specs.ScanModel.{IsSameScan};
ghost use Rattle.myi_data.specs.Scanning.{IsAsKnown};
ghost use Rattle.myi_blocks.specs.Noting.{NotesIf, NotesAll};

use myi_chain::ScanFault;
use myi_data::DataScan;
use myi_io::Files;
use std::collections::BTreeSet;

/// Notes the position of the next row of a scan, and says whether there was one.
fn note_row<F: Files>(
    files: &mut F,
    scan: &mut DataScan,
    places: &mut BTreeSet<u64>,
) -> Result<bool, ScanFault>
    requires current { IfTold (F.holds files.old) (IsAsKnown scan.old) }
    ensures notes { IfOk result (λ more. NotesIf more (F.holds files.old) scan.old scan.new
        places.old.keys places.new.keys) }
    ensures same { OnOk result (IsSameScan scan.old scan.new) }
    ensures current { OnOk result (IfTold (F.holds files.old) (IsAsKnown scan.new)) }
    ensures holds { F.holds files.new ≡ F.holds files.old }
    ensures cause { HasCause File (F.faults files.old) (F.faults files.new) result }
{
    let Some((at, _)) = scan.next_row(files)? else {
        return Ok(false);
    };
    match places.insert(at) {
        Ok(_) => Ok(true),
        Err(_) => Err(ScanFault::Memory),
    }
}

/// Notes the positions of all rows that a scan has ahead.
pub(crate) fn note_rows<F: Files>(
    files: &mut F,
    scan: &mut DataScan,
    places: &mut BTreeSet<u64>,
) -> Result<(), ScanFault>
    requires current { IfTold (F.holds files.old) (IsAsKnown scan.old) }
    requires none { places.old.keys ≡ [] }
    ensures notes { OnOk result (IfTold (F.holds files.old)
        (NotesAll scan.old places.new.keys)) }
    ensures holds { F.holds files.new ≡ F.holds files.old }
    ensures cause { HasCause File (F.faults files.old) (F.faults files.new) result }
{
    while note_row(files, scan, places)? {}
    Ok(())
}
