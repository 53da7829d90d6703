//! Damage to blocks of the data file.
ghost use Rattle.std.specs.Prelude.{OnOk, IfErr, IsTrue};
ghost use Rattle.myi_base.specs.Holding.{Told, OthersStay};
ghost use Rattle.myi_base.specs.Causes.{HasCause};
ghost use Rattle.myi_make.specs.Faults.{CutsOff};
ghost use Rattle.myi_make.specs.Filling.{Damages};

use crate::fault::MakeFault;
use myi_io::Files;

/// What stands over a block that is damaged; no block of the rows is longer.
const DAMAGE: [u8; 256] = [255; 256];

/// Writes bytes FF over blocks of the file, of which the places and lengths are given.
pub(crate) fn damage_blocks<F: Files>(
    files: &mut F,
    name: &str,
    blocks: &[(u64, u8)],
) -> Result<(), MakeFault>
    requires writable { IsTrue F.writable }
    ensures damaged { OnOk result (Told (F.holds files.old) (F.holds files.new)
        (Damages name.now blocks.now)) }
    ensures others { Told (F.holds files.old) (F.holds files.new) (OthersStay name.now) }
    ensures cut { IfErr result CutsOff }
    ensures cause { HasCause MakeFault.File (F.faults files.old) (F.faults files.new) result }
{
    for i in 0..blocks.len() {
        let (at, size) = blocks[i];
        files.write_at(name, at, &DAMAGE[..size as usize])?;
    }
    Ok(())
}
