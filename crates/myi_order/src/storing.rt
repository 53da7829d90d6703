//! Storing the numbers of an analysis: the new index file, and in the place of the old one.
ghost use Rattle.std.specs.Prelude.{◌≡◌, ◌≢◌, IfErr, OnOk, OnErr, IsTrue};
ghost use Rattle.myi_base.specs.Holding.{Told, Sets, OthersStay, bytes_of};
ghost use Rattle.myi_base.specs.Causes.{HasCause};
ghost use Rattle.myi_order.specs.Faults.{CutsOff, IsCleared};
ghost use Rattle.myi_order.specs.Storing.{with_new, Replaces, KeepsIndex, OthersStayOf};

use crate::copying::copy_file;
use crate::fault::OrderFault;
use myi_header::{CHANGED_PLACE, NewNumbers};
use myi_io::Files;
use std::alloc::Global;

/// Writes the index file with new numbers into the working file, and gives that the index file's name.
/// After a fault the index file is as before, and the working file is taken away, as far as that succeeds.
pub(crate) fn replace_index<F: Files>(
    alloc: Global,
    files: &mut F,
    index: &str,
    working: &str,
    numbers: &NewNumbers,
) -> Result<(), OrderFault>
    requires writable { IsTrue F.writable }
    requires apart { index.now ≢ working.now }
    ensures replaced { OnOk result (Told (F.holds files.old) (F.holds files.new)
        (Replaces index.now working.now numbers.now)) }
    ensures kept { OnErr result (Told (F.holds files.old) (F.holds files.new)
        (KeepsIndex index.now)) }
    ensures others { Told (F.holds files.old) (F.holds files.new)
        (OthersStayOf index.now working.now) }
    ensures cleared { IfErr result (IsCleared working.now
        (F.holds files.old) (F.holds files.new) (F.faults files.old) (F.faults files.new)) }
    ensures cut { IfErr result CutsOff }
    ensures cause { HasCause OrderFault.File (F.faults files.old) (F.faults files.new) result }
{
    match write_index(alloc, files, index, working, numbers) {
        Ok(()) => Ok(()),
        Err(fault) => {
            let _ = files.remove(working);
            Err(fault)
        }
    }
}

// The same, with the working file left as it is after a fault.
fn write_index<F: Files>(
    alloc: Global,
    files: &mut F,
    index: &str,
    working: &str,
    numbers: &NewNumbers,
) -> Result<(), OrderFault>
    requires writable { IsTrue F.writable }
    requires apart { index.now ≢ working.now }
    ensures replaced { OnOk result (Told (F.holds files.old) (F.holds files.new)
        (Replaces index.now working.now numbers.now)) }
    ensures kept { OnErr result (Told (F.holds files.old) (F.holds files.new)
        (KeepsIndex index.now)) }
    ensures others { Told (F.holds files.old) (F.holds files.new)
        (OthersStayOf index.now working.now) }
    ensures cut { IfErr result CutsOff }
    ensures cause { HasCause OrderFault.File (F.faults files.old) (F.faults files.new) result }
{
    copy_file(alloc, files, index, working)?;
    put_numbers(files, working, numbers)?;
    files.rename(working, index)?;
    Ok(())
}

// Writes new numbers into a file.
fn put_numbers<F: Files>(files: &mut F, file: &str, numbers: &NewNumbers) -> Result<(), OrderFault>
    requires { IsTrue F.writable }
    ensures put { OnOk result (Told (F.holds files.old) (F.holds files.new) (λ m n.
        Sets file.now (with_new numbers.now (bytes_of file.now m)) m n)) }
    ensures others { Told (F.holds files.old) (F.holds files.new) (OthersStay file.now) }
    ensures cut { IfErr result CutsOff }
    ensures cause { HasCause OrderFault.File (F.faults files.old) (F.faults files.new) result }
{
    files.write_at(file, CHANGED_PLACE, &[numbers.changed])?;
    files.write_at(file, numbers.place, &numbers.bytes)?;
    Ok(())
}
