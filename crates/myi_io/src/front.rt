//! Reading the front of a file into memory.
ghost use Rattle.std.specs.Prelude.{◌≡◌, ◌≤◌, ◌+◌, ℕ, Some, length, take, vec_len, IfOk};
ghost use Rattle.myi_base.specs.Holding.{IfTold, IsFront, blocks};
ghost use Rattle.myi_base.specs.Causes.{HasCause};
ghost use Rattle.myi_io.specs.declared.files.FileErr.TheVariants.{Failed};

use crate::{FileErr, Files};
use std::alloc::Global;

/// Reads a file from its start as far as a length, or to its end where that comes first. A name that
/// is not there gives no bytes.
pub fn read_front<F: Files>(
    alloc: Global,
    files: &mut F,
    name: &str,
    length: u64,
) -> Result<Vec<u8>, FileErr>
    ensures told { IfOk result (λ front.
        IfTold (F.holds files.old) (IsFront name.now length front.items)) }
    ensures short { IfOk result (λ bytes. vec_len bytes ≤ length) }
    ensures holds { F.holds files.new ≡ F.holds files.old }
    ensures reads { F.reads files.old ≤ F.reads files.new }
    ensures few { F.reads files.new ≤ F.reads files.old + blocks length }
    ensures cause { HasCause Failed (F.faults files.old) (F.faults files.new) result }
{
    let mut bytes = Vec::new(alloc);
    bytes.resize(length as usize, 0)?;
    let count = fill(files, name, &mut bytes)?;
    bytes.truncate(count);
    Ok(bytes)
}

// Fills the buffer from the file's start.
fn fill<F: Files>(files: &mut F, name: &str, into: &mut [u8]) -> Result<usize, FileErr>
    ensures bound { IfOk result (λ count. count ≤ length into.new) }
    ensures told { IfOk result (λ n.
        IfTold (F.holds files.old) (IsFront name.now (length into.old) (take n into.new))) }
    ensures holds { F.holds files.new ≡ F.holds files.old }
    ensures reads { F.reads files.old ≤ F.reads files.new }
    ensures few { F.reads files.new ≤ F.reads files.old + blocks (length into.old) }
    ensures cause { HasCause Failed (F.faults files.old) (F.faults files.new) result }
{
    let count = files.read_at(name, 0, into)?;
    Ok(count)
}
