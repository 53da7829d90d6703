//! Copying a file by pieces.
//!
//! A file that is not there, or ends before its length, counts as want of memory: no file that tells what it
//! holds has been lost since it was checked. So a copy is never short of what it is a copy of.
ghost use Rattle.std.specs.Prelude.{◌≡◌, ◌≢◌, ◌<◌, [], Some, length, IfOk, IfErr, OnOk, IsTrue};
ghost use Rattle.myi_base.specs.Holding.{IfTold, Told, Sets, OthersStay, bytes_of};
ghost use Rattle.myi_base.specs.Causes.{HasCause};
ghost use Rattle.myi_order.specs.Faults.{CutsOff};
ghost use Rattle.myi_order.specs.Copying.{CopiesPiece};

use crate::fault::OrderFault;
use myi_io::Files;
use std::alloc::Global;

/// How many bytes are copied at a time.
const PIECE: u64 = 131_072;

/// Copies the bytes of a file into another, which is made anew.
pub(crate) fn copy_file<F: Files>(
    alloc: Global,
    files: &mut F,
    from: &str,
    to: &str,
) -> Result<(), OrderFault>
    requires writable { IsTrue F.writable }
    requires apart { from.now ≢ to.now }
    ensures copied { OnOk result (Told (F.holds files.old) (F.holds files.new) (λ m n.
        Sets to.now (bytes_of from.now m) m n)) }
    ensures others { Told (F.holds files.old) (F.holds files.new) (OthersStay to.now) }
    ensures cut { IfErr result CutsOff }
    ensures cause { HasCause OrderFault.File (F.faults files.old) (F.faults files.new) result }
{
    let Some(size) = files.length(from)? else {
        return Err(OrderFault::Memory);
    };
    files.cut(to, 0)?;
    let mut piece = Vec::new(alloc);
    piece.resize(PIECE.min(size) as usize, 0)?;
    copy_pieces(files, from, to, size, &mut piece)
}

// Copies a file of that size into an empty one.
fn copy_pieces<F: Files>(
    files: &mut F,
    from: &str,
    to: &str,
    size: u64,
    piece: &mut [u8],
) -> Result<(), OrderFault>
    requires writable { IsTrue F.writable }
    requires apart { from.now ≢ to.now }
    requires size { IfTold (F.holds files.old) (λ m. size ≡ length (bytes_of from.now m)) }
    requires empty { IfTold (F.holds files.old) (λ m. m to.now ≡ Some []) }
    requires piece { 0 < size → 0 < length piece.old }
    ensures copied { OnOk result (Told (F.holds files.old) (F.holds files.new) (λ m n.
        Sets to.now (bytes_of from.now m) m n)) }
    ensures others { Told (F.holds files.old) (F.holds files.new) (OthersStay to.now) }
    ensures cut { IfErr result CutsOff }
    ensures cause { HasCause OrderFault.File (F.faults files.old) (F.faults files.new) result }
{
    let mut at = 0;
    while at < size {
        let count = copy_piece(files, from, to, at, piece)?;
        if count == 0 {
            return Err(OrderFault::Memory);
        }
        at = at.saturating_add(count as u64).min(size);
    }
    Ok(())
}

// Copies the bytes that a file has from a place on, as many as the piece holds, to the same place of the
// other, and answers how many there were.
fn copy_piece<F: Files>(
    files: &mut F,
    from: &str,
    to: &str,
    at: u64,
    piece: &mut [u8],
) -> Result<usize, OrderFault>
    requires writable { IsTrue F.writable }
    ensures copied { IfOk result (λ count. Told (F.holds files.old) (F.holds files.new)
        (CopiesPiece from.now to.now at (length piece.old) count)) }
    ensures others { Told (F.holds files.old) (F.holds files.new) (OthersStay to.now) }
    ensures cut { IfErr result CutsOff }
    ensures cause { HasCause OrderFault.File (F.faults files.old) (F.faults files.new) result }
{
    let count = files.read_at(from, at, piece)?;
    files.write_at(to, at, &piece[..count])?;
    Ok(count)
}
