//! Writing the blocks of a row into its places.
//!
//! Of each block the header is written, then the row bytes as they stand in the row, then the unused part,
//! so that no block is made in memory.
ghost use Rattle.std.specs.Prelude.{◌≡◌, ◌≤◌, ◌<◌, ◌+◌, ◌^◌, Bool, IfErr, OnOk, IsTrue, length};
ghost use Rattle.myi_base.specs.Holding.{Told, OthersStay, bytes_of, overwritten};
ghost use Rattle.myi_base.specs.Causes.{HasCause};
ghost use Rattle.myi_frames.specs.Writing.{IsWritable, block_bytes};
ghost use Rattle.myi_dellist.specs.declared.fault.FreeFault.TheVariants.{File};
ghost use Rattle.myi_dellist.specs.Placing.{specs_of, taken_by, AreWritable};
ghost use Rattle.myi_dellist.specs.Freeing.{CutsOff, Becomes};
ghost use Rattle.myi_dellist.specs.Rows.{block_spec, row_written, AreBelow};

use crate::fault::FreeFault;
use crate::pieces::Piece;
use myi_frames::{FrameKind, FrameSpec, frame_header};
use myi_io::Files;

/// No block of a row has more bytes unused.
const MOST_UNUSED: usize = 260;

/// What a block of a row of `rec_len` bytes says, by the blocks behind it.
fn block_spec(rec_len: u32, first: bool, behind: &[Piece]) -> FrameSpec
    ensures { result ≡ block_spec rec_len first behind.now }
{
    let Some(next) = behind.first() else {
        return FrameSpec {
            kind: if first {
                FrameKind::Whole
            } else {
                FrameKind::End
            },
            rec_len: if first { rec_len } else { 0 },
            next: None,
            prev: None,
        };
    };
    FrameSpec {
        kind: if first {
            FrameKind::Start
        } else {
            FrameKind::Middle
        },
        rec_len: if first { rec_len } else { 0 },
        next: Some(next.at),
        prev: None,
    }
}

/// Writes a block.
fn write_block<F: Files>(
    files: &mut F,
    name: &str,
    at: u64,
    size: u32,
    spec: &FrameSpec,
    bytes: &[u8],
) -> Result<(), FreeFault>
    requires writable { IsTrue F.writable }
    requires block { IsWritable spec.now (length bytes.now) size }
    requires unused { size ≤ length bytes.now + 260 }
    requires place { at + size < 2 ^ 64 }
    ensures ok { OnOk result (Told (F.holds files.old) (F.holds files.new) (λ m n. Becomes name.now
        (overwritten at (block_bytes spec.now bytes.now size) (bytes_of name.now m)) m n)) }
    ensures others { Told (F.holds files.old) (F.holds files.new) (OthersStay name.now) }
    ensures cut { IfErr result CutsOff }
    ensures cause { HasCause File (F.faults files.old) (F.faults files.new) result }
{
    let (header, header_length) = frame_header(spec, bytes.len(), size);
    let start = at + header_length as u64;
    let end = start + bytes.len() as u64;
    let unused = size as usize - header_length - bytes.len();
    files.write_at(name, at, &header[..header_length])?;
    files.write_at(name, start, bytes)?;
    if unused == 0 {
        return Ok(());
    }
    let zeros = [0u8; MOST_UNUSED];
    files.write_at(name, end, &zeros[..unused])?;
    Ok(())
}

/// Writes the blocks of a row, each with the next of its bytes.
pub(crate) fn write_pieces<F: Files>(
    files: &mut F,
    name: &str,
    pieces: &[Piece],
    packed: &[u8],
) -> Result<(), FreeFault>
    requires writable { IsTrue F.writable }
    requires few { length packed.now < 2 ^ 32 }
    requires blocks { AreWritable (specs_of (length packed.now) pieces.now) pieces.now }
    requires whole { taken_by pieces.now ≡ length packed.now }
    requires below { AreBelow (2 ^ 64) pieces.now }
    ensures ok { OnOk result (Told (F.holds files.old) (F.holds files.new) (λ m n. Becomes name.now
        (row_written pieces.now packed.now (bytes_of name.now m)) m n)) }
    ensures others { Told (F.holds files.old) (F.holds files.new) (OthersStay name.now) }
    ensures cut { IfErr result CutsOff }
    ensures cause { HasCause File (F.faults files.old) (F.faults files.new) result }
{
    let rec_len = packed.len() as u32;
    let mut left = packed;
    let mut blocks = pieces;
    let mut first = true;
    while let Some((piece, behind)) = blocks.split_first() {
        let spec = block_spec(rec_len, first, behind);
        let (bytes, more) = left.split_at(piece.taken as usize);
        write_block(files, name, piece.at, piece.size, &spec, bytes)?;
        left = more;
        blocks = behind;
        first = false;
    }
    Ok(())
}
