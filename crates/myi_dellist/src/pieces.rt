//! The blocks of a row as they are planned: their places, their sizes, and how many row bytes each takes.
ghost use Rattle.std.specs.Prelude.{◌≡◌, ◌≤◌, ◌<◌, ◌+◌, ◌-◌, ◌^◌, ◌++◌, min, Bool, true, IfOk, IfErr, OnErr};
ghost use Rattle.myi_dellist.specs.declared.fault.FreeFault.TheVariants.{Full};
ghost use Rattle.myi_dellist.specs.Placing.{room, sizes_of, append_from, end_behind, is_none};
ghost use Rattle.myi_dellist.specs.Rows.{IfFull, IsRefused};

use crate::fault::FreeFault;
use myi_frames::{GIANT, MOST_SIZE, least_size, middle_room, start_room};
use std::alloc::AllocError;

/// A block of a row.
#[derive(Clone, Copy)]
pub(crate) struct Piece {
    pub at: u64,
    pub size: u32,
    /// How many row bytes it takes.
    pub taken: u32,
}

/// How many row bytes a block of this size takes where it is not the last one.
pub(crate) fn room(len: u32, first: bool, size: u32) -> u32
    requires { 20 ≤ size }
    ensures { result ≡ room len first size }
{
    if first {
        start_room(len, size)
    } else {
        middle_room(size)
    }
}

/// How many bytes blocks have together.
pub(crate) fn sizes_of(pieces: &[Piece]) -> u64
    ensures { result ≡ min (sizes_of pieces.now) (2 ^ 64 - 1) }
{
    let mut bytes = 0u64;
    let mut left = pieces;
    while let Some((piece, behind)) = left.split_first() {
        bytes = bytes.saturating_add(piece.size as u64);
        left = behind;
    }
    bytes
}

/// The place behind a block, where the file's end may be there.
fn place_behind(at: u64, size: u32, end_below: u128) -> Result<u64, FreeFault>
    requires { end_below ≤ 2 ^ 64 }
    ensures ok { IfOk result (λ end. end ≡ at + size) }
    ensures room { IfOk result (λ end. end < end_below) }
    ensures full { OnErr result (end_below ≤ at + size) }
    ensures only { IfErr result (λ f. f ≡ Full) }
{
    let end = at as u128 + size as u128;
    if end >= end_below {
        return Err(FreeFault::Full);
    }
    Ok(end as u64)
}

/// Adds the blocks that the last `left` bytes of a row of `len` bytes take at the file's end, and answers
/// where the file ends then.
pub(crate) fn append_pieces(
    pieces: &mut Vec<Piece>,
    len: u32,
    left: u32,
    at: u64,
    end_below: u128,
) -> Result<u64, FreeFault>
    requires some { 0 < left }
    requires less { left ≤ len }
    requires limit { end_below ≤ 2 ^ 64 }
    ensures pieces { IfOk result (λ end. pieces.new.items ≡ pieces.old.items
        ++ append_from left len (is_none pieces.old.items) left at) }
    ensures end { IfOk result (λ end.
        end ≡ end_behind at (append_from left len (is_none pieces.old.items) left at)) }
    ensures room { IfOk result (λ end. end < end_below) }
    ensures full { IfErr result (λ f. IfFull f (end_below
        ≤ end_behind at (append_from left len (is_none pieces.old.items) left at))) }
    ensures refused { IfErr result IsRefused }
{
    let mut rest = left;
    let mut place = at;
    while rest >= GIANT {
        let taken = room(len, pieces.is_empty(), MOST_SIZE);
        let behind = place_behind(place, MOST_SIZE, end_below)?;
        pieces.push(Piece {
            at: place,
            size: MOST_SIZE,
            taken,
        })?;
        rest -= taken;
        place = behind;
    }
    let size = least_size(rest);
    let end = place_behind(place, size, end_below)?;
    pieces.push(Piece {
        at: place,
        size,
        taken: rest,
    })?;
    Ok(end)
}
