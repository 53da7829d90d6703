//! Which of its own blocks a row takes that is put in the place of another. Nothing is read or written here.
ghost use Rattle.std.specs.Prelude.{◌≡◌, ◌≤◌, ◌<◌, ◌+◌, ◌-◌, ◌^◌, ◌++◌, ◌∷◌, [], min, length, true, IfOk, IfErr, OnOk};
ghost use Rattle.std.specs.List.{AllByRecursion, flat_map};
ghost use Rattle.myi_dellist.specs.declared.fault.FreeFault.TheVariants.{Memory};
ghost use Rattle.myi_dellist.specs.Placing.{IsUsable, area_of, areas_of, sizes_of, fits, own_areas, take_from};
ghost use Rattle.myi_dellist.specs.Taking.{HasTaken};
ghost use Rattle.myi_dellist.specs.Rows.{AreBelow};
ghost use Rattle.myi_dellist.specs.Several.{parts_of};
ghost use Rattle.myi_dellist.specs.Freed.{parts_in};
ghost use Rattle.myi_dellist.specs.Replacing.{last_taking, own_released, parts_for};

use crate::fault::FreeFault;
use crate::links::HALF;
use crate::pieces::{Piece, room, sizes_of};
use crate::planning::last_size;
use crate::rows::{Put, Replaced};
use crate::several::{Part, push_parts, split};
use crate::taking::fits;
use myi_frames::{GIANT, MOST_SIZE};

/// Adds a block of the row that is there, as a row of `len` bytes takes it: one that is longer than a deleted
/// block can be counts as two in a row of 2^24 bytes or more.
fn push_own(areas: &mut Vec<Piece>, block: &Piece, len: u32) -> Result<(), FreeFault>
    requires { block.now.at + block.now.size < 2 ^ 64 }
    ensures areas { OnOk result (areas_of areas.new.items
        ≡ areas_of areas.old.items ++ parts_for len (area_of block.now)) }
    ensures only { IfErr result (λ f. f ≡ Memory) }
{
    if len < GIANT || block.size <= MOST_SIZE {
        areas.push(*block)?;
        return Ok(());
    }
    areas.push(Piece {
        at: block.at,
        size: HALF,
        taken: 0,
    })?;
    areas.push(Piece {
        at: block.at + HALF as u64,
        size: block.size - HALF,
        taken: 0,
    })?;
    Ok(())
}

/// The blocks of the row that is there, as a row of `len` bytes takes them.
pub(crate) fn add_own(areas: &mut Vec<Piece>, own: &[Piece], len: u32) -> Result<(), FreeFault>
    requires none { areas.old.items ≡ [] }
    requires below { AreBelow (2 ^ 64) own.now }
    ensures areas { OnOk result (areas_of areas.new.items ≡ own_areas len (areas_of own.now)) }
    ensures only { IfErr result (λ f. f ≡ Memory) }
{
    let mut left = own;
    while let Some((block, behind)) = left.split_first() {
        push_own(areas, block, len)?;
        left = behind;
    }
    Ok(())
}

/// Takes the last block of a row, and adds what it leaves over.
fn push_last(
    pieces: &mut Vec<Piece>,
    parts: &mut Vec<Part>,
    block: &Piece,
    left: u32,
) -> Result<(), FreeFault>
    requires fits { fits left block.now.size ≡ true }
    requires below { block.now.at + block.now.size < 2 ^ 64 }
    ensures pieces { OnOk result (pieces.new.items
        ≡ pieces.old.items ++ (last_taking left (area_of block.now)).pieces) }
    ensures parts { OnOk result (parts_in parts.new.items
        ≡ parts_in parts.old.items ++ flat_map parts_of (last_taking left (area_of block.now)).spare) }
    ensures only { IfErr result (λ f. f ≡ Memory) }
{
    let size = last_size(left, block.size);
    pieces.push(Piece {
        at: block.at,
        size,
        taken: left,
    })?;
    if size == block.size {
        return Ok(());
    }
    let spare = Piece {
        at: block.at + size as u64,
        size: block.size - size,
        taken: 0,
    };
    push_parts(parts, &spare)
}

/// Takes of these blocks what a row of `len` bytes does, adds what is released of them then, and answers how
/// many bytes of the row are left.
pub(crate) fn take_own(
    areas: &[Piece],
    len: u32,
    pieces: &mut Vec<Piece>,
    parts: &mut Vec<Part>,
) -> Result<u32, FreeFault>
    requires some { 0 < len }
    requires none { pieces.old.items ≡ [] }
    requires nothing { parts.old.items ≡ [] }
    requires usable { AllByRecursion (IsUsable len) (areas_of areas.now) }
    requires below { AreBelow (2 ^ 64) areas.now }
    ensures taken { IfOk result (HasTaken (areas_of areas.now) len pieces.new.items) }
    ensures parts { OnOk result (parts_in parts.new.items
        ≡ own_released (take_from len true len (areas_of areas.now))) }
    ensures only { IfErr result (λ f. f ≡ Memory) }
{
    let mut left = len;
    let mut rest = areas;
    while let Some((block, behind)) = rest.split_first() {
        if fits(left, block.size) {
            push_last(pieces, parts, block, left)?;
            split(behind, parts)?;
            return Ok(0);
        }
        let taken = room(len, pieces.is_empty(), block.size);
        pieces.push(Piece {
            at: block.at,
            size: block.size,
            taken,
        })?;
        left -= taken;
        rest = behind;
    }
    Ok(left)
}

/// What putting a row in the place of another did, by the blocks of that one and its own.
pub(crate) fn replaced(at: u64, own: &[Piece], pieces: &[Piece], taken: u64, more: u64) -> Replaced
    ensures { result ≡ record {
      put = record {
        at = at;
        blocks = length pieces.now;
        bytes = min (sizes_of pieces.now) (2 ^ 64 - 1);
        taken = taken;
        more = more;
      };
      blocks = length own.now;
      bytes = min (sizes_of own.now) (2 ^ 64 - 1);
    } }
{
    Replaced {
        put: Put {
            at,
            blocks: pieces.len() as u64,
            bytes: sizes_of(pieces),
            taken,
            more,
        },
        blocks: own.len() as u64,
        bytes: sizes_of(own),
    }
}
