//! Which blocks of the list a row takes. Nothing is written here.
ghost use Rattle.std.specs.Prelude.{◌≡◌, ◌≤◌, ◌<◌, ◌+◌, ◌^◌, List, None, true, IfOk, IfErr, IfSome, OnOk, length};
ghost use Rattle.myi_base.specs.Holding.{IfTold, bytes_of};
ghost use Rattle.myi_base.specs.Causes.{HasCause};
ghost use Rattle.myi_dellist.specs.declared.fault.FreeFault.TheVariants.{File};
ghost use Rattle.myi_dellist.specs.Areas.{Area};
ghost use Rattle.myi_dellist.specs.Placing.{fits};
ghost use Rattle.myi_dellist.specs.Freeing.{IfDamaged, IsNotFull, IsHoleIn};
ghost use Rattle.myi_dellist.specs.Taking.{IsRun, HasTaken, TakesFull, MeetsBad};

use crate::fault::FreeFault;
use crate::linked::block_named;
use crate::pieces::{Piece, room};
use myi_frames::{GIANT, Head, least_size};
use myi_io::Files;

/// The deleted list of a file, and the file's length.
#[derive(Clone, Copy)]
pub(crate) struct ListEnds {
    pub head: Option<u64>,
    pub end: u64,
}

/// What blocks that are filled leave: so many bytes of the row, and the block behind the last of them.
#[derive(Clone, Copy)]
pub(crate) struct Taken {
    pub left: u32,
    pub last: Option<u64>,
    pub next: Option<Head>,
}

/// Whether what is left of a row fits into a block of this size.
pub(crate) fn fits(left: u32, size: u32) -> bool
    ensures { result ≡ fits left size }
{
    left < GIANT && least_size(left) <= size
}

/// Takes the first blocks of the list that the last `left` bytes of a row of `len` bytes fill, behind the
/// blocks that it has, and reads the one behind them. Each names the one before it.
pub(crate) fn take_full<F: Files>(
    files: &mut F,
    name: &str,
    list: &ListEnds,
    pieces: &mut Vec<Piece>,
    len: u32,
    left: u32,
) -> Result<Taken, FreeFault>
    requires run { IsRun list.now.end len pieces.old.items
        (record { left = left; last = None; next = None }) }
    ensures run { IfOk result (IsRun list.now.end len pieces.new.items) }
    ensures before { OnOk result (length pieces.old.items ≤ length pieces.new.items) }
    ensures inside { OnOk result (IfSome list.now.head (λ at. at < list.now.end)) }
    ensures told { IfOk result (λ t. IfTold (F.holds files.old) (λ m.
        length (bytes_of name.now m) ≡ list.now.end → (own : List Area)
        → HasTaken own len pieces.old.items left
        → TakesFull own (bytes_of name.now m) list.now.head len pieces.new.items t)) }
    ensures fits { IfOk result (λ t. IfSome t.next (λ h. fits t.left h.size ≡ true)) }
    ensures bad { IfErr result (λ f. IfDamaged f (λ p. IfTold (F.holds files.old) (λ m.
        length (bytes_of name.now m) ≡ list.now.end → (own : List Area)
        → HasTaken own len pieces.old.items left
        → MeetsBad own (bytes_of name.now m) list.now.head len p))) }
    ensures holds { F.holds files.new ≡ F.holds files.old }
    ensures room { IfErr result IsNotFull }
    ensures cause { HasCause File (F.faults files.old) (F.faults files.new) result }
{
    let mut left = left;
    let mut last = None;
    let mut next = block_named(files, name, list.end, None, list.head)?;
    while let Some(hole) = next {
        if fits(left, hole.size) {
            return Ok(Taken { left, last, next });
        }
        let taken = room(len, pieces.is_empty(), hole.size);
        pieces.push(Piece {
            at: hole.at,
            size: hole.size,
            taken,
        })?;
        left -= taken;
        last = Some(hole.at);
        next = block_named(files, name, list.end, last, hole.next)?;
    }
    Ok(Taken {
        left,
        last,
        next: None,
    })
}
