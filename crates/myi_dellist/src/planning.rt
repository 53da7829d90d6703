//! What is written beside a row that ends in a deleted block, by what is read before. Nothing is written here.
ghost use Rattle.std.specs.Prelude.{◌≡◌, ◌≤◌, ◌<◌, ◌+◌, ◌-◌, ◌^◌, ◌++◌, [], ◌∷◌, true, List, Option, Some, IfOk, IfErr, IfSome, length};
ghost use Rattle.myi_base.specs.Holding.{IfTold, bytes_of};
ghost use Rattle.myi_base.specs.Causes.{HasCause};
ghost use Rattle.myi_frames.specs.Block.{IsPlace};
ghost use Rattle.myi_dellist.specs.declared.fault.FreeFault.TheVariants.{File};
ghost use Rattle.myi_dellist.specs.Releasing.{most_size};
ghost use Rattle.myi_dellist.specs.Placing.{fits};
ghost use Rattle.myi_dellist.specs.Freeing.{IfDamaged, IsNotFull, IsHoleIn, AreHolesIn, IsPlanIn, Answers};
ghost use Rattle.myi_dellist.specs.Planning.{is_taken, past_taken, link_past, first_past, rest_plan, last_size, last_piece, rest_in, row_plan_in, IsRestIn, IsRowPlanIn};

use crate::fault::FreeFault;
use crate::linked::{
    Linked, ReleasePlan, block_named, is_same, next_past, plan_merge, without_prev,
};
use crate::pieces::Piece;
use crate::taking::ListEnds;
use myi_frames::{Head, LEAST_SIZE, least_size};
use myi_io::Files;

/// What the last block of a row leaves over: its place and size, and where that block begins.
#[derive(Clone, Copy)]
pub(crate) struct Spare {
    pub at: u64,
    pub size: u32,
    pub last: u64,
}

/// An area that is released, and how.
#[derive(Clone, Copy)]
pub(crate) struct RestPlan {
    pub at: u64,
    pub size: u32,
    pub plan: ReleasePlan,
}

/// What is written beside a row: the block that is the first of the list then, and what is left over.
#[derive(Clone, Copy)]
pub(crate) struct RowPlan {
    pub next: Option<Head>,
    pub rest: Option<RestPlan>,
}

/// Whether a block is one of a row's.
fn is_taken(pieces: &[Piece], at: u64) -> bool
    ensures { result ≡ is_taken at pieces.now }
{
    let mut left = pieces;
    while let Some((piece, behind)) = left.split_first() {
        if piece.at == at {
            return true;
        }
        left = behind;
    }
    false
}

/// A block, as one that names none before it where it names the last one that is taken.
fn past_taken(last: u64, head: Head) -> Head
    ensures { result ≡ past_taken last head }
{
    if is_same(head.prev, Some(last)) {
        return Head { prev: None, ..head };
    }
    head
}

/// A block that is taken off the list, once blocks up to this one are.
fn link_past(last: u64, linked: &Linked) -> Linked
    ensures { result ≡ link_past last linked.now }
{
    let hole = past_taken(last, linked.hole);
    let behind = linked.behind;
    if is_same(linked.hole.prev, Some(last)) {
        return Linked {
            before: None,
            hole,
            behind,
        };
    }
    let before = match linked.before {
        None => None,
        Some(before) => Some(past_taken(last, before)),
    };
    Linked {
        before,
        hole,
        behind,
    }
}

/// The first block of the list once that block is taken off it.
fn first_past(next: Option<Head>, linked: &Linked) -> Option<Head>
    ensures { result ≡ first_past next linked.now }
{
    match linked.before {
        None => without_prev(linked.behind),
        Some(before) => next_past(&before, &linked.hole, without_prev(next)),
    }
}

/// How an area is released that a row's last block leaves over, by the block that it would be joined with.
fn rest_plan(pieces: &[Piece], last: u64, next: Option<Head>, joined: Option<Linked>) -> ReleasePlan
    ensures { result ≡ rest_plan pieces.now last next joined }
{
    let Some(linked) = joined else {
        return ReleasePlan {
            joined: None,
            first: without_prev(next),
        };
    };
    if is_taken(pieces, linked.hole.at) {
        return ReleasePlan {
            joined: None,
            first: without_prev(next),
        };
    }
    let past = link_past(last, &linked);
    ReleasePlan {
        joined: Some(past),
        first: first_past(next, &past),
    }
}

/// Reads what the release of that area needs.
fn plan_rest<F: Files>(
    files: &mut F,
    name: &str,
    list: &ListEnds,
    pieces: &[Piece],
    spare: &Spare,
    next: Option<Head>,
) -> Result<RestPlan, FreeFault>
    requires place { IsPlace spare.now.at spare.now.size list.now.end }
    requires most { spare.now.size ≤ most_size }
    requires next { IfSome next (IsHoleIn list.now.end) }
    ensures told { IfTold (F.holds files.old) (λ m. length (bytes_of name.now m) ≡ list.now.end
        → Answers result (rest_in (bytes_of name.now m) list.now.head pieces.now spare.now next)) }
    ensures holes { IfOk result (IsRestIn list.now.end) }
    ensures holds { F.holds files.new ≡ F.holds files.old }
    ensures room { IfErr result IsNotFull }
    ensures cause { HasCause File (F.faults files.old) (F.faults files.new) result }
{
    let joined = plan_merge(files, name, list.end, list.head, spare.at, spare.size)?;
    Ok(RestPlan {
        at: spare.at,
        size: spare.size,
        plan: rest_plan(pieces, spare.last, next, joined),
    })
}

/// The size of the last block of a row in a block of this size.
pub(crate) fn last_size(left: u32, size: u32) -> u32
    requires { fits left size ≡ true }
    ensures { result ≡ last_size left size }
{
    let least = least_size(left);
    if size - least >= LEAST_SIZE as u32 {
        least
    } else {
        size
    }
}

/// Takes the last block of a row, and reads what is needed of the list then.
pub(crate) fn plan_last<F: Files>(
    files: &mut F,
    name: &str,
    list: &ListEnds,
    pieces: &mut Vec<Piece>,
    left: u32,
    hole: &Head,
) -> Result<RowPlan, FreeFault>
    requires hole { IsHoleIn list.now.end hole.now }
    requires fits { fits left hole.now.size ≡ true }
    ensures pieces { IfOk result (λ r. pieces.new.items
        ≡ pieces.old.items ++ last_piece left hole.now ∷ []) }
    ensures told { IfTold (F.holds files.old) (λ m. length (bytes_of name.now m) ≡ list.now.end
        → Answers result (row_plan_in (bytes_of name.now m) list.now.head pieces.old.items left
        hole.now)) }
    ensures holes { IfOk result (IsRowPlanIn list.now.end) }
    ensures holds { F.holds files.new ≡ F.holds files.old }
    ensures room { IfErr result IsNotFull }
    ensures cause { HasCause File (F.faults files.old) (F.faults files.new) result }
{
    let size = last_size(left, hole.size);
    pieces.push(Piece {
        at: hole.at,
        size,
        taken: left,
    })?;
    let next = block_named(files, name, list.end, Some(hole.at), hole.next)?;
    if size == hole.size {
        return Ok(RowPlan { next, rest: None });
    }
    let spare = Spare {
        at: hole.at + size as u64,
        size: hole.size - size,
        last: hole.at,
    };
    let rest = plan_rest(files, name, list, pieces, &spare, next)?;
    Ok(RowPlan {
        next,
        rest: Some(rest),
    })
}
