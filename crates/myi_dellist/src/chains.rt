//! The blocks of a row as they stand in a file. Nothing is written here.
//!
//! A `RowLink` is where a chain goes on, and a `RowStep` what the block there says.
ghost use Rattle.std.specs.Prelude.{◌≡◌, ◌≤◌, ◌<◌, ◌+◌, ◌^◌, ℕ, List, [], IfOk, IfErr, OnOk, IfSome, Some, None, length};
ghost use Rattle.std.specs.List.{AllByRecursion};
ghost use Rattle.myi_base.specs.Holding.{IfTold, bytes_of};
ghost use Rattle.myi_base.specs.Causes.{HasCause};
ghost use Rattle.myi_frames.specs.Block.{IsPlace};
ghost use Rattle.myi_frames.specs.Seeing.{IsPartAt};
ghost use Rattle.myi_dellist.specs.declared.fault.FreeFault.TheVariants.{File};
ghost use Rattle.myi_dellist.specs.Releasing.{most_size, half_size};
ghost use Rattle.myi_dellist.specs.Freeing.{IfDamaged, IsNotFull};
ghost use Rattle.myi_dellist.specs.Chains.{more_step, last_step, first_step, next_step, step_of, step_in, left_or, to_come, BreaksAt, IsRowBlock, IsRowIn, IsBroken};

use crate::fault::FreeFault;
use crate::pieces::Piece;
use myi_frames::{FrameKind, Head, LEAST_SIZE, header_at};
use myi_io::Files;

/// No block of a row is longer.
const MOST_BLOCK: u32 = 25_165_820;

/// Where the chain of a row goes on, and how many row bytes are left to come; none is said of a row's first
/// block, which says it.
#[derive(Clone, Copy)]
pub(crate) struct RowLink {
    pub at: u64,
    pub left: Option<u32>,
}

/// A block of a chain: its size, how many row bytes it holds, and where the chain goes on, if it does.
#[derive(Clone, Copy)]
pub(crate) struct RowStep {
    pub size: u32,
    pub taken: u32,
    pub next: Option<RowLink>,
}

/// A block that holds a byte, but not all that are left.
fn more_step(head: &Head, len: u32, left: u32) -> Option<RowStep>
    ensures step { result ≡ more_step head.now len left }
    ensures less { IfSome result (λ s. to_come s.next ≤ left) }
{
    if len == 0 || len >= left {
        return None;
    }
    let Some(at) = head.next else {
        return None;
    };
    Some(RowStep {
        size: head.size,
        taken: len,
        next: Some(RowLink {
            at,
            left: Some(left - len),
        }),
    })
}

/// The last block of a row, where it holds what it is to hold.
fn last_step(head: &Head, len: u32, holds: bool) -> Option<RowStep>
    ensures step { result ≡ last_step head.now len holds }
    ensures none { IfSome result (λ s. s.next ≡ None) }
{
    if !holds {
        return None;
    }
    Some(RowStep {
        size: head.size,
        taken: len,
        next: None,
    })
}

/// What the first block of a row says.
fn first_step(head: &Head, len: u32) -> Option<RowStep>
    ensures step { result ≡ first_step head.now.kind head.now len }
    ensures less { IfSome result (λ s. to_come s.next ≤ 2 ^ 32) }
{
    match head.kind {
        FrameKind::Whole => last_step(head, len, len > 0),
        FrameKind::Start => more_step(head, len, head.rec_len),
        FrameKind::Deleted | FrameKind::Middle | FrameKind::End => None,
    }
}

/// What a block says behind others of its row, where so many row bytes are left.
fn next_step(head: &Head, len: u32, left: u32) -> Option<RowStep>
    ensures step { result ≡ next_step head.now.kind head.now len left }
    ensures less { IfSome result (λ s. to_come s.next ≤ left) }
{
    match head.kind {
        FrameKind::Middle => more_step(head, len, left),
        FrameKind::End => last_step(head, len, len > 0 && len == left),
        FrameKind::Deleted | FrameKind::Whole | FrameKind::Start => None,
    }
}

/// What a block says of its row, if the chain needs it there.
fn step_of(head: &Head, len: u32, left: Option<u32>) -> Option<RowStep>
    ensures step { result ≡ step_of left head.now len }
    ensures most { IfSome result (λ s. s.size ≤ half_size + most_size) }
    ensures size { IfSome result (λ s. s.size ≡ head.now.size) }
    ensures less { IfSome result (λ s. to_come s.next ≤ left_or left) }
{
    if head.size > MOST_BLOCK {
        return None;
    }
    match left {
        None => first_step(head, len),
        Some(left) => next_step(head, len, left),
    }
}

/// What the block at a place of a file of `end` bytes says of its row, by the first 20 bytes there.
fn step_by(bytes: &[u8], link: &RowLink, end: u64) -> Option<RowStep>
    requires { length bytes.now ≡ 20 }
    ensures told { (d : List ℕ) → length d ≡ end → IsPartAt link.now.at bytes.now d
        → result ≡ step_in d link.now }
    ensures place { IfSome result (λ s. IsPlace link.now.at s.size end) }
    ensures most { IfSome result (λ s. s.size ≤ half_size + most_size) }
    ensures less { IfSome result (λ s. to_come s.next ≤ left_or link.now.left) }
{
    let Some(header) = header_at(bytes, link.at, end) else {
        return None;
    };
    step_of(&header.head, header.data_len as u32, link.left)
}

/// Reads the block that a link names, by one read of its header; the place where the chain does not need
/// what stands there.
fn row_step<F: Files>(
    files: &mut F,
    name: &str,
    end: u64,
    link: &RowLink,
) -> Result<RowStep, FreeFault>
    ensures told { IfOk result (λ s. IfTold (F.holds files.old) (λ m.
        length (bytes_of name.now m) ≡ end → step_in (bytes_of name.now m) link.now ≡ Some s)) }
    ensures bad { IfErr result (λ f. IfDamaged f (λ p. IfTold (F.holds files.old) (λ m.
        length (bytes_of name.now m) ≡ end → BreaksAt (bytes_of name.now m) link.now p))) }
    ensures place { IfOk result (λ s. IsPlace link.now.at s.size end) }
    ensures most { IfOk result (λ s. s.size ≤ half_size + most_size) }
    ensures less { IfOk result (λ s. to_come s.next ≤ left_or link.now.left) }
    ensures holds { F.holds files.new ≡ F.holds files.old }
    ensures room { IfErr result IsNotFull }
    ensures cause { HasCause File (F.faults files.old) (F.faults files.new) result }
{
    let mut bytes = [0u8; LEAST_SIZE];
    let count = files.read_at(name, link.at, &mut bytes)?;
    if count < LEAST_SIZE {
        return Err(FreeFault::Damaged { at: link.at });
    }
    let Some(step) = step_by(&bytes, link, end) else {
        return Err(FreeFault::Damaged { at: link.at });
    };
    Ok(step)
}

/// Reads the chain of the row at a place of a file of `end` bytes, and adds its blocks.
pub(crate) fn read_row<F: Files>(
    files: &mut F,
    name: &str,
    end: u64,
    at: u64,
    own: &mut Vec<Piece>,
) -> Result<(), FreeFault>
    requires none { own.old.items ≡ [] }
    ensures told { OnOk result (IfTold (F.holds files.old) (λ m.
        length (bytes_of name.now m) ≡ end → IsRowIn (bytes_of name.now m) at own.new.items)) }
    ensures bad { IfErr result (λ f. IfDamaged f (λ p. IfTold (F.holds files.old) (λ m.
        length (bytes_of name.now m) ≡ end → IsBroken (bytes_of name.now m) at p))) }
    ensures placed { OnOk result (AllByRecursion (IsRowBlock end) own.new.items) }
    ensures inside { OnOk result (at < end) }
    ensures holds { F.holds files.new ≡ F.holds files.old }
    ensures room { IfErr result IsNotFull }
    ensures cause { HasCause File (F.faults files.old) (F.faults files.new) result }
{
    let mut next = Some(RowLink { at, left: None });
    while let Some(link) = next {
        let step = row_step(files, name, end, &link)?;
        own.push(Piece {
            at: link.at,
            size: step.size,
            taken: step.taken,
        })?;
        next = step.next;
    }
    Ok(())
}
