//! Areas that are released one after another, where all is read before anything is written: what is to be
//! written is planned as a list of headers, and a release sees those of the releases before it.
ghost use Rattle.std.specs.Prelude.{◌≡◌, ◌≤◌, ◌<◌, ◌+◌, ◌^◌, ◌++◌, ◌∷◌, [], Ok, Err, IfOk, IfErr, IfSome, OnOk, IsTrue, length};
ghost use Rattle.std.specs.List.{AllByRecursion};
ghost use Rattle.myi_base.specs.Holding.{Told, IfTold, OthersStay, bytes_of};
ghost use Rattle.myi_base.specs.Causes.{HasCause};
ghost use Rattle.myi_dellist.specs.declared.fault.FreeFault.TheVariants.{File, Memory};
ghost use Rattle.myi_dellist.specs.Releasing.{most_size};
ghost use Rattle.myi_dellist.specs.Freeing.{hole_in, joined_size, IsHoleIn, IsPlanIn, IsLinkable, IfDamaged, IsNotFull, CutsOff, Becomes};
ghost use Rattle.myi_dellist.specs.Several.{parts_of, before_heads, behind_heads, joined_heads, first_heads, plan_heads, next_of, heads_in, heads_written, added_in, PlansPart, PartBad};
ghost use Rattle.myi_dellist.specs.Replacing.{head_after};
ghost use Rattle.myi_dellist.specs.Placing.{area_of};
ghost use Rattle.myi_dellist.specs.Rows.{AreBelow};
ghost use Rattle.myi_dellist.specs.Freed.{parts_in, part_area, freed_parts, IsPart};

use crate::fault::FreeFault;
use crate::heads::Heads;
use crate::linked::{Linked, ReleasePlan, Sight, alone_by, see_release};
use crate::links::{HALF, place_at, write_head};
use crate::pieces::Piece;
use crate::taking::ListEnds;
use myi_frames::{FrameKind, Head, MOST_SIZE};
use myi_io::Files;

/// An area that is released.
#[derive(Clone, Copy)]
pub(crate) struct Part {
    pub at: u64,
    pub size: u32,
}

/// Where the list begins once areas were released, and how many deleted blocks are on it that were not.
#[derive(Clone, Copy)]
pub(crate) struct Released {
    pub head: Option<u64>,
    pub more: u64,
}

/// Adds what is released of a block: one that is longer than a deleted block can be is released as two, the
/// back part first.
pub(crate) fn push_parts(parts: &mut Vec<Part>, block: &Piece) -> Result<(), FreeFault>
    requires { block.now.at + block.now.size < 2 ^ 64 }
    ensures parts { OnOk result (parts_in parts.new.items
        ≡ parts_in parts.old.items ++ parts_of (area_of block.now)) }
    ensures only { IfErr result (λ f. f ≡ Memory) }
{
    if block.size <= MOST_SIZE {
        parts.push(Part {
            at: block.at,
            size: block.size,
        })?;
        return Ok(());
    }
    parts.push(Part {
        at: block.at + HALF as u64,
        size: block.size - HALF,
    })?;
    parts.push(Part {
        at: block.at,
        size: HALF,
    })?;
    Ok(())
}

/// Adds what is released of these blocks.
pub(crate) fn split(own: &[Piece], parts: &mut Vec<Part>) -> Result<(), FreeFault>
    requires { AreBelow (2 ^ 64) own.now }
    ensures parts { OnOk result (parts_in parts.new.items
        ≡ parts_in parts.old.items ++ freed_parts own.now) }
    ensures only { IfErr result (λ f. f ≡ Memory) }
{
    let mut left = own;
    while let Some((block, behind)) = left.split_first() {
        push_parts(parts, block)?;
        left = behind;
    }
    Ok(())
}

/// Adds the header of the block before one that is taken off the list.
fn push_before(heads: &mut Heads, hole: &Head, before: Option<Head>) -> Result<(), FreeFault>
    ensures heads { OnOk result (heads.new ≡ heads.old ++ before_heads hole.now before) }
    ensures only { IfErr result (λ f. f ≡ Memory) }
{
    let Some(before) = before else {
        return Ok(());
    };
    heads.push(Head {
        next: hole.next,
        ..before
    })?;
    Ok(())
}

/// Adds the header of the block behind one that is taken off the list.
fn push_behind(heads: &mut Heads, hole: &Head, behind: Option<Head>) -> Result<(), FreeFault>
    ensures heads { OnOk result (heads.new ≡ heads.old ++ behind_heads hole.now behind) }
    ensures only { IfErr result (λ f. f ≡ Memory) }
{
    let Some(behind) = behind else {
        return Ok(());
    };
    heads.push(Head {
        prev: hole.prev,
        ..behind
    })?;
    Ok(())
}

/// Adds the headers that taking a block off the list writes, if one is, and answers how long an area is that
/// is joined with it.
fn push_joined(heads: &mut Heads, size: u32, joined: Option<Linked>) -> Result<u32, FreeFault>
    requires short { IfSome joined (λ l. size + l.hole.size ≤ most_size) }
    ensures heads { OnOk result (heads.new ≡ heads.old ++ joined_heads joined) }
    ensures size { IfOk result (λ whole. whole ≡ joined_size size joined) }
    ensures only { IfErr result (λ f. f ≡ Memory) }
{
    let Some(linked) = joined else {
        return Ok(size);
    };
    push_before(heads, &linked.hole, linked.before)?;
    push_behind(heads, &linked.hole, linked.behind)?;
    Ok(size + linked.hole.size)
}

/// Adds the header of the block that is the first of the list, once an area is before it.
fn push_first(heads: &mut Heads, at: u64, first: Option<Head>) -> Result<(), FreeFault>
    ensures heads { OnOk result (heads.new ≡ heads.old ++ first_heads at first) }
    ensures only { IfErr result (λ f. f ≡ Memory) }
{
    let Some(first) = first else {
        return Ok(());
    };
    heads.push(Head {
        prev: Some(at),
        ..first
    })?;
    Ok(())
}

/// Adds the headers that a release writes.
fn push_plan(heads: &mut Heads, part: &Part, plan: &ReleasePlan) -> Result<(), FreeFault>
    requires short { IfSome plan.now.joined (λ l. part.now.size + l.hole.size ≤ most_size) }
    ensures heads { OnOk result (heads.new
        ≡ heads.old ++ plan_heads (part_area part.now) plan.now) }
    ensures only { IfErr result (λ f. f ≡ Memory) }
{
    let size = push_joined(heads, part.size, plan.joined)?;
    heads.push(Head {
        kind: FrameKind::Deleted,
        at: part.at,
        size,
        rec_len: 0,
        next: place_at(plan.first),
        prev: None,
    })?;
    push_first(heads, part.at, plan.first)
}

/// The place of the next area that is released.
fn next_of(parts: &[Part]) -> Option<u64>
    ensures { result ≡ next_of (parts_in parts.now) }
{
    let Some(part) = parts.first() else {
        return None;
    };
    Some(part.at)
}

/// Plans the release of an area, behind others that were planned, and answers how many deleted blocks that
/// adds to the list.
fn plan_part<F: Files>(
    files: &mut F,
    name: &str,
    list: &ListEnds,
    part: &Part,
    hidden: Option<u64>,
    heads: &mut Heads,
) -> Result<u64, FreeFault>
    requires part { IsPart list.now.end (part_area part.now) }
    requires heads { AllByRecursion (IsHoleIn list.now.end) heads.old }
    ensures told { IfOk result (λ added. IfTold (F.holds files.old) (λ m.
        length (bytes_of name.now m) ≡ list.now.end → PlansPart (bytes_of name.now m) list.now.head
        (part_area part.now) hidden heads.old heads.new added)) }
    ensures few { IfOk result (λ added. added ≤ 1) }
    ensures bad { IfErr result (λ f. IfDamaged f (λ p. IfTold (F.holds files.old) (λ m.
        length (bytes_of name.now m) ≡ list.now.end
        → PartBad (bytes_of name.now m) list.now.head (part_area part.now) hidden heads.old p))) }
    ensures heads { OnOk result (AllByRecursion (IsHoleIn list.now.end) heads.new) }
    ensures holds { F.holds files.new ≡ F.holds files.old }
    ensures room { IfErr result IsNotFull }
    ensures cause { HasCause File (F.faults files.old) (F.faults files.new) result }
{
    let sight = Sight {
        end: list.end,
        heads: Some(heads),
        hidden,
    };
    let plan = see_release(files, name, &sight, list.head, part.at, part.size)?;
    push_plan(heads, part, &plan)?;
    Ok(alone_by(&plan.joined))
}

/// Plans the releases of these areas, one after the other: the headers that they write. Answers where the
/// list begins then, and how many deleted blocks are on it that were not. Nothing is written.
pub(crate) fn plan_releases<F: Files>(
    files: &mut F,
    name: &str,
    list: &ListEnds,
    parts: &[Part],
    heads: &mut Heads,
) -> Result<Released, FreeFault>
    requires none { heads.old ≡ [] }
    requires parts { AllByRecursion (IsPart list.now.end) (parts_in parts.now) }
    ensures told { OnOk result (IfTold (F.holds files.old) (λ m.
        length (bytes_of name.now m) ≡ list.now.end → heads_in (hole_in (bytes_of name.now m))
        list.now.head (parts_in parts.now) ≡ Ok heads.new)) }
    ensures bad { IfErr result (λ f. IfDamaged f (λ p. IfTold (F.holds files.old) (λ m.
        length (bytes_of name.now m) ≡ list.now.end → heads_in (hole_in (bytes_of name.now m))
        list.now.head (parts_in parts.now) ≡ Err p))) }
    ensures heads { OnOk result (AllByRecursion (IsHoleIn list.now.end) heads.new) }
    ensures head { IfOk result (λ r. r.head ≡ head_after list.now.head (parts_in parts.now)) }
    ensures more { IfOk result (λ r. IfTold (F.holds files.old) (λ m.
        length (bytes_of name.now m) ≡ list.now.end → r.more
        ≡ added_in (hole_in (bytes_of name.now m)) list.now.head (parts_in parts.now))) }
    ensures holds { F.holds files.new ≡ F.holds files.old }
    ensures room { IfErr result IsNotFull }
    ensures cause { HasCause File (F.faults files.old) (F.faults files.new) result }
{
    let mut head = list.head;
    let mut more = 0u64;
    let mut left = parts;
    while let Some((part, behind)) = left.split_first() {
        let now = ListEnds {
            head,
            end: list.end,
        };
        more += plan_part(files, name, &now, part, next_of(behind), heads)?;
        head = Some(part.at);
        left = behind;
    }
    Ok(Released { head, more })
}

/// Writes these headers of deleted blocks.
pub(crate) fn write_heads<F: Files>(
    files: &mut F,
    name: &str,
    heads: &[Head],
) -> Result<(), FreeFault>
    requires writable { IsTrue F.writable }
    requires heads { AllByRecursion IsLinkable heads.now }
    ensures ok { OnOk result (Told (F.holds files.old) (F.holds files.new) (λ m n. Becomes name.now
        (heads_written heads.now (bytes_of name.now m)) m n)) }
    ensures others { Told (F.holds files.old) (F.holds files.new) (OthersStay name.now) }
    ensures cut { IfErr result CutsOff }
    ensures cause { HasCause File (F.faults files.old) (F.faults files.new) result }
{
    let mut left = heads;
    while let Some((head, behind)) = left.split_first() {
        write_head(files, name, head.at, head.size, head.next, head.prev)?;
        left = behind;
    }
    Ok(())
}
