//! Deleted blocks as they stand in a file, and what a release needs of them. Nothing is written here.
ghost use Rattle.std.specs.Prelude.{◌≡◌, ◌≤◌, ◌<◌, ◌+◌, ◌^◌, ℕ, List, [], None, length, IfOk, IfErr, IfSome, OnOk};
ghost use Rattle.myi_base.specs.Holding.{IfTold, bytes_of};
ghost use Rattle.myi_base.specs.Causes.{HasCause};
ghost use Rattle.myi_io.specs.declared.files.FileErr.TheVariants.{Failed};
ghost use Rattle.myi_frames.specs.Seeing.{IsPartAt};
ghost use Rattle.myi_dellist.specs.declared.fault.FreeFault.TheVariants.{File};
ghost use Rattle.myi_dellist.specs.Freeing.{is_deleted, hole_in, same_link, if_says, names_next, names_prev, block_before, block_named, Answers, IsHoleAt, IsHoleIn, IsNotFull};
ghost use Rattle.myi_dellist.specs.Freeing.{block_linked, hole_behind, first_without, without_prev, next_past, plan_in, AreHolesIn, IsPlanIn};
ghost use Rattle.myi_dellist.specs.Releasing.{most_size};
ghost use Rattle.myi_dellist.specs.Merging.{merge_in};
ghost use Rattle.myi_dellist.specs.Planning.{alone_by};
ghost use Rattle.myi_dellist.specs.Heads.{over};
ghost use Rattle.myi_dellist.specs.Several.{seen_in, IsSight};
ghost use Rattle.std.specs.Option.{option_copied, unwrap_or};

use crate::fault::FreeFault;
use crate::heads::Heads;
use myi_base::slices_are_bytes;
use myi_frames::{FrameKind, Head, LEAST_SIZE, MOST_SIZE, header_at};
use myi_io::{FileErr, Files};

/// A deleted block that is taken off the list, and those beside it.
#[derive(Clone, Copy)]
pub(crate) struct Linked {
    pub before: Option<Head>,
    pub hole: Head,
    pub behind: Option<Head>,
}

/// What a release finds: the deleted block that the area is joined with, and the block that is then the
/// first of the list.
#[derive(Clone, Copy)]
pub(crate) struct ReleasePlan {
    pub joined: Option<Linked>,
    pub first: Option<Head>,
}

/// Which deleted blocks are seen in a file of `end` bytes: those that stand there, as these headers say once
/// they are written one after another, and none at a place that is hidden.
#[derive(Clone, Copy)]
pub(crate) struct Sight<'a> {
    pub end: u64,
    pub heads: Option<&'a Heads>,
    pub hidden: Option<u64>,
}

fn is_deleted(kind: FrameKind) -> bool
    ensures { result ≡ is_deleted kind }
{
    match kind {
        FrameKind::Deleted => true,
        FrameKind::Whole | FrameKind::Start | FrameKind::Middle | FrameKind::End => false,
    }
}

/// The deleted block at a place of a file of `end` bytes, by the first 20 bytes there.
fn hole_of(bytes: &[u8], at: u64, end: u64) -> Option<Head>
    requires { length bytes.now ≡ 20 }
    ensures told { (d : List ℕ) → length d ≡ end → IsPartAt at bytes.now d
        → result ≡ hole_in d at }
    ensures hole { IfSome result (IsHoleAt at end) }
{
    slices_are_bytes(bytes);
    let Some(header) = header_at(bytes, at, end) else {
        return None;
    };
    if !is_deleted(header.head.kind) {
        return None;
    }
    Some(header.head)
}

/// The deleted block at a place of a file of `end` bytes, by one read of its header. None where none is.
pub(crate) fn hole_at<F: Files>(
    files: &mut F,
    name: &str,
    at: u64,
    end: u64,
) -> Result<Option<Head>, FileErr>
    ensures told { IfOk result (λ hole. IfTold (F.holds files.old) (λ m.
        length (bytes_of name.now m) ≡ end → hole ≡ hole_in (bytes_of name.now m) at)) }
    ensures hole { IfOk result (λ hole. IfSome hole (IsHoleAt at end)) }
    ensures holds { F.holds files.new ≡ F.holds files.old }
    ensures cause { HasCause Failed (F.faults files.old) (F.faults files.new) result }
{
    let mut bytes = [0u8; LEAST_SIZE];
    let count = files.read_at(name, at, &mut bytes)?;
    if count < LEAST_SIZE {
        return Ok(None);
    }
    Ok(hole_of(&bytes, at, end))
}

/// How many deleted blocks an area adds to the list that is joined with this one, or with none.
pub(crate) fn alone_by(joined: &Option<Linked>) -> u64
    ensures value { result ≡ alone_by joined.now }
    ensures few { result ≤ 1 }
{
    match joined {
        None => 1,
        Some(_) => 0,
    }
}

/// Whether two links are the same.
pub(crate) fn is_same(a: Option<u64>, b: Option<u64>) -> bool
    ensures { result ≡ same_link a b }
{
    match a {
        None => b.is_none(),
        Some(p) => match b {
            None => false,
            Some(q) => p == q,
        },
    }
}

/// The last planned header that is one of a place.
fn planned(heads: Option<&Heads>, at: u64) -> Option<Head>
    ensures { result ≡ over (unwrap_or (option_copied heads.entry) []) (λ p. None) at }
{
    match heads {
        Some(heads) => heads.last_at(at),
        None => None,
    }
}

/// The deleted block that is seen at a place.
fn seen_at<F: Files>(
    files: &mut F,
    name: &str,
    sight: &Sight<'_>,
    at: u64,
) -> Result<Option<Head>, FileErr>
    requires { IsSight sight.now }
    ensures told { IfOk result (λ hole. IfTold (F.holds files.old) (λ m.
        length (bytes_of name.now m) ≡ sight.now.end
        → hole ≡ seen_in sight.now (bytes_of name.now m) at)) }
    ensures hole { IfOk result (λ hole. IfSome hole (IsHoleAt at sight.now.end)) }
    ensures holds { F.holds files.new ≡ F.holds files.old }
    ensures cause { HasCause Failed (F.faults files.old) (F.faults files.new) result }
{
    if is_same(sight.hidden, Some(at)) {
        return Ok(None);
    }
    let Some(head) = planned(sight.heads, at) else {
        return hole_at(files, name, at, sight.end);
    };
    Ok(Some(head))
}

/// The deleted block at a place, which is to name this one as the next.
fn hole_naming_next<F: Files>(
    files: &mut F,
    name: &str,
    sight: &Sight<'_>,
    at: u64,
    next: Option<u64>,
) -> Result<Head, FreeFault>
    requires { IsSight sight.now }
    ensures told { IfTold (F.holds files.old) (λ m. length (bytes_of name.now m) ≡ sight.now.end
        → Answers result (if_says (names_next next) at (seen_in sight.now (bytes_of name.now m) at))) }
    ensures hole { IfOk result (IsHoleAt at sight.now.end) }
    ensures holds { F.holds files.new ≡ F.holds files.old }
    ensures room { IfErr result IsNotFull }
    ensures cause { HasCause File (F.faults files.old) (F.faults files.new) result }
{
    let Some(hole) = seen_at(files, name, sight, at)? else {
        return Err(FreeFault::Damaged { at });
    };
    if !is_same(hole.next, next) {
        return Err(FreeFault::Damaged { at });
    }
    Ok(hole)
}

/// The deleted block at a place, which is to name this one before it.
fn hole_naming_prev<F: Files>(
    files: &mut F,
    name: &str,
    sight: &Sight<'_>,
    at: u64,
    prev: Option<u64>,
) -> Result<Head, FreeFault>
    requires { IsSight sight.now }
    ensures told { IfTold (F.holds files.old) (λ m. length (bytes_of name.now m) ≡ sight.now.end
        → Answers result (if_says (names_prev prev) at (seen_in sight.now (bytes_of name.now m) at))) }
    ensures hole { IfOk result (IsHoleAt at sight.now.end) }
    ensures holds { F.holds files.new ≡ F.holds files.old }
    ensures room { IfErr result IsNotFull }
    ensures cause { HasCause File (F.faults files.old) (F.faults files.new) result }
{
    let Some(hole) = seen_at(files, name, sight, at)? else {
        return Err(FreeFault::Damaged { at });
    };
    if !is_same(hole.prev, prev) {
        return Err(FreeFault::Damaged { at });
    }
    Ok(hole)
}

/// The block before one that is on the list; None before its head.
fn block_before<F: Files>(
    files: &mut F,
    name: &str,
    sight: &Sight<'_>,
    head: Option<u64>,
    hole: &Head,
) -> Result<Option<Head>, FreeFault>
    requires { IsSight sight.now }
    ensures told { IfTold (F.holds files.old) (λ m. length (bytes_of name.now m) ≡ sight.now.end
        → Answers result (block_before (seen_in sight.now (bytes_of name.now m)) head hole.now)) }
    ensures hole { IfOk result (λ before. IfSome before (IsHoleIn sight.now.end)) }
    ensures holds { F.holds files.new ≡ F.holds files.old }
    ensures room { IfErr result IsNotFull }
    ensures cause { HasCause File (F.faults files.old) (F.faults files.new) result }
{
    let Some(at) = hole.prev else {
        if !is_same(head, Some(hole.at)) {
            return Err(FreeFault::Damaged { at: hole.at });
        }
        return Ok(None);
    };
    let before = hole_naming_next(files, name, sight, at, Some(hole.at))?;
    Ok(Some(before))
}

/// The block that a link names, which is to name this one before it.
fn see_named<F: Files>(
    files: &mut F,
    name: &str,
    sight: &Sight<'_>,
    prev: Option<u64>,
    link: Option<u64>,
) -> Result<Option<Head>, FreeFault>
    requires { IsSight sight.now }
    ensures told { IfTold (F.holds files.old) (λ m. length (bytes_of name.now m) ≡ sight.now.end
        → Answers result (block_named (seen_in sight.now (bytes_of name.now m)) prev link)) }
    ensures hole { IfOk result (λ named. IfSome named (IsHoleIn sight.now.end)) }
    ensures inside { OnOk result (IfSome link (λ at. at < sight.now.end)) }
    ensures holds { F.holds files.new ≡ F.holds files.old }
    ensures room { IfErr result IsNotFull }
    ensures cause { HasCause File (F.faults files.old) (F.faults files.new) result }
{
    let Some(at) = link else {
        return Ok(None);
    };
    let named = hole_naming_prev(files, name, sight, at, prev)?;
    Ok(Some(named))
}

/// A block that is on the list, with those beside it.
fn link<F: Files>(
    files: &mut F,
    name: &str,
    sight: &Sight<'_>,
    head: Option<u64>,
    hole: Head,
) -> Result<Linked, FreeFault>
    requires sight { IsSight sight.now }
    requires hole { IsHoleIn sight.now.end hole }
    ensures told { IfTold (F.holds files.old) (λ m. length (bytes_of name.now m) ≡ sight.now.end
        → Answers result (block_linked (seen_in sight.now (bytes_of name.now m)) head hole)) }
    ensures holes { IfOk result (AreHolesIn sight.now.end) }
    ensures same { IfOk result (λ l. l.hole ≡ hole) }
    ensures holds { F.holds files.new ≡ F.holds files.old }
    ensures room { IfErr result IsNotFull }
    ensures cause { HasCause File (F.faults files.old) (F.faults files.new) result }
{
    let before = block_before(files, name, sight, head, &hole)?;
    let behind = see_named(files, name, sight, Some(hole.at), hole.next)?;
    Ok(Linked {
        before,
        hole,
        behind,
    })
}

/// The deleted block behind an area, where one deleted block may be as long as both.
fn hole_behind<F: Files>(
    files: &mut F,
    name: &str,
    sight: &Sight<'_>,
    at: u64,
    size: u32,
) -> Result<Option<Head>, FileErr>
    requires sight { IsSight sight.now }
    requires inside { at + size ≤ sight.now.end }
    requires most { size < 2 ^ 24 }
    ensures told { IfOk result (λ hole. IfTold (F.holds files.old) (λ m.
        length (bytes_of name.now m) ≡ sight.now.end
        → hole ≡ hole_behind (seen_in sight.now (bytes_of name.now m)) at size)) }
    ensures hole { IfOk result (λ hole. IfSome hole (IsHoleIn sight.now.end)) }
    ensures at { IfOk result (λ hole. IfSome hole (λ h. h.at ≡ at + size)) }
    ensures short { IfOk result (λ hole. IfSome hole (λ h. size + h.size ≤ most_size)) }
    ensures holds { F.holds files.new ≡ F.holds files.old }
    ensures cause { HasCause Failed (F.faults files.old) (F.faults files.new) result }
{
    let Some(hole) = seen_at(files, name, sight, at + size as u64)? else {
        return Ok(None);
    };
    if size + hole.size > MOST_SIZE {
        return Ok(None);
    }
    Ok(Some(hole))
}

/// The first block of the list once a block is taken off it.
fn first_without<F: Files>(
    files: &mut F,
    name: &str,
    sight: &Sight<'_>,
    head: Option<u64>,
    linked: &Linked,
) -> Result<Option<Head>, FreeFault>
    requires sight { IsSight sight.now }
    requires hole { AreHolesIn sight.now.end linked.now }
    ensures told { IfTold (F.holds files.old) (λ m. length (bytes_of name.now m) ≡ sight.now.end
        → Answers result (first_without (seen_in sight.now (bytes_of name.now m)) head linked.now)) }
    ensures hole { IfOk result (λ first. IfSome first (IsHoleIn sight.now.end)) }
    ensures holds { F.holds files.new ≡ F.holds files.old }
    ensures room { IfErr result IsNotFull }
    ensures cause { HasCause File (F.faults files.old) (F.faults files.new) result }
{
    let Some(before) = linked.before else {
        return Ok(without_prev(linked.behind));
    };
    let first = see_named(files, name, sight, None, head)?;
    Ok(next_past(&before, &linked.hole, first))
}

/// The block, as one that names none before it.
pub(crate) fn without_prev(hole: Option<Head>) -> Option<Head>
    ensures { result ≡ without_prev hole }
{
    match hole {
        None => None,
        Some(hole) => Some(Head { prev: None, ..hole }),
    }
}

/// The first block, as one that names the next past a block that is taken off, where it is the one
/// before that.
pub(crate) fn next_past(before: &Head, hole: &Head, first: Option<Head>) -> Option<Head>
    ensures { result ≡ next_past before.now hole.now first }
{
    let Some(first) = first else {
        return None;
    };
    if first.at == before.at {
        return Some(Head {
            next: hole.next,
            ..first
        });
    }
    Some(first)
}

/// What a release of an area finds. Nothing is written.
pub(crate) fn see_release<F: Files>(
    files: &mut F,
    name: &str,
    sight: &Sight<'_>,
    head: Option<u64>,
    at: u64,
    size: u32,
) -> Result<ReleasePlan, FreeFault>
    requires sight { IsSight sight.now }
    requires inside { at + size ≤ sight.now.end }
    requires most { size < 2 ^ 24 }
    ensures told { IfTold (F.holds files.old) (λ m. length (bytes_of name.now m) ≡ sight.now.end
        → Answers result (plan_in (seen_in sight.now (bytes_of name.now m)) head at size)) }
    ensures holes { IfOk result (IsPlanIn sight.now.end size) }
    ensures at { IfOk result (λ p. IfSome p.joined (λ l. l.hole.at ≡ at + size)) }
    ensures holds { F.holds files.new ≡ F.holds files.old }
    ensures room { IfErr result IsNotFull }
    ensures cause { HasCause File (F.faults files.old) (F.faults files.new) result }
{
    let Some(hole) = hole_behind(files, name, sight, at, size)? else {
        let alone = see_named(files, name, sight, None, head)?;
        return Ok(ReleasePlan {
            joined: None,
            first: alone,
        });
    };
    let linked = link(files, name, sight, head, hole)?;
    let first = first_without(files, name, sight, head, &linked)?;
    Ok(ReleasePlan {
        joined: Some(linked),
        first,
    })
}

/// The block that a link names in a file of `end` bytes, which is to name this one before it.
pub(crate) fn block_named<F: Files>(
    files: &mut F,
    name: &str,
    end: u64,
    prev: Option<u64>,
    link: Option<u64>,
) -> Result<Option<Head>, FreeFault>
    ensures told { IfTold (F.holds files.old) (λ m. length (bytes_of name.now m) ≡ end
        → Answers result (block_named (hole_in (bytes_of name.now m)) prev link)) }
    ensures hole { IfOk result (λ named. IfSome named (IsHoleIn end)) }
    ensures inside { OnOk result (IfSome link (λ at. at < end)) }
    ensures holds { F.holds files.new ≡ F.holds files.old }
    ensures room { IfErr result IsNotFull }
    ensures cause { HasCause File (F.faults files.old) (F.faults files.new) result }
{
    let sight = Sight {
        end,
        heads: None,
        hidden: None,
    };
    see_named(files, name, &sight, prev, link)
}

/// What a release of an area finds. Nothing is written.
pub(crate) fn plan_release<F: Files>(
    files: &mut F,
    name: &str,
    end: u64,
    head: Option<u64>,
    at: u64,
    size: u32,
) -> Result<ReleasePlan, FreeFault>
    requires inside { at + size ≤ end }
    requires most { size < 2 ^ 24 }
    ensures told { IfTold (F.holds files.old) (λ m. length (bytes_of name.now m) ≡ end
        → Answers result (plan_in (hole_in (bytes_of name.now m)) head at size)) }
    ensures holes { IfOk result (IsPlanIn end size) }
    ensures holds { F.holds files.new ≡ F.holds files.old }
    ensures room { IfErr result IsNotFull }
    ensures cause { HasCause File (F.faults files.old) (F.faults files.new) result }
{
    let sight = Sight {
        end,
        heads: None,
        hidden: None,
    };
    see_release(files, name, &sight, head, at, size)
}

/// The deleted block that an area takes in, with those beside it. Nothing is written.
pub(crate) fn plan_merge<F: Files>(
    files: &mut F,
    name: &str,
    end: u64,
    head: Option<u64>,
    at: u64,
    size: u32,
) -> Result<Option<Linked>, FreeFault>
    requires inside { at + size ≤ end }
    requires most { size < 2 ^ 24 }
    ensures told { IfTold (F.holds files.old) (λ m. length (bytes_of name.now m) ≡ end
        → Answers result (merge_in (hole_in (bytes_of name.now m)) head at size)) }
    ensures holes { IfOk result (λ joined. IfSome joined (AreHolesIn end)) }
    ensures short { IfOk result (λ joined. IfSome joined (λ l. size + l.hole.size ≤ most_size)) }
    ensures holds { F.holds files.new ≡ F.holds files.old }
    ensures room { IfErr result IsNotFull }
    ensures cause { HasCause File (F.faults files.old) (F.faults files.new) result }
{
    let sight = Sight {
        end,
        heads: None,
        hidden: None,
    };
    let Some(hole) = hole_behind(files, name, &sight, at, size)? else {
        return Ok(None);
    };
    let linked = link(files, name, &sight, head, hole)?;
    Ok(Some(linked))
}
