//! Writing the headers of deleted blocks: blocks are taken off the list, and areas become its head.
ghost use Rattle.std.specs.Prelude.{◌≡◌, ◌≤◌, ◌<◌, ◌+◌, ◌-◌, ◌^◌, IfOk, IfErr, IfSome, OnOk, IsTrue, length, Err};
ghost use Rattle.myi_base.specs.Holding.{Told, IfTold, OthersStay, bytes_of};
ghost use Rattle.myi_base.specs.Causes.{HasCause};
ghost use Rattle.myi_frames.specs.Block.{IsPointer, IsPlace};
ghost use Rattle.myi_dellist.specs.declared.fault.FreeFault.TheVariants.{File};
ghost use Rattle.myi_dellist.specs.Releasing.{most_size, half_size};
ghost use Rattle.myi_dellist.specs.Standing.{with_head};
ghost use Rattle.myi_dellist.specs.Freeing.{hole_in, IsLinkable, AreLinkable, CutsOff, IsNotFull, IfDamaged, Becomes, ReleasesOne, ReleasesTwo, plan_in, before_bytes, behind_bytes, taken_off_bytes, put_first_bytes, place_at, joined_size, unlinked_bytes};
ghost use Rattle.myi_dellist.specs.Planning.{next_bytes};
ghost use Rattle.myi_dellist.specs.Merging.{head_past, merge_in, MergesOne};

use crate::fault::FreeFault;
use crate::linked::{Linked, plan_merge, plan_release};
use myi_frames::{FrameKind, Head, deleted_head};
use myi_io::Files;

/// An area that took in the deleted block behind it, if any: how long it is then, and where the list
/// begins then.
#[derive(Clone, Copy)]
pub(crate) struct Merged {
    pub size: u32,
    pub head: Option<u64>,
}

/// Where an area is parted that is longer than a deleted block can be.
pub(crate) const HALF: u32 = 8_388_608;

/// Writes the first 20 bytes of a deleted block.
pub(crate) fn write_head<F: Files>(
    files: &mut F,
    name: &str,
    at: u64,
    size: u32,
    next: Option<u64>,
    prev: Option<u64>,
) -> Result<(), FreeFault>
    requires writable { IsTrue F.writable }
    requires least { 20 ≤ size }
    requires most { size < 2 ^ 24 }
    requires next { IsPointer next }
    requires prev { IsPointer prev }
    ensures ok { OnOk result (Told (F.holds files.old) (F.holds files.new) (λ m n. Becomes name.now
        (with_head (record { at = at; size = size }) next prev (bytes_of name.now m)) m n)) }
    ensures others { Told (F.holds files.old) (F.holds files.new) (OthersStay name.now) }
    ensures cut { IfErr result CutsOff }
    ensures cause { HasCause File (F.faults files.old) (F.faults files.new) result }
{
    let head = deleted_head(size, next, prev);
    files.write_at(name, at, &head)?;
    Ok(())
}

/// Makes the block before one that is taken off the list name the next.
fn write_before<F: Files>(files: &mut F, name: &str, linked: &Linked) -> Result<(), FreeFault>
    requires writable { IsTrue F.writable }
    requires before { IfSome linked.now.before IsLinkable }
    requires hole { IsLinkable linked.now.hole }
    ensures ok { OnOk result (Told (F.holds files.old) (F.holds files.new) (λ m n. Becomes name.now
        (before_bytes linked.now.hole linked.now.before (bytes_of name.now m)) m n)) }
    ensures others { Told (F.holds files.old) (F.holds files.new) (OthersStay name.now) }
    ensures cut { IfErr result CutsOff }
    ensures cause { HasCause File (F.faults files.old) (F.faults files.new) result }
{
    let Some(before) = linked.before else {
        return Ok(());
    };
    write_head(
        files,
        name,
        before.at,
        before.size,
        linked.hole.next,
        before.prev,
    )?;
    Ok(())
}

/// Makes the block behind one that is taken off the list name the one before.
fn write_behind<F: Files>(files: &mut F, name: &str, linked: &Linked) -> Result<(), FreeFault>
    requires writable { IsTrue F.writable }
    requires behind { IfSome linked.now.behind IsLinkable }
    requires hole { IsLinkable linked.now.hole }
    ensures ok { OnOk result (Told (F.holds files.old) (F.holds files.new) (λ m n. Becomes name.now
        (behind_bytes linked.now.hole linked.now.behind (bytes_of name.now m)) m n)) }
    ensures others { Told (F.holds files.old) (F.holds files.new) (OthersStay name.now) }
    ensures cut { IfErr result CutsOff }
    ensures cause { HasCause File (F.faults files.old) (F.faults files.new) result }
{
    let Some(behind) = linked.behind else {
        return Ok(());
    };
    write_head(
        files,
        name,
        behind.at,
        behind.size,
        behind.next,
        linked.hole.prev,
    )?;
    Ok(())
}

/// Takes a block off the list.
fn take_off<F: Files>(files: &mut F, name: &str, linked: &Linked) -> Result<(), FreeFault>
    requires writable { IsTrue F.writable }
    requires linkable { AreLinkable linked.now }
    ensures ok { OnOk result (Told (F.holds files.old) (F.holds files.new) (λ m n. Becomes name.now
        (taken_off_bytes linked.now (bytes_of name.now m)) m n)) }
    ensures others { Told (F.holds files.old) (F.holds files.new) (OthersStay name.now) }
    ensures cut { IfErr result CutsOff }
    ensures cause { HasCause File (F.faults files.old) (F.faults files.new) result }
{
    write_before(files, name, linked)?;
    write_behind(files, name, linked)?;
    Ok(())
}

/// The place of a block, where there is one.
pub(crate) fn place_at(head: Option<Head>) -> Option<u64>
    ensures { result ≡ place_at head }
{
    match head {
        None => None,
        Some(head) => Some(head.at),
    }
}

/// Makes an area the head of the list, before the block that is the first now.
pub(crate) fn put_first<F: Files>(
    files: &mut F,
    name: &str,
    at: u64,
    size: u32,
    first: Option<Head>,
) -> Result<(), FreeFault>
    requires writable { IsTrue F.writable }
    requires place { at < 2 ^ 64 - 1 }
    requires least { 20 ≤ size }
    requires most { size < 2 ^ 24 }
    requires first { IfSome first IsLinkable }
    ensures ok { OnOk result (Told (F.holds files.old) (F.holds files.new) (λ m n. Becomes name.now
        (put_first_bytes (record { at = at; size = size }) first (bytes_of name.now m)) m n)) }
    ensures others { Told (F.holds files.old) (F.holds files.new) (OthersStay name.now) }
    ensures cut { IfErr result CutsOff }
    ensures cause { HasCause File (F.faults files.old) (F.faults files.new) result }
{
    write_head(files, name, at, size, place_at(first), None)?;
    let Some(first) = first else {
        return Ok(());
    };
    write_head(files, name, first.at, first.size, first.next, Some(at))?;
    Ok(())
}

/// Makes a block the head of the list: it names none before it.
pub(crate) fn write_first<F: Files>(
    files: &mut F,
    name: &str,
    first: Option<Head>,
) -> Result<(), FreeFault>
    requires writable { IsTrue F.writable }
    requires first { IfSome first IsLinkable }
    ensures ok { OnOk result (Told (F.holds files.old) (F.holds files.new) (λ m n. Becomes name.now
        (next_bytes first (bytes_of name.now m)) m n)) }
    ensures others { Told (F.holds files.old) (F.holds files.new) (OthersStay name.now) }
    ensures cut { IfErr result CutsOff }
    ensures cause { HasCause File (F.faults files.old) (F.faults files.new) result }
{
    let Some(first) = first else {
        return Ok(());
    };
    write_head(files, name, first.at, first.size, first.next, None)?;
    Ok(())
}

/// Takes the block off the list that an area is joined with, if any, and answers how long both are.
pub(crate) fn take_joined<F: Files>(
    files: &mut F,
    name: &str,
    size: u32,
    joined: Option<Linked>,
) -> Result<u32, FreeFault>
    requires writable { IsTrue F.writable }
    requires linkable { IfSome joined AreLinkable }
    requires short { IfSome joined (λ l. size + l.hole.size ≤ most_size) }
    ensures size { IfOk result (λ whole. whole ≡ joined_size size joined) }
    ensures ok { OnOk result (Told (F.holds files.old) (F.holds files.new) (λ m n. Becomes name.now
        (unlinked_bytes joined (bytes_of name.now m)) m n)) }
    ensures others { Told (F.holds files.old) (F.holds files.new) (OthersStay name.now) }
    ensures cut { IfErr result CutsOff }
    ensures cause { HasCause File (F.faults files.old) (F.faults files.new) result }
{
    let Some(linked) = joined else {
        return Ok(size);
    };
    take_off(files, name, &linked)?;
    Ok(size + linked.hole.size)
}

/// Releases an area that a deleted block can be, in a file of `end` bytes whose list has this head; the
/// area is its head then. Where a block is not what the list needs, nothing is written.
pub(crate) fn release_one<F: Files>(
    files: &mut F,
    name: &str,
    end: u64,
    head: Option<u64>,
    at: u64,
    size: u32,
) -> Result<(), FreeFault>
    requires writable { IsTrue F.writable }
    requires place { IsPlace at size end }
    requires most { size ≤ most_size }
    ensures ok { OnOk result (Told (F.holds files.old) (F.holds files.new)
        (ReleasesOne name.now end head at size)) }
    ensures damaged { IfErr result (λ f. IfDamaged f (λ p.
        IfTold (F.holds files.old) (λ m. length (bytes_of name.now m) ≡ end
        → plan_in (hole_in (bytes_of name.now m)) head at size ≡ Err p))) }
    ensures unchanged { IfErr result (λ f. IfDamaged f (λ p.
        F.holds files.new ≡ F.holds files.old)) }
    ensures others { Told (F.holds files.old) (F.holds files.new) (OthersStay name.now) }
    ensures room { IfErr result IsNotFull }
    ensures cause { HasCause File (F.faults files.old) (F.faults files.new) result }
{
    let plan = plan_release(files, name, end, head, at, size)?;
    let whole = take_joined(files, name, size, plan.joined)?;
    put_first(files, name, at, whole, plan.first)?;
    Ok(())
}

/// Releases a longer area as two: its back part, and then its front part, which is the head of the list
/// then. Where a block is not what the list needs, nothing is written.
pub(crate) fn release_two<F: Files>(
    files: &mut F,
    name: &str,
    end: u64,
    head: Option<u64>,
    at: u64,
    size: u32,
) -> Result<(), FreeFault>
    requires writable { IsTrue F.writable }
    requires place { IsPlace at size end }
    requires long { most_size < size }
    requires most { size ≤ half_size + most_size }
    ensures ok { OnOk result (Told (F.holds files.old) (F.holds files.new)
        (ReleasesTwo name.now end head at size)) }
    ensures damaged { IfErr result (λ f. IfDamaged f (λ p.
        IfTold (F.holds files.old) (λ m. length (bytes_of name.now m) ≡ end
        → plan_in (hole_in (bytes_of name.now m)) head (at + half_size) (size - half_size) ≡ Err p))) }
    ensures unchanged { IfErr result (λ f. IfDamaged f (λ p.
        F.holds files.new ≡ F.holds files.old)) }
    ensures others { Told (F.holds files.old) (F.holds files.new) (OthersStay name.now) }
    ensures room { IfErr result IsNotFull }
    ensures cause { HasCause File (F.faults files.old) (F.faults files.new) result }
{
    let back = at + HALF as u64;
    let plan = plan_release(files, name, end, head, back, size - HALF)?;
    let whole = take_joined(files, name, size - HALF, plan.joined)?;
    put_first(files, name, back, whole, plan.first)?;
    let second = Head {
        kind: FrameKind::Deleted,
        at: back,
        size: whole,
        rec_len: 0,
        next: place_at(plan.first),
        prev: None,
    };
    put_first(files, name, at, HALF, Some(second))?;
    Ok(())
}

/// Where the list begins once a block is taken off it.
fn head_past(head: Option<u64>, joined: Option<Linked>) -> Option<u64>
    ensures { result ≡ head_past head joined }
{
    let Some(linked) = joined else {
        return head;
    };
    match linked.before {
        None => linked.hole.next,
        Some(_) => head,
    }
}

/// Takes the deleted block behind an area off the list, where both together are not too long. Where a
/// block is not what the list needs, nothing is written.
pub(crate) fn merge_one<F: Files>(
    files: &mut F,
    name: &str,
    end: u64,
    head: Option<u64>,
    at: u64,
    size: u32,
) -> Result<Merged, FreeFault>
    requires writable { IsTrue F.writable }
    requires place { IsPlace at size end }
    requires most { size ≤ most_size }
    ensures ok { IfOk result (λ merged. Told (F.holds files.old) (F.holds files.new)
        (MergesOne name.now end head at size merged)) }
    ensures most { IfOk result (λ merged. merged.size ≤ most_size) }
    ensures damaged { IfErr result (λ f. IfDamaged f (λ p.
        IfTold (F.holds files.old) (λ m. length (bytes_of name.now m) ≡ end
        → merge_in (hole_in (bytes_of name.now m)) head at size ≡ Err p))) }
    ensures unchanged { IfErr result (λ f. IfDamaged f (λ p.
        F.holds files.new ≡ F.holds files.old)) }
    ensures others { Told (F.holds files.old) (F.holds files.new) (OthersStay name.now) }
    ensures room { IfErr result IsNotFull }
    ensures cause { HasCause File (F.faults files.old) (F.faults files.new) result }
{
    let joined = plan_merge(files, name, end, head, at, size)?;
    let whole = take_joined(files, name, size, joined)?;
    Ok(Merged {
        size: whole,
        head: head_past(head, joined),
    })
}
