//! A map of ranges, of which those that touch are joined.
//!
//! Each range is kept by the place of its first byte, with the place behind its last. A scan asks only
//! from where it stands on, so that ranges before that place may be joined where they touch: `add_blocks`
//! does so for the first block of a row, and `join_up` for all that was passed since the row before. A
//! range from the file's start is kept beside the map, and takes up those that begin where it ends.
ghost use Rattle.std.specs.Prelude.{◌≡◌, ◌≢◌, ℕ, ◌<◌, true, false, [], ◌∷◌, ◌++◌, None, IfOk, OnOk, OnErr};
ghost use Rattle.std.specs.Ordering.{nat_cmp};
ghost use Rattle.std.specs.Map.{lookup};
ghost use Rattle.std.specs.BTreeMap.{is_at, insert_entry};
ghost use Rattle.std.specs.List.{AllByRecursion};
ghost use Rattle.myi_base.specs.Ranges.{is_apart};
ghost use Rattle.myi_chain.specs.Chain.{AreApart, ranges_at};
ghost use Rattle.myi_chain.specs.Readable.{end_of};
ghost use Rattle.myi_chain.specs.Used.{IsRange, AreInOrder, SameFrom, joined};

use crate::ranges::{last_far, put_all, take_out};
use std::alloc::AllocError;
use std::collections::BTreeMap;

/// Makes a range that is in a map end at another place. No memory is taken for it.
fn set_end(far: &mut BTreeMap<u64, u64>, from: u64, to: u64)
    requires { lookup (is_at (nat_cmp from)) far.old.entries ≢ None }
    ensures { far.new.entries ≡ insert_entry nat_cmp far.old.entries from to }
{
    match far.insert(from, to) {
        Ok(_) => {}
        Err(_) => unreachable!(),
    }
}

/// Makes the range that ends at a place longer, if there is one.
fn grow(far: &mut BTreeMap<u64, u64>, at: u64, to: u64) -> bool
    requires order { AreInOrder 0 far.old.entries }
    requires apart { is_apart (at, to) far.old.entries ≡ true }
    requires some { at < to }
    ensures grown { result ≡ true
        → SameFrom to far.new.entries (far.old.entries ++ (at, to) ∷ []) }
    ensures same { result ≡ false → far.new.entries ≡ far.old.entries }
    ensures order { AreInOrder 0 far.new.entries }
{
    let Some((from, end)) = last_far(far, at) else {
        return false;
    };
    if end != at {
        return false;
    }
    set_end(far, from, to);
    true
}

/// Joins the range that ends at a place with the one that begins there, if both are there.
fn join_at(far: &mut BTreeMap<u64, u64>, at: u64)
    requires order { AreInOrder 0 far.old.entries }
    ensures same { (place : ℕ) → at < place → SameFrom place far.new.entries far.old.entries }
    ensures order { AreInOrder 0 far.new.entries }
{
    let Some((from, to)) = last_far(far, at) else {
        return;
    };
    if to != at {
        return;
    }
    let Some(end) = far.get(&at).copied() else {
        return;
    };
    set_end(far, from, end);
    far.remove(&at);
}

/// Adds the range of the first block of a row and those of its others, or none. The first one joins the
/// range that ends where it begins.
fn add_row(
    far: &mut BTreeMap<u64, u64>,
    at: u64,
    to: u64,
    more: &[(u64, u32)],
) -> Result<(), AllocError>
    requires order { AreInOrder 0 far.old.entries }
    requires apart { AreApart far.old.entries ((at, to) ∷ ranges_at more.now) }
    requires first { at < to }
    requires some { AllByRecursion IsRange (ranges_at more.now) }
    ensures same { OnOk result
        (SameFrom to far.new.entries (far.old.entries ++ (at, to) ∷ ranges_at more.now)) }
    ensures order { AreInOrder 0 far.new.entries }
    ensures err { OnErr result (far.new.entries ≡ far.old.entries) }
{
    put_all(far, more)?;
    if grow(far, at, to) {
        return Ok(());
    }
    match far.insert(at, to) {
        Ok(_) => Ok(()),
        Err(_) => {
            take_out(far, more);
            Err(AllocError)
        }
    }
}

/// Adds the ranges of a row's blocks, of which these are the first and the others, beside one from the
/// file's start up to `front`, or none. Answers where that one ends then.
pub(crate) fn add_blocks(
    far: &mut BTreeMap<u64, u64>,
    front: u64,
    at: u64,
    to: u64,
    more: &[(u64, u32)],
) -> Result<u64, AllocError>
    requires order { AreInOrder 0 far.old.entries }
    requires apart { AreApart (joined front ++ far.old.entries)
        ((at, to) ∷ ranges_at more.now) }
    requires first { at < to }
    requires some { AllByRecursion IsRange (ranges_at more.now) }
    ensures same { IfOk result (λ end. SameFrom to (joined end ++ far.new.entries)
        ((joined front ++ far.old.entries) ++ (at, to) ∷ ranges_at more.now)) }
    ensures plain { IfOk result (λ end. at ≡ front → far.old.entries ≡ [] → more.now ≡ []
        → (end ≡ to) × (far.new.entries ≡ [])) }
    ensures order { AreInOrder 0 far.new.entries }
    ensures err { OnErr result (far.new.entries ≡ far.old.entries) }
    ensures needs { OnErr result (at ≡ front → more.now ≢ []) }
{
    if at == front {
        put_all(far, more)?;
        return Ok(to);
    }
    add_row(far, at, to, more)?;
    Ok(front)
}

/// Joins each range that begins from a place on and before another with the one that ends there.
fn join_between(far: &mut BTreeMap<u64, u64>, low: u64, high: u64)
    requires order { AreInOrder 0 far.old.entries }
    ensures same { SameFrom high far.new.entries far.old.entries }
    ensures order { AreInOrder 0 far.new.entries }
{
    let mut at = high;
    while let Some((from, _)) = last_far(far, at) {
        if from < low {
            return;
        }
        join_at(far, from);
        at = from;
    }
}

/// Joins the ranges of these blocks that stand before a place with those that touch them.
fn join_blocks(far: &mut BTreeMap<u64, u64>, blocks: &[(u64, u32)], place: u64)
    requires order { AreInOrder 0 far.old.entries }
    requires some { AllByRecursion IsRange (ranges_at blocks.now) }
    ensures same { SameFrom place far.new.entries far.old.entries }
    ensures order { AreInOrder 0 far.new.entries }
{
    let mut rest = blocks;
    while let Some((first, more)) = rest.split_first() {
        let to = first.0 + first.1 as u64;
        if to < place {
            join_at(far, first.0);
            join_at(far, to);
        }
        rest = more;
    }
}

/// Takes ranges that begin before a place out of a map, each where a range from the file's start ends,
/// and answers where that one ends then.
fn take_up(far: &mut BTreeMap<u64, u64>, front: u64, place: u64) -> u64
    requires order { AreInOrder 0 far.old.entries }
    requires some { 0 < place }
    ensures same { SameFrom place (joined result ++ far.new.entries)
        (joined front ++ far.old.entries) }
    ensures order { AreInOrder 0 far.new.entries }
    ensures start { result ≡ 0 → end_of 0 far.new.entries ≡ 0 }
{
    let mut end = front;
    while end < place {
        match far.remove(&end) {
            Some(to) => end = to,
            None => return end,
        }
    }
    end
}

/// Joins the ranges before a place that touch, where those that began before `last` were joined already.
/// Answers where the range from the file's start ends then.
pub(crate) fn join_up(
    far: &mut BTreeMap<u64, u64>,
    front: u64,
    last: u64,
    place: u64,
    more: &[(u64, u32)],
) -> u64
    requires order { AreInOrder 0 far.old.entries }
    requires place { 0 < place }
    requires some { AllByRecursion IsRange (ranges_at more.now) }
    ensures same { SameFrom place (joined result ++ far.new.entries)
        (joined front ++ far.old.entries) }
    ensures order { AreInOrder 0 far.new.entries }
    ensures start { result ≡ 0 → end_of 0 far.new.entries ≡ 0 }
    ensures none { far.old.entries ≡ [] → (result ≡ front) × (far.new.entries ≡ []) }
{
    if far.is_empty() {
        return front;
    }
    join_between(far, last, place);
    join_blocks(far, more, place);
    take_up(far, front, place)
}
