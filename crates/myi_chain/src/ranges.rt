//! `Ranges`: ranges of a file that share no byte.
//!
//! They are asked only whether a range is apart from them all, and where the one that begins at a place
//! ends. Those that are added in order of their places are a list in order, which grows at its end; the
//! others are kept in a map by their places. In each the last range that begins before a place answers
//! for all, so that a question costs the logarithm of their number.
ghost use Rattle.std.specs.Prelude.{◌≡◌, ◌≢◌, ◌+◌, true, false, max, ◌<◌, ◌≤◌, ◌^◌, nat_lt, length, List, [], ◌++◌, OnOk, OnErr};
ghost use Rattle.std.specs.List.{AllByRecursion};
ghost use Rattle.std.specs.List.Sorted.{IsPartitionPoint};
ghost use Rattle.myi_base.specs.Ranges.{is_apart};
ghost use Rattle.myi_chain.specs.Chain.{AreApart};
ghost use Rattle.myi_chain.specs.Readable.{end_of};
ghost use Rattle.myi_chain.specs.Used.{IsRange, AreInOrder, reach, last_before, is_behind, end_from, without};
ghost use Rattle.myi_chain.specs.Chain.{ranges_at};
ghost use Rattle.myi_chain.specs.Used.{SameUsed};

use std::alloc::{AllocError, Global};
use std::collections::BTreeMap;
use std::marker::Model;

/// How many of these ranges, which are in order, begin before a place.
fn count_before(near: &[(u64, u64)], end: u64) -> usize
    requires order { AreInOrder 0 near.now }
    ensures point { IsPartitionPoint
        (λ r. nat_lt r.0 end ≡ true) (λ r. nat_lt r.0 end ≡ false) near.now result }
    ensures bound { result ≤ length near.now }
{
    let count = near.len();
    if count == 0 {
        return 0;
    }
    if near[count - 1].0 < end {
        return count;
    }
    near.partition_point(|range| range.0 < end)
}

/// The last of these ranges, which are in order, that begins before a place.
fn last_near(near: &[(u64, u64)], end: u64) -> Option<(u64, u64)>
    requires order { AreInOrder 0 near.now }
    ensures { result ≡ last_before end near.now }
{
    let count = count_before(near, end);
    if count == 0 {
        return None;
    }
    Some(near[count - 1])
}

/// The last range of a map that begins before a place.
pub(crate) fn last_far(far: &BTreeMap<u64, u64>, end: u64) -> Option<(u64, u64)>
    ensures { result ≡ last_before end far.now.entries }
{
    match far.range(..end).next_back() {
        Some((from, to)) => Some((*from, *to)),
        None => None,
    }
}

pub(crate) fn is_behind(at: u64, last: Option<(u64, u64)>) -> bool
    ensures { result ≡ is_behind at last }
{
    match last {
        Some((_, to)) => to <= at,
        None => true,
    }
}

pub(crate) fn end_from(at: u64, last: Option<(u64, u64)>) -> u64
    ensures { result ≡ end_from at last }
{
    match last {
        Some((from, to)) if from == at => to,
        _ => 0,
    }
}

/// Whether the last range of a map that begins before a place ends there.
pub(crate) fn ends_at_far(far: &BTreeMap<u64, u64>, at: u64) -> bool {
    match last_far(far, at) {
        Some((_, to)) => to == at,
        None => false,
    }
}

/// Whether a range is apart from those of a map.
pub(crate) fn is_apart_far(far: &BTreeMap<u64, u64>, at: u64, end: u64) -> bool
    requires order { AreInOrder 0 far.now.entries }
    ensures { result ≡ is_apart (at, end) far.now.entries }
{
    is_behind(at, last_far(far, end))
}

/// Where the range of a map that begins at a place ends, and the place itself where none begins there.
pub(crate) fn end_from_far(far: &BTreeMap<u64, u64>, at: u64) -> u64
    requires order { AreInOrder 0 far.now.entries }
    requires place { at + 1 < 2 ^ 64 }
    ensures { result ≡ max at (end_of at far.now.entries) }
{
    at.max(end_from(at, last_far(far, at + 1)))
}

/// Where the last of these ranges ends, and 0 where there is none.
fn reach(near: &[(u64, u64)]) -> u64
    ensures { result ≡ reach 0 near.now }
{
    let count = near.len();
    if count == 0 {
        return 0;
    }
    near[count - 1].1
}

/// Takes the ranges that begin where these blocks do out of a map, the last first.
pub(crate) fn take_out(far: &mut BTreeMap<u64, u64>, blocks: &[(u64, u32)])
    ensures { far.new.entries ≡ without far.old.entries (ranges_at blocks.now) }
{
    let mut left = blocks.len();
    while left > 0 {
        left -= 1;
        far.remove(&blocks[left].0);
    }
}

/// Adds the ranges of blocks to a map, or none.
pub(crate) fn put_all(far: &mut BTreeMap<u64, u64>, blocks: &[(u64, u32)]) -> Result<(), AllocError>
    requires order { AreInOrder 0 far.old.entries }
    requires apart { AreApart far.old.entries (ranges_at blocks.now) }
    requires some { AllByRecursion IsRange (ranges_at blocks.now) }
    ensures same { OnOk result
        (SameUsed far.new.entries (far.old.entries ++ ranges_at blocks.now)) }
    ensures order { AreInOrder 0 far.new.entries }
    ensures back { OnOk result
        (without far.new.entries (ranges_at blocks.now) ≡ far.old.entries) }
    ensures err { OnErr result ((far.new.entries ≡ far.old.entries) × (blocks.now ≢ [])) }
{
    for i in 0..blocks.len() {
        let (at, size) = blocks[i];
        match far.insert(at, at + size as u64) {
            Ok(_) => {}
            Err(_) => {
                take_out(far, &blocks[..i]);
                return Err(AllocError);
            }
        }
    }
    Ok(())
}

/// Ranges that share no byte.
pub(crate) struct Ranges {
    /// Ranges in order, each from its first byte up to the place behind its last.
    near: Vec<(u64, u64)>,
    /// The place behind the last byte of each other range, by that of its first.
    far: BTreeMap<u64, u64>,
}

impl Drop for Ranges {
    fn drop(self) {
        let Ranges { near: _, far: _ } = self;
    }
}

impl Model for Ranges {
    ghost use Rattle.std.specs.Prelude.{List, ◌++◌};
    ghost use Rattle.myi_base.specs.Ranges.{Range};
    ghost use Rattle.myi_chain.specs.Used.{AreInOrder};

    ghost Value = { List Range };

    ghost view = { λ s. s.near.items ++ s.far.entries };

    ghost invariant = { λ s. AreInOrder 0 s.near.items × AreInOrder 0 s.far.entries };
}

impl Ranges {
    pub(crate) fn new(alloc: Global) -> Ranges
        ensures { result ≡ [] }
    {
        Ranges {
            near: Vec::new(alloc),
            far: BTreeMap::new(alloc),
        }
    }

    /// Takes all out. The memory of most of them is kept for others.
    pub(crate) fn clear(&mut self)
        ensures { self.new ≡ [] }
    {
        self.near.clear();
        self.far.clear();
    }

    /// Whether a range is apart from all.
    pub(crate) fn is_apart(&self, at: u64, end: u64) -> bool
        ensures { result ≡ is_apart (at, end) self.now }
    {
        is_behind(at, last_near(&self.near, end)) && is_behind(at, last_far(&self.far, end))
    }

    /// Where the range that begins at a place ends, and the place itself where none begins there.
    pub(crate) fn end_from(&self, at: u64) -> u64
        requires { at + 1 < 2 ^ 64 }
        ensures { result ≡ max at (end_of at self.now) }
    {
        let near = end_from(at, last_near(&self.near, at + 1));
        let far = end_from(at, last_far(&self.far, at + 1));
        at.max(near).max(far)
    }

    /// Adds the ranges of blocks that are apart from all and from each other, or none.
    pub(crate) fn add(&mut self, blocks: &[(u64, u32)]) -> Result<(), AllocError>
        requires apart { AreApart self.old (ranges_at blocks.now) }
        requires some { AllByRecursion IsRange (ranges_at blocks.now) }
        ensures ok { OnOk result (SameUsed self.new (self.old ++ ranges_at blocks.now)) }
        ensures none { blocks.now ≡ [] → self.new ≡ self.old }
        ensures err { OnErr result ((self.new ≡ self.old) × (blocks.now ≢ [])) }
    {
        let Some((first, more)) = blocks.split_first() else {
            return Ok(());
        };
        if first.0 < reach(&self.near) {
            put_all(&mut self.far, blocks)?;
            return Ok(());
        }
        self.near.push((first.0, first.0 + first.1 as u64))?;
        match put_all(&mut self.far, more) {
            Ok(()) => Ok(()),
            Err(fault) => {
                self.near.pop();
                Err(fault)
            }
        }
    }
}
