//! `HeldBytes`: which bytes of a file belong to something.
//!
//! Ranges of bytes come in any order, most of them where the one before ends. They stand in a list, and one
//! that touches the last is joined with it. When the list has grown to twice its length, and to a thousand,
//! it is put in order, and all that touch are joined. So it is no longer than that or twice as many as there
//! are ranges that do not touch, and a range costs the logarithm of their number.
ghost use Rattle.std.specs.Prelude.{◌≡◌, ◌≤◌, ◌++◌, ◌∷◌, [], OnOk, OnErr, IfOk};
ghost use Rattle.myi_pair.specs.Trees.{total};
ghost use Rattle.std.specs.List.{AllByRecursion};
ghost use Rattle.std.specs.List.Sorted.{IsPermutation, IsNonDecreasingBy};
ghost use Rattle.myi_base.specs.Ranges.{is_apart};
ghost use Rattle.myi_check.specs.HeldBytes.{IsForward, AreJoined, touches, joined_with, join_all};

use crate::met::sum;
use std::alloc::{AllocError, Global};
use std::marker::Model;

/// How many ranges there are at least before they are put in order.
const FEW: usize = 1024;

/// Ranges of bytes of a file.
pub(crate) struct HeldBytes {
    ranges: Vec<(u64, u64)>,
    /// How many there may be before they are put in order.
    limit: usize,
}

impl Drop for HeldBytes {
    fn drop(self) {
        let HeldBytes {
            ranges: _,
            limit: _,
        } = self;
    }
}

impl Model for HeldBytes {
    ghost use Rattle.std.specs.Prelude.{List};
    ghost use Rattle.std.specs.List.{AllByRecursion};
    ghost use Rattle.myi_base.specs.Ranges.{Range};
    ghost use Rattle.myi_check.specs.HeldBytes.{IsForward};

    ghost Value = { List Range };

    ghost view = { λ h. h.ranges.items };

    ghost invariant = { λ h. AllByRecursion IsForward h.ranges.items };
}

impl HeldBytes {
    ghost use Rattle.std.specs.Prelude.{◌≡◌, ◌≤◌, ◌++◌, ◌∷◌, [], OnOk, IfOk};
    ghost use Rattle.std.specs.List.{AllByRecursion};
    ghost use Rattle.myi_base.specs.Ranges.{is_apart};
    ghost use Rattle.myi_pair.specs.Trees.{total};
    ghost use Rattle.myi_chain.specs.Chain.{ranges_at};
    ghost use Rattle.myi_check.specs.HeldBytes.{EndsNear, SameBytes, AreJoined, front_of};

    /// No range yet.
    pub(crate) fn new(alloc: Global) -> HeldBytes
        ensures { result ≡ [] }
    {
        HeldBytes {
            ranges: Vec::new(alloc),
            limit: FEW,
        }
    }

    /// Adds a range.
    pub(crate) fn add(&mut self, at: u64, end: u64) -> Result<(), AllocError>
        requires { at ≤ end }
        ensures { OnOk result (SameBytes (self.old ++ (at, end) ∷ []) self.new) }
    {
        if self.ranges.len() >= self.limit {
            self.put_in_order()?;
        }
        push_joined(&mut self.ranges, (at, end))
    }

    /// Adds the ranges of blocks, each by its place and its size in bytes.
    pub(crate) fn add_blocks(&mut self, blocks: &[(u64, u32)]) -> Result<(), AllocError>
        requires { AllByRecursion EndsNear blocks.now }
        ensures { OnOk result (SameBytes (self.old ++ ranges_at blocks.now) self.new) }
    {
        for index in 0..blocks.len() {
            let (at, size) = blocks[index];
            self.add(at, at + size as u64)?;
        }
        Ok(())
    }

    /// Puts the ranges in order, and joins all that touch.
    pub(crate) fn put_in_order(&mut self) -> Result<(), AllocError>
        ensures same { OnOk result (SameBytes self.old self.new) }
        ensures order { OnOk result (AreJoined 0 self.new) }
    {
        sort_by_place(&mut self.ranges);
        let joined = join(*self.ranges.allocator(), &self.ranges)?;
        self.limit = joined.len().saturating_mul(2).max(FEW);
        self.ranges = joined;
        Ok(())
    }

    /// Whether no byte belongs to the range and to one of these, which are in order.
    pub(crate) fn is_apart(&self, at: u64, end: u64) -> bool
        requires { AreJoined 0 self.now }
        ensures { result ≡ is_apart (at, end) self.now }
    {
        is_apart(&self.ranges, at, end)
    }

    /// How many bytes they have, each counted as often as it belongs to one.
    pub(crate) fn total(&self) -> Result<u64, AllocError>
        ensures { IfOk result (λ bytes. bytes ≡ total self.now) }
    {
        bytes_of(&self.ranges)
    }

    /// Where the range ends that begins at the file's start, and 0 where none does. They are in order.
    pub(crate) fn front(&self) -> u64
        ensures { result ≡ front_of self.now }
    {
        if self.ranges.is_empty() {
            return 0;
        }
        let (from, to) = self.ranges[0];
        if from == 0 { to } else { 0 }
    }
}

// Whether the second range begins in the first or where that ends.
fn touches(last: (u64, u64), next: (u64, u64)) -> bool
    ensures { result ≡ touches last next }
{
    last.0 <= next.0 && next.0 <= last.1
}

// Adds a range, which is joined with the last where it touches that.
fn push_joined(ranges: &mut Vec<(u64, u64)>, next: (u64, u64)) -> Result<(), AllocError>
    ensures ok { OnOk result (ranges.new.items ≡ joined_with ranges.old.items next) }
    ensures err { OnErr result (ranges.new.items ≡ ranges.old.items) }
{
    let count = ranges.len();
    if count > 0 && touches(ranges[count - 1], next) {
        let (from, to) = ranges[count - 1];
        ranges[count - 1] = (from, to.max(next.1));
        return Ok(());
    }
    ranges.push(next)?;
    Ok(())
}

// Puts ranges in the order of their places.
fn sort_by_place(ranges: &mut Vec<(u64, u64)>)
    ensures same { IsPermutation ranges.old.items ranges.new.items }
    ensures order { IsNonDecreasingBy (λ r. r.0) ranges.new.items }
{
    ranges.sort_unstable_by_key(
        |range: &(u64, u64)| -> u64
            ensures { result ≡ range.now.0 }
        { range.0 },
    );
}

// Joins ranges that touch the one before them.
fn join(alloc: Global, ranges: &[(u64, u64)]) -> Result<Vec<(u64, u64)>, AllocError>
    ensures { IfOk result (λ joined. joined.items ≡ join_all [] ranges.now) }
{
    let mut joined = Vec::new(alloc);
    for index in 0..ranges.len() {
        push_joined(&mut joined, ranges[index])?;
    }
    Ok(joined)
}

// How many bytes ranges have.
fn bytes_of(ranges: &[(u64, u64)]) -> Result<u64, AllocError>
    requires { AllByRecursion IsForward ranges.now }
    ensures { IfOk result (λ bytes. bytes ≡ total ranges.now) }
{
    let mut bytes = 0;
    for index in 0..ranges.len() {
        let (at, end) = ranges[index];
        bytes = sum(bytes, end - at)?;
    }
    Ok(bytes)
}

// Whether no byte belongs to the range and to one of these, which are in order.
fn is_apart(ranges: &[(u64, u64)], at: u64, end: u64) -> bool
    requires { AreJoined 0 ranges.now }
    ensures { result ≡ is_apart (at, end) ranges.now }
{
    let count = ranges.partition_point(|range| range.1 <= at);
    if count == ranges.len() {
        return true;
    }
    end <= ranges[count].0
}
