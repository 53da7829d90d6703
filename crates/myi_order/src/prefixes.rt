//! Counting the distinct prefixes of keys that come in order.
//!
//! Keys that share a prefix follow one another, so that each prefix is counted at the last key that has it: when a
//! pair comes, it is asked how many segments the pair before it shares with it. One pair is held.
ghost use Rattle.std.specs.Prelude.{◌≡◌, ◌<◌, ◌≤◌, ◌+◌, ◌^◌, ℕ, [], length, map, replicate};
ghost use Rattle.std.specs.Prelude.{slice_index, nat_le, IfOk, IsSorted};
ghost use Rattle.std.specs.List.{AllByRecursion};
ghost use Rattle.std.specs.Option.{option_copied};
ghost use Rattle.myi_keys.specs.Comparing.{key_front, seg_with};
ghost use Rattle.myi_keylist.specs.declared.pair.Pair.{Pair};
ghost use Rattle.myi_order.specs.Shared.{is_shared, shared, ended, average};
ghost use Rattle.myi_order.specs.PrefixCounts.{with_last};

use myi_btree::Pair;
use myi_keys::{MOST_SEGMENTS, first_segment};
use std::alloc::{AllocError, Global};

/// What the four bytes of a key part hold at most.
const MOST_PER: u64 = 4_294_967_295;

/// How many prefixes pairs have that come in order.
pub(crate) struct PrefixCount {
    /// The last pair that came, if any.
    pub(crate) last: Option<Pair>,
    /// How many pairs came.
    pub(crate) rows: u64,
    /// How many prefixes of one segment, of two, and so on, the pairs before the last have that it does not share.
    pub(crate) ended: Vec<u64>,
}

impl Drop for PrefixCount {
    fn drop(self) {
        let PrefixCount {
            last: _,
            rows: _,
            ended: _,
        } = self;
    }
}

impl PrefixCount {
    ghost use Rattle.std.specs.Prelude.{◌≡◌, ◌<◌, ◌^◌, ◌++◌, ◌∷◌, [], List, length, IfOk, OnOk, IsSorted};
    ghost use Rattle.std.specs.List.{AllByRecursion};
    ghost use Rattle.myi_keylist.specs.PairOrder.{pair_cmp};
    ghost use Rattle.myi_keylist.specs.Repeats.{keys_of};
    ghost use Rattle.myi_order.specs.Prefixes.{per_each};
    ghost use Rattle.myi_order.specs.PrefixCounts.{HaveSegments, HasCounted, HasRoom, shared_by_last};

    /// No pair came yet, of keys of so many segments.
    pub(crate) fn new(alloc: Global, segments: usize) -> Result<PrefixCount, AllocError>
        ensures counted { IfOk result (HasCounted []) }
        ensures room { IfOk result HasRoom }
        ensures segments { IfOk result (λ c. length c.ended.items ≡ segments) }
    {
        Ok(PrefixCount {
            last: None,
            rows: 0,
            ended: zeros(alloc, segments)?,
        })
    }

    // How many segments of the last pair's key the next one shares. Where none came, no prefix ends.
    fn shared_by_last(&self, next: &Pair) -> usize
        ensures { result ≡ shared_by_last self.now.last (length self.now.ended.items) next.now }
    {
        match &self.last {
            None => self.ended.len(),
            Some(last) => shared_segments(last.key.code(), next.key.code()),
        }
    }

    /// Counts the pair that comes next.
    pub(crate) fn note(&mut self, pair: Pair) -> Result<(), AllocError>
        requires { HasRoom self.old }
        ensures counted { OnOk result ((seen : List Pair) → HasCounted seen self.old
            → HasCounted (seen ++ pair ∷ []) self.new) }
        ensures room { OnOk result (HasRoom self.new) }
        ensures segments { length self.new.ended.items ≡ length self.old.ended.items }
    {
        self.rows = next_row(self.rows)?;
        let shared = self.shared_by_last(&pair);
        count_longer(&mut self.ended, shared);
        self.last = Some(pair);
        Ok(())
    }

    /// How many rows go to one prefix, for the prefixes of one segment, of two, and so on: the number of
    /// rows for each distinct prefix, rounded down, and 4,294,967,295 where it is greater.
    pub(crate) fn into_per(self) -> Vec<u64>
        requires { HasRoom self }
        ensures per { (pairs : List Pair) → HasCounted pairs self → IsSorted pair_cmp pairs
            → HaveSegments (length self.ended.items) pairs
            → result.items ≡ per_each (length self.ended.items) (keys_of pairs) }
        ensures small { AllByRecursion (λ n. n < 256 ^ 4) result.items }
    {
        let PrefixCount {
            last,
            rows,
            mut ended,
        } = self;
        end_all(&mut ended, &last);
        divide(&mut ended, rows);
        ended
    }
}

// One row more, where eight bytes hold the count. Of a file that tells what it holds they do.
fn next_row(rows: u64) -> Result<u64, AllocError>
    ensures { IfOk result (λ n. n ≡ rows + 1) }
{
    rows.checked_add(1).ok_or(AllocError)
}

// So many numbers 0.
fn zeros(alloc: Global, count: usize) -> Result<Vec<u64>, AllocError>
    ensures { IfOk result (λ zeros. zeros.items ≡ replicate count 0) }
{
    let mut zeros = Vec::new(alloc);
    zeros.resize(count, 0)?;
    Ok(zeros)
}

// How many first segments two codes share.
fn shared_segments(one: &[u8], other: &[u8]) -> usize
    ensures { result ≡ shared (key_front one.now) (key_front other.now) }
{
    let mut left = one;
    let mut others = other;
    for count in 0..MOST_SEGMENTS {
        let (first, behind) = first_segment(left);
        let (second, behind_others) = first_segment(others);
        if !is_shared(first, second) {
            return count;
        }
        left = behind;
        others = behind_others;
    }
    MOST_SEGMENTS
}

// Whether two segments, each by its weights where it has any, are there and the same.
fn is_shared(one: Option<&[u8]>, other: Option<&[u8]>) -> bool
    ensures { result
        ≡ is_shared (seg_with (option_copied one.entry)) (seg_with (option_copied other.entry)) }
{
    match (one, other) {
        (Some(weights), Some(others)) => weights.cmp(&others).is_eq(),
        _ => false,
    }
}

// Adds one to the numbers of prefixes that have more segments than are shared.
fn count_longer(counts: &mut [u64], shared: usize)
    requires { (j : ℕ) → j < length counts.old
        → slice_index counts.old j + 1 < 18446744073709551616 }
    ensures { (j : ℕ) → j < length counts.old
        → slice_index counts.new j ≡ slice_index counts.old j + ended (j + 1) shared }
{
    for index in shared..counts.len() {
        counts[index] += 1;
    }
}

// Adds to the numbers of prefixes those that end at the last pair, where there is one.
fn end_all(counts: &mut [u64], last: &Option<Pair>)
    requires { (j : ℕ) → j < length counts.old
        → slice_index counts.old j + length (with_last last.now []) < 18446744073709551616 }
    ensures { (j : ℕ) → j < length counts.old
        → slice_index counts.new j ≡ slice_index counts.old j + length (with_last last.now []) }
{
    if last.is_none() {
        return;
    }
    count_longer(counts, 0);
}

// Puts in place of each number of prefixes how many of the rows go to one.
fn divide(counts: &mut [u64], rows: u64)
    ensures { counts.new ≡ map (average rows) counts.old }
{
    for count in counts.iter_mut() {
        *count = average(rows, *count);
    }
}

// How many of the rows go to one of the prefixes. There are none where there is no row.
fn average(rows: u64, prefixes: u64) -> u64
    ensures { result ≡ average rows prefixes }
{
    if prefixes == 0 {
        return 0;
    }
    MOST_PER.min(rows / prefixes)
}
