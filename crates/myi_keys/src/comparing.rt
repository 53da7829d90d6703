//! Codes compared as the keys that they stand for, without reading the keys.
//!
//! Codes do not stand in byte order: a segment of two weights may be before one of a single weight. They
//! are compared segment by segment from the left. Bytes that are no key's code are compared too, as far
//! as they can be read, so that the order of all bytes is total and a sort may go by it.
ghost use Rattle.std.specs.Prelude.{◌≡◌, ℕ, ◌+◌, ◌*◌, ◌^◌};
ghost use Rattle.std.specs.Option.{option_copied};
ghost use Rattle.std.specs.Ordering.{nat_cmp};
ghost use Rattle.std.specs.Cmp.Lexicographic.{slice_cmp};
ghost use Rattle.myi_keys.specs.Limits.{is_complete};
ghost use Rattle.myi_keys.specs.Order.{seg_cmp};
ghost use Rattle.myi_keys.specs.Comparing.{number_front, seg_front, key_front, code_cmp};
ghost use Rattle.myi_keys.specs.Comparing.{seg_with, weights_number, key_prefix};

use crate::codes::WIDE;
use crate::values::MOST_SEGMENTS;
use std::cmp::Ordering;

/// How many weights of two segments are compared one by one.
const NEAR: usize = 16;

/// Which of two codes is first: the one whose key is. It takes no memory.
pub fn compare_codes(one: &[u8], other: &[u8]) -> Ordering
    ensures { result ≡ code_cmp one.now other.now }
{
    let mut left = one;
    let mut others = other;
    for _turn in 0..MOST_SEGMENTS {
        if left.is_empty() || others.is_empty() {
            return left.len().cmp(&others.len());
        }
        let (first, behind) = first_segment(left);
        let (second, behind_others) = first_segment(others);
        let order = compare_segments(first, second);
        if order.is_ne() {
            return order;
        }
        left = behind;
        others = behind_others;
    }
    Ordering::Equal
}

/// Whether no segment of the key that a code stands for is absent.
pub fn is_complete_code(code: &[u8]) -> bool
    ensures { result ≡ is_complete (key_front code.now) }
{
    let mut left = code;
    for _turn in 0..MOST_SEGMENTS {
        if left.is_empty() {
            return true;
        }
        let (weights, behind) = first_segment(left);
        if weights.is_none() {
            return false;
        }
        left = behind;
    }
    true
}

// Which of two segments is first, each by its weights where it has any.
#[inline(always)]
fn compare_segments(one: Option<&[u8]>, other: Option<&[u8]>) -> Ordering
    ensures { result
        ≡ seg_cmp (seg_with (option_copied one.entry)) (seg_with (option_copied other.entry)) }
{
    match (one, other) {
        (None, None) => Ordering::Equal,
        (None, Some(_)) => Ordering::Less,
        (Some(_), None) => Ordering::Greater,
        (Some(weights), Some(others)) => compare_weights(weights, others),
    }
}

// Which of two lists of weights is first. The first of them are compared one by one, since most lists differ there.
#[inline(always)]
fn compare_weights(one: &[u8], other: &[u8]) -> Ordering
    ensures { result ≡ slice_cmp nat_cmp one.now other.now }
{
    let near = one.len().min(other.len()).min(NEAR);
    for i in 0..near {
        let order = one[i].cmp(&other[i]);
        if order.is_ne() {
            return order;
        }
    }
    let (left, others) = (&one[near..], &other[near..]);
    left.cmp(&others)
}

/// The segment that a code begins with, by its weights where it has any, and the bytes behind it.
#[inline(always)]
#[tactic(auto, unfolding(crate::specs::Comparing::seg_front))]
pub fn first_segment(code: &[u8]) -> (Option<&[u8]>, &[u8])
    ensures { seg_front code.now ≡ (seg_with (option_copied result.0), result.1.now) }
{
    let (number, rest) = first_number(code);
    if number == 0 {
        return (None, rest);
    }
    let (weights, rest) = rest.split_at((number - 1).min(rest.len()));
    (Some(weights), rest)
}

// The number that bytes begin with, and the bytes behind it.
#[inline(always)]
#[tactic(auto, unfolding(crate::specs::Comparing::number_front))]
fn first_number(bytes: &[u8]) -> (usize, &[u8])
    ensures { number_front bytes.now ≡ (result.0, result.1.now) }
{
    match bytes {
        [] => (0, &[]),
        [first, rest @ ..] if *first < WIDE => (*first as usize, rest),
        [_, high, low, rest @ ..] => (u16::from_be_bytes([*high, *low]) as usize, rest),
        _ => (0, &[]),
    }
}

/// A number that stands in the order of keys: of two codes with other numbers, the one with the lesser
/// number is first. It is made from the first eight weights.
#[tactic(auto, unfolding(crate::specs::Comparing::key_front, crate::specs::Comparing::segs_front, crate::specs::Comparing::key_prefix))]
pub fn code_prefix(code: &[u8]) -> u64
    ensures { result ≡ key_prefix (key_front code.now) }
{
    if code.is_empty() {
        return 0;
    }
    match first_segment(code) {
        (None, _) => 0,
        (Some(weights), _) => weights_number(weights),
    }
}

// The first eight weights as a number, high byte first.
fn weights_number(weights: &[u8]) -> u64
    ensures { result ≡ weights_number 8 weights.now }
{
    let mut number = 0u64;
    let mut left = weights;
    for _turn in 0..8u8 {
        let (weight, rest) = first_weight(left);
        number = number * 256 + weight as u64;
        left = rest;
    }
    number
}

// The first of some weights, or 0, and those behind it.
fn first_weight(weights: &[u8]) -> (u8, &[u8])
    ensures { (n : ℕ) → weights_number (n + 1) weights.now
        ≡ result.0 * 256 ^ n + weights_number n result.1.now }
{
    match weights {
        [first, rest @ ..] => (*first, rest),
        [] => (0, weights),
    }
}
