//! The bounds of a range.
ghost use Rattle.std.specs.Prelude.{◌≡◌, ◌≤◌, All, IfOk, IfSome, List, length, option_map};
ghost use Rattle.myi_defs.specs.declared.types.Field.{Field};
ghost use Rattle.myi_defs.specs.Sound.{IsSoundSegment};
ghost use Rattle.myi_keys.specs.Limits.{IsSeg};
ghost use Rattle.myi_script.specs.Reading as spec;

use crate::form::Form;
use crate::value::value_of;
use crate::words::next_value;
use myi_defs::Segment;
use myi_keys::{KeySeg, KeyVal, WeightList, key_with, weigh};
use std::alloc::{AllocError, Global};

// The part of a bound that a word is.
#[tactic(auto, unfolding(crate::specs::Reading::part_of))]
fn part_of(alloc: Global, segment: &Segment, word: &[u8]) -> Result<Option<KeySeg>, AllocError>
    requires sound { (fields : List Field) × IsSoundSegment fields segment.now }
    requires short { segment.now.length ≤ 1000 }
    ensures value { IfOk result (λ v. v ≡ spec.part_of segment.now word.now) }
    ensures short { IfOk result (λ v. IfSome v IsSeg) }
{
    if word == b"null".as_slice() {
        return Ok(Some(KeySeg::Absent));
    }
    match value_of(alloc, Form::of_segment(segment), word)? {
        Some(content) => {
            let weights = weigh(alloc, segment, content.as_slice())?;
            Ok(Some(KeySeg::Weights(WeightList::new(weights))))
        }
        None => Ok(None),
    }
}

// The parts of a bound, the first of which this byte stands before, and what stands after them.
#[tactic(auto, unfolding(crate::specs::Reading::parts_of))]
fn parts_of<'a>(
    alloc: Global,
    segments: &[Segment],
    text: &'a [u8],
) -> Result<Option<(Vec<KeySeg>, &'a [u8])>, AllocError>
    requires sound { (fields : List Field) × All (IsSoundSegment fields) segments.now }
    requires short { All (λ s. s.length ≤ 1000) segments.now }
    ensures value { IfOk result (λ v. option_map (λ p. (p.0.items, p.1.now)) v
        ≡ spec.parts_of 32 segments.now text.now) }
    ensures short { IfOk result (λ v. IfSome v (λ p. All IsSeg p.0.items)) }
    ensures count { IfOk result (λ v. IfSome v (λ p. length p.0.items ≡ length segments.now)) }
{
    let mut parts = Vec::new(alloc);
    let mut rest = text;
    let mut mark = b' ';
    for segment in segments {
        let Some((word, more)) = next_value(mark, rest) else {
            return Ok(None);
        };
        let Some(part) = part_of(alloc, segment, word)? else {
            return Ok(None);
        };
        parts.push(part)?;
        rest = more;
        mark = b',';
    }
    Ok(Some((parts, rest)))
}

/// The bound that a space stands before, and what stands after it; no key where there is no bound.
#[tactic(auto, unfolding(crate::specs::Reading::bound_of))]
pub(crate) fn bound_of<'a>(
    alloc: Global,
    segments: &[Segment],
    text: &'a [u8],
) -> Result<Option<(Option<KeyVal>, &'a [u8])>, AllocError>
    requires sound { (fields : List Field) × All (IsSoundSegment fields) segments.now }
    requires short { All (λ s. s.length ≤ 1000) segments.now }
    requires few { length segments.now ≤ 16 }
    ensures { IfOk result (λ v. option_map (λ p. (p.0, p.1.now)) v
        ≡ spec.bound_of segments.now text.now) }
{
    if text.len() >= 2 && &text[..2] == b" *".as_slice() {
        return Ok(Some((None, &text[2..])));
    }
    match parts_of(alloc, segments, text)? {
        Some((parts, rest)) => Ok(Some((Some(key_with(alloc, &parts)?), rest))),
        None => Ok(None),
    }
}
