//! The code of a key: the bytes that stand for it in an index page.
//!
//! A number in a code is one byte below 255, or 255 and two bytes, high byte first, from 255 on. A
//! segment is the number 0 where it is absent, or the number of its weights plus 1 and the weights; a
//! key is its segments one after the other. A `KeyVal` keeps this form, `key_with` makes it of segments,
//! and `decode` takes no other, so that a key has one code and a code one key.
ghost use Rattle.std.specs.Prelude.{◌≡◌, ◌≢◌, ◌<◌, ◌≤◌, ◌++◌, List, length, IfOk, OnOk, IfErr};
ghost use Rattle.std.specs.Option.{option_copied};
ghost use Rattle.myi_keys.specs.Limits.{IsSeg, IsKey};
ghost use Rattle.myi_keys.specs.Codes.{number_code, seg_code, key_code, Gains};
ghost use Rattle.myi_keys.specs.Comparing.{seg_with};
ghost use Rattle.myi_keys.specs.Decoding.{Gives, Fails, number_at, weights_at, seg_at, key_at};
ghost use Rattle.myi_keys.specs.Faults.{BreaksOff};
ghost use Rattle.myi_keys.specs.declared.values.KeySeg.{KeySeg};

use crate::values::{KeySeg, KeyVal, MOST_SEGMENTS, MOST_WEIGHTS};
use std::alloc::{AllocError, AllocFailed, Global};
use thiserror::Error;

/// The first byte of a number of three bytes.
pub(crate) const WIDE: u8 = 255;

/// The least number that takes three bytes.
const LEAST_WIDE: usize = 255;

/// Why bytes are no key's code: what stands at the first bad place from the left.
#[derive(Clone, Copy, Debug, PartialEq, Eq, Error)]
pub enum KeyFault {
    #[error("the bytes end inside a segment")]
    Short,
    #[error("a number below 255 is written in three bytes")]
    Spelling,
    #[error("there is a seventeenth segment or one of more than 1000 weights")]
    TooLong,
    #[error("out of memory")]
    Memory,
}

impl From<AllocError> for KeyFault {
    ghost use Rattle.std.specs.Prelude.{◌≡◌};
    ghost use Rattle.myi_keys.specs.declared.codes.KeyFault.TheVariants.{Memory};

    ghost from_gives = { λ _ e. e ≡ Memory };

    fn from(_: AllocError) -> Self {
        KeyFault::Memory
    }
}

impl<T: Drop> From<AllocFailed<T>> for KeyFault {
    ghost use Rattle.std.specs.Prelude.{◌≡◌};
    ghost use Rattle.myi_keys.specs.declared.codes.KeyFault.TheVariants.{Memory};

    ghost from_gives = { λ _ e. e ≡ Memory };

    fn from(_: AllocFailed<T>) -> Self {
        KeyFault::Memory
    }
}

/// The code of a key.
pub fn encode(alloc: Global, key: &KeyVal) -> Result<Vec<u8>, AllocError>
    ensures { IfOk result (λ code. code.items ≡ key_code key.now) }
{
    Vec::from_slice(alloc, key.code())
}

/// The key of these segments.
pub fn key_with(alloc: Global, segs: &[KeySeg]) -> Result<KeyVal, AllocError>
    requires { IsKey segs.now }
    ensures { IfOk result (λ key. key ≡ segs.now) }
{
    let mut code = Vec::with_capacity(alloc, code_length(segs))?;
    for seg in segs {
        append_segment(&mut code, seg)?;
    }
    Ok(KeyVal::of_code(code))
}

fn code_length(segs: &[KeySeg]) -> usize
    requires { IsKey segs.now }
    ensures { result ≡ length (key_code segs.now) }
{
    let mut length = 0;
    for seg in segs {
        length += segment_length(seg);
    }
    length
}

fn segment_length(seg: &KeySeg) -> usize
    requires { IsSeg seg.now }
    ensures value { result ≡ length (seg_code seg.now) }
    ensures bound { result ≤ 1003 }
{
    match seg {
        KeySeg::Absent => 1,
        KeySeg::Weights(weights) => {
            let count = weights.as_slice().len();
            if count + 1 < LEAST_WIDE {
                count + 1
            } else {
                count + 3
            }
        }
    }
}

fn append_segment(code: &mut Vec<u8>, seg: &KeySeg) -> Result<(), AllocError>
    requires { IsSeg seg.now }
    ensures { OnOk result (Gains code.old.items code.new.items seg.now) }
{
    match seg {
        KeySeg::Absent => code.push(0)?,
        KeySeg::Weights(weights) => {
            append_number(code, weights.as_slice().len() + 1)?;
            code.extend_from_slice(weights.as_slice())?;
        }
    }
    Ok(())
}

pub(crate) fn append_number(code: &mut Vec<u8>, number: usize) -> Result<(), AllocError>
    requires { number < 65536 }
    ensures { OnOk result (code.new.items ≡ code.old.items ++ number_code number) }
{
    if number < LEAST_WIDE {
        code.push(number as u8)?;
    } else {
        code.push(WIDE)?;
        code.extend_from_slice(&(number as u16).to_be_bytes())?;
    }
    Ok(())
}

/// The key of a code. Bytes that are no key's code are refused with what stands at the first bad place
/// from the left: `Short` where the bytes end inside a number or its weights, `Spelling` where a number
/// of three bytes is below 255, `TooLong` where a seventeenth segment or one of more than 1000 weights
/// begins.
pub fn decode(alloc: Global, bytes: &[u8]) -> Result<KeyVal, KeyFault>
    // What is read is the key whose code the bytes are.
    ensures found { IfOk result (λ key. bytes.now ≡ key_code key) }

    // The code of a key gives the key, unless memory runs out.
    ensures read { (key : List KeySeg)
        → IsKey key → bytes.now ≡ key_code key → result ≢ Err KeyFault.Memory → result ≡ Ok key }

    // A fault says what stands at the first bad place, and what stands there gives its fault.
    ensures broken { IfErr result (λ fault. fault ≢ KeyFault.Memory → BreaksOff fault bytes.now) }
    ensures breaks { (fault : KeyFault)
        → BreaksOff fault bytes.now → result ≢ Err KeyFault.Memory → result ≡ Err fault }

    // The answer is that of reading from left to right.
    ensures exact { result ≢ Err KeyFault.Memory → result ≡ key_at bytes.now }
{
    test_code(bytes)?;
    let code = Vec::from_slice(alloc, bytes)?;
    Ok(KeyVal::of_code(code))
}

// Refuses bytes that are no key's code.
fn test_code(bytes: &[u8]) -> Result<(), KeyFault>
    ensures taken { OnOk result ((key : List KeySeg) × (key_at bytes.now ≡ Ok key)) }
    ensures refused { IfErr result (λ fault. Fails fault (key_at bytes.now)) }
{
    let mut rest = bytes;
    for _turn in 0..MOST_SEGMENTS {
        if rest.is_empty() {
            return Ok(());
        }
        let (_, after) = segment_of(rest)?;
        rest = after;
    }
    if rest.is_empty() {
        Ok(())
    } else {
        Err(KeyFault::TooLong)
    }
}

// The weights of the first segment, where it has any, and the bytes behind it.
#[tactic(auto, unfolding(crate::specs::Decoding::seg_at))]
fn segment_of(bytes: &[u8]) -> Result<(Option<&[u8]>, &[u8]), KeyFault>
    ensures { Gives (λ x. (seg_with (option_copied x.0), x.1.now)) result (seg_at bytes.now) }
{
    let (number, rest) = number_of(bytes)?;
    if number == 0 {
        return Ok((None, rest));
    }
    weights_of(number - 1, rest)
}

fn weights_of(count: usize, bytes: &[u8]) -> Result<(Option<&[u8]>, &[u8]), KeyFault>
    ensures { Gives (λ x. (seg_with (option_copied x.0), x.1.now))
        result (weights_at count bytes.now) }
{
    if count > MOST_WEIGHTS {
        return Err(KeyFault::TooLong);
    }
    if bytes.len() < count {
        return Err(KeyFault::Short);
    }
    let (weights, rest) = bytes.split_at(count);
    Ok((Some(weights), rest))
}

#[tactic(auto, unfolding(crate::specs::Decoding::number_at))]
fn number_of(bytes: &[u8]) -> Result<(usize, &[u8]), KeyFault>
    ensures { Gives (λ x. (x.0, x.1.now)) result (number_at bytes.now) }
{
    match bytes {
        [] => Err(KeyFault::Short),
        [first, rest @ ..] if *first < WIDE => Ok((*first as usize, rest)),
        [_, high, low, rest @ ..] => {
            let number = u16::from_be_bytes([*high, *low]) as usize;
            if number < LEAST_WIDE {
                Err(KeyFault::Spelling)
            } else {
                Ok((number, rest))
            }
        }
        _ => Err(KeyFault::Short),
    }
}
