//! Key values, their weights, their codes and their order.
ghost use Rattle.std.specs.Prelude.{◌≡◌, ◌≤◌, true, length, All, IfOk};
ghost use Rattle.myi_keys.specs.Weights.{CanWeigh};
ghost use Rattle.myi_keys.specs.Limits.{IsSeg, IsKey};

use case_lines::{Fault, Words, key_of_code, number, one_byte, push_word, two_bytes};
use myi_defs::{SegType, Segment};
use myi_keys::{
    Collation, KeyFault, KeySeg, KeyVal, MOST_SEGMENTS, MOST_WEIGHTS, WeightList, decode, encode,
    first_segment, key_with, weigh,
};
use std::alloc::{AllocError, Global};

fn seg_type(word: &str) -> Result<SegType, Fault> {
    match word {
        "text" => Ok(SegType::Text),
        "binary" => Ok(SegType::Binary),
        "short_int" => Ok(SegType::ShortInt),
        "long_int" => Ok(SegType::LongInt),
        "ushort_int" => Ok(SegType::UshortInt),
        "ulong_int" => Ok(SegType::UlongInt),
        "longlong" => Ok(SegType::Longlong),
        "ulonglong" => Ok(SegType::Ulonglong),
        "int24" => Ok(SegType::Int24),
        "uint24" => Ok(SegType::Uint24),
        "int8" => Ok(SegType::Int8),
        "vartext" => Ok(SegType::VarText),
        "varbinary" => Ok(SegType::VarBinary),
        _ => Err(Fault::Unread),
    }
}

fn can_weigh(segment: &Segment, content: &[u8]) -> bool
    ensures { result ≡ true → CanWeigh segment.now content.now }
{
    match segment.seg {
        SegType::Int8 => content.len() == 1,
        SegType::ShortInt | SegType::UshortInt => content.len() == 2,
        SegType::Int24 | SegType::Uint24 => content.len() == 3,
        SegType::LongInt | SegType::UlongInt => content.len() == 4,
        SegType::Longlong | SegType::Ulonglong => content.len() == 8,
        SegType::Binary => content.len() == segment.length as usize,
        SegType::VarBinary => true,
        SegType::Text | SegType::VarText => Collation::of_number(segment.language).is_some(),
    }
}

/// `weigh TYPE COLLATION LENGTH CONTENT`: the weights of a segment's content.
fn weigh_content(words: &Words, args: &[&str]) -> Result<String, Fault> {
    let [seg, language, length, content] = args else {
        return Err(Fault::Unread);
    };
    let segment = Segment {
        seg: seg_type(*seg)?,
        language: two_bytes(*language)?,
        null_bit: 0,
        null_pos: 0,
        length: two_bytes(*length)?,
        start: 0,
        field: 0,
    };
    let content = words.bytes(*content)?;
    if !can_weigh(&segment, &content) {
        return Err(Fault::Unread);
    }
    let mut out = String::new(words.alloc());
    push_word(&mut out, &weigh(words.alloc(), &segment, &content)?)?;
    Ok(out)
}

/// `collation NUMBER BYTE`: how many bytes of a length stand for a character, and the weight of a byte.
fn collation(words: &Words, args: &[&str]) -> Result<String, Fault> {
    let [number, byte] = args else {
        return Err(Fault::Unread);
    };
    let byte = one_byte(*byte)?;
    let alloc = words.alloc();
    let Some(collation) = Collation::of_number(two_bytes(*number)?) else {
        return Ok(String::from_str(alloc, "none")?);
    };
    let weight = collation.weight(byte);
    match collation.character_width() {
        None => Ok(format!(in alloc; "- {weight}")?),
        Some(width) => Ok(format!(in alloc; "{width} {weight}")?),
    }
}

// A segment that is absent, or its weights.
fn segment(words: &Words, word: &str) -> Result<KeySeg, Fault>
    ensures { IfOk result IsSeg }
{
    if word == "absent" {
        return Ok(KeySeg::Absent);
    }
    let weights = words.bytes(word)?;
    if weights.len() > MOST_WEIGHTS {
        return Err(Fault::Unread);
    }
    Ok(KeySeg::Weights(WeightList::new(weights)))
}

/// The key of these segments.
fn key(words: &Words, args: &[&str]) -> Result<KeyVal, Fault> {
    if args.len() > MOST_SEGMENTS {
        return Err(Fault::Unread);
    }
    let mut segments = Vec::new(words.alloc());
    for arg in args {
        segments.push(segment(words, *arg)?)?;
    }
    Ok(key_with(words.alloc(), &segments)?)
}

/// `encode SEGMENT..`: the code of a key.
fn encode_key(words: &Words, args: &[&str]) -> Result<String, Fault> {
    let key = key(words, args)?;
    let mut out = String::new(words.alloc());
    push_word(&mut out, &encode(words.alloc(), &key)?)?;
    Ok(out)
}

fn push_segment(out: &mut String, weights: Option<&[u8]>) -> Result<(), AllocError> {
    out.push(' ')?;
    match weights {
        None => out.push_str("absent")?,
        Some(weights) => push_word(out, weights)?,
    }
    Ok(())
}

fn key_text(alloc: Global, key: &KeyVal) -> Result<String, AllocError> {
    let first = if key.is_complete() {
        "complete"
    } else {
        "incomplete"
    };
    let mut out = String::from_str(alloc, first)?;
    let mut left = key.code();
    for _turn in 0..MOST_SEGMENTS {
        if left.is_empty() {
            break;
        }
        let (weights, behind) = first_segment(left);
        push_segment(&mut out, weights)?;
        left = behind;
    }
    Ok(out)
}

/// `decode BYTES`: the key whose code the bytes are.
fn decode_code(words: &Words, args: &[&str]) -> Result<String, Fault> {
    let [code] = args else {
        return Err(Fault::Unread);
    };
    let code = words.bytes(*code)?;
    let alloc = words.alloc();
    match decode(alloc, &code) {
        Ok(key) => Ok(key_text(alloc, &key)?),
        Err(KeyFault::Memory) => Err(Fault::Memory),
        Err(fault) => Ok(format!(in alloc; "{fault}")?),
    }
}

/// `compare CODE CODE`: the order of two keys, each given by its code.
fn compare(words: &Words, args: &[&str]) -> Result<String, Fault> {
    let [one, other] = args else {
        return Err(Fault::Unread);
    };
    let one = key_of_code(words, *one)?;
    let other = key_of_code(words, *other)?;
    let order = one.compare(&other);
    Ok(format!(in words.alloc(); "{order:?}")?)
}

/// The answer to a call of this module, and None where the name is no such call.
pub fn answer(words: &Words, name: &str, args: &[&str]) -> Option<Result<String, Fault>> {
    match name {
        "weigh" => Some(weigh_content(words, args)),
        "collation" => Some(collation(words, args)),
        "encode" => Some(encode_key(words, args)),
        "decode" => Some(decode_code(words, args)),
        "compare" => Some(compare(words, args)),
        _ => None,
    }
}
