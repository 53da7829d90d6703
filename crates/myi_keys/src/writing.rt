//! The code of a key written behind what a buffer holds, segment by segment, from the contents that a
//! row has for them.
//!
//! The weights of a segment are as many as the bytes of a part of its content, so that their number is
//! written before them and they are kept nowhere else.
ghost use Rattle.std.specs.Prelude.{◌≡◌, ◌≤◌, ◌++◌, length, map, reverse, OnOk};
ghost use Rattle.myi_keys.specs.Codes.{Gains};
ghost use Rattle.myi_keys.specs.Collations.{weight};
ghost use Rattle.myi_keys.specs.Weights.{weights, CanWeigh, sign_inverted, weights_in};
ghost use Rattle.myi_keys.specs.declared.values.KeySeg.TheVariants.{Absent, Weights};

use crate::codes::append_number;
use crate::collations::Collation;
use crate::weights::{SIGN, first_bytes, text_content};
use myi_defs::{SegType, Segment};
use std::alloc::AllocError;

/// Appends the code of a segment in which the row has no value.
pub fn append_absent(code: &mut Vec<u8>) -> Result<(), AllocError>
    ensures { OnOk result (Gains code.old.items code.new.items Absent) }
{
    code.push(0)?;
    Ok(())
}

/// Appends the code of a segment with this content: the number of its weights and the weights, as `weigh`
/// gives them.
#[tactic(auto, unfolding(crate::specs::Weights::weights))]
pub fn append_weighed(code: &mut Vec<u8>, seg: &Segment, content: &[u8]) -> Result<(), AllocError>
    requires can { CanWeigh seg.now content.now }
    requires short { length (weights seg.now content.now) ≤ 1000 }
    ensures { OnOk result
        (Gains code.old.items code.new.items (Weights (weights seg.now content.now))) }
{
    match seg.seg {
        SegType::ShortInt | SegType::LongInt | SegType::Longlong | SegType::Int24 | SegType::Int8 =>
            append_signed(code, content),
        SegType::UshortInt | SegType::UlongInt | SegType::Ulonglong | SegType::Uint24 => {
            append_unsigned(code, content)
        }
        SegType::Binary => append_plain(code, content),
        SegType::VarBinary => append_plain(code, first_bytes(content, seg.length as usize)),
        SegType::Text | SegType::VarText => {
            let collation = Collation::of_number(seg.language).unwrap();
            append_text(code, collation, seg.length as usize, content)
        }
    }
}

fn append_plain(code: &mut Vec<u8>, weights: &[u8]) -> Result<(), AllocError>
    requires { length weights.now ≤ 1000 }
    ensures { OnOk result (Gains code.old.items code.new.items (Weights weights.now)) }
{
    append_number(code, weights.len() + 1)?;
    code.extend_from_slice(weights)?;
    Ok(())
}

fn append_unsigned(code: &mut Vec<u8>, content: &[u8]) -> Result<(), AllocError>
    requires { length content.now ≤ 8 }
    ensures { OnOk result
        (Gains code.old.items code.new.items (Weights (reverse content.now))) }
{
    append_number(code, content.len() + 1)?;
    append_reversed(code, content)?;
    Ok(())
}

fn append_signed(code: &mut Vec<u8>, content: &[u8]) -> Result<(), AllocError>
    requires { length content.now ≤ 8 }
    ensures { OnOk result
        (Gains code.old.items code.new.items (Weights (sign_inverted (reverse content.now)))) }
{
    append_number(code, content.len() + 1)?;
    let start = code.len();
    append_reversed(code, content)?;
    if start < code.len() {
        code[start] ^= SIGN;
    }
    Ok(())
}

fn append_reversed(code: &mut Vec<u8>, content: &[u8]) -> Result<(), AllocError>
    ensures { OnOk result (code.new.items ≡ code.old.items ++ reverse content.now) }
{
    let mut left = content;
    while let Some((last, front)) = left.split_last() {
        code.push(*last)?;
        left = front;
    }
    Ok(())
}

fn append_text(
    code: &mut Vec<u8>,
    collation: Collation,
    limit: usize,
    content: &[u8],
) -> Result<(), AllocError>
    requires { length (weights_in collation limit content.now) ≤ 1000 }
    ensures { OnOk result
        (Gains code.old.items code.new.items (Weights (weights_in collation limit content.now))) }
{
    let kept = text_content(collation, limit, content);
    append_number(code, kept.len() + 1)?;
    append_mapped(code, collation, kept)?;
    Ok(())
}

fn append_mapped(code: &mut Vec<u8>, collation: Collation, kept: &[u8]) -> Result<(), AllocError>
    ensures { OnOk result (code.new.items ≡ code.old.items ++ map (weight collation) kept.now) }
{
    match collation {
        Collation::Latin1SwedishCi | Collation::AsciiGeneralCi => append_each(
            code, collation, kept,
        ),
        _ => Ok(code.extend_from_slice(kept)?),
    }
}

fn append_each(code: &mut Vec<u8>, collation: Collation, kept: &[u8]) -> Result<(), AllocError>
    ensures { OnOk result (code.new.items ≡ code.old.items ++ map (weight collation) kept.now) }
{
    for byte in kept {
        code.push(collation.weight(*byte))?;
    }
    Ok(())
}
