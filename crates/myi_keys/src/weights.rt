//! The weights of a segment's content.
//!
//! Content is what a row holds for a segment: the field's bytes, or their content without a length.
//! Keys are sorted by weights, byte by byte, so each type's weights put its values in their order.
ghost use Rattle.std.specs.Prelude.{◌≡◌, take, map, reverse, IfOk};
ghost use Rattle.myi_keys.specs.Collations.{weight};
ghost use Rattle.myi_keys.specs.Weights.{weights, CanWeigh, sign_inverted};
ghost use Rattle.myi_keys.specs.Weights.{begins_character, first_characters};
ghost use Rattle.myi_keys.specs.Weights.{blanks_stripped, weighed_part, weights_in};

use crate::collations::Collation;
use myi_base::without_blanks;
use myi_defs::{SegType, Segment};
use std::alloc::{AllocError, Global};

/// The topmost bit of a byte, the sign of a number whose bytes stand high byte first.
pub(crate) const SIGN: u8 = 0x80;

/// The weights of a segment's content, by the segment's type:
///
/// - of an integer, its bytes high byte first, with the topmost bit inverted where the type is signed;
///   its content has its type's size, low byte first;
/// - of a binary, its bytes; its content has the segment's length;
/// - of a variable binary, its first bytes, as many as the segment's length;
/// - of a text, its first bytes too, but in a UTF-8 collation no more characters than the length has
///   room for; then without trailing blanks, unless the collation is 63; and each byte by its weight.
///   Its collation is one of the seven of `Collation`.
#[tactic(auto, unfolding(crate::specs::Weights::weights))]
pub fn weigh(alloc: Global, seg: &Segment, content: &[u8]) -> Result<Vec<u8>, AllocError>
    requires { CanWeigh seg.now content.now }
    ensures { IfOk result (λ v. v.items ≡ weights seg.now content.now) }
{
    match seg.seg {
        SegType::ShortInt | SegType::LongInt | SegType::Longlong | SegType::Int24 | SegType::Int8 =>
            signed_weights(alloc, content),
        SegType::UshortInt | SegType::UlongInt | SegType::Ulonglong | SegType::Uint24 => {
            unsigned_weights(alloc, content)
        }
        SegType::Binary => Vec::from_slice(alloc, content),
        SegType::VarBinary => Vec::from_slice(alloc, first_bytes(content, seg.length as usize)),
        SegType::Text | SegType::VarText => {
            let collation = Collation::of_number(seg.language).unwrap();
            text_weights(alloc, collation, seg.length as usize, content)
        }
    }
}

fn unsigned_weights(alloc: Global, content: &[u8]) -> Result<Vec<u8>, AllocError>
    ensures { IfOk result (λ v. v.items ≡ reverse content.now) }
{
    content.iter().rev().copied().collect(alloc)
}

fn signed_weights(alloc: Global, content: &[u8]) -> Result<Vec<u8>, AllocError>
    ensures { IfOk result (λ v. v.items ≡ sign_inverted (reverse content.now)) }
{
    let mut weights = unsigned_weights(alloc, content)?;
    if let Some(first) = weights.first_mut() {
        *first ^= SIGN;
    }
    Ok(weights)
}

fn text_weights(
    alloc: Global,
    collation: Collation,
    length: usize,
    content: &[u8],
) -> Result<Vec<u8>, AllocError>
    ensures { IfOk result (λ v. v.items ≡ weights_in collation length content.now) }
{
    mapped(alloc, collation, text_content(collation, length, content))
}

/// What of a text's content is weighed: its first bytes, cut at a character, without trailing blanks.
pub(crate) fn text_content(collation: Collation, length: usize, content: &[u8]) -> &[u8]
    ensures { result.now ≡ weighed_part collation length content.now }
{
    let content = first_bytes(content, length);
    let content = match collation.character_width() {
        Some(width) => first_characters(content, length / width),
        None => content,
    };
    stripped(collation, content)
}

fn mapped(alloc: Global, collation: Collation, content: &[u8]) -> Result<Vec<u8>, AllocError>
    ensures { IfOk result (λ v. v.items ≡ map (weight collation) content.now) }
{
    match collation {
        Collation::Latin1SwedishCi | Collation::AsciiGeneralCi => content
            .iter()
            .map(|byte| collation.weight(*byte))
            .collect(alloc),
        _ => Vec::from_slice(alloc, content),
    }
}

pub(crate) fn first_bytes(content: &[u8], length: usize) -> &[u8]
    ensures { result.now ≡ take length content.now }
{
    &content[..length.min(content.len())]
}

fn begins_character(byte: u8) -> bool
    ensures { result ≡ begins_character byte }
{
    !(0x80..=0xBF).contains(&byte)
}

fn first_characters(content: &[u8], most: usize) -> &[u8]
    ensures { result.now ≡ first_characters most content.now }
{
    let mut left = most;
    for (i, byte) in content.iter().enumerate() {
        if begins_character(*byte) {
            if left == 0 {
                return &content[..i];
            }
            left -= 1;
        }
    }
    content
}

fn stripped(collation: Collation, content: &[u8]) -> &[u8]
    ensures { result.now ≡ blanks_stripped collation content.now }
{
    match collation {
        Collation::Binary => content,
        _ => without_blanks(content),
    }
}
