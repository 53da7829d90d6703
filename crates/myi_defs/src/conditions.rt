//! The conditions on which a table is refused, from the fourth on.
//!
//! Each condition is a function here and a definition of the same name in `Conditions`; `refusal` answers
//! the first that holds.
ghost use Rattle.std.specs.Prelude.{◌≡◌, ◌≤◌, ◌+◌, ◌*◌, ◌/◌, ◌&&◌, ◌||◌};
ghost use Rattle.std.specs.Prelude.{not, false, nat_lt, length, sum_by, count_by, is_none};
ghost use Rattle.std.specs.List.{list_any};
ghost use Rattle.myi_defs.specs.Conditions as spec;
ghost use Rattle.myi_defs.specs.Kinds as kinds;
ghost use Rattle.myi_defs.specs.ReadDefs.{has_wrong_lengths, refusal};

use crate::header::{FieldItem, KeyItem, Outline, SegItem};
use crate::places::{holder, is_plain};
use crate::types::{DefFault, FieldKind, SegType};

/// The option of a table with dynamic rows.
pub(crate) const DYNAMIC: u16 = 1;

const COMPRESSED: u16 = 4;

const CHECKSUM: u16 = 32;
/// The flags of a full-text key and of a spatial one.
const FULLTEXT: u16 = 128;

const SPATIAL: u16 = 1024;
/// How many bytes the segments of a key have at most.
const MOST_KEY: u32 = 1000;

pub(crate) fn has_bit(bit: u16, number: u16) -> bool
    ensures { result ≡ spec.has_bit bit number }
{
    number & bit != 0
}

/// Why a header is refused, whose lengths fit together.
#[tactic(auto, unfolding(crate::specs::ReadDefs::refusal))]
pub(crate) fn refusal(outline: &Outline) -> Option<DefFault>
    requires lengths { has_wrong_lengths outline.now ≡ false }
    requires starts { spec.ItemsStartFrom 0 outline.now.fields }
    requires few { length outline.now.fields ≤ 4096 }
    ensures { result ≡ refusal outline.now }
{
    if has_bit(COMPRESSED, outline.front.options) {
        return Some(DefFault::Packed);
    }
    if has_bit(CHECKSUM, outline.front.options) {
        return Some(DefFault::Checksum);
    }
    if has_fulltext(outline) {
        return Some(DefFault::Fulltext);
    }
    if has_spatial(outline) {
        return Some(DefFault::Spatial);
    }
    if outline.front.uniques != 0 {
        return Some(DefFault::Uniques);
    }
    if has_wrong_types(outline) {
        return Some(DefFault::FieldType);
    }
    if has_wrong_segment(outline) {
        return Some(DefFault::SegType);
    }
    if has_wrong_place(outline) {
        return Some(DefFault::SegPlace);
    }
    if has_wrong_collation(outline) {
        return Some(DefFault::Collation);
    }
    if has_wrong_blocks(outline) {
        return Some(DefFault::BlockLength);
    }
    if has_wrong_pointers(outline) {
        return Some(DefFault::PointerSize);
    }
    if has_long_keys(outline) {
        return Some(DefFault::KeyTooLong);
    }
    None
}

fn is_dynamic(outline: &Outline) -> bool
    ensures { result ≡ spec.is_dynamic outline.now }
{
    has_bit(DYNAMIC, outline.front.options)
}

#[tactic(auto, unfolding(crate::specs::Conditions::has_fulltext))]
fn has_fulltext(outline: &Outline) -> bool
    ensures { result ≡ spec.has_fulltext outline.now }
{
    outline.front.fulltext_keys != 0 || has_flag(FULLTEXT, outline.keys.as_slice())
}

#[tactic(auto, unfolding(crate::specs::Conditions::has_spatial))]
fn has_spatial(outline: &Outline) -> bool
    ensures { result ≡ spec.has_spatial outline.now }
{
    has_flag(SPATIAL, outline.keys.as_slice())
}

fn has_flag(flag: u16, keys: &[KeyItem]) -> bool
    ensures { result ≡ list_any (λ k. spec.has_bit flag k.flag) keys.now }
{
    keys.iter().any(|key| has_bit(flag, key.flag))
}

#[tactic(auto, unfolding(crate::specs::Conditions::has_wrong_types))]
fn has_wrong_types(outline: &Outline) -> bool
    requires { length outline.now.fields ≤ 4096 }
    ensures { result ≡ spec.has_wrong_types outline.now }
{
    let fields = outline.fields.as_slice();
    let dynamic = is_dynamic(outline);
    has_wrong_kind(dynamic, fields)
        || outline.base.row_length < total(fields)
        || dynamic && outline.base.pack_bits as usize != flag_bytes(fields)
}

fn has_wrong_kind(dynamic: bool, fields: &[FieldItem]) -> bool
    ensures { result ≡ list_any (λ f. spec.is_wrong_kind dynamic f.kind f.length) fields.now }
{
    fields
        .iter()
        .any(|field| is_wrong_kind(dynamic, field.kind, field.length))
}

fn is_wrong_kind(dynamic: bool, kind: Option<FieldKind>, length: u16) -> bool
    ensures { result ≡ spec.is_wrong_kind dynamic kind length }
{
    match kind {
        None => true,
        Some(FieldKind::Blob) => !dynamic || length < 9 || length > 12,
        Some(FieldKind::Varchar) => length < 2 || length == 257,
        Some(_) => length == 0,
    }
}

fn total(fields: &[FieldItem]) -> u32
    requires { length fields.now ≤ 4096 }
    ensures { result ≡ sum_by (λ f. f.length) fields.now }
{
    let mut total = 0;
    for field in fields {
        total += field.length as u32;
    }
    total
}

// How many bytes the flags of a packed row take.
fn flag_bytes(fields: &[FieldItem]) -> usize
    requires { length fields.now ≤ 4096 }
    ensures { result ≡ (count_by (λ f. spec.is_flagged f.kind) fields.now + 7) / 8 }
{
    let flags = fields.iter().filter(|field| is_flagged(field.kind)).count();
    flags.div_ceil(8)
}

pub(crate) fn is_flagged(kind: Option<FieldKind>) -> bool
    ensures { result ≡ spec.is_flagged kind }
{
    match kind {
        Some(kind) => kind.has_flag(),
        None => false,
    }
}

#[tactic(auto, unfolding(crate::specs::Conditions::has_wrong_segment))]
fn has_wrong_segment(outline: &Outline) -> bool
    ensures { result ≡ spec.has_wrong_segment outline.now }
{
    outline
        .keys
        .as_slice()
        .iter()
        .any(|key| has_unknown(key.segments.as_slice()))
}

fn has_unknown(segments: &[SegItem]) -> bool
    ensures { result ≡ list_any (λ s. is_none s.seg) segments.now }
{
    segments.iter().any(|segment| segment.seg.is_none())
}

#[tactic(auto, unfolding(crate::specs::Conditions::has_wrong_place))]
fn has_wrong_place(outline: &Outline) -> bool
    requires starts { spec.ItemsStartFrom 0 outline.now.fields }
    requires some { list_any spec.is_empty outline.now.fields ≡ false }
    ensures { result ≡ spec.has_wrong_place outline.now }
{
    let fields = outline.fields.as_slice();
    outline
        .keys
        .as_slice()
        .iter()
        .any(|key| has_misplaced(fields, key.segments.as_slice()))
}

fn has_misplaced(fields: &[FieldItem], segments: &[SegItem]) -> bool
    requires starts { spec.ItemsStartFrom 0 fields.now }
    requires some { list_any spec.is_empty fields.now ≡ false }
    ensures { result ≡ list_any (spec.is_misplaced fields.now) segments.now }
{
    segments.iter().any(|segment| is_misplaced(fields, segment))
}

#[tactic(auto, unfolding(crate::specs::Conditions::is_misplaced))]
fn is_misplaced(fields: &[FieldItem], segment: &SegItem) -> bool
    requires starts { spec.ItemsStartFrom 0 fields.now }
    requires some { list_any spec.is_empty fields.now ≡ false }
    ensures { result ≡ spec.is_misplaced fields.now segment.now }
{
    has_wrong_size(segment.seg, segment.length)
        || holder(fields, segment).is_none()
        || segment.null_bit != 0 && !is_plain(fields, segment.null_pos)
}

fn has_wrong_size(seg: Option<SegType>, length: u16) -> bool
    ensures { result ≡ spec.has_wrong_size seg length }
{
    match seg {
        Some(seg) => match int_size(seg) {
            Some(size) => length != size,
            None => false,
        },
        None => false,
    }
}

fn int_size(seg: SegType) -> Option<u16>
    ensures { result ≡ kinds.int_size seg }
{
    match seg {
        SegType::Int8 => Some(1),
        SegType::ShortInt | SegType::UshortInt => Some(2),
        SegType::Int24 | SegType::Uint24 => Some(3),
        SegType::LongInt | SegType::UlongInt => Some(4),
        SegType::Longlong | SegType::Ulonglong => Some(8),
        SegType::Text | SegType::Binary | SegType::VarText | SegType::VarBinary => None,
    }
}

#[tactic(auto, unfolding(crate::specs::Conditions::has_wrong_collation))]
fn has_wrong_collation(outline: &Outline) -> bool
    ensures { result ≡ spec.has_wrong_collation outline.now }
{
    outline
        .keys
        .as_slice()
        .iter()
        .any(|key| has_other_collation(key.segments.as_slice()))
}

fn has_other_collation(segments: &[SegItem]) -> bool
    ensures { result
        ≡ list_any (λ s. spec.is_text_as s.seg && not (kinds.is_collation s.language))
        segments.now }
{
    segments.iter().any(|segment| is_text(segment.seg) && !is_collation(segment.language))
}

fn is_text(seg: Option<SegType>) -> bool
    ensures { result ≡ spec.is_text_as seg }
{
    match seg {
        Some(SegType::Text) => true,
        Some(SegType::VarText) => true,
        _ => false,
    }
}

fn is_collation(language: u16) -> bool
    ensures { result ≡ kinds.is_collation language }
{
    match language {
        8 | 11 | 46 | 47 | 63 | 65 | 83 => true,
        _ => false,
    }
}

#[tactic(auto, unfolding(crate::specs::Conditions::has_wrong_blocks))]
fn has_wrong_blocks(outline: &Outline) -> bool
    ensures { result ≡ spec.has_wrong_blocks outline.now }
{
    let rec_ref = outline.base.rec_ref;
    outline
        .keys
        .as_slice()
        .iter()
        .any(|key| has_wrong_pages(rec_ref, key))
}

fn has_wrong_pages(rec_ref: u8, key: &KeyItem) -> bool
    ensures { result ≡ spec.has_wrong_pages rec_ref key.now }
{
    key.block_length % 1024 != 0
        || key.block_length < 1024
        || key.block_length > 16384
        || lacks_room(key.block_length, rec_ref, key.segments.as_slice())
}

// Whether two entries and a page's three pointers take more than a page.
fn lacks_room(block_length: u16, rec_ref: u8, segments: &[SegItem]) -> bool
    ensures { result
        ≡ nat_lt block_length
        (2 * (sum_by (λ s. kinds.seg_cost s.length) segments.now + 13 + rec_ref) + 9) }
{
    let mut needed = 2 * (13 + rec_ref as u32) + 9;
    for segment in segments {
        needed += 2 * seg_cost(segment.length);
        if needed > block_length as u32 {
            return true;
        }
    }
    needed > block_length as u32
}

/// The most bytes that a segment of this length takes in the code of a key: its own, and before them its length
/// in one byte, or in three.
pub fn seg_cost(length: u16) -> u32
    ensures { result ≡ kinds.seg_cost length }
{
    if length < 254 {
        length as u32 + 1
    } else {
        length as u32 + 3
    }
}

#[tactic(auto, unfolding(crate::specs::Conditions::has_wrong_pointers))]
fn has_wrong_pointers(outline: &Outline) -> bool
    ensures { result ≡ spec.has_wrong_pointers outline.now }
{
    let base = &outline.base;
    base.rec_ref < 2
        || base.rec_ref > 8
        || base.key_ref < 1
        || base.key_ref > 8
        || !is_dynamic(outline) && base.slot_length < base.rec_ref as u32 + 1
}

#[tactic(auto, unfolding(crate::specs::Conditions::has_long_keys))]
fn has_long_keys(outline: &Outline) -> bool
    ensures { result ≡ spec.has_long_keys outline.now }
{
    outline
        .keys
        .as_slice()
        .iter()
        .any(|key| is_long(key.segments.as_slice()))
}

fn is_long(segments: &[SegItem]) -> bool
    ensures { result ≡ nat_lt MOST_KEY (sum_by (λ s. s.length) segments.now) }
{
    let mut total = 0;
    for segment in segments {
        total += segment.length as u32;
        if total > MOST_KEY {
            return true;
        }
    }
    false
}
