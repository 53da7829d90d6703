//! The header of an index file, read into its items.
//!
//! `Front` has the items of the first 24 bytes and `Base` those of the base section. A `KeyItem` with its
//! `SegItem`s is a key and a `FieldItem` a field, each as it is stored. An `Outline` is all of a header
//! that definitions are made of. Where each item stands, and in how many bytes, is said in one
//! place, the definition `Header`.
ghost use Rattle.std.specs.Prelude.{◌≡◌, ◌≢◌, ◌≤◌, ◌<◌, ◌+◌, ◌*◌};
ghost use Rattle.std.specs.Prelude.{true, false, length, IfOk, IfErr, IfSome, IfNone};
ghost use Rattle.myi_defs.specs.declared.types.DefFault.TheVariants.{Lengths, Memory};
ghost use Rattle.myi_defs.specs.ReadDefs.{is_short};
ghost use Rattle.myi_defs.specs.Conditions.{ItemsStartFrom};
ghost use Rattle.myi_defs.specs.Header as spec;

use crate::layout::FRONT_LENGTH;
use crate::types::{DefFault, FieldKind, SegType};
use myi_base::{Sequence, u8_at, u16_at, u32_at};
use std::alloc::{AllocError, Global};

/// The length of a key without its segments, in bytes.
const KEY_LENGTH: usize = 12;
/// The length of a segment, in bytes.
const SEGMENT_LENGTH: usize = 18;
/// The length of a field, in bytes.
pub(crate) const FIELD_LENGTH: usize = 7;

/// The items of the first 24 bytes.
#[derive(Clone, Copy)]
pub struct Front {
    pub magic: u32,
    pub options: u16,
    pub header_length: u16,
    pub state_info_length: u16,
    pub base_info_length: u16,
    pub base_pos: u16,
    pub key_parts: u16,
    pub keys: u8,
    pub uniques: u8,
    pub page_sizes: u8,
    pub fulltext_keys: u8,
}

/// The items of the base section.
#[derive(Clone, Copy)]
pub struct Base {
    pub row_length: u32,
    pub slot_length: u32,
    pub fields: u32,
    pub rec_ref: u8,
    pub key_ref: u8,
    pub pack_bits: u16,
}

/// A segment as it is stored; it has no type where that is none that is taken.
#[derive(Clone, Copy)]
pub struct SegItem {
    pub seg: Option<SegType>,
    pub language: u16,
    pub null_bit: u8,
    pub length: u16,
    pub start: u32,
    pub null_pos: u32,
}

/// A key as it is stored.
pub struct KeyItem {
    pub flag: u16,
    pub block_length: u16,
    pub segments: Sequence<SegItem>,
}

impl Drop for KeyItem {
    fn drop(self) {
        let KeyItem {
            flag: _,
            block_length: _,
            segments: _,
        } = self;
    }
}

/// A field as it is stored, with its place in the row; it has no kind where its type is none that is
/// taken.
#[derive(Clone, Copy)]
pub struct FieldItem {
    pub kind: Option<FieldKind>,
    pub length: u16,
    pub start: u32,
}

/// What definitions are made of.
pub struct Outline {
    pub front: Front,
    pub base: Base,
    pub keys: Sequence<KeyItem>,
    pub fields: Sequence<FieldItem>,
}

impl Drop for Outline {
    fn drop(self) {
        let Outline {
            front: _,
            base: _,
            keys: _,
            fields: _,
        } = self;
    }
}

impl Front {
    #[tactic(auto, unfolding(crate::specs::Header::front))]
    pub(crate) fn read(bytes: &[u8]) -> Front
        requires { 24 ≤ length bytes.now }
        ensures value { result ≡ spec.front bytes.now }
        ensures short { result.header_length ≤ 65535 }
    {
        Front {
            magic: u32_at(bytes, 0),
            options: u16_at(bytes, 4),
            header_length: u16_at(bytes, 6),
            state_info_length: u16_at(bytes, 8),
            base_info_length: u16_at(bytes, 10),
            base_pos: u16_at(bytes, 12),
            key_parts: u16_at(bytes, 14),
            keys: u8_at(bytes, 18),
            uniques: u8_at(bytes, 19),
            page_sizes: u8_at(bytes, 21),
            fulltext_keys: u8_at(bytes, 22),
        }
    }

    /// The first items; none where the bytes are cut short.
    #[tactic(auto, unfolding(crate::specs::ReadDefs::is_short))]
    pub(crate) fn of(bytes: &[u8]) -> Option<Front>
        ensures short { IfNone result (is_short bytes.now ≡ true) }
        ensures long { IfSome result (λ f. is_short bytes.now ≡ false) }
        ensures value { IfSome result (λ f. f ≡ spec.front bytes.now) }
        ensures inside { IfSome result (λ f. f.header_length ≤ length bytes.now) }
    {
        if bytes.len() < FRONT_LENGTH {
            return None;
        }
        let front = Front::read(bytes);
        if bytes.len() < front.header_length as usize {
            return None;
        }
        Some(front)
    }
}

impl Base {
    #[tactic(auto, unfolding(crate::specs::Header::base))]
    pub(crate) fn read(header: &[u8], at: usize) -> Base
        requires { at + 100 ≤ length header.now }
        ensures { result ≡ spec.base at header.now }
    {
        Base {
            row_length: u32_at(header, at + 44),
            slot_length: u32_at(header, at + 48),
            fields: u32_at(header, at + 64),
            rec_ref: u8_at(header, at + 72),
            key_ref: u8_at(header, at + 73),
            pack_bits: u16_at(header, at + 76),
        }
    }
}

impl SegItem {
    #[tactic(auto, unfolding(crate::specs::Header::seg_item))]
    fn read(header: &[u8], at: usize) -> SegItem
        requires { at + 18 ≤ length header.now }
        ensures { result ≡ spec.seg_item at header.now }
    {
        SegItem {
            seg: seg_type(u8_at(header, at)),
            language: u8_at(header, at + 1) as u16 + 256 * u8_at(header, at + 4) as u16,
            null_bit: u8_at(header, at + 2),
            length: u16_at(header, at + 8),
            start: u32_at(header, at + 10),
            null_pos: u32_at(header, at + 14),
        }
    }
}

fn seg_type(code: u8) -> Option<SegType>
    ensures { result ≡ spec.seg_type code }
{
    match code {
        1 => Some(SegType::Text),
        2 => Some(SegType::Binary),
        3 => Some(SegType::ShortInt),
        4 => Some(SegType::LongInt),
        8 => Some(SegType::UshortInt),
        9 => Some(SegType::UlongInt),
        10 => Some(SegType::Longlong),
        11 => Some(SegType::Ulonglong),
        12 => Some(SegType::Int24),
        13 => Some(SegType::Uint24),
        14 => Some(SegType::Int8),
        15 | 17 => Some(SegType::VarText),
        16 | 18 => Some(SegType::VarBinary),
        _ => None,
    }
}

fn seg_items(
    alloc: Global,
    header: &[u8],
    at: usize,
    count: usize,
) -> Result<Vec<SegItem>, AllocError>
    requires { at + 18 * count ≤ length header.now }
    ensures { IfOk result (λ segments. segments.items ≡ spec.seg_items count at header.now) }
{
    let mut segments = Vec::with_capacity(alloc, count)?;
    let mut place = at;
    for _ in 0..count {
        segments.push(SegItem::read(header, place))?;
        place += SEGMENT_LENGTH;
    }
    Ok(segments)
}

impl KeyItem {
    #[tactic(auto, unfolding(crate::specs::Header::key_item))]
    fn read(alloc: Global, header: &[u8], at: usize) -> Result<KeyItem, DefFault>
        requires { at ≤ length header.now }
        ensures value { IfOk result (λ k. k ≡ spec.key_item at header.now) }
        ensures inside { IfOk result (λ k. at + spec.key_length k ≤ length header.now) }
        ensures few { IfOk result (λ k. length k.segments ≤ 255) }
        ensures fault { IfErr result (λ f. f ≢ Memory → f ≡ Lengths) }
        ensures past { IfErr result (λ f. f ≢ Memory
            → length header.now < at + spec.key_length (spec.key_item at header.now)) }
    {
        if header.len() - at < KEY_LENGTH {
            return Err(DefFault::Lengths);
        }
        let count = u8_at(header, at) as usize;
        let place = at + KEY_LENGTH;
        if header.len() - place < SEGMENT_LENGTH * count {
            return Err(DefFault::Lengths);
        }
        let segments = Sequence::new(seg_items(alloc, header, place, count)?);
        Ok(KeyItem {
            flag: u16_at(header, at + 2),
            block_length: u16_at(header, at + 4),
            segments,
        })
    }

    /// How many bytes the key takes in the header.
    fn length(&self) -> usize
        requires { length self.now.segments ≤ 255 }
        ensures { result ≡ spec.key_length self.now }
    {
        KEY_LENGTH + SEGMENT_LENGTH * self.segments.as_slice().len()
    }
}

/// The keys, and the place after them; the header must be long enough for them.
pub(crate) fn key_items(
    alloc: Global,
    header: &[u8],
    at: usize,
    count: u8,
) -> Result<(Vec<KeyItem>, usize), DefFault>
    requires { at ≤ length header.now }
    ensures value { IfOk result (λ r. r.0.items ≡ spec.key_items count at header.now) }
    ensures place { IfOk result (λ r. r.1 ≡ at + spec.keys_length r.0.items) }
    ensures inside { IfOk result (λ r. r.1 ≤ length header.now) }
    ensures count { IfOk result (λ r. length r.0.items ≡ count) }
    ensures fault { IfErr result (λ f. f ≢ Memory → f ≡ Lengths) }
    ensures past { IfErr result (λ f. f ≢ Memory
        → length header.now < at + spec.keys_length (spec.key_items count at header.now)) }
{
    let mut keys = Vec::with_capacity(alloc, count as usize)?;
    let mut place = at;
    for _ in 0..count {
        let key = KeyItem::read(alloc, header, place)?;
        place += key.length();
        keys.push(key)?;
    }
    Ok((keys, place))
}

impl FieldItem {
    #[tactic(auto, unfolding(crate::specs::Header::field_item))]
    fn read(header: &[u8], at: usize, start: u32) -> FieldItem
        requires { at + 7 ≤ length header.now }
        ensures value { result ≡ spec.field_item start at header.now }
        ensures short { result.length ≤ 65535 }
    {
        FieldItem {
            kind: field_kind(u16_at(header, at)),
            length: u16_at(header, at + 2),
            start,
        }
    }
}

fn field_kind(code: u16) -> Option<FieldKind>
    ensures { result ≡ spec.field_kind code }
{
    match code {
        0 => Some(FieldKind::Normal),
        1 => Some(FieldKind::SkipEndspace),
        2 => Some(FieldKind::SkipPrespace),
        3 => Some(FieldKind::SkipZero),
        4 => Some(FieldKind::Blob),
        8 => Some(FieldKind::Varchar),
        _ => None,
    }
}

/// The fields, the first at the beginning of the row.
pub(crate) fn field_items(
    alloc: Global,
    header: &[u8],
    at: usize,
    count: usize,
) -> Result<Vec<FieldItem>, AllocError>
    requires few { count ≤ 4096 }
    requires inside { at + 7 * count ≤ length header.now }
    ensures value { IfOk result (λ fields. fields.items ≡ spec.field_items count 0 at header.now) }
    ensures count { IfOk result (λ fields. length fields.items ≡ count) }
    ensures starts { IfOk result (λ fields. ItemsStartFrom 0 fields.items) }
{
    let mut fields = Vec::with_capacity(alloc, count)?;
    let mut place = at;
    let mut start = 0;
    for _ in 0..count {
        let field = FieldItem::read(header, place, start);
        place += FIELD_LENGTH;
        start += field.length as u32;
        fields.push(field)?;
    }
    Ok(fields)
}
