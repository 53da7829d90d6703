//! The types of a table's definitions.
//!
//! A `Defs` has its fields in order and its keys in order; a `Key` has its segments. A field's `start`
//! is its place in the unpacked row, in which the fields stand one after the other in their full
//! lengths. A segment is a part of a field that a key is made of.
ghost use Rattle.std.specs.Prelude.{◌≡◌, ◌≤◌, ◌-◌, ◌^◌, nat_lt, IfOk};
ghost use Rattle.myi_defs.specs.Kinds.{has_flag, is_variable};
ghost use Rattle.myi_defs.specs.Addressable.{pointers, is_addressable};

use myi_base::Sequence;
use std::alloc::{AllocError, AllocFailed, Global};
use thiserror::Error;

/// How the rows of a table stand in its data file: in slots of one length, or packed into blocks.
#[derive(Clone, Copy, Debug, PartialEq, Eq)]
pub enum RowFormat {
    Static,
    Dynamic,
}

/// How a field is packed. The types 5, 6, 7 and 9 of the format are refused.
#[derive(Clone, Copy, Debug, PartialEq, Eq)]
pub enum FieldKind {
    Normal,
    SkipEndspace,
    SkipPrespace,
    SkipZero,
    Blob,
    Varchar,
}

impl FieldKind {
    /// Whether a packed row has a bit of its own for each field of this kind.
    pub fn has_flag(self) -> bool
        ensures { result ≡ has_flag self }
    {
        match self {
            FieldKind::Normal | FieldKind::Varchar => false,
            FieldKind::SkipEndspace
            | FieldKind::SkipPrespace
            | FieldKind::SkipZero
            | FieldKind::Blob => true,
        }
    }
}

/// A field.
#[derive(Clone, Copy, Debug, PartialEq, Eq)]
pub struct Field {
    pub kind: FieldKind,
    /// In bytes, as stored: that of a Varchar counts its length bytes, and a Blob of k length bytes
    /// has k + 8.
    pub length: u16,
    /// The field's place in the unpacked row: the sum of the lengths before it.
    pub start: u32,
}

/// The type of a key segment. Both stored forms of a variable text are `VarText`, and both of a
/// variable binary are `VarBinary`.
#[derive(Clone, Copy, Debug, PartialEq, Eq)]
pub enum SegType {
    Text,
    Binary,
    ShortInt,
    LongInt,
    UshortInt,
    UlongInt,
    Longlong,
    Ulonglong,
    Int24,
    Uint24,
    Int8,
    VarText,
    VarBinary,
}

impl SegType {
    /// Whether a segment of this type is a whole field of no fixed length.
    pub fn is_variable(self) -> bool
        ensures { result ≡ is_variable self }
    {
        match self {
            SegType::VarText | SegType::VarBinary => true,
            _ => false,
        }
    }
}

/// A segment of a key.
#[derive(Clone, Copy, Debug, PartialEq, Eq)]
pub struct Segment {
    pub seg: SegType,
    /// The number of the collation.
    pub language: u16,
    /// The bits of the byte at `null_pos` of which one says that the row has no value here; 0 where a
    /// value is always there.
    pub null_bit: u8,
    pub null_pos: u32,
    /// In bytes; the greatest number of them for a variable segment.
    pub length: u16,
    /// The segment's place in the unpacked row.
    pub start: u32,
    /// The number of the field that holds the segment, from 0.
    pub field: u16,
}

/// A key.
pub struct Key {
    /// Whether no two rows may have the same complete key.
    pub unique: bool,
    /// The length of the key's index pages, in bytes.
    pub block_length: u16,
    pub segments: Sequence<Segment>,
}

impl Drop for Key {
    fn drop(self) {
        let Key {
            unique: _,
            block_length: _,
            segments: _,
        } = self;
    }
}

/// The definitions of a table.
pub struct Defs {
    pub format: RowFormat,
    pub fields: Sequence<Field>,
    pub keys: Sequence<Key>,
    /// How many bytes a row pointer has.
    pub rec_ref: u8,
    /// How many bytes the header says that a page pointer has.
    pub key_ref: u8,
    /// The length of the unpacked row, in bytes.
    pub row_length: u32,
    /// The length of a slot of a static table, in bytes.
    pub slot_length: u32,
    /// The header as it was read.
    pub raw: Sequence<u8>,
}

impl Drop for Defs {
    fn drop(self) {
        let Defs {
            format: _,
            fields: _,
            keys: _,
            rec_ref: _,
            key_ref: _,
            row_length: _,
            slot_length: _,
            raw: _,
        } = self;
    }
}

/// Why definitions are refused: the first condition that holds of a header, in the order of the
/// variants, which is that of their numbers from 1 on. `Memory` is want of memory.
#[derive(Clone, Copy, Debug, PartialEq, Eq, Error)]
pub enum DefFault {
    #[error("the header is cut short")]
    Short,
    #[error("the file does not begin as an index file")]
    Magic,
    #[error("the lengths in the header do not fit together")]
    Lengths,
    #[error("the table is packed")]
    Packed,
    #[error("the table has row checksums")]
    Checksum,
    #[error("the table has a full-text key")]
    Fulltext,
    #[error("the table has a spatial key")]
    Spatial,
    #[error("the table has unique constraints")]
    Uniques,
    #[error("a field's type or length is not taken")]
    FieldType,
    #[error("a segment's type is not taken")]
    SegType,
    #[error("a segment does not lie in a field that can hold it")]
    SegPlace,
    #[error("a segment's collation is not taken")]
    Collation,
    #[error("a key's pages have a wrong length")]
    BlockLength,
    #[error("a pointer has a wrong length")]
    PointerSize,
    #[error("a key may have more than 1000 bytes")]
    KeyTooLong,
    #[error("out of memory")]
    Memory,
}

impl From<AllocError> for DefFault {
    ghost use Rattle.std.specs.Prelude.{◌≡◌};
    ghost use Rattle.myi_defs.specs.declared.types.DefFault.TheVariants.{Memory};

    ghost from_gives = { λ _ e. e ≡ Memory };

    fn from(_: AllocError) -> Self {
        DefFault::Memory
    }
}

impl<T: Drop> From<AllocFailed<T>> for DefFault {
    ghost use Rattle.std.specs.Prelude.{◌≡◌};
    ghost use Rattle.myi_defs.specs.declared.types.DefFault.TheVariants.{Memory};

    ghost from_gives = { λ _ e. e ≡ Memory };

    fn from(_: AllocFailed<T>) -> Self {
        DefFault::Memory
    }
}

impl Key {
    /// An equal key.
    pub fn copy(&self) -> Result<Key, AllocError>
        ensures { IfOk result (λ copy. copy ≡ self.now) }
    {
        Ok(Key {
            unique: self.unique,
            block_length: self.block_length,
            segments: self.segments.copy()?,
        })
    }
}

fn copied(alloc: Global, keys: &[Key]) -> Result<Vec<Key>, AllocError>
    ensures { IfOk result (λ copy. copy.items ≡ keys.now) }
{
    let mut copies = Vec::with_capacity(alloc, keys.len())?;
    for key in keys {
        copies.push(key.copy()?)?;
    }
    Ok(copies)
}

impl Defs {
    /// Equal definitions.
    pub fn copy(&self) -> Result<Defs, AllocError>
        ensures { IfOk result (λ copy. copy ≡ self.now) }
    {
        let fields = self.fields.copy()?;
        let keys = Sequence::new(copied(self.raw.allocator(), self.keys.as_slice())?);
        let raw = self.raw.copy()?;
        Ok(Defs {
            format: self.format,
            fields,
            keys,
            rec_ref: self.rec_ref,
            key_ref: self.key_ref,
            row_length: self.row_length,
            slot_length: self.slot_length,
            raw,
        })
    }

    /// Whether row pointers reach each row of a data file of that length, in bytes, and the file has
    /// at most 2^40 bytes. It takes no memory.
    #[tactic(auto, unfolding(crate::specs::Addressable::is_addressable))]
    pub fn addressable(&self, length: u64) -> bool
        ensures { result ≡ is_addressable self.now length }
    {
        length <= 1 << 40
            && reaches(
                self.rec_ref,
                pointers(self.format, self.slot_length, length),
            )
    }
}

fn pointers(format: RowFormat, slot_length: u32, length: u64) -> u64
    ensures value { result ≡ pointers format slot_length length }
    ensures few { result ≤ length }
{
    match format {
        RowFormat::Static => length.checked_div(slot_length as u64).unwrap_or(0),
        RowFormat::Dynamic => length,
    }
}

// Whether so many pointers of `rec_ref` bytes are there beside the one that stands for none.
fn reaches(rec_ref: u8, count: u64) -> bool
    requires { count ≤ 2 ^ 40 }
    ensures { result ≡ nat_lt count (256 ^ rec_ref - 1) }
{
    match 256u64.checked_pow(rec_ref as u32) {
        Some(all) => count + 1 < all,
        None => true,
    }
}
