//! Reading definitions.
//!
//! `read_defs` reads the header of an index file into an `Outline`, asks of it the conditions on which
//! a table is refused, and makes the `Defs` from it: fields from `FieldItem`s and keys from `KeyItem`s, each
//! segment with the number of the field that holds it.
ghost use Rattle.std.specs.Prelude.{◌≡◌, ◌≢◌, ◌≤◌, false, length, take, map, IfOk, IfErr};
ghost use Rattle.std.specs.List.{list_any};
ghost use Rattle.myi_base.specs.Numbers.{num_at};
ghost use Rattle.myi_defs.specs.declared.types.DefFault.TheVariants.{Memory};
ghost use Rattle.myi_defs.specs.Header.{outline};
ghost use Rattle.myi_defs.specs.Conditions.{ItemsStartFrom, is_empty, row_format};
ghost use Rattle.myi_defs.specs.ReadDefs as spec;

use crate::conditions::{DYNAMIC, has_bit, refusal};
use crate::header::{FieldItem, Front, KeyItem, Outline, SegItem};
use crate::places::holder;
use crate::types::{DefFault, Defs, Field, FieldKind, Key, RowFormat, SegType, Segment};
use myi_base::Sequence;
use std::alloc::{AllocError, Global};

/// The bytes FE FE 07 01.
const MAGIC: u32 = 0xFEFE_0701;
/// The flag of a unique key.
const NOSAME: u16 = 1;

/// Reads the definitions of a table from the bytes of its index file, or says why the table is refused:
/// the first condition that holds. Bytes past the header are not looked at.
#[tactic(auto, unfolding(crate::specs::ReadDefs::read_defs))]
pub fn read_defs(alloc: Global, bytes: &[u8]) -> Result<Defs, DefFault>
    ensures found { IfOk result (λ d. spec.read_defs bytes.now ≡ Ok d) }
    ensures refused { IfErr result (λ f. f ≢ Memory → spec.read_defs bytes.now ≡ Err f) }
    ensures itself { IfOk result spec.AreDefs }
    ensures raw { IfOk result (λ d. d.raw ≡ take (num_at 6 2 bytes.now) bytes.now) }
{
    let Some(front) = Front::of(bytes) else {
        return Err(DefFault::Short);
    };
    if has_other_magic(&front) {
        return Err(DefFault::Magic);
    }
    let defs = judged(alloc, front, &bytes[..front.header_length as usize])?;
    Ok(defs)
}

#[tactic(auto, unfolding(crate::specs::ReadDefs::has_other_magic))]
fn has_other_magic(front: &Front) -> bool
    ensures { result ≡ spec.has_other_magic front.now }
{
    front.magic != MAGIC
}

fn judged(alloc: Global, front: Front, header: &[u8]) -> Result<Defs, DefFault>
    requires { length header.now ≡ front.header_length }
    ensures found { IfOk result (λ d. spec.judged (outline front header.now) header.now ≡ Ok d) }
    ensures refused { IfErr result (λ f. f ≢ Memory
        → spec.judged (outline front header.now) header.now ≡ Err f) }
{
    let outline = Outline::read(alloc, front, header)?;
    match refusal(&outline) {
        Some(fault) => Err(fault),
        None => Ok(definitions(alloc, &outline, header)?),
    }
}

fn definitions(alloc: Global, outline: &Outline, header: &[u8]) -> Result<Defs, AllocError>
    requires starts { ItemsStartFrom 0 outline.now.fields }
    requires some { list_any is_empty outline.now.fields ≡ false }
    requires few { length outline.now.fields ≤ 4096 }
    ensures { IfOk result (λ d. d ≡ spec.definitions outline.now header.now) }
{
    let items = outline.fields.as_slice();
    let fields = Sequence::new(fields_of(alloc, items)?);
    let keys = Sequence::new(keys_of(alloc, items, outline.keys.as_slice())?);
    let raw = Sequence::new(Vec::from_slice(alloc, header)?);
    Ok(Defs {
        format: row_format(outline.front.options),
        fields,
        keys,
        rec_ref: outline.base.rec_ref,
        key_ref: outline.base.key_ref,
        row_length: outline.base.row_length,
        slot_length: outline.base.slot_length,
        raw,
    })
}

fn row_format(options: u16) -> RowFormat
    ensures { result ≡ row_format options }
{
    if has_bit(DYNAMIC, options) {
        RowFormat::Dynamic
    } else {
        RowFormat::Static
    }
}

fn fields_of(alloc: Global, items: &[FieldItem]) -> Result<Vec<Field>, AllocError>
    ensures { IfOk result (λ fields. fields.items ≡ map spec.field_of items.now) }
{
    items.iter().map(field_of).collect(alloc)
}

fn field_of(item: &FieldItem) -> Field
    ensures { result ≡ spec.field_of item.now }
{
    Field {
        kind: item.kind.unwrap_or(FieldKind::Normal),
        length: item.length,
        start: item.start,
    }
}

fn keys_of(alloc: Global, fields: &[FieldItem], items: &[KeyItem]) -> Result<Vec<Key>, AllocError>
    requires starts { ItemsStartFrom 0 fields.now }
    requires some { list_any is_empty fields.now ≡ false }
    requires few { length fields.now ≤ 4096 }
    ensures { IfOk result (λ keys. keys.items ≡ map (spec.key_of fields.now) items.now) }
{
    let mut keys = Vec::with_capacity(alloc, items.len())?;
    for item in items {
        let segments = segments_of(alloc, fields, item.segments.as_slice())?;
        keys.push(Key {
            unique: has_bit(NOSAME, item.flag),
            block_length: item.block_length,
            segments: Sequence::new(segments),
        })?;
    }
    Ok(keys)
}

fn segments_of(
    alloc: Global,
    fields: &[FieldItem],
    items: &[SegItem],
) -> Result<Vec<Segment>, AllocError>
    requires starts { ItemsStartFrom 0 fields.now }
    requires some { list_any is_empty fields.now ≡ false }
    requires few { length fields.now ≤ 4096 }
    ensures { IfOk result (λ segments.
        segments.items ≡ map (spec.segment_of fields.now) items.now) }
{
    let mut segments = Vec::with_capacity(alloc, items.len())?;
    for item in items {
        segments.push(segment_of(fields, item))?;
    }
    Ok(segments)
}

fn segment_of(fields: &[FieldItem], item: &SegItem) -> Segment
    requires starts { ItemsStartFrom 0 fields.now }
    requires some { list_any is_empty fields.now ≡ false }
    requires few { length fields.now ≤ 4096 }
    ensures { result ≡ spec.segment_of fields.now item.now }
{
    Segment {
        seg: item.seg.unwrap_or(SegType::Binary),
        language: item.language,
        null_bit: item.null_bit,
        null_pos: item.null_pos,
        length: item.length,
        start: item.start,
        field: holder(fields, item).unwrap_or(fields.len()) as u16,
    }
}
