//! Packing a row.
//!
//! `fits` decides whether a row has the form that the definitions ask for, and `pack` writes the
//! spelling of such a row. A field is written by `push_field`, which tells whether the field's flag is
//! to be set; the flags stand in front and are set as the fields come.
ghost use Rattle.std.specs.Prelude.{◌≡◌, ◌≤◌, ◌<◌, ◌+◌, ◌*◌, ◌/◌, ◌^◌, ◌++◌, ◌==◌};
ghost use Rattle.std.specs.Prelude.{true, not, if◌then◌else◌, length, slice_index, All};
ghost use Rattle.std.specs.Prelude.{IsTrue, IfOk, OnOk};
ghost use Rattle.myi_base.specs.Numbers.{low_num_bytes};
ghost use Rattle.myi_defs.specs.Sound.{IsSound, IsLengthOf};
ghost use Rattle.myi_pack.specs.Lengths.{length_bytes};
ghost use Rattle.myi_pack.specs.Flags.{flag_bytes, flag_count, packed_bits, with_flag, with_flags};
ghost use Rattle.myi_pack.specs.Spelling.{trimmed_start, is_all, skip_length};
ghost use Rattle.myi_pack.specs.Spelling.{is_shorter, skipped_bytes, varchar_length, field_flag};
ghost use Rattle.myi_pack.specs.Spelling.{field_bytes, slot_bytes, spelled_fields, flags_of};
ghost use Rattle.myi_pack.specs.Spelling.{filled, spelling, fits_field, fits_fields, packed_length, fits};

use crate::fields::{flag_count, length_bytes, next_flag};
use crate::values::{Row, Value, push_repeated};
use byteorder::{ByteOrder, LittleEndian};
use myi_base::{append_number, without_blanks};
use myi_defs::{Defs, Field, FieldKind, RowFormat};
use std::alloc::{AllocError, Global};

/// The first length of a packed row that four bytes do not hold.
const PACKED_END: usize = 1 << 32;

/// Whether the row has one value for each field, of the field's length or, for a VARCHAR or BLOB, not
/// longer than the field can hold; and, in a static table, begins with a byte that is not 0, in a dynamic
/// one has a spelling of less than 2^32 bytes. It takes no memory.
#[tactic(auto, unfolding(crate::specs::Spelling::fits))]
pub fn fits(defs: &Defs, row: &Row) -> bool
    requires { IsSound defs.now }
    ensures { result ≡ fits defs.now row.now }
{
    let fields = defs.fields.as_slice();
    let values = row.as_slice();
    match defs.format {
        RowFormat::Static => fits_slot(fields, values) && is_live(fields, values),
        RowFormat::Dynamic => match packed_len(fields, values) {
            Some(len) => len < PACKED_END,
            None => false,
        },
    }
}

// Whether there is one value for each field, of its form in a static row.
fn fits_slot(fields: &[Field], values: &[Value]) -> bool
    requires { All (λ f. IsLengthOf RowFormat.Static f.kind f.length) fields.now }
    ensures { result ≡ fits_fields RowFormat.Static fields.now values.now }
{
    let mut rest = values;
    for field in fields {
        let [value, after @ ..] = rest else {
            return false;
        };
        if !fits_field(RowFormat::Static, field, value.as_slice()) {
            return false;
        }
        rest = after;
    }
    rest.is_empty()
}

fn fits_field(format: RowFormat, field: &Field, value: &[u8]) -> bool
    requires { IsLengthOf format field.now.kind field.now.length }
    ensures { result ≡ fits_field format field.now.kind field.now.length value.now }
{
    let length = field.length as usize;
    match field.kind {
        FieldKind::Blob => format == RowFormat::Dynamic && value.len() < blob_end(length - 8),
        FieldKind::Varchar => value.len() <= length - length_bytes(length),
        _ => value.len() == length,
    }
}

// The first length that so many bytes do not hold.
fn blob_end(width: usize) -> usize
    requires { width ≤ 4 }
    ensures { result ≡ 256 ^ width }
{
    256usize.pow(width as u32)
}

// How many bytes the spelling of a dynamic row has, and None where a field has no value of its form.
fn packed_len(fields: &[Field], values: &[Value]) -> Option<usize>
    requires few { length fields.now ≤ 4096 }
    requires lengths { All (λ f. IsLengthOf RowFormat.Dynamic f.kind f.length) fields.now }
    ensures { result ≡ packed_length fields.now values.now }
{
    let mut len = flag_count(fields).div_ceil(8);
    let mut rest = values;
    for field in fields {
        let [value, after @ ..] = rest else {
            return None;
        };
        let value = value.as_slice();
        if !fits_field(RowFormat::Dynamic, field, value) {
            return None;
        }
        len += field_len(field, value);
        rest = after;
    }
    if rest.is_empty() { Some(len) } else { None }
}

// How many bytes a field of a dynamic row takes.
fn field_len(field: &Field, value: &[u8]) -> usize
    requires length { IsLengthOf RowFormat.Dynamic field.now.kind field.now.length }
    requires fits { fits_field RowFormat.Dynamic field.now.kind field.now.length value.now ≡ true }
    ensures value { result ≡ length (field_bytes field.now.kind field.now.length value.now) }
    ensures few { result < 2 ^ 32 + 4 }
{
    let length = field.length as usize;
    match field.kind {
        FieldKind::Normal => value.len(),
        FieldKind::SkipEndspace => skipped_len(length, value, without_blanks(value)),
        FieldKind::SkipPrespace => skipped_len(length, value, trimmed_start(value)),
        FieldKind::SkipZero => { if is_zero(value) { 0 } else { value.len() } }
        FieldKind::Blob => blob_len(length - 8, value.len()),
        FieldKind::Varchar => varchar_width(length, value.len()) + value.len(),
    }
}

// Whether the slot of a static row begins with a byte that is not 0, as that of a deleted one does.
fn is_live(fields: &[Field], values: &[Value]) -> bool
    requires some { 0 < length fields.now }
    requires lengths { All (λ f. IsLengthOf RowFormat.Static f.kind f.length) fields.now }
    requires fits { fits_fields RowFormat.Static fields.now values.now ≡ true }
    ensures { result
        ≡ not (slice_index (spelled_fields RowFormat.Static fields.now values.now) 0 == 0) }
{
    let [value, ..] = values else {
        unreachable!();
    };
    is_field_live(&fields[0], value.as_slice())
}

// Whether the bytes of this field in a static row begin with one that is not 0.
fn is_field_live(field: &Field, value: &[u8]) -> bool
    requires length { IsLengthOf RowFormat.Static field.now.kind field.now.length }
    requires fits { fits_field RowFormat.Static field.now.kind field.now.length value.now ≡ true }
    ensures { result
        ≡ not (slice_index (slot_bytes field.now.kind field.now.length value.now) 0 == 0) }
{
    match field.kind {
        FieldKind::Varchar => value.len() % 256 != 0,
        _ => value[0] != 0,
    }
}

/// The spelling of a row that fits: the shortest bytes that pack it.
#[tactic(auto, unfolding(crate::specs::Spelling::spelling))]
pub fn pack(alloc: Global, defs: &Defs, row: &Row) -> Result<Vec<u8>, AllocError>
    requires sound { IsSound defs.now }
    requires fits { IsTrue (fits defs.now row.now) }
    ensures { IfOk result (λ bytes. bytes.items ≡ spelling defs.now row.now) }
{
    match defs.format {
        RowFormat::Static => pack_slot(alloc, defs, row),
        RowFormat::Dynamic => pack_fields(alloc, defs.fields.as_slice(), row.as_slice()),
    }
}

// The slot of a static row.
fn pack_slot(alloc: Global, defs: &Defs, row: &Row) -> Result<Vec<u8>, AllocError>
    requires sound { IsSound defs.now }
    requires slot { defs.now.format ≡ RowFormat.Static }
    requires fits { fits_fields RowFormat.Static defs.now.fields row.now ≡ true }
    ensures { IfOk result (λ bytes. bytes.items
        ≡ filled defs.now.slot_length
        (spelled_fields RowFormat.Static defs.now.fields row.now)) }
{
    let slot = defs.slot_length as usize;
    let mut out = Vec::with_capacity(alloc, slot)?;
    push_slots(&mut out, defs.fields.as_slice(), row.as_slice())?;
    let rest = slot - out.len();
    push_repeated(&mut out, 0, rest)?;
    Ok(out)
}

// Writes the fields of a static row.
fn push_slots(out: &mut Vec<u8>, fields: &[Field], values: &[Value]) -> Result<(), AllocError>
    requires lengths { All (λ f. IsLengthOf RowFormat.Static f.kind f.length) fields.now }
    requires fits { fits_fields RowFormat.Static fields.now values.now ≡ true }
    ensures { OnOk result
        (out.new.items ≡ out.old.items ++ spelled_fields RowFormat.Static fields.now values.now) }
{
    let mut rest = values;
    for field in fields {
        let [value, after @ ..] = rest else {
            unreachable!();
        };
        push_slot(out, field, value.as_slice())?;
        rest = after;
    }
    Ok(())
}

// The flags and the fields of a dynamic row.
fn pack_fields(alloc: Global, fields: &[Field], values: &[Value]) -> Result<Vec<u8>, AllocError>
    requires few { length fields.now ≤ 4096 }
    requires lengths { All (λ f. IsLengthOf RowFormat.Dynamic f.kind f.length) fields.now }
    requires fits { fits_fields RowFormat.Dynamic fields.now values.now ≡ true }
    ensures { IfOk result (λ bytes. bytes.items
        ≡ packed_bits (flag_bytes (flag_count fields.now)) (flags_of fields.now values.now)
        ++ spelled_fields RowFormat.Dynamic fields.now values.now) }
{
    let mut out = Vec::with_capacity(alloc, most_bytes(values))?;
    push_repeated(&mut out, 0, flag_count(fields).div_ceil(8))?;
    push_fields(&mut out, fields, values)?;
    Ok(out)
}

// As many bytes as a packed row of these values has at most: a flag and a length take five bytes of a
// field at most. It bounds no result, and only saves `pack` further allocations.
fn most_bytes(values: &[Value]) -> usize {
    values.iter().fold(0, |bytes: usize, value| {
        bytes
            .saturating_add(value.as_slice().len())
            .saturating_add(5)
    })
}

// Writes the fields behind their flags, and sets the flags.
fn push_fields(out: &mut Vec<u8>, fields: &[Field], values: &[Value]) -> Result<(), AllocError>
    requires few { length fields.now ≤ 4096 }
    requires room { flag_count fields.now ≤ 8 * length out.old.items }
    requires lengths { All (λ f. IsLengthOf RowFormat.Dynamic f.kind f.length) fields.now }
    requires fits { fits_fields RowFormat.Dynamic fields.now values.now ≡ true }
    ensures { OnOk result
        (out.new.items
        ≡ with_flags out.old.items 0 (flags_of fields.now values.now)
        ++ spelled_fields RowFormat.Dynamic fields.now values.now) }
{
    let mut rest = values;
    let mut k = 0;
    for field in fields {
        let [value, after @ ..] = rest else {
            unreachable!();
        };
        let bit = push_field(out, field, value.as_slice())?;
        set_flag(out, k, bit);
        rest = after;
        k = next_flag(field.kind, k);
    }
    Ok(())
}

pub(crate) fn set_flag(out: &mut Vec<u8>, k: usize, bit: bool)
    requires { bit ≡ true → k / 8 < length out.old.items }
    ensures { out.new.items ≡ with_flag out.old.items k bit }
{
    if bit {
        out[k / 8] |= 1 << (k % 8);
    }
}

// Writes a field of a static row, with zeros behind a VARCHAR's content.
pub(crate) fn push_slot(out: &mut Vec<u8>, field: &Field, value: &[u8]) -> Result<(), AllocError>
    requires length { IsLengthOf RowFormat.Static field.now.kind field.now.length }
    requires fits { fits_field RowFormat.Static field.now.kind field.now.length value.now ≡ true }
    ensures { OnOk result
        (out.new.items ≡ out.old.items ++ slot_bytes field.now.kind field.now.length value.now) }
{
    if field.kind != FieldKind::Varchar {
        out.extend_from_slice(value)?;
        return Ok(());
    }
    let length = field.length as usize;
    let width = length_bytes(length);
    append_low_number(out, width, value.len() as u64)?;
    out.extend_from_slice(value)?;
    push_repeated(out, 0, length - (width + value.len()))
}

// Writes a field of a dynamic row, and tells whether its flag is set.
pub(crate) fn push_field(out: &mut Vec<u8>, field: &Field, value: &[u8]) -> Result<bool, AllocError>
    requires length { IsLengthOf RowFormat.Dynamic field.now.kind field.now.length }
    requires fits { fits_field RowFormat.Dynamic field.now.kind field.now.length value.now ≡ true }
    ensures flag { IfOk result (λ flag.
        flag ≡ field_flag field.now.kind field.now.length value.now) }
    ensures bytes { OnOk result
        (out.new.items ≡ out.old.items ++ field_bytes field.now.kind field.now.length value.now) }
{
    let length = field.length as usize;
    match field.kind {
        FieldKind::Normal => {}
        FieldKind::SkipEndspace => return push_skipped(out, length, value, without_blanks(value)),
        FieldKind::SkipPrespace => return push_skipped(out, length, value, trimmed_start(value)),
        FieldKind::SkipZero => {
            if is_zero(value) {
                return Ok(true);
            }
        }
        FieldKind::Blob => {
            if value.is_empty() {
                return Ok(true);
            }
            append_low_number(out, length - 8, value.len() as u64)?;
        }
        FieldKind::Varchar => push_varchar_length(out, length, value.len())?,
    }
    out.extend_from_slice(value)?;
    Ok(false)
}

// Writes the value of a SKIP_ENDSPACE or SKIP_PRESPACE field without its spaces, which is `content`,
// where that is shorter.
fn push_skipped(
    out: &mut Vec<u8>,
    field: usize,
    value: &[u8],
    content: &[u8],
) -> Result<bool, AllocError>
    ensures flag { IfOk result (λ flag. flag ≡ is_shorter field (length content.now)) }
    ensures bytes { OnOk result
        (out.new.items ≡ out.old.items ++ skipped_bytes field content.now value.now) }
{
    if !is_shorter(field, content.len()) {
        out.extend_from_slice(value)?;
        return Ok(false);
    }
    push_skip_length(out, field, content.len())?;
    out.extend_from_slice(content)?;
    Ok(true)
}

// How many bytes `push_skipped` writes of such a value.
fn skipped_len(field: usize, value: &[u8], content: &[u8]) -> usize
    requires { length value.now ≤ field }
    ensures value { result ≡ length (skipped_bytes field content.now value.now) }
    ensures few { result ≤ field }
{
    if is_shorter(field, content.len()) {
        skip_width(field, content.len()) + content.len()
    } else {
        value.len()
    }
}

// Whether so many bytes of content and their length are shorter than the field.
fn is_shorter(field: usize, len: usize) -> bool
    requires { len < 2 ^ 63 }
    ensures { result ≡ is_shorter field len }
{
    (field <= 255 || len < 32768) && skip_width(field, len) + len < field
}

// How many bytes the length of such a field takes.
fn skip_width(field: usize, len: usize) -> usize
    ensures value { result ≡ length (skip_length field len) }
    ensures few { result ≤ 2 }
{
    if field <= 255 || len < 128 { 1 } else { 2 }
}

fn push_skip_length(out: &mut Vec<u8>, field: usize, len: usize) -> Result<(), AllocError>
    requires { is_shorter field len ≡ true }
    ensures { OnOk result (out.new.items ≡ out.old.items ++ skip_length field len) }
{
    if skip_width(field, len) == 1 {
        out.push(len as u8)?;
        return Ok(());
    }
    out.push((len % 128 + 128) as u8)?;
    out.push((len / 128) as u8)?;
    Ok(())
}

#[tactic(auto, unfolding(myi_base::specs::Numbers::low_num_bytes))]
fn append_low_number(out: &mut Vec<u8>, width: usize, number: u64) -> Result<(), AllocError>
    requires some { 0 < width }
    requires narrow { width ≤ 8 }
    requires fits { number < 256 ^ width }
    ensures { OnOk result (out.new.items ≡ out.old.items ++ low_num_bytes width number) }
{
    let mut bytes = [0u8; 8];
    LittleEndian::write_uint(&mut bytes, number, width);
    out.extend_from_slice(&bytes[..width])?;
    Ok(())
}

fn push_varchar_length(out: &mut Vec<u8>, field: usize, len: usize) -> Result<(), AllocError>
    requires inside { len + length_bytes field ≤ field }
    requires short { len < 65536 }
    ensures { OnOk result (out.new.items ≡ out.old.items ++ varchar_length field len) }
{
    if field <= 256 || len < 255 {
        out.push(len as u8)?;
        return Ok(());
    }
    out.push(255)?;
    append_number(out, 2, len as u64)
}

// How many bytes the length of a VARCHAR field of `field` bytes takes in a dynamic row.
fn varchar_width(field: usize, len: usize) -> usize
    ensures value { result ≡ length (varchar_length field len) }
    ensures few { result ≤ 3 }
{
    if field <= 256 || len < 255 { 1 } else { 3 }
}

// How many bytes a BLOB of so many takes, whose length has `width` bytes.
fn blob_len(width: usize, len: usize) -> usize
    requires narrow { width ≤ 4 }
    requires short { len < 2 ^ 32 }
    ensures value { result ≡ (if len == 0 then 0 else width + len) }
    ensures few { result ≤ width + len }
{
    if len == 0 { 0 } else { width + len }
}

fn is_zero(value: &[u8]) -> bool
    ensures { result ≡ is_all 0 value.now }
{
    value.iter().all(|byte| *byte == 0)
}

fn trimmed_start(value: &[u8]) -> &[u8]
    ensures { result.now ≡ trimmed_start value.now }
{
    let mut rest = value;
    while let [b' ', back @ ..] = rest {
        rest = back;
    }
    rest
}
