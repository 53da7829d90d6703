//! The key of a row, read from the row's slices.
//!
//! `key_code_into` goes over the segments of a key: `is_absent` asks the row's null bits, and
//! `append_value` weighs the segment's part of a field. Both find fields by their numbers, `byte_at` that
//! of a place. The code stands in a buffer that may live as long as a scan; `key_of` makes a key of it.
ghost use Rattle.std.specs.Prelude.{◌≡◌, ◌≢◌, ℕ, ◌-◌, ◌<◌, ◌≤◌, true, [], length, slice_index};
ghost use Rattle.std.specs.Prelude.{HoldsAt, All, Some, IfOk, OnOk, IsTrue, nat_le};
ghost use Rattle.myi_defs.specs.Kinds.{is_plain_at};
ghost use Rattle.myi_defs.specs.Sound.{IsSound, IsSoundSegment, StartFrom};
ghost use Rattle.myi_pack.specs.Spelling.{fits};
ghost use Rattle.myi_pack.specs.Views.{field_value};
ghost use Rattle.myi_keys.specs.Limits.{IsSeg, IsKey};
ghost use Rattle.myi_keys.specs.Codes.{key_code, Gains};
ghost use Rattle.myi_keys.specs.Weights.{weights, CanWeigh};
ghost use Rattle.myi_keys.specs.declared.values.KeySeg.TheVariants.{Weights};
ghost use Rattle.myi_data.specs.Keys.{AreValues, IsPlainPlace, LiesIn, byte_at, is_absent, part_of};
ghost use Rattle.myi_data.specs.Keys.{start_of, content, seg_of, IsKeyNumber, key_of};

use myi_defs::{Defs, Field, Segment};
use myi_keys::{KeyVal, append_absent, append_weighed};
use myi_pack::{FieldPlaces, FieldView, NumberedFields, RowView, value_into};
use std::alloc::{AllocError, Global};

/// The key of the row for the key of that number, from 1. The view was made with these definitions.
pub fn key_of(
    alloc: Global,
    defs: &Defs,
    key: usize,
    view: &RowView<'_>,
) -> Result<KeyVal, AllocError>
    requires sound { IsSound defs.now }
    requires key { IsKeyNumber defs.now key }
    requires row { fits defs.now view.now ≡ true }
    ensures { IfOk result (λ k. k ≡ key_of defs.now key view.now) }
{
    let mut code = Vec::new(alloc);
    let mut scratch = Vec::new(alloc);
    let mut row = view.numbered(FieldPlaces::new(alloc));
    key_code_into(&mut code, &mut scratch, defs, key, &mut row)?;
    Ok(KeyVal::of_code(code))
}

/// Writes the code of the row's key for the key of that number, from 1, in place of what the buffer
/// held. The second buffer is for one value at a time. The row is that of a view that was made with these
/// definitions; its fields may serve for all keys.
pub fn key_code_into(
    code: &mut Vec<u8>,
    scratch: &mut Vec<u8>,
    defs: &Defs,
    key: usize,
    row: &mut NumberedFields<'_>,
) -> Result<(), AllocError>
    requires sound { IsSound defs.now }
    requires key { IsKeyNumber defs.now key }
    requires row { fits defs.now row.old ≡ true }
    ensures same { OnOk result (row.new ≡ row.old) }
    ensures written { OnOk result (code.new.items ≡ key_code (key_of defs.now key row.old)) }
    ensures key { IsKey (key_of defs.now key row.old) }
{
    let fields = defs.fields.as_slice();
    let segments = defs.keys.as_slice()[key - 1].segments.as_slice();
    code.clear();
    for segment in segments {
        append_seg(code, scratch, fields, segment, row)?;
    }
    Ok(())
}

// Appends the code of the row's segment.
fn append_seg(
    code: &mut Vec<u8>,
    scratch: &mut Vec<u8>,
    fields: &[Field],
    segment: &Segment,
    row: &mut NumberedFields<'_>,
) -> Result<(), AllocError>
    requires sound { IsSoundSegment fields.now segment.now }
    requires starts { StartFrom 0 fields.now }
    requires row { AreValues fields.now row.old }
    requires short { IsSeg (seg_of fields.now row.old segment.now) }
    ensures same { OnOk result (row.new ≡ row.old) }
    ensures segment { OnOk result
        (Gains code.old.items code.new.items (seg_of fields.now row.old segment.now)) }
{
    if is_absent(fields, segment, row)? {
        return append_absent(code);
    }
    append_value(code, scratch, fields, segment, row)
}

// Appends the code of the segment's content in the row.
fn append_value(
    code: &mut Vec<u8>,
    scratch: &mut Vec<u8>,
    fields: &[Field],
    segment: &Segment,
    row: &mut NumberedFields<'_>,
) -> Result<(), AllocError>
    requires sound { IsSoundSegment fields.now segment.now }
    requires row { AreValues fields.now row.old }
    requires short { IsSeg
        (Weights (weights segment.now (content fields.now row.old segment.now))) }
    ensures same { OnOk result (row.new ≡ row.old) }
    ensures weights { OnOk result
        (Gains code.old.items code.new.items
        (Weights (weights segment.now (content fields.now row.old segment.now)))) }
{
    let start = start_of(fields, segment.field as usize);
    let (length, shown) = row.field(segment.field as usize)?;
    if let FieldView::Plain(value) = shown {
        return append_weighed(code, segment, part_of(segment, start, value));
    }
    value_into(scratch, length as usize, shown)?;
    append_weighed(code, segment, part_of(segment, start, scratch))
}

// Whether the row has no value in the segment.
fn is_absent(
    fields: &[Field],
    segment: &Segment,
    row: &mut NumberedFields<'_>,
) -> Result<bool, AllocError>
    requires sound { IsSoundSegment fields.now segment.now }
    requires starts { StartFrom 0 fields.now }
    requires row { AreValues fields.now row.old }
    ensures same { OnOk result (row.new ≡ row.old) }
    ensures absent { IfOk result (λ absent. absent ≡ is_absent fields.now row.old segment.now) }
{
    if segment.null_bit == 0 {
        return Ok(false);
    }
    let byte = byte_at(fields, row, segment.null_pos)?;
    Ok(byte & segment.null_bit != 0)
}

// The byte at a place of the unpacked row.
fn byte_at(fields: &[Field], row: &mut NumberedFields<'_>, place: u32) -> Result<u8, AllocError>
    requires starts { StartFrom 0 fields.now }
    requires plain { IsPlainPlace fields.now place }
    requires row { AreValues fields.now row.old }
    ensures same { OnOk result (row.new ≡ row.old) }
    ensures byte { IfOk result (λ byte. byte ≡ byte_at fields.now row.old place) }
{
    let i = field_at(fields, place);
    let (length, shown) = row.field(i)?;
    let inside = place - start_of(fields, i);
    Ok(byte_in(length as usize, shown, inside as usize))
}

// The number of the field that has a place of the unpacked row, from 0.
fn field_at(fields: &[Field], place: u32) -> usize
    requires starts { StartFrom 0 fields.now }
    requires plain { IsPlainPlace fields.now place }
    ensures inside { result < length fields.now }
    ensures plain { HoldsAt (λ f. is_plain_at place f.kind f.start f.length ≡ true)
        fields.now result }
{
    fields.partition_point(|field| field.start <= place) - 1
}

// The byte at a place of the value that a view shows of a field of so many bytes.
fn byte_in(field: usize, view: FieldView<'_>, i: usize) -> u8
    requires field { field < 65536 }
    requires inside { i < length (field_value field view) }
    ensures { result ≡ slice_index (field_value field view.entry) i }
{
    match view {
        FieldView::Plain(value) => value[i],
        FieldView::Padded(content) => if i < content.len() { content[i] } else { b' ' },
        FieldView::Led(content) => {
            let blanks = field.saturating_sub(content.len());
            if i < blanks {
                b' '
            } else {
                content[i - blanks]
            }
        }
        FieldView::Zeros => 0,
    }
}

fn start_of(fields: &[Field], i: usize) -> u32
    requires { i < length fields.now }
    ensures { result ≡ start_of fields.now i }
{
    fields[i].start
}

// What of a field's value is the segment's.
fn part_of<'a>(segment: &Segment, start: u32, value: &'a [u8]) -> &'a [u8]
    requires { LiesIn segment.now start (length value.now) }
    ensures { result.now ≡ part_of segment.now start value.now }
{
    if segment.seg.is_variable() {
        return value;
    }
    let from = (segment.start - start) as usize;
    &value[from..from + segment.length as usize]
}
