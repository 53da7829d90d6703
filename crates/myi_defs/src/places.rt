//! The fields that hold a segment or a byte of the row.
//!
//! Fields stand one after the other in the row, so a search by halves finds the two at most at which a
//! place can be.
ghost use Rattle.std.specs.Prelude.{◌≡◌, ℕ, ◌+◌, ◌≤◌, ◌<◌, true, false, length};
ghost use Rattle.std.specs.Prelude.{is_some, slice_index_or, IfSome, IfNone};
ghost use Rattle.std.specs.List.{list_any, position_or_len};
ghost use Rattle.myi_defs.specs.declared.header.FieldItem.{FieldItem};
ghost use Rattle.myi_defs.specs.Conditions as spec;
ghost use Rattle.myi_defs.specs.Kinds as kinds;

use crate::header::{FieldItem, SegItem};
use crate::types::FieldKind;

/// The number of the first field that holds a segment.
pub(crate) fn holder(fields: &[FieldItem], segment: &SegItem) -> Option<usize>
    requires starts { spec.ItemsStartFrom 0 fields.now }
    requires some { list_any spec.is_empty fields.now ≡ false }
    ensures found { IfSome result (λ i. position_or_len (spec.is_held segment.now) fields.now ≡ i) }
    ensures inside { IfSome result (λ i. i < length fields.now) }
    ensures none { IfNone result
        (position_or_len (spec.is_held segment.now) fields.now ≡ length fields.now) }
    ensures any { is_some result ≡ list_any (spec.is_held segment.now) fields.now }
{
    let (from, to) = near(fields, segment.start);
    for i in from..to {
        if is_held(segment, &fields[i]) {
            return Some(i);
        }
    }
    None
}

/// Whether the byte at a place lies in a field whose bytes are stored as they are.
pub(crate) fn is_plain(fields: &[FieldItem], place: u32) -> bool
    requires starts { spec.ItemsStartFrom 0 fields.now }
    requires some { list_any spec.is_empty fields.now ≡ false }
    ensures { result ≡ list_any (λ f. spec.is_plain_as place f f.kind) fields.now }
{
    let (from, to) = near(fields, place);
    for i in from..to {
        if is_plain_at(place, &fields[i]) {
            return true;
        }
    }
    false
}

// The fields from the first number up to the second; those before end before the place, and those
// after start behind it.
fn near(fields: &[FieldItem], place: u32) -> (usize, usize)
    requires starts { spec.ItemsStartFrom 0 fields.now }
    requires some { list_any spec.is_empty fields.now ≡ false }
    ensures order { result.0 ≤ result.1 }
    ensures inside { result.1 ≤ length fields.now }
    ensures before { (k : ℕ) (d : FieldItem) → k < result.0
        → (slice_index_or fields.now k d).start + (slice_index_or fields.now k d).length < place }
    ensures after { (k : ℕ) (d : FieldItem) → result.1 ≤ k → k < length fields.now
        → place < (slice_index_or fields.now k d).start }
{
    let to = fields.partition_point(|field| field.start <= place);
    (to.saturating_sub(2), to)
}

fn is_held(segment: &SegItem, field: &FieldItem) -> bool
    ensures { result ≡ spec.is_held segment.now field.now }
{
    match (segment.seg, field.kind) {
        (Some(seg), Some(kind)) => {
            if seg.is_variable() {
                !is_fixed(kind) && field.start == segment.start
            } else {
                is_fixed(kind)
                    && field.start <= segment.start
                    && segment.start as u64 + segment.length as u64
                        <= field.start as u64 + field.length as u64
            }
        }
        _ => false,
    }
}

fn is_plain_at(place: u32, field: &FieldItem) -> bool
    ensures { result ≡ spec.is_plain_as place field.now field.now.kind }
{
    match field.kind {
        Some(FieldKind::Normal) => {
            field.start <= place && (place as u64) < field.start as u64 + field.length as u64
        }
        _ => false,
    }
}

fn is_fixed(kind: FieldKind) -> bool
    ensures { result ≡ kinds.is_fixed kind }
{
    match kind {
        FieldKind::Normal
        | FieldKind::SkipEndspace
        | FieldKind::SkipPrespace
        | FieldKind::SkipZero => true,
        FieldKind::Blob | FieldKind::Varchar => false,
    }
}
