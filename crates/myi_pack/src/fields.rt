//! One field in the bytes of a row.
//!
//! `cut_field` takes a field off the front of the bytes that are left, and answers what it shows, a
//! `FieldView`, and the bytes behind it. Each of the small functions above it does so for one form: so
//! many bytes, a length and so many bytes, a length of one of the three kinds.
ghost use Rattle.std.specs.Prelude.{◌≡◌, ℕ, ◌+◌, ◌-◌, ◌≤◌, ◌<◌, ◌^◌, length};
ghost use Rattle.std.specs.Option.{option_map};
ghost use Rattle.myi_defs.specs.Sound.{IsLengthOf};
ghost use Rattle.myi_pack.specs.Lengths.{length_bytes};
ghost use Rattle.myi_pack.specs.Flags.{flag_at, next_flag, flag_count};
ghost use Rattle.myi_pack.specs.Unpacking.{as_cut, as_prefix, cut, cut_prefixed, cut_few};
ghost use Rattle.myi_pack.specs.Unpacking.{skip_prefix, varchar_prefix, low_prefix, filled_varchar};
ghost use Rattle.myi_pack.specs.Unpacking.{value_before, packed_field, filled_field, field_of};
ghost use Rattle.myi_pack.specs.Views.{field_value};

use myi_base::{be, le};
use myi_defs::{Field, FieldKind, RowFormat};

/// What a field of a row shows, without a copy.
#[derive(Clone, Copy, Debug)]
pub enum FieldView<'a> {
    /// The value.
    Plain(&'a [u8]),
    /// The value up to the spaces at its end, which fill the field's length.
    Padded(&'a [u8]),
    /// The value behind the spaces at its beginning, which fill the field's length.
    Led(&'a [u8]),
    /// Zeros, as many as the field has bytes.
    Zeros,
}

pub(crate) fn cut(bytes: &[u8], len: usize) -> Option<(&[u8], &[u8])>
    ensures { as_cut result ≡ cut len bytes.now }
{
    if len <= bytes.len() {
        Some(bytes.split_at(len))
    } else {
        None
    }
}

fn cut_few(bytes: &[u8], len: usize, most: usize) -> Option<(&[u8], &[u8])>
    ensures { as_cut result ≡ cut_few most (Some (len, bytes.now)) }
{
    if len <= most { cut(bytes, len) } else { None }
}

// The length in front of the content of a SKIP_ENDSPACE or SKIP_PRESPACE field of `field` bytes.
fn skip_prefix(field: usize, bytes: &[u8]) -> Option<(usize, &[u8])>
    ensures { as_prefix result ≡ skip_prefix field bytes.now }
{
    match bytes {
        [] => None,
        [low, rest @ ..] => {
            let low = *low as usize;
            if field <= 255 || low < 128 {
                return Some((low, rest));
            }
            let (high, rest) = cut(rest, 1)?;
            Some((low - 128 + high[0] as usize * 128, rest))
        }
    }
}

// The length in front of the content of a VARCHAR field of `field` bytes in a dynamic row.
fn varchar_prefix(field: usize, bytes: &[u8]) -> Option<(usize, &[u8])>
    ensures { as_prefix result ≡ varchar_prefix field bytes.now }
{
    match bytes {
        [] => None,
        [first, rest @ ..] => {
            if field <= 256 || *first < 255 {
                return Some((*first as usize, rest));
            }
            let (number, rest) = cut(rest, 2)?;
            Some((be(number) as usize, rest))
        }
    }
}

// A length of `width` bytes, low byte first.
fn low_prefix(width: usize, bytes: &[u8]) -> Option<(usize, &[u8])>
    requires some { 0 < width }
    requires few { width ≤ 4 }
    ensures { as_prefix result ≡ low_prefix width bytes.now }
{
    let (number, rest) = cut(bytes, width)?;
    Some((le(number) as usize, rest))
}

// How many bytes of a VARCHAR field's length are those of its content's length.
pub(crate) fn length_bytes(field: usize) -> usize
    ensures { result ≡ length_bytes field }
{
    if field <= 256 { 1 } else { 2 }
}

// The value of a SKIP_ENDSPACE or SKIP_PRESPACE field whose flag is set, without its spaces.
fn cut_skipped(field: usize, bytes: &[u8]) -> Option<(&[u8], &[u8])>
    requires { 0 < field }
    ensures { as_cut result ≡ cut_few (field - 1) (skip_prefix field bytes.now) }
{
    let (len, rest) = skip_prefix(field, bytes)?;
    cut_few(rest, len, field - 1)
}

fn cut_varchar(field: usize, bytes: &[u8]) -> Option<(&[u8], &[u8])>
    requires { 2 ≤ field }
    ensures { as_cut result
        ≡ cut_few (field - length_bytes field) (varchar_prefix field bytes.now) }
{
    let (len, rest) = varchar_prefix(field, bytes)?;
    cut_few(rest, len, field - length_bytes(field))
}

fn cut_blob(width: usize, bytes: &[u8]) -> Option<(&[u8], &[u8])>
    requires some { 0 < width }
    requires few { width ≤ 4 }
    ensures { as_cut result ≡ cut_prefixed (low_prefix width bytes.now) }
{
    let (len, rest) = low_prefix(width, bytes)?;
    cut(rest, len)
}

// The content of a VARCHAR field of a static row, from the field's bytes.
fn filled_varchar(field: usize, bytes: &[u8]) -> Option<(&[u8], &[u8])>
    requires { 2 ≤ field }
    ensures { as_cut result ≡ filled_varchar field bytes.now }
{
    let width = length_bytes(field);
    let (len, rest) = low_prefix(width, bytes)?;
    cut_few(rest, len, field - width)
}

// A field of a dynamic row.
fn packed_field<'a>(field: &Field, bit: bool, bytes: &'a [u8]) -> Option<(FieldView<'a>, &'a [u8])>
    requires { IsLengthOf RowFormat.Dynamic field.now.kind field.now.length }
    ensures { option_map (λ r. (field_value field.now.length r.0, r.1.now)) result
        ≡ packed_field field.now.kind field.now.length bit bytes.now }
{
    let length = field.length as usize;
    let (value, rest) = match field.kind {
        FieldKind::SkipEndspace if bit => {
            let (content, rest) = cut_skipped(length, bytes)?;
            return Some((FieldView::Padded(content), rest));
        }
        FieldKind::SkipPrespace if bit => {
            let (content, rest) = cut_skipped(length, bytes)?;
            return Some((FieldView::Led(content), rest));
        }
        FieldKind::SkipZero if bit => return Some((FieldView::Zeros, bytes)),
        FieldKind::Blob if bit => bytes.split_at(0),
        FieldKind::Blob => cut_blob(length - 8, bytes)?,
        FieldKind::Varchar => cut_varchar(length, bytes)?,
        _ => cut(bytes, length)?,
    };
    Some((FieldView::Plain(value), rest))
}

// A field of a static row.
pub(crate) fn filled_field<'a>(field: &Field, bytes: &'a [u8]) -> Option<(&'a [u8], &'a [u8])>
    requires { IsLengthOf RowFormat.Static field.now.kind field.now.length }
    ensures { as_cut result ≡ filled_field field.now.kind field.now.length bytes.now }
{
    let length = field.length as usize;
    match field.kind {
        FieldKind::Blob => None,
        FieldKind::Varchar => {
            let (all, rest) = cut(bytes, length)?;
            let (content, _) = filled_varchar(length, all)?;
            Some((content, rest))
        }
        _ => cut(bytes, length),
    }
}

/// The field in front: what it shows, and the bytes behind it. The flag counts where the field has one.
#[tactic(auto, unfolding(crate::specs::Unpacking::field_of))]
pub(crate) fn cut_field<'a>(
    format: RowFormat,
    field: &Field,
    bit: bool,
    bytes: &'a [u8],
) -> Option<(FieldView<'a>, &'a [u8])>
    requires { IsLengthOf format field.now.kind field.now.length }
    ensures { option_map (λ r. (field_value field.now.length r.0, r.1.now)) result
        ≡ field_of format field.now bit bytes.now }
{
    match format {
        RowFormat::Static => {
            let (value, rest) = filled_field(field, bytes)?;
            Some((FieldView::Plain(value), rest))
        }
        RowFormat::Dynamic => packed_field(field, bit, bytes),
    }
}

pub(crate) fn flag_count(fields: &[Field]) -> usize
    ensures value { result ≡ flag_count fields.now }
    ensures few { result ≤ length fields.now }
{
    fields.iter().filter(|field| field.kind.has_flag()).count()
}

#[tactic(auto, unfolding(crate::specs::Flags::flag_at))]
pub(crate) fn flag_at(flags: &[u8], k: usize) -> bool
    ensures { result ≡ flag_at flags.now k }
{
    k / 8 < flags.len() && (flags[k / 8] >> (k % 8)) % 2 == 1
}

// The number of the next field's flag, where flag `k` is this field's if it has one.
pub(crate) fn next_flag(kind: FieldKind, k: usize) -> usize
    requires { k < 2 ^ 32 }
    ensures value { result ≡ next_flag kind k }
    ensures few { result ≤ k + 1 }
{
    if kind.has_flag() { k + 1 } else { k }
}
