//! The header that a creating text stands for.
//!
//! `text_header` prints it from the lines, section by section: the first 24 bytes, the state of a table without
//! rows, the base section, the mark, the keys and the fields.
ghost use Rattle.std.specs.Prelude.{◌≡◌, ◌≤◌, ◌+◌, ◌*◌, ◌/◌, ◌%◌, ◌^◌, ◌++◌, ◌∷◌};
ghost use Rattle.std.specs.Prelude.{[], length, sum_by, count_by, flat_map, OnOk, IfOk};
ghost use Rattle.myi_base.specs.Items.{spelling};
ghost use Rattle.myi_deftext.specs.TextHeader as spec;

use crate::text::Line;
use myi_base::{append_u8, append_u16, append_u32, append_u64};
use myi_defs::{
    BASE_LENGTH, FieldKind, Front, MARK, RowFormat, STATE_LENGTH, SegItem, SegType, append_state,
    append_zeros, base_place, first_page_behind, seg_cost,
};
use std::alloc::{AllocError, Global};

const MAGIC: u32 = 0xFEFE_0701;

/// The header, with zeros up to the place of the first index page.
#[tactic(auto, unfolding(crate::specs::TextHeader::text_header))]
pub(crate) fn text_header(alloc: Global, lines: &[Line]) -> Result<Vec<u8>, AllocError>
    requires { length lines.now ≤ 65535 }
    ensures { IfOk result (λ bytes. bytes.items ≡ spec.text_header lines.now) }
{
    let pointer = pointer_said(lines);
    let length = length_said(lines) as usize;
    let end = first_page_behind(length);
    let front = front_said(lines);
    let mut out = Vec::with_capacity(alloc, end)?;
    append_front(&mut out, &front)?;
    append_state(&mut out, &front, end as u64)?;
    append_base(&mut out, lines, end as u64)?;
    out.extend_from_slice(&MARK)?;
    append_keys(&mut out, pointer, lines)?;
    append_fields(&mut out, lines)?;
    append_zeros(&mut out, end - length)?;
    Ok(out)
}

fn format_said(lines: &[Line]) -> RowFormat
    ensures { result ≡ spec.format_said lines.now }
{
    for line in lines {
        if let Line::Rows(format) = line {
            return *format;
        }
    }
    RowFormat::Static
}

fn pointer_said(lines: &[Line]) -> u8
    ensures { result ≡ spec.pointer_said lines.now }
{
    for line in lines {
        if let Line::Pointer(bytes) = line {
            return *bytes;
        }
    }
    6
}

fn is_field(line: &Line) -> bool
    ensures { result ≡ spec.is_field line.now }
{
    match line {
        Line::Field(_, _) => true,
        _ => false,
    }
}

fn is_key(line: &Line) -> bool
    ensures { result ≡ spec.is_key line.now }
{
    match line {
        Line::Key(_) => true,
        _ => false,
    }
}

fn is_segment(line: &Line) -> bool
    ensures { result ≡ spec.is_segment line.now }
{
    match line {
        Line::Seg(_) => true,
        _ => false,
    }
}

fn has_flag(line: &Line) -> bool
    ensures { result ≡ spec.has_flag line.now }
{
    match line {
        Line::Field(kind, _) => kind.has_flag(),
        _ => false,
    }
}

fn field_length(line: &Line) -> u16
    ensures { result ≡ spec.field_length line.now }
{
    match line {
        Line::Field(_, length) => *length,
        _ => 0,
    }
}

fn keys_said(lines: &[Line]) -> u32
    requires { length lines.now ≤ 65535 }
    ensures value { result ≡ spec.keys_said lines.now }
    ensures few { result ≤ 65535 }
{
    lines.iter().filter(|line| is_key(line)).count() as u32
}

fn parts_said(lines: &[Line]) -> u32
    requires { length lines.now ≤ 65535 }
    ensures value { result ≡ spec.parts_said lines.now }
    ensures few { result ≤ 65535 }
{
    lines.iter().filter(|line| is_segment(line)).count() as u32
}

fn fields_said(lines: &[Line]) -> u32
    requires { length lines.now ≤ 65535 }
    ensures value { result ≡ spec.fields_said lines.now }
    ensures few { result ≤ 65535 }
{
    lines.iter().filter(|line| is_field(line)).count() as u32
}

// How many bytes the flags of a packed row take.
fn flag_bytes(lines: &[Line]) -> u16
    requires { length lines.now ≤ 65535 }
    ensures { result ≡ (count_by spec.has_flag lines.now + 7) / 8 }
{
    lines
        .iter()
        .filter(|line| has_flag(line))
        .count()
        .div_ceil(8) as u16
}

fn row_said(lines: &[Line]) -> u32
    requires { length lines.now ≤ 65535 }
    ensures { result ≡ spec.row_said lines.now }
{
    let mut row = 0;
    for line in lines {
        row += field_length(line) as u32;
    }
    row
}

// How many bytes the key has at most whose segments these lines begin with, and how many segments.
fn key_said(lines: &[Line]) -> (u64, u32)
    requires { length lines.now ≤ 65535 }
    ensures most { result.0 ≡ spec.key_most (spec.leading lines.now) }
    ensures count { result.1 ≡ length (spec.leading lines.now) }
    ensures short { result.0 ≤ 4295032830 }
{
    let mut most = 0;
    let mut count = 0;
    for line in lines {
        let Line::Seg(segment) = line else {
            return (most, count);
        };
        most += seg_cost(segment.length) as u64;
        count += 1;
    }
    (most, count)
}

fn page_length(pointer: u8, most: u64) -> u64
    requires { most ≤ 4295032830 }
    ensures value { result ≡ spec.page_length pointer most }
{
    (4 * (most + 13 + pointer as u64) + 9).div_ceil(1024) * 1024
}

fn longest_page(pointer: u8, lines: &[Line]) -> u64
    requires { length lines.now ≤ 65535 }
    ensures { result ≡ spec.longest_page pointer lines.now }
{
    let mut longest = 0u64;
    for i in 0..lines.len() {
        if let Line::Key(_) = lines[i] {
            let (most, _) = key_said(&lines[i + 1..]);
            longest = longest.max(page_length(pointer, most));
        }
    }
    longest
}

fn page_sizes(lines: &[Line]) -> u8
    requires { length lines.now ≤ 65535 }
    ensures { result ≡ spec.page_sizes lines.now }
{
    (longest_page(pointer_said(lines), lines) / 1024).min(255) as u8
}

fn base_said(lines: &[Line]) -> u32
    requires { length lines.now ≤ 65535 }
    ensures value { result ≡ spec.base_said lines.now }
    ensures few { result ≤ 790000 }
{
    base_place(
        keys_said(lines),
        page_sizes(lines) as u32,
        parts_said(lines),
    )
}

fn length_said(lines: &[Line]) -> u32
    requires { length lines.now ≤ 65535 }
    ensures value { result ≡ spec.length_said lines.now }
    ensures few { result ≤ 2 ^ 24 }
{
    base_said(lines) + 100 + 12 * keys_said(lines) + 18 * parts_said(lines) + 7 * fields_said(lines)
}

#[tactic(auto, unfolding(crate::specs::TextHeader::front_said))]
fn front_said(lines: &[Line]) -> Front
    requires { length lines.now ≤ 65535 }
    ensures { result ≡ spec.front_said lines.now }
{
    let options = match format_said(lines) {
        RowFormat::Static => 0,
        RowFormat::Dynamic => 1,
    };
    Front {
        magic: MAGIC,
        options,
        header_length: length_said(lines).min(65535) as u16,
        state_info_length: STATE_LENGTH,
        base_info_length: BASE_LENGTH as u16,
        base_pos: base_said(lines).min(65535) as u16,
        key_parts: parts_said(lines).min(65535) as u16,
        keys: keys_said(lines).min(255) as u8,
        uniques: 0,
        page_sizes: page_sizes(lines),
        fulltext_keys: 0,
    }
}

#[tactic(auto, unfolding(crate::specs::TextHeader::front_spelling))]
fn append_front(out: &mut Vec<u8>, front: &Front) -> Result<(), AllocError>
    ensures { OnOk result (out.new.items ≡ out.old.items ++ spec.front_spelling front.now) }
{
    append_first(out, front)?;
    append_counts(out, front)?;
    Ok(())
}

fn append_first(out: &mut Vec<u8>, front: &Front) -> Result<(), AllocError>
    ensures { OnOk result (spec.AddsNumbers (4 ∷ 2 ∷ 2 ∷ 2 ∷ 2 ∷ 2 ∷ 2 ∷ 2 ∷ [])
        (front.now.magic ∷ front.now.options ∷ front.now.header_length
        ∷ front.now.state_info_length ∷ front.now.base_info_length ∷ front.now.base_pos
        ∷ front.now.key_parts ∷ 0 ∷ [])
        out.new.items out.old.items) }
{
    append_u32(out, front.magic)?;
    append_u16(out, front.options)?;
    append_u16(out, front.header_length)?;
    append_u16(out, front.state_info_length)?;
    append_u16(out, front.base_info_length)?;
    append_u16(out, front.base_pos)?;
    append_u16(out, front.key_parts)?;
    append_u16(out, 0)?;
    Ok(())
}

fn append_counts(out: &mut Vec<u8>, front: &Front) -> Result<(), AllocError>
    ensures { OnOk result (spec.AddsNumbers (1 ∷ 1 ∷ 1 ∷ 1 ∷ 1 ∷ 1 ∷ [])
        (front.now.keys ∷ front.now.uniques ∷ 8 ∷ front.now.page_sizes ∷ front.now.fulltext_keys
        ∷ 0 ∷ [])
        out.new.items out.old.items) }
{
    append_u8(out, front.keys)?;
    append_u8(out, front.uniques)?;
    append_u8(out, 8)?;
    append_u8(out, front.page_sizes)?;
    append_u8(out, front.fulltext_keys)?;
    append_u8(out, 0)?;
    Ok(())
}

fn append_fields(out: &mut Vec<u8>, lines: &[Line]) -> Result<(), AllocError>
    ensures { OnOk result (out.new.items ≡ out.old.items ++ flat_map spec.field_bytes lines.now) }
{
    for line in lines {
        append_field(out, line)?;
    }
    Ok(())
}

fn append_field(out: &mut Vec<u8>, line: &Line) -> Result<(), AllocError>
    ensures { OnOk result (out.new.items ≡ out.old.items ++ spec.field_bytes line.now) }
{
    if let Line::Field(kind, length) = line {
        append_u16(out, kind_number(*kind))?;
        append_u16(out, *length)?;
        append_u8(out, 0)?;
        append_u16(out, 0)?;
    }
    Ok(())
}

fn kind_number(kind: FieldKind) -> u16
    ensures { result ≡ spec.kind_number kind }
{
    match kind {
        FieldKind::Normal => 0,
        FieldKind::SkipEndspace => 1,
        FieldKind::SkipPrespace => 2,
        FieldKind::SkipZero => 3,
        FieldKind::Blob => 4,
        FieldKind::Varchar => 8,
    }
}

fn append_keys(out: &mut Vec<u8>, pointer: u8, lines: &[Line]) -> Result<(), AllocError>
    requires { length lines.now ≤ 65535 }
    ensures { OnOk result (out.new.items ≡ out.old.items ++ spec.keys_bytes pointer lines.now) }
{
    for i in 0..lines.len() {
        match lines[i] {
            Line::Key(unique) => append_key(out, pointer, unique, &lines[i + 1..])?,
            Line::Seg(segment) => append_segment(out, &segment)?,
            _ => {}
        }
    }
    Ok(())
}

#[tactic(auto, unfolding(crate::specs::TextHeader::key_bytes))]
fn append_key(
    out: &mut Vec<u8>,
    pointer: u8,
    unique: bool,
    behind: &[Line],
) -> Result<(), AllocError>
    requires { length behind.now ≤ 65535 }
    ensures { OnOk result
        (out.new.items ≡ out.old.items ++ spec.key_bytes pointer unique (spec.leading behind.now)) }
{
    let (most, count) = key_said(behind);
    let length = stored(page_length(pointer, most));
    let most = stored(most);
    append_u8(out, count.min(255) as u8)?;
    append_u8(out, 0)?;
    append_u16(out, unique as u16)?;
    append_u16(out, length)?;
    append_u16(out, most)?;
    append_u16(out, most)?;
    append_u16(out, most)?;
    Ok(())
}

// A number of two bytes as it is stored.
fn stored(number: u64) -> u16
    ensures { result ≡ spec.stored 2 number }
{
    number.min(65535) as u16
}

#[tactic(auto, unfolding(crate::specs::TextHeader::seg_bytes))]
fn append_segment(out: &mut Vec<u8>, segment: &SegItem) -> Result<(), AllocError>
    ensures { OnOk result (out.new.items ≡ out.old.items ++ spec.seg_bytes segment.now) }
{
    let Some(seg) = segment.seg else {
        return Ok(());
    };
    append_type(out, seg, segment)?;
    append_place(out, segment)?;
    Ok(())
}

fn append_type(out: &mut Vec<u8>, seg: SegType, segment: &SegItem) -> Result<(), AllocError>
    ensures { OnOk result (spec.AddsNumbers (1 ∷ 1 ∷ 1 ∷ 1 ∷ 1 ∷ 1 ∷ [])
        (spec.seg_number seg ∷ segment.now.language % 256 ∷ segment.now.null_bit ∷ 0
        ∷ segment.now.language / 256 ∷ 0 ∷ [])
        out.new.items out.old.items) }
{
    append_u8(out, seg_number(seg))?;
    append_u8(out, (segment.language % 256) as u8)?;
    append_u8(out, segment.null_bit)?;
    append_u8(out, 0)?;
    append_u8(out, (segment.language / 256) as u8)?;
    append_u8(out, 0)?;
    Ok(())
}

fn append_place(out: &mut Vec<u8>, segment: &SegItem) -> Result<(), AllocError>
    ensures { OnOk result (spec.AddsNumbers (2 ∷ 2 ∷ 4 ∷ 4 ∷ [])
        (0 ∷ segment.now.length ∷ segment.now.start ∷ segment.now.null_pos ∷ [])
        out.new.items out.old.items) }
{
    append_u16(out, 0)?;
    append_u16(out, segment.length)?;
    append_u32(out, segment.start)?;
    append_u32(out, segment.null_pos)?;
    Ok(())
}

fn seg_number(seg: SegType) -> u8
    ensures { result ≡ spec.seg_number seg }
{
    match seg {
        SegType::Text => 1,
        SegType::Binary => 2,
        SegType::ShortInt => 3,
        SegType::LongInt => 4,
        SegType::UshortInt => 8,
        SegType::UlongInt => 9,
        SegType::Longlong => 10,
        SegType::Ulonglong => 11,
        SegType::Int24 => 12,
        SegType::Uint24 => 13,
        SegType::Int8 => 14,
        SegType::VarText => 15,
        SegType::VarBinary => 16,
    }
}

#[tactic(auto, unfolding(crate::specs::TextHeader::base_spelling))]
fn append_base(out: &mut Vec<u8>, lines: &[Line], end: u64) -> Result<(), AllocError>
    requires { length lines.now ≤ 65535 }
    ensures { OnOk result (out.new.items ≡ out.old.items ++ spec.base_spelling lines.now end) }
{
    let row = row_said(lines);
    append_places(out, end)?;
    append_lengths(out, row, slot_of(lines, row))?;
    append_numbers(
        out,
        fields_said(lines),
        pointer_said(lines),
        keys_said(lines).min(255) as u8,
    )?;
    append_rest(out, flag_bytes(lines))?;
    Ok(())
}

fn slot_of(lines: &[Line], row: u32) -> u32
    ensures { result ≡ spec.slot_as (spec.format_said lines.now) row (spec.pointer_said lines.now) }
{
    match format_said(lines) {
        RowFormat::Static => row.max(pointer_said(lines) as u32 + 1),
        RowFormat::Dynamic => row,
    }
}

fn append_places(out: &mut Vec<u8>, end: u64) -> Result<(), AllocError>
    ensures { OnOk result (spec.AddsNumbers (8 ∷ 8 ∷ 8 ∷ 8 ∷ 8 ∷ [])
        (end ∷ 0 ∷ 0 ∷ 0 ∷ 0 ∷ []) out.new.items out.old.items) }
{
    append_u64(out, end)?;
    append_u64(out, 0)?;
    append_u64(out, 0)?;
    append_u64(out, 0)?;
    append_u64(out, 0)?;
    Ok(())
}

fn append_lengths(out: &mut Vec<u8>, row: u32, slot: u32) -> Result<(), AllocError>
    ensures { OnOk result (spec.AddsNumbers (4 ∷ 4 ∷ 4 ∷ 4 ∷ 4 ∷ 4 ∷ [])
        (0 ∷ row ∷ slot ∷ 0 ∷ 0 ∷ 0 ∷ []) out.new.items out.old.items) }
{
    append_u32(out, 0)?;
    append_u32(out, row)?;
    append_u32(out, slot)?;
    append_u32(out, 0)?;
    append_u32(out, 0)?;
    append_u32(out, 0)?;
    Ok(())
}

fn append_numbers(out: &mut Vec<u8>, fields: u32, pointer: u8, keys: u8) -> Result<(), AllocError>
    ensures { OnOk result (spec.AddsNumbers (4 ∷ 4 ∷ 1 ∷ 1 ∷ 1 ∷ 1 ∷ [])
        (fields ∷ 0 ∷ pointer ∷ 6 ∷ keys ∷ 0 ∷ []) out.new.items out.old.items) }
{
    append_u32(out, fields)?;
    append_u32(out, 0)?;
    append_u8(out, pointer)?;
    append_u8(out, 6)?;
    append_u8(out, keys)?;
    append_u8(out, 0)?;
    Ok(())
}

fn append_rest(out: &mut Vec<u8>, pack_bits: u16) -> Result<(), AllocError>
    ensures { OnOk result (spec.AddsNumbers (2 ∷ 2 ∷ 2 ∷ 2 ∷ 2 ∷ 1 ∷ 1 ∷ 2 ∷ 4 ∷ [])
        (pack_bits ∷ 0 ∷ 0 ∷ 0 ∷ 0 ∷ 0 ∷ 0 ∷ 0 ∷ 0 ∷ []) out.new.items out.old.items) }
{
    append_u16(out, pack_bits)?;
    append_u16(out, 0)?;
    append_u16(out, 0)?;
    append_u16(out, 0)?;
    append_u16(out, 0)?;
    append_u8(out, 0)?;
    append_u8(out, 0)?;
    append_u16(out, 0)?;
    append_u32(out, 0)?;
    Ok(())
}
