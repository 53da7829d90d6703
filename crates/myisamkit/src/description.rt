//! The lines that describe a table: one on its rows, and one on each key.
ghost use Rattle.std.specs.Prelude.{◌≡◌, ◌++◌, ◌≤◌, ℕ, length, string_bytes, codes, IfOk};
ghost use Rattle.std.specs.List.{flat_map};
ghost use Rattle.myisamkit.specs.Descriptions as spec;

use myi_defs::{Defs, Key, RowFormat, SegType, Segment};
use std::alloc::{AllocError, Global};

/// All lines on a table.
pub(crate) fn description(alloc: Global, name: &str, defs: &Defs) -> Result<String, AllocError>
    ensures { IfOk result (λ text. string_bytes text ≡ spec.description name.now defs.now) }
{
    let mut text = rows_line(alloc, name, defs)?;
    push_keys(&mut text, name, defs.keys.as_slice())?;
    Ok(text)
}

fn rows_line(alloc: Global, name: &str, defs: &Defs) -> Result<String, AllocError>
    ensures { IfOk result (λ line. string_bytes line ≡ spec.rows_line name.now defs.now) }
{
    let format = format_word(defs.format);
    let fields = defs.fields.as_slice().len();
    let keys = defs.keys.as_slice().len();
    let length = defs.row_length;
    format!(in alloc; "{name}: {format}, {fields} fields, {keys} keys, row {length} bytes\n")
}

fn push_keys(text: &mut String, name: &str, keys: &[Key]) -> Result<(), AllocError>
    ensures { IfOk result (λ _. string_bytes text.new
        ≡ string_bytes text.old ++ spec.key_lines name.now 1 keys.now) }
{
    for (index, key) in keys.iter().enumerate() {
        push_key(text, name, index + 1, key)?;
    }
    Ok(())
}

fn push_key(text: &mut String, name: &str, number: usize, key: &Key) -> Result<(), AllocError>
    ensures { IfOk result (λ _. string_bytes text.new
        ≡ string_bytes text.old ++ spec.key_line name.now number key.now) }
{
    let unique = unique_word(key.unique);
    write!(text, "{name}: key {number} {unique}")?;
    push_segments(text, key.segments.as_slice())?;
    text.push('\n')
}

fn push_segments(text: &mut String, segments: &[Segment]) -> Result<(), AllocError>
    ensures { IfOk result (λ _. string_bytes text.new
        ≡ string_bytes text.old ++ flat_map spec.segment_text segments.now) }
{
    for segment in segments {
        push_segment(text, segment)?;
    }
    Ok(())
}

fn push_segment(text: &mut String, segment: &Segment) -> Result<(), AllocError>
    ensures { IfOk result (λ _. string_bytes text.new
        ≡ string_bytes text.old ++ spec.segment_text segment.now) }
{
    let word = type_word(segment.seg);
    let start = segment.start;
    let length = segment.length;
    write!(text, ", {word} at {start} length {length}")
}

fn format_word(format: RowFormat) -> &'static str
    ensures { result.now ≡ spec.format_word format }
{
    match format {
        RowFormat::Static => "static",
        RowFormat::Dynamic => "dynamic",
    }
}

fn unique_word(unique: bool) -> &'static str
    ensures { result.now ≡ spec.unique_word unique }
{
    if unique { "unique" } else { "plain" }
}

fn type_word(seg: SegType) -> &'static str
    ensures { result.now ≡ spec.type_word seg }
{
    match seg {
        SegType::Text => "text",
        SegType::Binary => "binary",
        SegType::ShortInt => "short_int",
        SegType::LongInt => "long_int",
        SegType::UshortInt => "ushort_int",
        SegType::UlongInt => "ulong_int",
        SegType::Longlong => "longlong",
        SegType::Ulonglong => "ulonglong",
        SegType::Int24 => "int24",
        SegType::Uint24 => "uint24",
        SegType::Int8 => "int8",
        SegType::VarText => "vartext",
        SegType::VarBinary => "varbinary",
    }
}
