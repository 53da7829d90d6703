//! The lines that a run prints.
ghost use Rattle.std.specs.Prelude.{◌≡◌, ◌++◌, string_bytes, IfOk};
ghost use Rattle.std.specs.List.{flat_map};
ghost use Rattle.myi_opening.specs.Names.{file_of};
ghost use Rattle.myisamkit.specs.Lines as spec;

use myi_defs::DefFault;
use myi_make::Made;
use myi_opening::TableFile;
use myi_order::KeyParts;
use myi_pair::{Finding, HeaderItem};
use myi_repair::Report;
use std::alloc::{AllocError, Global};

pub(crate) fn usage_line() -> &'static str
    ensures { result.now ≡ spec.usage_line }
{
    "usage: kit chk|create|shell|dump|make\n"
}

pub(crate) fn absent_line(alloc: Global, name: &str, file: TableFile) -> Result<String, AllocError>
    ensures { IfOk result (λ line.
        string_bytes line ≡ spec.absent_line (file_of file name.now)) }
{
    let file = file.of(alloc, name)?;
    no_file_line(alloc, file.as_str())
}

pub(crate) fn refused_line(alloc: Global, name: &str, reason: &str) -> Result<String, AllocError>
    ensures { IfOk result (λ line. string_bytes line ≡ spec.refused_line name.now reason.now) }
{
    format!(in alloc; "{name}: refused: {reason}\n")
}

/// The number and the name of a refusal.
pub(crate) fn reason_of(fault: DefFault) -> &'static str
    ensures { result.now ≡ spec.reason_of fault }
{
    match fault {
        DefFault::Short => "1 Short",
        DefFault::Magic => "2 Magic",
        DefFault::Lengths => "3 Lengths",
        DefFault::Packed => "4 Packed",
        DefFault::Checksum => "5 Checksum",
        DefFault::Fulltext => "6 Fulltext",
        DefFault::Spatial => "7 Spatial",
        DefFault::Uniques => "8 Uniques",
        DefFault::FieldType => "9 FieldType",
        DefFault::SegType => "10 SegType",
        DefFault::SegPlace => "11 SegPlace",
        DefFault::Collation => "12 Collation",
        DefFault::BlockLength => "13 BlockLength",
        DefFault::PointerSize => "14 PointerSize",
        DefFault::KeyTooLong => "16 KeyTooLong",
        DefFault::Memory => "17 Memory",
    }
}

pub(crate) fn recovered_line(
    alloc: Global,
    name: &str,
    report: Report,
) -> Result<String, AllocError>
    ensures { IfOk result (λ line. string_bytes line ≡ spec.recovered_line name.now report) }
{
    let Report {
        kept,
        repeats,
        old_length,
        new_length,
    } = report;
    format!(in alloc;
        "{name}: recovered {kept} rows, dropped {repeats} repeats, data {old_length} to {new_length} bytes\n"
    )
}

pub(crate) fn created_line(alloc: Global, name: &str) -> Result<String, AllocError>
    ensures { IfOk result (λ line. string_bytes line ≡ spec.created_line name.now) }
{
    format!(in alloc; "{name}: created\n")
}

/// The line on a table of so many rows that was made, with so many blocks damaged, and recovered.
pub(crate) fn made_line(
    alloc: Global,
    name: &str,
    count: u32,
    made: &Made,
) -> Result<String, AllocError>
    ensures { IfOk result (λ line. string_bytes line
        ≡ spec.made_line name.now count made.now.damaged made.now.report.kept) }
{
    let damaged = made.damaged;
    let kept = made.report.kept;
    format!(in alloc; "{name}: made {count}, damaged {damaged}, recovered {kept}, ok\n")
}

/// The line on a table that was not made, since other bytes stand at this place of a file than were put there.
pub(crate) fn damaged_line(alloc: Global, name: &str, at: u64) -> Result<String, AllocError>
    ensures { IfOk result (λ line. string_bytes line ≡ spec.damaged_line name.now at) }
{
    format!(in alloc; "{name}: damaged at {at}\n")
}

pub(crate) fn text_line(alloc: Global, file: &str, number: u32) -> Result<String, AllocError>
    ensures { IfOk result (λ line. string_bytes line ≡ spec.text_line file.now number) }
{
    format!(in alloc; "{file}: line {number}\n")
}

pub(crate) fn no_file_line(alloc: Global, file: &str) -> Result<String, AllocError>
    ensures { IfOk result (λ line. string_bytes line ≡ spec.absent_line file.now) }
{
    format!(in alloc; "{file}: absent\n")
}

pub(crate) fn ok_line(alloc: Global, name: &str) -> Result<String, AllocError>
    ensures { IfOk result (λ line. string_bytes line ≡ spec.ok_line name.now) }
{
    format!(in alloc; "{name}: ok\n")
}

/// A line for each thing that was found.
pub(crate) fn finding_lines(
    alloc: Global,
    name: &str,
    found: &[Finding],
) -> Result<String, AllocError>
    ensures { IfOk result (λ text. string_bytes text ≡ spec.finding_lines name.now found.now) }
{
    let mut text = String::new(alloc);
    for finding in found {
        push_finding(&mut text, name, *finding)?;
    }
    Ok(text)
}

/// Appends the line on a thing that was found.
pub(crate) fn push_finding(
    text: &mut String,
    name: &str,
    finding: Finding,
) -> Result<(), AllocError>
    ensures { IfOk result (λ _. string_bytes text.new
        ≡ string_bytes text.old ++ spec.finding_line name.now finding) }
{
    match finding {
        Finding::Header(item) => {
            let word = item_word(item);
            write!(text, "{name}: error: header {word}\n")
        }
        Finding::Deleted { at } => write!(text, "{name}: error: deleted at {at}\n"),
        Finding::Key { key, at } => write!(text, "{name}: error: key {key} at {at}\n"),
        Finding::Rows { at } => write!(text, "{name}: error: data at {at}\n"),
    }
}

pub(crate) fn sorted_line(
    alloc: Global,
    name: &str,
    key: u8,
    report: Report,
) -> Result<String, AllocError>
    ensures { IfOk result (λ line. string_bytes line ≡ spec.sorted_line name.now key report) }
{
    let Report {
        kept,
        repeats: _,
        old_length,
        new_length,
    } = report;
    format!(in alloc;
        "{name}: sorted {kept} rows by key {key}, data {old_length} to {new_length} bytes\n"
    )
}

/// The line on an index file whose pages, so many, were sorted.
pub(crate) fn sorted_pages_line(alloc: Global, name: &str, pages: u64) -> Result<String, AllocError>
    ensures { IfOk result (λ line. string_bytes line ≡ spec.sorted_pages_line name.now pages) }
{
    format!(in alloc; "{name}: sorted {pages} pages\n")
}

pub(crate) fn no_key_line(alloc: Global, name: &str, key: u8) -> Result<String, AllocError>
    ensures { IfOk result (λ line.
        string_bytes line ≡ spec.refused_line name.now (spec.no_key key)) }
{
    format!(in alloc; "{name}: refused: no key {key}\n")
}

/// The lines on a table that was analyzed.
pub(crate) fn analyzed_lines(
    alloc: Global,
    name: &str,
    parts: &[KeyParts],
) -> Result<String, AllocError>
    ensures { IfOk result (λ text. string_bytes text ≡ spec.analyzed_lines name.now parts.now) }
{
    let mut text = String::new(alloc);
    push_all_parts(&mut text, name, parts)?;
    push_analyzed(&mut text, name)?;
    Ok(text)
}

fn push_all_parts(text: &mut String, name: &str, parts: &[KeyParts]) -> Result<(), AllocError>
    ensures { IfOk result (λ _. string_bytes text.new
        ≡ string_bytes text.old ++ flat_map (spec.parts_line name.now) parts.now) }
{
    for key in parts {
        push_parts(text, name, key)?;
    }
    Ok(())
}

fn push_analyzed(text: &mut String, name: &str) -> Result<(), AllocError>
    ensures { IfOk result (λ _. string_bytes text.new
        ≡ string_bytes text.old ++ spec.analyzed_line name.now) }
{
    write!(text, "{name}: analyzed\n")
}

fn push_parts(text: &mut String, name: &str, parts: &KeyParts) -> Result<(), AllocError>
    ensures { IfOk result (λ _. string_bytes text.new
        ≡ string_bytes text.old ++ spec.parts_line name.now parts.now) }
{
    let key = parts.key;
    write!(text, "{name}: key {key} rows per prefix")?;
    push_numbers(text, parts.per.as_slice())?;
    text.push('\n')
}

fn push_numbers(text: &mut String, numbers: &[u64]) -> Result<(), AllocError>
    ensures { IfOk result (λ _. string_bytes text.new
        ≡ string_bytes text.old ++ flat_map spec.number_text numbers.now) }
{
    for number in numbers {
        let number = *number;
        write!(text, " {number}")?;
    }
    Ok(())
}

fn item_word(item: HeaderItem) -> &'static str
    ensures { result.now ≡ spec.item_word item }
{
    match item {
        HeaderItem::Mark => "mark",
        HeaderItem::Records => "records",
        HeaderItem::Del => "del",
        HeaderItem::Split => "split",
        HeaderItem::KeyFileLength => "key_file_length",
        HeaderItem::DataFileLength => "data_file_length",
        HeaderItem::Empty => "empty",
        HeaderItem::KeyEmpty => "key_empty",
    }
}
