//! The definitions of a table.
use case_lines::{Fault, Words, digest, number, word};
use myi_defs::{DefFault, Defs, Field, Key, Segment, print_defs, read_defs};
use myi_deftext::{TextFault, parse_text};
use std::alloc::AllocError;

fn push_field(out: &mut String, field: &Field) -> Result<(), AllocError> {
    write!(out, " {:?}:{}:{}", field.kind, field.length, field.start)
}

fn push_segment(out: &mut String, segment: &Segment) -> Result<(), AllocError> {
    write!(out, " {:?}:{}:", segment.seg, segment.language)?;
    write!(out, "{}:{}:", segment.null_bit, segment.null_pos)?;
    write!(
        out,
        "{}:{}:{}",
        segment.length, segment.start, segment.field
    )
}

fn push_key(out: &mut String, key: &Key) -> Result<(), AllocError> {
    let kind = if key.unique { "unique" } else { "plain" };
    write!(out, " {kind}:{}", key.block_length)?;
    for segment in key.segments.as_slice() {
        push_segment(out, segment)?;
    }
    Ok(())
}

fn push_defs(out: &mut String, defs: &Defs) -> Result<(), AllocError> {
    write!(out, "{:?} {} {}", defs.format, defs.rec_ref, defs.key_ref)?;
    write!(out, " {} {}", defs.row_length, defs.slot_length)?;
    for field in defs.fields.as_slice() {
        push_field(out, field)?;
    }
    for key in defs.keys.as_slice() {
        push_key(out, key)?;
    }
    let raw = digest(*out.allocator(), defs.raw.as_slice())?;
    write!(out, " {raw}")
}

fn push_fault(out: &mut String, fault: DefFault) -> Result<(), Fault> {
    match fault {
        DefFault::Memory => Err(Fault::Memory),
        fault => Ok(write!(out, "{fault}")?),
    }
}

/// `defs BYTES`: the definitions in a header.
fn defs(words: &Words, args: &[&str]) -> Result<String, Fault> {
    let [bytes] = args else {
        return Err(Fault::Unread);
    };
    let bytes = words.bytes(*bytes)?;
    let mut out = String::new(words.alloc());
    match read_defs(words.alloc(), &bytes) {
        Ok(defs) => push_defs(&mut out, &defs)?,
        Err(fault) => push_fault(&mut out, fault)?,
    }
    Ok(out)
}

/// `text BYTES`: the definitions that a creating text stands for.
fn text(words: &Words, args: &[&str]) -> Result<String, Fault> {
    let [bytes] = args else {
        return Err(Fault::Unread);
    };
    let bytes = words.bytes(*bytes)?;
    let mut out = String::new(words.alloc());
    match parse_text(words.alloc(), &bytes) {
        Ok(defs) => push_defs(&mut out, &defs)?,
        Err(TextFault::Def(fault)) => push_fault(&mut out, fault)?,
        Err(TextFault::Line(line)) => write!(out, "line {line}")?,
        Err(TextFault::Memory) => return Err(Fault::Memory),
    }
    Ok(out)
}

/// `print_defs DEFINITIONS`: the header of an empty table.
fn print(words: &Words, args: &[&str]) -> Result<String, Fault> {
    let [defs] = args else {
        return Err(Fault::Unread);
    };
    let defs = words.definitions(*defs)?;
    Ok(word(words.alloc(), &print_defs(words.alloc(), &defs)?)?)
}

/// `addressable DEFINITIONS LENGTH`: whether row pointers reach each row of a data file of that length.
fn addressable(words: &Words, args: &[&str]) -> Result<String, Fault> {
    let [defs, length] = args else {
        return Err(Fault::Unread);
    };
    let reached = words.definitions(*defs)?.addressable(number(*length)?);
    Ok(format!(in words.alloc(); "{reached}")?)
}

/// The answer to a call of this module, and None where the name is no such call.
pub fn answer(words: &Words, name: &str, args: &[&str]) -> Option<Result<String, Fault>> {
    match name {
        "defs" => Some(defs(words, args)),
        "text" => Some(text(words, args)),
        "print_defs" => Some(print(words, args)),
        "addressable" => Some(addressable(words, args)),
        _ => None,
    }
}
