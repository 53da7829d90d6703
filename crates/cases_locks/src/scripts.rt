//! Scripts of sessions on a table.
//!
//! `script` reads a text, and shows what each of its lines does.
use crate::rounds::lock_word;
use case_lines::{Fault, Words, push_word, yes_or_no};
use myi_keys::KeyVal;
use myi_pack::Row;
use myi_script::{Act, Line, Range, ScriptFault, parse_script};
use std::alloc::AllocError;

// The values of a row, each behind a comma.
fn push_row(out: &mut String, row: &Row) -> Result<(), AllocError> {
    for value in row.as_slice() {
        out.push(',')?;
        push_word(out, value.as_slice())?;
    }
    Ok(())
}

// The code of a bound, or a star, behind a comma.
fn push_bound(out: &mut String, bound: &Option<KeyVal>) -> Result<(), AllocError> {
    out.push(',')?;
    match bound {
        None => out.push('*'),
        Some(key) => push_word(out, key.code()),
    }
}

fn push_range(out: &mut String, range: &Range) -> Result<(), AllocError> {
    write!(out, "range,{}", range.key)?;
    push_bound(out, &range.from)?;
    push_bound(out, &range.to)
}

fn push_act(out: &mut String, act: &Act) -> Result<(), AllocError> {
    match act {
        Act::Insert(row) => {
            out.push_str("insert")?;
            push_row(out, row)
        }
        Act::Update { at, row } => {
            write!(out, "update,{at}")?;
            push_row(out, row)
        }
        Act::Delete { at } => write!(out, "delete,{at}"),
        Act::Scan => out.push_str("scan"),
        Act::Over(range) => push_range(out, range),
        Act::Lock(kind) => write!(out, "lock,{}", lock_word(*kind)),
        Act::Unlock => out.push_str("unlock"),
        Act::Stats => out.push_str("stats"),
        Act::End => out.push_str("end"),
    }
}

// The lines with ` / ` between them.
fn push_lines(out: &mut String, lines: &[Line]) -> Result<(), AllocError> {
    for line in lines {
        if !out.is_empty() {
            out.push_str(" / ")?;
        }
        write!(out, "{}:{}:", line.session, line.line)?;
        push_act(out, &line.act)?;
    }
    Ok(())
}

/// `script DEFINITIONS MERGE BYTES`: what a script on a table with these definitions says.
fn script(words: &Words, args: &[&str]) -> Result<String, Fault> {
    let [defs, merge, text] = args else {
        return Err(Fault::Unread);
    };
    let defs = words.definitions(*defs)?;
    let text = words.bytes(*text)?;
    let mut out = String::new(words.alloc());
    match parse_script(words.alloc(), &text, &defs, yes_or_no(*merge)?) {
        Ok(script) => push_lines(&mut out, script.lines.as_slice())?,
        Err(ScriptFault::Line(line)) => write!(out, "line {line}")?,
        Err(ScriptFault::Memory) => return Err(Fault::Memory),
    }
    if out.is_empty() {
        out.push_str("nothing")?;
    }
    Ok(out)
}

/// The answer to a call of this module, and None where the name is no such call.
pub fn answer(words: &Words, name: &str, args: &[&str]) -> Option<Result<String, Fault>> {
    match name {
        "script" => Some(script(words, args)),
        _ => None,
    }
}
