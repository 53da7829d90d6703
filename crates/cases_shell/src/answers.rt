//! How what a script printed is written, and how its run ended.
use case_lines::{Fault, digest};
use myi_shell::ShellFault;
use std::alloc::AllocError;
use std::str;

/// How many bytes of what was printed are written as text.
const MOST_PRINTED: usize = 1_000;

/// Writes what was printed: its lines, each with ` /` behind it, or where it is long, its number of
/// bytes and their MD5.
pub fn push_printed(out: &mut String, printed: &[u8]) -> Result<(), Fault> {
    if printed.len() > MOST_PRINTED {
        let digest = digest(*out.allocator(), printed)?;
        return Ok(out.push_str(digest.as_str())?);
    }
    let text = str::from_utf8(printed).or(Err(Fault::Unread))?;
    for line in text.lines() {
        out.push_str(line)?;
        out.push_str(" / ")?;
    }
    Ok(())
}

/// Writes how a run ended.
pub fn push_end(out: &mut String, answer: Result<(), ShellFault>) -> Result<(), Fault> {
    match answer {
        Ok(()) => Ok(out.push_str("ok")?),
        Err(ShellFault::Damaged { at }) => Ok(write!(out, "damaged {at}")?),
        Err(ShellFault::File) => Ok(out.push_str("failed")?),
        Err(ShellFault::Sink) => Ok(out.push_str("not printed")?),
        Err(ShellFault::Memory) => Err(Fault::Memory),
    }
}
