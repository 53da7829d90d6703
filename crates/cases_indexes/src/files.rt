//! Files and sinks in memory.
use case_lines::{Fault, Words, halves, number, push_files, push_word};
use myi_io::{FileErr, Files, Sink, SinkErr};
use myi_memfiles::{MemFiles, MemSink};
use std::alloc::AllocError;

fn of_file(fault: FileErr) -> Result<&'static str, Fault> {
    match fault {
        FileErr::Failed => Ok("failed"),
        FileErr::Memory => Err(Fault::Memory),
    }
}

fn push_done(out: &mut String, answer: Result<(), FileErr>) -> Result<(), Fault> {
    match answer {
        Ok(()) => Ok(out.push_str("ok")?),
        Err(fault) => Ok(out.push_str(of_file(fault)?)?),
    }
}

fn push_length(out: &mut String, answer: Result<Option<u64>, FileErr>) -> Result<(), Fault> {
    match answer {
        Ok(None) => Ok(out.push_str("none")?),
        Ok(Some(length)) => Ok(write!(out, "{length}")?),
        Err(fault) => Ok(out.push_str(of_file(fault)?)?),
    }
}

fn push_read(
    out: &mut String,
    files: &mut MemFiles,
    name: &str,
    at: u64,
    mut into: Vec<u8>,
) -> Result<(), Fault> {
    match files.read_at(name, at, &mut into) {
        Ok(count) => {
            write!(out, "{count}:")?;
            Ok(push_word(out, &into)?)
        }
        Err(fault) => Ok(out.push_str(of_file(fault)?)?),
    }
}

// Makes a call, and writes its answer.
fn push_call(
    out: &mut String,
    words: &Words,
    files: &mut MemFiles,
    call: &str,
) -> Result<(), Fault> {
    let parts: Vec<&str> = call.split(':').collect(words.alloc())?;
    match parts.as_slice() {
        ["length", name] => push_length(out, files.length(*name)),
        ["read", name, at, into] => {
            push_read(out, files, *name, number(*at)?, words.bytes(*into)?)
        }
        ["write", name, at, bytes] => {
            push_done(
                out,
                files.write_at(*name, number(*at)?, &words.bytes(*bytes)?),
            )
        }
        ["cut", name, length] => push_done(out, files.cut(*name, number(*length)?)),
        ["rename", from, to] => push_done(out, files.rename(*from, *to)),
        ["remove", name] => push_done(out, files.remove(*name)),
        _ => Err(Fault::Unread),
    }
}

/// `files FAULTS FILE.. -- CALL..`: what each call answers, the count of faults, and the files. A call is
/// `length:NAME`, `read:NAME:AT:INTO`, `write:NAME:AT:BYTES`, `cut:NAME:LENGTH`, `rename:NAME:NAME` or
/// `remove:NAME`.
fn files(words: &Words, args: &[&str]) -> Result<String, Fault> {
    let [faults, others @ ..] = args else {
        return Err(Fault::Unread);
    };
    let (given, calls) = halves(others)?;
    let mut files = words.files(given, *faults)?;
    let mut out = String::new(words.alloc());
    for call in calls {
        push_call(&mut out, words, &mut files, *call)?;
        out.push(' ')?;
    }
    write!(out, "faults {}", files.fault_count())?;
    push_files(&mut out, &files, given)?;
    Ok(out)
}

/// `sink FAULTS BYTES..`: what each write answers, and what was written.
fn sink(words: &Words, args: &[&str]) -> Result<String, Fault> {
    let [faults, writes @ ..] = args else {
        return Err(Fault::Unread);
    };
    let alloc = words.alloc();
    let mut sink = MemSink::new(alloc, words.numbers(*faults)?)?;
    let mut out = String::new(alloc);
    for bytes in writes {
        match sink.write(&words.bytes(*bytes)?) {
            Ok(()) => out.push_str("ok ")?,
            Err(SinkErr::Failed) => out.push_str("failed ")?,
            Err(SinkErr::Memory) => return Err(Fault::Memory),
        }
    }
    push_word(&mut out, sink.written())?;
    Ok(out)
}

/// The answer to a call of this module, and None where the name is no such call.
pub fn answer(words: &Words, name: &str, args: &[&str]) -> Option<Result<String, Fault>> {
    match name {
        "files" => Some(files(words, args)),
        "sink" => Some(sink(words, args)),
        _ => None,
    }
}
