//! What is written for a line, and for all lines. The calls run threads, which a call of a trait may not.
use crate::scripts;
use case_lines::{Fault, Words};
use std::alloc::{AllocError, Global};
use std::io;
use std::io::{BufRead, BufReader, BufWriter, Input, Print, Write};
use std::thread::Threads;

fn split<'a>(words: &Words, line: &'a str) -> Result<Vec<&'a str>, AllocError> {
    line.split(' ').collect(words.alloc())
}

// The answer to a line. A comment is its own answer, and so is a line that names bytes.
fn told<R: Threads + Sync>(rt: &R, words: &mut Words, line: &str) -> Result<String, Fault> {
    if line.is_empty() || line.starts_with('#') {
        return Ok(String::from_str(words.alloc(), line)?);
    }
    let parts = split(words, line)?;
    match parts.as_slice() {
        ["let", name, bytes] => words.keep(*name, *bytes),
        [name, args @ ..] => match scripts::answer(rt, words, *name, args) {
            Some(answer) => answer,
            None => Err(Fault::Unread),
        },
        [] => Err(Fault::Unread),
    }
}

// What is written for a line: the answer to its call, or that it is not read.
fn written<R: Threads + Sync>(rt: &R, words: &mut Words, line: &str) -> Result<String, AllocError> {
    let alloc = words.alloc();
    match told(rt, words, line) {
        Ok(text) => Ok(text),
        Err(Fault::Unread) => format!(in alloc; "unread: {line}"),
        Err(Fault::Memory) => Err(AllocError),
    }
}

/// Reads lines from standard input, and writes to standard output a line for each.
pub fn run<R: Input + Print + Threads + Sync>(rt: &R, alloc: Global) -> io::Result<()> {
    let mut words = Words::new(alloc);
    let mut out = BufWriter::new(alloc, io::writer(rt))?;
    for line in BufReader::new(alloc, rt.reader())?.lines(alloc) {
        let line = line?;
        let text = written(rt, &mut words, line.as_str())?;
        out.write_all(text.as_bytes())?;
        out.write_all(b"\n")?;
    }
    out.flush()
}
