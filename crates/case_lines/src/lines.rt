//! What is written for a line, and for all lines.
use crate::words::{Fault, Words};
use std::alloc::{AllocError, Global};
use std::io;
use std::io::{BufRead, BufReader, BufWriter, Input, Print, Write};

/// The calls that a program answers.
pub trait Calls {
    /// The answer to a call, and None where the name is no such call.
    fn answer(&self, words: &Words, name: &str, args: &[&str]) -> Option<Result<String, Fault>>;
}

fn split<'a>(words: &Words, line: &'a str) -> Result<Vec<&'a str>, AllocError> {
    line.split(' ').collect(words.alloc())
}

// `let NAME BYTES`.
fn named(words: &mut Words, args: &[&str]) -> Result<String, Fault> {
    let [name, bytes] = args else {
        return Err(Fault::Unread);
    };
    words.keep(*name, *bytes)
}

// The answer to a line. A comment is its own answer, and so is a line that names bytes.
fn told<C: Calls>(words: &mut Words, line: &str, calls: &C) -> Result<String, Fault> {
    if line.is_empty() || line.starts_with('#') {
        return Ok(String::from_str(words.alloc(), line)?);
    }
    let parts = split(words, line)?;
    let Some((name, args)) = parts.split_first() else {
        return Err(Fault::Unread);
    };
    if *name == "let" {
        return named(words, args);
    }
    match calls.answer(words, *name, args) {
        Some(answer) => answer,
        None => Err(Fault::Unread),
    }
}

// What is written for a line: the answer to its call, or that it is not read.
fn written<C: Calls>(words: &mut Words, line: &str, calls: &C) -> Result<String, AllocError> {
    let alloc = words.alloc();
    match told(words, line, calls) {
        Ok(text) => Ok(text),
        Err(Fault::Unread) => format!(in alloc; "unread: {line}"),
        Err(Fault::Memory) => Err(AllocError),
    }
}

/// Reads lines from standard input, and writes to standard output a line for each.
pub fn run<R: Input + Print, C: Calls>(rt: &R, alloc: Global, calls: &C) -> io::Result<()> {
    let mut words = Words::new(alloc);
    let mut out = BufWriter::new(alloc, io::writer(rt))?;
    for line in BufReader::new(alloc, rt.reader())?.lines(alloc) {
        let line = line?;
        let text = written(&mut words, line.as_str(), calls)?;
        out.write_all(text.as_bytes())?;
        out.write_all(b"\n")?;
    }
    out.flush()
}
