//! How files in memory are given and written.
//!
//! A file is given as `NAME=BYTES`, and as `NAME` where no file has the name. After the calls the files come
//! in the same form.
use crate::spelled::push_word;
use crate::words::Fault;
use myi_memfiles::MemFiles;
use std::alloc::AllocError;

/// The name of a file that is given.
pub fn file_name(word: &str) -> &str {
    match word.split_once('=') {
        None => word,
        Some((name, _)) => name,
    }
}

/// Writes what a file holds.
pub fn push_file(out: &mut String, files: &MemFiles, name: &str) -> Result<(), AllocError> {
    out.push_str(name)?;
    match files.get(name) {
        None => Ok(()),
        Some(bytes) => {
            out.push('=')?;
            push_word(out, bytes)
        }
    }
}

/// Writes what each of the given files holds, behind a space.
pub fn push_files(out: &mut String, files: &MemFiles, given: &[&str]) -> Result<(), AllocError> {
    for word in given {
        out.push(' ')?;
        push_file(out, files, file_name(*word))?;
    }
    Ok(())
}

/// The words before the first `--`, and those behind it.
pub fn halves<'a>(args: &'a [&'a str]) -> Result<(&'a [&'a str], &'a [&'a str]), Fault> {
    let Some(at) = args.iter().position(|word| *word == "--") else {
        return Err(Fault::Unread);
    };
    let (before, behind) = args.split_at(at);
    match behind {
        [] => Err(Fault::Unread),
        [_, others @ ..] => Ok((before, others)),
    }
}
