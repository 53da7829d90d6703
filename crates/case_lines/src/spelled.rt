//! How what a call answers is written.
//!
//! Bytes are written as a word that stands for them: hexadecimal digits, `-` for none, and `00*N` for whole
//! rows of 16 zeros. More than forty other rows are written as their number and their MD5, `#LENGTH:DIGEST`.
use md5::{Digest, Md5};
use std::alloc::{AllocError, Global};
use std::fmt;

/// How many bytes a row has.
const ROW: usize = 16;

/// How many rows that are not zeros are written.
const MOST_ROWS: usize = 40;

/// A place, or `-` for none.
#[derive(Clone, Copy, Debug)]
pub struct PlaceText(pub Option<u64>);

impl fmt::Display for PlaceText {
    fn fmt<W: fmt::Write>(&self, f: &mut fmt::Formatter<W>) -> fmt::Result {
        match self.0 {
            None => write!(f, "-"),
            Some(place) => write!(f, "{place}"),
        }
    }
}

fn is_zeros(row: &[u8]) -> bool {
    row.len() == ROW && row.iter().all(|byte| *byte == 0)
}

fn digits(alloc: Global, bytes: &[u8]) -> Result<String, AllocError> {
    hex::encode(alloc, bytes)
}

/// Bytes as their number and their MD5.
pub fn digest(alloc: Global, bytes: &[u8]) -> Result<String, AllocError> {
    let digest = digits(alloc, &Md5::digest(bytes))?;
    format!(in alloc; "#{}:{digest}", bytes.len())
}

// Writes so many zeros behind what is written.
fn push_zeros(out: &mut String, zeros: usize) -> Result<(), AllocError> {
    if !out.is_empty() {
        out.push('+')?;
    }
    write!(out, "00*{zeros}")
}

fn spelled(alloc: Global, bytes: &[u8]) -> Result<String, AllocError> {
    let mut out = String::new(alloc);
    let mut zeros: usize = 0;
    for row in bytes.chunks(ROW) {
        if is_zeros(row) {
            zeros = zeros.saturating_add(ROW);
            continue;
        }
        if zeros > 0 {
            push_zeros(&mut out, zeros)?;
            out.push('+')?;
            zeros = 0;
        }
        out.push_str(digits(alloc, row)?.as_str())?;
    }
    if zeros > 0 {
        push_zeros(&mut out, zeros)?;
    }
    Ok(out)
}

/// Bytes as a word.
pub fn word(alloc: Global, bytes: &[u8]) -> Result<String, AllocError> {
    if bytes.is_empty() {
        return String::from_str(alloc, "-");
    }
    if bytes.chunks(ROW).filter(|row| !is_zeros(*row)).count() > MOST_ROWS {
        return digest(alloc, bytes);
    }
    spelled(alloc, bytes)
}

/// Writes bytes as a word behind what is written.
pub fn push_word(out: &mut String, bytes: &[u8]) -> Result<(), AllocError> {
    let word = word(*out.allocator(), bytes)?;
    out.push_str(word.as_str())
}
