//! `Words`: what the words of a line stand for.
//!
//! A number is decimal, and a place is a number or `-`. Bytes are parts joined by `+`, and behind them, each
//! after an `@`, bytes that are written over them. A part is `-` for no bytes, `$` and a name for bytes that an
//! earlier line named, an apostrophe and text, or hexadecimal digits; `*` and a number repeats it, and `<` and a
//! number takes so many bytes from its front.
ghost use Rattle.std.specs.Prelude.{IfOk};
ghost use Rattle.myi_defs.specs.Sound.{IsSound};
ghost use Rattle.myi_defs.specs.ReadDefs.{AreDefs};

use hex::FromHexError;
use myi_base::pointer_of;
use myi_defs::{DefFault, Defs, definitions_are_sound, read_defs};
use myi_deftext::{TextFault, parse_text};
use myi_keys::{KeyFault, KeyVal, decode};
use myi_memfiles::MemFiles;
use std::alloc::{AllocError, AllocFailed, Global};
use std::collections::BTreeMap;

/// The first byte of an index file. No creating text begins so.
const MAGIC: u8 = 0xFE;

/// Why a line has no answer.
#[derive(Clone, Copy, Debug, PartialEq, Eq)]
pub enum Fault {
    /// A word is not in the grammar, or the call may not be made with these words.
    Unread,
    Memory,
}

impl From<AllocError> for Fault {
    fn from(_: AllocError) -> Self {
        Fault::Memory
    }
}

impl<T: Drop> From<AllocFailed<T>> for Fault {
    fn from(_: AllocFailed<T>) -> Self {
        Fault::Memory
    }
}

impl From<FromHexError> for Fault {
    fn from(error: FromHexError) -> Self {
        match error {
            FromHexError::OutOfMemory => Fault::Memory,
            _ => Fault::Unread,
        }
    }
}

pub fn number(word: &str) -> Result<u64, Fault> {
    word.parse::<u64>().or(Err(Fault::Unread))
}

pub fn size(word: &str) -> Result<usize, Fault> {
    word.parse::<usize>().or(Err(Fault::Unread))
}

pub fn four_bytes(word: &str) -> Result<u32, Fault> {
    word.parse::<u32>().or(Err(Fault::Unread))
}

pub fn two_bytes(word: &str) -> Result<u16, Fault> {
    word.parse::<u16>().or(Err(Fault::Unread))
}

pub fn one_byte(word: &str) -> Result<u8, Fault> {
    word.parse::<u8>().or(Err(Fault::Unread))
}

/// A place, or `-` for none.
pub fn place(word: &str) -> Result<Option<u64>, Fault> {
    if word == "-" {
        return Ok(None);
    }
    Ok(pointer_of(number(word)?))
}

pub fn yes_or_no(word: &str) -> Result<bool, Fault> {
    match word {
        "yes" => Ok(true),
        "no" => Ok(false),
        _ => Err(Fault::Unread),
    }
}

/// The two sides of a separator.
pub fn sides(word: &str, separator: char) -> Result<(&str, &str), Fault> {
    word.split_once(separator).ok_or(Fault::Unread)
}

// A part without what stands behind a sign, and the number behind the sign.
fn counted(part: &str, sign: char) -> Result<(&str, Option<usize>), Fault> {
    match part.split_once(sign) {
        None => Ok((part, None)),
        Some((front, count)) => Ok((front, Some(size(count)?))),
    }
}

// Appends a part so many times.
fn append_times(bytes: &mut Vec<u8>, part: &[u8], times: usize) -> Result<(), AllocError> {
    if let [byte] = part {
        return bytes.resize(bytes.len().saturating_add(times), *byte);
    }
    for _ in 0..times {
        bytes.extend_from_slice(part)?;
    }
    Ok(())
}

/// Reads words, with the bytes that earlier lines named.
pub struct Words {
    alloc: Global,
    named: BTreeMap<String, Vec<u8>>,
}

impl Drop for Words {
    fn drop(self) {
        let Words { alloc: _, named: _ } = self;
    }
}

impl Words {
    pub fn new(alloc: Global) -> Words {
        Words {
            alloc,
            named: BTreeMap::new(alloc),
        }
    }

    pub fn alloc(&self) -> Global {
        self.alloc
    }

    /// Names bytes for later lines, and answers the name.
    pub fn keep(&mut self, name: &str, word: &str) -> Result<String, Fault> {
        let bytes = self.bytes(word)?;
        self.named
            .insert(String::from_str(self.alloc, name)?, bytes)?;
        Ok(String::from_str(self.alloc, name)?)
    }

    /// The bytes of a word.
    pub fn bytes(&self, word: &str) -> Result<Vec<u8>, Fault> {
        let (parts, edits) = match word.split_once('@') {
            None => (word, None),
            Some((parts, edits)) => (parts, Some(edits)),
        };
        let mut bytes = Vec::new(self.alloc);
        for part in parts.split('+') {
            self.append(&mut bytes, part)?;
        }
        if let Some(edits) = edits {
            for edit in edits.split('@') {
                self.overwrite(&mut bytes, edit)?;
            }
        }
        Ok(bytes)
    }

    fn append(&self, bytes: &mut Vec<u8>, part: &str) -> Result<(), Fault> {
        let (part, times) = counted(part, '*')?;
        let (part, most) = counted(part, '<')?;
        let whole = self.part(part)?;
        let front = match most {
            None => whole.as_slice(),
            Some(most) => whole.get(..most).ok_or(Fault::Unread)?,
        };
        Ok(append_times(bytes, front, times.unwrap_or(1))?)
    }

    fn part(&self, part: &str) -> Result<Vec<u8>, Fault> {
        if part == "-" {
            return Ok(Vec::new(self.alloc));
        }
        if let Some(name) = part.strip_prefix('$') {
            let bytes = self.named.get(name).ok_or(Fault::Unread)?;
            return Ok(bytes.clone()?);
        }
        if let Some(text) = part.strip_prefix('\'') {
            return Ok(self.said(text)?);
        }
        if part.is_empty() {
            return Err(Fault::Unread);
        }
        Ok(hex::decode(self.alloc, part)?)
    }

    // Text, in which `~` stands for a space and `/` for the end of a line.
    fn said(&self, text: &str) -> Result<Vec<u8>, AllocError> {
        let bytes = text.as_bytes().iter().map(|byte| match *byte {
            b'~' => b' ',
            b'/' => b'\n',
            byte => byte,
        });
        bytes.collect(self.alloc)
    }

    // `PLACE:DIGITS` writes these bytes at a place, within the length.
    fn overwrite(&self, bytes: &mut Vec<u8>, edit: &str) -> Result<(), Fault> {
        let (place, digits) = sides(edit, ':')?;
        let new = hex::decode(self.alloc, digits)?;
        let place = size(place)?;
        if place > bytes.len() || new.len() > bytes.len() - place {
            return Err(Fault::Unread);
        }
        bytes[place..place + new.len()].copy_from_slice(&new);
        Ok(())
    }

    /// The text of a word.
    pub fn text(&self, word: &str) -> Result<String, Fault> {
        String::from_utf8(self.bytes(word)?).or(Err(Fault::Unread))
    }

    /// The texts of words.
    pub fn texts(&self, args: &[&str]) -> Result<Vec<String>, Fault> {
        let mut texts = Vec::new(self.alloc);
        for arg in args {
            texts.push(self.text(*arg)?)?;
        }
        Ok(texts)
    }

    /// Files in memory, each a word `NAME=BYTES`, or `NAME` for none, of which the listed calls fail.
    pub fn files(&self, args: &[&str], faults: &str) -> Result<MemFiles, Fault> {
        let mut files = Vec::new(self.alloc);
        for arg in args {
            if let Some((name, bytes)) = arg.split_once('=') {
                files.push((String::from_str(self.alloc, name)?, self.bytes(bytes)?))?;
            }
        }
        Ok(MemFiles::new(self.alloc, files, self.numbers(faults)?)?)
    }

    /// Numbers with commas between them, or `-` for none.
    pub fn numbers(&self, word: &str) -> Result<Vec<u64>, Fault> {
        let mut numbers = Vec::new(self.alloc);
        if word != "-" {
            for part in word.split(',') {
                numbers.push(number(part)?)?;
            }
        }
        Ok(numbers)
    }

    /// Places, each a word.
    pub fn places(&self, args: &[&str]) -> Result<Vec<Option<u64>>, Fault> {
        let mut places = Vec::new(self.alloc);
        for arg in args {
            places.push(place(*arg)?)?;
        }
        Ok(places)
    }

    /// The definitions of a header, or of a creating text.
    pub fn definitions(&self, word: &str) -> Result<Defs, Fault>
        ensures sound { IfOk result IsSound }
        ensures itself { IfOk result AreDefs }
    {
        definitions_are_sound();
        let bytes = self.bytes(word)?;
        if bytes.first() == Some(&MAGIC) {
            return match read_defs(self.alloc, &bytes) {
                Ok(defs) => Ok(defs),
                Err(fault) => Err(of_header(fault)),
            };
        }
        match parse_text(self.alloc, &bytes) {
            Ok(defs) => Ok(defs),
            Err(fault) => Err(of_text(fault)),
        }
    }
}

/// The key that a code stands for.
pub fn key_of_code(words: &Words, word: &str) -> Result<KeyVal, Fault> {
    match decode(words.alloc(), &words.bytes(word)?) {
        Ok(key) => Ok(key),
        Err(KeyFault::Memory) => Err(Fault::Memory),
        Err(_) => Err(Fault::Unread),
    }
}

// Want of memory, or bytes that are no definitions.
fn of_header(fault: DefFault) -> Fault {
    match fault {
        DefFault::Memory => Fault::Memory,
        _ => Fault::Unread,
    }
}

fn of_text(fault: TextFault) -> Fault {
    match fault {
        TextFault::Memory => Fault::Memory,
        TextFault::Def(fault) => of_header(fault),
        TextFault::Line(_) => Fault::Unread,
    }
}
