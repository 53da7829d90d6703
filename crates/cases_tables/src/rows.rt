//! Rows, their bytes and their keys.
ghost use Rattle.std.specs.Prelude.{◌<◌, ◌^◌, length};
ghost use Rattle.myi_defs.specs.Sound.{IsSound};
ghost use Rattle.myi_data.specs.Keys.{IsKeyNumber};

use case_lines::{Fault, Words, push_word, size};
use myi_base::Sequence;
use myi_data::key_of;
use myi_defs::Defs;
use myi_keys::encode;
use myi_pack::{Row, fits, pack, spellings_are_shortest, unpack, view};
use std::alloc::{AllocError, Global};

fn row_text(alloc: Global, row: &Row) -> Result<String, AllocError> {
    let mut out = String::from_str(alloc, "row")?;
    for value in row.as_slice() {
        out.push(' ')?;
        push_word(&mut out, value.as_slice())?;
    }
    Ok(out)
}

/// `view DEFINITIONS BYTES`: the values of the row that the bytes pack.
fn view_row(words: &Words, args: &[&str]) -> Result<String, Fault> {
    let [defs, bytes] = args else {
        return Err(Fault::Unread);
    };
    let defs = words.definitions(*defs)?;
    let bytes = words.bytes(*bytes)?;
    let alloc = words.alloc();
    match view(&defs, &bytes) {
        None => Ok(String::from_str(alloc, "none")?),
        Some(row) => Ok(row_text(alloc, &unpack(alloc, &row)?)?),
    }
}

fn row(words: &Words, values: &[&str]) -> Result<Row, Fault> {
    let mut row = Vec::new(words.alloc());
    for value in values {
        row.push(Sequence::new(words.bytes(*value)?))?;
    }
    Ok(Sequence::new(row))
}

/// `pack DEFINITIONS VALUE..`: the spelling of a row, or that it does not fit.
fn pack_row(words: &Words, args: &[&str]) -> Result<String, Fault> {
    let [defs, values @ ..] = args else {
        return Err(Fault::Unread);
    };
    let defs = words.definitions(*defs)?;
    let row = row(words, values)?;
    let alloc = words.alloc();
    if !fits(&defs, &row) {
        return Ok(String::from_str(alloc, "does not fit")?);
    }
    let mut out = String::new(alloc);
    push_word(&mut out, &pack(alloc, &defs, &row)?)?;
    Ok(out)
}

// The code of a key of the row that the bytes pack.
fn code(alloc: Global, defs: &Defs, key: usize, bytes: &[u8]) -> Result<Option<Vec<u8>>, AllocError>
    requires sound { IsSound defs.now }
    requires key { IsKeyNumber defs.now key }
    requires few { length bytes.now < 2 ^ 32 }
{
    spellings_are_shortest();
    let Some(row) = view(defs, bytes) else {
        return Ok(None);
    };
    let key = key_of(alloc, defs, key, &row)?;
    Ok(Some(encode(alloc, &key)?))
}

/// `key DEFINITIONS KEY BYTES`: the code of the key of that number, from 1, of the row that the bytes pack.
fn key(words: &Words, args: &[&str]) -> Result<String, Fault> {
    let [defs, key, bytes] = args else {
        return Err(Fault::Unread);
    };
    let defs = words.definitions(*defs)?;
    let key = size(*key)?;
    let bytes = words.bytes(*bytes)?;
    if key == 0 || key > defs.keys.as_slice().len() || bytes.len() >= 1 << 32 {
        return Err(Fault::Unread);
    }
    let alloc = words.alloc();
    let mut out = String::new(alloc);
    match code(alloc, &defs, key, &bytes)? {
        None => out.push_str("no row")?,
        Some(code) => push_word(&mut out, &code)?,
    }
    Ok(out)
}

/// The answer to a call of this module, and None where the name is no such call.
pub fn answer(words: &Words, name: &str, args: &[&str]) -> Option<Result<String, Fault>> {
    match name {
        "view" => Some(view_row(words, args)),
        "pack" => Some(pack_row(words, args)),
        "key" => Some(key(words, args)),
        _ => None,
    }
}
