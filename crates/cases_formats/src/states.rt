//! The state of a table.
ghost use Rattle.std.specs.Prelude.{◌≡◌, true, length, All, IfOk};
ghost use Rattle.myi_defs.specs.Sound.{IsSound};
ghost use Rattle.myi_header.specs.StateOf.{IsPlace, rest_length};

use case_lines::{Fault, PlaceText, Words, number, one_byte, place, push_word, two_bytes, word};
use myi_base::Sequence;
use myi_defs::Defs;
use myi_header::{MARK, State, StateFault, first_page, print_state, read_state, stored_state};
use std::alloc::{AllocError, Global};

fn state_text(alloc: Global, state: &State) -> Result<String, AllocError> {
    let mut out = format!(in alloc; "{} {} {}", state.open_count, state.changed, state.sortkey)?;
    let dellink = PlaceText(state.dellink);
    write!(
        out,
        " {} {} {} {dellink}",
        state.records, state.del, state.split
    )?;
    write!(out, " {} {}", state.key_file_length, state.data_file_length)?;
    write!(
        out,
        " {} {} {}",
        state.empty, state.key_empty, state.auto_increment
    )?;
    for root in state.roots.as_slice() {
        let root = PlaceText(*root);
        write!(out, " root:{root}")?;
    }
    write!(out, " {} {} ", state.key_map, state.recover_time)?;
    push_word(&mut out, state.rest.as_slice())?;
    Ok(out)
}

/// `state DEFINITIONS BYTES`: the state in the bytes of an index file.
fn state(words: &Words, args: &[&str]) -> Result<String, Fault> {
    let [defs, bytes] = args else {
        return Err(Fault::Unread);
    };
    let defs = words.definitions(*defs)?;
    let alloc = words.alloc();
    match read_state(alloc, &defs, &words.bytes(*bytes)?) {
        Ok(state) => Ok(state_text(alloc, &state)?),
        Err(StateFault::Memory) => Err(Fault::Memory),
        Err(fault) => Ok(format!(in alloc; "{fault}")?),
    }
}

/// `stored_state DEFINITIONS`: the state in the header that the definitions were read from.
fn stored(words: &Words, args: &[&str]) -> Result<String, Fault> {
    let [defs] = args else {
        return Err(Fault::Unread);
    };
    let defs = words.definitions(*defs)?;
    let state = stored_state(words.alloc(), &defs)?;
    Ok(state_text(words.alloc(), &state)?)
}

/// `first_page DEFINITIONS`: the place of the first page.
fn page_place(words: &Words, args: &[&str]) -> Result<String, Fault> {
    let [defs] = args else {
        return Err(Fault::Unread);
    };
    let place = first_page(&words.definitions(*defs)?);
    Ok(format!(in words.alloc(); "{place}")?)
}

/// `mark`: the mark of an index file that this project wrote.
fn mark(words: &Words, args: &[&str]) -> Result<String, Fault> {
    match args {
        [] => Ok(word(words.alloc(), &MARK)?),
        _ => Err(Fault::Unread),
    }
}

fn is_place(place: Option<u64>) -> bool
    ensures { result ≡ true → IsPlace place }
{
    place != Some(u64::MAX)
}

fn are_places(places: &[Option<u64>]) -> bool
    ensures { result ≡ true → All IsPlace places.now }
{
    for place in places {
        if !is_place(*place) {
            return false;
        }
    }
    true
}

/// The numbers of a state up to the first deleted block.
#[derive(Clone, Copy)]
struct Counts {
    open_count: u16,
    changed: u8,
    sortkey: u8,
    records: u64,
    del: u64,
    split: u64,
    dellink: Option<u64>,
}

fn counts_of(words: &[&str]) -> Result<Counts, Fault> {
    let [open_count, changed, sortkey, records, del, split, dellink] = words else {
        return Err(Fault::Unread);
    };
    Ok(Counts {
        open_count: two_bytes(*open_count)?,
        changed: one_byte(*changed)?,
        sortkey: one_byte(*sortkey)?,
        records: number(*records)?,
        del: number(*del)?,
        split: number(*split)?,
        dellink: place(*dellink)?,
    })
}

/// The numbers of a state behind these, but its roots.
#[derive(Clone, Copy)]
struct Lengths {
    key_file: u64,
    data_file: u64,
    empty: u64,
    key_empty: u64,
    auto_increment: u64,
    key_map: u64,
    recover_time: u64,
}

fn lengths_of(words: &[&str]) -> Result<Lengths, Fault> {
    let [key_file, data_file, empty, key_empty, auto, key_map, time] = words else {
        return Err(Fault::Unread);
    };
    Ok(Lengths {
        key_file: number(*key_file)?,
        data_file: number(*data_file)?,
        empty: number(*empty)?,
        key_empty: number(*key_empty)?,
        auto_increment: number(*auto)?,
        key_map: number(*key_map)?,
        recover_time: number(*time)?,
    })
}

// The state of these numbers, with the other bytes of the stored one. The numbers are read before there is
// anything to drop.
fn given(words: &Words, defs: &Defs, numbers: &[&str]) -> Result<State, Fault>
    requires { IsSound defs.now }
    ensures { IfOk result (λ s. length s.rest ≡ rest_length defs.now) }
{
    if numbers.len() < 14 {
        return Err(Fault::Unread);
    }
    let counts = counts_of(&numbers[..7])?;
    let lengths = lengths_of(&numbers[7..14])?;
    let stored = stored_state(words.alloc(), defs)?;
    Ok(State {
        open_count: counts.open_count,
        changed: counts.changed,
        sortkey: counts.sortkey,
        records: counts.records,
        del: counts.del,
        split: counts.split,
        dellink: counts.dellink,
        key_file_length: lengths.key_file,
        data_file_length: lengths.data_file,
        empty: lengths.empty,
        key_empty: lengths.key_empty,
        auto_increment: lengths.auto_increment,
        roots: Sequence::new(words.places(&numbers[14..])?),
        key_map: lengths.key_map,
        recover_time: lengths.recover_time,
        rest: stored.rest,
    })
}

/// `print_state DEFINITIONS NUMBER..`: the header with a state of these numbers, in the order of `state` but
/// with the roots last, and with the other bytes of the stored state.
fn print(words: &Words, args: &[&str]) -> Result<String, Fault> {
    let [defs, numbers @ ..] = args else {
        return Err(Fault::Unread);
    };
    let defs = words.definitions(*defs)?;
    let alloc = words.alloc();
    let state = given(words, &defs, numbers)?;
    let roots = state.roots.as_slice();
    if roots.len() != defs.keys.as_slice().len() || !are_places(roots) {
        return Err(Fault::Unread);
    }
    if state.dellink == Some(u64::MAX) {
        return Err(Fault::Unread);
    }
    Ok(word(alloc, &print_state(alloc, &defs, &state)?)?)
}

/// The answer to a call of this module, and None where the name is no such call.
pub fn answer(words: &Words, name: &str, args: &[&str]) -> Option<Result<String, Fault>> {
    match name {
        "first_page" => Some(page_place(words, args)),
        "state" => Some(state(words, args)),
        "stored_state" => Some(stored(words, args)),
        "print_state" => Some(print(words, args)),
        "mark" => Some(mark(words, args)),
        _ => None,
    }
}
