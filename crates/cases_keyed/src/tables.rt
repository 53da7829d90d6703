//! Calls on a table with keys, over files that tell nothing.
ghost use Rattle.std.specs.Prelude.{◌≡◌, ◌≤◌, ◌<◌, true, length, IfOk};
ghost use Rattle.myi_defs.specs.Sound.{IsSound};
ghost use Rattle.myi_defs.specs.ReadDefs.{AreDefs};
ghost use Rattle.myi_keycache.specs.Setup.{IsSetup};
ghost use Rattle.myi_pack.specs.Spelling.{fits};

use crate::answers::{push_done, push_load_fault, push_place, push_rows};
use crate::walks::{Walk, push_walk};
use case_lines::{Fault, PlaceText, Untold, Words, four_bytes, key_of_code, number, push_file};
use myi_base::Sequence;
use myi_check::check;
use myi_defs::{Defs, definitions_are_sound, print_defs, read_defs};
use myi_header::stored_state;
use myi_io::Files;
use myi_keycache::CacheSetup;
use myi_keys::KeyVal;
use myi_memfiles::MemFiles;
use myi_pack::{Row, fits};
use myi_table::{LoadFault, Range, Table};
use std::alloc::Global;

/// The name of the table, and the names of its files.
pub const NAME: &str = "t";

const DATA: &str = "t.MYD";

const INDEX: &str = "t.MYI";

/// The word for no bound of a range.
const NO_BOUND: &str = "*";

/// The most pages that a key cache keeps.
const MOST_BLOCKS: u32 = 65_536;

/// A key cache of so many pages, which are all kept alike.
pub fn setup(word: &str) -> Result<CacheSetup, Fault>
    ensures { IfOk result IsSetup }
{
    let blocks = four_bytes(word)?;
    if blocks == 0 || blocks > MOST_BLOCKS {
        return Err(Fault::Unread);
    }
    Ok(CacheSetup {
        blocks,
        division: 100,
        age: 300,
    })
}

/// The row of these values, which have commas between them.
pub fn row(words: &Words, defs: &Defs, values: &str) -> Result<Row, Fault>
    requires { IsSound defs.now }
    ensures { IfOk result (λ row. fits defs.now row ≡ true) }
{
    let mut row = Vec::new(words.alloc());
    for value in values.split(',') {
        row.push(Sequence::new(words.bytes(value)?))?;
    }
    let row = Sequence::new(row);
    if fits(defs, &row) {
        Ok(row)
    } else {
        Err(Fault::Unread)
    }
}

// A key by its code, and None for a word that is no bound.
fn bound(words: &Words, word: &str) -> Result<Option<KeyVal>, Fault> {
    if word == NO_BOUND {
        return Ok(None);
    }
    let key = key_of_code(words, word)?;
    Ok(Some(key))
}

/// The rows between two bounds of a key of a table with these definitions, counted from 1.
pub fn range_of(words: &Words, defs: &Defs, key: &str, from: &str, to: &str) -> Result<Range, Fault>
    ensures { IfOk result (λ range. range.key < length defs.now.keys) }
{
    let number = four_bytes(key)? as usize;
    if number == 0 || number > defs.keys.as_slice().len() {
        return Err(Fault::Unread);
    }
    Ok(Range {
        key: number - 1,
        from: bound(words, from)?,
        to: bound(words, to)?,
    })
}

/// Makes a call on a table, and writes its answer.
pub fn push_answer(
    out: &mut String,
    words: &Words,
    files: &mut Untold,
    table: &mut Table,
    call: &str,
) -> Result<(), Fault> {
    let parts: Vec<&str> = call.split(':').collect(words.alloc())?;
    match parts.as_slice() {
        ["insert", values] => {
            let row = row(words, table.defs(), *values)?;
            push_place(out, table.insert(files, &row))
        }
        ["insert_at_end", values] => {
            let row = row(words, table.defs(), *values)?;
            push_place(out, table.insert_at_end(files, &row))
        }
        ["delete", at] => push_done(out, table.delete(files, number(*at)?)),
        ["update", at, values] => {
            let row = row(words, table.defs(), *values)?;
            push_done(out, table.update(files, number(*at)?, &row))
        }
        ["scan"] => push_rows(out, table.scan(files)),
        ["range", key, from, to] => {
            let range = range_of(words, table.defs(), *key, *from, *to)?;
            push_rows(out, table.range(files, &range))
        }
        ["walk", key, from, to, most, at] => {
            let range = range_of(words, table.defs(), *key, *from, *to)?;
            let walk = Walk {
                range,
                most: four_bytes(*most)?,
                at: number(*at)?,
            };
            push_walk(out, words.alloc(), files, table, &walk)
        }
        ["flush"] if table.broken().is_none() => push_done(out, table.flush(files)),
        _ => Err(Fault::Unread),
    }
}

/// The files of an empty table, of which the listed calls fail.
pub fn empty_files(words: &Words, defs: &Defs, faults: &str) -> Result<Untold, Fault>
    requires { AreDefs defs.now }
{
    let alloc = words.alloc();
    let index = (String::from_str(alloc, INDEX)?, print_defs(alloc, defs)?);
    let data = (String::from_str(alloc, DATA)?, Vec::new(alloc));
    let files = MemFiles::new(alloc, vec![in alloc; index, data]?, words.numbers(faults)?)?;
    Ok(Untold { files })
}

/// Makes calls on a table one after the other.
pub fn push_calls(
    out: &mut String,
    words: &Words,
    files: &mut Untold,
    table: &mut Table,
    calls: &[&str],
) -> Result<(), Fault> {
    for call in calls {
        push_answer(out, words, files, table, *call)?;
        out.push_str("; ")?;
    }
    Ok(())
}

// Makes calls on a table, and closes it.
fn push_answers(
    out: &mut String,
    words: &Words,
    files: &mut Untold,
    table: Table,
    calls: &[&str],
) -> Result<(), Fault> {
    let mut table = table;
    push_calls(out, words, files, &mut table, calls)?;
    out.push_str("close ")?;
    push_done(out, table.close(files))
}

// Loads the table, makes the calls and closes it.
fn push_session(
    out: &mut String,
    words: &Words,
    files: &mut Untold,
    setup: CacheSetup,
    calls: &[&str],
) -> Result<(), Fault>
    requires { IsSetup setup }
{
    match Table::load(words.alloc(), files, NAME, setup) {
        Ok(table) => push_answers(out, words, files, table, calls),
        Err(fault) => push_load_fault(out, fault),
    }
}

// Writes the numbers of the table in the header of its index file.
fn push_numbers(out: &mut String, words: &Words, files: &Untold) -> Result<(), Fault> {
    definitions_are_sound();
    let Some(index) = files.files.get(INDEX) else {
        return Err(Fault::Unread);
    };
    let Ok(defs) = read_defs(words.alloc(), index) else {
        return Err(Fault::Unread);
    };
    let state = stored_state(words.alloc(), &defs)?;
    let dellink = PlaceText(state.dellink);
    write!(out, "{},{},{},", state.records, state.del, state.split)?;
    Ok(write!(out, "{},{} {dellink}", state.empty, state.data_file_length)?)
}

// Writes whether a check finds the files clean.
fn push_check(out: &mut String, words: &Words, files: &mut Untold) -> Result<(), Fault> {
    match check(words.alloc(), files, NAME) {
        Ok(found) if found.is_empty() => Ok(out.push_str("; clean")?),
        Ok(found) => Ok(write!(out, "; {} findings", found.len())?),
        Err(_) => Ok(out.push_str("; not checked")?),
    }
}

/// `table DEFINITIONS BLOCKS FAULTS CALL.. [/ CALL..]..`: what each call on a table answers, which begins without a row. It is
/// loaded before the first call and behind each `/`, and closed before each `/` and behind the last call. Behind all, its numbers,
/// the count of faults, its data file, and whether a check finds it clean. Its key cache keeps BLOCKS pages.
pub fn table(words: &Words, args: &[&str]) -> Result<String, Fault> {
    definitions_are_sound();
    let [defs, blocks, faults, calls @ ..] = args else {
        return Err(Fault::Unread);
    };
    let defs = words.definitions(*defs)?;
    let setup = setup(*blocks)?;
    let mut files = empty_files(words, &defs, *faults)?;
    let mut out = String::new(words.alloc());
    for session in calls.split(|word| *word == "/") {
        push_session(&mut out, words, &mut files, setup, session)?;
        out.push_str("; ")?;
    }
    push_numbers(&mut out, words, &files)?;
    write!(out, "; faults {}; ", files.fault_count())?;
    push_file(&mut out, &files.files, DATA)?;
    push_check(&mut out, words, &mut files)?;
    Ok(out)
}
