//! Calls on a MERGE list, over files that tell nothing.
ghost use Rattle.std.specs.Prelude.{◌≡◌, ◌<◌, true, length, slice_get, IfOk, IfSome};
ghost use Rattle.myi_keycache.specs.Setup.{IsSetup};
ghost use Rattle.myi_pack.specs.Spelling.{fits};
ghost use Rattle.myi_table.specs.Table.{OpenTable, defs_in};

use crate::answers::{
    push_counters, push_done, push_merge_fault, push_names, push_place, push_rows,
};
use case_lines::{Fault, Untold, Words, file_name, four_bytes, halves, key_of_code, push_file};
use myi_base::Sequence;
use myi_check::check;
use myi_io::Files;
use myi_keycache::CacheSetup;
use myi_keys::KeyVal;
use myi_merge::Merge;
use myi_pack::{Row, fits};
use myi_table::Range;

/// The name of the list.
const NAME: &str = "all";

/// How the name of a data file ends, and that of an index file.
const DATA: &str = ".MYD";

const INDEX: &str = ".MYI";

/// The word for no bound of a range.
const NO_BOUND: &str = "*";

/// The most pages that a key cache keeps.
const MOST_BLOCKS: u32 = 65_536;

// A key cache of so many pages, which are all kept alike.
fn setup(word: &str) -> Result<CacheSetup, Fault>
    ensures { IfOk result IsSetup }
{
    let blocks = four_bytes(word)?;
    if blocks == 0 || blocks > MOST_BLOCKS {
        return Err(Fault::Unread);
    }
    Ok(CacheSetup {
        blocks,
        division: 100,
        age: 300,
    })
}

// The row of these values, which have commas between them.
fn row(words: &Words, merge: &Merge, values: &str) -> Result<Row, Fault>
    ensures { IfOk result (λ row. IfSome (slice_get merge.now.tables 0) (λ (t : OpenTable).
        fits (defs_in t) row ≡ true)) }
{
    let mut row = Vec::new(words.alloc());
    for value in values.split(',') {
        row.push(Sequence::new(words.bytes(value)?))?;
    }
    let row = Sequence::new(row);
    if fits(merge.defs(), &row) {
        Ok(row)
    } else {
        Err(Fault::Unread)
    }
}

// A key by its code, and None for a word that is no bound.
fn bound(words: &Words, word: &str) -> Result<Option<KeyVal>, Fault> {
    if word == NO_BOUND {
        return Ok(None);
    }
    let key = key_of_code(words, word)?;
    Ok(Some(key))
}

// The rows between two bounds of a key, counted from 1.
fn range(words: &Words, merge: &Merge, key: &str, from: &str, to: &str) -> Result<Range, Fault>
    ensures { IfOk result (λ range. IfSome (slice_get merge.now.tables 0) (λ (t : OpenTable).
        range.key < length (defs_in t).keys)) }
{
    let number = four_bytes(key)? as usize;
    if number == 0 || number > merge.defs().keys.as_slice().len() {
        return Err(Fault::Unread);
    }
    Ok(Range {
        key: number - 1,
        from: bound(words, from)?,
        to: bound(words, to)?,
    })
}

// Makes a call on a list, and writes its answer.
fn push_answer(
    out: &mut String,
    words: &Words,
    files: &mut Untold,
    merge: &mut Merge,
    call: &str,
) -> Result<(), Fault> {
    let parts: Vec<&str> = call.split(':').collect(words.alloc())?;
    match parts.as_slice() {
        ["insert", values] => {
            let row = row(words, merge, *values)?;
            push_place(out, merge.insert(files, &row))
        }
        ["scan"] => push_rows(out, merge.scan(files)),
        ["range", key, from, to] => {
            let range = range(words, merge, *key, *from, *to)?;
            push_rows(out, merge.range(files, &range))
        }
        ["counters"] => push_counters(out, merge.counters()),
        _ => Err(Fault::Unread),
    }
}

// Makes calls on a list one after the other, and closes it.
fn push_answers(
    out: &mut String,
    words: &Words,
    files: &mut Untold,
    merge: Merge,
    calls: &[&str],
) -> Result<(), Fault> {
    let mut merge = merge;
    for call in calls {
        push_answer(out, words, files, &mut merge, *call)?;
        out.push_str("; ")?;
    }
    out.push_str("close ")?;
    push_done(out, merge.close(files))
}

// Loads the list, makes the calls and closes it.
fn push_session(
    out: &mut String,
    words: &Words,
    files: &mut Untold,
    setup: CacheSetup,
    calls: &[&str],
) -> Result<(), Fault>
    requires { IsSetup setup }
{
    match Merge::load(words.alloc(), files, NAME, setup) {
        Ok(merge) => push_answers(out, words, files, merge, calls),
        Err(fault) => push_merge_fault(out, &fault),
    }
}

// Writes whether a check finds the files of a table clean.
fn push_check(
    out: &mut String,
    words: &Words,
    files: &mut Untold,
    name: &str,
) -> Result<(), Fault> {
    match check(words.alloc(), files, name) {
        Ok(found) if found.is_empty() => Ok(write!(out, " {name} clean")?),
        Ok(found) => Ok(write!(out, " {name} {} findings", found.len())?),
        Err(_) => Ok(write!(out, " {name} not checked")?),
    }
}

// Writes what a file holds where it is a data file, and whether the table of an index file is clean.
fn push_left(out: &mut String, words: &Words, files: &mut Untold, file: &str) -> Result<(), Fault> {
    if file.ends_with(DATA) {
        out.push(' ')?;
        push_file(out, &files.files, file)?;
    }
    match file.strip_suffix(INDEX) {
        Some(name) => push_check(out, words, files, name),
        None => Ok(()),
    }
}

/// `merge BLOCKS FAULTS FILE.. -- CALL.. [/ CALL..]..`: what each call on the list `all` answers. It is loaded before
/// the first call and behind each `/`, and closed before each `/` and behind the last call. Behind all the count of
/// faults, and of the given files the data files, and of the index files whether a check finds the table clean. Each
/// key cache keeps BLOCKS pages.
pub fn merge(words: &Words, args: &[&str]) -> Result<String, Fault> {
    let (before, calls) = halves(args)?;
    let [blocks, faults, given @ ..] = before else {
        return Err(Fault::Unread);
    };
    let setup = setup(*blocks)?;
    let mut files = Untold {
        files: words.files(given, *faults)?,
    };
    let mut out = String::new(words.alloc());
    for session in calls.split(|word| *word == "/") {
        push_session(&mut out, words, &mut files, setup, session)?;
        out.push_str("; ")?;
    }
    write!(out, "faults {}", files.fault_count())?;
    for word in given {
        push_left(&mut out, words, &mut files, file_name(*word))?;
    }
    Ok(out)
}

/// `members NAME FAULTS FILE..`: how many tables a list has, and their names, or why it is not read.
pub fn members(words: &Words, args: &[&str]) -> Result<String, Fault> {
    let [name, faults, given @ ..] = args else {
        return Err(Fault::Unread);
    };
    let mut files = Untold {
        files: words.files(given, *faults)?,
    };
    let mut out = String::new(words.alloc());
    match Merge::members(words.alloc(), &mut files, *name) {
        Ok(names) => push_names(&mut out, &names)?,
        Err(fault) => push_merge_fault(&mut out, &fault)?,
    }
    Ok(out)
}
