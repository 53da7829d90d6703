//! The tables that scripts begin on, over files that tell nothing, and what is left of them.
ghost use Rattle.std.specs.Prelude.{◌≡◌, true, None, IfOk};
ghost use Rattle.myi_defs.specs.Sound.{IsSound};
ghost use Rattle.myi_defs.specs.ReadDefs.{AreDefs};
ghost use Rattle.myi_keycache.specs.Setup.{IsSetup};
ghost use Rattle.myi_pack.specs.Spelling.{fits};

use case_lines::{Fault, PlaceText, Untold, Words, four_bytes, number, push_file, sides, size};
use myi_base::Sequence;
use myi_check::check;
use myi_defs::{Defs, definitions_are_sound, print_defs, read_defs};
use myi_header::stored_state;
use myi_keycache::CacheSetup;
use myi_memfiles::MemFiles;
use myi_pack::{Row, fits};
use myi_table::{ChangeFault, LoadFault, Table};

/// The name of the table, and the names of its files.
const NAME: &str = "t";

const DATA: &str = "t.MYD";

const INDEX: &str = "t.MYI";

// Want of memory, or a change that a line may not begin with.
fn of_change(fault: ChangeFault) -> Fault {
    match fault {
        ChangeFault::Memory => Fault::Memory,
        _ => Fault::Unread,
    }
}

// Whether a key cache may have this setup.
fn is_setup(setup: CacheSetup) -> bool
    ensures { result ≡ true → IsSetup setup }
{
    1 <= setup.blocks
        && setup.blocks <= 65_536
        && 1 <= setup.division
        && setup.division <= 100
        && 100 <= setup.age
        && setup.age <= 1_000_000
}

/// A setup of a key cache, `BLOCKS,DIVISION,AGE`.
pub fn setup(word: &str) -> Result<CacheSetup, Fault>
    ensures { IfOk result IsSetup }
{
    let (blocks, others) = sides(word, ',')?;
    let (division, age) = sides(others, ',')?;
    let setup = CacheSetup {
        blocks: four_bytes(blocks)?,
        division: four_bytes(division)?,
        age: four_bytes(age)?,
    };
    if is_setup(setup) {
        Ok(setup)
    } else {
        Err(Fault::Unread)
    }
}

// The row of these values, which have commas between them.
fn row(words: &Words, defs: &Defs, values: &str) -> Result<Row, Fault>
    requires { IsSound defs.now }
    ensures { IfOk result (λ row. fits defs.now row ≡ true) }
{
    let mut row = Vec::new(words.alloc());
    for value in values.split(',') {
        row.push(Sequence::new(words.bytes(value)?))?;
    }
    let row = Sequence::new(row);
    if fits(defs, &row) {
        Ok(row)
    } else {
        Err(Fault::Unread)
    }
}

/// Loads the table.
pub fn load(words: &Words, files: &mut Untold, setup: CacheSetup) -> Result<Table, Fault>
    requires { IsSetup setup }
    ensures { IfOk result (λ table. table.broken ≡ None) }
{
    match Table::load(words.alloc(), files, NAME, setup) {
        Ok(table) => Ok(table),
        Err(LoadFault::Memory) => Err(Fault::Memory),
        Err(_) => Err(Fault::Unread),
    }
}

// Inserts a row so many times.
fn insert(
    words: &Words,
    files: &mut Untold,
    table: &mut Table,
    times: usize,
    values: &str,
) -> Result<(), Fault> {
    for _ in 0..times {
        let row = row(words, table.defs(), values)?;
        table.insert(files, &row).map_err(of_change)?;
    }
    Ok(())
}

// Makes a change of the table, which may not be refused.
fn change(words: &Words, files: &mut Untold, table: &mut Table, call: &str) -> Result<(), Fault> {
    let parts: Vec<&str> = call.split(':').collect(words.alloc())?;
    match parts.as_slice() {
        ["insert", values] => insert(words, files, table, 1, *values),
        ["rows", times, values] => insert(words, files, table, size(*times)?, *values),
        ["insert_at_end", values] => {
            let row = row(words, table.defs(), *values)?;
            table.insert_at_end(files, &row).map_err(of_change)?;
            Ok(())
        }
        ["delete", at] => table.delete(files, number(*at)?).map_err(of_change),
        ["update", at, values] => {
            let row = row(words, table.defs(), *values)?;
            table.update(files, number(*at)?, &row).map_err(of_change)
        }
        _ => Err(Fault::Unread),
    }
}

// The files of an empty table.
fn empty_files(words: &Words, defs: &Defs) -> Result<Untold, Fault>
    requires { AreDefs defs.now }
{
    let alloc = words.alloc();
    let index = (String::from_str(alloc, INDEX)?, print_defs(alloc, defs)?);
    let data = (String::from_str(alloc, DATA)?, Vec::new(alloc));
    let files = MemFiles::new(alloc, vec![in alloc; index, data]?, Vec::new(alloc))?;
    Ok(Untold { files })
}

/// The files of the table behind these changes.
pub fn files(words: &Words, defs: &Defs, setup: CacheSetup, calls: &[&str]) -> Result<Untold, Fault>
    requires defs { AreDefs defs.now }
    requires setup { IsSetup setup }
{
    let mut files = empty_files(words, defs)?;
    let mut table = load(words, &mut files, setup)?;
    for call in calls {
        change(words, &mut files, &mut table, *call)?;
    }
    table.close(&mut files).map_err(of_change)?;
    Ok(files)
}

// Writes the numbers of the table in the header of its index file.
fn push_numbers(out: &mut String, words: &Words, files: &Untold) -> Result<(), Fault> {
    definitions_are_sound();
    let Some(index) = files.files.get(INDEX) else {
        return Err(Fault::Unread);
    };
    let Ok(defs) = read_defs(words.alloc(), index) else {
        return Err(Fault::Unread);
    };
    let state = stored_state(words.alloc(), &defs)?;
    let dellink = PlaceText(state.dellink);
    write!(out, "{},{},{},", state.records, state.del, state.split)?;
    Ok(write!(out, "{},{} {dellink}", state.empty, state.data_file_length)?)
}

// Writes whether a check finds the files clean.
fn push_check(out: &mut String, words: &Words, files: &mut Untold) -> Result<(), Fault> {
    match check(words.alloc(), files, NAME) {
        Ok(found) if found.is_empty() => Ok(out.push_str("; clean")?),
        Ok(found) => Ok(write!(out, "; {} findings", found.len())?),
        Err(_) => Ok(out.push_str("; not checked")?),
    }
}

/// Writes the numbers of the closed table, its data file, and whether a check finds it clean.
pub fn push_closed(out: &mut String, words: &Words, files: &mut Untold) -> Result<(), Fault> {
    push_numbers(out, words, files)?;
    out.push_str("; ")?;
    push_file(out, &files.files, DATA)?;
    push_check(out, words, files)
}
