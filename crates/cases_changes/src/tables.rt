//! What the cases of data files that change share: rows, numbers, and answers.
ghost use Rattle.std.specs.Prelude.{◌≡◌, true, IfOk};
ghost use Rattle.myi_defs.specs.Sound.{IsSound};
ghost use Rattle.myi_pack.specs.Spelling.{fits};

use case_lines::{Fault, PlaceText, Untold, Words, place, push_word};
use myi_base::Sequence;
use myi_defs::Defs;
use myi_header::{State, stored_state};
use myi_memfiles::MemFiles;
use myi_pack::{Row, fits};
use myi_slots::DataFault;
use myi_state::Counts;
use std::alloc::AllocError;

/// The name of the data file.
pub const NAME: &str = "t.MYD";

fn push_fault(out: &mut String, fault: DataFault) -> Result<(), Fault> {
    match fault {
        DataFault::NoRow { at } => Ok(write!(out, "no row {at}")?),
        DataFault::Full => Ok(out.push_str("full")?),
        DataFault::Damaged { at } => Ok(write!(out, "damaged {at}")?),
        DataFault::File => Ok(out.push_str("failed")?),
        DataFault::Memory => Err(Fault::Memory),
    }
}

pub fn push_place(out: &mut String, answer: Result<u64, DataFault>) -> Result<(), Fault> {
    match answer {
        Ok(at) => Ok(write!(out, "{at}")?),
        Err(fault) => push_fault(out, fault),
    }
}

pub fn push_done(out: &mut String, answer: Result<(), DataFault>) -> Result<(), Fault> {
    match answer {
        Ok(()) => Ok(out.push_str("ok")?),
        Err(fault) => push_fault(out, fault),
    }
}

fn push_values(out: &mut String, row: &Row) -> Result<(), AllocError> {
    out.push_str("row")?;
    for value in row.as_slice() {
        out.push(' ')?;
        push_word(out, value.as_slice())?;
    }
    Ok(())
}

pub fn push_row(out: &mut String, answer: Result<Row, DataFault>) -> Result<(), Fault> {
    match answer {
        Ok(row) => Ok(push_values(out, &row)?),
        Err(fault) => push_fault(out, fault),
    }
}

// The row of these values, which have commas between them.
pub fn row(words: &Words, defs: &Defs, values: &str) -> Result<Row, Fault>
    requires { IsSound defs.now }
    ensures { IfOk result (λ row. fits defs.now row ≡ true) }
{
    let mut row = Vec::new(words.alloc());
    for value in values.split(',') {
        row.push(Sequence::new(words.bytes(value)?))?;
    }
    let row = Sequence::new(row);
    if fits(defs, &row) {
        Ok(row)
    } else {
        Err(Fault::Unread)
    }
}

// The state that the words RECORDS,DEL,SPLIT,EMPTY and DELLINK say, of a data file of that length.
pub fn state_of(
    words: &Words,
    defs: &Defs,
    numbers: &str,
    dellink: &str,
    length: u64,
) -> Result<State, Fault>
    requires { IsSound defs.now }
{
    let numbers = words.numbers(numbers)?;
    let [records, del, split, empty] = numbers.as_slice() else {
        return Err(Fault::Unread);
    };
    let mut state = stored_state(words.alloc(), defs)?;
    state.records = *records;
    state.del = *del;
    state.split = *split;
    state.empty = *empty;
    state.data_file_length = length;
    state.dellink = place(dellink)?;
    Ok(state)
}

// A file of these bytes, of which the listed calls fail.
pub fn stored(words: &Words, faults: &str, bytes: Vec<u8>) -> Result<Untold, Fault> {
    let alloc = words.alloc();
    let stored = vec![in alloc; (String::from_str(alloc, NAME)?, bytes)]?;
    let files = MemFiles::new(alloc, stored, words.numbers(faults)?)?;
    Ok(Untold { files })
}

pub fn push_numbers(out: &mut String, state: &State) -> Result<(), AllocError> {
    write!(out, "{},{},{},", state.records, state.del, state.split)?;
    let dellink = PlaceText(state.dellink);
    write!(out, "{},{} {dellink}", state.empty, state.data_file_length)
}

/// Makes a state have these numbers.
pub fn keep(state: &mut State, counts: Counts) {
    state.records = counts.records;
    state.del = counts.del;
    state.split = counts.split;
    state.empty = counts.empty;
    state.data_file_length = counts.length;
    state.dellink = counts.dellink;
}
