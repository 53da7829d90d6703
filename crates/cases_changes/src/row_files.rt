//! Data files of tables that change, in either format, over files that tell nothing.
ghost use Rattle.std.specs.Prelude.{◌≡◌};
ghost use Rattle.myi_defs.specs.Sound.{IsSound};

use crate::tables::{
    NAME, keep, push_done, push_numbers, push_place, push_row, row, state_of, stored,
};
use case_lines::{Fault, Untold, Words, number, push_file, sides};
use myi_defs::Defs;
use myi_header::State;
use myi_io::Files;
use myi_rows::RowFile;

// Makes a call, and writes its answer.
fn push_answer(
    out: &mut String,
    words: &Words,
    defs: &Defs,
    files: &mut Untold,
    file: &mut RowFile,
    call: &str,
) -> Result<(), Fault>
    requires sound { IsSound defs.now }
    requires same { file.old.file.defs ≡ defs.now }
    ensures same { file.new.file.defs ≡ defs.now }
{
    let (name, args) = sides(call, ':')?;
    match name {
        "insert" => push_place(out, file.insert(files, &row(words, defs, args)?)),
        "insert_at_end" => push_place(out, file.insert_at_end(files, &row(words, defs, args)?)),
        "delete" => push_done(out, file.delete_at(files, number(args)?)),
        "update" => {
            let (at, values) = sides(args, ':')?;
            let row = row(words, defs, values)?;
            push_done(out, file.update_at(files, number(at)?, &row))
        }
        "read" => push_row(out, file.read_at(files, number(args)?)),
        "row" => push_row(out, file.row_at(files, number(args)?)),
        _ => Err(Fault::Unread),
    }
}

// Makes calls one after the other, and writes their answers, each with the table's numbers then.
fn push_answers(
    out: &mut String,
    words: &Words,
    defs: &Defs,
    files: &mut Untold,
    state: &mut State,
    calls: &[&str],
) -> Result<(), Fault>
    requires { IsSound defs.now }
{
    let mut file = RowFile::new(words.alloc(), NAME, defs, state)?;
    for call in calls {
        push_answer(out, words, defs, files, &mut file, *call)?;
        keep(state, file.counts());
        out.push(' ')?;
        push_numbers(out, state)?;
        out.push_str(if file.holes() { " hole; " } else { "; " })?;
    }
    Ok(())
}

/// `changes DEFINITIONS FAULTS RECORDS,DEL,SPLIT,EMPTY DELLINK BYTES CALL..`: what each call on the data file of a
/// table answers, one object making them all, with the table's numbers then, and `hole` where a slot or block is deleted; the count of
/// faults, and the file. A call is one of those of `blocks`.
fn changes(words: &Words, args: &[&str]) -> Result<String, Fault> {
    let [defs, faults, numbers, dellink, bytes, calls @ ..] = args else {
        return Err(Fault::Unread);
    };
    let defs = words.definitions(*defs)?;
    let bytes = words.bytes(*bytes)?;
    let mut state = state_of(words, &defs, *numbers, *dellink, bytes.len() as u64)?;
    let mut files = stored(words, *faults, bytes)?;
    let mut out = String::new(words.alloc());
    push_answers(&mut out, words, &defs, &mut files, &mut state, calls)?;
    write!(out, "faults {}; ", files.fault_count())?;
    push_file(&mut out, &files.files, NAME)?;
    Ok(out)
}

/// The answer to a call of this module, and None where the name is no such call.
pub fn answer(words: &Words, name: &str, args: &[&str]) -> Option<Result<String, Fault>> {
    match name {
        "changes" => Some(changes(words, args)),
        _ => None,
    }
}
