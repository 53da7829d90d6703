//! Data files of static tables that change, over files that tell nothing.
ghost use Rattle.std.specs.Prelude.{◌≡◌, true, IfOk};
ghost use Rattle.myi_defs.specs.Sound.{IsSound};
ghost use Rattle.myi_defs.specs.declared.types.RowFormat.TheVariants.{Static};

use crate::tables::{
    NAME, keep, push_done, push_numbers, push_place, push_row, row, state_of, stored,
};
use case_lines::{Fault, Untold, Words, number, push_file, sides};
use myi_defs::{Defs, RowFormat};
use myi_header::State;
use myi_io::Files;
use myi_slots::StaticFile;

// Makes a call, and writes its answer.
fn push_answer(
    out: &mut String,
    words: &Words,
    defs: &Defs,
    files: &mut Untold,
    file: &mut StaticFile,
    call: &str,
) -> Result<(), Fault>
    requires sound { IsSound defs.now }
    requires same { file.old.defs ≡ defs.now }
{
    let (name, args) = sides(call, ':')?;
    match name {
        "insert" => push_place(out, file.insert(files, &row(words, defs, args)?)),
        "insert_at_end" => push_place(out, file.insert_at_end(files, &row(words, defs, args)?)),
        "delete" => push_done(out, file.delete_at(files, number(args)?)),
        "read" => push_row(out, file.read_at(files, number(args)?)),
        "update" => {
            let (at, values) = sides(args, ':')?;
            let row = row(words, defs, values)?;
            push_done(out, file.update_at(files, number(at)?, &row))
        }
        _ => Err(Fault::Unread),
    }
}

// Makes a call on the file of a table with this state, and keeps its numbers then.
fn push_call(
    out: &mut String,
    words: &Words,
    defs: &Defs,
    files: &mut Untold,
    state: &mut State,
    call: &str,
) -> Result<(), Fault>
    requires sound { IsSound defs.now }
    requires format { defs.now.format ≡ Static }
{
    let mut file = StaticFile::new(words.alloc(), NAME, defs, state)?;
    push_answer(out, words, defs, files, &mut file, call)?;
    keep(state, file.counts());
    Ok(())
}

fn is_static(format: RowFormat) -> bool
    ensures { result ≡ true → format ≡ Static }
{
    match format {
        RowFormat::Static => true,
        RowFormat::Dynamic => false,
    }
}

/// `rows DEFINITIONS FAULTS RECORDS,DEL,SPLIT,EMPTY DELLINK BYTES CALL..`: what each call on the data file of a static
/// table answers, the table's numbers then, the count of faults, and the file. A call is `insert:VALUE,..`,
/// `insert_at_end:VALUE,..`, `update:AT:VALUE,..`, `delete:AT` or `read:AT`.
fn rows(words: &Words, args: &[&str]) -> Result<String, Fault> {
    let [defs, faults, numbers, dellink, bytes, calls @ ..] = args else {
        return Err(Fault::Unread);
    };
    let defs = words.definitions(*defs)?;
    let bytes = words.bytes(*bytes)?;
    let mut state = state_of(words, &defs, *numbers, *dellink, bytes.len() as u64)?;
    let mut files = stored(words, *faults, bytes)?;
    let mut out = String::new(words.alloc());
    if !is_static(defs.format) {
        return Err(Fault::Unread);
    }
    for call in calls {
        push_call(&mut out, words, &defs, &mut files, &mut state, *call)?;
        out.push_str("; ")?;
    }
    push_numbers(&mut out, &state)?;
    write!(out, "; faults {}; ", files.fault_count())?;
    push_file(&mut out, &files.files, NAME)?;
    Ok(out)
}

/// The answer to a call of this module, and None where the name is no such call.
pub fn answer(words: &Words, name: &str, args: &[&str]) -> Option<Result<String, Fault>> {
    match name {
        "rows" => Some(rows(words, args)),
        _ => None,
    }
}
