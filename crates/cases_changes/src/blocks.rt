//! Data files of dynamic tables that change, over files that tell nothing.
ghost use Rattle.std.specs.Prelude.{◌≡◌, true, IfOk};
ghost use Rattle.myi_defs.specs.Sound.{IsSound};
ghost use Rattle.myi_defs.specs.declared.types.RowFormat.TheVariants.{Dynamic};

use crate::tables::{
    NAME, keep, push_done, push_numbers, push_place, push_row, row, state_of, stored,
};
use case_lines::{Fault, Untold, Words, number, push_file, sides};
use myi_blocks::BlockFile;
use myi_defs::{Defs, RowFormat};
use myi_io::Files;

// Makes a call, and writes its answer.
fn push_answer(
    out: &mut String,
    words: &Words,
    defs: &Defs,
    files: &mut Untold,
    file: &mut BlockFile,
    call: &str,
) -> Result<(), Fault>
    requires sound { IsSound defs.now }
    requires same { file.old.file.defs ≡ defs.now }
    ensures same { file.new.file.defs ≡ defs.now }
{
    let (name, args) = sides(call, ':')?;
    match name {
        "insert" => push_place(out, file.insert(files, &row(words, defs, args)?)),
        "insert_at_end" => push_place(out, file.insert_at_end(files, &row(words, defs, args)?)),
        "delete" => push_done(out, file.delete_at(files, number(args)?)),
        "update" => {
            let (at, values) = sides(args, ':')?;
            let row = row(words, defs, values)?;
            push_done(out, file.update_at(files, number(at)?, &row))
        }
        "read" => push_row(out, file.read_at(files, number(args)?)),
        "row" => push_row(out, file.row_at(files, number(args)?)),
        _ => Err(Fault::Unread),
    }
}

fn is_dynamic(format: RowFormat) -> bool
    ensures { result ≡ true → format ≡ Dynamic }
{
    match format {
        RowFormat::Static => false,
        RowFormat::Dynamic => true,
    }
}

// Makes calls one after the other, and writes their answers.
fn push_answers(
    out: &mut String,
    words: &Words,
    defs: &Defs,
    files: &mut Untold,
    file: &mut BlockFile,
    calls: &[&str],
) -> Result<(), Fault>
    requires sound { IsSound defs.now }
    requires same { file.old.file.defs ≡ defs.now }
{
    for call in calls {
        push_answer(out, words, defs, files, file, *call)?;
        out.push_str("; ")?;
    }
    Ok(())
}

/// `blocks DEFINITIONS FAULTS RECORDS,DEL,SPLIT,EMPTY DELLINK BYTES CALL..`: what each call on the data file of a
/// dynamic table answers, the table's numbers then, the count of faults, and the file. A call is `insert:VALUE,..`,
/// `insert_at_end:VALUE,..`, `delete:AT`, `update:AT:VALUE,..`, `read:AT` or `row:AT`.
fn blocks(words: &Words, args: &[&str]) -> Result<String, Fault> {
    let [defs, faults, numbers, dellink, bytes, calls @ ..] = args else {
        return Err(Fault::Unread);
    };
    let defs = words.definitions(*defs)?;
    let bytes = words.bytes(*bytes)?;
    let mut state = state_of(words, &defs, *numbers, *dellink, bytes.len() as u64)?;
    let mut files = stored(words, *faults, bytes)?;
    let mut out = String::new(words.alloc());
    if !is_dynamic(defs.format) {
        return Err(Fault::Unread);
    }
    let mut file = BlockFile::new(words.alloc(), NAME, &defs, &state)?;
    push_answers(&mut out, words, &defs, &mut files, &mut file, calls)?;
    keep(&mut state, file.counts());
    push_numbers(&mut out, &state)?;
    write!(out, "; faults {}; ", files.fault_count())?;
    push_file(&mut out, &files.files, NAME)?;
    Ok(out)
}

/// The answer to a call of this module, and None where the name is no such call.
pub fn answer(words: &Words, name: &str, args: &[&str]) -> Option<Result<String, Fault>> {
    match name {
        "blocks" => Some(blocks(words, args)),
        _ => None,
    }
}
