//! Whole runs of the top call.
ghost use Rattle.std.specs.Prelude.{IsTrue};

use crate::short::ShortFiles;
use case_lines::{Fault, Untold, Words, halves, number, push_files};
use myi_io::Files;
use myi_memfiles::MemSink;
use myi_shell::OpenGate;
use myisamkit::{Status, kit};
use std::str;
use std::thread::Threads;

/// What a run prints and answers, whose output fails at these writes: the status, what is printed, the count of
/// faults.
fn answered<R: Threads + Sync, F: Files>(
    rt: &R,
    words: &Words,
    now: &str,
    files: &mut F,
    write_faults: &str,
    asked: &[&str],
) -> Result<String, Fault>
    requires { IsTrue F.writable }
{
    let now = number(now)?;
    let mut sink = MemSink::new(words.alloc(), words.numbers(write_faults)?)?;
    let asked = words.texts(asked)?;
    let status = kit(rt, words.alloc(), &asked, files, &mut sink, &OpenGate, now);
    if status == Status::Memory {
        return Err(Fault::Memory);
    }
    let printed = str::from_utf8(sink.written()).or(Err(Fault::Unread))?;
    let faults = files.fault_count();
    let out = format!(in words.alloc(); "{status:?} {printed:?} faults {faults}")?;
    Ok(out)
}

/// `kit NOW FAULTS WRITE_FAULTS FILE.. -- WORD..`: the status, what is printed, the count of faults, and what the
/// files hold.
fn run<R: Threads + Sync>(rt: &R, words: &Words, args: &[&str]) -> Result<String, Fault> {
    let [now, faults, write_faults, others @ ..] = args else {
        return Err(Fault::Unread);
    };
    let (given, asked) = halves(others)?;
    let mut files = words.files(given, *faults)?;
    let mut out = answered(rt, words, *now, &mut files, *write_faults, asked)?;
    push_files(&mut out, &files, given)?;
    Ok(out)
}

/// `kit_short NOW NAME LENGTH FILE.. -- WORD..`: the same over files that tell nothing, of which the one of that
/// name says that it has so many bytes.
fn run_short<R: Threads + Sync>(rt: &R, words: &Words, args: &[&str]) -> Result<String, Fault> {
    let [now, name, length, others @ ..] = args else {
        return Err(Fault::Unread);
    };
    let (given, asked) = halves(others)?;
    let mut files = ShortFiles {
        files: Untold {
            files: words.files(given, "-")?,
        },
        name: String::from_str(words.alloc(), *name)?,
        length: number(*length)?,
    };
    let mut out = answered(rt, words, *now, &mut files, "-", asked)?;
    push_files(&mut out, &files.files.files, given)?;
    Ok(out)
}

/// The answer to a call of this module, and None where the name is no such call.
pub fn answer<R: Threads + Sync>(
    rt: &R,
    words: &Words,
    name: &str,
    args: &[&str],
) -> Option<Result<String, Fault>> {
    match name {
        "kit" => Some(run(rt, words, args)),
        "kit_short" => Some(run_short(rt, words, args)),
        _ => None,
    }
}
