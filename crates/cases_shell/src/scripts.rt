//! Scripts that are run on a table.
ghost use Rattle.std.specs.Prelude.{◌≡◌, ◌≤◌, None};
ghost use Rattle.myi_history.specs.Lines.{MayRun};
ghost use Rattle.myi_table.specs.Table.{defs_in};

use crate::answers::{push_end, push_printed};
use crate::tables::{files, load, push_closed, setup};
use case_lines::{Fault, Untold, Words, one_byte};
use myi_history::scripts_may_run;
use myi_memfiles::MemSink;
use myi_script::{Script, ScriptFault, parse_script};
use myi_shell::{Host, OpenGate, Target, run_script};
use myi_table::Table;
use std::thread::Threads;

/// The greatest setting of concurrent inserts.
const MOST_SETTING: u8 = 2;

// Runs a script on a table, closes it, and writes what was printed and how the run ended.
fn push_run<R: Threads + Sync>(
    rt: &R,
    out: &mut String,
    files: &mut Untold,
    table: Table,
    script: &Script,
    setting: u8,
) -> Result<(), Fault>
    requires setting { setting ≤ 2 }
    requires script { MayRun (defs_in table) script.now.lines }
    requires whole { table.broken ≡ None }
{
    let alloc = *out.allocator();
    let mut sink = MemSink::new(alloc, Vec::new(alloc))?;
    let host = Host {
        rt,
        gate: &OpenGate,
        alloc,
    };
    let answer = run_script(&host, Target::One(table), script, setting, files, &mut sink);
    push_printed(out, sink.written())?;
    push_end(out, answer)
}

// Reads a script and runs it, or writes the number of its first line that is not in the grammar.
fn push_script<R: Threads + Sync>(
    rt: &R,
    out: &mut String,
    files: &mut Untold,
    table: Table,
    text: &[u8],
    setting: u8,
) -> Result<(), Fault>
    requires setting { setting ≤ 2 }
    requires whole { table.broken ≡ None }
{
    scripts_may_run();
    match parse_script(*out.allocator(), text, table.defs(), false) {
        Ok(script) => push_run(rt, out, files, table, &script, setting),
        Err(ScriptFault::Line(line)) => Ok(write!(out, "line {line}")?),
        Err(ScriptFault::Memory) => Err(Fault::Memory),
    }
}

// `shell DEFINITIONS BLOCKS,DIVISION,AGE SETTING SCRIPT CALL..`: what a script prints and how it
// ends, on a table that these calls made and that is loaded with that setup of its key cache, and
// what it leaves of the table.
fn shell<R: Threads + Sync>(rt: &R, words: &Words, args: &[&str]) -> Result<String, Fault> {
    let [defs, setup_word, setting, text, calls @ ..] = args else {
        return Err(Fault::Unread);
    };
    let defs = words.definitions(*defs)?;
    let setup = setup(*setup_word)?;
    let setting = one_byte(*setting)?;
    if setting > MOST_SETTING {
        return Err(Fault::Unread);
    }
    let text = words.bytes(*text)?;
    let mut files = files(words, &defs, setup, calls)?;
    let table = load(words, &mut files, setup)?;
    let mut out = String::new(words.alloc());
    push_script(rt, &mut out, &mut files, table, &text, setting)?;
    out.push_str("; ")?;
    push_closed(&mut out, words, &mut files)?;
    Ok(out)
}

/// The answer to a call of this module, and None where the name is no such call.
pub fn answer<R: Threads + Sync>(
    rt: &R,
    words: &Words,
    name: &str,
    args: &[&str],
) -> Option<Result<String, Fault>> {
    match name {
        "shell" => Some(shell(rt, words, args)),
        _ => None,
    }
}
