//! The top call.
ghost use Rattle.std.specs.Prelude.{◌≡◌, ◌≢◌, ◌⊎◌, ◌↔◌, IfOk, IfErr, OnOk, OnErr, IsTrue};
ghost use Rattle.myi_base.specs.Holding.{IfTold, Told};
ghost use Rattle.myi_base.specs.Output.{Appends, AppendsPart};
ghost use Rattle.myi_base.specs.Causes.{Rose, HasCause};
ghost use Rattle.myisamkit.specs.Words.{request_of, usage};
ghost use Rattle.myisamkit.specs.Stops.{status_of_stop, IfSink};
ghost use Rattle.myisamkit.specs.Statuses.{IsFault};
ghost use Rattle.myisamkit.specs.Runs.{MayFindAny, Leaves, KeepsOthers, Says, SaysText, IsOrFault};
ghost use Rattle.myisamkit.specs.Runs.{SaidText, SaidPart, HasStatus, FailsInScript};
ghost use Rattle.myisamkit.specs.Recovers.{Recovers};
ghost use Rattle.myisamkit.specs.Lines as spec;

use crate::create::create_from_text;
use crate::dump::dump_table;
use crate::lines::usage_line;
use crate::make::make_of_rows;
use crate::say::say;
use crate::shell::run_shell;
use crate::status::{Status, Stop};
use crate::tables::run_tables;
use crate::words::{Plan, read_words};
use myi_io::{Files, Sink};
use myi_shell::{Gate, Host};
use std::alloc::Global;
use std::thread::Threads;

/// Does what the words ask for, prints what it did, and answers how it went. `words` are the words
/// after the program's name; `now` is the moment, in seconds since 1970. Workers run on threads of `rt`;
/// `gate` is called before and after each step of a script.
pub fn kit<R: Threads + Sync, F: Files, O: Sink, G: Gate>(
    rt: &R,
    alloc: Global,
    words: &[String],
    files: &mut F,
    out: &mut O,
    gate: &G,
    now: u64,
) -> Status
    requires { IsTrue F.writable }

    // A table that can be repaired is repaired, but where a file fault or want of memory is answered.
    ensures headline { Told (F.holds files.old) (F.holds files.new)
        (Recovers (request_of words.now) now result) }

    // What is written is the text that the words have on these files, or of a script such a text, with
    // numbers within their bounds; a fault may cut it off.
    ensures text { IfTold (F.holds files.old) (λ m.
        SaysText (request_of words.now) now (O.written out.old) (O.written out.new) result m) }

    // Where the words are no command, the line on usage is written, whatever the files tell; a fault
    // may cut it off.
    ensures usage_text { request_of words.now ≡ usage
        → Says spec.usage_line (O.written out.old) (O.written out.new) result }

    // Where no fault cuts the run off, the status is the defined one.
    ensures status { IfTold (F.holds files.old) (λ m.
        IsOrFault (request_of words.now) now result m) }
    ensures usage { IsFault result ⊎ ((request_of words.now ≡ usage) ↔ (result ≡ Status.Usage)) }

    // That something was found is answered by a check without force, an analysis, sorting, or the
    // check of a table that is made, alone.
    ensures findings { result ≡ Status.Findings → MayFindAny (request_of words.now) }

    // The tables are done, or done up to the one in whose turn a fault came; what is repaired is
    // recovered, what is sorted is in order; the files of a table of `chk` are the old ones, or a new
    // data file beside the old or the new index file; other files stay.
    ensures files { Told (F.holds files.old) (F.holds files.new)
        (Leaves (request_of words.now) now (F.faults files.old) (F.faults files.new) result) }

    // Where the output fails in a script, its tables are closed behind the round whose lines were being
    // written; where it fails and no script is run, nothing is changed.
    ensures fails { result ≡ Status.SinkFault → IfTold (F.holds files.old) (λ m.
        IfTold (F.holds files.new)
        (FailsInScript (request_of words.now) (O.written out.old) (O.written out.new) m)) }

    // At each status the files that are none of the tables' stay as they are.
    ensures others { Told (F.holds files.old) (F.holds files.new)
        (KeepsOthers (request_of words.now)) }

    // A fault has its cause.
    ensures file { result ≡ Status.FileFault → Rose (F.faults files.old) (F.faults files.new) }
    ensures sink { result ≡ Status.SinkFault → Rose (O.faults out.old) (O.faults out.new) }
{
    let host = Host { rt, alloc, gate };
    match run(&host, words, files, out, now) {
        Ok(status) => status,
        Err(stop) => stop.into(),
    }
}

fn run<R: Threads + Sync, G: Gate, F: Files, O: Sink>(
    host: &Host<'_, R, G>,
    words: &[String],
    files: &mut F,
    out: &mut O,
    now: u64,
) -> Result<Status, Stop>
    requires { IsTrue F.writable }
    ensures said { IfOk result (λ s. IfTold (F.holds files.old)
        (SaidText (request_of words.now) now s (O.written out.old) (O.written out.new))) }
    ensures part { OnErr result (IfTold (F.holds files.old)
        (SaidPart (request_of words.now) now (O.written out.old) (O.written out.new))) }
    ensures usage_said { OnOk result (request_of words.now ≡ usage → IfTold (O.written out.old)
        (Appends spec.usage_line (O.written out.new))) }
    ensures usage_part { OnErr result (request_of words.now ≡ usage → IfTold (O.written out.old)
        (AppendsPart spec.usage_line (O.written out.new))) }
    ensures status { IfOk result (λ s. IfTold (F.holds files.old)
        (HasStatus (request_of words.now) now s)) }
    ensures plain { IfOk result (λ s. IsFault s → ⊥) }
    ensures usage { IfOk result (λ s. (request_of words.now ≡ usage) ↔ (s ≡ Status.Usage)) }
    ensures findings { IfOk result (λ s. s ≡ Status.Findings → MayFindAny (request_of words.now)) }
    ensures done { IfOk result (λ s. Told (F.holds files.old) (F.holds files.new)
        (Leaves (request_of words.now) now (F.faults files.old) (F.faults files.new) s)) }
    ensures stops { IfErr result (λ stop. Told (F.holds files.old) (F.holds files.new)
        (Leaves (request_of words.now) now (F.faults files.old) (F.faults files.new)
        (status_of_stop stop))) }
    ensures fails { IfSink result (IfTold (F.holds files.old) (λ m. IfTold (F.holds files.new)
        (FailsInScript (request_of words.now) (O.written out.old) (O.written out.new) m))) }
    ensures file { HasCause Stop.File (F.faults files.old) (F.faults files.new) result }
    ensures sink { HasCause Stop.Sink (O.faults out.old) (O.faults out.new) result }
{
    match read_words(words) {
        Plan::Usage => {
            say(out, usage_line())?;
            Ok(Status::Usage)
        }
        Plan::Chk { options, words } => run_tables(host, files, out, &options, words, now),
        Plan::Create(name, text) => create_from_text(host.alloc, files, out, name, text),
        Plan::Dump(name) => dump_table(host.alloc, files, out, name),
        Plan::Make(rows, name) => make_of_rows(host.alloc, files, out, rows, name, now),
        Plan::Shell(job) => run_shell(host, files, out, &job),
    }
}
