//! The turn of a table that is checked.
ghost use Rattle.std.specs.Prelude.{◌≡◌, ◌≢◌, false, string_bytes, IfOk, IfErr, OnOk, OnErr, IsTrue};
ghost use Rattle.myi_base.specs.Holding.{IfTold, Told};
ghost use Rattle.myi_base.specs.Output.{Appends, AppendsPart};
ghost use Rattle.myi_base.specs.Causes.{HasCause};
ghost use Rattle.myi_check.specs.Checking.{findings_in};
ghost use Rattle.myisamkit.specs.Statuses.{IsFault};
ghost use Rattle.myisamkit.specs.Lines as spec;
ghost use Rattle.myisamkit.specs.Turns.{check_turn, checked_text, checked_status, unless_silent};
ghost use Rattle.myisamkit.specs.Turns.{CheckDone, CheckStops};

use crate::lines::{finding_lines, ok_line};
use crate::options::Options;
use crate::recover::{not_worked_on, recover_table};
use crate::say::say;
use crate::status::{Status, Stop};
use myi_check::check;
use myi_io::{Files, Sink};
use myi_shell::{Gate, Host};
use std::alloc::{AllocError, Global};
use std::thread::Threads;

/// Checks a table and says what was found. Where something was, and a repair is forced, the table is
/// repaired then.
pub(crate) fn check_table<R: Threads + Sync, G: Gate, F: Files, O: Sink>(
    host: &Host<'_, R, G>,
    files: &mut F,
    out: &mut O,
    options: &Options,
    name: &str,
    now: u64,
) -> Result<Status, Stop>
    requires { IsTrue F.writable }
    ensures status { IfOk result (λ s. IfTold (F.holds files.old) (λ m.
        s ≡ (check_turn options.now now name.now m).status)) }
    ensures said { OnOk result (IfTold (F.holds files.old) (λ m. IfTold (O.written out.old)
        (Appends (check_turn options.now now name.now m).text (O.written out.new)))) }
    ensures part { OnErr result (IfTold (F.holds files.old) (λ m. IfTold (O.written out.old)
        (AppendsPart (check_turn options.now now name.now m).text (O.written out.new)))) }
    ensures done { OnOk result (Told (F.holds files.old) (F.holds files.new)
        (CheckDone options.now now name.now)) }
    ensures stops { IfErr result (λ stop. Told (F.holds files.old) (F.holds files.new)
        (CheckStops options.now now (F.faults files.old) (F.faults files.new) name.now stop)) }
    ensures plain { IfOk result (λ s. IsFault s → ⊥) }
    ensures usage { IfOk result (λ s. s ≢ Status.Usage) }
    ensures findings { IfOk result (λ s. s ≡ Status.Findings → options.now.force ≡ false) }
    ensures file { HasCause Stop.File (F.faults files.old) (F.faults files.new) result }
    ensures sink { HasCause Stop.Sink (O.faults out.old) (O.faults out.new) result }
{
    let (status, text) = look(host.alloc, files, options, name)?;
    say(out, text.as_str())?;
    if status == Status::Findings && options.force {
        let options = options.without_extend();
        return recover_table(host, files, out, &options, name, now);
    }
    Ok(status)
}

// Checks a table and answers the status and the lines.
fn look<F: Files>(
    alloc: Global,
    files: &mut F,
    options: &Options,
    name: &str,
) -> Result<(Status, String), Stop>
    ensures said { IfOk result (λ r. IfTold (F.holds files.old) (λ m.
        string_bytes r.1 ≡ checked_text options.now name.now (findings_in name.now m))) }
    ensures status { IfOk result (λ r. IfTold (F.holds files.old) (λ m.
        r.0 ≡ checked_status (findings_in name.now m))) }
    ensures plain { IfOk result (λ r. IsFault r.0 → ⊥) }
    ensures usage { IfOk result (λ r. r.0 ≢ Status.Usage) }
    ensures holds { F.holds files.new ≡ F.holds files.old }
    ensures sink { IfErr result (λ stop. stop ≢ Stop.Sink) }
    ensures cause { HasCause Stop.File (F.faults files.old) (F.faults files.new) result }
{
    match check(alloc, files, name) {
        Ok(found) if found.is_empty() => Ok((Status::Ok, success_line(alloc, options, name)?)),
        Ok(found) => Ok((Status::Findings, finding_lines(alloc, name, &found)?)),
        Err(fault) => not_worked_on(alloc, name, fault.into()),
    }
}

// The line on a table in which nothing was found, where such a line is wanted.
fn success_line(alloc: Global, options: &Options, name: &str) -> Result<String, AllocError>
    ensures { IfOk result (λ line. string_bytes line
        ≡ unless_silent options.now.silent (spec.ok_line name.now)) }
{
    if options.silent {
        Ok(String::new(alloc))
    } else {
        ok_line(alloc, name)
    }
}
