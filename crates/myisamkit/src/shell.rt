//! Running a script on a table, or on the tables of a MERGE list.
ghost use Rattle.std.specs.Prelude.{◌≡◌, ◌≢◌, ◌≤◌, IfOk, IfErr, OnErr, IsTrue};
ghost use Rattle.myi_base.specs.Holding.{IfTold, Told};
ghost use Rattle.myi_base.specs.Causes.{HasCause};
ghost use Rattle.myi_keycache.specs.Setup.{IsSetup};
ghost use Rattle.myisamkit.specs.Stops.{status_of_stop, IfSink};
ghost use Rattle.myisamkit.specs.Statuses.{IsFault};
ghost use Rattle.myisamkit.specs.Shells as shells;
ghost use Rattle.myisamkit.specs.ShellSteps.{IsReady, IsRunnable};

use crate::say::say;
use crate::shell_ready::{Found, Job, prepare};
use crate::status::{Status, Stop};
use myi_io::{Files, Sink};
use myi_pair::findings_are_none_where_clean;
use myi_script::Script;
use myi_shell::{Gate, Host, ShellFault, Target, run_script};
use myi_tablestate::clean_pairs_stand_for_tables;
use std::thread::Threads;

/// Runs a script on tables with which nothing is wrong; else says what is.
pub(crate) fn run_shell<R: Threads + Sync, G: Gate, F: Files, O: Sink>(
    host: &Host<'_, R, G>,
    files: &mut F,
    out: &mut O,
    job: &Job<'_>,
) -> Result<Status, Stop>
    requires writable { IsTrue F.writable }
    requires setup { IsSetup job.now.options.setup }
    requires setting { job.now.options.concurrent ≤ 2 }
    ensures said { IfOk result (λ s. IfTold (F.holds files.old)
        (shells.ShellSaid job.now.options.concurrent job.now.name.now job.now.script.now s
        (O.written out.old) (O.written out.new))) }
    ensures part { OnErr result (IfTold (F.holds files.old)
        (shells.ShellSaidPart job.now.options.concurrent job.now.name.now job.now.script.now
        (O.written out.old) (O.written out.new))) }
    ensures done { IfOk result (λ s. Told (F.holds files.old) (F.holds files.new)
        (shells.ShellLeaves job.now.options.concurrent job.now.name.now job.now.script.now s)) }
    ensures stops { IfErr result (λ stop. Told (F.holds files.old) (F.holds files.new)
        (shells.ShellLeaves job.now.options.concurrent job.now.name.now job.now.script.now
        (status_of_stop stop))) }
    ensures fails { IfSink result (IfTold (F.holds files.old) (λ m. IfTold (F.holds files.new)
        (shells.ShellFails job.now.options.concurrent job.now.name.now job.now.script.now
        (O.written out.old) (O.written out.new) m))) }
    ensures plain { IfOk result (λ s. IsFault s → ⊥) }
    ensures usage { IfOk result (λ s. s ≢ Status.Usage) }
    ensures findings { IfOk result (λ s. s ≢ Status.Findings) }
    ensures file { HasCause Stop.File (F.faults files.old) (F.faults files.new) result }
    ensures sink { HasCause Stop.Sink (O.faults out.old) (O.faults out.new) result }
{
    match prepare(host.alloc, files, job)? {
        Found::Refused(status, line) => {
            say(out, line.as_str())?;
            Ok(status)
        }
        Found::Ready(target, script) => run_ready(host, files, out, job, target, script),
    }
}

// Runs a script on its tables, which are loaded.
fn run_ready<R: Threads + Sync, G: Gate, F: Files, O: Sink>(
    host: &Host<'_, R, G>,
    files: &mut F,
    out: &mut O,
    job: &Job<'_>,
    target: Target,
    script: Script,
) -> Result<Status, Stop>
    requires writable { IsTrue F.writable }
    requires setting { job.now.options.concurrent ≤ 2 }
    requires ready { IfTold (F.holds files.old)
        (IsReady job.now.name.now job.now.script.now target script.lines) }
    requires runnable { IsRunnable target script.lines }
    ensures said { IfOk result (λ s. IfTold (F.holds files.old)
        (shells.ShellSaid job.now.options.concurrent job.now.name.now job.now.script.now s
        (O.written out.old) (O.written out.new))) }
    ensures part { OnErr result (IfTold (F.holds files.old)
        (shells.ShellSaidPart job.now.options.concurrent job.now.name.now job.now.script.now
        (O.written out.old) (O.written out.new))) }
    ensures done { IfOk result (λ s. Told (F.holds files.old) (F.holds files.new)
        (shells.ShellLeaves job.now.options.concurrent job.now.name.now job.now.script.now s)) }
    ensures stops { IfErr result (λ stop. Told (F.holds files.old) (F.holds files.new)
        (shells.ShellLeaves job.now.options.concurrent job.now.name.now job.now.script.now
        (status_of_stop stop))) }
    ensures fails { IfSink result (IfTold (F.holds files.old) (λ m. IfTold (F.holds files.new)
        (shells.ShellFails job.now.options.concurrent job.now.name.now job.now.script.now
        (O.written out.old) (O.written out.new) m))) }
    ensures plain { IfOk result (λ s. IsFault s → ⊥) }
    ensures usage { IfOk result (λ s. s ≢ Status.Usage) }
    ensures findings { IfOk result (λ s. s ≢ Status.Findings) }
    ensures file { HasCause Stop.File (F.faults files.old) (F.faults files.new) result }
    ensures sink { HasCause Stop.Sink (O.faults out.old) (O.faults out.new) result }
{
    clean_pairs_stand_for_tables();
    findings_are_none_where_clean();
    let setting = job.options.concurrent;
    match run_script(host, target, &script, setting, files, out) {
        Ok(()) => Ok(Status::Ok),
        // Its line was printed. Files that tell what they hold give no cause for it.
        Err(ShellFault::Damaged { .. }) => Ok(Status::Refused),
        Err(ShellFault::File) => Err(Stop::File),
        Err(ShellFault::Sink) => Err(Stop::Sink),
        Err(ShellFault::Memory) => Err(Stop::Memory),
    }
}
