//! The turn of a table that is repaired.
ghost use Rattle.std.specs.Prelude.{◌≡◌, ◌≢◌, ◌+◌, ℕ, string_bytes, IfOk, IfErr, OnOk, OnErr, IsTrue};
ghost use Rattle.myi_base.specs.Holding.{IfTold, Told};
ghost use Rattle.myi_base.specs.Output.{Appends, AppendsPart};
ghost use Rattle.myi_base.specs.Causes.{HasCause};
ghost use Rattle.myi_repair.specs.Opening.{CutsOff};
ghost use Rattle.myi_repair.specs.Faults as repair;
ghost use Rattle.myi_repair.specs.Names.{names_for};
ghost use Rattle.myi_repair.specs.Outcome.{Ends};
ghost use Rattle.myisamkit.specs.Stops.{status_of_stop};
ghost use Rattle.myisamkit.specs.Statuses.{IsFault, faults_told};
ghost use Rattle.myisamkit.specs.Lines as spec;
ghost use Rattle.myisamkit.specs.Turns.{recover_turn, fault_status, unless_silent};
ghost use Rattle.myisamkit.specs.Turns.{RepairDone, RepairCutOff, RepairStops};
ghost use Rattle.myisamkit.specs.Turns.{is_row_by_row, LeavesRepaired, OldOrNew};

use crate::lines::{absent_line, reason_of, recovered_line, refused_line};
use crate::options::{Mode, Options, TreeWork};
use crate::say::say;
use crate::status::{Status, Stop};
use myi_io::{Files, Sink};
use myi_parallel::{OpenGate, Workers, parallel_recover};
use myi_repair::{RepairFault, Report, recover};
use myi_saferepair::safe_recover;
use myi_shell::{Gate, Host};
use std::alloc::{AllocError, Global};
use std::thread::Threads;

/// How many workers lay trees side by side.
const WORKERS: u8 = 4;

/// Repairs a table, if it can be repaired, and says so.
pub(crate) fn recover_table<R: Threads + Sync, G: Gate, F: Files, O: Sink>(
    host: &Host<'_, R, G>,
    files: &mut F,
    out: &mut O,
    options: &Options,
    name: &str,
    now: u64,
) -> Result<Status, Stop>
    requires { IsTrue F.writable }
    ensures status { IfOk result (λ s. IfTold (F.holds files.old) (λ m.
        s ≡ (recover_turn options.now now name.now m).status)) }
    ensures said { OnOk result (IfTold (F.holds files.old) (λ m. IfTold (O.written out.old)
        (Appends (recover_turn options.now now name.now m).text (O.written out.new)))) }
    ensures part { OnErr result (IfTold (F.holds files.old) (λ m. IfTold (O.written out.old)
        (AppendsPart (recover_turn options.now now name.now m).text (O.written out.new)))) }
    ensures done { OnOk result (Told (F.holds files.old) (F.holds files.new)
        (RepairDone options.now now name.now)) }
    ensures stops { IfErr result (λ stop. Told (F.holds files.old) (F.holds files.new)
        (RepairStops options.now now (F.faults files.old) (F.faults files.new) name.now stop)) }
    ensures plain { IfOk result (λ s. IsFault s → ⊥) }
    ensures usage { IfOk result (λ s. s ≢ Status.Usage) }
    ensures findings { IfOk result (λ s. s ≢ Status.Findings) }
    ensures file { HasCause Stop.File (F.faults files.old) (F.faults files.new) result }
    ensures sink { HasCause Stop.Sink (O.faults out.old) (O.faults out.new) result }
{
    let (status, line) = repair(host, files, options, name, now)?;
    say(out, line.as_str())?;
    Ok(status)
}

// Repairs a table, if it can be repaired, and answers the status and the line.
fn repair<R: Threads + Sync, G: Gate, F: Files>(
    host: &Host<'_, R, G>,
    files: &mut F,
    options: &Options,
    name: &str,
    now: u64,
) -> Result<(Status, String), Stop>
    requires { IsTrue F.writable }
    ensures said { IfOk result (λ r. IfTold (F.holds files.old) (λ m.
        string_bytes r.1 ≡ (recover_turn options.now now name.now m).text)) }
    ensures status { IfOk result (λ r. IfTold (F.holds files.old) (λ m.
        r.0 ≡ (recover_turn options.now now name.now m).status)) }
    ensures plain { IfOk result (λ r. IsFault r.0 → ⊥) }
    ensures usage { IfOk result (λ r. r.0 ≢ Status.Usage) }
    ensures findings { IfOk result (λ r. r.0 ≢ Status.Findings) }
    ensures done { OnOk result (Told (F.holds files.old) (F.holds files.new)
        (RepairDone options.now now name.now)) }
    ensures whole { OnOk result (Told (F.holds files.old) (F.holds files.new)
        (RepairCutOff options.now now 0 (F.faults files.old) (F.faults files.new) name.now)) }
    ensures off { IfErr result (λ stop. Told (F.holds files.old) (F.holds files.new)
        (RepairCutOff options.now now (faults_told (status_of_stop stop)) (F.faults files.old)
        (F.faults files.new) name.now)) }
    ensures sink { IfErr result (λ stop. stop ≢ Stop.Sink) }
    ensures cause { HasCause Stop.File (F.faults files.old) (F.faults files.new) result }
{
    match recover_as_asked(host, files, options, name, now) {
        Ok(report) => {
            let line = success_line(host.alloc, options, name, report)?;
            Ok((Status::Ok, line))
        }
        Err(fault) => not_worked_on(host.alloc, name, fault),
    }
}

// Repairs a table with its trees changed row by row or laid side by side where that is asked for, and else laid one after the
// other.
fn recover_as_asked<R: Threads + Sync, G: Gate, F: Files>(
    host: &Host<'_, R, G>,
    files: &mut F,
    options: &Options,
    name: &str,
    now: u64,
) -> Result<Report, RepairFault>
    requires { IsTrue F.writable }
    ensures repaired { IfOk result (λ said. Told (F.holds files.old) (F.holds files.new)
        (LeavesRepaired (is_row_by_row options.now.mode) name.now options.now.extend now said)) }
    ensures files { Told (F.holds files.old) (F.holds files.new)
        (OldOrNew (is_row_by_row options.now.mode) name.now options.now.extend now) }
    ensures ends { Ends (names_for name.now) (F.holds files.old) (F.holds files.new)
        (F.faults files.old) (F.faults files.new) result }
{
    if options.mode.is_row_by_row() {
        return safe_recover(host.alloc, files, name, options.extend, now);
    }
    let side_by_side = Mode::Recover {
        trees: TreeWork::SideBySide,
    };
    if options.mode != side_by_side {
        return recover(host.alloc, files, name, options.extend, now);
    }
    let workers = Workers {
        rt: host.rt,
        count: WORKERS,
        gate: &OpenGate,
    };
    parallel_recover(host.alloc, files, name, options.extend, now, &workers)
}

// The line on a table that was repaired, where such a line is wanted.
fn success_line(
    alloc: Global,
    options: &Options,
    name: &str,
    report: Report,
) -> Result<String, AllocError>
    ensures { IfOk result (λ line. string_bytes line
        ≡ unless_silent options.now.silent (spec.recovered_line name.now report)) }
{
    if options.silent {
        Ok(String::new(alloc))
    } else {
        recovered_line(alloc, name, report)
    }
}

/// What is said of a table on which no work is done.
pub(crate) fn not_worked_on(
    alloc: Global,
    name: &str,
    fault: RepairFault,
) -> Result<(Status, String), Stop>
    ensures said { IfOk result (λ r. string_bytes r.1 ≡ spec.fault_line name.now fault) }
    ensures status { IfOk result (λ r. r.0 ≡ fault_status fault) }
    ensures plain { IfOk result (λ r. IsFault r.0 → ⊥) }
    ensures usage { IfOk result (λ r. r.0 ≢ Status.Usage) }
    ensures findings { IfOk result (λ r. r.0 ≢ Status.Findings) }
    ensures refusal { IfOk result (λ r. CutsOff fault → ⊥) }
    ensures file { IfErr result (λ s. s ≡ Stop.File → fault ≡ RepairFault.File) }
    ensures sink { IfErr result (λ s. s ≢ Stop.Sink) }
    ensures told { IfErr result (λ s. faults_told (status_of_stop s) ≡ repair.faults_told fault) }
{
    match fault {
        RepairFault::Absent(file) => Ok((Status::Absent, absent_line(alloc, name, file)?)),
        RepairFault::Def(fault) => {
            Ok((
                Status::Refused,
                refused_line(alloc, name, reason_of(fault))?,
            ))
        }
        RepairFault::TooLong => Ok((Status::Refused, refused_line(alloc, name, "too long")?)),
        RepairFault::File => Err(Stop::File),
        RepairFault::Memory => Err(Stop::Memory),
    }
}
