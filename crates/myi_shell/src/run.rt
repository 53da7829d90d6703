//! `run_script`: a script from its first round to its last.
ghost use Rattle.std.specs.Prelude.{◌≡◌, ◌≤◌, None, OnOk, IfOk, IfErr, IsTrue};
ghost use Rattle.myi_base.specs.Holding.{IfTold, Told};
ghost use Rattle.myi_base.specs.Causes.{HasCause};
ghost use Rattle.myi_locks.specs.Script.{IsScript};
ghost use Rattle.myi_history.specs.Lines.{MayRun, script_steps};
ghost use Rattle.myi_shell.specs.Targets.{defs_in, script_on, IsKept, IsWhole, ChangesItsOwn};
ghost use Rattle.myi_shell.specs.Targets.{IfHolds, IsCarried};
ghost use Rattle.myi_shell.specs.Idle.{LeavesIdle};
ghost use Rattle.myi_shell.specs.Damage.{IsPrintedDamage};
ghost use Rattle.myi_shell.specs.Stepping.{begun, state_of};
ghost use Rattle.myi_shell.specs.Running.{opening_on, standing, HasEnded, IsPrinted};
ghost use Rattle.myi_shell.specs.Running.{IsPrintedPart, IsStopped, AreClosedAtEnd, ended};
ghost use Rattle.myi_shell.specs.Running.{IfSink, StandsBehind, AreClosedBehind};
ghost use Rattle.myi_shell.specs.declared.fault.ShellFault.TheVariants.{File, Sink};

use crate::fault::ShellFault;
use crate::script_run::ScriptRun;
use crate::target::Target;
use myi_history::{script_steps, scripts_may_run};
use myi_io::{Files, Sink};
use myi_locks::Locks;
use myi_rounds::{Gate, Host};
use myi_script::{Line, Script};
use myi_table::ChangeFault;
use std::alloc::{AllocError, Global};
use std::thread::Threads;

/// Runs a script on a table or a list, and closes its tables. `setting` is that of concurrent
/// inserts, as `Locks::new` has it. The lines are printed round by round, in order of their
/// numbers. What is printed is the text of the script, with numbers within their bounds, and the
/// files are a clean pair that stands for the table that the history leads to; with no accepted
/// change the data file stays byte for byte. So it is with the table of a list that takes the rows,
/// and the other tables stay as they were. Whatever the answer, the data file of each table that
/// takes no rows of the script stays byte for byte: of a list that of each other table, and that of
/// every table where no line asks for a change. A run that is cut off has printed a first part of
/// such a text. Where the output failed, the table is closed too, behind the round whose lines were
/// being printed. Where closing a table fails that no fault broke, that is the answer, whatever
/// happened before. The gate of the host is called before and after each step, on the thread that
/// does it. Over files that tell nothing of what they hold a step may meet damage: the lines of its
/// round so far are printed then, one of which says so, and nothing follows.
pub fn run_script<T: Threads + Sync, F: Files, O: Sink, G: Gate>(
    host: &Host<'_, T, G>,
    target: Target,
    script: &Script,
    setting: u8,
    files: &mut F,
    out: &mut O,
) -> Result<(), ShellFault>
    requires writable { IsTrue F.writable }
    requires setting { setting ≤ 2 }
    requires script { MayRun (defs_in target) script.now.lines }
    requires kept { IsKept (F.holds files.old) target }
    requires whole { IsWhole target }
    ensures text { OnOk result (IfHolds (F.holds files.old) target (λ m s.
        IsPrinted (opening_on (defs_in target) (script_on target script.now.lines) setting s)
        (O.written out.old) (O.written out.new))) }
    ensures table { OnOk result (IfHolds (F.holds files.old) target (λ m s.
        IfTold (F.holds files.new) (AreClosedAtEnd
        (opening_on (defs_in target) (script_on target script.now.lines) setting s) target m))) }
    ensures part { IfErr result (λ f. IfHolds (F.holds files.old) target (λ m s.
        IsPrintedPart (opening_on (defs_in target) (script_on target script.now.lines) setting s)
        (O.written out.old) (O.written out.new))) }
    ensures closed { IfSink result (IfHolds (F.holds files.old) target (λ m s.
        IfTold (F.holds files.new) (AreClosedBehind
        (opening_on (defs_in target) (script_on target script.now.lines) setting s) target
        (O.written out.old) (O.written out.new) m))) }
    ensures refused { IfErr result (IsStopped (F.holds files.old)) }
    ensures damaged { IfErr result (IsPrintedDamage (O.written out.old) (O.written out.new)) }
    ensures idle { Told (F.holds files.old) (F.holds files.new)
        (LeavesIdle target script.now.lines) }
    ensures others { ChangesItsOwn (F.holds files.old) (F.holds files.new) target }
    ensures file { HasCause File (F.faults files.old) (F.faults files.new) result }
    ensures sink { HasCause Sink (O.faults out.old) (O.faults out.new) result }
{
    let mut target = target;
    let lines = script.lines.as_slice();
    let ran = run(host, &mut target, lines, setting, files, out);
    let closed = target.close(files);
    ended(ran, closed)
}

// The answer of a script, by how it ran and how its table was closed.
fn ended(ran: Result<(), ShellFault>, closed: Result<(), ChangeFault>) -> Result<(), ShellFault>
    ensures { result ≡ ended ran closed }
{
    match (ran, closed) {
        (ran, Ok(())) => ran,
        (_, Err(ChangeFault::File)) => Err(ShellFault::File),
        (_, Err(ChangeFault::Memory)) => Err(ShellFault::Memory),
        // A fault that broke the table was told.
        (Err(ShellFault::Damaged { at }), Err(_)) => Err(ShellFault::Damaged { at }),
        (Err(ShellFault::File), Err(_)) => Err(ShellFault::File),
        // A table that is not broken is refused for nothing else.
        (_, Err(_)) => Err(ShellFault::Memory),
    }
}

// A script before its first round.
fn begin(
    alloc: Global,
    list: bool,
    lines: &[Line],
    setting: u8,
    length: u64,
) -> Result<ScriptRun, AllocError>
    requires setting { setting ≤ 2 }
    requires lines { IsScript (script_steps list lines.now) }
    ensures { IfOk result (λ state. state_of state ≡ begun setting list lines.now length) }
{
    let steps = script_steps(alloc, list, lines)?;
    let locks = Locks::new(alloc, steps, setting)?;
    Ok(ScriptRun::new(alloc, locks, length))
}

// Does the rounds of a script one after the other.
fn run<T: Threads + Sync, F: Files, O: Sink, G: Gate>(
    host: &Host<'_, T, G>,
    target: &mut Target,
    lines: &[Line],
    setting: u8,
    files: &mut F,
    out: &mut O,
) -> Result<(), ShellFault>
    requires writable { IsTrue F.writable }
    requires setting { setting ≤ 2 }
    requires lines { MayRun (defs_in target.old) lines.now }
    requires kept { IsKept (F.holds files.old) target.old }
    requires whole { IsWhole target.old }
    ensures ran { OnOk result (IfHolds (F.holds files.old) target.old (λ m s.
        HasEnded (opening_on (defs_in target.old) (script_on target.old lines.now) setting s)
        (standing (O.written out.old) (F.holds files.old) target.old)
        (F.holds files.new) target.new (O.written out.new))) }
    ensures part { IfErr result (λ f. IfHolds (F.holds files.old) target.old (λ m s.
        IsPrintedPart (opening_on (defs_in target.old) (script_on target.old lines.now) setting s)
        (O.written out.old) (O.written out.new))) }
    ensures stands { IfSink result (IfHolds (F.holds files.old) target.old (λ m s.
        StandsBehind (opening_on (defs_in target.old) (script_on target.old lines.now) setting s)
        (standing (O.written out.old) (F.holds files.old) target.old)
        (F.holds files.new) target.new (O.written out.new))) }
    ensures idle { Told (F.holds files.old) (F.holds files.new)
        (LeavesIdle target.old lines.now) }
    ensures carried { IsCarried (F.holds files.old) (F.holds files.new) target.old target.new }
    ensures whole { OnOk result (IsWhole target.new) }
    ensures refused { IfErr result (IsStopped (F.holds files.old)) }
    ensures damaged { IfErr result (IsPrintedDamage (O.written out.old) (O.written out.new)) }
    ensures file { HasCause File (F.faults files.old) (F.faults files.new) result }
    ensures sink { HasCause Sink (O.faults out.old) (O.faults out.new) result }
{
    scripts_may_run();
    target.tables_are_sound();
    let mut state = begin(
        host.alloc,
        target.is_list(),
        lines,
        setting,
        target.length(),
    )?;
    while state.next_round(host, target, files, lines, out)? {}
    Ok(())
}
