//! Rounds of kind Together on a table whose runs go side by side.
//!
//! `ScriptRun::beside` shares the table among the runs (`myi_rounds`), notes what they said and how
//! many changes they made, and does here what they left undone.
ghost use Rattle.std.specs.Prelude.{◌≡◌, ◌≤◌, false, length, drop, IfOk, IfErr, OnOk, IsTrue};
ghost use Rattle.myi_base.specs.Holding.{Told};
ghost use Rattle.myi_base.specs.Causes.{HasCause};
ghost use Rattle.myi_locks.specs.Done.{run_steps};
ghost use Rattle.myi_history.specs.Lines.{MayRun};
ghost use Rattle.myi_history.specs.History.{is_list};
ghost use Rattle.myi_rounds.specs.declared.fault.RoundFault.TheVariants.{File};
ghost use Rattle.myi_shell.specs.Targets.{defs_in, taking, IsKept, IsWhole, IfHolds};
ghost use Rattle.myi_shell.specs.Targets.{IsCarried, IsTouchedBy};
ghost use Rattle.myi_shell.specs.Idle.{LeavesIdle};
ghost use Rattle.myi_shell.specs.Changing.{NothingDamaged};
ghost use Rattle.myi_shell.specs.declared.target.Target.TheVariants.{One};
ghost use Rattle.myi_shell.specs.Beside as spec;
ghost use Rattle.myi_shell.specs.Beside.{HaveGoneAsked, EachIsWithin};
ghost use Rattle.myi_rounds.specs.Rounds.{IsWithin};

use crate::fault::{ShellFault, note_damage};
use crate::script_run::ScriptRun;
use crate::target::Target;
use myi_base::Sequence;
use myi_io::Files;
use myi_locks::{Run, Runs, Step};
use myi_rounds::{
    AskedReads, AskedRound, Gate, Host, Replied, RoundFault, WentReads, WentRound, go_side_by_side,
};
use myi_script::Line;
use myi_snapshots::Snapshot;
use myi_table::Table;
use std::alloc::{AllocError, Global};
use std::thread::Threads;

/// The steps of a run, if there is one.
pub(crate) fn steps_in(run: &Option<Run>) -> &[Step]
    ensures { result.now ≡ run_steps run.now }
{
    match run {
        Some(run) => run.steps.as_slice(),
        None => &[],
    }
}

/// Whether a round has one run, so that nothing goes beside it, or none.
pub(crate) fn has_one_run(inserter: &Option<Run>, readers: &Runs) -> bool {
    match inserter {
        Some(_) => readers.runs.as_slice().is_empty(),
        None => readers.runs.as_slice().len() <= 1,
    }
}

// The line of the first of these steps, or 0.
fn first_line(steps: &[Step]) -> u32 {
    match steps.first() {
        Some(step) => step.line,
        None => 0,
    }
}

// The steps behind the first ones.
fn steps_behind(steps: &[Step], done: usize) -> &[Step]
    requires within { done ≤ length steps.now }
    ensures { result.now ≡ drop done steps.now }
{
    &steps[done..]
}

// The run with the steps behind its first ones.
fn run_behind(alloc: Global, run: &Run, done: usize) -> Result<Run, AllocError>
    requires within { done ≤ length run.now.steps }
    ensures { IfOk result (λ left. left ≡ spec.run_behind run.now done) }
{
    let steps = steps_behind(run.steps.as_slice(), done);
    Ok(Run {
        session: run.session,
        steps: Sequence::new(Vec::from_slice(alloc, steps)?),
    })
}

// The runs with the steps that are not done.
fn runs_left(alloc: Global, runs: &[Run], went: &[WentReads]) -> Result<Vec<Run>, AllocError>
    requires within { EachIsWithin runs.now went.now }
    requires long { length went.now ≡ length runs.now }
    ensures { IfOk result (λ v. v.items ≡ spec.runs_left runs.now went.now) }
{
    let mut left = Vec::with_capacity(alloc, runs.len())?;
    for at in 0..runs.len() {
        let run = run_behind(alloc, &runs[at], went[at].done)?;
        left.push(run)?;
    }
    Ok(left)
}

// What cuts a round off, as what cuts the script off.
fn told_as(fault: RoundFault) -> ShellFault
    ensures { result ≡ spec.told_as fault }
{
    match fault {
        RoundFault::Damaged { at } => ShellFault::Damaged { at },
        RoundFault::File => ShellFault::File,
        RoundFault::Memory => ShellFault::Memory,
    }
}

// The runs of a round on a table, side by side as far as they come.
fn go_on<T: Threads + Sync, F: Files, G: Gate>(
    host: &Host<'_, T, G>,
    table: &mut Table,
    files: &mut F,
    asked: &AskedRound<'_>,
) -> Result<WentRound, RoundFault>
    requires writable { IsTrue F.writable }
    requires lines { MayRun (defs_in (One table.old)) asked.now.lines.now }
    requires kept { IsKept (F.holds files.old) (One table.old) }
    requires whole { IsWhole (One table.old) }
    ensures gone { IfOk result (λ w. IfHolds (F.holds files.old) (One table.old) (λ m s.
        HaveGoneAsked (defs_in (One table.old)) asked.now.lines.now asked.now.number s
        asked.now.inserts.now asked.now.reads.now w (F.holds files.new) (One table.new))) }
    ensures within { IfOk result (IsWithin asked.now) }
    ensures carried { IsCarried (F.holds files.old) (F.holds files.new)
        (One table.old) (One table.new) }
    ensures touched { IfOk result (λ w. IsTouchedBy (F.holds files.old) (F.holds files.new)
        (One table.old) (One table.new) 0 w.made) }
    ensures idle { Told (F.holds files.old) (F.holds files.new)
        (LeavesIdle (One table.old) asked.now.lines.now) }
    ensures whole { OnOk result (IsWhole (One table.new)) }
    ensures refused { IfErr result (λ f. NothingDamaged (F.holds files.old) (spec.told_as f)) }
    ensures cause { HasCause File (F.faults files.old) (F.faults files.new) result }
{
    go_side_by_side(host, table, files, asked)
}

// The runs of a round on a target, which is a table.
fn go_in<T: Threads + Sync, F: Files, G: Gate>(
    host: &Host<'_, T, G>,
    target: &mut Target,
    files: &mut F,
    asked: &AskedRound<'_>,
) -> Result<WentRound, RoundFault>
    requires writable { IsTrue F.writable }
    requires single { is_list (taking target.old) ≡ false }
    requires lines { MayRun (defs_in target.old) asked.now.lines.now }
    requires kept { IsKept (F.holds files.old) target.old }
    requires whole { IsWhole target.old }
    ensures gone { IfOk result (λ w. IfHolds (F.holds files.old) target.old (λ m s.
        HaveGoneAsked (defs_in target.old) asked.now.lines.now asked.now.number s
        asked.now.inserts.now asked.now.reads.now w (F.holds files.new) target.new)) }
    ensures within { IfOk result (IsWithin asked.now) }
    ensures carried { IsCarried (F.holds files.old) (F.holds files.new) target.old target.new }
    ensures touched { IfOk result (λ w. IsTouchedBy (F.holds files.old) (F.holds files.new)
        target.old target.new 0 w.made) }
    ensures idle { Told (F.holds files.old) (F.holds files.new)
        (LeavesIdle target.old asked.now.lines.now) }
    ensures whole { OnOk result (IsWhole target.new) }
    ensures refused { IfErr result (λ f. NothingDamaged (F.holds files.old) (spec.told_as f)) }
    ensures cause { HasCause File (F.faults files.old) (F.faults files.new) result }
{
    match target {
        Target::One(table) => go_on(host, table, files, asked),
        Target::Many(_) => unreachable!(),
    }
}

impl ScriptRun {
    ghost use Rattle.std.specs.Prelude.{◌+◌, ◌++◌, true, Option};
    ghost use Rattle.std.specs.List.{AllByRecursion};
    ghost use Rattle.myi_locks.specs.Steps.{is_insert};
    ghost use Rattle.myi_history.specs.RoundTexts.{texts_of};
    ghost use Rattle.std.specs.Prelude.{map};
    ghost use Rattle.myi_rounds.specs.Inserts.{said_of};
    ghost use Rattle.myi_shell.specs.Stepping.{state_of};
    ghost use Rattle.myi_shell.specs.Damage.{IsNoted};
    ghost use Rattle.myi_shell.specs.Beside.{AreAsked, taken_of, HaveGone, BesideEachOther};
    ghost use Rattle.myi_shell.specs.Beside.{texts_in, noted_of};
    ghost use Rattle.myi_shell.specs.declared.fault.ShellFault.TheVariants as fault;

    // What the runs of reads are asked.
    fn asked_reads<'a>(
        &self,
        alloc: Global,
        runs: &'a [Run],
    ) -> Result<Vec<AskedReads<'a>>, AllocError>
        ensures { IfOk result (λ v. AreAsked (state_of self.now) runs.now v.items) }
    {
        let mut asked = Vec::with_capacity(alloc, runs.len())?;
        for run in runs {
            asked.push(AskedReads {
                steps: run.steps.as_slice(),
                taken: self.snapshot_of(run.session),
            })?;
        }
        Ok(asked)
    }

    // What stood at the session's Take, where it holds READ or READ LOCAL.
    fn snapshot_of(&self, session: u32) -> Option<Snapshot>
        ensures { result ≡ taken_of (state_of self.now) session }
    {
        if !self.reads_only(session) {
            return None;
        }
        let taken = self.taken_by(session);
        Some(Snapshot {
            number: taken.number,
            length: taken.length,
        })
    }

    // The runs of a round side by side, as far as they come.
    fn go<T: Threads + Sync, F: Files, G: Gate>(
        &mut self,
        host: &Host<'_, T, G>,
        target: &mut Target,
        files: &mut F,
        lines: &[Line],
        inserts: &[Step],
        runs: &[Run],
    ) -> Result<WentRound, ShellFault>
        requires writable { IsTrue F.writable }
        requires single { is_list (taking target.old) ≡ false }
        requires lines { MayRun (defs_in target.old) lines.now }
        requires kept { IsKept (F.holds files.old) target.old }
        requires whole { IsWhole target.old }
        ensures gone { IfOk result (λ w. IfHolds (F.holds files.old) target.old (λ m s.
            HaveGone (defs_in target.old) lines.now (state_of self.old) s inserts.now runs.now w
            (F.holds files.new) target.new)) }
        ensures within { IfOk result (λ w. w.inserted ≤ length inserts.now) }
        ensures each { IfOk result (λ w. EachIsWithin runs.now w.reads.items) }
        ensures same { OnOk result (self.new ≡ self.old) }
        ensures only { self.new ≡ record self.old { texts = self.new.texts } }
        ensures carried { IsCarried (F.holds files.old) (F.holds files.new) target.old target.new }
        ensures touched { IfOk result (λ w. IsTouchedBy (F.holds files.old) (F.holds files.new)
            target.old target.new 0 w.made) }
        ensures idle { Told (F.holds files.old) (F.holds files.new)
            (LeavesIdle target.old lines.now) }
        ensures whole { OnOk result (IsWhole target.new) }
        ensures refused { IfErr result (NothingDamaged (F.holds files.old)) }
        ensures noted { IfErr result (IsNoted self.new.texts) }
        ensures cause { HasCause fault.File (F.faults files.old) (F.faults files.new) result }
    {
        let reads = self.asked_reads(host.alloc, runs)?;
        let asked = AskedRound {
            number: self.number,
            lines,
            inserts,
            reads: reads.as_slice(),
        };
        match go_in(host, target, files, &asked) {
            Ok(went) => Ok(went),
            Err(fault) => {
                let fault = told_as(fault);
                Err(note_damage(&mut self.texts, first_line(inserts), fault))
            }
        }
    }

    // Notes what the runs of reads said.
    fn note_reads(&mut self, reads: &[WentReads]) -> Result<(), ShellFault>
        ensures texts { OnOk result (self.new.texts ≡ self.old.texts ++ texts_in reads.now) }
        ensures only { self.new ≡ record self.old { texts = self.new.texts } }
        ensures memory { IfErr result (λ f. f ≡ fault.Memory) }
    {
        for run in reads {
            self.texts.append(&run.texts)?;
        }
        Ok(())
    }

    // Notes what inserts answered.
    fn note_replies(&mut self, replies: &[Replied]) -> Result<(), ShellFault>
        ensures texts { OnOk result
            (self.new.texts ≡ self.old.texts ++ texts_of (map said_of replies.now)) }
        ensures only { self.new ≡ record self.old { texts = self.new.texts } }
        ensures memory { IfErr result (λ f. f ≡ fault.Memory) }
    {
        for reply in replies {
            self.say(reply.line, reply.answer)?;
        }
        Ok(())
    }

    // Notes what the runs said, and counts the rows that they put.
    fn note(&mut self, went: &WentRound) -> Result<(), ShellFault>
        ensures texts { OnOk result (self.new.texts ≡ self.old.texts ++ noted_of went.now) }
        ensures number { OnOk result (self.new.number ≡ self.old.number + went.now.made) }
        ensures only { self.new
            ≡ record self.old { number = self.new.number; texts = self.new.texts } }
        ensures memory { IfErr result (λ f. f ≡ fault.Memory) }
    {
        self.note_reads(went.reads.as_slice())?;
        self.note_replies(went.replies.as_slice())?;
        let Some(number) = self.number.checked_add(went.made) else {
            return Err(ShellFault::Memory);
        };
        self.number = number;
        Ok(())
    }

    /// The runs of a round on a table. What threads that a fault cut off left undone is done here,
    /// the inserts first.
    pub(crate) fn beside<T: Threads + Sync, F: Files, G: Gate>(
        &mut self,
        host: &Host<'_, T, G>,
        target: &mut Target,
        files: &mut F,
        lines: &[Line],
        inserts: &[Step],
        runs: &[Run],
    ) -> Result<(), ShellFault>
        requires writable { IsTrue F.writable }
        requires single { is_list (taking target.old) ≡ false }
        requires lines { MayRun (defs_in target.old) lines.now }
        requires kept { IsKept (F.holds files.old) target.old }
        requires whole { IsWhole target.old }
        requires kinds { AllByRecursion (λ x. is_insert x.kind ≡ true) inserts.now }
        ensures done { OnOk result (IfHolds (F.holds files.old) target.old (λ m s.
            BesideEachOther (defs_in target.old) lines.now (state_of self.old) s
            inserts.now runs.now (F.holds files.new) target.new (state_of self.new))) }
        ensures only { self.new
            ≡ record self.old { number = self.new.number; texts = self.new.texts } }
        ensures idle { Told (F.holds files.old) (F.holds files.new)
            (LeavesIdle target.old lines.now) }
        ensures carried { IsCarried (F.holds files.old) (F.holds files.new) target.old target.new }
        ensures touched { OnOk result (IsTouchedBy (F.holds files.old) (F.holds files.new)
            target.old target.new self.old.number self.new.number) }
        ensures whole { OnOk result (IsWhole target.new) }
        ensures refused { IfErr result (NothingDamaged (F.holds files.old)) }
        ensures noted { IfErr result (IsNoted self.new.texts) }
        ensures cause { HasCause fault.File (F.faults files.old) (F.faults files.new) result }
    {
        target.tables_are_sound();
        let went = self.go(host, target, files, lines, inserts, runs)?;
        self.note(&went)?;
        let left = runs_left(host.alloc, runs, went.reads.as_slice())?;
        let rest = steps_behind(inserts, went.inserted);
        self.insert_run(host.gate, target, files, lines, rest)?;
        self.read_runs(host.gate, target, files, lines, left.as_slice())
    }
}
