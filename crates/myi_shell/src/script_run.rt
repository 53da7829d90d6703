//! `ScriptRun`: a script that goes on, round by round.
//!
//! The table is the caller's. In a round that one thread does the reads go first, each over the
//! table as it is, and then what changes it; the runs of one on a table may go side by side
//! (`beside.rt`). What the steps say is noted, and printed behind the round in order of the lines.

use crate::beside::{has_one_run, steps_in};
use crate::fault::{ShellFault, note_damage};
use crate::reading::Snapshot;
use crate::target::Target;
use myi_history::{RoundTexts, StepAnswer};
use myi_io::{Files, Sink};
use myi_keycache::Counters;
use myi_locks::{LockKind, Locks, Round, Run, Step, StepKind};
use myi_rounds::{Gate, Host, act_of, end_step, pass_step};
use myi_script::Line;
use std::alloc::{AllocError, Global};
use std::collections::BTreeMap;
use std::thread::Threads;

/// What stood at a session's Take of READ or READ LOCAL: how many changes were accepted, and how
/// long the data file was.
#[derive(Clone, Copy)]
pub(crate) struct Taken {
    pub(crate) number: u64,
    pub(crate) length: u64,
}

/// Where a script stands: the locks of its sessions, how many changes were accepted, what stood at
/// the sessions' Takes of READ or READ LOCAL and where there was none, and what the steps of the
/// round said so far.
#[derive(Drop)]
pub(crate) struct ScriptRun {
    pub(crate) locks: Locks,
    pub(crate) number: u64,
    pub(crate) taken: BTreeMap<u32, Taken>,
    pub(crate) first: Taken,
    pub(crate) texts: RoundTexts,
}

impl ScriptRun {
    ghost use Rattle.std.specs.Prelude.{◌≡◌, ◌==◌, ◌&&◌, ◌+◌, ◌<◌, ◌≤◌, ◌++◌, [], ◌∷◌};
    ghost use Rattle.std.specs.Prelude.{ℕ, true, false};
    ghost use Rattle.std.specs.Prelude.{map, OnOk, OnErr, IfOk, IfErr, IsTrue};
    ghost use Rattle.std.specs.Prelude.{if◌then◌else◌};
    ghost use Rattle.std.specs.List.{AllByRecursion, flat_map};
    ghost use Rattle.myi_base.specs.Causes.{HasCause};
    ghost use Rattle.myi_defs.specs.Sound.{IsSound};
    ghost use Rattle.myi_locks.specs.declared.steps.Round.TheVariants.{Alone};
    ghost use Rattle.myi_locks.specs.declared.steps.StepKind.TheVariants.{Take};
    ghost use Rattle.myi_locks.specs.Steps.{writes_rows, is_insert, takes_read};
    ghost use Rattle.myi_locks.specs.Rounds.{next_round, has_steps};
    ghost use Rattle.myi_locks.specs.Done.{is_together, steps_of};
    ghost use Rattle.myi_locks.specs.Laws.{steps_left, IsLawful};
    ghost use Rattle.myi_history.specs.Lines.{MayRun};
    ghost use Rattle.myi_history.specs.Answers.{answer_on, done};
    ghost use Rattle.myi_history.specs.History.{reads_only};
    ghost use Rattle.myi_history.specs.RoundTexts.{text_of, texts_of, answer_of};
    ghost use Rattle.myi_history.specs.Text.{done_said};
    ghost use Rattle.myi_shell.specs.Targets.{defs_in, script_on, IsKept, IsWhole};
    ghost use Rattle.myi_shell.specs.Targets.{IfHolds, StillHolds};
    ghost use Rattle.myi_shell.specs.declared.fault.ShellFault.TheVariants.{File, Memory, Sink};
    ghost use Rattle.myi_base.specs.Holding.{IfTold, Told};
    ghost use Rattle.myi_base.specs.Causes.{Rose};
    ghost use Rattle.myi_shell.specs.Targets.{IsCarried, IsUntouched, IsTouchedBy};
    ghost use Rattle.myi_shell.specs.Idle.{LeavesIdle};
    ghost use Rattle.myi_shell.specs.Damage.{IsDamage, IsNoted, IsToldFor};
    ghost use Rattle.myi_shell.specs.Damage.{IsPrintedDamage, Extends};
    ghost use Rattle.myi_shell.specs.Changing.{NothingDamaged, count_by};
    ghost use Rattle.myi_shell.specs.Stepping.{state_of, seen_by, read_by, writes_by, round_by};
    ghost use Rattle.myi_shell.specs.Stepping.{HasItsKinds, AreDone};
    ghost use Rattle.myi_shell.specs.Stepping.{taken_behind, taken_now, taken_as, holes_in};
    ghost use Rattle.myi_shell.specs.Running.{ForOpening, HasDone, HasGoneOn};
    ghost use Rattle.myi_shell.specs.Beside.{IsDone};
    ghost use Rattle.myi_shell.specs.Running.{IsPrintedPart, IsStopped, IfSink, StandsBehind};

    /// A script before its first round.
    pub(crate) fn new(alloc: Global, locks: Locks, length: u64) -> ScriptRun
        ensures { state_of result ≡ record {
          locks = locks;
          number = 0;
          taken = λ n. record { number = 0; length = length };
          texts = [];
        } }
    {
        ScriptRun {
            locks,
            number: 0,
            taken: BTreeMap::new(alloc),
            first: Taken { number: 0, length },
            texts: RoundTexts::new(alloc),
        }
    }

    // What the session reads.
    fn snapshot(&self, session: u32) -> Snapshot
        ensures { result ≡ seen_by (state_of self.now) session }
    {
        match self.locks.held(session) {
            Some(LockKind::Read) | Some(LockKind::ReadLocal) => {
                let taken = self.taken_by(session);
                Snapshot {
                    number: taken.number,
                    below: Some(taken.length),
                }
            }
            _ => Snapshot {
                number: self.number,
                below: None,
            },
        }
    }

    /// What stood at the session's last Take of READ or READ LOCAL.
    pub(crate) fn taken_by(&self, session: u32) -> Taken
        ensures { result ≡ (state_of self.now).taken session }
    {
        self.taken.get(&session).copied().unwrap_or(self.first)
    }

    /// Whether the session holds READ or READ LOCAL.
    pub(crate) fn reads_only(&self, session: u32) -> bool
        ensures { result ≡ reads_only self.now.locks session }
    {
        matches!(
            self.locks.held(session),
            Some(LockKind::Read) | Some(LockKind::ReadLocal)
        )
    }

    // A step that reads.
    fn read<F: Files>(
        &mut self,
        target: &mut Target,
        files: &mut F,
        lines: &[Line],
        step: &Step,
    ) -> Result<(), ShellFault>
        requires writable { IsTrue F.writable }
        requires lines { MayRun (defs_in target.old) lines.now }
        requires kept { IsKept (F.holds files.old) target.old }
        requires whole { IsWhole target.old }
        ensures said { OnOk result (IfHolds (F.holds files.old) target.old (λ m s.
            self.new.texts ≡ self.old.texts ++ text_of
            (read_by (defs_in target.old) (script_on target.old lines.now)
            (seen_by (state_of self.old)) s step.now) ∷ [])) }
        ensures only { self.new ≡ record self.old { texts = self.new.texts } }
        ensures still { StillHolds (F.holds files.old) (F.holds files.new) target.old target.new }
        ensures carried { IsCarried (F.holds files.old) (F.holds files.new) target.old target.new }
        ensures untouched { IsUntouched (F.holds files.old) (F.holds files.new)
            target.old target.new }
        ensures whole { IsWhole target.new }
        ensures refused { IfErr result (NothingDamaged (F.holds files.old)) }
        ensures noted { IfErr result (IsNoted self.new.texts) }
        ensures cause { HasCause File (F.faults files.old) (F.faults files.new) result }
    {
        let view = self.snapshot(step.session);
        let Some(act) = act_of(lines, step.line) else {
            target.read_nothing(&mut self.texts, step.line, view)?;
            return Ok(());
        };
        match target.read(files, &mut self.texts, act, step.line, view) {
            Ok(()) => Ok(()),
            Err(fault) => Err(note_damage(&mut self.texts, step.line, fault)),
        }
    }

    // Steps that read.
    fn read_run<F: Files, G: Gate>(
        &mut self,
        gate: &G,
        target: &mut Target,
        files: &mut F,
        lines: &[Line],
        steps: &[Step],
    ) -> Result<(), ShellFault>
        requires writable { IsTrue F.writable }
        requires lines { MayRun (defs_in target.old) lines.now }
        requires kept { IsKept (F.holds files.old) target.old }
        requires whole { IsWhole target.old }
        ensures said { OnOk result (IfHolds (F.holds files.old) target.old (λ m s.
            self.new.texts ≡ self.old.texts ++ texts_of (map (read_by (defs_in target.old)
            (script_on target.old lines.now) (seen_by (state_of self.old)) s) steps.now))) }
        ensures only { self.new ≡ record self.old { texts = self.new.texts } }
        ensures still { StillHolds (F.holds files.old) (F.holds files.new) target.old target.new }
        ensures carried { IsCarried (F.holds files.old) (F.holds files.new) target.old target.new }
        ensures untouched { IsUntouched (F.holds files.old) (F.holds files.new)
            target.old target.new }
        ensures whole { IsWhole target.new }
        ensures refused { IfErr result (NothingDamaged (F.holds files.old)) }
        ensures noted { IfErr result (IsNoted self.new.texts) }
        ensures cause { HasCause File (F.faults files.old) (F.faults files.new) result }
    {
        for step in steps {
            pass_step(gate, step);
            let read = self.read(target, files, lines, step);
            end_step(gate, step);
            read?;
        }
        Ok(())
    }

    /// Runs of steps that read.
    pub(crate) fn read_runs<F: Files, G: Gate>(
        &mut self,
        gate: &G,
        target: &mut Target,
        files: &mut F,
        lines: &[Line],
        runs: &[Run],
    ) -> Result<(), ShellFault>
        requires writable { IsTrue F.writable }
        requires lines { MayRun (defs_in target.old) lines.now }
        requires kept { IsKept (F.holds files.old) target.old }
        requires whole { IsWhole target.old }
        ensures said { OnOk result (IfHolds (F.holds files.old) target.old (λ m s.
            self.new.texts ≡ self.old.texts ++ texts_of
            (map (read_by (defs_in target.old) (script_on target.old lines.now)
            (seen_by (state_of self.old)) s)
            (flat_map (λ run. run.steps) runs.now)))) }
        ensures only { self.new ≡ record self.old { texts = self.new.texts } }
        ensures still { StillHolds (F.holds files.old) (F.holds files.new) target.old target.new }
        ensures carried { IsCarried (F.holds files.old) (F.holds files.new) target.old target.new }
        ensures untouched { IsUntouched (F.holds files.old) (F.holds files.new)
            target.old target.new }
        ensures whole { IsWhole target.new }
        ensures refused { IfErr result (NothingDamaged (F.holds files.old)) }
        ensures noted { IfErr result (IsNoted self.new.texts) }
        ensures cause { HasCause File (F.faults files.old) (F.faults files.new) result }
    {
        for run in runs {
            self.read_run(gate, target, files, lines, run.steps.as_slice())?;
        }
        Ok(())
    }

    // A step that writes.
    fn write<F: Files>(
        &mut self,
        target: &mut Target,
        files: &mut F,
        lines: &[Line],
        step: &Step,
        together: bool,
    ) -> Result<(), ShellFault>
        requires writable { IsTrue F.writable }
        requires lines { MayRun (defs_in target.old) lines.now }
        requires kept { IsKept (F.holds files.old) target.old }
        requires whole { IsWhole target.old }
        requires kind { writes_rows step.now.kind ≡ true }
        ensures done { OnOk result (IfHolds (F.holds files.old) target.old (λ m s.
            AreDone (defs_in target.old) (script_on target.old lines.now)
            together (state_of self.old) s (step.now ∷ [])
            (writes_by (defs_in target.old) (script_on target.old lines.now)
            self.old.locks together s.table (step.now ∷ []))
            (F.holds files.new) target.new (state_of self.new))) }
        ensures only { self.new
            ≡ record self.old { number = self.new.number; texts = self.new.texts } }
        ensures idle { Told (F.holds files.old) (F.holds files.new)
            (LeavesIdle target.old lines.now) }
        ensures carried { IsCarried (F.holds files.old) (F.holds files.new) target.old target.new }
        ensures touched { OnOk result (IsTouchedBy (F.holds files.old) (F.holds files.new)
            target.old target.new self.old.number self.new.number) }
        ensures whole { OnOk result (IsWhole target.new) }
        ensures refused { IfErr result (NothingDamaged (F.holds files.old)) }
        ensures noted { IfErr result (IsNoted self.new.texts) }
        ensures cause { HasCause File (F.faults files.old) (F.faults files.new) result }
    {
        if self.reads_only(step.session) {
            return self.say(step.line, StepAnswer::LockedForRead);
        }
        let Some(act) = act_of(lines, step.line) else {
            return Ok(());
        };
        let changed = match target.change(files, together, act) {
            Ok(changed) => changed,
            Err(fault) => return Err(note_damage(&mut self.texts, step.line, fault)),
        };
        let Some(changed) = changed else {
            return Ok(());
        };
        self.say(step.line, changed.answer)?;
        self.count(changed.made)
    }

    // Counts a change that was made.
    fn count(&mut self, made: bool) -> Result<(), ShellFault>
        ensures number { OnOk result (self.new.number ≡ self.old.number + count_by made) }
        ensures only { self.new ≡ record self.old { number = self.new.number } }
        ensures memory { IfErr result (λ f. f ≡ Memory) }
    {
        if made {
            let Some(number) = self.number.checked_add(1) else {
                return Err(ShellFault::Memory);
            };
            self.number = number;
        }
        Ok(())
    }

    /// The inserts of a round of kind Together.
    pub(crate) fn insert_run<F: Files, G: Gate>(
        &mut self,
        gate: &G,
        target: &mut Target,
        files: &mut F,
        lines: &[Line],
        steps: &[Step],
    ) -> Result<(), ShellFault>
        requires writable { IsTrue F.writable }
        requires lines { MayRun (defs_in target.old) lines.now }
        requires kept { IsKept (F.holds files.old) target.old }
        requires whole { IsWhole target.old }
        requires kinds { AllByRecursion (λ x. is_insert x.kind ≡ true) steps.now }
        ensures done { OnOk result (IfHolds (F.holds files.old) target.old (λ m s.
            AreDone (defs_in target.old) (script_on target.old lines.now)
            true (state_of self.old) s steps.now
            (writes_by (defs_in target.old) (script_on target.old lines.now)
            self.old.locks true s.table steps.now)
            (F.holds files.new) target.new (state_of self.new))) }
        ensures only { self.new
            ≡ record self.old { number = self.new.number; texts = self.new.texts } }
        ensures idle { Told (F.holds files.old) (F.holds files.new)
            (LeavesIdle target.old lines.now) }
        ensures carried { IsCarried (F.holds files.old) (F.holds files.new) target.old target.new }
        ensures touched { OnOk result (IsTouchedBy (F.holds files.old) (F.holds files.new)
            target.old target.new self.old.number self.new.number) }
        ensures whole { OnOk result (IsWhole target.new) }
        ensures refused { IfErr result (NothingDamaged (F.holds files.old)) }
        ensures noted { IfErr result (IsNoted self.new.texts) }
        ensures cause { HasCause File (F.faults files.old) (F.faults files.new) result }
    {
        for step in steps {
            pass_step(gate, step);
            let written = self.write(target, files, lines, step, true);
            end_step(gate, step);
            written?;
        }
        Ok(())
    }

    // A step that goes alone, before which this was counted.
    fn step<F: Files>(
        &mut self,
        target: &mut Target,
        files: &mut F,
        lines: &[Line],
        step: &Step,
        counters: Counters,
    ) -> Result<(), ShellFault>
        requires writable { IsTrue F.writable }
        requires lines { MayRun (defs_in target.old) lines.now }
        requires kept { IsKept (F.holds files.old) target.old }
        requires whole { IsWhole target.old }
        ensures done { OnOk result (IfHolds (F.holds files.old) target.old (λ m s.
            AreDone (defs_in target.old) (script_on target.old lines.now)
            false (state_of self.old) s (step.now ∷ [])
            (round_by (defs_in target.old) (script_on target.old lines.now)
            (state_of self.old) counters s (Alone step.now))
            (F.holds files.new) target.new (state_of self.new))) }
        ensures locks { self.new.locks ≡ self.old.locks }
        ensures taken { OnOk result ((n : ℕ) → (state_of self.new).taken n
            ≡ taken_behind (Alone step.now) (taken_now (state_of self.old) target.old)
            (state_of self.old).taken n) }
        ensures idle { Told (F.holds files.old) (F.holds files.new)
            (LeavesIdle target.old lines.now) }
        ensures carried { IsCarried (F.holds files.old) (F.holds files.new) target.old target.new }
        ensures touched { OnOk result (IsTouchedBy (F.holds files.old) (F.holds files.new)
            target.old target.new self.old.number self.new.number) }
        ensures whole { OnOk result (IsWhole target.new) }
        ensures refused { IfErr result (NothingDamaged (F.holds files.old)) }
        ensures noted { IfErr result (IsNoted self.new.texts) }
        ensures cause { HasCause File (F.faults files.old) (F.faults files.new) result }
    {
        match step.kind {
            StepKind::Release => Ok(()),
            StepKind::Take(lock) => self.take(step, lock, target.length()),
            StepKind::Rows => self.read(target, files, lines, step),
            StepKind::Insert | StepKind::Change => self.write(target, files, lines, step, false),
            StepKind::Unlock => self.say(step.line, StepAnswer::Done),
            StepKind::Stats => self.say(step.line, StepAnswer::Counted(counters)),
            StepKind::End => self.end(step.line),
        }
    }

    /// Notes what a step answered that is no read.
    pub(crate) fn say(&mut self, line: u32, answer: StepAnswer) -> Result<(), ShellFault>
        ensures said { OnOk result (self.new ≡ record self.old {
          texts = self.old.texts ++ text_of (answer_on line (answer_of answer)) ∷ [];
        }) }
        ensures only { self.new ≡ record self.old { texts = self.new.texts } }
        ensures memory { IfErr result (λ f. f ≡ Memory) }
    {
        self.texts.push(line, answer)?;
        Ok(())
    }

    // A session ends. One that no line ends says nothing.
    fn end(&mut self, line: u32) -> Result<(), ShellFault>
        ensures said { OnOk result (self.new
            ≡ record self.old { texts = self.old.texts ++ texts_of (done_said line) }) }
        ensures only { self.new ≡ record self.old { texts = self.new.texts } }
        ensures memory { IfErr result (λ f. f ≡ Memory) }
    {
        if line == 0 {
            return Ok(());
        }
        self.say(line, StepAnswer::Done)
    }

    // A session takes a lock, where the data file is so long.
    fn take(&mut self, step: &Step, lock: LockKind, length: u64) -> Result<(), ShellFault>
        ensures said { OnOk result (self.new.texts
            ≡ self.old.texts ++ text_of (answer_on step.now.line done) ∷ []) }
        ensures taken { OnOk result ((n : ℕ) → (state_of self.new).taken n
            ≡ (if takes_read (Take lock) && (step.now.session == n)
            then taken_as self.old.number length else (state_of self.old).taken n)) }
        ensures locks { self.new.locks ≡ self.old.locks }
        ensures number { self.new.number ≡ self.old.number }
        ensures memory { IfErr result (λ f. f ≡ Memory) }
    {
        if lock != LockKind::Write {
            let taken = Taken {
                number: self.number,
                length,
            };
            self.taken.insert(step.session, taken)?;
        }
        self.say(step.line, StepAnswer::Done)
    }

    // The steps of a round, before which this was counted.
    fn round<F: Files, G: Gate>(
        &mut self,
        gate: &G,
        target: &mut Target,
        files: &mut F,
        lines: &[Line],
        round: &Round,
        counters: Counters,
    ) -> Result<(), ShellFault>
        requires writable { IsTrue F.writable }
        requires lines { MayRun (defs_in target.old) lines.now }
        requires kept { IsKept (F.holds files.old) target.old }
        requires whole { IsWhole target.old }
        requires kinds { HasItsKinds round.now }
        ensures done { OnOk result (IfHolds (F.holds files.old) target.old (λ m s.
            AreDone (defs_in target.old) (script_on target.old lines.now)
            (is_together round.now) (state_of self.old) s
            (steps_of round.now)
            (round_by (defs_in target.old) (script_on target.old lines.now)
            (state_of self.old) counters s round.now)
            (F.holds files.new) target.new (state_of self.new))) }
        ensures locks { self.new.locks ≡ self.old.locks }
        ensures taken { OnOk result ((n : ℕ) → (state_of self.new).taken n
            ≡ taken_behind round.now (taken_now (state_of self.old) target.old)
            (state_of self.old).taken n) }
        ensures idle { Told (F.holds files.old) (F.holds files.new)
            (LeavesIdle target.old lines.now) }
        ensures carried { IsCarried (F.holds files.old) (F.holds files.new) target.old target.new }
        ensures touched { OnOk result (IsTouchedBy (F.holds files.old) (F.holds files.new)
            target.old target.new self.old.number self.new.number) }
        ensures whole { OnOk result (IsWhole target.new) }
        ensures refused { IfErr result (NothingDamaged (F.holds files.old)) }
        ensures noted { IfErr result (IsNoted self.new.texts) }
        ensures cause { HasCause File (F.faults files.old) (F.faults files.new) result }
    {
        match round {
            Round::Finished => Ok(()),
            Round::Alone(step) => {
                pass_step(gate, step);
                let stepped = self.step(target, files, lines, step, counters);
                end_step(gate, step);
                stepped
            }
            Round::Together { inserter, readers } => {
                self.read_runs(gate, target, files, lines, readers.runs.as_slice())?;
                match inserter {
                    Some(run) => self.insert_run(gate, target, files, lines, run.steps.as_slice()),
                    None => Ok(()),
                }
            }
        }
    }

    // The steps of a round, before which this was counted: on a table the runs of one of kind Together
    // go side by side, where it has more than one.
    fn any_round<T: Threads + Sync, F: Files, G: Gate>(
        &mut self,
        host: &Host<'_, T, G>,
        target: &mut Target,
        files: &mut F,
        lines: &[Line],
        round: &Round,
        counters: Counters,
    ) -> Result<(), ShellFault>
        requires writable { IsTrue F.writable }
        requires lines { MayRun (defs_in target.old) lines.now }
        requires kept { IsKept (F.holds files.old) target.old }
        requires whole { IsWhole target.old }
        requires kinds { HasItsKinds round.now }
        ensures done { OnOk result (IfHolds (F.holds files.old) target.old (λ m s.
            IsDone (defs_in target.old) (script_on target.old lines.now) (state_of self.old)
            counters s round.now (F.holds files.new) target.new (state_of self.new))) }
        ensures locks { self.new.locks ≡ self.old.locks }
        ensures taken { OnOk result ((n : ℕ) → (state_of self.new).taken n
            ≡ taken_behind round.now (taken_now (state_of self.old) target.old)
            (state_of self.old).taken n) }
        ensures idle { Told (F.holds files.old) (F.holds files.new)
            (LeavesIdle target.old lines.now) }
        ensures carried { IsCarried (F.holds files.old) (F.holds files.new) target.old target.new }
        ensures touched { OnOk result (IsTouchedBy (F.holds files.old) (F.holds files.new)
            target.old target.new self.old.number self.new.number) }
        ensures whole { OnOk result (IsWhole target.new) }
        ensures refused { IfErr result (NothingDamaged (F.holds files.old)) }
        ensures noted { IfErr result (IsNoted self.new.texts) }
        ensures cause { HasCause File (F.faults files.old) (F.faults files.new) result }
    {
        let Round::Together { inserter, readers } = round else {
            return self.round(host.gate, target, files, lines, round, counters);
        };
        if target.is_list() || has_one_run(inserter, readers) {
            return self.round(host.gate, target, files, lines, round, counters);
        }
        let inserts = steps_in(inserter);
        self.beside(host, target, files, lines, inserts, readers.runs.as_slice())
    }

    // Does a round, prints its lines, and goes on in the locks.
    fn do_round<T: Threads + Sync, F: Files, O: Sink, G: Gate>(
        &mut self,
        host: &Host<'_, T, G>,
        target: &mut Target,
        files: &mut F,
        lines: &[Line],
        out: &mut O,
        round: &Round,
    ) -> Result<(), ShellFault>
        requires writable { IsTrue F.writable }
        requires lines { MayRun (defs_in target.old) lines.now }
        requires sound { IsSound (defs_in target.old) }
        requires kept { IsKept (F.holds files.old) target.old }
        requires whole { IsWhole target.old }
        requires lawful { IsLawful self.old.locks.sessions }
        requires left { has_steps self.old.locks ≡ true }
        requires next { round.now
            ≡ next_round self.old.locks (holes_in target.old) }
        ensures gone_on { OnOk result (ForOpening (defs_in target.old)
            (script_on target.old lines.now) (λ o from.
            HasDone o from (F.holds files.old) (state_of self.old) target.old (O.written out.old)
            → HasDone o from (F.holds files.new) (state_of self.new) target.new
            (O.written out.new))) }
        ensures stopped { OnErr result (ForOpening (defs_in target.old)
            (script_on target.old lines.now) (λ o from.
            HasDone o from (F.holds files.old) (state_of self.old) target.old (O.written out.old)
            → IsPrintedPart o from.printed (O.written out.new))) }
        ensures stands { IfSink result (ForOpening (defs_in target.old)
            (script_on target.old lines.now) (λ o from.
            HasDone o from (F.holds files.old) (state_of self.old) target.old (O.written out.old)
            → StandsBehind o from (F.holds files.new) target.new (O.written out.new))) }
        ensures lawful { OnOk result (IsLawful self.new.locks.sessions) }
        ensures fewer { OnOk result
            (steps_left self.new.locks.sessions < steps_left self.old.locks.sessions) }
        ensures idle { Told (F.holds files.old) (F.holds files.new)
            (LeavesIdle target.old lines.now) }
        ensures carried { IsCarried (F.holds files.old) (F.holds files.new) target.old target.new }
        ensures whole { OnOk result (IsWhole target.new) }
        ensures refused { IfErr result (IsStopped (F.holds files.old)) }
        ensures noted { IfErr result (IsNoted self.new.texts) }
        ensures unsaid { IfErr result (λ f. IsDamage f → O.written out.new ≡ O.written out.old) }
        ensures extends { OnOk result (IfTold (O.written out.old) (Extends (O.written out.new))) }
        ensures file { HasCause File (F.faults files.old) (F.faults files.new) result }
        ensures sink { HasCause Sink (O.faults out.old) (O.faults out.new) result }
    {
        let counters = target.counters();
        self.any_round(host, target, files, lines, round, counters)?;
        self.texts.write(out)?;
        self.locks.advance(round);
        Ok(())
    }

    // What a round answers that a fault cut off. Where a step met damage, the lines of the round so
    // far are printed, with the one on it.
    fn cut_off<O: Sink>(&mut self, out: &mut O, fault: ShellFault) -> ShellFault
        requires noted { IsNoted self.old.texts fault }
        ensures told { IsToldFor fault result }
        ensures unsaid { (IsDamage fault → ⊥) → O.written out.new ≡ O.written out.old }
        ensures printed { IsPrintedDamage (O.written out.old) (O.written out.new) result }
        ensures only { self.new ≡ record self.old { texts = self.new.texts } }
        ensures later { O.faults out.old ≤ O.faults out.new }
        ensures sink { IsDamage fault → result ≡ Sink
            → Rose (O.faults out.old) (O.faults out.new) }
    {
        let ShellFault::Damaged { .. } = fault else {
            return fault;
        };
        match self.texts.write(out) {
            Ok(()) => fault,
            Err(failed) => failed.into(),
        }
    }

    /// Does the next round, and prints its lines. There was none where the answer is false.
    pub(crate) fn next_round<T: Threads + Sync, F: Files, O: Sink, G: Gate>(
        &mut self,
        host: &Host<'_, T, G>,
        target: &mut Target,
        files: &mut F,
        lines: &[Line],
        out: &mut O,
    ) -> Result<bool, ShellFault>
        requires writable { IsTrue F.writable }
        requires lines { MayRun (defs_in target.old) lines.now }
        requires sound { IsSound (defs_in target.old) }
        requires kept { IsKept (F.holds files.old) target.old }
        requires whole { IsWhole target.old }
        requires lawful { IsLawful self.old.locks.sessions }
        ensures gone_on { IfOk result (λ more. ForOpening (defs_in target.old)
            (script_on target.old lines.now) (λ o from.
            HasDone o from (F.holds files.old) (state_of self.old) target.old (O.written out.old)
            → HasGoneOn more o from (F.holds files.new) (state_of self.new) target.new
            (O.written out.new))) }
        ensures stopped { OnErr result (ForOpening (defs_in target.old)
            (script_on target.old lines.now) (λ o from.
            HasDone o from (F.holds files.old) (state_of self.old) target.old (O.written out.old)
            → IsPrintedPart o from.printed (O.written out.new))) }
        ensures stands { IfSink result (ForOpening (defs_in target.old)
            (script_on target.old lines.now) (λ o from.
            HasDone o from (F.holds files.old) (state_of self.old) target.old (O.written out.old)
            → StandsBehind o from (F.holds files.new) target.new (O.written out.new))) }
        ensures lawful { OnOk result (IsLawful self.new.locks.sessions) }
        ensures fewer { IfOk result (λ more. more ≡ true
            → steps_left self.new.locks.sessions < steps_left self.old.locks.sessions) }
        ensures idle { Told (F.holds files.old) (F.holds files.new)
            (LeavesIdle target.old lines.now) }
        ensures carried { IsCarried (F.holds files.old) (F.holds files.new) target.old target.new }
        ensures whole { OnOk result (IsWhole target.new) }
        ensures refused { IfErr result (IsStopped (F.holds files.old)) }
        ensures damaged { IfErr result
            (IsPrintedDamage (O.written out.old) (O.written out.new)) }
        ensures extends { OnOk result (IfTold (O.written out.old) (Extends (O.written out.new))) }
        ensures file { HasCause File (F.faults files.old) (F.faults files.new) result }
        ensures sink { HasCause Sink (O.faults out.old) (O.faults out.new) result }
    {
        let round = self.locks.round(target.holes())?;
        if let Round::Finished = round {
            return Ok(false);
        }
        match self.do_round(host, target, files, lines, out, &round) {
            Ok(()) => {}
            Err(fault) => return Err(self.cut_off(out, fault)),
        }
        Ok(true)
    }
}
