//! `InsertJob`: the inserts of a session in a round of kind Together.
ghost use Rattle.std.specs.Prelude.{◌≡◌, ◌++◌, ◌<◌, map, vec_len, vec_capacity};
ghost use Rattle.myi_rounds.specs.Inserts.{said_of, lines_of};

use crate::gate::{Gate, end_step, pass_step};
use crate::inserting::{Replied, insert_next};
use myi_history::StepAnswer;
use myi_inserter::{InsertFault, Inserter, put_rows_are_known};
use myi_io::FileReader;
use myi_locks::Step;
use myi_script::Line;
use std::alloc::Global;
use std::marker::Model;

/// The inserts of a session, which are done one after the other, and what they answered so far.
#[derive(Drop)]
pub struct InsertJob<'a, R: FileReader> {
    inserter: Inserter<R>,
    lines: &'a [Line],
    steps: &'a [Step],
    done: usize,
    replies: Vec<Replied>,
}

impl<'a, R: FileReader> Model for InsertJob<'a, R> {
    ghost use Rattle.myi_rounds.specs.InsertJob.{Inserts, IsInsertJob, job_of};

    ghost Value = { Inserts R };

    ghost view = { λ j. job_of j.inserter j.lines.now j.steps.now j.done j.replies.items };

    ghost invariant = { λ j. IsInsertJob j.inserter.table j.lines.now j.steps.now j.done };
}

// Notes what a line answered, if it did, where there is room for it.
fn note(replies: &mut Vec<Replied>, line: u32, answer: Option<StepAnswer>)
    requires room { vec_len replies.old < vec_capacity replies.old }
    ensures { map said_of replies.new.items
        ≡ map said_of replies.old.items ++ lines_of line answer }
{
    if let Some(answer) = answer {
        replies.push_reserved(Replied { line, answer });
    }
}

impl<'a, R: FileReader> InsertJob<'a, R> {
    ghost use Rattle.std.specs.Prelude.{◌≡◌, ◌+◌, ◌≤◌, [], List, length, min, IfErr, OnOk, OnErr};
    ghost use Rattle.myi_base.specs.Causes.{HasCause};
    ghost use Rattle.myi_pack.specs.Packed.{Values};
    ghost use Rattle.myi_history.specs.Lines.{MayRun};
    ghost use Rattle.myi_inserter.specs.declared.fault.InsertFault.TheVariants.{File};
    ghost use Rattle.myi_inserter.specs.Inserter.{IsInserter};
    ghost use Rattle.myi_rounds.specs.InsertJob.{job_of, faults_of, GoesOn};

    /// The inserts of these steps of a script's lines, of which none is done.
    pub fn new(
        alloc: Global,
        inserter: Inserter<R>,
        lines: &'a [Line],
        steps: &'a [Step],
    ) -> InsertJob<'a, R>
        requires ready { (rows : List Values) × IsInserter inserter.table rows }
        requires lines { MayRun inserter.table.defs lines.now }
        ensures job { result ≡ job_of inserter lines.now steps.now 0 [] }
        ensures rows { (rows : List Values) → IsInserter inserter.table rows
            → result.rows ≡ rows }
    {
        put_rows_are_known();
        InsertJob {
            inserter,
            lines,
            steps,
            done: 0,
            replies: Vec::new(alloc),
        }
    }

    /// How many steps the run has.
    pub fn count(&self) -> usize
        ensures { result ≡ length self.now.steps }
    {
        self.steps.len()
    }

    /// How many of them are done, the first ones.
    pub fn done(&self) -> usize
        ensures done { result ≡ self.now.done }
        ensures within { result ≤ length self.now.steps }
    {
        self.done
    }

    /// Does the next step, if one is left. A refusal leaves it to be done: nothing was put, and a later call may be made.
    pub fn step<G: Gate>(&mut self, gate: &G) -> Result<(), InsertFault>
        ensures next { OnOk result
            (self.new.done ≡ min (self.old.done + 1) (length self.old.steps)) }
        ensures refused { OnErr result (self.new.done ≡ self.old.done) }
        ensures unmoved { OnErr result (self.new.rows ≡ self.old.rows) }
        ensures on { GoesOn R.holds self.old self.new }
        ensures cause { HasCause File (faults_of R.faults self.old.files)
            (faults_of R.faults self.new.files) result }
    {
        put_rows_are_known();
        if self.done == self.steps.len() {
            return Ok(());
        }
        // A row that is put has its answer.
        self.replies.reserve(1)?;
        let step = self.steps[self.done];
        pass_step(gate, &step);
        let answer = insert_next(&mut self.inserter, self.lines, step.line);
        end_step(gate, &step);
        note(&mut self.replies, step.line, answer?);
        self.done += 1;
        Ok(())
    }

    /// Does the steps that are left, up to one that is refused.
    pub fn run<G: Gate>(&mut self, gate: &G) -> Result<(), InsertFault>
        ensures done { OnOk result (self.new.done ≡ length self.old.steps) }
        ensures on { GoesOn R.holds self.old self.new }
        ensures cause { HasCause File (faults_of R.faults self.old.files)
            (faults_of R.faults self.new.files) result }
    {
        for _ in self.done..self.steps.len() {
            self.step(gate)?;
        }
        Ok(())
    }

    /// The inserter, and what was answered.
    pub fn into_parts(self) -> (Inserter<R>, Vec<Replied>)
        ensures parts { job_of result.0 self.entry.lines self.entry.steps self.entry.done
            result.1.items ≡ self.entry }
        ensures ready { IsInserter result.0.table self.entry.rows }
    {
        let InsertJob {
            inserter,
            replies,
            ..
        } = self;
        (inserter, replies)
    }
}
