//! `ReadJob`: the reads of a session in a round of kind Together.
use crate::gate::{Gate, end_step, pass_step};
use crate::reads::read_next;
use myi_history::RoundTexts;
use myi_io::FileReader;
use myi_locks::Step;
use myi_readers::{Reader, SeenFault};
use myi_script::Line;
use myi_snapshots::Snapshot;
use std::alloc::Global;
use std::marker::Model;

/// The reads of a session, which are done one after the other, and what they said so far.
#[derive(Drop)]
pub struct ReadJob<'a, R: FileReader> {
    reader: Reader<R>,
    lines: &'a [Line],
    steps: &'a [Step],
    done: usize,
    taken: Option<Snapshot>,
    texts: RoundTexts,
}

impl<'a, R: FileReader> Model for ReadJob<'a, R> {
    ghost use Rattle.myi_rounds.specs.ReadJob.{Reads, IsReadJob};

    ghost Value = { Reads R };

    ghost view = { λ j. record {
      reader = j.reader;
      lines = j.lines.now;
      steps = j.steps.now;
      done = j.done;
      taken = j.taken;
      texts = j.texts;
    } };

    ghost invariant = { λ j. IsReadJob R.holds record {
      reader = j.reader;
      lines = j.lines.now;
      steps = j.steps.now;
      done = j.done;
      taken = j.taken;
      texts = j.texts;
    } };
}

impl<'a, R: FileReader> ReadJob<'a, R> {
    ghost use Rattle.std.specs.Prelude.{◌≡◌, ◌+◌, ◌≤◌, [], length, min, IfErr, OnOk, OnErr};
    ghost use Rattle.myi_base.specs.Causes.{HasCause};
    ghost use Rattle.myi_adapters.specs.TwoReaders.{told_by};
    ghost use Rattle.myi_keyedrows.specs.KeyedRows.{IsKept};
    ghost use Rattle.myi_history.specs.Lines.{MayRun};
    ghost use Rattle.myi_readers.specs.declared.fault.SeenFault.TheVariants.{File};
    ghost use Rattle.myi_readers.specs.Reader.{IsReader};
    ghost use Rattle.myi_readers.specs.Ranges.{NeverDamaged};
    ghost use Rattle.myi_rounds.specs.ReadJob.{faults_of, GoesOn};

    /// The reads of these steps of a script's lines, of which none is done. In a session that holds READ or READ LOCAL there is
    /// the snapshot of its Take.
    pub fn new(
        alloc: Global,
        reader: Reader<R>,
        lines: &'a [Line],
        steps: &'a [Step],
        taken: Option<Snapshot>,
    ) -> ReadJob<'a, R>
        requires ready { IsReader reader.table }
        requires kept { IsKept (told_by R.holds reader.files) reader.table.rows }
        requires lines { MayRun reader.table.defs lines.now }
        ensures { result ≡ record {
          reader = reader;
          lines = lines.now;
          steps = steps.now;
          done = 0;
          taken = taken;
          texts = [];
        } }
    {
        ReadJob {
            reader,
            lines,
            steps,
            done: 0,
            taken,
            texts: RoundTexts::new(alloc),
        }
    }

    /// How many steps the run has.
    pub fn count(&self) -> usize
        ensures { result ≡ length self.now.steps }
    {
        self.steps.len()
    }

    /// How many of them are done, the first ones.
    pub fn done(&self) -> usize
        ensures done { result ≡ self.now.done }
        ensures within { result ≤ length self.now.steps }
    {
        self.done
    }

    /// Does the next step, if one is left. A refusal leaves it to be done: a later call may be made.
    pub fn step<G: Gate>(&mut self, gate: &G) -> Result<(), SeenFault>
        ensures next { OnOk result
            (self.new.done ≡ min (self.old.done + 1) (length self.old.steps)) }
        ensures refused { OnErr result (self.new.done ≡ self.old.done) }
        ensures kept { OnErr result (self.new.texts ≡ self.old.texts) }
        ensures on { GoesOn R.holds self.old self.new }
        ensures never { IfErr result (NeverDamaged (told_by R.holds self.old.reader.files)) }
        ensures cause { HasCause File (faults_of R.faults self.old.reader)
            (faults_of R.faults self.new.reader) result }
    {
        if self.done == self.steps.len() {
            return Ok(());
        }
        let step = self.steps[self.done];
        pass_step(gate, &step);
        let read = read_next(
            &mut self.reader,
            &mut self.texts,
            self.lines,
            step.line,
            self.taken,
        );
        end_step(gate, &step);
        read?;
        self.done += 1;
        Ok(())
    }

    /// Does the steps that are left, up to one that is refused.
    pub fn run<G: Gate>(&mut self, gate: &G) -> Result<(), SeenFault>
        ensures done { OnOk result (self.new.done ≡ length self.old.steps) }
        ensures on { GoesOn R.holds self.old self.new }
        ensures never { IfErr result (NeverDamaged (told_by R.holds self.old.reader.files)) }
        ensures cause { HasCause File (faults_of R.faults self.old.reader)
            (faults_of R.faults self.new.reader) result }
    {
        for _ in self.done..self.steps.len() {
            self.step(gate)?;
        }
        Ok(())
    }

    /// The reader, and what was said.
    pub fn into_parts(self) -> (Reader<R>, RoundTexts)
        ensures reader { result.0 ≡ self.entry.reader }
        ensures texts { result.1 ≡ self.entry.texts }
        ensures ready { IsReader result.0.table }
    {
        let ReadJob { reader, texts, .. } = self;
        (reader, texts)
    }
}
