//! `RoundTexts`: what the steps of a round said so far, and writing it in order of their lines.
//!
//! The texts stand in one buffer, in the order in which they came; to each belongs a `Said`, which
//! tells its line and where it stands. Bytes behind the last text are of one for which memory ran
//! out.
ghost use Rattle.std.specs.Prelude.{◌≡◌, ◌∷◌, ◌++◌, ◌+◌, ◌^◌, ◌<◌, [], length, map, IfOk, OnOk, OnErr};
ghost use Rattle.std.specs.List.{AllByRecursion, flat_map};
ghost use Rattle.std.specs.List.Sorted.{IsPermutation, IsNonDecreasingBy};
ghost use Rattle.myi_base.specs.Holding.{IfTold};
ghost use Rattle.myi_base.specs.Output.{Appends, AppendsPart};
ghost use Rattle.myi_base.specs.Causes.{HasCause};
ghost use Rattle.myi_io.specs.declared.sink.SinkErr.TheVariants.{Failed};
ghost use Rattle.myi_history.specs.RoundTexts as spec;
ghost use Rattle.myi_history.specs.RoundTexts.{IsWithin, part_of};

use crate::answers::{AnswerTexts, StepAnswer};
use myi_io::{Sink, SinkErr};
use myi_pack::Row;
use std::alloc::{AllocError, Global};
use std::marker::Model;

/// A text that stands in a buffer, and its line.
#[derive(Clone, Copy)]
pub(crate) struct Said {
    line: u32,
    from: usize,
    to: usize,
}

/// What the steps of a round said so far: each the number of its line and its text. Where memory
/// runs out, a call adds nothing.
pub struct RoundTexts {
    answers: AnswerTexts,
    bytes: Vec<u8>,
    said: Vec<Said>,
}

impl Drop for RoundTexts {
    fn drop(self) {
        let RoundTexts {
            answers: _,
            bytes: _,
            said: _,
        } = self;
    }
}

impl Model for RoundTexts {
    ghost use Rattle.std.specs.Prelude.{List, length, map};
    ghost use Rattle.std.specs.List.{AllByRecursion};
    ghost use Rattle.myi_history.specs.RoundTexts.{LineText, said_in, IsWithin};

    ghost Value = { List LineText };

    ghost view = { λ s. map (said_in s.bytes.items) s.said.items };

    ghost invariant = { λ s. AllByRecursion (IsWithin (length s.bytes.items)) s.said.items };
}

impl RoundTexts {
    ghost use Rattle.std.specs.Prelude.{◌≡◌, ◌++◌, ◌∷◌, [], nat_lt, filter, OnOk, OnErr};
    ghost use Rattle.myi_base.specs.Holding.{IfTold};
    ghost use Rattle.myi_base.specs.Output.{Appends, AppendsPart};
    ghost use Rattle.myi_base.specs.Causes.{HasCause};
    ghost use Rattle.myi_io.specs.declared.sink.SinkErr.TheVariants.{Failed};
    ghost use Rattle.myi_history.specs.Answers.{answer_text, rows, merged, numbered, damaged_text};
    ghost use Rattle.myi_history.specs.RoundTexts.{answer_of, in_line_order, joined, HaveOwnLines};
    ghost use Rattle.myi_history.specs.RoundTexts.{AreWritten};

    /// No texts yet; no memory is taken.
    pub fn new(alloc: Global) -> RoundTexts
        ensures { result ≡ [] }
    {
        RoundTexts {
            answers: AnswerTexts::new(alloc),
            bytes: Vec::new(alloc),
            said: Vec::new(alloc),
        }
    }

    /// Adds what the step of a line answered.
    pub fn push(&mut self, line: u32, answer: StepAnswer) -> Result<(), AllocError>
        ensures text { OnOk result
            (self.new ≡ self.old ++ (line, answer_text line (answer_of answer)) ∷ []) }
        ensures same { OnErr result (self.new ≡ self.old) }
    {
        let from = self.bytes.len();
        self.answers.push(&mut self.bytes, line, answer)?;
        note(&mut self.said, line, from, self.bytes.len())
    }

    /// Adds that the read of a line found these rows, after so many changes.
    pub fn push_found(
        &mut self,
        line: u32,
        found: &[(u64, Row)],
        number: u64,
    ) -> Result<(), AllocError>
        ensures text { OnOk result
            (self.new ≡ self.old ++ (line, answer_text line (rows found.now number)) ∷ []) }
        ensures same { OnErr result (self.new ≡ self.old) }
    {
        let from = self.bytes.len();
        self.answers
            .push_found(&mut self.bytes, line, found, number)?;
        note(&mut self.said, line, from, self.bytes.len())
    }

    /// Adds that the read of a line found, after so many changes, those of these rows that stand
    /// below a place.
    pub fn push_found_below(
        &mut self,
        line: u32,
        found: &[(u64, Row)],
        below: u64,
        number: u64,
    ) -> Result<(), AllocError>
        ensures text { OnOk result (self.new ≡ self.old ++ (
          line,
          answer_text line (rows (filter (λ r. nat_lt r.0 below) found.now) number),
        ) ∷ []) }
        ensures same { OnErr result (self.new ≡ self.old) }
    {
        let from = self.bytes.len();
        self.answers
            .push_found_below(&mut self.bytes, line, found, below, number)?;
        note(&mut self.said, line, from, self.bytes.len())
    }

    /// Adds that the read of a line found these rows of a MERGE list, after so many changes.
    pub fn push_merged(
        &mut self,
        line: u32,
        found: &[(u32, u64, Row)],
        number: u64,
    ) -> Result<(), AllocError>
        ensures text { OnOk result (self.new
            ≡ self.old ++ (line, answer_text line (merged found.now number)) ∷ []) }
        ensures same { OnErr result (self.new ≡ self.old) }
    {
        let from = self.bytes.len();
        self.answers
            .push_merged(&mut self.bytes, line, found, number)?;
        note(&mut self.said, line, from, self.bytes.len())
    }

    /// Adds that the step of a line met damage at a place of a file.
    pub fn push_damaged(&mut self, line: u32, at: u64) -> Result<(), AllocError>
        ensures text { OnOk result
            (self.new ≡ self.old ++ (line, numbered line (damaged_text at)) ∷ []) }
        ensures same { OnErr result (self.new ≡ self.old) }
    {
        let from = self.bytes.len();
        self.answers.push_damaged(&mut self.bytes, line, at)?;
        note(&mut self.said, line, from, self.bytes.len())
    }

    /// Adds the texts of another.
    pub fn append(&mut self, more: &RoundTexts) -> Result<(), AllocError>
        ensures texts { OnOk result (self.new ≡ self.old ++ more.now) }
        ensures same { OnErr result (self.new ≡ self.old) }
    {
        let from = self.bytes.len();
        self.bytes.extend_from_slice(&more.bytes)?;
        let moved = moved_by(self.allocator(), &more.said, from, more.bytes.len())?;
        self.said.extend_from_slice(&moved)?;
        Ok(())
    }

    /// The allocator of the texts.
    pub fn allocator(&self) -> Global {
        *self.bytes.allocator()
    }

    /// Drops the texts, and keeps the memory for others.
    pub fn clear(&mut self)
        ensures { self.new ≡ [] }
    {
        self.said.clear();
        self.bytes.clear();
    }

    /// Writes the texts, where each line has one, in the order of the lines, and drops them. Each is
    /// written once, whatever its line is.
    pub fn write<O: Sink>(&mut self, out: &mut O) -> Result<(), SinkErr>
        ensures ok { OnOk result (HaveOwnLines self.old → IfTold (O.written out.old)
            (Appends (joined (in_line_order self.old)) (O.written out.new))) }
        ensures err { OnErr result (HaveOwnLines self.old → IfTold (O.written out.old)
            (AppendsPart (joined (in_line_order self.old)) (O.written out.new))) }
        ensures each { OnOk result (IfTold (O.written out.old)
            (AreWritten self.old (O.written out.new))) }
        ensures empty { self.new ≡ [] }
        ensures cause { HasCause Failed (O.faults out.old) (O.faults out.new) result }
    {
        sort_by_line(&mut self.said);
        let written = write_parts(out, &self.bytes, &self.said);
        self.clear();
        written
    }
}

// Notes that the text of a line stands there.
fn note(said: &mut Vec<Said>, line: u32, from: usize, to: usize) -> Result<(), AllocError>
    ensures ok { OnOk result (said.new.items
        ≡ said.old.items ++ record { line = line; from = from; to = to } ∷ []) }
    ensures err { OnErr result (said.new.items ≡ said.old.items) }
{
    said.push(Said { line, from, to })?;
    Ok(())
}

// The same texts, in a buffer in which they stand that much further on.
fn moved_by(alloc: Global, said: &[Said], by: usize, size: usize) -> Result<Vec<Said>, AllocError>
    requires within { AllByRecursion (IsWithin size) said.now }
    requires small { by + size < 2 ^ 64 }
    ensures { IfOk result (λ v. v.items ≡ map (spec.moved_by by) said.now) }
{
    let mut moved = Vec::with_capacity(alloc, said.len())?;
    for text in said {
        moved.push(Said {
            line: text.line,
            from: by + text.from,
            to: by + text.to,
        })?;
    }
    Ok(moved)
}

// Puts texts in the order of their lines.
fn sort_by_line(said: &mut Vec<Said>)
    ensures same { IsPermutation said.old.items said.new.items }
    ensures order { IsNonDecreasingBy (λ x. x.line) said.new.items }
{
    said.sort_unstable_by_key(
        |text: &Said| -> u32
            ensures { result ≡ text.now.line }
        { text.line },
    );
}

// Writes parts of a buffer one after the other; those that follow one another are one write.
fn write_parts<O: Sink>(out: &mut O, bytes: &[u8], said: &[Said]) -> Result<(), SinkErr>
    requires within { AllByRecursion (IsWithin (length bytes.now)) said.now }
    ensures ok { OnOk result (IfTold (O.written out.old)
        (Appends (flat_map (part_of bytes.now) said.now) (O.written out.new))) }
    ensures err { OnErr result (IfTold (O.written out.old)
        (AppendsPart (flat_map (part_of bytes.now) said.now) (O.written out.new))) }
    ensures cause { HasCause Failed (O.faults out.old) (O.faults out.new) result }
{
    let mut from = 0;
    let mut to = 0;
    for text in said {
        if text.from != to {
            write_piece(out, &bytes[from..to])?;
            from = text.from;
        }
        to = text.to;
    }
    write_piece(out, &bytes[from..to])
}

// Writes a piece, and nothing where it is empty.
fn write_piece<O: Sink>(out: &mut O, piece: &[u8]) -> Result<(), SinkErr>
    ensures ok { OnOk result (IfTold (O.written out.old) (Appends piece.now (O.written out.new))) }
    ensures err { OnErr result
        (IfTold (O.written out.old) (AppendsPart piece.now (O.written out.new))) }
    ensures cause { HasCause Failed (O.faults out.old) (O.faults out.new) result }
{
    if piece.is_empty() {
        return Ok(());
    }
    out.write(piece)
}
