//! `AnswerTexts`: the buffers that serve for the lines of many answers.
//!
//! Where memory runs out, a line is not appended at all (`same`), and of several lines a first part
//! may have been (`part`).
ghost use Rattle.std.specs.Prelude.{◌≡◌, ◌++◌, decimal, length, filter, nat_lt, string_bytes, OnOk};
ghost use Rattle.myi_history.specs.Answers.{numbered, gets_text, puts_text, counters_text};

use myi_keycache::Counters;
use myi_pack::Row;
use myi_rowtext::RowTexts;
use std::alloc::{AllocError, Global};

/// What a step answers that is no read.
#[derive(Clone, Copy, Debug, PartialEq, Eq)]
pub enum StepAnswer {
    /// A change was made at a position.
    Made { at: u64 },
    /// A row was inserted in the table of that number of a MERGE list, at a position of it.
    MadeIn { table: u32, at: u64 },
    /// No row stands at that position.
    NoRow { at: u64 },
    /// The row at that position has the complete key in the unique key of that number, from 1.
    Duplicate { key: u64, at: u64 },
    /// Row pointers would not reach the whole file.
    Full,
    /// The session of a change holds a read lock.
    LockedForRead,
    /// A MERGE list does not say in which of its tables rows are inserted.
    NoInsertMethod,
    /// A lock was taken or given up, or a session ended.
    Done,
    /// What a key cache counted.
    Counted(Counters),
}

/// Buffers for the words of a line, for the line of a row and for its text.
pub struct AnswerTexts {
    words: String,
    line: Vec<u8>,
    rows: RowTexts,
}

impl Drop for AnswerTexts {
    fn drop(self) {
        let AnswerTexts {
            words: _,
            line: _,
            rows: _,
        } = self;
    }
}

impl AnswerTexts {
    ghost use Rattle.std.specs.Prelude.{◌≡◌, ◌++◌, Some, nat_lt, filter, OnOk, OnErr};
    ghost use Rattle.myi_base.specs.Output.{AppendsPart};
    ghost use Rattle.myi_tablestate.specs.Keyed.{lacks, duplicate, too_long};
    ghost use Rattle.myi_history.specs.Answers.{answer_text, made, made_in, refused, locked_for_read, no_method};
    ghost use Rattle.myi_history.specs.Answers.{done, counted, rows, count_text, numbered};
    ghost use Rattle.myi_history.specs.Answers.{row_line, row_lines, merged, merged_line, merged_lines, damaged_text};
    ghost use Rattle.myi_history.specs.RoundTexts.{answer_of};

    /// Empty buffers, for which no memory is taken.
    pub fn new(alloc: Global) -> AnswerTexts {
        AnswerTexts {
            words: String::new(alloc),
            line: Vec::new(alloc),
            rows: RowTexts::new(alloc),
        }
    }

    /// Appends the line of what a step answered.
    pub fn push(
        &mut self,
        out: &mut Vec<u8>,
        line: u32,
        answer: StepAnswer,
    ) -> Result<(), AllocError>
        ensures text { OnOk result (out.new.items
            ≡ out.old.items ++ answer_text line (answer_of answer)) }
        ensures same { OnErr result (out.new.items ≡ out.old.items) }
    {
        match answer {
            StepAnswer::Made { at } => self.push_made(out, line, at),
            StepAnswer::MadeIn { table, at } => self.push_made_in(out, line, table, at),
            StepAnswer::NoRow { at } => self.push_no_row(out, line, at),
            StepAnswer::Duplicate { key, at } => self.push_duplicate(out, line, key, at),
            StepAnswer::Full => self.push_full(out, line),
            StepAnswer::LockedForRead => self.push_locked(out, line),
            StepAnswer::NoInsertMethod => self.push_no_method(out, line),
            StepAnswer::Done => self.push_done(out, line),
            StepAnswer::Counted(counters) => self.push_counters(out, line, counters),
        }
    }

    /// Appends the line of a change that was made at a position.
    pub fn push_made(&mut self, out: &mut Vec<u8>, line: u32, at: u64) -> Result<(), AllocError>
        ensures text { OnOk result (out.new.items ≡ out.old.items ++ answer_text line (made at)) }
        ensures same { OnErr result (out.new.items ≡ out.old.items) }
    {
        self.words.clear();
        write!(self.words, "{line} ok {at}\n")?;
        out.extend_from_slice(self.words.as_bytes())
    }

    /// Appends the line of a row that was inserted in the table of that number of a MERGE list.
    pub fn push_made_in(
        &mut self,
        out: &mut Vec<u8>,
        line: u32,
        table: u32,
        at: u64,
    ) -> Result<(), AllocError>
        ensures text { OnOk result (out.new.items
            ≡ out.old.items ++ answer_text line (made_in table at)) }
        ensures same { OnErr result (out.new.items ≡ out.old.items) }
    {
        self.words.clear();
        write!(self.words, "{line} ok {table}:{at}\n")?;
        out.extend_from_slice(self.words.as_bytes())
    }

    /// Appends the line of a lock that was taken or given up, or of a session that ended.
    pub fn push_done(&mut self, out: &mut Vec<u8>, line: u32) -> Result<(), AllocError>
        ensures text { OnOk result (out.new.items ≡ out.old.items ++ answer_text line done) }
        ensures same { OnErr result (out.new.items ≡ out.old.items) }
    {
        self.words.clear();
        write!(self.words, "{line} ok\n")?;
        out.extend_from_slice(self.words.as_bytes())
    }

    /// Appends the line of a change that is refused, since its session holds a read lock.
    pub fn push_locked(&mut self, out: &mut Vec<u8>, line: u32) -> Result<(), AllocError>
        ensures text { OnOk result (out.new.items
            ≡ out.old.items ++ answer_text line locked_for_read) }
        ensures same { OnErr result (out.new.items ≡ out.old.items) }
    {
        self.words.clear();
        write!(self.words, "{line} locked for read\n")?;
        out.extend_from_slice(self.words.as_bytes())?;
        Ok(())
    }

    /// Appends the line of an insert that is refused, since the MERGE list does not say in which of
    /// its tables rows are inserted.
    pub fn push_no_method(&mut self, out: &mut Vec<u8>, line: u32) -> Result<(), AllocError>
        ensures text { OnOk result (out.new.items
            ≡ out.old.items ++ answer_text line no_method) }
        ensures same { OnErr result (out.new.items ≡ out.old.items) }
    {
        self.words.clear();
        write!(self.words, "{line} no insert method\n")?;
        out.extend_from_slice(self.words.as_bytes())
    }

    /// Appends the line of a change that is refused, since no row stands at its position.
    pub fn push_no_row(&mut self, out: &mut Vec<u8>, line: u32, at: u64) -> Result<(), AllocError>
        ensures text { OnOk result (out.new.items
            ≡ out.old.items ++ answer_text line (refused (lacks at))) }
        ensures same { OnErr result (out.new.items ≡ out.old.items) }
    {
        self.words.clear();
        write!(self.words, "{line} no row {at}\n")?;
        out.extend_from_slice(self.words.as_bytes())
    }

    /// Appends the line of a change that is refused, since the row at a position has the complete
    /// key in the unique key of that number.
    pub fn push_duplicate(
        &mut self,
        out: &mut Vec<u8>,
        line: u32,
        key: u64,
        at: u64,
    ) -> Result<(), AllocError>
        ensures text { OnOk result (out.new.items
            ≡ out.old.items ++ answer_text line (refused (duplicate key at))) }
        ensures same { OnErr result (out.new.items ≡ out.old.items) }
    {
        self.words.clear();
        write!(self.words, "{line} duplicate key {key} at {at}\n")?;
        out.extend_from_slice(self.words.as_bytes())
    }

    /// Appends the line of a change that is refused, since row pointers would not reach the whole
    /// file.
    pub fn push_full(&mut self, out: &mut Vec<u8>, line: u32) -> Result<(), AllocError>
        ensures text { OnOk result (out.new.items
            ≡ out.old.items ++ answer_text line (refused too_long)) }
        ensures same { OnErr result (out.new.items ≡ out.old.items) }
    {
        self.words.clear();
        write!(self.words, "{line} full\n")?;
        out.extend_from_slice(self.words.as_bytes())
    }

    /// Appends the line of a step that met damage at a place of a file.
    pub fn push_damaged(&mut self, out: &mut Vec<u8>, line: u32, at: u64) -> Result<(), AllocError>
        ensures text { OnOk result (out.new.items
            ≡ out.old.items ++ numbered line (damaged_text at)) }
        ensures same { OnErr result (out.new.items ≡ out.old.items) }
    {
        self.words.clear();
        write!(self.words, "{line} damaged at {at}\n")?;
        out.extend_from_slice(self.words.as_bytes())?;
        Ok(())
    }

    /// Appends the line of what a key cache counted.
    pub fn push_counters(
        &mut self,
        out: &mut Vec<u8>,
        line: u32,
        counters: Counters,
    ) -> Result<(), AllocError>
        ensures text { OnOk result (out.new.items
            ≡ out.old.items ++ answer_text line (counted counters)) }
        ensures same { OnErr result (out.new.items ≡ out.old.items) }
    {
        self.words.clear();
        write_counters(&mut self.words, line, counters)?;
        out.extend_from_slice(self.words.as_bytes())?;
        Ok(())
    }

    /// Appends the first line of a read: how many rows it found, after so many changes.
    pub fn push_count(
        &mut self,
        out: &mut Vec<u8>,
        line: u32,
        count: u64,
        number: u64,
    ) -> Result<(), AllocError>
        ensures text { OnOk result (out.new.items
            ≡ out.old.items ++ numbered line (count_text count number)) }
        ensures same { OnErr result (out.new.items ≡ out.old.items) }
    {
        self.words.clear();
        write!(self.words, "{line} rows {count} at {number}\n")?;
        out.extend_from_slice(self.words.as_bytes())
    }

    /// Appends the lines of a read that found these rows, after so many changes.
    pub fn push_found(
        &mut self,
        out: &mut Vec<u8>,
        line: u32,
        found: &[(u64, Row)],
        number: u64,
    ) -> Result<(), AllocError>
        ensures text { OnOk result (out.new.items
            ≡ out.old.items ++ answer_text line (rows found.now number)) }
        ensures part { OnErr result (AppendsPart (answer_text line (rows found.now number))
            (Some out.new.items) out.old.items) }
    {
        self.push_count(out, line, found.len() as u64, number)?;
        self.push_rows(out, found)
    }

    /// Appends the lines of a read that found, after so many changes, those of these rows that
    /// stand below a place.
    pub fn push_found_below(
        &mut self,
        out: &mut Vec<u8>,
        line: u32,
        found: &[(u64, Row)],
        below: u64,
        number: u64,
    ) -> Result<(), AllocError>
        ensures text { OnOk result (out.new.items ≡ out.old.items
            ++ answer_text line (rows (filter (λ r. nat_lt r.0 below) found.now) number)) }
        ensures part { OnErr result (AppendsPart
            (answer_text line (rows (filter (λ r. nat_lt r.0 below) found.now) number))
            (Some out.new.items) out.old.items) }
    {
        self.push_count(out, line, count_below(found, below), number)?;
        self.push_rows_below(out, found, below)
    }

    /// Appends the lines of a read of a MERGE list that found these rows, each with the number of
    /// its table, after so many changes.
    pub fn push_merged(
        &mut self,
        out: &mut Vec<u8>,
        line: u32,
        found: &[(u32, u64, Row)],
        number: u64,
    ) -> Result<(), AllocError>
        ensures text { OnOk result (out.new.items
            ≡ out.old.items ++ answer_text line (merged found.now number)) }
        ensures part { OnErr result (AppendsPart (answer_text line (merged found.now number))
            (Some out.new.items) out.old.items) }
    {
        self.push_count(out, line, found.len() as u64, number)?;
        self.push_merged_rows(out, found)
    }

    fn push_merged_rows(
        &mut self,
        out: &mut Vec<u8>,
        found: &[(u32, u64, Row)],
    ) -> Result<(), AllocError>
        ensures text { OnOk result (out.new.items ≡ out.old.items ++ merged_lines found.now) }
        ensures part { OnErr result
            (AppendsPart (merged_lines found.now) (Some out.new.items) out.old.items) }
    {
        for (table, at, row) in found {
            self.push_merged_row(out, *table, *at, row)?;
        }
        Ok(())
    }

    /// Appends the line of a row that a read of a MERGE list found in the table of that number.
    pub fn push_merged_row(
        &mut self,
        out: &mut Vec<u8>,
        table: u32,
        at: u64,
        row: &Row,
    ) -> Result<(), AllocError>
        ensures text { OnOk result (out.new.items
            ≡ out.old.items ++ merged_line (table, at, row.now)) }
        ensures same { OnErr result (out.new.items ≡ out.old.items) }
    {
        self.words.clear();
        write!(self.words, "  {table}:")?;
        self.line.clear();
        self.line.extend_from_slice(self.words.as_bytes())?;
        self.rows.push_row(&mut self.line, at, row)?;
        self.line.push(b'\n')?;
        out.extend_from_slice(&self.line)
    }

    fn push_rows(&mut self, out: &mut Vec<u8>, found: &[(u64, Row)]) -> Result<(), AllocError>
        ensures text { OnOk result (out.new.items ≡ out.old.items ++ row_lines found.now) }
        ensures part { OnErr result
            (AppendsPart (row_lines found.now) (Some out.new.items) out.old.items) }
    {
        for (at, row) in found {
            self.push_row(out, *at, row)?;
        }
        Ok(())
    }

    fn push_rows_below(
        &mut self,
        out: &mut Vec<u8>,
        found: &[(u64, Row)],
        below: u64,
    ) -> Result<(), AllocError>
        ensures text { OnOk result (out.new.items
            ≡ out.old.items ++ row_lines (filter (λ r. nat_lt r.0 below) found.now)) }
        ensures part { OnErr result
            (AppendsPart (row_lines (filter (λ r. nat_lt r.0 below) found.now))
            (Some out.new.items) out.old.items) }
    {
        for (at, row) in found {
            if *at < below {
                self.push_row(out, *at, row)?;
            }
        }
        Ok(())
    }

    /// Appends the line of a row that a read found.
    pub fn push_row(&mut self, out: &mut Vec<u8>, at: u64, row: &Row) -> Result<(), AllocError>
        ensures text { OnOk result (out.new.items
            ≡ out.old.items ++ row_line (at, row.now)) }
        ensures same { OnErr result (out.new.items ≡ out.old.items) }
    {
        self.line.clear();
        self.line.extend_from_slice(b"  ")?;
        self.rows.push_row(&mut self.line, at, row)?;
        self.line.push(b'\n')?;
        out.extend_from_slice(&self.line)
    }
}

// How many of these rows stand below a place.
fn count_below(found: &[(u64, Row)], below: u64) -> u64
    ensures { result ≡ length (filter (λ r. nat_lt r.0 below) found.now) }
{
    found.iter().filter(|row| row.0 < below).count() as u64
}

fn write_gets(words: &mut String, line: u32, requests: u64, reads: u64) -> Result<(), AllocError>
    ensures { OnOk result (string_bytes words.new
        ≡ string_bytes words.old ++ (decimal line ++ gets_text requests reads)) }
{
    write!(words, "{line} requests {requests} reads {reads}")
}

fn write_puts(words: &mut String, requests: u64, writes: u64) -> Result<(), AllocError>
    ensures { OnOk result (string_bytes words.new
        ≡ string_bytes words.old ++ puts_text requests writes) }
{
    write!(words, " write_requests {requests} writes {writes}")
}

fn write_counters(words: &mut String, line: u32, counters: Counters) -> Result<(), AllocError>
    ensures { OnOk result (string_bytes words.new
        ≡ string_bytes words.old ++ numbered line (counters_text counters)) }
{
    write_gets(words, line, counters.read_requests, counters.reads)?;
    write_puts(words, counters.write_requests, counters.writes)?;
    words.push_str("\n")?;
    Ok(())
}
