//! `KnownRows`: the rows of a table that the words which a reader knows spell.
ghost use Rattle.std.specs.Prelude.{◌≡◌, ◌≤◌, ◌<◌, ◌^◌, [], true, length, drop, slice_index_or, MatchOption};
ghost use Rattle.std.specs.List.{take_while, prefix_len};
ghost use Rattle.myi_defs.specs.Sound.{IsSound};
ghost use Rattle.myi_snapshots.specs.Known.{is_row, size_of, end_with};
ghost use Rattle.myi_snapshots.specs.Knowing.{told_place};

use crate::sizes::size_of;
use myi_defs::{Defs, RowFormat};
use myi_pack::{Row, unpack, view, view_packed};
use myi_spelling::SpelledRows;
use std::alloc::{AllocError, Global};
use std::marker::Model;

/// The rows that a reader knows, with their bytes.
pub struct KnownRows {
    defs: Defs,
    begin: u64,
    whole: SpelledRows,
    // How many of these are rows of the table.
    count: usize,
    // Where the data file ends behind them.
    end: u64,
}

impl Drop for KnownRows {
    fn drop(self) {
        let KnownRows {
            defs: _,
            begin: _,
            whole: _,
            count: _,
            end: _,
        } = self;
    }
}

impl Model for KnownRows {
    ghost use Rattle.myi_snapshots.specs.Knowing.{Knowing, IsKnowing};

    ghost Value = { Knowing };

    ghost view = { λ k. record {
      defs = k.defs;
      begin = k.begin;
      whole = k.whole.rows;
      room = k.whole.room;
    } };

    ghost invariant = { IsKnowing };
}

// Whether these bytes pack a row of the table.
fn is_row(defs: &Defs, bytes: &[u8]) -> bool
    requires { IsSound defs.now }
    ensures { result ≡ is_row defs.now bytes.now }
{
    if view(defs, bytes).is_none() {
        return false;
    }
    match defs.format {
        RowFormat::Static => true,
        RowFormat::Dynamic => bytes.len() <= u32::MAX as usize,
    }
}

// How many bytes of the data file the row of a number takes, and None where there is no such row of the table.
fn next_size(defs: &Defs, rows: &SpelledRows, i: usize) -> Option<u64>
    requires sound { IsSound defs.now }
    requires within { i ≤ length rows.now.rows }
    ensures few { length rows.now.rows < 2 ^ 64 }
    ensures size { MatchOption result (prefix_len (is_row defs.now) (drop i rows.now.rows) ≡ 0)
        (λ size. (i < length rows.now.rows)
        × (is_row defs.now (slice_index_or rows.now.rows i []) ≡ true)
        × (size ≡ size_of defs.now (slice_index_or rows.now.rows i []))) }
{
    if i == rows.count() {
        return None;
    }
    let bytes = rows.row(i);
    if !is_row(defs, bytes) {
        return None;
    }
    Some(size_of(defs, bytes))
}

// How many rows are rows of the table, and where the file ends behind them, where so many are counted already.
fn count_on(defs: &Defs, rows: &SpelledRows, counted: usize, end: u64) -> (usize, u64)
    requires sound { IsSound defs.now }
    requires counted { counted ≤ prefix_len (is_row defs.now) rows.now.rows }
    ensures count { result.0 ≡ prefix_len (is_row defs.now) rows.now.rows }
    ensures end { result.1 ≡ told_place (end_with defs.now end
        (take_while (is_row defs.now) (drop counted rows.now.rows))) }
{
    let mut count = counted;
    let mut behind = end;
    while let Some(size) = next_size(defs, rows, count) {
        count += 1;
        behind = behind.saturating_add(size);
    }
    (count, behind)
}

impl KnownRows {
    ghost use Rattle.std.specs.Prelude.{◌≡◌, ◌≤◌, ◌<◌, [], Some, length, slice_index_or, IfOk};
    ghost use Rattle.myi_defs.specs.Sound.{IsSound};
    ghost use Rattle.myi_pack.specs.Unpacking.{row_of};
    ghost use Rattle.myi_tail.specs.Prefix.{BeginsWith};
    ghost use Rattle.myi_tail.specs.Spelled.{spelled};
    ghost use Rattle.myi_spelling.specs.Pieces.{words_for};
    ghost use Rattle.myi_snapshots.specs.Known.{size_of, end_with};
    ghost use Rattle.myi_snapshots.specs.Knowing.{packed_of, told_place};

    /// No rows, behind a data file that ends there, with memory for those that so many words may spell.
    pub fn new(alloc: Global, defs: &Defs, end: u64, words: usize) -> Result<KnownRows, AllocError>
        requires { IsSound defs.now }
        ensures { IfOk result (λ k. k
            ≡ record { defs = defs.now; begin = end; whole = []; room = words }) }
    {
        Ok(KnownRows {
            defs: defs.copy()?,
            begin: end,
            whole: SpelledRows::new(alloc, words)?,
            count: 0,
            end,
        })
    }

    /// Reads the rows behind those that were read. The words begin with those of the rows that were read, as they do
    /// where they are those of the last call and more. It takes no memory.
    pub fn read_on(&mut self, words: &[u64])
        requires room { length words.now ≤ self.old.room }
        requires more { BeginsWith words.now (words_for self.old.whole) }
        ensures { self.new ≡ record self.old { whole = spelled words.now } }
    {
        self.whole.read_on(words);
        let (count, end) = count_on(&self.defs, &self.whole, self.count, self.end);
        self.count = count;
        self.end = end;
    }

    /// How many rows are known.
    pub fn count(&self) -> usize
        ensures { result ≡ length (packed_of self.now) }
    {
        self.count
    }

    /// Where the data file ends behind the rows that are known, or 2^64 - 1 where that is past it.
    pub fn end(&self) -> u64
        ensures { result ≡ told_place (end_with self.now.defs self.now.begin (packed_of self.now)) }
    {
        self.end
    }

    /// The bytes of a row that is known, by its number from 0.
    pub fn bytes(&self, i: usize) -> &[u8]
        requires { i < length (packed_of self.now) }
        ensures { result.now ≡ slice_index_or (packed_of self.now) i [] }
    {
        self.whole.row(i)
    }

    /// How many bytes of the data file a row that is known takes behind its end, by its number from 0.
    pub fn size(&self, i: usize) -> u64
        requires { i < length (packed_of self.now) }
        ensures { result ≡ size_of self.now.defs (slice_index_or (packed_of self.now) i []) }
    {
        size_of(&self.defs, self.whole.row(i))
    }

    /// A row that is known, by its number from 0.
    pub fn row(&self, alloc: Global, i: usize) -> Result<Row, AllocError>
        requires { i < length (packed_of self.now) }
        ensures { IfOk result (λ row.
            row_of self.now.defs (slice_index_or (packed_of self.now) i []) ≡ Some row) }
    {
        let view = view_packed(&self.defs, self.whole.row(i));
        unpack(alloc, &view)
    }
}
