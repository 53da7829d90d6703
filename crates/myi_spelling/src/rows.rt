//! `SpelledRows`: the rows that words spell, read once as more words come.
ghost use Rattle.std.specs.Prelude.{◌≡◌, ◌≤◌, ◌<◌, [], length, slice_index_or};
ghost use Rattle.myi_spelling.specs.Pieces.{pieces, begin_of, AreEnds};

use crate::words::append_row;
use myi_base::slices_are_bytes;
use std::alloc::{AllocError, Global};
use std::marker::Model;

/// The rows that the words spell which were read so far, one after the other.
pub struct SpelledRows {
    bytes: Vec<u8>,
    // Where each row ends in these bytes.
    ends: Vec<usize>,
    // How many words the rows take.
    place: usize,
    // For how many words there is memory.
    room: usize,
}

impl Drop for SpelledRows {
    fn drop(self) {
        let SpelledRows {
            bytes: _,
            ends: _,
            place: _,
            room: _,
        } = self;
    }
}

impl Model for SpelledRows {
    ghost use Rattle.myi_spelling.specs.Pieces.{Reading, IsReading, pieces};

    ghost Value = { Reading };

    ghost view = { λ s. record { rows = pieces 0 s.bytes.items s.ends.items; room = s.room } };

    ghost invariant = { IsReading };
}

// Where the piece of a number begins.
fn begin_of(ends: &[usize], i: usize) -> usize
    requires { i ≤ length ends.now }
    ensures { result ≡ begin_of 0 ends.now i }
{
    if i == 0 { 0 } else { ends[i - 1] }
}

// The piece of a number.
fn piece<'a>(bytes: &'a [u8], ends: &[usize], i: usize) -> &'a [u8]
    requires ends { AreEnds 0 bytes.now ends.now }
    requires there { i < length ends.now }
    ensures { result.now ≡ slice_index_or (pieces 0 bytes.now ends.now) i [] }
{
    &bytes[begin_of(ends, i)..ends[i]]
}

impl SpelledRows {
    ghost use Rattle.std.specs.Prelude.{◌≡◌, ◌≤◌, ◌<◌, [], length, slice_index_or, IfOk, MatchBool, All};
    ghost use Rattle.myi_base.specs.Numbers.{AreBytes};
    ghost use Rattle.myi_tail.specs.Prefix.{BeginsWith};
    ghost use Rattle.myi_tail.specs.Spelled.{spelled};
    ghost use Rattle.myi_spelling.specs.Pieces.{words_for, AddsFirst, EndsAt};

    /// No rows, with memory for those that so many words may spell.
    pub fn new(alloc: Global, words: usize) -> Result<SpelledRows, AllocError>
        ensures { IfOk result (λ s. s ≡ record { rows = []; room = words }) }
    {
        let Some(bytes) = words.checked_mul(8) else {
            return Err(AllocError);
        };
        Ok(SpelledRows {
            bytes: Vec::with_capacity(alloc, bytes)?,
            ends: Vec::with_capacity(alloc, words)?,
            place: 0,
            room: words,
        })
    }

    /// How many rows were read.
    pub fn count(&self) -> usize
        ensures { result ≡ length self.now.rows }
    {
        self.ends.len()
    }

    /// The bytes of a row, by its number from 0.
    pub fn row(&self, i: usize) -> &[u8]
        requires { i < length self.now.rows }
        ensures { result.now ≡ slice_index_or self.now.rows i [] }
    {
        piece(&self.bytes, &self.ends, i)
    }

    /// Reads the rows behind those that were read. The words begin with the words of the rows that were read, as they do
    /// where they are those of the last call and more. It takes no memory.
    pub fn read_on(&mut self, words: &[u64])
        requires room { length words.now ≤ self.old.room }
        requires more { BeginsWith words.now (words_for self.old.rows) }
        ensures rows { self.new.rows ≡ spelled words.now }
        ensures more { BeginsWith self.new.rows self.old.rows }
        ensures room { self.new.room ≡ self.old.room }
    {
        self.rows_are_bytes();
        while self.read_row(words) {}
    }

    fn rows_are_bytes(&self)
        ensures { All AreBytes self.now.rows }
    {
        let _bytes = &self.bytes;
    }

    // Reads the row behind those that were read, and answers whether one stands there.
    fn read_row(&mut self, words: &[u64]) -> bool
        requires room { length words.now ≤ self.old.room }
        requires more { BeginsWith words.now (words_for self.old.rows) }
        ensures row { MatchBool result (AddsFirst words.now self.old self.new)
            (EndsAt words.now self.old self.new) }
    {
        let Some(count) = append_row(&mut self.bytes, &words[self.place..]) else {
            return false;
        };
        slices_are_bytes(&self.bytes);
        self.ends.push_reserved(self.bytes.len());
        self.place += count;
        true
    }
}
