//! The one that appends. `Appender` keeps the words that it stored, beside the table that the readers
//! see; `NoRoom` is its refusal of a row.
ghost use Rattle.std.specs.Prelude.{◌≡◌, ◌+◌, ◌/◌, ◌<◌, ◌≤◌, ◌↔◌, ◌∷◌, ◌++◌};
ghost use Rattle.std.specs.Prelude.{[], length, IfOk, IfErr, OnOk, OnErr, IsOk};
ghost use Rattle.myi_tail.specs.Rows.{row_words, bytes_words};
ghost use Rattle.myi_tail.specs.Seats.{free_words, room_of, IsNew, closing};

use crate::closing::ClosingAppender;
use crate::reader::ReaderSeat;
use crate::table::{Cells, SplitReader, StoreCount, StoreWord, TailSeat};
use myi_base::le;
use std::alloc::{AllocError, Global};
use std::marker::Model;
use std::sync::Arc;

/// The one that stores words and publishes them. It moves between threads, and is not shared.
#[derive(Drop)]
pub struct Appender {
    pub(crate) table: Arc<Cells, Global>,
    pub(crate) seat: TailSeat,
    pub(crate) words: Vec<u64>,
    pub(crate) published: u64,
    pub(crate) room: usize,
}

impl Model for Appender {
    ghost use Rattle.myi_tail.specs.Seats.{Appending, appending_code};

    ghost Value = { Appending };

    ghost coded = { appending_code };

    ghost use Rattle.myi_tail.specs.Inside.{IsAppender};

    ghost view = { λ a.
        record { tail = a.seat.table_id; words = a.words.items; published = a.published } };

    ghost invariant = { IsAppender };
}

/// A row needs more words than are free. Nothing of it is staged.
#[derive(Debug, Drop)]
pub struct NoRoom {
    /// How many words the row needs.
    pub need: usize,
    /// How many words are free.
    pub free: usize,
}

// How many words a row needs: one for its length, and one for each eight bytes begun.
fn words_needed(row: &[u8]) -> usize
    ensures words { result ≡ length (row_words row.now) }
    ensures count { result ≡ (length row.now + 7) / 8 + 1 }
{
    row.len().div_ceil(8) + 1
}

impl Appender {
    /// An appender of a new tail with room for so many words.
    pub(crate) fn new(alloc: Global, words: usize) -> Result<Appender, AllocError>
        requires { words < usize.MAX }
        ensures room { IfOk result (λ a. room_of a.tail ≡ words) }
        ensures empty { IfOk result (λ a. (a.words ≡ []) × (a.published ≡ 0)) }
    {
        let mut zeros = vec![in alloc; 0u64; words + 1]?;
        let (table, seat) = Cells::of_words(alloc, zeros.as_slice(), &(words as u64 + 1))?;
        // The cells have them now; the words take their memory.
        zeros.clear();
        Ok(Appender {
            table: Arc::new(alloc, table)?,
            seat,
            words: zeros,
            published: 0,
            room: words,
        })
    }

    /// A new reader of this tail, with memory for all words that it may know.
    pub(crate) fn new_reader(&mut self, alloc: Global) -> Result<ReaderSeat, AllocError>
        ensures new { IfOk result (IsNew self.old.tail) }
        ensures same { self.new ≡ self.old }
    {
        let table = Arc::try_clone(&self.table)?;
        let known = Vec::with_capacity(alloc, self.room)?;
        let seat = table.shared.split_seat::<SplitReader>(&mut self.seat);
        Ok(ReaderSeat {
            table,
            seat,
            seen: 0,
            known,
        })
    }

    fn free(&self) -> usize
        ensures { result ≡ free_words self.now }
    {
        self.room - self.words.len()
    }

    // Stores one word directly after the others.
    fn push_word(&mut self, word: u64)
        requires { 0 < free_words self.old }
        ensures { self.new ≡ record self.old { words = self.old.words ++ word ∷ [] } }
    {
        let cell = self.words.len() + 1;
        self.table
            .shared
            .store::<StoreWord>(&mut self.seat, cell, word);
        self.words.push_reserved(word);
    }

    // Stores the words of a row's bytes.
    fn push_bytes(&mut self, row: &[u8])
        requires { (length row.now + 7) / 8 ≤ free_words self.old }
        ensures { self.new ≡ record self.old { words = self.old.words ++ bytes_words row.now } }
    {
        for eight in row.chunks(8) {
            self.push_word(le(eight));
        }
    }

    /// Stores the words of a row behind the others, where no reader sees them before `publish`. It takes
    /// no memory.
    ///
    /// `NoRoom` comes exactly where the row needs more words than are free; then nothing changes.
    pub fn stage(&mut self, packed: &[u8]) -> Result<(), NoRoom>
        ensures exact { IsOk result ↔ (length (row_words packed.now) ≤ free_words self.old) }
        ensures ok { OnOk result
            (self.new ≡ record self.old { words = self.old.words ++ row_words packed.now }) }
        ensures err { OnErr result (self.new ≡ self.old) }
        ensures need { IfErr result (λ e. e.need ≡ length (row_words packed.now)) }
        ensures free { IfErr result (λ e. e.free ≡ free_words self.old) }

        // The same after both.
        ensures tail { self.new.tail ≡ self.old.tail }
        ensures published { self.new.published ≡ self.old.published }
    {
        let (need, free) = (words_needed(packed), self.free());
        if free < need {
            return Err(NoRoom { need, free });
        }
        self.push_word(packed.len() as u64);
        self.push_bytes(packed);
        Ok(())
    }

    /// Shows all stored words to the readers, by one store of their count, and answers the count. It
    /// takes no memory.
    pub fn publish(&mut self) -> u64
        ensures count { result ≡ length self.old.words }
        ensures all { self.new ≡ record self.old { published = length self.old.words } }
    {
        let count = self.words.len() as u64;
        self.table
            .shared
            .store::<StoreCount>(&mut self.seat, 0, count);
        self.published = count;
        count
    }

    pub(crate) fn into_closing(self) -> ClosingAppender
        ensures { result ≡ closing self [] }
    {
        let Appender {
            table,
            seat,
            words,
            published,
            room: _,
        } = self;
        ClosingAppender {
            table,
            seat,
            words,
            published,
        }
    }
}
