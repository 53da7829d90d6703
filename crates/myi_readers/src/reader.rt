//! `TableReader`: a seat, the rows that its words spell, and an object on the table's files.
ghost use Rattle.std.specs.Prelude.{◌≡◌, ◌+◌, ◌^◌, ◌<◌, ◌≤◌, [], None, length, IfOk};
ghost use Rattle.std.specs.Prelude.{ℕ, List};
ghost use Rattle.myi_base.specs.Holding.{Holding, bytes_of};
ghost use Rattle.myi_keycache.specs.Kept.{AllWritten};
ghost use Rattle.myi_keycache.specs.Caching.{pages_of};
ghost use Rattle.myi_keyedrows.specs.KeyedRows.{HoldTable};
ghost use Rattle.myi_table.specs.Table.{HoldState};
ghost use Rattle.myi_pack.specs.Packed.{Values};
ghost use Rattle.myi_state.specs.State.{TableState};
ghost use Rattle.myi_tail.specs.Seats.{room_of};
ghost use Rattle.myi_tail.specs.Prefix.{BeginsWith};
ghost use Rattle.myi_snapshots.specs.Knowing.{told_place};
ghost use Rattle.myi_snapshots.specs.Seen.{IsTaken};
ghost use Rattle.myi_readers.specs.Reader.{IsReader, AreKnown, IsSameReader, rows_known, end_known};

use crate::known_keys::{KnownKeys, begin_indexes};
use myi_defs::Defs;
use myi_keyedrows::KeyedRows;
use myi_opening::TableFile;
use myi_snapshots::{KnownRows, Snapshot, appended_rows_stand_behind, known_rows_are_first};
use myi_spelling::words_begin_with_those_of_rows;
use myi_table::Table;
use myi_tail::ReaderSeat;
use std::alloc::{AllocError, Global};

/// A reader of a shared table.
pub struct TableReader {
    /// The definitions of the table.
    pub defs: Defs,
    /// The name of its data file.
    pub name: String,
    /// The rows and trees of the base.
    pub rows: KeyedRows,
    pub seat: ReaderSeat,
    /// The rows that the words of the seat spell.
    pub known: KnownRows,
    /// These rows by their keys, in each key of the table, as far as a range has looked for them.
    pub index: Vec<KnownKeys>,
    /// How many changes were made before the table was shared.
    pub number: u64,
}

impl Drop for TableReader {
    fn drop(self) {
        let TableReader {
            defs: _,
            name: _,
            rows: _,
            seat: _,
            known: _,
            index: _,
            number: _,
        } = self;
    }
}

impl TableReader {
    /// A reader of a table, with a seat that knows no words. It knows no rows, and has memory for those that the words of the
    /// seat's tail may spell, but none for their keys.
    pub fn new(
        alloc: Global,
        table: &Table,
        seat: ReaderSeat,
        words: usize,
        number: u64,
    ) -> Result<TableReader, AllocError>
        requires room { words ≡ room_of seat.tail }
        requires unknown { seat.known ≡ [] }
        requires small { number + words < 2 ^ 64 }
        ensures ready { IfOk result IsReader }
        ensures seat { IfOk result (λ r. r.seat ≡ seat) }
        ensures number { IfOk result (λ r. r.number ≡ number) }
        ensures defs { IfOk result (λ r. r.defs ≡ table.now.rows.rows.file.defs) }
        ensures file { IfOk result (λ r. r.rows.rows ≡ record {
          file = table.now.rows.rows.file;
          places = None;
        }) }
        ensures places { IfOk result (λ r.
            r.rows.trees.places ≡ table.now.rows.trees.places) }

        // Once all pages of the table are written, other files that hold the same of its two hold its state.
        ensures base { IfOk result (λ r. (s : TableState) (m n : Holding)
            → HoldState table.now s m → AllWritten (pages_of table.now.rows.trees.cache)
            → bytes_of table.now.rows.rows.file.name n ≡ bytes_of table.now.rows.rows.file.name m
            → bytes_of table.now.rows.trees.cache.name n
            ≡ bytes_of table.now.rows.trees.cache.name m
            → (own : ℕ → ℕ) × HoldTable r.rows own s n) }
    {
        let defs = table.defs().copy()?;
        let name = TableFile::Data.of(alloc, table.name())?;
        let rows = table.open_again()?;
        let end = table.length();
        let known = KnownRows::new(alloc, &defs, end, words)?;
        let index = begin_indexes(alloc, &defs, end)?;
        Ok(TableReader {
            defs,
            name,
            rows,
            seat,
            known,
            index,
            number,
        })
    }

    /// Loads the count of published words and reads on up to it. The answer is a snapshot of this moment: how many changes
    /// were made, and where the data file ends behind them. It takes no memory.
    pub fn lock(&mut self) -> Snapshot
        requires ready { IsReader self.old }
        ensures number { result.number ≡ self.old.number + length (rows_known self.new) }
        ensures length { result.length ≡ told_place (end_known self.new) }
        ensures seen { self.old.seat.seen ≤ self.new.seat.seen }
        ensures caught { length self.new.seat.known ≡ self.new.seat.seen }
        ensures more { BeginsWith self.new.seat.known self.old.seat.known }
        ensures later { self.old.number + length (rows_known self.old) ≤ result.number }
        ensures taken { (base : TableState) (rows : List Values) → AreKnown self.new rows
            → base.space.end ≡ self.old.rows.rows.file.counts.length
            → end_known self.new < 2 ^ 64
            → IsTaken self.old.defs base self.old.number rows result }
        ensures ready { IsReader self.new }
        ensures same { IsSameReader self.old self.new }
        ensures rows { self.new.rows ≡ self.old.rows }
    {
        words_begin_with_those_of_rows();
        known_rows_are_first();
        appended_rows_stand_behind();
        let count = self.seat.lock();
        self.seat.catch_up(count);
        self.known.read_on(self.seat.known());
        Snapshot {
            number: self.number + self.known.count() as u64,
            length: self.known.end(),
        }
    }

    /// The seat of a reader that is given up.
    pub fn into_seat(self) -> ReaderSeat
        ensures { result ≡ self.seat }
    {
        let TableReader {
            defs: _,
            name: _,
            rows: _,
            seat,
            known: _,
            index: _,
            number: _,
        } = self;
        seat
    }
}
