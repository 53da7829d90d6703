//! What one thread does, a turn at a time: `Put` puts the next row, and then the same once more, which must be refused; `Read` takes
//! a snapshot, and looks whether it sees just the rows below it.
ghost use Rattle.std.specs.Prelude.{◌≡◌, ◌<◌, List, length};
ghost use Rattle.myi_pack.specs.Packed.{Values};
ghost use Rattle.myi_inserter.specs.Inserter.{IsInserter};
ghost use Rattle.myi_readers.specs.Reader.{IsReader};
ghost use Rattle.myi_share_tests.specs.Parts.{of_inserter, of_reader};
ghost use Rattle.myi_share_tests.specs.Jobs.{part_of};

use crate::rows::{number_of, row_of};
use case_lines::UntoldReader;
use myi_defs::Defs;
use myi_inserter::{InsertFault, Inserter};
use myi_pack::Row;
use myi_readers::Reader;
use myi_snapshots::Snapshot;
use myi_table::Range;
use std::alloc::Global;
use std::marker::Model;

/// The inserter, the definitions, the numbers of the next row and of the last one that is to be put, and how many answers were
/// not as expected.
#[derive(Drop)]
pub struct Put {
    alloc: Global,
    inserter: Inserter<UntoldReader>,
    defs: Defs,
    next: u32,
    last: u32,
    wrong: u32,
}

impl Model for Put {
    ghost use Rattle.std.specs.Prelude.{◌≡◌, List};
    ghost use Rattle.myi_pack.specs.Packed.{Values};
    ghost use Rattle.myi_inserter.specs.Inserter.{IsInserter};
    ghost use Rattle.myi_share_tests.specs.Parts.{Part, of_inserter};

    ghost Value = { Part };

    ghost view = { λ p. of_inserter p.inserter.table };

    ghost invariant = { λ p. ((rows : List Values) × IsInserter p.inserter.table rows)
        × (p.defs ≡ p.inserter.table.defs) };
}

/// A reader, how many rows the table had, how many are to be put, the number of changes that it saw last, how often it read, and
/// whether all was as expected.
#[derive(Drop)]
pub struct Read {
    reader: Reader<UntoldReader>,
    base: u64,
    all: u64,
    seen: u64,
    turns: u32,
    sound: bool,
}

impl Model for Read {
    ghost use Rattle.std.specs.Prelude.{◌<◌, length};
    ghost use Rattle.myi_readers.specs.Reader.{IsReader};
    ghost use Rattle.myi_share_tests.specs.Parts.{Part, of_reader};

    ghost Value = { Part };

    ghost view = { λ r. of_reader r.reader.table };

    ghost invariant = { λ r. IsReader r.reader.table
        × (0 < length r.reader.table.rows.trees.places) };
}

#[derive(Drop)]
pub enum Job {
    Put(Put),
    Read(Read),
}

impl Put {
    /// An inserter that puts the rows of these numbers.
    pub fn new(
        alloc: Global,
        inserter: Inserter<UntoldReader>,
        defs: Defs,
        next: u32,
        last: u32,
    ) -> Put
        requires ready { (rows : List Values) × IsInserter inserter.table rows }
        requires defs { defs ≡ inserter.table.defs }
        ensures { result ≡ of_inserter inserter.table }
    {
        Put {
            alloc,
            inserter,
            defs,
            next,
            last,
            wrong: 0,
        }
    }

    // What the inserter answers to the row of the next number; none where there is no such row.
    fn insert(&mut self) -> Option<Result<u64, InsertFault>>
        ensures { self.new ≡ self.old }
    {
        match row_of(self.alloc, &self.defs, self.next) {
            Ok(Some(row)) => Some(self.inserter.insert(&row)),
            _ => None,
        }
    }

    fn turn(&mut self)
        ensures { self.new ≡ self.old }
    {
        let first = self.insert();
        let again = self.insert();
        let is_right = match (first, again) {
            (Some(Ok(at)), Some(Err(InsertFault::Duplicate { key: 1, at: of }))) => at == of,
            _ => false,
        };
        if !is_right {
            self.wrong = self.wrong.wrapping_add(1);
        }
        self.next = self.next.wrapping_add(1);
    }

    /// How many answers were not as expected.
    pub fn wrong(&self) -> u32 {
        self.wrong
    }

    /// The inserter.
    pub fn into_inserter(self) -> Inserter<UntoldReader>
        ensures part { of_inserter result.table ≡ self }
        ensures ready { (rows : List Values) × IsInserter result.table rows }
    {
        let Put {
            alloc: _,
            inserter,
            defs: _,
            next: _,
            last: _,
            wrong: _,
        } = self;
        inserter
    }
}

// Whether these rows are numbered from 1 up to this number.
fn are_numbered(rows: &[(u64, Row)], last: u64) -> bool {
    let mut number: u64 = 0;
    for (_, row) in rows.iter() {
        number = number.wrapping_add(1);
        if number_of(row).map(u64::from) != Some(number) {
            return false;
        }
    }
    number == last
}

impl Read {
    /// A reader of a table that had so many rows when it was shared, and to which so many are put.
    pub fn new(reader: Reader<UntoldReader>, base: u64, all: u64) -> Read
        requires ready { IsReader reader.table }
        requires keys { 0 < length reader.table.rows.trees.places }
        ensures { result ≡ of_reader reader.table }
    {
        Read {
            reader,
            base,
            all,
            seen: 0,
            turns: 0,
            sound: true,
        }
    }

    // Whether a scan and a range give just the rows that stood at this moment.
    fn sees(&mut self, snap: &Snapshot) -> bool
        ensures { self.new ≡ self.old }
    {
        let last = self.base.wrapping_add(snap.number);
        let is_scanned = match self.reader.scan(snap) {
            Ok(rows) => are_numbered(rows.as_slice(), last),
            Err(_) => false,
        };
        let all = Range {
            key: 0,
            from: None,
            to: None,
        };
        let is_ranged = match self.reader.range(snap, &all) {
            Ok(rows) => are_numbered(rows.as_slice(), last),
            Err(_) => false,
        };
        is_scanned && is_ranged
    }

    fn turn(&mut self)
        ensures { self.new ≡ self.old }
    {
        let snap = self.reader.lock();
        let is_later = self.seen <= snap.number;
        self.seen = snap.number;
        self.turns = self.turns.wrapping_add(1);
        let is_seen = self.sees(&snap);
        self.sound = self.sound && is_later && is_seen;
    }

    /// Whether all was as expected.
    pub fn is_sound(&self) -> bool {
        self.sound
    }

    /// The reader.
    pub fn into_reader(self) -> Reader<UntoldReader>
        ensures part { of_reader result.table ≡ self }
        ensures ready { IsReader result.table }
    {
        let Read {
            reader,
            base: _,
            all: _,
            seen: _,
            turns: _,
            sound: _,
        } = self;
        reader
    }
}

impl Job {
    /// Whether all rows are put, or seen.
    pub fn is_done(&self) -> bool {
        match self {
            Job::Put(put) => put.next > put.last,
            Job::Read(read) => read.seen >= read.all || !read.sound,
        }
    }

    /// One turn, where something is left to do; whether there was.
    pub fn turn(&mut self) -> bool
        ensures { part_of self.new ≡ part_of self.old }
    {
        if self.is_done() {
            return false;
        }
        match self {
            Job::Put(put) => put.turn(),
            Job::Read(read) => read.turn(),
        }
        true
    }
}
