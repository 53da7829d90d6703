//! What one thread does, a turn at a time: `Append` adds one row and publishes it, `Read` looks at the
//! count and compares each new word with the one that stands at its place in the rows.
ghost use Rattle.std.specs.Prelude.{◌≡◌, ◌<◌};
ghost use Rattle.myi_tail_tests.specs.Jobs.{tail_of};

use myi_tail::{Appender, ReaderSeat};

/// How many rows are appended.
pub const ROWS: u64 = 250_000;

/// How many words a row has: its length, and three for its twenty bytes.
pub const ROW_WORDS: u64 = 4;

const ROW_BYTES: u64 = 20;

/// The appender, and how many rows it added.
#[derive(Drop)]
pub struct Append {
    pub appender: Appender,
    pub rows: u64,
}

/// A reader, the count that it saw last, how many of its words were compared, and whether all were as
/// expected.
#[derive(Drop)]
pub struct Read {
    pub reader: ReaderSeat,
    pub seen: u64,
    pub compared: usize,
    pub sound: bool,
}

#[derive(Drop)]
pub enum Job {
    Append(Append),
    Read(Read),
}

// A number that a row's number makes, and the lower half of it.
fn mixed(row: u64) -> u64 {
    row.wrapping_mul(0x9E37_79B9_7F4A_7C15)
}

fn mixed_low(row: u64) -> u32 {
    (mixed(row) % (1 << 32)) as u32
}

fn row_bytes(row: u64) -> [u8; 20] {
    let mut bytes = [0; 20];
    bytes[..8].copy_from_slice(&row.to_le_bytes());
    bytes[8..16].copy_from_slice(&mixed(row).to_le_bytes());
    bytes[16..].copy_from_slice(&mixed_low(row).to_le_bytes());
    bytes
}

/// The word at a place of all words.
pub fn expected_word(place: u64) -> u64 {
    let row = place / ROW_WORDS;
    match place % ROW_WORDS {
        0 => ROW_BYTES,
        1 => row,
        2 => mixed(row),
        _ => u64::from(mixed_low(row)),
    }
}

impl Append {
    fn turn(&mut self)
        ensures { self.new.appender.tail ≡ self.old.appender.tail }
    {
        if self.appender.stage(&row_bytes(self.rows)).is_ok() {
            self.appender.publish();
        }
        self.rows = self.rows.wrapping_add(1);
    }
}

impl Read {
    fn turn(&mut self)
        ensures { self.new.reader.tail ≡ self.old.reader.tail }
    {
        let count = self.reader.lock();
        self.reader.catch_up(count);
        self.sound = self.sound && self.seen <= count && count % ROW_WORDS == 0;
        self.seen = count;
        self.compare();
    }

    // Compares the words that are new.
    fn compare(&mut self)
        ensures { self.new.reader.tail ≡ self.old.reader.tail }
    {
        let known = self.reader.known();
        for place in self.compared..known.len() {
            self.sound = self.sound && known[place] == expected_word(place as u64);
        }
        self.compared = known.len();
    }
}

impl Job {
    pub fn is_done(&self) -> bool {
        match self {
            Job::Append(append) => append.rows >= ROWS,
            Job::Read(read) => read.compared as u64 >= ROWS * ROW_WORDS,
        }
    }

    /// One turn, where something is left to do; whether there was.
    pub fn turn(&mut self) -> bool
        ensures { tail_of self.new ≡ tail_of self.old }
    {
        if self.is_done() {
            return false;
        }
        match self {
            Job::Append(append) => append.turn(),
            Job::Read(read) => read.turn(),
        }
        true
    }
}
