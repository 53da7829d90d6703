//! One that reads. `ReaderSeat` keeps the words that it loaded, so that each is loaded once.
ghost use Rattle.std.specs.Prelude.{◌≡◌, ◌≤◌, length};
ghost use Rattle.myi_tail.specs.Prefix.{BeginsWith};
ghost use Rattle.myi_tail.specs.Seats.{room_of};

use crate::table::{Cells, LoadCount, LoadWord, TailSeat};
use std::alloc::Global;
use std::marker::Model;
use std::sync::Arc;

/// One that sees what is published. It moves between threads, and is not shared.
#[derive(Drop)]
pub struct ReaderSeat {
    pub(crate) table: Arc<Cells, Global>,
    pub(crate) seat: TailSeat,
    pub(crate) seen: u64,
    pub(crate) known: Vec<u64>,
}

impl Model for ReaderSeat {
    ghost use Rattle.myi_tail.specs.Seats.{TailReader, reader_code};

    ghost Value = { TailReader };

    ghost coded = { reader_code };

    ghost use Rattle.myi_tail.specs.Inside.{IsReader};

    ghost view = { λ r. record { tail = r.seat.table_id; seen = r.seen; known = r.known.items } };

    ghost invariant = { IsReader };
}

impl ReaderSeat {
    /// The count of published words at this moment: at least what this reader saw before. It takes no
    /// memory.
    ///
    /// No clause says that the count is loaded anew, since none can name what other threads did: a body
    /// that answers what it saw last meets them all. A test in `myi_tail_tests` refuses it.
    pub fn lock(&mut self) -> u64
        ensures later { self.old.seen ≤ result }
        ensures known { length self.old.known ≤ result }
        ensures fits { result ≤ room_of self.old.tail }
        ensures seen { self.new ≡ record self.old { seen = result } }
    {
        let count = self.table.shared.load::<LoadCount>(&mut self.seat, 0);
        self.seen = count;
        count
    }

    /// Loads the words that this reader does not know yet, up to a count that it saw. It takes no memory.
    pub fn catch_up(&mut self, upto: u64)
        requires { upto ≤ self.old.seen }
        ensures reached { upto ≤ length self.new.known }
        ensures within { length self.new.known ≤ self.old.seen }
        ensures more { BeginsWith self.new.known self.old.known }
        ensures rest { self.new ≡ record self.old { known = self.new.known } }
    {
        while (self.known.len() as u64) < upto {
            let cell = self.known.len() + 1;
            let word = self.table.shared.load::<LoadWord>(&mut self.seat, cell);
            self.known.push_reserved(word);
        }
    }

    /// The words that this reader knows, the first of those that are published.
    pub fn known(&self) -> &[u64]
        ensures { result.now ≡ self.now.known }
    {
        self.known.as_slice()
    }
}
