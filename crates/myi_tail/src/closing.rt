//! The appender as it takes its readers back. `ClosingAppender` joins their seats to its own one after
//! the other, so that its view says what each of them knew, and then looks at the count, by which it
//! learns of the rule that these are published words.
ghost use Rattle.std.specs.Prelude.{◌≡◌, [], ◌∷◌, ◌++◌, take, vec_len, All};
ghost use Rattle.myi_tail.specs.Rule.{IsKnown};

use crate::reader::ReaderSeat;
use crate::table::{Cells, JoinReader, LookAtCount, TailSeat};
use std::alloc::Global;
use std::marker::Model;
use std::sync::Arc;

#[derive(Drop)]
pub(crate) struct ClosingAppender {
    pub(crate) table: Arc<Cells, Global>,
    pub(crate) seat: TailSeat,
    pub(crate) words: Vec<u64>,
    pub(crate) published: u64,
}

impl Model for ClosingAppender {
    ghost use Rattle.myi_tail.specs.Seats.{Closing, closing_code};

    ghost Value = { Closing };

    ghost coded = { closing_code };

    ghost use Rattle.myi_tail.specs.Inside.{IsClosing};
    ghost use Rattle.myi_tail.specs.Plays.{joined_of};

    ghost view = { λ a.
        record {
          tail = a.seat.table_id;
          words = a.words.items;
          published = a.published;
          joined = joined_of a.seat.me.0;
        } };

    ghost invariant = { IsClosing };
}

impl ClosingAppender {
    pub(crate) fn join(&mut self, reader: ReaderSeat)
        requires { reader.tail ≡ self.old.tail }
        ensures { self.new ≡ record self.old { joined = self.old.joined ++ reader.known ∷ [] } }
    {
        let ReaderSeat { seat, .. } = reader;
        self.table
            .shared
            .join_seat::<JoinReader>(&mut self.seat, seat);
    }

    pub(crate) fn look_at_count(&mut self)
        ensures known { All (IsKnown self.old.published self.old.words) self.old.joined }
        ensures same { self.new ≡ self.old }
    {
        self.table.shared.load::<LookAtCount>(&mut self.seat, 0);
    }

    /// The published words, in the memory that the appender had for all words.
    pub(crate) fn into_published(self) -> Vec<u64>
        ensures words { result.items ≡ take self.published self.words }
        ensures count { vec_len result ≡ self.published }
    {
        let ClosingAppender {
            mut words,
            published,
            ..
        } = self;
        words.truncate(published as usize);
        words
    }
}
