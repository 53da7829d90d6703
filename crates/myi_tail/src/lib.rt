//! A tail of published words: one appender adds rows, and many readers read them while it does.
//!
//! A tail is one table of `atomic_table`. Its first cell is the count of published words, and the words
//! follow. The appender stores words behind the others, where no reader looks yet, and then publishes
//! them all by one store of the count. A reader loads the count (`lock`), and then each word below it
//! once (`catch_up`). No step compares and tries again, and nothing waits.
//!
//! To a contract an appender is its tail, the words that it stored and how many of them are published,
//! and a reader is its tail, the count that it loaded last and the words that it knows (`Appending` and
//! `TailReader` in `specs/Seats`). What holds between them at each moment is the rule of the table
//! (`specs/Rule`): `laws` has it for each kind of step (`specs/Steps`), and for each run of steps in any
//! order (`specs/Runs`) that what a reader knows are the first of the published words.
//!
//! `Tail::new` makes an appender and its readers, each of which may go to a thread of its own, and
//! `Tail::close` takes them back. `Appender::stage` spells a row in words (`specs/Rows`), and `spelled`
//! in `specs/Spelled` is the rows that words spell.
//!
//! ```
//! let row = [1, 2, 3, 4, 5, 6, 7, 8];
//! assert!(rt; appender.stage(&row).is_ok());
//! assert_eq!(rt; appender.publish(), 2);
//! assert_eq!(rt; reader.lock(), 2);
//! reader.catch_up(2);
//! assert_eq!(rt; reader.known(), [8, 0x0807_0605_0403_0201].as_slice());
//! ```
//!
//! `crates/myi_tail_tests/src/tests.rt` runs it, with the row a second time.
#![tactic(auto)]

mod appender;
mod closing;
mod laws;
mod reader;
mod table;
mod tail;

pub use appender::{Appender, NoRoom};
pub use laws::{
    known_words_are_published, readers_follow_the_tail, rows_read_back, spelled_rows_are_first,
    steps_keep_the_rule,
};
pub use reader::ReaderSeat;
pub use tail::Tail;
