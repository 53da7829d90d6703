//! The inserter of a shared table: it puts rows behind the end of a table whose files stay as they are, and publishes their
//! words to the readers.
//!
//! A table is shared in some state, its base. `TableInserter` has an object on the two files of the base that keeps no
//! unwritten page, the appender of the tail (`myi_tail`), and the complete keys in unique keys of the rows that were put in
//! this sharing, so that a row that repeats one is found by its key, in the base or among these.
//!
//! - `TableInserter::new` makes one beside a table, with an appender that has stored nothing.
//! - `insert` puts a row behind the end, publishes its words, and answers its position. It is the step of the table that has
//!   the rows of the base and those that were put; a refusal leaves the inserter as it was.
//! - `Inserter` has the reader objects of the two files beside it, and the same call on them.
//! - The laws say where the rows that were put stand, which of them a reader knows, and that they can be folded into the
//!   table.
//!
//! What is asked of an inserter and holds after each call is `IsInserter`, with the rows that were put.
//!
//! ```
//! let at = inserter.insert(&mut files, &row)?;
//! ```
#![tactic(auto)]

mod fault;
mod file_inserter;
mod inserter;
mod laws;
mod put_keys;
mod searching;
mod sizes;
mod unique_key;

pub use fault::InsertFault;
pub use file_inserter::Inserter;
pub use inserter::TableInserter;
pub use laws::{put_rows_are_known, put_rows_can_be_folded, put_rows_stand_behind};
pub use unique_key::UniqueKey;
