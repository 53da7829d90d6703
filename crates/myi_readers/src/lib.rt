//! A reader of a shared table: what it sees of the table's files and of the rows that are put behind their end.
//!
//! A table is shared in some state, its base, whose two files stay as they are meanwhile. An inserter puts rows behind the
//! end and publishes their words (`myi_tail`); a reader knows the first of them. `TableReader` is its seat with the rows that
//! its words spell (`myi_snapshots`) and an object on the two files that keeps no unwritten page.
//!
//! - `TableReader::new` makes one beside a table, which has read nothing.
//! - `lock` loads the count of published words, reads on up to it, and answers a `Snapshot`: how many changes were made and
//!   where the data file ends behind them. It takes no memory.
//! - `scan` answers all rows that are seen by a snapshot, in order of their positions; `range` those of a `Range`, in order of
//!   the key and then of their positions. A range finds those that are known in an index of its key (`KnownKeys`), into which
//!   it first takes the rows that became known since the last range in that key.
//! - `Reader` has the reader objects of the two files beside it, and the same calls on them.
//! - The law `first_inserted_rows_are_known` says which rows a reader knows, where its words are the first of an inserter's.
//!
//! What is asked of a reader and holds after each call is `IsReader`; what it sees is `seen_rows` of `myi_snapshots`.
//!
//! ```
//! let snap = reader.lock();
//! let rows = reader.scan(&mut files, &snap)?;
//! ```
#![tactic(auto)]

mod fault;
mod file_reader;
mod keyed_row;
mod known;
mod known_keys;
mod known_places;
mod laws;
mod ranges;
mod reader;
mod scans;

pub use fault::SeenFault;
pub use file_reader::Reader;
pub use known_keys::KnownKeys;
pub use known_places::KnownPlaces;
pub use laws::first_inserted_rows_are_known;
pub use reader::TableReader;
