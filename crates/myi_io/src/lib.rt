//! Files and output as interfaces.
//!
//! The crates above reach the outside through two traits. `Files` holds bytes under names; `Sink`
//! takes text. Each has an optional meaning, what it holds or what was written, and a count of faults:
//! a call answers `Failed` only where that count rose. `Files` hands out readers (`FileReader`), which
//! another thread reads one file by. `read_front` reads the front of a file into memory. `be` and `le`
//! are the number readers of the crate below.
//!
//! What implements the traits stands in crates of its own: `myi_adapters` over other files and
//! readers, `myi_memfiles` in memory, `myi_realfiles` for the file system and standard output.
//!
//! ```
//! let Some(length) = files.length(rows)? else {
//!     return Err(TableFault::Absent(TableFile::Data));
//! };
//! let header = read_front(alloc, files, index, LONGEST_HEADER)?;
//! ```
//!
//! `crates/myi_opening/src/opening.rt` runs it.
#![tactic(auto)]

mod files;
mod front;
mod reader;
mod sink;

pub use files::{FileErr, Files};
pub use front::read_front;
pub use myi_base::{be, le};
pub use reader::FileReader;
pub use sink::{Sink, SinkErr};
