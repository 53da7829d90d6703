//! Files that are made of other files or of readers.
//!
//! `Gathering` makes large writes of small ones over any files that may be changed (`Writable`); what
//! it has gathered is a `Pending`. `ReaderFiles` makes `Files` of two readers, each `Opened` with the
//! name and the length of its file. Both tell what is told below them, and pass its faults on.
//!
//! ```
//! let mut gathering = Gathering::new(alloc, files);
//! let mut into = [b'-'; 4];
//! assert_eq!(rt; gathering.write_at("a", 6, b"g"), Ok(()));
//! assert_eq!(rt; gathering.write_at("a", 7, b"h"), Ok(()));
//! assert_eq!(rt; gathering.length("a"), Ok(Some(8)));
//! assert_eq!(rt; gathering.read_at("a", 4, &mut into), Ok(4));
//! assert_eq!(rt; into, *b"efgh");
//! ```
//!
//! `crates/myi_io_tests/src/memory_files.rt` runs it, over `MemFiles` in which `a` holds `abcdef`.
#![tactic(auto)]

mod gathering;
mod pending;
mod reader_files;

pub use gathering::{Gathering, Writable};
pub use pending::Pending;
pub use reader_files::{Opened, ReaderFiles};
