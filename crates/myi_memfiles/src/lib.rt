//! Files and output in memory.
//!
//! `MemFiles`, its readers (`MemReader`) and `MemSink` tell what they hold, and fail at the calls that
//! a list names, and at no other (`Failures`).
//!
//! ```
//! let mut files = MemFiles::new(alloc, given, fail)?;
//! files.fail_readers(vec![in alloc; 2]?);
//! match files.reader("a") {
//!     Ok(reader) => Ok(Opened { name, length, reader }),
//!     Err(fault) => Err(Fail::new(fault)),
//! }
//! ```
//!
//! `crates/myi_io_tests/src/memory_files.rt` runs it.
#![tactic(auto)]

mod failures;
mod memory;
mod memory_reader;
mod memory_sink;

pub use memory::MemFiles;
pub use memory_reader::MemReader;
pub use memory_sink::MemSink;
