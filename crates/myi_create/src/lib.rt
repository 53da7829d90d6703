//! Making an empty table from a creating text.
//!
//! `create_table` reads the text from a file, makes the header that it stands for, and puts an index file of this
//! header and an empty data file under the table's names. What is there under these names is replaced. A
//! text that is refused changes nothing, and where a file call fails the index file is the old one, whole.
//! `create_with` does the same with definitions that are there already.
//!
//! ```
//! match create_table(alloc, files, "t", "t.txt") {
//!     Ok(()) => created_line(alloc, "t"),
//!     Err(CreateFault::Line(number)) => line_line(alloc, "t.txt", number),
//!     Err(fault) => return Err(fault.into()),
//! }
//! ```
#![tactic(auto)]

mod create;
mod fault;
mod names;

pub use create::{create_table, create_with};
pub use fault::CreateFault;
