//! The data file of a static table that changes.
//!
//! A static table's data file is slots of one length: each is that of a row or deleted, and the deleted ones
//! form a list, each naming the next. `StaticFile` is such a file by its name, with the definitions of its table
//! and the table's numbers. `insert` puts a row into the first deleted slot, or behind the end; `insert_at_end`
//! behind the end whatever is deleted; `update_at` puts other values in a row's place; `delete_at` makes its
//! slot the first deleted one. `read_at` and `row_at` give the row at a position, `counts` and `holes` the numbers
//! that the index file is to keep. A call reads at most one slot and writes at most one; one that is refused
//! writes nothing.
//!
//! The model is `specs/SlotFile`: where the file and the numbers stand for a state of the table
//! (`myi_state`), each change is a step of the state, with its reply. `specs/SlotBytes` says what stands
//! at a place, and what is written there.
//!
//! ```
//! let at = file.insert(&mut files, &row)?;
//! let row = file.read_at(&mut files, at)?;
//! file.delete_at(&mut files, at)?;
//! ```
#![tactic(auto)]

mod fault;
mod numbers;
mod slots;
mod static_file;

pub use fault::DataFault;
pub use static_file::StaticFile;
