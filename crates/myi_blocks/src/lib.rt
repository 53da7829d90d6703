//! The data file of a dynamic table that changes.
//!
//! A dynamic table's data file is blocks: those of rows, each a chain of blocks or one whole block, and deleted
//! ones, which form a list. `BlockFile` is such a file by its name, with the definitions of its table and the
//! table's numbers. `insert` puts a row into the deleted blocks from the head of the list, and behind the end what
//! they do not hold; `insert_at_end` behind the end whatever is deleted; `update_at` puts other values in the place
//! of a row, into its own blocks first; `delete_at` releases the blocks of a row. `row_at` reads the row at a
//! position that an index names, block by block; `read_at` the row at any position. `update_at`, `delete_at` and
//! `read_at` say whether a row stands there, for which the file is scanned once. `counts` gives the numbers that
//! the index file is to keep. Which blocks are read and written for a change is the deleted list's part
//! (`myi_dellist`).
//!
//! The model (`specs/Places`) is that of every data file that changes (`specs/SlotFile` of `myi_slots`) and, once they
//! were looked up, the positions at which rows stand: where the file and the numbers stand for a state of the table
//! (`myi_state`), each change is a step of the state, with its reply, and keeps the positions. `RowBlocks` has the
//! changes of the blocks, `BlockFile` adds the positions. `specs/BlockFile` says what refuses a row,
//! `specs/RowReading` which row stands at a position and how many reads its blocks may count for,
//! `specs/Standing` what a change does of a row that stands. The laws in `laws` join it to states.
//!
//! ```
//! let at = file.insert(&mut files, &row)?;
//! let row = file.row_at(&mut files, at)?;
//! ```
//!
//! The case `blocks` in `crates/cases_changes/src/blocks.rt` runs it.
#![tactic(auto)]

mod block_file;
mod laws;
mod numbers;
mod places;
mod row_blocks;
mod row_chain;

pub use block_file::BlockFile;
pub use laws::{released_rows_are_counted, released_rows_leave_states, rows_of_states_stand};
