//! The data file of a table that changes, in either format.
//!
//! `RowFile` is a `StaticFile` (`myi_slots`) or a `BlockFile` (`myi_blocks`), as the definitions of the table say, with
//! the calls that both have. `insert` puts a row where the first deleted slot or block is, or behind the end;
//! `insert_at_end` behind the end always; `update_at` puts other values in a row's place; `delete_at` takes a row
//! away. `read_at` reads the row at any position and says where none stands, `row_at` the one at a position that
//! an index names. `counts` and `holes` give the numbers that the index file is to keep.
//!
//! The model is that of dynamic files (`NotedFile` of `myi_blocks`), of which a static one has no positions noted: where
//! file and numbers stand for a state of the table (`myi_state`), each change is a step of it, with its reply, and each
//! refusal the reply of the step.
//!
//! ```
//! let mut file = RowFile::new(alloc, "t.MYD", &defs, &state)?;
//! let at = file.insert(&mut files, &row)?;
//! file.delete_at(&mut files, at)?;
//! ```
#![tactic(auto)]

mod row_file;

pub use row_file::RowFile;
