//! The rows of a table and the trees of its keys, which change together.
//!
//! `KeyedRows` is a data file (`myi_rows`) and the trees in its index file (`myi_keytrees`) side by side. It stands for a table
//! (`myi_tablestate`), and each change is a step of it: a row that repeats the complete key of another one in a unique
//! key is refused before a row or a pair is written. It keeps no header: bytes of the index file that are no page and no
//! room stay as they are, and whoever opens and closes the table reads and writes them.
//!
//! - `insert` puts a row where the first deleted slot or block is, or behind the end; `insert_at_end` behind the end always;
//!   `update` gives a row other values; `delete` takes one away.
//!
//! - The laws say how the object and the two files stand for one table: when it is opened on them and when they are closed.
//!
//! ```
//! let mut table = KeyedRows { rows, trees };
//! let at = table.insert(alloc, &mut files, &defs, &row)?;
//! table.update(alloc, &mut files, &defs, at, &other)?;
//! table.delete(alloc, &mut files, &defs, at)?;
//! ```
#![tactic(auto)]

mod fault;
mod keyed_rows;
mod laws;

pub use fault::KeyedFault;
pub use keyed_rows::KeyedRows;
pub use laws::{calls_keep_files, closed_files_stand, opened_files_stand};
