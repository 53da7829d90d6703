//! Opening a table: whether its two files are there, and what definitions the index file begins with. All
//! that works on a table begins with it.
//!
//! `open_table` answers a `Table` of `specs/Opening` as far as it was read: the definitions, and how long the
//! data file is. Or a `TableFault` says why there is none.
//!
//! ```
//! let opened = open_table(alloc, files, "t.MYI", "t.MYD")?;
//! if !opened.defs.addressable(opened.length) {
//!     return Err(RepairFault::TooLong);
//! }
//! ```
#![tactic(auto)]

mod fault;
mod laws;
mod opening;

pub use fault::{TableFault, TableFile};
pub use laws::opened_tables_have_files;
pub use opening::{OpenedTable, open_table};
