//! A table that is loaded, changed and closed.
//!
//! `Table` is the rows of a table and the trees of its keys (`myi_keyedrows`) with the header of its index file. Its two
//! files are `NAME.MYD` and `NAME.MYI`. While it is loaded it stands for a state of a table (`myi_tablestate`), and each
//! change is a step of it; what was put stands in the files once it is closed, and they are a clean pair then.
//!
//! - `create` makes the two files of an empty table.
//! - `load` opens the two files, and reads no row and no page.
//! - `insert`, `insert_at_end`, `update`, `delete` change it. A change that is cut off by a failed file call or for want
//!   of memory breaks the table: each later one answers `Broken`, with the cause, until the table is loaded again.
//! - `scan` answers all rows; `begin_scan` and `next_in_scan` read them one after the other. `range` answers the rows of
//!   a `Range`, whose key lies between bounds; `next_in_range` reads them one after the other, and `forget_ahead` comes
//!   between a change and the next row.
//! - `flush` writes what was put, `close` also the header.
//! - `defs`, `name`, `length`, `place`, `setup`, `holes`, `broken`, `counters` tell what it is; `add_counters` adds what was
//!   counted elsewhere.
//! - `open_again` makes the rows and trees of the table again, for one that reads the same two files beside it.
//!
//! ```
//! let mut table = Table::load(alloc, &mut files, "t", setup)?;
//! let at = table.insert(&mut files, &row)?;
//! table.update(&mut files, at, &other)?;
//! table.close(&mut files)?;
//! ```
#![tactic(auto)]

mod again;
mod changes;
mod closing;
mod creating;
mod fault;
mod folding;
mod laws;
mod loading;
mod ranges;
mod scans;
mod table;

pub use fault::{Cause, ChangeFault, LoadFault, ReadFault};
pub use laws::tables_rest_on_their_files;
pub use ranges::Range;
pub use table::Table;
