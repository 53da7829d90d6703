//! MERGE lists: several tables with the same fields and keys that are read as one.
//!
//! The file `NAME.MRG` names the tables (`myi_mergelist`). `Merge` is these tables, loaded (`myi_table`), in the order of
//! the list, and numbered from 1. While it is loaded each that is not broken stands for a state of a table.
//!
//! - `members` answers the names.
//! - `load` opens all tables, which must have one row format, the same fields and the same keys.
//! - `scan` answers the rows of the tables in the order of the list. `range` answers those whose key lies between bounds,
//!   in order of the key, then of the number of their table, then of their position.
//! - `insert` puts a row into the first or the last table, as the list says. A unique key holds in that table alone.
//! - `defs` and `counters` tell the definitions of the first table, and what all key caches counted.
//! - `close` closes the tables, up to the first that refuses it.
//!
//! ```
//! let mut merge = Merge::load(alloc, &mut files, "all", setup)?;
//! let (table, at) = merge.insert(&mut files, &row)?;
//! merge.close(&mut files)?;
//! ```
#![tactic(auto)]

mod changes;
mod fault;
mod list_file;
mod loading;
mod merge;
mod ranges;
mod scans;

pub use fault::{MergeFault, MergeInsertFault};
pub use merge::Merge;
