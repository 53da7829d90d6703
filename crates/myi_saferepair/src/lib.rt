//! Repairing a table row by row: the trees of its keys are changed for each row that is kept.
//!
//! `safe_recover` leaves what `myi_repair`'s `recover` leaves: the same data file, and trees with the same pairs;
//! where their pages stand is its own (`specs/Recovered`). It holds no list of keys: a row's pairs are put into the
//! trees before the next row is read, and whether a row repeats the unique key of one kept before is asked of the trees.
//! So its memory is that of a key cache, of one row and its keys, and for each row of a dynamic table of a row pointer, and
//! its time that of a search for each unique key and a change for each key of each row.
//!
//! Where a page that was put comes back as no page, as it may where somebody else writes the working index file, it
//! takes the working files away and repairs as `recover` does. The law `safe_repairs_settle` says that a repair of what it left
//! keeps all rows.
//!
//! ```
//! let report = safe_recover(alloc, files, "t", false, now)?;
//! ```
#![tactic(auto)]

mod fault;
mod filling;
mod laws;
mod new_files;
mod repairing;
mod repeats;
mod row_pairs;

pub use laws::safe_repairs_settle;
pub use repairing::safe_recover;
