//! Repairing a table: a new data file with its readable rows, less those that repeat a unique key, and
//! a new index file with the trees of their keys.
//!
//! What a repair leaves is defined over the bytes of the two files before it (`Rattle.myi_pair.specs`,
//! `RecoveredBytes` and `Recovered`); what the calls here do to the files of a table is in `specs/`.
//!
//! `recover` is made of three parts: `gather` reads the rows and writes them into the working data file,
//! as if none repeated another, and where some do, it writes those that are kept again; it answers the
//! pairs of their keys. The trees are built in the working index file; `finish` writes the header and
//! gives both working files the names of the old ones. Where the trees are laid in memory, by whomever,
//! `complete_laid` puts them into the working index file and finishes.
//!
//! A table is made anew of its rows in any other order by the same parts: `NextRow` spells a row, `take_row`
//! writes it and notes its keys, `gathered_of_all` says what was gathered, and `complete` builds the trees and
//! finishes.
//!
//! ```
//! if options.mode != (Mode::Recover { parallel: true }) {
//!     return recover(host.alloc, files, name, options.extend, now);
//! }
//! ```
//!
//! `crates/myisamkit/src/recover.rt` has it, and the case `kit` in
//! `crates/cases_runs/src/runs.rt` runs it.
#![tactic(auto)]

mod fault;
mod finishing;
mod gathering;
mod giant;
mod laid;
mod laws;
mod names;
mod new_rows;
mod next_row;
mod opening;
mod repair;
mod report;
mod trees;
mod writing;

pub use fault::RepairFault;
pub use finishing::{finish, finish_table};
pub use gathering::{Gathered, gather, gather_table, gathered_of_all, take_row};
pub use laid::complete_laid;
pub use laws::{completed_tables_are_repaired, laid_trees_are_finished, names_of_files_are_apart};
pub use names::TableFiles;
pub use new_rows::NewRows;
pub use next_row::NextRow;
pub use opening::open_reached;
pub use repair::{complete, recover};
pub use report::Report;
pub use trees::place_of;
pub use writing::put_row;
