//! A table's two files beside each other: what a clean pair is, what is wrong with one that is not, and what a
//! repair leaves.
//!
//! The model is in `specs/`: the first rows of unique keys (`FirstRows`), the key list of a key
//! (`KeyList`), the trees of an index file (`Trees`), a clean pair (`Clean`), what is wrong with a pair
//! (`Findings`, the first failing thing of each section, over `FirstBad`, and `FirstFailing`, which says so by
//! what fails before what), the files of a table of given rows that is
//! made anew, as bytes (`RebuiltBytes`) and in what holds of them (`Rebuilt`), and those that a repair leaves
//! (`RecoveredBytes`, `Recovered`). The laws over them are the contracts of the
//! functions in `laws`.
//!
//! It has definitions and laws and no code that runs, so its use is a contract that cites it:
//!
//! ```
//! ghost use Rattle.myi_data.specs.Keys.{IsKeyNumber};
//! ghost use Rattle.myi_pair.specs.Trees.{place_of};
//!
//! fn place_of(defs: &Defs, key: usize) -> Place
//!     requires { IsKeyNumber defs.now key }
//!     ensures { result ≡ place_of defs.now key }
//! ```
//!
//! The crates above cite these definitions in their contracts; `crates/myi_repair/src/trees.rt` has
//! this one.
#![tactic(auto)]

mod finding;
mod laws;

pub use finding::{Finding, HeaderItem};
pub use laws::{
    clean_tables_keep_all, empty_tables_are_clean, findings_are_first,
    findings_are_none_where_clean, first_rows_are_distinct, kept_rows_make_a_table,
    new_trees_stand, pairs_are_sized, rebuilt_files_are_a_table, rebuilt_files_are_no_longer,
    recovered_bytes_recover, repairs_of_rebuilt_files_settle, written_parts_are_measured,
};
