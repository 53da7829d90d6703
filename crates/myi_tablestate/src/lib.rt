//! A table with keys as a state, and its changes: what `myi_state` says of rows, with the keys of the definitions.
//!
//! - `specs/Keyed`: a table (`IsTable`) is a state whose rows fit the definitions and of which none repeats another
//!   in a unique key. A change of it is refused where no row stands at its position, where the row would repeat
//!   another, and where row pointers would not reach the whole file; the first of these is the reply.
//! - `specs/Listed`: the pairs that the tree of a key has.
//! - `specs/Matching`: the rows whose key lies between bounds.
//! - `specs/Standing`: a pair of files that stands for a table.
//!
//! It has definitions and laws and no code, so its use is a contract that cites it:
//!
//! ```
//! ghost use Rattle.myi_tablestate.specs.Keyed.{keyed_step};
//!
//! fn insert(&mut self, row: &Row) -> Result<u64, ChangeFault>
//!     ensures { IfOk result (λ at. (keyed_step d s (insert row.now)).reply ≡ Ok at) }
//! ```
#![tactic(auto)]

mod laws;

pub use laws::{
    clean_pairs_stand_for_tables, duplicates_are_found, key_lists_are_in_order, key_lists_follow,
    keyed_changes_keep_tables, keyed_histories_are_replayed, keyed_refusals_come_in_order,
    keyed_steps_are_steps, listed_files_stand,
};
