//! A table as a state, and its changes: what a table with a sound data file is, without bytes.
//!
//! A state (`TableState` in `specs/State`) is rows in order of their positions, each with its values and its
//! blocks, and the space that no row uses: the deleted list from its head, and the file's end. A change
//! (`Change` in `specs/Changes`) inserts, deletes or updates a row; a step is a change with its reply, which is
//! the position or the reason of the refusal, and a refusal leaves the state. Static and dynamic tables have one
//! definition, by their format. `specs/Sound` says what holds of every state: above all that each byte of the
//! file belongs to one block of one row or to one deleted block. `specs/Numbers` says what an index file keeps of a state.
//!
//! It has definitions and laws and next to no code, so its use is a contract that cites it:
//!
//! ```
//! ghost use Rattle.myi_state.specs.Numbers.{counts_of};
//!
//! fn holes(counts: &Counts) -> bool
//!     requires { counts.now ≡ counts_of s }
//! ```
#![tactic(auto)]

mod counts;
mod laws;

pub use counts::Counts;
pub use laws::{
    changes_keep_other_rows, changes_keep_states, histories_are_replayed,
    new_rows_have_free_places, refusals_leave_states, standing_files_are_read,
    states_count_their_files,
};
