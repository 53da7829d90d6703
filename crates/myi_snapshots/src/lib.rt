//! What readers of a shared table see, while an inserter puts rows behind its end.
//!
//! A table is shared in some state, its base. The inserter puts rows behind the end, whatever is deleted
//! (`specs/Appended`), and publishes the words of each (`specs/Known`). A reader knows the first of the words, and with
//! them the first of the rows. A `Snapshot` says how many changes there were at its moment, and where the data file ended
//! then; a reader sees by it the rows that stand before that end (`specs/Seen`).
//!
//! `KnownRows` is what a reader knows: it reads the rows from the words as more come, and says how many there are and where
//! the data file ends behind them. The laws say why the end alone tells what is seen: the rows that come later
//! stand at it or behind it. So by a snapshot of this sharing exactly the rows of that number of changes are seen, and by
//! an earlier one exactly the rows of the base that stood before its end.
//!
//! ```
//! ghost use Rattle.myi_snapshots.specs.Seen.{seen_rows};
//!
//! fn scan(&mut self, snap: &Snapshot) -> Result<Vec<(u64, Row)>, SeenFault>
//!     ensures { IfOk result (λ rows. rows.items ≡ map placed (seen_rows d base rows snap.now)) }
//! ```
#![tactic(auto)]

mod known;
mod laws;
mod sizes;
mod snapshot;

pub use known::KnownRows;
pub use laws::{appended_rows_stand_behind, known_rows_are_first, snapshots_are_seen};
pub use snapshot::Snapshot;
