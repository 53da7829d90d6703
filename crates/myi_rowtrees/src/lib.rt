//! The pairs of a table's rows in the trees of its keys.
//!
//! A row has one pair for each key of its table: the row's key, and the row's pointer. `specs/RowLists` says which
//! lists the trees of a table have, and what becomes of them where a row comes, goes or gets other values.
//!
//! - `pairs_of_row` makes the pairs of a row, with the pointer that `pointer_of` answers.
//! - `first_duplicate` finds the first unique key in which another row has the row's complete key.
//! - `put_row` puts a row's pairs into the trees, `take_row` takes them out, and `move_row` puts the pairs of a row in place of
//!   those that it had.
//! - `places_of` makes the places of a table's trees from their roots.
//! - The laws are the contracts of the functions in `laws`.
//!
//! ```
//! let pairs = pairs_of_row(alloc, &defs, &row, pointer)?;
//! if first_duplicate(&mut files, &mut trees, &defs, &pairs, None)?.is_none() {
//!     put_row(&mut files, &mut trees, &pairs)?;
//! }
//! ```
#![tactic(auto)]

mod changes;
mod duplicates;
mod laws;
mod pairs;
mod places;

pub use changes::{move_row, put_row, take_row};
pub use duplicates::{Duplicate, first_duplicate};
pub use laws::{lists_follow_rows, new_rows_are_in_no_list, trees_of_pairs_are_trees};
pub use pairs::{pairs_of_row, pointer_of};
pub use places::places_of;
