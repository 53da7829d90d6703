//! The rows of a table whose key lies between bounds, in order of the key and then of their positions.
//!
//! `RangeRows` reads them one after the other: the next pair of the key's tree (`myi_keytrees`), and then the row at its
//! position in the data file (`myi_rows`). It keeps a cursor in the tree, which reads the pairs of a leaf at once, and
//! reads no row outside of the bounds. `specs/Ranges` says which pairs are still to come, what is asked of the two files,
//! and how often they are asked.
//!
//! - `new` takes the key and its bounds, and reads nothing.
//! - `next_row` answers the next row with its position, and None where none is to come.
//! - `forget` forgets the pairs that were read ahead: it comes before each change of the table.
//! - `position_of` answers where the row of a pointer stands.
//! - The law `rows_that_come_match` says that the rows of all pairs to come are those that match the bounds.
//!
//! ```
//! let mut range = RangeRows::new(0, Some(low), None);
//! while let Some((at, row)) = range.next_row(&mut files, &defs, &mut trees, &mut rows)? {
//!     show(at, &row)?;
//! }
//! ```
#![tactic(auto)]

mod fault;
mod laws;
mod ranges;

pub use fault::RangeFault;
pub use laws::{pointers_lead_to_rows, rows_that_come_match};
pub use ranges::{RangeRows, position_of};
