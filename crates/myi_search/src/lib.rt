//! Searching a tree: the least row of a key, and the pairs of a tree one after the other by their order.
//!
//! A search goes down one path of a tree that stands in an index file (`myi_btree`): in each page into the child
//! before the first pair that it does not pass by. `specs/Path` says which pages that are, also of a damaged
//! tree; `specs/Least` says what the answer is, in a list of pairs. A search asks a key cache for no
//! more pages than stand on the way to a leaf, compares keys by their codes, as they stand on the pages, and puts
//! nothing.
//!
//! - `find` answers the least row of a key.
//! - `next_after` answers the least pair above another one, or the least pair.
//! - `TreeCursor` goes over the pairs one after the other, from the first or from behind a given one, and keeps the
//!   pairs of the leaf that it is in.
//! - The laws are the contracts of the functions in `laws`.
//!
//! ```
//! match find(alloc, place, files, cache, &key)? {
//!     Some(row) => write!(out, "{row}")?,
//!     None => out.push_str("none")?,
//! }
//! ```
//!
//! The case `find` in `crates/cases_trees/src/searches.rt` runs it.
#![tactic(auto)]

mod bound;
mod codes;
mod cursor;
mod descent;
mod laws;
mod page;
mod reached;
mod search;

pub use codes::is_code;
pub use cursor::TreeCursor;
pub use laws::{searches_are_short, searches_end_once};
pub use search::{find, next_after};
