//! The trees of all keys of a table, in one index file with one key cache.
//!
//! `KeyTrees` stands for a list of pairs for each key, sorted by key value and then by row pointer
//! (`specs/Standing`): a change puts a pair into one list or takes one out, and a search answers from one.
//! It knows nothing of rows. Its model is where the trees stand, the room for new pages and the key cache (`specs/Trees`).
//! The pages of all trees and the room have together the same bytes after each call that is made, and what other bytes hold stays:
//! so does the header of the index file, which stands before the first page.
//!
//! - `KeyTrees::open` takes the places of the trees, and reads nothing.
//! - `find` answers the least row of a key value, `next_after` the least pair above another one.
//! - `cursor` makes a cursor of `myi_search`, and `advance` goes on with it to the next pair of a key, and asks
//!   for no page where the cursor has read that pair before.
//! - `insert` puts a pair into the list of a key, `remove` takes one out.
//! - `flush` writes what was put: each tree stands in the file then (`specs/InFile`).
//! - `place` answers where a tree stands, with its root, and `room_bytes` and `end` what the room has.
//! - The laws are the contracts of the functions in `laws`.
//!
//! ```
//! let mut trees = KeyTrees::open(alloc, "t.MYI", setup, places, end)?;
//! if trees.find(&mut files, 0, &pair.key)?.is_none() {
//!     trees.insert(&mut files, 0, &pair)?;
//! }
//! trees.flush(&mut files)?;
//! ```
//!
//! The case `keytrees` in `crates/cases_indexes/src/keytrees.rt` runs it, step by step.
#![tactic(auto)]

mod key_trees;
mod laws;

pub use key_trees::KeyTrees;
pub use laws::{
    bytes_are_counted, calls_follow, opened_trees_stand, other_files_may_change,
    walks_stay_between, written_trees_stand_in_the_file,
};
