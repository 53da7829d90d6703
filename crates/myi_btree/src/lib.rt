//! Trees of index pages: what a tree holds, and laying one from sorted pairs.
//!
//! A tree has the pairs of one key, sorted, each a key value and a row pointer (`Pair`), on pages of an
//! index file. A contract speaks of its walk: the pairs in order, each with its page, by a reading from
//! places to nodes (`specs/Walk`). `specs/LaidPages` says which pages building puts, and `specs/Building` what
//! that does to a key cache and the files.
//!
//! - `Place` says how the pages of a tree are made and where its root stands, `Room` where new pages go.
//! - `Tree::build` lays a tree from pairs, and `lay` one in memory, from place 0, which
//!   `Laid::shift` moves; `Tree::new` takes one that
//!   stands; `Tree::root` is its root, and `Tree::walk` answers its pairs.
//! - `Events` gives what a walk meets, one after the other, also of a damaged tree: pages, pairs, and the first
//!   bad place (`specs/Events`).
//! - The laws over walks and laid pages are the contracts of the functions in `laws`.
//!
//! ```
//! let tree = Tree::build(alloc, files, cache, place, room, &pairs)?;
//! cache.flush(files)?;
//! for (pair, page) in tree.walk(alloc, files, cache)?.as_slice() {
//!     push_word(out, &encode(alloc, &pair.key)?)?;
//!     write!(out, ":{}:{page}", pair.row)?;
//! }
//! ```
//!
//! The case `laid` in `crates/cases_trees/src/trees.rt` runs it, in parts.
#![tactic(auto)]

mod build;
mod cursor;
mod event;
mod events;
mod fault;
mod laid;
mod laws;
mod laying;
mod level;
mod node;
mod place;
mod tree;
mod visited;
mod walk;

pub use event::Event;
pub use events::Events;
pub use fault::TreeFault;
pub use laid::{Laid, lay};
pub use laws::{
    builds_leave_trees_clear, built_trees_walk, events_are_walks, index_pages_are_nodes,
    laid_pages_are_met_once, laid_pages_are_movable, laid_pages_are_written, laid_pages_move,
    laid_pages_stand_behind, laid_pages_walk, levels_are_laid, pages_are_nodes, trees_are_shallow,
    trees_have_events, trees_have_few_pages, used_pages_end_walks, walks_add_their_own,
    walks_begin, walks_depend_on_their_pages, walks_exist_once, walks_leave_trees_clear,
};
pub use myi_keylist::Pair;
pub use place::{Place, Room};
pub use tree::Tree;
