//! Putting a pair into a tree of index pages, and taking one out, over a key cache.
//!
//! A page that overflows is cut and becomes a strip: pages side by side, with a pair between each two
//! (`specs/Strips`). What a change does with the bytes of pages and of free room is counted byte by byte
//! (`specs/Covers`); `specs/CachedChanges` says when the pages of a tree may be changed in what a key cache lends,
//! and what a change touches, `specs/CachedTree` what a tree with a pair put in is, and `specs/Removal` what one
//! without a pair is; `specs/Damage` says at which places a change meets damage, and `specs/Filled` how well pages
//! are filled.
//!
//! - `insert` puts a pair into a tree, and moves its root where it has a new one.
//! - `remove` takes a pair out of a tree, and answers whether it was there.
//! - `take_page` takes a page out of a room: a free one of its length first; `give_page` gives one back
//!   (`specs/Rooms`).
//! - The laws over strips, bytes and changes are the contracts of the functions in `laws`.
//!
//! ```
//! insert(alloc, &mut place, files, cache, &mut room, &pair)?;
//! remove(alloc, &mut place, files, cache, &mut room, &pair)?;
//! cache.flush(files)?;
//! ```
#![tactic(auto)]

mod insertion;
mod laws;
mod load;
mod page;
mod pass;
mod removal;
mod room;
mod settle;

pub use insertion::insert;
pub use laws::{
    cached_changes_follow, changes_follow, other_trees_stay, page_by_page, pages_stand_for_trees,
    pages_stay_filled, pairs_are_put_in, pairs_go_in, rooms_hand_out_their_bytes,
    steps_are_changes, strips_are_cut, trees_stay_shallow, walks_still_stand,
};
pub use removal::remove;
pub use room::{give_page, take_page};
