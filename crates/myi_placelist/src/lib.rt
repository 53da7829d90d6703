//! Places of a file in a list, in little memory where they rise closely.
//!
//! A `PlaceList` takes any places, in any order: it is the list of those that were pushed, which is what its
//! contracts say. Where 64 that follow one another stand less than 256 behind each other, as the places of
//! small blocks in the order of a file do, each takes a byte and three eighths; where they stand less than
//! 65,536 behind the first of them, two bytes and three eighths; of other places each takes eight bytes and three
//! eighths. A place is looked up by its index in constant time, and among places that rise (`IsRising` of
//! `specs/Places`) its index in the logarithm of their number.
//!
//! ```
//! let mut places = PlaceList::new(alloc);
//! places.push(at)?;
//! if let Some(index) = places.index_of(at as u128) {
//!     println!(rt; "{at} is the place of that index: {index}")?;
//! }
//! ```
//!
//! `Group` (`groups.rt`) is 64 places, which stand in one of three lists; those that were pushed last stand in a
//! list of their own until there are 64.
#![tactic(auto)]

mod groups;
mod place_list;

pub use place_list::PlaceList;
