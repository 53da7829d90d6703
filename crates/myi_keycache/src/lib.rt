//! The key cache: pages of one index file, lent as the file with all puts has them.
//!
//! A page is named by its place in the file and its length. `KeyCache::get` lends a page, `put` gives it
//! new bytes, and after `flush` the file has all of them. `specs/Lent` says what is lent of a range, from
//! the pages that are kept and the file: that is all that a tree of pages needs to know of a cache. What a
//! cache is to a contract is `Caching` in `specs/`; the `CacheSetup` says how many pages it may keep, and
//! its `Counters` how often it was asked and how often it went to the file.
//!
//! Its pages stand on two lists, from which they leave as `specs/Midpoint` says.
//!
//! ```
//! let mut cache = KeyCache::new(alloc, name, setup)?;
//! push_done(&mut out, cache.put(&mut files, at, &page))?;
//! match cache.get(&mut files, at, page.len()) {
//!     Ok(page) => push_word(&mut out, page)?,
//!     Err(fault) => push_fault(&mut out, fault)?,
//! }
//! push_done(&mut out, cache.flush(&mut files))?;
//! ```
//!
//! The case `cache` in `crates/cases_indexes/src/caches.rt` runs it, call by call.
#![tactic(auto)]

mod blocks;
mod cache;
mod laws;
mod lists;
mod setup;

pub use cache::KeyCache;
pub use laws::{
    calls_follow, files_show_what_is_lent, hot_pages_age, lists_hold_each_page_once,
    lists_of_four_blocks, one_page_goes, pages_stay_apart, pages_written_in_turn, ranges_are_read,
};
pub use setup::{CacheFault, CacheSetup, Counters};
