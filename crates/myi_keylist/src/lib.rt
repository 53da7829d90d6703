//! Lists of pairs: the keys of rows, each with its row pointer, in the order of a tree.
//!
//! A pair is a key value and a row pointer. Pairs stand in order by key and then by pointer
//! (`specs/PairOrder`), and there is one list in order with given pairs, `sorted`. A `PairList` is a list
//! of pairs with the codes of all keys in one buffer, so that no pair takes memory of its own: its model
//! is the list.
//!
//! - `PairList::push` adds a pair by the code of its key, `sort` puts the pairs in order, `code` and
//!   `row` give them back, and `has_repeat` finds out whether a complete key is there twice
//!   (`specs/Repeats`).
//! - A `PairList` is a list of entries, from which pages are written (`specs/PairEntries`).
//! - `keep_first` says which rows are kept where keys repeat (`specs/FirstBy`), by class numbers: two
//!   rows share one exactly where one repeats the other (`specs/Classes`). `PairList::number` gives the
//!   numbers of one key (`specs/Columns`), `retain` takes the other rows out, and `point` puts row
//!   pointers in place of the numbers of rows. `RowPointers` has the pointers.
//! - The rest are laws over the definitions.
//!
//! ```
//! let mut pairs = PairList::new(alloc);
//! for word in args {
//!     push_pair(&mut pairs, words, *word)?;
//! }
//! pairs.sort();
//! let mut out = String::new(alloc);
//! for i in 0..pairs.len() {
//!     push_word(&mut out, pairs.code(i))?;
//!     write!(out, ":{} ", pairs.row(i))?;
//! }
//! out.push_str(if pairs.has_repeat() { "repeat" } else { "none" })?;
//! ```
//!
//! `crates/cases_indexes/src/pairs.rt` has it, and there `push_pair` is `pairs.push(key.code(), row)`.
#![tactic(auto)]

mod class_numbers;
mod laws;
mod pair;
mod pair_entries;
mod pair_list;
mod row_pointers;

pub use class_numbers::keep_first;
pub use laws::{
    class_numbers_decide, columns_are_classes, columns_go_on, columns_keep_first_rows,
    distinct_rows_are_kept, equal_keys_stand_together, kept_pointers_keep_order,
    kept_rows_are_listed, pairs_are_sorted, repeats_are_neighbours, rising_pointers_keep_order,
};
pub use pair::Pair;
pub use pair_list::PairList;
pub use row_pointers::RowPointers;
