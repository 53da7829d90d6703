//! The keys of the rows of a table: a list of pairs for each of its keys.
//!
//! `RowKeys` takes rows as they come, each with a number or a row pointer, and codes each key into a
//! buffer that serves for all, so that no key takes memory of its own. Its model is the list of the lists
//! (`specs/RowLists`). Where rows have their numbers, from 0, the lists of unique keys tell which rows
//! repeat none kept before: `sort_unique` puts those lists in order, `has_repeat` asks them, and
//! `keep_first` says of each row whether it is kept. `retain` takes out the pairs of the others, and
//! `point` puts row pointers in place of the numbers.
//! The rest are laws over the definitions.
//!
//! ```
//! let row = view_packed(defs, &next.bytes);
//! keys.push(defs, &row, rows.pointers.len() as u64)?;
//! ```
//!
//! `crates/myi_repair/src/gathering.rt` has it.
#![tactic(auto)]

mod laws;
mod row_keys;

pub use laws::{
    number_lists_become_pointer_lists, number_lists_go_on, rows_without_repeats_are_kept,
    sorted_lists_are_number_lists,
};
pub use row_keys::RowKeys;
