//! The text of a MERGE list: the names of its tables, and where rows are inserted.
//!
//! A MERGE list `NAME.MRG` is a text of lines. A line is the name of a table, or empty, or it begins with
//! `#`. A line `#INSERT_METHOD=FIRST`, `=LAST` or `=NO` says where rows are inserted, and the last of them
//! counts; what else begins with `#` says nothing. What is a list, and what it says, is a relation of the text
//! (`specs/MergeList`). `parse_list` answers the names and the method, or that the text is no list. That no
//! text says two things, and which texts are lists, are the contracts of the functions in `laws`.
//!
//! ```
//! let list = parse_list(alloc, text)?;
//! for name in &list.members {
//!     open(name)?;
//! }
//! ```
//!
//! The case `list` in `crates/cases_formats/src/lists.rt` runs one like it.
#![tactic(auto)]

mod laws;
mod list;

pub use laws::{lists_say_one_thing, texts_that_are_lists};
pub use list::{InsertMethod, ListFault, MergeList, parse_list};
