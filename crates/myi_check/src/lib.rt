//! Checking a table: what is wrong with its two files, of each section the first failing thing.
//!
//! What is found is `findings` of `Rattle.myi_pair.specs.Findings`, over the bytes of the two files
//! (`specs/Checking`): an item of the header, a place of the deleted list, a page of each key's
//! tree, and a byte of the data file that belongs to nothing. Nothing is found exactly where the
//! files are a clean pair. No file is changed.
//!
//! `check` opens the table, goes through the data file once in order (blocks of a row that the
//! window does not hold are read besides), follows the list of deleted blocks, and
//! walks the tree of each key. Each pair of a tree is asked of its row, which is read at its slot, or block by
//! block from its place (`asking`, `row_reads`, `chain_reads`): where the pairs rise, each is that of a row,
//! and they are as many as the rows, they are the key's sorted list. Where a tree is not so, the data file
//! is gone through once more for the keys of its rows, and each tree is walked beside the key's sorted list
//! (`keys`), so that the first bad thing is found. In memory are the places of deleted blocks, what these name
//! while their list is followed (`whole_list`), the places of pages and of dynamic rows, what of rows' blocks
//! stands apart from those before it, in the second case the keys of the table's rows, and no file as a whole.
//!
//! ```
//! match check(alloc, files, name) {
//!     Ok(found) if found.is_empty() => Ok((Status::Ok, success_line(alloc, options, name)?)),
//!     Ok(found) => Ok((Status::Findings, finding_lines(alloc, name, &found)?)),
//!     Err(fault) => not_worked_on(alloc, name, fault.into()),
//! }
//! ```
//!
//! `crates/myisamkit/src/check.rt` has it.
#![tactic(auto)]

mod asking;
mod busy;
mod chain_reads;
mod checking;
mod head_reads;
mod header;
mod held_bytes;
mod keys;
mod link;
mod list;
mod met;
mod pairs_met;
mod row_reads;
mod rows;
mod walks;
mod whole_list;

pub use checking::check;
