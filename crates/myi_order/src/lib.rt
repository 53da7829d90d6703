//! How many rows of a table go to one prefix of a key, and these numbers in its index file; and the rows of a
//! table in the order of a key.
//!
//! The optimizer of a server reads the numbers there. The definitions are in `specs/`: `Prefixes` has the rows per
//! prefix of any list of keys, `KeyParts` those of the keys of a table, `Numbers` those of all keys in
//! one list, and `Analyzing` what an analysis of a table answers and leaves.
//!
//! `analyze` checks a table, and walks the tree of each key once more. Its pairs come in order, so that keys that
//! share a prefix follow one another, and the distinct prefixes of all lengths are counted as they come
//! (`prefixes`). The index file is copied by pieces, and the copy gets the numbers and then the name. In memory are
//! what a check holds, some pages of the index file, and no file as a whole.
//!
//! `sort_records` checks a table, reads its rows once, codes their keys, and puts those of one key, with the
//! places of the rows, in order. Then it reads each row at its place, in that order, those that stand close together
//! by one read (`nearby`), and writes it by the parts of a repair, which also code its keys again, build the trees and give the new files their names. `InOrder` and
//! `Sorting` have what it leaves.
//! The rest are laws over the definitions.
//!
//! ```
//! for parts in &analyze(alloc, files, name)? {
//!     write!(out, "{name}: key {} rows per prefix", parts.key)?;
//!     for per in parts.per.as_slice() {
//!         write!(out, " {}", *per)?;
//!     }
//!     out.push('\n')?;
//! }
//! ```
#![tactic(auto)]

mod analyzing;
mod copying;
mod counting;
mod fault;
mod key_parts;
mod laws;
mod nearby;
mod new_order;
mod numbers;
mod prefixes;
mod row_at;
mod rows_read;
mod sorting;
mod storing;
mod tree_counts;

pub use analyzing::analyze;
pub use fault::OrderFault;
pub use key_parts::KeyParts;
pub use laws::{
    analyzed_tables_are_clean, prefixes_end_in_order, rows_are_put_in_order, sorting_keeps_prefixes,
};
pub use sorting::sort_records;
