//! The pages of a table's index file, laid anew in the order in which walks meet them.
//!
//! An index file that was built has the leaves of each tree first and its root last, and one that was changed has its
//! pages where there was room. `sort_index` checks a table, and lays the trees of its keys into a new index file, key
//! after key (`myi_treecopy`): each page before those below it, one behind the other from the first page place on, so
//! that no byte is left between them. Of the header the roots, the file's length, the number of its free bytes and the
//! bit that says that the pages are not sorted change; the data file stays. The new file takes the old one's place whole,
//! by one rename. In memory are what a check holds and one page for each level of a tree.
//!
//! `specs/Sorting` says when an index file is sorted, and `specs/Refusals` why a table is refused.
//!
//! ```
//! let pages = sort_index(alloc, files, name)?;
//! write!(out, "{name}: sorted {pages} pages\n")?;
//! ```
#![tactic(auto)]

mod fault;
mod laying;
mod replacing;
mod sorting;

pub use fault::SortFault;
pub use sorting::sort_index;
