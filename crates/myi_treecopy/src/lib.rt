//! A tree of an index file, laid anew into another file.
//!
//! A tree that was built has its leaves first and its root last, and one that was changed has its pages where there
//! was room. `copy_tree` lays the pages of a tree into another file, one behind the other, in the order in which a
//! walk meets them: a page, then what stands below its first child, then what stands below the second, and so on.
//! So each page stands before those below it. A page is read once and written once, with other places for its
//! children; in memory is one page for each level. `specs/Copying` says when a tree stands anew from a place on.
//!
//! ```
//! let copy = TreeCopy { alloc, old: "t.MYI", new: "t.TMI", place, limit };
//! let end = copy_tree(&copy, files, root, start)?;
//! ```
#![tactic(auto)]

mod copy;
mod fault;
mod page;

pub use copy::copy_tree;
pub use fault::CopyFault;
pub use page::TreeCopy;
