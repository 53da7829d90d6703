//! What is found wrong with a table's two files.

/// What of the header of an index file is looked at: the mark, and numbers of the state.
#[derive(Clone, Copy, Debug, PartialEq, Eq)]
pub enum HeaderItem {
    Mark,
    Records,
    Del,
    Split,
    KeyFileLength,
    DataFileLength,
    Empty,
    KeyEmpty,
}

/// The first thing that is wrong in a section: the header, the list of deleted blocks, the tree of a key by
/// its number, from 1, or the bytes of the data file.
#[derive(Clone, Copy, Debug, PartialEq, Eq)]
pub enum Finding {
    /// The first item that the files show otherwise.
    Header(HeaderItem),
    /// The first place on the list that has no deleted block, was on the list before, or names another one
    /// before it; else the lowest deleted block that the list leaves out.
    Deleted { at: u64 },
    /// The page of what is wrong, or 0 where rows are missing from the tree.
    Key { key: u8, at: u64 },
    /// The lowest byte that belongs to no row and to no deleted block; none does where the file is longer
    /// than row pointers reach.
    Rows { at: u64 },
}
