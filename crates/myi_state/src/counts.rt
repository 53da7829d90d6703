//! `Counts`: the numbers of a table that its index file keeps.

/// The numbers of a table, places and lengths in bytes.
#[derive(Clone, Copy, Debug, PartialEq, Eq)]
pub struct Counts {
    /// The number of rows.
    pub records: u64,
    /// The number of deleted blocks.
    pub del: u64,
    /// The number of blocks that belong to rows.
    pub split: u64,
    /// The bytes of deleted blocks.
    pub empty: u64,
    /// The length of the data file.
    pub length: u64,
    /// The place of the first deleted block.
    pub dellink: Option<u64>,
}
