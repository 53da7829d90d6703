//! `Snapshot`: a moment of a table.

/// A moment of a table: how many changes were made before it, and where its data file ended.
#[derive(Clone, Copy, Debug, PartialEq, Eq)]
pub struct Snapshot {
    /// How many changes were accepted.
    pub number: u64,
    /// The end of the data file, in bytes.
    pub length: u64,
}
