//! A pair of a tree.
use myi_keys::KeyVal;

/// A key, and the row pointer that goes with it. Pairs are in order by key, and then by row pointer.
#[derive(Debug, PartialEq, Eq, PartialOrd, Ord)]
pub struct Pair {
    pub key: KeyVal,
    pub row: u64,
}

impl Drop for Pair {
    fn drop(self) {
        let Pair { key: _, row: _ } = self;
    }
}
