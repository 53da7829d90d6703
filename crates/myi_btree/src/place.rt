//! Where a tree stands, and the room that its pages are taken from.
use myi_base::Sequence;
use std::alloc::Global;

/// How the pages of a tree are made, and where its root stands.
#[derive(Clone, Copy, Debug, PartialEq, Eq)]
pub struct Place {
    /// The length of a page in bytes: a multiple of 1024 from 1024 to 16,384.
    pub block_length: u16,
    /// How many bytes a row pointer takes, 2 to 8.
    pub rec_ref: u8,
    /// The place of the root page, and None where the tree has no pair.
    pub root: Option<u64>,
}

/// What all steps of a call on a tree share.
#[derive(Clone, Copy)]
pub(crate) struct TreeSetup {
    pub(crate) alloc: Global,
    pub(crate) place: Place,
}

/// Where new pages may stand.
pub struct Room {
    /// All bytes from here on are free. A multiple of 1024.
    pub end: u64,
    /// The free pages before it, each with its length in bytes.
    pub free: Sequence<(u64, u16)>,
}

impl Drop for Room {
    fn drop(self) {
        let Room { end: _, free: _ } = self;
    }
}
