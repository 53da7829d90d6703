//! Lists of entries that pages are written from.
//!
//! `EntryList` is what a writer of pages needs of a list: its entries by their number, with the codes
//! lent, so that a code is copied into the page alone. A slice of entries is one, and so is a `Part` of
//! any.
ghost use Rattle.std.specs.Prelude.{◌≡◌, ◌^◌, ◌<◌, List, length, min, slice_index_or};
ghost use Rattle.myi_keypage.specs.declared.entry.Entry.{Entry};

use crate::entry::Entry;

/// A list of entries.
pub trait EntryList {
    /// The entries.
    ghost entries: { Self → List Entry };

    /// The number of entries.
    fn count(&self) -> usize
        ensures { result ≡ length (entries self.now) };

    /// The code of entry `i`, from 0.
    fn code(&self, i: usize) -> &[u8]
        requires { i < length (entries self.now) }
        ensures { (other : Entry)
            → result.now ≡ (slice_index_or (entries self.now) i other).key };

    /// The row pointer of entry `i`, from 0.
    fn row(&self, i: usize) -> u64
        requires { i < length (entries self.now) }
        ensures { (other : Entry) → result ≡ (slice_index_or (entries self.now) i other).row };
}

impl EntryList for &[Entry] {
    ghost entries = { λ s. s.now };

    fn count(&self) -> usize {
        self.len()
    }

    fn code(&self, i: usize) -> &[u8] {
        self[i].key.as_slice()
    }

    fn row(&self, i: usize) -> u64 {
        self[i].row
    }
}

/// The entries of a list from `start` on, at most `count`.
#[derive(Drop)]
pub struct Part<'a, L> {
    pub list: &'a L,
    pub start: usize,
    pub count: usize,
}

impl<'a, L: EntryList> Part<'a, L> {
    // Where the part begins in the list.
    fn first(&self) -> usize
        ensures value { result ≡ min self.now.start (length (L.entries self.now.list.now)) }
        ensures bound { length (L.entries self.now.list.now) < 2 ^ 64 }
    {
        self.start.min(self.list.count())
    }
}

impl<'a, L: EntryList> EntryList for Part<'a, L> {
    ghost use Rattle.std.specs.Prelude.{take, drop};

    ghost entries = { λ part. take part.count (drop part.start (L.entries part.list.now)) };

    fn count(&self) -> usize {
        self.count.min(self.list.count().saturating_sub(self.start))
    }

    fn code(&self, i: usize) -> &[u8] {
        self.list.code(self.first() + i)
    }

    fn row(&self, i: usize) -> u64 {
        self.list.row(self.first() + i)
    }
}
