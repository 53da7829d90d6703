//! The bytes of an index file that no page of the next tree may have: the header, and the pages of
//! trees before.
ghost use Rattle.std.specs.Prelude.{◌≡◌, ◌<◌, [], All};
ghost use Rattle.myi_check.specs.WalksBusy.{misses, is_free, HasBytes};

use std::alloc::Global;
use std::collections::BTreeSet;

/// The pages of a tree, which are of one length.
pub(crate) struct TreePages {
    pub(crate) block_length: u16,
    /// Their places.
    pub(crate) places: BTreeSet<u64>,
}

impl Drop for TreePages {
    fn drop(self) {
        let TreePages {
            block_length: _,
            places: _,
        } = self;
    }
}

impl TreePages {
    /// Whether a page there, of so many bytes, has no byte of these.
    fn misses(&self, at: u64, block_length: u16) -> bool
        requires bytes { HasBytes self.now }
        requires some { 0 < block_length }
        ensures { result ≡ misses at block_length self.now }
    {
        let first = at.saturating_sub(self.block_length as u64 - 1);
        match self.places.range(first..).next() {
            Some(place) => place.saturating_sub(at) >= block_length as u64,
            None => true,
        }
    }
}

/// What the header and the pages of some trees take.
pub(crate) struct BusyPages {
    /// All bytes before this place are busy.
    pub(crate) first_page: u64,
    pub(crate) trees: Vec<TreePages>,
}

impl Drop for BusyPages {
    fn drop(self) {
        let BusyPages {
            first_page: _,
            trees: _,
        } = self;
    }
}

impl BusyPages {
    /// No page yet.
    pub(crate) fn new(alloc: Global, first_page: u64) -> BusyPages
        ensures first { result.first_page ≡ first_page }
        ensures none { result.trees.items ≡ [] }
    {
        BusyPages {
            first_page,
            trees: Vec::new(alloc),
        }
    }

    /// Whether a page there, of so many bytes, has no busy byte.
    pub(crate) fn is_free(&self, at: u64, block_length: u16) -> bool
        requires sized { All HasBytes self.now.trees.items }
        requires some { 0 < block_length }
        ensures { result ≡ is_free self.now at block_length }
    {
        if at < self.first_page {
            return false;
        }
        for i in 0..self.trees.len() {
            if !self.trees[i].misses(at, block_length) {
                return false;
            }
        }
        true
    }
}
