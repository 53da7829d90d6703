//! The pages that a walk went into, and those that it has open.
ghost use Rattle.std.specs.Prelude.{◌≡◌, ◌<◌, []};
ghost use Rattle.std.specs.List.{list_all};
ghost use Rattle.std.specs.Vec.Iter.{into_iter_items};
ghost use Rattle.myi_base.specs.Ranges.{are_apart};
ghost use Rattle.myi_btree.specs.Visit.{page_range};
ghost use Rattle.myi_btree.specs.Visited.{Takes, is_none_left};

use myi_keylist::Pair;
use std::alloc::Global;
use std::collections::BTreeSet;
use std::vec::IntoIter;

/// A page that was gone into: its place, and its pairs and children that are still to come.
pub(crate) struct OpenPage {
    pub(crate) at: u64,
    pub(crate) pairs: IntoIter<Pair>,
    pub(crate) children: IntoIter<u64>,
}

impl Drop for OpenPage {
    fn drop(self) {
        let OpenPage {
            at: _,
            pairs: _,
            children: _,
        } = self;
    }
}

impl OpenPage {
    /// Whether it has no child left.
    pub(crate) fn is_leaf(&self) -> bool
        ensures { result ≡ is_none_left (into_iter_items self.now.children) }
    {
        self.children.len() == 0
    }

    /// Takes its next pair.
    pub(crate) fn next_pair(&mut self) -> Option<Pair>
        ensures pair { Takes result (into_iter_items self.old.pairs) (into_iter_items self.new.pairs) }
        ensures at { self.new.at ≡ self.old.at }
        ensures children { self.new.children ≡ self.old.children }
    {
        self.pairs.next()
    }

    /// Takes its next child.
    pub(crate) fn next_child(&mut self) -> Option<u64>
        ensures child { Takes result
            (into_iter_items self.old.children) (into_iter_items self.new.children) }
        ensures at { self.new.at ≡ self.old.at }
        ensures pairs { self.new.pairs ≡ self.old.pairs }
    {
        self.children.next()
    }
}

/// The pages that a walk went into.
pub(crate) struct Visited {
    /// Their places.
    pub(crate) places: BTreeSet<u64>,
}

impl Drop for Visited {
    fn drop(self) {
        let Visited { places: _ } = self;
    }
}

/// Whether a page there has no byte of one of these.
pub(crate) fn is_apart(places: &BTreeSet<u64>, at: u64, block_length: u16) -> bool
    requires { 0 < block_length }
    ensures { result ≡ list_all
        (λ p. are_apart (page_range block_length at) (page_range block_length p)) places.now.keys }
{
    let block = block_length as u64;
    let first = at.saturating_sub(block - 1);
    match places.range(first..).next() {
        Some(place) => place.saturating_sub(at) >= block,
        None => true,
    }
}

impl Visited {
    /// No page yet.
    pub(crate) fn new(alloc: Global) -> Visited
        ensures { result.places.keys ≡ [] }
    {
        Visited {
            places: BTreeSet::new(alloc),
        }
    }
}
