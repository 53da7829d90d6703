//! `RangeList`: used ranges in order, in little memory.
//!
//! They are kept as two lists of places, where each range begins and where it ends, so that a range takes
//! two bytes and three quarters where they stand closely. The last one alone becomes longer: where it ends
//! is kept beside the lists.
ghost use Rattle.std.specs.Prelude.{◌≡◌, max, ◌+◌, ◌<◌, ◌≤◌, ◌^◌, true, false, [], ◌∷◌, ◌++◌, length, OnOk, OnErr};
ghost use Rattle.myi_chain.specs.Used.{listed, AreListed};

use crate::ranges::{end_from, is_behind};
use myi_placelist::PlaceList;
use std::alloc::{AllocError, Global};
use std::marker::Model;

/// Keeps where the last range ends with the others, so that one more may follow.
fn close_last(froms: &PlaceList, tos: &mut PlaceList, last_to: u64) -> Result<(), AllocError>
    requires { AreListed froms.now tos.old last_to }
    ensures each { OnOk result (length froms.now ≡ length tos.new) }
    ensures same { listed froms.now tos.new last_to ≡ listed froms.now tos.old last_to }
    ensures listed { AreListed froms.now tos.new last_to }
{
    if tos.len() < froms.len() {
        tos.push(last_to)?;
    }
    Ok(())
}

/// Used ranges in order.
pub(crate) struct RangeList {
    /// Where each range begins.
    froms: PlaceList,
    /// Where each range ends: each but the last, or each where there was no memory for one more.
    tos: PlaceList,
    /// Where the last range ends; 0 while there is none.
    last_to: u64,
}

impl Drop for RangeList {
    fn drop(self) {
        let RangeList {
            froms: _,
            tos: _,
            last_to: _,
        } = self;
    }
}

impl Model for RangeList {
    ghost use Rattle.std.specs.Prelude.{List};
    ghost use Rattle.myi_base.specs.Ranges.{Range};
    ghost use Rattle.myi_chain.specs.Used.{listed, AreListed};

    ghost Value = { List Range };

    ghost view = { λ s. listed s.froms s.tos s.last_to };

    ghost invariant = { λ s. AreListed s.froms s.tos s.last_to };
}

impl RangeList {
    ghost use Rattle.std.specs.Prelude.{◌≡◌, max, ◌+◌, ◌<◌, ◌≤◌, ◌^◌, true, false, [], ◌∷◌, ◌++◌, OnOk, OnErr};
    ghost use Rattle.myi_base.specs.Ranges.{is_apart};
    ghost use Rattle.myi_chain.specs.Readable.{end_of};
    ghost use Rattle.myi_chain.specs.Used.{AreInOrder, reach, last_before, SameFrom};

    pub(crate) fn new(alloc: Global) -> RangeList
        ensures { result ≡ [] }
    {
        RangeList {
            froms: PlaceList::new(alloc),
            tos: PlaceList::new(alloc),
            last_to: 0,
        }
    }

    /// Whether all ranges end at a place or before it. None of them begins at the file's start.
    pub(crate) fn is_before(&self, at: u64) -> bool
        ensures start { end_of 0 self.now ≡ 0 }
        ensures reach { result ≡ true → reach 0 self.now ≤ at }
    {
        self.last_to <= at
    }

    /// The last range that begins before a place.
    fn last_before(&self, end: u64) -> Option<(u64, u64)>
        ensures last { result ≡ last_before end self.now }
        ensures order { AreInOrder 1 self.now }
    {
        let count = self.froms.count_below(end as u128);
        if count == 0 {
            return None;
        }
        let index = count - 1;
        if index < self.tos.len() {
            return Some((self.froms.at(index), self.tos.at(index)));
        }
        Some((self.froms.at(index), self.last_to))
    }

    /// Whether a range is apart from all.
    pub(crate) fn is_apart(&self, at: u64, end: u64) -> bool
        ensures { result ≡ is_apart (at, end) self.now }
    {
        is_behind(at, self.last_before(end))
    }

    /// Where the range that begins at a place ends, and the place itself where none begins there.
    pub(crate) fn end_from(&self, at: u64) -> u64
        requires { at + 1 < 2 ^ 64 }
        ensures { result ≡ max at (end_of at self.now) }
    {
        at.max(end_from(at, self.last_before(at + 1)))
    }

    /// Makes the last range longer by one that begins where it ends, unless its end is kept already.
    fn grow(&mut self, at: u64, end: u64) -> bool
        requires some { at < end }
        ensures grown { result ≡ true → SameFrom end self.new (self.old ++ (at, end) ∷ []) }
        ensures same { result ≡ false → self.new ≡ self.old }
    {
        if at != self.last_to || self.tos.len() == self.froms.len() {
            return false;
        }
        self.last_to = end;
        true
    }

    /// Adds a range behind all. For a scan that goes on behind it, one that ends where it begins may be
    /// made longer.
    pub(crate) fn add(&mut self, at: u64, end: u64) -> Result<(), AllocError>
        requires behind { reach 0 self.old ≤ at }
        requires start { 0 < at }
        requires some { at < end }
        ensures ok { OnOk result (SameFrom end self.new (self.old ++ (at, end) ∷ [])) }
        ensures err { OnErr result (self.new ≡ self.old) }
    {
        if self.grow(at, end) {
            return Ok(());
        }
        close_last(&self.froms, &mut self.tos, self.last_to)?;
        self.froms.push(at)?;
        self.last_to = end;
        Ok(())
    }
}
