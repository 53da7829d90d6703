//! `Beside`: used ranges, those before the place of a scan joined where they touch.
//!
//! While a scan meets nothing but rows in one block, one directly after the other from the file's start
//! on, their ranges are one range, which takes no memory. All others are kept beside it in a map, in which
//! those before the place where the scan stands are joined where they touch: so there are as many as there
//! are gaps before that place and blocks of rows behind it.
ghost use Rattle.std.specs.Prelude.{◌≡◌, ◌≢◌, true, false, max, ◌+◌, ◌<◌, ◌^◌, [], ◌++◌, OnOk, OnErr};

use crate::joins::{add_blocks, join_up};
use crate::ranges::{end_from_far, ends_at_far, is_apart_far};
use std::alloc::{AllocError, Global};
use std::collections::BTreeMap;
use std::marker::Model;
use std::mem;

/// Used ranges, of which one may begin at the file's start.
pub(crate) struct Beside {
    /// Where the range ends that begins at the file's start; 0 while there is none.
    front: u64,
    /// Where the first block of the row ends that was added last.
    last: u64,
    /// The place behind the last byte of each other range, by that of its first.
    others: BTreeMap<u64, u64>,
}

impl Drop for Beside {
    fn drop(self) {
        let Beside {
            front: _,
            last: _,
            others: _,
        } = self;
    }
}

impl Model for Beside {
    ghost use Rattle.std.specs.Prelude.{List, ◌++◌};
    ghost use Rattle.myi_base.specs.Ranges.{Range};
    ghost use Rattle.myi_chain.specs.Used.{joined, AreBeside};

    ghost Value = { List Range };

    ghost view = { λ s. joined s.front ++ s.others.entries };

    ghost invariant = { λ s. AreBeside s.front s.others.entries };
}

impl Beside {
    ghost use Rattle.std.specs.Prelude.{◌≡◌, ◌≢◌, false, max, ◌+◌, ◌<◌, ◌^◌, [], ◌++◌, OnOk, OnErr};
    ghost use Rattle.std.specs.List.{AllByRecursion};
    ghost use Rattle.myi_base.specs.Ranges.{is_apart};
    ghost use Rattle.myi_chain.specs.Chain.{AreApart};
    ghost use Rattle.myi_chain.specs.Readable.{end_of};
    ghost use Rattle.myi_chain.specs.Chain.{ranges_at};
    ghost use Rattle.myi_chain.specs.Used.{joined, IsRange, AddsBlocks, NeedsMemory};

    pub(crate) fn new(alloc: Global) -> Beside
        ensures { result ≡ [] }
    {
        Beside {
            front: 0,
            last: 0,
            others: BTreeMap::new(alloc),
        }
    }

    /// Whether a range of a byte or more is apart from all.
    pub(crate) fn is_apart(&self, at: u64, end: u64) -> bool
        requires { at < end }
        ensures { result ≡ is_apart (at, end) self.now }
    {
        self.front <= at && is_apart_far(&self.others, at, end)
    }

    /// Where the range that begins at a place ends, and the place itself where none begins there.
    pub(crate) fn end_from(&self, at: u64) -> u64
        requires { at + 1 < 2 ^ 64 }
        ensures { result ≡ max at (end_of at self.now) }
    {
        let end = end_from_far(&self.others, at);
        if at == 0 { end.max(self.front) } else { end }
    }

    /// Whether one of the ranges ends at a place, or the one from the file's start not before it. The
    /// file's start is such a place.
    pub(crate) fn ends_at(&self, at: u64) -> bool
        ensures start { result ≡ false → 0 < at }
        ensures front { result ≡ false → self.now ≢ joined at }
    {
        at <= self.front || ends_at_far(&self.others, at)
    }

    /// Adds the ranges of the blocks of a row that are apart from all and from each other, or none. For a
    /// scan that goes on behind the first of them, they are as if each was added. A row in one block that
    /// stands where the range from the file's start ends takes no memory.
    pub(crate) fn add(&mut self, blocks: &[(u64, u32)]) -> Result<(), AllocError>
        requires apart { AreApart self.old (ranges_at blocks.now) }
        requires some { AllByRecursion IsRange (ranges_at blocks.now) }
        ensures ok { OnOk result (AddsBlocks self.old blocks.now self.new) }
        ensures err { OnErr result ((self.new ≡ self.old) × NeedsMemory self.old blocks.now) }
    {
        let Some((first, more)) = blocks.split_first() else {
            return Ok(());
        };
        let end = first.0 + first.1 as u64;
        let front = add_blocks(&mut self.others, self.front, first.0, end, more)?;
        let last = mem::replace(&mut self.last, end);
        self.front = join_up(&mut self.others, front, last, end, more);
        Ok(())
    }
}
