//! `Heads`: headers of deleted blocks that are planned to be written, in their order, and looked up by place.
//!
//! The latest of them are looked through. Those before them stand in a map by their places too, so that a
//! look-up costs the logarithm of their number, and a few headers take no memory beside the list.
ghost use Rattle.std.specs.Prelude.{◌≡◌, None};
ghost use Rattle.myi_dellist.specs.Heads.{over};

use crate::fault::FreeFault;
use myi_frames::Head;
use std::alloc::Global;
use std::collections::BTreeMap;
use std::marker::Model;

/// How many headers are looked through.
const LATEST: usize = 16;

/// Headers in the order in which they are written.
pub(crate) struct Heads {
    list: Vec<Head>,
    /// How many of the list the map has, from its start on.
    mapped: usize,
    /// The last of these that is one of a place.
    by_place: BTreeMap<u64, Head>,
}

impl Drop for Heads {
    fn drop(self) {
        let Heads {
            list: _,
            mapped: _,
            by_place: _,
        } = self;
    }
}

impl Model for Heads {
    ghost use Rattle.std.specs.Prelude.{List};
    ghost use Rattle.std.specs.Ordering.{nat_cmp};
    ghost use Rattle.std.specs.BTreeMap.{get};
    ghost use Rattle.myi_frames.specs.declared.head.Head.{Head};
    ghost use Rattle.myi_dellist.specs.Heads.{AreMapped};

    ghost Value = { List Head };

    ghost view = { λ h. h.list.items };

    ghost invariant = { λ h. AreMapped (get nat_cmp h.by_place) h.mapped h.list.items };
}

/// The last of these headers that is one of a place.
fn last_of(heads: &[Head], at: u64) -> Option<Head>
    ensures { result ≡ over heads.now (λ p. None) at }
{
    let mut found = None;
    let mut left = heads;
    while let Some((head, behind)) = left.split_first() {
        if head.at == at {
            found = Some(*head);
        }
        left = behind;
    }
    found
}

impl Heads {
    ghost use Rattle.std.specs.Prelude.{◌≡◌, [], ◌++◌, ◌∷◌, None, OnOk, IfErr};
    ghost use Rattle.myi_dellist.specs.declared.fault.FreeFault.TheVariants.{Memory};
    ghost use Rattle.myi_dellist.specs.Heads.{over};

    pub(crate) fn new(alloc: Global) -> Heads
        ensures { result ≡ [] }
    {
        Heads {
            list: Vec::new(alloc),
            mapped: 0,
            by_place: BTreeMap::new(alloc),
        }
    }

    /// Takes all out. The memory of the list is kept for others.
    pub(crate) fn clear(&mut self)
        ensures { self.new ≡ [] }
    {
        self.mapped = 0;
        self.by_place.clear();
        self.list.clear();
    }

    pub(crate) fn as_slice(&self) -> &[Head]
        ensures { result.now ≡ self.now }
    {
        &self.list
    }

    /// The last of them that is one of a place.
    pub(crate) fn last_at(&self, at: u64) -> Option<Head>
        ensures { result ≡ over self.now (λ p. None) at }
    {
        match last_of(&self.list[self.mapped..], at) {
            Some(head) => Some(head),
            None => self.by_place.get(&at).copied(),
        }
    }

    /// Puts the first of the latest headers into the map, where there are enough of them.
    fn map_first(&mut self) -> Result<(), FreeFault>
        ensures same { self.new ≡ self.old }
        ensures only { IfErr result (λ f. f ≡ Memory) }
    {
        if self.list.len() - self.mapped < LATEST {
            return Ok(());
        }
        let first = self.list[self.mapped];
        self.by_place.insert(first.at, first)?;
        self.mapped += 1;
        Ok(())
    }

    /// Adds a header behind the others.
    pub(crate) fn push(&mut self, head: Head) -> Result<(), FreeFault>
        ensures added { OnOk result (self.new ≡ self.old ++ head ∷ []) }
        ensures only { IfErr result (λ f. f ≡ Memory) }
    {
        self.map_first()?;
        self.list.push(head)?;
        Ok(())
    }
}
