//! Laying the tree of one key.
use crate::key_tree::KeyTree;
use myi_btree::{Laid, Place, lay};
use myi_keylist::PairList;
use std::alloc::{AllocError, Global};

impl KeyTree {
    ghost use Rattle.std.specs.Prelude.{◌≡◌, IfOk};
    ghost use Rattle.myi_btree.specs.Sizes.{IsPlaced, AreSized};
    ghost use Rattle.myi_keylist.specs.PairOrder.{sorted};
    ghost use Rattle.myi_parallel.specs.Asked.{asked};
    ghost use Rattle.myi_parallel.specs.KeyTrees.{asked_of};
    ghost use Rattle.myi_parallel.specs.LaidTrees.{IsLaidTree};

    /// The tree of a key, not laid yet.
    pub(crate) fn new(key: u8, place: Place, pairs: PairList) -> KeyTree
        requires placed { IsPlaced place }
        requires sized { AreSized place pairs }
        ensures { asked_of result ≡ asked key place (sorted pairs) }
    {
        KeyTree {
            key,
            place,
            pairs,
            laid: None,
        }
    }

    /// Sorts the pairs and lays the tree, if there is memory for it.
    pub(crate) fn lay(&mut self, alloc: Global)
        ensures { asked_of self.new ≡ asked_of self.old }
    {
        self.pairs.sort();
        if let Ok(laid) = lay(alloc, &self.place, &self.pairs) {
            self.laid = Some(laid);
        }
    }

    /// Takes the laid tree out, where there was memory for it.
    pub(crate) fn take(&mut self) -> Result<Laid, AllocError>
        ensures same { asked_of self.new ≡ asked_of self.old }
        ensures laid { IfOk result (IsLaidTree self.old.place self.old.pairs) }
    {
        self.laid.take().ok_or(AllocError)
    }
}
