//! `KeyTree`: the tree of one key, before and after it is laid.
ghost use Rattle.std.specs.Prelude.{IfSome};
ghost use Rattle.std.proofs.Props.{props};
ghost use Rattle.myi_btree.specs.Sizes.{IsPlaced, AreSized};
ghost use Rattle.myi_parallel.specs.LaidTrees.{IsLaidTree};

use myi_btree::{Laid, Place};
use myi_keylist::PairList;

/// The pairs of a key, and the pages of their tree once they are laid, as if the first one stood at 0.
#[derive(Drop)]
pub(crate) struct KeyTree {
    pub(crate) key: u8,
    pub(crate) place: Place,
    pub(crate) pairs: PairList,
    pub(crate) laid: Option<Laid>,
    ghost placed: { IsPlaced place },
    ghost sized: { AreSized place pairs } by { Prim.hlevel props },
    ghost right: { IfSome laid (IsLaidTree place pairs) } by { Prim.hlevel props },
}
