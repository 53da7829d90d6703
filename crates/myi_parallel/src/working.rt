//! The workers' threads: each lays the trees of its keys, one after the other.
ghost use Rattle.std.specs.Prelude.{◌≡◌, map};
ghost use Rattle.std.specs.Thread.{IsSync};
ghost use Rattle.myi_parallel.specs.KeyTrees.{asked_of};
ghost use Rattle.myi_parallel.specs.Shares.{asked_in};

use crate::gate::KeyGate;
use crate::key_tree::KeyTree;
use std::alloc::Global;
use std::thread::{Threads, join_mut};

/// The keys of one worker.
#[derive(Drop)]
pub(crate) struct Share {
    pub(crate) trees: Vec<KeyTree>,
}

// Lays the trees of one worker.
fn lay_trees<W: KeyGate>(alloc: Global, trees: &mut [KeyTree], gate: &W)
    ensures { map asked_of trees.new ≡ map asked_of trees.old }
{
    for i in 0..trees.len() {
        let key = trees[i].key;
        gate.pass(key);
        trees[i].lay(alloc);
        gate.done(key);
    }
}

impl Share {
    ghost use Rattle.std.specs.Prelude.{◌≡◌};
    ghost use Rattle.myi_parallel.specs.Shares.{asked_in};

    fn work<W: KeyGate>(&mut self, alloc: Global, gate: &W)
        ensures { asked_in self.new ≡ asked_in self.old }
    {
        lay_trees(alloc, self.trees.as_mut_slice(), gate);
    }
}

// Has these workers lay their trees, one after the other.
fn work_in_turn<W: KeyGate>(alloc: Global, shares: &mut [Share], gate: &W)
    ensures { map asked_in shares.new ≡ map asked_in shares.old }
{
    for i in 0..shares.len() {
        shares[i].work(alloc, gate);
    }
}

/// Has each worker lay its trees, each on a thread of its own.
pub(crate) fn work_all<R: Threads + Sync, W: KeyGate>(
    rt: &R,
    alloc: Global,
    shares: &mut [Share],
    gate: &W,
)
    ensures { map asked_in shares.new ≡ map asked_in shares.old }
{
    if shares.len() <= 1 {
        return work_in_turn(alloc, shares, gate);
    }
    let (front, back) = shares.split_at_mut(shares.len() / 2);
    join_mut(
        rt,
        &mut ||
            requires { IsSync R.row }
            ensures { map asked_in front.exit.now ≡ map asked_in front.entry.now }
        { work_all(rt, alloc, front, gate) },
        &mut ||
            requires { IsSync R.row }
            ensures { map asked_in back.exit.now ≡ map asked_in back.entry.now }
        { work_all(rt, alloc, back, gate) },
    );
}
