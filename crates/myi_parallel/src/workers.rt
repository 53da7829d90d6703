//! `lay_all`: the trees of keys, laid by workers.
ghost use Rattle.std.specs.Prelude.{◌≡◌, ◌≤◌, ◌<◌, All, length, map, IfOk};
ghost use Rattle.myi_btree.specs.Sizes.{IsPlaced, AreSized};
ghost use Rattle.myi_parallel.specs.KeyPairs.{asked_from};
ghost use Rattle.myi_parallel.specs.LaidTrees.{AreLaid};
ghost use Rattle.myi_parallel.specs.Shares.{asked_in};

use crate::collecting::collect;
use crate::dealing::deal;
use crate::gate::KeyGate;
use crate::working::{Share, work_all};
use myi_btree::{Laid, Place};
use myi_keylist::PairList;
use std::alloc::{AllocError, Global};
use std::thread::Threads;

/// The pairs of a key, in any order, and how the pages of its tree are made; the root is not looked at.
#[derive(Drop)]
pub struct KeyPairs {
    pub place: Place,
    pub pairs: PairList,
}

/// Lays the trees of these keys, the first page of each at place 0, by so many workers, which run side by
/// side: key k is laid by worker k of them, and behind the last worker the first one follows. The trees
/// are answered in the order of the keys.
pub fn lay_all<R: Threads + Sync, W: KeyGate>(
    rt: &R,
    alloc: Global,
    keys: Vec<KeyPairs>,
    workers: u8,
    gate: &W,
) -> Result<Vec<Laid>, AllocError>
    requires some { 0 < workers }
    requires few { length keys.items ≤ 64 }
    requires placed { All (λ k. IsPlaced k.place) keys.items }
    requires sized { All (λ k. AreSized k.place k.pairs) keys.items }
    ensures { IfOk result (λ laid. AreLaid (asked_from 1 keys.items) laid.items) }
{
    let count = keys.len();
    let mut shares = deal(alloc, keys, busy_workers(workers, count))?;
    work(rt, alloc, &mut shares, gate);
    collect(alloc, shares, count)
}

// How many workers are put to work: no more than there are keys, but one.
fn busy_workers(workers: u8, keys: usize) -> usize
    requires { 0 < workers }
    ensures { 0 < result }
{
    let workers = workers as usize;
    if keys == 0 {
        1
    } else if keys < workers {
        keys
    } else {
        workers
    }
}

// Has all workers lay their trees.
fn work<R: Threads + Sync, W: KeyGate>(rt: &R, alloc: Global, shares: &mut Vec<Share>, gate: &W)
    ensures { map asked_in shares.new.items ≡ map asked_in shares.old.items }
{
    work_all(rt, alloc, shares.as_mut_slice(), gate);
}
