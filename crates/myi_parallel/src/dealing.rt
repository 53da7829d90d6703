//! Dealing out the keys: the first worker gets the first key, the next one the next, and so on in turn.
ghost use Rattle.std.specs.Prelude.{◌≡◌, ◌<◌, ◌≤◌, [], All, length, map, replicate, IfOk, OnOk};
ghost use Rattle.myi_btree.specs.Sizes.{IsPlaced, AreSized};
ghost use Rattle.myi_parallel.specs.Dealing.{next_turn};
ghost use Rattle.myi_parallel.specs.KeyPairs.{asked_from};
ghost use Rattle.myi_parallel.specs.KeyTrees.{asked_of};
ghost use Rattle.myi_parallel.specs.Shares.{asked_in, GetsOne, Deals};

use crate::key_tree::KeyTree;
use crate::workers::KeyPairs;
use crate::working::Share;
use std::alloc::{AllocError, Global};

// Shares of so many workers, which have no key yet.
fn empty_shares(alloc: Global, workers: usize) -> Result<Vec<Share>, AllocError>
    ensures { IfOk result (λ shares. map asked_in shares.items ≡ replicate workers []) }
{
    let mut shares = Vec::with_capacity(alloc, workers)?;
    for _ in 0..workers {
        let trees = Vec::new(alloc);
        shares.push(Share { trees })?;
    }
    Ok(shares)
}

/// Whose turn is next.
pub(crate) fn next_turn(workers: usize, turn: usize) -> usize
    requires { turn < workers }
    ensures { result ≡ next_turn workers turn }
{
    if turn + 1 == workers { 0 } else { turn + 1 }
}

// Gives a worker a key more.
fn give(shares: &mut [Share], turn: usize, tree: KeyTree) -> Result<(), AllocError>
    requires { turn < length shares.old }
    ensures { OnOk result (GetsOne turn (asked_of tree) (map asked_in shares.old)
        (map asked_in shares.new)) }
{
    shares[turn].trees.push(tree)?;
    Ok(())
}

/// Deals out the keys, the first one to the first worker.
pub(crate) fn deal(
    alloc: Global,
    keys: Vec<KeyPairs>,
    workers: usize,
) -> Result<Vec<Share>, AllocError>
    requires some { 0 < workers }
    requires few { length keys.items ≤ 64 }
    requires placed { All (λ k. IsPlaced k.place) keys.items }
    requires sized { All (λ k. AreSized k.place k.pairs) keys.items }
    ensures { IfOk result (λ shares.
        Deals workers (asked_from 1 keys.items) (map asked_in shares.items)) }
{
    let mut shares = empty_shares(alloc, workers)?;
    let mut turn = 0;
    let mut number = 0u8;
    for key in keys {
        number += 1;
        let tree = KeyTree::new(number, key.place, key.pairs);
        give(&mut shares, turn, tree)?;
        turn = next_turn(workers, turn);
    }
    Ok(shares)
}
