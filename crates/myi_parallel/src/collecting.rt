//! Collecting the trees that the workers laid, in the order of the keys.
ghost use Rattle.std.specs.Prelude.{◌≡◌, ◌<◌, ◌-◌, ◌^◌, List, length, map, slice_index_or, IfOk};
ghost use Rattle.myi_parallel.specs.Asked.{Asked};
ghost use Rattle.myi_parallel.specs.Dealing.{next_round};
ghost use Rattle.myi_parallel.specs.LaidTrees.{IsLaid, AreLaid};
ghost use Rattle.myi_parallel.specs.Shares.{asked_in, share_of, Deals};

use crate::dealing::next_turn;
use crate::working::Share;
use myi_btree::Laid;
use std::alloc::{AllocError, Global};

// Takes the tree of a worker's key out, where there was memory for it.
fn take_tree(shares: &mut [Share], turn: usize, round: usize) -> Result<Laid, AllocError>
    requires turn { turn < length shares.old }
    requires round { round < length (share_of (map asked_in shares.old) turn) }
    ensures same { map asked_in shares.new ≡ map asked_in shares.old }
    ensures laid { IfOk result (λ laid. (one : Asked)
        → one ≡ slice_index_or (share_of (map asked_in shares.old) turn) round one
        → IsLaid one.place one.pairs laid) }
{
    shares[turn].trees[round].take()
}

// How many rounds are over, where it is the turn of this worker next.
fn next_round(turn: usize, round: usize) -> usize
    requires { round < 2 ^ 64 - 1 }
    ensures { result ≡ next_round turn round }
{
    if turn == 0 { round + 1 } else { round }
}

/// The trees of so many keys, which were dealt out to the workers.
pub(crate) fn collect(
    alloc: Global,
    mut shares: Vec<Share>,
    count: usize,
) -> Result<Vec<Laid>, AllocError>
    requires some { 0 < length shares.items }
    requires dealt { (all : List Asked) × (length all ≡ count)
        × Deals (length shares.items) all (map asked_in shares.items) }
    ensures { (all : List Asked) → length all ≡ count
        → Deals (length shares.items) all (map asked_in shares.items)
        → IfOk result (λ laid. AreLaid all laid.items) }
{
    let workers = shares.len();
    let mut laid = Vec::with_capacity(alloc, count)?;
    let mut turn = 0;
    let mut round = 0;
    for _ in 0..count {
        let tree = take_tree(&mut shares, turn, round)?;
        laid.push(tree)?;
        turn = next_turn(workers, turn);
        round = next_round(turn, round);
    }
    Ok(laid)
}
