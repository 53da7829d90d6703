//! How many pairs a page of a level takes, and writing it.
ghost use Rattle.std.specs.Prelude.{◌≡◌, ◌^◌, ◌<◌, length, take, drop};
ghost use Rattle.myi_btree.specs.Walk.{node_with};
ghost use Rattle.myi_btree.specs.Nodes.{page_of_node};
ghost use Rattle.myi_btree.specs.Sizes.{IsPlaced, AreSized, IsCount};
ghost use Rattle.myi_btree.specs.Building.{page_for};
ghost use Rattle.myi_btree.specs.Levels.{FitsPage};

use crate::place::Place;
use myi_keylist::PairList;
use myi_keypage::{Part, fitting_of, write_page_of};

/// How many of the pairs from `start` on the next page takes: the most that fit and behind which not
/// exactly one is left.
pub(crate) fn page_count(place: Place, node: bool, pairs: &PairList, start: usize) -> usize
    requires placed { IsPlaced place }
    requires sized { AreSized place (drop start pairs.now) }
    requires some { start < length pairs.now }
    ensures count { IsCount place node (drop start pairs.now) result }
    ensures bound { length pairs.now < 2 ^ 64 }
{
    let left = pairs.len() - start;
    let part = Part {
        list: pairs,
        start,
        count: left,
    };
    let most = fitting_of(&part, node, place.rec_ref, place.block_length as usize);
    if left - most == 1 { most - 1 } else { most }
}

/// Writes a page of so many pairs from `start` on.
pub(crate) fn write_pairs(
    place: Place,
    pairs: &PairList,
    start: usize,
    count: usize,
    children: &[u64],
    page: &mut [u8],
)
    requires placed { IsPlaced place }
    requires page { FitsPage place
        (page_of_node (node_with (take count (drop start pairs.now)) children.now)) }
    requires buffer { length page.old ≡ place.block_length }
    ensures bytes { page.new
        ≡ page_for place (node_with (take count (drop start pairs.now)) children.now) }
    ensures long { length page.new ≡ place.block_length }
{
    let part = Part {
        list: pairs,
        start,
        count,
    };
    write_page_of(&part, children, place.rec_ref, page);
}

/// The first children of a level, and the others.
pub(crate) fn children_at(children: &[u64], count: usize) -> (&[u64], &[u64])
    ensures front { result.0.now ≡ take count children.now }
    ensures back { result.1.now ≡ drop count children.now }
{
    children.split_at(count.min(children.len()))
}
