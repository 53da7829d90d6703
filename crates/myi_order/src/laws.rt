//! Laws over the definitions of this crate. Each is the contract of a function that does nothing, so
//! that it is proved with the crate and stands for the crates above.
ghost use Rattle.std.specs.Prelude.{◌≡◌, ◌<◌, ◌≤◌, ◌^◌, ℕ, List, [], length, map, Ok, IsSorted};
ghost use Rattle.std.specs.List.{AllByRecursion};
ghost use Rattle.myi_defs.specs.declared.types.Defs.{Defs};
ghost use Rattle.myi_defs.specs.ReadDefs.{read_defs};
ghost use Rattle.myi_header.specs.Layout.{key_parts};
ghost use Rattle.myi_header.specs.Analysis.{with_numbers};
ghost use Rattle.myi_keylist.specs.declared.pair.Pair.{Pair};
ghost use Rattle.myi_keylist.specs.PairOrder.{pair_cmp, sorted};
ghost use Rattle.myi_keylist.specs.Repeats.{keys_of};
ghost use Rattle.myi_chain.specs.Readable.{Row};
ghost use Rattle.myi_pair.specs.Clean.{values_of, IsClean};
ghost use Rattle.myi_pair.specs.FirstRows.{AreDistinct};
ghost use Rattle.myi_order.specs.InOrder.{placed_key, in_order, IsInOrder};
ghost use Rattle.myi_order.specs.Prefixes.{distinct_prefixes, per, per_each, prefix_ends};

use myi_btree::walks_depend_on_their_pages;
use myi_defs::definitions_are_sound;

/// In a list in order, keys that share a prefix stand together: there are as many distinct prefixes as keys
/// of which the next one has another prefix.
pub fn prefixes_end_in_order()
    ensures { (j : ℕ) (pairs : List Pair) → IsSorted pair_cmp pairs
        → distinct_prefixes j (keys_of pairs) ≡ prefix_ends j (keys_of pairs) }
{}

/// The order of the rows does not count: in the list in order there are as many distinct prefixes as in any
/// other list of the same pairs, and as many rows to each.
pub fn sorting_keeps_prefixes()
    ensures distinct { (j : ℕ) (pairs : List Pair)
        → distinct_prefixes j (keys_of (sorted pairs)) ≡ distinct_prefixes j (keys_of pairs) }
    ensures per { (j : ℕ) (pairs : List Pair)
        → per j (keys_of (sorted pairs)) ≡ per j (keys_of pairs) }
    ensures each { (segments : ℕ) (pairs : List Pair)
        → per_each segments (keys_of (sorted pairs)) ≡ per_each segments (keys_of pairs) }
{}

/// Rows in the order of a key are the same rows, in order; their keys and positions are the sorted ones of the
/// rows; and where no row repeats one before it in a unique key, none does so in order.
pub fn rows_are_put_in_order()
    ensures ordered { (d : Defs) (k : ℕ) (rows : List Row)
        → IsInOrder d k rows (in_order d k rows) }
    ensures pairs { (d : Defs) (k : ℕ) (rows : List Row)
        → map (placed_key d k) (in_order d k rows) ≡ sorted (map (placed_key d k) rows) }
    ensures distinct { (d : Defs) (k : ℕ) (rows : List Row)
        → AreDistinct d [] (map (values_of d) rows)
        → AreDistinct d [] (map (values_of d) (in_order d k rows)) }
{}

/// A table that is clean is clean with new numbers in its index file: no definition of a clean pair reads
/// the bytes that change.
pub fn analyzed_tables_are_clean()
    ensures { (file x : List ℕ) (d : Defs) (rows : ℕ) (parts : List ℕ) → read_defs x ≡ Ok d
        → length parts ≤ key_parts d → rows < 256 ^ 8
        → AllByRecursion (λ n. n < 256 ^ 4) parts
        → IsClean file x → IsClean file (with_numbers d rows parts x) }
{
    definitions_are_sound();
    walks_depend_on_their_pages();
}
