//! Laws over the definitions of this crate. Each is the contract of a function that does nothing, so
//! that it is proved with the crate and stands for the crates above.
ghost use Rattle.std.specs.Prelude.{◌≡◌, ◌+◌, ◌^◌, ◌≤◌, ℕ, suc, Bool, List, length, Option, Some};
ghost use Rattle.myi_base.specs.Holding.{Holding};
ghost use Rattle.myi_keycache.specs.Caching.{Caching};
ghost use Rattle.myi_keylist.specs.declared.pair.Pair.{Pair};
ghost use Rattle.myi_btree.specs.declared.place.Place.{Place};
ghost use Rattle.myi_btree.specs.Walk.{Places};
ghost use Rattle.myi_search.specs.Path.{IsStopped, Arrives};
ghost use Rattle.myi_search.specs.Trees.{HasTree};

use myi_btree::trees_are_shallow;

/// The path of a search ends once: in a leaf, or at one place where no page stands or that was met before.
pub fn searches_end_once()
    ensures once { (read : Places) (passes : Pair → Bool) (root : Option ℕ) (at other : ℕ)
        → IsStopped read passes root at → IsStopped read passes root other → at ≡ other }
    ensures either { (read : Places) (passes : Pair → Bool) (root : Option ℕ) (at : ℕ)
        → IsStopped read passes root at → Arrives read passes root → ⊥ }
{}

/// A search is short: of a tree with leaves `height` levels below its root, `find` and `next_after` ask for no more
/// than `height + 1` pages (`asked` and `few`), and it has at least 2^(height + 1) - 1 pairs.
pub fn searches_are_short()
    ensures { (place : Place) (cache : Caching) (m : Holding) (root height : ℕ) (pairs : List Pair)
        → HasTree place cache m (Some root) height pairs → 2 ^ suc height ≤ length pairs + 1 }
{
    trees_are_shallow();
}
