//! Laws over the definitions of this crate. Each is the contract of a function that does nothing, so that
//! it is proved with the crate and stands for the crates above.
ghost use Rattle.std.specs.Prelude.{◌≡◌, ◌+◌, ◌^◌, ◌≤◌, ◌++◌, ◌∷◌, ◌<◌, ℕ, zero, suc, List, [], length, take, drop, slice_index_or, Some, Option};
ghost use Rattle.std.specs.Ordering.{is_gt};
ghost use Rattle.std.specs.declared.cmp.Ordering.TheVariants.{Equal};
ghost use Rattle.std.specs.List.{AllByRecursion};
ghost use Rattle.std.specs.List.Sorted.{IsStrictlySortedBy};
ghost use Rattle.myi_keylist.specs.declared.pair.Pair.{Pair};
ghost use Rattle.myi_keylist.specs.PairOrder.{pair_cmp, put_pair};
ghost use Rattle.myi_btree.specs.declared.place.Room.{Room};
ghost use Rattle.myi_btree.specs.Walk.{Places, Node, node_with, Walked, walk_of, content};
ghost use Rattle.myi_insertion.specs.Strips.{IsStrip, StandFor, Branches};
ghost use Rattle.myi_insertion.specs.Covers.{within, cover, stock, AreClear, StillStands, Spares, Trades, Grows};
ghost use Rattle.myi_insertion.specs.Ordered.{AreBefore, BeginsBehind};
ghost use Rattle.myi_insertion.specs.Settling.{IsPartly};
ghost use Rattle.myi_base.specs.Holding.{Holding, OthersStay};
ghost use Rattle.myi_keycache.specs.Kept.{AddsOnly};
ghost use Rattle.myi_keycache.specs.Caching.{pages_of, Caching, IsCurrent, CanPut, Stays, Puts};
ghost use Rattle.std.specs.List.{Contains};
ghost use Rattle.myi_btree.specs.declared.place.Place.{Place};
ghost use Rattle.myi_btree.specs.CachedTrees.{node_lent, NoneMeets};
ghost use Rattle.myi_insertion.specs.Rooms.{Takes, Gives};
ghost use Rattle.myi_insertion.specs.CachedChanges.{CanChange, Exchanges, Changes};
ghost use Rattle.myi_insertion.specs.CachedTree.{IsTree};
ghost use Rattle.myi_insertion.specs.Filled.{KeepsFilled, TakeAtMost, IsFilled, below_root};
ghost use Rattle.myi_search.specs.Trees.{HasTree};

use myi_btree::{pages_are_nodes, trees_are_shallow};

/// A walk depends on its own pages alone: where each of them still stands, the walk is the same.
pub fn walks_still_stand()
    ensures { (old new : Places) (height place : ℕ) (w : Walked) → walk_of old height place ≡ Some w
        → AllByRecursion (StillStands old new) w.pages → walk_of new height place ≡ Some w }
{}

/// A page at its place is a tree with the pairs that it stands for, and the page of a tree stands for the
/// tree's pairs. A strip of one tree is that tree.
pub fn pages_stand_for_trees()
    ensures tree { (read : Places) (height at : ℕ) (pairs : List Pair) (children : List ℕ)
        (xs : List Pair) (pages : List ℕ) → StandFor read height pairs children xs pages
        → read at ≡ Some (node_with pairs children)
        → (w : Walked) × (walk_of read height at ≡ Some w) × (content w ≡ xs) × (w.pages ≡ at ∷ pages) }
    ensures page { (read : Places) (height at : ℕ) (w : Walked) (node : Node)
        → walk_of read height at ≡ Some w → read at ≡ Some node → Branches node.pairs node.children
        → (pages : List ℕ) × StandFor read height node.pairs node.children (content w) pages
        × (w.pages ≡ at ∷ pages) }
    ensures single { (read : Places) (height at : ℕ) (xs : List Pair) (pages : List ℕ)
        → IsStrip read height (at ∷ []) [] xs pages
        → (w : Walked) × (walk_of read height at ≡ Some w) × (content w ≡ xs) × (w.pages ≡ pages) }
{}

/// A pair of a page parts what the page stands for: the pairs before it, with the children around them,
/// stand for the first part, and those behind it for the other. Two such parts make a whole.
pub fn strips_are_cut()
    ensures cut { (read : Places) (height : ℕ) (front : List Pair) (s : Pair) (rest : List Pair)
        (children : List ℕ) (xs : List Pair) (pages : List ℕ)
        → StandFor read height (front ++ s ∷ rest) children xs pages
        → (x y : List Pair) × (p q : List ℕ)
        × StandFor read height front (take (suc (length front)) children) x p
        × StandFor read height rest (drop (suc (length front)) children) y q
        × (xs ≡ x ++ s ∷ y) × (pages ≡ p ++ q) }
    ensures joined { (read : Places) (height : ℕ) (front : List Pair) (s : Pair) (rest : List Pair)
        (some others : List ℕ) (x y : List Pair) (p q : List ℕ)
        → StandFor read height front some x p → StandFor read height rest others y q
        → StandFor read height (front ++ s ∷ rest) (some ++ others) (x ++ s ∷ y) (p ++ q) }
{}

/// Changes follow one another. After a change pages and room are as clear of one another as before, and
/// a tree whose pages have none of the bytes that were touched still stands.
pub fn changes_follow()
    ensures trades { (block : ℕ) (old mid new : Places) (olds mids news : List ℕ)
        (before between after : Room) → Trades block old mid olds before between mids
        → Trades block mid new mids between after news → Trades block old new olds before after news }
    ensures grows { (block : ℕ) (old mid new : Places) (height : ℕ) (xs : List Pair)
        (olds mids : List ℕ) (before between after : Room) (places : List ℕ) (separators : List Pair)
        → Trades block old mid olds before between mids
        → Grows block mid new height xs mids between after places separators
        → Grows block old new height xs olds before after places separators }
    ensures clear { (block : ℕ) (old new : Places) (olds news : List ℕ) (before after : Room)
        → Trades block old new olds before after news → AreClear block olds before
        → AreClear block news after }
    ensures others { (block : ℕ) (old new : Places) (olds news : List ℕ) (before after : Room)
        (height at : ℕ) (w : Walked) → Trades block old new olds before after news
        → walk_of old height at ≡ Some w
        → ((x : ℕ) → cover block w.pages x + (cover block olds x + stock before x) ≤ 1)
        → walk_of new height at ≡ Some w }
{}

/// Where a pair goes: in a leaf among its pairs, before the first that does not stand before it; in a node
/// into the child there. Where that child became a strip, the page with the strip in its place stands for
/// the tree with the pair put in.
pub fn pairs_go_in()
    ensures leaf { (read : Places) (at : ℕ) (w : Walked) (pairs : List Pair) (children : List ℕ)
        (i : ℕ) (p : Pair) → walk_of read zero at ≡ Some w
        → read at ≡ Some (node_with pairs children) → Branches pairs children
        → AreBefore p (take i pairs) → BeginsBehind p (drop i pairs)
        → (w.pages ≡ at ∷ [])
        × (put_pair p (content w) ≡ (take i pairs ++ p ∷ []) ++ drop i pairs) }
    ensures child { (read : Places) (height at : ℕ) (w : Walked) (pairs : List Pair)
        (children : List ℕ) (i : ℕ) → walk_of read (suc height) at ≡ Some w
        → read at ≡ Some (node_with pairs children) → Branches pairs children → i ≤ length pairs
        → (v : Walked) × (walk_of read height (slice_index_or children i 0) ≡ Some v)
        × ((block : ℕ) (room : Room) → AreClear block w.pages room → AreClear block v.pages room)
        × (IsStrictlySortedBy pair_cmp (content w) → IsStrictlySortedBy pair_cmp (content v)) }
    ensures node { (block : ℕ) (old new : Places) (height at : ℕ) (w v : Walked) (pairs : List Pair)
        (children : List ℕ) (i : ℕ) (p : Pair) (before after : Room) (places : List ℕ)
        (separators : List Pair) → walk_of old (suc height) at ≡ Some w
        → old at ≡ Some (node_with pairs children) → Branches pairs children → i ≤ length pairs
        → AreBefore p (take i pairs) → BeginsBehind p (drop i pairs) → AreClear block w.pages before
        → IsStrictlySortedBy pair_cmp (content w)
        → walk_of old height (slice_index_or children i 0) ≡ Some v
        → Grows block old new height (put_pair p (content v)) v.pages before after places separators
        → (pages : List ℕ) × StandFor new (suc height) ((take i pairs ++ separators) ++ drop i pairs)
        ((take i children ++ places) ++ drop (suc i) children) (put_pair p (content w)) pages
        × Trades block old new w.pages before after (at ∷ pages) }
{}

/// What putting a pair into a list in order does: the pair stands behind all that are below it and before
/// the others, and the list is in order where the pair was not there.
pub fn pairs_are_put_in()
    ensures between { (p : Pair) (xs : List Pair) → (a b : List Pair) × (xs ≡ a ++ b)
        × (put_pair p xs ≡ a ++ p ∷ b) × AreBefore p a × BeginsBehind p b }
    ensures sorted { (p : Pair) (xs : List Pair) → IsStrictlySortedBy pair_cmp xs
        → AllByRecursion (λ q. pair_cmp p q ≡ Equal → ⊥) xs → IsStrictlySortedBy pair_cmp (put_pair p xs) }
{}

/// Pairs are written page by page: at first all is still to be written; a page takes the first pairs with
/// their children, and one pair is set aside; the last page takes the rest.
pub fn page_by_page()
    ensures start { (block : ℕ) (read : Places) (height : ℕ) (xs : List Pair) (pages : List ℕ)
        (room : Room) (at : ℕ) (pairs : List Pair) (children : List ℕ)
        → StandFor read height pairs children xs pages
        → IsPartly block read read height xs (at ∷ pages) room room at [] [] pairs children }
    ensures step { (block : ℕ) (old now new : Places) (height : ℕ) (xs : List Pair) (olds : List ℕ)
        (before after next : Room) (at other : ℕ) (places : List ℕ) (separators front : List Pair)
        (s : Pair) (rest : List Pair) (children : List ℕ) → AreClear block olds before
        → IsPartly block old now height xs olds before after at places separators
        (front ++ s ∷ rest) children
        → new at ≡ Some (node_with front (take (suc (length front)) children))
        → Spares block now new (λ x. within at block x)
        → ((x : ℕ) → within other block x + stock next x ≡ stock after x)
        → IsPartly block old new height xs olds before next other (places ++ at ∷ [])
        (separators ++ s ∷ []) rest (drop (suc (length front)) children) }
    ensures end { (block : ℕ) (old now new : Places) (height : ℕ) (xs : List Pair) (olds : List ℕ)
        (before after : Room) (at : ℕ) (places : List ℕ) (separators pairs : List Pair)
        (children : List ℕ) → AreClear block olds before
        → IsPartly block old now height xs olds before after at places separators pairs children
        → new at ≡ Some (node_with pairs children) → Spares block now new (λ x. within at block x)
        → Grows block old new height xs olds before after (places ++ at ∷ []) separators }
{}

/// A page that is taken from a room has just the bytes that are free no more, and one that is given to it those
/// that became free.
pub fn rooms_hand_out_their_bytes()
    ensures taken { (len at : ℕ) (before after : Room) → Takes len at before after
        → (x : ℕ) → within at len x + stock after x ≡ stock before x }
    ensures given { (len at : ℕ) (before after : Room) → Gives len at before after
        → (x : ℕ) → within at len x + stock before x ≡ stock after x }
{}

/// What one step does to a key cache and a room: a page that is asked for or put changes no other range, a page
/// that is taken from the room becomes one of the tree's, and one that is given to it leaves them.
pub fn steps_are_changes()
    ensures got { (place : Place) (old : Caching) (m : Holding) (pages : List ℕ) (room : Room)
        (new : Caching) (n : Holding) (at : ℕ) → Contains pages at → Stays old new m n
        → AddsOnly at place.block_length (pages_of old) (pages_of new) → new.name ≡ old.name
        → OthersStay old.name m n → Changes place old m pages room new n pages room }
    ensures put { (place : Place) (old : Caching) (m : Holding) (pages : List ℕ) (room : Room)
        (new : Caching) (n : Holding) (at : ℕ) (bytes : List ℕ) → 0 < place.block_length
        → length bytes ≡ place.block_length → Contains pages at → Puts at bytes old new m n
        → AddsOnly at (length bytes) (pages_of old) (pages_of new) → new.name ≡ old.name
        → OthersStay old.name m n → Changes place old m pages room new n pages room }
    ensures taken { (place : Place) (cache : Caching) (m : Holding) (front back : List ℕ)
        (before after : Room) (at : ℕ) → IsCurrent cache m
        → Takes place.block_length at before after
        → Changes place cache m (front ++ back) before cache m (front ++ at ∷ back) after }
    ensures given { (place : Place) (cache : Caching) (m : Holding) (front back : List ℕ)
        (before after : Room) (at : ℕ) → IsCurrent cache m
        → Gives place.block_length at before after
        → Exchanges place cache m (front ++ at ∷ back) before cache m (front ++ back) after (at ∷ []) }
{}

/// Changes in a key cache follow one another, and one of some pages is one of all. After each the pages may
/// still be changed and each of them be put, and what stands at the places of an index file was traded.
pub fn cached_changes_follow()
    ensures follow { (place : Place) (a b c : Caching) (m n k : Holding) (olds mids news : List ℕ)
        (before between after : Room) (some others : List ℕ)
        → Exchanges place a m olds before b n mids between some
        → Exchanges place b n mids between c k news after others
        → Exchanges place a m olds before c k news after (some ++ others) }
    ensures part { (place : Place) (old new : Caching) (m n : Holding) (front olds news back : List ℕ)
        (before after : Room) (given : List ℕ) → Exchanges place old m olds before new n news after given
        → Exchanges place old m ((front ++ olds) ++ back) before new n ((front ++ news) ++ back) after
        given }
    ensures still { (place : Place) (old new : Caching) (m n : Holding) (olds news : List ℕ)
        (before after : Room) (given : List ℕ) → 0 < place.block_length
        → CanChange place old m olds before
        → Exchanges place old m olds before new n news after given → CanChange place new n news after }
    ensures put { (place : Place) (cache : Caching) (m : Holding) (pages : List ℕ) (room : Room)
        (at len : ℕ) → len ≡ place.block_length → CanChange place cache m pages room
        → Contains pages at → CanPut cache m at len }
    ensures trades { (place : Place) (old new : Caching) (m n : Holding) (olds news : List ℕ)
        (before after : Room) (given : List ℕ) → 0 < place.block_length
        → Exchanges place old m olds before new n news after given
        → Trades place.block_length (node_lent place old m) (node_lent place new n) olds before
        after news }
{}

/// A tree of whose pages none has a byte of the pages that were changed or of the room still stands, and where no
/// other page that is kept met it, none does. What stands at the places of a tree does not depend on
/// its root.
pub fn other_trees_stay()
    ensures stands { (place other : Place) (old new : Caching) (m n : Holding) (olds news : List ℕ)
        (before after : Room) (given : List ℕ) (height at : ℕ) (w : Walked) → 0 < other.block_length
        → Exchanges place old m olds before new n news after given
        → walk_of (node_lent other old m) height at ≡ Some w
        → ((x : ℕ) → cover other.block_length w.pages x
        + (cover place.block_length olds x + stock before x) ≤ 1)
        → walk_of (node_lent other new n) height at ≡ Some w }
    ensures clear { (place other : Place) (old new : Caching) (m n : Holding)
        (olds news pages : List ℕ) (before after : Room) (given : List ℕ) → 0 < place.block_length
        → 0 < other.block_length → Exchanges place old m olds before new n news after given
        → NoneMeets other old pages
        → ((x : ℕ) → cover other.block_length pages x
        + (cover place.block_length olds x + stock before x) ≤ 1)
        → NoneMeets other new pages }
    ensures root { (place : Place) (root : Option ℕ) (cache : Caching) (m : Holding) (at : ℕ)
        → node_lent (record place { root = root }) cache m at ≡ node_lent place cache m at }
{}

/// A tree has few levels, whatever was put in and taken out, and each page of it has a pair: of a page that ran empty
/// nothing is left in the tree.
pub fn trees_stay_shallow()
    ensures few { (place : Place) (cache : Caching) (m : Holding) (root : ℕ) (xs : List Pair)
        (pages : List ℕ) → IsTree place cache m (Some root) xs pages
        → (height : ℕ) × HasTree place cache m (Some root) height xs
        × (2 ^ suc height ≤ length xs + 1) }
    ensures some { (place : Place) (cache : Caching) (m : Holding) (root : Option ℕ)
        (xs : List Pair) (pages : List ℕ) → IsTree place cache m root xs pages
        → AllByRecursion (λ at. (node : Node) × (node_lent place cache m at ≡ Some node)
        × (0 < length node.pairs)) pages }
{
    trees_are_shallow();
    pages_are_nodes();
}

/// Where the pages below a root were filled to the half, less two of the longest entries, putting a pair in leaves
/// them so. So it is of each tree that was made by putting pairs in, in whatever order: one without a root has no
/// such page.
pub fn pages_stay_filled()
    ensures { (place : Place) (old : Caching) (m : Holding) (olds : List ℕ) (told : Option Holding)
        (new : Caching) (root : Option ℕ) (xs : List Pair) (most : ℕ)
        (tree : KeepsFilled place old m olds told new root xs) → TakeAtMost place most xs
        → ((at : ℕ) → Contains (below_root olds) at → IsFilled place most (node_lent place old m) at)
        → (at : ℕ) → Contains (below_root tree.pages) at
        → IsFilled place most (node_lent place new tree.now) at }
{}
