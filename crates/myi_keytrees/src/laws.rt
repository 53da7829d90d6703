//! Laws over the definitions of this crate. Each is the contract of a function that does nothing, so that
//! it is proved with the crate and stands for the crates above.
ghost use Rattle.std.specs.Prelude.{◌≡◌, ◌+◌, ◌<◌, ◌≤◌, ℕ, Bool, IsTrue};
ghost use Rattle.std.specs.Prelude.{List, [], ◌∷◌, length, Option, Some};
ghost use Rattle.std.specs.List.{AllByRecursion};
ghost use Rattle.myi_base.specs.Holding.{Holding, bytes_of, resized, overwritten};
ghost use Rattle.myi_keycache.specs.Kept.{AllWritten};
ghost use Rattle.myi_keycache.specs.Lent.{bytes_at};
ghost use Rattle.myi_keycache.specs.Caching.{pages_of, lends, IsCurrent};
ghost use Rattle.myi_keylist.specs.declared.pair.Pair.{Pair};
ghost use Rattle.myi_btree.specs.declared.place.Place.{Place};
ghost use Rattle.myi_btree.specs.Sizes.{IsPlaced};
ghost use Rattle.myi_btree.specs.Walk.{Walked};
ghost use Rattle.myi_keytrees.specs.Trees.{Trees};
ghost use Rattle.myi_keytrees.specs.Standing.{Stand, StandThen, CanSearch};
ghost use Rattle.myi_keytrees.specs.InFile.{HaveWalks, EndAt, AreAscending, contents_of, bytes_owned, StandIn};
ghost use Rattle.myi_keytrees.specs.InFile.{bytes_of_pages, bytes_of_free, KeepsBetween};

use myi_keycache::ranges_are_read;

/// Where all pages are written, the trees stand in the bytes of the file, each with its pairs, behind the first bytes that are no
/// page; and what is lent of these first bytes is what the file has.
pub fn written_trees_stand_in_the_file()
    ensures trees { (trees : Trees) (m : Holding) (own : ℕ → ℕ) (lists : List (List Pair))
        (first : ℕ) → 0 < first → AllWritten (pages_of trees.cache) → ((x : ℕ) → x < first → own x ≡ 0)
        → (s : Stand trees m own lists) → StandIn (bytes_of trees.cache.name m) first
        trees.room.end trees.places lists s.pages }
    ensures first { (trees : Trees) (m : Holding) (own : ℕ → ℕ) (lists : List (List Pair))
        (first : ℕ) (bytes : List ℕ) → AllWritten (pages_of trees.cache)
        → Stand trees m own lists → lends trees.cache m 0 first ≡ Some bytes
        → bytes_at (bytes_of trees.cache.name m) 0 first ≡ Some bytes }
{}

/// Where nothing is kept or free and the trees of the file have walks with pairs in order, whose pages end before the room,
/// the trees stand for the pairs of these walks, and none of their bytes is one of the first so many.
pub fn opened_trees_stand()
    ensures stand { (trees : Trees) (m : Holding) (first : ℕ) (walks : List Walked)
        → AllByRecursion IsPlaced trees.places → pages_of trees.cache ≡ []
        → IsCurrent trees.cache m → trees.room ≡ record { end = trees.room.end; free = [] }
        → AreAscending (contents_of walks)
        → HaveWalks (bytes_of trees.cache.name m) ((0, first) ∷ []) trees.places walks
        → EndAt trees.room.end trees.places walks
        → Stand trees m (bytes_owned trees walks) (contents_of walks) }
    ensures front { (trees : Trees) (m : Holding) (first x : ℕ) (walks : List Walked)
        → trees.room ≡ record { end = trees.room.end; free = [] } → first ≤ trees.room.end
        → HaveWalks (bytes_of trees.cache.name m) ((0, first) ∷ []) trees.places walks
        → x < first → bytes_owned trees walks x ≡ 0 }
{}

/// The pages of the trees and the free pages have as many bytes more as the end of the room went on, whatever
/// calls came between, and all of them lie before that end.
pub fn bytes_are_counted()
    ensures counted { (old new : Trees) (m n : Holding) (own : ℕ → ℕ) (xs ys : List (List Pair))
        → (s : Stand old m own xs) (t : Stand new n own ys)
        → (bytes_of_pages new.places t.pages + bytes_of_free new.room.free) + old.room.end
        ≡ (bytes_of_pages old.places s.pages + bytes_of_free old.room.free) + new.room.end }
    ensures inside { (trees : Trees) (m : Holding) (own : ℕ → ℕ) (lists : List (List Pair))
        → (s : Stand trees m own lists)
        → bytes_of_pages trees.places s.pages + bytes_of_free trees.room.free ≤ trees.room.end }
{}

/// Calls follow one another: what stands after the second call does so from before the first, with the same of
/// other bytes. Where trees stand they may be searched.
pub fn calls_follow()
    ensures start { (trees : Trees) (m : Holding) (own : ℕ → ℕ) (lists : List (List Pair))
        → Stand trees m own lists → StandThen trees m own (Some m) trees lists }
    ensures follow { (old mid new : Trees) (m : Holding) (own : ℕ → ℕ) (told next : Option Holding)
        (xs ys : List (List Pair)) → (one : StandThen old m own told mid xs)
        → StandThen mid one.now own next new ys → StandThen old m own next new ys }
    ensures search { (old new : Trees) (m : Holding) (own : ℕ → ℕ) (told : Option Holding)
        (lists : List (List Pair)) (writable : Bool) → IsTrue writable
        → StandThen old m own told new lists → CanSearch writable told new }
{}

/// Trees know their own file alone: where files of other names are changed they stand as before.
pub fn other_files_may_change()
    ensures stand { (trees : Trees) (m n : Holding) (own : ℕ → ℕ) (lists : List (List Pair))
        → n trees.cache.name ≡ m trees.cache.name → Stand trees m own lists
        → StandThen trees m own (Some n) trees lists }
{}

/// Trees that stand in a file stand in each other one with the same bytes between its front and a place that no page ends
/// behind: in the file that is cut there, and in the one whose front is written over.
pub fn walks_stay_between()
    ensures walks { (first end : ℕ) (file other : List ℕ) (places : List Place)
        (walks : List Walked) → AllByRecursion IsPlaced places
        → KeepsBetween first end file other → HaveWalks file ((0, first) ∷ []) places walks
        → EndAt end places walks → HaveWalks other ((0, first) ∷ []) places walks }
    ensures cut { (first end : ℕ) (file : List ℕ) → KeepsBetween first end file (resized end file) }
    ensures front { (first end : ℕ) (file bytes : List ℕ) → length bytes ≤ first
        → KeepsBetween first end file (overwritten 0 bytes file) }
{
    ranges_are_read();
}
