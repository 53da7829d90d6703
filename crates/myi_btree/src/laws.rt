//! Laws over walks and laid pages. Each is the contract of a function that does nothing, so that it is
//! proved with the crate and stands for the crates above.
ghost use Rattle.std.specs.Prelude.{◌≡◌, ℕ, Bool, [], suc, ◌+◌, ◌*◌, ◌%◌, ◌^◌, ◌<◌, ◌≤◌, List, ◌∷◌, ◌++◌, length, map, Option, Some, None};
ghost use Rattle.myi_keylist.specs.declared.pair.Pair.{Pair};
ghost use Rattle.myi_btree.specs.Walk.{Node, Places, Walked, walk_of, Agree, IsNode, AreNodes};
ghost use Rattle.myi_btree.specs.LaidPages.{Fits, count_of, level_of, places_from, laid, moved, Stands, IsRooted, root_of};
ghost use Rattle.myi_btree.specs.LaidOnce.{WalksOnce};
ghost use Rattle.myi_btree.specs.Visit.{HasWalk};
ghost use Rattle.myi_btree.specs.Events.{Event, Meets, MeetsTree, first_bad, walked_in};
ghost use Rattle.myi_base.specs.Ranges.{Range};
ghost use Rattle.myi_btree.specs.Used.{up_to_used, apart_from};
ghost use Rattle.myi_btree.specs.TreeEvents.{tree_events, AreWithin};
ghost use Rattle.myi_btree.specs.Serving.{View};
ghost use Rattle.myi_btree.specs.Walking.{Walking, walk_at, IsOver, IsStillMet, MayGo};
ghost use Rattle.std.specs.List.{AllByRecursion};
ghost use Rattle.myi_base.specs.Holding.{Holding, overwritten};
ghost use Rattle.myi_keycache.specs.Caching.{Caching, IsCurrent, Stays};
ghost use Rattle.myi_btree.specs.declared.place.Place.{Place};
ghost use Rattle.myi_btree.specs.CachedTrees.{node_lent, CanWalk, HasPages, IsClear, AddsNamed, AddsItsOwn, ReadsOnce, AreApart};
ghost use Rattle.myi_btree.specs.Nodes.{node_in, node_at};
ghost use Rattle.myi_btree.specs.Sizes.{IsPlaced, AreSized, IsCount, fits_in};
ghost use Rattle.myi_btree.specs.Building.{laid_at, built_at, AddsLaid, AreKeys, EndBefore, CanLay, IsWritten, Lays, LaysOnly, Spares, page_for, pages_bytes};
ghost use Rattle.myi_btree.specs.TreePages.{tree_pages, tree_end, with_tree, CanBeLaid, HasBehind};
ghost use Rattle.myi_btree.specs.Moving.{laid_page, stored_pages, AreMovable, moved_page};
ghost use Rattle.myi_keycache.specs.Kept.{Page};

/// A walk depends on its own pages alone: where two readings give the same at each of them, the walk is
/// the same, whatever else changed.
pub fn walks_depend_on_their_pages()
    ensures { (one two : Places) (height place : ℕ) (w : Walked)
        → walk_of one height place ≡ Some w → Agree one two w.pages
        → walk_of two height place ≡ Some w }
{}

/// A place has one walk at most, whatever its height.
pub fn walks_exist_once()
    ensures { (read : Places) (one other place : ℕ) (w v : Walked)
        → walk_of read one place ≡ Some w → walk_of read other place ≡ Some v → w ≡ v }
{}

/// What bytes are, and what a key cache lends, is a node: it has a pair, and no children or one more than
/// pairs.
pub fn pages_are_nodes()
    ensures bytes { (rec_ref : ℕ) (bytes : List ℕ) (node : Node) → node_in rec_ref bytes ≡ Some node
        → IsNode node }
    ensures lent { (place : Place) (cache : Caching) (m : Holding)
        → AreNodes (node_lent place cache m) }
{}

/// A tree has few levels: with leaves `height` levels below the root, it has at least
/// 2^(height + 1) - 1 pairs.
pub fn trees_are_shallow()
    ensures nodes { (read : Places) (height place : ℕ) (w : Walked)
        → AreNodes read → walk_of read height place ≡ Some w → 2 ^ suc height ≤ length w.pairs + 1 }
    ensures lent { (place : Place) (cache : Caching) (m : Holding) (height at : ℕ) (w : Walked)
        → walk_of (node_lent place cache m) height at ≡ Some w
        → 2 ^ suc height ≤ length w.pairs + 1 }
{}

/// What an index file has at a place is a node: it has a pair, and no children or one more than pairs. So
/// what `trees_are_shallow` says of the pairs of a tree holds of each walk in a file's bytes.
pub fn index_pages_are_nodes()
    ensures nodes { (rec_ref block : ℕ) (x : List ℕ) → AreNodes (node_at rec_ref block x) }
    ensures shallow { (rec_ref block : ℕ) (x : List ℕ) (height place : ℕ) (w : Walked)
        → walk_of (node_at rec_ref block x) height place ≡ Some w
        → 2 ^ suc height ≤ length w.pairs + 1 }
{}

/// Laid pages that stand at their places are a tree, whose root is the last of them and whose pairs are
/// those that were laid.
pub fn laid_pages_walk()
    ensures { (read : Places) (fits : Fits) (block first : ℕ) (pair : Pair) (pairs : List Pair)
        → Stands read block first (laid fits block first (pair ∷ pairs))
        → IsRooted read block first (length (laid fits block first (pair ∷ pairs))) (pair ∷ pairs) }
{}

/// A walk meets one list of events at most. It meets no bad place exactly where the place has a walk of which
/// no two pages have a byte in common, and then the events have its pairs and pages.
pub fn events_are_walks()
    ensures once { (block : ℕ) (read : Places) (place : ℕ) (es others : List Event)
        → Meets block read place es → Meets block read place others → es ≡ others }
    ensures walk { (block : ℕ) (read : Places) (place : ℕ) (es : List Event) → AreNodes read
        → Meets block read place es → first_bad es ≡ None
        → HasWalk block read place (walked_in es) }
    ensures met { (block : ℕ) (read : Places) (place : ℕ) (w : Walked) → AreNodes read
        → HasWalk block read place w
        → (es : List Event) × Meets block read place es × (first_bad es ≡ None)
        × (walked_in es ≡ w) }
    ensures lent { (place : Place) (cache : Caching) (m : Holding) (at : ℕ) (es : List Event)
        → Meets place.block_length (node_lent place cache m) at es → first_bad es ≡ None
        → HasWalk place.block_length (node_lent place cache m) at (walked_in es) }
    ensures lent_met { (place : Place) (cache : Caching) (m : Holding) (at : ℕ) (w : Walked)
        → HasWalk place.block_length (node_lent place cache m) at w
        → (es : List Event) × Meets place.block_length (node_lent place cache m) at es
        × (first_bad es ≡ None) × (walked_in es ≡ w) }
{}

/// Where the pages of a tree stand in so many bytes, what its walk meets is the list of its events.
pub fn trees_have_events()
    ensures { (len block : ℕ) (read : Places) (root : Option ℕ) → 0 < block
        → AreWithin len block read
        → MeetsTree block read root (tree_events len block read root) }
{}

/// Where trees before have pages, a walk ends at the first page that has a byte of one: its events up to there
/// are those of the same tree where no such page stands.
pub fn used_pages_end_walks()
    ensures { (block : ℕ) (used : List Range) (read : Places) (place : ℕ) (es : List Event)
        → Meets block read place es
        → Meets block (apart_from block used read) place (up_to_used block used es) }
{}

/// A walk may begin where a tree may be gone through, and then what stands there is what the cache lends. What
/// is met from there on is the events of the tree, and where a walk is over nothing is left.
pub fn walks_begin()
    ensures begins { (writable : Bool) (place : Place) (told : Option Holding) (cache : Caching)
        (m : Holding) (root : ℕ) → CanWalk writable told place cache → told ≡ Some m
        → IsCurrent cache m → place.root ≡ Some root
        → (v : View) × (v.first ≡ cache) × (v.start ≡ m)
        × MayGo place v told cache [] (walk_at place) }
    ensures meets { (place : Place) (block : ℕ) (read : Places) (es : List Event)
        → IsStillMet block read [] (walk_at place) es → MeetsTree block read place.root es }
    ensures over { (block : ℕ) (read : Places) (seen : List ℕ) (w : Walking) → IsOver w
        → IsStillMet block read seen w [] }
{}

/// The walk of laid pages goes over each of them once: no byte belongs to two of its pages, which are as
/// many as were laid and stand where they were laid. The root is the last of them.
pub fn laid_pages_are_met_once()
    ensures once { (read : Places) (fits : Fits) (block first : ℕ) (pair : Pair) (pairs : List Pair)
        → 0 < block
        → Stands read block first (laid fits block first (pair ∷ pairs))
        → WalksOnce read block first (length (laid fits block first (pair ∷ pairs)))
        (pair ∷ pairs) }
    ensures root { (block first before : ℕ) (nodes : List Node) → length nodes ≡ suc before
        → root_of block first nodes ≡ Some (first + block * before) }
{}

/// What the key cache lends after building is a tree: from the last of the laid pages there is a walk with
/// the pairs that were laid, which goes over each of the pages once.
pub fn built_trees_walk()
    ensures { (place : Place) (first : ℕ) (pair : Pair) (pairs : List Pair) (old new : Caching)
        (m n : Holding)
        → IsPlaced place → first % 1024 ≡ 0 → AreSized place (pair ∷ pairs)
        → AreKeys (pair ∷ pairs)
        → first + place.block_length * length (laid_at place first (pair ∷ pairs)) < 2 ^ 64
        → Lays place first (laid_at place first (pair ∷ pairs)) old new m n
        → WalksOnce (node_lent place new n) place.block_length first
        (length (laid_at place first (pair ∷ pairs))) (pair ∷ pairs) }
{}

/// How a level is laid. A page takes some of the entries that are left, as many as fit but not all but
/// one. There is one page more than entries are set aside, and fewer are set aside than there were.
/// Places of pages are as many as asked for, and whole where the first and the page length are.
pub fn levels_are_laid()
    ensures count { (place : Place) (node : Bool) (left : List Pair) → AreSized place left
        → 0 < length left → IsCount place node left (count_of (fits_in place node) left) }
    ensures some { (fits : List Pair → Bool) (entries : List Pair) → 0 < count_of fits entries }
    ensures pages { (n : ℕ) (fits : List Pair → Bool) (entries : List Pair) (children : List ℕ)
        → length (level_of n fits entries children).pages
        ≡ suc (length (level_of n fits entries children).separators) }
    ensures fewer { (n : ℕ) (fits : List Pair → Bool) (entries : List Pair) (children : List ℕ)
        → 0 < count_of fits entries → 0 < length entries
        → length (level_of n fits entries children).separators < length entries }
    ensures places { (n block first : ℕ) → length (places_from n block first) ≡ n }
    ensures whole { (block n at : ℕ) → at % 1024 ≡ 0 → block % 1024 ≡ 0
        → (at + block * n) % 1024 ≡ 0 }
    ensures ends { (place : Place) (first count : ℕ) (old new : List Page) → EndBefore old first
        → AddsLaid place first count old new → EndBefore new (first + place.block_length * count) }
{}

/// Laid from so many bytes further on, the pages of a tree are the same, with each child so many bytes
/// further on.
pub fn laid_pages_move()
    ensures { (fits : Fits) (block at by : ℕ) (pairs : List Pair)
        → laid fits block (at + by) pairs ≡ map (moved by) (laid fits block at pairs) }
{}

/// The pages of a tree that are laid from place 0 may be moved to each place from which they could be laid,
/// and are then those that are laid from there. Their bytes are those of their nodes, with zeros behind the
/// used ones, and do not depend on the root.
pub fn laid_pages_are_movable()
    ensures movable { (place : Place) (first : ℕ) (pairs : List Pair) → IsPlaced place
        → first % 1024 ≡ 0 → AreSized place pairs → AreKeys pairs
        → first + place.block_length * length (laid_at place first pairs) < 2 ^ 64
        → AreMovable place first (map (laid_page place) (laid_at place 0 pairs)) }
    ensures moved { (place : Place) (first : ℕ) (pairs : List Pair) → IsPlaced place
        → first % 1024 ≡ 0 → AreSized place pairs → AreKeys pairs
        → first + place.block_length * length (laid_at place first pairs) < 2 ^ 64
        → stored_pages place (map (moved_page first) (map (laid_page place) (laid_at place 0 pairs)))
        ≡ pages_bytes place (laid_at place first pairs) }
    ensures bytes { (place : Place) (root : Option ℕ) (nodes : List Node)
        → stored_pages (record place { root = root }) (map (laid_page place) nodes)
        ≡ pages_bytes place nodes }
{}

/// The pages that are laid can be written, and the bytes of a page that can be written are read as it.
pub fn laid_pages_are_written()
    ensures written { (place : Place) (first : ℕ) (pairs : List Pair) → IsPlaced place
        → first % 1024 ≡ 0 → AreSized place pairs → AreKeys pairs
        → first + place.block_length * length (laid_at place first pairs) < 2 ^ 64
        → AllByRecursion (IsWritten place) (laid_at place first pairs) }
    ensures read { (place : Place) (node : Node) → IsWritten place node
        → node_in place.rec_ref (page_for place node) ≡ Some node }
{}

/// What is named from the root of a tree on is the pages of its walk, where it has one: a walk adds no other
/// page to those that are kept, and reads no more than these.
pub fn walks_add_their_own()
    ensures kept { (place : Place) (old new : Caching) (m : Holding) → AddsNamed place old m new
        → AddsItsOwn place old m new }
    ensures read { (place : Place) (cache : Caching) (m : Holding) (pages : List ℕ)
        (before after : ℕ) → HasPages place cache m place.root pages
        → ReadsOnce place cache m before after
        → after ≤ before + length pages }
{}

/// Going through a tree leaves trees clear that were: this one, and each other of whose pages none has a byte
/// of a page of this one. A walk says of the cache what is asked here (`stays` of `Tree::walk`,
/// and by `walks_add_their_own` what `added` says).
pub fn walks_leave_trees_clear()
    ensures this { (place : Place) (old new : Caching) (m n : Holding)
        → IsClear place old m place.root → Stays old new m n → AddsItsOwn place old m new
        → IsClear place new n place.root }
    ensures others { (place other : Place) (old new : Caching) (m n : Holding)
        (pages others : List ℕ) → HasPages place old m place.root pages
        → HasPages other old m other.root others → AreApart place pages other others
        → IsClear other old m other.root → Stays old new m n → AddsItsOwn place old m new
        → IsClear other new n other.root }
{}

/// A tree that was just built is clear, and so stays each tree that was and stands before it, also where the
/// build was refused. Building says of the cache what is asked here (`laid`, `refused` and `only` of
/// `Tree::build`).
pub fn builds_leave_trees_clear()
    ensures this { (place : Place) (first : ℕ) (pairs : List Pair) (old new : Caching)
        (m n : Holding)
        → IsPlaced place → first % 1024 ≡ 0 → AreSized place pairs → AreKeys pairs
        → first + place.block_length * length (laid_at place first pairs) < 2 ^ 64
        → CanLay old m first → Lays place first (laid_at place first pairs) old new m n
        → IsClear (built_at place first pairs) new n (built_at place first pairs).root }
    ensures others { (place other : Place) (first : ℕ) (nodes : List Node) (old new : Caching)
        (m n : Holding) (others : List ℕ) → HasPages other old m other.root others
        → AllByRecursion (λ p. p + other.block_length ≤ first) others
        → IsClear other old m other.root → Lays place first nodes old new m n
        → IsClear other new n other.root }
    ensures refused { (place other : Place) (first : ℕ) (before after : Option Holding)
        (old new : Caching) (m n : Holding) (others : List ℕ)
        → HasPages other old m other.root others
        → AllByRecursion (λ p. p + other.block_length ≤ first) others
        → IsClear other old m other.root → Spares first old new m n
        → LaysOnly before after place.block_length first old new
        → IsClear other new n other.root }
{}

/// The bytes of a page are as many as a page has. What is written from the end of a file on, and so the
/// pages of a tree, stands behind what the file has from a place on, which may lie past its end.
pub fn laid_pages_stand_behind()
    ensures page { (place : Place) (node : Node) → IsWritten place node
        → length (page_for place node) ≡ place.block_length }
    ensures pages { (place : Place) (nodes : List Node) → AllByRecursion (IsWritten place) nodes
        → length (pages_bytes place nodes) ≡ place.block_length * length nodes }
    ensures long { (place : Place) (first : ℕ) (pairs : List Pair) → CanBeLaid place first pairs
        → first + length (tree_pages place first pairs) ≡ tree_end place first pairs }
    ensures written { (base end : ℕ) (bytes file pages : List ℕ) → HasBehind base end bytes file
        → HasBehind base (end + length pages) (bytes ++ pages) (overwritten end pages file) }
    ensures behind { (place : Place) (first : ℕ) (pairs : List Pair) → CanBeLaid place first pairs
        → (base : ℕ) (bytes file : List ℕ) → HasBehind base first bytes file
        → HasBehind base (tree_end place first pairs) (bytes
        ++ tree_pages place first pairs) (with_tree place first pairs file) }
{}

/// A tree has no more pages than pairs.
pub fn trees_have_few_pages()
    ensures { (place : Place) (first : ℕ) (pairs : List Pair) → AreSized place pairs
        → length (laid_at place first pairs) ≤ length pairs }
{}
