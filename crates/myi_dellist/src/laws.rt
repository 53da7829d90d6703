//! Laws over the definitions of this crate: first on lists of areas alone, then on the bytes of a file.
//! Each is the contract of a function that does nothing, so that it is proved with the crate and stands
//! for the crates above.
ghost use Rattle.std.specs.Prelude.{◌≡◌, ◌⊎◌, ℕ, ◌+◌, ◌%◌, ◌^◌, ◌<◌, ◌≤◌, ◌++◌, List, [], ◌∷◌, length, Option, Some, None, Ok};
ghost use Rattle.std.specs.List.{AllByRecursion, flat_map};
ghost use Rattle.myi_base.specs.Holding.{Holding, bytes_of, overwritten};
ghost use Rattle.myi_frames.specs.Block.{Block, block_of};
ghost use Rattle.myi_dellist.specs.Areas.{Area, below, bytes_below, Tile, IsApart, AreApart, AreInside, Holds, HaveBytes};
ghost use Rattle.myi_dellist.specs.Releasing.{release, release_all, IsHole, IsFreeable};
ghost use Rattle.myi_dellist.specs.Placing.{Space, areas_of, taken_by, place, update, place_at_end, specs_of, place_of, next_place, AreWritable};
ghost use Rattle.myi_dellist.specs.Standing.{HasList, KeepsBut, LeavesList, first_or, with_prev, without_block, release_one_bytes, release_bytes};
ghost use Rattle.myi_dellist.specs.declared.linked.ReleasePlan.{ReleasePlan};
ghost use Rattle.myi_dellist.specs.Freeing.{hole_in, plan_in, plan_bytes};
ghost use Rattle.myi_dellist.specs.FreeList.{ListState, HasHoles, IsLong, MayRelease};
ghost use Rattle.myi_frames.specs.declared.head.Head.{Head};
ghost use Rattle.myi_dellist.specs.Several.{heads_in, heads_written, release_ones, release_ones_bytes, parts_of, MayReleaseAll};
ghost use Rattle.myi_dellist.specs.Putting.{PutBad, PutLong};
ghost use Rattle.myi_dellist.specs.declared.linked.Linked.{Linked};
ghost use Rattle.myi_dellist.specs.Freeing.{unlinked_bytes};
ghost use Rattle.myi_dellist.specs.Merging.{merged_size, merged, merged_bytes, merge_in, head_past};
ghost use Rattle.myi_dellist.specs.Order.{in_order, Follow};
ghost use Rattle.myi_dellist.specs.RowBlocks.{row_blocks, HoldRow};
ghost use Rattle.myi_dellist.specs.Rows.{KeepsApart, PutsRow, AreListedBehind, most_end};
ghost use Rattle.myi_dellist.specs.Replacing.{FitsInOwn, own_bytes, OwnLong, RewriteFindsBad};
ghost use Rattle.myi_dellist.specs.Chains.{areas_in, StandsIn};
ghost use Rattle.myi_dellist.specs.Freed.{RowFindsBad};

/// Areas tile a file, by the count of bytes below each place, exactly where no byte belongs to two of
/// them, none to one behind the end, and each byte below it to one.
pub fn tiling_is_counting()
    ensures counted { (end : ℕ) (areas : List Area) → AreApart areas → AreInside end areas
        → ((p : ℕ) → p < end → Holds p areas) → Tile end areas }
    ensures apart { (end : ℕ) (areas : List Area) → HaveBytes areas → Tile end areas
        → AreApart areas }
    ensures inside { (end : ℕ) (areas : List Area) → HaveBytes areas → Tile end areas
        → AreInside end areas }
    ensures holds { (end : ℕ) (areas : List Area) → Tile end areas
        → (p : ℕ) → p < end → Holds p areas }
{}

/// What is released is deleted afterwards, byte for byte, and nothing else is, whatever is joined: so
/// where rows, what is released and what is deleted tile a file, rows and what is deleted tile it
/// afterwards. Each area on the list stays one that a deleted block can be.
pub fn released_areas_are_deleted()
    ensures bytes { (p : ℕ) (a : Area) (holes : List Area)
        → bytes_below p (release a holes) ≡ below p a + bytes_below p holes }
    ensures tile { (end : ℕ) (own others holes : List Area) → Tile end (others ++ (own ++ holes))
        → Tile end (others ++ release_all own holes) }
    ensures sizes { (areas holes : List Area) → AllByRecursion IsFreeable areas
        → AllByRecursion IsHole holes → AllByRecursion IsHole (release_all areas holes) }
{}

/// A row of `len` bytes in place of one with these blocks, or of none: its blocks take exactly its
/// bytes. Where other rows, the old blocks and the deleted ones tile the file, the other rows, the new
/// blocks and the deleted ones tile it afterwards. The file does not become shorter. Each area on the
/// list stays one that a deleted block can be.
pub fn placed_rows_tile()
    ensures counts { (s : Space) (own : List Area) (len : ℕ)
        → AllByRecursion IsFreeable own → AllByRecursion IsHole s.holes
        → taken_by (update s own len).pieces ≡ len }
    ensures grows { (s : Space) (own : List Area) (len : ℕ)
        → AllByRecursion IsFreeable own → AllByRecursion IsHole s.holes
        → s.end ≤ (update s own len).space.end }
    ensures tile { (s : Space) (own others : List Area) (len : ℕ)
        → AllByRecursion IsFreeable own → AllByRecursion IsHole s.holes
        → Tile s.end (others ++ (own ++ s.holes))
        → Tile (update s own len).space.end
        (others ++ (areas_of (update s own len).pieces ++ (update s own len).space.holes)) }
    ensures sizes { (s : Space) (own : List Area) (len : ℕ) → 0 < len → s.end % 4 ≡ 0
        → AllByRecursion IsFreeable own → AllByRecursion IsHole s.holes
        → AllByRecursion IsHole (update s own len).space.holes }
{}

/// Each block of a placed row can be written with the row bytes that it takes: as a whole row where it
/// is the only one, and else as a start and middles that are filled, and an end.
pub fn placed_blocks_can_be_written()
    ensures { (s : Space) (own : List Area) (len : ℕ) → 0 < len → len < 2 ^ 32 → s.end % 4 ≡ 0
        → AllByRecursion IsFreeable own → AllByRecursion IsHole s.holes
        → AreInside s.end own → AreInside s.end s.holes → (update s own len).space.end < 2 ^ 64
        → AreWritable (specs_of len (update s own len).pieces) (update s own len).pieces }
{}

/// A row that is updated keeps its place. A new one has the place of the head of the deleted list, or
/// the end where nothing is deleted.
pub fn rows_have_their_places()
    ensures updated { (s : Space) (a : Area) (own : List Area) (len : ℕ)
        → place_of (update s (a ∷ own) len).pieces ≡ Some a.at }
    ensures inserted { (s : Space) (len : ℕ) → 0 < len
        → place_of (place s [] len).pieces ≡ Some (next_place s.holes s.end) }
{}

/// The deleted list in a file's bytes. A block that is taken off it, and an area that is released, leave
/// the list that the definitions on lists say, and change no byte but the first 20 of the blocks that
/// are on it then. So each block that has none of these stands as before.
pub fn lists_stand_in_files()
    ensures taken_off { (d : List ℕ) (before : List Area) (h : Area) (behind : List Area)
        → HasList d (before ++ h ∷ behind)
        → LeavesList (before ++ behind) d (without_block before behind d) }
    ensures released { (d : List ℕ) (a : Area) (holes : List Area) → IsFreeable a
        → a.at + a.size ≤ length d → AllByRecursion (IsApart a) holes → HasList d holes
        → LeavesList (release a holes) d (release_bytes a holes d) }
    ensures others { (holes : List Area) (d e : List ℕ) (p : ℕ) (b : Block) → KeepsBut holes d e
        → AllByRecursion (λ a. (p + b.size ≤ a.at) ⊎ (a.at + 20 ≤ p)) holes
        → block_of d p ≡ Some b → block_of e p ≡ Some b }
{}

/// In a file that has a list, each block that a release reads is what the list needs there, and what it
/// writes is what the definitions on lists say; so it never finds such a file damaged.
pub fn releases_find_their_list()
    ensures { (d : List ℕ) (a : Area) (holes : List Area) → HasList d holes → MayRelease a holes d
        → (p : ReleasePlan) × (plan_in (hole_in d) (first_or holes None) a.at a.size ≡ Ok p)
        × (plan_bytes p a.at a.size d ≡ release_one_bytes a holes d) }
{}

/// Areas that are released one after another, where all is read before anything is written: in a file
/// that has a list each block that is read is what the list needs there, and the headers that are written
/// leave the list that the definitions on lists say. What is apart from the list and from the areas
/// stays.
pub fn several_releases_find_their_list()
    ensures found { (d : List ℕ) (areas holes : List Area) → HasList d holes
        → MayReleaseAll areas holes d
        → (heads : List Head) × (heads_in (hole_in d) (first_or holes None) areas ≡ Ok heads)
        × ((e : List ℕ) → heads_written heads e ≡ release_ones_bytes areas holes e) }
    ensures list { (d : List ℕ) (areas holes : List Area) → HasList d holes
        → MayReleaseAll areas holes d → AreInside (length d) areas
        → HasList (release_ones_bytes areas holes d) (release_ones areas holes) }
    ensures keeps { (d : List ℕ) (areas holes : List Area) → HasList d holes
        → MayReleaseAll areas holes d → AreInside (length d) areas
        → KeepsApart (areas ++ holes) d (release_ones_bytes areas holes d) }
    ensures parts { (areas holes : List Area)
        → release_ones (flat_map parts_of areas) holes ≡ release_all areas holes }
{}

/// A row that ends in a block of the row in whose place it is put stands in that row's blocks. Exactly
/// its blocks are written, and the headers of deleted blocks that releases of what it leaves of the old
/// ones write, which are planned from the file as it stood: so all can be read before anything is written.
pub fn rows_fit_into_their_own_blocks()
    ensures { (l k : ListState) (row d : List ℕ) (a : Area) (own holes : List Area)
        (heads : List Head) → FitsInOwn l k row d (a ∷ own) holes heads
        → PutsRow k ((a ∷ own) ++ holes)
        (update (record { holes = holes; end = l.end }) (a ∷ own) (length row)) row a.at d
        (own_bytes row (a ∷ own) heads d) }
{}

/// An area that takes in the deleted block behind it has that block's bytes then, and the list has them
/// no more.
pub fn merged_areas_take_bytes()
    ensures { (p : ℕ) (a : Area) (holes : List Area)
        → below p (record { at = a.at; size = merged_size a holes })
        + bytes_below p (merged a holes)
        ≡ below p a + bytes_below p holes }
{}

/// In a file that has a list, each block that is read for taking in the deleted block behind an area is
/// what the list needs there, and what is written leaves the list without that block.
pub fn merges_find_their_list()
    ensures { (d : List ℕ) (a : Area) (holes : List Area) → HasList d holes → MayRelease a holes d
        → (j : Option Linked) × (merge_in (hole_in d) (first_or holes None) a.at a.size ≡ Ok j)
        × (head_past (first_or holes None) j ≡ first_or (merged a holes) None)
        × (unlinked_bytes j d ≡ merged_bytes a holes d)
        × LeavesList (merged a holes) d (merged_bytes a holes d) }
{}

/// Areas tile a file exactly where they follow one another, once they are in order of place.
pub fn tiling_is_following()
    ensures follow { (end : ℕ) (areas : List Area) → HaveBytes areas → Tile end areas
        → Follow end 0 (in_order areas) }
    ensures tile { (end : ℕ) (areas : List Area) → Follow end 0 (in_order areas) → Tile end areas }
{}

/// The blocks of a placed row are one chain from the row's place: each names the next, each holds a byte
/// of the row, and together they hold the row in order.
pub fn placed_rows_are_chains()
    ensures placed { (s : Space) (own : List Area) (row : List ℕ) → 0 < length row
        → s.end % 4 ≡ 0 → AllByRecursion IsFreeable own → AllByRecursion IsHole s.holes
        → HoldRow (place_of (update s own (length row)).pieces) row
        (row_blocks (update s own (length row)).pieces row) }
    ensures at_end { (s : Space) (row : List ℕ) → 0 < length row → s.end % 4 ≡ 0
        → HoldRow (place_of (place_at_end s (length row)).pieces) row
        (row_blocks (place_at_end s (length row)).pieces row) }
{}

/// The deleted list once its first blocks are taken: the next one is its head, and names none before it
/// then. Bytes that are written apart from the list, also behind the file's end, leave it.
pub fn taken_blocks_leave_their_list()
    ensures taken { (d : List ℕ) (taken holes : List Area) → HasList d (taken ++ holes)
        → LeavesList holes d (with_prev holes None None d) }
    ensures elsewhere { (d bytes : List ℕ) (at : ℕ) (holes : List Area) → HasList d holes
        → at + length bytes < 2 ^ 64
        → AllByRecursion (IsApart (record { at = at; size = length bytes })) holes
        → HasList (overwritten at bytes d) holes }
{}

/// A row of `len` bytes behind the end: its blocks take exactly its bytes, and stand from the end on. What
/// tiles the file tiles it afterwards with them, and the deleted list stays.
pub fn appended_rows_tile()
    ensures counts { (s : Space) (len : ℕ) → 0 < len → taken_by (place_at_end s len).pieces ≡ len }
    ensures grows { (s : Space) (len : ℕ) → 0 < len → s.end ≤ (place_at_end s len).space.end }
    ensures tile { (s : Space) (others : List Area) (len : ℕ) → 0 < len
        → Tile s.end (others ++ s.holes)
        → Tile (place_at_end s len).space.end
        (others ++ (areas_of (place_at_end s len).pieces ++ s.holes)) }
    ensures place { (s : Space) (len : ℕ) → 0 < len
        → place_of (place_at_end s len).pieces ≡ Some s.end }
{}

/// Each block of a placed row is an area that may be released again.
pub fn placed_blocks_can_be_released()
    ensures placed { (s : Space) (own : List Area) (len : ℕ) → 0 < len → s.end % 4 ≡ 0
        → AllByRecursion IsFreeable own → AllByRecursion IsHole s.holes
        → AllByRecursion IsFreeable (areas_of (update s own len).pieces) }
    ensures at_end { (s : Space) (len : ℕ) → 0 < len → s.end % 4 ≡ 0
        → AllByRecursion IsFreeable (areas_of (place_at_end s len).pieces) }
{}

/// A row that is put leaves each block that is apart from the row's blocks and from the deleted ones,
/// before and after.
pub fn put_rows_leave_the_rest()
    ensures { (areas : List Area) (d e : List ℕ) (p : ℕ) (b : Block) → KeepsApart areas d e
        → AllByRecursion (IsApart (record { at = p; size = b.size })) areas
        → block_of d p ≡ Some b → block_of e p ≡ Some b }
{}

/// In a file that has a list, where each deleted block directly behind one of the list is on it, each
/// block that is read for a row that is put is what the list needs there: none is found damaged. And where
/// the list ends before the row does, the file would end where the definition on lists says.
pub fn rows_find_their_list()
    ensures long { (l : ListState) (holes : List Area) (d : List ℕ) (len limit : ℕ) → 0 < len
        → HasHoles l holes d → PutLong d l.head l.end limit len
        → limit ≤ (place (record { holes = holes; end = l.end }) [] len).space.end }
    ensures sound { (l : ListState) (holes : List Area) (d : List ℕ) (len at : ℕ) → HasHoles l holes d
        → AreListedBehind holes holes d → PutBad d l.head len at → ⊥ }
{}

/// A row that stands in a file that has a list, in blocks behind which each deleted block is on the list, is
/// never found damaged: each block that is read for its release, or for a row that is put in its place, is
/// what its chain or the list needs there. And where such a row fills its blocks and the list, the file would
/// end where the definition on lists says.
pub fn standing_rows_are_found()
    ensures released { (l : ListState) (at p : ℕ) (m : Holding) (row : List ℕ) (bs : List Block)
        (holes : List Area) → HasHoles l holes (bytes_of l.name m)
        → StandsIn (bytes_of l.name m) at row bs holes
        → AreListedBehind (areas_in bs) holes (bytes_of l.name m) → RowFindsBad l at p m → ⊥ }
    ensures rewritten { (l : ListState) (at len p : ℕ) (m : Holding) (old : List ℕ)
        (bs : List Block) (holes : List Area) → 0 < len → IsLong l m
        → HasHoles l holes (bytes_of l.name m) → StandsIn (bytes_of l.name m) at old bs holes
        → AreListedBehind (areas_in bs ++ holes) holes (bytes_of l.name m)
        → RewriteFindsBad l at len p m → ⊥ }
    ensures long { (l : ListState) (at len : ℕ) (m : Holding) (old : List ℕ) (bs : List Block)
        (holes : List Area) → 0 < len → IsLong l m → HasHoles l holes (bytes_of l.name m)
        → StandsIn (bytes_of l.name m) at old bs holes → OwnLong l at len m
        → most_end l ≤ (update (record { holes = holes; end = l.end }) (areas_in bs) len).space.end }
{}
