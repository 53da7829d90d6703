//! Laws over the definitions of this crate. Each is the contract of a function that does nothing, so
//! that it is proved with the crate and stands for the crates above.
ghost use Rattle.std.specs.Prelude.{◌≡◌, ◌<◌, ◌++◌, ◌∷◌, ℕ, Bool, false, List, [], length, map};
ghost use Rattle.std.specs.Prelude.{slice_index_or, IsPermutation, IsSorted};
ghost use Rattle.std.specs.Cmp.{IsTotalOrder};
ghost use Rattle.myi_keylist.specs.declared.pair.Pair.{Pair};
ghost use Rattle.myi_keylist.specs.PairOrder.{pair_cmp, sorted};
ghost use Rattle.myi_keylist.specs.Repeats.{has_repeat, AreApart, keys_of};
ghost use Rattle.myi_keylist.specs.Classes.{Columns, AreBelow, share_class, AreClasses};
ghost use Rattle.myi_keylist.specs.Classes.{class_flags, picked};
ghost use Rattle.std.specs.List.{AllByRecursion, filter};
ghost use Rattle.myi_keylist.specs.Columns.{IsColumn, AreColumns, key_by_number};
ghost use Rattle.myi_keylist.specs.Columns.{AreRising, AreRisingAt, has_flag, pointed};
ghost use Rattle.myi_keylist.specs.Columns.{numbered, pairs_with};
ghost use Rattle.myi_keylist.specs.FirstBy.{KeyOf, first_by, repeats_in, AreDistinctIn};

use crate::pair::Pair;

/// The order of pairs is total, and it is the one that pairs have as a type. Sorting pairs keeps them and
/// puts them in order, and there is one list in order with these pairs: what any other way of sorting
/// leaves is the same list.
pub fn pairs_are_sorted()
    ensures total { IsTotalOrder pair_cmp }
    ensures own { (one other : Pair) → ⟦<Pair as Ord>⟧.cmp one other ≡ pair_cmp one other }
    ensures permuted { (pairs : List Pair) → IsPermutation pairs (sorted pairs) }
    ensures ascending { (pairs : List Pair) → IsSorted pair_cmp (sorted pairs) }
    ensures once { (pairs list : List Pair)
        → IsPermutation pairs list → IsSorted pair_cmp list → list ≡ sorted pairs }
{}

/// In a list in order equal keys stand together: where two pairs have one key, all between them have it.
pub fn equal_keys_stand_together()
    ensures { (pairs : List Pair) (i j k : ℕ) (other : Pair) → IsSorted pair_cmp pairs
        → i < j → j < k → k < length pairs
        → (slice_index_or pairs i other).key ≡ (slice_index_or pairs k other).key
        → (slice_index_or pairs j other).key ≡ (slice_index_or pairs i other).key }
{}

/// Where a list in order has no complete key twice, one behind the other, no two of the pairs have one.
pub fn repeats_are_neighbours()
    ensures { (pairs : List Pair)
        → has_repeat (sorted pairs) ≡ false → AreApart [] (keys_of pairs) }
{}

/// Where no two rows, by their numbers, have one complete key in a unique key, all rows are kept.
pub fn distinct_rows_are_kept()
    ensures { (keys : List (KeyOf ℕ)) (rows : List ℕ)
        → AreDistinctIn keys rows → first_by (repeats_in keys) rows ≡ rows }
{}

/// Rows that are kept by class numbers are the first rows: where two rows, which stand here for theirs by
/// numbers, share a class number exactly where one repeats the other, the rows whose flag is set are those
/// that repeat none kept before.
pub fn class_numbers_decide()
    ensures { (repeats : ℕ → ℕ → Bool) (rows : List ℕ) (columns : Columns)
        → AreClasses repeats rows columns
        → picked (class_flags columns (length rows)) rows ≡ first_by repeats rows }
{}

/// Row numbers become row pointers: where the pointers rise, what a sorted list becomes is the sorted list
/// of what the pairs become.
pub fn rising_pointers_keep_order()
    ensures { (pointers : List ℕ) (pairs : List Pair) → AreRising pointers
        → AllByRecursion (λ (p : Pair). p.row < length pointers) pairs
        → sorted (map (pointed pointers) pairs) ≡ map (pointed pointers) (sorted pairs) }
{}

/// The same of the rows that are kept: where the pointers of rows with a set flag rise, what a sorted list
/// without the other rows becomes is the sorted list of what their pairs become.
pub fn kept_pointers_keep_order()
    ensures { (flags : List Bool) (pointers : List ℕ) (pairs : List Pair)
        → AreRisingAt flags pointers
        → sorted (map (pointed pointers) (filter (has_flag flags) pairs))
        ≡ map (pointed pointers) (filter (has_flag flags) (sorted pairs)) }
{}

/// What the sorted list of all rows in a key becomes, where the rows that are not kept are taken out and the
/// others have pointers that rise: the sorted list of the kept rows with their pointers.
pub fn kept_rows_are_listed()
    ensures { (key : KeyOf ℕ) (rows : List ℕ) (some : ℕ) (flags : List Bool) (pointers : List ℕ)
        → length flags ≡ length rows → length pointers ≡ length rows
        → AreRisingAt flags pointers → map (pointed pointers) (filter (has_flag flags)
        (sorted (numbered (key_by_number rows some key) (length rows))))
        ≡ sorted (pairs_with key (picked flags rows) (picked flags pointers)) }
{}

/// Columns of unique keys, one behind the other, are class numbers: two rows share one exactly where one
/// repeats the other's complete key.
pub fn columns_are_classes()
    ensures { (keys : List (KeyOf ℕ)) (rows taken last : ℕ) (columns : Columns)
        → AreColumns keys rows taken last columns → (i j : ℕ) → i < rows → j < rows
        → repeats_in keys i j ≡ share_class columns i j }
{}

/// Behind the columns of some keys the column of one more may stand, whose numbers go on.
pub fn columns_go_on()
    ensures { (keys : List (KeyOf ℕ)) (key : KeyOf ℕ) (rows taken last next : ℕ)
        (columns : Columns) (numbers : List ℕ)
        → AreColumns keys rows taken last columns → IsColumn key rows last next numbers
        → AreColumns (keys ++ key ∷ []) rows taken next (columns ++ numbers ∷ []) }
{}

/// Of a list of rows, by their places in it: the numbers in the columns of its unique keys are below each
/// end that is above the last, and the rows that are kept by them are the first rows.
pub fn columns_keep_first_rows()
    ensures below { (keys : List (KeyOf ℕ)) (rows taken last end : ℕ) (columns : Columns)
        → AreColumns keys rows taken last columns → last < end → AreBelow end columns }
    ensures kept { (keys : List (KeyOf ℕ)) (rows : List ℕ) (some taken last : ℕ)
        (columns : Columns)
        → AreColumns (map (key_by_number rows some) keys) (length rows) taken last columns
        → picked (class_flags columns (length rows)) rows ≡ first_by (repeats_in keys) rows }
{}
