//! Laws over the definitions of this crate. Each is the contract of a function that does nothing, so
//! that it is proved with the crate and stands for the crates above.
ghost use Rattle.std.specs.Prelude.{◌≡◌, ◌++◌, ◌∷◌, ℕ, Bool, false, List, [], length, map, replicate};
ghost use Rattle.std.specs.List.{filter};
ghost use Rattle.myi_defs.specs.declared.types.Defs.{Defs};
ghost use Rattle.myi_keylist.specs.declared.pair.Pair.{Pair};
ghost use Rattle.myi_keylist.specs.PairOrder.{sorted};
ghost use Rattle.myi_keylist.specs.FirstBy.{first_by, repeats_in};
ghost use Rattle.myi_keylist.specs.Classes.{picked};
ghost use Rattle.myi_keylist.specs.Columns.{AreRising, AreRisingAt, has_flag, pointed};
ghost use Rattle.myi_data.specs.Stored.{SizedRow};
ghost use Rattle.myi_rowkeys.specs.TableKeys.{row_keys, unique_keys};
ghost use Rattle.myi_rowkeys.specs.RowLists.{with_pairs, sorted_unique, any_repeat};
ghost use Rattle.myi_rowkeys.specs.RowLists.{number_pairs, pointer_pairs, AreNumberLists};

/// Rows that come one after the other, each with the number of those before it, have the pairs of all rows
/// with their numbers.
pub fn number_lists_go_on()
    ensures none { (d : Defs) → number_pairs d [] ≡ replicate (length d.keys) [] }
    ensures next { (d : Defs) (rows : List SizedRow) (row : SizedRow)
        → with_pairs (length rows) (row_keys d row.values) (number_pairs d rows)
        ≡ number_pairs d (rows ++ row ∷ []) }
{}

/// Once the lists of unique keys are sorted, rows that repeat each other are found in them.
pub fn sorted_lists_are_number_lists()
    ensures { (d : Defs) (rows : List SizedRow)
        → AreNumberLists d rows (sorted_unique d.keys (number_pairs d rows)) }
{}

/// Where no list of a unique key has a complete key twice, one behind the other, all rows are kept.
pub fn rows_without_repeats_are_kept()
    ensures { (d : Defs) (rows : List SizedRow) (lists : List (List Pair))
        → AreNumberLists d rows lists → any_repeat d.keys lists ≡ false
        → first_by (repeats_in (unique_keys d)) rows ≡ rows }
{}

/// Numbers become pointers: where the pointers rise, the lists are in any order those of the rows with
/// their pointers; the same of the rows with a set flag, once the other rows are taken out.
pub fn number_lists_become_pointer_lists()
    ensures all { (d : Defs) (rows : List SizedRow) (lists : List (List Pair)) (pointers : List ℕ)
        → AreNumberLists d rows lists → length pointers ≡ length rows → AreRising pointers
        → map sorted (map (map (pointed pointers)) lists)
        ≡ map sorted (pointer_pairs d rows pointers) }
    ensures kept { (d : Defs) (rows : List SizedRow) (lists : List (List Pair))
        (flags : List Bool) (pointers : List ℕ)
        → AreNumberLists d rows lists → length flags ≡ length rows
        → length pointers ≡ length rows → AreRisingAt flags pointers
        → map sorted (map (map (pointed pointers)) (map (filter (has_flag flags)) lists))
        ≡ map sorted (pointer_pairs d (picked flags rows) (picked flags pointers)) }
{}
