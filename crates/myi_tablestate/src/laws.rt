//! Laws over tables with keys. Each is the contract of a function that does nothing, so that it is proved with
//! the crate and stands for the crates above.
ghost use Rattle.std.specs.Prelude.{◌≡◌, ◌≢◌, ℕ, true, false, List, length, Option, Some, None, Result, Ok, Err, IsSorted, option_map, map};
ghost use Rattle.std.specs.List.{AllByRecursion};
ghost use Rattle.std.specs.List.Sorted.{IsStrictlySortedBy};
ghost use Rattle.myi_base.specs.Numbers.{AreBytes};
ghost use Rattle.myi_defs.specs.declared.types.Defs.{Defs};
ghost use Rattle.myi_defs.specs.Addressable.{is_addressable};
ghost use Rattle.myi_defs.specs.Sound.{IsSound};
ghost use Rattle.myi_pack.specs.Packed.{Values};
ghost use Rattle.myi_keys.specs.Limits.{is_complete};
ghost use Rattle.myi_keylist.specs.PairOrder.{pair_cmp, put_pair};
ghost use Rattle.myi_insertion.specs.Removal.{without_pair, has_pair};
ghost use Rattle.myi_search.specs.Least.{IsLeastRow};
ghost use Rattle.myi_dellist.specs.Standing.{first_or};
ghost use Rattle.myi_data.specs.Keys.{IsKeyNumber, key_of};
ghost use Rattle.myi_state.specs.State.{StoredRow, TableState, empty_table, row_at, rows_without, put_row};
ghost use Rattle.myi_state.specs.Changes.{Change, insert, insert_at_end, delete, update, Refusal, accepted, step, replay, lacks_row, lacks_room};
ghost use Rattle.myi_state.specs.Sound.{IsState, MayCome};
ghost use Rattle.myi_state.specs.Standing.{StandsFor};
ghost use Rattle.myi_pair.specs.FirstRows.{is_unique};
ghost use Rattle.myi_pair.specs.KeyList.{pointer};
ghost use Rattle.myi_pair.specs.Clean.{IsClean, IsCovered, ListsDeleted};
ghost use Rattle.myi_tablestate.specs.Keyed.{IsTable, Holder, holder, lacks_key, KeyedRefusal, without_keys, by_holder, keyed_refusal, keyed_step, after_keyed, keyed_history};
ghost use Rattle.myi_tablestate.specs.Listed.{pair_at, pair_of_row, listed, position};
ghost use Rattle.myi_tablestate.specs.Standing.{StandForTable};

use myi_chain::{chains_are_found, rows_are_met};
use myi_data::rows_are_readable;
use myi_state::{standing_files_are_read, states_count_their_files};

/// A change that is accepted leads from a table to a table, and so does a step. A table without rows is one.
pub fn keyed_changes_keep_tables()
    ensures empty { (d : Defs) → IsTable d empty_table }
    ensures accepted { (d : Defs) (s : TableState) (c : Change) → IsSound d → MayCome d c
        → IsTable d s → lacks_key d s c ≡ None → IsTable d (accepted d s c).state }
    ensures step { (d : Defs) (s : TableState) (c : Change) → IsSound d → MayCome d c
        → IsTable d s → IsTable d (keyed_step d s c).state }
{}

/// A refusal leaves the table, and a change is refused for the first of its reasons alone: that no row stands at
/// the position; then that another row has a complete key of it in a unique key; and then that row pointers
/// would not reach the whole file.
pub fn keyed_refusals_come_in_order()
    ensures left { (d : Defs) (s : TableState) (c : Change) (r : KeyedRefusal)
        → (keyed_step d s c).reply ≡ Err r → (keyed_step d s c).state ≡ s }
    ensures row { (d : Defs) (s : TableState) (c : Change) (r : Refusal) → lacks_row s c ≡ Some r
        → (keyed_step d s c).reply ≡ Err (without_keys r) }
    ensures key { (d : Defs) (s : TableState) (c : Change) (h : Holder) → lacks_row s c ≡ None
        → lacks_key d s c ≡ Some h → (keyed_step d s c).reply ≡ Err (by_holder h) }
    ensures room { (d : Defs) (s : TableState) (c : Change) (r : Refusal) → lacks_row s c ≡ None
        → lacks_key d s c ≡ None → lacks_room d s c ≡ Some r
        → (keyed_step d s c).reply ≡ Err (without_keys r) }
    ensures free { (d : Defs) (s : TableState) (c : Change) → lacks_row s c ≡ None
        → lacks_key d s c ≡ None → lacks_room d s c ≡ None → keyed_refusal d s c ≡ None }
    ensures accepted { (d : Defs) (s : TableState) (c : Change) → keyed_refusal d s c ≡ None
        → ((keyed_step d s c).reply ≡ Ok (accepted d s c).at)
        × ((keyed_step d s c).state ≡ (accepted d s c).state) }
{}

/// Where no other row has the row's complete key in a unique key, a step is the step without keys: it has its reply and its
/// state. A step that is refused for its position is so with keys too.
pub fn keyed_steps_are_steps()
    ensures made { (d : Defs) (s : TableState) (c : Change) (at : ℕ) → lacks_key d s c ≡ None
        → (step d s c).reply ≡ Ok at → ((keyed_step d s c).reply ≡ Ok at)
        × ((keyed_step d s c).state ≡ (step d s c).state) }
    ensures refused { (d : Defs) (s : TableState) (c : Change) (r : Refusal) → lacks_key d s c ≡ None
        → (step d s c).reply ≡ Err r → (keyed_step d s c).reply ≡ Err (without_keys r) }
{}

/// The pairs of a table are in order, no two alike, and the position of a row is found again from its pointer.
pub fn key_lists_are_in_order()
    ensures pointed { (d : Defs) (s : TableState) → IsSound d → IsState d s
        → AllByRecursion (λ (r : StoredRow). position d (pointer d r.at) ≡ r.at) s.rows }
    ensures strict { (d : Defs) (s : TableState) (k : ℕ) → IsSound d → IsState d s
        → IsStrictlySortedBy pair_cmp (listed d k s.rows) }
{}

/// The pairs of a table, where a row comes, goes or gets other values: the row's pair is put in, or taken out,
/// or taken out and the new one put in, which changes nothing where the key is as before.
pub fn key_lists_follow()
    ensures inserted { (d : Defs) (s : TableState) (k : ℕ) (values : Values) → IsSound d
        → IsState d s → listed d k (accepted d s (insert values)).state.rows
        ≡ put_pair (pair_at d k (accepted d s (insert values)).at values) (listed d k s.rows) }
    ensures appended { (d : Defs) (s : TableState) (k : ℕ) (values : Values) → IsSound d
        → IsState d s → listed d k (accepted d s (insert_at_end values)).state.rows
        ≡ put_pair (pair_at d k (accepted d s (insert_at_end values)).at values) (listed d k s.rows) }
    ensures deleted { (d : Defs) (s : TableState) (k at : ℕ) (r : StoredRow) → IsSound d
        → IsState d s → row_at at s.rows ≡ Some r
        → listed d k (accepted d s (delete at)).state.rows
        ≡ without_pair (pair_of_row d k r) (listed d k s.rows) }
    ensures there { (d : Defs) (s : TableState) (k at : ℕ) (r : StoredRow) → IsSound d
        → IsState d s → row_at at s.rows ≡ Some r
        → has_pair (pair_of_row d k r) (listed d k s.rows) ≡ true }
    ensures updated { (d : Defs) (s : TableState) (k at : ℕ) (values : Values) (r : StoredRow)
        → IsSound d → IsState d s → row_at at s.rows ≡ Some r
        → listed d k (accepted d s (update at values)).state.rows
        ≡ put_pair (pair_at d k at values) (without_pair (pair_of_row d k r) (listed d k s.rows)) }
    ensures same { (d : Defs) (s : TableState) (k at : ℕ) (values : Values) (r : StoredRow)
        → IsSound d → IsState d s → row_at at s.rows ≡ Some r
        → key_of d k values ≡ key_of d k r.values
        → listed d k (accepted d s (update at values)).state.rows ≡ listed d k s.rows }
{}

/// Whether a row repeats another in a key is read off the least row of its key in the key's tree. Where the key
/// is not complete, or not unique, no row is asked for. The row that is updated is the only one that may have
/// its own key.
pub fn duplicates_are_found()
    ensures plain { (d : Defs) (values : Values) (k : ℕ) (rows : List StoredRow)
        → is_unique d k ≡ false → holder d values k rows ≡ None }
    ensures absent { (d : Defs) (values : Values) (k : ℕ) (rows : List StoredRow)
        → is_complete (key_of d k values) ≡ false → holder d values k rows ≡ None }
    ensures found { (d : Defs) (s : TableState) (values : Values) (k : ℕ) (least : Option ℕ)
        → IsSound d → IsTable d s → IsKeyNumber d k
        → is_unique d k ≡ true → is_complete (key_of d k values) ≡ true
        → IsLeastRow (key_of d k values) (listed d k s.rows) least
        → holder d values k s.rows ≡ option_map (position d) least }
    ensures other { (d : Defs) (s : TableState) (values : Values) (k at p : ℕ)
        → IsSound d → IsTable d s → IsKeyNumber d k
        → is_unique d k ≡ true → is_complete (key_of d k values) ≡ true
        → IsLeastRow (key_of d k values) (listed d k s.rows) (Some p) → position d p ≢ at
        → holder d values k (rows_without at s.rows) ≡ Some (position d p) }
    ensures own { (d : Defs) (s : TableState) (values : Values) (k at p : ℕ)
        → IsSound d → IsTable d s → IsKeyNumber d k
        → is_unique d k ≡ true → is_complete (key_of d k values) ≡ true
        → IsLeastRow (key_of d k values) (listed d k s.rows) (Some p) → position d p ≡ at
        → holder d values k (rows_without at s.rows) ≡ None }
    ensures none { (d : Defs) (s : TableState) (values : Values) (k at : ℕ)
        → IsSound d → IsTable d s → IsKeyNumber d k
        → is_unique d k ≡ true → is_complete (key_of d k values) ≡ true
        → IsLeastRow (key_of d k values) (listed d k s.rows) None
        → holder d values k (rows_without at s.rows) ≡ None }
{}

/// The accepted ones of a list of changes, made again without being tested, lead to the same state.
pub fn keyed_histories_are_replayed()
    ensures { (d : Defs) (s : TableState) (changes : List Change)
        → replay d s (keyed_history d s changes) ≡ after_keyed d s changes }
{}

/// A data file of which every byte belongs to a block of a row or to a deleted block, and whose list of deleted
/// blocks has each of them once, stands for a state: one whose list is that of the file.
pub fn listed_files_stand()
    ensures { (d : Defs) (b : List ℕ) (head : Option ℕ) → IsSound d → AreBytes b
        → is_addressable d (length b) ≡ true → IsCovered d b → ListsDeleted d b head
        → (s : TableState) × StandsFor d s b × (first_or s.space.holes None ≡ head) }
{
    chains_are_found();
    rows_are_met();
    rows_are_readable();
}

/// A pair of files that stands for a table is clean, and a clean one stands for exactly one table.
pub fn clean_pairs_stand_for_tables()
    ensures clean { (d : Defs) (s : TableState) (b x : List ℕ) → IsSound d
        → StandForTable d s b x → IsClean b x }
    ensures stands { (b x : List ℕ) → AreBytes b → (c : IsClean b x)
        → (s : TableState) × StandForTable c.defs s b x }
    ensures once { (d : Defs) (s t : TableState) (b x : List ℕ) → IsSound d
        → StandForTable d s b x → StandForTable d t b x → s ≡ t }
{
    chains_are_found();
    rows_are_met();
    rows_are_readable();
    standing_files_are_read();
    states_count_their_files();
}
