//! Laws over states and changes. Each is the contract of a function that does nothing, so that it is proved
//! with the crate and stands for the crates above.
ghost use Rattle.std.specs.Prelude.{◌≡◌, ◌≢◌, ℕ, ◌<◌, ◌≤◌, ◌-◌, false, List, [], length, map, sum_by, Option, Some, None, Result, Ok, Err};
ghost use Rattle.myi_base.specs.Ranges.{Range};
ghost use Rattle.myi_defs.specs.declared.types.Defs.{Defs};
ghost use Rattle.myi_defs.specs.Sound.{IsSound};
ghost use Rattle.myi_pack.specs.Packed.{Values};
ghost use Rattle.myi_chain.specs.Meeting.{ranges_of};
ghost use Rattle.myi_dellist.specs.Order.{in_order};
ghost use Rattle.myi_data.specs.Readable.{readable, deleted};
ghost use Rattle.myi_state.specs.State.{StoredRow, TableState, empty_table, row_areas, row_at};
ghost use Rattle.myi_state.specs.Changes.{Change, insert, insert_at_end, delete, update, Refusal, accepted, refusal, step, replay, after_steps, history, lacks_row, lacks_room};
ghost use Rattle.myi_state.specs.Sound.{IsState, MayCome, HasValues};
ghost use Rattle.myi_state.specs.Numbers.{counts_of};
ghost use Rattle.myi_state.specs.Standing.{StandsFor, range_of_area, stored_row};

use myi_chain::{chains_are_found, sound_files_are_read};

/// A change that is accepted leads from a state of a table to one: the rows stay in order of their
/// positions, and the blocks of rows and the deleted ones go on tiling the file. So does a step. A table
/// without rows has a state.
pub fn changes_keep_states()
    ensures empty { (d : Defs) → IsState d empty_table }
    ensures accepted { (d : Defs) (s : TableState) (c : Change) → IsSound d → MayCome d c
        → IsState d s → IsState d (accepted d s c).state }
    ensures step { (d : Defs) (s : TableState) (c : Change) → IsSound d → MayCome d c
        → IsState d s → IsState d (step d s c).state }
{}

/// A new row stands where no row stood.
pub fn new_rows_have_free_places()
    ensures next { (d : Defs) (s : TableState) (values : Values) → IsSound d → IsState d s
        → row_at (accepted d s (insert values)).at s.rows ≡ None }
    ensures end { (d : Defs) (s : TableState) (values : Values) → IsSound d → IsState d s
        → row_at (accepted d s (insert_at_end values)).at s.rows ≡ None }
{}

/// A change leaves each row at another position as it was, with its blocks. At its own there is the new
/// row, or the old one with its new values, or none.
pub fn changes_keep_other_rows()
    ensures others { (d : Defs) (s : TableState) (c : Change) (p : ℕ) → p ≢ (accepted d s c).at
        → row_at p (accepted d s c).state.rows ≡ row_at p s.rows }
    ensures inserted { (d : Defs) (s : TableState) (values : Values) → IsSound d → IsState d s
        → HasValues values (row_at (accepted d s (insert values)).at
        (accepted d s (insert values)).state.rows) }
    ensures appended { (d : Defs) (s : TableState) (values : Values) → IsSound d → IsState d s
        → HasValues values (row_at (accepted d s (insert_at_end values)).at
        (accepted d s (insert_at_end values)).state.rows) }
    ensures updated { (d : Defs) (s : TableState) (at : ℕ) (values : Values) (r : StoredRow)
        → IsState d s → row_at at s.rows ≡ Some r
        → HasValues values (row_at at (accepted d s (update at values)).state.rows) }
    ensures deleted { (d : Defs) (s : TableState) (at : ℕ) → IsState d s
        → row_at at (accepted d s (delete at)).state.rows ≡ None }
    ensures place { (d : Defs) (s : TableState) (at : ℕ) (values : Values)
        → (accepted d s (update at values)).at ≡ at }
{}

/// A refusal leaves the state, and a step is refused for the first of its reasons alone: that no row stands
/// at the position, and then that row pointers would not reach the whole file.
pub fn refusals_leave_states()
    ensures left { (d : Defs) (s : TableState) (c : Change) (r : Refusal)
        → (step d s c).reply ≡ Err r → (step d s c).state ≡ s }
    ensures row { (d : Defs) (s : TableState) (c : Change) (r : Refusal) → lacks_row s c ≡ Some r
        → (step d s c).reply ≡ Err r }
    ensures room { (d : Defs) (s : TableState) (c : Change) → lacks_row s c ≡ None
        → (r : Refusal) → lacks_room d s c ≡ Some r → (step d s c).reply ≡ Err r }
    ensures accepted { (d : Defs) (s : TableState) (c : Change) → lacks_row s c ≡ None
        → lacks_room d s c ≡ None → (step d s c).reply ≡ Ok (accepted d s c).at }
    ensures changed { (d : Defs) (s : TableState) (c : Change) → lacks_row s c ≡ None
        → lacks_room d s c ≡ None → (step d s c).state ≡ (accepted d s c).state }
{}

/// What stands in a data file is what is read: the readable rows of a file that stands for a state, where not
/// every position is tried, are the rows of the state in their order, each with its values and its blocks, and its deleted
/// blocks are those of the state, in order of their places.
pub fn standing_files_are_read()
    ensures rows { (d : Defs) (s : TableState) (x : List ℕ) → IsSound d → StandsFor d s x
        → map (stored_row d) (readable d false x) ≡ s.rows }
    ensures blocks { (d : Defs) (s : TableState) (x : List ℕ) → IsSound d → StandsFor d s x
        → ranges_of (readable d false x) ≡ map range_of_area (row_areas s.rows) }
    ensures deleted { (d : Defs) (s : TableState) (x : List ℕ) → IsSound d → StandsFor d s x
        → deleted d x ≡ map range_of_area (in_order s.space.holes) }
{
    chains_are_found();
    sound_files_are_read();
}

/// The numbers of a state, but for the place of the first deleted block, are those of each file that stands
/// for it, as the index file is to keep them.
pub fn states_count_their_files()
    ensures records { (d : Defs) (s : TableState) (x : List ℕ) → IsSound d → StandsFor d s x
        → (counts_of s).records ≡ length (readable d false x) }
    ensures del { (d : Defs) (s : TableState) (x : List ℕ) → IsSound d → StandsFor d s x
        → (counts_of s).del ≡ length (deleted d x) }
    ensures split { (d : Defs) (s : TableState) (x : List ℕ) → IsSound d → StandsFor d s x
        → (counts_of s).split ≡ length (ranges_of (readable d false x)) }
    ensures empty { (d : Defs) (s : TableState) (x : List ℕ) → IsSound d → StandsFor d s x
        → (counts_of s).empty ≡ sum_by (λ (a : Range). a.1 - a.0) (deleted d x) }
    ensures long { (d : Defs) (s : TableState) (x : List ℕ) → IsSound d → StandsFor d s x
        → (counts_of s).length ≡ length x }
{
    chains_are_found();
    sound_files_are_read();
}

/// The accepted ones of a list of changes, made again without being tested, lead to the same state.
pub fn histories_are_replayed()
    ensures { (d : Defs) (s : TableState) (changes : List Change)
        → replay d s (history d s changes) ≡ after_steps d s changes }
{}
