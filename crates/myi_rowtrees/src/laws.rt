//! Laws over the definitions of this crate. Each is the contract of a function that does nothing, so that it is
//! proved with the crate and stands for the crates above.
ghost use Rattle.std.specs.Prelude.{◌≡◌, ℕ, List, length, Option, Some};
ghost use Rattle.myi_base.specs.Ranges.{Range};
ghost use Rattle.myi_defs.specs.declared.types.Defs.{Defs};
ghost use Rattle.myi_defs.specs.Sound.{IsSound};
ghost use Rattle.myi_pack.specs.Packed.{Values};
ghost use Rattle.myi_btree.specs.Walk.{Walked};
ghost use Rattle.myi_pair.specs.FirstRows.{key_numbers};
ghost use Rattle.myi_pair.specs.KeyList.{pointer};
ghost use Rattle.myi_pair.specs.Trees as pair;
ghost use Rattle.myi_keytrees.specs.InFile as trees;
ghost use Rattle.myi_state.specs.State.{StoredRow, TableState, row_at};
ghost use Rattle.myi_state.specs.Changes.{insert, insert_at_end, delete, update, accepted};
ghost use Rattle.myi_state.specs.Sound.{IsState, MayCome};
ghost use Rattle.myi_rowtrees.specs.Places.{places_of};
ghost use Rattle.myi_rowtrees.specs.RowLists.{lists_of, row_pairs, put_each, take_each, move_each, LackPointers};

use myi_keys::keys_totally_ordered;
use myi_state::{changes_keep_other_rows, changes_keep_states, new_rows_have_free_places};
use myi_tablestate::{key_lists_are_in_order, key_lists_follow};

/// What becomes of the lists of a table where a row comes, goes, or gets other values: its pairs are put in, or taken
/// out, or the old ones taken out and the new ones put in.
pub fn lists_follow_rows()
    ensures inserted { (d : Defs) (s : TableState) (values : Values) → IsSound d → IsState d s
        → lists_of d (accepted d s (insert values)).state.rows ≡ put_each
        (row_pairs d values (pointer d (accepted d s (insert values)).at)) (lists_of d s.rows) }
    ensures appended { (d : Defs) (s : TableState) (values : Values) → IsSound d → IsState d s
        → lists_of d (accepted d s (insert_at_end values)).state.rows ≡ put_each
        (row_pairs d values (pointer d (accepted d s (insert_at_end values)).at))
        (lists_of d s.rows) }
    ensures deleted { (d : Defs) (s : TableState) (at : ℕ) (r : StoredRow) → IsSound d
        → IsState d s → row_at at s.rows ≡ Some r
        → lists_of d (accepted d s (delete at)).state.rows
        ≡ take_each (row_pairs d r.values (pointer d r.at)) (lists_of d s.rows) }
    ensures updated { (d : Defs) (s : TableState) (at : ℕ) (values : Values) (r : StoredRow)
        → IsSound d → IsState d s → row_at at s.rows ≡ Some r
        → lists_of d (accepted d s (update at values)).state.rows
        ≡ put_each (row_pairs d values (pointer d at))
        (take_each (row_pairs d r.values (pointer d r.at)) (lists_of d s.rows)) }
    ensures moved { (d : Defs) (s : TableState) (at : ℕ) (values : Values) (r : StoredRow)
        → IsSound d → IsState d s → row_at at s.rows ≡ Some r
        → lists_of d (accepted d s (update at values)).state.rows
        ≡ move_each (row_pairs d r.values (pointer d r.at)) (row_pairs d values (pointer d at))
        (lists_of d s.rows) }
{
    key_lists_follow();
    keys_totally_ordered();
}

/// No list of a table names a row that is to come, and none the row that is updated once its pairs are taken out.
pub fn new_rows_are_in_no_list()
    ensures inserted { (d : Defs) (s : TableState) (values : Values) → IsSound d
        → MayCome d (insert values) → IsState d s → LackPointers
        (row_pairs d values (pointer d (accepted d s (insert values)).at)) (lists_of d s.rows) }
    ensures appended { (d : Defs) (s : TableState) (values : Values) → IsSound d
        → MayCome d (insert_at_end values) → IsState d s → LackPointers
        (row_pairs d values (pointer d (accepted d s (insert_at_end values)).at))
        (lists_of d s.rows) }
    ensures updated { (d : Defs) (s : TableState) (at : ℕ) (values : Values) (r : StoredRow)
        → IsSound d → IsState d s → row_at at s.rows ≡ Some r → LackPointers
        (row_pairs d values (pointer d at))
        (take_each (row_pairs d r.values (pointer d r.at)) (lists_of d s.rows)) }
{
    changes_keep_states();
    changes_keep_other_rows();
    key_lists_are_in_order();
    key_lists_follow();
    new_rows_have_free_places();
}

/// The trees of a table's two files are those at its places: each has its walk, and no page meets another one or a busy
/// range, as the one definition says it and as the other does.
pub fn trees_of_pairs_are_trees()
    ensures there { (d : Defs) (x : List ℕ) (busy : List Range) (roots : List (Option ℕ))
        (walks : List Walked) → pair.HaveWalks d x busy (key_numbers d) roots walks
        → trees.HaveWalks x busy (places_of d roots) walks }
    ensures back { (d : Defs) (x : List ℕ) (busy : List Range) (roots : List (Option ℕ))
        (walks : List Walked) → length roots ≡ length d.keys
        → trees.HaveWalks x busy (places_of d roots) walks
        → pair.HaveWalks d x busy (key_numbers d) roots walks }
{}
