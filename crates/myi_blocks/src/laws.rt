//! Laws over the definitions of this crate. Each is the contract of a function that does nothing, so that it
//! is proved with the crate and stands for the crates above.
ghost use Rattle.std.specs.Prelude.{◌≡◌, ◌++◌, ℕ, List, length, Some};
ghost use Rattle.myi_base.specs.Holding.{Holding};
ghost use Rattle.myi_defs.specs.declared.types.RowFormat.TheVariants.{Dynamic};
ghost use Rattle.myi_defs.specs.declared.types.Defs.{Defs};
ghost use Rattle.myi_defs.specs.Sound.{IsSound};
ghost use Rattle.myi_dellist.specs.Releasing.{release_all};
ghost use Rattle.myi_dellist.specs.Rows.{KeepsApart};
ghost use Rattle.myi_dellist.specs.Standing.{HasList};
ghost use Rattle.myi_state.specs.Changes.{delete, accepted};
ghost use Rattle.myi_state.specs.Numbers.{counts_of};
ghost use Rattle.myi_state.specs.Sound.{IsState};
ghost use Rattle.myi_state.specs.Standing.{StandsFor};
ghost use Rattle.myi_state.specs.State.{StoredRow, TableState, row_at};
ghost use Rattle.myi_slots.specs.SlotFile.{SlotFile, IsFileOf};
ghost use Rattle.myi_blocks.specs.BlockFile.{freed_counts};
ghost use Rattle.myi_blocks.specs.RowReading.{StandsAt};

/// A row of a state stands in blocks of each data file that stands for the state, the first of them at its
/// position, so that `BlockFile::row_at` may be asked for it.
pub fn rows_of_states_stand()
    ensures { (f : SlotFile) (s : TableState) (m : Holding) (at : ℕ) (r : StoredRow)
        → f.defs.format ≡ Dynamic → IsFileOf f s m → row_at at s.rows ≡ Some r
        → StandsAt f at m r }
{}

/// Once the blocks of a row are released, as the definitions on lists say, the file stands for the state without
/// the row, where its length stays and what is apart from these blocks and from the deleted ones holds what it
/// held.
pub fn released_rows_leave_states()
    ensures { (d : Defs) (s : TableState) (x e : List ℕ) (at : ℕ) (r : StoredRow) → IsSound d
        → d.format ≡ Dynamic → StandsFor d s x → row_at at s.rows ≡ Some r
        → HasList e (release_all r.blocks s.space.holes)
        → KeepsApart (r.blocks ++ s.space.holes) x e → length e ≡ length x
        → StandsFor d (accepted d s (delete at)).state e }
{}

/// The numbers of the state without the row are those before with the row and its blocks counted no more and the
/// blocks' bytes as deleted ones; how many deleted blocks there are then, the list says.
pub fn released_rows_are_counted()
    ensures { (d : Defs) (s : TableState) (at : ℕ) (r : StoredRow) → IsSound d
        → d.format ≡ Dynamic → IsState d s → row_at at s.rows ≡ Some r
        → counts_of (accepted d s (delete at)).state
        ≡ freed_counts r.blocks (release_all r.blocks s.space.holes) (counts_of s) }
{}
