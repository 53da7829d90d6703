//! Laws over what readers see. Each is the contract of a function that does nothing, so that it is proved with the crate and
//! stands for the crates above.
ghost use Rattle.std.specs.Prelude.{◌≡◌, ◌≤◌, ◌∷◌, ◌++◌, ℕ, List, [], length};
ghost use Rattle.myi_defs.specs.declared.types.Defs.{Defs};
ghost use Rattle.myi_defs.specs.Sound.{IsSound};
ghost use Rattle.myi_pack.specs.Packed.{Values};
ghost use Rattle.myi_state.specs.State.{TableState};
ghost use Rattle.myi_state.specs.Changes.{accepted, insert_at_end, behind_taken};
ghost use Rattle.myi_state.specs.Sound.{IsState};
ghost use Rattle.myi_tail.specs.Prefix.{BeginsWith};
ghost use Rattle.myi_snapshots.specs.declared.snapshot.Snapshot.{Snapshot};
ghost use Rattle.myi_snapshots.specs.Appended.{with_rows, rows_before, AllFit, AllAreBytes};
ghost use Rattle.myi_snapshots.specs.Known.{known_rows, packed_rows, words_of_rows, values_of, end_with};
ghost use Rattle.myi_snapshots.specs.Seen.{state_at, seen_rows, IsTaken};

/// Rows that come behind the end. One more stands at the end of the table with those before it, behind all of its rows, and
/// the deleted list stays; it is a state again.
pub fn appended_rows_stand_behind()
    ensures one_more { (d : Defs) (s : TableState) (rows : List Values) (row : Values)
        → with_rows d s (rows ++ row ∷ [])
        ≡ (accepted d (with_rows d s rows) (insert_at_end row)).state }
    ensures last { (d : Defs) (s : TableState) (row : Values) → IsSound d → IsState d s
        → (accepted d s (insert_at_end row)).state.rows ≡ s.rows ++ record {
          at = s.space.end;
          values = row;
          blocks = (behind_taken d s.space row).blocks;
        } ∷ [] }
    ensures state { (d : Defs) (s : TableState) (rows : List Values) → IsSound d → IsState d s
        → AllFit d rows → IsState d (with_rows d s rows) }
    ensures holes { (d : Defs) (s : TableState) (rows : List Values)
        → (with_rows d s rows).space.holes ≡ s.space.holes }
    ensures ends { (d : Defs) (s : TableState) (rows : List Values)
        → (with_rows d s rows).space.end ≡ end_with d s.space.end (packed_rows d rows) }
    ensures grows { (d : Defs) (s : TableState) (rows : List Values) → IsSound d → IsState d s
        → AllFit d rows → s.space.end ≤ (with_rows d s rows).space.end }
{}

/// By a snapshot of this sharing the rows of the state of its number are seen, however many rows are known besides; by one that
/// ends in the base, those of the base that stood before its end.
pub fn snapshots_are_seen()
    ensures number { (d : Defs) (base : TableState) (number : ℕ) (rows : List Values)
        (snap : Snapshot) → IsSound d → IsState d base → AllFit d rows
        → IsTaken d base number rows snap
        → seen_rows d base rows snap ≡ (state_at d base number rows snap.number).rows }
    ensures earlier { (d : Defs) (base : TableState) (rows : List Values) (snap : Snapshot)
        → IsSound d → IsState d base → AllFit d rows → snap.length ≤ base.space.end
        → seen_rows d base rows snap ≡ rows_before snap.length base.rows }
{}

/// The words of rows that fit spell these rows as they are packed, whatever follows, and their values are the rows; the first words
/// spell the first rows, no more of them than there are words.
pub fn known_rows_are_first()
    ensures read { (d : Defs) (rows : List Values) (rest : List ℕ) → IsSound d → AllFit d rows
        → AllAreBytes d rows
        → known_rows d (words_of_rows d rows ++ rest) ≡ packed_rows d rows ++ known_rows d rest }
    ensures values { (d : Defs) (rows : List Values) → IsSound d → AllFit d rows
        → values_of d (packed_rows d rows) ≡ rows }
    ensures first { (d : Defs) (all words : List ℕ) → BeginsWith all words
        → BeginsWith (known_rows d all) (known_rows d words) }
    ensures few { (d : Defs) (words : List ℕ) → length (known_rows d words) ≤ length words }
{}
