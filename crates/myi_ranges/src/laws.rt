//! Laws over the definitions of this crate. Each is the contract of a function that does nothing, so that it is proved with
//! the crate and stands for the crates above.
ghost use Rattle.std.specs.Prelude.{◌≡◌, ℕ, suc, List, Option, Some, map};
ghost use Rattle.std.specs.List.{AllByRecursion};
ghost use Rattle.myi_base.specs.Holding.{Holding};
ghost use Rattle.myi_defs.specs.declared.types.Defs.{Defs};
ghost use Rattle.myi_defs.specs.Sound.{IsSound};
ghost use Rattle.myi_keys.specs.declared.values.KeySeg.{KeySeg};
ghost use Rattle.myi_state.specs.State.{StoredRow, TableState, row_at};
ghost use Rattle.myi_slots.specs.SlotFile.{SlotFile, IsFileOf};
ghost use Rattle.myi_tablestate.specs.Keyed.{IsTable};
ghost use Rattle.myi_tablestate.specs.Listed.{pair_of_row, position};
ghost use Rattle.myi_tablestate.specs.Matching.{Bounds, AreMatching};
ghost use Rattle.myi_ranges.specs.Ranges.{begin_at, coming, position_within};

use myi_tablestate::key_lists_are_in_order;

/// The rows of the pairs that are to come where a reading begins are those that match its bounds, in their order.
pub fn rows_that_come_match()
    ensures { (d : Defs) (s : TableState) (key : ℕ) (b : Bounds) (found : List StoredRow)
        → IsSound d → IsTable d s
        → AllByRecursion (λ (r : StoredRow). row_at r.at s.rows ≡ Some r) found
        → map (pair_of_row d (suc key)) found
        ≡ coming d (record { key = key; to = b.to; reached = begin_at b.from }) s.rows
        → AreMatching d (suc key) b s.rows found }
{
    key_lists_are_in_order();
}

/// A pointer that names the position of a row of a table names it also where a place behind the end of the data file
/// is not looked at.
pub fn pointers_lead_to_rows()
    ensures { (f : SlotFile) (s : TableState) (m : Holding) (p : ℕ) (r : StoredRow)
        → IsSound f.defs → IsFileOf f s m → row_at r.at s.rows ≡ Some r
        → position f.defs p ≡ r.at → position_within f.defs f.counts.length p ≡ r.at }
{}
