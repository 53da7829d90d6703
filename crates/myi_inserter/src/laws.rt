//! Laws over rows that were put behind the end of a shared table. Each is the contract of a function that does nothing, so
//! that it is proved with the crate and stands for the crates above.
ghost use Rattle.std.specs.Prelude.{◌≡◌, ◌∷◌, ◌++◌, ℕ, List, [], length, take, Ok};
ghost use Rattle.myi_defs.specs.declared.types.Defs.{Defs};
ghost use Rattle.myi_defs.specs.Sound.{IsSound};
ghost use Rattle.myi_pack.specs.Packed.{Values};
ghost use Rattle.myi_state.specs.State.{TableState};
ghost use Rattle.myi_state.specs.Sound.{IsState};
ghost use Rattle.myi_tablestate.specs.Keyed.{IsTable, after_keyed};
ghost use Rattle.myi_tail.specs.Prefix.{BeginsWith};
ghost use Rattle.myi_table.specs.Folding.{appended, CanFold};
ghost use Rattle.myi_snapshots.specs.Appended.{with_rows, AllFit};
ghost use Rattle.myi_snapshots.specs.Known.{packed_rows, known_rows, values_of};
ghost use Rattle.myi_readers.specs.declared.reader.TableReader.{TableReader};
ghost use Rattle.myi_readers.specs.Reader.{IsReader, AreKnown, rows_known};
ghost use Rattle.myi_inserter.specs.declared.inserter.TableInserter.{TableInserter};
ghost use Rattle.myi_inserter.specs.Put.{stored_behind};
ghost use Rattle.myi_inserter.specs.Inserter.{IsInserter, IsPut};

use myi_readers::first_inserted_rows_are_known;
use myi_tablestate::{keyed_changes_keep_tables, keyed_refusals_come_in_order};

/// The rows that were put stand one after the other behind those of the base.
pub fn put_rows_stand_behind()
    ensures { (d : Defs) (base : TableState) (rows : List Values) → IsSound d → IsState d base
        → AllFit d rows → (with_rows d base rows).rows
        ≡ base.rows ++ stored_behind d base.space.end rows }
{}

/// The words of an inserter spell the rows that were put, as they are packed, and no others, and their values are the rows.
/// A reader of the table that knows the first of these words knows the first of the rows, and one that knows all knows all.
pub fn put_rows_are_known()
    ensures spelled { (i : TableInserter) (rows : List Values) → IsInserter i rows
        → known_rows i.defs i.appender.words ≡ packed_rows i.defs rows }
    ensures values { (i : TableInserter) (rows : List Values) → IsInserter i rows
        → values_of i.defs (known_rows i.defs i.appender.words) ≡ rows }
    ensures first { (i : TableInserter) (rows : List Values) (r : TableReader) → IsInserter i rows
        → IsReader r → r.defs ≡ i.defs → BeginsWith i.appender.words r.seat.known
        → AreKnown r (take (length (rows_known r)) rows) }
    ensures all { (i : TableInserter) (rows : List Values) (r : TableReader) → IsInserter i rows
        → IsReader r → r.defs ≡ i.defs → r.seat.known ≡ i.appender.words → AreKnown r rows }
{
    first_inserted_rows_are_known();
}

/// The rows of a base and those that were put are a table, and those that were put can be folded into the base.
pub fn put_rows_can_be_folded()
    ensures none { (d : Defs) (base : TableState) → CanFold d base [] }
    ensures more { (d : Defs) (base : TableState) (rows : List Values) (row : Values) (at : ℕ)
        → CanFold d base rows → IsPut d base rows row at → CanFold d base (rows ++ row ∷ []) }
    ensures table { (d : Defs) (base : TableState) (rows : List Values) → IsSound d
        → AllFit d rows → IsTable d base → CanFold d base rows → IsTable d (with_rows d base rows) }
    ensures folded { (d : Defs) (base : TableState) (rows : List Values) → CanFold d base rows
        → after_keyed d base (appended rows) ≡ with_rows d base rows }
{
    keyed_changes_keep_tables();
    keyed_refusals_come_in_order();
}
