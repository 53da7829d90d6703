//! A law over the parts of a sharing. It is the contract of a function that does nothing, so that it is proved with the crate
//! and stands for the crates above.
ghost use Rattle.std.specs.Prelude.{◌≡◌, ◌∷◌, ◌++◌, ℕ, List, [], Option, None};
ghost use Rattle.myi_base.specs.Holding.{Holding};
ghost use Rattle.myi_pack.specs.Packed.{Values};
ghost use Rattle.myi_keyedrows.specs.KeyedRows.{HoldTable, IsKept, IfHold};
ghost use Rattle.myi_table.specs.Table as table;
ghost use Rattle.myi_readers.specs.declared.reader.TableReader.{TableReader};
ghost use Rattle.myi_readers.specs.Reader.{IsReader, IsSameReader};
ghost use Rattle.myi_inserter.specs.declared.inserter.TableInserter.{TableInserter};
ghost use Rattle.myi_inserter.specs.Inserter.{IsInserter, IsSameInserter, IsPut};
ghost use Rattle.myi_share.specs.Sharing.{Sharing, IsInserterOf, IsReaderOf, TellsSame};

use myi_inserter::put_rows_can_be_folded;
use myi_table::tables_rest_on_their_files;

/// What the calls of an inserter and of readers tell is enough: after each they are of the same sharing, and a reader is one
/// that its next call may be made of (`kept`). The files of other names may change meanwhile.
pub fn calls_keep_parts()
    ensures inserted { (of : Sharing) (told objects : Option Holding) (i j : TableInserter)
        (rows : List Values) (row : Values) (at : ℕ) → IsInserterOf of told objects i rows
        → IsSameInserter i j → IsInserter j (rows ++ row ∷ [])
        → IfHold objects i.rows (λ m own base. IsPut i.defs base rows row at)
        → IfHold objects i.rows (λ m own base. HoldTable j.rows own base m)
        → IsInserterOf of told objects j (rows ++ row ∷ []) }
    ensures refused { (of : Sharing) (told objects : Option Holding) (i j : TableInserter)
        (rows : List Values) → IsInserterOf of told objects i rows
        → IsSameInserter i j → IsInserter j rows
        → IfHold objects i.rows (λ m own base. HoldTable j.rows own base m)
        → IsInserterOf of told objects j rows }
    ensures read { (of : Sharing) (told objects : Option Holding) (r q : TableReader)
        → IsReaderOf of told objects r → IsSameReader r q → IsReader q
        → IfHold objects r.rows (λ m own base. HoldTable q.rows own base m)
        → IsReaderOf of told objects q }
    ensures kept { (of : Sharing) (told objects : Option Holding) (r : TableReader)
        → of.table.broken ≡ None → table.IsKept told of.table → IsReaderOf of told objects r
        → IsKept objects r.rows }
    ensures inserter { (of : Sharing) (told next objects : Option Holding) (i : TableInserter)
        (rows : List Values) → TellsSame of.table told next → IsInserterOf of told objects i rows
        → IsInserterOf of next objects i rows }
    ensures reader { (of : Sharing) (told next objects : Option Holding) (r : TableReader)
        → TellsSame of.table told next → IsReaderOf of told objects r
        → IsReaderOf of next objects r }
    ensures table { (of : Sharing) (told next : Option Holding) → TellsSame of.table told next
        → table.IsKept told of.table → table.IsKept next of.table }
{
    put_rows_can_be_folded();
    tables_rest_on_their_files();
}
