//! Laws over loaded tables. Each is the contract of a function that does nothing, so that it is proved with the crate and
//! stands for the crates above.
ghost use Rattle.std.specs.Prelude.{◌≡◌};
ghost use Rattle.myi_base.specs.Holding.{Holding};
ghost use Rattle.myi_state.specs.State.{TableState};
ghost use Rattle.myi_table.specs.Table.{OpenTable, HoldState};

/// A table stands for the state that it stood for where its two files hold what they held, whatever files of other
/// names hold.
pub fn tables_rest_on_their_files()
    ensures { (t : OpenTable) (s : TableState) (m n : Holding)
        → n t.rows.rows.file.name ≡ m t.rows.rows.file.name
        → n t.rows.trees.cache.name ≡ m t.rows.trees.cache.name
        → HoldState t s m → HoldState t s n }
{}
