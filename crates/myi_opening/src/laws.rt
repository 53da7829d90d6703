//! What holds of a table that is opened. The law is the contract of a function that does nothing, so that it is
//! proved with the crate and stands for the crates above.
ghost use Rattle.std.specs.Prelude.{◌≡◌, ℕ, List, Some, Ok};
ghost use Rattle.myi_base.specs.Holding.{Holding};
ghost use Rattle.myi_defs.specs.declared.types.Defs.{Defs};
ghost use Rattle.myi_defs.specs.ReadDefs.{read_defs};
ghost use Rattle.myi_opening.specs.Opening.{Table, table, table_in};

/// Both files of a table that is opened are there, and its definitions are read of the index file; and such a
/// table is opened.
pub fn opened_tables_have_files()
    ensures index { (index rows : List ℕ) (t : Table) (m : Holding) → table_in index rows m ≡ Ok t
        → m index ≡ Some t.index }
    ensures rows { (index rows : List ℕ) (t : Table) (m : Holding) → table_in index rows m ≡ Ok t
        → m rows ≡ Some t.rows }
    ensures read { (index rows : List ℕ) (t : Table) (m : Holding) → table_in index rows m ≡ Ok t
        → read_defs t.index ≡ Ok t.defs }
    ensures opened { (index rows x d : List ℕ) (defs : Defs) (m : Holding) → m index ≡ Some x
        → m rows ≡ Some d → read_defs x ≡ Ok defs
        → table_in index rows m ≡ Ok (table defs d x) }
{}
