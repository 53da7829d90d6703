//! Laws over what a repair row by row leaves. Each is the contract of a function that does nothing, so
//! that it is proved with the crate and stands for the crates above.
ghost use Rattle.std.specs.Prelude.{◌≡◌, ℕ, Bool, List, Ok};
ghost use Rattle.myi_defs.specs.declared.types.Defs.{Defs};
ghost use Rattle.myi_defs.specs.ReadDefs.{read_defs};
ghost use Rattle.myi_data.specs.Stored.{values_in};
ghost use Rattle.myi_pair.specs.RecoveredBytes.{kept, new_data};
ghost use Rattle.myi_pair.specs.Recovered.{IsRepairable};
ghost use Rattle.myi_saferepair.specs.Recovered.{SafelyRecovered};

use myi_pair::{kept_rows_make_a_table, repairs_of_rebuilt_files_settle};

/// A repair of the files that a repair row by row left keeps all their rows and leaves the data file as it
/// is, under the definitions that the index file has. Whether every position is tried does not matter.
pub fn safe_repairs_settle()
    ensures kept { (d : Defs) (extend : Bool) (x : List ℕ) (now : ℕ) (e y : List ℕ)
        → IsRepairable d x now → SafelyRecovered d extend x now e y
        → (again : Defs) → read_defs y ≡ Ok again
        → (any : Bool) → values_in (kept again any e) ≡ values_in (kept d extend x) }
    ensures data_file { (d : Defs) (extend : Bool) (x : List ℕ) (now : ℕ) (e y : List ℕ)
        → IsRepairable d x now → SafelyRecovered d extend x now e y
        → (again : Defs) → read_defs y ≡ Ok again
        → (any : Bool) → new_data again any e ≡ e }
{
    kept_rows_make_a_table();
    repairs_of_rebuilt_files_settle();
}
