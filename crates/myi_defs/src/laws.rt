//! Laws over read definitions. Each is the contract of a function that does nothing, so that it is
//! proved with the crate and stands for the crates above.
ghost use Rattle.std.specs.Prelude.{◌≡◌, ◌≤◌, List, ℕ, length, take, Ok};
ghost use Rattle.myi_base.specs.Numbers.{num_at, AreBytes};
ghost use Rattle.myi_defs.specs.declared.types.Defs.{Defs};
ghost use Rattle.myi_defs.specs.ReadDefs.{read_defs, AreDefs};
ghost use Rattle.myi_defs.specs.Elsewhere.{AgreeOutsideState};
ghost use Rattle.myi_defs.specs.EmptyTable.{empty_header};
ghost use Rattle.myi_defs.specs.Sound.{IsSound};
ghost use Rattle.myi_defs.specs.declared.types.DefFault.{DefFault};

/// Definitions that are read are sound, they are those of their own header, and that header is the
/// front of the file.
pub fn definitions_are_sound()
    ensures sound { (d : Defs) → AreDefs d → IsSound d }
    ensures itself { (x : List ℕ) (d : Defs) → read_defs x ≡ Ok d → AreDefs d }
    ensures raw { (x : List ℕ) (d : Defs) → read_defs x ≡ Ok d → d.raw ≡ take (num_at 6 2 x) x }
{}

/// Definitions rest on the header alone, and of it neither on the state nor on the mark. No header is
/// longer than 65,535 bytes, so that much of an index file is enough to read them.
pub fn definitions_rest_on_the_header()
    ensures front { (n : ℕ) (x : List ℕ) → 65535 ≤ n → AreBytes (take n x)
        → read_defs (take n x) ≡ read_defs x }
    ensures elsewhere { (d : Defs) (y : List ℕ) → AreDefs d → AgreeOutsideState d.raw y
        → read_defs y ≡ Ok (record d { raw = take (num_at 6 2 d.raw) y }) }
{}

/// Of the header of an empty table its definitions are read, but for the header, and they print that header
/// again.
pub fn empty_tables_print_again()
    ensures read { (d : Defs) → AreDefs d → read_defs (empty_header d.raw)
        ≡ Ok (record d { raw = take (length d.raw) (empty_header d.raw) }) }
    ensures again { (d again : Defs) → AreDefs d → read_defs (empty_header d.raw) ≡ Ok again
        → empty_header again.raw ≡ empty_header d.raw }
{}
