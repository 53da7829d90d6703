//! Laws over the definitions of this crate. Each is the contract of a function that does nothing, so
//! that it is proved with the crate and stands for the crates above.
ghost use Rattle.std.specs.Prelude.{◌≡◌, ◌≤◌, ◌<◌, ◌^◌};
ghost use Rattle.std.specs.Prelude.{ℕ, true, List, Option, Some, length, drop, All, HoldsAt};
ghost use Rattle.myi_base.specs.Numbers.{AreBytes};
ghost use Rattle.myi_defs.specs.declared.types.Defs.{Defs};
ghost use Rattle.myi_defs.specs.declared.types.RowFormat.TheVariants.{Dynamic};
ghost use Rattle.myi_defs.specs.Sound.{IsSound, IsLengthOf};
ghost use Rattle.myi_pack.specs.declared.fields.FieldView.{FieldView};
ghost use Rattle.myi_pack.specs.Packed.{Values, Packs};
ghost use Rattle.myi_pack.specs.Unpacking.{row_of};
ghost use Rattle.myi_pack.specs.Spelling.{spelling, fits};
ghost use Rattle.myi_pack.specs.Winning.{WinsInRow};
ghost use Rattle.myi_pack.specs.Views.{IsNext};

/// What the bytes pack. Reading finds exactly the row that the bytes pack, and no bytes pack two rows.
pub fn packings_are_read()
    ensures packs { (d : Defs) (row : Values) (b : List ℕ)
        → All (λ f. IsLengthOf d.format f.kind f.length) d.fields → AreBytes b
        → row_of d b ≡ Some row
        → Packs d row b }
    ensures found { (d : Defs) (row : Values) (b : List ℕ) → AreBytes b → Packs d row b
        → row_of d b ≡ Some row }
    ensures once { (d : Defs) (r s : Values) (b : List ℕ) → AreBytes b → Packs d r b → Packs d s b
        → r ≡ s }
{}

/// What a row is packed as. The rows that some bytes pack, in a dynamic table fewer than 2^32, are those
/// that fit; the spelling of such a row packs it and is read as it, and no packing of it is shorter. In a
/// dynamic table four bytes count it.
pub fn spellings_are_shortest()
    ensures fits { (d : Defs) (row : Values) (b : List ℕ) → IsSound d → Packs d row b
        → (d.format ≡ Dynamic → length b < 2 ^ 32) → fits d row ≡ true }
    ensures packs { (d : Defs) (row : Values) → IsSound d → fits d row ≡ true
        → Packs d row (spelling d row) }
    ensures read { (d : Defs) (row : Values) → IsSound d → fits d row ≡ true
        → row_of d (spelling d row) ≡ Some row }
    ensures shortest { (d : Defs) (row : Values) (b : List ℕ) → IsSound d → Packs d row b
        → length (spelling d row) ≤ length b }
    ensures counted { (d : Defs) (row : Values) → d.format ≡ Dynamic → fits d row ≡ true
        → length (spelling d row) < 2 ^ 32 }
{}

/// How ties are settled. In the spelling of a row the flag of a field is set exactly where a form with the
/// flag is shorter than each without; at equal length the form without is written.
pub fn shorter_forms_win()
    ensures { (d : Defs) (row : Values) (i : ℕ) → IsSound d → d.format ≡ Dynamic → fits d row ≡ true
        → i < length d.fields → HoldsAt (WinsInRow d row i) d.fields i }
{}

/// A walk over the values of a row goes on by one value, whether it shows the value or passes it.
pub fn views_go_on()
    ensures { (old : Values) (view : Option FieldView) (new : Values) → IsNext old view new
        → new ≡ drop 1 old }
{}
