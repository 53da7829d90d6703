//! Laws over the definitions of this crate. Each is the contract of a function that does nothing, so that it is
//! proved with the crate and stands for the crates above.
ghost use Rattle.std.specs.Prelude.{◌≡◌, ◌≤◌, ℕ, true, length, Ok};
ghost use Rattle.myi_defs.specs.ReadDefs.{read_defs};
ghost use Rattle.myi_deftext.specs.ParseText.{parse_text};
ghost use Rattle.myi_defs.specs.EmptyTable.{empty_header};
ghost use Rattle.myi_pack.specs.Spelling.{fits, spelling};
ghost use Rattle.myi_make.specs.MadeTable.{text, header, defs, row_of};

/// The definitions of the table are those that its text stands for, and its header is that of an empty table with
/// them.
pub fn the_text_says_the_table()
    ensures text { parse_text text ≡ Ok defs }
    ensures header { read_defs header ≡ Ok defs }
    ensures printed { empty_header defs.raw ≡ header }
{}

/// Each row has the form of the table's fields, and is spelled in at most 248 bytes.
pub fn rows_are_short()
    ensures fits { (i x : ℕ) → fits defs (row_of i x) ≡ true }
    ensures short { (i x : ℕ) → length (spelling defs (row_of i x)) ≤ 248 }
{}
