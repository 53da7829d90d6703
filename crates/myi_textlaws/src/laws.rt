//! The law of this crate. It is the contract of a function that does nothing, so that it is proved with the crate
//! and stands for the crates above.
ghost use Rattle.std.specs.Prelude.{◌≡◌, List, ℕ, Ok};
ghost use Rattle.myi_defs.specs.declared.types.Defs.{Defs};
ghost use Rattle.myi_defs.specs.ReadDefs.{read_defs, AreDefs};
ghost use Rattle.myi_deftext.specs.Text.{lines};
ghost use Rattle.myi_deftext.specs.Grammar.{TableSaid, table_lines, Describe};
ghost use Rattle.myi_deftext.specs.TextHeader.{text_header};
ghost use Rattle.myi_deftext.specs.ParseText.{StandsFor, parse_text};
ghost use Rattle.myi_textlaws.specs.Said.{AreSaid};

/// The definitions that are read of a creating text are those that its lines say: of the header of the table
/// that they describe, of what the text stands for, and of the text itself. No other definitions are said so, but
/// for the header that they were read from.
pub fn definitions_are_said()
    ensures header { (ls : List (List ℕ)) (t : TableSaid) (d : Defs) → Describe ls t
        → read_defs (text_header (table_lines t)) ≡ Ok d → AreSaid t d }
    ensures stands { (x : List ℕ) (t : TableSaid) (d : Defs) → Describe (lines x) t
        → StandsFor x (Ok d) → AreSaid t d }
    ensures parsed { (x : List ℕ) (t : TableSaid) (d : Defs) → Describe (lines x) t
        → parse_text x ≡ Ok d → AreSaid t d }
    ensures once { (t : TableSaid) (d e : Defs) → AreDefs d → AreDefs e → AreSaid t d → AreSaid t e
        → e ≡ record d { raw = e.raw } }
{}
