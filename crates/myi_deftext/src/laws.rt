//! Laws over creating texts. Each is the contract of a function that does nothing, so that it is proved with
//! the crate and stands for the crates above.
ghost use Rattle.std.specs.Prelude.{◌≡◌, List, ℕ, flat_map, sum_by, unwrap_or, Ok, Err};
ghost use Rattle.myi_base.specs.Numbers.{AreBytes};
ghost use Rattle.myi_defs.specs.declared.types.Defs.{Defs};
ghost use Rattle.myi_defs.specs.declared.types.DefFault.{DefFault};
ghost use Rattle.myi_defs.specs.ReadDefs.{AreDefs};
ghost use Rattle.myi_deftext.specs.Text.{lines};
ghost use Rattle.myi_deftext.specs.Grammar.{TableSaid, table_lines, Describe, AreText, IsFirstOutside};
ghost use Rattle.myi_deftext.specs.TextHeader.{format_said, pointer_said, row_said, field_bytes, keys_bytes};
ghost use Rattle.myi_deftext.specs.TableHeader.{field_header, key_header};
ghost use Rattle.myi_deftext.specs.ParseText.{StandsFor, parse_text};
ghost use Rattle.myi_deftext.specs.declared.parse.TextFault.TheVariants.{Line, Def};

/// Lines describe one table at most, and are in the grammar or have one first line outside.
pub fn texts_describe_one_table()
    ensures table { (ls : List (List ℕ)) (t u : TableSaid) → Describe ls t → Describe ls u → t ≡ u }
    ensures line { (ls : List (List ℕ)) (m n : ℕ) → IsFirstOutside ls m → IsFirstOutside ls n → m ≡ n }
    ensures either { (ls : List (List ℕ)) (n : ℕ) → AreText ls → IsFirstOutside ls n → ⊥ }
{}

/// What is read of a text is what the grammar says of its lines. The definitions are those of their own header,
/// which is bytes.
pub fn texts_are_read_by_the_grammar()
    ensures made { (x : List ℕ) (d : Defs) → parse_text x ≡ Ok d → StandsFor x (Ok d) }
    ensures itself { (x : List ℕ) (d : Defs) → parse_text x ≡ Ok d → AreDefs d }
    ensures bytes { (x : List ℕ) (d : Defs) → parse_text x ≡ Ok d → AreBytes d.raw }
    ensures refused { (x : List ℕ) (f : DefFault) → parse_text x ≡ Err (Def f)
        → StandsFor x (Err f) }
    ensures line { (x : List ℕ) (n : ℕ) → parse_text x ≡ Err (Line n)
        → IsFirstOutside (lines x) n }
{}

/// The header of a table that a text describes has the rows, the pointer, the fields and the keys of the table, the
/// keys each with its segments, in their order.
pub fn headers_say_the_table()
    ensures format { (t : TableSaid) → format_said (table_lines t) ≡ t.format }
    ensures pointer { (t : TableSaid) → pointer_said (table_lines t) ≡ unwrap_or t.pointer 6 }
    ensures row { (t : TableSaid) → row_said (table_lines t) ≡ sum_by (λ f. f.length) t.fields }
    ensures fields { (t : TableSaid)
        → flat_map field_bytes (table_lines t) ≡ flat_map field_header t.fields }
    ensures keys { (t : TableSaid) (pointer : ℕ)
        → keys_bytes pointer (table_lines t) ≡ flat_map (key_header pointer) t.keys }
{}
