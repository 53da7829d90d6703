//! Laws over the rows that words spell. Each is the contract of a function that does nothing, so that it is proved with the
//! crate and stands for the crates above.
ghost use Rattle.std.specs.Prelude.{◌≡◌, ◌≤◌, ◌*◌, ◌++◌};
ghost use Rattle.std.specs.Prelude.{ℕ, Bool, List, true, length, sum_by, All};
ghost use Rattle.std.specs.List.{flat_map};
ghost use Rattle.myi_base.specs.Numbers.{AreBytes};
ghost use Rattle.myi_tail.specs.Prefix.{BeginsWith};
ghost use Rattle.myi_tail.specs.Rows.{row_words};
ghost use Rattle.myi_tail.specs.Spelled.{spelled};
ghost use Rattle.myi_spelling.specs.Rows.{spelled_rows};

/// The words of rows of a table spell these rows, whatever words follow; and what words spell are rows of the table.
pub fn words_spell_their_rows()
    ensures read { (is_row : List ℕ → Bool) (rows : List (List ℕ)) (rest : List ℕ)
        → All AreBytes rows → All (λ row. is_row row ≡ true) rows
        → spelled_rows is_row (flat_map row_words rows ++ rest) ≡ rows ++ spelled_rows is_row rest }
    ensures rows { (is_row : List ℕ → Bool) (words : List ℕ)
        → All (λ row. is_row row ≡ true) (spelled_rows is_row words) }
    ensures bytes { (is_row : List ℕ → Bool) (words : List ℕ)
        → All AreBytes (spelled_rows is_row words) }
{}

/// The first of some words spell the first of the rows that all of them spell.
pub fn first_words_spell_first_rows()
    ensures { (is_row : List ℕ → Bool) (all words : List ℕ) → BeginsWith all words
        → BeginsWith (spelled_rows is_row all) (spelled_rows is_row words) }
{}

/// Words begin with those of the rows that they spell, and so do longer ones that begin with them.
pub fn words_begin_with_those_of_rows()
    ensures { (all words : List ℕ) → BeginsWith all words
        → BeginsWith all (flat_map row_words (spelled words)) }
{}

/// There are no more rows than words, and no more bytes of rows than bytes of words.
pub fn rows_are_few()
    ensures rows { (is_row : List ℕ → Bool) (words : List ℕ)
        → length (spelled_rows is_row words) ≤ length words }
    ensures bytes { (is_row : List ℕ → Bool) (words : List ℕ)
        → sum_by length (spelled_rows is_row words) ≤ 8 * length words }
{}
