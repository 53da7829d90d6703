//! Laws over the definitions of this crate. Each is the contract of a function that does nothing, so
//! that it is proved with the crate and stands for the crates above.
ghost use Rattle.std.specs.Prelude.{◌≡◌, ◌+◌, ◌≤◌, ◌∷◌, ◌++◌};
ghost use Rattle.std.specs.Prelude.{ℕ, List, [], take, length, slice_index, All};
ghost use Rattle.std.specs.List.{flat_map};
ghost use mathlib.Core.Option.{some};
ghost use lib.ListN.{get_elem?};
ghost use Rattle.myi_base.specs.Numbers.{AreBytes};
ghost use Rattle.myi_tail.specs.Prefix.{BeginsWith};
ghost use Rattle.myi_tail.specs.Rows.{row_words};
ghost use Rattle.myi_tail.specs.Spelled.{AreSpelled, spelled};
ghost use Rattle.myi_tail.specs.Rule.{Moment, IsKnown, Kept, Keeps};
ghost use Rattle.myi_tail.specs.Runs.{new_table, published_in, IsRun, ReadersFollow};
ghost use Rattle.myi_tail.specs.Steps.{AppenderView, ReaderView, appends, reads};
ghost use Rattle.myi_tail.specs.Steps.{StoresWord, StoresCount, LooksAtCount};
ghost use Rattle.myi_tail.specs.Steps.{LoadsCount, LoadsWord, SplitsSeat, JoinsSeat};

/// Whatever steps the appender and any number of readers make, in any order: at each moment each reader
/// saw no more than is published, and knows the first of the published words.
pub fn readers_follow_the_tail()
    ensures { (words : ℕ) (run : List Moment) → IsRun (new_table words) run
        → All ReadersFollow run }
{}

/// At each moment of the rule a reader saw no more than the published words, and the words that it knows
/// are the first of these. So are those that the readers knew whose seats were joined.
pub fn known_words_are_published()
    ensures published { (m : Moment) (k : Kept m)
        → take k.published k.words ≡ published_in m }
    ensures seen { (m : Moment) → Kept m → (seat : ℕ) (r : ReaderView)
        → get_elem? m.views seat ≡ some (reads r) → r.seen ≤ slice_index m.cells 0 }
    ensures known { (m : Moment) (k : Kept m) (seat : ℕ) (r : ReaderView)
        → get_elem? m.views seat ≡ some (reads r) → BeginsWith (take k.published k.words) r.known }
    ensures joined { (m : Moment) (k : Kept m) (seat : ℕ) (a : AppenderView)
        → get_elem? m.views seat ≡ some (appends a)
        → All (BeginsWith (take k.published k.words)) a.joined }
{}

/// The rule holds of a new table, and each kind of step keeps it, from any moment and through any seat.
/// The stores and the loads are what happens to a tail: a word is added; all words are published; a
/// reader sees the published count; a reader knows one more of the words, the next. When the appender looks
/// at the count, it learns that what joined readers knew are the first of the published words.
pub fn steps_keep_the_rule()
    ensures opening { (words : ℕ) → Kept (new_table words) }

    ensures word_stored { (seat : ℕ) (a : AppenderView) (word : ℕ) (before after : Moment)
        → (k : Kept before) → StoresWord seat a word before after
        → Keeps after (k.words ++ word ∷ []) k.published }
    ensures count_stored { (seat : ℕ) (a : AppenderView) (before after : Moment)
        → (k : Kept before) → StoresCount seat a before after
        → Keeps after k.words (length k.words) }
    ensures count_looked_at { (seat : ℕ) (a : AppenderView) (before after : Moment)
        → (k : Kept before) → LooksAtCount seat a before after
        → Keeps after k.words k.published × All (IsKnown a.published a.words) a.joined }
    ensures count_loaded { (seat : ℕ) (r : ReaderView) (count : ℕ) (before after : Moment)
        → (k : Kept before) → LoadsCount seat r count before after
        → Keeps after k.words k.published × (count ≡ k.published) × (r.seen ≤ count) }
    ensures word_loaded { (seat : ℕ) (r : ReaderView) (word : ℕ) (before after : Moment)
        → (k : Kept before) → LoadsWord seat r word before after
        → Keeps after k.words k.published × (word ≡ slice_index k.words (length r.known)) }
    ensures seat_split { (seat : ℕ) (a : AppenderView) (before after : Moment)
        → (k : Kept before) → SplitsSeat seat a before after
        → Keeps after k.words k.published }
    ensures seat_joined { (seat other : ℕ) (a : AppenderView) (r : ReaderView)
        (before after : Moment)
        → (k : Kept before) → JoinsSeat seat other a r before after
        → Keeps after k.words k.published }
{}

/// Rows of bytes that are spelled one after the other are read back, whatever words follow; of any words
/// there is one list of rows that they spell up to the first place where no whole row stands.
pub fn rows_read_back()
    ensures read { (rows : List (List ℕ)) (rest : List ℕ) → All AreBytes rows
        → spelled (flat_map row_words rows ++ rest) ≡ rows ++ spelled rest }
    ensures found { (words : List ℕ) → AreSpelled words (spelled words) }
    ensures once { (words : List ℕ) (rows : List (List ℕ))
        → AreSpelled words rows → rows ≡ spelled words }
{}

/// The first of some words spell the first of the rows that all of them spell.
pub fn spelled_rows_are_first()
    ensures { (all words : List ℕ) → BeginsWith all words
        → BeginsWith (spelled all) (spelled words) }
{}
