//! Laws over the header and its state. Each is the contract of a function that does nothing, so that it is
//! proved with the crate and stands for the crates above.
ghost use Rattle.std.specs.Prelude.{◌≡◌, ◌≤◌, ◌<◌, ◌+◌, ◌++◌, ℕ, true, List, length, take, drop, Ok};
ghost use Rattle.myi_base.specs.Numbers.{AreBytes, num_at};
ghost use Rattle.myi_defs.specs.declared.types.Defs.{Defs};
ghost use Rattle.myi_defs.specs.Sound.{IsSound};
ghost use Rattle.myi_defs.specs.ReadDefs.{read_defs, AreDefs};
ghost use Rattle.myi_defs.specs.EmptyTable.{empty_header};
ghost use Rattle.myi_defs.specs.Elsewhere.{AgreeOutsideState};
ghost use Rattle.myi_header.specs.declared.state.State.{State};
ghost use Rattle.myi_header.specs.Layout.{first_page_of};
ghost use Rattle.myi_header.specs.StateOf.{rest_length, state_of, has_mark, read_state};
ghost use Rattle.myi_header.specs.HeaderOf.{IsStored, header_of};
ghost use Rattle.myi_header.specs.EmptyState.{empty_state};
ghost use Rattle.myi_header.specs.Parts.{part};
ghost use Rattle.myi_header.specs.Analysis as analysis;
ghost use Rattle.myi_header.specs.Analysis.{with_numbers, HasRoomFor, IsAnalyzed};

/// The header with a state reaches to the first page. Whatever stands behind it, the state is read again,
/// the mark is there, and what is neither is that of the header before.
pub fn headers_read_back()
    ensures long { (d : Defs) (s : State) → IsSound d → length s.roots ≡ length d.keys
        → length s.rest ≡ rest_length d → length (header_of d s) ≡ first_page_of d }
    ensures read { (d : Defs) (s : State) (more : List ℕ) → IsSound d → IsStored d s
        → read_state d (header_of d s ++ more) ≡ Ok s }
    ensures state { (d : Defs) (s : State) (more : List ℕ) → IsSound d → IsStored d s
        → state_of d (header_of d s ++ more) ≡ s }
    ensures marked { (d : Defs) (s : State) (more : List ℕ) → IsSound d → IsStored d s
        → has_mark d (header_of d s ++ more) ≡ true }
    ensures elsewhere { (d : Defs) (s : State) (more : List ℕ) → IsSound d → IsStored d s
        → AgreeOutsideState d.raw (header_of d s ++ more) }
{}

/// The state rests on as many bytes as the header has, and so many of them are kept as they are.
pub fn states_rest_on_the_header()
    ensures front { (d : Defs) (n : ℕ) (x : List ℕ) → IsSound d → length d.raw ≤ n
        → state_of d (take n x) ≡ state_of d x }
    ensures rest { (d : Defs) (x : List ℕ) → IsSound d → length d.raw ≤ length x
        → length (state_of d x).rest ≡ rest_length d }
{}

/// The header of an empty table is the header with the empty state, and that state is read of it: by the
/// definitions that it was printed from, and by those that it has itself.
pub fn empty_tables_are_empty()
    ensures header { (d : Defs) → IsSound d → empty_header d.raw ≡ header_of d (empty_state d) }
    ensures read { (d : Defs) → IsSound d → AreBytes d.raw
        → read_state d (empty_header d.raw) ≡ Ok (empty_state d) }
    ensures again { (d again : Defs) → AreDefs d → AreBytes again.raw
        → read_defs (empty_header d.raw) ≡ Ok again
        → read_state again (empty_header d.raw) ≡ Ok (empty_state again) }
{}

/// What is read of an index file with new numbers: each of these numbers, the changed bits without the one
/// that says not analyzed, and all other bytes of the file before: those in front of the changed bits, those
/// between them and the numbers, and those behind the numbers. The header that the definitions were read from has
/// the changed bits of its file.
pub fn numbers_read_back()
    ensures read { (d : Defs) (rows : ℕ) (parts x : List ℕ) → IsSound d → HasRoomFor d rows parts x
        → IsAnalyzed d rows parts x (with_numbers d rows parts x) }
    ensures front { (d : Defs) (rows : ℕ) (parts x : List ℕ) (k : ℕ) → IsSound d
        → HasRoomFor d rows parts x → k ≤ analysis.changed_place
        → take k (with_numbers d rows parts x) ≡ take k x }
    ensures between { (d : Defs) (rows : ℕ) (parts x : List ℕ) (p w : ℕ) → IsSound d
        → HasRoomFor d rows parts x → analysis.changed_place < p → p + w ≤ analysis.rows_place d
        → part p w (with_numbers d rows parts x) ≡ part p w x }
    ensures behind { (d : Defs) (rows : ℕ) (parts x : List ℕ) (p : ℕ) → IsSound d
        → HasRoomFor d rows parts x → analysis.part_place d (length parts) ≤ p
        → drop p (with_numbers d rows parts x) ≡ drop p x }
    ensures bits { (d : Defs) (x : List ℕ) → IsSound d → d.raw ≡ take (num_at 6 2 x) x
        → analysis.changed_bits d.raw ≡ analysis.changed_bits x }
{}
