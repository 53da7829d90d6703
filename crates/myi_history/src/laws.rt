//! Laws over histories and texts of scripts. Each is the contract of a function that does nothing,
//! so that it is proved with the crate and stands for the crates above.
ghost use Rattle.std.specs.Prelude.{◌≡◌, ◌++◌, [], ◌∷◌, ◌≤◌, ℕ, Bool, false, List, map, length, Option, Some, Err};
ghost use Rattle.myi_defs.specs.declared.types.Defs.{Defs};
ghost use Rattle.myi_defs.specs.Sound.{IsSound};
ghost use Rattle.myi_history.specs.Appending.{AreAppends, rows_before};
ghost use Rattle.myi_state.specs.State.{StoredRow, TableState};
ghost use Rattle.myi_state.specs.Changes.{Change, replay};
ghost use Rattle.myi_state.specs.Sound.{IsState};
ghost use Rattle.std.specs.Prelude.{filter, IsPermutation, IsSorted};
ghost use Rattle.std.specs.List.{AllByRecursion};
ghost use Rattle.myi_data.specs.Keys.{key_of};
ghost use Rattle.myi_tablestate.specs.Matching.{Bounds, AreMatching, lies_between};
ghost use Rattle.myi_history.specs.Reads.{rows_between, MergedRow, rows_from, merged_between};
ghost use Rattle.myi_history.specs.Reads.{place_cmp, place_of};
ghost use Rattle.myi_tablestate.specs.Keyed.{KeyedRefusal, keyed_step};
ghost use Rattle.myi_locks.specs.Script as locks;
ghost use Rattle.myi_locks.specs.declared.steps.Step.{Step};
ghost use Rattle.myi_locks.specs.Rounds.{has_steps};
ghost use Rattle.myi_script.specs.declared.types.Line.{Line};
ghost use Rattle.myi_script.specs.Script.{IsScript};
ghost use Rattle.myi_history.specs.Lines.{MayRun, script_steps};
ghost use Rattle.myi_history.specs.History.{Opening, ScriptRound, rounds_of, history, changes_in, state_behind, first_locks, locks_behind, accepted_of, stepped_by, changes, state_after};
ghost use Rattle.std.specs.List.{flat_map};
ghost use Rattle.myi_history.specs.Answers.{LineAnswer, said_text};
ghost use Rattle.myi_history.specs.Text.{Numbers, no_numbers, put_lines};
ghost use Rattle.myi_history.specs.RoundTexts.{said_of, texts_of, in_line_order, joined};
ghost use Rattle.myi_history.specs.RoundTexts.{HaveOwnLines, LineText};
ghost use Rattle.myi_history.specs.Bounds.{PastNumbers, RoundFits, AreWithin};
ghost use Rattle.myi_history.specs.OneThread.{FollowsHistory, IsForced, in_turn, HaveReadsInTurn, StatsRise};

/// The lines of a text in the grammar are those of a script that may run, and the steps of such
/// lines are what `Locks::new` asks for.
pub fn scripts_may_run()
    ensures lines { (merge : Bool) (d : Defs) (text : List ℕ) (ls : List Line)
        → IsScript merge d text ls → MayRun d ls }
    ensures steps { (d : Defs) (ls : List Line) → MayRun d ls → (list : Bool)
        → locks.IsScript (script_steps list ls) }
{}

/// What a range finds are the rows of the table whose key lies between its bounds, in order of key
/// and position, and no other list of them is in that order.
pub fn ranges_find_matching_rows()
    ensures matching { (d : Defs) (k : ℕ) (bounds : Bounds) (rows : List StoredRow)
        → AreMatching d k bounds rows (rows_between d k bounds rows) }
    ensures once { (d : Defs) (s : TableState) (k : ℕ) (bounds : Bounds) (found : List StoredRow)
        → IsState d s → AreMatching d k bounds s.rows found
        → found ≡ rows_between d k bounds s.rows }
{}

/// What a range of a MERGE list finds: a list of the rows of its tables whose key lies between the
/// bounds, in order of the key, of the table's number and of the position, is the one that is
/// defined so.
pub fn ranges_find_merged_rows()
    ensures { (d : Defs) (k : ℕ) (bounds : Bounds) (ss : List TableState) (found : List MergedRow)
        → AllByRecursion (λ (s : TableState). (e : Defs) × IsState e s) ss
        → IsPermutation (filter (λ (r : MergedRow). lies_between bounds (key_of d k r.2)) (rows_from 1 ss)) found
        → IsSorted place_cmp (map (place_of d k) found)
        → found ≡ merged_between d k bounds (rows_from 1 ss) }
{}

/// Changes replayed one after the other are replayed from where the ones before lead to.
pub fn histories_are_replayed()
    ensures append { (d : Defs) (s : TableState) (cs ds : List Change)
        → replay d s (cs ++ ds) ≡ replay d (replay d s cs) ds }
    ensures steps { (d : Defs) (asked : Step → Option Change) (s : TableState) (xs : List Step)
        → replay d s (changes d asked s xs) ≡ state_after d asked s xs }
    ensures round { (o : Opening) (p : ScriptRound)
        → replay o.defs p.state (changes_in o p) ≡ state_behind o p }
{}

/// Rows that are inserted at the end stand behind the end that was: those before it are the rows of
/// the table as it was then. So a session that took READ or READ LOCAL finds its rows below the
/// length of the data file that it took the lock at.
pub fn appended_rows_stand_behind()
    ensures { (d : Defs) (s : TableState) (cs : List Change) → IsSound d → IsState d s
        → AreAppends d cs → rows_before s.space.end (replay d s cs).rows ≡ s.rows }
{}

/// A change that is refused is no change of a history, and changes no state.
pub fn refused_changes_leave()
    ensures history { (d : Defs) (s : TableState) (c : Change) (r : KeyedRefusal)
        → (keyed_step d s c).reply ≡ Err r → accepted_of d s (Some c) ≡ [] }
    ensures state { (d : Defs) (s : TableState) (c : Change) (r : KeyedRefusal)
        → (keyed_step d s c).reply ≡ Err r → stepped_by d s (Some c) ≡ s }
{}

/// Before each round the locks are those behind the rounds before it, and a step is left; the table
/// is the replay of the history so far, which has as many changes as were accepted before; and the
/// round is the next one of these locks with that table's holes.
pub fn rounds_follow_the_history()
    ensures { (o : Opening) (front back : List ScriptRound) (p : ScriptRound)
        → rounds_of o ≡ front ++ p ∷ back → FollowsHistory o front p }
{}

/// The rounds go to the end of the script: where its lines may run, no step is left behind them.
/// The table behind the last round is the replay of the history.
pub fn rounds_are_whole()
    ensures done { (o : Opening) → MayRun o.defs o.script.lines
        → has_steps (locks_behind (first_locks o) (rounds_of o)) ≡ false }
    ensures table { (o : Opening) (front : List ScriptRound) (p : ScriptRound)
        → rounds_of o ≡ front ++ p ∷ [] → state_behind o p ≡ replay o.defs o.base (history o) }
{}

/// The numbers of a run on one thread, whose reads go before the inserts of their round, are within
/// their bounds, with any counters that rise from one `stats` to the next; so they are where
/// nothing is counted.
pub fn numbers_can_be_given()
    ensures counted { (o : Opening) (c : List Numbers) → HaveReadsInTurn o c
        → StatsRise no_numbers.counters (rounds_of o) c → AreWithin o c }
    ensures zeros { (o : Opening) → AreWithin o (in_turn [] (rounds_of o)) }
{}

/// In a round that accepts no change, or reads nothing, the bounds leave one number for each read
/// (`round`). With one session so it is in all rounds (`alone`).
pub fn numbers_are_forced()
    ensures round { (o : Opening) (past : PastNumbers) (p : ScriptRound) (c e : Numbers) → IsForced o p
        → RoundFits o past p c → RoundFits o past p e → c.reads ≡ e.reads }
    ensures alone { (o : Opening) (c e : List Numbers) → length (first_locks o).sessions ≤ 1
        → AreWithin o c → AreWithin o e → map (λ n. n.reads) c ≡ map (λ n. n.reads) e }
{}

/// What is said of a round, put by its lines, has the texts in order of line.
pub fn texts_stand_in_line_order()
    ensures { (said : List LineAnswer)
        → flat_map said_text (put_lines [] said) ≡ joined (in_line_order (texts_of said)) }
{}

/// Texts of which each line has one stand in one order of line, whatever order they come in.
pub fn texts_come_in_any_order()
    ensures own { (texts others : List LineText) → IsPermutation texts others
        → HaveOwnLines texts → HaveOwnLines others }
    ensures order { (texts others : List LineText) → IsPermutation texts others
        → HaveOwnLines texts → in_line_order others ≡ in_line_order texts }
{}

/// In a round of a script that may run, no line is answered twice.
pub fn lines_are_answered_once()
    ensures { (o : Opening) (h : List Change) (front back : List ScriptRound) (p : ScriptRound)
        (ns : Numbers) → MayRun o.defs o.script.lines → rounds_of o ≡ front ++ p ∷ back
        → HaveOwnLines (texts_of (said_of o h p ns)) }
{}
