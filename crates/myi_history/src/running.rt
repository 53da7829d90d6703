//! Laws of a run of a script, which does one round after the other: what it has done so far
//! (`HasRun`), and what stands behind that. The numbers of its reads are any within their bounds;
//! those of one thread that does a round's reads before its inserts are among them. Each law is the
//! contract of a function that does nothing, so that it is proved with the crate and stands for the
//! crates above.
ghost use Rattle.std.specs.Prelude.{◌≡◌, ◌++◌, ◌-◌, ◌≤◌, [], ◌∷◌, ℕ, true, false, nat_lt, List, filter, take, Option};
ghost use Rattle.std.specs.List.{AllByRecursion, flat_map};
ghost use Rattle.myi_keycache.specs.declared.setup.Counters.{Counters};
ghost use Rattle.myi_defs.specs.declared.types.Defs.{Defs};
ghost use Rattle.myi_defs.specs.Sound.{IsSound};
ghost use Rattle.myi_script.specs.declared.types.Act.{Act};
ghost use Rattle.myi_state.specs.Changes.{replay};
ghost use Rattle.myi_state.specs.Sound.{IsState};
ghost use Rattle.myi_state.specs.State.{TableState};
ghost use Rattle.myi_locks.specs.declared.steps.Run.{Run};
ghost use Rattle.myi_locks.specs.declared.steps.Runs.{Runs};
ghost use Rattle.myi_locks.specs.declared.steps.Round.TheVariants.{Together};
ghost use Rattle.myi_locks.specs.Rounds.{has_steps};
ghost use Rattle.myi_locks.specs.Done.{advanced, run_steps};
ghost use Rattle.myi_history.specs.Answers.{said_text};
ghost use Rattle.myi_history.specs.Appending.{AreAppends, rows_before};
ghost use Rattle.myi_history.specs.Bounds.{AreWithin, taken_by};
ghost use Rattle.myi_history.specs.History.{Opening, ScriptRound, is_list, changes_in, history};
ghost use Rattle.myi_history.specs.History.{number_behind, reads_only, state_behind};
ghost use Rattle.myi_history.specs.Lines.{MayRun};
ghost use Rattle.myi_history.specs.OneThread.{counted_by};
ghost use Rattle.myi_history.specs.Reads.{found};
ghost use Rattle.myi_history.specs.Running.{HasRun, IsNext, IsNextInTurn, counted_in, taken_in};
ghost use Rattle.myi_history.specs.Running.{locks_after, next_after, number_after, run_text};
ghost use Rattle.myi_history.specs.Running.{seen_state, table_after};
ghost use Rattle.myi_history.specs.SideBySide.{InsertsRow, RunsFit};
ghost use Rattle.myi_history.specs.Text.{Numbers, round_said, shell_text, state_at};

/// Before the first round nothing is done.
pub fn runs_begin()
    ensures { (o : Opening) → HasRun o [] [] }
{}

/// The numbers of a round that one thread does, whose reads go before its inserts, are within their
/// bounds, whatever numbers the rounds before it had.
pub fn rounds_go_on_in_turn()
    ensures { (o : Opening) (front : List ScriptRound) (c : List Numbers) (ns : Numbers)
        → HasRun o front c → IsNextInTurn o front c ns → IsNext o front c ns }
{}

/// So are those of a round of kind Together whose sessions go side by side: the numbers of each
/// session's reads are that of its Take, or lie between the changes before the round and those
/// behind it and do not fall.
pub fn rounds_go_on_side_by_side()
    ensures { (o : Opening) (front : List ScriptRound) (c : List Numbers) (ns : Numbers)
        (inserter : Option Run) (readers : Runs) → MayRun o.defs o.script.lines → HasRun o front c
        → (next_after o front).round ≡ Together inserter readers
        → RunsFit (next_after o front) (number_behind o (next_after o front)) (taken_in front)
        readers.runs ns.reads → IsNext o front c ns }
{}

/// In a round of kind Together the inserter's steps insert the rows of their lines, and its session
/// holds no READ or READ LOCAL (`inserts`). The table after a number of changes between those before
/// a round and those behind it is the one before it with the first changes of the round (`between`).
/// What a session that holds READ or READ LOCAL sees is a state, and does not end behind the table
/// (`seen`).
pub fn sessions_go_beside_inserts()
    ensures inserts { (o : Opening) (front : List ScriptRound) (c : List Numbers)
        (inserter : Option Run) (readers : Runs) → MayRun o.defs o.script.lines → HasRun o front c
        → (next_after o front).round ≡ Together inserter readers
        → AllByRecursion (InsertsRow o.script.lines (locks_after o front)) (run_steps inserter) }
    ensures between { (o : Opening) (front : List ScriptRound) (c : List Numbers) (n : ℕ)
        → MayRun o.defs o.script.lines → HasRun o front c → has_steps (locks_after o front) ≡ true
        → number_after o front ≤ n → n ≤ number_behind o (next_after o front)
        → state_at o (history o) n ≡ replay o.defs (table_after o front)
        (take (n - number_after o front) (changes_in o (next_after o front))) }
    ensures seen { (o : Opening) (front : List ScriptRound) (c : List Numbers) (n : ℕ)
        → MayRun o.defs o.script.lines → IsSound o.defs → IsState o.defs o.base → HasRun o front c
        → reads_only (locks_after o front) n ≡ true
        → IsState o.defs (seen_state o front n)
        × ((seen_state o front n).space.end ≤ (table_after o front).space.end) }
{}

/// Where a step is left, the run goes on by the next round, with numbers that are within their
/// bounds, by those before. What stands behind a round more.
pub fn runs_go_on()
    ensures next { (o : Opening) (front : List ScriptRound) (c : List Numbers) (ns : Numbers)
        → MayRun o.defs o.script.lines → HasRun o front c → has_steps (locks_after o front) ≡ true
        → IsNext o front c ns → HasRun o (front ++ next_after o front ∷ []) (c ++ ns ∷ []) }
    ensures locks { (o : Opening) (front : List ScriptRound) (p : ScriptRound)
        → locks_after o (front ++ p ∷ []) ≡ advanced (locks_after o front) p.round }
    ensures table { (o : Opening) (front : List ScriptRound)
        → table_after o (front ++ next_after o front ∷ []) ≡ state_behind o (next_after o front) }
    ensures number { (o : Opening) (front : List ScriptRound)
        → number_after o (front ++ next_after o front ∷ []) ≡ number_behind o (next_after o front) }
    ensures taken { (front : List ScriptRound) (p : ScriptRound)
        → taken_in (front ++ p ∷ []) ≡ taken_by p.before p.round ++ taken_in front }
    ensures counted { (o : Opening) (front : List ScriptRound) (c : List Numbers) (last : Counters)
        (p : ScriptRound) (ns : Numbers) → HasRun o front c
        → counted_in last (front ++ p ∷ []) (c ++ ns ∷ [])
        ≡ counted_by (counted_in last front c) p ns }
    ensures text { (o : Opening) (front : List ScriptRound) (c : List Numbers) (p : ScriptRound)
        (ns : Numbers) → HasRun o front c → run_text o (front ++ p ∷ []) (c ++ ns ∷ [])
        ≡ run_text o front c ++ flat_map said_text (round_said o (history o) p ns) }
{}

/// Where no step is left, the run is one of the whole script: its numbers are within their bounds,
/// it printed the script's text, and the table is the replay of the history.
pub fn runs_end()
    ensures within { (o : Opening) (front : List ScriptRound) (c : List Numbers) → HasRun o front c
        → has_steps (locks_after o front) ≡ false → AreWithin o c }
    ensures text { (o : Opening) (front : List ScriptRound) (c : List Numbers) → HasRun o front c
        → has_steps (locks_after o front) ≡ false → shell_text o c ≡ run_text o front c }
    ensures table { (o : Opening) (front : List ScriptRound) (c : List Numbers) → HasRun o front c
        → has_steps (locks_after o front) ≡ false
        → table_after o front ≡ replay o.defs o.base (history o) }
{}

/// What a run that stops has printed is the beginning of a text of the script, with numbers within
/// their bounds.
pub fn runs_that_stop()
    ensures { (o : Opening) (front : List ScriptRound) (c : List Numbers) → HasRun o front c
        → (e : List Numbers) × AreWithin o e
        × (rest : List ℕ) × (shell_text o e ≡ run_text o front c ++ rest) }
{}

/// The table behind the rounds that are done is the one that the changes so far lead to. While a
/// session holds READ or READ LOCAL, rows are inserted at the end alone (`appends`), so the rows
/// that stood when it took the lock are those below the length that the data file had then
/// (`taken`). Of the rows below a place a read finds those that it finds among all rows and that
/// stand there, in the same order (`found`). On a MERGE list nothing is inserted while a session
/// holds such a lock, so it reads the tables as they are (`lists`).
pub fn tables_are_read()
    ensures now { (o : Opening) (front : List ScriptRound) (c : List Numbers) → HasRun o front c
        → state_at o (history o) (number_after o front) ≡ table_after o front }
    ensures state { (o : Opening) (front : List ScriptRound) (c : List Numbers)
        → MayRun o.defs o.script.lines → IsSound o.defs → IsState o.defs o.base → HasRun o front c
        → IsState o.defs (table_after o front) }
    ensures appends { (o : Opening) (front : List ScriptRound) (c : List Numbers) (n : ℕ)
        → MayRun o.defs o.script.lines → HasRun o front c → reads_only (locks_after o front) n ≡ true
        → AreAppends o.defs (changes_in o (next_after o front)) }
    ensures taken { (o : Opening) (front : List ScriptRound) (c : List Numbers) (n : ℕ)
        → MayRun o.defs o.script.lines → IsSound o.defs → IsState o.defs o.base → HasRun o front c
        → reads_only (locks_after o front) n ≡ true
        → rows_before (seen_state o front n).space.end (table_after o front).rows
        ≡ (seen_state o front n).rows }
    ensures lists { (o : Opening) (front : List ScriptRound) (c : List Numbers) (n : ℕ)
        → MayRun o.defs o.script.lines → IsSound o.defs → IsState o.defs o.base → HasRun o front c
        → reads_only (locks_after o front) n ≡ true → is_list o.script.takes ≡ true
        → seen_state o front n ≡ table_after o front }
    ensures found { (d : Defs) (s t : TableState) (a : Option Act) (place : ℕ)
        → t.rows ≡ rows_before place s.rows
        → found d t a ≡ filter (λ r. nat_lt r.0 place) (found d s a) }
{}
