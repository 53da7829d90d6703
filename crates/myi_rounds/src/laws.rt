//! Laws over what jobs of a round say. Each is the contract of a function that does nothing, so that it is proved with the crate
//! and stands for the crates above.
ghost use Rattle.std.specs.Prelude.{◌≡◌, ◌+◌, ◌^◌, ◌<◌, ℕ, true, false, List, [], length, take, Option, None};
ghost use Rattle.std.specs.List.{AllByRecursion};
ghost use Rattle.myi_defs.specs.declared.types.Defs.{Defs};
ghost use Rattle.myi_keycache.specs.declared.setup.Counters.{Counters};
ghost use Rattle.myi_pack.specs.Packed.{Values};
ghost use Rattle.myi_state.specs.State.{TableState};
ghost use Rattle.myi_state.specs.Changes.{Change};
ghost use Rattle.myi_tail.specs.Prefix.{BeginsWith};
ghost use Rattle.myi_snapshots.specs.declared.snapshot.Snapshot.{Snapshot};
ghost use Rattle.myi_snapshots.specs.Seen.{state_at};
ghost use Rattle.myi_readers.specs.declared.reader.TableReader.{TableReader};
ghost use Rattle.myi_readers.specs.Reader.{AreKnown, IsSameReader, rows_known, end_known};
ghost use Rattle.myi_locks.specs.declared.steps.Run.{Run};
ghost use Rattle.myi_locks.specs.declared.steps.Step.{Step};
ghost use Rattle.myi_locks.specs.Steps.{is_read};
ghost use Rattle.myi_script.specs.declared.types.Line.{Line};
ghost use Rattle.myi_history.specs.Bounds.{SessionNumber, number_at};
ghost use Rattle.myi_history.specs.History.{Opening, ScriptRound, in_table, reads_only, asked_in, changes};
ghost use Rattle.myi_history.specs.RoundTexts.{LineText};
ghost use Rattle.myi_history.specs.SideBySide.{RunFits};
ghost use Rattle.myi_history.specs.Text as text;
ghost use Rattle.myi_history.specs.Text.{reads_said, others_said};
ghost use Rattle.myi_rounds.specs.Inserts.{asked_by, inserts_said, HaveInserted, InsertsAtEnd};
ghost use Rattle.myi_rounds.specs.Reads.{AreRead, RiseWithin, AllAre, reads_by};
ghost use Rattle.myi_rounds.specs.ReadJob.{SaidBy};

/// Before a job has done a step it has said nothing (`begun`). What it said stays right while its reader comes to know more
/// (`more`), and it is right of all rows that were inserted, of which the reader knows the first (`behind`).
pub fn said_stays_said()
    ensures begun { (ls : List Line) (r : TableReader) (base : TableState)
        (taken : Option Snapshot) → SaidBy ls r base taken [] [] }
    ensures more { (ls : List Line) (r q : TableReader) (base : TableState)
        (taken : Option Snapshot) (steps : List Step) (texts : List LineText) → IsSameReader r q
        → BeginsWith q.seat.known r.seat.known
        → SaidBy ls r base taken steps texts → SaidBy ls q base taken steps texts }
    ensures behind { (ls : List Line) (r : TableReader) (base : TableState) (rows : List Values)
        (steps : List Step) (texts : List LineText)
        → AreKnown r (take (length (rows_known r)) rows) → end_known r < 2 ^ 64
        → SaidBy ls r base None steps texts
        → AreRead r.defs ls (state_at r.defs base r.number rows)
        (RiseWithin r.number (r.number + length rows)) steps texts }
{}

/// The numbers of a job are those that a run of the round may be given: of a session that holds READ or READ LOCAL (`taken`),
/// and of another (`rising`). What a script on a table says of reads by such numbers is what the job said (`said`).
pub fn jobs_fit_their_runs()
    ensures rising { (p : ScriptRound) (behind : ℕ) (taken : List SessionNumber) (run : Run)
        (ns : List ℕ) → reads_only p.locks run.session ≡ false
        → length ns ≡ length run.steps → RiseWithin p.before behind ns
        → RunFits p behind taken run ns }
    ensures taken { (p : ScriptRound) (behind : ℕ) (taken : List SessionNumber) (run : Run)
        (ns : List ℕ) → reads_only p.locks run.session ≡ true
        → length ns ≡ length run.steps → AllAre (number_at run.session taken) ns
        → RunFits p behind taken run ns }
    ensures said { (o : Opening) (h : List Change) (steps : List Step) (ns : List ℕ)
        → o.script.takes ≡ in_table → AllByRecursion (λ x. is_read x.kind ≡ true) steps
        → length ns ≡ length steps
        → reads_said o h steps ns
        ≡ reads_by o.defs o.script.lines (text.state_at o h) steps ns }
{}

/// An inserter that has put no row has done what no step asks (`begun`). Where a run's steps are inserts of a session that holds no
/// READ or READ LOCAL, and ask of the table what the lines insert (`InsertsAtEnd`), a job changes and says what the run does.
pub fn jobs_insert_as_their_runs()
    ensures begun { (d : Defs) (ls : List Line) (base : TableState)
        → HaveInserted d ls base [] [] [] }
    ensures changes { (o : Opening) (p : ScriptRound) (s : TableState) (steps : List Step)
        → AllByRecursion (InsertsAtEnd o p) steps
        → changes o.defs (asked_in o.script p) s steps
        ≡ changes o.defs (asked_by o.script.lines) s steps }
    ensures said { (o : Opening) (p : ScriptRound) (s : TableState) (c : Counters)
        (steps : List Step) → o.script.takes ≡ in_table → AllByRecursion (InsertsAtEnd o p) steps
        → others_said o p s c steps ≡ inserts_said o.defs (asked_by o.script.lines) s steps }
{}
