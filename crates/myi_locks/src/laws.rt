//! Laws on rounds. Each is the contract of a function that does nothing, so that it is proved with
//! the crate and stands for the crates above.
//!
//! `EachRound` says something of the next round of any sessions that keep what those of a script
//! keep (`IsLawful`), whatever the setting is and whether the table has holes. That the sessions of
//! a script begin so and stay so is `rounds_end`.
ghost use Rattle.std.specs.Prelude.{◌≡◌, ◌<◌, ◌≤◌, ℕ, Bool, true, false, None, Some, List, length};
ghost use Rattle.myi_locks.specs.declared.steps.Step.{Step};
ghost use Rattle.myi_locks.specs.declared.steps.Round.TheVariants.{Finished};
ghost use Rattle.myi_locks.specs.Sessions.{Session, first};
ghost use Rattle.myi_locks.specs.Rounds.{LockState, next_round, has_steps};
ghost use Rattle.myi_locks.specs.Done.{steps_of, advanced, held};
ghost use Rattle.myi_locks.specs.Script.{opening, own, IsScript};
ghost use Rattle.myi_locks.specs.Laws.{EachRound, HoldsStep, HasOneWriter, ReadsOrInserts};
ghost use Rattle.myi_locks.specs.Laws.{HasOwnRuns};
ghost use Rattle.myi_locks.specs.Laws.{AreReadsOrNone, InsertsAreConcurrent};
ghost use Rattle.myi_locks.specs.Laws.{IsExclusive, IsRefused, IsLawful, IsFirst};
ghost use Rattle.myi_locks.specs.Laws.{steps_left, after_rounds, lock_left};

/// A round is `Finished` exactly where no step is left, and every other round holds a step.
pub fn rounds_hold_steps()
    ensures finished { (r : LockState) (holes : Bool)
        → next_round r holes ≡ Finished → has_steps r ≡ false }
    ensures done { (r : LockState) (holes : Bool)
        → has_steps r ≡ false → next_round r holes ≡ Finished }
    ensures some { EachRound (λ r holes round. has_steps r ≡ true → HoldsStep round) }
{}

/// The rounds of a script end, after at most as many as it has steps, whatever holes the table has
/// in between: its sessions are lawful and stay so, and each round but the last does a step.
pub fn rounds_end()
    ensures opens { (setting : ℕ) (xs : List Step) → IsScript xs
        → IsLawful (opening setting xs).sessions }
    ensures kept { EachRound (λ r holes round. IsLawful (advanced r round).sessions) }
    ensures fewer { EachRound (λ r holes round. has_steps r ≡ true
        → steps_left (advanced r round).sessions < steps_left r.sessions) }
    ensures ends { (r : LockState) (holes : List Bool) (hole : Bool) → IsLawful r.sessions
        → steps_left r.sessions ≤ length holes → next_round (after_rounds r holes) hole ≡ Finished }
{}

/// In a round at most one session changes the table, and a round of kind Together is of reads and
/// of inserts alone: at most one run of inserts, and runs of reads, each of a session of its own.
pub fn one_session_changes()
    ensures one { EachRound (λ r holes round. HasOneWriter round) }
    ensures kinds { EachRound (λ r holes round. ReadsOrInserts round) }
    ensures runs { EachRound (λ r holes round. HasOwnRuns round) }
{}

/// An insert runs in a round of kind Together exactly where it may be concurrent and its session
/// holds no lock.
pub fn inserts_are_concurrent()
    ensures { EachRound InsertsAreConcurrent }
{}

/// What is called the first is the next step of a session that passes the test, and none comes
/// before it.
pub fn first_is_lowest()
    ensures { (test : Session → Bool) (ss : List Session) (x : Step)
        → first test ss ≡ Some x → IsFirst test x ss }
{}

/// The lock that a session holds is the one that its steps have left it: before the first round it
/// holds none, and its steps of a round change its lock one after the other.
pub fn locks_follow_steps()
    ensures opening { (setting : ℕ) (xs : List Step) (n : ℕ) → held (opening setting xs) n ≡ None }
    ensures round { EachRound (λ r holes round. (n : ℕ)
        → held (advanced r round) n ≡ lock_left (held r n) (own n (steps_of round))) }
{}

/// A WRITE lock excludes all others. And where a session holds a read lock, a step that writes alone
/// is one of a session that holds such a lock itself.
pub fn locks_exclude()
    ensures opening { (setting : ℕ) (xs : List Step) → IsExclusive (opening setting xs).sessions }
    ensures kept { EachRound (λ r holes round. IsExclusive r.sessions
        → IsExclusive (advanced r round).sessions) }
    ensures refused { EachRound (λ r holes round. IsExclusive r.sessions → IsRefused r round) }
{}

/// With one session a round has reads alone, or none; and the sessions stay as many.
pub fn one_session()
    ensures kind { (r : LockState) (holes : Bool) → length r.sessions ≤ 1
        → AreReadsOrNone (steps_of (next_round r holes)) }
    ensures kept { EachRound (λ r holes round.
        length (advanced r round).sessions ≡ length r.sessions) }
{}
