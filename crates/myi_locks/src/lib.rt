//! Lock rounds: which steps of several sessions on one table are done next, under its table locks.
//!
//! A script gives each session a list of steps: reads, changes, and steps that take or give up a
//! lock of the table. They are done in rounds. A round is one step alone, or reads of several
//! sessions together, with the inserts of at most one session beside them. Which round is next is
//! the first of six cases (`next_round` in `specs/Rounds`): they keep what the MySQL manual says of
//! `LOCK TABLES` and of concurrent inserts; that steps go in rounds, and which round is first, are
//! this project's own. A contract sees `Locks` as a `LockState`: the setting
//! of concurrent inserts, and of each session its number, the steps that it has not done, and the
//! lock that it holds.
//!
//! `Locks::new` takes the steps of a script. `round` answers the next round, `advance` does its
//! steps, and `held` tells the lock of a session. What a step does to the table is not known here;
//! of the table it is asked only whether it has a hole. The laws on rounds are the contracts of the
//! functions in `laws`.
//!
//! ```
//! let mut locks = Locks::new(alloc, steps, setting)?;
//! let round = locks.round(holes)?;
//! locks.advance(&round);
//! push_round(&mut out, &round)?;
//! if let Some(kind) = locks.held(session) {
//!     write!(out, " {session}={}", lock_word(kind))?;
//! }
//! ```
//!
//! The case `rounds` in `crates/cases_locks/src/rounds.rt` runs it.
#![tactic(auto)]

mod done;
mod laws;
mod locks;
mod opening;
mod rounds;
mod session;
mod steps;

pub use laws::{
    first_is_lowest, inserts_are_concurrent, locks_exclude, locks_follow_steps, one_session,
    one_session_changes, rounds_end, rounds_hold_steps,
};
pub use locks::Locks;
pub use steps::{LockKind, Round, Run, Runs, Step, StepKind};
