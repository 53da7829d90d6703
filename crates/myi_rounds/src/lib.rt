//! The runs of a round of kind Together, as jobs over the parts of a shared table.
//!
//! In such a round several sessions read, and at most one inserts at the table's end. The table is shared (`myi_share`), and
//! each session's run is a job that owns its part, so that the jobs may go on threads.
//!
//! - `ReadJob` does the reads of a session, one after the other: it has a `Reader`, and notes what they say in `RoundTexts`. What
//!   holds of each is `IsReadJob`; what its calls leave is `GoesOn`, which says of the texts what `HasSaid` does: they are those
//!   of the reads of the run's first steps, each with a number of changes. A refusal ends a run, and the job keeps how many
//!   steps are done, so that the others may be done later, by the job or by whoever has the table back.
//! - `InsertJob` does the inserts of a session in the same way, by the `Inserter`, and keeps their answers as `Replied`. What holds
//!   of each is `IsInsertJob`, and what its calls leave `GoesOn` of `specs/InsertJob`: the rows that it has put are those which
//!   the run's first steps insert, as `HasInserted` says.
//! - The law `said_stays_said` says that nothing of it is lost while others insert, and `jobs_fit_their_runs` that the numbers
//!   are those which `myi_history` asks of a run (`RunFits`); `jobs_insert_as_their_runs` says the like of inserts.
//! - `run_side_by_side` does the jobs of a round, each on a thread of its own. What is refused in a session is left to be done, and
//!   its job tells why.
//! - `go_side_by_side` is a whole round on a table that stays with its owner: it shares the table, runs the jobs, and takes it back
//!   with the rows that were put. What it is asked is an `AskedRound`, and how far each run came a `WentRound`; what holds of both
//!   is `HasGone`.
//! - `Gate` is called when a step begins and when it ends. `act_of` and `range_of` answer what a line asks of a table.
//!
//! ```
//! let reads = [AskedReads { steps: others, taken: None }];
//! let asked = AskedRound { number, lines, inserts: steps, reads: &reads };
//! let host = Host { rt, gate: &OpenGate, alloc };
//! let went = go_side_by_side(&host, &mut table, &mut files, &asked)?;
//! ```
#![tactic(auto)]

mod backs;
mod fault;
mod finding;
mod gate;
mod insert_job;
mod inserting;
mod job;
mod laws;
mod read_job;
mod reads;
mod round;
mod statements;
mod words;

pub use fault::RoundFault;
pub use gate::{Gate, OpenGate, end_step, pass_step};
pub use insert_job::InsertJob;
pub use inserting::Replied;
pub use job::{InsertRun, Job, ReadRun, run_side_by_side};
pub use laws::{jobs_fit_their_runs, jobs_insert_as_their_runs, said_stays_said};
pub use read_job::ReadJob;
pub use round::{AskedReads, AskedRound, Host, WentReads, WentRound, go_side_by_side};
pub use statements::{act_of, range_of};
