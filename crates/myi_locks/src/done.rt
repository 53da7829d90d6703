//! The steps of a round are done: each leaves the front of its session, and changes that session's
//! lock.
ghost use Rattle.std.specs.Prelude.{◌≡◌, fold};
ghost use Rattle.std.specs.List.{flat_map};
ghost use Rattle.myi_locks.specs.Done.{stepped, steps_of};

use crate::session::Session;
use crate::steps::{Round, Run, Step};

fn do_step(sessions: &mut [Session], step: &Step)
    ensures { sessions.new ≡ stepped sessions.old step.now }
{
    for session in sessions.iter_mut() {
        session.step(step);
    }
}

fn do_run(sessions: &mut [Session], steps: &[Step])
    ensures { sessions.new ≡ fold stepped sessions.old steps.now }
{
    for step in steps {
        do_step(sessions, step);
    }
}

fn do_runs(sessions: &mut [Session], runs: &[Run])
    ensures { sessions.new ≡ fold stepped sessions.old (flat_map (λ r. r.steps) runs.now) }
{
    for run in runs {
        do_run(sessions, run.steps.as_slice());
    }
}

/// The steps of a round are done: those of the inserter, then those of each reader.
pub(crate) fn do_round(sessions: &mut Vec<Session>, round: &Round)
    ensures { sessions.new.items ≡ fold stepped sessions.old.items (steps_of round.now) }
{
    match round {
        Round::Finished => {}
        Round::Alone(step) => do_step(sessions, step),
        Round::Together { inserter, readers } => {
            if let Some(run) = inserter {
                do_run(sessions, run.steps.as_slice());
            }
            do_runs(sessions, readers.runs.as_slice());
        }
    }
}
