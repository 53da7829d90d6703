//! `Job`: the run of a session in a round of kind Together, and the jobs of a round side by side.
ghost use Rattle.myi_rounds.specs.Jobs.{JobRan, EachRan};

use crate::gate::Gate;
use crate::insert_job::InsertJob;
use crate::read_job::ReadJob;
use myi_inserter::InsertFault;
use myi_io::FileReader;
use myi_readers::SeenFault;
use std::thread::{self, Threads};

/// A run of reads, and why it ended before its last step, if it did.
#[derive(Drop)]
pub struct ReadRun<'a, R: FileReader> {
    pub job: ReadJob<'a, R>,
    pub refused: Option<SeenFault>,
}

/// A run of inserts, and why it ended before its last step, if it did.
#[derive(Drop)]
pub struct InsertRun<'a, R: FileReader> {
    pub job: InsertJob<'a, R>,
    pub refused: Option<InsertFault>,
}

/// The run of a session.
#[derive(Drop)]
pub enum Job<'a, R: FileReader> {
    Reads(ReadRun<'a, R>),
    Inserts(InsertRun<'a, R>),
}

// Does the run of a session. What is refused is left to be done.
fn run_one<R: FileReader, G: Gate>(gate: &G, job: &mut Job<'_, R>)
    ensures { JobRan R.holds R.faults job.old job.new }
{
    match job {
        Job::Reads(run) => run.refused = run.job.run(gate).err(),
        Job::Inserts(run) => run.refused = run.job.run(gate).err(),
    }
}

/// Does the runs of sessions, each on a thread of its own. What is refused in a session is left to be done, and its job tells why.
pub fn run_side_by_side<T: Threads + Sync, R: FileReader, G: Gate>(
    rt: &T,
    gate: &G,
    jobs: &mut [Job<'_, R>],
)
    ensures { EachRan R.holds R.faults jobs.old jobs.new }
{
    let count = jobs.len();
    if count == 0 {
        return;
    }
    thread::for_each_mut(rt, jobs, count, &|_, job| run_one(gate, job));
}
