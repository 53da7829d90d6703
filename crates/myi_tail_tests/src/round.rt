//! One appender and its readers from a new tail to its close.
ghost use Rattle.std.specs.Prelude.{◌≡◌, ◌<◌, All, map, IfOk, IfSome};
ghost use Rattle.myi_tail_tests.specs.Jobs.{tail_of};

use crate::job::{Append, Job, ROW_WORDS, ROWS, Read};
use crate::run::run_all;
use myi_tail::Tail;
use std::alloc::{AllocError, Global};
use std::thread::Threads;

/// What is left of a round: the published words, how many readers compared all of them, and how many
/// found a word or a count that was not as expected.
#[derive(Drop)]
pub struct Round {
    pub words: Vec<u64>,
    pub finished: u64,
    pub unsound: u64,
}

fn jobs_of(alloc: Global, tail: Tail) -> Result<Vec<Job>, AllocError>
    requires { All (λ r. r.tail ≡ tail.appender.tail) tail.readers.items }
    ensures { IfOk result (λ v. All (λ j. tail_of j ≡ tail.appender.tail) v.items) }
{
    let Tail { appender, readers } = tail;
    let mut jobs = Vec::new(alloc);
    jobs.push(Job::Append(Append { appender, rows: 0 }))?;
    for reader in readers {
        let read = Read {
            reader,
            seen: 0,
            compared: 0,
            sound: true,
        };
        jobs.push(Job::Read(read))?;
    }
    Ok(jobs)
}

fn tail_from(alloc: Global, jobs: Vec<Job>) -> Result<Option<Tail>, AllocError>
    ensures { (id : _) → All (λ j. tail_of j ≡ id) jobs.items
        → IfOk result (λ o. IfSome o (λ t.
        (t.appender.tail ≡ id) × All (λ r. r.tail ≡ id) t.readers.items)) }
{
    let mut found = None;
    let mut readers = Vec::new(alloc);
    for job in jobs {
        match job {
            Job::Append(append) => found = Some(append.appender),
            Job::Read(read) => readers.push(read.reader)?,
        }
    }
    match found {
        Some(appender) => Ok(Some(Tail { appender, readers })),
        None => Ok(None),
    }
}

fn run_them<R: Threads + Sync>(rt: &R, jobs: &mut Vec<Job>)
    ensures { map tail_of jobs.new.items ≡ map tail_of jobs.old.items }
{
    run_all(rt, jobs.as_mut_slice());
}

// How many readers compared all words, and how many found one that was not as expected.
fn tally(jobs: &[Job]) -> (u64, u64) {
    let mut finished: u64 = 0;
    let mut unsound: u64 = 0;
    for job in jobs.iter() {
        if let Job::Read(read) = job {
            finished = finished.wrapping_add(u64::from(job.is_done()));
            unsound = unsound.wrapping_add(u64::from(!read.sound));
        }
    }
    (finished, unsound)
}

/// A round of so many readers, each of which reads what one appender adds meanwhile.
pub fn run_round<R: Threads + Sync>(
    rt: &R,
    alloc: Global,
    readers: usize,
) -> Result<Option<Round>, AllocError> {
    let tail = Tail::new(alloc, (ROWS * ROW_WORDS) as usize, readers)?;
    let mut jobs = jobs_of(alloc, tail)?;
    run_them(rt, &mut jobs);
    let (finished, unsound) = tally(jobs.as_slice());
    match tail_from(alloc, jobs)? {
        Some(tail) => {
            let words = tail.close()?;
            Ok(Some(Round {
                words,
                finished,
                unsound,
            }))
        }
        None => Ok(None),
    }
}
