//! The jobs of a round: they are made of the parts of a shared table, run, and taken apart again.
ghost use Rattle.std.specs.Prelude.{◌≡◌, ◌^◌, ◌<◌, List, All, IfOk, length, slice_index_or, vec_len};
ghost use Rattle.myi_pack.specs.Packed.{Values};
ghost use Rattle.myi_history.specs.Lines.{MayRun};
ghost use Rattle.myi_inserter.specs.Inserter.{IsInserter};
ghost use Rattle.myi_rounds.specs.declared.round.AskedReads.{AskedReads};
ghost use Rattle.myi_rounds.specs.InsertJob.{GoesOn};
ghost use Rattle.myi_rounds.specs.Jobs.{JobRan};
ghost use Rattle.myi_rounds.specs.Rounds.{EachOf};
ghost use Rattle.myi_rounds.specs.Backs.{MayRead, jobs_for, readers_in, went_in, AreWithin, HaveRun};

use crate::gate::Gate;
use crate::insert_job::InsertJob;
use crate::inserting::Replied;
use crate::job::{InsertRun, Job, ReadRun, run_side_by_side};
use crate::read_job::ReadJob;
use crate::round::{AskedReads, AskedRound, Host, WentReads};
use myi_inserter::Inserter;
use myi_io::FileReader;
use myi_readers::Reader;
use myi_share::Parts;
use std::alloc::{AllocError, Global};
use std::thread::Threads;

/// What is left of the jobs of a round: the parts of the shared table, how far each run came, and what it said.
#[derive(Drop)]
pub(crate) struct Back<R: FileReader> {
    pub(crate) inserter: Inserter<R>,
    pub(crate) inserted: usize,
    pub(crate) replies: Vec<Replied>,
    pub(crate) readers: Vec<Reader<R>>,
    pub(crate) reads: Vec<WentReads>,
}

// What a run of reads is asked, by its number.
fn asked_of<'a>(asked: &AskedRound<'a>, number: usize) -> AskedReads<'a>
    requires { number < length asked.now.reads.now }
    ensures { (none : AskedReads) → result ≡ slice_index_or asked.now.reads.now number none }
{
    asked.reads[number]
}

// The runs of reads, each by a reader of its own.
fn jobs_of<'a, R: FileReader>(
    alloc: Global,
    asked: &AskedRound<'a>,
    readers: Vec<Reader<R>>,
) -> Result<Vec<Job<'a, R>>, AllocError>
    requires count { vec_len readers ≡ length asked.now.reads.now }
    requires ready { All (MayRead R.holds asked.now.lines.now) readers.items }
    ensures { IfOk result (λ jobs. jobs.items
        ≡ jobs_for asked.now.lines.now asked.now.reads.now readers.items) }
{
    let mut jobs = Vec::new(alloc);
    for reader in readers {
        let reads = asked_of(asked, jobs.len());
        let job = ReadJob::new(alloc, reader, asked.lines, reads.steps, reads.taken);
        jobs.push(Job::Reads(ReadRun { job, refused: None }))?;
    }
    Ok(jobs)
}

// Runs these jobs of reads, and beside them the inserts where there are any.
fn run_all<'a, T: Threads + Sync, R: FileReader, G: Gate>(
    host: &Host<'_, T, G>,
    jobs: Vec<Job<'a, R>>,
    inserts: InsertRun<'a, R>,
) -> Result<(Vec<Job<'a, R>>, InsertRun<'a, R>), AllocError>
    ensures reads { IfOk result (λ ran. EachOf (JobRan R.holds R.faults)
        jobs.entry.items ran.0.items) }
    ensures inserts { IfOk result (λ ran. GoesOn R.holds inserts.entry.job ran.1.job) }
{
    let mut jobs = jobs;
    if inserts.job.count() == 0 {
        run_side_by_side(host.rt, host.gate, jobs.as_mut_slice());
        return Ok((jobs, inserts));
    }
    jobs.push(Job::Inserts(inserts))?;
    run_side_by_side(host.rt, host.gate, jobs.as_mut_slice());
    let Some(last) = jobs.pop() else {
        unreachable!()
    };
    let Job::Inserts(inserts) = last else {
        unreachable!()
    };
    Ok((jobs, inserts))
}

// The readers of these runs of reads, how far each came, and what it said.
fn readers_of<R: FileReader>(
    alloc: Global,
    jobs: Vec<Job<'_, R>>,
) -> Result<(Vec<Reader<R>>, Vec<WentReads>), AllocError>
    ensures readers { IfOk result (λ back. back.0.items ≡ readers_in jobs.entry.items) }
    ensures reads { IfOk result (λ back. back.1.items ≡ went_in jobs.entry.items) }
    ensures within { IfOk result (λ back. AreWithin jobs.entry.items) }
{
    let mut readers = Vec::new(alloc);
    let mut reads = Vec::new(alloc);
    for job in jobs {
        let Job::Reads(run) = job else {
            continue;
        };
        let ReadRun { job, .. } = run;
        let done = job.done();
        let (reader, texts) = job.into_parts();
        readers.push(reader)?;
        reads.push(WentReads { done, texts })?;
    }
    Ok((readers, reads))
}

/// Makes the jobs of a round of the parts of a shared table, runs them side by side, and takes them apart.
pub(crate) fn run_parts<T: Threads + Sync, R: FileReader, G: Gate>(
    host: &Host<'_, T, G>,
    asked: &AskedRound<'_>,
    parts: Parts<R>,
) -> Result<Back<R>, AllocError>
    requires count { vec_len parts.readers ≡ length asked.now.reads.now }
    requires readers { All (MayRead R.holds asked.now.lines.now) parts.readers.items }
    requires ready { (rows : List Values) × IsInserter parts.inserter.table rows }
    requires lines { MayRun parts.inserter.table.defs asked.now.lines.now }
    ensures run { IfOk result (HaveRun R.holds R.faults asked.now parts) }
    ensures end { IfOk result (λ back. back.inserter.table.end < 2 ^ 64) }
{
    let Parts { inserter, readers } = parts;
    let jobs = jobs_of(host.alloc, asked, readers)?;
    let job = InsertJob::new(host.alloc, inserter, asked.lines, asked.inserts);
    let (jobs, inserts) = run_all(host, jobs, InsertRun { job, refused: None })?;
    let (readers, reads) = readers_of(host.alloc, jobs)?;
    let InsertRun { job, .. } = inserts;
    let inserted = job.done();
    let (inserter, replies) = job.into_parts();
    Ok(Back {
        inserter,
        inserted,
        replies,
        readers,
        reads,
    })
}
