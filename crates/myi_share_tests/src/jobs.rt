//! A round of a script whose sessions go side by side: one inserts, the others read.
ghost use Rattle.std.specs.Prelude.{◌≡◌, None, List, All};
ghost use Rattle.myi_pack.specs.Packed.{Values};
ghost use Rattle.myi_history.specs.Lines.{MayRun};
ghost use Rattle.myi_inserter.specs.Inserter.{IsInserter};
ghost use Rattle.myi_share_tests.specs.Parts.{of_inserter, IsReadPart};

use crate::round::Shares;
use case_lines::{Untold, UntoldReader};
use myi_history::scripts_may_run;
use myi_locks::{Step, StepKind};
use myi_memfiles::MemSink;
use myi_rounds::{InsertJob, InsertRun, Job, OpenGate, ReadJob, ReadRun, run_side_by_side};
use myi_script::{Line, parse_script};
use myi_share::{Shared, share};
use myi_table::Table;
use std::alloc::{AllocError, Global};
use std::test::Fail;
use std::thread::Threads;

/// The script: of its rows the second repeats the first one's number.
const TEXT: &[u8] =
    b"S1 insert FE #101 'x'\nS1 insert FE #101 'y'\nS1 insert FE #103 'z'\nS2 scan\nS2 scan\nS2 scan\n";

/// How many steps each run has.
const STEPS: usize = 3;

/// Words for its rows.
const WORDS: usize = 1000;

/// What is left of a round: how many steps and answers the run of inserts has, what each run of reads said, and how many runs
/// were refused.
#[derive(Drop)]
pub struct Said {
    pub inserted: usize,
    pub answered: usize,
    pub texts: Vec<Vec<u8>>,
    pub refused: u32,
}

// The steps of a run on three lines of a session.
fn steps(session: u32, line: u32, kind: StepKind) -> [Step; STEPS] {
    [0, 1, 2].map(|i: u32| Step {
        session,
        line: line.wrapping_add(i),
        kind,
    })
}

// The jobs of a round.
fn jobs_of<'a>(
    alloc: Global,
    shares: Shares,
    lines: &'a [Line],
    inserts: &'a [Step],
    reads: &'a [Step],
) -> Result<Vec<Job<'a, UntoldReader>>, AllocError>
    requires inserter { (rows : List Values) × IsInserter shares.inserter.table rows }
    requires readers { All (λ r. IsReadPart (of_inserter shares.inserter.table) r.table)
        shares.readers.items }
    requires lines { MayRun shares.inserter.table.defs lines.now }
{
    let Shares { inserter, readers } = shares;
    let mut jobs = Vec::new(alloc);
    let job = InsertJob::new(alloc, inserter, lines, inserts);
    jobs.push(Job::Inserts(InsertRun { job, refused: None }))?;
    for reader in readers {
        let job = ReadJob::new(alloc, reader, lines, reads, None);
        jobs.push(Job::Reads(ReadRun { job, refused: None }))?;
    }
    Ok(jobs)
}

fn run_jobs<R: Threads + Sync>(rt: &R, jobs: &mut Vec<Job<'_, UntoldReader>>) {
    run_side_by_side(rt, &OpenGate, jobs.as_mut_slice());
}

/// A table is shared among a session that inserts three rows, of which one is refused, and so many sessions that read it three
/// times.
pub fn run_script_round<R: Threads + Sync>(
    rt: &R,
    alloc: Global,
    files: &mut Untold,
    table: Table,
    readers: usize,
) -> Result<Said, Fail> {
    if table.broken().is_some() {
        return Err(Fail::new("the table is broken"));
    }
    scripts_may_run();
    let defs = table.defs().copy()?;
    let Ok(script) = parse_script(alloc, TEXT, &defs, false) else {
        return Err(Fail::new("the script is refused"));
    };
    let inserts = steps(1, 1, StepKind::Insert);
    let reads = steps(2, 4, StepKind::Rows);
    let Ok(
        Shared {
            rest: _,
            inserter,
            readers,
        },
    ) = share(alloc, table, files, readers, WORDS, 0)
    else {
        return Err(Fail::new("the table is not shared"));
    };
    let shares = Shares { inserter, readers };
    let mut jobs = jobs_of(alloc, shares, script.lines.as_slice(), &inserts, &reads)?;
    run_jobs(rt, &mut jobs);
    said_by(alloc, jobs)
}

// What the jobs of a round said.
fn said_by(alloc: Global, jobs: Vec<Job<'_, UntoldReader>>) -> Result<Said, Fail> {
    let mut said = Said {
        inserted: 0,
        answered: 0,
        texts: Vec::new(alloc),
        refused: 0,
    };
    for job in jobs {
        match job {
            Job::Inserts(run) => {
                said.inserted = run.job.done();
                let (_, replies) = run.job.into_parts();
                said.answered = replies.len();
            }
            Job::Reads(run) => {
                said.refused = said.refused.wrapping_add(u32::from(run.refused.is_some()));
                let (_, mut texts) = run.job.into_parts();
                let mut sink = MemSink::new(alloc, Vec::new(alloc))?;
                texts.write(&mut sink)?;
                said.texts.push(Vec::from_slice(alloc, sink.written())?)?;
            }
        }
    }
    Ok(said)
}
