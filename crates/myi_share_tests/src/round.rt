//! A table from its sharing to its taking back, with a job on each part meanwhile.
ghost use Rattle.std.specs.Prelude.{◌≡◌, ◌<◌, None, true, false, List, All, length, map, IfOk, IfSome, IsTrue};
ghost use Rattle.myi_pack.specs.Packed.{Values};
ghost use Rattle.myi_inserter.specs.Inserter.{IsInserter};
ghost use Rattle.myi_readers.specs.Reader.{IsReader};
ghost use Rattle.myi_share_tests.specs.Parts.{Part, of_inserter, IsPutPart, IsReadPart};
ghost use Rattle.myi_share_tests.specs.Jobs.{part_of};

use crate::job::{Job, Put, Read};
use crate::run::run_all;
use case_lines::{Untold, UntoldReader};
use myi_defs::Defs;
use myi_inserter::Inserter;
use myi_readers::Reader;
use myi_share::{Shared, share};
use myi_table::Table;
use std::alloc::{AllocError, Global};
use std::test::Fail;
use std::thread::Threads;

/// Words for rows, more than the tests put.
const WORDS: usize = 100_000;

/// How many rows the table has, and how many are put.
#[derive(Clone, Copy)]
pub struct Counts {
    pub base: u32,
    pub put: u32,
}

/// What is left of a round: the table, how many answers of the inserter and how many readers were not as expected.
#[derive(Drop)]
pub struct Round {
    pub table: Table,
    pub wrong: u32,
    pub unsound: u32,
}

/// The parts of a sharing that jobs work on.
#[derive(Drop)]
pub(crate) struct Shares {
    pub(crate) inserter: Inserter<UntoldReader>,
    pub(crate) readers: Vec<Reader<UntoldReader>>,
}

// The jobs of a sharing.
fn jobs_of(
    alloc: Global,
    defs: Defs,
    shares: Shares,
    counts: Counts,
) -> Result<Vec<Job>, AllocError>
    requires defs { defs ≡ shares.inserter.table.defs }
    requires keys { 0 < length defs.keys }
    requires inserter { (rows : List Values) × IsInserter shares.inserter.table rows }
    requires readers { All (λ r. IsReadPart (of_inserter shares.inserter.table) r.table)
        shares.readers.items }
    ensures { IfOk result (λ v. All (λ j. part_of j ≡ of_inserter shares.inserter.table) v.items) }
{
    let Shares { inserter, readers } = shares;
    let (next, last) = (
        counts.base.wrapping_add(1),
        counts.base.wrapping_add(counts.put),
    );
    let mut jobs = Vec::new(alloc);
    jobs.push(Job::Put(Put::new(alloc, inserter, defs, next, last)))?;
    for reader in readers {
        let read = Read::new(reader, u64::from(counts.base), u64::from(counts.put));
        jobs.push(Job::Read(read))?;
    }
    Ok(jobs)
}

// The parts of a sharing, and how many answers of the inserter and how many readers were not as expected.
#[derive(Drop)]
struct Left {
    inserter: Option<Inserter<UntoldReader>>,
    readers: Vec<Reader<UntoldReader>>,
    wrong: u32,
    unsound: u32,
}

fn left_from(alloc: Global, jobs: Vec<Job>) -> Result<Left, AllocError>
    ensures { (part : Part) → All (λ j. part_of j ≡ part) jobs.items → IfOk result (λ left.
        IfSome left.inserter (λ i. IsPutPart part i.table)
        × All (λ r. IsReadPart part r.table) left.readers.items) }
{
    let mut inserter = None;
    let mut readers = Vec::new(alloc);
    let mut wrong = 0;
    let mut unsound: u32 = 0;
    for job in jobs {
        match job {
            Job::Put(put) => {
                wrong = put.wrong();
                inserter = Some(put.into_inserter());
            }
            Job::Read(read) => {
                unsound = unsound.wrapping_add(u32::from(!read.is_sound()));
                readers.push(read.into_reader())?;
            }
        }
    }
    Ok(Left {
        inserter,
        readers,
        wrong,
        unsound,
    })
}

fn run_them<R: Threads + Sync>(rt: &R, jobs: &mut Vec<Job>)
    ensures { map part_of jobs.new.items ≡ map part_of jobs.old.items }
{
    run_all(rt, jobs.as_mut_slice());
}

/// A table with rows of these numbers from 1 is shared among an inserter, which puts so many more, and so many readers, each of
/// which reads until it sees all.
pub fn run_round<R: Threads + Sync>(
    rt: &R,
    alloc: Global,
    files: &mut Untold,
    table: Table,
    readers: usize,
    counts: Counts,
) -> Result<Round, Fail> {
    if table.broken().is_some() || table.defs().keys.as_slice().len() == 0 {
        return Err(Fail::new("no table that is whole and has a key"));
    }
    let defs = table.defs().copy()?;
    let Ok(
        Shared {
            rest,
            inserter,
            readers,
        },
    ) = share(alloc, table, files, readers, WORDS, 0)
    else {
        return Err(Fail::new("the table is not shared"));
    };
    let mut jobs = jobs_of(alloc, defs, Shares { inserter, readers }, counts)?;
    run_them(rt, &mut jobs);
    let Left {
        inserter,
        readers,
        wrong,
        unsound,
    } = left_from(alloc, jobs)?;
    let inserter = inserter.ok_or("no inserter")?;
    let shared = Shared {
        rest,
        inserter,
        readers,
    };
    let table = shared.close(files)?;
    Ok(Round {
        table,
        wrong,
        unsound,
    })
}
