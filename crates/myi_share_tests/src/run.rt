//! Jobs side by side: a list is run by halves, each on a thread of its own, until at most three jobs are
//! left, which take turns. Nine jobs run on four threads.
ghost use Rattle.std.specs.Prelude.{◌≡◌, map};
ghost use Rattle.std.specs.Thread.{IsSync};
ghost use Rattle.myi_share_tests.specs.Jobs.{part_of};

use crate::job::Job;
use std::thread::{Threads, join_mut};

// A job that waits for others gives up after so many turns.
const TURNS: u32 = 100_000_000;

// How many jobs share a thread.
const MOST: usize = 3;

// A turn of each job; whether one had something left to do.
fn turn_of_each(jobs: &mut [Job]) -> bool
    ensures { map part_of jobs.new ≡ map part_of jobs.old }
{
    let mut busy = false;
    for i in 0..jobs.len() {
        let turned = jobs[i].turn();
        busy = busy || turned;
    }
    busy
}

fn take_turns(jobs: &mut [Job])
    ensures { map part_of jobs.new ≡ map part_of jobs.old }
{
    for _ in 0..TURNS {
        if !turn_of_each(jobs) {
            break;
        }
    }
}

/// Runs each job to its end.
pub fn run_all<R: Threads + Sync>(rt: &R, jobs: &mut [Job])
    ensures { map part_of jobs.new ≡ map part_of jobs.old }
{
    if jobs.len() <= MOST {
        return take_turns(jobs);
    }
    let (front, back) = jobs.split_at_mut(jobs.len() / 2);
    join_mut(
        rt,
        &mut ||
            requires { IsSync R.row }
            ensures { map part_of front.exit.now ≡ map part_of front.entry.now }
        { run_all(rt, front) },
        &mut ||
            requires { IsSync R.row }
            ensures { map part_of back.exit.now ≡ map part_of back.entry.now }
        { run_all(rt, back) },
    );
}
