//! Gates that hold lines of a script up until others are done, which shows that its sessions go side by side.
use crate::scripts::{FROM_NONE_TO_ALL, INSERTS_BESIDE_SCANS, UP_TO_ALL};
use myi_shell::Gate;
use std::sync::atomic::{AtomicBool, AtomicU32, Ordering};
use std::test::Fail;
use std::thread::yield_now;

/// A line is held up for so many turns at most.
const TURNS: u32 = 100_000_000;

/// The turns from one to the next at which another thread may run.
const PAUSE: u32 = 16;

/// The lines of a script, and none of the number 0.
const LINES: usize = 6;

/// A line that is held up, and the one that is to be done before.
#[derive(Clone, Copy)]
struct Hold {
    line: u32,
    until: u32,
}

/// Holds lines up, and counts those that it let go at the end of their turns.
#[derive(Drop)]
struct Holding {
    holds: &'static [Hold],
    done: [AtomicBool; LINES],
    given_up: AtomicU32,
}

impl Holding {
    fn new(holds: &'static [Hold]) -> Holding {
        Holding {
            holds,
            done: [false; LINES].map(|is_done| AtomicBool::new(is_done)),
            given_up: AtomicU32::new(0),
        }
    }

    fn is_done(&self, line: u32) -> bool {
        match self.done.get(line as usize) {
            Some(done) => done.load(Ordering::SeqCst),
            None => false,
        }
    }

    fn wait_for(&self, line: u32) {
        for turn in 0..TURNS {
            if self.is_done(line) {
                return;
            }
            if turn % PAUSE == 0 {
                yield_now();
            }
        }
        self.given_up.fetch_add(1, Ordering::SeqCst);
    }
}

impl Gate for Holding {
    fn pass(&self, _session: u32, line: u32) {
        for hold in self.holds {
            if hold.line == line {
                self.wait_for(hold.until);
            }
        }
    }

    fn done(&self, _session: u32, line: u32) {
        if let Some(done) = self.done.get(line as usize) {
            done.store(true, Ordering::SeqCst);
        }
    }
}

#[test]
fn a_scan_that_waits_for_the_inserts_sees_them(rt: HostRuntime) -> Result<(), Fail> {
    let script = &INSERTS_BESIDE_SCANS;
    let mut files = script.files(&rt, rt.alloc())?;
    let gate = Holding::new(&[Hold { line: 5, until: 3 }]);
    script.prints_one_of(&rt, rt.alloc(), &mut files, &gate, UP_TO_ALL)?;
    assert_eq!(rt; gate.given_up.load(Ordering::SeqCst), 0);
    Ok(())
}

// The first insert waits for the first scan, and the last scan for the last insert: whichever session were run to its end
// before the other would wait in vain.
#[test]
fn sessions_wait_for_each_other(rt: HostRuntime) -> Result<(), Fail> {
    let script = &INSERTS_BESIDE_SCANS;
    let mut files = script.files(&rt, rt.alloc())?;
    let gate = Holding::new(&[Hold { line: 1, until: 4 }, Hold { line: 5, until: 3 }]);
    let texts = [FROM_NONE_TO_ALL];
    script.prints_one_of(&rt, rt.alloc(), &mut files, &gate, &texts)?;
    assert_eq!(rt; gate.given_up.load(Ordering::SeqCst), 0);
    Ok(())
}
