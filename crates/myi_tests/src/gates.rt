//! The calls of a gate: one before each step of a script and one behind it, round after round.
use crate::runs::{copy_of, files_of, run};
use myi_io::Files;
use myi_memfiles::MemFiles;
use myi_shell::{Gate, OpenGate};
use myisamkit::Status;
use std::alloc::Global;
use std::process::Abort;
use std::sync::atomic::{AtomicBool, AtomicUsize, Ordering};
use std::test::Fail;
use std::thread::Threads;

const TEXT: &[u8] = b"rows static\nfield normal 1\nfield normal 4\nfield normal 3\n";

/// Two sessions, of which one takes a lock, writes, and ends; a comment; an end that no line asks
/// for.
const SCRIPT: &[u8] =
    b"S1 lock read local\n; a comment\nS2 insert FF #1 'aaa'\nS1 scan\nS1 insert FF #2 'bbb'\nS1 unlock\nS1 end\nS2 scan\nS2 stats\n";

/// More file calls than the run makes.
const MOST_CALLS: u64 = 200;

const PRINTED: &[u8] =
    b"1 ok\n3 ok 0\n4 rows 0 at 0\n5 locked for read\n6 ok\n7 ok\n8 rows 1 at 1\n  0 FF 01000000 616161\n9 requests 0 reads 0 write_requests 0 writes 0\n";

/// The session and line of a step, and its round.
struct Step {
    session: u32,
    line: u32,
    round: u32,
}

const COUNT: usize = 9;

/// The steps. A line that takes a lock is two steps, and the scan goes beside the insert.
const STEPS: [Step; COUNT] = [
    Step {
        session: 1,
        line: 1,
        round: 1,
    },
    Step {
        session: 1,
        line: 1,
        round: 2,
    },
    Step {
        session: 1,
        line: 4,
        round: 3,
    },
    Step {
        session: 2,
        line: 3,
        round: 3,
    },
    Step {
        session: 1,
        line: 5,
        round: 4,
    },
    Step {
        session: 1,
        line: 6,
        round: 5,
    },
    Step {
        session: 1,
        line: 7,
        round: 6,
    },
    Step {
        session: 2,
        line: 8,
        round: 7,
    },
    Step {
        session: 2,
        line: 9,
        round: 8,
    },
];

/// Whether the call before a step was made, and the one behind it.
#[derive(Drop)]
struct Note {
    passed: AtomicBool,
    ended: AtomicBool,
}

impl Note {
    fn has_passed(&self) -> bool {
        self.passed.load(Ordering::SeqCst)
    }

    fn has_ended(&self) -> bool {
        self.ended.load(Ordering::SeqCst)
    }
}

/// Compares its calls with the steps: how many are not as they should be.
#[derive(Drop)]
struct Noting {
    notes: [Note; COUNT],
    wrong: AtomicUsize,
}

impl Noting {
    fn new() -> Noting {
        Noting {
            notes: [false; COUNT].map(|is_made| Note {
                passed: AtomicBool::new(is_made),
                ended: AtomicBool::new(is_made),
            }),
            wrong: AtomicUsize::new(0),
        }
    }

    fn note_wrong(&self) {
        self.wrong.fetch_add(1, Ordering::SeqCst);
    }

    // Whether all steps before a round have ended.
    fn is_begun(&self, round: u32) -> bool {
        let mut is_begun = true;
        for (step, note) in STEPS.iter().zip(self.notes.iter()) {
            is_begun = is_begun && (round <= step.round || note.has_ended());
        }
        is_begun
    }

    fn passed(&self) -> usize {
        self.notes.iter().filter(|note| note.has_passed()).count()
    }

    fn ended(&self) -> usize {
        self.notes.iter().filter(|note| note.has_ended()).count()
    }
}

impl Gate for Noting {
    fn pass(&self, session: u32, line: u32) {
        for (step, note) in STEPS.iter().zip(self.notes.iter()) {
            if step.session == session && step.line == line && !note.has_passed() {
                if !self.is_begun(step.round) {
                    self.note_wrong();
                }
                return note.passed.store(true, Ordering::SeqCst);
            }
        }
        self.note_wrong();
    }

    fn done(&self, session: u32, line: u32) {
        for (step, note) in STEPS.iter().zip(self.notes.iter()) {
            let is_step = step.session == session && step.line == line;
            if is_step && note.has_passed() && !note.has_ended() {
                return note.ended.store(true, Ordering::SeqCst);
            }
        }
        self.note_wrong();
    }
}

// The table `a` without rows, and the script `s`.
fn made<R: Abort + Threads + Sync>(rt: &R, alloc: Global) -> Result<MemFiles, Fail> {
    let mut files = files_of(alloc, &[("t", TEXT), ("s", SCRIPT)], &[])?;
    let (created, _) = run(rt, alloc, &["create", "a", "t"], &mut files, &OpenGate)?;
    assert_eq!(rt; created, Status::Ok);
    Ok(files)
}

#[test]
fn each_step_passes_the_gate(rt: HostRuntime) -> Result<(), Fail> {
    let alloc = rt.alloc();
    let gate = Noting::new();
    let mut files = made(&rt, alloc)?;
    let (status, out) = run(&rt, alloc, &["shell", "a", "s"], &mut files, &gate)?;
    assert_eq!(rt; status, Status::Ok);
    assert!(rt; out.written() == PRINTED);
    assert_eq!(rt; gate.passed(), COUNT);
    assert_eq!(rt; gate.ended(), COUNT);
    assert_eq!(rt; gate.wrong.load(Ordering::SeqCst), 0);
    Ok(())
}

/// Where the call of a run that fails is made.
#[derive(Clone, Copy, PartialEq, Eq)]
enum FailedCall {
    /// The run makes fewer calls.
    Nowhere,
    /// Before the first step or behind the last.
    OutsideSteps,
    AmongSteps,
}

// A run whose call of this number fails, if there is such a call.
fn cut_off_at<R: Abort + Threads + Sync>(
    rt: &R,
    alloc: Global,
    made: &MemFiles,
    call: u64,
) -> Result<FailedCall, Fail> {
    let gate = Noting::new();
    let mut files = copy_of(alloc, made, &["a.MYI", "a.MYD", "s"], &[call])?;
    let (status, _) = run(rt, alloc, &["shell", "a", "s"], &mut files, &gate)?;
    assert_eq!(rt; gate.wrong.load(Ordering::SeqCst), 0, "at {call}");
    assert_eq!(rt; gate.passed(), gate.ended(), "at {call}");
    if files.fault_count() == 0 {
        assert_eq!(rt; status, Status::Ok);
        assert_eq!(rt; gate.ended(), COUNT);
        return Ok(FailedCall::Nowhere);
    }
    assert_eq!(rt; status, Status::FileFault, "at {call}");
    if gate.ended() == 0 || gate.ended() == COUNT {
        return Ok(FailedCall::OutsideSteps);
    }
    Ok(FailedCall::AmongSteps)
}

#[test]
fn a_step_that_is_cut_off_has_both_calls(rt: HostRuntime) -> Result<(), Fail> {
    let alloc = rt.alloc();
    let made = made(&rt, alloc)?;
    let mut among_steps = false;
    for call in 1..=MOST_CALLS {
        match cut_off_at(&rt, alloc, &made, call)? {
            FailedCall::AmongSteps => among_steps = true,
            FailedCall::OutsideSteps => {}
            FailedCall::Nowhere => {
                assert!(rt; among_steps, "no call is made in a step");
                return Ok(());
            }
        }
    }
    assert!(rt; false, "more calls than expected");
    Ok(())
}
