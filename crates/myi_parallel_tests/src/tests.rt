//! Two workers that wait for each other.
ghost use Rattle.std.specs.Prelude.{◌≡◌, All, length, IfOk};
ghost use Rattle.myi_btree.specs.Sizes.{IsPlaced, AreSized};

use myi_btree::{Laid, Place};
use myi_deftext::parse_text;
use myi_keylist::PairList;
use myi_memfiles::MemFiles;
use myi_parallel::{KeyGate, KeyPairs, OpenGate, Workers, lay_all, parallel_recover};
use myi_repair::recover;
use std::alloc::{AllocError, Global};
use std::sync::atomic::{AtomicU64, Ordering};
use std::test::Fail;
use std::thread::Threads;

// A worker that waits for another one gives up after so many turns.
const TURNS: u32 = 100_000_000;

const MOMENT: u64 = 1_700_000_000;

// A table of three rows with two keys, by its creating text, and its data file.
const TEXT: &[u8] =
    b"rows static\nfield normal 1\nfield normal 4\nfield normal 4\nkey unique\nseg long_int 1 4 0 0 0\nkey plain\nseg long_int 5 4 0 0 0\n";

const ROWS: &[u8] = b"\xFF\x03\0\0\0\x14\0\0\0\xFF\x01\0\0\0\x1E\0\0\0\xFF\x02\0\0\0\x0A\0\0\0";

// Holds each key until two were called.
#[derive(Drop)]
struct Meeting {
    called: AtomicU64,
    met: AtomicU64,
    done: AtomicU64,
}

impl KeyGate for Meeting {
    fn pass(&self, _key: u8) {
        self.called.fetch_add(1, Ordering::SeqCst);
        for _ in 0..TURNS {
            if self.called.load(Ordering::SeqCst) >= 2 {
                self.met.fetch_add(1, Ordering::SeqCst);
                return;
            }
        }
    }

    fn done(&self, _key: u8) {
        self.done.fetch_add(1, Ordering::SeqCst);
    }
}

fn key(alloc: Global) -> KeyPairs
    ensures placed { IsPlaced result.place }
    ensures sized { AreSized result.place result.pairs }
{
    KeyPairs {
        place: Place {
            block_length: 1024,
            rec_ref: 6,
            root: None,
        },
        pairs: PairList::new(alloc),
    }
}

fn two_keys(alloc: Global) -> Result<Vec<KeyPairs>, AllocError>
    ensures count { IfOk result (λ keys. length keys.items ≡ 2) }
    ensures placed { IfOk result (λ keys. All (λ k. IsPlaced k.place) keys.items) }
    ensures sized { IfOk result (λ keys. All (λ k. AreSized k.place k.pairs) keys.items) }
{
    let mut keys = Vec::new(alloc);
    keys.push(key(alloc))?;
    keys.push(key(alloc))?;
    Ok(keys)
}

fn lay_two<R: Threads + Sync>(
    rt: &R,
    alloc: Global,
    gate: &Meeting,
) -> Result<Vec<Laid>, AllocError> {
    lay_all(rt, alloc, two_keys(alloc)?, 2, gate)
}

// Where the second key began only when the first one is done, the first one would give up.
#[test]
fn two_workers_run_at_the_same_time(rt: HostRuntime) -> Result<(), Fail> {
    let gate = new_gate();
    let laid = lay_two(&rt, rt.alloc(), &gate)?;
    assert_eq!(rt; laid.len(), 2);
    assert_eq!(rt; gate.met.load(Ordering::SeqCst), 2);
    assert_eq!(rt; gate.done.load(Ordering::SeqCst), 2);
    Ok(())
}

fn new_gate() -> Meeting {
    Meeting {
        called: AtomicU64::new(0),
        met: AtomicU64::new(0),
        done: AtomicU64::new(0),
    }
}

// The files of the table `a`.
fn table(alloc: Global) -> Result<MemFiles, Fail> {
    let defs = match parse_text(alloc, TEXT) {
        Ok(defs) => defs,
        Err(fault) => return Err(Fail::new(fault)),
    };
    let index = Vec::from_slice(alloc, defs.raw.as_slice())?;
    let given = vec![in alloc;
        (String::from_str(alloc, "a.MYI")?, index),
        (
            String::from_str(alloc, "a.MYD")?,
            Vec::from_slice(alloc, ROWS)?
        ),
    ]?;
    Ok(MemFiles::new(alloc, given, Vec::new(alloc))?)
}

// Whether both have the same files of the table.
fn are_same(one: &MemFiles, other: &MemFiles) -> bool {
    ["a.MYI", "a.MYD", "a.TMI", "a.TMD"]
        .iter()
        .all(|name| one.get(*name) == other.get(*name))
}

#[test]
fn two_workers_of_a_repair_run_at_the_same_time(rt: HostRuntime) -> Result<(), Fail> {
    let gate = new_gate();
    let mut files = table(rt.alloc())?;
    let workers = Workers {
        rt: &rt,
        count: 2,
        gate: &gate,
    };
    let said = parallel_recover(rt.alloc(), &mut files, "a", false, MOMENT, &workers);
    assert!(rt; said.is_ok());
    assert_eq!(rt; gate.met.load(Ordering::SeqCst), 2);
    assert_eq!(rt; gate.done.load(Ordering::SeqCst), 2);
    Ok(())
}

#[test]
fn each_number_of_workers_leaves_the_same_files(rt: HostRuntime) -> Result<(), Fail> {
    let mut plain = table(rt.alloc())?;
    let said = recover(rt.alloc(), &mut plain, "a", false, MOMENT);
    for count in [1, 2, 3, 64] {
        let mut files = table(rt.alloc())?;
        let workers = Workers {
            rt: &rt,
            count,
            gate: &OpenGate,
        };
        let told = parallel_recover(rt.alloc(), &mut files, "a", false, MOMENT, &workers);
        assert_eq!(rt; told, said);
        assert!(rt; are_same(&files, &plain));
    }
    Ok(())
}
