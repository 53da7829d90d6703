//! Each file call of a script failing in turn, whose sessions go side by side.
use crate::runs::{copy_of, run};
use crate::scripts::{LOCKED_READS, begins_one_of, is_one_of};
use myi_io::Files;
use myi_memfiles::MemFiles;
use myi_shell::OpenGate;
use myisamkit::Status;
use std::alloc::Global;
use std::process::Abort;
use std::str;
use std::test::Fail;
use std::thread::Threads;

/// More file calls than the script makes.
const MOST_CALLS: u64 = 400;

/// The rows that the table has at some moment, as they are dumped behind their places.
const ROWS: [&str; 4] = [
    "FF 01000000 0A000000",
    "FF 02000000 14000000",
    "FF 03000000 1E000000",
    "FF 04000000 28000000",
];

/// The row that no line of the script changes.
const KEPT: &str = "FF 02000000 14000000";

// Whether a dump has rows of the script's table alone, and the one that is kept.
fn is_dump_of_the_table(dump: &[u8]) -> bool {
    let Ok(text) = str::from_utf8(dump) else {
        return false;
    };
    let mut has_kept = false;
    for line in text.lines() {
        let Some((_, row)) = line.split_once(' ') else {
            return false;
        };
        if !ROWS.contains(&row) {
            return false;
        }
        has_kept = has_kept || row == KEPT;
    }
    has_kept
}

// The table that a failing run leaves is recovered, and then nothing is found, and no row but those of the script.
fn is_recovered<R: Abort + Threads + Sync>(
    rt: &R,
    alloc: Global,
    left: &MemFiles,
    call: u64,
) -> Result<(), Fail> {
    let mut files = copy_of(alloc, left, &["t.MYI", "t.MYD"], &[])?;
    let (status, _) = run(rt, alloc, &["chk", "-r", "t"], &mut files, &OpenGate)?;
    assert_eq!(rt; status, Status::Ok, "recovered after {call}");
    let (status, out) = run(rt, alloc, &["chk", "t"], &mut files, &OpenGate)?;
    assert_eq!(rt; status, Status::Ok, "checked after {call}");
    assert!(rt;
        out.written() == b"t: ok\n".as_slice(),
        "checked after {call}"
    );
    let (status, out) = run(rt, alloc, &["dump", "t"], &mut files, &OpenGate)?;
    assert_eq!(rt; status, Status::Ok, "dumped after {call}");
    assert!(rt; is_dump_of_the_table(out.written()), "dumped after {call}");
    Ok(())
}

// A run whose call of this number fails, if there is such a call: whether there is.
fn fails_well<R: Abort + Threads + Sync>(
    rt: &R,
    alloc: Global,
    made: &MemFiles,
    call: u64,
) -> Result<bool, Fail> {
    let script = &LOCKED_READS;
    let mut files = script.copy(alloc, made, &[call])?;
    let (status, out) = script.run(rt, alloc, &mut files, &OpenGate)?;
    if files.fault_count() == 0 {
        assert_eq!(rt; status, Status::Ok);
        assert!(rt; is_one_of(alloc, script.prints, out.written())?);
        return Ok(false);
    }
    assert_eq!(rt; status, Status::FileFault, "at {call}");
    assert_eq!(rt; files.fault_count(), 1, "at {call}");
    assert!(rt;
        begins_one_of(alloc, script.prints, out.written())?,
        "at {call}"
    );
    is_recovered(rt, alloc, &files, call)?;
    Ok(true)
}

#[test]
fn a_script_that_is_cut_off_prints_the_front_of_its_text(rt: HostRuntime) -> Result<(), Fail> {
    let alloc = rt.alloc();
    let made = LOCKED_READS.files(&rt, alloc)?;
    for call in 1..=MOST_CALLS {
        if !fails_well(&rt, alloc, &made, call)? {
            assert!(rt; 1 < call, "no call fails");
            return Ok(());
        }
    }
    assert!(rt; false, "more calls than expected");
    Ok(())
}
