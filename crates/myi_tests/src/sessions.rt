//! Sessions of a script that go side by side: what they print, also where their readers' calls fail.
use crate::scripts::{
    BY_SETTING, INSERTS_BESIDE_SCANS, LOCKED_READS, SCAN_BEHIND_THE_INSERT, Script,
};
use myi_shell::OpenGate;
use std::alloc::Global;
use std::process::Abort;
use std::test::Fail;
use std::thread::Threads;

/// As many calls as a reader of one of these tables makes, and some more.
const READERS_CALLS: u64 = 8;

#[test]
fn each_scan_sees_a_first_part_of_the_rows(rt: HostRuntime) -> Result<(), Fail> {
    let script = &INSERTS_BESIDE_SCANS;
    let mut files = script.files(&rt, rt.alloc())?;
    script.prints_one_of(&rt, rt.alloc(), &mut files, &OpenGate, script.prints)
}

#[test]
fn a_lock_keeps_changes_out_and_sees_what_stood(rt: HostRuntime) -> Result<(), Fail> {
    let script = &LOCKED_READS;
    let mut files = script.files(&rt, rt.alloc())?;
    script.prints_one_of(&rt, rt.alloc(), &mut files, &OpenGate, script.prints)
}

#[test]
fn the_setting_says_which_inserts_go_beside_reads(rt: HostRuntime) -> Result<(), Fail> {
    for script in &BY_SETTING {
        let mut files = script.files(&rt, rt.alloc())?;
        script.prints_one_of(&rt, rt.alloc(), &mut files, &OpenGate, script.prints)?;
    }
    Ok(())
}

// Runs a script, each of whose readers fails at its call of this number.
fn readers_fail_at<R: Abort + Threads + Sync>(
    rt: &R,
    alloc: Global,
    script: &Script,
    call: u64,
) -> Result<(), Fail> {
    let made = script.files(rt, alloc)?;
    let mut files = script.copy(alloc, &made, &[])?;
    files.fail_readers(Vec::from_slice(alloc, &[call])?);
    script.prints_one_of(rt, alloc, &mut files, &OpenGate, script.prints)
}

// The rest of a session whose reader fails is done once the round's other sessions are through.
#[test]
fn a_reader_that_fails_changes_no_answer(rt: HostRuntime) -> Result<(), Fail> {
    let alloc = rt.alloc();
    for call in 1..=READERS_CALLS {
        readers_fail_at(&rt, alloc, &INSERTS_BESIDE_SCANS, call)?;
        readers_fail_at(&rt, alloc, &LOCKED_READS, call)?;
    }
    Ok(())
}

// Where the first call of each reader fails, no scan of the round is done before its insert.
#[test]
fn what_readers_leave_is_read_behind_the_inserts(rt: HostRuntime) -> Result<(), Fail> {
    let alloc = rt.alloc();
    let script = &LOCKED_READS;
    let mut files = script.files(&rt, alloc)?;
    files.fail_readers(Vec::from_slice(alloc, &[1])?);
    let behind = [SCAN_BEHIND_THE_INSERT];
    script.prints_one_of(&rt, alloc, &mut files, &OpenGate, &behind)
}
