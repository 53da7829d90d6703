//! Runs of the top call over files in memory.
use myi_memfiles::{MemFiles, MemSink};
use myi_shell::Gate;
use myisamkit::{Status, kit};
use std::alloc::{AllocError, Global};
use std::thread::Threads;

/// The moment of each run.
pub const MOMENT: u64 = 1_700_000_000;

/// These files, of which the listed calls fail.
pub fn files_of(
    alloc: Global,
    given: &[(&str, &[u8])],
    fail: &[u64],
) -> Result<MemFiles, AllocError> {
    let mut files = Vec::new(alloc);
    for (name, bytes) in given.iter() {
        files.push((
            String::from_str(alloc, *name)?,
            Vec::from_slice(alloc, *bytes)?,
        ))?;
    }
    MemFiles::new(alloc, files, Vec::from_slice(alloc, fail)?)
}

/// A copy of those files of these names that are there, of which the listed calls fail.
pub fn copy_of(
    alloc: Global,
    files: &MemFiles,
    names: &[&str],
    fail: &[u64],
) -> Result<MemFiles, AllocError> {
    let mut copies = Vec::new(alloc);
    for name in names.iter() {
        if let Some(bytes) = files.get(*name) {
            copies.push((
                String::from_str(alloc, *name)?,
                Vec::from_slice(alloc, bytes)?,
            ))?;
        }
    }
    MemFiles::new(alloc, copies, Vec::from_slice(alloc, fail)?)
}

/// Runs these words; the status, and what was printed.
pub fn run<R: Threads + Sync, G: Gate>(
    rt: &R,
    alloc: Global,
    asked: &[&str],
    files: &mut MemFiles,
    gate: &G,
) -> Result<(Status, MemSink), AllocError> {
    let mut words = Vec::new(alloc);
    for word in asked.iter() {
        words.push(String::from_str(alloc, *word)?)?;
    }
    let mut out = MemSink::new(alloc, Vec::new(alloc))?;
    let status = kit(rt, alloc, &words, files, &mut out, gate, MOMENT);
    Ok((status, out))
}
