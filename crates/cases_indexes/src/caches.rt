//! The key cache.
ghost use Rattle.std.specs.Prelude.{◌≡◌, true, IfOk};
ghost use Rattle.myi_keycache.specs.Setup.{IsSetup};

use case_lines::{Fault, Words, file_name, four_bytes, number, push_file, push_word, sides, size};
use myi_io::Files;
use myi_keycache::{CacheFault, CacheSetup, KeyCache};
use myi_memfiles::MemFiles;
use std::alloc::AllocError;

/// The greatest length of a page, in bytes.
const MOST_LENGTH: usize = 16_384;

fn push_fault(out: &mut String, fault: CacheFault) -> Result<(), Fault> {
    match fault {
        CacheFault::Short { at } => Ok(write!(out, "short {at}")?),
        CacheFault::File => Ok(out.push_str("failed")?),
        CacheFault::Memory => Ok(out.push_str("no memory")?),
    }
}

fn push_done(out: &mut String, answer: Result<(), CacheFault>) -> Result<(), Fault> {
    match answer {
        Ok(()) => Ok(out.push_str("ok")?),
        Err(fault) => push_fault(out, fault),
    }
}

fn push_get(
    out: &mut String,
    cache: &mut KeyCache,
    files: &mut MemFiles,
    at: u64,
    length: usize,
) -> Result<(), Fault> {
    if length > MOST_LENGTH {
        return Err(Fault::Unread);
    }
    match cache.get(files, at, length) {
        Ok(page) => Ok(push_word(out, page)?),
        Err(fault) => push_fault(out, fault),
    }
}

fn push_put(
    out: &mut String,
    cache: &mut KeyCache,
    files: &mut MemFiles,
    at: u64,
    page: &[u8],
) -> Result<(), Fault> {
    if page.len() > MOST_LENGTH {
        return Err(Fault::Unread);
    }
    push_done(out, cache.put(files, at, page))
}

fn push_counters(out: &mut String, cache: &KeyCache) -> Result<(), AllocError> {
    let counters = cache.counters();
    write!(out, "{},{}", counters.read_requests, counters.reads)?;
    write!(out, ",{},{}", counters.write_requests, counters.writes)
}

// Makes a call, and writes its answer.
fn push_call(
    out: &mut String,
    words: &Words,
    cache: &mut KeyCache,
    files: &mut MemFiles,
    call: &str,
) -> Result<(), Fault> {
    let parts: Vec<&str> = call.split(':').collect(words.alloc())?;
    match parts.as_slice() {
        ["get", at, length] => push_get(out, cache, files, number(*at)?, size(*length)?),
        ["put", at, page] => push_put(out, cache, files, number(*at)?, &words.bytes(*page)?),
        ["flush"] => push_done(out, cache.flush(files)),
        ["counters"] => Ok(push_counters(out, cache)?),
        _ => Err(Fault::Unread),
    }
}

// Whether a cache may be set up so.
fn is_setup(setup: CacheSetup) -> bool
    ensures { result ≡ true → IsSetup setup }
{
    1 <= setup.blocks
        && setup.blocks <= 65_536
        && 1 <= setup.division
        && setup.division <= 100
        && 100 <= setup.age
        && setup.age <= 1_000_000
}

// The words `BLOCKS,DIVISION,AGE`.
fn setup(word: &str) -> Result<CacheSetup, Fault>
    ensures { IfOk result IsSetup }
{
    let (blocks, others) = sides(word, ',')?;
    let (division, age) = sides(others, ',')?;
    let setup = CacheSetup {
        blocks: four_bytes(blocks)?,
        division: four_bytes(division)?,
        age: four_bytes(age)?,
    };
    if is_setup(setup) {
        Ok(setup)
    } else {
        Err(Fault::Unread)
    }
}

/// `cache SETUP FAULTS FILE CALL..`: what each call on a new cache of a file answers, the count of faults, and
/// the file. SETUP is `BLOCKS,DIVISION,AGE`; a call is `get:AT:LENGTH`, `put:AT:BYTES`, `flush` or `counters`.
fn cache(words: &Words, args: &[&str]) -> Result<String, Fault> {
    let [setup_word, faults, index, calls @ ..] = args else {
        return Err(Fault::Unread);
    };
    let alloc = words.alloc();
    let setup = setup(*setup_word)?;
    let mut files = words.files(&[*index], *faults)?;
    let name = file_name(*index);
    let mut cache = KeyCache::new(alloc, name, setup)?;
    let mut out = String::new(alloc);
    for call in calls {
        push_call(&mut out, words, &mut cache, &mut files, *call)?;
        out.push(' ')?;
    }
    write!(out, "faults {} ", files.fault_count())?;
    push_file(&mut out, &files, name)?;
    Ok(out)
}

/// The answer to a call of this module, and None where the name is no such call.
pub fn answer(words: &Words, name: &str, args: &[&str]) -> Option<Result<String, Fault>> {
    match name {
        "cache" => Some(cache(words, args)),
        _ => None,
    }
}
