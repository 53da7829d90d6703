//! Files in memory: their readers, and gathered writes over them.
use crate::expect::expect;
use myi_adapters::{Gathering, Opened, ReaderFiles};
use myi_io::{FileErr, FileReader, Files};
use myi_memfiles::MemFiles;
use std::alloc::{AllocError, Global};
use std::test::Fail;

// The files `a` (six bytes) and `b` (none), of which the listed calls fail.
fn files(alloc: Global, fail: &[u64]) -> Result<MemFiles, AllocError> {
    let given = vec![in alloc;
        (
            String::from_str(alloc, "a")?,
            Vec::from_slice(alloc, b"abcdef".as_slice())?
        ),
        (String::from_str(alloc, "b")?, Vec::new(alloc)),
    ]?;
    MemFiles::new(alloc, given, Vec::from_slice(alloc, fail)?)
}

fn opened(
    alloc: Global,
    files: &mut MemFiles,
    name: &str,
) -> Result<Opened<<MemFiles as Files>::Reader>, Fail> {
    let length = match files.length(name) {
        Ok(length) => length.unwrap_or(0),
        Err(fault) => return Err(Fail::new(fault)),
    };
    match files.reader(name) {
        Ok(reader) => Ok(Opened {
            name: String::from_str(alloc, name)?,
            length,
            reader,
        }),
        Err(fault) => Err(Fail::new(fault)),
    }
}

#[test]
fn readers_have_the_bytes_of_their_moment(rt: HostRuntime) -> Result<(), Fail> {
    let alloc = rt.alloc();
    let mut files = files(alloc, &[])?;
    files.fail_readers(vec![in alloc; 2]?);
    let rows = opened(alloc, &mut files, "a")?;
    let index = opened(alloc, &mut files, "b")?;
    expect(&rt, files.write_at("a", 0, b"ABCDEFG"), Ok(()));
    let mut both = ReaderFiles {
        rows,
        index,
        refused: 0,
    };
    let mut into = [b'-'; 4];
    expect(&rt, both.length("a"), Ok(Some(6)));
    expect(&rt, both.length("b"), Ok(Some(0)));
    expect(&rt, both.length("c"), Ok(None));
    expect(&rt, both.read_at("a", 3, &mut into), Ok(3));
    expect(&rt, into, *b"def-");
    expect(&rt, both.read_at("a", 3, &mut into), Err(FileErr::Failed));
    expect(&rt, both.read_at("c", 0, &mut into), Ok(0));
    expect(&rt, both.fault_count(), 1);
    Ok(())
}

#[test]
fn writes_that_follow_one_another_are_one_call(rt: HostRuntime) -> Result<(), Fail> {
    let alloc = rt.alloc();
    // The third call is the read, where two writes are one call.
    let mut gathering = Gathering::new(alloc, files(alloc, &[3])?);
    let mut into = [b'-'; 4];
    expect(&rt, gathering.write_at("a", 6, b"g"), Ok(()));
    expect(&rt, gathering.write_at("a", 7, b"h"), Ok(()));
    expect(&rt, gathering.length("a"), Ok(Some(8)));
    expect(
        &rt,
        gathering.read_at("a", 4, &mut into),
        Err(FileErr::Failed),
    );
    expect(&rt, gathering.read_at("a", 4, &mut into), Ok(4));
    expect(&rt, into, *b"efgh");
    expect(&rt, gathering.fault_count(), 1);
    Ok(())
}

#[test]
fn gathered_writes_that_fail_stay(rt: HostRuntime) -> Result<(), Fail> {
    let alloc = rt.alloc();
    let mut gathering = Gathering::new(alloc, files(alloc, &[1, 4])?);
    expect(&rt, gathering.write_at("a", 0, b"xyz"), Ok(()));
    expect(&rt, gathering.length("a"), Err(FileErr::Failed));
    expect(&rt, gathering.length("a"), Ok(Some(6)));
    expect(&rt, gathering.write_at("b", 0, b"new"), Ok(()));
    expect(&rt, gathering.remove("b"), Err(FileErr::Failed));
    expect(&rt, gathering.length("b"), Ok(Some(3)));
    Ok(())
}
