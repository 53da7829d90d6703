//! Files of a real folder.
ghost use Rattle.std.specs.Prelude.{IsTrue};

use crate::expect::expect;
use myi_adapters::Gathering;
use myi_io::{FileErr, FileReader, Files};
use myi_realfiles::RealFiles;
use std::alloc::Global;
use std::os::unix::fs::{MetadataExt, PermissionsExt, symlink};
use std::process::Abort;
use std::rt::{Clock, Env};
use std::test::Fail;
use std::{env, fs, io, rt};

/// A name in the temporary folder, which no other test has.
fn name_in<R: Env + Clock + rt::Files + AllocGlobal>(rt: &R, end: &str) -> Result<String, Fail> {
    let alloc: Global = rt.alloc();
    let folder = env::temp_dir(rt)?;
    let moment = rt.since_1970()?.as_nanos();
    Ok(format!(in alloc; "{}/rithkoal-{moment}-{end}", folder.display())?)
}

// Two writes one behind the other and one behind a gap, and what is read of them.
fn writes_are_read<F: Files>(rt: &impl Abort, files: &mut F, name: &str)
    requires { IsTrue F.writable }
{
    let mut into = [b'-'; 12];
    expect(rt, files.write_at(name, 0, b"abc"), Ok(()));
    expect(rt, files.write_at(name, 3, b"def"), Ok(()));
    expect(rt, files.length(name), Ok(Some(6)));
    expect(rt, files.write_at(name, 8, b"hi"), Ok(()));
    expect(rt, files.read_at(name, 1, &mut into), Ok(9));
    expect(rt, into, *b"bcdef\0\0hi---");
}

// A file that is cut takes the place of another, and its own name is free then.
fn renames_replace<F: Files>(rt: &impl Abort, files: &mut F, from: &str, to: &str)
    requires { IsTrue F.writable }
{
    let mut into = [b'-'; 12];
    expect(rt, files.write_at(to, 0, b"old"), Ok(()));
    expect(rt, files.write_at(from, 0, b"ABC"), Ok(()));
    expect(rt, files.cut(from, 4), Ok(()));
    expect(rt, files.rename(from, to), Ok(()));
    expect(rt, files.length(from), Ok(None));
    expect(rt, files.read_at(to, 0, &mut into), Ok(4));
    expect(rt, &into[..4], b"ABCd".as_slice());
}

// Renames that change nothing, and the removal of what is not there.
fn nothing_is_done<F: Files>(rt: &impl Abort, files: &mut F, absent: &str, name: &str)
    requires { IsTrue F.writable }
{
    expect(rt, files.rename(absent, name), Ok(()));
    expect(rt, files.rename(name, name), Ok(()));
    expect(rt, files.remove(absent), Ok(()));
    expect(rt, files.fault_count(), 0);
}

#[test]
fn real_files_in_a_folder(rt: HostRuntime) -> Result<(), Fail> {
    let alloc = rt.alloc();
    let (a, b) = (name_in(&rt, "a")?, name_in(&rt, "b")?);
    let (a, b) = (a.as_str(), b.as_str());
    let mut files = Gathering::new(alloc, RealFiles::new(&rt));
    expect(&rt, files.length(a), Ok(None));
    writes_are_read(&rt, &mut files, a);
    renames_replace(&rt, &mut files, a, b);
    nothing_is_done(&rt, &mut files, a, b);
    expect(&rt, files.remove(b), Ok(()));
    Ok(())
}

#[test]
fn writes_to_a_removed_file_are_given_up(rt: HostRuntime) -> Result<(), Fail> {
    let alloc = rt.alloc();
    let name = name_in(&rt, "given")?;
    let name = name.as_str();
    let mut files = Gathering::new(alloc, RealFiles::new(&rt));
    expect(&rt, files.write_at(name, 4, b"e"), Ok(()));
    expect(&rt, files.flush(), Ok(()));
    expect(&rt, files.write_at(name, 5, b"f"), Ok(()));
    expect(&rt, files.remove(name), Ok(()));
    expect(&rt, files.flush(), Ok(()));
    expect(&rt, files.length(name), Ok(None));
    Ok(())
}

#[test]
fn a_file_is_no_folder(rt: HostRuntime) -> Result<(), Fail> {
    let alloc = rt.alloc();
    let name = name_in(&rt, "file")?;
    let mut files = Gathering::new(alloc, RealFiles::new(&rt));
    let inside = format!(in alloc; "{name}/inside")?;
    expect(&rt, files.cut(name.as_str(), 1), Ok(()));
    expect(&rt, files.cut(inside.as_str(), 1), Err(FileErr::Failed));
    expect(&rt, files.fault_count(), 1);
    expect(&rt, files.remove(name.as_str()), Ok(()));
    Ok(())
}

// No file has the name, and that is no fault.
fn has_no_file<F: Files>(rt: &impl Abort, files: &mut F, name: &str)
    requires { IsTrue F.writable }
{
    expect(rt, files.length(name), Ok(None));
    expect(rt, files.remove(name), Ok(()));
    expect(rt, files.fault_count(), 0);
}

#[test]
fn no_file_has_a_name_that_none_can_have(rt: HostRuntime) -> Result<(), Fail> {
    let alloc = rt.alloc();
    let mut files = Gathering::new(alloc, RealFiles::new(&rt));
    let mut long = name_in(&rt, "long")?;
    for _ in 0..300 {
        long.push('a')?;
    }
    has_no_file(&rt, &mut files, long.as_str());
    let zero = format!(in alloc; "{}\0", name_in(&rt, "zero")?)?;
    has_no_file(&rt, &mut files, zero.as_str());
    Ok(())
}

// Gives a file a mode that no new file has.
fn set_mode(rt: &impl rt::Files, name: &str) -> io::Result<()> {
    let mut mode = fs::metadata(rt, name)?.permissions();
    mode.set_mode(0o640);
    fs::set_permissions(rt, name, mode)
}

#[test]
fn a_file_in_the_place_of_another_keeps_its_mode_and_its_link(rt: HostRuntime) -> Result<(), Fail> {
    let alloc = rt.alloc();
    let (table, link) = (name_in(&rt, "table")?, name_in(&rt, "link")?);
    let (table, link) = (table.as_str(), link.as_str());
    let new = name_in(&rt, "new")?;
    let mut files = Gathering::new(alloc, RealFiles::new(&rt));
    expect(&rt, files.write_at(table, 0, b"old"), Ok(()));
    expect(&rt, files.write_at(new.as_str(), 0, b"newer"), Ok(()));
    expect(&rt, files.flush(), Ok(()));
    set_mode(&rt, table)?;
    symlink(&rt, table, link)?;
    expect(&rt, files.rename(new.as_str(), link), Ok(()));
    assert!(rt; fs::symlink_metadata(&rt, link)?.is_symlink());
    assert_eq!(rt;
        fs::metadata(&rt, table)?.permissions().mode() % 0o1000,
        0o640
    );
    expect(&rt, files.length(table), Ok(Some(5)));
    expect(&rt, files.remove(link), Ok(()));
    expect(&rt, files.remove(table), Ok(()));
    Ok(())
}

#[test]
fn a_reader_of_a_real_file_sees_what_was_gathered(rt: HostRuntime) -> Result<(), Fail> {
    let alloc = rt.alloc();
    let name = name_in(&rt, "read")?;
    let name = name.as_str();
    let mut files = Gathering::new(alloc, RealFiles::new(&rt));
    let mut into = [b'-'; 4];
    expect(&rt, files.write_at(name, 0, b"abc"), Ok(()));
    let mut reader = match files.reader(name) {
        Ok(reader) => reader,
        Err(fault) => return Err(Fail::new(fault)),
    };
    expect(&rt, reader.read_at(1, &mut into), Ok(2));
    expect(&rt, into, *b"bc--");
    expect(&rt, files.remove(name), Ok(()));
    expect(&rt, reader.read_at(0, &mut into), Ok(3));
    let mut none = match files.reader(name) {
        Ok(reader) => reader,
        Err(fault) => return Err(Fail::new(fault)),
    };
    expect(&rt, none.read_at(0, &mut into), Ok(0));
    expect(&rt, reader.fault_count(), 0);
    expect(&rt, none.fault_count(), 0);
    Ok(())
}

// The first five bytes of a file.
fn first_bytes<F: Files>(rt: &impl Abort, files: &mut F, name: &str) -> [u8; 5] {
    let mut into = [b'-'; 5];
    expect(rt, files.read_at(name, 0, &mut into), Ok(5));
    into
}

/// A file on another file system than the temporary folder: a new one in memory, and where
/// none can be made there, or that is the folder's own, one of the system's.
fn name_elsewhere<R: Env + Clock + rt::Files<File = fs::File> + AllocGlobal>(
    rt: &R,
) -> Result<String, Fail> {
    let alloc: Global = rt.alloc();
    let moment = rt.since_1970()?.as_nanos();
    let name = format!(in alloc; "/dev/shm/rithkoal-{moment}")?;
    let mut files = RealFiles::new(rt);
    if files.write_at(name.as_str(), 0, b"other").is_ok() {
        let folder = fs::metadata(rt, env::temp_dir(rt)?)?;
        if fs::metadata(rt, name.as_str())?.dev() != folder.dev() {
            return Ok(name);
        }
        rt.remove_file(name.as_str())?;
    }
    Ok(String::from_str(alloc, "/proc/version")?)
}

#[test]
fn no_file_takes_the_place_of_one_on_another_file_system(rt: HostRuntime) -> Result<(), Fail> {
    let alloc = rt.alloc();
    let (new, link) = (name_in(&rt, "near")?, name_in(&rt, "far")?);
    let (new, link) = (new.as_str(), link.as_str());
    let elsewhere = name_elsewhere(&rt)?;
    symlink(&rt, elsewhere.as_str(), link)?;
    let mut files = Gathering::new(alloc, RealFiles::new(&rt));
    let was = first_bytes(&rt, &mut files, link);
    expect(&rt, files.write_at(new, 0, b"newer"), Ok(()));
    expect(&rt, files.rename(new, link), Err(FileErr::Failed));
    expect(&rt, files.fault_count(), 1);
    expect(&rt, first_bytes(&rt, &mut files, new), *b"newer");
    expect(&rt, first_bytes(&rt, &mut files, link), was);
    assert!(rt; fs::symlink_metadata(&rt, link)?.is_symlink());
    expect(&rt, files.remove(new), Ok(()));
    expect(&rt, files.remove(link), Ok(()));
    if was == *b"other" {
        expect(&rt, files.remove(elsewhere.as_str()), Ok(()));
    }
    Ok(())
}

#[test]
fn a_rename_that_fails_leaves_both(rt: HostRuntime) -> Result<(), Fail> {
    let alloc = rt.alloc();
    let (table, folder) = (name_in(&rt, "kept")?, name_in(&rt, "folder")?);
    let (link, absent) = (name_in(&rt, "same")?, name_in(&rt, "none")?);
    let (table, folder, link) = (table.as_str(), folder.as_str(), link.as_str());
    fs::create_dir(&rt, folder)?;
    symlink(&rt, table, link)?;
    let mut files = Gathering::new(alloc, RealFiles::new(&rt));
    expect(&rt, files.write_at(table, 0, b"table"), Ok(()));
    // No file has the name: nothing is done, and that is no fault.
    expect(&rt, files.rename(absent.as_str(), table), Ok(()));
    expect(&rt, files.fault_count(), 0);
    // The other name is that of a folder, then of the same file, and then this name is a link.
    expect(&rt, files.rename(table, folder), Err(FileErr::Failed));
    expect(&rt, files.fault_count(), 1);
    expect(&rt, files.rename(table, link), Err(FileErr::Failed));
    expect(&rt, files.fault_count(), 2);
    expect(
        &rt,
        files.rename(link, absent.as_str()),
        Err(FileErr::Failed),
    );
    expect(&rt, files.fault_count(), 3);
    expect(&rt, first_bytes(&rt, &mut files, table), *b"table");
    expect(&rt, files.length(absent.as_str()), Ok(None));
    assert!(rt; fs::symlink_metadata(&rt, link)?.is_symlink());
    assert!(rt; fs::metadata(&rt, folder)?.is_dir());
    expect(&rt, files.remove(link), Ok(()));
    expect(&rt, files.remove(table), Ok(()));
    fs::remove_dir(&rt, folder)?;
    Ok(())
}
