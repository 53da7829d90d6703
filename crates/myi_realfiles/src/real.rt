//! `RealFiles` and `RealSink`: the file system and standard output.
//!
//! They are the trusted edge: they tell nothing of what they hold, and only the cause of their
//! failures is proved. `RealFiles` keeps its files open (`Disk`), reads and writes at positions, and
//! counts what fails. Writes go to the file system one by one; `Gathering` makes large ones of them.
ghost use Rattle.std.specs.Prelude.{◌≡◌, ◌≤◌, ◌<◌, length, vec_len, IfOk, IfSome, true, None};
ghost use Rattle.std.specs.IoError.{error_kind};
ghost use Rattle.myi_realfiles.specs.RealFiles.{told_as};

use crate::replace::replace_file;
use myi_adapters::Writable;
use myi_io::{FileErr, FileReader, Files, Sink, SinkErr};
use std::alloc::Global;
use std::fs::{File, OpenOptions};
use std::io::{ErrorKind, Write};
use std::os::unix::fs::{FileExt, OpenOptionsExt};
use std::{io, rt};

// How many files are kept open.
const KEPT_OPEN: usize = 64;

#[derive(Drop)]
struct OpenFile {
    name: String,
    file: File,
}

/// The open files, whose calls answer as those of the file system do.
#[derive(Drop)]
struct Disk<R> {
    rt: R,
    opened: Vec<OpenFile>,
}

/// The files of the system, by their paths.
#[derive(Drop)]
pub struct RealFiles<R> {
    disk: Disk<R>,
    faults: u64,
}

// Whether an error says that no file has the name, as where none can have it: one that is too long, or has a zero byte.
fn is_absent(error: &io::Error) -> bool {
    matches!(
        error.kind(),
        ErrorKind::NotFound
            | ErrorKind::NotADirectory
            | ErrorKind::InvalidFilename
            | ErrorKind::InvalidInput
    )
}

// Whether an error says that a file may be read but not written.
fn is_read_only(error: &io::Error) -> bool {
    matches!(
        error.kind(),
        ErrorKind::PermissionDenied | ErrorKind::ReadOnlyFilesystem
    )
}

// What an error is told as.
fn told_as(error: &io::Error) -> FileErr
    ensures { result ≡ told_as (error_kind error.now) }
{
    match error.kind() {
        ErrorKind::OutOfMemory => FileErr::Memory,
        _ => FileErr::Failed,
    }
}

// None where no file has the name.
fn open_to_read(rt: &impl rt::Files<File = File>, name: &str) -> io::Result<Option<File>> {
    match File::open(rt, name) {
        Ok(file) => Ok(Some(file)),
        Err(error) if is_absent(&error) => Ok(None),
        Err(error) => Err(error),
    }
}

// To read and write, or only to read where no more is allowed. None where no file has the name.
fn open(rt: &impl rt::Files<File = File>, name: &str) -> io::Result<Option<File>> {
    match OpenOptions::new().read(true).write(true).open(rt, name) {
        Ok(file) => Ok(Some(file)),
        Err(error) if is_absent(&error) => Ok(None),
        Err(error) if is_read_only(&error) => open_to_read(rt, name),
        Err(error) => Err(error),
    }
}

// A new file has the mode of the server's own: nothing for others.
fn make(rt: &impl rt::Files<File = File>, name: &str) -> io::Result<File> {
    OpenOptions::new()
        .read(true)
        .write(true)
        .create_new(true)
        .mode(0o660)
        .open(rt, name)
}

fn fill(file: &File, at: u64, into: &mut [u8]) -> io::Result<usize>
    ensures { IfOk result (λ count. count ≤ length into.new) }
{
    // No file reaches further, and the system refuses to look.
    let room = (i64::MAX as u64).saturating_sub(at);
    let end = (into.len() as u64).min(room) as usize;
    let mut count = 0usize;
    for _ in 0..u64::MAX {
        if count >= end {
            return Ok(count);
        }
        match file.read_at(&mut into[count..end], at.saturating_add(count as u64)) {
            Ok(0) => return Ok(count),
            Ok(more) => count += more,
            Err(error) if error.kind() == ErrorKind::Interrupted => {}
            Err(error) => return Err(error),
        }
    }
    Err(ErrorKind::Other.into())
}

// Writes bytes at a place. If there are none, the file reaches it then.
fn put(file: &File, at: u64, bytes: &[u8]) -> io::Result<()> {
    if !bytes.is_empty() {
        return file.write_all_at(bytes, at);
    }
    if file.metadata()?.len() < at {
        file.set_len(at)?;
    }
    Ok(())
}

impl<R: rt::Files<File = File>> Disk<R> {
    ghost use Rattle.std.specs.Prelude.{◌≡◌, ◌<◌, ◌≤◌, false, length, IfOk, IfSome};
    ghost use Rattle.myi_realfiles.specs.RealFiles.{opened_count, real_reader_faults};

    fn keep(&mut self, name: &str, file: File) -> io::Result<usize>
        ensures { IfOk result (λ place. place < opened_count self.new) }
    {
        if self.opened.len() >= KEPT_OPEN {
            self.opened.clear();
        }
        let name = String::from_str(*self.opened.allocator(), name)?;
        self.opened.push(OpenFile { name, file })?;
        Ok(self.opened.len() - 1)
    }

    // Where the open file of that name is kept, and None where no file has the name.
    fn find(&mut self, name: &str) -> io::Result<Option<usize>>
        ensures { IfOk result (λ found. IfSome found (λ place. place < opened_count self.new)) }
    {
        for (place, opened) in self.opened.iter().enumerate() {
            if opened.name.as_str() == name {
                return Ok(Some(place));
            }
        }
        match open(&self.rt, name)? {
            Some(file) => Ok(Some(self.keep(name, file)?)),
            None => Ok(None),
        }
    }

    // The same, but a file is made where there is none; and whether it was.
    fn find_or_make(&mut self, name: &str) -> io::Result<(usize, bool)>
        ensures { IfOk result (λ found. found.0 < opened_count self.new) }
    {
        if let Some(place) = self.find(name)? {
            return Ok((place, false));
        }
        let file = make(&self.rt, name)?;
        let kept = self.keep(name, file);
        self.undo_made(name, kept.is_err());
        Ok((kept?, true))
    }

    // Takes away a file that was made for a change that failed. What failed first is told, not whether this
    // does too.
    fn undo_made(&mut self, name: &str, failed: bool)
        ensures { failed ≡ false → self.new ≡ self.old }
    {
        if failed {
            let _told = self.remove(name);
        }
    }

    // A link may lead to a file under another name than it was opened by.
    fn forget_all(&mut self) {
        self.opened.clear();
    }

    fn size(&mut self, name: &str) -> io::Result<Option<u64>> {
        match self.find(name)? {
            Some(place) => Ok(Some(self.opened[place].file.metadata()?.len())),
            None => Ok(None),
        }
    }

    fn read(&mut self, name: &str, at: u64, into: &mut [u8]) -> io::Result<usize>
        ensures { IfOk result (λ count. count ≤ length into.new) }
    {
        match self.find(name)? {
            Some(place) => Ok(fill(&self.opened[place].file, at, into)?),
            None => Ok(0),
        }
    }

    fn write(&mut self, name: &str, at: u64, bytes: &[u8]) -> io::Result<()> {
        let (place, made) = self.find_or_make(name)?;
        let answer = put(&self.opened[place].file, at, bytes);
        self.undo_made(name, made && answer.is_err());
        answer
    }

    fn reader(&mut self, name: &str) -> io::Result<RealReader>
        ensures { IfOk result (λ reader. real_reader_faults reader ≡ 0) }
    {
        let file = open_to_read(&self.rt, name)?;
        Ok(RealReader { file, faults: 0 })
    }

    fn resize(&mut self, name: &str, length: u64) -> io::Result<()> {
        let (place, made) = self.find_or_make(name)?;
        let answer = self.opened[place].file.set_len(length);
        self.undo_made(name, made && answer.is_err());
        answer
    }

    fn rename(&mut self, from: &str, to: &str) -> io::Result<()> {
        if from == to {
            return Ok(());
        }
        let Some(place) = self.find(from)? else {
            return Ok(());
        };
        let alloc = *self.opened.allocator();
        replace_file(alloc, &self.rt, from, &self.opened[place].file, to)?;
        self.forget_all();
        Ok(())
    }

    // A file that is not there is no fault.
    fn remove(&mut self, name: &str) -> io::Result<()> {
        self.forget_all();
        match self.rt.remove_file(name) {
            Err(error) if is_absent(&error) => Ok(()),
            other => other,
        }
    }
}

impl<R> RealFiles<R> {
    ghost use Rattle.std.specs.Prelude.{◌≡◌, MatchResult, Ok, Err};
    ghost use Rattle.std.specs.IoError.{error_kind};
    ghost use Rattle.myi_io.specs.declared.files.FileErr.TheVariants.{Failed};
    ghost use Rattle.myi_base.specs.Causes.{HasCause};
    ghost use Rattle.myi_realfiles.specs.RealFiles.{real_faults, told_as};

    // Tells want of memory as such, and counts any other failure.
    fn counted<T: Drop>(&mut self, answer: io::Result<T>) -> Result<T, FileErr>
        ensures same { MatchResult answer (λ x. result ≡ Ok x)
            (λ e. result ≡ Err (told_as (error_kind e))) }
        ensures cause { HasCause Failed (real_faults self.old) (real_faults self.new) result }
    {
        match answer {
            Ok(x) => Ok(x),
            Err(error) => {
                let told = told_as(&error);
                if told == FileErr::Failed {
                    self.faults = self.faults.saturating_add(1);
                }
                Err(told)
            }
        }
    }

    // Counts a failure, and want of memory as one.
    fn counted_all<T: Drop>(&mut self, answer: io::Result<T>) -> Result<T, FileErr>
        ensures same { MatchResult answer (λ x. result ≡ Ok x) (λ _. result ≡ Err Failed) }
        ensures cause { HasCause Failed (real_faults self.old) (real_faults self.new) result }
    {
        match answer {
            Ok(x) => Ok(x),
            Err(_) => {
                self.faults = self.faults.saturating_add(1);
                Err(FileErr::Failed)
            }
        }
    }
}

impl<R: AllocGlobal> RealFiles<R> {
    ghost use Rattle.std.specs.Prelude.{◌≡◌};
    ghost use Rattle.myi_realfiles.specs.RealFiles.{real_faults};

    /// No file is open yet, and no call has failed.
    pub fn new(rt: R) -> Self
        ensures { real_faults result ≡ 0 }
    {
        let opened = Vec::new(rt.alloc());
        RealFiles {
            disk: Disk { rt, opened },
            faults: 0,
        }
    }
}

impl<R: rt::Files<File = File>> Files for RealFiles<R> {
    type Reader = RealReader;

    ghost holds = { λ _. None };

    ghost faults = { λ s. s.faults };

    ghost reads = { λ _. 0 };

    ghost writable = { true };

    fn length(&mut self, name: &str) -> Result<Option<u64>, FileErr> {
        let answer = self.disk.size(name);
        self.counted(answer)
    }

    fn read_at(&mut self, name: &str, at: u64, into: &mut [u8]) -> Result<usize, FileErr> {
        let answer = self.disk.read(name, at, into);
        self.counted_all(answer)
    }

    fn write_at(&mut self, name: &str, at: u64, bytes: &[u8]) -> Result<(), FileErr> {
        let answer = self.disk.write(name, at, bytes);
        self.counted(answer)
    }

    fn cut(&mut self, name: &str, length: u64) -> Result<(), FileErr> {
        let answer = self.disk.resize(name, length);
        self.counted(answer)
    }

    fn rename(&mut self, from: &str, to: &str) -> Result<(), FileErr> {
        let answer = self.disk.rename(from, to);
        self.counted(answer)
    }

    fn remove(&mut self, name: &str) -> Result<(), FileErr> {
        let answer = self.disk.remove(name);
        self.counted_all(answer)
    }

    fn reader(&mut self, name: &str) -> Result<RealReader, FileErr> {
        let answer = self.disk.reader(name);
        self.counted(answer)
    }

    fn fault_count(&self) -> u64 {
        self.faults
    }

    ghost told_bytes = { λ s m told. absurd cc };
}

impl<R: rt::Files<File = File>> Writable for RealFiles<R> {}

/// A file of the system, open to be read. Where there was none, it has no bytes.
#[derive(Drop)]
pub struct RealReader {
    file: Option<File>,
    faults: u64,
}

impl FileReader for RealReader {
    ghost holds = { λ _. None };

    ghost faults = { λ s. s.faults };

    ghost reads = { λ _. 0 };

    fn read_at(&mut self, at: u64, into: &mut [u8]) -> Result<usize, FileErr> {
        let Some(file) = &self.file else {
            return Ok(0);
        };
        match fill(file, at, into) {
            Ok(count) => Ok(count),
            Err(_) => {
                self.faults = self.faults.saturating_add(1);
                Err(FileErr::Failed)
            }
        }
    }

    fn fault_count(&self) -> u64 {
        self.faults
    }

    ghost told_bytes = { λ s x told. absurd cc };
}

/// Standard output.
#[derive(Drop)]
pub struct RealSink<R> {
    rt: R,
    faults: u64,
}

impl<R> RealSink<R> {
    ghost use Rattle.std.specs.Prelude.{◌≡◌};
    ghost use Rattle.myi_realfiles.specs.RealFiles.{real_sink_faults};

    /// No write has failed.
    pub fn new(rt: R) -> Self
        ensures { real_sink_faults result ≡ 0 }
    {
        RealSink { rt, faults: 0 }
    }
}

impl<R: Print> Sink for RealSink<R> {
    ghost written = { λ _. None };

    ghost faults = { λ s. s.faults };

    fn write(&mut self, bytes: &[u8]) -> Result<(), SinkErr> {
        match io::writer(&self.rt).write_all(bytes) {
            Ok(()) => Ok(()),
            Err(error) if told_as(&error) == FileErr::Memory => Err(SinkErr::Memory),
            Err(_) => {
                self.faults = self.faults.saturating_add(1);
                Err(SinkErr::Failed)
            }
        }
    }
}
