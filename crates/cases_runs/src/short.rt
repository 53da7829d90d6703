//! `ShortFiles`: files in memory that tell nothing, of which one says that it is longer or shorter than it is.
ghost use Rattle.std.specs.Prelude.{None, true};
ghost use Rattle.myi_memfiles.specs.MemFiles.{files_faults, files_reads};

use case_lines::{Untold, UntoldReader};
use myi_io::{FileErr, Files};

/// Files in memory, of which nothing is told.
#[derive(Drop)]
pub struct ShortFiles {
    pub files: Untold,
    /// The file that says a length of its own.
    pub name: String,
    /// That length.
    pub length: u64,
}

impl Files for ShortFiles {
    type Reader = UntoldReader;

    ghost holds = { λ _. None };

    ghost faults = { λ s. files_faults s.files.files };

    ghost reads = { λ s. files_reads s.files.files };

    ghost writable = { true };

    fn length(&mut self, name: &str) -> Result<Option<u64>, FileErr> {
        let length = self.files.length(name)?;
        if length.is_some() && name == self.name.as_str() {
            return Ok(Some(self.length));
        }
        Ok(length)
    }

    fn read_at(&mut self, name: &str, at: u64, into: &mut [u8]) -> Result<usize, FileErr> {
        self.files.read_at(name, at, into)
    }

    fn write_at(&mut self, name: &str, at: u64, bytes: &[u8]) -> Result<(), FileErr> {
        self.files.write_at(name, at, bytes)
    }

    fn cut(&mut self, name: &str, length: u64) -> Result<(), FileErr> {
        self.files.cut(name, length)
    }

    fn rename(&mut self, from: &str, to: &str) -> Result<(), FileErr> {
        self.files.rename(from, to)
    }

    fn remove(&mut self, name: &str) -> Result<(), FileErr> {
        self.files.remove(name)
    }

    fn reader(&mut self, name: &str) -> Result<UntoldReader, FileErr> {
        self.files.reader(name)
    }

    fn fault_count(&self) -> u64 {
        self.files.fault_count()
    }

    ghost told_bytes = { λ s m told. absurd cc };
}
