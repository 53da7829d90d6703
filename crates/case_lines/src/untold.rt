//! `Untold`: files in memory that tell nothing, as those of a disk do, and their readers.
//!
//! A call on a file that tells nothing asks nothing of what the file holds, so that any line may be read
//! into it.
ghost use Rattle.std.specs.Prelude.{None, true};
ghost use Rattle.myi_memfiles.specs.MemFiles.{files_faults, files_reads};
ghost use Rattle.myi_memfiles.specs.MemReader.{reader_faults, reader_reads};

use myi_io::{FileErr, FileReader, Files};
use myi_memfiles::{MemFiles, MemReader};

/// Files in memory, of which nothing is told.
#[derive(Drop)]
pub struct Untold {
    pub files: MemFiles,
}

impl Files for Untold {
    type Reader = UntoldReader;

    ghost holds = { λ _. None };

    ghost faults = { λ s. files_faults s.files };

    ghost reads = { λ s. files_reads s.files };

    ghost writable = { true };

    fn length(&mut self, name: &str) -> Result<Option<u64>, FileErr> {
        let answer = self.files.length(name)?;
        Ok(answer)
    }

    fn read_at(&mut self, name: &str, at: u64, into: &mut [u8]) -> Result<usize, FileErr> {
        let count = self.files.read_at(name, at, into)?;
        Ok(count)
    }

    fn write_at(&mut self, name: &str, at: u64, bytes: &[u8]) -> Result<(), FileErr> {
        self.files.write_at(name, at, bytes)?;
        Ok(())
    }

    fn cut(&mut self, name: &str, length: u64) -> Result<(), FileErr> {
        self.files.cut(name, length)?;
        Ok(())
    }

    fn rename(&mut self, from: &str, to: &str) -> Result<(), FileErr> {
        self.files.rename(from, to)?;
        Ok(())
    }

    fn remove(&mut self, name: &str) -> Result<(), FileErr> {
        self.files.remove(name)?;
        Ok(())
    }

    fn reader(&mut self, name: &str) -> Result<UntoldReader, FileErr> {
        let reader = self.files.reader(name)?;
        Ok(UntoldReader { reader })
    }

    fn fault_count(&self) -> u64 {
        self.files.fault_count()
    }

    ghost told_bytes = { λ s m told. absurd cc };
}

/// The bytes of a file in memory, of which nothing is told.
#[derive(Drop)]
pub struct UntoldReader {
    reader: MemReader,
}

impl FileReader for UntoldReader {
    ghost holds = { λ _. None };

    ghost faults = { λ s. reader_faults s.reader };

    ghost reads = { λ s. reader_reads s.reader };

    fn read_at(&mut self, at: u64, into: &mut [u8]) -> Result<usize, FileErr> {
        let count = self.reader.read_at(at, into)?;
        Ok(count)
    }

    fn fault_count(&self) -> u64 {
        self.reader.fault_count()
    }

    ghost told_bytes = { λ s x told. absurd cc };
}
