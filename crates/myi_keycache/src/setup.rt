//! What a key cache is given, what it counts, and why it did not answer.

use myi_io::FileErr;
use std::alloc::{AllocError, AllocFailed};
use thiserror::Error;

/// How a key cache keeps its pages.
#[derive(Clone, Copy, Debug, PartialEq, Eq)]
pub struct CacheSetup {
    /// How many pages it may keep, 1 to 65,536.
    pub blocks: u32,
    /// The least share of them that is kept for pages that were asked for seldom, in percent, 1 to 100.
    pub division: u32,
    /// After how many requests, in percent of the blocks, a page that was asked for often counts as one
    /// that was not, 100 to 1,000,000.
    pub age: u32,
}

/// How often a key cache was asked, and how often it went to the file. A count that stands at 2^64 - 1
/// stays there.
#[derive(Clone, Copy, Debug, PartialEq, Eq)]
pub struct Counters {
    /// How many gets were answered.
    pub read_requests: u64,
    /// How many of them read the file.
    pub reads: u64,
    /// How many puts were done.
    pub write_requests: u64,
    /// How many pages were written to the file.
    pub writes: u64,
}

/// Why a key cache did not answer.
#[derive(Clone, Copy, Debug, PartialEq, Eq, Error)]
pub enum CacheFault {
    /// The file ends before the end of the page at this place.
    #[error("the index file ends within the page at {at}")]
    Short { at: u64 },
    /// A file call failed. The files' count of faults rose.
    #[error("the index file cannot be read or written")]
    File,
    #[error("out of memory")]
    Memory,
}

impl From<FileErr> for CacheFault {
    ghost use Rattle.myi_base.specs.HandsOn.{HandsOn};
    ghost use Rattle.myi_io.specs.declared.files.FileErr.TheVariants as file;
    ghost use Rattle.myi_keycache.specs.declared.setup.CacheFault.TheVariants.{File, Memory};

    ghost from_gives = { HandsOn (file.Failed, File) (file.Memory, Memory) };

    fn from(error: FileErr) -> Self {
        match error {
            FileErr::Failed => CacheFault::File,
            FileErr::Memory => CacheFault::Memory,
        }
    }
}

impl<T: Drop> From<AllocFailed<T>> for CacheFault {
    ghost use Rattle.std.specs.Prelude.{◌≡◌};
    ghost use Rattle.myi_keycache.specs.declared.setup.CacheFault.TheVariants.{Memory};

    ghost from_gives = { λ _ f. f ≡ Memory };

    fn from(_: AllocFailed<T>) -> Self {
        CacheFault::Memory
    }
}

impl From<AllocError> for CacheFault {
    ghost use Rattle.std.specs.Prelude.{◌≡◌};
    ghost use Rattle.myi_keycache.specs.declared.setup.CacheFault.TheVariants.{Memory};

    ghost from_gives = { λ _ f. f ≡ Memory };

    fn from(_: AllocError) -> Self {
        CacheFault::Memory
    }
}

impl Counters {
    ghost use Rattle.std.specs.Prelude.{◌≡◌, if◌then◌else◌};
    ghost use Rattle.myi_keycache.specs.Counts.{no_counts, raised};

    /// No request yet.
    pub(crate) fn none() -> Counters
        ensures { result ≡ no_counts }
    {
        Counters {
            read_requests: 0,
            reads: 0,
            write_requests: 0,
            writes: 0,
        }
    }

    /// Counts a get, and whether it read the file.
    pub(crate) fn count_get(&mut self, read: bool)
        ensures { self.new ≡ record self.old {
          read_requests = raised 1 self.old.read_requests;
          reads = raised (if read then 1 else 0) self.old.reads;
        } }
    {
        self.read_requests = self.read_requests.saturating_add(1);
        self.reads = self.reads.saturating_add(read as u64);
    }

    /// Counts a put.
    pub(crate) fn count_put(&mut self)
        ensures { self.new ≡ record self.old { write_requests = raised 1 self.old.write_requests } }
    {
        self.write_requests = self.write_requests.saturating_add(1);
    }

    /// Counts a page that was written.
    pub(crate) fn count_write(&mut self)
        ensures { self.new ≡ record self.old { writes = raised 1 self.old.writes } }
    {
        self.writes = self.writes.saturating_add(1);
    }
}
