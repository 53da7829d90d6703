//! Why the pages of an index file are not sorted.
ghost use Rattle.std.specs.Prelude.{◌≡◌};
ghost use Rattle.myi_sortindex.specs.declared.fault.SortFault.TheVariants.{Memory};

use myi_defs::DefFault;
use myi_io::FileErr;
use myi_opening::{TableFault, TableFile};
use myi_pair::Finding;
use std::alloc::{AllocError, AllocFailed};
use thiserror::Error;

/// Why the pages of an index file are not sorted. `Absent`, `Def` and `Damaged` are said in this order, before
/// anything is changed.
#[derive(Clone, Copy, Debug, PartialEq, Eq, Error)]
pub enum SortFault {
    /// This file is not there; the index file is looked for first.
    #[error("a file of the table is not there")]
    Absent(TableFile),
    /// The definitions are refused, not for want of memory.
    #[error("the definitions are refused")]
    Def(DefFault),
    /// The first thing that a check finds wrong with the table. Over files that somebody else writes meanwhile also a
    /// page of a tree that the check found whole.
    #[error("the table is damaged")]
    Damaged(Finding),
    /// A file call failed. The files' count of faults rose.
    #[error("a file cannot be read or written")]
    File,
    #[error("out of memory")]
    Memory,
}

impl From<AllocError> for SortFault {
    ghost from_gives = { λ _ f. f ≡ Memory };

    fn from(_: AllocError) -> Self {
        SortFault::Memory
    }
}

impl<T: Drop> From<AllocFailed<T>> for SortFault {
    ghost from_gives = { λ _ f. f ≡ Memory };

    fn from(_: AllocFailed<T>) -> Self {
        SortFault::Memory
    }
}

impl From<TableFault> for SortFault {
    ghost use Rattle.std.specs.Prelude.{◌≡◌};
    ghost use Rattle.myi_sortindex.specs.Refusals.{sort_fault};

    ghost from_gives = { λ e f. f ≡ sort_fault e };

    fn from(fault: TableFault) -> Self {
        match fault {
            TableFault::Absent(file) => SortFault::Absent(file),
            TableFault::Def(fault) => SortFault::Def(fault),
            TableFault::File => SortFault::File,
            TableFault::Memory => SortFault::Memory,
        }
    }
}

impl From<FileErr> for SortFault {
    ghost use Rattle.myi_base.specs.HandsOn.{HandsOn};
    ghost use Rattle.myi_io.specs.declared.files.FileErr.TheVariants as file;
    ghost use Rattle.myi_sortindex.specs.declared.fault.SortFault.TheVariants.{File, Memory};

    ghost from_gives = { HandsOn (file.Failed, File) (file.Memory, Memory) };

    fn from(error: FileErr) -> Self {
        match error {
            FileErr::Failed => SortFault::File,
            FileErr::Memory => SortFault::Memory,
        }
    }
}
