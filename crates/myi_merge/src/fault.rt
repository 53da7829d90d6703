//! Why a MERGE list is not loaded, and why no row is inserted in it.
use myi_defs::DefFault;
use myi_io::FileErr;
use myi_mergelist::ListFault;
use myi_table::ChangeFault;
use std::alloc::{AllocError, AllocFailed};
use thiserror::Error;

/// Why a MERGE list is not loaded. Nothing is changed.
#[derive(Debug, Drop, Error)]
pub enum MergeFault {
    /// This file is not there: that of the list, or one of a table.
    #[error("{file} is not there")]
    Absent { file: String },
    /// The text is no list.
    #[error("the text is no list of tables")]
    List,
    /// The table of this name has another row format, other fields or other keys than the first.
    #[error("{table} has another row format, other fields or other keys than the first table")]
    Differs { table: String },
    /// The definitions of the table of this name are refused so.
    #[error("the definitions of {table} are refused")]
    Def { table: String, fault: DefFault },
    /// The index file of the table of this name has not the mark.
    #[error("the index file of {table} is foreign")]
    Foreign { table: String },
    /// A file call failed. The files' count of faults rose.
    #[error("a file cannot be read")]
    File,
    /// Out of memory; also where the index file of a table leaves no room for a page below 2^64.
    #[error("out of memory")]
    Memory,
}

/// Why a row was not inserted.
#[derive(Clone, Copy, Debug, PartialEq, Eq, Error)]
pub enum MergeInsertFault {
    /// The list does not say in which table rows are inserted. Nothing is changed.
    #[error("the list has no insert method")]
    NoInsertMethod,
    /// The table refused it so.
    #[error("{0}")]
    Change(ChangeFault),
}

impl From<AllocError> for MergeFault {
    ghost use Rattle.std.specs.Prelude.{◌≡◌};
    ghost use Rattle.myi_merge.specs.declared.fault.MergeFault.TheVariants.{Memory};

    ghost from_gives = { λ _ f. f ≡ Memory };

    fn from(_: AllocError) -> Self {
        MergeFault::Memory
    }
}

impl<T: Drop> From<AllocFailed<T>> for MergeFault {
    ghost use Rattle.std.specs.Prelude.{◌≡◌};
    ghost use Rattle.myi_merge.specs.declared.fault.MergeFault.TheVariants.{Memory};

    ghost from_gives = { λ _ f. f ≡ Memory };

    fn from(_: AllocFailed<T>) -> Self {
        MergeFault::Memory
    }
}

impl From<FileErr> for MergeFault {
    ghost use Rattle.myi_base.specs.HandsOn.{HandsOn};
    ghost use Rattle.myi_io.specs.declared.files.FileErr.TheVariants as file;
    ghost use Rattle.myi_merge.specs.declared.fault.MergeFault.TheVariants.{File, Memory};

    ghost from_gives = { HandsOn (file.Failed, File) (file.Memory, Memory) };

    fn from(error: FileErr) -> Self {
        match error {
            FileErr::Failed => MergeFault::File,
            FileErr::Memory => MergeFault::Memory,
        }
    }
}

impl From<ListFault> for MergeFault {
    ghost use Rattle.std.specs.Prelude.{◌≡◌};
    ghost use Rattle.myi_merge.specs.Loading.{of_list};

    ghost from_gives = { λ e f. f ≡ of_list e };

    fn from(fault: ListFault) -> Self {
        match fault {
            ListFault::List => MergeFault::List,
            ListFault::Memory => MergeFault::Memory,
        }
    }
}

impl From<ChangeFault> for MergeInsertFault {
    ghost use Rattle.std.specs.Prelude.{◌≡◌};
    ghost use Rattle.myi_merge.specs.declared.fault.MergeInsertFault.TheVariants.{Change};

    ghost from_gives = { λ e f. f ≡ Change e };

    fn from(fault: ChangeFault) -> Self {
        MergeInsertFault::Change(fault)
    }
}
