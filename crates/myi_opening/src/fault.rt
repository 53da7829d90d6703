//! Why a table is not opened.
ghost use Rattle.std.specs.Prelude.{◌≡◌};
ghost use Rattle.myi_opening.specs.declared.fault.TableFault.TheVariants.{Memory};

use myi_defs::DefFault;
use myi_io::FileErr;
use std::alloc::{AllocError, AllocFailed, Global};
use thiserror::Error;

/// One of the two files of a table.
#[derive(Clone, Copy, Debug, PartialEq, Eq)]
pub enum TableFile {
    Index,
    Data,
}

impl TableFile {
    ghost use Rattle.std.specs.Prelude.{◌≡◌, string_bytes, IfOk};
    ghost use Rattle.myi_opening.specs.Names.{file_of};

    /// The file's name, by the name of the table.
    pub fn of(self, alloc: Global, table: &str) -> Result<String, AllocError>
        ensures { IfOk result (λ name. string_bytes name ≡ file_of self table.now) }
    {
        match self {
            TableFile::Index => format!(in alloc; "{table}.MYI"),
            TableFile::Data => format!(in alloc; "{table}.MYD"),
        }
    }
}

/// Why a table is not opened, or what cut off a call that reads it. Nothing is changed.
#[derive(Clone, Copy, Debug, PartialEq, Eq, Error)]
pub enum TableFault {
    /// This file is not there; the index file is looked for first.
    #[error("a file of the table is not there")]
    Absent(TableFile),
    /// The definitions are refused, not for want of memory.
    #[error("the definitions are refused")]
    Def(DefFault),
    /// A file call failed. The files' count of faults rose.
    #[error("a file cannot be read")]
    File,
    #[error("out of memory")]
    Memory,
}

impl From<AllocError> for TableFault {
    ghost from_gives = { λ _ f. f ≡ Memory };

    fn from(_: AllocError) -> Self {
        TableFault::Memory
    }
}

impl<T: Drop> From<AllocFailed<T>> for TableFault {
    ghost from_gives = { λ _ f. f ≡ Memory };

    fn from(_: AllocFailed<T>) -> Self {
        TableFault::Memory
    }
}

impl From<FileErr> for TableFault {
    ghost use Rattle.myi_base.specs.HandsOn.{HandsOn};
    ghost use Rattle.myi_io.specs.declared.files.FileErr.TheVariants as file;
    ghost use Rattle.myi_opening.specs.declared.fault.TableFault.TheVariants.{File, Memory};

    ghost from_gives = { HandsOn (file.Failed, File) (file.Memory, Memory) };

    fn from(error: FileErr) -> Self {
        match error {
            FileErr::Failed => TableFault::File,
            FileErr::Memory => TableFault::Memory,
        }
    }
}
