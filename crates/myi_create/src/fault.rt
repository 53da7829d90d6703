//! Why a table is not made.
ghost use Rattle.std.specs.Prelude.{◌≡◌};
ghost use Rattle.myi_create.specs.declared.fault.CreateFault.TheVariants.{Memory};

use myi_defs::DefFault;
use myi_deftext::TextFault;
use myi_io::FileErr;
use std::alloc::{AllocError, AllocFailed};
use thiserror::Error;

/// Why a table is not made.
#[derive(Clone, Copy, Debug, PartialEq, Eq, Error)]
pub enum CreateFault {
    /// The file of the text is not there.
    #[error("the text is not there")]
    Absent,
    /// The number of the first line of the text that is not in the grammar, from 1.
    #[error("line {0} of the text is wrong")]
    Line(u32),
    /// The definitions that the text stands for are refused.
    #[error("the definitions are refused")]
    Def(DefFault),
    /// A file call failed. The files' count of faults rose.
    #[error("a file cannot be read or written")]
    File,
    #[error("out of memory")]
    Memory,
}

impl From<AllocError> for CreateFault {
    ghost from_gives = { λ _ f. f ≡ Memory };

    fn from(_: AllocError) -> Self {
        CreateFault::Memory
    }
}

impl<T: Drop> From<AllocFailed<T>> for CreateFault {
    ghost from_gives = { λ _ f. f ≡ Memory };

    fn from(_: AllocFailed<T>) -> Self {
        CreateFault::Memory
    }
}

impl From<TextFault> for CreateFault {
    ghost use Rattle.std.specs.Prelude.{◌≡◌};
    ghost use Rattle.myi_create.specs.Creating.{fault_of};

    ghost from_gives = { λ e f. f ≡ fault_of e };

    fn from(fault: TextFault) -> Self {
        match fault {
            TextFault::Line(number) => CreateFault::Line(number),
            TextFault::Def(fault) => CreateFault::Def(fault),
            TextFault::Memory => CreateFault::Memory,
        }
    }
}

impl From<FileErr> for CreateFault {
    ghost use Rattle.myi_base.specs.HandsOn.{HandsOn};
    ghost use Rattle.myi_io.specs.declared.files.FileErr.TheVariants as file;
    ghost use Rattle.myi_create.specs.declared.fault.CreateFault.TheVariants.{File, Memory};

    ghost from_gives = { HandsOn (file.Failed, File) (file.Memory, Memory) };

    fn from(error: FileErr) -> Self {
        match error {
            FileErr::Failed => CreateFault::File,
            FileErr::Memory => CreateFault::Memory,
        }
    }
}
