//! Why a table is not shared.
use myi_io::FileErr;
use myi_table::ChangeFault;
use std::alloc::{AllocError, AllocFailed};
use thiserror::Error;

/// Why a table is not shared. It stands for the state that it had, and is not broken.
#[derive(Clone, Copy, Debug, PartialEq, Eq, Error)]
pub enum ShareFault {
    /// A file call failed. The files' count of faults rose.
    #[error("a file call failed")]
    File,
    #[error("out of memory")]
    Memory,
}

impl From<AllocError> for ShareFault {
    ghost use Rattle.std.specs.Prelude.{◌≡◌};
    ghost use Rattle.myi_share.specs.declared.fault.ShareFault.TheVariants.{Memory};

    ghost from_gives = { λ _ f. f ≡ Memory };

    fn from(_: AllocError) -> Self {
        ShareFault::Memory
    }
}

impl<T: Drop> From<AllocFailed<T>> for ShareFault {
    ghost use Rattle.std.specs.Prelude.{◌≡◌};
    ghost use Rattle.myi_share.specs.declared.fault.ShareFault.TheVariants.{Memory};

    ghost from_gives = { λ _ f. f ≡ Memory };

    fn from(_: AllocFailed<T>) -> Self {
        ShareFault::Memory
    }
}

impl From<FileErr> for ShareFault {
    ghost use Rattle.myi_base.specs.HandsOn.{HandsOn};
    ghost use Rattle.myi_io.specs.declared.files.FileErr.TheVariants as file;
    ghost use Rattle.myi_share.specs.declared.fault.ShareFault.TheVariants.{File, Memory};

    ghost from_gives = { HandsOn (file.Failed, File) (file.Memory, Memory) };

    fn from(error: FileErr) -> Self {
        match error {
            FileErr::Failed => ShareFault::File,
            FileErr::Memory => ShareFault::Memory,
        }
    }
}

impl From<ChangeFault> for ShareFault {
    ghost use Rattle.std.specs.Prelude.{◌≡◌};
    ghost use Rattle.myi_share.specs.Faults.{of_change};

    ghost from_gives = { λ e f. f ≡ of_change e };

    fn from(fault: ChangeFault) -> Self {
        match fault {
            ChangeFault::File => ShareFault::File,
            // What a table put is written or is not; it is refused for nothing else.
            _ => ShareFault::Memory,
        }
    }
}
