//! Why a call on the deleted list did not do its work.

use myi_io::FileErr;
use std::alloc::AllocFailed;
use thiserror::Error;

/// Why a call on the deleted list did not do its work.
#[derive(Clone, Copy, Debug, PartialEq, Eq, Error)]
pub enum FreeFault {
    /// The file would become longer than row pointers reach. Nothing was changed.
    #[error("the table is full")]
    Full,
    /// The block at this place is not what the list or the chain needs there. Nothing was changed.
    #[error("the data file is damaged at {at}")]
    Damaged { at: u64 },
    /// A file call failed. The files' count of faults rose.
    #[error("the data file cannot be read or written")]
    File,
    #[error("out of memory")]
    Memory,
}

impl From<FileErr> for FreeFault {
    ghost use Rattle.myi_base.specs.HandsOn.{HandsOn};
    ghost use Rattle.myi_io.specs.declared.files.FileErr.TheVariants as file;
    ghost use Rattle.myi_dellist.specs.declared.fault.FreeFault.TheVariants.{File, Memory};

    ghost from_gives = { HandsOn (file.Failed, File) (file.Memory, Memory) };

    fn from(error: FileErr) -> Self {
        match error {
            FileErr::Failed => FreeFault::File,
            FileErr::Memory => FreeFault::Memory,
        }
    }
}

impl<T: Drop> From<AllocFailed<T>> for FreeFault {
    ghost use Rattle.std.specs.Prelude.{◌≡◌};
    ghost use Rattle.myi_dellist.specs.declared.fault.FreeFault.TheVariants.{Memory};

    ghost from_gives = { λ _ e. e ≡ Memory };

    fn from(_: AllocFailed<T>) -> Self {
        FreeFault::Memory
    }
}
