//! Why a call on a data file did not do its work.

use myi_dellist::FreeFault;
use myi_io::FileErr;
use std::alloc::AllocError;
use thiserror::Error;

/// Why a call on a data file did not do its work.
#[derive(Clone, Copy, Debug, PartialEq, Eq, Error)]
pub enum DataFault {
    /// No row stands at this position. Nothing was changed.
    #[error("no row stands at {at}")]
    NoRow { at: u64 },
    /// The file would become longer than row pointers reach. Nothing was changed.
    #[error("the table is full")]
    Full,
    /// What stands at this place is not what the deleted list or a row needs there. Nothing was changed.
    #[error("the data file is damaged at {at}")]
    Damaged { at: u64 },
    /// A file call failed. The files' count of faults rose.
    #[error("the data file cannot be read or written")]
    File,
    #[error("out of memory")]
    Memory,
}

impl From<FileErr> for DataFault {
    ghost use Rattle.myi_base.specs.HandsOn.{HandsOn};
    ghost use Rattle.myi_io.specs.declared.files.FileErr.TheVariants as file;
    ghost use Rattle.myi_slots.specs.declared.fault.DataFault.TheVariants.{File, Memory};

    ghost from_gives = { HandsOn (file.Failed, File) (file.Memory, Memory) };

    fn from(error: FileErr) -> Self {
        match error {
            FileErr::Failed => DataFault::File,
            FileErr::Memory => DataFault::Memory,
        }
    }
}

impl From<AllocError> for DataFault {
    ghost use Rattle.std.specs.Prelude.{◌≡◌};
    ghost use Rattle.myi_slots.specs.declared.fault.DataFault.TheVariants.{Memory};

    ghost from_gives = { λ _ e. e ≡ Memory };

    fn from(_: AllocError) -> Self {
        DataFault::Memory
    }
}

impl From<FreeFault> for DataFault {
    ghost use Rattle.std.specs.Prelude.{◌≡◌};
    ghost use Rattle.myi_slots.specs.SlotFile.{data_fault};

    ghost from_gives = { λ e f. f ≡ data_fault e };

    fn from(fault: FreeFault) -> Self {
        match fault {
            FreeFault::Full => DataFault::Full,
            FreeFault::Damaged { at } => DataFault::Damaged { at },
            FreeFault::File => DataFault::File,
            FreeFault::Memory => DataFault::Memory,
        }
    }
}
