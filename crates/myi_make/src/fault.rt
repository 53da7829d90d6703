//! Why a table is not made.
ghost use Rattle.std.specs.Prelude.{◌≡◌};
ghost use Rattle.myi_make.specs.declared.fault.MakeFault.TheVariants.{Memory};

use myi_defs::DefFault;
use myi_io::FileErr;
use myi_opening::{TableFault, TableFile};
use myi_repair::RepairFault;
use myi_table::{ChangeFault, LoadFault};
use std::alloc::{AllocError, AllocFailed};
use thiserror::Error;

/// Why a table is not made. Files that tell what they hold give cause for `File` and `Memory` alone.
#[derive(Clone, Copy, Debug, PartialEq, Eq, Error)]
pub enum MakeFault {
    /// This file, which was made, is not there any longer.
    #[error("a file of the table is not there")]
    Absent(TableFile),
    /// The definitions that stand in the index file are refused, not for want of memory.
    #[error("the definitions are refused")]
    Def(DefFault),
    /// The data file is longer than row pointers reach, or would become so.
    #[error("the data file is too long for the table's row pointers")]
    TooLong,
    /// What stands at this place of a file is not what was put there.
    #[error("the table is damaged at {at}")]
    Damaged { at: u64 },
    /// A file call failed. The files' count of faults rose.
    #[error("a file cannot be read or written")]
    File,
    #[error("out of memory")]
    Memory,
}

impl From<AllocError> for MakeFault {
    ghost from_gives = { λ _ f. f ≡ Memory };

    fn from(_: AllocError) -> Self {
        MakeFault::Memory
    }
}

impl<T: Drop> From<AllocFailed<T>> for MakeFault {
    ghost from_gives = { λ _ f. f ≡ Memory };

    fn from(_: AllocFailed<T>) -> Self {
        MakeFault::Memory
    }
}

impl From<FileErr> for MakeFault {
    ghost use Rattle.myi_base.specs.HandsOn.{HandsOn};
    ghost use Rattle.myi_io.specs.declared.files.FileErr.TheVariants as file;
    ghost use Rattle.myi_make.specs.declared.fault.MakeFault.TheVariants.{File, Memory};

    ghost from_gives = { HandsOn (file.Failed, File) (file.Memory, Memory) };

    fn from(error: FileErr) -> Self {
        match error {
            FileErr::Failed => MakeFault::File,
            FileErr::Memory => MakeFault::Memory,
        }
    }
}

/// Why the table is not loaded.
impl From<LoadFault> for MakeFault {
    ghost use Rattle.std.specs.Prelude.{◌≡◌};
    ghost use Rattle.myi_make.specs.Faults.{of_load};

    ghost from_gives = { λ e f. f ≡ of_load e };

    fn from(fault: LoadFault) -> Self {
        match fault {
            LoadFault::Absent(file) => MakeFault::Absent(file),
            LoadFault::Def(fault) => MakeFault::Def(fault),
            LoadFault::Foreign => MakeFault::Damaged { at: 0 },
            LoadFault::File => MakeFault::File,
            LoadFault::Memory => MakeFault::Memory,
        }
    }
}

/// Why a row is not put, or the table not closed.
impl From<ChangeFault> for MakeFault {
    ghost use Rattle.std.specs.Prelude.{◌≡◌};
    ghost use Rattle.myi_make.specs.Faults.{of_change};

    ghost from_gives = { λ e f. f ≡ of_change e };

    fn from(fault: ChangeFault) -> Self {
        match fault {
            ChangeFault::NoRow { at }
            | ChangeFault::Duplicate { key: _, at }
            | ChangeFault::Damaged { at } => MakeFault::Damaged { at },
            ChangeFault::Full => MakeFault::TooLong,
            ChangeFault::File => MakeFault::File,
            // A table that is not broken is not refused so.
            ChangeFault::Memory | ChangeFault::Broken(_) => MakeFault::Memory,
        }
    }
}

/// Why the table is not recovered.
impl From<RepairFault> for MakeFault {
    ghost use Rattle.std.specs.Prelude.{◌≡◌};
    ghost use Rattle.myi_make.specs.Faults.{of_repair};

    ghost from_gives = { λ e f. f ≡ of_repair e };

    fn from(fault: RepairFault) -> Self {
        match fault {
            RepairFault::Absent(file) => MakeFault::Absent(file),
            RepairFault::Def(fault) => MakeFault::Def(fault),
            RepairFault::TooLong => MakeFault::TooLong,
            RepairFault::File => MakeFault::File,
            RepairFault::Memory => MakeFault::Memory,
        }
    }
}

/// Why the table is not checked.
impl From<TableFault> for MakeFault {
    ghost use Rattle.std.specs.Prelude.{◌≡◌};
    ghost use Rattle.myi_make.specs.Faults.{of_check};

    ghost from_gives = { λ e f. f ≡ of_check e };

    fn from(fault: TableFault) -> Self {
        match fault {
            TableFault::Absent(file) => MakeFault::Absent(file),
            TableFault::Def(fault) => MakeFault::Def(fault),
            TableFault::File => MakeFault::File,
            TableFault::Memory => MakeFault::Memory,
        }
    }
}
