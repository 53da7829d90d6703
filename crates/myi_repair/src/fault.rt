//! Why a table is not repaired.
ghost use Rattle.std.specs.Prelude.{◌≡◌};
ghost use Rattle.myi_repair.specs.declared.fault.RepairFault.TheVariants.{Memory};

use myi_chain::ScanFault;
use myi_defs::DefFault;
use myi_io::FileErr;
use myi_opening::{TableFault, TableFile};
use std::alloc::{AllocError, AllocFailed};
use thiserror::Error;

/// Why a table is not repaired. `Absent`, `Def` and `TooLong` are said in this order, before anything is
/// changed.
#[derive(Clone, Copy, Debug, PartialEq, Eq, Error)]
pub enum RepairFault {
    /// This file is not there; the index file is looked for first.
    #[error("a file of the table is not there")]
    Absent(TableFile),
    /// The definitions are refused, not for want of memory.
    #[error("the definitions are refused")]
    Def(DefFault),
    /// The data file has rows that no row pointer of the table reaches.
    #[error("the data file is too long for the table's row pointers")]
    TooLong,
    /// A file call failed. The files' count of faults rose.
    #[error("a file cannot be read or written")]
    File,
    #[error("out of memory")]
    Memory,
}

impl From<AllocError> for RepairFault {
    ghost from_gives = { λ _ f. f ≡ Memory };

    fn from(_: AllocError) -> Self {
        RepairFault::Memory
    }
}

impl<T: Drop> From<AllocFailed<T>> for RepairFault {
    ghost from_gives = { λ _ f. f ≡ Memory };

    fn from(_: AllocFailed<T>) -> Self {
        RepairFault::Memory
    }
}

impl From<TableFault> for RepairFault {
    ghost use Rattle.std.specs.Prelude.{◌≡◌};
    ghost use Rattle.myi_repair.specs.Faults.{repair_fault};

    ghost from_gives = { λ e f. f ≡ repair_fault e };

    fn from(fault: TableFault) -> Self {
        match fault {
            TableFault::Absent(file) => RepairFault::Absent(file),
            TableFault::Def(fault) => RepairFault::Def(fault),
            TableFault::File => RepairFault::File,
            TableFault::Memory => RepairFault::Memory,
        }
    }
}

impl From<FileErr> for RepairFault {
    ghost use Rattle.myi_base.specs.HandsOn.{HandsOn};
    ghost use Rattle.myi_io.specs.declared.files.FileErr.TheVariants as file;
    ghost use Rattle.myi_repair.specs.declared.fault.RepairFault.TheVariants.{File, Memory};

    ghost from_gives = { HandsOn (file.Failed, File) (file.Memory, Memory) };

    fn from(error: FileErr) -> Self {
        match error {
            FileErr::Failed => RepairFault::File,
            FileErr::Memory => RepairFault::Memory,
        }
    }
}

impl From<ScanFault> for RepairFault {
    ghost use Rattle.myi_base.specs.HandsOn.{HandsOn};
    ghost use Rattle.myi_chain.specs.declared.piece.ScanFault.TheVariants as scan;
    ghost use Rattle.myi_repair.specs.declared.fault.RepairFault.TheVariants.{File, Memory};

    ghost from_gives = { HandsOn (scan.File, File) (scan.Memory, Memory) };

    fn from(fault: ScanFault) -> Self {
        match fault {
            ScanFault::File => RepairFault::File,
            ScanFault::Memory => RepairFault::Memory,
        }
    }
}
