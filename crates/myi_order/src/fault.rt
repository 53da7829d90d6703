//! Why a table is not analyzed or sorted.
ghost use Rattle.std.specs.Prelude.{◌≡◌};
ghost use Rattle.myi_order.specs.declared.fault.OrderFault.TheVariants.{Memory};

use myi_chain::ScanFault;
use myi_defs::DefFault;
use myi_io::FileErr;
use myi_opening::{TableFault, TableFile};
use myi_pair::Finding;
use std::alloc::{AllocError, AllocFailed};
use thiserror::Error;

/// Why a table is not analyzed or sorted. `Absent`, `Def`, `NoKey` and `Damaged` are said in this order, before
/// anything is changed.
#[derive(Clone, Copy, Debug, PartialEq, Eq, Error)]
pub enum OrderFault {
    /// This file is not there; the index file is looked for first.
    #[error("a file of the table is not there")]
    Absent(TableFile),
    /// The definitions are refused, not for want of memory.
    #[error("the definitions are refused")]
    Def(DefFault),
    /// The table has no key of that number; so many it has. Never of an analysis.
    #[error("the table has no such key")]
    NoKey { keys: u8 },
    /// The first thing that a check finds wrong with the table.
    #[error("the table is damaged")]
    Damaged(Finding),
    /// A file call failed. The files' count of faults rose.
    #[error("a file cannot be read or written")]
    File,
    #[error("out of memory")]
    Memory,
}

impl From<AllocError> for OrderFault {
    ghost from_gives = { λ _ f. f ≡ Memory };

    fn from(_: AllocError) -> Self {
        OrderFault::Memory
    }
}

impl<T: Drop> From<AllocFailed<T>> for OrderFault {
    ghost from_gives = { λ _ f. f ≡ Memory };

    fn from(_: AllocFailed<T>) -> Self {
        OrderFault::Memory
    }
}

impl From<TableFault> for OrderFault {
    ghost use Rattle.std.specs.Prelude.{◌≡◌};
    ghost use Rattle.myi_order.specs.Faults.{order_fault};

    ghost from_gives = { λ e f. f ≡ order_fault e };

    fn from(fault: TableFault) -> Self {
        match fault {
            TableFault::Absent(file) => OrderFault::Absent(file),
            TableFault::Def(fault) => OrderFault::Def(fault),
            TableFault::File => OrderFault::File,
            TableFault::Memory => OrderFault::Memory,
        }
    }
}

impl From<FileErr> for OrderFault {
    ghost use Rattle.myi_base.specs.HandsOn.{HandsOn};
    ghost use Rattle.myi_io.specs.declared.files.FileErr.TheVariants as file;
    ghost use Rattle.myi_order.specs.declared.fault.OrderFault.TheVariants.{File, Memory};

    ghost from_gives = { HandsOn (file.Failed, File) (file.Memory, Memory) };

    fn from(error: FileErr) -> Self {
        match error {
            FileErr::Failed => OrderFault::File,
            FileErr::Memory => OrderFault::Memory,
        }
    }
}

impl From<ScanFault> for OrderFault {
    ghost use Rattle.myi_base.specs.HandsOn.{HandsOn};
    ghost use Rattle.myi_chain.specs.declared.piece.ScanFault.TheVariants as scan;
    ghost use Rattle.myi_order.specs.declared.fault.OrderFault.TheVariants.{File, Memory};

    ghost from_gives = { HandsOn (scan.File, File) (scan.Memory, Memory) };

    fn from(fault: ScanFault) -> Self {
        match fault {
            ScanFault::File => OrderFault::File,
            ScanFault::Memory => OrderFault::Memory,
        }
    }
}
