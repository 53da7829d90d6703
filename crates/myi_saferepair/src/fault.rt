//! Why the new files of a table are not made row by row.
ghost use Rattle.std.specs.Prelude.{◌≡◌};
ghost use Rattle.myi_repair.specs.declared.fault.RepairFault.TheVariants as repair;
ghost use Rattle.myi_saferepair.specs.declared.fault.Stop.TheVariants.{Cut};

use myi_btree::TreeFault;
use myi_io::FileErr;
use myi_repair::RepairFault;
use std::alloc::{AllocError, AllocFailed};

/// Why the new files are not made.
#[derive(Clone, Copy, Debug, PartialEq, Eq)]
pub(crate) enum Stop {
    /// A page that was put is none, or one was left free.
    Damaged,
    /// A file call failed, or memory was wanting.
    Cut(RepairFault),
}

impl From<AllocError> for Stop {
    ghost from_gives = { λ _ f. f ≡ Cut repair.Memory };

    fn from(_: AllocError) -> Self {
        Stop::Cut(RepairFault::Memory)
    }
}

impl<T: Drop> From<AllocFailed<T>> for Stop {
    ghost from_gives = { λ _ f. f ≡ Cut repair.Memory };

    fn from(_: AllocFailed<T>) -> Self {
        Stop::Cut(RepairFault::Memory)
    }
}

impl From<FileErr> for Stop {
    ghost use Rattle.myi_base.specs.HandsOn.{HandsOn};
    ghost use Rattle.myi_io.specs.declared.files.FileErr.TheVariants as file;
    ghost use Rattle.myi_repair.specs.declared.fault.RepairFault.TheVariants as repair;
    ghost use Rattle.myi_saferepair.specs.declared.fault.Stop.TheVariants.{Cut};

    ghost from_gives = { HandsOn (file.Failed, Cut repair.File) (file.Memory, Cut repair.Memory) };

    fn from(error: FileErr) -> Self {
        match error {
            FileErr::Failed => Stop::Cut(RepairFault::File),
            FileErr::Memory => Stop::Cut(RepairFault::Memory),
        }
    }
}

impl From<TreeFault> for Stop {
    ghost use Rattle.std.specs.Prelude.{◌≡◌};
    ghost use Rattle.myi_saferepair.specs.Stops.{stop_of};

    ghost from_gives = { λ e f. f ≡ stop_of e };

    fn from(fault: TreeFault) -> Self {
        match fault {
            TreeFault::Damaged { .. } => Stop::Damaged,
            TreeFault::File => Stop::Cut(RepairFault::File),
            TreeFault::Memory => Stop::Cut(RepairFault::Memory),
        }
    }
}

impl From<RepairFault> for Stop {
    ghost use Rattle.std.specs.Prelude.{◌≡◌};
    ghost use Rattle.myi_saferepair.specs.declared.fault.Stop.TheVariants.{Cut};

    ghost from_gives = { λ e f. f ≡ Cut e };

    fn from(fault: RepairFault) -> Self {
        Stop::Cut(fault)
    }
}
