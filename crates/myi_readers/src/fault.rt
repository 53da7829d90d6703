//! Why a reader could not read.
use myi_btree::TreeFault;
use myi_chain::ScanFault;
use myi_ranges::RangeFault;
use myi_slots::DataFault;
use std::alloc::{AllocError, AllocFailed};
use thiserror::Error;

/// Why the rows of a shared table could not be read. A later call may be made.
#[derive(Clone, Copy, Debug, PartialEq, Eq, Error)]
pub enum SeenFault {
    /// What stands at this place of a file is no page or no row. Files that tell what they hold are never found so.
    #[error("damaged at {at}")]
    Damaged { at: u64 },
    /// A file call failed.
    #[error("a file call failed")]
    File,
    #[error("out of memory")]
    Memory,
}

impl From<AllocError> for SeenFault {
    ghost use Rattle.std.specs.Prelude.{◌≡◌};
    ghost use Rattle.myi_readers.specs.declared.fault.SeenFault.TheVariants.{Memory};

    ghost from_gives = { λ _ f. f ≡ Memory };

    fn from(_: AllocError) -> Self {
        SeenFault::Memory
    }
}

impl<T: Drop> From<AllocFailed<T>> for SeenFault {
    ghost use Rattle.std.specs.Prelude.{◌≡◌};
    ghost use Rattle.myi_readers.specs.declared.fault.SeenFault.TheVariants.{Memory};

    ghost from_gives = { λ _ f. f ≡ Memory };

    fn from(_: AllocFailed<T>) -> Self {
        SeenFault::Memory
    }
}

impl From<ScanFault> for SeenFault {
    ghost use Rattle.std.specs.Prelude.{◌≡◌};
    ghost use Rattle.myi_readers.specs.Faults.{of_scan};

    ghost from_gives = { λ e f. f ≡ of_scan e };

    fn from(fault: ScanFault) -> Self {
        match fault {
            ScanFault::File => SeenFault::File,
            ScanFault::Memory => SeenFault::Memory,
        }
    }
}

impl From<RangeFault> for SeenFault {
    ghost use Rattle.std.specs.Prelude.{◌≡◌};
    ghost use Rattle.myi_readers.specs.Faults.{of_range};

    ghost from_gives = { λ e f. f ≡ of_range e };

    fn from(fault: RangeFault) -> Self {
        match fault {
            RangeFault::Index(TreeFault::Damaged { at }) => SeenFault::Damaged { at },
            RangeFault::Index(TreeFault::File) => SeenFault::File,
            RangeFault::Index(TreeFault::Memory) => SeenFault::Memory,
            RangeFault::Data(DataFault::Damaged { at }) => SeenFault::Damaged { at },
            RangeFault::Data(DataFault::File) => SeenFault::File,
            RangeFault::Data(DataFault::Memory) => SeenFault::Memory,
            // A reading is refused neither for want of a row nor of room.
            RangeFault::Data(DataFault::NoRow { at }) => SeenFault::Damaged { at },
            RangeFault::Data(DataFault::Full) => SeenFault::Memory,
        }
    }
}
