//! What cuts a round off.
use myi_share::ShareFault;
use myi_table::ChangeFault;
use std::alloc::{AllocError, AllocFailed};
use thiserror::Error;

/// Why a round was cut off.
#[derive(Clone, Copy, Debug, PartialEq, Eq, Error)]
pub enum RoundFault {
    /// What stands at this place of a file is not what the table needs there. Files that tell what they hold give no cause for it.
    #[error("the table is damaged at {at}")]
    Damaged { at: u64 },
    /// A file call failed. The files' count of faults rose.
    #[error("a file call failed")]
    File,
    /// No memory is left, or more changes may be made than 64 bits count.
    #[error("out of memory")]
    Memory,
}

impl From<AllocError> for RoundFault {
    ghost use Rattle.std.specs.Prelude.{◌≡◌};
    ghost use Rattle.myi_rounds.specs.declared.fault.RoundFault.TheVariants.{Memory};

    ghost from_gives = { λ _ f. f ≡ Memory };

    fn from(_: AllocError) -> Self {
        RoundFault::Memory
    }
}

impl<T: Drop> From<AllocFailed<T>> for RoundFault {
    ghost use Rattle.std.specs.Prelude.{◌≡◌};
    ghost use Rattle.myi_rounds.specs.declared.fault.RoundFault.TheVariants.{Memory};

    ghost from_gives = { λ _ f. f ≡ Memory };

    fn from(_: AllocFailed<T>) -> Self {
        RoundFault::Memory
    }
}

impl From<ShareFault> for RoundFault {
    ghost use Rattle.std.specs.Prelude.{◌≡◌};
    ghost use Rattle.myi_rounds.specs.Faults.{of_share};

    ghost from_gives = { λ e f. f ≡ of_share e };

    fn from(fault: ShareFault) -> Self {
        match fault {
            ShareFault::File => RoundFault::File,
            ShareFault::Memory => RoundFault::Memory,
        }
    }
}

impl From<ChangeFault> for RoundFault {
    ghost use Rattle.std.specs.Prelude.{◌≡◌};
    ghost use Rattle.myi_rounds.specs.Faults.{of_change};

    ghost from_gives = { λ e f. f ≡ of_change e };

    fn from(fault: ChangeFault) -> Self {
        match fault {
            ChangeFault::Damaged { at } => RoundFault::Damaged { at },
            // A row was accepted, and is not when it is put: the files do not tell the same twice.
            ChangeFault::Duplicate { at, .. } | ChangeFault::NoRow { at } => RoundFault::Damaged {
                at,
            },
            ChangeFault::File => RoundFault::File,
            // A table that is not broken, and has room for the rows, is not refused so.
            ChangeFault::Memory | ChangeFault::Full | ChangeFault::Broken(_) => RoundFault::Memory,
        }
    }
}
