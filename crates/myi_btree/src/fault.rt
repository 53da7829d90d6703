//! Why a call on a tree did not do its work.
use myi_keycache::CacheFault;
use std::alloc::{AllocError, AllocFailed};
use thiserror::Error;

/// Why a call on a tree did not do its work.
#[derive(Clone, Copy, Debug, PartialEq, Eq, Error)]
pub enum TreeFault {
    /// What stands at this place is no page of the tree.
    #[error("no page of the tree stands at {at}")]
    Damaged { at: u64 },
    /// A file call failed. The files' count of faults rose.
    #[error("the index file cannot be read or written")]
    File,
    #[error("out of memory")]
    Memory,
}

impl From<CacheFault> for TreeFault {
    ghost use Rattle.myi_btree.specs.Faults.{IsToldAs};

    ghost from_gives = { IsToldAs };

    fn from(fault: CacheFault) -> Self {
        match fault {
            CacheFault::Short { at } => TreeFault::Damaged { at },
            CacheFault::File => TreeFault::File,
            CacheFault::Memory => TreeFault::Memory,
        }
    }
}

impl From<AllocError> for TreeFault {
    ghost use Rattle.std.specs.Prelude.{◌≡◌};
    ghost use Rattle.myi_btree.specs.declared.fault.TreeFault.TheVariants.{Memory};

    ghost from_gives = { λ _ f. f ≡ Memory };

    fn from(_: AllocError) -> Self {
        TreeFault::Memory
    }
}

impl<T: Drop> From<AllocFailed<T>> for TreeFault {
    ghost use Rattle.std.specs.Prelude.{◌≡◌};
    ghost use Rattle.myi_btree.specs.declared.fault.TreeFault.TheVariants.{Memory};

    ghost from_gives = { λ _ f. f ≡ Memory };

    fn from(_: AllocFailed<T>) -> Self {
        TreeFault::Memory
    }
}
