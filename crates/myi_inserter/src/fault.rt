//! Why an inserter did not put a row.
use myi_btree::TreeFault;
use myi_tail::NoRoom;
use std::alloc::{AllocError, AllocFailed};
use thiserror::Error;

/// Why a row was not put behind the end of a shared table. Nothing is appended, and the next call answers as if this one had
/// not been made.
#[derive(Clone, Copy, Debug, PartialEq, Eq, Error)]
pub enum InsertFault {
    /// In the unique key of that number, counted from 1, the row at this position has the complete key of the row.
    #[error("the row at {at} has the same key {key}")]
    Duplicate { key: u64, at: u64 },
    /// The data file would become longer than row pointers reach.
    #[error("the table is full")]
    Full,
    /// The row needs more words than are free.
    #[error("{need} words are needed, and {free} are free")]
    NoRoom { need: usize, free: usize },
    /// What stands at this place of the index file is no page. Where the files stand for a table none is found so.
    #[error("damaged at {at}")]
    Damaged { at: u64 },
    /// A file call failed.
    #[error("a file call failed")]
    File,
    #[error("out of memory")]
    Memory,
}

impl From<AllocError> for InsertFault {
    ghost use Rattle.std.specs.Prelude.{◌≡◌};
    ghost use Rattle.myi_inserter.specs.declared.fault.InsertFault.TheVariants.{Memory};

    ghost from_gives = { λ _ f. f ≡ Memory };

    fn from(_: AllocError) -> Self {
        InsertFault::Memory
    }
}

impl<T: Drop> From<AllocFailed<T>> for InsertFault {
    ghost use Rattle.std.specs.Prelude.{◌≡◌};
    ghost use Rattle.myi_inserter.specs.declared.fault.InsertFault.TheVariants.{Memory};

    ghost from_gives = { λ _ f. f ≡ Memory };

    fn from(_: AllocFailed<T>) -> Self {
        InsertFault::Memory
    }
}

impl From<TreeFault> for InsertFault {
    ghost use Rattle.std.specs.Prelude.{◌≡◌};
    ghost use Rattle.myi_inserter.specs.Faults.{of_tree};

    ghost from_gives = { λ e f. f ≡ of_tree e };

    fn from(fault: TreeFault) -> Self {
        match fault {
            TreeFault::Damaged { at } => InsertFault::Damaged { at },
            TreeFault::File => InsertFault::File,
            TreeFault::Memory => InsertFault::Memory,
        }
    }
}

impl From<NoRoom> for InsertFault {
    ghost use Rattle.std.specs.Prelude.{◌≡◌};
    ghost use Rattle.myi_inserter.specs.declared.fault.InsertFault.TheVariants as fault;

    ghost from_gives = { λ e f. f ≡ fault.NoRoom e.need e.free };

    fn from(refused: NoRoom) -> Self {
        InsertFault::NoRoom {
            need: refused.need,
            free: refused.free,
        }
    }
}
