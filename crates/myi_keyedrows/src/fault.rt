//! Why a change of a table was refused or cut off.
use myi_btree::TreeFault;
use myi_slots::DataFault;
use std::alloc::AllocError;
use thiserror::Error;

/// Why a change of a table was refused or cut off.
#[derive(Clone, Copy, Debug, PartialEq, Eq, Error)]
pub enum KeyedFault {
    /// In the unique key of that number, counted from 1, the row at this position has the complete key of the
    /// row. The table is as before.
    #[error("the row at {at} has the same key {key}")]
    Duplicate { key: u64, at: u64 },
    /// No row stands at this position. The table is as before.
    #[error("no row stands at {at}")]
    NoRow { at: u64 },
    /// The data file would become longer than row pointers reach. The table is as before.
    #[error("the table is full")]
    Full,
    /// What stands at this place of the data file is not what the deleted list or a row needs there, or at this
    /// place of the index file no page of a tree; it does not say of which file. What the files hold then is free.
    #[error("the table is damaged at {at}")]
    Damaged { at: u64 },
    /// A file call failed. The files' count of faults rose. The row may be written and the trees changed in part.
    #[error("a file of the table cannot be read or written")]
    File,
    #[error("out of memory")]
    Memory,
}

impl From<AllocError> for KeyedFault {
    ghost use Rattle.std.specs.Prelude.{◌≡◌};
    ghost use Rattle.myi_keyedrows.specs.declared.fault.KeyedFault.TheVariants.{Memory};

    ghost from_gives = { λ _ e. e ≡ Memory };

    fn from(_: AllocError) -> Self {
        KeyedFault::Memory
    }
}

impl From<DataFault> for KeyedFault {
    ghost use Rattle.std.specs.Prelude.{◌≡◌};
    ghost use Rattle.myi_keyedrows.specs.Faults.{data_fault};

    ghost from_gives = { λ e f. f ≡ data_fault e };

    fn from(fault: DataFault) -> Self {
        match fault {
            DataFault::NoRow { at } => KeyedFault::NoRow { at },
            DataFault::Full => KeyedFault::Full,
            DataFault::Damaged { at } => KeyedFault::Damaged { at },
            DataFault::File => KeyedFault::File,
            DataFault::Memory => KeyedFault::Memory,
        }
    }
}

impl From<TreeFault> for KeyedFault {
    ghost use Rattle.std.specs.Prelude.{◌≡◌};
    ghost use Rattle.myi_keyedrows.specs.Faults.{tree_fault};

    ghost from_gives = { λ e f. f ≡ tree_fault e };

    fn from(fault: TreeFault) -> Self {
        match fault {
            TreeFault::Damaged { at } => KeyedFault::Damaged { at },
            TreeFault::File => KeyedFault::File,
            TreeFault::Memory => KeyedFault::Memory,
        }
    }
}
