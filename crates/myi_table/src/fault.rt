//! Why a table is not loaded, why it is not changed, closed or read, and why it takes no more changes.
use myi_btree::TreeFault;
use myi_chain::ScanFault;
use myi_defs::DefFault;
use myi_header::StateFault;
use myi_io::FileErr;
use myi_keyedrows::KeyedFault;
use myi_opening::{TableFault, TableFile};
use myi_ranges::RangeFault;
use myi_slots::DataFault;
use std::alloc::{AllocError, AllocFailed};
use thiserror::Error;

/// Why a table is not loaded. Nothing is changed.
#[derive(Clone, Copy, Debug, PartialEq, Eq, Error)]
pub enum LoadFault {
    /// This file is not there; the index file is looked for first.
    #[error("a file of the table is not there")]
    Absent(TableFile),
    /// The definitions are refused, not for want of memory.
    #[error("the definitions are refused")]
    Def(DefFault),
    /// The index file has not the mark.
    #[error("the index file is foreign")]
    Foreign,
    /// A file call failed. The files' count of faults rose.
    #[error("a file cannot be read")]
    File,
    /// Out of memory; also where the index file leaves no room for a page below 2^64.
    #[error("out of memory")]
    Memory,
}

/// What cut a change off, so that the table is broken.
#[derive(Clone, Copy, Debug, PartialEq, Eq)]
pub enum Cause {
    /// A file call failed, and the files' count of faults was then this.
    File(u64),
    Memory,
}

/// Why a table was not changed or closed.
#[derive(Clone, Copy, Debug, PartialEq, Eq, Error)]
pub enum ChangeFault {
    /// A change was cut off before, for this cause. Nothing is changed.
    #[error("the table is broken")]
    Broken(Cause),
    /// No row stands at this position. The table is as before.
    #[error("no row stands at {at}")]
    NoRow { at: u64 },
    /// In the unique key of that number, counted from 1, the row at this position has the complete key of the
    /// row. The table is as before.
    #[error("the row at {at} has the same key {key}")]
    Duplicate { key: u64, at: u64 },
    /// The data file would become longer than row pointers reach. The table is as before.
    #[error("the table is full")]
    Full,
    /// What stands at this place of a file is not what the table needs there. What the files hold then is free.
    #[error("the table is damaged at {at}")]
    Damaged { at: u64 },
    /// A file call failed. The files' count of faults rose.
    #[error("a file of the table cannot be read or written")]
    File,
    /// Out of memory; also where files that tell nothing have a page or a deleted block at 2^64 - 1, which no header can say.
    #[error("out of memory")]
    Memory,
}

/// Why a row of a table was not read. The table is as before, and is not broken by it.
#[derive(Clone, Copy, Debug, PartialEq, Eq, Error)]
pub enum ReadFault {
    /// A change was cut off before, for this cause. Nothing is changed.
    #[error("the table is broken")]
    Broken(Cause),
    /// What stands at this place of a file is not what the table needs there.
    #[error("the table is damaged at {at}")]
    Damaged { at: u64 },
    /// A file call failed. The files' count of faults rose.
    #[error("a file of the table cannot be read")]
    File,
    #[error("out of memory")]
    Memory,
}

impl From<AllocError> for LoadFault {
    ghost use Rattle.std.specs.Prelude.{◌≡◌};
    ghost use Rattle.myi_table.specs.declared.fault.LoadFault.TheVariants.{Memory};

    ghost from_gives = { λ _ f. f ≡ Memory };

    fn from(_: AllocError) -> Self {
        LoadFault::Memory
    }
}

impl From<TableFault> for LoadFault {
    ghost use Rattle.std.specs.Prelude.{◌≡◌};
    ghost use Rattle.myi_table.specs.Faults.{of_opening};

    ghost from_gives = { λ e f. f ≡ of_opening e };

    fn from(fault: TableFault) -> Self {
        match fault {
            TableFault::Absent(file) => LoadFault::Absent(file),
            TableFault::Def(fault) => LoadFault::Def(fault),
            TableFault::File => LoadFault::File,
            TableFault::Memory => LoadFault::Memory,
        }
    }
}

impl From<AllocError> for ChangeFault {
    ghost use Rattle.std.specs.Prelude.{◌≡◌};
    ghost use Rattle.myi_table.specs.declared.fault.ChangeFault.TheVariants.{Memory};

    ghost from_gives = { λ _ f. f ≡ Memory };

    fn from(_: AllocError) -> Self {
        ChangeFault::Memory
    }
}

impl<T: Drop> From<AllocFailed<T>> for ChangeFault {
    ghost use Rattle.std.specs.Prelude.{◌≡◌};
    ghost use Rattle.myi_table.specs.declared.fault.ChangeFault.TheVariants.{Memory};

    ghost from_gives = { λ _ f. f ≡ Memory };

    fn from(_: AllocFailed<T>) -> Self {
        ChangeFault::Memory
    }
}

impl From<KeyedFault> for ChangeFault {
    ghost use Rattle.std.specs.Prelude.{◌≡◌};
    ghost use Rattle.myi_table.specs.Faults.{of_rows};

    ghost from_gives = { λ e f. f ≡ of_rows e };

    fn from(fault: KeyedFault) -> Self {
        match fault {
            KeyedFault::Duplicate { key, at } => ChangeFault::Duplicate { key, at },
            KeyedFault::NoRow { at } => ChangeFault::NoRow { at },
            KeyedFault::Full => ChangeFault::Full,
            KeyedFault::Damaged { at } => ChangeFault::Damaged { at },
            KeyedFault::File => ChangeFault::File,
            KeyedFault::Memory => ChangeFault::Memory,
        }
    }
}

impl From<TreeFault> for ChangeFault {
    ghost use Rattle.std.specs.Prelude.{◌≡◌};
    ghost use Rattle.myi_table.specs.Faults.{of_trees};

    ghost from_gives = { λ e f. f ≡ of_trees e };

    fn from(fault: TreeFault) -> Self {
        match fault {
            TreeFault::Damaged { at } => ChangeFault::Damaged { at },
            TreeFault::File => ChangeFault::File,
            TreeFault::Memory => ChangeFault::Memory,
        }
    }
}

impl From<FileErr> for ChangeFault {
    ghost use Rattle.myi_base.specs.HandsOn.{HandsOn};
    ghost use Rattle.myi_io.specs.declared.files.FileErr.TheVariants as file;
    ghost use Rattle.myi_table.specs.declared.fault.ChangeFault.TheVariants.{File, Memory};

    ghost from_gives = { HandsOn (file.Failed, File) (file.Memory, Memory) };

    fn from(error: FileErr) -> Self {
        match error {
            FileErr::Failed => ChangeFault::File,
            FileErr::Memory => ChangeFault::Memory,
        }
    }
}

/// Why the header that was read gives no state.
impl From<StateFault> for LoadFault {
    ghost use Rattle.std.specs.Prelude.{◌≡◌};
    ghost use Rattle.myi_table.specs.Faults.{of_state};

    ghost from_gives = { λ e f. f ≡ of_state e };

    fn from(fault: StateFault) -> Self {
        match fault {
            StateFault::Short => LoadFault::Def(DefFault::Short),
            StateFault::Foreign => LoadFault::Foreign,
            StateFault::Memory => LoadFault::Memory,
        }
    }
}

impl From<AllocError> for ReadFault {
    ghost use Rattle.std.specs.Prelude.{◌≡◌};
    ghost use Rattle.myi_table.specs.declared.fault.ReadFault.TheVariants.{Memory};

    ghost from_gives = { λ _ f. f ≡ Memory };

    fn from(_: AllocError) -> Self {
        ReadFault::Memory
    }
}

impl<T: Drop> From<AllocFailed<T>> for ReadFault {
    ghost use Rattle.std.specs.Prelude.{◌≡◌};
    ghost use Rattle.myi_table.specs.declared.fault.ReadFault.TheVariants.{Memory};

    ghost from_gives = { λ _ f. f ≡ Memory };

    fn from(_: AllocFailed<T>) -> Self {
        ReadFault::Memory
    }
}

impl From<RangeFault> for ReadFault {
    ghost use Rattle.std.specs.Prelude.{◌≡◌};
    ghost use Rattle.myi_table.specs.Faults.{of_range};

    ghost from_gives = { λ e f. f ≡ of_range e };

    fn from(fault: RangeFault) -> Self {
        match fault {
            RangeFault::Index(TreeFault::Damaged { at }) => ReadFault::Damaged { at },
            RangeFault::Index(TreeFault::File) => ReadFault::File,
            RangeFault::Index(TreeFault::Memory) => ReadFault::Memory,
            RangeFault::Data(DataFault::Damaged { at }) => ReadFault::Damaged { at },
            RangeFault::Data(DataFault::File) => ReadFault::File,
            RangeFault::Data(DataFault::Memory) => ReadFault::Memory,
            // A reading is refused neither for want of a row nor of room.
            RangeFault::Data(DataFault::NoRow { at }) => ReadFault::Damaged { at },
            RangeFault::Data(DataFault::Full) => ReadFault::Memory,
        }
    }
}

impl From<ScanFault> for ReadFault {
    ghost use Rattle.std.specs.Prelude.{◌≡◌};
    ghost use Rattle.myi_table.specs.Faults.{of_scan};

    ghost from_gives = { λ e f. f ≡ of_scan e };

    fn from(fault: ScanFault) -> Self {
        match fault {
            ScanFault::File => ReadFault::File,
            ScanFault::Memory => ReadFault::Memory,
        }
    }
}
