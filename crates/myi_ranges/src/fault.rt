//! Why a row of a range could not be read.
use myi_btree::TreeFault;
use myi_slots::DataFault;
use thiserror::Error;

/// Why a row of a range could not be read.
#[derive(Clone, Copy, Debug, PartialEq, Eq, Error)]
pub enum RangeFault {
    /// The tree of the key could not be searched.
    #[error("{0}")]
    Index(TreeFault),
    /// The row of a pair could not be read.
    #[error("{0}")]
    Data(DataFault),
}

impl From<TreeFault> for RangeFault {
    ghost use Rattle.std.specs.Prelude.{◌≡◌};
    ghost use Rattle.myi_ranges.specs.declared.fault.RangeFault.TheVariants.{Index};

    ghost from_gives = { λ e f. f ≡ Index e };

    fn from(fault: TreeFault) -> Self {
        RangeFault::Index(fault)
    }
}

impl From<DataFault> for RangeFault {
    ghost use Rattle.std.specs.Prelude.{◌≡◌};
    ghost use Rattle.myi_ranges.specs.declared.fault.RangeFault.TheVariants.{Data};

    ghost from_gives = { λ e f. f ≡ Data e };

    fn from(fault: DataFault) -> Self {
        RangeFault::Data(fault)
    }
}
