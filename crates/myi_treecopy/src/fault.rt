//! Why a tree is not laid anew.
ghost use Rattle.std.specs.Prelude.{◌≡◌};
ghost use Rattle.myi_treecopy.specs.declared.fault.CopyFault.TheVariants.{Memory};

use myi_io::FileErr;
use std::alloc::{AllocError, AllocFailed};
use thiserror::Error;

/// Why a tree is not laid anew. The old file is as before, and the new one may hold some of the pages, and of
/// the one whose write failed a first part.
#[derive(Clone, Copy, Debug, PartialEq, Eq, Error)]
pub enum CopyFault {
    /// What stands at this place of the old file is no page of the tree, has no room before the limit, or has
    /// children though it stands 64 levels below the root, for which there are no places.
    #[error("no page of the tree stands at {at}")]
    Damaged { at: u64 },
    /// A file call failed. The files' count of faults rose.
    #[error("an index file cannot be read or written")]
    File,
    #[error("out of memory")]
    Memory,
}

impl From<AllocError> for CopyFault {
    ghost from_gives = { λ _ f. f ≡ Memory };

    fn from(_: AllocError) -> Self {
        CopyFault::Memory
    }
}

impl<T: Drop> From<AllocFailed<T>> for CopyFault {
    ghost from_gives = { λ _ f. f ≡ Memory };

    fn from(_: AllocFailed<T>) -> Self {
        CopyFault::Memory
    }
}

impl From<FileErr> for CopyFault {
    ghost use Rattle.myi_base.specs.HandsOn.{HandsOn};
    ghost use Rattle.myi_io.specs.declared.files.FileErr.TheVariants as file;
    ghost use Rattle.myi_treecopy.specs.declared.fault.CopyFault.TheVariants.{File, Memory};

    ghost from_gives = { HandsOn (file.Failed, File) (file.Memory, Memory) };

    fn from(error: FileErr) -> Self {
        match error {
            FileErr::Failed => CopyFault::File,
            FileErr::Memory => CopyFault::Memory,
        }
    }
}
