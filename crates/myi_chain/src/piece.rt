//! What a scan is given and what it answers.
//!
//! `Accepts` is the test of what packs a row, and `ScanSetup` says how far and how a file is scanned.
//! A `Piece` is the bytes of one row, and an `Item` a row or a deleted block; `Wanted` says which of them a
//! call is to answer. A `ScanFault` says why a scan did not go on.
ghost use Rattle.std.specs.Prelude.{◌≡◌, ℕ, Bool, List};
ghost use Rattle.myi_chain.specs.declared.piece.ScanFault.TheVariants.{Memory};

use myi_io::FileErr;
use std::alloc::AllocError;
use thiserror::Error;

/// The test of what packs a row.
pub trait Accepts {
    ghost accepts_gives: { Self → List ℕ → Bool };

    /// Whether these bytes pack a row.
    fn accepts(&self, packed: &[u8]) -> bool
        ensures { result ≡ accepts_gives self.now packed.now };
}

/// How a data file is scanned.
#[derive(Clone, Copy, Debug, PartialEq, Eq)]
pub struct ScanSetup {
    /// Whether every place is tried, also those in blocks in which no row starts.
    pub extend: bool,
    /// The length of the file in bytes. What stands behind it is not read. A file that turns out to be
    /// shorter where the scan stands ends for it where its bytes end.
    pub file_len: u64,
}

/// The bytes of a row: a slice of what was read, or bytes that the scan keeps.
#[derive(Clone, Copy, Debug)]
pub enum Piece<'w> {
    /// A row of one block of at most 131,072 bytes.
    Lent(&'w [u8]),
    /// A row of several blocks, or of a longer one.
    Joined(&'w [u8]),
}

impl<'w> Piece<'w> {
    ghost use Rattle.std.specs.Prelude.{◌≡◌};
    ghost use Rattle.myi_chain.specs.Pieces.{piece_bytes};

    /// The bytes of the row.
    pub fn bytes(&self) -> &'w [u8]
        ensures { result.now ≡ piece_bytes self.now }
    {
        match self {
            Piece::Lent(bytes) | Piece::Joined(bytes) => bytes,
        }
    }
}

/// What a scan meets.
#[derive(Clone, Copy, Debug)]
pub enum Item<'w> {
    /// A row, by its position and its packed bytes.
    Row(u64, Piece<'w>),
    /// A deleted block, by its place and its size in bytes.
    Free { at: u64, size: u32 },
}

/// What a call on a scan is to answer.
#[derive(Clone, Copy, Debug, PartialEq, Eq)]
pub enum Wanted {
    /// The next row or deleted block.
    Items,
    /// The next row. Deleted blocks before it are passed.
    Rows,
}

/// Why a scan did not go on. The next call tries the same place again.
#[derive(Clone, Copy, Debug, PartialEq, Eq, Error)]
pub enum ScanFault {
    /// A file call failed. The files' count of faults rose.
    #[error("the data file cannot be read")]
    File,
    #[error("out of memory")]
    Memory,
}

impl From<FileErr> for ScanFault {
    ghost use Rattle.myi_base.specs.HandsOn.{HandsOn};
    ghost use Rattle.myi_io.specs.declared.files.FileErr.TheVariants as file;
    ghost use Rattle.myi_chain.specs.declared.piece.ScanFault.TheVariants.{File, Memory};

    ghost from_gives = { HandsOn (file.Failed, File) (file.Memory, Memory) };

    fn from(error: FileErr) -> Self {
        match error {
            FileErr::Failed => ScanFault::File,
            FileErr::Memory => ScanFault::Memory,
        }
    }
}

impl From<AllocError> for ScanFault {
    ghost use Rattle.std.specs.Prelude.{◌≡◌};
    ghost use Rattle.myi_chain.specs.declared.piece.ScanFault.TheVariants.{Memory};

    ghost from_gives = { λ _ f. f ≡ Memory };

    fn from(_: AllocError) -> Self {
        ScanFault::Memory
    }
}
