//! `Files`: bytes under names, of which each call changes or tells exactly a range.
//!
//! A caller that knows what the files hold learns what they hold after each call, also after one that
//! failed. A caller that does not, as over real files, learns only that no call gave more bytes than
//! it was asked for, and why a call failed.
ghost use Rattle.std.specs.Prelude.{◌≡◌, ◌≤◌, ◌+◌, ◌-◌, ◌^◌};
ghost use Rattle.std.specs.Prelude.{ℕ, Bool, Option, None, length, min, OnOk, OnErr, IfOk, IfErr, IsTrue};
ghost use Rattle.myi_io.specs.declared.files.FileErr.TheVariants.{Failed, Memory};
ghost use Rattle.myi_base.specs.Holding.{Holding, HoldsBytes, IfTold, Told, Gives, Fills};
ghost use Rattle.myi_base.specs.Holding.{Shows, Writes, WritesPart, Cuts, CutsOrKeeps};
ghost use Rattle.myi_base.specs.Holding.{Keeps, Renames, Removes, Measures, blocks};
ghost use Rattle.myi_base.specs.Causes.{HasCause};

use crate::reader::FileReader;
use std::alloc::{AllocError, AllocFailed};
use thiserror::Error;

/// Why a call on files did not do its work.
#[derive(Clone, Copy, Debug, PartialEq, Eq, Error)]
pub enum FileErr {
    /// The file system failed. The count of faults rose.
    #[error("a file call failed")]
    Failed,
    #[error("out of memory")]
    Memory,
}

impl From<AllocError> for FileErr {
    ghost from_gives = { λ _ e. e ≡ Memory };

    fn from(_: AllocError) -> Self {
        FileErr::Memory
    }
}

impl<T: Drop> From<AllocFailed<T>> for FileErr {
    ghost from_gives = { λ _ e. e ≡ Memory };

    fn from(_: AllocFailed<T>) -> Self {
        FileErr::Memory
    }
}

/// Files by their names. Positions and lengths are in bytes, positions from 0. Names that a call does
/// not name keep what they hold.
pub trait Files {
    /// An object that reads one file, for another thread.
    type Reader: FileReader;

    /// What the files hold, where they tell it.
    ghost holds: { Self → Option Holding };

    /// How often a call has failed; it never falls.
    ghost faults: { Self → ℕ };

    /// How many reads were made; it never falls, and only `read_at` raises it.
    ghost reads: { Self → ℕ };

    /// Whether files of this type may be changed.
    ghost writable: { Bool };

    /// The length of a file, and None where no file has the name.
    fn length(&mut self, name: &str) -> Result<Option<u64>, FileErr>
        ensures told { IfOk result (λ size.
            IfTold (holds self.old) (λ m. Measures (m name.now) size)) }
        ensures holds { holds self.new ≡ holds self.old }
        ensures reads { reads self.new ≡ reads self.old }
        ensures cause { HasCause Failed (faults self.old) (faults self.new) result };

    /// Fills `into` with the bytes from a position on, until it is full or the file ends, and answers
    /// how many bytes it gave. What stood behind them in `into` stays; after a failure `into` may hold
    /// anything. A name that is not there gives no bytes. Want of memory counts as a failure here.
    fn read_at(&mut self, name: &str, at: u64, into: &mut [u8]) -> Result<usize, FileErr>
        ensures bound { IfOk result (λ count. count ≤ length into.new) }
        ensures told { IfOk result (λ count.
            IfTold (holds self.old) (Gives name.now at into.old count)) }
        ensures bytes { OnOk result
            (IfTold (holds self.old) (Fills name.now at into.old into.new)) }
        ensures failed { IfErr result (λ e. e ≡ Failed) }
        ensures holds { holds self.new ≡ holds self.old }
        ensures reads { reads self.old ≤ reads self.new }
        ensures few { reads self.new ≤ reads self.old + blocks (length into.old) }
        ensures cause { HasCause Failed (faults self.old) (faults self.new) result };

    /// Writes bytes from a position on, and makes the file where it is not there. A gap before the
    /// position holds zeros. After a failure a prefix of the range may be changed, and nothing else.
    fn write_at(&mut self, name: &str, at: u64, bytes: &[u8]) -> Result<(), FileErr>
        requires { IsTrue writable }
        ensures ok { OnOk result
            (Told (holds self.old) (holds self.new) (Writes name.now at bytes.now)) }
        ensures err { OnErr result
            (Told (holds self.old) (holds self.new) (WritesPart name.now at bytes.now)) }
        ensures reads { reads self.new ≡ reads self.old }
        ensures cause { HasCause Failed (faults self.old) (faults self.new) result };

    /// Makes the file exactly that long, with zeros added, and makes it where it is not there. After a
    /// failure the file is as before or as it should be.
    fn cut(&mut self, name: &str, length: u64) -> Result<(), FileErr>
        requires { IsTrue writable }
        ensures ok { OnOk result (Told (holds self.old) (holds self.new) (Cuts name.now length)) }
        ensures err { OnErr result
            (Told (holds self.old) (holds self.new) (CutsOrKeeps name.now length)) }
        ensures reads { reads self.new ≡ reads self.old }
        ensures cause { HasCause Failed (faults self.old) (faults self.new) result };

    /// Gives a file another name, and replaces a file of that name whole. Where no file has the first
    /// name nothing changes. After a failure both names are as before.
    fn rename(&mut self, from: &str, to: &str) -> Result<(), FileErr>
        requires { IsTrue writable }
        ensures ok { OnOk result
            (Told (holds self.old) (holds self.new) (Renames from.now to.now)) }
        ensures err { OnErr result (Told (holds self.old) (holds self.new) Keeps) }
        ensures reads { reads self.new ≡ reads self.old }
        ensures cause { HasCause Failed (faults self.old) (faults self.new) result };

    /// Takes a file away. A name that is not there is no failure. After a failure the file is as before.
    /// Want of memory counts as a failure here.
    fn remove(&mut self, name: &str) -> Result<(), FileErr>
        requires { IsTrue writable }
        ensures ok { OnOk result (Told (holds self.old) (holds self.new) (Removes name.now)) }
        ensures err { OnErr result (Told (holds self.old) (holds self.new) Keeps) }
        ensures failed { IfErr result (λ e. e ≡ Failed) }
        ensures reads { reads self.new ≡ reads self.old }
        ensures cause { HasCause Failed (faults self.old) (faults self.new) result };

    /// An object that reads the bytes that the file has now, of which there are none where no file has
    /// the name. It tells them exactly where these files tell what they hold. None of its reads has
    /// failed yet.
    fn reader(&mut self, name: &str) -> Result<Self::Reader, FileErr>
        requires { IsTrue writable }
        ensures told { IfOk result (λ r.
            IfTold (holds self.old) (Shows name.now (Self.Reader.holds r))) }
        ensures untold { IfOk result (λ r. holds self.old ≡ None → Self.Reader.holds r ≡ None) }
        ensures fresh { IfOk result (λ r. Self.Reader.faults r ≡ 0) }
        ensures holds { holds self.new ≡ holds self.old }
        ensures reads { reads self.new ≡ reads self.old }
        ensures cause { HasCause Failed (faults self.old) (faults self.new) result };

    /// The count of faults, or 2^64 - 1 where it is greater.
    fn fault_count(&self) -> u64
        ensures { result ≡ min (faults self.now) (2 ^ 64 - 1) };

    /// What is told is bytes.
    ghost told_bytes: { (s : Self) → IfTold (holds s) HoldsBytes };
}
