//! `FileReader`: the bytes of one file, read by another thread.
ghost use Rattle.std.specs.Prelude.{◌≡◌, ◌≤◌, ◌+◌, ◌-◌, ◌^◌};
ghost use Rattle.std.specs.Prelude.{ℕ, List, Option, length, drop, min, OnOk, IfOk, IfErr, Some};
ghost use Rattle.myi_io.specs.declared.files.FileErr.TheVariants.{Failed};
ghost use Rattle.myi_base.specs.Holding.{filled, read_count, blocks, IfTold};
ghost use Rattle.myi_base.specs.Numbers.{AreBytes};
ghost use Rattle.myi_base.specs.Causes.{HasCause};

use crate::files::FileErr;

/// The bytes of one file, which do not change. Positions are in bytes, from 0.
pub trait FileReader: Send + Drop {
    /// The bytes, where they are told.
    ghost holds: { Self → Option (List ℕ) };

    /// How often a call has failed; it never falls.
    ghost faults: { Self → ℕ };

    /// How many reads were made; it never falls.
    ghost reads: { Self → ℕ };

    /// Fills `into` with the bytes from a position on, until it is full or the file ends, and answers
    /// how many bytes it gave. What stood behind them in `into` stays; after a failure `into` may hold
    /// anything. Want of memory counts as a failure here.
    fn read_at(&mut self, at: u64, into: &mut [u8]) -> Result<usize, FileErr>
        ensures bound { IfOk result (λ count. count ≤ length into.new) }
        ensures told { IfOk result (λ count.
            IfTold (holds self.old) (λ x. count ≡ read_count at into.old x)) }
        ensures bytes { OnOk result
            (IfTold (holds self.old) (λ x. into.new ≡ filled at into.old x)) }
        ensures failed { IfErr result (λ e. e ≡ Failed) }
        ensures holds { holds self.new ≡ holds self.old }
        ensures reads { reads self.old ≤ reads self.new }
        ensures few { reads self.new ≤ reads self.old + blocks (length into.old) }
        ensures cause { HasCause Failed (faults self.old) (faults self.new) result };

    /// The count of faults, or 2^64 - 1 where it is greater.
    fn fault_count(&self) -> u64
        ensures { result ≡ min (faults self.now) (2 ^ 64 - 1) };

    /// What is told is bytes.
    ghost told_bytes: { (s : Self) → IfTold (holds s) AreBytes };
}
