//! `MemReader`: the bytes of one file in memory, read by another thread.
ghost use Rattle.std.specs.Prelude.{◌≡◌, ℕ, List};
ghost use Rattle.myi_base.specs.Holding.{read_count, filled};
ghost use Rattle.myi_base.specs.Numbers.{AreBytes};

use crate::failures::Failures;
use myi_base::slices_are_bytes;
use myi_io::{FileErr, FileReader};

/// Fills `into` with the bytes from a position on, as far as they go, and answers how many they are.
pub(crate) fn copy_from(bytes: &[u8], at: u64, into: &mut [u8]) -> usize
    ensures count { result ≡ read_count at into.old bytes.now }
    ensures bytes { into.new ≡ filled at into.old bytes.now }
{
    if at >= bytes.len() as u64 {
        return 0;
    }
    let rest = &bytes[at as usize..];
    let count = rest.len().min(into.len());
    into[..count].copy_from_slice(&rest[..count]);
    count
}

/// The bytes that a file in memory had when the reader was made. It fails at the calls that
/// `MemFiles::fail_readers` named.
pub struct MemReader {
    bytes: Vec<u8>,
    failures: Failures,
    reads: u64,
    ghost whole: { AreBytes bytes.items },
}

impl Drop for MemReader {
    fn drop(self) {
        let MemReader {
            bytes: _,
            failures: _,
            reads: _,
        } = self;
    }
}

impl MemReader {
    ghost use Rattle.std.specs.Prelude.{◌≡◌};
    ghost use Rattle.myi_memfiles.specs.Failures.{fresh};
    ghost use Rattle.myi_memfiles.specs.MemReader.{reader_bytes, reader_failing, reader_reads};

    pub(crate) fn new(bytes: Vec<u8>, fail: Vec<u64>) -> Self
        ensures bytes { reader_bytes result ≡ bytes.items }
        ensures failures { reader_failing result ≡ fresh fail.items }
        ensures reads { reader_reads result ≡ 0 }
    {
        slices_are_bytes(&bytes);
        MemReader {
            bytes,
            failures: Failures::new(fail),
            reads: 0,
        }
    }
}

/// Beside the clauses of the trait: which calls fail (`exact`), and that a read counts once.
impl FileReader for MemReader {
    ghost use Rattle.std.specs.Prelude.{◌≡◌, ◌≤◌, ◌+◌, length, OnOk, IfOk, IfErr, Some};
    ghost use Rattle.myi_base.specs.Holding.{read_count, filled, blocks};
    ghost use Rattle.myi_base.specs.Causes.{HasCause};
    ghost use Rattle.myi_io.specs.declared.files.FileErr.TheVariants.{Failed};
    ghost use Rattle.myi_io.specs.Told.{same_bytes};
    ghost use Rattle.myi_io.specs.Counts.{raised};
    ghost use Rattle.myi_memfiles.specs.Failures.{IsCall};
    ghost use Rattle.myi_memfiles.specs.MemReader.{reader_bytes, reader_faults, reader_reads};
    ghost use Rattle.myi_memfiles.specs.MemReader.{reader_failing, IfReaderTold};

    ghost holds = { λ s. Some s.bytes.items };

    ghost faults = { λ s. s.failures.faults };

    ghost reads = { λ s. s.reads };

    fn read_at(&mut self, at: u64, into: &mut [u8]) -> Result<usize, FileErr>
        ensures bound { IfOk result (λ count. count ≤ length into.new) }
        ensures told { IfOk result (λ count.
            IfReaderTold self.old (λ x. count ≡ read_count at into.old x)) }
        ensures bytes { OnOk result (IfReaderTold self.old (λ x. into.new ≡ filled at into.old x)) }
        ensures failed { IfErr result (λ e. e ≡ Failed) }
        ensures holds { Some (reader_bytes self.new) ≡ Some (reader_bytes self.old) }
        ensures reads { reader_reads self.old ≤ reader_reads self.new }
        ensures few { reader_reads self.new ≤ reader_reads self.old + blocks (length into.old) }
        ensures cause { HasCause Failed (reader_faults self.old) (reader_faults self.new) result }
        ensures exact { IsCall Failed (reader_failing self.old) result (reader_failing self.new) }
        ensures one { reader_reads self.new ≡ raised (reader_reads self.old) }
    {
        self.reads = self.reads.saturating_add(1);
        if self.failures.next_fails() {
            return Err(FileErr::Failed);
        }
        Ok(copy_from(&self.bytes, at, into))
    }

    fn fault_count(&self) -> u64 {
        self.failures.faults
    }

    ghost told_bytes = { λ s x told. same_bytes s.bytes.items x s.whole told };
}
