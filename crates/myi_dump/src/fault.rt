//! What cuts a dump off.
ghost use Rattle.std.specs.Prelude.{◌≡◌};
ghost use Rattle.myi_dump.specs.declared.fault.DumpFault.TheVariants.{Memory};

use myi_chain::ScanFault;
use myi_io::SinkErr;
use std::alloc::{AllocError, AllocFailed};
use thiserror::Error;

/// What cuts a dump off. A front of its lines was written.
#[derive(Clone, Copy, Debug, PartialEq, Eq, Error)]
pub enum DumpFault {
    /// A file call failed. The files' count of faults rose.
    #[error("the data file cannot be read")]
    File,
    /// A write to the output failed. The output's count of faults rose.
    #[error("the output cannot be written")]
    Sink,
    #[error("out of memory")]
    Memory,
}

impl From<AllocError> for DumpFault {
    ghost from_gives = { λ _ f. f ≡ Memory };

    fn from(_: AllocError) -> Self {
        DumpFault::Memory
    }
}

impl<T: Drop> From<AllocFailed<T>> for DumpFault {
    ghost from_gives = { λ _ f. f ≡ Memory };

    fn from(_: AllocFailed<T>) -> Self {
        DumpFault::Memory
    }
}

impl From<ScanFault> for DumpFault {
    ghost use Rattle.myi_base.specs.HandsOn.{HandsOn};
    ghost use Rattle.myi_chain.specs.declared.piece.ScanFault.TheVariants as scan;
    ghost use Rattle.myi_dump.specs.declared.fault.DumpFault.TheVariants.{File, Memory};

    ghost from_gives = { HandsOn (scan.File, File) (scan.Memory, Memory) };

    fn from(fault: ScanFault) -> Self {
        match fault {
            ScanFault::File => DumpFault::File,
            ScanFault::Memory => DumpFault::Memory,
        }
    }
}

impl From<SinkErr> for DumpFault {
    ghost use Rattle.myi_base.specs.HandsOn.{HandsOn};
    ghost use Rattle.myi_io.specs.declared.sink.SinkErr.TheVariants as sink;
    ghost use Rattle.myi_dump.specs.declared.fault.DumpFault.TheVariants.{Sink, Memory};

    ghost from_gives = { HandsOn (sink.Failed, Sink) (sink.Memory, Memory) };

    fn from(error: SinkErr) -> Self {
        match error {
            SinkErr::Failed => DumpFault::Sink,
            SinkErr::Memory => DumpFault::Memory,
        }
    }
}
