//! `Status`, what a run answers, and `Stop`, what cuts a run off.
ghost use Rattle.std.specs.Prelude.{◌≡◌};
ghost use Rattle.myisamkit.specs.declared.status.Stop.TheVariants.{Memory};
ghost use Rattle.myisamkit.specs.Statuses.{number_of, worse};

use myi_dump::DumpFault;
use myi_io::{FileErr, SinkErr};
use std::alloc::AllocError;

/// What a run answers.
#[derive(Clone, Copy, Debug, PartialEq, Eq)]
pub enum Status {
    Ok,
    /// A check found something, also one before an analysis or sorting.
    Findings,
    /// The words are refused.
    Usage,
    /// A table is refused.
    Refused,
    /// A file that is needed is not there.
    Absent,
    /// A file call failed. The files' count of faults rose.
    FileFault,
    /// A write to the output failed. The output's count of faults rose.
    SinkFault,
    Memory,
}

impl Status {
    /// The program's status.
    pub fn number(self) -> u8
        ensures { result ≡ number_of self }
    {
        match self {
            Status::Ok => 0,
            Status::Findings => 1,
            Status::Usage => 2,
            Status::Refused => 3,
            Status::Absent => 4,
            Status::FileFault => 5,
            Status::SinkFault => 6,
            Status::Memory => 7,
        }
    }

    /// The one of the greater number.
    pub(crate) fn worse(self, other: Status) -> Status
        ensures { result ≡ worse self other }
    {
        if self.number() < other.number() {
            other
        } else {
            self
        }
    }
}

/// What cuts a run off.
#[derive(Clone, Copy, Debug, PartialEq, Eq)]
pub(crate) enum Stop {
    File,
    Sink,
    Memory,
}

impl From<AllocError> for Stop {
    ghost from_gives = { λ _ s. s ≡ Memory };

    fn from(_: AllocError) -> Self {
        Stop::Memory
    }
}

impl From<SinkErr> for Stop {
    ghost use Rattle.myi_base.specs.HandsOn.{HandsOn};
    ghost use Rattle.myi_io.specs.declared.sink.SinkErr.TheVariants as sink;
    ghost use Rattle.myisamkit.specs.declared.status.Stop.TheVariants.{Sink, Memory};

    ghost from_gives = { HandsOn (sink.Failed, Sink) (sink.Memory, Memory) };

    fn from(error: SinkErr) -> Self {
        match error {
            SinkErr::Failed => Stop::Sink,
            SinkErr::Memory => Stop::Memory,
        }
    }
}

impl From<FileErr> for Stop {
    ghost use Rattle.myi_base.specs.HandsOn.{HandsOn};
    ghost use Rattle.myi_io.specs.declared.files.FileErr.TheVariants as file;
    ghost use Rattle.myisamkit.specs.declared.status.Stop.TheVariants.{File, Memory};

    ghost from_gives = { HandsOn (file.Failed, File) (file.Memory, Memory) };

    fn from(error: FileErr) -> Self {
        match error {
            FileErr::Failed => Stop::File,
            FileErr::Memory => Stop::Memory,
        }
    }
}

impl From<DumpFault> for Stop {
    ghost use Rattle.std.specs.Prelude.{◌≡◌};
    ghost use Rattle.myisamkit.specs.Stops.{stop_of_dump};

    ghost from_gives = { λ e stop. stop ≡ stop_of_dump e };

    fn from(fault: DumpFault) -> Self {
        match fault {
            DumpFault::File => Stop::File,
            DumpFault::Sink => Stop::Sink,
            DumpFault::Memory => Stop::Memory,
        }
    }
}

impl From<Stop> for Status {
    ghost use Rattle.std.specs.Prelude.{◌≡◌};
    ghost use Rattle.myisamkit.specs.Stops.{status_of_stop};

    ghost from_gives = { λ stop status. status ≡ status_of_stop stop };

    fn from(stop: Stop) -> Self {
        match stop {
            Stop::File => Status::FileFault,
            Stop::Sink => Status::SinkFault,
            Stop::Memory => Status::Memory,
        }
    }
}
