//! What cuts a script off.
ghost use Rattle.std.specs.Prelude.{◌≡◌, ◌⊎◌};
ghost use Rattle.myi_shell.specs.Damage.{IsNoted};
ghost use Rattle.myi_shell.specs.declared.fault.ShellFault.TheVariants.{Memory};

use myi_history::RoundTexts;
use myi_io::SinkErr;
use myi_table::ReadFault;
use std::alloc::{AllocError, AllocFailed};
use thiserror::Error;

/// Why a script did not run to its end.
#[derive(Clone, Copy, Debug, PartialEq, Eq, Error)]
pub enum ShellFault {
    /// What stands at this place of a file is not what the table needs there. The line on it was
    /// printed. Files that tell what they hold give no cause for it.
    #[error("the table is damaged at {at}")]
    Damaged { at: u64 },
    /// A file call failed. The files' count of faults rose.
    #[error("a file of the table cannot be read or written")]
    File,
    /// A write to the output failed. The output's count of faults rose.
    #[error("the output cannot be written")]
    Sink,
    /// No memory is left, or more changes were made than 64 bits count.
    #[error("out of memory")]
    Memory,
}

impl From<AllocError> for ShellFault {
    ghost use Rattle.std.specs.Prelude.{◌≡◌};
    ghost use Rattle.myi_shell.specs.declared.fault.ShellFault.TheVariants.{Memory};

    ghost from_gives = { λ _ f. f ≡ Memory };

    fn from(_: AllocError) -> Self {
        ShellFault::Memory
    }
}

impl<T: Drop> From<AllocFailed<T>> for ShellFault {
    ghost use Rattle.std.specs.Prelude.{◌≡◌};
    ghost use Rattle.myi_shell.specs.declared.fault.ShellFault.TheVariants.{Memory};

    ghost from_gives = { λ _ f. f ≡ Memory };

    fn from(_: AllocFailed<T>) -> Self {
        ShellFault::Memory
    }
}

impl From<ReadFault> for ShellFault {
    ghost use Rattle.std.specs.Prelude.{◌≡◌};
    ghost use Rattle.myi_shell.specs.Reading.{of_reading};

    ghost from_gives = { λ e f. f ≡ of_reading e };

    fn from(fault: ReadFault) -> Self {
        match fault {
            ReadFault::Damaged { at } => ShellFault::Damaged { at },
            ReadFault::File => ShellFault::File,
            // A table that is not broken is not refused so.
            ReadFault::Memory | ReadFault::Broken(_) => ShellFault::Memory,
        }
    }
}

impl From<SinkErr> for ShellFault {
    ghost use Rattle.std.specs.Prelude.{◌≡◌};
    ghost use Rattle.myi_shell.specs.Running.{of_sink};

    ghost from_gives = { λ e f. f ≡ of_sink e };

    fn from(fault: SinkErr) -> Self {
        match fault {
            SinkErr::Failed => ShellFault::Sink,
            SinkErr::Memory => ShellFault::Memory,
        }
    }
}

/// Notes the line of a step that met damage. The answer is the fault, or that there is no memory
/// for the line.
pub(crate) fn note_damage(texts: &mut RoundTexts, line: u32, fault: ShellFault) -> ShellFault
    ensures same { (result ≡ fault) ⊎ (result ≡ Memory) }
    ensures noted { IsNoted texts.new result }
{
    let ShellFault::Damaged { at } = fault else {
        return fault;
    };
    match texts.push_damaged(line, at) {
        Ok(()) => fault,
        Err(_) => ShellFault::Memory,
    }
}
