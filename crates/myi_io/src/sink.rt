//! `Sink`: where text goes.
ghost use Rattle.std.specs.Prelude.{ℕ, List, Option, OnOk, OnErr};
ghost use Rattle.myi_io.specs.declared.sink.SinkErr.TheVariants.{Failed};
ghost use Rattle.myi_base.specs.Causes.{HasCause};
ghost use Rattle.myi_base.specs.Holding.{IfTold};
ghost use Rattle.myi_base.specs.Output.{Appends, AppendsPart};

use thiserror::Error;

/// Why a write did not do its work.
#[derive(Clone, Copy, Debug, PartialEq, Eq, Error)]
pub enum SinkErr {
    /// The output failed. The count of faults rose.
    #[error("a write to the output failed")]
    Failed,
    #[error("out of memory")]
    Memory,
}

/// Where text goes.
pub trait Sink {
    /// What was written, where the sink tells it.
    ghost written: { Self → Option (List ℕ) };

    /// How often a write has failed; it never falls.
    ghost faults: { Self → ℕ };

    /// Appends all bytes. After a failure a prefix of them was appended.
    fn write(&mut self, bytes: &[u8]) -> Result<(), SinkErr>
        ensures ok { OnOk result
            (IfTold (written self.old) (Appends bytes.now (written self.new))) }
        ensures err { OnErr result
            (IfTold (written self.old) (AppendsPart bytes.now (written self.new))) }
        ensures cause { HasCause Failed (faults self.old) (faults self.new) result };
}
