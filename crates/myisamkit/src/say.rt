//! Writing lines.
ghost use Rattle.std.specs.Prelude.{◌≡◌, OnOk, OnErr};
ghost use Rattle.myi_base.specs.Holding.{IfTold};
ghost use Rattle.myi_base.specs.Output.{Appends, AppendsPart};
ghost use Rattle.myi_base.specs.Causes.{HasCause};

use myi_io::{Sink, SinkErr};

/// Writes a line, and nothing where there is none.
pub(crate) fn say<O: Sink>(out: &mut O, line: &str) -> Result<(), SinkErr>
    ensures ok { OnOk result (IfTold (O.written out.old) (Appends line.now (O.written out.new))) }
    ensures err { OnErr result
        (IfTold (O.written out.old) (AppendsPart line.now (O.written out.new))) }
    ensures cause { HasCause SinkErr.Failed (O.faults out.old) (O.faults out.new) result }
{
    if line.is_empty() {
        return Ok(());
    }
    out.write(line.as_bytes())?;
    Ok(())
}
