//! `LineBuffer`: lines that wait to be written.
//!
//! The line of a row is appended while the row is lent from the scan. The buffers serve for all
//! rows.
use crate::fault::DumpFault;
use myi_data::DataScan;
use myi_defs::Defs;
use myi_io::{Files, Sink, SinkErr};
use myi_pack::{RowView, view_packed};
use myi_rowtext::RowTexts;
use std::alloc::{AllocError, Global};

// How many bytes wait at least before they are written.
const PIECE: usize = 65_536;

/// Lines that wait to be written.
#[derive(Drop)]
pub(crate) struct LineBuffer {
    pub(crate) bytes: Vec<u8>,
    texts: RowTexts,
}

impl LineBuffer {
    ghost use Rattle.std.specs.Prelude.{◌≡◌, ◌≢◌, ◌++◌, [], IfOk, IfErr, OnOk, OnErr};
    ghost use Rattle.myi_base.specs.Holding.{IfTold};
    ghost use Rattle.myi_base.specs.Output.{Appends, AppendsPart};
    ghost use Rattle.myi_base.specs.Causes.{HasCause};
    ghost use Rattle.myi_defs.specs.ReadDefs.{AreDefs};
    ghost use Rattle.myi_chain.specs.ScanModel.{IsSameScan};
    ghost use Rattle.myi_data.specs.Scanning.{IsAsKnown};
    ghost use Rattle.myi_dump.specs.Dumping.{line_of, ReadsIf, Moves};

    /// No lines yet.
    pub(crate) fn new(alloc: Global) -> LineBuffer
        ensures { result.bytes.items ≡ [] }
    {
        LineBuffer {
            bytes: Vec::new(alloc),
            texts: RowTexts::new(alloc),
        }
    }

    /// Reads the next row of a scan and appends its line, and says whether there was one.
    pub(crate) fn read<F: Files>(
        &mut self,
        files: &mut F,
        scan: &mut DataScan,
        defs: &Defs,
    ) -> Result<bool, DumpFault>
        requires current { IfTold (F.holds files.old) (IsAsKnown scan.old) }
        requires test { scan.old.test ≡ defs.now }
        requires defs { AreDefs defs.now }
        ensures read { IfOk result (λ more. ReadsIf more defs.now (F.holds files.old)
            scan.old scan.new self.old.bytes.items self.new.bytes.items) }
        ensures same { OnOk result (IsSameScan scan.old scan.new) }
        ensures current { OnOk result (IfTold (F.holds files.old) (IsAsKnown scan.new)) }
        ensures holds { F.holds files.new ≡ F.holds files.old }
        ensures sink { IfErr result (λ fault. fault ≢ DumpFault.Sink) }
        ensures cause { HasCause DumpFault.File (F.faults files.old) (F.faults files.new) result }
    {
        let Some((at, piece)) = scan.next_row(files)? else {
            return Ok(false);
        };
        let row = view_packed(defs, piece.bytes());
        self.push(at, &row)?;
        Ok(true)
    }

    // Appends the line of the row at a place.
    fn push(&mut self, at: u64, row: &RowView<'_>) -> Result<(), AllocError>
        ensures { OnOk result (self.new.bytes.items
            ≡ self.old.bytes.items ++ line_of at row.now) }
    {
        self.texts.push(&mut self.bytes, at, row)?;
        self.bytes.push(b'\n')?;
        Ok(())
    }

    /// Writes what waits where it is a piece or more.
    pub(crate) fn write_full<O: Sink>(&mut self, out: &mut O) -> Result<(), SinkErr>
        ensures ok { OnOk result (Moves self.old.bytes.items self.new.bytes.items
            (O.written out.old) (O.written out.new)) }
        ensures err { OnErr result (IfTold (O.written out.old)
            (AppendsPart self.old.bytes.items (O.written out.new))) }
        ensures cause { HasCause SinkErr.Failed (O.faults out.old) (O.faults out.new) result }
    {
        if self.bytes.len() < PIECE {
            return Ok(());
        }
        self.write(out)
    }

    /// Writes what waits, and nothing where nothing does.
    pub(crate) fn write<O: Sink>(&mut self, out: &mut O) -> Result<(), SinkErr>
        ensures ok { OnOk result (IfTold (O.written out.old)
            (Appends self.old.bytes.items (O.written out.new))) }
        ensures empty { OnOk result (self.new.bytes.items ≡ []) }
        ensures err { OnErr result (IfTold (O.written out.old)
            (AppendsPart self.old.bytes.items (O.written out.new))) }
        ensures cause { HasCause SinkErr.Failed (O.faults out.old) (O.faults out.new) result }
    {
        if self.bytes.is_empty() {
            return Ok(());
        }
        out.write(&self.bytes)?;
        self.bytes.clear();
        Ok(())
    }
}
