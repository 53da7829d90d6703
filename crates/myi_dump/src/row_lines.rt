//! The lines on the rows of a table.
ghost use Rattle.std.specs.Prelude.{◌≡◌, ℕ, List, length, Some, false, IfOk, OnOk, OnErr};
ghost use Rattle.myi_base.specs.Holding.{IfTold};
ghost use Rattle.myi_base.specs.Output.{Appends, AppendsPart};
ghost use Rattle.myi_base.specs.Causes.{HasCause};
ghost use Rattle.myi_defs.specs.ReadDefs.{AreDefs};
ghost use Rattle.myi_data.specs.Readable.{readable};
ghost use Rattle.myi_data.specs.Scanning.{IsAsKnown, rows_ahead};
ghost use Rattle.myi_dump.specs.RowLines.{row_lines};

use crate::fault::DumpFault;
use crate::line_buffer::LineBuffer;
use myi_chain::ScanSetup;
use myi_data::DataScan;
use myi_defs::Defs;
use myi_io::{Files, Sink};
use std::alloc::Global;

/// Writes a line for each readable row of the data file of that name, which has `size` bytes, in
/// the order of the file. The files stay as they are.
pub fn dump_rows<F: Files, O: Sink>(
    alloc: Global,
    files: &mut F,
    out: &mut O,
    rows: &str,
    defs: &Defs,
    size: u64,
) -> Result<(), DumpFault>
    requires defs { AreDefs defs.now }
    requires long { IfTold (F.holds files.old) (λ m. (d : List ℕ)
        × (m rows.now ≡ Some d) × (size ≡ length d)) }
    ensures said { OnOk result (IfTold (F.holds files.old) (λ m. (d : List ℕ)
        → m rows.now ≡ Some d → IfTold (O.written out.old)
        (Appends (row_lines defs.now (readable defs.now false d)) (O.written out.new)))) }
    ensures part { OnErr result (IfTold (F.holds files.old) (λ m. (d : List ℕ)
        → m rows.now ≡ Some d → IfTold (O.written out.old)
        (AppendsPart (row_lines defs.now (readable defs.now false d)) (O.written out.new)))) }
    ensures holds { F.holds files.new ≡ F.holds files.old }
    ensures file { HasCause DumpFault.File (F.faults files.old) (F.faults files.new) result }
    ensures sink { HasCause DumpFault.Sink (O.faults out.old) (O.faults out.new) result }
{
    let setup = ScanSetup {
        extend: false,
        file_len: size,
    };
    let mut scan = DataScan::of_file(rows, defs, setup)?;
    write_rows(alloc, files, out, &mut scan, defs)
}

// Writes a line for each row that a scan has left.
fn write_rows<F: Files, O: Sink>(
    alloc: Global,
    files: &mut F,
    out: &mut O,
    scan: &mut DataScan,
    defs: &Defs,
) -> Result<(), DumpFault>
    requires current { IfTold (F.holds files.old) (IsAsKnown scan.old) }
    requires test { scan.old.test ≡ defs.now }
    requires defs { AreDefs defs.now }
    ensures said { OnOk result (IfTold (F.holds files.old) (λ m. IfTold (O.written out.old)
        (Appends (row_lines defs.now (rows_ahead scan.old m)) (O.written out.new)))) }
    ensures part { OnErr result (IfTold (F.holds files.old) (λ m. IfTold (O.written out.old)
        (AppendsPart (row_lines defs.now (rows_ahead scan.old m)) (O.written out.new)))) }
    ensures holds { F.holds files.new ≡ F.holds files.old }
    ensures file { HasCause DumpFault.File (F.faults files.old) (F.faults files.new) result }
    ensures sink { HasCause DumpFault.Sink (O.faults out.old) (O.faults out.new) result }
{
    let mut lines = LineBuffer::new(alloc);
    while lines.read(files, scan, defs)? {
        lines.write_full(out)?;
    }
    lines.write(out)?;
    Ok(())
}
