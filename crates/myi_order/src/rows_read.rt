//! `RowsRead`: the keys of the rows of a table that were read so far.
ghost use Rattle.std.specs.Prelude.{◌≡◌, ◌+◌, ℕ, List, Some, IfOk, IfErr};
ghost use Rattle.std.specs.Prelude as std;
ghost use Rattle.myi_base.specs.Holding.{IfTold};
ghost use Rattle.myi_base.specs.Causes.{HasCause};
ghost use Rattle.myi_defs.specs.ReadDefs.{AreDefs};
ghost use Rattle.myi_data.specs.Scanning.{IsAsKnown};
ghost use Rattle.myi_order.specs.Faults.{CutsOff};
ghost use Rattle.myi_order.specs.Counting.{ReadsAll, ReadsFile};

use crate::fault::OrderFault;
use myi_chain::ScanSetup;
use myi_data::DataScan;
use myi_defs::Defs;
use myi_io::Files;
use myi_pack::view_packed;
use myi_rowkeys::RowKeys;
use std::alloc::{AllocError, Global};

/// The rows that were read so far.
#[derive(Drop)]
pub(crate) struct RowsRead {
    /// The pairs of the rows, a list for each key of the table.
    pub(crate) keys: RowKeys,
    /// How many rows there are.
    pub(crate) count: u64,
}

impl RowsRead {
    ghost use Rattle.std.specs.Prelude.{◌≡◌, [], List, IfOk, IfErr, OnOk};
    ghost use Rattle.myi_base.specs.Holding.{IfTold};
    ghost use Rattle.myi_base.specs.Causes.{HasCause};
    ghost use Rattle.myi_defs.specs.ReadDefs.{AreDefs};
    ghost use Rattle.myi_pair.specs.KeyList.{PlacedRow};
    ghost use Rattle.myi_chain.specs.ScanModel.{IsSameScan};
    ghost use Rattle.myi_data.specs.Scanning.{IsAsKnown};
    ghost use Rattle.myi_order.specs.Faults.{CutsOff};
    ghost use Rattle.myi_order.specs.Counting.{HasRead, ReadsIf};

    /// No row yet, of a table with these definitions.
    pub(crate) fn new(alloc: Global, defs: &Defs) -> Result<RowsRead, AllocError>
        ensures { IfOk result (HasRead defs.now []) }
    {
        Ok(RowsRead {
            keys: RowKeys::new(alloc, defs.keys.as_slice().len())?,
            count: 0,
        })
    }

    /// Reads the next row of a scan, and says whether there was one.
    pub(crate) fn read<F: Files>(
        &mut self,
        files: &mut F,
        scan: &mut DataScan,
        defs: &Defs,
    ) -> Result<bool, OrderFault>
        requires current { IfTold (F.holds files.old) (IsAsKnown scan.old) }
        requires test { scan.old.test ≡ defs.now }
        requires defs { AreDefs defs.now }
        requires read { (rows : List PlacedRow) × HasRead defs.now rows self.old }
        ensures read { IfOk result (λ more.
            ReadsIf more defs.now (F.holds files.old) scan.old scan.new self.old self.new) }
        ensures same { OnOk result (IsSameScan scan.old scan.new) }
        ensures current { OnOk result (IfTold (F.holds files.old) (IsAsKnown scan.new)) }
        ensures holds { F.holds files.new ≡ F.holds files.old }
        ensures cut { IfErr result CutsOff }
        ensures cause { HasCause OrderFault.File (F.faults files.old) (F.faults files.new) result }
    {
        let Some((at, piece)) = scan.next_row(files)? else {
            return Ok(false);
        };
        let row = view_packed(defs, piece.bytes());
        self.keys.push(defs, &row, at)?;
        self.count = next_count(self.count)?;
        Ok(true)
    }
}

// One row more, where eight bytes hold the count. Of a file that tells what it holds they do.
fn next_count(count: u64) -> Result<u64, AllocError>
    ensures { IfOk result (λ n. n ≡ count + 1) }
{
    count.checked_add(1).ok_or(AllocError)
}

/// Reads the rows of a data file of that length.
pub(crate) fn read_file<F: Files>(
    alloc: Global,
    files: &mut F,
    rows: &str,
    defs: &Defs,
    length: u64,
) -> Result<RowsRead, OrderFault>
    requires defs { AreDefs defs.now }
    requires long { IfTold (F.holds files.old) (λ m.
        (d : List ℕ) × (m rows.now ≡ Some d) × (length ≡ std.length d)) }
    ensures read { IfOk result (ReadsFile defs.now rows.now (F.holds files.old)) }
    ensures holds { F.holds files.new ≡ F.holds files.old }
    ensures cut { IfErr result CutsOff }
    ensures cause { HasCause OrderFault.File (F.faults files.old) (F.faults files.new) result }
{
    let setup = ScanSetup {
        extend: false,
        file_len: length,
    };
    let mut scan = DataScan::of_file(rows, defs, setup)?;
    read_all(alloc, files, &mut scan, defs)
}

// Reads all rows that a scan has left.
fn read_all<F: Files>(
    alloc: Global,
    files: &mut F,
    scan: &mut DataScan,
    defs: &Defs,
) -> Result<RowsRead, OrderFault>
    requires current { IfTold (F.holds files.old) (IsAsKnown scan.old) }
    requires test { scan.old.test ≡ defs.now }
    requires defs { AreDefs defs.now }
    ensures read { IfOk result (ReadsAll defs.now (F.holds files.old) scan.old) }
    ensures holds { F.holds files.new ≡ F.holds files.old }
    ensures cut { IfErr result CutsOff }
    ensures cause { HasCause OrderFault.File (F.faults files.old) (F.faults files.new) result }
{
    let mut read = RowsRead::new(alloc, defs)?;
    while read.read(files, scan, defs)? {}
    Ok(read)
}
