//! Reading all rows of a table, in order of their positions.
ghost use Rattle.std.specs.Prelude.{◌≡◌, IfOk};

use crate::fault::ReadFault;
use crate::table::Table;
use myi_chain::ScanSetup;
use myi_data::DataScan;
use myi_io::Files;
use myi_opening::TableFile;
use myi_pack::{Row, unpack, view_packed};
use myi_state::standing_files_are_read;
use std::alloc::AllocError;

impl Table {
    ghost use Rattle.std.specs.Prelude.{◌≡◌, ◌≢◌, false, map, None, IfOk, IfErr, OnOk};
    ghost use Rattle.myi_base.specs.Holding.{Holding, IfTold};
    ghost use Rattle.myi_base.specs.Causes.{HasCause};
    ghost use Rattle.myi_chain.specs.ScanModel.{fresh_scan, IsSameScan};
    ghost use Rattle.myi_data.specs.Scanning.{IsAsKnown};
    ghost use Rattle.myi_state.specs.State.{TableState};
    ghost use Rattle.myi_tablestate.specs.Listed.{placed};
    ghost use Rattle.myi_opening.specs.Names.{rows_file};
    ghost use Rattle.myi_table.specs.declared.fault.Cause.{Cause};
    ghost use Rattle.myi_table.specs.declared.fault.ReadFault.TheVariants.{File};
    ghost use Rattle.myi_table.specs.Faults.{ScanIsRefused};
    ghost use Rattle.myi_table.specs.Table.{defs_in, HoldState, IsKept, IfHolds};
    ghost use Rattle.myi_table.specs.Reading.{rows_to_come, IsFirst, BeginsWithAll, GoesOn, ScanStays};

    // Refuses to read a table that a change was cut off from.
    pub(crate) fn refuse_reading(&self) -> Result<(), ReadFault>
        ensures whole { OnOk result (self.now.broken ≡ None) }
        ensures broken { IfErr result (λ f. (cause : Cause) × (self.now.broken ≡ Some cause)
            × (f ≡ ReadFault.Broken cause)) }
    {
        match self.broken {
            Some(cause) => Err(ReadFault::Broken(cause)),
            None => Ok(()),
        }
    }

    /// A scan of all rows, which has read nothing. Of each state that the table stands for all rows are to come, in
    /// order of their positions.
    pub fn begin_scan(&self) -> Result<DataScan, ReadFault>
        ensures scan { IfOk result (λ scan. scan ≡ fresh_scan (rows_file self.now.name)
            (defs_in self.now) false self.now.rows.rows.file.counts.length) }
        ensures all { IfOk result (λ scan. (m : Holding) (s : TableState)
            → HoldState self.now s m → BeginsWithAll scan s m) }
        ensures whole { OnOk result (self.now.broken ≡ None) }
        ensures refused { IfErr result (ScanIsRefused self.now.broken) }
        ensures unread { IfErr result (λ f. f ≢ File) }
    {
        standing_files_are_read();
        self.refuse_reading()?;
        let end = self.rows.rows.counts().length;
        let scan = self.scan_up_to(end)?;
        Ok(scan)
    }

    // A scan of the data file up to an end, which has read nothing.
    fn scan_up_to(&self, end: u64) -> Result<DataScan, AllocError>
        ensures { IfOk result (λ scan. scan ≡ fresh_scan (rows_file self.now.name)
            (defs_in self.now) false end) }
    {
        let data = TableFile::Data.of(self.alloc, self.name.as_str())?;
        let setup = ScanSetup {
            extend: false,
            file_len: end,
        };
        DataScan::of_file(data.as_str(), &self.defs, setup)
    }

    /// The next row of a scan and its position, and None where none is to come. The data file is as the scan's last
    /// call left it, as it is until the table is changed. After a failed file call the next call answers as this one
    /// would have; where memory was wanting it may answer the row behind.
    pub fn next_in_scan<F: Files>(
        &self,
        files: &mut F,
        scan: &mut DataScan,
    ) -> Result<Option<(u64, Row)>, ReadFault>
        requires test { scan.old.test ≡ defs_in self.now }
        requires current { IfTold (F.holds files.old) (IsAsKnown scan.old) }
        ensures row { IfOk result (λ row. IfTold (F.holds files.old) (λ m.
            IsFirst (rows_to_come scan.old m) (rows_to_come scan.new m) row)) }
        ensures goes_on { IfOk result (GoesOn scan.old scan.new) }
        ensures stays { IfErr result (λ f. ScanStays f (F.holds files.old) scan.old scan.new) }
        ensures same { IsSameScan scan.old scan.new }
        ensures current { IfTold (F.holds files.old) (IsAsKnown scan.new) }
        ensures whole { OnOk result (self.now.broken ≡ None) }
        ensures refused { IfErr result (ScanIsRefused self.now.broken) }
        ensures holds { F.holds files.new ≡ F.holds files.old }
        ensures cause { HasCause File (F.faults files.old) (F.faults files.new) result }
    {
        self.refuse_reading()?;
        let Some((at, piece)) = scan.next_row(files)? else {
            return Ok(None);
        };
        let view = view_packed(&self.defs, piece.bytes());
        let row = unpack(self.alloc, &view)?;
        Ok(Some((at, row)))
    }

    /// All rows with their positions, in order of these, by one scan of the data file.
    pub fn scan<F: Files>(&self, files: &mut F) -> Result<Vec<(u64, Row)>, ReadFault>
        requires kept { IsKept (F.holds files.old) self.now }
        ensures rows { IfOk result (λ rows. IfHolds (F.holds files.old) self.now (λ m s.
            rows.items ≡ map placed s.rows)) }
        ensures whole { OnOk result (self.now.broken ≡ None) }
        ensures refused { IfErr result (ScanIsRefused self.now.broken) }
        ensures holds { F.holds files.new ≡ F.holds files.old }
        ensures cause { HasCause File (F.faults files.old) (F.faults files.new) result }
    {
        let mut scan = self.begin_scan()?;
        let mut rows = Vec::new(self.alloc);
        while let Some(row) = self.next_in_scan(files, &mut scan)? {
            rows.push(row)?;
        }
        Ok(rows)
    }
}
