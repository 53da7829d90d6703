//! All rows that are seen by a snapshot.
ghost use Rattle.std.specs.Prelude.{◌≡◌, ◌∷◌, ◌++◌, [], IfOk, IfErr, OnOk};
ghost use Rattle.myi_base.specs.Holding.{IfTold};
ghost use Rattle.myi_base.specs.Causes.{HasCause};
ghost use Rattle.myi_defs.specs.Sound.{IsSound};
ghost use Rattle.myi_chain.specs.ScanModel.{IsSameScan};
ghost use Rattle.myi_data.specs.Scanning.{IsAsKnown};
ghost use Rattle.myi_table.specs.Reading.{rows_to_come, IsFirst, GoesOn};
ghost use Rattle.myi_readers.specs.declared.fault.SeenFault.TheVariants.{File};
ghost use Rattle.myi_readers.specs.Faults.{IsCutOff};
ghost use Rattle.myi_readers.specs.Placed.{placed_before};

use crate::fault::SeenFault;
use crate::reader::TableReader;
use myi_chain::ScanSetup;
use myi_data::DataScan;
use myi_defs::Defs;
use myi_io::Files;
use myi_pack::{Row, unpack, view_packed};
use myi_snapshots::Snapshot;
use myi_state::standing_files_are_read;
use std::alloc::{AllocError, Global};

// The next row of a scan of a table and its position, and None where none is to come.
fn next_row<F: Files>(
    files: &mut F,
    defs: &Defs,
    scan: &mut DataScan,
) -> Result<Option<(u64, Row)>, SeenFault>
    requires sound { IsSound defs.now }
    requires test { scan.old.test ≡ defs.now }
    requires current { IfTold (F.holds files.old) (IsAsKnown scan.old) }
    ensures row { IfOk result (λ row. IfTold (F.holds files.old) (λ m.
        IsFirst (rows_to_come scan.old m) (rows_to_come scan.new m) row)) }
    ensures goes_on { IfOk result (GoesOn scan.old scan.new) }
    ensures same { OnOk result (IsSameScan scan.old scan.new) }
    ensures current { OnOk result (IfTold (F.holds files.old) (IsAsKnown scan.new)) }
    ensures cut { IfErr result IsCutOff }
    ensures holds { F.holds files.new ≡ F.holds files.old }
    ensures cause { HasCause File (F.faults files.old) (F.faults files.new) result }
{
    let Some((at, piece)) = scan.next_row(files)? else {
        return Ok(None);
    };
    let view = view_packed(defs, piece.bytes());
    let row = unpack(defs.raw.allocator(), &view)?;
    Ok(Some((at, row)))
}

// Appends a row where it stands before a place.
fn push_before(rows: &mut Vec<(u64, Row)>, row: (u64, Row), below: u64) -> Result<(), AllocError>
    ensures { OnOk result (rows.new.items ≡ rows.old.items ++ placed_before below (row ∷ [])) }
{
    if row.0 >= below {
        return Ok(());
    }
    rows.push(row)?;
    Ok(())
}

impl TableReader {
    ghost use Rattle.std.specs.Prelude.{◌≡◌, ℕ, List, false, map, IfOk, IfErr, OnOk};
    ghost use Rattle.myi_base.specs.Holding.{Holding, IfTold};
    ghost use Rattle.myi_base.specs.Causes.{HasCause};
    ghost use Rattle.myi_pack.specs.Packed.{Values};
    ghost use Rattle.myi_chain.specs.ScanModel.{fresh_scan};
    ghost use Rattle.myi_state.specs.State.{TableState};
    ghost use Rattle.myi_tablestate.specs.Listed.{placed};
    ghost use Rattle.myi_keyedrows.specs.KeyedRows.{HoldTable, IsKept, IfHold};
    ghost use Rattle.myi_snapshots.specs.Seen.{seen_rows};
    ghost use Rattle.myi_table.specs.Reading.{BeginsWithAll};
    ghost use Rattle.myi_readers.specs.declared.fault.SeenFault.TheVariants.{File};
    ghost use Rattle.myi_readers.specs.Faults.{IsCutOff};
    ghost use Rattle.myi_readers.specs.Reader.{IsReader, AreKnown};
    ghost use Rattle.myi_readers.specs.Placed.{placed_before};

    // A scan of the base, which has read nothing.
    fn begin_scan(&self) -> Result<DataScan, AllocError>
        requires ready { IsReader self.now }
        ensures scan { IfOk result (λ scan. scan ≡ fresh_scan self.now.rows.rows.file.name
            self.now.defs false self.now.rows.rows.file.counts.length) }
        ensures all { IfOk result (λ scan. (m : Holding) (own : ℕ → ℕ) (base : TableState)
            → HoldTable self.now.rows own base m → BeginsWithAll scan base m) }
    {
        standing_files_are_read();
        let setup = ScanSetup {
            extend: false,
            file_len: self.rows.rows.counts().length,
        };
        let scan = DataScan::of_file(self.name.as_str(), &self.defs, setup)?;
        Ok(scan)
    }

    // The rows of the base that stand before a place.
    fn base_rows<F: Files>(&self, files: &mut F, below: u64) -> Result<Vec<(u64, Row)>, SeenFault>
        requires ready { IsReader self.now }
        requires kept { IsKept (F.holds files.old) self.now.rows }
        ensures rows { IfOk result (λ rows. IfHold (F.holds files.old) self.now.rows (λ m own base.
            rows.items ≡ placed_before below (map placed base.rows))) }
        ensures cut { IfErr result IsCutOff }
        ensures holds { F.holds files.new ≡ F.holds files.old }
        ensures cause { HasCause File (F.faults files.old) (F.faults files.new) result }
    {
        let mut scan = self.begin_scan()?;
        let mut rows = Vec::new(self.defs.raw.allocator());
        while let Some(row) = next_row(files, &self.defs, &mut scan)? {
            push_before(&mut rows, row, below)?;
        }
        Ok(rows)
    }

    /// All rows that are seen by a snapshot with their positions, in order of these: those that stand before its length, of
    /// the base and of the rows that are known. Nothing is found damaged.
    pub fn scan<F: Files>(
        &self,
        files: &mut F,
        snap: &Snapshot,
    ) -> Result<Vec<(u64, Row)>, SeenFault>
        requires ready { IsReader self.now }
        requires kept { IsKept (F.holds files.old) self.now.rows }
        ensures rows { IfOk result (λ rows. IfHold (F.holds files.old) self.now.rows (λ m own base.
            (known : List Values) → AreKnown self.now known
            → rows.items ≡ map placed (seen_rows self.now.defs base known snap.now))) }
        ensures cut { IfErr result IsCutOff }
        ensures holds { F.holds files.new ≡ F.holds files.old }
        ensures cause { HasCause File (F.faults files.old) (F.faults files.new) result }
    {
        let mut rows = self.base_rows(files, snap.length)?;
        self.push_known(&mut rows, snap.length)?;
        Ok(rows)
    }
}
