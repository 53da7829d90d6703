//! `NextRow`: the row that a scan answered last, or that was read elsewhere, spelled anew.
//!
//! Its bytes are lent from the scan only until the scan is asked again, and its values stand in them; so
//! the row is spelled first, and what is done with it reads the spelling. The buffers serve for all rows.
ghost use Rattle.std.specs.Prelude.{◌≡◌, map, OnOk};

use crate::fault::RepairFault;
use myi_data::DataScan;
use myi_defs::Defs;
use myi_io::Files;
use myi_pack::{RowView, spell_into, view_packed};
use std::alloc::{AllocError, Global};

/// The spelling of a row, and the sizes of the blocks that held it.
pub struct NextRow {
    pub bytes: Vec<u8>,
    pub sizes: Vec<u32>,
    scratch: Vec<u8>,
}

impl Drop for NextRow {
    fn drop(self) {
        let NextRow {
            bytes: _,
            sizes: _,
            scratch: _,
        } = self;
    }
}

impl NextRow {
    ghost use Rattle.std.specs.Prelude.{◌≡◌, true, map, IfOk, OnOk};
    ghost use Rattle.myi_base.specs.Holding.{IfTold};
    ghost use Rattle.myi_defs.specs.ReadDefs.{AreDefs};
    ghost use Rattle.myi_pack.specs.Spelling.{fits};
    ghost use Rattle.myi_chain.specs.ScanModel.{IsSameScan};
    ghost use Rattle.myi_data.specs.Scanning.{IsAsKnown};
    ghost use Rattle.myi_repair.specs.Outcome.{EndsWith};
    ghost use Rattle.myi_repair.specs.Keeping.{IsPrepared};
    ghost use Rattle.myi_repair.specs.Gathering.{ReadsIf};

    /// No row yet.
    pub fn new(alloc: Global) -> NextRow {
        NextRow {
            bytes: Vec::new(alloc),
            sizes: Vec::new(alloc),
            scratch: Vec::new(alloc),
        }
    }

    /// Spells a row that is there in other bytes, with the blocks that hold it, each by its place and size.
    pub fn spell(
        &mut self,
        defs: &Defs,
        row: &RowView<'_>,
        blocks: &[(u64, u32)],
    ) -> Result<(), AllocError>
        requires defs { AreDefs defs.now }
        requires row { fits defs.now row.now ≡ true }
        ensures { OnOk result (IsPrepared defs.now
            (record { values = row.now; sizes = map (λ b. b.1) blocks.now }) self.new) }
    {
        spell_into(&mut self.bytes, &mut self.scratch, defs, row)?;
        note_sizes(&mut self.sizes, blocks)?;
        Ok(())
    }

    /// Reads and spells the next row of a scan, and says whether there was one.
    pub fn read<F: Files>(
        &mut self,
        files: &mut F,
        scan: &mut DataScan,
        defs: &Defs,
    ) -> Result<bool, RepairFault>
        requires current { IfTold (F.holds files.old) (IsAsKnown scan.old) }
        requires test { scan.old.test ≡ defs.now }
        requires defs { AreDefs defs.now }
        ensures read { IfOk result (λ more.
            ReadsIf more defs.now (F.holds files.old) scan.old scan.new self.new) }
        ensures same { OnOk result (IsSameScan scan.old scan.new) }
        ensures current { OnOk result (IfTold (F.holds files.old) (IsAsKnown scan.new)) }
        ensures ends { EndsWith (F.holds files.new ≡ F.holds files.old)
            (F.faults files.old) (F.faults files.new) result }
    {
        let Some((_, piece)) = scan.next_row(files)? else {
            return Ok(false);
        };
        let row = view_packed(defs, piece.bytes());
        spell_into(&mut self.bytes, &mut self.scratch, defs, &row)?;
        note_sizes(&mut self.sizes, scan.blocks())?;
        Ok(true)
    }
}

// Notes the sizes of blocks, in place of those that were noted.
fn note_sizes(sizes: &mut Vec<u32>, blocks: &[(u64, u32)]) -> Result<(), AllocError>
    ensures { OnOk result (sizes.new.items ≡ map (λ b. b.1) blocks.now) }
{
    sizes.clear();
    for (_, size) in blocks {
        sizes.push(*size)?;
    }
    Ok(())
}
