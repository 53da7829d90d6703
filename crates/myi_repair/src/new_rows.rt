//! `NewRows`: the rows of the new data file, as they come.
//!
//! Each row that comes is written at the end of the file or left out. Its pointer is noted, so that what
//! names rows by their numbers can name them by their pointers then.
ghost use Rattle.std.specs.Prelude.{◌≡◌};
ghost use Rattle.myi_defs.specs.Sound.{IsSound};
ghost use Rattle.myi_pair.specs.KeyList.{pointer};
ghost use Rattle.myi_repair.specs.Keeping.{is_chosen};

use crate::fault::RepairFault;
use crate::next_row::NextRow;
use crate::writing::{PackedRow, put_packed};
use myi_defs::{Defs, RowFormat};
use myi_io::Files;
use myi_keylist::RowPointers;
use std::alloc::{AllocError, Global};

/// The rows that came so far, and what of them was written.
pub struct NewRows {
    /// How many rows were written, and in how many blocks.
    pub kept: u64,
    pub split: u64,
    /// The place behind the last row in the new data file.
    pub end: u64,
    /// For each row that came its pointer, and 0 where it was left out.
    pub pointers: RowPointers,
    block: Vec<u8>,
}

impl Drop for NewRows {
    fn drop(self) {
        let NewRows {
            kept: _,
            split: _,
            end: _,
            pointers: _,
            block: _,
        } = self;
    }
}

impl NewRows {
    ghost use Rattle.std.specs.Prelude.{◌≡◌, ℕ, Bool, true, false, List, [], length, OnOk, IsTrue};
    ghost use Rattle.myi_base.specs.Holding.{Told};
    ghost use Rattle.myi_defs.specs.declared.types.Defs.{Defs};
    ghost use Rattle.myi_defs.specs.Addressable.{is_addressable};
    ghost use Rattle.myi_defs.specs.ReadDefs.{AreDefs};
    ghost use Rattle.myi_defs.specs.Sound.{IsSound};
    ghost use Rattle.myi_pack.specs.Spelling.{fits};
    ghost use Rattle.myi_data.specs.Stored.{SizedRow};
    ghost use Rattle.myi_repair.specs.Outcome.{EndsIn};
    ghost use Rattle.myi_repair.specs.Keeping.{IsPrepared, HasWritten, Adds, WritesIf, is_chosen};

    /// No row yet.
    pub fn new(alloc: Global) -> NewRows
        ensures { (d : Defs) (choose : ℕ → Bool) → HasWritten d choose [] result }
    {
        NewRows {
            kept: 0,
            split: 0,
            end: 0,
            pointers: RowPointers::new(alloc),
            block: Vec::new(alloc),
        }
    }

    /// Writes a row at the end of the file, which row pointers reach afterwards.
    pub fn put<F: Files>(
        &mut self,
        files: &mut F,
        file: &str,
        defs: &Defs,
        next: &NextRow,
    ) -> Result<(), RepairFault>
        requires writable { IsTrue F.writable }
        requires defs { AreDefs defs.now }
        requires row { (row : SizedRow) × IsPrepared defs.now row next.now }
        requires written { (choose : ℕ → Bool) × (rows : List SizedRow)
            × HasWritten defs.now choose rows self.old }
        ensures added { OnOk result ((row : SizedRow) → IsPrepared defs.now row next.now
            → Adds defs.now true row self.old self.new) }
        ensures reached { OnOk result (is_addressable defs.now self.new.end ≡ true) }
        ensures written { OnOk result (Told (F.holds files.old) (F.holds files.new)
            (λ m n. (row : SizedRow) → IsPrepared defs.now row next.now
            → WritesIf defs.now file.now true row self.old m n)) }
        ensures ends { EndsIn file.now (F.holds files.old) (F.holds files.new)
            (F.faults files.old) (F.faults files.new) result }
    {
        let row = PackedRow {
            bytes: &next.bytes,
            sizes: &next.sizes,
        };
        let (end, blocks) = put_packed(files, file, defs, self.end, row, &mut self.block)?;
        if !defs.addressable(end) {
            return Err(RepairFault::Memory);
        }
        self.pointers.push(pointer(defs, self.end))?;
        let came = self.pointers.len() as u64;
        prove!(self.kept < came);
        self.kept += 1;
        self.split += blocks;
        self.end = end;
        Ok(())
    }

    // Leaves a row out.
    fn leave_out(&mut self) -> Result<(), AllocError>
        ensures { OnOk result ((d : Defs) (row : SizedRow) → IsSound d → fits d row.values ≡ true
            → Adds d false row self.old self.new) }
    {
        self.pointers.push(0)?;
        Ok(())
    }

    /// Writes a row, or leaves it out, as the flag of its number says.
    pub(crate) fn put_chosen<F: Files>(
        &mut self,
        files: &mut F,
        file: &str,
        defs: &Defs,
        next: &NextRow,
        flags: &[bool],
    ) -> Result<(), RepairFault>
        requires writable { IsTrue F.writable }
        requires defs { AreDefs defs.now }
        requires row { (row : SizedRow) × IsPrepared defs.now row next.now }
        requires written { (choose : ℕ → Bool) × (rows : List SizedRow)
            × HasWritten defs.now choose rows self.old }
        ensures added { OnOk result ((row : SizedRow) → IsPrepared defs.now row next.now
            → Adds defs.now (is_chosen flags.now (length self.old.pointers)) row
            self.old self.new) }
        ensures written { OnOk result (Told (F.holds files.old) (F.holds files.new)
            (λ m n. (row : SizedRow) → IsPrepared defs.now row next.now
            → WritesIf defs.now file.now (is_chosen flags.now (length self.old.pointers)) row
            self.old m n)) }
        ensures ends { EndsIn file.now (F.holds files.old) (F.holds files.new)
            (F.faults files.old) (F.faults files.new) result }
    {
        if is_set(flags, self.pointers.len()) {
            return self.put(files, file, defs, next);
        }
        self.leave_out()?;
        Ok(())
    }
}

// Whether the flag of that number is set.
fn is_set(flags: &[bool], number: usize) -> bool
    ensures { result ≡ is_chosen flags.now number }
{
    flags.get(number).copied().unwrap_or(false)
}

// The pointer of the row at a place of the data file.
fn pointer(defs: &Defs, at: u64) -> u64
    requires { IsSound defs.now }
    ensures { result ≡ pointer defs.now at }
{
    match defs.format {
        RowFormat::Static => at / defs.slot_length as u64,
        RowFormat::Dynamic => at,
    }
}
