//! `SlotScan`: the slots of a static table's data file, one after the other, through a window.
//!
//! A row is lent as a slice of the window; one that is longer than a window is read whole into a
//! buffer of the scan. No memory is taken once the scan is made. Where it stands, and so what of the
//! file is left, is its model, a `TableScan` of `specs/Scanning`.
ghost use Rattle.std.specs.Prelude.{◌≡◌, IfOk};
ghost use Rattle.std.specs.Borrow.{sem};
ghost use Rattle.std.specs.Io.BufRead.{Rests};
ghost use Rattle.myi_base.specs.Holding.{IfTold};
ghost use Rattle.myi_base.specs.Causes.{HasCause};
ghost use Rattle.myi_defs.specs.declared.types.RowFormat.TheVariants.{Static};
ghost use Rattle.myi_chain.specs.declared.piece.ScanFault.TheVariants.{File};
ghost use Rattle.myi_data.specs.Scanning.{IsAsKnown, FindsInTable, AfterTable};

use crate::next_slot::{NextSlot, SlotFile, next_slot, slot_at};
use crate::row_test::RowTest;
use crate::slot_bytes::SlotBytes;
use myi_chain::{Item, ScanFault, ScanSetup, Wanted};
use myi_io::Files;
use std::alloc::{AllocError, Global};
use std::marker::Model;

/// A scan of the slots of a data file.
pub(crate) struct SlotScan {
    name: String,
    test: RowTest,
    extend: bool,
    end: u64,
    /// From where on in the file slots are left.
    place: u64,
    bytes: SlotBytes,
    /// The slot of the row answered last, by its place and its length.
    last: Option<(u64, u32)>,
}

impl Drop for SlotScan {
    fn drop(self) {
        let SlotScan {
            name: _,
            test: _,
            extend: _,
            end: _,
            place: _,
            bytes: _,
            last: _,
        } = self;
    }
}

impl Model for SlotScan {
    ghost use Rattle.std.specs.Prelude.{◌≡◌, ◌≤◌, ◌<◌, ◌^◌, [], string_bytes, option_to_list};
    ghost use Rattle.myi_defs.specs.declared.types.RowFormat.TheVariants.{Static};
    ghost use Rattle.myi_window.specs.Excerpt.{EndsBy};
    ghost use Rattle.myi_data.specs.Scanning.{TableScan};

    ghost Value = { TableScan };

    ghost view = { λ s. record {
      name = string_bytes s.name;
      test = s.test;
      extend = s.extend;
      end = s.end;
      place = s.place;
      used = [];
      blocks = option_to_list s.last;
      kept = s.bytes.held;
    } };

    ghost invariant = { λ s. (s.test.format ≡ Static) × (0 < s.test.slot_length)
        × (s.bytes.size ≡ s.test.slot_length) × (s.place ≤ s.end) × EndsBy s.end s.bytes.held
        × (s.end < 2 ^ 64) };
}

impl SlotScan {
    ghost use Rattle.std.specs.Prelude.{◌≡◌, IfOk};
    ghost use Rattle.std.specs.Borrow.{sem};
    ghost use Rattle.std.specs.Io.BufRead.{Rests};
    ghost use Rattle.myi_base.specs.Holding.{IfTold};
    ghost use Rattle.myi_base.specs.Causes.{HasCause};
    ghost use Rattle.myi_defs.specs.declared.types.RowFormat.TheVariants.{Static};
    ghost use Rattle.myi_chain.specs.declared.piece.ScanFault.TheVariants.{File};
    ghost use Rattle.myi_data.specs.Scanning.{IsAsKnown, FindsInTable, AfterTable};
    ghost use Rattle.myi_chain.specs.ScanModel.{fresh_scan};
    ghost use Rattle.myi_data.specs.contracts.slots.SlotScan.{the_row};

    /// A scan of the file of that name, of a static table that the test is for. Its memory is taken,
    /// and nothing is read yet.
    pub(crate) fn new(
        alloc: Global,
        name: &str,
        test: RowTest,
        setup: ScanSetup,
    ) -> Result<SlotScan, AllocError>
        requires { test.format ≡ Static }
        ensures { IfOk result (λ scan.
            scan ≡ fresh_scan name.now test setup.extend setup.file_len) }
    {
        let name = String::from_str(alloc, name)?;
        let bytes = SlotBytes::new(alloc, test.slot_length() as usize)?;
        Ok(SlotScan {
            name,
            test,
            extend: setup.extend,
            end: setup.file_len,
            place: 0,
            bytes,
            last: None,
        })
    }

    /// The next slot that is wanted, a row or deleted, and None where none is left.
    pub(crate) fn next_wanted<F: Files>(
        &mut self,
        files: &mut F,
        wanted: Wanted,
    ) -> Result<Option<Item<'_>>, ScanFault>
        requires { IfTold (F.holds files.old) (IsAsKnown self.old) }
        ensures says { FindsInTable wanted (F.holds files.old) self.old result }
        ensures holds { F.holds files.new ≡ F.holds files.old }
        ensures cause { HasCause File (F.faults files.old) (F.faults files.new) result }
        ensures* after { sem 𝓛 (Rests the_row self.entry
            (AfterTable wanted (F.holds files.old) self.old result)) }
    {
        let size = self.test.slot_length() as usize;
        let file = SlotFile {
            name: self.name.as_str(),
            test: &self.test,
            size,
            end: self.end,
        };
        let Some(slot) = next_slot(files, &file, &mut self.bytes, &mut self.place, wanted)? else {
            return Ok(None);
        };
        match slot {
            NextSlot::Free(at) => Ok(Some(Item::Free {
                at,
                size: size as u32,
            })),
            NextSlot::Row(at) => {
                self.last = Some((at, size as u32));
                Ok(Some(Item::Row(at, slot_at(&self.bytes, at, size))))
            }
        }
    }

    /// The slot of the row that was answered last.
    pub(crate) fn blocks(&self) -> &[(u64, u32)]
        ensures { result.now ≡ self.now.blocks }
    {
        self.last.as_slice()
    }
}
