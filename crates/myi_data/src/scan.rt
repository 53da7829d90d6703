//! `DataScan`: what stands in a table's data file, one item after the other, in either format.
//!
//! It is a `SlotScan` of a static table or a `BlockScan` of a dynamic one, each with the table's
//! definitions as the test of what packs a row. Where it stands, and so what of the file is left, is its
//! model, a `TableScan` of `specs/Scanning`, the same for both. Nothing is known of bytes that were not
//! read: each call is told that the file is as the one before left it.
ghost use Rattle.std.specs.Prelude.{◌≡◌, IfOk};
ghost use Rattle.std.specs.Borrow.{sem};
ghost use Rattle.std.specs.Io.BufRead.{Rests};
ghost use Rattle.myi_base.specs.Holding.{IfTold};
ghost use Rattle.myi_base.specs.Causes.{HasCause};
ghost use Rattle.myi_chain.specs.declared.piece.ScanFault.TheVariants.{File};
ghost use Rattle.myi_chain.specs.declared.piece.Wanted.TheVariants.{Items, Rows};
ghost use Rattle.myi_data.specs.Scanning.{IsAsKnown, FindsInTable, AfterTable};

use crate::blocks::BlockScan;
use crate::row_test::RowTest;
use crate::slots::SlotScan;
use myi_chain::{Item, Piece, ScanFault, ScanSetup, Wanted};
use myi_defs::{Defs, RowFormat};
use myi_io::Files;
use std::alloc::AllocError;
use std::marker::Model;

#[derive(Drop)]
enum Inner {
    Slots(SlotScan),
    Blocks(BlockScan),
}

/// A scan of the rows and the deleted blocks of a table's data file.
pub struct DataScan {
    inner: Inner,
}

impl Drop for DataScan {
    fn drop(self) {
        let DataScan { inner: _ } = self;
    }
}

impl Model for DataScan {
    ghost use Rattle.myi_data.specs.Scanning.{TableScan};
    ghost use Rattle.myi_data.specs.Inner.{scan_in, IsOfFormat};

    ghost Value = { TableScan };

    ghost view = { λ s. scan_in s.inner };

    ghost invariant = { λ s. IsOfFormat s.inner };
}

impl DataScan {
    ghost use Rattle.std.specs.Prelude.{◌≡◌, IfOk};
    ghost use Rattle.std.specs.Borrow.{sem};
    ghost use Rattle.std.specs.Io.BufRead.{Rests};
    ghost use Rattle.myi_base.specs.Holding.{IfTold};
    ghost use Rattle.myi_base.specs.Causes.{HasCause};
    ghost use Rattle.myi_chain.specs.declared.piece.ScanFault.TheVariants.{File};
    ghost use Rattle.myi_chain.specs.declared.piece.Wanted.TheVariants.{Items, Rows};
    ghost use Rattle.myi_data.specs.Scanning.{IsAsKnown, FindsInTable, AfterTable};
    ghost use Rattle.myi_defs.specs.Sound.{IsSound};
    ghost use Rattle.myi_chain.specs.ScanModel.{fresh_scan, as_items};
    ghost use Rattle.myi_data.specs.contracts.scan.DataScan.{the_row};

    /// A scan of the file of that name, of a table that the test is for. Nothing is read yet.
    pub(crate) fn new(name: &str, test: RowTest, setup: ScanSetup) -> Result<DataScan, AllocError>
        ensures { IfOk result (λ scan.
            scan ≡ fresh_scan name.now test setup.extend setup.file_len) }
    {
        let alloc = test.allocator();
        let inner = match test.format() {
            RowFormat::Static => Inner::Slots(SlotScan::new(alloc, name, test, setup)?),
            RowFormat::Dynamic => Inner::Blocks(BlockScan::new(alloc, name, test, setup)?),
        };
        Ok(DataScan { inner })
    }

    /// A scan of the whole file of that name, of a table with these definitions; the file's length is
    /// given, whatever a header says of it. Nothing is read yet.
    pub fn of_file(name: &str, defs: &Defs, setup: ScanSetup) -> Result<DataScan, AllocError>
        requires { IsSound defs.now }
        ensures { IfOk result (λ scan.
            scan ≡ fresh_scan name.now defs.now setup.extend setup.file_len) }
    {
        DataScan::new(name, RowTest::new(defs)?, setup)
    }

    // The next row or deleted block that is wanted, and None where none is left.
    fn next_wanted<F: Files>(
        &mut self,
        files: &mut F,
        wanted: Wanted,
    ) -> Result<Option<Item<'_>>, ScanFault>
        requires { IfTold (F.holds files.old) (IsAsKnown self.old) }
        ensures says { FindsInTable wanted (F.holds files.old) self.old result }
        ensures holds { F.holds files.new ≡ F.holds files.old }
        ensures cause { HasCause File (F.faults files.old) (F.faults files.new) result }
        ensures* after { sem 𝓛 (Rests the_row self.entry
            (AfterTable wanted (F.holds files.old) self.old result)) }
    {
        match &mut self.inner {
            Inner::Slots(scan) => scan.next_wanted(files, wanted),
            Inner::Blocks(scan) => scan.next_wanted(files, wanted),
        }
    }

    /// The next row or deleted block, and None where none is left. In a static table a slot whose first
    /// byte is 0 is a deleted block. Deleted blocks come as they are passed, also those that a later
    /// row's block meets. A row is lent where it is one block or slot of at most 131,072 bytes. After an
    /// error the scan stands where it stood, and the next call answers as this one would have.
    pub fn next_item<F: Files>(&mut self, files: &mut F) -> Result<Option<Item<'_>>, ScanFault>
        requires { IfTold (F.holds files.old) (IsAsKnown self.old) }
        ensures says { FindsInTable Items (F.holds files.old) self.old result }
        ensures holds { F.holds files.new ≡ F.holds files.old }
        ensures cause { HasCause File (F.faults files.old) (F.faults files.new) result }
        ensures* after { sem 𝓛 (Rests the_row self.entry
            (AfterTable Items (F.holds files.old) self.old result)) }
    {
        self.next_wanted(files, Wanted::Items)
    }

    /// The next row with its position, and None where no row is left: as `next_item`, with deleted blocks
    /// passed.
    pub fn next_row<F: Files>(
        &mut self,
        files: &mut F,
    ) -> Result<Option<(u64, Piece<'_>)>, ScanFault>
        requires { IfTold (F.holds files.old) (IsAsKnown self.old) }
        ensures says { FindsInTable Rows (F.holds files.old) self.old (as_items result) }
        ensures holds { F.holds files.new ≡ F.holds files.old }
        ensures cause { HasCause File (F.faults files.old) (F.faults files.new) result }
        ensures* after { sem 𝓛 (Rests the_row self.entry
            (AfterTable Rows (F.holds files.old) self.old (as_items result))) }
    {
        let Some(item) = self.next_wanted(files, Wanted::Rows)? else {
            return Ok(None);
        };
        match item {
            Item::Row(at, piece) => Ok(Some((at, piece))),
            Item::Free { .. } => unreachable!(),
        }
    }

    /// The blocks of the row that was answered last, each by its place and its size in bytes, in the
    /// order of its chain; of a static table the slot. Before the first row there are none.
    pub fn blocks(&self) -> &[(u64, u32)]
        ensures { result.now ≡ self.now.blocks }
    {
        match &self.inner {
            Inner::Slots(scan) => scan.blocks(),
            Inner::Blocks(scan) => scan.blocks(),
        }
    }
}
