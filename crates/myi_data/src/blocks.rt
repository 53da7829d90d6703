//! `BlockScan`: the blocks of a dynamic table's data file, seen as a scan of a table.
ghost use Rattle.std.specs.Prelude.{◌≡◌, IfOk};
ghost use Rattle.std.specs.Borrow.{sem};
ghost use Rattle.std.specs.Io.BufRead.{Rests};
ghost use Rattle.myi_base.specs.Holding.{IfTold};
ghost use Rattle.myi_base.specs.Causes.{HasCause};
ghost use Rattle.myi_defs.specs.declared.types.RowFormat.TheVariants.{Dynamic};
ghost use Rattle.myi_chain.specs.declared.piece.ScanFault.TheVariants.{File};
ghost use Rattle.myi_data.specs.Scanning.{IsAsKnown, FindsInTable, AfterTable};

use crate::row_test::RowTest;
use myi_chain::{Item, Scan, ScanFault, ScanSetup, Wanted};
use myi_io::Files;
use std::alloc::{AllocError, Global};
use std::marker::Model;

/// A scan of the blocks of a data file.
#[derive(Drop)]
pub(crate) struct BlockScan {
    scan: Scan<RowTest>,
}

impl Model for BlockScan {
    ghost use Rattle.std.specs.Prelude.{◌≡◌};
    ghost use Rattle.myi_defs.specs.declared.types.RowFormat.TheVariants.{Dynamic};
    ghost use Rattle.myi_data.specs.Scanning.{TableScan};

    ghost Value = { TableScan };

    ghost view = { λ s. s.scan };

    ghost invariant = { λ s. s.scan.test.format ≡ Dynamic };
}

impl BlockScan {
    ghost use Rattle.std.specs.Prelude.{◌≡◌, IfOk};
    ghost use Rattle.std.specs.Borrow.{sem};
    ghost use Rattle.std.specs.Io.BufRead.{Rests};
    ghost use Rattle.myi_base.specs.Holding.{IfTold};
    ghost use Rattle.myi_base.specs.Causes.{HasCause};
    ghost use Rattle.myi_defs.specs.declared.types.RowFormat.TheVariants.{Dynamic};
    ghost use Rattle.myi_chain.specs.declared.piece.ScanFault.TheVariants.{File};
    ghost use Rattle.myi_data.specs.Scanning.{IsAsKnown, FindsInTable, AfterTable};
    ghost use Rattle.myi_chain.specs.ScanModel.{fresh_scan};
    ghost use Rattle.myi_data.specs.contracts.blocks.BlockScan.{the_row};

    /// A scan of the file of that name, of a dynamic table that the test is for. Nothing is read yet.
    pub(crate) fn new(
        alloc: Global,
        name: &str,
        test: RowTest,
        setup: ScanSetup,
    ) -> Result<BlockScan, AllocError>
        requires { test.format ≡ Dynamic }
        ensures { IfOk result (λ scan.
            scan ≡ fresh_scan name.now test setup.extend setup.file_len) }
    {
        let scan = Scan::new(alloc, name, test, setup)?;
        Ok(BlockScan { scan })
    }

    /// The next row or deleted block that is wanted, and None where none is left.
    pub(crate) fn next_wanted<F: Files>(
        &mut self,
        files: &mut F,
        wanted: Wanted,
    ) -> Result<Option<Item<'_>>, ScanFault>
        requires { IfTold (F.holds files.old) (IsAsKnown self.old) }
        ensures says { FindsInTable wanted (F.holds files.old) self.old result }
        ensures holds { F.holds files.new ≡ F.holds files.old }
        ensures cause { HasCause File (F.faults files.old) (F.faults files.new) result }
        ensures* after { sem 𝓛 (Rests the_row self.entry
            (AfterTable wanted (F.holds files.old) self.old result)) }
    {
        self.scan.next_wanted(files, wanted)
    }

    /// The blocks of the row that was answered last.
    pub(crate) fn blocks(&self) -> &[(u64, u32)]
        ensures { result.now ≡ self.now.blocks }
    {
        self.scan.blocks()
    }
}
