//! Filling the working files of a table row by row.
ghost use Rattle.std.specs.Prelude.{◌≡◌, ◌≢◌, ◌<◌, ◌≤◌, ◌^◌, true, length, IfOk, IfErr, IsTrue};
ghost use Rattle.std.specs.List.{AllByRecursion};
ghost use Rattle.myi_base.specs.Holding.{IfTold, Told};
ghost use Rattle.myi_base.specs.Causes.{HasCause};
ghost use Rattle.myi_base.specs.Numbers.{AreBytes};
ghost use Rattle.myi_defs.specs.Addressable.{is_addressable};
ghost use Rattle.myi_defs.specs.ReadDefs.{AreDefs};
ghost use Rattle.myi_data.specs.Scanning.{IsAsKnown};
ghost use Rattle.myi_repair.specs.declared.fault.RepairFault.TheVariants as repair;
ghost use Rattle.myi_repair.specs.Names.{names_of, AreApart};
ghost use Rattle.myi_repair.specs.Opening.{HasTable};
ghost use Rattle.myi_repair.specs.Keeping.{AreStorable};
ghost use Rattle.myi_repair.specs.Gathering.{sized_ahead};
ghost use Rattle.myi_saferepair.specs.declared.fault.Stop.TheVariants.{Cut};
ghost use Rattle.myi_saferepair.specs.Stops.{TellsOfNone};
ghost use Rattle.myi_saferepair.specs.Filling.{IsFresh, IsFit, Took, RootFits, Fills, WritesBoth};

use crate::fault::Stop;
use crate::new_files::NewFiles;
use crate::row_pairs::RowPairs;
use myi_base::Sequence;
use myi_chain::ScanSetup;
use myi_data::DataScan;
use myi_defs::Defs;
use myi_io::Files;
use myi_opening::OpenedTable;
use myi_repair::{Gathered, NextRow, Report, TableFiles};
use std::alloc::Global;

/// The new files of a table, whole but for the header of the index file.
pub(crate) struct Filled {
    /// The numbers of what is kept, with no list of pairs.
    pub(crate) gathered: Gathered,
    pub(crate) roots: Vec<Option<u64>>,
    /// The place behind the pages.
    pub(crate) end: u64,
}

impl Drop for Filled {
    fn drop(self) {
        let Filled {
            gathered: _,
            roots: _,
            end: _,
        } = self;
    }
}

/// Fills the working files of a table that was opened. The table's two files stay.
pub(crate) fn fill<F: Files>(
    alloc: Global,
    files: &mut F,
    table: &TableFiles,
    opened: OpenedTable,
    extend: bool,
) -> Result<Filled, Stop>
    requires writable { IsTrue F.writable }
    requires apart { AreApart (names_of table.now) }
    requires defs { AreDefs opened.defs }
    requires header { AreBytes opened.defs.raw }
    requires reached { is_addressable opened.defs opened.length ≡ true }
    requires table { IfTold (F.holds files.old)
        (HasTable (names_of table.now) opened.defs opened.length) }
    ensures filled { IfOk result (λ f. Told (F.holds files.old) (F.holds files.new)
        (Fills (names_of table.now) extend f)) }
    ensures defs { IfOk result (λ f. AreDefs f.gathered.defs) }
    ensures header { IfOk result (λ f. AreBytes f.gathered.defs.raw) }
    ensures roots { IfOk result (λ f. length f.roots.items ≡ length f.gathered.defs.keys) }
    ensures fits { IfOk result (λ f. AllByRecursion RootFits f.roots.items) }
    ensures end { IfOk result (λ f. f.end < 256 ^ 8) }
    ensures others { Told (F.holds files.old) (F.holds files.new)
        (WritesBoth (names_of table.now).new_rows (names_of table.now).new_index) }
    ensures cut { IfErr result TellsOfNone }
    ensures cause { HasCause (Cut repair.File) (F.faults files.old) (F.faults files.new) result }
{
    let OpenedTable { defs, length } = opened;
    let setup = ScanSetup {
        extend,
        file_len: length,
    };
    let mut scan = DataScan::of_file(table.rows.as_str(), &defs, setup)?;
    let index = table.new_index.as_str();
    files.cut(index, 0)?;
    let mut new = NewFiles::new(alloc, index, &defs)?;
    let file = table.new_rows.as_str();
    let repeats = take_rows(alloc, files, &mut scan, file, &defs, &mut new)?;
    let roots = new.write_trees(alloc, files)?;
    let gathered = gathered_of(alloc, defs, length, &new, repeats);
    let end = new.trees.end();
    Ok(Filled {
        gathered,
        roots,
        end,
    })
}

// The numbers of what was written, with no list of pairs.
fn gathered_of(alloc: Global, defs: Defs, old_length: u64, new: &NewFiles, repeats: u64) -> Gathered
    ensures defs { result.defs ≡ defs }
    ensures report { result.report ≡ record {
      kept = new.now.rows.kept;
      repeats = repeats;
      old_length = old_length;
      new_length = new.now.rows.end;
    } }
    ensures split { result.split ≡ new.now.rows.split }
{
    Gathered {
        defs,
        report: Report {
            kept: new.rows.kept,
            repeats,
            old_length,
            new_length: new.rows.end,
        },
        split: new.rows.split,
        pairs: Sequence::new(Vec::new(alloc)),
    }
}

// Takes the rows that a scan has left, into a file that is made anew, and answers how many repeat the unique key of one
// that was written.
fn take_rows<F: Files>(
    alloc: Global,
    files: &mut F,
    scan: &mut DataScan,
    file: &str,
    defs: &Defs,
    new: &mut NewFiles,
) -> Result<u64, Stop>
    requires writable { IsTrue F.writable }
    requires apart { scan.old.name ≢ file.now }
    requires index { scan.old.name ≢ new.old.trees.cache.name }
    requires both { new.old.trees.cache.name ≢ file.now }
    requires current { IfTold (F.holds files.old) (IsAsKnown scan.old) }
    requires test { scan.old.test ≡ defs.now }
    requires short { scan.old.end ≤ 2 ^ 40 }
    requires defs { AreDefs defs.now }
    requires storable { IfTold (F.holds files.old) (λ m. AreStorable defs.now (sized_ahead scan.old m)) }
    requires fresh { IsFresh defs.now new.old.trees.cache.name new.old }
    ensures took { IfOk result (λ repeats. Told (F.holds files.old) (F.holds files.new)
        (Took defs.now scan.old file.now repeats new.new)) }
    ensures fit { IfOk result (λ repeats. IsFit defs.now new.new) }
    ensures name { IfOk result (λ repeats. new.new.trees.cache.name ≡ new.old.trees.cache.name) }
    ensures others { Told (F.holds files.old) (F.holds files.new)
        (WritesBoth file.now new.old.trees.cache.name) }
    ensures cut { IfErr result TellsOfNone }
    ensures cause { HasCause (Cut repair.File) (F.faults files.old) (F.faults files.new) result }
{
    let mut next = NextRow::new(alloc);
    let mut pairs = RowPairs::new(alloc, defs)?;
    files.cut(file, 0)?;
    let mut repeats = 0;
    while next.read(files, scan, defs)? {
        if !new.take(files, file, defs, &next, &mut pairs)? {
            repeats += 1;
        }
    }
    Ok(repeats)
}
