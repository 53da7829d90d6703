//! Gathering: the rows that are kept, in the working data file, and the pairs of their keys.
ghost use Rattle.std.specs.Prelude.{◌≡◌, ◌≢◌, ◌⊎◌, ◌≤◌, ◌-◌, ℕ, Bool, List, true, length, map};
ghost use Rattle.std.specs.Prelude.{IfOk, OnOk, IsTrue};
ghost use Rattle.myi_base.specs.Holding.{IfTold, Told};
ghost use Rattle.myi_base.specs.Numbers.{AreBytes};
ghost use Rattle.myi_defs.specs.Addressable.{is_addressable};
ghost use Rattle.myi_defs.specs.ReadDefs.{AreDefs};
ghost use Rattle.myi_defs.specs.Sound.{IsSound};
ghost use Rattle.myi_chain.specs.ScanModel.{fresh_scan};
ghost use Rattle.myi_data.specs.Scanning.{IsAsKnown};
ghost use Rattle.myi_data.specs.Stored.{SizedRow};
ghost use Rattle.myi_keylist.specs.Columns.{pointed};
ghost use Rattle.myi_rowkeys.specs.TableKeys.{row_keys};
ghost use Rattle.myi_rowkeys.specs.RowLists.{with_pairs, number_pairs};
ghost use Rattle.myi_repair.specs.Names.{names_of, names_for, AreApart, KeepsBoth};
ghost use Rattle.myi_repair.specs.Opening.{HasTable};
ghost use Rattle.myi_repair.specs.Outcome.{Ends, EndsIn};
ghost use Rattle.myi_repair.specs.Sized.{AreSizedPairs};
ghost use Rattle.myi_repair.specs.Keeping.{is_chosen, AreStorable, IsPrepared, HasWritten, Adds, WritesIf};
ghost use Rattle.myi_repair.specs.Gathering.{all_chosen, IsOfRows, Gathers, TakesChosen, TakesAll};

use crate::fault::RepairFault;
use crate::names::TableFiles;
use crate::new_rows::NewRows;
use crate::next_row::NextRow;
use crate::opening::open_reached;
use crate::report::Report;
use myi_base::Sequence;
use myi_chain::ScanSetup;
use myi_data::DataScan;
use myi_defs::Defs;
use myi_io::Files;
use myi_keylist::PairList;
use myi_opening::OpenedTable;
use myi_pack::view_packed;
use myi_rowkeys::RowKeys;
use std::alloc::{AllocError, Global};

/// What gathering found in a table.
pub struct Gathered {
    pub defs: Defs,
    pub report: Report,
    /// The number of blocks of the new data file.
    pub split: u64,
    /// For each key the pairs of the kept rows with their new pointers, in any order.
    pub pairs: Sequence<PairList>,
}

impl Drop for Gathered {
    fn drop(self) {
        let Gathered {
            defs: _,
            report: _,
            split: _,
            pairs: _,
        } = self;
    }
}

/// Writes the rows of a table that a repair keeps into its working data file, `NAME.TMD`, which is made
/// anew. `extend` has every position of a dynamic table tried. After a refusal the table's two files are
/// as before; where gathering was cut off once the table was opened, the working files are taken away.
pub fn gather<F: Files>(
    alloc: Global,
    files: &mut F,
    name: &str,
    extend: bool,
) -> Result<Gathered, RepairFault>
    requires { IsTrue F.writable }

    // What was gathered, and what the working data file holds then.
    ensures gathered { IfOk result (λ g. Told (F.holds files.old) (F.holds files.new)
        (Gathers (names_for name.now) extend g)) }
    ensures defs { IfOk result (λ g. AreDefs g.defs) }
    ensures header { IfOk result (λ g. AreBytes g.defs.raw) }
    ensures pairs { IfOk result (λ g. AreSizedPairs g.defs g.pairs) }

    // The table's two files are as before; so is a working index file where all was gathered.
    ensures both { Told (F.holds files.old) (F.holds files.new) (KeepsBoth (names_for name.now)) }
    ensures index { OnOk result (Told (F.holds files.old) (F.holds files.new)
        (λ m n. n (names_for name.now).new_index ≡ m (names_for name.now).new_index)) }

    // Why a table is refused, and what is left then; other files stay.
    ensures ends { Ends (names_for name.now) (F.holds files.old) (F.holds files.new)
        (F.faults files.old) (F.faults files.new) result }
{
    let table = TableFiles::of(alloc, name)?;
    gather_table(alloc, files, &table, extend)
}

/// The same for the table of these files.
pub fn gather_table<F: Files>(
    alloc: Global,
    files: &mut F,
    table: &TableFiles,
    extend: bool,
) -> Result<Gathered, RepairFault>
    requires writable { IsTrue F.writable }
    requires apart { AreApart (names_of table.now) }
    ensures gathered { IfOk result (λ g. Told (F.holds files.old) (F.holds files.new)
        (Gathers (names_of table.now) extend g)) }
    ensures defs { IfOk result (λ g. AreDefs g.defs) }
    ensures header { IfOk result (λ g. AreBytes g.defs.raw) }
    ensures pairs { IfOk result (λ g. AreSizedPairs g.defs g.pairs) }
    ensures both { Told (F.holds files.old) (F.holds files.new) (KeepsBoth (names_of table.now)) }
    ensures index { OnOk result (Told (F.holds files.old) (F.holds files.new)
        (λ m n. n (names_of table.now).new_index ≡ m (names_of table.now).new_index)) }
    ensures ends { Ends (names_of table.now) (F.holds files.old) (F.holds files.new)
        (F.faults files.old) (F.faults files.new) result }
{
    let opened = open_reached(alloc, files, table)?;
    match gather_opened(alloc, files, table, opened, extend) {
        Ok(gathered) => Ok(gathered),
        Err(fault) => {
            table.clear(files);
            Err(fault)
        }
    }
}

// Gathers the rows of a table that can be repaired. All are written, as if none repeated another; where some
// do, the kept ones are written again.
fn gather_opened<F: Files>(
    alloc: Global,
    files: &mut F,
    table: &TableFiles,
    opened: OpenedTable,
    extend: bool,
) -> Result<Gathered, RepairFault>
    requires writable { IsTrue F.writable }
    requires apart { AreApart (names_of table.now) }
    requires defs { AreDefs opened.defs }
    requires header { AreBytes opened.defs.raw }
    requires reached { is_addressable opened.defs opened.length ≡ true }
    requires table { IfTold (F.holds files.old)
        (HasTable (names_of table.now) opened.defs opened.length) }
    ensures gathered { IfOk result (λ g. Told (F.holds files.old) (F.holds files.new)
        (Gathers (names_of table.now) extend g)) }
    ensures defs { IfOk result (λ g. AreDefs g.defs) }
    ensures header { IfOk result (λ g. AreBytes g.defs.raw) }
    ensures pairs { IfOk result (λ g. AreSizedPairs g.defs g.pairs) }
    ensures ends { EndsIn (names_of table.now).new_rows (F.holds files.old) (F.holds files.new)
        (F.faults files.old) (F.faults files.new) result }
{
    let OpenedTable { defs, length } = opened;
    let file = table.new_rows.as_str();
    let setup = ScanSetup {
        extend,
        file_len: length,
    };
    let mut scan = scan_of(table, &defs, setup)?;
    let (rows, mut keys) = take_rows(alloc, files, &mut scan, file, &defs)?;
    keys.sort_unique(&defs);
    if !keys.has_repeat(&defs) {
        return Ok(into_gathered(defs, length, rows, keys));
    }
    let flags = keys.keep_first(alloc, &defs, rows.pointers.len())?;
    let mut again = scan_of(table, &defs, setup)?;
    let kept = keep_rows(alloc, files, &mut again, file, &defs, &flags)?;
    keys.retain(&flags);
    Ok(into_gathered(defs, length, kept, keys))
}

// What was gathered, of lists that have rows by their numbers.
fn into_gathered(defs: Defs, old_length: u64, rows: NewRows, mut keys: RowKeys) -> Gathered
    requires { rows.kept ≤ length rows.pointers }
    ensures { result ≡ record {
      defs = defs;
      report = record {
        kept = rows.kept;
        repeats = length rows.pointers - rows.kept;
        old_length = old_length;
        new_length = rows.end;
      };
      split = rows.split;
      pairs = map (map (pointed rows.pointers)) keys;
    } }
{
    keys.point(&rows.pointers);
    Gathered {
        defs,
        report: Report {
            kept: rows.kept,
            repeats: rows.pointers.len() as u64 - rows.kept,
            old_length,
            new_length: rows.end,
        },
        split: rows.split,
        pairs: keys.into_lists(),
    }
}

/// What was gathered of rows that were all written, of which none repeats another, and the pairs of their keys
/// by their numbers.
pub fn gathered_of_all(defs: Defs, old_length: u64, rows: NewRows, mut keys: RowKeys) -> Gathered
    requires sound { IsSound defs }
    requires written { (all : List SizedRow) × HasWritten defs all_chosen all rows
        × (keys ≡ number_pairs defs all) }
    ensures defs { result.defs ≡ defs }
    ensures length { result.report.old_length ≡ old_length }
    ensures pairs { AreSizedPairs result.defs result.pairs }
    ensures rows { (all : List SizedRow) → HasWritten defs all_chosen all rows
        → keys ≡ number_pairs defs all → AreStorable defs all
        → IsOfRows all result × (result.report.repeats ≡ 0) }
{
    keys.sort_unique(&defs);
    into_gathered(defs, old_length, rows, keys)
}

// Writes the rows that a scan has left into a file, which is made anew, and notes the pairs of their keys.
fn take_rows<F: Files>(
    alloc: Global,
    files: &mut F,
    scan: &mut DataScan,
    file: &str,
    defs: &Defs,
) -> Result<(NewRows, RowKeys), RepairFault>
    requires writable { IsTrue F.writable }
    requires apart { scan.old.name ≢ file.now }
    requires current { IfTold (F.holds files.old) (IsAsKnown scan.old) }
    requires test { scan.old.test ≡ defs.now }
    requires defs { AreDefs defs.now }
    ensures took { IfOk result (λ r. TakesAll defs.now scan.old file.now r.0 r.1
        (F.holds files.old) (F.holds files.new)) }
    ensures ends { EndsIn file.now (F.holds files.old) (F.holds files.new)
        (F.faults files.old) (F.faults files.new) result }
{
    files.cut(file, 0)?;
    let mut next = NextRow::new(alloc);
    let mut rows = NewRows::new(alloc);
    let mut keys = RowKeys::new(alloc, defs.keys.as_slice().len())?;
    while next.read(files, scan, defs)? {
        take_row(files, file, defs, &next, &mut rows, &mut keys)?;
    }
    Ok((rows, keys))
}

/// Writes a row at the end of the file, and notes the pairs of its keys with its number.
pub fn take_row<F: Files>(
    files: &mut F,
    file: &str,
    defs: &Defs,
    next: &NextRow,
    rows: &mut NewRows,
    keys: &mut RowKeys,
) -> Result<(), RepairFault>
    requires writable { IsTrue F.writable }
    requires defs { AreDefs defs.now }
    requires row { (row : SizedRow) × IsPrepared defs.now row next.now }
    requires written { (choose : ℕ → Bool) × (came : List SizedRow)
        × HasWritten defs.now choose came rows.old }
    requires all { length keys.old ≡ length defs.now.keys }
    ensures keys { OnOk result ((row : SizedRow) → IsPrepared defs.now row next.now → keys.new
        ≡ with_pairs (length rows.old.pointers) (row_keys defs.now row.values) keys.old) }
    ensures added { OnOk result ((row : SizedRow) → IsPrepared defs.now row next.now
        → Adds defs.now true row rows.old rows.new) }
    ensures written { OnOk result (Told (F.holds files.old) (F.holds files.new)
        (λ m n. (row : SizedRow) → IsPrepared defs.now row next.now
        → WritesIf defs.now file.now true row rows.old m n)) }
    ensures ends { EndsIn file.now (F.holds files.old) (F.holds files.new)
        (F.faults files.old) (F.faults files.new) result }
{
    let row = view_packed(defs, &next.bytes);
    keys.push(defs, &row, rows.pointers.len() as u64)?;
    rows.put(files, file, defs, next)
}

// Writes of the rows that a scan has left those whose flag is set into a file, which is made anew.
fn keep_rows<F: Files>(
    alloc: Global,
    files: &mut F,
    scan: &mut DataScan,
    file: &str,
    defs: &Defs,
    flags: &[bool],
) -> Result<NewRows, RepairFault>
    requires writable { IsTrue F.writable }
    requires apart { scan.old.name ≢ file.now }
    requires current { IfTold (F.holds files.old) (IsAsKnown scan.old) }
    requires test { scan.old.test ≡ defs.now }
    requires defs { AreDefs defs.now }
    ensures took { IfOk result (λ w. TakesChosen defs.now scan.old file.now (is_chosen flags.now) w
        (F.holds files.old) (F.holds files.new)) }
    ensures ends { EndsIn file.now (F.holds files.old) (F.holds files.new)
        (F.faults files.old) (F.faults files.new) result }
{
    files.cut(file, 0)?;
    let mut next = NextRow::new(alloc);
    let mut rows = NewRows::new(alloc);
    while next.read(files, scan, defs)? {
        rows.put_chosen(files, file, defs, &next, flags)?;
    }
    Ok(rows)
}

// A scan of the table's data file.
fn scan_of(table: &TableFiles, defs: &Defs, setup: ScanSetup) -> Result<DataScan, AllocError>
    requires { IsSound defs.now }
    ensures { IfOk result (λ scan.
        scan ≡ fresh_scan (names_of table.now).rows defs.now setup.extend setup.file_len) }
{
    DataScan::of_file(table.rows.as_str(), defs, setup)
}
