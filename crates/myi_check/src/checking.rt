//! The check of a table.
//!
//! `check` opens the table, and then goes through the data file once (`rows`), follows the list of deleted
//! blocks (`list`) and walks the tree of each key (`asking`, and where that does not serve, behind another pass for
//! the keys of all rows, `keys`). What the header says is compared with
//! what these found (`header`). The sections' findings are put together at the end.
ghost use Rattle.std.specs.Prelude.{◌≡◌, ◌≢◌, ◌⊎◌, ◌++◌, ℕ, false, List, [], length, map, Some, IfOk, IfErr};
ghost use Rattle.std.specs.Option.{option_to_list};
ghost use Rattle.myi_base.specs.Holding.{IfTold, Measures};
ghost use Rattle.myi_base.specs.Causes.{HasCause};
ghost use Rattle.myi_defs.specs.ReadDefs.{AreDefs};
ghost use Rattle.myi_header.specs.StateOf.{state_of};
ghost use Rattle.myi_opening.specs.Opening.{HasTable, HasNoTable, IsCutOff};
ghost use Rattle.myi_pair.specs.declared.finding.Finding.TheVariants as finding;
ghost use Rattle.myi_check.specs.Checking.{Finds, Refuses, AreFindings};
ghost use Rattle.myi_check.specs.Rows.{rows_in};
ghost use Rattle.myi_check.specs.Keys.{HasKeys, FindsKeys};
ghost use Rattle.myi_check.specs.Sections.{AreInOrder, AreInSections};

use crate::asking::ask_keys;
use crate::header::{Shown, StoredHeader, header_item, room_left, stored_header};
use crate::keys::{KeysFound, check_keys};
use crate::list::check_list;
use crate::rows::{RowsFound, ScannedFile, find_rows};
use myi_defs::DefFault;
use myi_io::Files;
use myi_opening::{OpenedTable, TableFault, TableFile, open_table};
use myi_pair::{Finding, HeaderItem};
use std::alloc::{AllocError, Global};

/// Says what is wrong with the files of a table, and changes none: nothing exactly where they are a
/// clean pair.
pub fn check<F: Files>(alloc: Global, files: &mut F, name: &str) -> Result<Vec<Finding>, TableFault>
    ensures findings { IfOk result (λ found.
        IfTold (F.holds files.old) (Finds name.now found.items)) }

    // At most one finding of each section, in the order of the sections, over any files.
    ensures sections { IfOk result (λ found. AreInSections found.items) }

    ensures refused { IfErr result (λ f.
        IsCutOff f ⊎ IfTold (F.holds files.old) (Refuses name.now f)) }
    ensures memory { IfErr result (λ f. f ≢ TableFault.Def DefFault.Memory) }
    ensures holds { F.holds files.new ≡ F.holds files.old }
    ensures cause { HasCause TableFault.File (F.faults files.old) (F.faults files.new) result }
{
    let index = TableFile::Index.of(alloc, name)?;
    let rows = TableFile::Data.of(alloc, name)?;
    let opened = open_table(alloc, files, index.as_str(), rows.as_str())?;
    check_opened(alloc, files, index.as_str(), rows.as_str(), &opened)
}

// The same for a table that is opened.
fn check_opened<F: Files>(
    alloc: Global,
    files: &mut F,
    index: &str,
    rows: &str,
    opened: &OpenedTable,
) -> Result<Vec<Finding>, TableFault>
    requires defs { AreDefs opened.now.defs }
    requires opened { IfTold (F.holds files.old)
        (HasTable index.now rows.now opened.now.defs opened.now.length) }
    ensures findings { IfOk result (λ found. IfTold (F.holds files.old)
        (AreFindings index.now rows.now found.items)) }
    ensures sections { IfOk result (λ found. AreInSections found.items) }
    ensures refused { IfErr result (λ f. IsCutOff f
        ⊎ IfTold (F.holds files.old) (HasNoTable index.now rows.now f)) }
    ensures memory { IfErr result (λ f. f ≢ TableFault.Def DefFault.Memory) }
    ensures holds { F.holds files.new ≡ F.holds files.old }
    ensures cause { HasCause TableFault.File (F.faults files.old) (F.faults files.new) result }
{
    let Some(size) = files.length(index)? else {
        return Err(TableFault::Absent(TableFile::Index));
    };
    check_sections(alloc, files, index, rows, opened, size)
}

// The same, where the index file has `size` bytes.
fn check_sections<F: Files>(
    alloc: Global,
    files: &mut F,
    index: &str,
    rows: &str,
    opened: &OpenedTable,
    size: u64,
) -> Result<Vec<Finding>, TableFault>
    requires defs { AreDefs opened.now.defs }
    requires opened { IfTold (F.holds files.old)
        (HasTable index.now rows.now opened.now.defs opened.now.length) }
    requires long { IfTold (F.holds files.old) (λ m. Measures (m index.now) (Some size)) }
    ensures findings { IfOk result (λ found. IfTold (F.holds files.old)
        (AreFindings index.now rows.now found.items)) }
    ensures sections { IfOk result (λ found. AreInSections found.items) }
    ensures cut { IfErr result IsCutOff }
    ensures holds { F.holds files.new ≡ F.holds files.old }
    ensures cause { HasCause TableFault.File (F.faults files.old) (F.faults files.new) result }
{
    let defs = &opened.defs;
    let header = stored_header(alloc, defs)?;
    let found = find_rows(alloc, files, rows, defs, opened.length, false)?;
    let RowsFound {
        keys: _,
        places,
        records,
        split,
        deleted,
        empty,
        gap,
    } = found;
    let head = header.state.dellink;
    let listed = check_list(files, rows, defs, opened.length, &deleted, head)?;
    let file = ScannedFile {
        name: rows,
        length: opened.length,
        records,
        places: &places,
    };
    let keys = keys_found(files, index, &file, opened, &header)?;
    let shown = Shown {
        records,
        del: deleted.len() as u64,
        split,
        key_file_length: size,
        data_file_length: opened.length,
        empty,
        key_empty: room_left(defs, size, keys.page_bytes),
    };
    let item = header_item(&header, &shown);
    Ok(all_findings(alloc, item, listed, keys.findings, gap)?)
}

// What is wrong with the keys of a table with the mark, whose data file was scanned. Those of a foreign one
// are not looked at.
fn keys_found<F: Files>(
    files: &mut F,
    index: &str,
    file: &ScannedFile<'_>,
    opened: &OpenedTable,
    header: &StoredHeader,
) -> Result<KeysFound, TableFault>
    requires defs { AreDefs opened.now.defs }
    requires long { IfTold (F.holds files.old) (λ m.
        (d : List ℕ) × (m file.now.name.now ≡ Some d) × (opened.now.length ≡ length d)) }
    requires roots { length header.now.state.roots ≡ length opened.now.defs.keys }
    ensures found { IfOk result (λ r. IfTold (F.holds files.old)
        (FindsKeys index.now file.now opened.now.defs header.now r)) }
    ensures order { IfOk result (λ r. AreInOrder 2 256 r.findings.items) }
    ensures foreign { IfOk result (λ r. header.now.marked ≡ false → r.findings.items ≡ []) }
    ensures cut { IfErr result IsCutOff }
    ensures holds { F.holds files.new ≡ F.holds files.old }
    ensures cause { HasCause TableFault.File (F.faults files.old) (F.faults files.new) result }
{
    if !header.marked {
        return Ok(KeysFound {
            findings: Vec::new(opened.defs.raw.allocator()),
            page_bytes: None,
        });
    }
    let roots = header.state.roots.as_slice();
    if let Some(found) = ask_keys(files, index, file, &opened.defs, roots)? {
        return Ok(found);
    }
    compare_keys(files, index, file.name, opened, roots)
}

// What is found in the keys, beside the sorted keys of all rows.
fn compare_keys<F: Files>(
    files: &mut F,
    index: &str,
    rows: &str,
    opened: &OpenedTable,
    roots: &[Option<u64>],
) -> Result<KeysFound, TableFault>
    requires defs { AreDefs opened.now.defs }
    requires long { IfTold (F.holds files.old) (λ m.
        (d : List ℕ) × (m rows.now ≡ Some d) × (opened.now.length ≡ length d)) }
    requires roots { length roots.now ≡ length opened.now.defs.keys }
    ensures found { IfOk result (λ r. IfTold (F.holds files.old) (λ m. (x d : List ℕ)
        → m index.now ≡ Some x → m rows.now ≡ Some d
        → roots.now ≡ (state_of opened.now.defs x).roots
        → HasKeys opened.now.defs x (rows_in opened.now.defs d) r)) }
    ensures order { IfOk result (λ r. AreInOrder 2 256 r.findings.items) }
    ensures cut { IfErr result IsCutOff }
    ensures holds { F.holds files.new ≡ F.holds files.old }
    ensures cause { HasCause TableFault.File (F.faults files.old) (F.faults files.new) result }
{
    let defs = &opened.defs;
    let alloc = defs.raw.allocator();
    let RowsFound {
        keys,
        places: _,
        records: _,
        split: _,
        deleted: _,
        empty: _,
        gap: _,
    } = find_rows(alloc, files, rows, defs, opened.length, true)?;
    check_keys(alloc, files, index, defs, roots, keys.into_lists())
}

// The findings of all sections, one after the other.
fn all_findings(
    alloc: Global,
    item: Option<HeaderItem>,
    listed: Option<u64>,
    keys: Vec<Finding>,
    gap: Option<u64>,
) -> Result<Vec<Finding>, AllocError>
    ensures { IfOk result (λ all. all.items ≡ map finding.Header (option_to_list item)
        ++ (map finding.Deleted (option_to_list listed)
        ++ (keys.items ++ map finding.Rows (option_to_list gap)))) }
{
    let mut all = Vec::new(alloc);
    if let Some(item) = item {
        all.push(Finding::Header(item))?;
    }
    if let Some(at) = listed {
        all.push(Finding::Deleted { at })?;
    }
    all.extend_from_slice(&keys)?;
    if let Some(at) = gap {
        all.push(Finding::Rows { at })?;
    }
    Ok(all)
}
