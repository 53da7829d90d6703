//! What a scan of a data file finds.
//!
//! `find_rows` meets each row and each deleted block, in order of their places (`Met`), and notes their bytes
//! together. Where these are as many as the blocks have one by one, no byte belongs to two of them. Else the
//! file is damaged, and is gone through once more: of the deleted blocks, by their places and sizes, those
//! are kept that meet no block of a row. Then it looks for the lowest byte that belongs to nothing.
ghost use Rattle.std.specs.Prelude.{◌≡◌, ◌<◌, ◌≤◌, ◌+◌, ◌++◌, ℕ, List, Some, true, false, map, filter, if◌then◌else◌};
ghost use Rattle.std.specs.Prelude.{take, drop, HoldsAt, IfOk, IfErr, IfSome};
ghost use Rattle.std.specs.Prelude as std;
ghost use Rattle.std.specs.List.{AllByRecursion};
ghost use Rattle.myi_base.specs.Holding.{IfTold};
ghost use Rattle.myi_base.specs.Causes.{HasCause};
ghost use Rattle.myi_defs.specs.ReadDefs.{AreDefs};
ghost use Rattle.myi_defs.specs.Sound.{IsSound};
ghost use Rattle.myi_opening.specs.Opening.{IsCutOff};
ghost use Rattle.myi_chain.specs.Readable.{Item};
ghost use Rattle.myi_data.specs.Readable.{items_in};
ghost use Rattle.myi_data.specs.Scanning.{IsAsKnown};
ghost use Rattle.myi_defs.specs.Addressable.{is_addressable};
ghost use Rattle.myi_check.specs.HeldBytes.{AreJoined, EndsNear, front_of, gap_behind, is_free};
ghost use Rattle.myi_check.specs.Met.{HasMet, MeetsAll};
ghost use Rattle.myi_check.specs.Rows.{HasRows};

use crate::held_bytes::HeldBytes;
use crate::met::{Met, Noting, bytes_in, sum};
use myi_chain::{ScanSetup, rows_are_met};
use myi_data::DataScan;
use myi_defs::Defs;
use myi_io::Files;
use myi_opening::TableFault;
use myi_placelist::PlaceList;
use myi_rowkeys::RowKeys;
use std::alloc::{AllocError, Global};

/// What a scan of a data file finds.
#[derive(Drop)]
pub(crate) struct RowsFound {
    /// The pairs of the readable rows, a list for each key of the table, in the order of the rows. The lists
    /// are empty where they were not wanted.
    pub(crate) keys: RowKeys,
    /// The places of the rows of a dynamic table with keys, in order, where the pairs were not wanted.
    pub(crate) places: PlaceList,
    pub(crate) records: u64,
    /// How many blocks the rows have.
    pub(crate) split: u64,
    /// The places of the deleted blocks, in order.
    pub(crate) deleted: PlaceList,
    /// How many bytes deleted blocks have.
    pub(crate) empty: u64,
    /// The lowest byte that belongs to no row and to no deleted block.
    pub(crate) gap: Option<u64>,
}

/// A data file that was scanned.
#[derive(Clone, Copy)]
pub(crate) struct ScannedFile<'a> {
    pub(crate) name: &'a str,
    /// How many bytes it has.
    pub(crate) length: u64,
    /// How many readable rows it has.
    pub(crate) records: u64,
    /// The places of these rows, in order, if they are dynamic and the table has keys.
    pub(crate) places: &'a PlaceList,
}

/// Goes through a data file of that length, and notes the pairs of its rows where they are wanted.
pub(crate) fn find_rows<F: Files>(
    alloc: Global,
    files: &mut F,
    rows: &str,
    defs: &Defs,
    length: u64,
    with_keys: bool,
) -> Result<RowsFound, TableFault>
    requires defs { AreDefs defs.now }
    requires long { IfTold (F.holds files.old) (λ m.
        (d : List ℕ) × (m rows.now ≡ Some d) × (length ≡ std.length d)) }
    ensures found { IfOk result (λ r. IfTold (F.holds files.old) (λ m. (d : List ℕ)
        → m rows.now ≡ Some d → HasRows defs.now with_keys d r)) }
    ensures lists { IfOk result (λ r. std.length r.keys ≡ std.length defs.now.keys) }
    ensures cut { IfErr result IsCutOff }
    ensures holds { F.holds files.new ≡ F.holds files.old }
    ensures cause { HasCause TableFault.File (F.faults files.old) (F.faults files.new) result }
{
    let noting = Noting {
        with_keys,
        together: true,
    };
    let met = meet_file(alloc, files, rows, defs, length, noting)?;
    if let Some(found) = found_apart(met, defs, length)? {
        return Ok(found);
    }
    let noting = Noting {
        with_keys,
        together: false,
    };
    let met = meet_file(alloc, files, rows, defs, length, noting)?;
    Ok(found_meeting(alloc, met, defs, length)?)
}

// Meets all of a data file of that length.
fn meet_file<F: Files>(
    alloc: Global,
    files: &mut F,
    rows: &str,
    defs: &Defs,
    length: u64,
    noting: Noting,
) -> Result<Met, TableFault>
    requires defs { AreDefs defs.now }
    requires long { IfTold (F.holds files.old) (λ m.
        (d : List ℕ) × (m rows.now ≡ Some d) × (length ≡ std.length d)) }
    ensures some { IfOk result (λ met. (items : List Item)
        × HasMet defs.now noting.together items met) }
    ensures met { IfOk result (λ met. IfTold (F.holds files.old) (λ m. (d : List ℕ)
        → m rows.now ≡ Some d
        → HasMet defs.now noting.together (items_in defs.now false d) met)) }
    ensures keys { IfOk result (λ met. met.with_keys ≡ noting.with_keys) }
    ensures cut { IfErr result IsCutOff }
    ensures holds { F.holds files.new ≡ F.holds files.old }
    ensures cause { HasCause TableFault.File (F.faults files.old) (F.faults files.new) result }
{
    let setup = ScanSetup {
        extend: false,
        file_len: length,
    };
    let mut scan = DataScan::of_file(rows, defs, setup)?;
    meet_all(alloc, files, &mut scan, defs, noting)
}

// Meets all that a scan has left.
fn meet_all<F: Files>(
    alloc: Global,
    files: &mut F,
    scan: &mut DataScan,
    defs: &Defs,
    noting: Noting,
) -> Result<Met, TableFault>
    requires current { IfTold (F.holds files.old) (IsAsKnown scan.old) }
    requires test { scan.old.test ≡ defs.now }
    requires defs { AreDefs defs.now }
    ensures met { IfOk result
        (MeetsAll defs.now noting.together (F.holds files.old) scan.old) }
    ensures keys { IfOk result (λ met. met.with_keys ≡ noting.with_keys) }
    ensures holds { F.holds files.new ≡ F.holds files.old }
    ensures cut { IfErr result IsCutOff }
    ensures cause { HasCause TableFault.File (F.faults files.old) (F.faults files.new) result }
{
    let mut met = Met::new(alloc, defs, noting)?;
    while met.read(files, scan, defs)? {}
    Ok(met)
}

// What was found of a data file of that length, whose rows and deleted blocks were noted together, where no
// byte belongs to two of them.
fn found_apart(met: Met, defs: &Defs, length: u64) -> Result<Option<RowsFound>, AllocError>
    requires sound { IsSound defs.now }
    requires met { (items : List Item) × HasMet defs.now true items met }
    ensures found { IfOk result (λ o. IfSome o (λ r. (d : List ℕ) → length ≡ std.length d
        → HasMet defs.now true (items_in defs.now false d) met
        → HasRows defs.now met.with_keys d r)) }
    ensures lists { IfOk result (λ o. IfSome o (λ r.
        std.length r.keys ≡ std.length defs.now.keys)) }
{
    rows_are_met();
    let Met {
        with_keys: _,
        together: _,
        keys,
        places: row_places,
        records,
        split,
        row_bytes,
        mut held,
        frees: _,
        deleted,
        empty,
    } = met;
    held.put_in_order()?;
    let bytes = held.total()?;
    let sizes = sum(row_bytes, empty)?;
    if bytes != sizes {
        return Ok(None);
    }
    Ok(Some(RowsFound {
        keys,
        places: row_places,
        records,
        split,
        deleted,
        empty,
        gap: gap(&held, defs, length),
    }))
}

// What was found of a data file of that length, whose deleted blocks may meet blocks of rows.
fn found_meeting(alloc: Global, met: Met, defs: &Defs, length: u64) -> Result<RowsFound, AllocError>
    requires sound { IsSound defs.now }
    requires met { (items : List Item) × HasMet defs.now false items met }
    ensures found { IfOk result (λ r. (d : List ℕ) → length ≡ std.length d
        → HasMet defs.now false (items_in defs.now false d) met
        → HasRows defs.now met.with_keys d r) }
    ensures lists { IfOk result (λ r. std.length r.keys ≡ std.length defs.now.keys) }
{
    rows_are_met();
    let Met {
        with_keys: _,
        together: _,
        keys,
        places: row_places,
        records,
        split,
        row_bytes: _,
        mut held,
        frees: mut deleted,
        deleted: _,
        empty: _,
    } = met;
    held.put_in_order()?;
    keep_apart(&mut deleted, &held);
    held.add_blocks(&deleted)?;
    held.put_in_order()?;
    Ok(RowsFound {
        keys,
        places: row_places,
        records,
        split,
        deleted: places(alloc, &deleted)?,
        empty: bytes_in(&deleted)?,
        gap: gap(&held, defs, length),
    })
}

// Keeps the blocks of which no byte is held. The held ranges are in order.
fn keep_apart(blocks: &mut Vec<(u64, u32)>, held: &HeldBytes)
    requires near { AllByRecursion EndsNear blocks.old.items }
    requires order { AreJoined 0 held.now }
    ensures { blocks.new.items ≡ filter (is_free held.now) blocks.old.items }
{
    let mut count = 0;
    for index in 0..blocks.len() {
        count = keep_block(blocks, index, count, held);
    }
    blocks.truncate(count);
}

// Puts a block behind those in front that are kept, if no byte of it is held, and says how many these are
// then.
fn keep_block(blocks: &mut Vec<(u64, u32)>, index: usize, count: usize, held: &HeldBytes) -> usize
    requires inside { index < std.length blocks.old.items }
    requires few { count ≤ index }
    requires near { HoldsAt EndsNear blocks.old.items index }
    requires order { AreJoined 0 held.now }
    ensures kept { take result blocks.new.items ≡ take count blocks.old.items
        ++ filter (is_free held.now) (take 1 (drop index blocks.old.items)) }
    ensures left { drop (index + 1) blocks.new.items ≡ drop (index + 1) blocks.old.items }
    ensures long { std.length blocks.new.items ≡ std.length blocks.old.items }
    ensures few { result ≤ index + 1 }
{
    let block = blocks[index];
    if !is_apart(block, held) {
        return count;
    }
    blocks[count] = block;
    count + 1
}

// Whether no byte of a block is held.
fn is_apart(block: (u64, u32), held: &HeldBytes) -> bool
    requires near { EndsNear block }
    requires order { AreJoined 0 held.now }
    ensures { result ≡ is_free held.now block }
{
    let (at, size) = block;
    held.is_apart(at, at + size as u64)
}

// The places of blocks.
fn places(alloc: Global, blocks: &[(u64, u32)]) -> Result<PlaceList, AllocError>
    ensures { IfOk result (λ places. places ≡ map (λ b. b.0) blocks.now) }
{
    let mut places = PlaceList::new(alloc);
    for index in 0..blocks.len() {
        places.push(blocks[index].0)?;
    }
    Ok(places)
}

// The lowest byte of a data file of that length that is not held, by ranges that are in order. Where row
// pointers do not reach so far, none is held.
fn gap(held: &HeldBytes, defs: &Defs, length: u64) -> Option<u64>
    ensures { result ≡ gap_behind
        (if is_addressable defs.now length then front_of held.now else 0) length }
{
    let front = if defs.addressable(length) {
        held.front()
    } else {
        0
    };
    if front < length { Some(front) } else { None }
}
