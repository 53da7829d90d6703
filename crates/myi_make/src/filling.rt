//! The table of the rows, made: the empty table, the rows put into it, and the table closed.
ghost use Rattle.std.specs.Prelude.{◌≡◌, ◌≢◌, ◌⊎◌, ◌≤◌, ◌%◌, ◌==◌, ◌++◌, [], length, true, false, None, IfOk, IfErr, OnOk, IsTrue};
ghost use Rattle.myi_base.specs.Holding.{Told, IfTold};
ghost use Rattle.myi_base.specs.Causes.{HasCause};
ghost use Rattle.myi_opening.specs.Names.{rows_file};
ghost use Rattle.myi_pack.specs.Spelling.{fits, spelling};
ghost use Rattle.myi_slots.specs.SlotFile.{AddsNew};
ghost use Rattle.myi_table.specs.Table.{defs_in, IsKept, IsSame, ChangesItsOwn};
ghost use Rattle.myi_repair.specs.Names.{names_for, KeepsBut};
ghost use Rattle.myi_make.specs.MadeTable as spec;
ghost use Rattle.myi_make.specs.Faults.{CutsOff};
ghost use Rattle.myi_make.specs.Filling.{if_tenth, IsEmpty, HasPut, TakesRow, RefusesRow, HasFilled};

use crate::fault::MakeFault;
use crate::rows::{next_number, row_of};
use myi_defs::Defs;
use myi_deftext::{TextFault, parse_text};
use myi_frames::least_size;
use myi_io::Files;
use myi_keycache::CacheSetup;
use myi_pack::{Row, pack};
use myi_table::Table;
use std::alloc::{AllocError, Global};

/// The creating text of the table.
const TEXT: &[u8] =
    b"rows dynamic\nfield normal 1\nfield normal 4\nfield varchar 41\nfield blob 10\nkey unique\nseg long_int 1 4 0 0 0\nkey plain\nseg vartext 5 40 8 0 0\n";

/// The key cache in which the trees grow, that of a script without options.
const SETUP: CacheSetup = CacheSetup {
    blocks: 64,
    division: 100,
    age: 300,
};

/// Makes the table of so many rows, and answers where the block of every tenth one stands and how long it is.
pub(crate) fn fill_table<F: Files>(
    alloc: Global,
    files: &mut F,
    name: &str,
    count: u32,
    seed: u64,
) -> Result<Vec<(u64, u8)>, MakeFault>
    requires writable { IsTrue F.writable }
    requires few { count ≤ 100000 }
    ensures filled { IfOk result (λ blocks. Told (F.holds files.old) (F.holds files.new)
        (HasFilled name.now count seed blocks.items)) }
    ensures others { Told (F.holds files.old) (F.holds files.new) (KeepsBut (names_for name.now)) }
    ensures refused { IfErr result (λ f. CutsOff f ⊎ (F.holds files.old ≡ None)) }
    ensures cause { HasCause MakeFault.File (F.faults files.old) (F.faults files.new) result }
{
    let defs = definitions(alloc)?;
    let mut table = empty_table(alloc, files, name, &defs)?;
    let blocks = insert_rows(alloc, files, &mut table, &defs, count, seed)?;
    table.close(files)?;
    Ok(blocks)
}

// The definitions of the table.
fn definitions(alloc: Global) -> Result<Defs, AllocError>
    ensures { IfOk result (λ d. d ≡ spec.defs) }
{
    match parse_text(alloc, TEXT) {
        Ok(defs) => Ok(defs),
        Err(fault) => Err(want_of_memory(fault)),
    }
}

// The text is one, so that nothing but want of memory is in the way.
fn want_of_memory(fault: TextFault) -> AllocError
    requires { fault ≡ TextFault.Memory }
{
    match fault {
        TextFault::Memory => AllocError,
        _ => unreachable!(),
    }
}

// Makes the table without rows, and loads it.
fn empty_table<F: Files>(
    alloc: Global,
    files: &mut F,
    name: &str,
    defs: &Defs,
) -> Result<Table, MakeFault>
    requires writable { IsTrue F.writable }
    requires defs { defs.now ≡ spec.defs }
    ensures made { IfOk result (λ t. Told (F.holds files.old) (F.holds files.new)
        (λ m n. IsEmpty t n)) }
    ensures defs { IfOk result (λ t. defs_in t ≡ spec.defs) }
    ensures name { IfOk result (λ t. t.name ≡ name.now) }
    ensures whole { IfOk result (λ t. t.broken ≡ None) }
    ensures others { Told (F.holds files.old) (F.holds files.new) (KeepsBut (names_for name.now)) }
    ensures refused { IfErr result (λ f. CutsOff f ⊎ (F.holds files.old ≡ None)) }
    ensures cause { HasCause MakeFault.File (F.faults files.old) (F.faults files.new) result }
{
    Table::create(alloc, files, name, defs)?;
    let table = Table::load(alloc, files, name, SETUP)?;
    if !have_one_header(table.defs(), defs) {
        return Err(MakeFault::Damaged { at: 0 });
    }
    Ok(table)
}

// Whether definitions that were read are those of the header that was made.
fn have_one_header(read: &Defs, made: &Defs) -> bool
    ensures same { result ≡ true → read.now.raw ≡ made.now.raw }
    ensures other { result ≡ false → read.now.raw ≢ made.now.raw }
{
    let read = read.raw.as_slice();
    let made = made.raw.as_slice();
    read == made
}

// Puts so many rows into the table without rows.
fn insert_rows<F: Files>(
    alloc: Global,
    files: &mut F,
    table: &mut Table,
    defs: &Defs,
    count: u32,
    seed: u64,
) -> Result<Vec<(u64, u8)>, MakeFault>
    requires writable { IsTrue F.writable }
    requires few { count ≤ 100000 }
    requires defs { defs.now ≡ spec.defs }
    requires own { defs_in table.old ≡ spec.defs }
    requires whole { table.old.broken ≡ None }
    requires empty { IfTold (F.holds files.old) (IsEmpty table.old) }
    ensures put { IfOk result (λ blocks. Told (F.holds files.old) (F.holds files.new)
        (λ m n. HasPut count seed blocks.items table.new n)) }
    ensures kept { OnOk result (IsKept (F.holds files.new) table.new) }
    ensures same { OnOk result (IsSame table.old table.new) }
    ensures others { ChangesItsOwn (F.holds files.old) (F.holds files.new) table.old }
    ensures refused { IfErr result (λ f. CutsOff f ⊎ (F.holds files.old ≡ None)) }
    ensures cause { HasCause MakeFault.File (F.faults files.old) (F.faults files.new) result }
{
    let mut blocks = Vec::with_capacity(alloc, (count / 10) as usize)?;
    let mut x = seed;
    for i in 0..count {
        x = next_number(x);
        let row = row_of(alloc, i + 1, x)?;
        let at = insert_row(files, table, &row)?;
        note_tenth(alloc, defs, &mut blocks, i + 1, at, &row)?;
    }
    Ok(blocks)
}

// Puts a row behind the end of the data file, and answers where it ended.
fn insert_row<F: Files>(files: &mut F, table: &mut Table, row: &Row) -> Result<u64, MakeFault>
    requires writable { IsTrue F.writable }
    requires fits { fits (defs_in table.old) row.now ≡ true }
    requires whole { table.old.broken ≡ None }
    requires kept { IsKept (F.holds files.old) table.old }
    ensures end { IfOk result (λ end. end ≡ table.old.rows.rows.file.counts.length) }
    ensures file { table.old.rows.rows.file.name ≡ rows_file table.old.name }
    ensures taken { OnOk result (TakesRow row.now (F.holds files.old) (F.holds files.new)
        table.old table.new) }
    ensures added { OnOk result (Told (F.holds files.old) (F.holds files.new)
        (AddsNew table.old.rows.rows.file table.new.rows.rows.file row.now)) }
    ensures refused { IfErr result (λ f.
        CutsOff f ⊎ RefusesRow row.now (F.holds files.old) table.old) }
    ensures whole { OnOk result (table.new.broken ≡ None) }
    ensures kept { IsKept (F.holds files.new) table.new }
    ensures same { IsSame table.old table.new }
    ensures others { ChangesItsOwn (F.holds files.old) (F.holds files.new) table.old }
    ensures cause { HasCause MakeFault.File (F.faults files.old) (F.faults files.new) result }
{
    let end = table.length();
    table.insert(files, row)?;
    Ok(end)
}

// Notes the block of row i, where that is a tenth one.
fn note_tenth(
    alloc: Global,
    defs: &Defs,
    blocks: &mut Vec<(u64, u8)>,
    i: u32,
    at: u64,
    row: &Row,
) -> Result<(), AllocError>
    requires defs { defs.now ≡ spec.defs }
    requires fits { fits spec.defs row.now ≡ true }
    requires short { length (spelling spec.defs row.now) ≤ 248 }
    ensures { OnOk result (blocks.new.items ≡ blocks.old.items
        ++ if_tenth (i % 10 == 0) (at, length (spec.row_block row.now)) []) }
{
    if i % 10 == 0 {
        blocks.push((at, block_size(alloc, defs, row)?))?;
    }
    Ok(())
}

// How long the block of a row is.
fn block_size(alloc: Global, defs: &Defs, row: &Row) -> Result<u8, AllocError>
    requires defs { defs.now ≡ spec.defs }
    requires fits { fits spec.defs row.now ≡ true }
    requires short { length (spelling spec.defs row.now) ≤ 248 }
    ensures { IfOk result (λ size. size ≡ length (spec.row_block row.now)) }
{
    let packed = pack(alloc, defs, row)?;
    Ok(least_size(packed.as_slice().len() as u32) as u8)
}
