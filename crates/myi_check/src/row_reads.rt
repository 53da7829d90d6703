//! The rows of a table, read one by one where pairs point to.
//!
//! `has_pair` says true only where a pair is that of a readable row. In a static table it reads the slot that the pair
//! points to. In a dynamic one it reads the row at the place that the pair names, where the scan of the
//! data file met a row there. It compares the code of the row's key with the code of the pair's. The
//! buffers serve for all pairs.
ghost use Rattle.std.specs.Prelude.{◌≡◌, ◌<◌, ◌^◌, true, length, Contains, Some, IfOk, IfErr};
ghost use Rattle.myi_base.specs.Holding.{IfTold, bytes_of};
ghost use Rattle.myi_base.specs.Causes.{HasCause};
ghost use Rattle.myi_defs.specs.declared.types.RowFormat.TheVariants.{Static, Dynamic};
ghost use Rattle.myi_defs.specs.Sound.{IsSound};
ghost use Rattle.myi_data.specs.Keys.{IsKeyNumber};
ghost use Rattle.myi_opening.specs.Opening.{IsCutOff};
ghost use Rattle.myi_check.specs.Asked.{IsSlot, IsOfRow};

use crate::chain_reads::ChainReads;
use crate::rows::ScannedFile;
use myi_btree::Pair;
use myi_data::key_code_into;
use myi_defs::{Defs, RowFormat};
use myi_io::Files;
use myi_keys::KeyVal;
use myi_opening::TableFault;
use myi_pack::{FieldPlaces, RowView, view};
use myi_placelist::PlaceList;
use std::alloc::{AllocError, Global};
use std::mem;

/// A key of a table, and its data file.
#[derive(Clone, Copy)]
pub(crate) struct RowsKey<'a> {
    pub(crate) file: ScannedFile<'a>,
    pub(crate) defs: &'a Defs,
    /// The number of the key, from 1.
    pub(crate) number: usize,
}

/// Buffers for the bytes of a row, in a slot or in blocks, and for the code of one key of it.
pub(crate) struct RowBuffers {
    slot: Vec<u8>,
    chain: ChainReads,
    coded: CodeBuffers,
}

impl Drop for RowBuffers {
    fn drop(self) {
        let RowBuffers {
            slot: _,
            chain: _,
            coded: _,
        } = self;
    }
}

impl RowBuffers {
    /// Empty buffers.
    pub(crate) fn new(alloc: Global) -> RowBuffers {
        RowBuffers {
            slot: Vec::new(alloc),
            chain: ChainReads::new(alloc),
            coded: CodeBuffers {
                code: Vec::new(alloc),
                scratch: Vec::new(alloc),
                places: FieldPlaces::new(alloc),
            },
        }
    }
}

/// Buffers for the code of one key, for one value, and for the places of a row's fields.
struct CodeBuffers {
    code: Vec<u8>,
    scratch: Vec<u8>,
    places: FieldPlaces,
}

impl Drop for CodeBuffers {
    fn drop(self) {
        let CodeBuffers {
            code: _,
            scratch: _,
            places: _,
        } = self;
    }
}

impl CodeBuffers {
    ghost use Rattle.std.specs.Prelude.{◌≡◌, ◌<◌, ◌^◌, true, length, Some, IfOk, OnOk};
    ghost use Rattle.myi_defs.specs.declared.types.RowFormat.TheVariants.{Dynamic};
    ghost use Rattle.myi_defs.specs.Sound.{IsSound};
    ghost use Rattle.myi_pack.specs.Packed.{Values};
    ghost use Rattle.myi_pack.specs.Spelling.{fits};
    ghost use Rattle.myi_pack.specs.Unpacking.{row_of};
    ghost use Rattle.myi_keys.specs.Codes.{key_code};
    ghost use Rattle.myi_keys.specs.Limits.{IsKey};
    ghost use Rattle.myi_data.specs.Keys.{IsKeyNumber, key_of};

    // Writes the code of the row's key for the key of that number. The view was made with these definitions.
    fn write(&mut self, defs: &Defs, number: usize, row: &RowView<'_>) -> Result<(), AllocError>
        requires sound { IsSound defs.now }
        requires key { IsKeyNumber defs.now number }
        requires row { fits defs.now row.now ≡ true }
        ensures written { OnOk result
            (self.new.code.items ≡ key_code (key_of defs.now number row.now)) }
        ensures key { IsKey (key_of defs.now number row.now) }
    {
        let none = FieldPlaces::new(*self.code.allocator());
        let mut fields = row.numbered(mem::replace(&mut self.places, none));
        let written = key_code_into(&mut self.code, &mut self.scratch, defs, number, &mut fields);
        self.places = fields.into_places();
        written
    }

    // Whether the bytes pack a row with this key for the key of that number.
    fn has_key(
        &mut self,
        defs: &Defs,
        number: usize,
        bytes: &[u8],
        key: &KeyVal,
    ) -> Result<bool, AllocError>
        requires sound { IsSound defs.now }
        requires few { defs.now.format ≡ Dynamic → length bytes.now < 2 ^ 32 }
        requires number { IsKeyNumber defs.now number }
        ensures { IfOk result (λ has. has ≡ true → (row : Values)
            × (row_of defs.now bytes.now ≡ Some row) × (key_of defs.now number row ≡ key.now)) }
    {
        let Some(row) = view(defs, bytes) else {
            return Ok(false);
        };
        self.write(defs, number, &row)?;
        Ok(self.code.as_slice() == key.code())
    }
}

// Reads the slot of that number, and says whether there is one.
fn read_slot<F: Files>(
    files: &mut F,
    rows: &str,
    size: u32,
    number: u64,
    slot: &mut Vec<u8>,
) -> Result<bool, TableFault>
    requires { 0 < size }
    ensures read { IfOk result (λ is. is ≡ true → IfTold (F.holds files.old) (λ m.
        IsSlot size number (bytes_of rows.now m) slot.new.items)) }
    ensures cut { IfErr result IsCutOff }
    ensures holds { F.holds files.new ≡ F.holds files.old }
    ensures cause { HasCause TableFault.File (F.faults files.old) (F.faults files.new) result }
{
    let Some(at) = number.checked_mul(size as u64) else {
        return Ok(false);
    };
    slot.resize(size as usize, 0)?;
    let count = files.read_at(rows, at, slot)?;
    Ok(count == slot.len())
}

// True only where the pair is that of a row of a static table.
fn has_slot<F: Files>(
    files: &mut F,
    key: &RowsKey<'_>,
    buffers: &mut RowBuffers,
    pair: &Pair,
) -> Result<bool, TableFault>
    requires sound { IsSound key.now.defs.now }
    requires format { key.now.defs.now.format ≡ Static }
    requires number { IsKeyNumber key.now.defs.now key.now.number }
    ensures row { IfOk result (λ is. is ≡ true → IsOfRow (F.holds files.old) key.now pair.now) }
    ensures cut { IfErr result IsCutOff }
    ensures holds { F.holds files.new ≡ F.holds files.old }
    ensures cause { HasCause TableFault.File (F.faults files.old) (F.faults files.new) result }
{
    let defs = key.defs;
    if !read_slot(
        files,
        key.file.name,
        defs.slot_length,
        pair.row,
        &mut buffers.slot,
    )? {
        return Ok(false);
    }
    let is = buffers
        .coded
        .has_key(defs, key.number, &buffers.slot, &pair.key)?;
    Ok(is)
}

// True only where the place is among these. They are in order, so that it is found.
fn is_among(places: &PlaceList, at: u64) -> bool
    ensures { result ≡ true → Contains places.now at }
{
    places.index_of(at as u128).is_some()
}

// True only where the pair is that of a row of a dynamic table.
fn has_row<F: Files>(
    files: &mut F,
    key: &RowsKey<'_>,
    buffers: &mut RowBuffers,
    pair: &Pair,
) -> Result<bool, TableFault>
    requires sound { IsSound key.now.defs.now }
    requires format { key.now.defs.now.format ≡ Dynamic }
    requires number { IsKeyNumber key.now.defs.now key.now.number }
    ensures row { IfOk result (λ is. is ≡ true → IsOfRow (F.holds files.old) key.now pair.now) }
    ensures cut { IfErr result IsCutOff }
    ensures holds { F.holds files.new ≡ F.holds files.old }
    ensures cause { HasCause TableFault.File (F.faults files.old) (F.faults files.new) result }
{
    if !is_among(key.file.places, pair.row) {
        return Ok(false);
    }
    if !buffers.chain.read(files, &key.file, pair.row)? {
        return Ok(false);
    }
    let row = buffers.chain.row.as_slice();
    let is = buffers.coded.has_key(key.defs, key.number, row, &pair.key)?;
    Ok(is)
}

/// True only where the pair is that of a readable row.
pub(crate) fn has_pair<F: Files>(
    files: &mut F,
    key: &RowsKey<'_>,
    buffers: &mut RowBuffers,
    pair: &Pair,
) -> Result<bool, TableFault>
    requires sound { IsSound key.now.defs.now }
    requires number { IsKeyNumber key.now.defs.now key.now.number }
    ensures row { IfOk result (λ is. is ≡ true → IsOfRow (F.holds files.old) key.now pair.now) }
    ensures cut { IfErr result IsCutOff }
    ensures holds { F.holds files.new ≡ F.holds files.old }
    ensures cause { HasCause TableFault.File (F.faults files.old) (F.faults files.new) result }
{
    match key.defs.format {
        RowFormat::Static => has_slot(files, key, buffers, pair),
        RowFormat::Dynamic => has_row(files, key, buffers, pair),
    }
}
