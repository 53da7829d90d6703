//! `Met`: what was met of a data file so far.
//!
//! Of each row its pairs are noted, where they are wanted, how many blocks it has and which bytes they hold.
//! A deleted block is one of the table only if it meets no block of a row, be it before or behind, so that
//! which of them count is told when all rows have come. Where all of them are taken to count, the place of
//! each is noted alone, and its bytes together with those of the rows: in a sound table all bytes are one
//! range then. Else its place and its size are noted.
ghost use Rattle.std.specs.Prelude.{◌≡◌, ◌+◌, sum_by, IfOk};
ghost use Rattle.myi_base.specs.HandsOn.{HandsOn};
ghost use Rattle.myi_defs.specs.Sound.{IsSound};
ghost use Rattle.myi_opening.specs.declared.fault.TableFault.TheVariants as table;
ghost use Rattle.myi_chain.specs.declared.piece.ScanFault.TheVariants as scan;
ghost use Rattle.myi_pair.specs.KeyList.{pointer};

use crate::held_bytes::HeldBytes;
use myi_chain::{Item, ScanFault};
use myi_data::DataScan;
use myi_defs::{Defs, RowFormat};
use myi_io::Files;
use myi_opening::TableFault;
use myi_pack::view_packed;
use myi_placelist::PlaceList;
use myi_rowkeys::RowKeys;
use std::alloc::{AllocError, Global};

/// What is noted.
#[derive(Clone, Copy)]
pub(crate) struct Noting {
    /// Whether the pairs of the rows are.
    pub(crate) with_keys: bool,
    /// Whether the bytes of deleted blocks are noted together with those of rows, and of each the place alone.
    pub(crate) together: bool,
}

/// What was met so far.
#[derive(Drop)]
pub(crate) struct Met {
    /// Whether the pairs of the rows are noted.
    pub(crate) with_keys: bool,
    /// Whether deleted blocks are noted together with rows.
    pub(crate) together: bool,
    /// These pairs, a list for each key of the table. The lists are empty where none is noted.
    pub(crate) keys: RowKeys,
    /// Of a dynamic table with keys the places of the rows, in order, where their pairs are not noted.
    pub(crate) places: PlaceList,
    pub(crate) records: u64,
    /// How many blocks the rows have.
    pub(crate) split: u64,
    /// How many bytes these blocks have.
    pub(crate) row_bytes: u64,
    /// Which bytes they are, together with those of deleted blocks where these are noted so.
    pub(crate) held: HeldBytes,
    /// The deleted blocks, each by its place and its size, where they are not noted together with rows.
    pub(crate) frees: Vec<(u64, u32)>,
    /// Their places, in order, where they are.
    pub(crate) deleted: PlaceList,
    /// How many bytes these have.
    pub(crate) empty: u64,
}

impl Met {
    ghost use Rattle.std.specs.Prelude.{◌≡◌, ◌<◌, ◌^◌, true, List, [], length, IfOk, IfErr, OnOk};
    ghost use Rattle.std.specs.List.{AllByRecursion};
    ghost use Rattle.myi_base.specs.Holding.{IfTold};
    ghost use Rattle.myi_base.specs.Causes.{HasCause};
    ghost use Rattle.myi_defs.specs.ReadDefs.{AreDefs};
    ghost use Rattle.myi_opening.specs.Opening.{IsCutOff};
    ghost use Rattle.myi_chain.specs.Readable as chains;
    ghost use Rattle.myi_chain.specs.ScanModel.{IsSameScan};
    ghost use Rattle.myi_data.specs.Readable.{packs};
    ghost use Rattle.myi_data.specs.Scanning.{IsAsKnown};
    ghost use Rattle.myi_check.specs.HeldBytes.{EndsNear};
    ghost use Rattle.myi_check.specs.Met.{HasMet, ReadsIf, NotesKeys, NotesPlace, NotesPairs, NotesBlocks, NotesFree, NotesPlaced};

    /// Nothing was met yet, of a table with these definitions.
    pub(crate) fn new(alloc: Global, defs: &Defs, noting: Noting) -> Result<Met, AllocError>
        ensures met { IfOk result (HasMet defs.now noting.together []) }
        ensures keys { IfOk result (λ met. met.with_keys ≡ noting.with_keys) }
        ensures together { IfOk result (λ met. met.together ≡ noting.together) }
    {
        Ok(Met {
            with_keys: noting.with_keys,
            together: noting.together,
            keys: RowKeys::new(alloc, defs.keys.as_slice().len())?,
            places: PlaceList::new(alloc),
            records: 0,
            split: 0,
            row_bytes: 0,
            held: HeldBytes::new(alloc),
            frees: Vec::new(alloc),
            deleted: PlaceList::new(alloc),
            empty: 0,
        })
    }

    /// Reads the next row or deleted block of a scan, and says whether there was one.
    pub(crate) fn read<F: Files>(
        &mut self,
        files: &mut F,
        scan: &mut DataScan,
        defs: &Defs,
    ) -> Result<bool, TableFault>
        requires current { IfTold (F.holds files.old) (IsAsKnown scan.old) }
        requires test { scan.old.test ≡ defs.now }
        requires defs { AreDefs defs.now }
        requires met { (items : List chains.Item) × HasMet defs.now self.old.together items self.old }
        ensures read { IfOk result (λ more.
            ReadsIf more defs.now self.old.together (F.holds files.old) scan.old scan.new
            self.old self.new) }
        ensures same { OnOk result (IsSameScan scan.old scan.new) }
        ensures current { OnOk result (IfTold (F.holds files.old) (IsAsKnown scan.new)) }
        ensures holds { F.holds files.new ≡ F.holds files.old }
        ensures cut { IfErr result IsCutOff }
        ensures cause { HasCause TableFault.File (F.faults files.old) (F.faults files.new) result }
    {
        match scan.next_item(files) {
            Ok(Some(Item::Row(at, piece))) => {
                self.note_pairs(defs, at, piece.bytes())?;
                self.note_blocks(scan.blocks())?;
                Ok(true)
            }
            Ok(Some(Item::Free { at, size })) => {
                self.note_free(at, size)?;
                Ok(true)
            }
            Ok(None) => Ok(false),
            Err(fault) => Err(table_fault(fault)),
        }
    }

    // Notes a row, and its pairs or its place.
    fn note_pairs(&mut self, defs: &Defs, at: u64, bytes: &[u8]) -> Result<(), AllocError>
        requires defs { AreDefs defs.now }
        requires packed { packs defs.now bytes.now ≡ true }
        requires few { length bytes.now < 2 ^ 32 }
        requires all { length self.old.keys ≡ length defs.now.keys }
        ensures { OnOk result (NotesPairs defs.now at bytes.now self.old self.new) }
    {
        self.note_keys(defs, at, bytes)?;
        self.note_place(defs, at)?;
        self.records = sum(self.records, 1)?;
        Ok(())
    }

    // Notes the pairs of a row in the lists, where they are noted.
    fn note_keys(&mut self, defs: &Defs, at: u64, bytes: &[u8]) -> Result<(), AllocError>
        requires defs { AreDefs defs.now }
        requires packed { packs defs.now bytes.now ≡ true }
        requires few { length bytes.now < 2 ^ 32 }
        requires all { length self.old.keys ≡ length defs.now.keys }
        ensures { OnOk result (NotesKeys defs.now at bytes.now self.old self.new) }
    {
        if !self.with_keys {
            return Ok(());
        }
        let row = view_packed(defs, bytes);
        self.keys.push(defs, &row, pointer(defs, at))?;
        Ok(())
    }

    // Whether the places of rows are noted: those of a dynamic table, for keys of which no pairs are noted.
    fn notes_places(&self, defs: &Defs) -> bool {
        match defs.format {
            RowFormat::Dynamic => !self.with_keys && !defs.keys.as_slice().is_empty(),
            RowFormat::Static => false,
        }
    }

    // Notes the place of a row, where it is wanted.
    fn note_place(&mut self, defs: &Defs, at: u64) -> Result<(), AllocError>
        ensures place { OnOk result (NotesPlace at self.old self.new) }
        ensures rest { self.new ≡ record self.old { places = self.new.places } }
    {
        if self.notes_places(defs) {
            self.places.push(at)?;
        }
        Ok(())
    }

    // Notes the blocks of a row.
    fn note_blocks(&mut self, blocks: &[(u64, u32)]) -> Result<(), AllocError>
        requires { AllByRecursion EndsNear blocks.now }
        ensures { OnOk result (NotesBlocks blocks.now self.old self.new) }
    {
        self.held.add_blocks(blocks)?;
        self.split = sum(self.split, blocks.len() as u64)?;
        self.row_bytes = sum(self.row_bytes, bytes_in(blocks)?)?;
        Ok(())
    }

    // Notes a deleted block.
    fn note_free(&mut self, at: u64, size: u32) -> Result<(), AllocError>
        requires { EndsNear (at, size) }
        ensures { OnOk result (NotesFree self.old.together at size self.old self.new) }
    {
        if self.together {
            self.note_place_alone(at, size)?;
        } else {
            self.frees.push((at, size))?;
        }
        Ok(())
    }

    // Notes the place of a deleted block, and its bytes together with those of rows.
    fn note_place_alone(&mut self, at: u64, size: u32) -> Result<(), AllocError>
        requires { EndsNear (at, size) }
        ensures { OnOk result (NotesPlaced at size self.old self.new) }
    {
        self.held.add(at, at + size as u64)?;
        self.deleted.push(at)?;
        self.empty = sum(self.empty, size as u64)?;
        Ok(())
    }
}

// Why a scan did not go on, as a fault of the table.
fn table_fault(fault: ScanFault) -> TableFault
    ensures { HandsOn (scan.File, table.File) (scan.Memory, table.Memory) fault result }
{
    match fault {
        ScanFault::File => TableFault::File,
        ScanFault::Memory => TableFault::Memory,
    }
}

/// The sum of two counts, where eight bytes hold it. Of a file that tells what it holds they do.
pub(crate) fn sum(count: u64, more: u64) -> Result<u64, AllocError>
    ensures { IfOk result (λ s. s ≡ count + more) }
{
    count.checked_add(more).ok_or(AllocError)
}

/// How many bytes blocks have, each by its place and its size.
pub(crate) fn bytes_in(blocks: &[(u64, u32)]) -> Result<u64, AllocError>
    ensures { IfOk result (λ bytes. bytes ≡ sum_by (λ b. b.1) blocks.now) }
{
    let mut bytes = 0;
    for index in 0..blocks.len() {
        bytes = sum(bytes, blocks[index].1 as u64)?;
    }
    Ok(bytes)
}

// The pointer of the row at a place of the data file.
fn pointer(defs: &Defs, at: u64) -> u64
    requires { IsSound defs.now }
    ensures { result ≡ pointer defs.now at }
{
    match defs.format {
        RowFormat::Static => at / defs.slot_length as u64,
        RowFormat::Dynamic => at,
    }
}
