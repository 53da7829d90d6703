//! The slots of a static table's data file, one after the other, as their bytes are read.
//!
//! `first_slot` looks at the bytes at hand alone; what it says holds of every file in which they stand.
//! `next_slot` goes through a file, a `SlotFile`, from a place on.
ghost use Rattle.std.specs.Prelude.{◌≡◌, ◌≤◌, ◌<◌, ◌+◌, length, take, IfOk, IfErr, OnErr};
ghost use Rattle.myi_base.specs.Holding.{IfTold};
ghost use Rattle.myi_base.specs.Causes.{HasCause};
ghost use Rattle.myi_io.specs.declared.files.FileErr.TheVariants.{Failed};
ghost use Rattle.myi_window.specs.Excerpt.{bytes_from, EndsBy, GoesOnStanding};
ghost use Rattle.myi_chain.specs.Pieces.{piece_bytes};
ghost use Rattle.myi_data.specs.Readable.{packs};
ghost use Rattle.myi_data.specs.SlotBytes.{IsFormOf};
ghost use Rattle.myi_data.specs.NextSlot.{IsKind, IsFirst, IsPlaced, IsHeld, Finds};

use crate::row_test::RowTest;
use crate::slot_bytes::SlotBytes;
use myi_chain::{Accepts, Piece, Wanted};
use myi_io::{FileErr, Files};
use myi_window::WINDOW;

/// What a slot is.
#[derive(Clone, Copy)]
pub(crate) enum SlotKind {
    Row,
    /// Its first byte is 0.
    Free,
    /// Nothing that is wanted.
    Neither,
}

/// What stands first in some bytes of slots.
#[derive(Clone, Copy)]
pub(crate) enum FirstSlot {
    /// A row, behind so many bytes.
    Row(usize),
    /// A slot whose first byte is 0, behind so many bytes.
    Free(usize),
    /// Slots of so many bytes, none of which is wanted.
    Neither(usize),
}

/// The slot that is answered next, by its place.
#[derive(Clone, Copy)]
pub(crate) enum NextSlot {
    Row(u64),
    /// Its first byte is 0.
    Free(u64),
}

/// A data file of slots.
#[derive(Clone, Copy)]
pub(crate) struct SlotFile<'a> {
    pub(crate) name: &'a str,
    /// The test of what packs a row.
    pub(crate) test: &'a RowTest,
    /// The length of a slot in bytes.
    pub(crate) size: usize,
    /// What stands in the file from here on is not read.
    pub(crate) end: u64,
}

/// What a slot of these bytes is.
fn slot_kind(slot: &[u8], test: &RowTest, wanted: Wanted) -> SlotKind
    requires { 0 < length slot.now }
    ensures { IsKind wanted (packs test.now) slot.now result }
{
    if slot[0] == 0 {
        return match wanted {
            Wanted::Items => SlotKind::Free,
            Wanted::Rows => SlotKind::Neither,
        };
    }
    if test.accepts(slot) {
        return SlotKind::Row;
    }
    SlotKind::Neither
}

/// The first slot of these bytes that is wanted.
fn first_slot(bytes: &[u8], test: &RowTest, size: usize, wanted: Wanted) -> FirstSlot
    requires { 0 < size }
    ensures { IsFirst wanted (packs test.now) size bytes.now result }
{
    let mut at = 0;
    while bytes.len() - at >= size {
        match slot_kind(&bytes[at..at + size], test, wanted) {
            SlotKind::Row => return FirstSlot::Row(at),
            SlotKind::Free => return FirstSlot::Free(at),
            SlotKind::Neither => at += size,
        }
    }
    FirstSlot::Neither(at)
}

/// Goes behind the next slot that is wanted, and says where it stands. After an error the place is as
/// before.
pub(crate) fn next_slot<F: Files>(
    files: &mut F,
    file: &SlotFile<'_>,
    bytes: &mut SlotBytes,
    place: &mut u64,
    wanted: Wanted,
) -> Result<Option<NextSlot>, FileErr>
    requires some { 0 < file.now.size }
    requires sized { bytes.old.size ≡ file.now.size }
    requires order { place.old ≤ file.now.end }
    requires inside { EndsBy file.now.end bytes.old.held }
    ensures placed { IfOk result (IsPlaced wanted file.now.size place.old place.new file.now.end) }
    ensures held { IfOk result (IsHeld (packs file.now.test.now) file.now.size bytes.new.held) }
    ensures found { IfOk result (λ found. IfTold (F.holds files.old)
        (Finds wanted file.now bytes.old.held place.old place.new found)) }
    ensures within { place.new ≤ file.now.end }
    ensures err { OnErr result (place.new ≡ place.old) }
    ensures size { bytes.new.size ≡ bytes.old.size }
    ensures stands { IfTold (F.holds files.old)
        (GoesOnStanding file.now.name.now bytes.old.held bytes.new.held) }
    ensures inside { EndsBy file.now.end bytes.new.held }
    ensures failing { OnErr result (place.old < file.now.end) }
    ensures failed { IfErr result (λ e. e ≡ Failed) }
    ensures holds { F.holds files.new ≡ F.holds files.old }
    ensures cause { HasCause Failed (F.faults files.old) (F.faults files.new) result }
{
    let mut behind = *place;
    while file.size as u64 <= file.end - behind {
        if !bytes.reach(files, file.name, behind, file.end)? {
            *place = file.end;
            return Ok(None);
        }
        match first_slot(bytes.bytes_from(behind), file.test, file.size, wanted) {
            FirstSlot::Neither(skip) => behind += skip as u64,
            FirstSlot::Free(skip) => {
                let at = behind + skip as u64;
                *place = at + file.size as u64;
                return Ok(Some(NextSlot::Free(at)));
            }
            FirstSlot::Row(skip) => {
                let at = behind + skip as u64;
                *place = at + file.size as u64;
                return Ok(Some(NextSlot::Row(at)));
            }
        }
    }
    *place = file.end;
    Ok(None)
}

/// The slot at a place, as it is answered: one that is longer than a window was read into a buffer.
pub(crate) fn slot_at(bytes: &SlotBytes, at: u64, size: usize) -> Piece<'_>
    requires { size ≤ length (bytes_from at bytes.now.held) }
    ensures shown { piece_bytes result ≡ take size (bytes_from at bytes.now.held) }
    ensures form { IsFormOf size result }
{
    let slot = &bytes.bytes_from(at)[..size];
    if size > WINDOW {
        Piece::Joined(slot)
    } else {
        Piece::Lent(slot)
    }
}
