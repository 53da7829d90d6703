//! Slots as they stand in a file: the one of a row, and a deleted one with the number of the next.
ghost use Rattle.std.specs.Prelude.{◌≡◌, ◌≤◌, ◌<◌, ◌+◌, ◌-◌, ◌^◌, ◌==◌, true, Some, None, length, slice_index, take, drop, IfOk, IfErr, OnOk, IsTrue};
ghost use Rattle.myi_base.specs.Holding.{IfTold, Told, Writes, OthersStay, bytes_of, blocks};
ghost use Rattle.myi_base.specs.Causes.{HasCause};
ghost use Rattle.myi_io.specs.declared.files.FileErr.TheVariants.{Failed};
ghost use Rattle.myi_slots.specs.declared.fault.DataFault.TheVariants.{File};
ghost use Rattle.myi_slots.specs.SlotBytes.{is_slot, link_of, link_in, hole_in, slot_number, hole_bytes};
ghost use Rattle.myi_slots.specs.SlotFile.{CutsOff, IsLink, LacksLink, ByCause, Never};

use crate::fault::DataFault;
use myi_base::{number_at, put_number};
use myi_io::{FileErr, Files};

/// The slots of a file: how long each is, how many bytes their numbers have, and where the file ends.
#[derive(Clone, Copy)]
pub(crate) struct Slots {
    pub size: u64,
    pub width: usize,
    pub end: u64,
}

/// How many bytes of a deleted slot are read: a zero, and a number of the greatest width.
const HEAD: usize = 9;

/// Whether a slot stands at a place.
fn is_slot(slots: Slots, at: u64) -> bool
    requires { 0 < slots.size }
    ensures { result ≡ is_slot slots.size slots.end at }
{
    at % slots.size == 0 && at <= slots.end && slots.size <= slots.end - at
}

/// The number that names no slot: so many bytes FF.
fn none_number(width: usize) -> u64
    requires some { 1 ≤ width }
    requires few { width ≤ 8 }
    ensures { result ≡ 256 ^ width - 1 }
{
    match width {
        1 => 0xFF,
        2 => 0xFFFF,
        3 => 0xFF_FFFF,
        4 => 0xFFFF_FFFF,
        5 => 0xFF_FFFF_FFFF,
        6 => 0xFFFF_FFFF_FFFF,
        7 => 0xFF_FFFF_FFFF_FFFF,
        _ => u64::MAX,
    }
}

/// The slot that a number names, if any; None where no slot of the file has the number.
fn link_of(slots: Slots, number: u64) -> Option<Option<u64>>
    requires size { 0 < slots.size }
    requires some { 1 ≤ slots.width }
    requires width { slots.width ≤ 8 }
    ensures { result ≡ link_of slots.size slots.width slots.end number }
{
    if number == none_number(slots.width) {
        return Some(None);
    }
    if number < slots.end / slots.size {
        return Some(Some(number * slots.size));
    }
    None
}

/// The next slot of a deleted one that begins so, if it is one.
fn link_in(slots: Slots, head: &[u8]) -> Option<Option<u64>>
    requires size { 0 < slots.size }
    requires some { 1 ≤ slots.width }
    requires width { slots.width ≤ 8 }
    requires room { slots.width + 1 ≤ length head.now }
    ensures { result ≡ link_in (slice_index head.now 0 == 0) slots.size slots.width slots.end
        head.now }
{
    if head[0] != 0 {
        return None;
    }
    link_of(slots, number_at(head, 1, slots.width))
}

/// The next slot of the deleted one at a place. `Damaged` where none stands there.
pub(crate) fn hole_at<F: Files>(
    files: &mut F,
    name: &str,
    slots: Slots,
    at: u64,
) -> Result<Option<u64>, DataFault>
    requires some { 1 ≤ slots.width }
    requires width { slots.width ≤ 8 }
    requires wide { slots.width + 1 ≤ slots.size }
    ensures ok { IfOk result (λ next. IfTold (F.holds files.old) (λ m.
        length (bytes_of name.now m) ≡ slots.end
        → hole_in slots.size slots.width (bytes_of name.now m) at ≡ Some next)) }
    ensures err { IfErr result (ByCause Never ⊥ (λ p. (p ≡ at) × IfTold (F.holds files.old) (λ m.
        length (bytes_of name.now m) ≡ slots.end
        → hole_in slots.size slots.width (bytes_of name.now m) at ≡ None))) }
    ensures inside { OnOk result (at + slots.size ≤ slots.end) }
    ensures holds { F.holds files.new ≡ F.holds files.old }
    ensures few { F.reads files.new ≤ F.reads files.old + 1 }
    ensures cause { HasCause File (F.faults files.old) (F.faults files.new) result }
{
    if !is_slot(slots, at) {
        return Err(DataFault::Damaged { at });
    }
    let mut head = [0u8; HEAD];
    let count = files.read_at(name, at, &mut head)?;
    if count <= slots.width {
        return Err(DataFault::Damaged { at });
    }
    match link_in(slots, &head) {
        Some(next) => Ok(next),
        None => Err(DataFault::Damaged { at }),
    }
}

/// Reads the slot at a place, and answers whether one stands there.
pub(crate) fn read_slot<F: Files>(
    files: &mut F,
    name: &str,
    slots: Slots,
    at: u64,
    slot: &mut [u8],
) -> Result<bool, FileErr>
    requires some { 0 < slots.size }
    requires room { length slot.old ≡ slots.size }
    ensures length { length slot.new ≡ slots.size }
    ensures told { IfOk result (λ is. IfTold (F.holds files.old) (λ m.
        length (bytes_of name.now m) ≡ slots.end → is ≡ is_slot slots.size slots.end at)) }
    ensures bytes { IfOk result (λ is. IfTold (F.holds files.old) (λ m.
        length (bytes_of name.now m) ≡ slots.end → is ≡ true
        → slot.new ≡ take slots.size (drop at (bytes_of name.now m)))) }
    ensures inside { IfOk result (λ is. is ≡ true → at + slots.size ≤ slots.end) }
    ensures holds { F.holds files.new ≡ F.holds files.old }
    ensures few { F.reads files.new ≤ F.reads files.old + blocks slots.size }
    ensures cause { HasCause Failed (F.faults files.old) (F.faults files.new) result }
{
    if !is_slot(slots, at) {
        return Ok(false);
    }
    let count = files.read_at(name, at, slot)?;
    Ok(count == slot.len())
}

/// The number of the slot at a place, or the one that names none.
pub(crate) fn slot_number(slots: Slots, at: Option<u64>) -> u64
    requires size { 0 < slots.size }
    requires some { 1 ≤ slots.width }
    requires width { slots.width ≤ 8 }
    ensures { result ≡ slot_number slots.size slots.width at }
{
    match at {
        None => none_number(slots.width),
        Some(at) => at / slots.size,
    }
}

/// Makes the slot at a place a deleted one, before another one.
pub(crate) fn write_hole<F: Files>(
    files: &mut F,
    name: &str,
    slots: Slots,
    at: u64,
    next: Option<u64>,
) -> Result<(), DataFault>
    requires writable { IsTrue F.writable }
    requires size { 0 < slots.size }
    requires some { 1 ≤ slots.width }
    requires width { slots.width ≤ 8 }
    requires fits { slot_number slots.size slots.width next < 256 ^ slots.width }
    ensures ok { OnOk result (Told (F.holds files.old) (F.holds files.new)
        (Writes name.now at (hole_bytes slots.size slots.width next))) }
    ensures others { Told (F.holds files.old) (F.holds files.new) (OthersStay name.now) }
    ensures reads { F.reads files.new ≡ F.reads files.old }
    ensures cut { IfErr result CutsOff }
    ensures cause { HasCause File (F.faults files.old) (F.faults files.new) result }
{
    let mut head = [0u8; HEAD];
    put_number(&mut head, 1, slots.width, slot_number(slots, next));
    files.write_at(name, at, &head[..slots.width + 1])?;
    Ok(())
}

/// Whether the first deleted slot, if any, is one of the file. `Damaged` where it is not.
pub(crate) fn check_link(slots: Slots, link: Option<u64>) -> Result<(), DataFault>
    requires { 0 < slots.size }
    ensures ok { OnOk result (IsLink slots.size slots.end link) }
    ensures err { IfErr result (LacksLink slots.size slots.end link) }
{
    let Some(at) = link else {
        return Ok(());
    };
    if !is_slot(slots, at) {
        return Err(DataFault::Damaged { at });
    }
    Ok(())
}
