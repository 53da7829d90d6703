//! Whether the list of deleted blocks is wholly good, found without following it in the file.
//!
//! `is_whole` reads the deleted blocks in order of their places, and holds for each a number of four bytes: the
//! place that it names as the next one, in units. The list is followed by these numbers, and each that is met
//! is replaced by a mark, which says the number of the place before it. The blocks of a dynamic table
//! are then read once more, and each must name the place that its mark says. Where anything is not so, as where a place is
//! too great for a number, the answer says nothing of the list.
ghost use Rattle.std.specs.Prelude.{◌≡◌, ◌≤◌, ◌<◌, ◌^◌, true, length, slice_index, Some, IfOk, IfErr, IfSome};
ghost use Rattle.myi_base.specs.Holding.{IfTold, bytes_of};
ghost use Rattle.myi_base.specs.Causes.{HasCause};
ghost use Rattle.myi_defs.specs.Sound.{IsSound};
ghost use Rattle.myi_opening.specs.Opening.{IsCutOff};
ghost use Rattle.myi_check.specs.ListWalk.{unit_in, place_of, before_in, AreBelowMarks, MeetsEach, OfRows, AreNextIn, AreNamedIn, IsGoodIn};

use crate::head_reads::{GAP, HeadReads};
use crate::link::{link_of, widened};
use myi_defs::{Defs, RowFormat};
use myi_frames::LEAST_SIZE;
use myi_io::Files;
use myi_opening::TableFault;
use myi_placelist::PlaceList;

/// The first number that is a mark. Those below it stand for places.
const FIRST_MARK: u32 = 1 << 31;

/// The unit of the places of blocks.
const BLOCK_UNIT: u32 = 4;

/// How often a place is looked for where it would stand among places that lie evenly.
const TURNS: usize = 8;

/// How places lie in a file, as if they lay evenly.
#[derive(Clone, Copy)]
struct Spread {
    /// The first of them.
    first: u64,
    /// How many stand on 2^64 bytes.
    places: u64,
}

/// Whether the list of deleted blocks that begins at `head` was found to be good. `deleted` has the places of all deleted
/// blocks of a data file of `end` bytes, in order.
pub(crate) fn is_whole<F: Files>(
    files: &mut F,
    rows: &str,
    defs: &Defs,
    end: u64,
    deleted: &PlaceList,
    head: Option<u64>,
) -> Result<bool, TableFault>
    requires sound { IsSound defs.now }
    ensures whole { IfOk result (λ whole. whole ≡ true → IfTold (F.holds files.old) (λ m.
        OfRows defs.now end deleted.now (IsGoodIn defs.now deleted.now head)
        (bytes_of rows.now m))) }
    ensures cut { IfErr result IsCutOff }
    ensures holds { F.holds files.new ≡ F.holds files.old }
    ensures cause { HasCause TableFault.File (F.faults files.old) (F.faults files.new) result }
{
    let unit = unit_of(defs);
    if !are_close(deleted, end) || !have_numbers(end, unit) {
        return Ok(false);
    }
    let Some(first) = number_of(widened(head), unit) else {
        return Ok(false);
    };
    let Some(mut numbers) = next_numbers(files, rows, defs, end, deleted)? else {
        return Ok(false);
    };
    if !meets_each(&mut numbers, deleted, unit, first) {
        return Ok(false);
    }
    are_named(files, rows, defs, end, deleted, &numbers)
}

// Whether these places stand close to each other in a file of `end` bytes, so that they are read through a window.
fn are_close(places: &PlaceList, end: u64) -> bool {
    end / GAP < places.len() as u64
}

// Whether each place in a file of `end` bytes that is told in units has a number.
fn have_numbers(end: u64, unit: u32) -> bool
    requires { 1 ≤ unit }
{
    end / (unit as u64) < FIRST_MARK as u64
}

// The unit in which the places of deleted blocks are told.
fn unit_of(defs: &Defs) -> u32
    ensures some { 1 ≤ result }
    ensures unit { result ≡ unit_in defs.now }
{
    match defs.format {
        RowFormat::Static => defs.slot_length.max(1),
        RowFormat::Dynamic => BLOCK_UNIT,
    }
}

// The number that stands for a place, or for none, where there is one.
fn number_of(place: Option<u128>, unit: u32) -> Option<u32>
    requires some { 1 ≤ unit }
    ensures within { IfSome result (λ n. n < 2 ^ 31) }
    ensures place { IfSome result (λ n. place ≡ place_of unit n) }
{
    let Some(place) = place else {
        return Some(0);
    };
    if place >= u64::MAX as u128 {
        return None;
    }
    let place = place as u64;
    let count = place / unit as u64;
    if count >= FIRST_MARK as u64 - 1 || count.saturating_mul(unit as u64) != place {
        return None;
    }
    Some(count as u32 + 1)
}

// The place that a number stands for.
fn place_by(number: u32, unit: u32) -> Option<u64>
    requires few { number < 2 ^ 31 }
    ensures { result ≡ place_of unit number }
{
    if number == 0 {
        return None;
    }
    Some((number - 1) as u64 * unit as u64)
}

// The numbers of the places that deleted blocks name as the next ones, where each has one.
fn next_numbers<F: Files>(
    files: &mut F,
    rows: &str,
    defs: &Defs,
    end: u64,
    deleted: &PlaceList,
) -> Result<Option<Vec<u32>>, TableFault>
    requires sound { IsSound defs.now }
    ensures long { IfOk result (λ o. IfSome o (λ numbers.
        length numbers.items ≡ length deleted.now)) }
    ensures within { IfOk result (λ o. IfSome o (λ numbers. AreBelowMarks numbers.items)) }
    ensures next { IfOk result (λ o. IfSome o (λ numbers. IfTold (F.holds files.old) (λ m.
        OfRows defs.now end deleted.now (AreNextIn defs.now deleted.now numbers.items)
        (bytes_of rows.now m)))) }
    ensures cut { IfErr result IsCutOff }
    ensures holds { F.holds files.new ≡ F.holds files.old }
    ensures cause { HasCause TableFault.File (F.faults files.old) (F.faults files.new) result }
{
    let alloc = defs.raw.allocator();
    let mut heads = HeadReads::new(alloc)?;
    let unit = unit_of(defs);
    let mut numbers = Vec::with_capacity(alloc, deleted.len())?;
    for index in 0..deleted.len() {
        let place = deleted.at(index);
        let mut bytes = [0u8; LEAST_SIZE];
        let count = heads.read(files, rows, place, &mut bytes)?;
        let link = link_of(&bytes[..count], defs, end, place, None);
        // A slot that the file ends in by now names nothing.
        if matches!(defs.format, RowFormat::Static) && !link.named {
            return Ok(None);
        }
        let Some(number) = number_of(link.next, unit) else {
            return Ok(None);
        };
        numbers.push(number)?;
    }
    Ok(Some(numbers))
}

// How these places lie in a file, as if they lay evenly.
fn spread_of(places: &PlaceList) -> Spread {
    let count = places.len();
    if count < 2 {
        return Spread {
            first: 0,
            places: 0,
        };
    }
    let first = places.at(0);
    let bytes = places.at(count - 1).saturating_sub(first).max(1);
    let on_all = ((count - 1) as u128) << 64;
    Spread {
        first,
        places: (on_all / bytes as u128).min(u64::MAX as u128) as u64,
    }
}

// How many places stand on so many bytes, at least one.
fn places_on(bytes: u64, spread: Spread) -> usize {
    let on_all = bytes as u128 * (spread.places as u128 + 1);
    ((on_all >> 64) as usize).max(1)
}

// The index of a place, if it stands about where it would if the places lay evenly.
fn index_near(places: &PlaceList, place: u64, spread: Spread) -> Option<usize>
    ensures inside { IfSome result (λ i. i < length places.now) }
    ensures found { IfSome result (λ i. slice_index places.now i ≡ place) }
{
    let mut index = 0;
    let mut at = spread.first;
    for _turn in 0..TURNS {
        if at < place {
            index = places_on(place - at, spread).saturating_add(index);
        } else if at > place {
            index = index.saturating_sub(places_on(at - place, spread));
        }
        if index >= places.len() {
            return None;
        }
        at = places.at(index);
        if at == place {
            return Some(index);
        }
    }
    None
}

// The index of the place that a number stands for, which is looked for near by at first.
fn index_by(places: &PlaceList, number: u32, unit: u32, spread: Spread) -> Option<usize>
    requires few { number < 2 ^ 31 }
    ensures inside { IfSome result (λ i. i < length places.now) }
    ensures found { IfSome result (λ i.
        place_of unit number ≡ Some (slice_index places.now i)) }
{
    let Some(place) = place_by(number, unit) else {
        return None;
    };
    if let Some(index) = index_near(places, place, spread) {
        return Some(index);
    }
    places.index_of(place as u128)
}

// Whether a walk by these numbers, from a head on, meets each place once and ends. It leaves a mark at each.
fn meets_each(numbers: &mut [u32], places: &PlaceList, unit: u32, head: u32) -> bool
    requires long { length numbers.old ≡ length places.now }
    requires head { head < 2 ^ 31 }
    requires within { AreBelowMarks numbers.old }
    ensures each { result ≡ true → MeetsEach unit places.now numbers.old numbers.new head }
    ensures long { length numbers.new ≡ length numbers.old }
{
    let spread = spread_of(places);
    let mut before = 0;
    let mut at = head;
    for _step in 0..numbers.len() {
        let Some(index) = index_by(places, at, unit, spread) else {
            return false;
        };
        let next = numbers[index];
        if next >= FIRST_MARK {
            return false;
        }
        numbers[index] = FIRST_MARK + before;
        before = at;
        at = next;
    }
    at == 0
}

// Whether each deleted block names the place before it, by these marks. The slots of a static table name none.
fn are_named<F: Files>(
    files: &mut F,
    rows: &str,
    defs: &Defs,
    end: u64,
    deleted: &PlaceList,
    marks: &[u32],
) -> Result<bool, TableFault>
    requires sound { IsSound defs.now }
    requires long { length marks.now ≡ length deleted.now }
    ensures named { IfOk result (λ named. named ≡ true → IfTold (F.holds files.old) (λ m.
        OfRows defs.now end deleted.now (AreNamedIn defs.now deleted.now marks.now)
        (bytes_of rows.now m))) }
    ensures cut { IfErr result IsCutOff }
    ensures holds { F.holds files.new ≡ F.holds files.old }
    ensures cause { HasCause TableFault.File (F.faults files.old) (F.faults files.new) result }
{
    if matches!(defs.format, RowFormat::Static) {
        return Ok(true);
    }
    let mut heads = HeadReads::new(defs.raw.allocator())?;
    for index in 0..deleted.len() {
        let place = deleted.at(index);
        let mut bytes = [0u8; LEAST_SIZE];
        let count = heads.read(files, rows, place, &mut bytes)?;
        let before = before_of(marks[index]);
        let link = link_of(&bytes[..count], defs, end, place, before);
        if !link.named {
            return Ok(false);
        }
    }
    Ok(true)
}

// The place of the block before, by a mark.
fn before_of(mark: u32) -> Option<u64>
    ensures { result ≡ place_of 4 (before_in mark) }
{
    place_by(mark.saturating_sub(FIRST_MARK), BLOCK_UNIT)
}
