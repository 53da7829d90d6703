//! The list of deleted blocks, which is followed once.
//!
//! `check_list` holds the places of all deleted blocks in their order, which the scan found. A good list is
//! found good in memory (`whole_list`). Else, or where the blocks stand far from each other, the list is followed in the file
//! with a flag for each place that it has named.
ghost use Rattle.std.specs.Prelude.{◌≡◌, ◌<◌, ℕ, false, List, length, replicate, None, IfOk, IfErr, IfSome, HoldsAt};
ghost use Rattle.std.specs.Option.{option_map};
ghost use Rattle.myi_base.specs.Holding.{IfTold, bytes_of};
ghost use Rattle.myi_base.specs.Causes.{HasCause};
ghost use Rattle.myi_defs.specs.Sound.{IsSound};
ghost use Rattle.myi_opening.specs.Opening.{IsCutOff};
ghost use Rattle.myi_pair.specs.Clean.{next_deleted};
ghost use Rattle.myi_pair.specs.FirstBad.{without, least, list_bad};
ghost use Rattle.myi_pair.specs.Findings.{names_before, told};
ghost use Rattle.myi_placelist.specs.Places.{IsRising};
ghost use Rattle.myi_check.specs.Rows.{ArePointed};
ghost use Rattle.myi_check.specs.ListMet.{unmet};

use crate::head_reads::HeadReads;
use crate::link::{link_of, widened};
use crate::whole_list::is_whole;
use myi_defs::Defs;
use myi_frames::LEAST_SIZE;
use myi_io::Files;
use myi_opening::TableFault;
use myi_placelist::PlaceList;
use std::alloc::{AllocError, Global};

/// The first bad place of the list of deleted blocks that begins at `head`: one that is no deleted
/// block, was met before, or does not name the one before it; else the lowest deleted block that is
/// not on the list. `deleted` has the places of all deleted blocks of a data file of `end` bytes,
/// in order. A place from 2^64 on is answered as 2^64 - 1. Where the file is shorter by now, so that what
/// a block names is not there, its place is a bad one.
pub(crate) fn check_list<F: Files>(
    files: &mut F,
    rows: &str,
    defs: &Defs,
    end: u64,
    deleted: &PlaceList,
    head: Option<u64>,
) -> Result<Option<u64>, TableFault>
    requires sound { IsSound defs.now }
    ensures found { IfOk result (λ bad. IfTold (F.holds files.old) (λ m. (d : List ℕ)
        → bytes_of rows.now m ≡ d → length d ≡ end → IsRising deleted.now
        → ArePointed defs.now end deleted.now
        → bad ≡ option_map told (list_bad (next_deleted defs.now d) (names_before defs.now d)
        (length deleted.now) deleted.now None head))) }
    ensures cut { IfErr result IsCutOff }
    ensures holds { F.holds files.new ≡ F.holds files.old }
    ensures cause { HasCause TableFault.File (F.faults files.old) (F.faults files.new) result }
{
    let whole = is_whole(files, rows, defs, end, deleted, head)?;
    if whole {
        return Ok(None);
    }
    let alloc = defs.raw.allocator();
    let mut met = flags(alloc, deleted.len())?;
    let mut heads = HeadReads::new(alloc)?;
    let mut before = None;
    let mut at = widened(head);
    for _step in 0..deleted.len() {
        let Some(place) = at else {
            return Ok(least_left(deleted, &met));
        };
        let Some(block) = take_out(deleted, &mut met, place) else {
            return Ok(Some(told(place)));
        };
        let mut bytes = [0u8; LEAST_SIZE];
        let count = heads.read(files, rows, block, &mut bytes)?;
        let link = link_of(&bytes[..count], defs, end, block, before);
        if !link.named {
            return Ok(Some(told(place)));
        }
        before = Some(block);
        at = link.next;
    }
    match at {
        None => Ok(least_left(deleted, &met)),
        Some(place) => Ok(Some(told(place))),
    }
}

// So many flags, none of them set.
fn flags(alloc: Global, count: usize) -> Result<Vec<bool>, AllocError>
    ensures { IfOk result (λ flags. flags.items ≡ replicate count false) }
{
    let mut flags = Vec::new(alloc);
    flags.resize(count, false)?;
    Ok(flags)
}

// A place as findings tell it.
fn told(place: u128) -> u64
    ensures { result ≡ told place }
{
    if place < u64::MAX as u128 {
        place as u64
    } else {
        u64::MAX
    }
}

// Takes a place out of those that are left, where it is among them.
fn take_out(places: &PlaceList, met: &mut [bool], place: u128) -> Option<u64>
    requires { length met.old ≡ length places.now }
    ensures left { IsRising places.now → without place (unmet places.now met.old)
        ≡ option_map (λ p. unmet places.now met.new) result }
    ensures same { IfSome result (λ p. p ≡ place) }
    ensures among { IfSome result (λ p. (i : ℕ)
        × (i < length places.now) × HoldsAt (λ q. q ≡ p) places.now i) }
    ensures long { length met.new ≡ length met.old }
{
    let Some(index) = places.index_of(place) else {
        return None;
    };
    if met[index] {
        return None;
    }
    met[index] = true;
    Some(places.at(index))
}

// The lowest place that is left.
fn least_left(places: &PlaceList, met: &[bool]) -> Option<u64>
    requires { length met.now ≡ length places.now }
    ensures { IsRising places.now
        → result ≡ option_map told (least (unmet places.now met.now)) }
{
    for index in 0..places.len() {
        if !met[index] {
            return Some(places.at(index));
        }
    }
    None
}
