//! Trees of an index file that are changed, from none on, whose first page stands at 1024.
ghost use Rattle.std.specs.Prelude.{OnOk, IfOk};
ghost use Rattle.myi_btree.specs.Sizes.{IsPlaced};
ghost use Rattle.myi_insertion.specs.Rooms.{IsWhole};

use crate::trees::{FIRST, Index, index_of, is_row, of_tree, pair_of, unrooted, walked};
use case_lines::{Fault, Words, push_word};
use myi_base::Sequence;
use myi_btree::{Pair, Place, Room};
use std::alloc::{AllocError, Global};

/// A tree that is changed, in its index file.
struct Changed {
    index: Index,
    place: Place,
    room: Room,
}

impl Drop for Changed {
    fn drop(self) {
        let Changed {
            index: _,
            place: _,
            room: _,
        } = self;
    }
}

// Puts a pair into the tree.
fn insert(alloc: Global, changed: &mut Changed, pair: &Pair) -> Result<(), Fault>
    requires placed { IsPlaced changed.old.place }
    requires whole { IsWhole changed.old.room }
    ensures placed { OnOk result (IsPlaced changed.new.place) }
    ensures whole { OnOk result (IsWhole changed.new.room) }
{
    if !is_row(changed.place.rec_ref, pair.row) {
        return Err(Fault::Unread);
    }
    let Changed { index, place, room } = changed;
    let Index { files, cache, .. } = index;
    match myi_insertion::insert(alloc, place, files, cache, room, pair) {
        Ok(()) => Ok(()),
        Err(fault) => Err(of_tree(fault)),
    }
}

// Takes a pair out of the tree, and tells whether it was there.
fn remove(alloc: Global, changed: &mut Changed, pair: &Pair) -> Result<bool, Fault>
    requires placed { IsPlaced changed.old.place }
    requires whole { IsWhole changed.old.room }
    ensures placed { OnOk result (IsPlaced changed.new.place) }
    ensures whole { OnOk result (IsWhole changed.new.room) }
{
    let Changed { index, place, room } = changed;
    let Index { files, cache, .. } = index;
    match myi_insertion::remove(alloc, place, files, cache, room, pair) {
        Ok(there) => Ok(there),
        Err(fault) => Err(of_tree(fault)),
    }
}

// Does what a step says: `+CODE:ROW` puts a pair in, and `-CODE:ROW` takes one out.
fn push_step(
    out: &mut String,
    words: &Words,
    changed: &mut Changed,
    step: &str,
) -> Result<(), Fault>
    requires placed { IsPlaced changed.old.place }
    requires whole { IsWhole changed.old.room }
    ensures placed { OnOk result (IsPlaced changed.new.place) }
    ensures whole { OnOk result (IsWhole changed.new.room) }
{
    if let Some(word) = step.strip_prefix('+') {
        let pair = pair_of(words, word)?;
        insert(words.alloc(), changed, &pair)?;
        return Ok(());
    }
    let Some(word) = step.strip_prefix('-') else {
        return Err(Fault::Unread);
    };
    let pair = pair_of(words, word)?;
    let there = remove(words.alloc(), changed, &pair)?;
    out.push_str(if there { "yes " } else { "no " })?;
    Ok(())
}

fn push_steps(
    out: &mut String,
    words: &Words,
    changed: &mut Changed,
    steps: &[&str],
) -> Result<(), Fault>
    requires placed { IsPlaced changed.old.place }
    requires whole { IsWhole changed.old.room }
    ensures placed { OnOk result (IsPlaced changed.new.place) }
{
    for step in steps {
        push_step(out, words, changed, *step)?;
    }
    Ok(())
}

// How many pages these pairs stand on.
fn count_pages(alloc: Global, walked: &[(Pair, u64)]) -> Result<u64, AllocError> {
    let mut places: Vec<u64> = Vec::new(alloc);
    for (_, page) in walked {
        places.push(*page)?;
    }
    places.sort_unstable();
    places.dedup();
    Ok(places.len() as u64)
}

/// `change LENGTH POINTER STEP..`: a tree that begins without a pair, changed step by step: whether each pair
/// that was to be taken out was there, the pairs in the end, and whether the pages of the tree and the free
/// ones are all that were ever made.
fn change(words: &Words, args: &[&str]) -> Result<String, Fault> {
    let [block_length, rec_ref, steps @ ..] = args else {
        return Err(Fault::Unread);
    };
    let alloc = words.alloc();
    let header = vec![in alloc; 0u8; FIRST as usize]?;
    let mut changed = Changed {
        index: index_of(alloc, header, Vec::new(alloc))?,
        place: unrooted(*block_length, *rec_ref)?,
        room: Room {
            end: FIRST,
            free: Sequence::new(Vec::new(alloc)),
        },
    };
    let mut out = String::new(alloc);
    push_steps(&mut out, words, &mut changed, steps)?;
    let Changed { index, place, room } = &mut changed;
    let pairs = walked(alloc, index, *place).map_err(of_tree)?;
    out.push_str("walk")?;
    for (pair, _) in &pairs {
        out.push(' ')?;
        push_word(&mut out, pair.key.code())?;
        write!(out, ":{}", pair.row)?;
    }
    let pages = count_pages(alloc, &pairs)?.wrapping_add(room.free.as_slice().len() as u64);
    let made = room.end.saturating_sub(FIRST);
    let whole = pages.wrapping_mul(place.block_length as u64) == made;
    out.push_str(if whole { " whole" } else { " lost" })?;
    Ok(out)
}

/// The answer to a call of this module, and None where the name is no such call.
pub fn answer(words: &Words, name: &str, args: &[&str]) -> Option<Result<String, Fault>> {
    match name {
        "change" => Some(change(words, args)),
        _ => None,
    }
}
