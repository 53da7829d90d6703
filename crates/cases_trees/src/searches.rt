//! Searches in trees of an index file, whose first page stands at 1024.
ghost use Rattle.myi_btree.specs.Sizes.{IsPlaced};

use crate::trees::{Index, index_of, of_tree, pair_of, unrooted};
use case_lines::{Fault, Words, key_of_code, place, push_word};
use myi_btree::{Place, TreeFault};
use myi_keylist::Pair;
use myi_keys::KeyVal;
use myi_search::TreeCursor;
use std::alloc::Global;

/// A cursor is asked no more often for the next pair.
const MOST_PAIRS: usize = 10_000;

// The pair that a word says, and None for `-`.
fn pair_or_none(words: &Words, word: &str) -> Result<Option<Pair>, Fault> {
    if word == "-" {
        return Ok(None);
    }
    Ok(Some(pair_of(words, word)?))
}

fn found(
    alloc: Global,
    index: &mut Index,
    place: &Place,
    key: &KeyVal,
) -> Result<Option<u64>, TreeFault>
    requires { IsPlaced place.now }
{
    let Index { files, cache, .. } = index;
    cache.flush(files)?;
    myi_search::find(alloc, place, files, cache, key)
}

fn next_pair(
    alloc: Global,
    index: &mut Index,
    place: &Place,
    after: Option<&Pair>,
) -> Result<Option<Pair>, TreeFault>
    requires { IsPlaced place.now }
{
    let Index { files, cache, .. } = index;
    cache.flush(files)?;
    myi_search::next_after(alloc, place, files, cache, after)
}

fn push_fault(out: &mut String, fault: TreeFault) -> Result<(), Fault> {
    match fault {
        TreeFault::Damaged { at } => Ok(write!(out, "damaged {at}")?),
        fault => Err(of_tree(fault)),
    }
}

// Appends how many pages the cache was asked for.
fn push_asked(out: &mut String, index: &Index) -> Result<(), Fault> {
    let asked = index.cache.counters().read_requests;
    Ok(write!(out, " asked {asked}")?)
}

/// `find LENGTH POINTER ROOT CODE BYTES`: the least row of a key among the pairs of the tree with that root in
/// an index file, and how many pages the cache was asked for.
fn find(words: &Words, args: &[&str]) -> Result<String, Fault> {
    let [block_length, rec_ref, root, code, bytes] = args else {
        return Err(Fault::Unread);
    };
    let alloc = words.alloc();
    let place = Place {
        root: place(*root)?,
        ..unrooted(*block_length, *rec_ref)?
    };
    let key = key_of_code(words, *code)?;
    let mut index = index_of(alloc, words.bytes(*bytes)?, Vec::new(alloc))?;
    let mut out = String::new(alloc);
    match found(alloc, &mut index, &place, &key) {
        Ok(Some(row)) => write!(out, "{row}")?,
        Ok(None) => out.push_str("none")?,
        Err(fault) => push_fault(&mut out, fault)?,
    }
    push_asked(&mut out, &index)?;
    Ok(out)
}

/// `next LENGTH POINTER ROOT AFTER BYTES`: the least pair of that tree above `CODE:ROW`, or the least one, and
/// how many pages the cache was asked for.
fn next(words: &Words, args: &[&str]) -> Result<String, Fault> {
    let [block_length, rec_ref, root, after, bytes] = args else {
        return Err(Fault::Unread);
    };
    let alloc = words.alloc();
    let place = Place {
        root: place(*root)?,
        ..unrooted(*block_length, *rec_ref)?
    };
    let after = pair_or_none(words, *after)?;
    let mut index = index_of(alloc, words.bytes(*bytes)?, Vec::new(alloc))?;
    let mut out = String::new(alloc);
    match next_pair(alloc, &mut index, &place, after.as_ref()) {
        Ok(Some(pair)) => {
            push_word(&mut out, pair.key.code())?;
            write!(out, ":{}", pair.row)?;
        }
        Ok(None) => out.push_str("none")?,
        Err(fault) => push_fault(&mut out, fault)?,
    }
    push_asked(&mut out, &index)?;
    Ok(out)
}

// Goes on with a cursor, once all is written.
fn advance(
    alloc: Global,
    index: &mut Index,
    place: &Place,
    cursor: &mut TreeCursor,
) -> Result<bool, TreeFault>
    requires { IsPlaced place.now }
{
    let Index { files, cache, .. } = index;
    cache.flush(files)?;
    cursor.advance(alloc, place, files, cache)
}

// Appends the pair that a cursor stands behind.
fn push_pair(out: &mut String, cursor: &TreeCursor) -> Result<(), Fault> {
    if let Some((code, row)) = cursor.pair() {
        push_word(out, code)?;
        write!(out, ":{row} ")?;
    }
    Ok(())
}

// Appends each pair that a cursor comes to.
fn push_pairs(
    out: &mut String,
    index: &mut Index,
    place: &Place,
    cursor: &mut TreeCursor,
) -> Result<(), Fault>
    requires { IsPlaced place.now }
{
    for _turn in 0..MOST_PAIRS {
        match advance(*out.allocator(), index, place, cursor) {
            Ok(true) => push_pair(out, cursor)?,
            Ok(false) => return Ok(out.push_str("end")?),
            Err(fault) => return push_fault(out, fault),
        }
    }
    Err(Fault::Unread)
}

/// `pairs LENGTH POINTER ROOT AFTER BYTES`: the pairs of that tree above `CODE:ROW`, or all, one after the other by a
/// cursor, and how many pages the cache was asked for.
fn pairs(words: &Words, args: &[&str]) -> Result<String, Fault> {
    let [block_length, rec_ref, root, after, bytes] = args else {
        return Err(Fault::Unread);
    };
    let alloc = words.alloc();
    let place = Place {
        root: place(*root)?,
        ..unrooted(*block_length, *rec_ref)?
    };
    let mut cursor = match pair_or_none(words, *after)? {
        Some(pair) => TreeCursor::behind(alloc, &pair)?,
        None => TreeCursor::new(alloc),
    };
    let mut index = index_of(alloc, words.bytes(*bytes)?, Vec::new(alloc))?;
    let mut out = String::new(alloc);
    push_pairs(&mut out, &mut index, &place, &mut cursor)?;
    push_asked(&mut out, &index)?;
    Ok(out)
}

/// The answer to a call of this module, and None where the name is no such call.
pub fn answer(words: &Words, name: &str, args: &[&str]) -> Option<Result<String, Fault>> {
    match name {
        "find" => Some(find(words, args)),
        "next" => Some(next(words, args)),
        "pairs" => Some(pairs(words, args)),
        _ => None,
    }
}
