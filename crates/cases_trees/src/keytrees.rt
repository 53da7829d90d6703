//! Trees of several keys in one index file, from none on, whose first page stands at 1024: changed and searched.
ghost use Rattle.std.specs.Prelude.{◌<◌, length, OnOk, IfOk};
ghost use Rattle.std.specs.List.{AllByRecursion};
ghost use Rattle.myi_btree.specs.Sizes.{IsPlaced};
ghost use Rattle.myi_insertion.specs.Rooms.{IsWhole};

use crate::trees::{FIRST, is_row, of_tree, unrooted};
use case_lines::{Fault, Words, key_of_code, number, push_word, size};
use myi_btree::{Pair, Place, Tree, TreeFault};
use myi_keycache::{CacheSetup, KeyCache};
use myi_keys::KeyVal;
use myi_keytrees::KeyTrees;
use myi_memfiles::MemFiles;
use std::alloc::{AllocError, Global};

/// The name of the index file.
const NAME: &str = "t.MYI";

/// So few pages are kept that others leave.
const SETUP: CacheSetup = CacheSetup {
    blocks: 3,
    division: 50,
    age: 300,
};

/// Trees and their index file.
struct Opened {
    files: MemFiles,
    trees: KeyTrees,
}

impl Drop for Opened {
    fn drop(self) {
        let Opened { files: _, trees: _ } = self;
    }
}

// The number of a key that has a tree.
fn key_of(trees: &KeyTrees, word: &str) -> Result<usize, Fault>
    ensures { IfOk result (λ key. key < length trees.now.places) }
{
    let key = size(word)?;
    if key < trees.count() {
        Ok(key)
    } else {
        Err(Fault::Unread)
    }
}

fn pair_of(words: &Words, code: &str, row: &str) -> Result<Pair, Fault> {
    let row = number(row)?;
    let key = key_of_code(words, code)?;
    Ok(Pair { key, row })
}

// Puts a pair into the tree of a key.
fn insert(opened: &mut Opened, key: usize, pair: &Pair) -> Result<(), Fault>
    requires key { key < length opened.old.trees.places }
    requires whole { IsWhole opened.old.trees.room }
    ensures whole { OnOk result (IsWhole opened.new.trees.room) }
{
    let Opened { files, trees } = opened;
    if !is_row(trees.place(key).rec_ref, pair.row) {
        return Err(Fault::Unread);
    }
    match trees.insert(files, key, pair) {
        Ok(()) => Ok(()),
        Err(fault) => Err(of_tree(fault)),
    }
}

// Takes a pair out of the tree of a key, and tells whether it was there.
fn remove(opened: &mut Opened, key: usize, pair: &Pair) -> Result<bool, Fault>
    requires key { key < length opened.old.trees.places }
    requires whole { IsWhole opened.old.trees.room }
    ensures whole { OnOk result (IsWhole opened.new.trees.room) }
{
    let Opened { files, trees } = opened;
    match trees.remove(files, key, pair) {
        Ok(there) => Ok(there),
        Err(fault) => Err(of_tree(fault)),
    }
}

// The least row of a key value, once all is written.
fn find(opened: &mut Opened, key: usize, value: &KeyVal) -> Result<Option<u64>, TreeFault>
    requires key { key < length opened.old.trees.places }
    requires whole { IsWhole opened.old.trees.room }
    ensures whole { OnOk result (IsWhole opened.new.trees.room) }
{
    let Opened { files, trees } = opened;
    trees.flush(files)?;
    trees.find(files, key, value)
}

// The least pair above another one, once all is written.
fn next_after(
    opened: &mut Opened,
    key: usize,
    after: Option<&Pair>,
) -> Result<Option<Pair>, TreeFault>
    requires key { key < length opened.old.trees.places }
    requires whole { IsWhole opened.old.trees.room }
    ensures whole { OnOk result (IsWhole opened.new.trees.room) }
{
    let Opened { files, trees } = opened;
    trees.flush(files)?;
    trees.next_after(files, key, after)
}

fn push_row(out: &mut String, row: Option<u64>) -> Result<(), AllocError> {
    match row {
        None => out.push_str("none "),
        Some(row) => write!(out, "{row} "),
    }
}

fn push_pair(out: &mut String, pair: &Pair) -> Result<(), AllocError> {
    push_word(out, pair.key.code())?;
    write!(out, ":{} ", pair.row)
}

fn push_next(out: &mut String, pair: Option<Pair>) -> Result<(), AllocError> {
    match pair {
        None => out.push_str("none "),
        Some(pair) => push_pair(out, &pair),
    }
}

// Does what a step says: `+:KEY:CODE:ROW` puts a pair in, `-:KEY:CODE:ROW` takes one out, `least:KEY:CODE` finds a row,
// and `next:KEY` or `next:KEY:CODE:ROW` a pair.
fn push_step(out: &mut String, words: &Words, opened: &mut Opened, step: &str) -> Result<(), Fault>
    requires whole { IsWhole opened.old.trees.room }
    ensures whole { OnOk result (IsWhole opened.new.trees.room) }
{
    let parts: Vec<&str> = step.split(':').collect(words.alloc())?;
    match parts.as_slice() {
        ["+", key, code, row] => {
            let key = key_of(&opened.trees, *key)?;
            let pair = pair_of(words, *code, *row)?;
            insert(opened, key, &pair)
        }
        ["-", key, code, row] => {
            let key = key_of(&opened.trees, *key)?;
            let pair = pair_of(words, *code, *row)?;
            let there = remove(opened, key, &pair)?;
            Ok(out.push_str(if there { "yes " } else { "no " })?)
        }
        ["least", key, code] => {
            let key = key_of(&opened.trees, *key)?;
            let value = key_of_code(words, *code)?;
            let row = find(opened, key, &value).map_err(of_tree)?;
            Ok(push_row(out, row)?)
        }
        ["next", key] => {
            let key = key_of(&opened.trees, *key)?;
            let pair = next_after(opened, key, None).map_err(of_tree)?;
            Ok(push_next(out, pair)?)
        }
        ["next", key, code, row] => {
            let key = key_of(&opened.trees, *key)?;
            let after = pair_of(words, *code, *row)?;
            let pair = next_after(opened, key, Some(&after)).map_err(of_tree)?;
            Ok(push_next(out, pair)?)
        }
        _ => Err(Fault::Unread),
    }
}

fn push_steps(
    out: &mut String,
    words: &Words,
    opened: &mut Opened,
    steps: &[&str],
) -> Result<(), Fault>
    requires { IsWhole opened.old.trees.room }
{
    for step in steps {
        push_step(out, words, opened, *step)?;
    }
    Ok(())
}

// The pairs of the tree at a place in the file, each with its page, read through a cache of their own.
fn walked(alloc: Global, files: &mut MemFiles, place: Place) -> Result<Vec<(Pair, u64)>, TreeFault>
    requires { IsPlaced place }
{
    let mut cache = KeyCache::new(alloc, NAME, SETUP)?;
    cache.flush(files)?;
    Tree::new(place).walk(alloc, files, &mut cache)
}

// Writes the pairs of a tree of the file, and answers how many bytes its pages have.
fn push_tree(
    out: &mut String,
    files: &mut MemFiles,
    trees: &KeyTrees,
    key: usize,
) -> Result<u64, Fault>
    requires { key < length trees.now.places }
{
    let alloc = *out.allocator();
    let place = trees.place(key);
    let pairs = walked(alloc, files, place).map_err(of_tree)?;
    let mut pages: Vec<u64> = Vec::new(alloc);
    write!(out, "walk {key} ")?;
    for (pair, page) in &pairs {
        push_pair(out, pair)?;
        pages.push(*page)?;
    }
    pages.sort_unstable();
    pages.dedup();
    Ok((pages.len() as u64).wrapping_mul(place.block_length as u64))
}

// Writes the trees of the file, and whether their pages and the free ones are all bytes that were ever taken.
fn push_trees(out: &mut String, opened: &mut Opened) -> Result<(), Fault> {
    let Opened { files, trees } = opened;
    let mut bytes = trees.room_bytes();
    for key in 0..trees.count() {
        let more = push_tree(out, files, trees, key)?;
        bytes = bytes.wrapping_add(more);
    }
    let taken = trees.end().saturating_sub(FIRST);
    out.push_str(if bytes == taken { "whole" } else { "lost" })?;
    Ok(())
}

fn flushed(opened: &mut Opened) -> Result<(), TreeFault> {
    let Opened { files, trees } = opened;
    trees.flush(files)
}

// Adds the place of a tree without a pair, whose pages have this length.
fn push_place(places: &mut Vec<Place>, rec_ref: &str, length: &str) -> Result<(), Fault>
    requires { AllByRecursion IsPlaced places.old.items }
    ensures { OnOk result (AllByRecursion IsPlaced places.new.items) }
{
    let place = unrooted(length, rec_ref)?;
    places.push(place)?;
    Ok(())
}

// Trees without a pair, whose pages have these lengths.
fn opened_with(words: &Words, rec_ref: &str, lengths: &str) -> Result<Opened, Fault>
    ensures { IfOk result (λ opened. IsWhole opened.trees.room) }
{
    let alloc = words.alloc();
    let mut places: Vec<Place> = Vec::new(alloc);
    for length in lengths.split(',') {
        push_place(&mut places, rec_ref, length)?;
    }
    let header = vec![in alloc; 0u8; FIRST as usize]?;
    let given = vec![in alloc; (String::from_str(alloc, NAME)?, header)]?;
    Ok(Opened {
        files: MemFiles::new(alloc, given, Vec::new(alloc))?,
        trees: KeyTrees::open(alloc, NAME, SETUP, places, FIRST)?,
    })
}

/// `keytrees POINTER LENGTH,.. STEP..`: trees that begin without a pair, one for each length of a page, changed and
/// searched step by step; then the pairs of each tree as the file has them, and whether the pages of the trees and
/// the free ones are all that were ever made.
fn keytrees(words: &Words, args: &[&str]) -> Result<String, Fault> {
    let [rec_ref, lengths, steps @ ..] = args else {
        return Err(Fault::Unread);
    };
    let mut opened = opened_with(words, *rec_ref, *lengths)?;
    let mut out = String::new(words.alloc());
    push_steps(&mut out, words, &mut opened, steps)?;
    flushed(&mut opened).map_err(of_tree)?;
    push_trees(&mut out, &mut opened)?;
    Ok(out)
}

/// The answer to a call of this module, and None where the name is no such call.
pub fn answer(words: &Words, name: &str, args: &[&str]) -> Option<Result<String, Fault>> {
    match name {
        "keytrees" => Some(keytrees(words, args)),
        _ => None,
    }
}
