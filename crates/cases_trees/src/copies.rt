//! Trees that are laid anew into another file.

ghost use Rattle.myi_btree.specs.Sizes.{IsPlaced};

use crate::trees::{Index, NAME, built, unrooted};
use case_lines::{Fault, Words, four_bytes, number, push_word, size};
use myi_btree::Place;
use myi_io::Files;
use myi_treecopy::{CopyFault, TreeCopy, copy_tree};

/// The name of the file into which trees are copied.
const COPY: &str = "u.MYI";

// Copies the tree of that root into another file, from a place on, and writes where it ends there, or `damaged AT`, and
// the other file.
fn push_copy(
    out: &mut String,
    index: &mut Index,
    place: Place,
    root: u64,
    start: u64,
    limit: u64,
) -> Result<(), Fault>
    requires { IsPlaced place }
{
    let alloc = *out.allocator();
    if start % 1024 != 0 || index.files.cut(COPY, 0).is_err() {
        return Err(Fault::Unread);
    }
    let copy = TreeCopy {
        alloc,
        old: NAME,
        new: COPY,
        place,
        limit,
    };
    match copy_tree(&copy, &mut index.files, root, start) {
        Ok(end) => write!(out, "end {end} ")?,
        Err(CopyFault::Damaged { at }) => write!(out, "damaged {at} ")?,
        Err(CopyFault::Memory) => return Err(Fault::Memory),
        Err(CopyFault::File) => return Err(Fault::Unread),
    }
    push_word(out, index.files.get(COPY).unwrap_or_default())?;
    Ok(())
}

/// `copied LENGTH POINTER WIDTH COUNT START LIMIT`: the tree that `laid` builds, copied into another file from a
/// place on: behind its root where the copy ends, or `damaged AT`, and the other file. `copied_round` copies it once
/// its root names itself as its first child.
fn copied(words: &Words, args: &[&str], round: bool) -> Result<String, Fault> {
    let [block_length, rec_ref, width, count, start, limit] = args else {
        return Err(Fault::Unread);
    };
    let alloc = words.alloc();
    let place = unrooted(*block_length, *rec_ref)?;
    let (start, limit) = (number(*start)?, number(*limit)?);
    let mut out = String::new(alloc);
    let (mut index, root) = built(&mut out, place, size(*width)?, four_bytes(*count)?)?;
    let Some(root) = root else {
        return Ok(out);
    };
    if round && !names_itself(&mut index, root) {
        return Err(Fault::Unread);
    }
    push_copy(&mut out, &mut index, place, root, start, limit)?;
    Ok(out)
}

// Writes the place of a page as its first child, which stands in seven bytes behind the first two, as a number of
// 1024 bytes, and answers whether that was written.
fn names_itself(index: &mut Index, page: u64) -> bool {
    let number = (page / 1024).to_be_bytes();
    match page.checked_add(2) {
        Some(child) => index.files.write_at(NAME, child, &number[1..]).is_ok(),
        None => false,
    }
}

/// The answer to a call of this module, and None where the name is no such call.
pub fn answer(words: &Words, name: &str, args: &[&str]) -> Option<Result<String, Fault>> {
    match name {
        "copied" => Some(copied(words, args, false)),
        "copied_round" => Some(copied(words, args, true)),
        _ => None,
    }
}
