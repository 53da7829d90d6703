//! Putting an entry into a leaf that stands in bytes.
//!
//! Of the other entries only the one behind it is spelled anew, since its key has another one before it; the bytes of
//! those before and behind are copied. `write_with` goes over the entries before it once (`pass_entries`), and puts
//! what is left behind it (`put_rest`).
ghost use Rattle.std.specs.Prelude.{◌≡◌, ◌+◌, ◌^◌, ◌<◌, ◌≤◌, ◌↔◌, true, false, List, [], length, take, drop, IfSome, IfNone, IsTrue};
ghost use Rattle.myi_keypage.specs.declared.entry.Entry.{Entry};
ghost use Rattle.myi_keypage.specs.Page.{page_with, entry_with, entry_bytes, entries_bytes, page_bytes, IsPage};
ghost use Rattle.myi_keypage.specs.Fitting.{used_length};
ghost use Rattle.myi_keypage.specs.Writing.{Puts, filled_up};
ghost use Rattle.myi_keypage.specs.PuttingIn.{key_before, with_entry, AreEntries};

use crate::fit::entry_length;
use crate::item::{HEAD_LENGTH, NODE_BIT, read_item};
use crate::prefix::keep_key;
use crate::write::{put, put_entry, put_head, put_zeros};

/// No page uses more bytes: a block is 16,384 at most.
const MOST_WRITTEN: usize = 16_384;

/// No page of the least block uses more.
const FEW_WRITTEN: usize = 1_024;

/// An entry that lends its key's code.
#[derive(Clone, Copy)]
pub struct LentEntry<'a> {
    pub key: &'a [u8],
    pub row: u64,
}

/// The entries of a leaf from one on, by their bytes.
#[derive(Clone, Copy)]
struct Rest<'a> {
    text: &'a [u8],
    rec_ref: usize,
}

// Puts an entry behind the key before it, where there is room for it, and answers the place behind it.
fn put_if_room(
    into: &mut [u8],
    at: usize,
    rec_ref: usize,
    before: &[u8],
    key: &[u8],
    row: u64,
) -> Option<usize>
    requires narrow { rec_ref ≤ 8 }
    requires row { row < 256 ^ rec_ref }
    requires few { length before.now < 49152 }
    requires limit { length into.old ≤ 16384 }
    ensures some { IfSome result (λ end. Puts into.old at into.new end
        (entry_bytes rec_ref before.now (entry_with key.now row))) }
    ensures none { IfNone result (length into.old < at
        + length (entry_bytes rec_ref before.now (entry_with key.now row))) }
    ensures inside { IfSome result (λ end. end ≤ length into.old) }
    ensures long { length into.new ≡ length into.old }
{
    let need = entry_length(rec_ref, before, key);
    if into.len() < at || into.len() - at < need {
        return None;
    }
    Some(put_entry(into, at, rec_ref, before, key, row))
}

// Goes over the first entries of a leaf. Answers the bytes that are left, and the length of the key before them, which
// stands in the buffer.
fn pass_entries<'a>(
    all: &'a [u8],
    rec_ref: usize,
    count: usize,
    key: &mut [u8],
) -> (&'a [u8], usize)
    requires narrow { rec_ref ≤ 8 }
    requires small { length key.old ≤ 32768 }
    requires short { length all.now ≤ length key.old }
    requires entries { (es : List Entry) × AreEntries rec_ref [] es all.now × (count ≤ length es) }
    ensures long { length key.new ≡ length key.old }
    ensures short { result.1 + length result.0.now ≤ length key.old }
    ensures rest { (es : List Entry) → AreEntries rec_ref [] es all.now → count ≤ length es
        → AreEntries rec_ref (key_before [] es count) (drop count es) result.0.now }
    ensures key { (es : List Entry) → AreEntries rec_ref [] es all.now → count ≤ length es
        → take result.1 key.new ≡ key_before [] es count }
{
    let mut text = all;
    let mut len = 0;
    for _turn in 0..count {
        let Some((item, after)) = read_item(false, rec_ref, text) else {
            unreachable!();
        };
        len = keep_key(key, len, &item);
        text = after;
    }
    (text, len)
}

// Puts what is left of a leaf behind another key, where there is room for it, and answers the place behind it. The key
// that was before it stands in the buffer, and is as long as is said.
fn put_rest(
    rest: &Rest,
    key: &mut [u8],
    len: usize,
    before: &[u8],
    into: &mut [u8],
    to: usize,
) -> Option<usize>
    requires narrow { rest.now.rec_ref ≤ 8 }
    requires small { length key.old ≤ 32768 }
    requires short { len + length rest.now.text.now ≤ length key.old }
    requires entries { (es : List Entry)
        × AreEntries rest.now.rec_ref (take len key.old) es rest.now.text.now }
    requires few { length before.now < 49152 }
    requires limit { length into.old ≤ 16384 }
    requires room { to ≤ length into.old }
    ensures some { IfSome result (λ end. (es : List Entry)
        → AreEntries rest.now.rec_ref (take len key.old) es rest.now.text.now
        → Puts into.old to into.new end (entries_bytes rest.now.rec_ref before.now es [])) }
    ensures none { IfNone result ((es : List Entry)
        → AreEntries rest.now.rec_ref (take len key.old) es rest.now.text.now
        → length into.old < to + length (entries_bytes rest.now.rec_ref before.now es [])) }
    ensures inside { IfSome result (λ end. end ≤ length into.old) }
    ensures long { length into.new ≡ length into.old }
{
    if rest.text.is_empty() {
        return Some(to);
    }
    let Some((item, after)) = read_item(false, rest.rec_ref, rest.text) else {
        unreachable!();
    };
    let len = keep_key(key, len, &item);
    let Some(end) = put_if_room(into, to, rest.rec_ref, before, &key[..len], item.row) else {
        return None;
    };
    if into.len() - end < after.len() {
        return None;
    }
    Some(put(into, end, after))
}

// Writes the leaf of these entries with one more, with a buffer for keys.
fn write_in(all: &Rest, index: usize, entry: &LentEntry, key: &mut [u8], into: &mut [u8]) -> bool
    requires narrow { all.now.rec_ref ≤ 8 }
    requires small { length key.old ≤ 16384 }
    requires short { length all.now.text.now ≤ length key.old }
    requires row { entry.now.row < 256 ^ all.now.rec_ref }
    requires limit { length into.old ≤ 16384 }
    requires room { 2 + length all.now.text.now ≤ length into.old }
    requires entries { (es : List Entry) × AreEntries all.now.rec_ref [] es all.now.text.now
        × (index ≤ length es) }
    ensures long { length into.new ≡ length into.old }
    ensures fits { (es : List Entry) → AreEntries all.now.rec_ref [] es all.now.text.now
        → index ≤ length es → IsTrue result ↔ (used_length all.now.rec_ref false
        (with_entry index (entry_with entry.now.key.now entry.now.row) es) ≤ length into.old) }
    ensures written { (es : List Entry) → AreEntries all.now.rec_ref [] es all.now.text.now
        → index ≤ length es → result ≡ true → into.new ≡ filled_up (page_bytes all.now.rec_ref
        (page_with (with_entry index (entry_with entry.now.key.now entry.now.row) es) []))
        (length into.old) }
{
    let rec_ref = all.rec_ref;
    let (text, len) = pass_entries(all.text, rec_ref, index, key);
    let front = &all.text[..all.text.len().saturating_sub(text.len())];
    let at = put(into, HEAD_LENGTH, front);
    let Some(to) = put_if_room(into, at, rec_ref, &key[..len], entry.key, entry.row) else {
        return false;
    };
    let rest = Rest { text, rec_ref };
    let Some(end) = put_rest(&rest, key, len, entry.key, into, to) else {
        return false;
    };
    put_head(into, false, end);
    put_zeros(into, end);
    true
}

/// Writes the leaf that a page is, with an entry put in behind so many of its own, with row pointers of `rec_ref` bytes
/// and zeros behind the used length, where it fits, and answers whether it does. The leaf is at most as long as the
/// block, and the block at most 16,384 bytes.
pub fn write_with(
    page: &[u8],
    index: usize,
    entry: &LentEntry,
    rec_ref: u8,
    into: &mut [u8],
) -> bool
    requires wide { 2 ≤ rec_ref }
    requires narrow { rec_ref ≤ 8 }
    requires limit { length into.old ≤ 16384 }
    requires room { length page.now ≤ length into.old }
    requires row { entry.now.row < 256 ^ rec_ref }
    requires leaf { (es : List Entry) × IsPage rec_ref page.now (page_with es [])
        × (index ≤ length es) }
    ensures long { length into.new ≡ length into.old }
    ensures fits { (es : List Entry) → IsPage rec_ref page.now (page_with es [])
        → index ≤ length es → IsTrue result ↔ (used_length rec_ref false
        (with_entry index (entry_with entry.now.key.now entry.now.row) es) ≤ length into.old) }
    ensures written { (es : List Entry) → IsPage rec_ref page.now (page_with es [])
        → index ≤ length es → result ≡ true → into.new ≡ filled_up (page_bytes rec_ref
        (page_with (with_entry index (entry_with entry.now.key.now entry.now.row) es) []))
        (length into.old) }
    ensures page { (es : List Entry) → IsPage rec_ref page.now (page_with es [])
        → index ≤ length es → result ≡ true → IsPage rec_ref into.new
        (page_with (with_entry index (entry_with entry.now.key.now entry.now.row) es) []) }
{
    let used = (page[0] % NODE_BIT) as usize * 256 + page[1] as usize;
    let all = Rest {
        text: &page[HEAD_LENGTH..used],
        rec_ref: rec_ref as usize,
    };
    if used <= FEW_WRITTEN {
        return write_in(&all, index, entry, &mut [0u8; FEW_WRITTEN], into);
    }
    write_in(&all, index, entry, &mut [0u8; MOST_WRITTEN], into)
}
