//! Whether entries fit into a page.
ghost use Rattle.std.specs.Prelude.{◌≡◌, ◌+◌, ◌^◌, ◌<◌, ◌≤◌, ◌↔◌, if◌then◌else◌};
ghost use Rattle.std.specs.Prelude.{ℕ, length, take, IsTrue};
ghost use Rattle.myi_keypage.specs.Page.{entry_with, number_bytes, entry_bytes};
ghost use Rattle.myi_keypage.specs.Fitting.{used_length};

use crate::entry::{Entry, shared_length};
use crate::item::{CHILD_LENGTH, HEAD_LENGTH, WIDE};
use crate::list::EntryList;

fn number_length(number: usize) -> usize
    ensures value { result ≡ length (number_bytes number) }
    ensures bound { result ≤ 3 }
{
    if number < WIDE as usize { 1 } else { 3 }
}

/// How long an entry with this key is.
#[tactic(auto, using(crate::proofs::WriteLaws::length_packed))]
pub(crate) fn entry_length(rec_ref: usize, before: &[u8], key: &[u8]) -> usize
    requires { rec_ref ≤ 8 }
    ensures value { (row : ℕ)
        → result ≡ length (entry_bytes rec_ref before.now (entry_with key.now row)) }
    ensures bound { result < 2 ^ 63 + 16 }
{
    let prefix = shared_length(before, key);
    let rest = key.len() - prefix;
    number_length(prefix) + number_length(rest) + rest + rec_ref
}

fn child_length(node: bool) -> usize
    ensures value { result ≡ (if node then 7 else 0) }
    ensures bound { result ≤ 7 }
{
    if node { CHILD_LENGTH } else { 0 }
}

/// How many entries from the front of a list fit, with row pointers of `rec_ref` bytes, into a page of
/// `room` bytes that is a leaf or a node: the greatest such number.
pub fn fitting_of<L: EntryList>(entries: &L, node: bool, rec_ref: u8, room: usize) -> usize
    requires wide { 2 ≤ rec_ref }
    requires narrow { rec_ref ≤ 8 }
    ensures inside { result ≤ length (L.entries entries.now) }
    ensures exact { (count : ℕ) → 0 < count → count ≤ length (L.entries entries.now)
        → (count ≤ result)
        ↔ (used_length rec_ref node (take count (L.entries entries.now)) ≤ room) }
{
    let child = child_length(node);
    if room < HEAD_LENGTH + child {
        return 0;
    }
    let mut left = room - HEAD_LENGTH - child;
    let mut before: &[u8] = &[];
    for i in 0..entries.count() {
        let key = entries.code(i);
        let need = entry_length(rec_ref as usize, before, key) + child;
        if left < need {
            return i;
        }
        left -= need;
        before = key;
    }
    entries.count()
}

/// How many entries from the front fit, with row pointers of `rec_ref` bytes, into a page of `room`
/// bytes that is a leaf or a node: the greatest such number.
pub fn fitting(entries: &[Entry], node: bool, rec_ref: u8, room: usize) -> usize
    requires wide { 2 ≤ rec_ref }
    requires narrow { rec_ref ≤ 8 }
    ensures inside { result ≤ length entries.now }
    ensures exact { (count : ℕ) → 0 < count → count ≤ length entries.now
        → (count ≤ result) ↔ (used_length rec_ref node (take count entries.now) ≤ room) }
{
    fitting_of(&entries, node, rec_ref, room)
}

/// Whether the entries, with row pointers of `rec_ref` bytes, and in a node their children, take at
/// most `length` bytes in a page.
pub fn fits(entries: &[Entry], node: bool, rec_ref: u8, length: usize) -> bool
    requires wide { 2 ≤ rec_ref }
    requires narrow { rec_ref ≤ 8 }
    ensures { IsTrue result ↔ (used_length rec_ref node entries.now ≤ length) }
{
    if length < HEAD_LENGTH + child_length(node) {
        return false;
    }
    fitting(entries, node, rec_ref, length) == entries.len()
}
