//! Moving the children of a page.
//!
//! The pages of a tree that are to stand elsewhere are the same but for their children, which are changed
//! in place: `shift_page` goes over the entries of a node, and adds to each child.
ghost use Rattle.std.specs.Prelude.{◌≡◌, ◌+◌, ◌/◌, ◌^◌, ◌<◌, ◌≤◌, ◌++◌, ℕ, List, length, take, drop};
ghost use Rattle.myi_base.specs.Numbers.{num_at, num_bytes};
ghost use Rattle.myi_keypage.specs.declared.entry.Entry.{Entry};
ghost use Rattle.myi_keypage.specs.Page.{Page, packed_bytes, page_bytes, entries_bytes};
ghost use Rattle.myi_keypage.specs.Shifting.{further, shifted, CanShift, HasEntries};

use crate::item::{CHILD_LENGTH, HEAD_LENGTH, NODE_BIT, PLACE_UNIT, read_item};
use myi_base::{number_at, put_number};

// Adds to the child at a place, and answers the place behind it.
fn shift_child(page: &mut [u8], at: usize, by: u64) -> usize
    requires room { at + 7 ≤ length page.old }
    requires small { num_at at 7 page.old + by / 1024 < 2 ^ 56 }
    ensures end { result ≡ at + 7 }
    ensures long { length page.new ≡ length page.old }
    ensures front { take (at + 7) page.new
        ≡ take at page.old ++ num_bytes 7 (num_at at 7 page.old + by / 1024) }
    ensures back { drop (at + 7) page.new ≡ drop (at + 7) page.old }
{
    let number = number_at(page, at, CHILD_LENGTH) + by / PLACE_UNIT;
    put_number(page, at, CHILD_LENGTH, number);
    at + CHILD_LENGTH
}

// How long the entry is that stands at the front of the bytes.
pub(crate) fn entry_size(bytes: &[u8], rec_ref: usize) -> usize
    requires { rec_ref ≤ 8 }
    ensures value { (prefix row : ℕ) (rest more : List ℕ) → prefix < 65536 → length rest < 65536
        → row < 256 ^ rec_ref → bytes.now ≡ packed_bytes rec_ref prefix rest row ++ more
        → result ≡ length (packed_bytes rec_ref prefix rest row) }
    ensures bound { result ≤ length bytes.now }
{
    match read_item(false, rec_ref, bytes) {
        Some((_, rest)) => bytes.len().saturating_sub(rest.len()),
        None => 0,
    }
}

// Adds to the child after each entry, from a place up to another.
fn shift_entries(page: &mut [u8], at: usize, used: usize, rec_ref: usize, by: u64)
    requires narrow { rec_ref ≤ 8 }
    requires left { (done before rest : List ℕ) × (entries : List Entry) × (children : List ℕ)
        × HasEntries rec_ref by page.old at used done before entries children rest }
    ensures long { length page.new ≡ length page.old }
    ensures text { (done before : List ℕ) (entries : List Entry) (children rest : List ℕ)
        → HasEntries rec_ref by page.old at used done before entries children rest
        → page.new
        ≡ done ++ (entries_bytes rec_ref before entries (further by children) ++ rest) }
{
    let mut at = at;
    'entries: while at < used {
        at += entry_size(&page[at..], rec_ref);
        at = shift_child(page, at, by);
    }
}

/// Adds so many bytes to the place of each child of a page, and changes nothing else.
pub fn shift_page(page: &mut [u8], rec_ref: u8, by: u64)
    requires narrow { rec_ref ≤ 8 }
    requires page { (p : Page) × (rest : List ℕ) × CanShift rec_ref by p
        × (page.old ≡ page_bytes rec_ref p ++ rest) }
    ensures long { length page.new ≡ length page.old }
    ensures text { (p : Page) (rest : List ℕ) → CanShift rec_ref by p
        → page.old ≡ page_bytes rec_ref p ++ rest
        → page.new ≡ page_bytes rec_ref (shifted by p) ++ rest }
{
    if page[0] < NODE_BIT {
        return;
    }
    let used = (page[0] - NODE_BIT) as usize * 256 + page[1] as usize;
    let at = shift_child(page, HEAD_LENGTH, by);
    shift_entries(page, at, used, rec_ref as usize, by);
}
