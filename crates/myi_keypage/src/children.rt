//! Putting other places into the children of a page.
//!
//! Pages of a tree that are laid anew are the same but for their children: `put_children` goes over the entries of
//! a node, and writes each child.
ghost use Rattle.std.specs.Prelude.{◌≡◌, ◌+◌, ◌/◌, ◌^◌, ◌<◌, ◌≤◌, ◌++◌, ℕ, List, length, take, drop};
ghost use Rattle.std.specs.List.{AllByRecursion};
ghost use Rattle.myi_keypage.specs.declared.entry.Entry.{Entry};
ghost use Rattle.myi_keypage.specs.Page.{Page, page_bytes, entries_bytes, child_bytes, IsPlace};
ghost use Rattle.myi_keypage.specs.Children.{with_children, CanTake, HasChildren};

use crate::item::{CHILD_LENGTH, HEAD_LENGTH, PLACE_UNIT};
use crate::shift::entry_size;
use myi_base::put_number;

// Writes a child over the one at a place, and answers the place behind it.
fn set_child(page: &mut [u8], at: usize, child: u64) -> usize
    requires room { at + 7 ≤ length page.old }
    requires small { child / 1024 < 2 ^ 56 }
    ensures end { result ≡ at + 7 }
    ensures long { length page.new ≡ length page.old }
    ensures front { take (at + 7) page.new ≡ take at page.old ++ child_bytes child }
    ensures back { drop (at + 7) page.new ≡ drop (at + 7) page.old }
{
    put_number(page, at, CHILD_LENGTH, child / PLACE_UNIT);
    at + CHILD_LENGTH
}

// Writes a child after each entry, from a place on.
fn set_children(page: &mut [u8], at: usize, rec_ref: usize, children: &[u64])
    requires narrow { rec_ref ≤ 8 }
    requires places { AllByRecursion IsPlace children.now }
    requires left { (done before rest : List ℕ) × (entries : List Entry) × (former : List ℕ)
        × HasChildren rec_ref page.old at done before entries former rest
        × (length children.now ≡ length former) }
    ensures long { length page.new ≡ length page.old }
    ensures text { (done before : List ℕ) (entries : List Entry) (former rest : List ℕ)
        → HasChildren rec_ref page.old at done before entries former rest
        → length children.now ≡ length former
        → page.new ≡ done ++ (entries_bytes rec_ref before entries children.now ++ rest) }
{
    let mut at = at;
    for i in 0..children.len() {
        at += entry_size(&page[at..], rec_ref);
        at = set_child(page, at, children[i]);
    }
}

/// Writes these places over the children of a page, of which there are as many, and changes nothing else.
pub fn put_children(page: &mut [u8], rec_ref: u8, children: &[u64])
    requires narrow { rec_ref ≤ 8 }
    requires page { (p : Page) × (rest : List ℕ) × CanTake rec_ref children.now p
        × (page.old ≡ page_bytes rec_ref p ++ rest) }
    ensures long { length page.new ≡ length page.old }
    ensures text { (p : Page) (rest : List ℕ) → CanTake rec_ref children.now p
        → page.old ≡ page_bytes rec_ref p ++ rest
        → page.new ≡ page_bytes rec_ref (with_children children.now p) ++ rest }
{
    let [first, others @ ..] = children else {
        return;
    };
    let at = set_child(page, HEAD_LENGTH, *first);
    set_children(page, at, rec_ref as usize, others);
}
