//! How a page is written.
//!
//! Each writer here puts one thing at a place of a slice and answers the place behind it. `write_page`
//! puts the first two bytes, the body, and zeros behind it.
ghost use Rattle.std.specs.Prelude.{◌≡◌, ◌+◌, ◌-◌, ◌^◌, ◌<◌, ◌≤◌, ◌++◌};
ghost use Rattle.std.specs.Prelude.{[], length, take, drop, replicate, Some};
ghost use Rattle.std.specs.List.{AllByRecursion};
ghost use Rattle.myi_base.specs.Numbers.{num_bytes};
ghost use Rattle.myi_keypage.specs.Page.{page_with, entry_with, number_bytes, child_bytes, entry_bytes};
ghost use Rattle.myi_keypage.specs.Page.{entries_bytes, body_bytes, head_bytes, page_bytes};
ghost use Rattle.myi_keypage.specs.Page.{is_node, IsPlace, IsBranching, IsPage};
ghost use Rattle.myi_keypage.specs.Views.{page_in};
ghost use Rattle.myi_keypage.specs.Fitting.{used_length};
ghost use Rattle.myi_keypage.specs.Writing.{Puts, IsMatching, filled_up};

use crate::entry::{Entry, shared_length};
use crate::item::{CHILD_LENGTH, HEAD_LENGTH, NODE_BIT, PLACE_UNIT, WIDE};
use crate::list::EntryList;

/// Puts bytes at a place, and answers the place behind them.
pub(crate) fn put(into: &mut [u8], at: usize, bytes: &[u8]) -> usize
    requires { at + length bytes.now ≤ length into.old }
    ensures { Puts into.old at into.new result bytes.now }
{
    let end = at + bytes.len();
    into[at..end].copy_from_slice(bytes);
    end
}

// A number in its shortest form.
fn put_number(into: &mut [u8], at: usize, number: usize) -> usize
    requires small { number < 65536 }
    requires room { at + length (number_bytes number) ≤ length into.old }
    ensures { Puts into.old at into.new result (number_bytes number) }
{
    if number < WIDE as usize {
        put(into, at, &[number as u8])
    } else {
        put(
            into,
            at,
            &[WIDE, (number / 256) as u8, (number % 256) as u8],
        )
    }
}

// A number in `count` bytes.
fn put_pointer(into: &mut [u8], at: usize, count: usize, number: u64) -> usize
    requires narrow { count ≤ 8 }
    requires fits { number < 256 ^ count }
    requires room { at + count ≤ length into.old }
    ensures { Puts into.old at into.new result (num_bytes count number) }
{
    myi_base::put_number(into, at, count, number);
    at + count
}

/// An entry behind the key before it.
#[tactic(auto, using(crate::proofs::WriteLaws::lengths))]
pub(crate) fn put_entry(
    into: &mut [u8],
    at: usize,
    rec_ref: usize,
    before: &[u8],
    key: &[u8],
    row: u64,
) -> usize
    requires narrow { rec_ref ≤ 8 }
    requires row { row < 256 ^ rec_ref }
    requires few { length before.now
        + length (entry_bytes rec_ref before.now (entry_with key.now row)) < 65536 }
    requires room { at + length (entry_bytes rec_ref before.now (entry_with key.now row))
        ≤ length into.old }
    ensures { Puts into.old at into.new result
        (entry_bytes rec_ref before.now (entry_with key.now row)) }
{
    let prefix = shared_length(before, key);
    let rest = &key[prefix..];
    let at = put_number(into, at, prefix);
    let at = put_number(into, at, rest.len());
    let at = put(into, at, rest);
    put_pointer(into, at, rec_ref, row)
}

fn put_child(into: &mut [u8], at: usize, place: u64) -> usize
    requires { at + 7 ≤ length into.old }
    ensures { Puts into.old at into.new result (child_bytes place) }
{
    put_pointer(into, at, CHILD_LENGTH, place / PLACE_UNIT)
}

// The entries, and the child after each in a node.
fn put_entries<L: EntryList>(
    into: &mut [u8],
    at: usize,
    rec_ref: usize,
    entries: &L,
    children: &[u64],
) -> usize
    requires narrow { rec_ref ≤ 8 }
    requires rows { AllByRecursion (λ e. e.row < 256 ^ rec_ref) (L.entries entries.now) }
    requires matching { IsMatching (L.entries entries.now) children.now }
    requires few { length into.old ≤ 16384 }
    requires room { at + length (entries_bytes rec_ref [] (L.entries entries.now) children.now)
        ≤ length into.old }
    ensures { Puts into.old at into.new result
        (entries_bytes rec_ref [] (L.entries entries.now) children.now) }
{
    let mut at = at;
    let mut before: &[u8] = &[];
    for i in 0..entries.count() {
        let key = entries.code(i);
        at = put_entry(into, at, rec_ref, before, key, entries.row(i));
        if i < children.len() {
            at = put_child(into, at, children[i]);
        }
        before = key;
    }
    at
}

/// The first two bytes. Those behind them stay.
pub(crate) fn put_head(into: &mut [u8], node: bool, used: usize)
    requires small { used < 32768 }
    requires room { 2 ≤ length into.old }
    ensures { into.new ≡ head_bytes node used ++ drop 2 into.old }
{
    let high = if node { NODE_BIT } else { 0 };
    into[0] = high + (used / 256) as u8;
    into[1] = (used % 256) as u8;
}

fn put_body<L: EntryList>(
    into: &mut [u8],
    at: usize,
    rec_ref: usize,
    entries: &L,
    children: &[u64],
) -> usize
    requires narrow { rec_ref ≤ 8 }
    requires rows { AllByRecursion (λ e. e.row < 256 ^ rec_ref) (L.entries entries.now) }
    requires branching { IsBranching (page_with (L.entries entries.now) children.now) }
    requires few { length into.old ≤ 16384 }
    requires room { at
        + length (body_bytes rec_ref (page_with (L.entries entries.now) children.now))
        ≤ length into.old }
    ensures { Puts into.old at into.new result
        (body_bytes rec_ref (page_with (L.entries entries.now) children.now)) }
{
    match children {
        [] => put_entries(into, at, rec_ref, entries, children),
        [first, others @ ..] => {
            let at = put_child(into, at, *first);
            put_entries(into, at, rec_ref, entries, others)
        }
    }
}

/// Zeros from a place on.
pub(crate) fn put_zeros(into: &mut [u8], at: usize)
    requires { at ≤ length into.old }
    ensures { into.new ≡ take at into.old ++ replicate (length into.old - at) 0 }
{
    into[at..].fill(0);
}

/// Writes a page of a list's entries, with row pointers of `rec_ref` bytes, into a block of at most
/// 16,384 bytes, with zeros behind the used length. It has at least one entry, and no children or one
/// more than entries; the children are places, multiples of 1024, and the entries fit.
pub fn write_page_of<L: EntryList>(entries: &L, children: &[u64], rec_ref: u8, into: &mut [u8])
    requires wide { 2 ≤ rec_ref }
    requires narrow { rec_ref ≤ 8 }
    requires limit { length into.old ≤ 16384 }
    requires some { 0 < length (L.entries entries.now) }
    requires rows { AllByRecursion (λ e. e.row < 256 ^ rec_ref) (L.entries entries.now) }
    requires places { AllByRecursion IsPlace children.now }
    requires branching { IsBranching (page_with (L.entries entries.now) children.now) }
    requires fits { used_length rec_ref
        (is_node (page_with (L.entries entries.now) children.now)) (L.entries entries.now)
        ≤ length into.old }
    ensures read { page_in rec_ref into.new
        ≡ Some (page_with (L.entries entries.now) children.now) }
    ensures page { IsPage rec_ref into.new (page_with (L.entries entries.now) children.now) }
    ensures written { into.new
        ≡ filled_up (page_bytes rec_ref (page_with (L.entries entries.now) children.now))
        (length into.old) }
{
    let used = put_body(into, HEAD_LENGTH, rec_ref as usize, entries, children);
    put_head(into, !children.is_empty(), used);
    put_zeros(into, used);
}

/// Writes a page with row pointers of `rec_ref` bytes into a block of at most 16,384 bytes, with zeros
/// behind the used length. It has at least one entry, and no children or one more than entries; the
/// children are places, multiples of 1024, and the entries fit.
pub fn write_page(entries: &[Entry], children: &[u64], rec_ref: u8, into: &mut [u8])
    requires wide { 2 ≤ rec_ref }
    requires narrow { rec_ref ≤ 8 }
    requires limit { length into.old ≤ 16384 }
    requires some { 0 < length entries.now }
    requires rows { AllByRecursion (λ e. e.row < 256 ^ rec_ref) entries.now }
    requires places { AllByRecursion IsPlace children.now }
    requires branching { IsBranching (page_with entries.now children.now) }
    requires fits { used_length rec_ref (is_node (page_with entries.now children.now)) entries.now
        ≤ length into.old }
    ensures read { page_in rec_ref into.new ≡ Some (page_with entries.now children.now) }
    ensures page { IsPage rec_ref into.new (page_with entries.now children.now) }
    ensures written { into.new
        ≡ filled_up (page_bytes rec_ref (page_with entries.now children.now)) (length into.old) }
{
    write_page_of(&entries, children, rec_ref, into);
}
