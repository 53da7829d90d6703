//! What a deleted block says of the list of deleted blocks.
//!
//! `link_of` tells the `Link` of a block by its first bytes: in a static table the slot that it names as the
//! next one, and in a dynamic one also whether it names the block before it.
ghost use Rattle.std.specs.Prelude.{◌≡◌, ◌≤◌, ◌<◌, ◌-◌, ◌^◌, ◌==◌, ◌∷◌, ℕ, true, false, List, [], length, take, drop};
ghost use Rattle.myi_base.specs.Numbers.{num_at};
ghost use Rattle.myi_defs.specs.Sound.{IsSound};
ghost use Rattle.myi_pair.specs.Clean.{slot_named, next_by};
ghost use Rattle.myi_pair.specs.Findings.{same_link, names_by};
ghost use Rattle.myi_check.specs.Rows.{ArePointed};
ghost use Rattle.myi_check.specs.ListMet.{IsLinkAt};

use myi_base::number_at;
use myi_defs::{Defs, RowFormat};
use myi_frames::{LEAST_SIZE, head_at};

/// What a deleted block says of the list.
#[derive(Clone, Copy)]
pub(crate) struct Link {
    /// Whether it names the block before it.
    pub(crate) named: bool,
    /// The place that it names as the next one. In a static table it may be greater than a `u64`.
    pub(crate) next: Option<u128>,
}

/// Where no deleted block stands.
const NO_LINK: Link = Link {
    named: false,
    next: None,
};

/// The same place, as one that may be greater than a `u64`.
pub(crate) fn widened(place: Option<u64>) -> Option<u128>
    ensures { result ≡ place }
{
    match place {
        None => None,
        Some(place) => Some(place as u128),
    }
}

/// What the deleted block at a place of a data file of `end` bytes says, by its first 20 bytes, or by all up to
/// the file's end. Where it is not there whole, it names nothing.
pub(crate) fn link_of(bytes: &[u8], defs: &Defs, end: u64, place: u64, before: Option<u64>) -> Link
    requires sound { IsSound defs.now }
    ensures { (d : List ℕ) → length d ≡ end → bytes.now ≡ take 20 (drop place d)
        → ArePointed defs.now end (place ∷ []) → IsLinkAt defs.now d place before result }
{
    match defs.format {
        RowFormat::Static => slot_link(bytes, defs.slot_length, defs.rec_ref),
        RowFormat::Dynamic => block_link(bytes, place, end, before),
    }
}

// What a deleted slot says, by its first 20 bytes, or by all up to the file's end.
fn slot_link(bytes: &[u8], slot_length: u32, rec_ref: u8) -> Link
    requires narrow { rec_ref ≤ 8 }
    ensures names { rec_ref < length bytes.now → result ≡ record {
      named = true;
      next = slot_named slot_length rec_ref (num_at 1 rec_ref bytes.now);
    } }
    ensures none { length bytes.now ≤ rec_ref → result.named ≡ false }
{
    if bytes.len() <= rec_ref as usize {
        return NO_LINK;
    }
    Link {
        named: true,
        next: next_slot(bytes, slot_length, rec_ref),
    }
}

// The place that a deleted slot names as the next one, by its first bytes.
fn next_slot(bytes: &[u8], slot_length: u32, rec_ref: u8) -> Option<u128>
    requires narrow { rec_ref ≤ 8 }
    requires long { rec_ref < length bytes.now }
    ensures { result ≡ slot_named slot_length rec_ref (num_at 1 rec_ref bytes.now) }
{
    let number = number_at(bytes, 1, rec_ref as usize);
    if is_none(number, rec_ref) {
        return None;
    }
    Some(number as u128 * slot_length as u128)
}

// Whether a row pointer's bytes are all FF, which names no row.
fn is_none(number: u64, rec_ref: u8) -> bool
    requires { rec_ref ≤ 8 }
    ensures { result ≡ (number == 256 ^ rec_ref - 1) }
{
    number as u128 + 1 == 256u128.pow(rec_ref as u32)
}

// What the deleted block at a place says, by its first 20 bytes, or by all up to the file's end.
fn block_link(bytes: &[u8], place: u64, end: u64, before: Option<u64>) -> Link
    ensures named { (d : List ℕ) → length d ≡ end → bytes.now ≡ take 20 (drop place d)
        → result.named ≡ names_by RowFormat.Dynamic d place before }
    ensures next { (defs : Defs) (d : List ℕ) → length d ≡ end
        → bytes.now ≡ take 20 (drop place d)
        → result.next ≡ next_by RowFormat.Dynamic defs d place }
{
    if bytes.len() < LEAST_SIZE {
        return NO_LINK;
    }
    match head_at(bytes, place, end) {
        None => NO_LINK,
        Some(head) => Link {
            named: is_same(head.prev, before),
            next: widened(head.next),
        },
    }
}

// Whether both are the same place, or none.
fn is_same(a: Option<u64>, b: Option<u64>) -> bool
    ensures { result ≡ same_link a b }
{
    match a {
        None => b.is_none(),
        Some(p) => match b {
            None => false,
            Some(q) => p == q,
        },
    }
}
