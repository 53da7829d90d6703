//! The items of a page, read from the front of bytes.
//!
//! A `PageItem` is an entry as it stands: what it shares with the key before it in the page, the rest of
//! its key, its row pointer, and in a node the child after it. Each reader here takes one thing from
//! the front of the bytes and answers it with what is left, and None where it does not stand there.
ghost use Rattle.std.specs.Prelude.{◌≡◌, ◌≤◌, length, option_map};
ghost use Rattle.myi_base.specs.Numbers.{num};
ghost use Rattle.myi_keypage.specs.PageItems.{number_at, pointer_at, place_at};
ghost use Rattle.myi_keypage.specs.PageItems.{child_at, item_at, piece_at, item_view};

use myi_base::number_at;

/// The least number that takes more than one byte, and the byte that such a number begins with.
pub(crate) const WIDE: u8 = 255;

/// How many bytes tell a node and the used length.
pub(crate) const HEAD_LENGTH: usize = 2;

/// The bit of the first byte that tells a node.
pub(crate) const NODE_BIT: u8 = 128;

/// How many bytes a child takes.
pub(crate) const CHILD_LENGTH: usize = 7;

/// What a child's place is divided by.
pub(crate) const PLACE_UNIT: u64 = 1024;

/// More than the number that a child's bytes may spell.
const CHILD_LIMIT: u64 = 1 << 54;

/// An entry of a page as it stands, with the rest of its key lent.
#[derive(Clone, Copy, Debug, PartialEq, Eq)]
pub struct PageItem<'a> {
    /// How many bytes of the key before it in the page its key begins with. No longer front is shared.
    pub prefix: usize,
    /// The key's other bytes.
    pub rest: &'a [u8],
    /// The row pointer.
    pub row: u64,
    /// In a node, the place of the page after the key.
    pub child: Option<u64>,
}

#[inline(always)]
#[tactic(auto, unfolding(crate::specs::PageItems::number_at))]
fn read_number(bytes: &[u8]) -> Option<(usize, &[u8])>
    ensures { option_map (λ x. (x.0, x.1.now)) result ≡ number_at bytes.now }
{
    match bytes {
        [first, rest @ ..] if *first < WIDE => Some((*first as usize, rest)),
        [_, high, low, rest @ ..] => {
            let number = *high as usize * 256 + *low as usize;
            if number < WIDE as usize {
                None
            } else {
                Some((number, rest))
            }
        }
        _ => None,
    }
}

#[inline(always)]
fn read_piece(count: usize, bytes: &[u8]) -> Option<(&[u8], &[u8])>
    ensures { option_map (λ x. (x.0.now, x.1.now)) result ≡ piece_at count bytes.now }
{
    if bytes.len() < count {
        return None;
    }
    Some(bytes.split_at(count))
}

// The number of so many bytes, by one load where eight bytes stand there.
#[inline(always)]
fn short_number(count: usize, bytes: &[u8]) -> u64
    requires few { count ≤ 8 }
    requires inside { count ≤ length bytes.now }
    ensures { result ≡ num count bytes.now }
{
    match bytes {
        [a, b, c, d, e, f, g, h, ..] if count > 0 => {
            u64::from_be_bytes([*a, *b, *c, *d, *e, *f, *g, *h]) >> (64 - 8 * count)
        }
        _ => number_at(bytes, 0, count),
    }
}

#[inline(always)]
#[tactic(auto, unfolding(crate::specs::PageItems::pointer_at))]
fn read_pointer(count: usize, bytes: &[u8]) -> Option<(u64, &[u8])>
    requires { count ≤ 8 }
    ensures { option_map (λ x. (x.0, x.1.now)) result ≡ pointer_at count bytes.now }
{
    if bytes.len() < count {
        return None;
    }
    Some((short_number(count, bytes), &bytes[count..]))
}

#[inline(always)]
#[tactic(auto, unfolding(crate::specs::PageItems::place_at))]
fn read_place(bytes: &[u8]) -> Option<(u64, &[u8])>
    ensures { option_map (λ x. (x.0, x.1.now)) result ≡ place_at bytes.now }
{
    let (number, rest) = read_pointer(CHILD_LENGTH, bytes)?;
    if number < CHILD_LIMIT {
        Some((number * PLACE_UNIT, rest))
    } else {
        None
    }
}

/// The place of a child in a node, and nothing in a leaf.
#[inline(always)]
#[tactic(auto, unfolding(crate::specs::PageItems::child_at))]
pub(crate) fn read_child(node: bool, bytes: &[u8]) -> Option<(Option<u64>, &[u8])>
    ensures { option_map (λ x. (x.0, x.1.now)) result ≡ child_at node bytes.now }
{
    if !node {
        return Some((None, bytes));
    }
    let (place, rest) = read_place(bytes)?;
    Some((Some(place), rest))
}

/// The item at the front of the bytes, and what is left.
#[inline(always)]
#[tactic(auto, unfolding(crate::specs::PageItems::item_at))]
pub(crate) fn read_item<'a>(
    node: bool,
    rec_ref: usize,
    bytes: &'a [u8],
) -> Option<(PageItem<'a>, &'a [u8])>
    requires { rec_ref ≤ 8 }
    ensures { option_map (λ x. (item_view x.0, x.1.now)) result ≡ item_at node rec_ref bytes.now }
{
    let (prefix, after) = read_number(bytes)?;
    let (len, after) = read_number(after)?;
    let (rest, after) = read_piece(len, after)?;
    let (row, after) = read_pointer(rec_ref, after)?;
    let (child, after) = read_child(node, after)?;
    Some((
        PageItem {
            prefix,
            rest,
            row,
            child,
        },
        after,
    ))
}
