//! Whether each prefix in a page is the longest.
//!
//! The test needs the key before each item. It is kept in a buffer on the stack, in which each item
//! writes over what is behind its prefix, so that one pass over the page serves.
ghost use Rattle.std.specs.Prelude.{◌≡◌, ◌+◌, ◌≤◌, ◌==◌, [], length, take};
ghost use Rattle.myi_keypage.specs.Page.{shared};
ghost use Rattle.myi_keypage.specs.PageItems.{items_of, passes, is_longest, key_after, item_view};

use crate::item::{PageItem, read_item};

/// More bytes than a page uses.
const MOST_USED: usize = 32_768;

/// More bytes than a page of 1,024 uses. A buffer of the greatest length would take longer to clear than such a
/// page to read.
const FEW_USED: usize = 1_024;

#[inline(always)]
#[tactic(auto, using(crate::proofs::Shared::shared_empty, crate::proofs::Shared::shared_heads))]
fn none_shared(before: &[u8], rest: &[u8]) -> bool
    ensures { result ≡ (shared before.now rest.now == 0) }
{
    if before.is_empty() || rest.is_empty() {
        return true;
    }
    before[0] != rest[0]
}

#[inline(always)]
fn is_longest_prefix(before: &[u8], item: &PageItem) -> bool
    ensures { result ≡ is_longest before.now (item_view item.now) }
{
    item.prefix <= before.len() && none_shared(&before[item.prefix..], item.rest)
}

/// Makes the key of `item` out of the key before it, and answers its length.
#[inline(always)]
pub(crate) fn keep_key(key: &mut [u8], len: usize, item: &PageItem) -> usize
    requires len { len ≤ length key.old }
    requires prefix { item.now.prefix ≤ len }
    requires room { item.now.prefix + length item.now.rest.now ≤ length key.old }
    ensures len { result ≡ item.now.prefix + length item.now.rest.now }
    ensures key { take result key.new ≡ key_after (take len key.old) (item_view item.now) }
{
    let end = item.prefix + item.rest.len();
    key[item.prefix..end].copy_from_slice(item.rest);
    end
}

// Whether the bytes are items, of which each has the longest prefix, with a buffer for the key before each.
fn pass_in(node: bool, rec_ref: usize, bytes: &[u8], key: &mut [u8]) -> bool
    requires narrow { rec_ref ≤ 8 }
    requires room { length bytes.now ≤ length key.old }
    ensures { result ≡ passes [] (items_of node rec_ref bytes.now) }
{
    let mut len = 0;
    let mut rest = bytes;
    while !rest.is_empty() {
        let Some((item, after)) = read_item(node, rec_ref, rest) else {
            return false;
        };
        if !is_longest_prefix(&key[..len], &item) {
            return false;
        }
        len = keep_key(key, len, &item);
        rest = after;
    }
    true
}

// The same of few bytes.
fn few_pass(node: bool, rec_ref: usize, bytes: &[u8]) -> bool
    requires narrow { rec_ref ≤ 8 }
    requires len { length bytes.now ≤ 1024 }
    ensures { result ≡ passes [] (items_of node rec_ref bytes.now) }
{
    pass_in(node, rec_ref, bytes, &mut [0u8; FEW_USED])
}

// The same of as many bytes as a page may use.
fn many_pass(node: bool, rec_ref: usize, bytes: &[u8]) -> bool
    requires narrow { rec_ref ≤ 8 }
    requires len { length bytes.now ≤ 32768 }
    ensures { result ≡ passes [] (items_of node rec_ref bytes.now) }
{
    pass_in(node, rec_ref, bytes, &mut [0u8; MOST_USED])
}

/// Whether the bytes are items, of which each has the longest prefix.
pub(crate) fn all_pass(node: bool, rec_ref: usize, bytes: &[u8]) -> bool
    requires narrow { rec_ref ≤ 8 }
    requires len { length bytes.now ≤ 32768 }
    ensures { result ≡ passes [] (items_of node rec_ref bytes.now) }
{
    if bytes.len() <= FEW_USED {
        few_pass(node, rec_ref, bytes)
    } else {
        many_pass(node, rec_ref, bytes)
    }
}
