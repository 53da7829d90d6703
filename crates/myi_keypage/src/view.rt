//! A page that is read.
//!
//! `read_page` looks at all bytes of a page once and answers a `PageView`, which lends them. A contract
//! sees a view as `ViewedPage`: the first child and the items. `PageView::walk` answers a `PageWalk`, which
//! a contract sees as the list of the items that are left.
ghost use Rattle.std.specs.Prelude.{◌≡◌, ◌≤◌};
ghost use Rattle.std.specs.Prelude.{length, drop, IfSome, IfNone, option_map, slice_get, is_some};
ghost use Rattle.myi_keypage.specs.Page.{Page, IsPage};
ghost use Rattle.myi_keypage.specs.PageItems.{item_view};
ghost use Rattle.myi_keypage.specs.Views.{page_of, viewed_body, viewed_in};

use crate::item::{HEAD_LENGTH, NODE_BIT, PageItem, read_child, read_item};
use crate::prefix::all_pass;
use std::marker::Model;

/// A page, whose bytes are lent.
#[derive(Drop)]
pub struct PageView<'a> {
    first: Option<u64>,
    items: &'a [u8],
    rec_ref: u8,
}

impl<'a> Model for PageView<'a> {
    ghost use Rattle.std.specs.Prelude.{◌≡◌, ◌≤◌, is_some, true};
    ghost use Rattle.myi_base.specs.Numbers.{AreBytes};
    ghost use Rattle.myi_keypage.specs.PageItems.{items_of};
    ghost use Rattle.myi_keypage.specs.Views.{ViewedPage, items_in};

    ghost Value = { ViewedPage };

    ghost view = { λ v.
        record { first = v.first; items = items_in (is_some v.first) v.rec_ref v.items.now } };

    ghost invariant = { λ v.
        (v.rec_ref ≤ 8) × (is_some (items_of (is_some v.first) v.rec_ref v.items.now) ≡ true)
        × AreBytes v.items.now };
}

/// The items of a page from some item on.
#[derive(Drop)]
pub struct PageWalk<'a> {
    node: bool,
    rec_ref: u8,
    rest: &'a [u8],
}

impl<'a> Model for PageWalk<'a> {
    ghost use Rattle.std.specs.Prelude.{◌≡◌, ◌≤◌, is_some, true, List};
    ghost use Rattle.myi_base.specs.Numbers.{AreBytes};
    ghost use Rattle.myi_keypage.specs.PageItems.{Item, items_of};
    ghost use Rattle.myi_keypage.specs.Views.{items_in};

    ghost Value = { List Item };

    ghost view = { λ w. items_in w.node w.rec_ref w.rest.now };

    ghost invariant = { λ w.
        (w.rec_ref ≤ 8) × (is_some (items_of w.node w.rec_ref w.rest.now) ≡ true)
        × AreBytes w.rest.now };
}

fn view_of<'a>(node: bool, rec_ref: u8, body: &'a [u8]) -> Option<PageView<'a>>
    requires narrow { rec_ref ≤ 8 }
    requires len { length body.now ≤ 32768 }
    ensures { result ≡ viewed_body node rec_ref body.now }
{
    let Some((first, items)) = read_child(node, body) else {
        return None;
    };
    if items.is_empty() {
        return None;
    }
    if !all_pass(node, rec_ref as usize, items) {
        return None;
    }
    Some(PageView {
        first,
        items,
        rec_ref,
    })
}

/// The page that the bytes are, with row pointers of `rec_ref` bytes. None where they are no page: the
/// used length is not within the bytes, there is no entry, an item ends past the used length, a
/// number is longer than it need be, a prefix is not the longest, or a child is 2^54 or more.
pub fn read_page<'a>(bytes: &'a [u8], rec_ref: u8) -> Option<PageView<'a>>
    requires wide { 2 ≤ rec_ref }
    requires narrow { rec_ref ≤ 8 }
    ensures found { IfSome result (λ v. IsPage rec_ref bytes.now (page_of v)) }
    ensures none { IfNone result ((page : Page) → IsPage rec_ref bytes.now page → ⊥) }
    ensures shown { result ≡ viewed_in rec_ref bytes.now }
{
    if bytes.len() < HEAD_LENGTH {
        return None;
    }
    let node = bytes[0] >= NODE_BIT;
    let used = (bytes[0] % NODE_BIT) as usize * 256 + bytes[1] as usize;
    if used < HEAD_LENGTH || bytes.len() < used {
        return None;
    }
    view_of(node, rec_ref, &bytes[HEAD_LENGTH..used])
}

impl<'a> PageView<'a> {
    /// Whether the page is a node.
    pub fn is_node(&self) -> bool
        ensures { result ≡ is_some self.now.first }
    {
        self.first.is_some()
    }

    /// In a node, the place of the page before the first key.
    pub fn first_child(&self) -> Option<u64>
        ensures { result ≡ self.now.first }
    {
        self.first
    }

    /// The items of the page, from the first on.
    pub fn walk(&self) -> PageWalk<'a>
        ensures { result ≡ self.now.items }
    {
        PageWalk {
            node: self.first.is_some(),
            rec_ref: self.rec_ref,
            rest: self.items,
        }
    }
}

impl<'a> PageWalk<'a> {
    /// The next item, and None behind the last one.
    #[inline(always)]
    pub fn next_item(&mut self) -> Option<PageItem<'a>>
        ensures item { option_map item_view result ≡ slice_get self.old 0 }
        ensures rest { self.new ≡ drop 1 self.old }
    {
        let Some((item, after)) = read_item(self.node, self.rec_ref as usize, self.rest) else {
            return None;
        };
        self.rest = after;
        Some(item)
    }
}
