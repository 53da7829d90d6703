//! What stands on a page: its pairs with their keys, and its children.
//!
//! `read_node` reads a `Node` from the bytes of a page.
ghost use Rattle.std.specs.Prelude.{◌≡◌, ◌≤◌, ◌++◌, take, IfOk, OnOk, option_map};
ghost use Rattle.std.specs.Option.{option_to_list};
ghost use Rattle.myi_btree.specs.Nodes.{node_view, key_in, node_in};
ghost use Rattle.myi_btree.specs.Visited.{IsCounted, node_left};

use crate::visited::OpenPage;
use myi_keylist::Pair;
use myi_keypage::read_page;
use myi_keys::{KeyFault, KeyVal, decode};
use std::alloc::{AllocError, Global};

/// A page that is read: its pairs, and the places of its children, of which a leaf has none.
pub(crate) struct NodeData {
    pub(crate) pairs: Vec<Pair>,
    pub(crate) children: Vec<u64>,
}

impl Drop for NodeData {
    fn drop(self) {
        let NodeData {
            pairs: _,
            children: _,
        } = self;
    }
}

impl NodeData {
    /// The page, of which nothing was taken yet.
    pub(crate) fn open(self, at: u64) -> OpenPage
        ensures at { result.at ≡ at }
        ensures left { node_left result ≡ node_view self }
        ensures counted { IsCounted (node_left result) }
    {
        let NodeData { pairs, children } = self;
        OpenPage {
            at,
            pairs: pairs.into_iter(),
            children: children.into_iter(),
        }
    }
}

#[tactic(auto, unfolding(crate::specs::Nodes::key_in))]
fn key_of(alloc: Global, code: &[u8]) -> Result<Option<KeyVal>, AllocError>
    ensures { IfOk result (λ key. key ≡ key_in code.now) }
{
    match decode(alloc, code) {
        Ok(key) => Ok(Some(key)),
        Err(KeyFault::Memory) => Err(AllocError),
        Err(_) => Ok(None),
    }
}

// The code of the key after this one, of which it keeps a front.
fn change_code(code: &mut Vec<u8>, prefix: usize, rest: &[u8]) -> Result<(), AllocError>
    ensures { OnOk result (code.new.items ≡ take prefix code.old.items ++ rest.now) }
{
    code.truncate(prefix);
    code.extend_from_slice(rest)
}

fn push_child(children: &mut Vec<u64>, child: Option<u64>) -> Result<(), AllocError>
    ensures { OnOk result (children.new.items ≡ children.old.items ++ option_to_list child) }
{
    if let Some(place) = child {
        children.push(place)?;
    }
    Ok(())
}

/// The node that the bytes are, with row pointers of `rec_ref` bytes, and None where they are no page or
/// a key of it is no key's code.
pub(crate) fn read_node(
    alloc: Global,
    bytes: &[u8],
    rec_ref: u8,
) -> Result<Option<NodeData>, AllocError>
    requires wide { 2 ≤ rec_ref }
    requires narrow { rec_ref ≤ 8 }
    ensures { IfOk result (λ node. option_map node_view node ≡ node_in rec_ref bytes.now) }
{
    let Some(view) = read_page(bytes, rec_ref) else {
        return Ok(None);
    };
    let mut walk = view.walk();
    let mut code: Vec<u8> = Vec::new(alloc);
    let mut pairs: Vec<Pair> = Vec::new(alloc);
    let mut children: Vec<u64> = Vec::new(alloc);
    push_child(&mut children, view.first_child())?;
    while let Some(item) = walk.next_item() {
        change_code(&mut code, item.prefix, item.rest)?;
        let Some(key) = key_of(alloc, &code)? else {
            return Ok(None);
        };
        pairs.push(Pair { key, row: item.row })?;
        push_child(&mut children, item.child)?;
    }
    Ok(Some(NodeData { pairs, children }))
}
