//! One page of a tree: read from the old index file, and its children.
ghost use Rattle.std.specs.Prelude.{◌≡◌, ◌⊎◌, ◌+◌, ◌++◌, ◌%◌, ◌<◌, ◌≤◌, Some, None, option_map, length, IfOk, IfErr, OnOk};
ghost use Rattle.std.specs.Option.{option_to_list};
ghost use Rattle.myi_base.specs.Holding.{IfTold, bytes_of};
ghost use Rattle.myi_base.specs.Causes.{HasCause};
ghost use Rattle.myi_keypage.specs.Views.{page_in};
ghost use Rattle.myi_keycache.specs.Lent.{bytes_at};
ghost use Rattle.myi_treecopy.specs.declared.fault.CopyFault.TheVariants.{File};
ghost use Rattle.myi_treecopy.specs.Copying.{IsMade, IsDamage, CutsOff, old_nodes};

use crate::fault::CopyFault;
use myi_btree::Place;
use myi_io::Files;
use myi_keypage::read_page;
use std::alloc::{AllocError, Global};

/// From where and to where a tree is laid anew.
#[derive(Clone, Copy)]
pub struct TreeCopy<'a> {
    pub alloc: Global,
    /// The name of the file in which the tree stands.
    pub old: &'a str,
    /// The name of the file into which it is laid.
    pub new: &'a str,
    /// How its pages are made. The root is not read.
    pub place: Place,
    /// No page ends behind this place of the new file: the length of the old one, say.
    pub limit: u64,
}

impl<'a> TreeCopy<'a> {
    /// The place behind a new page, for the page that stands at a place of the old file.
    pub(crate) fn behind(&self, at: u64, start: u64) -> Result<u64, CopyFault>
        requires { IsMade self.now }
        ensures place { IfOk result (λ p. p ≡ start + self.now.place.block_length) }
        ensures inside { IfOk result (λ p. p ≤ self.now.limit) }
        ensures damaged { IfErr result (IsDamage at) }
        ensures past { IfErr result (λ f. self.now.limit < start + self.now.place.block_length) }
    {
        match start.checked_add(self.place.block_length as u64) {
            Some(behind) if behind <= self.limit => Ok(behind),
            _ => Err(CopyFault::Damaged { at }),
        }
    }

    /// The bytes of the page at a place of the old file.
    pub(crate) fn read<F: Files>(&self, files: &mut F, at: u64) -> Result<Vec<u8>, CopyFault>
        requires { IsMade self.now }
        ensures bytes { IfOk result (λ page. IfTold (F.holds files.old) (λ m.
            bytes_at (bytes_of self.now.old.now m) at self.now.place.block_length
            ≡ Some page.items)) }
        ensures whole { OnOk result (at % 1024 ≡ 0) }
        ensures long { IfOk result (λ page. length page.items ≡ self.now.place.block_length) }
        ensures damaged { IfErr result (λ f. CutsOff f ⊎ (IsDamage at f
            × IfTold (F.holds files.old) (λ m. old_nodes self.now m at ≡ None))) }
        ensures holds { F.holds files.new ≡ F.holds files.old }
        ensures cause { HasCause File (F.faults files.old) (F.faults files.new) result }
    {
        let mut page = vec![in self.alloc; 0u8; self.place.block_length as usize]?;
        let count = files.read_at(self.old, at, &mut page)?;
        if at % 1024 != 0 || count < page.len() {
            return Err(CopyFault::Damaged { at });
        }
        Ok(page)
    }
}

fn push_child(children: &mut Vec<u64>, child: Option<u64>) -> Result<(), AllocError>
    ensures { OnOk result (children.new.items ≡ children.old.items ++ option_to_list child) }
{
    if let Some(place) = child {
        children.push(place)?;
    }
    Ok(())
}

/// The places of a page's children, and None where the bytes are no page.
pub(crate) fn children_of(
    alloc: Global,
    page: &[u8],
    rec_ref: u8,
) -> Result<Option<Vec<u64>>, AllocError>
    requires wide { 2 ≤ rec_ref }
    requires narrow { rec_ref ≤ 8 }
    ensures { IfOk result (λ children. option_map (λ cs. cs.items) children
        ≡ option_map (λ p. p.children) (page_in rec_ref page.now)) }
{
    let Some(view) = read_page(page, rec_ref) else {
        return Ok(None);
    };
    let mut children: Vec<u64> = Vec::new(alloc);
    push_child(&mut children, view.first_child())?;
    let mut walk = view.walk();
    while let Some(item) = walk.next_item() {
        push_child(&mut children, item.child)?;
    }
    Ok(Some(children))
}
