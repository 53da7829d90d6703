//! The pages of a tree in memory, laid from place 0.
ghost use Rattle.std.specs.Prelude.{◌≡◌, ◌*◌, ◌++◌, List, length, map, IfOk, OnOk};
ghost use Rattle.myi_btree.specs.Sizes.{IsPlaced, AreSized};
ghost use Rattle.myi_btree.specs.Building.{laid_at, built_at, pages_bytes};
ghost use Rattle.myi_btree.specs.Moving.{StoredPage, stored_pages, AreMovable, moved_page, moved_root, CanMoveRoot};

use crate::fault::TreeFault;
use crate::laying::Laying;
use crate::place::{Place, TreeSetup};
use myi_keylist::PairList;
use myi_keypage::shift_page;
use std::alloc::{AllocError, Global};

/// The pages of a tree, one behind the other, as they stand where the first one stands at 0; and the
/// sizes of pages and row pointers, with the root.
#[derive(Debug)]
pub struct Laid {
    pub pages: Vec<u8>,
    pub place: Place,
}

impl Drop for Laid {
    fn drop(self) {
        let Laid { pages: _, place: _ } = self;
    }
}

// Appends the pages of a tree, and answers the place behind them.
fn append_pages(setup: TreeSetup, pairs: &PairList, pages: &mut Vec<u8>) -> Result<u64, TreeFault>
    requires placed { IsPlaced setup.place }
    requires sized { AreSized setup.place pairs.now }
    ensures pages { OnOk result (pages.new.items
        ≡ pages.old.items ++ pages_bytes setup.place (laid_at setup.place 0 pairs.now)) }
    ensures end { IfOk result (λ end. end
        ≡ setup.place.block_length * length (laid_at setup.place 0 pairs.now)) }
{
    let mut page = vec![in setup.alloc; 0u8; setup.place.block_length as usize]?;
    let mut laying = Laying::new(setup, 0, pairs);
    'pages: while let Some(_) = laying.next_page(&mut page)? {
        pages.extend_from_slice(&page)?;
    }
    Ok(laying.end())
}

/// The pages of a tree of these pairs, for first place 0. The root that `place` names is not looked at.
pub fn lay(alloc: Global, place: &Place, pairs: &PairList) -> Result<Laid, AllocError>
    requires placed { IsPlaced place.now }
    requires sized { AreSized place.now pairs.now }
    ensures pages { IfOk result (λ laid. laid.pages.items
        ≡ pages_bytes place.now (laid_at place.now 0 pairs.now)) }
    ensures place { IfOk result (λ laid. laid.place ≡ built_at place.now 0 pairs.now) }
{
    let mut pages = Vec::new(alloc);
    let setup = TreeSetup {
        alloc,
        place: *place,
    };
    let Ok(end) = append_pages(setup, pairs, &mut pages) else {
        return Err(AllocError);
    };
    let root = end.checked_sub(place.block_length as u64);
    Ok(Laid {
        pages,
        place: Place { root, ..*place },
    })
}

// Adds so many bytes to the children on pages, one after the other.
fn shift_pages(pages: &mut [u8], place: Place, by: u64)
    requires placed { IsPlaced place }
    requires pages { (stored : List StoredPage) × AreMovable place by stored
        × (pages.old ≡ stored_pages place stored) }
    ensures { (stored : List StoredPage) → AreMovable place by stored
        → pages.old ≡ stored_pages place stored
        → pages.new ≡ stored_pages place (map (moved_page by) stored) }
{
    let block = place.block_length as usize;
    let mut at = 0;
    'pages: while at < pages.len() {
        shift_page(&mut pages[at..at + block], place.rec_ref, by);
        at += block;
    }
}

impl Laid {
    /// Moves the pages so that the first one stands at `first`: adds that to the root and to each child,
    /// and changes nothing else. It takes no memory. What stands behind the used bytes of a page does not
    /// matter. What `lay` answered becomes the pages of the same tree laid from there on
    /// (`laid_pages_are_movable`).
    pub fn shift(&mut self, first: u64)
        requires placed { IsPlaced self.old.place }
        requires pages { (stored : List StoredPage) × AreMovable self.old.place first stored
            × (self.old.pages.items ≡ stored_pages self.old.place stored) }
        requires root { CanMoveRoot first self.old.place.root }
        ensures pages { (stored : List StoredPage) → AreMovable self.old.place first stored
            → self.old.pages.items ≡ stored_pages self.old.place stored
            → self.new.pages.items
            ≡ stored_pages self.old.place (map (moved_page first) stored) }
        ensures root { self.new.place.root ≡ moved_root first self.old.place.root }
        ensures sizes { (self.new.place.block_length ≡ self.old.place.block_length)
            × (self.new.place.rec_ref ≡ self.old.place.rec_ref) }
    {
        shift_pages(&mut self.pages, self.place, first);
        if let Some(root) = self.place.root {
            self.place.root = Some(root + first);
        }
    }
}
