//! The warm list and the hot list, by the indexes of their pages.
//!
//! `PageLists` links the nodes of all pages in one ring, in the order of the lists: node 0, the warm pages, node 1,
//! the hot pages. The page of an index has the node behind these two. So a page that moves costs a few links,
//! however many there are, and takes no memory.
ghost use Rattle.std.specs.Prelude.{◌≡◌, ◌<◌, ◌++◌, ℕ, ◌∷◌, List, length, map, set};
ghost use Rattle.myi_keycache.specs.declared.lists.Link.{Link};
ghost use Rattle.myi_keycache.specs.Ring.{IsRing, IsAbsent, CanLink, first_node};

use std::alloc::{AllocError, Global};
use std::marker::Model;

/// The node before the first warm page, which is also that behind the last hot one.
const WARM_START: usize = 0;
/// The node before the first hot page, which is also that behind the last warm one.
const HOT_START: usize = 1;
/// So many nodes are no page's.
const STARTS: usize = 2;

/// The nodes before and behind one, and whether its page is hot.
#[derive(Clone, Copy)]
pub(crate) struct Link {
    before: usize,
    behind: usize,
    hot: bool,
}

/// The indexes of the pages on both lists.
pub(crate) struct PageLists {
    links: Vec<Link>,
    /// How many pages are warm.
    warm: usize,
    /// How many pages are hot.
    hot: usize,
}

impl Drop for PageLists {
    fn drop(self) {
        let PageLists {
            links: _,
            warm: _,
            hot: _,
        } = self;
    }
}

fn set_before(links: &mut Vec<Link>, node: usize, before: usize)
    requires { node < length links.old.items }
    ensures before { map (λ (l : Link). l.before) links.new.items
        ≡ set (map (λ (l : Link). l.before) links.old.items) node before }
    ensures behind { map (λ (l : Link). l.behind) links.new.items
        ≡ map (λ (l : Link). l.behind) links.old.items }
    ensures hot { map (λ (l : Link). l.hot) links.new.items
        ≡ map (λ (l : Link). l.hot) links.old.items }
{
    links[node].before = before;
}

fn set_behind(links: &mut Vec<Link>, node: usize, behind: usize)
    requires { node < length links.old.items }
    ensures before { map (λ (l : Link). l.before) links.new.items
        ≡ map (λ (l : Link). l.before) links.old.items }
    ensures behind { map (λ (l : Link). l.behind) links.new.items
        ≡ set (map (λ (l : Link). l.behind) links.old.items) node behind }
    ensures hot { map (λ (l : Link). l.hot) links.new.items
        ≡ map (λ (l : Link). l.hot) links.old.items }
{
    links[node].behind = behind;
}

fn set_hot(links: &mut Vec<Link>, node: usize, hot: bool)
    requires { node < length links.old.items }
    ensures before { map (λ (l : Link). l.before) links.new.items
        ≡ map (λ (l : Link). l.before) links.old.items }
    ensures behind { map (λ (l : Link). l.behind) links.new.items
        ≡ map (λ (l : Link). l.behind) links.old.items }
    ensures hot { map (λ (l : Link). l.hot) links.new.items
        ≡ set (map (λ (l : Link). l.hot) links.old.items) node hot }
{
    links[node].hot = hot;
}

// Takes a node out of the ring.
fn unlink(links: &mut Vec<Link>, node: usize)
    requires { (front : List ℕ) × (back : List ℕ) × IsRing links.old.items (front ++ node ∷ back) }
    ensures ring { (front back : List ℕ) → IsRing links.old.items (front ++ node ∷ back)
        → IsRing links.new.items (front ++ back) }
    ensures hot { map (λ (l : Link). l.hot) links.new.items
        ≡ map (λ (l : Link). l.hot) links.old.items }
{
    let Link {
        before,
        behind,
        hot: _,
    } = links[node];
    set_behind(links, before, behind);
    set_before(links, behind, before);
}

// Puts a node into the ring, before another one.
fn link_before(links: &mut Vec<Link>, node: usize, behind: usize)
    requires { (front : List ℕ) × (back : List ℕ)
        × CanLink links.old.items node behind front back }
    ensures ring { (front back : List ℕ) → CanLink links.old.items node behind front back
        → IsRing links.new.items (front ++ node ∷ back) }
    ensures hot { map (λ (l : Link). l.hot) links.new.items
        ≡ map (λ (l : Link). l.hot) links.old.items }
{
    let before = links[behind].before;
    set_behind(links, node, behind);
    set_before(links, node, before);
    set_behind(links, before, node);
    set_before(links, behind, node);
}

impl Model for PageLists {
    ghost use Rattle.myi_keycache.specs.Ring.{Linked, linked_by, IsLinked};

    ghost Value = { Linked };

    ghost view = { λ p. linked_by p.links.items p.warm p.hot };

    ghost invariant = { λ p. IsLinked p.links.items p.warm p.hot
        (linked_by p.links.items p.warm p.hot) };
}

impl PageLists {
    ghost use Rattle.std.specs.Prelude.{◌≡◌, ◌⊎◌, ◌<◌, ◌≤◌, ◌+◌, ◌++◌, ℕ, [], ◌∷◌, List};
    ghost use Rattle.std.specs.Prelude.{length, slice_get, true, false, IfOk, OnOk};
    ghost use Rattle.myi_keycache.specs.Ring.{Linked, IsOn, IsOff};

    /// No pages, and room for none.
    pub(crate) fn new(alloc: Global) -> Result<PageLists, AllocError>
        ensures { IfOk result (λ lists. lists ≡ record { warm = []; hot = []; room = 0 }) }
    {
        let mut links = Vec::new(alloc);
        links.push(Link {
            before: HOT_START,
            behind: HOT_START,
            hot: false,
        })?;
        links.push(Link {
            before: WARM_START,
            behind: WARM_START,
            hot: false,
        })?;
        Ok(PageLists {
            links,
            warm: 0,
            hot: 0,
        })
    }

    /// Makes room for the page of one more index.
    pub(crate) fn make_room(&mut self, index: usize) -> Result<(), AllocError>
        requires { index ≤ self.old.room }
        ensures room { OnOk result (index < self.new.room) }
        ensures more { self.old.room ≤ self.new.room }
        ensures warm { self.new.warm ≡ self.old.warm }
        ensures hot { self.new.hot ≡ self.old.hot }
    {
        if self.links.len() <= index + STARTS {
            self.links.push(Link {
                before: WARM_START,
                behind: WARM_START,
                hot: false,
            })?;
        }
        Ok(())
    }

    /// How many pages are warm.
    pub(crate) fn warm_count(&self) -> usize
        ensures { result ≡ length self.now.warm }
    {
        self.warm
    }

    /// The page at the beginning of the warm list, or of the hot one where none is warm.
    pub(crate) fn first(&self) -> usize
        requires { 0 < length (self.now.warm ++ self.now.hot) }
        ensures { (index : ℕ) (rest : List ℕ)
            → self.now.warm ++ self.now.hot ≡ index ∷ rest → result ≡ index }
    {
        let start = if self.warm == 0 {
            HOT_START
        } else {
            WARM_START
        };
        self.links[start].behind - STARTS
    }

    /// The page at the beginning of the hot list.
    pub(crate) fn first_hot(&self) -> Option<usize>
        ensures { result ≡ slice_get self.now.hot 0 }
    {
        if self.hot == 0 {
            return None;
        }
        Some(self.links[HOT_START].behind - STARTS)
    }

    /// Whether a page is hot.
    pub(crate) fn is_hot(&self, index: usize) -> bool
        requires { IsOn self.now index }
        ensures warm { (front back : List ℕ)
            → self.now.warm ≡ front ++ index ∷ back → result ≡ false }
        ensures hot { (front back : List ℕ)
            → self.now.hot ≡ front ++ index ∷ back → result ≡ true }
    {
        self.links[index + STARTS].hot
    }

    /// Takes a page off its list.
    pub(crate) fn take_off(&mut self, index: usize)
        requires { IsOn self.old index }
        ensures warm { (front back : List ℕ) → self.old.warm ≡ front ++ index ∷ back
            → self.new ≡ record self.old { warm = front ++ back } }
        ensures hot { (front back : List ℕ) → self.old.hot ≡ front ++ index ∷ back
            → self.new ≡ record self.old { hot = front ++ back } }
        ensures off { IsOff self.new index }
    {
        let links = &mut self.links;
        let node = index + STARTS;
        unlink(links, node);
        if links[node].hot {
            self.hot -= 1;
        } else {
            self.warm -= 1;
        }
    }

    /// Puts a page at the warm beginning.
    pub(crate) fn put_at_warm_beginning(&mut self, index: usize)
        requires off { IsOff self.old index }
        requires few { length self.old.warm < 65536 }
        ensures { self.new ≡ record self.old { warm = index ∷ self.old.warm } }
    {
        let links = &mut self.links;
        let node = index + STARTS;
        let behind = links[WARM_START].behind;
        link_before(links, node, behind);
        set_hot(links, node, false);
        self.warm += 1;
    }

    /// Puts a page at the warm end.
    pub(crate) fn put_at_warm_end(&mut self, index: usize)
        requires off { IsOff self.old index }
        requires few { length self.old.warm < 65536 }
        ensures { self.new ≡ record self.old { warm = self.old.warm ++ index ∷ [] } }
    {
        let links = &mut self.links;
        let node = index + STARTS;
        link_before(links, node, HOT_START);
        set_hot(links, node, false);
        self.warm += 1;
    }

    /// Puts a page at the hot end.
    pub(crate) fn put_at_hot_end(&mut self, index: usize)
        requires off { IsOff self.old index }
        requires few { length self.old.hot < 65536 }
        ensures { self.new ≡ record self.old { hot = self.old.hot ++ index ∷ [] } }
    {
        let links = &mut self.links;
        let node = index + STARTS;
        link_before(links, node, WARM_START);
        set_hot(links, node, true);
        self.hot += 1;
    }
}
