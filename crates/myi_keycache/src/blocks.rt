//! The pages that a key cache keeps, on its two lists.
//!
//! `Blocks` finds a page by its name in a map, which holds them in no order that matters; the page's index there
//! stands on one of the lists of `PageLists`. A page that is asked for moves to the end of a list; a new one goes to
//! the warm end, and where all blocks are used the first page leaves. Its index is that of the new one.
ghost use Rattle.std.specs.Prelude.{◌≡◌, ◌<◌, ◌+◌, ◌++◌, ℕ, [], ◌∷◌, List, length};
ghost use Rattle.std.specs.Prelude.{IfOk, IfErr, OnOk, OnErr};
ghost use Rattle.std.specs.List.{AllByRecursion};
ghost use Rattle.std.specs.List.Sorted.{IsPermutation, IsNonDecreasingBy};
ghost use Rattle.myi_keycache.specs.declared.setup.CacheFault.TheVariants.{Memory};
ghost use Rattle.myi_keycache.specs.declared.blocks.PageName.{PageName};
ghost use Rattle.myi_keycache.specs.declared.blocks.Block.{Block};
ghost use Rattle.myi_keycache.specs.Order.{names_in};

use crate::lists::PageLists;
use crate::setup::{CacheFault, CacheSetup};
use indexmap::IndexMap;
use std::alloc::{AllocError, Global};
use std::marker::Model;
use std::mem::replace;

/// With so many hits a warm page may go to the hot list.
const HITS_TO_BE_HOT: u64 = 3;

/// The name of a page: its place in the file, and its length.
#[derive(Clone, Copy, PartialEq, Eq, Hash)]
pub(crate) struct PageName {
    pub(crate) at: u64,
    pub(crate) size: usize,
}

/// A page that is kept.
#[derive(Drop)]
pub(crate) struct Block {
    pub(crate) bytes: Vec<u8>,
    /// The file has yet to get the bytes.
    pub(crate) unwritten: bool,
    pub(crate) hits: u64,
    /// The number of the last access.
    pub(crate) last: u64,
}

/// The pages that are kept, on the warm list and the hot list.
pub(crate) struct Blocks {
    setup: CacheSetup,
    pages: IndexMap<PageName, Block>,
    lists: PageLists,
    /// How many accesses there were.
    accesses: u64,
}

impl Drop for Blocks {
    fn drop(self) {
        let Blocks {
            setup: _,
            pages: _,
            lists: _,
            accesses: _,
        } = self;
    }
}

// Puts a page that is not there behind the others.
fn push(
    pages: &mut IndexMap<PageName, Block>,
    name: PageName,
    block: Block,
) -> Result<(), CacheFault>
    requires { AllByRecursion (λ (e : PageName × Block).
        e.0.at ≡ name.at → e.0.size ≡ name.size → ⊥) pages.old.entries }
    ensures pages { OnOk result (pages.new.entries ≡ pages.old.entries ++ (name, block) ∷ []) }
    ensures err { OnErr result (pages.new.entries ≡ pages.old.entries) }
    ensures fault { IfErr result (λ e. e ≡ Memory) }
{
    pages.insert(name, block)?;
    Ok(())
}

// Takes out the page of an index, whose buffer is answered, and gives its index to the last page.
fn replace_by_last(pages: &mut IndexMap<PageName, Block>, index: usize) -> Vec<u8>
    requires { index + 1 < length pages.old.entries }
    ensures { (front : List (PageName × Block)) (old : PageName × Block)
        (back : List (PageName × Block)) (last : PageName × Block) → length front ≡ index
        → pages.old.entries ≡ (front ++ old ∷ back) ++ last ∷ []
        → pages.new.entries ≡ front ++ last ∷ back }
{
    let (_, block) = pages.swap_remove_index(index).unwrap();
    block.bytes
}

// The names of the unwritten pages, in order of place.
fn unwritten_in(pages: &IndexMap<PageName, Block>) -> Result<Vec<PageName>, AllocError>
    ensures all { IfOk result (λ found.
        IsPermutation (names_in pages.now.entries) found.items) }
    ensures sorted { IfOk result (λ found.
        IsNonDecreasingBy (λ (n : PageName). n.at) found.items) }
{
    let mut found = Vec::new(*pages.allocator());
    for index in 0..pages.len() {
        let (name, block) = pages.get_index(index).unwrap();
        if block.unwritten {
            found.push(*name)?;
        }
    }
    found.sort_unstable_by_key(
        |name: &PageName| -> u64
            ensures { result ≡ name.now.at }
        { name.at },
    );
    Ok(found)
}

impl Model for Blocks {
    ghost use Rattle.myi_keycache.specs.Order.{Order, ordered_by, HoldsPages};

    ghost Value = { Order };

    ghost view = { λ b. ordered_by b.setup b.pages.entries b.lists b.accesses };

    ghost invariant = { λ b. HoldsPages b.setup b.pages.entries b.lists b.accesses };
}

impl Blocks {
    ghost use Rattle.std.specs.Prelude.{◌≡◌, ◌<◌, ◌≤◌, ◌+◌, ◌-◌, ◌*◌, ◌++◌, ℕ, [], ◌∷◌, length, insert};
    ghost use Rattle.std.specs.Prelude.{position, slice_get, is_some, Some, None, true, false, nat_le, nat_lt};
    ghost use Rattle.std.specs.Prelude.{IfOk, IfErr, IsSome, OnOk, OnErr, IfSome, if◌then◌else◌};
    ghost use Rattle.myi_keycache.specs.declared.setup.CacheFault.TheVariants.{Memory};
    ghost use Rattle.myi_keycache.specs.declared.blocks.PageName.{PageName};
    ghost use Rattle.std.specs.List.Sorted.{IsPermutation, IsNonDecreasingBy};
    ghost use Rattle.myi_keycache.specs.Setup.{IsSetup};
    ghost use Rattle.myi_keycache.specs.Kept.{KeptPage};
    ghost use Rattle.myi_keycache.specs.Counts.{raised};
    ghost use Rattle.myi_keycache.specs.Midpoint.{midpoint, asked, taken_in, age_limit, aged};
    ghost use Rattle.myi_keycache.specs.Order.{Order, Split, with_page, as_written, with_bytes, hit_page};
    ghost use Rattle.myi_keycache.specs.Order.{goes_hot, page_of, room_in, contents_of, lists_in};
    ghost use Rattle.myi_keycache.specs.Order.{counted_in, has_name, IsAt, AtName, unwritten_names};
    ghost use Rattle.myi_keycache.specs.Order.{IsOrdered, Alike};

    /// No pages.
    pub(crate) fn new(alloc: Global, setup: CacheSetup) -> Result<Blocks, AllocError>
        requires { IsSetup setup }
        ensures { IfOk result (λ blocks. blocks
            ≡ record { setup = setup; pages = []; warm = 0; accesses = 0 }) }
    {
        Ok(Blocks {
            setup,
            pages: IndexMap::new(alloc),
            lists: PageLists::new(alloc)?,
            accesses: 0,
        })
    }

    /// Each page is there once, and there are no more than may be kept.
    pub(crate) fn are_ordered(&self)
        ensures { IsOrdered self.now }
    {
        let _ = &self.pages;
    }

    /// Whether a page of that name is kept.
    pub(crate) fn is_kept(&self, name: PageName) -> bool
        ensures kept { result ≡ is_some (position (has_name name.at name.size) self.now.pages) }
        ensures ordered { IsOrdered self.now }
    {
        self.pages.get_index_of(&name).is_some()
    }

    /// The bytes of a page.
    pub(crate) fn page(&self, name: PageName) -> &[u8]
        requires { IsSome (position (has_name name.at name.size) self.now.pages) }
        ensures { AtName self.now name (λ _ p. result.now ≡ p.page.bytes) }
    {
        let index = self.pages.get_index_of(&name).unwrap();
        self.pages[index].bytes.as_slice()
    }

    /// Whether all blocks are used.
    pub(crate) fn is_full(&self) -> bool
        ensures full { result ≡ nat_le self.now.setup.blocks (length self.now.pages) }
        ensures ordered { IsOrdered self.now }
    {
        self.pages.len() >= self.setup.blocks as usize
    }

    /// The name of the first page.
    pub(crate) fn first(&self) -> PageName
        requires { 0 < length self.now.pages }
        ensures { IsAt self.now result 0 }
    {
        let (name, _) = self.pages.get_index(self.lists.first()).unwrap();
        *name
    }

    /// Whether the file has yet to get a page.
    pub(crate) fn is_unwritten(&self, name: PageName) -> bool
        requires { IsSome (position (has_name name.at name.size) self.now.pages) }
        ensures unwritten { AtName self.now name (λ _ p. result ≡ p.page.unwritten) }
        ensures ordered { IsOrdered self.now }
    {
        let index = self.pages.get_index_of(&name).unwrap();
        self.pages[index].unwritten
    }

    /// The file has the page.
    pub(crate) fn set_written(&mut self, name: PageName)
        requires { IsSome (position (has_name name.at name.size) self.old.pages) }
        ensures { (i : ℕ) → IsAt self.old name i → (s : Split self.old.pages i) → self.new
            ≡ record self.old { pages = with_page s (as_written s.page) } }
    {
        let index = self.pages.get_index_of(&name).unwrap();
        self.pages[index].unwritten = false;
    }

    /// A page has these bytes, which the file has yet to get.
    pub(crate) fn overwrite(&mut self, name: PageName, bytes: &[u8])
        requires kept { IsSome (position (has_name name.at name.size) self.old.pages) }
        requires long { length bytes.now ≡ name.size }
        ensures { (i : ℕ) → IsAt self.old name i → (s : Split self.old.pages i) → self.new
            ≡ record self.old { pages = with_page s (with_bytes s.page bytes.now) } }
    {
        let index = self.pages.get_index_of(&name).unwrap();
        let block = &mut self.pages[index];
        block.bytes.as_mut_slice().copy_from_slice(bytes);
        block.unwritten = true;
    }

    // Without one page the warm list still has its share of the blocks.
    fn keeps_share(&self) -> bool
        ensures { result
            ≡ nat_le (self.now.setup.division * self.now.setup.blocks) ((self.now.warm - 1) * 100) }
    {
        let share = self.setup.division as u64 * self.setup.blocks as u64;
        self.lists.warm_count().saturating_sub(1) as u64 * 100 >= share
    }

    // Counts an access to a page that is kept, and a hit where the page is warm. Answers whether the page is to
    // go to the hot end.
    fn count_hit(&mut self, name: PageName) -> bool
        requires { IsSome (position (has_name name.at name.size) self.old.pages) }
        ensures page { (i : ℕ) → IsAt self.old name i → (s : Split self.old.pages i)
            → self.new ≡ record self.old {
              accesses = raised 1 self.old.accesses;
              pages = with_page s (hit_page self.old i s.page);
            } }
        ensures hot { (i : ℕ) → IsAt self.old name i → (s : Split self.old.pages i)
            → result ≡ goes_hot self.old i s.page }
        ensures warm { self.old.warm ≤ length self.old.pages }
    {
        let index = self.pages.get_index_of(&name).unwrap();
        let share = self.keeps_share();
        let hot = self.lists.is_hot(index);
        self.accesses = self.accesses.saturating_add(1);
        let block = &mut self.pages[index];
        block.last = self.accesses;
        if hot {
            return true;
        }
        block.hits = block.hits.saturating_add(1);
        block.hits >= HITS_TO_BE_HOT && share
    }

    // Moves a page to the hot end.
    fn move_to_hot_end(&mut self, name: PageName)
        requires { IsSome (position (has_name name.at name.size) self.old.pages) }
        ensures { (i : ℕ) → IsAt self.old name i → (s : Split self.old.pages i)
            → self.new ≡ record self.old {
              pages = (s.front ++ s.back) ++ s.page ∷ [];
              warm = if nat_lt i self.old.warm then self.old.warm - 1 else self.old.warm;
            } }
    {
        let index = self.pages.get_index_of(&name).unwrap();
        self.lists.take_off(index);
        self.lists.put_at_hot_end(index);
    }

    // Moves a warm page to the warm end.
    fn move_to_warm_end(&mut self, name: PageName)
        requires kept { IsSome (position (has_name name.at name.size) self.old.pages) }
        requires warm { AtName self.old name (λ i _. i < self.old.warm) }
        ensures { (i : ℕ) → IsAt self.old name i → (s : Split self.old.pages i) → self.new
            ≡ record self.old { pages = insert (s.front ++ s.back) (self.old.warm - 1) s.page } }
    {
        let index = self.pages.get_index_of(&name).unwrap();
        self.lists.take_off(index);
        self.lists.put_at_warm_end(index);
    }

    // The first hot page has no hits.
    fn clear_hits(&mut self)
        requires { self.old.warm < length self.old.pages }
        ensures { (s : Split self.old.pages self.old.warm) → self.new
            ≡ record self.old { pages = with_page s (record s.page { hits = 0 }) } }
    {
        let index = self.lists.first_hot().unwrap();
        self.pages[index].hits = 0;
    }

    // Moves the first hot page to the warm beginning.
    fn move_to_warm_beginning(&mut self)
        requires { self.old.warm < length self.old.pages }
        ensures { (s : Split self.old.pages self.old.warm) → self.new
            ≡ record self.old {
              pages = insert (s.front ++ s.back) 0 s.page;
              warm = self.old.warm + 1;
            } }
    {
        let index = self.lists.first_hot().unwrap();
        self.lists.take_off(index);
        self.lists.put_at_warm_beginning(index);
    }

    // Whether there is a hot page, and the first is old.
    fn is_first_old(&self) -> bool
        ensures old { (s : Split self.now.pages self.now.warm) → result
            ≡ nat_lt (age_limit self.now.setup) (self.now.accesses - s.page.last) }
        ensures none { length self.now.pages ≤ self.now.warm → result ≡ false }
    {
        let Some(index) = self.lists.first_hot() else {
            return false;
        };
        let limit = self.setup.blocks as u64 * self.setup.age as u64 / 100;
        self.accesses.saturating_sub(self.pages[index].last) > limit
    }

    // Takes the first hot page to the warm beginning, where it is old.
    fn age(&mut self)
        ensures lists { lists_in self.new ≡ aged self.old.setup (lists_in self.old) }
        ensures setup { self.new.setup ≡ self.old.setup }
        ensures alike { Alike (contents_of self.old.pages) (contents_of self.new.pages) }
    {
        if self.is_first_old() {
            self.clear_hits();
            self.move_to_warm_beginning();
        }
    }

    // An access to a page that is kept, before the age is looked at.
    fn ask(&mut self, name: PageName)
        requires { IsSome (position (has_name name.at name.size) self.old.pages) }
        ensures lists { lists_in self.new
            ≡ asked self.old.setup name.at name.size (counted_in self.old) }
        ensures setup { self.new.setup ≡ self.old.setup }
        ensures alike { Alike (contents_of self.old.pages) (contents_of self.new.pages) }
    {
        if self.count_hit(name) {
            self.move_to_hot_end(name);
        } else {
            self.move_to_warm_end(name);
        }
    }

    /// An access to a page that is kept.
    pub(crate) fn hit(&mut self, name: PageName)
        requires { IsSome (position (has_name name.at name.size) self.old.pages) }
        ensures lists { lists_in self.new
            ≡ midpoint self.old.setup (lists_in self.old) name.at name.size }
        ensures setup { self.new.setup ≡ self.old.setup }
        ensures alike { Alike (contents_of self.old.pages) (contents_of self.new.pages) }
    {
        self.ask(name);
        self.age();
    }

    // Takes in a page that is not kept from the buffer, at the warm end. Where all blocks are used the first
    // page leaves, and the buffer is its.
    fn insert(&mut self, at: u64, buffer: &mut Vec<u8>, unwritten: bool) -> Result<(), CacheFault>
        requires { position (has_name at (length buffer.old.items)) self.old.pages ≡ None }
        ensures lists { OnOk result (lists_in self.new
            ≡ taken_in self.old.setup at (length buffer.old.items) (counted_in self.old)) }
        ensures setup { self.new.setup ≡ self.old.setup }
        ensures alike { OnOk result (Alike
            (page_of at buffer.old.items unwritten ∷ room_in self.old)
            (contents_of self.new.pages)) }
        ensures err { OnErr result (self.new ≡ self.old) }
        ensures fault { IfErr result (λ e. e ≡ Memory) }
    {
        let full = self.is_full();
        let index = self.pages.len();
        self.lists.make_room(index)?;
        let accesses = self.accesses.saturating_add(1);
        let name = PageName {
            at,
            size: buffer.len(),
        };
        let none = Vec::new(*self.pages.allocator());
        let block = Block {
            bytes: replace(buffer, none),
            unwritten,
            hits: 0,
            last: accesses,
        };
        push(&mut self.pages, name, block)?;
        self.accesses = accesses;
        if full {
            let first = self.lists.first();
            *buffer = replace_by_last(&mut self.pages, first);
            self.lists.take_off(first);
            self.lists.put_at_warm_end(first);
        } else {
            self.lists.put_at_warm_end(index);
        }
        Ok(())
    }

    /// An access to a page that is not kept, which is taken in from the buffer. Where all blocks are used the
    /// first page leaves, and the buffer is its.
    pub(crate) fn take_in(
        &mut self,
        at: u64,
        buffer: &mut Vec<u8>,
        unwritten: bool,
    ) -> Result<(), CacheFault>
        requires { position (has_name at (length buffer.old.items)) self.old.pages ≡ None }
        ensures lists { OnOk result (lists_in self.new
            ≡ midpoint self.old.setup (lists_in self.old) at (length buffer.old.items)) }
        ensures setup { self.new.setup ≡ self.old.setup }
        ensures alike { OnOk result (Alike
            (page_of at buffer.old.items unwritten ∷ room_in self.old)
            (contents_of self.new.pages)) }
        ensures err { OnErr result (self.new ≡ self.old) }
        ensures fault { IfErr result (λ e. e ≡ Memory) }
    {
        self.insert(at, buffer, unwritten)?;
        self.age();
        Ok(())
    }

    /// The names of the unwritten pages, in order of place.
    pub(crate) fn unwritten(&self) -> Result<Vec<PageName>, AllocError>
        ensures all { IfOk result (λ found.
            IsPermutation (unwritten_names (contents_of self.now.pages)) found.items) }
        ensures sorted { IfOk result (λ found.
            IsNonDecreasingBy (λ (n : PageName). n.at) found.items) }
        ensures ordered { IsOrdered self.now }
    {
        let found = unwritten_in(&self.pages)?;
        Ok(found)
    }
}
