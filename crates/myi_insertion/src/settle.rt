//! Writing pairs on pages: as many pages side by side as they need, of which the first stands at a given place.
//!
//! `settle` is the only writer. A page that overflows is cut in the middle of its bytes: the first page takes
//! entries up to the one that makes it half full, and the pair behind them is set aside.
ghost use Rattle.std.specs.Prelude.{◌≡◌, ◌++◌, [], slice_index_or, ◌+◌, ◌%◌, ◌<◌, ◌≤◌, ◌==◌, ◌∷◌, not, ℕ, List, length, take, drop, suc, IfOk, IfErr, OnOk, IfNone, IfSome, IsTrue};
ghost use Rattle.myi_base.specs.Holding.{IfTold, Told, OthersStay, Holding};
ghost use Rattle.std.specs.List.{Contains};
ghost use Rattle.myi_base.specs.Causes.{HasCause};
ghost use Rattle.myi_keypage.specs.Page.{IsPlace};
ghost use Rattle.myi_keypage.specs.Fitting.{used_length};
ghost use Rattle.myi_keycache.specs.Caching.{Caching};
ghost use Rattle.myi_keylist.specs.declared.pair.Pair.{Pair};
ghost use Rattle.myi_btree.specs.declared.fault.TreeFault.TheVariants.{File, Memory};
ghost use Rattle.myi_btree.specs.Nodes.{entries_of};
ghost use Rattle.myi_btree.specs.Sizes.{IsPlaced};
ghost use Rattle.myi_btree.specs.Faults.{IsFileOrMemory};
ghost use Rattle.myi_btree.specs.Building.{page_for, IsWritten};
ghost use Rattle.myi_btree.specs.CachedTrees.{node_lent};
ghost use Rattle.myi_search.specs.Counting.{CountsOn};
ghost use Rattle.myi_insertion.specs.Strips.{StandFor};
ghost use Rattle.myi_insertion.specs.Rooms.{IsWhole};
ghost use Rattle.myi_insertion.specs.CachedChanges.{CanChange};
ghost use Rattle.myi_insertion.specs.Written.{CanWrite, IsCut, IsWellFilled, IsStripOf, chunk_node, page_node};
ghost use Rattle.myi_insertion.specs.Halves.{UseHalf};
ghost use Rattle.myi_insertion.specs.Steps.{Wrote, Lays};

use crate::page::PageData;
use crate::room::take_page;
use myi_btree::{Place, Room, TreeFault, laid_pages_are_written};
use myi_io::Files;
use myi_keycache::KeyCache;
use myi_keylist::PairList;
use myi_keypage::{Part, entries_fit, fitting_of, write_page_of};
use std::alloc::{AllocError, Global};

/// Trees side by side: the places of their pages, and the pairs between them.
pub(crate) struct Strip {
    pub(crate) places: Vec<u64>,
    pub(crate) separators: PairList,
}

impl Drop for Strip {
    fn drop(self) {
        let Strip {
            places: _,
            separators: _,
        } = self;
    }
}

/// Some pairs of a list, and the children around them.
#[derive(Clone, Copy)]
pub(crate) struct Chunk<'a> {
    pub(crate) pairs: &'a PairList,
    pub(crate) start: usize,
    pub(crate) count: usize,
    pub(crate) children: &'a [u64],
}

/// What all steps of a call share.
#[derive(Clone, Copy)]
pub(crate) struct Setup {
    pub(crate) alloc: Global,
    pub(crate) place: Place,
}

// How many of the pairs from `start` on the next page takes, and None where all of them fit.
fn cut(place: Place, node: bool, pairs: &PairList, start: usize) -> Result<Option<usize>, TreeFault>
    requires placed { IsPlaced place }
    requires inside { start < length pairs.now }
    ensures all { IfOk result (λ count. IfNone count
        (used_length place.rec_ref node (entries_of (drop start pairs.now)) ≤ place.block_length)) }
    ensures some { IfOk result (λ count. IfSome count
        (IsCut place node (drop start pairs.now))) }
    ensures filled { IfOk result (λ count. IfSome count
        (IsWellFilled place node (drop start pairs.now))) }
    ensures front { IfOk result (λ count. IfSome count (λ n. UseHalf place node
        (drop start pairs.now) (take n (drop start pairs.now)))) }
    ensures back { IfOk result (λ count. IfSome count (λ n. UseHalf place node
        (drop start pairs.now) (drop (suc n) (drop start pairs.now)))) }
    ensures memory { IfErr result (λ fault. fault ≡ Memory) }
{
    entries_fit();
    let left = pairs.len() - start;
    let part = Part {
        list: pairs,
        start,
        count: left,
    };
    let most = fitting_of(&part, node, place.rec_ref, place.block_length as usize);
    if most == left {
        return Ok(None);
    }
    let half = fitting_of(&part, node, place.rec_ref, place.block_length as usize / 2);
    let count = most.min(half + 1).min(left.saturating_sub(2));
    if count == 0 {
        return Err(TreeFault::Memory);
    }
    Ok(Some(count))
}

// Writes pairs and children into the bytes of a page.
fn write_chunk(place: Place, chunk: &Chunk, page: &mut [u8])
    requires placed { IsPlaced place }
    requires page { IsWritten place (chunk_node chunk.now) }
    requires buffer { length page.old ≡ place.block_length }
    ensures bytes { page.new ≡ page_for place (chunk_node chunk.now) }
    ensures long { length page.new ≡ place.block_length }
{
    let part = Part {
        list: chunk.pairs,
        start: chunk.start,
        count: chunk.count,
    };
    write_page_of(&part, chunk.children, place.rec_ref, page);
}

// Writes pairs and children as the page at a place.
fn put_chunk<F: Files>(
    place: Place,
    files: &mut F,
    cache: &mut KeyCache,
    at: u64,
    chunk: &Chunk,
    page: &mut [u8],
) -> Result<(), TreeFault>
    requires writable { IsTrue F.writable }
    requires placed { IsPlaced place }
    requires page { IsWritten place (chunk_node chunk.now) }
    requires buffer { length page.old ≡ place.block_length }
    requires whole { at % 1024 ≡ 0 }
    ensures wrote { OnOk result (IfTold (F.holds files.old) (λ m. (pages : List ℕ) (room : Room)
        → CanChange place cache.old m pages room → Contains pages at
        → Wrote place cache.old m pages room (F.holds files.new) cache.new at (chunk_node chunk.now))) }
    ensures others { Told (F.holds files.old) (F.holds files.new) (OthersStay cache.old.name) }
    ensures name { cache.new.name ≡ cache.old.name }
    ensures counted { CountsOn cache.old cache.new }
    ensures long { length page.new ≡ place.block_length }
    ensures faults { IfErr result IsFileOrMemory }
    ensures cause { HasCause File (F.faults files.old) (F.faults files.new) result }
    ensures reads { F.reads files.old ≤ F.reads files.new }
{
    laid_pages_are_written();
    write_chunk(place, chunk, page);
    cache.put(files, at, page)?;
    Ok(())
}

// The first children, and the others.
fn children_at(children: &[u64], count: usize) -> (&[u64], &[u64])
    ensures front { result.0.now ≡ take count children.now }
    ensures back { result.1.now ≡ drop count children.now }
{
    children.split_at(count.min(children.len()))
}

impl Strip {
    /// No tree yet.
    fn new(alloc: Global) -> Strip
        ensures places { result.places.items ≡ [] }
        ensures separators { result.separators ≡ [] }
    {
        Strip {
            places: Vec::new(alloc),
            separators: PairList::new(alloc),
        }
    }

    /// One page.
    pub(crate) fn of_page(alloc: Global, at: u64) -> Result<Strip, AllocError>
        ensures places { IfOk result (λ strip. strip.places.items ≡ at ∷ []) }
        ensures separators { IfOk result (λ strip. strip.separators ≡ []) }
    {
        let mut strip = Strip::new(alloc);
        strip.places.push(at)?;
        Ok(strip)
    }

    /// The page above the trees.
    pub(crate) fn into_page(self) -> PageData
        ensures pairs { result.pairs ≡ self.separators }
        ensures children { result.children ≡ self.places }
    {
        let Strip { places, separators } = self;
        PageData {
            pairs: separators,
            children: places,
        }
    }

    // Adds a page, and the pair of a list behind it.
    fn push(&mut self, at: u64, pairs: &PairList, i: usize) -> Result<(), AllocError>
        requires { i < length pairs.now }
        ensures places { OnOk result (self.new.places.items ≡ self.old.places.items ++ at ∷ []) }
        ensures separators { (other : Pair) → OnOk result (self.new.separators
            ≡ self.old.separators ++ slice_index_or pairs.now i other ∷ []) }
    {
        self.places.push(at)?;
        self.separators.push(pairs.code(i), pairs.row(i))?;
        Ok(())
    }
}

/// Writes pages for pairs and the children around them, the first one at a place. Each further one is taken
/// from the room.
pub(crate) fn settle<F: Files>(
    setup: Setup,
    files: &mut F,
    cache: &mut KeyCache,
    room: &mut Room,
    at: u64,
    page: &PageData,
) -> Result<Strip, TreeFault>
    requires writable { IsTrue F.writable }
    requires placed { IsPlaced setup.place }
    requires whole { IsWhole room.old }
    requires at { IsPlace at }
    requires page { CanWrite setup.place.rec_ref page.now.pairs page.now.children.items }
    ensures settles { IfOk result (λ strip. IfTold (F.holds files.old) (λ m. (height : ℕ)
        (xs : List Pair) (below : List ℕ)
        → StandFor (node_lent setup.place cache.old m) height page.now.pairs
        page.now.children.items xs below
        → CanChange setup.place cache.old m (at ∷ below) room.old
        → Lays setup.place cache.old m at below room.old (F.holds files.new) cache.new
        room.new (page_node page.now) height xs strip.places.items strip.separators)) }
    ensures shape { IfOk result (λ strip. IsStripOf setup.place.rec_ref at strip.places.items
        strip.separators) }
    ensures whole { IsWhole room.new }
    ensures others { Told (F.holds files.old) (F.holds files.new) (OthersStay cache.old.name) }
    ensures name { cache.new.name ≡ cache.old.name }
    ensures counted { CountsOn cache.old cache.new }
    ensures faults { IfErr result IsFileOrMemory }
    ensures cause { HasCause File (F.faults files.old) (F.faults files.new) result }
    ensures reads { F.reads files.old ≤ F.reads files.new }
{
    let place = setup.place;
    let mut buffer = vec![in setup.alloc; 0u8; place.block_length as usize]?;
    let mut strip = Strip::new(setup.alloc);
    let total = page.pairs.len();
    let mut children: &[u64] = &page.children;
    let node = !children.is_empty();
    let mut start = 0;
    let mut at = at;
    'rest: while let Some(count) = cut(place, node, &page.pairs, start)? {
        let (first, others) = children_at(children, count + 1);
        let chunk = Chunk {
            pairs: &page.pairs,
            start,
            count,
            children: first,
        };
        put_chunk(place, files, cache, at, &chunk, &mut buffer)?;
        strip.push(at, &page.pairs, start + count)?;
        start += count + 1;
        children = others;
        at = take_page(room, place.block_length)?;
    }
    let count = total - start;
    let chunk = Chunk {
        pairs: &page.pairs,
        start,
        count,
        children,
    };
    put_chunk(place, files, cache, at, &chunk, &mut buffer)?;
    strip.places.push(at)?;
    Ok(strip)
}
