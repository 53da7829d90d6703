//! A page on the way of a pair: where the pair goes on it.
//!
//! `spot_in` goes over the bytes of a page up to the place of the pair, and `pass` asks a key cache for the page at a
//! place. The bytes are kept, and are read as lists (`Passed::read`) only where something is to be changed on the page.
ghost use Rattle.std.specs.Prelude.{◌≡◌, ◌≢◌, ◌≤◌, Some, None, Err, is_some, IfOk, IfErr, IfSome, IfNone, OnOk, IsTrue, length};
ghost use Rattle.std.specs.Ordering.{is_gt};
ghost use Rattle.myi_base.specs.Holding.{IfTold, Told, OthersStay};
ghost use Rattle.myi_base.specs.Causes.{HasCause};
ghost use Rattle.myi_keys.specs.Comparing.{key_front};
ghost use Rattle.myi_keypage.specs.Page.{IsPlace};
ghost use Rattle.myi_keycache.specs.Kept.{AddsOnly};
ghost use Rattle.myi_keycache.specs.Caching.{pages_of, CanGet, Stays};
ghost use Rattle.myi_keylist.specs.PairOrder.{pair_with, pair_cmp};
ghost use Rattle.myi_btree.specs.declared.fault.TreeFault.TheVariants.{File};
ghost use Rattle.myi_btree.specs.Nodes.{node_in};
ghost use Rattle.myi_btree.specs.Sizes.{IsPlaced};
ghost use Rattle.myi_btree.specs.Faults.{DamagedAt};
ghost use Rattle.myi_btree.specs.CachedTrees.{node_lent, ReadsOnly};
ghost use Rattle.myi_search.specs.Counting.{CountsOn};
ghost use Rattle.myi_insertion.specs.Written.{page_node, CanWrite};
ghost use Rattle.myi_insertion.specs.Damage.{IsInFile, ShowsSame};
ghost use Rattle.myi_insertion.specs.Spots.{IsOnPage, IsFirstDamage, IsSpot};

use crate::insertion::Task;
use crate::page::{PageData, change_code, read_pairs};
use myi_btree::TreeFault;
use myi_io::Files;
use myi_keycache::KeyCache;
use myi_keypage::read_page;
use myi_keys::{codes_read_back, compare_codes};
use std::alloc::{AllocError, Global};

/// Where a pair goes on a page: how many of its pairs stand before it, and in a node the child that is next.
#[derive(Clone, Copy)]
pub(crate) struct Spot {
    pub(crate) index: usize,
    pub(crate) child: Option<u64>,
}

/// The bytes of a page, and where the pair goes on it.
pub(crate) struct Passed {
    pub(crate) bytes: Vec<u8>,
    pub(crate) spot: Spot,
}

impl Drop for Passed {
    fn drop(self) {
        let Passed { bytes: _, spot: _ } = self;
    }
}

// Whether a pair stands behind another one, both by a code and a row.
#[inline(always)]
fn is_behind(code: &[u8], row: u64, other: &[u8], other_row: u64) -> bool
    ensures { result ≡ is_gt (pair_cmp (pair_with (key_front code.now) row)
        (pair_with (key_front other.now) other_row)) }
{
    compare_codes(code, other).then(row.cmp(&other_row)).is_gt()
}

/// Where the pair of a code and a row goes on the page that bytes are, with row pointers of `rec_ref` bytes, and None
/// where they are no page. That a key of it is no key's code is not seen here.
pub(crate) fn spot_in(
    alloc: Global,
    bytes: &[u8],
    rec_ref: u8,
    key: &[u8],
    row: u64,
) -> Result<Option<Spot>, AllocError>
    requires wide { 2 ≤ rec_ref }
    requires narrow { rec_ref ≤ 8 }
    ensures page { IfOk result (λ spot. IfSome spot (IsOnPage rec_ref bytes.now)) }
    ensures spot { IfOk result (λ spot. IfSome spot (λ s. IsTrue (is_some (node_in rec_ref bytes.now))
        → IsSpot rec_ref bytes.now (pair_with (key_front key.now) row) s)) }
    ensures none { IfOk result (λ spot. IfNone spot (node_in rec_ref bytes.now ≡ None)) }
{
    codes_read_back();
    let Some(view) = read_page(bytes, rec_ref) else {
        return Ok(None);
    };
    let mut walk = view.walk();
    let mut code: Vec<u8> = Vec::new(alloc);
    let mut index = 0;
    let mut child = view.first_child();
    while let Some(item) = walk.next_item() {
        change_code(&mut code, item.prefix, item.rest)?;
        if !is_behind(key, row, &code, item.row) {
            return Ok(Some(Spot { index, child }));
        }
        index += 1;
        child = item.child;
    }
    Ok(Some(Spot { index, child }))
}

fn copy_of(alloc: Global, bytes: &[u8]) -> Result<Vec<u8>, AllocError>
    ensures { IfOk result (λ copy. copy.items ≡ bytes.now) }
{
    Vec::from_slice(alloc, bytes)
}

/// The page at a place, and where the pair goes on it.
pub(crate) fn pass<F: Files>(
    task: &Task,
    files: &mut F,
    cache: &mut KeyCache,
    at: u64,
) -> Result<Passed, TreeFault>
    requires writable { IsTrue F.writable }
    requires placed { IsPlaced task.now.setup.place }
    ensures node { IfOk result (λ page. IfTold (F.holds files.old) (λ m.
        CanGet cache.old m at task.now.setup.place.block_length
        → node_lent task.now.setup.place cache.old m at
        ≡ node_in task.now.setup.place.rec_ref page.bytes.items)) }
    ensures page { IfOk result (λ page. IsOnPage task.now.setup.place.rec_ref page.bytes.items
        page.spot) }
    ensures spot { IfOk result (λ page.
        IsTrue (is_some (node_in task.now.setup.place.rec_ref page.bytes.items))
        → IsSpot task.now.setup.place.rec_ref page.bytes.items task.now.pair.now page.spot) }
    ensures long { IfOk result (λ page. length page.bytes.items
        ≡ task.now.setup.place.block_length) }
    ensures at { OnOk result (IsPlace at) }
    ensures damaged { IfErr result (DamagedAt (λ p. (p ≡ at) × IfTold (F.holds files.old) (λ m.
        CanGet cache.old m at task.now.setup.place.block_length
        → node_lent task.now.setup.place cache.old m at ≡ None))) }
    ensures stays { Told (F.holds files.old) (F.holds files.new)
        (λ m n. CanGet cache.old m at task.now.setup.place.block_length
        → Stays cache.old cache.new m n) }
    ensures shown { Told (F.holds files.old) (F.holds files.new)
        (λ m n. IsInFile cache.old m → ShowsSame task.now.setup.place cache.old m cache.new n) }
    ensures added { AddsOnly at task.now.setup.place.block_length (pages_of cache.old)
        (pages_of cache.new) }
    ensures others { Told (F.holds files.old) (F.holds files.new) (OthersStay cache.old.name) }
    ensures name { cache.new.name ≡ cache.old.name }
    ensures cache { ReadsOnly (F.holds files.old) (F.holds files.new) cache.old cache.new }
    ensures counted { CountsOn cache.old cache.new }
    ensures cause { HasCause File (F.faults files.old) (F.faults files.new) result }
    ensures reads { F.reads files.old ≤ F.reads files.new }
{
    let setup = task.setup;
    let pair = task.pair;
    if at % 1024 != 0 {
        return Err(TreeFault::Damaged { at });
    }
    let bytes = cache.get(files, at, setup.place.block_length as usize)?;
    let found = spot_in(
        setup.alloc,
        bytes,
        setup.place.rec_ref,
        pair.key.code(),
        pair.row,
    )?;
    let Some(spot) = found else {
        return Err(TreeFault::Damaged { at });
    };
    let kept = copy_of(setup.alloc, bytes)?;
    Ok(Passed { bytes: kept, spot })
}

impl Passed {
    /// The page as lists. `Damaged` comes where a key of it is no key's code.
    pub(crate) fn read(&self, alloc: Global, rec_ref: u8, at: u64) -> Result<PageData, TreeFault>
        requires wide { 2 ≤ rec_ref }
        requires narrow { rec_ref ≤ 8 }
        ensures node { IfOk result (λ page. Some (page_node page)
            ≡ node_in rec_ref self.now.bytes.items) }
        ensures written { IfOk result (λ page. CanWrite rec_ref page.pairs page.children.items) }
        ensures damaged { IfErr result (DamagedAt (λ p. (p ≡ at)
            × (node_in rec_ref self.now.bytes.items ≡ None))) }
        ensures file { result ≢ Err File }
    {
        match read_pairs(alloc, &self.bytes, rec_ref)? {
            Some(page) => Ok(page),
            None => Err(TreeFault::Damaged { at }),
        }
    }

    /// The fault of a call on the pages below this one, or where a key of this one is no key's code, `Damaged`.
    pub(crate) fn fault_from(
        &self,
        alloc: Global,
        rec_ref: u8,
        at: u64,
        below: TreeFault,
    ) -> TreeFault
        requires wide { 2 ≤ rec_ref }
        requires narrow { rec_ref ≤ 8 }
        ensures damaged { DamagedAt (IsFirstDamage rec_ref self.now.bytes.items at below) result }
        ensures file { result ≡ File → below ≡ File }
    {
        match self.read(alloc, rec_ref, at) {
            Ok(_) => below,
            Err(fault) => fault,
        }
    }
}
