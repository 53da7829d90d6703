//! Asking a key cache for a page of a tree.
ghost use Rattle.std.specs.Prelude.{◌≡◌, ◌≤◌, ◌+◌, ℕ, Some, None, IfOk, IfErr, OnOk, IsTrue};
ghost use Rattle.myi_base.specs.Holding.{IfTold, Told, OthersStay};
ghost use Rattle.myi_base.specs.Causes.{HasCause};
ghost use Rattle.myi_keypage.specs.Page.{IsPlace};
ghost use Rattle.myi_keycache.specs.Kept.{AddsOnly};
ghost use Rattle.myi_keycache.specs.Caching.{pages_of, CanGet, Stays};
ghost use Rattle.myi_btree.specs.declared.fault.TreeFault.TheVariants.{File};
ghost use Rattle.myi_btree.specs.Sizes.{IsPlaced};
ghost use Rattle.myi_btree.specs.Faults.{DamagedAt};
ghost use Rattle.myi_btree.specs.CachedTrees.{node_lent, ReadsOnly};
ghost use Rattle.myi_search.specs.Counting.{CountsOn};
ghost use Rattle.myi_insertion.specs.Written.{page_node, CanWrite};
ghost use Rattle.myi_insertion.specs.Damage.{IsInFile, ShowsSame};

use crate::page::{PageData, read_pairs};
use crate::settle::Setup;
use myi_btree::TreeFault;
use myi_io::Files;
use myi_keycache::KeyCache;

/// The page at a place.
pub(crate) fn load<F: Files>(
    setup: Setup,
    files: &mut F,
    cache: &mut KeyCache,
    at: u64,
) -> Result<PageData, TreeFault>
    requires writable { IsTrue F.writable }
    requires placed { IsPlaced setup.place }
    ensures node { IfOk result (λ page. IfTold (F.holds files.old) (λ m.
        CanGet cache.old m at setup.place.block_length
        → node_lent setup.place cache.old m at ≡ Some (page_node page))) }
    ensures written { IfOk result (λ page.
        CanWrite setup.place.rec_ref page.pairs page.children.items) }
    ensures at { OnOk result (IsPlace at) }
    ensures damaged { IfErr result (DamagedAt (λ p. (p ≡ at) × IfTold (F.holds files.old) (λ m.
        CanGet cache.old m at setup.place.block_length
        → node_lent setup.place cache.old m at ≡ None))) }
    ensures stays { Told (F.holds files.old) (F.holds files.new)
        (λ m n. CanGet cache.old m at setup.place.block_length → Stays cache.old cache.new m n) }
    ensures shown { Told (F.holds files.old) (F.holds files.new)
        (λ m n. IsInFile cache.old m → ShowsSame setup.place cache.old m cache.new n) }
    ensures added { AddsOnly at setup.place.block_length (pages_of cache.old) (pages_of cache.new) }
    ensures others { Told (F.holds files.old) (F.holds files.new) (OthersStay cache.old.name) }
    ensures name { cache.new.name ≡ cache.old.name }
    ensures cache { ReadsOnly (F.holds files.old) (F.holds files.new) cache.old cache.new }
    ensures counted { CountsOn cache.old cache.new }
    ensures cause { HasCause File (F.faults files.old) (F.faults files.new) result }
    ensures reads { F.reads files.old ≤ F.reads files.new }
{
    if at % 1024 != 0 {
        return Err(TreeFault::Damaged { at });
    }
    let bytes = cache.get(files, at, setup.place.block_length as usize)?;
    match read_pairs(setup.alloc, bytes, setup.place.rec_ref)? {
        Some(page) => Ok(page),
        None => Err(TreeFault::Damaged { at }),
    }
}
