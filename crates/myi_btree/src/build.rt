//! Laying the pages of a tree into a key cache over files.
ghost use Rattle.std.specs.Prelude.{◌≡◌, ◌+◌, ◌*◌, ◌%◌, ◌<◌, ◌≤◌, length, IfOk, IfErr, OnOk, OnErr, IsTrue};
ghost use Rattle.myi_base.specs.Holding.{Told};
ghost use Rattle.myi_base.specs.Causes.{HasCause};
ghost use Rattle.myi_btree.specs.declared.fault.TreeFault.TheVariants.{File};
ghost use Rattle.myi_btree.specs.CachePuts.{telling, CachePuts, CacheRefuses};
ghost use Rattle.myi_btree.specs.Faults.{IsFileOrMemory};
ghost use Rattle.myi_btree.specs.Sizes.{IsPlaced, AreSized};
ghost use Rattle.myi_btree.specs.Building.{laid_at, MayLay, NotLaid, PutsOnly, CountsPuts};
ghost use Rattle.myi_btree.specs.Building.{LaysOnly};

use crate::fault::TreeFault;
use crate::laying::Laying;
use crate::place::TreeSetup;
use myi_io::Files;
use myi_keycache::KeyCache;
use myi_keylist::PairList;

// Puts the bytes of a page at a place.
fn put_bytes<F: Files>(
    files: &mut F,
    cache: &mut KeyCache,
    at: u64,
    page: &[u8],
) -> Result<(), TreeFault>
    requires writable { IsTrue F.writable }
    requires limit { length page.now ≤ 16384 }
    ensures ok { OnOk result (CachePuts at page.now
        (telling (F.holds files.old) (F.faults files.old) (F.reads files.old)) cache.old
        (telling (F.holds files.new) (F.faults files.new) (F.reads files.new)) cache.new) }
    ensures err { IfErr result (λ fault. CacheRefuses at page.now fault
        (telling (F.holds files.old) (F.faults files.old) (F.reads files.old)) cache.old
        (telling (F.holds files.new) (F.faults files.new) (F.reads files.new)) cache.new) }
{
    cache.put(files, at, page)?;
    Ok(())
}

/// Lays the pages of a tree from a place on, and answers the place behind them.
pub(crate) fn lay_cached<F: Files>(
    setup: TreeSetup,
    files: &mut F,
    cache: &mut KeyCache,
    first: u64,
    pairs: &PairList,
) -> Result<u64, TreeFault>
    requires writable { IsTrue F.writable }
    requires placed { IsPlaced setup.place }
    requires at { first % 1024 ≡ 0 }
    requires sized { AreSized setup.place pairs.now }
    requires some { 0 < length pairs.now }
    ensures end { IfOk result (λ end. end
        ≡ first + setup.place.block_length * length (laid_at setup.place first pairs.now)) }
    ensures laid { OnOk result (Told (F.holds files.old) (F.holds files.new)
        (MayLay setup.place first (laid_at setup.place first pairs.now) cache.old cache.new)) }
    ensures refused { OnErr result (Told (F.holds files.old) (F.holds files.new)
        (NotLaid first cache.old cache.new)) }
    ensures name { cache.new.name ≡ cache.old.name }
    ensures puts { PutsOnly cache.old cache.new }
    ensures only { LaysOnly (F.holds files.old) (F.holds files.new)
        setup.place.block_length first cache.old cache.new }
    ensures counted { OnOk result
        (CountsPuts (length (laid_at setup.place first pairs.now)) cache.old cache.new) }
    ensures faults { IfErr result IsFileOrMemory }
    ensures cause { HasCause File (F.faults files.old) (F.faults files.new) result }
    ensures reads { F.reads files.new ≡ F.reads files.old }
{
    let mut page = vec![in setup.alloc; 0u8; setup.place.block_length as usize]?;
    let mut laying = Laying::new(setup, first, pairs);
    'pages: while let Some(at) = laying.next_page(&mut page)? {
        put_bytes(files, cache, at, &page)?;
    }
    Ok(laying.end())
}
