//! `parallel_recover`: a repair whose trees are laid by workers.
ghost use Rattle.std.specs.Prelude.{◌≡◌, ◌<◌, [], length, IfOk, IsTrue};
ghost use Rattle.myi_base.specs.Holding.{Told};
ghost use Rattle.myi_defs.specs.Sound.{IsSound};
ghost use Rattle.myi_repair.specs.Names.{names_for};
ghost use Rattle.myi_repair.specs.Outcome.{Ends};
ghost use Rattle.myi_repair.specs.Sized.{AreSizedPairs};
ghost use Rattle.myi_repair.specs.LaidInMemory.{AreTreesOf};
ghost use Rattle.myi_repair.specs.Repaired.{LeavesRepaired, OldOrNew};
ghost use Rattle.myi_parallel.specs.KeyPairs.{keys_from};

use crate::gate::KeyGate;
use crate::workers::{KeyPairs, lay_all};
use myi_base::Sequence;
use myi_btree::Laid;
use myi_defs::Defs;
use myi_io::Files;
use myi_keylist::PairList;
use myi_repair::{
    Gathered, RepairFault, Report, TableFiles, complete_laid, gather_table, place_of,
};
use std::alloc::{AllocError, Global};
use std::mem;
use std::thread::Threads;

/// Who lays the trees of a repair.
#[derive(Drop)]
pub struct Workers<'a, R, W> {
    /// The threads on which they run.
    pub rt: &'a R,
    /// How many they are.
    pub count: u8,
    /// What is told before and after each key.
    pub gate: &'a W,
}

/// Repairs a table as `recover` does. The tree of each key is laid in memory by one of the workers, which
/// run side by side; the files are read and written by the calling thread alone, with the trees in the
/// order of the keys. Where it is Ok, what is left and said is what `recover` leaves and says, for every
/// number of workers; a table is refused for the same reasons. After a fault or want of memory the two
/// files are old ones or whole new ones, as behind `recover`.
pub fn parallel_recover<R: Threads + Sync, F: Files, W: KeyGate>(
    alloc: Global,
    files: &mut F,
    name: &str,
    extend: bool,
    now: u64,
    workers: &Workers<'_, R, W>,
) -> Result<Report, RepairFault>
    requires writable { IsTrue F.writable }
    requires some { 0 < workers.now.count }

    // The two files are the recovered bytes, which are recovered; the report says how many rows and bytes.
    ensures repaired { IfOk result (λ said. Told (F.holds files.old) (F.holds files.new)
        (LeavesRepaired name.now extend now said)) }

    // At every outcome the table's files are the old ones or whole new ones.
    ensures files { Told (F.holds files.old) (F.holds files.new) (OldOrNew name.now extend now) }

    // Why a table is refused, and what is left then; other files stay.
    ensures ends { Ends (names_for name.now) (F.holds files.old) (F.holds files.new)
        (F.faults files.old) (F.faults files.new) result }
{
    let table = TableFiles::of(alloc, name)?;
    let mut gathered = gather_table(alloc, files, &table, extend)?;
    let laid = lay_gathered(alloc, &mut gathered, workers);
    complete_laid(files, &table, &gathered, laid, now)
}

// Has the workers lay the trees of the pairs that were gathered.
fn lay_gathered<R: Threads + Sync, W: KeyGate>(
    alloc: Global,
    gathered: &mut Gathered,
    workers: &Workers<'_, R, W>,
) -> Result<Vec<Laid>, AllocError>
    requires some { 0 < workers.now.count }
    requires sound { IsSound gathered.old.defs }
    requires pairs { AreSizedPairs gathered.old.defs gathered.old.pairs }
    ensures left { gathered.new ≡ record gathered.old { pairs = [] } }
    ensures laid { IfOk result (λ laid.
        AreTreesOf gathered.old.defs gathered.old.pairs laid.items) }
{
    let none = Sequence::new(Vec::new(alloc));
    let pairs = mem::replace(&mut gathered.pairs, none).into_vec();
    let keys = keys_of(alloc, &gathered.defs, pairs)?;
    lay_all(workers.rt, alloc, keys, workers.count, workers.gate)
}

// The keys of a table with their pairs, a list for each.
fn keys_of(alloc: Global, defs: &Defs, pairs: Vec<PairList>) -> Result<Vec<KeyPairs>, AllocError>
    requires { length pairs.items ≡ length defs.now.keys }
    ensures { IfOk result (λ keys. keys.items ≡ keys_from defs.now 1 pairs.items) }
{
    let mut keys = Vec::with_capacity(alloc, pairs.len())?;
    for pairs in pairs {
        let place = place_of(defs, keys.len() + 1);
        keys.push(KeyPairs { place, pairs })?;
    }
    Ok(keys)
}
