//! `go_side_by_side`: a round of kind Together on a table, each session's run on a thread of its own.
ghost use Rattle.std.specs.Prelude.{◌≡◌, ◌<◌, true, None, IfOk, IfErr, IsTrue};
ghost use Rattle.myi_base.specs.Causes.{HasCause};
ghost use Rattle.myi_base.specs.Holding.{Told};
ghost use Rattle.myi_history.specs.Lines.{MayRun};
ghost use Rattle.myi_table.specs.Table.{defs_in, IsKept, IfHolds, IsSame, KeepsRows, ChangesItsOwn};
ghost use Rattle.myi_share.specs.Taking.{counting, all_counted, AreNotBelow};
ghost use Rattle.myi_rounds.specs.declared.fault.RoundFault.TheVariants.{File};
ghost use Rattle.myi_rounds.specs.Faults.{CutsOff};
ghost use Rattle.myi_rounds.specs.Rounds.{InsertsNone, HasGone, IsWithin};

use crate::backs::{Back, run_parts};
use crate::fault::RoundFault;
use crate::gate::Gate;
use crate::inserting::Replied;
use crate::words::room_for;
use myi_history::RoundTexts;
use myi_inserter::put_rows_are_known;
use myi_io::Files;
use myi_locks::Step;
use myi_script::Line;
use myi_share::{begin_sharing, calls_keep_parts, take_back};
use myi_snapshots::Snapshot;
use myi_table::Table;
use std::alloc::Global;
use std::thread::Threads;

/// What the runs of a round go on: threads, a gate, and memory.
#[derive(Drop)]
pub struct Host<'a, T, G> {
    pub rt: &'a T,
    pub gate: &'a G,
    pub alloc: Global,
}

/// What a run of reads is asked: its steps, and the snapshot of its session's Take, where that holds READ or READ LOCAL.
#[derive(Clone, Copy)]
pub struct AskedReads<'a> {
    pub steps: &'a [Step],
    pub taken: Option<Snapshot>,
}

/// What a round is asked.
#[derive(Clone, Copy)]
pub struct AskedRound<'a> {
    /// How many changes were made before it.
    pub number: u64,
    /// The lines of the script.
    pub lines: &'a [Line],
    /// The steps of the run of inserts; none, where no session inserts.
    pub inserts: &'a [Step],
    /// The runs of reads.
    pub reads: &'a [AskedReads<'a>],
}

/// How many steps of a run of reads are done, the first ones, and what they said.
#[derive(Drop)]
pub struct WentReads {
    pub done: usize,
    pub texts: RoundTexts,
}

/// How far the runs of a round came.
#[derive(Drop)]
pub struct WentRound {
    /// How many steps of the run of inserts are done, the first ones.
    pub inserted: usize,
    /// What they answered.
    pub replies: Vec<Replied>,
    /// How many rows they put.
    pub made: u64,
    /// The runs of reads, in their order.
    pub reads: Vec<WentReads>,
}

/// Does the runs of a round side by side: the table is shared among a session that inserts and sessions that read, each run
/// goes on a thread of its own, and then the table is taken back with the rows that were put.
///
/// A run that is refused is not done to its end, and the rest of it may be done later; that is no refusal of the round. The
/// round is refused where the table cannot be shared or taken back, and it is good for nothing then but to be dropped.
pub fn go_side_by_side<T: Threads + Sync, F: Files, G: Gate>(
    host: &Host<'_, T, G>,
    table: &mut Table,
    files: &mut F,
    asked: &AskedRound<'_>,
) -> Result<WentRound, RoundFault>
    requires writable { IsTrue F.writable }
    requires lines { MayRun (defs_in table.old) asked.now.lines.now }
    requires kept { IsKept (F.holds files.old) table.old }
    requires whole { table.old.broken ≡ None }
    ensures gone { IfOk result (λ went. IfHolds (F.holds files.old) table.old (λ m s.
        HasGone (defs_in table.old) s (F.holds files.new) table.new asked.now went)) }
    ensures within { IfOk result (IsWithin asked.now) }
    ensures whole { IfOk result (λ went. table.new.broken ≡ None) }
    ensures changed { IfOk result (λ went. 0 < went.made → table.new.changed ≡ true) }
    ensures unchanged { IfOk result (λ went. went.made ≡ 0
        → table.new.changed ≡ table.old.changed) }
    ensures rows { IfOk result (λ went. went.made ≡ 0
        → Told (F.holds files.old) (F.holds files.new) (KeepsRows table.old.name)) }
    ensures cut { IfErr result (λ f. IfHolds (F.holds files.old) table.old (λ m s. CutsOff f)) }

    // At every outcome.
    ensures kept { IsKept (F.holds files.new) table.new }
    ensures same { IsSame (counting table.old table.new.added) table.new }
    ensures marked { table.old.changed ≡ true → table.new.changed ≡ true }
    ensures counts { AreNotBelow (all_counted table.old) (all_counted table.new) }
    ensures idle { InsertsNone asked.now.lines.now
        → Told (F.holds files.old) (F.holds files.new) (KeepsRows table.old.name) }
    ensures others { ChangesItsOwn (F.holds files.old) (F.holds files.new) table.old }
    ensures cause { HasCause File (F.faults files.old) (F.faults files.new) result }
{
    put_rows_are_known();
    calls_keep_parts();
    let words = room_for(host.alloc, table.defs(), asked)?;
    let readers = asked.reads.len();
    let parts = begin_sharing(host.alloc, table, files, readers, words, asked.number)?;
    let back = run_parts(host, asked, parts)?;
    let Back {
        inserter,
        inserted,
        replies,
        readers,
        reads,
    } = back;
    let made = take_back(table, files, inserter, readers)?;
    Ok(WentRound {
        inserted,
        replies,
        made,
        reads,
    })
}
