//! `share`, and what it makes of a table.
ghost use Rattle.std.specs.Prelude.{◌≡◌, ◌+◌, ◌^◌, ◌<◌, ◌≤◌, [], None, All, IfOk, IfErr, IsTrue, vec_len};
ghost use Rattle.myi_base.specs.Holding.{Told};
ghost use Rattle.myi_base.specs.Causes.{HasCause, Rose};
ghost use Rattle.myi_search.specs.Counting.{CountsOn};
ghost use Rattle.myi_keyedrows.specs.KeyedRows.{IsLeft};
ghost use Rattle.myi_table.specs.Table.{IsKept, StillHolds, IsSame, KeepsRows, ChangesItsOwn};
ghost use Rattle.myi_tail.specs.Seats.{room_of, IsNew};
ghost use Rattle.myi_share.specs.declared.fault.ShareFault.TheVariants.{File};
ghost use Rattle.myi_share.specs.Sharing.{sharing_of, ArePartsBeside, ArePartsOf};
ghost use Rattle.myi_share.specs.Taking.{all_counted, AreNotBelow};

use crate::fault::ShareFault;
use crate::opening::{Parts, parts_of};
use myi_inserter::Inserter;
use myi_io::{FileReader, Files};
use myi_readers::Reader;
use myi_table::Table;
use myi_tail::Tail;
use std::alloc::Global;
use std::marker::Model;

/// What stays with the caller while a table is shared: the table.
#[derive(Drop)]
pub struct ShareRest {
    pub(crate) table: Table,
}

impl Model for ShareRest {
    ghost use Rattle.myi_table.specs.Table.{OpenTable};

    ghost Value = { OpenTable };

    ghost view = { λ r. r.table };
}

/// A table that is shared. A caller takes the parts apart, moves them into its jobs, and puts them together again.
#[derive(Drop)]
pub struct Shared<R: FileReader> {
    pub rest: ShareRest,
    pub inserter: Inserter<R>,
    pub readers: Vec<Reader<R>>,
}

/// Begins a sharing of a table that stays with its owner, among an inserter and so many readers, behind so many changes, with
/// room for so many words of rows. Its two files get what it has put. Until `take_back` neither it nor they may be changed.
///
/// The table stands for the state that it had, also after a refusal, which shares nothing.
pub fn begin_sharing<F: Files>(
    alloc: Global,
    table: &mut Table,
    files: &mut F,
    readers: usize,
    words: usize,
    number: u64,
) -> Result<Parts<F::Reader>, ShareFault>
    requires writable { IsTrue F.writable }
    requires whole { table.old.broken ≡ None }
    requires kept { IsKept (F.holds files.old) table.old }
    requires room { words < usize.MAX }
    requires small { number + words < 2 ^ 64 }
    ensures parts { IfOk result (λ p. ArePartsBeside F.Reader.holds table.new
        (F.holds files.new) p.inserter p.readers.items []) }
    ensures count { IfOk result (λ p. vec_len p.readers ≡ readers) }
    ensures room { IfOk result (λ p. room_of p.inserter.table.appender.tail ≡ words) }
    ensures number { IfOk result (λ p. p.inserter.table.number ≡ number) }
    ensures new { IfOk result (λ p. All (λ r. IsNew p.inserter.table.appender.tail r.table.seat)
        p.readers.items) }
    ensures still { StillHolds (F.holds files.old) (F.holds files.new) table.old table.new }
    ensures kept { IsKept (F.holds files.new) table.new }
    ensures same { IsSame table.old table.new }
    ensures whole { table.new.broken ≡ None }
    ensures changed { table.new.changed ≡ table.old.changed }
    ensures left { IsLeft table.old.rows table.new.rows }
    ensures others { ChangesItsOwn (F.holds files.old) (F.holds files.new) table.old }
    ensures rows { Told (F.holds files.old) (F.holds files.new) (KeepsRows table.old.name) }
    ensures counted { CountsOn table.old.rows.trees.cache table.new.rows.trees.cache }
    ensures counts { AreNotBelow (all_counted table.old) (all_counted table.new) }
    ensures cause { HasCause File (F.faults files.old) (F.faults files.new) result }
{
    table.flush(files)?;
    let tail = Tail::new(alloc, words, readers)?;
    let parts = parts_of(alloc, files, table, tail, words, number)?;
    Ok(parts)
}

/// Shares a table among an inserter and so many readers, behind so many changes, with room for so many words of rows. Its
/// two files get what it has put, and may not be changed until it is taken back.
///
/// A refusal hands the table back: it stands for the state that it had.
pub fn share<F: Files>(
    alloc: Global,
    table: Table,
    files: &mut F,
    readers: usize,
    words: usize,
    number: u64,
) -> Result<Shared<F::Reader>, (Table, ShareFault)>
    requires writable { IsTrue F.writable }
    requires whole { table.broken ≡ None }
    requires kept { IsKept (F.holds files.old) table }
    requires room { words < usize.MAX }
    requires small { number + words < 2 ^ 64 }
    ensures parts { IfOk result (λ s. ArePartsOf F.Reader.holds
        (sharing_of s.rest s.inserter.table) (F.holds files.new) s []) }
    ensures count { IfOk result (λ s. vec_len s.readers ≡ readers) }
    ensures room { IfOk result (λ s. room_of s.inserter.table.appender.tail ≡ words) }
    ensures number { IfOk result (λ s. s.inserter.table.number ≡ number) }
    ensures new { IfOk result (λ s. All (λ r. IsNew s.inserter.table.appender.tail r.table.seat)
        s.readers.items) }

    // The table stands for the state that it had.
    ensures still { IfOk result (λ s. StillHolds (F.holds files.old) (F.holds files.new)
        table s.rest) }
    ensures same { IfOk result (λ s. IsSame table s.rest) }
    ensures changed { IfOk result (λ s. s.rest.changed ≡ table.changed) }
    ensures left { IfOk result (λ s. IsLeft table.rows s.rest.rows) }
    ensures counted { IfOk result (λ s. CountsOn table.rows.trees.cache s.rest.rows.trees.cache) }

    // And so does a table that is handed back.
    ensures back { IfErr result (λ e. StillHolds (F.holds files.old) (F.holds files.new)
        table e.0) }
    ensures back_whole { IfErr result (λ e. e.0.broken ≡ None) }
    ensures back_same { IfErr result (λ e. IsSame table e.0) }
    ensures back_changed { IfErr result (λ e. e.0.changed ≡ table.changed) }
    ensures back_left { IfErr result (λ e. IsLeft table.rows e.0.rows) }
    ensures back_counted { IfErr result (λ e. CountsOn table.rows.trees.cache
        e.0.rows.trees.cache) }

    ensures others { ChangesItsOwn (F.holds files.old) (F.holds files.new) table }
    ensures rows { Told (F.holds files.old) (F.holds files.new) (KeepsRows table.name) }
    ensures later { F.faults files.old ≤ F.faults files.new }
    ensures cause { IfErr result (λ e. e.1 ≡ File
        → Rose (F.faults files.old) (F.faults files.new)) }
{
    let mut table = table;
    match begin_sharing(alloc, &mut table, files, readers, words, number) {
        Ok(Parts { inserter, readers }) => Ok(Shared {
            rest: ShareRest { table },
            inserter,
            readers,
        }),
        Err(fault) => Err((table, fault)),
    }
}
