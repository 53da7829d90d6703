//! Sorting the rows of a table by a key.
ghost use Rattle.std.specs.Prelude.{◌≡◌, ℕ, List, Some, length, IfOk, IfErr, IsTrue};
ghost use Rattle.std.specs.Prelude as std;
ghost use Rattle.myi_base.specs.Holding.{IfTold, Told};
ghost use Rattle.myi_defs.specs.ReadDefs.{AreDefs};
ghost use Rattle.myi_defs.specs.Sound.{IsSound};
ghost use Rattle.myi_data.specs.Keys.{IsKeyNumber};
ghost use Rattle.myi_repair.specs.Names.{names_of, AreApart};
ghost use Rattle.myi_order.specs.Sorting.{has_key, LeavesOrdered, OldOrNew};
ghost use Rattle.myi_order.specs.SortedFiles.{SortsFiles, SortsPart};
ghost use Rattle.myi_order.specs.Faults.{LacksKey};
ghost use Rattle.myi_order.specs.Outcome.{Ends, EndsCutOff};

use crate::fault::OrderFault;
use crate::new_order::{of_repair, order_table};
use myi_check::check;
use myi_defs::{Defs, definitions_are_sound};
use myi_io::Files;
use myi_opening::{OpenedTable, open_table};
use myi_pair::{rebuilt_files_are_a_table, rebuilt_files_are_no_longer};
use myi_repair::{Report, TableFiles, complete};
use std::alloc::Global;

/// Sorts the rows of a table with which nothing is wrong by one of its keys, from 1: they go into a new data
/// file in the order of the key, rows with one key in the order of their positions, and the trees of all
/// keys into a new index file. `now` is the moment, in seconds since 1970. In memory are the keys of the
/// table's rows, and of the rows themselves one at a time.
pub fn sort_records<F: Files>(
    alloc: Global,
    files: &mut F,
    name: &str,
    key: u8,
    now: u64,
) -> Result<Report, OrderFault>
    requires { IsTrue F.writable }

    // The two files are a table made anew of the rows in order; the report says how many rows and bytes.
    ensures ordered { IfOk result (λ said. Told (F.holds files.old) (F.holds files.new)
        (LeavesOrdered name.now key now said)) }

    // At every outcome the table's files are the old ones or whole new ones.
    ensures files { Told (F.holds files.old) (F.holds files.new) (OldOrNew name.now key now) }

    // Why a table is refused, and what is left then; other files stay.
    ensures ends { Ends name.now key (F.holds files.old) (F.holds files.new)
        (F.faults files.old) (F.faults files.new) result }
    ensures keys { IfErr result (LacksKey key) }
{
    definitions_are_sound();
    rebuilt_files_are_a_table();
    rebuilt_files_are_no_longer();
    let table = TableFiles::of(alloc, name)?;
    let opened = open_table(alloc, files, table.index.as_str(), table.rows.as_str())?;
    if !has_key(&opened.defs, key) {
        return Err(no_key(&opened.defs));
    }
    let found = check(alloc, files, name)?;
    if let Some(finding) = found.first() {
        return Err(OrderFault::Damaged(*finding));
    }
    sort_opened(alloc, files, &table, opened, key, now)
}

// Whether there is a key of that number.
fn has_key(defs: &Defs, key: u8) -> bool
    ensures { result ≡ has_key defs.now key }
{
    0 < key && key as usize <= defs.keys.as_slice().len()
}

// The refusal that says how many keys there are.
fn no_key(defs: &Defs) -> OrderFault
    requires { IsSound defs.now }
    ensures { result ≡ OrderFault.NoKey (length defs.now.keys) }
{
    OrderFault::NoKey {
        keys: defs.keys.as_slice().len() as u8,
    }
}

// Sorts the rows of a table that is opened and has the key.
fn sort_opened<F: Files>(
    alloc: Global,
    files: &mut F,
    table: &TableFiles,
    opened: OpenedTable,
    key: u8,
    now: u64,
) -> Result<Report, OrderFault>
    requires writable { IsTrue F.writable }
    requires apart { AreApart (names_of table.now) }
    requires defs { AreDefs opened.defs }
    requires key { IsKeyNumber opened.defs key }
    requires long { IfTold (F.holds files.old) (λ m. (d : List ℕ)
        × (m (names_of table.now).rows ≡ Some d) × (opened.length ≡ std.length d)) }
    ensures sorted { IfOk result (λ said. Told (F.holds files.old) (F.holds files.new)
        (SortsFiles (names_of table.now) opened.defs opened.length key now said)) }
    ensures whole { Told (F.holds files.old) (F.holds files.new)
        (SortsPart (names_of table.now) opened.defs opened.length key now) }
    ensures ends { EndsCutOff (names_of table.now) (F.holds files.old) (F.holds files.new)
        (F.faults files.old) (F.faults files.new) result }
{
    let gathered = order_table(alloc, files, table, opened, key)?;
    match complete(alloc, files, table, gathered, now) {
        Ok(said) => Ok(said),
        Err(fault) => Err(of_repair(fault)),
    }
}
