//! The rows of a table in the order of a key, written into its working data file.
//!
//! The keys of all rows, with the places of the rows, are put in order. Then each row is read from its place, in
//! that order, and written behind the one before: rows that stand close together by one read. No row is kept.
ghost use Rattle.std.specs.Prelude.{◌≡◌, ◌≤◌, [], List, ℕ, Some, length, IfOk, OnOk, IfErr, IsTrue};
ghost use Rattle.std.specs.Prelude as std;
ghost use Rattle.myi_base.specs.Holding.{IfTold, Told};
ghost use Rattle.myi_base.specs.Numbers.{AreBytes};
ghost use Rattle.myi_base.specs.Causes.{HasCause};
ghost use Rattle.myi_base.specs.HandsOn.{HandsOn};
ghost use Rattle.myi_defs.specs.ReadDefs.{AreDefs};
ghost use Rattle.myi_data.specs.Keys.{IsKeyNumber};
ghost use Rattle.myi_repair.specs.Names.{names_of, AreApart, KeepsBoth};
ghost use Rattle.myi_repair.specs.Opening as repair;
ghost use Rattle.myi_repair.specs.Sized.{AreSizedPairs};
ghost use Rattle.myi_window.specs.Excerpt.{nothing};
ghost use Rattle.myi_order.specs.Faults.{CutsOff};
ghost use Rattle.myi_order.specs.NewOrder.{HasPut, PutsAll, IsOrder, GathersInOrder};
ghost use Rattle.myi_order.specs.Outcome.{EndsIn, EndsCutOff};

use crate::fault::OrderFault;
use crate::nearby::Nearby;
use crate::row_at::RowAt;
use crate::rows_read::read_file;
use myi_defs::Defs;
use myi_io::Files;
use myi_keylist::PairList;
use myi_opening::OpenedTable;
use myi_pack::view;
use myi_repair::{Gathered, NewRows, NextRow, RepairFault, TableFiles, gathered_of_all, take_row};
use myi_rowkeys::RowKeys;
use std::alloc::{AllocError, Global};

/// The rows that were put so far, and the pairs of their keys.
#[derive(Drop)]
pub(crate) struct NewTable {
    row: RowAt,
    next: NextRow,
    pub(crate) rows: NewRows,
    pub(crate) keys: RowKeys,
}

impl NewTable {
    ghost use Rattle.std.specs.Prelude.{◌≡◌, [], List, IfOk, OnOk, IfErr, IsTrue};
    ghost use Rattle.myi_base.specs.Holding.{Told};
    ghost use Rattle.myi_base.specs.Causes.{HasCause};
    ghost use Rattle.myi_defs.specs.ReadDefs.{AreDefs};
    ghost use Rattle.myi_data.specs.Stored.{SizedRow};
    ghost use Rattle.myi_repair.specs.Keeping.{IsPrepared};
    ghost use Rattle.myi_order.specs.Faults.{CutsOff};
    ghost use Rattle.myi_order.specs.AtPlaces.{ReadsThere};
    ghost use Rattle.myi_order.specs.NewOrder.{HasPut, Puts, Appends};
    ghost use Rattle.myi_order.specs.Outcome.{EndsIn};

    // No row yet.
    fn new(alloc: Global, defs: &Defs) -> Result<NewTable, AllocError>
        ensures { IfOk result (HasPut defs.now []) }
    {
        Ok(NewTable {
            row: RowAt::new(alloc),
            next: NextRow::new(alloc),
            rows: NewRows::new(alloc),
            keys: RowKeys::new(alloc, defs.keys.as_slice().len())?,
        })
    }

    // Reads the row at a place of the data file of that name, of which a part is held, and spells it.
    fn read<F: Files>(
        &mut self,
        files: &mut F,
        name: &str,
        near: &Nearby,
        defs: &Defs,
        at: u64,
    ) -> Result<(), OrderFault>
        requires { AreDefs defs.now }
        ensures read { OnOk result (ReadsThere defs.now name.now near.now at
            (F.holds files.old) self.new.next) }
        ensures rows { OnOk result (self.new.rows ≡ self.old.rows) }
        ensures keys { OnOk result (self.new.keys ≡ self.old.keys) }
        ensures cut { IfErr result CutsOff }
        ensures holds { F.holds files.new ≡ F.holds files.old }
        ensures cause { HasCause OrderFault.File (F.faults files.old) (F.faults files.new) result }
    {
        self.row.read(files, name, near, defs, at)?;
        let Some(found) = view(defs, &self.row.bytes) else {
            return Err(OrderFault::Memory);
        };
        self.next.spell(defs, &found, &self.row.blocks)?;
        Ok(())
    }

    // Puts the row that was read behind the others in the file of that name.
    fn put<F: Files>(&mut self, files: &mut F, file: &str, defs: &Defs) -> Result<(), OrderFault>
        requires writable { IsTrue F.writable }
        requires defs { AreDefs defs.now }
        requires row { (row : SizedRow) × IsPrepared defs.now row self.old.next }
        requires put { (rows : List SizedRow) × HasPut defs.now rows self.old }
        ensures puts { OnOk result (Puts defs.now self.old self.new) }
        ensures written { OnOk result (Told (F.holds files.old) (F.holds files.new)
            (Appends defs.now file.now self.old)) }
        ensures ends { EndsIn file.now (F.holds files.old) (F.holds files.new)
            (F.faults files.old) (F.faults files.new) result }
    {
        let put = take_row(
            files,
            file,
            defs,
            &self.next,
            &mut self.rows,
            &mut self.keys,
        );
        match put {
            Ok(()) => Ok(()),
            Err(fault) => Err(of_repair(fault)),
        }
    }
}

/// The fault of sorting that one of a repair's parts is, which was cut off.
pub(crate) fn of_repair(fault: RepairFault) -> OrderFault
    requires { repair.CutsOff fault }
    ensures { HandsOn (RepairFault.File, OrderFault.File) (RepairFault.Memory, OrderFault.Memory)
        fault result }
{
    match fault {
        RepairFault::File => OrderFault::File,
        RepairFault::Memory => OrderFault::Memory,
        // No part of a repair looks at the table again.
        RepairFault::Absent(_) | RepairFault::Def(_) | RepairFault::TooLong => unreachable!(),
    }
}

// The pairs of the rows of a table in one of its keys, with the places of the rows, in order.
fn order_of<F: Files>(
    alloc: Global,
    files: &mut F,
    rows: &str,
    opened: &OpenedTable,
    key: u8,
) -> Result<PairList, OrderFault>
    requires defs { AreDefs opened.now.defs }
    requires key { IsKeyNumber opened.now.defs key }
    requires long { IfTold (F.holds files.old) (λ m.
        (d : List ℕ) × (m rows.now ≡ Some d) × (opened.now.length ≡ std.length d)) }
    ensures order { IfOk result (λ order. IfTold (F.holds files.old) (λ m. (x : List ℕ)
        → m rows.now ≡ Some x → IsOrder opened.now.defs key x order)) }
    ensures holds { F.holds files.new ≡ F.holds files.old }
    ensures cut { IfErr result CutsOff }
    ensures cause { HasCause OrderFault.File (F.faults files.old) (F.faults files.new) result }
{
    let read = read_file(alloc, files, rows, &opened.defs, opened.length)?;
    let mut lists = read.keys.into_lists().into_vec();
    let mut order = lists.swap_remove(key as usize - 1);
    order.sort();
    Ok(order)
}

// Puts the rows at the places of these pairs, in their order, into the working data file, which is empty.
fn put_all<F: Files>(
    files: &mut F,
    table: &TableFiles,
    opened: &OpenedTable,
    order: &PairList,
    near: &mut Nearby,
    new: &mut NewTable,
) -> Result<(), OrderFault>
    requires writable { IsTrue F.writable }
    requires apart { AreApart (names_of table.now) }
    requires defs { AreDefs opened.now.defs }
    requires end { near.old.end ≡ opened.now.length }
    requires held { near.old.window ≡ nothing }
    requires none { HasPut opened.now.defs [] new.old }
    requires empty { IfTold (F.holds files.old) (λ m. m (names_of table.now).new_rows ≡ Some []) }
    ensures put { OnOk result (PutsAll (names_of table.now) opened.now order.now new.new
        (F.holds files.old) (F.holds files.new)) }
    ensures ends { EndsIn (names_of table.now).new_rows (F.holds files.old) (F.holds files.new)
        (F.faults files.old) (F.faults files.new) result }
{
    let rows = table.rows.as_str();
    let new_rows = table.new_rows.as_str();
    let defs = &opened.defs;
    for i in 0..order.len() {
        near.look_ahead(files, rows, defs, order, i)?;
        new.read(files, rows, near, defs, order.row(i))?;
        new.put(files, new_rows, defs)?;
    }
    Ok(())
}

// Puts the rows at the places of these pairs, in their order, into the working data file, which is made anew.
fn put_anew<F: Files>(
    alloc: Global,
    files: &mut F,
    table: &TableFiles,
    opened: &OpenedTable,
    order: &PairList,
) -> Result<NewTable, OrderFault>
    requires writable { IsTrue F.writable }
    requires apart { AreApart (names_of table.now) }
    requires defs { AreDefs opened.now.defs }
    ensures put { IfOk result (λ new. PutsAll (names_of table.now) opened.now order.now new
        (F.holds files.old) (F.holds files.new)) }
    ensures ends { EndsIn (names_of table.now).new_rows (F.holds files.old) (F.holds files.new)
        (F.faults files.old) (F.faults files.new) result }
{
    files.cut(table.new_rows.as_str(), 0)?;
    let mut near = Nearby::new(alloc, opened.length)?;
    let mut new = NewTable::new(alloc, &opened.defs)?;
    put_all(files, table, opened, order, &mut near, &mut new)?;
    Ok(new)
}

// The same as `order_table`, with the working files left as they are after an error.
fn gather_ordered<F: Files>(
    alloc: Global,
    files: &mut F,
    table: &TableFiles,
    opened: OpenedTable,
    key: u8,
) -> Result<Gathered, OrderFault>
    requires writable { IsTrue F.writable }
    requires apart { AreApart (names_of table.now) }
    requires defs { AreDefs opened.defs }
    requires key { IsKeyNumber opened.defs key }
    requires long { IfTold (F.holds files.old) (λ m. (d : List ℕ)
        × (m (names_of table.now).rows ≡ Some d) × (opened.length ≡ std.length d)) }
    ensures gathered { IfOk result (λ g. Told (F.holds files.old) (F.holds files.new)
        (GathersInOrder (names_of table.now) key g)) }
    ensures defs { IfOk result (λ g. g.defs ≡ opened.defs) }
    ensures length { IfOk result (λ g. g.report.old_length ≡ opened.length) }
    ensures pairs { IfOk result (λ g. AreSizedPairs g.defs g.pairs) }
    ensures ends { EndsIn (names_of table.now).new_rows (F.holds files.old) (F.holds files.new)
        (F.faults files.old) (F.faults files.new) result }
{
    let order = order_of(alloc, files, table.rows.as_str(), &opened, key)?;
    let new = put_anew(alloc, files, table, &opened, &order)?;
    let NewTable { rows, keys, .. } = new;
    let OpenedTable { defs, length } = opened;
    Ok(gathered_of_all(defs, length, rows, keys))
}

/// Writes the rows of a table in the order of one of its keys into its working data file, which is made anew.
/// After an error the table's two files are as before, and the working files are taken away.
pub(crate) fn order_table<F: Files>(
    alloc: Global,
    files: &mut F,
    table: &TableFiles,
    opened: OpenedTable,
    key: u8,
) -> Result<Gathered, OrderFault>
    requires writable { IsTrue F.writable }
    requires apart { AreApart (names_of table.now) }
    requires defs { AreDefs opened.defs }
    requires key { IsKeyNumber opened.defs key }
    requires long { IfTold (F.holds files.old) (λ m. (d : List ℕ)
        × (m (names_of table.now).rows ≡ Some d) × (opened.length ≡ std.length d)) }
    ensures gathered { IfOk result (λ g. Told (F.holds files.old) (F.holds files.new)
        (GathersInOrder (names_of table.now) key g)) }
    ensures defs { IfOk result (λ g. g.defs ≡ opened.defs) }
    ensures length { IfOk result (λ g. g.report.old_length ≡ opened.length) }
    ensures pairs { IfOk result (λ g. AreSizedPairs g.defs g.pairs) }
    ensures both { Told (F.holds files.old) (F.holds files.new) (KeepsBoth (names_of table.now)) }
    ensures ends { EndsCutOff (names_of table.now) (F.holds files.old) (F.holds files.new)
        (F.faults files.old) (F.faults files.new) result }
{
    match gather_ordered(alloc, files, table, opened, key) {
        Ok(gathered) => Ok(gathered),
        Err(fault) => {
            table.clear(files);
            Err(fault)
        }
    }
}
