//! Statements that change a table.
ghost use Rattle.std.specs.Prelude.{◌≡◌, ◌++◌, [], ◌∷◌, true, Some, None, Result};
ghost use Rattle.std.specs.Prelude.{IfOk, IfErr, OnOk, IsTrue};
ghost use Rattle.myi_base.specs.Causes.{HasCause};
ghost use Rattle.myi_base.specs.Holding.{Told};
ghost use Rattle.myi_pack.specs.Spelling.{fits};
ghost use Rattle.myi_search.specs.Counting.{CountsOn};
ghost use Rattle.myi_state.specs.Changes as change;
ghost use Rattle.myi_table.specs.Table.{defs_in, IsKept, IsSame, IfHolds, KeepsRows, ChangesItsOwn};
ghost use Rattle.myi_shell.specs.declared.fault.ShellFault.TheVariants.{File};
ghost use Rattle.myi_history.specs.History.{table_change};
ghost use Rattle.myi_history.specs.Lines.{BringsRow};
ghost use Rattle.myi_shell.specs.Carrying.{IsCarried, IsTouchedBy};
ghost use Rattle.myi_shell.specs.Changing as spec;
ghost use Rattle.myi_shell.specs.Changing.{insert_of, count_of, count_made, Steps};
ghost use Rattle.myi_shell.specs.Changing.{IsChanged, NeverDamaged};

use crate::fault::ShellFault;
use myi_history::StepAnswer;
use myi_io::Files;
use myi_pack::Row;
use myi_script::Act;
use myi_table::{ChangeFault, Table};
use myi_tablestate::keyed_refusals_come_in_order;

/// What a change of a table answers: its position, or why it is refused.
#[derive(Clone, Copy, Debug, PartialEq, Eq)]
pub(crate) enum Reply {
    Made { at: u64 },
    /// No row stands at that position.
    NoRow { at: u64 },
    /// The row at that position has the complete key in the unique key of that number, from 1.
    Duplicate { key: u64, at: u64 },
    /// Row pointers would not reach the whole data file.
    Full,
}

/// What is noted of a change, and whether it was made.
#[derive(Clone, Copy)]
pub(crate) struct Changed {
    pub(crate) answer: StepAnswer,
    pub(crate) made: bool,
}

// A change that was made, or its refusal, as a reply, and what cuts it off as a fault.
fn replied(made: Result<u64, ChangeFault>) -> Result<Reply, ShellFault>
    ensures { result ≡ spec.replied made }
{
    match made {
        Ok(at) => Ok(Reply::Made { at }),
        Err(ChangeFault::NoRow { at }) => Ok(Reply::NoRow { at }),
        Err(ChangeFault::Duplicate { key, at }) => Ok(Reply::Duplicate { key, at }),
        Err(ChangeFault::Full) => Ok(Reply::Full),
        Err(ChangeFault::Damaged { at }) => Err(ShellFault::Damaged { at }),
        Err(ChangeFault::File) => Err(ShellFault::File),
        // A table that is not broken is not refused so.
        Err(ChangeFault::Memory) | Err(ChangeFault::Broken(_)) => Err(ShellFault::Memory),
    }
}

// A change at a position.
fn at_place(at: u64, made: Result<(), ChangeFault>) -> Result<u64, ChangeFault>
    ensures { result ≡ spec.at_place at made }
{
    match made {
        Ok(()) => Ok(at),
        Err(fault) => Err(fault),
    }
}

/// Inserts a row; one of a round of kind Together goes to the end.
pub(crate) fn insert<F: Files>(
    table: &mut Table,
    files: &mut F,
    together: bool,
    row: &Row,
) -> Result<Reply, ShellFault>
    requires writable { IsTrue F.writable }
    requires fits { fits (defs_in table.old) row.now ≡ true }
    requires kept { IsKept (F.holds files.old) table.old }
    requires whole { table.old.broken ≡ None }
    ensures stepped { IfOk result (Steps (insert_of together row.now) (F.holds files.old)
        (F.holds files.new) table.old table.new) }
    ensures touched { IfOk result (λ reply. IsTouchedBy (F.holds files.old) (F.holds files.new)
        table.old table.new 0 (count_of reply)) }
    ensures refused { IfErr result (NeverDamaged (F.holds files.old) table.old) }
    ensures whole { OnOk result (table.new.broken ≡ None) }
    ensures kept { IsKept (F.holds files.new) table.new }
    ensures same { IsSame table.old table.new }
    ensures others { ChangesItsOwn (F.holds files.old) (F.holds files.new) table.old }
    ensures counted { CountsOn table.old.rows.trees.cache table.new.rows.trees.cache }
    ensures cause { HasCause File (F.faults files.old) (F.faults files.new) result }
{
    keyed_refusals_come_in_order();
    if together {
        replied(table.insert_at_end(files, row))
    } else {
        replied(table.insert(files, row))
    }
}

/// Deletes the row at a position.
pub(crate) fn delete<F: Files>(
    table: &mut Table,
    files: &mut F,
    at: u64,
) -> Result<Reply, ShellFault>
    requires writable { IsTrue F.writable }
    requires kept { IsKept (F.holds files.old) table.old }
    requires whole { table.old.broken ≡ None }
    ensures stepped { IfOk result (Steps (change.delete at) (F.holds files.old)
        (F.holds files.new) table.old table.new) }
    ensures touched { IfOk result (λ reply. IsTouchedBy (F.holds files.old) (F.holds files.new)
        table.old table.new 0 (count_of reply)) }
    ensures refused { IfErr result (NeverDamaged (F.holds files.old) table.old) }
    ensures whole { OnOk result (table.new.broken ≡ None) }
    ensures kept { IsKept (F.holds files.new) table.new }
    ensures same { IsSame table.old table.new }
    ensures others { ChangesItsOwn (F.holds files.old) (F.holds files.new) table.old }
    ensures counted { CountsOn table.old.rows.trees.cache table.new.rows.trees.cache }
    ensures cause { HasCause File (F.faults files.old) (F.faults files.new) result }
{
    keyed_refusals_come_in_order();
    replied(at_place(at, table.delete(files, at)))
}

/// Gives the row at a position other values.
pub(crate) fn update<F: Files>(
    table: &mut Table,
    files: &mut F,
    at: u64,
    row: &Row,
) -> Result<Reply, ShellFault>
    requires writable { IsTrue F.writable }
    requires fits { fits (defs_in table.old) row.now ≡ true }
    requires kept { IsKept (F.holds files.old) table.old }
    requires whole { table.old.broken ≡ None }
    ensures stepped { IfOk result (Steps (change.update at row.now) (F.holds files.old)
        (F.holds files.new) table.old table.new) }
    ensures touched { IfOk result (λ reply. IsTouchedBy (F.holds files.old) (F.holds files.new)
        table.old table.new 0 (count_of reply)) }
    ensures refused { IfErr result (NeverDamaged (F.holds files.old) table.old) }
    ensures whole { OnOk result (table.new.broken ≡ None) }
    ensures kept { IsKept (F.holds files.new) table.new }
    ensures same { IsSame table.old table.new }
    ensures others { ChangesItsOwn (F.holds files.old) (F.holds files.new) table.old }
    ensures counted { CountsOn table.old.rows.trees.cache table.new.rows.trees.cache }
    ensures cause { HasCause File (F.faults files.old) (F.faults files.new) result }
{
    keyed_refusals_come_in_order();
    replied(at_place(at, table.update(files, at, row)))
}

/// Makes the change that a statement asks for, if it asks for one.
pub(crate) fn change<F: Files>(
    table: &mut Table,
    files: &mut F,
    together: bool,
    act: &Act,
) -> Result<Option<Reply>, ShellFault>
    requires writable { IsTrue F.writable }
    requires row { BringsRow (defs_in table.old) act.now }
    requires kept { IsKept (F.holds files.old) table.old }
    requires whole { table.old.broken ≡ None }
    ensures changed { IfOk result (λ reply. IfHolds (F.holds files.old) table.old (λ m s.
        IsChanged table.old s (table_change together (Some act.now)) (F.holds files.new)
        table.new reply)) }
    ensures touched { IfOk result (λ reply. IsTouchedBy (F.holds files.old) (F.holds files.new)
        table.old table.new 0 (count_made reply)) }
    ensures idle { table_change together (Some act.now) ≡ None
        → Told (F.holds files.old) (F.holds files.new) (KeepsRows table.old.name) }
    ensures carried { IsCarried (F.holds files.old) (F.holds files.new) table.old table.new }
    ensures whole { OnOk result (table.new.broken ≡ None) }
    ensures refused { IfErr result (NeverDamaged (F.holds files.old) table.old) }
    ensures cause { HasCause File (F.faults files.old) (F.faults files.new) result }
{
    match act {
        Act::Insert(row) => Ok(Some(insert(table, files, together, row)?)),
        Act::Update { at, row } => Ok(Some(update(table, files, *at, row)?)),
        Act::Delete { at } => Ok(Some(delete(table, files, *at)?)),
        _ => Ok(None),
    }
}
