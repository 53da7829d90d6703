//! `Target`: what a script is run on.
ghost use Rattle.std.specs.Prelude.{◌≡◌, true, false, Some, IfOk, IfErr, OnOk, IsTrue};
ghost use Rattle.myi_base.specs.Causes.{HasCause};
ghost use Rattle.myi_pack.specs.Spelling.{fits};
ghost use Rattle.myi_shell.specs.declared.fault.ShellFault.TheVariants.{File};
ghost use Rattle.myi_shell.specs.declared.target.Target.TheVariants.{One, Many};
ghost use Rattle.myi_shell.specs.Targets.{defs_in, IsKept, IsWhole, IfHolds, IsCarried};
ghost use Rattle.myi_shell.specs.Targets.{taking, IsTouchedBy, IsShut, KeepsRows, ChangesItsOwn};
ghost use Rattle.myi_shell.specs.Idle.{LeavesRow, LeavesUnasked};
ghost use Rattle.myi_base.specs.Holding.{IfTold, Told};
ghost use Rattle.myi_history.specs.Lines.{BringsRow};
ghost use Rattle.myi_table.specs.declared.fault.ChangeFault.TheVariants as change;
ghost use Rattle.myi_shell.specs.Changing.{list_refused, list_replied, table_changed};
ghost use Rattle.myi_shell.specs.Changing.{IsInsertedBy, IsChangedBy, NothingDamaged};
ghost use Rattle.myi_shell.specs.Changing.{count_by, count_changed};

use crate::changes::{Changed, Reply, change};
use crate::fault::ShellFault;
use crate::reading::{Snapshot, push_found, read_list, read_table};
use myi_history::{RoundTexts, StepAnswer};
use myi_io::Files;
use myi_keycache::Counters;
use myi_merge::{Merge, MergeInsertFault};
use myi_pack::Row;
use myi_script::Act;
use myi_table::{ChangeFault, Table, tables_rest_on_their_files};
use myi_tablestate::keyed_refusals_come_in_order;
use std::alloc::AllocError;

/// What a script is run on: a table, or the tables of a MERGE list.
#[derive(Drop)]
pub enum Target {
    One(Table),
    Many(Merge),
}

// A change that a table made, or refused, as what is noted of it.
fn table_changed(reply: Reply) -> Changed
    ensures { result ≡ table_changed reply }
{
    match reply {
        Reply::Made { at } => Changed {
            answer: StepAnswer::Made { at },
            made: true,
        },
        Reply::NoRow { at } => not_made(StepAnswer::NoRow { at }),
        Reply::Duplicate { key, at } => not_made(StepAnswer::Duplicate { key, at }),
        Reply::Full => not_made(StepAnswer::Full),
    }
}

fn not_made(answer: StepAnswer) -> Changed
    ensures { result ≡ record { answer = answer; made = false } }
{
    Changed {
        answer,
        made: false,
    }
}

// A row that a table of a list refused, as what is noted, and what cut it off as a fault.
fn list_refused(fault: ChangeFault) -> Result<Changed, ShellFault>
    ensures { result ≡ list_refused fault }
{
    match fault {
        ChangeFault::NoRow { at } => Ok(not_made(StepAnswer::NoRow { at })),
        ChangeFault::Duplicate { key, at } => Ok(not_made(StepAnswer::Duplicate { key, at })),
        ChangeFault::Full => Ok(not_made(StepAnswer::Full)),
        ChangeFault::Damaged { at } => Err(ShellFault::Damaged { at }),
        ChangeFault::File => Err(ShellFault::File),
        // A table that is not broken is not refused so.
        ChangeFault::Memory | ChangeFault::Broken(_) => Err(ShellFault::Memory),
    }
}

// A row that was inserted in a list, or was not.
fn list_replied(made: Result<(u32, u64), MergeInsertFault>) -> Result<Changed, ShellFault>
    ensures { result ≡ list_replied made }
{
    match made {
        Ok((table, at)) => Ok(Changed {
            answer: StepAnswer::MadeIn { table, at },
            made: true,
        }),
        Err(MergeInsertFault::NoInsertMethod) => Ok(not_made(StepAnswer::NoInsertMethod)),
        Err(MergeInsertFault::Change(fault)) => list_refused(fault),
    }
}

// Inserts a row in the table of a list that takes the rows.
fn insert_in<F: Files>(merge: &mut Merge, files: &mut F, row: &Row) -> Result<Changed, ShellFault>
    requires writable { IsTrue F.writable }
    requires fits { fits (defs_in (Many merge.old)) row.now ≡ true }
    requires kept { IsKept (F.holds files.old) (Many merge.old) }
    requires whole { IsWhole (Many merge.old) }
    ensures changed { IfOk result (λ c. IfHolds (F.holds files.old) (Many merge.old) (λ m s.
        IsInsertedBy (Many merge.old) s row.now (F.holds files.new) (Many merge.new) c)) }
    ensures touched { IfOk result (λ c. IsTouchedBy (F.holds files.old) (F.holds files.new)
        (Many merge.old) (Many merge.new) 0 (count_by c.made)) }
    ensures idle { Told (F.holds files.old) (F.holds files.new) (LeavesRow (Many merge.old)) }
    ensures carried { IsCarried (F.holds files.old) (F.holds files.new)
        (Many merge.old) (Many merge.new) }
    ensures whole { OnOk result (IsWhole (Many merge.new)) }
    ensures refused { IfErr result (NothingDamaged (F.holds files.old)) }
    ensures cause { HasCause File (F.faults files.old) (F.faults files.new) result }
{
    merge.defs();
    keyed_refusals_come_in_order();
    tables_rest_on_their_files();
    list_replied(merge.insert(files, row))
}

// Makes the change that a statement asks of a table, if it asks for one.
fn change_table<F: Files>(
    table: &mut Table,
    files: &mut F,
    together: bool,
    act: &Act,
) -> Result<Option<Changed>, ShellFault>
    requires writable { IsTrue F.writable }
    requires row { BringsRow (defs_in (One table.old)) act.now }
    requires kept { IsKept (F.holds files.old) (One table.old) }
    requires whole { IsWhole (One table.old) }
    ensures changed { IfOk result (λ c. IfHolds (F.holds files.old) (One table.old) (λ m s.
        IsChangedBy (taking (One table.old)) (One table.old) s together (Some act.now)
        (F.holds files.new) (One table.new) c)) }
    ensures touched { IfOk result (λ c. IsTouchedBy (F.holds files.old) (F.holds files.new)
        (One table.old) (One table.new) 0 (count_changed c)) }
    ensures idle { Told (F.holds files.old) (F.holds files.new)
        (LeavesUnasked (One table.old) together act.now) }
    ensures carried { IsCarried (F.holds files.old) (F.holds files.new)
        (One table.old) (One table.new) }
    ensures whole { OnOk result (IsWhole (One table.new)) }
    ensures refused { IfErr result (NothingDamaged (F.holds files.old)) }
    ensures cause { HasCause File (F.faults files.old) (F.faults files.new) result }
{
    match change(table, files, together, act)? {
        Some(reply) => Ok(Some(table_changed(reply))),
        None => Ok(None),
    }
}

// Makes the change that a statement asks of a list, if it asks for one. A list takes only inserts.
fn change_list<F: Files>(
    merge: &mut Merge,
    files: &mut F,
    together: bool,
    act: &Act,
) -> Result<Option<Changed>, ShellFault>
    requires writable { IsTrue F.writable }
    requires row { BringsRow (defs_in (Many merge.old)) act.now }
    requires kept { IsKept (F.holds files.old) (Many merge.old) }
    requires whole { IsWhole (Many merge.old) }
    ensures changed { IfOk result (λ c. IfHolds (F.holds files.old) (Many merge.old) (λ m s.
        IsChangedBy (taking (Many merge.old)) (Many merge.old) s together (Some act.now)
        (F.holds files.new) (Many merge.new) c)) }
    ensures touched { IfOk result (λ c. IsTouchedBy (F.holds files.old) (F.holds files.new)
        (Many merge.old) (Many merge.new) 0 (count_changed c)) }
    ensures idle { Told (F.holds files.old) (F.holds files.new)
        (LeavesUnasked (Many merge.old) together act.now) }
    ensures carried { IsCarried (F.holds files.old) (F.holds files.new)
        (Many merge.old) (Many merge.new) }
    ensures whole { OnOk result (IsWhole (Many merge.new)) }
    ensures refused { IfErr result (NothingDamaged (F.holds files.old)) }
    ensures cause { HasCause File (F.faults files.old) (F.faults files.new) result }
{
    let _ = together;
    match act {
        Act::Insert(row) => Ok(Some(insert_in(merge, files, row)?)),
        _ => Ok(None),
    }
}

// Closes a table.
fn close_table<F: Files>(table: Table, files: &mut F) -> Result<(), ChangeFault>
    requires writable { IsTrue F.writable }
    requires kept { IsKept (F.holds files.old) (One table) }
    ensures closed { OnOk result (IfHolds (F.holds files.old) (One table) (λ m s.
        IfTold (F.holds files.new) (IsShut (One table) s))) }
    ensures rows { Told (F.holds files.old) (F.holds files.new) (KeepsRows (One table)) }
    ensures others { ChangesItsOwn (F.holds files.old) (F.holds files.new) (One table) }
    ensures cause { HasCause change.File (F.faults files.old) (F.faults files.new) result }
{
    table.close(files)
}

// Closes the tables of a list.
fn close_list<F: Files>(merge: Merge, files: &mut F) -> Result<(), ChangeFault>
    requires writable { IsTrue F.writable }
    requires kept { IsKept (F.holds files.old) (Many merge) }
    ensures closed { OnOk result (IfHolds (F.holds files.old) (Many merge) (λ m s.
        IfTold (F.holds files.new) (IsShut (Many merge) s))) }
    ensures rows { Told (F.holds files.old) (F.holds files.new) (KeepsRows (Many merge)) }
    ensures others { ChangesItsOwn (F.holds files.old) (F.holds files.new) (Many merge) }
    ensures cause { HasCause change.File (F.faults files.old) (F.faults files.new) result }
{
    merge.close(files)
}

impl Target {
    ghost use Rattle.std.specs.Prelude.{◌≡◌, ◌≤◌, ◌++◌, [], ◌∷◌, Some, IfOk, IfErr, OnOk, IsTrue};
    ghost use Rattle.myi_base.specs.Holding.{IfTold, Told};
    ghost use Rattle.myi_base.specs.Causes.{HasCause};
    ghost use Rattle.myi_defs.specs.Sound.{IsSound};
    ghost use Rattle.myi_history.specs.Lines.{BringsRow, ReadsRange};
    ghost use Rattle.myi_history.specs.Answers.{answer_on};
    ghost use Rattle.myi_history.specs.RoundTexts.{text_of};
    ghost use Rattle.myi_history.specs.History.{is_list};
    ghost use Rattle.myi_table.specs.declared.fault.ChangeFault.TheVariants as change;
    ghost use Rattle.myi_shell.specs.declared.fault.ShellFault.TheVariants.{File};
    ghost use Rattle.myi_shell.specs.Changing.{IsChangedBy, count_changed, NothingDamaged};
    ghost use Rattle.myi_shell.specs.Stepping.{read_answer, length_in, holes_in};
    ghost use Rattle.std.specs.Prelude.{None};
    ghost use Rattle.myi_shell.specs.Targets.{Standing};
    ghost use Rattle.myi_shell.specs.Targets.{taking, defs_in, counted_in, IsKept, IsWhole, IsShut};
    ghost use Rattle.myi_shell.specs.Targets.{IfHolds, StillHolds, IsCarried, IsUntouched};
    ghost use Rattle.myi_shell.specs.Targets.{IsTouchedBy, ChangesItsOwn, KeepsRows};
    ghost use Rattle.myi_shell.specs.Idle.{LeavesUnasked};

    /// The definitions of the table that takes the rows are sound.
    pub(crate) fn tables_are_sound(&self)
        ensures { IsSound (defs_in self.now) }
    {
        match self {
            Target::One(table) => {
                table.defs();
            }
            Target::Many(merge) => {
                merge.defs();
            }
        }
    }

    /// Whether it is a list.
    pub(crate) fn is_list(&self) -> bool
        ensures { result ≡ is_list (taking self.now) }
    {
        match self {
            Target::One(_) => false,
            Target::Many(_) => true,
        }
    }

    /// What the key caches of all tables counted.
    pub(crate) fn counters(&self) -> Counters
        ensures sum { result ≡ counted_in self.now }
        ensures fewer { result.reads ≤ result.read_requests }
    {
        match self {
            Target::One(table) => table.counters(),
            Target::Many(merge) => merge.counters(),
        }
    }

    /// How long the data file of the table is; of a list that is not asked.
    pub(crate) fn length(&self) -> u64
        ensures { result ≡ length_in self.now }
    {
        match self {
            Target::One(table) => table.length(),
            Target::Many(_) => 0,
        }
    }

    /// Whether a slot or block of the table is deleted; of a list that is not asked.
    pub(crate) fn holes(&self) -> bool
        ensures { result ≡ holes_in self.now }
    {
        match self {
            Target::One(table) => table.holes(),
            Target::Many(_) => false,
        }
    }

    /// Makes the change that a statement asks for, if it asks for one. A list takes only inserts.
    pub(crate) fn change<F: Files>(
        &mut self,
        files: &mut F,
        together: bool,
        act: &Act,
    ) -> Result<Option<Changed>, ShellFault>
        requires writable { IsTrue F.writable }
        requires row { BringsRow (defs_in self.old) act.now }
        requires kept { IsKept (F.holds files.old) self.old }
        requires whole { IsWhole self.old }
        ensures changed { IfOk result (λ c. IfHolds (F.holds files.old) self.old (λ m s.
            IsChangedBy (taking self.old) self.old s together (Some act.now)
            (F.holds files.new) self.new c)) }
        ensures touched { IfOk result (λ c. IsTouchedBy (F.holds files.old) (F.holds files.new)
            self.old self.new 0 (count_changed c)) }
        ensures idle { Told (F.holds files.old) (F.holds files.new)
            (LeavesUnasked self.old together act.now) }
        ensures carried { IsCarried (F.holds files.old) (F.holds files.new) self.old self.new }
        ensures whole { OnOk result (IsWhole self.new) }
        ensures refused { IfErr result (NothingDamaged (F.holds files.old)) }
        ensures cause { HasCause File (F.faults files.old) (F.faults files.new) result }
    {
        match self {
            Target::One(table) => change_table(table, files, together, act),
            Target::Many(merge) => change_list(merge, files, together, act),
        }
    }

    /// Reads the rows of a statement, and notes the lines of them.
    pub(crate) fn read<F: Files>(
        &mut self,
        files: &mut F,
        texts: &mut RoundTexts,
        act: &Act,
        line: u32,
        view: Snapshot,
    ) -> Result<(), ShellFault>
        requires writable { IsTrue F.writable }
        requires range { ReadsRange (defs_in self.old) act.now }
        requires kept { IsKept (F.holds files.old) self.old }
        requires whole { IsWhole self.old }
        ensures said { OnOk result (IfHolds (F.holds files.old) self.old (λ m s.
            texts.new ≡ texts.old ++ text_of (answer_on line
            (read_answer (taking self.old) (defs_in self.old) view s (Some act.now))) ∷ [])) }
        ensures still { StillHolds (F.holds files.old) (F.holds files.new) self.old self.new }
        ensures carried { IsCarried (F.holds files.old) (F.holds files.new) self.old self.new }
        ensures untouched { IsUntouched (F.holds files.old) (F.holds files.new)
            self.old self.new }
        ensures whole { IsWhole self.new }
        ensures refused { IfErr result (NothingDamaged (F.holds files.old)) }
        ensures cause { HasCause File (F.faults files.old) (F.faults files.new) result }
    {
        match self {
            Target::One(table) => read_table(table, files, texts, act, line, view),
            Target::Many(merge) => read_list(merge, files, texts, act, line, view),
        }
    }

    /// Notes the lines of a read that finds nothing.
    pub(crate) fn read_nothing(
        &self,
        texts: &mut RoundTexts,
        line: u32,
        view: Snapshot,
    ) -> Result<(), AllocError>
        ensures { OnOk result ((s : Standing) → texts.new ≡ texts.old ++ text_of (answer_on line
            (read_answer (taking self.now) (defs_in self.now) view s None)) ∷ []) }
    {
        match self {
            Target::One(_) => push_found(texts, line, &[], view),
            Target::Many(_) => texts.push_merged(line, &[], view.number),
        }
    }

    /// Closes all tables.
    pub(crate) fn close<F: Files>(self, files: &mut F) -> Result<(), ChangeFault>
        requires writable { IsTrue F.writable }
        requires kept { IsKept (F.holds files.old) self }
        ensures closed { OnOk result (IfHolds (F.holds files.old) self (λ m s.
            IfTold (F.holds files.new) (IsShut self s))) }
        ensures rows { Told (F.holds files.old) (F.holds files.new) (KeepsRows self) }
        ensures others { ChangesItsOwn (F.holds files.old) (F.holds files.new) self }
        ensures cause { HasCause change.File (F.faults files.old) (F.faults files.new) result }
    {
        match self {
            Target::One(table) => close_table(table, files),
            Target::Many(merge) => close_list(merge, files),
        }
    }
}
