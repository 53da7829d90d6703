//! Statements that read a table.
ghost use Rattle.std.specs.Prelude.{◌≡◌, ◌<◌, ◌++◌, [], ◌∷◌, Some, None, IfOk, IfErr, OnOk, IsTrue};
ghost use Rattle.myi_base.specs.Causes.{HasCause};
ghost use Rattle.myi_defs.specs.declared.types.Defs.{Defs};
ghost use Rattle.myi_history.specs.Answers.{rows, answer_on};
ghost use Rattle.myi_history.specs.RoundTexts.{text_of};
ghost use Rattle.myi_history.specs.Lines.{IsRange, ReadsRange};
ghost use Rattle.myi_table.specs.Table.{defs_in, IsKept, IfHolds, StillHolds};
ghost use Rattle.myi_shell.specs.Carrying.{IsCarried, IsUntouched};
ghost use Rattle.myi_shell.specs.Changing.{NeverDamaged, NothingDamaged};
ghost use Rattle.myi_shell.specs.Stepping.{seen_rows, read_answer};
ghost use Rattle.myi_history.specs.Reads.{found, merged_found};
ghost use Rattle.myi_history.specs.History.{in_list};
ghost use Rattle.myi_shell.specs.Targets as on;
ghost use Rattle.myi_shell.specs.declared.target.Target.TheVariants.{One, Many};
ghost use Rattle.myi_shell.specs.declared.fault.ShellFault.TheVariants.{File};

use crate::fault::ShellFault;
use myi_history::RoundTexts;
use myi_io::Files;
use myi_merge::Merge;
use myi_pack::Row;
use myi_rounds::range_of;
use myi_script::Act;
use myi_table::Table;
use std::alloc::{AllocError, Global};

/// What a statement reads: the table after so many changes, whose rows are those below a place, or
/// all rows of the table as it is.
#[derive(Clone, Copy)]
pub(crate) struct Snapshot {
    pub(crate) number: u64,
    pub(crate) below: Option<u64>,
}

/// Notes the lines of a read that found these rows.
pub(crate) fn push_found(
    texts: &mut RoundTexts,
    line: u32,
    found: &[(u64, Row)],
    view: Snapshot,
) -> Result<(), AllocError>
    ensures { OnOk result (texts.new ≡ texts.old ++ text_of
        (answer_on line (rows (seen_rows view.below found.now) view.number)) ∷ []) }
{
    match view.below {
        Some(below) => texts.push_found_below(line, found, below, view.number),
        None => texts.push_found(line, found, view.number),
    }
}

// Reads the rows of a statement in a table, and notes the lines of them.
fn read<F: Files>(
    table: &mut Table,
    files: &mut F,
    texts: &mut RoundTexts,
    act: &Act,
    line: u32,
    view: Snapshot,
) -> Result<(), ShellFault>
    requires writable { IsTrue F.writable }
    requires range { ReadsRange (defs_in table.old) act.now }
    requires kept { IsKept (F.holds files.old) table.old }
    requires whole { table.old.broken ≡ None }
    ensures said { OnOk result (IfHolds (F.holds files.old) table.old (λ m s.
        texts.new ≡ texts.old ++ text_of (answer_on line
        (rows (seen_rows view.below (found (defs_in table.old) s (Some act.now))) view.number))
        ∷ [])) }
    ensures still { StillHolds (F.holds files.old) (F.holds files.new) table.old table.new }
    ensures carried { IsCarried (F.holds files.old) (F.holds files.new) table.old table.new }
    ensures untouched { IsUntouched (F.holds files.old) (F.holds files.new) table.old table.new }
    ensures whole { table.new.broken ≡ None }
    ensures refused { IfErr result (NeverDamaged (F.holds files.old) table.old) }
    ensures cause { HasCause File (F.faults files.old) (F.faults files.new) result }
{
    match act {
        Act::Scan => {
            let found = table.scan(files)?;
            push_found(texts, line, &found, view)?;
        }
        Act::Over(range) => {
            // The table has a tree for each of its keys, and its two files have different names.
            table.defs();
            table.name();
            let range = range_of(texts.allocator(), range)?;
            let found = table.range(files, &range)?;
            push_found(texts, line, &found, view)?;
        }
        _ => push_found(texts, line, &[], view)?,
    }
    Ok(())
}

/// Reads the rows of a statement in a table that is a script's target.
pub(crate) fn read_table<F: Files>(
    table: &mut Table,
    files: &mut F,
    texts: &mut RoundTexts,
    act: &Act,
    line: u32,
    view: Snapshot,
) -> Result<(), ShellFault>
    requires writable { IsTrue F.writable }
    requires range { ReadsRange (on.defs_in (One table.old)) act.now }
    requires kept { on.IsKept (F.holds files.old) (One table.old) }
    requires whole { on.IsWhole (One table.old) }
    ensures said { OnOk result (on.IfHolds (F.holds files.old) (One table.old) (λ m s.
        texts.new ≡ texts.old ++ text_of (answer_on line (read_answer (on.taking (One table.old))
        (on.defs_in (One table.old)) view s (Some act.now))) ∷ [])) }
    ensures still { on.StillHolds (F.holds files.old) (F.holds files.new)
        (One table.old) (One table.new) }
    ensures carried { on.IsCarried (F.holds files.old) (F.holds files.new)
        (One table.old) (One table.new) }
    ensures untouched { on.IsUntouched (F.holds files.old) (F.holds files.new)
        (One table.old) (One table.new) }
    ensures whole { on.IsWhole (One table.new) }
    ensures refused { IfErr result (NothingDamaged (F.holds files.old)) }
    ensures cause { HasCause File (F.faults files.old) (F.faults files.new) result }
{
    read(table, files, texts, act, line, view)
}

// What a statement that reads finds in the tables of a list.
fn found_in<F: Files>(
    alloc: Global,
    merge: &mut Merge,
    files: &mut F,
    act: &Act,
) -> Result<Vec<(u32, u64, Row)>, ShellFault>
    requires writable { IsTrue F.writable }
    requires range { ReadsRange (on.defs_in (Many merge.old)) act.now }
    requires kept { on.IsKept (F.holds files.old) (Many merge.old) }
    requires whole { on.IsWhole (Many merge.old) }
    ensures rows { IfOk result (λ rows. on.IfHolds (F.holds files.old) (Many merge.old) (λ m s.
        rows.items ≡ merged_found (on.defs_in (Many merge.old)) (in_list s.beside s.table)
        (Some act.now))) }
    ensures still { on.StillHolds (F.holds files.old) (F.holds files.new)
        (Many merge.old) (Many merge.new) }
    ensures carried { on.IsCarried (F.holds files.old) (F.holds files.new)
        (Many merge.old) (Many merge.new) }
    ensures untouched { on.IsUntouched (F.holds files.old) (F.holds files.new)
        (Many merge.old) (Many merge.new) }
    ensures whole { on.IsWhole (Many merge.new) }
    ensures refused { IfErr result (NothingDamaged (F.holds files.old)) }
    ensures cause { HasCause File (F.faults files.old) (F.faults files.new) result }
{
    merge.defs();
    match act {
        Act::Scan => Ok(merge.scan(files)?),
        Act::Over(range) => {
            let range = range_of(alloc, range)?;
            Ok(merge.range(files, &range)?)
        }
        _ => Ok(Vec::new(alloc)),
    }
}

/// Reads the rows of a statement in the tables of a list, and notes the lines of them.
pub(crate) fn read_list<F: Files>(
    merge: &mut Merge,
    files: &mut F,
    texts: &mut RoundTexts,
    act: &Act,
    line: u32,
    view: Snapshot,
) -> Result<(), ShellFault>
    requires writable { IsTrue F.writable }
    requires range { ReadsRange (on.defs_in (Many merge.old)) act.now }
    requires kept { on.IsKept (F.holds files.old) (Many merge.old) }
    requires whole { on.IsWhole (Many merge.old) }
    ensures said { OnOk result (on.IfHolds (F.holds files.old) (Many merge.old) (λ m s.
        texts.new ≡ texts.old ++ text_of (answer_on line (read_answer (on.taking (Many merge.old))
        (on.defs_in (Many merge.old)) view s (Some act.now))) ∷ [])) }
    ensures still { on.StillHolds (F.holds files.old) (F.holds files.new)
        (Many merge.old) (Many merge.new) }
    ensures carried { on.IsCarried (F.holds files.old) (F.holds files.new)
        (Many merge.old) (Many merge.new) }
    ensures untouched { on.IsUntouched (F.holds files.old) (F.holds files.new)
        (Many merge.old) (Many merge.new) }
    ensures whole { on.IsWhole (Many merge.new) }
    ensures refused { IfErr result (NothingDamaged (F.holds files.old)) }
    ensures cause { HasCause File (F.faults files.old) (F.faults files.new) result }
{
    let found = found_in(texts.allocator(), merge, files, act)?;
    texts.push_merged(line, &found, view.number)?;
    Ok(())
}
