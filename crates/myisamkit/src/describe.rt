//! The turn of a table that is described.
ghost use Rattle.std.specs.Prelude.{◌≡◌, ◌≢◌, string_bytes, IfOk, IfErr, OnOk, OnErr};
ghost use Rattle.myi_base.specs.Holding.{IfTold};
ghost use Rattle.myi_base.specs.Output.{Appends, AppendsPart};
ghost use Rattle.myi_base.specs.Causes.{HasCause};
ghost use Rattle.myisamkit.specs.Statuses.{IsFault};
ghost use Rattle.myisamkit.specs.Descriptions as spec;
ghost use Rattle.myisamkit.specs.Turns.{describe_turn, unless_silent};

use crate::description::description;
use crate::options::Options;
use crate::recover::not_worked_on;
use crate::say::say;
use crate::status::{Status, Stop};
use myi_defs::Defs;
use myi_io::{Files, Sink};
use myi_opening::{TableFile, open_table};
use std::alloc::{AllocError, Global};

/// Describes a table, if its definitions are taken. The files stay as they are.
pub(crate) fn describe_table<F: Files, O: Sink>(
    alloc: Global,
    files: &mut F,
    out: &mut O,
    options: &Options,
    name: &str,
) -> Result<Status, Stop>
    ensures status { IfOk result (λ s. IfTold (F.holds files.old) (λ m.
        s ≡ (describe_turn options.now name.now m).status)) }
    ensures said { OnOk result (IfTold (F.holds files.old) (λ m. IfTold (O.written out.old)
        (Appends (describe_turn options.now name.now m).text (O.written out.new)))) }
    ensures part { OnErr result (IfTold (F.holds files.old) (λ m. IfTold (O.written out.old)
        (AppendsPart (describe_turn options.now name.now m).text (O.written out.new)))) }
    ensures holds { F.holds files.new ≡ F.holds files.old }
    ensures plain { IfOk result (λ s. IsFault s → ⊥) }
    ensures usage { IfOk result (λ s. s ≢ Status.Usage) }
    ensures findings { IfOk result (λ s. s ≢ Status.Findings) }
    ensures file { HasCause Stop.File (F.faults files.old) (F.faults files.new) result }
    ensures sink { HasCause Stop.Sink (O.faults out.old) (O.faults out.new) result }
{
    let (status, text) = describe(alloc, files, options, name)?;
    say(out, text.as_str())?;
    Ok(status)
}

// The status and the lines of a table.
fn describe<F: Files>(
    alloc: Global,
    files: &mut F,
    options: &Options,
    name: &str,
) -> Result<(Status, String), Stop>
    ensures said { IfOk result (λ r. IfTold (F.holds files.old) (λ m.
        string_bytes r.1 ≡ (describe_turn options.now name.now m).text)) }
    ensures status { IfOk result (λ r. IfTold (F.holds files.old) (λ m.
        r.0 ≡ (describe_turn options.now name.now m).status)) }
    ensures plain { IfOk result (λ r. IsFault r.0 → ⊥) }
    ensures usage { IfOk result (λ r. r.0 ≢ Status.Usage) }
    ensures findings { IfOk result (λ r. r.0 ≢ Status.Findings) }
    ensures holds { F.holds files.new ≡ F.holds files.old }
    ensures sink { IfErr result (λ stop. stop ≢ Stop.Sink) }
    ensures cause { HasCause Stop.File (F.faults files.old) (F.faults files.new) result }
{
    let index = TableFile::Index.of(alloc, name)?;
    let rows = TableFile::Data.of(alloc, name)?;
    match open_table(alloc, files, index.as_str(), rows.as_str()) {
        Ok(opened) => {
            let text = wanted_description(alloc, options, name, &opened.defs)?;
            Ok((Status::Ok, text))
        }
        Err(fault) => not_worked_on(alloc, name, fault.into()),
    }
}

// The description, where lines of success are wanted.
fn wanted_description(
    alloc: Global,
    options: &Options,
    name: &str,
    defs: &Defs,
) -> Result<String, AllocError>
    ensures { IfOk result (λ text. string_bytes text
        ≡ unless_silent options.now.silent (spec.description name.now defs.now)) }
{
    if options.silent {
        Ok(String::new(alloc))
    } else {
        description(alloc, name, defs)
    }
}
