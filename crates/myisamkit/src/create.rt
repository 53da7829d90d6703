//! Making a table from a text.
ghost use Rattle.std.specs.Prelude.{◌≡◌, ◌≢◌, string_bytes, IfOk, IfErr, OnOk, OnErr, IsTrue};
ghost use Rattle.myi_base.specs.Holding.{IfTold, Told};
ghost use Rattle.myi_base.specs.Output.{Appends, AppendsPart};
ghost use Rattle.myi_base.specs.Causes.{HasCause};
ghost use Rattle.myi_create.specs.Names.{names_for};
ghost use Rattle.myi_create.specs.Creating.{IsCutOff, MakesPart};
ghost use Rattle.myisamkit.specs.Statuses.{IsFault};
ghost use Rattle.myisamkit.specs.Stops.{status_of_stop};
ghost use Rattle.myisamkit.specs.Creates.{create_turn, reason_line, reason_status, CreateLeaves};

use crate::lines::{created_line, no_file_line, reason_of, refused_line, text_line};
use crate::say::say;
use crate::status::{Status, Stop};
use myi_create::{CreateFault, create_table};
use myi_io::{Files, Sink};
use std::alloc::Global;

/// Makes an empty table from the text of a file, and says so.
pub(crate) fn create_from_text<F: Files, O: Sink>(
    alloc: Global,
    files: &mut F,
    out: &mut O,
    name: &str,
    text: &str,
) -> Result<Status, Stop>
    requires { IsTrue F.writable }
    ensures status { IfOk result (λ s. IfTold (F.holds files.old) (λ m.
        s ≡ (create_turn name.now text.now m).status)) }
    ensures said { OnOk result (IfTold (F.holds files.old) (λ m. IfTold (O.written out.old)
        (Appends (create_turn name.now text.now m).text (O.written out.new)))) }
    ensures part { OnErr result (IfTold (F.holds files.old) (λ m. IfTold (O.written out.old)
        (AppendsPart (create_turn name.now text.now m).text (O.written out.new)))) }
    ensures done { OnOk result (Told (F.holds files.old) (F.holds files.new)
        (CreateLeaves name.now text.now Status.Ok)) }
    ensures stops { IfErr result (λ stop. Told (F.holds files.old) (F.holds files.new)
        (CreateLeaves name.now text.now (status_of_stop stop))) }
    ensures plain { IfOk result (λ s. IsFault s → ⊥) }
    ensures usage { IfOk result (λ s. s ≢ Status.Usage) }
    ensures findings { IfOk result (λ s. s ≢ Status.Findings) }
    ensures file { HasCause Stop.File (F.faults files.old) (F.faults files.new) result }
    ensures sink { HasCause Stop.Sink (O.faults out.old) (O.faults out.new) result }
{
    let (status, line) = create(alloc, files, name, text)?;
    say(out, line.as_str())?;
    Ok(status)
}

// Makes a table, and answers the status and the line, for which there is memory before anything is changed.
fn create<F: Files>(
    alloc: Global,
    files: &mut F,
    name: &str,
    text: &str,
) -> Result<(Status, String), Stop>
    requires { IsTrue F.writable }
    ensures said { IfOk result (λ r. IfTold (F.holds files.old) (λ m.
        string_bytes r.1 ≡ (create_turn name.now text.now m).text)) }
    ensures status { IfOk result (λ r. IfTold (F.holds files.old) (λ m.
        r.0 ≡ (create_turn name.now text.now m).status)) }
    ensures plain { IfOk result (λ r. IsFault r.0 → ⊥) }
    ensures usage { IfOk result (λ r. r.0 ≢ Status.Usage) }
    ensures findings { IfOk result (λ r. r.0 ≢ Status.Findings) }
    ensures done { OnOk result (Told (F.holds files.old) (F.holds files.new)
        (λ m n. n ≡ (create_turn name.now text.now m).files)) }
    ensures off { OnErr result (Told (F.holds files.old) (F.holds files.new)
        (MakesPart (names_for name.now) text.now)) }
    ensures sink { IfErr result (λ stop. stop ≢ Stop.Sink) }
    ensures cause { HasCause Stop.File (F.faults files.old) (F.faults files.new) result }
{
    let line = created_line(alloc, name)?;
    match create_table(alloc, files, name, text) {
        Ok(()) => Ok((Status::Ok, line)),
        Err(fault) => not_created(alloc, name, text, fault),
    }
}

// What is said of a table that is not made.
fn not_created(
    alloc: Global,
    name: &str,
    text: &str,
    fault: CreateFault,
) -> Result<(Status, String), Stop>
    ensures said { IfOk result (λ r. string_bytes r.1 ≡ reason_line name.now text.now fault) }
    ensures status { IfOk result (λ r. r.0 ≡ reason_status fault) }
    ensures plain { IfOk result (λ r. IsFault r.0 → ⊥) }
    ensures usage { IfOk result (λ r. r.0 ≢ Status.Usage) }
    ensures findings { IfOk result (λ r. r.0 ≢ Status.Findings) }
    ensures refusal { IfOk result (λ r. IsCutOff fault → ⊥) }
    ensures file { IfErr result (λ s. s ≡ Stop.File → fault ≡ CreateFault.File) }
    ensures sink { IfErr result (λ s. s ≢ Stop.Sink) }
{
    match fault {
        CreateFault::Absent => Ok((Status::Absent, no_file_line(alloc, text)?)),
        CreateFault::Line(number) => Ok((Status::Refused, text_line(alloc, text, number)?)),
        CreateFault::Def(fault) => {
            Ok((
                Status::Refused,
                refused_line(alloc, name, reason_of(fault))?,
            ))
        }
        CreateFault::File => Err(Stop::File),
        CreateFault::Memory => Err(Stop::Memory),
    }
}
