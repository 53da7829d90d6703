//! Making a table of rows, which is damaged and recovered.
ghost use Rattle.std.specs.Prelude.{◌≡◌, ◌≢◌, ◌≤◌, [], string_bytes, IfOk, IfErr, OnOk, OnErr, IsTrue};
ghost use Rattle.myi_base.specs.Holding.{IfTold, Told};
ghost use Rattle.myi_base.specs.Output.{Appends, AppendsPart};
ghost use Rattle.myi_base.specs.Causes.{HasCause};
ghost use Rattle.myi_repair.specs.Names.{names_for, KeepsBut};
ghost use Rattle.myi_make.specs.Faults.{CutsOff};
ghost use Rattle.myisamkit.specs.Stops.{status_of_stop};
ghost use Rattle.myisamkit.specs.Statuses.{IsFault};
ghost use Rattle.myisamkit.specs.Lines as spec;
ghost use Rattle.myisamkit.specs.Makes.{make_turn, not_made_status, MakeDone, MakeLeaves};

use crate::lines::{absent_line, damaged_line, finding_lines, made_line, reason_of, refused_line};
use crate::say::say;
use crate::status::{Status, Stop};
use crate::words::Rows;
use myi_io::{Files, Sink};
use myi_make::{Made, MakeFault, make_table};
use std::alloc::{AllocError, Global};

/// Makes a table of so many rows, damages and recovers it, and says so.
pub(crate) fn make_of_rows<F: Files, O: Sink>(
    alloc: Global,
    files: &mut F,
    out: &mut O,
    rows: Rows,
    name: &str,
    now: u64,
) -> Result<Status, Stop>
    requires writable { IsTrue F.writable }
    requires some { 1 ≤ rows.count }
    requires few { rows.count ≤ 100000 }
    ensures status { IfOk result (λ s. IfTold (F.holds files.old) (λ m.
        s ≡ (make_turn rows.count rows.seed name.now now m).status)) }
    ensures said { OnOk result (IfTold (F.holds files.old) (λ m. IfTold (O.written out.old)
        (Appends (make_turn rows.count rows.seed name.now now m).text (O.written out.new)))) }
    ensures part { OnErr result (IfTold (F.holds files.old) (λ m. IfTold (O.written out.old)
        (AppendsPart (make_turn rows.count rows.seed name.now now m).text (O.written out.new)))) }
    ensures done { OnOk result (Told (F.holds files.old) (F.holds files.new)
        (MakeLeaves rows.count rows.seed name.now now Status.Ok)) }
    ensures stops { IfErr result (λ stop. Told (F.holds files.old) (F.holds files.new)
        (MakeLeaves rows.count rows.seed name.now now (status_of_stop stop))) }
    ensures plain { IfOk result (λ s. IsFault s → ⊥) }
    ensures usage { IfOk result (λ s. s ≢ Status.Usage) }
    ensures file { HasCause Stop.File (F.faults files.old) (F.faults files.new) result }
    ensures sink { HasCause Stop.Sink (O.faults out.old) (O.faults out.new) result }
{
    let (status, text) = make_and_tell(alloc, files, rows, name, now)?;
    say(out, text.as_str())?;
    Ok(status)
}

// Makes a table of so many rows, damages and recovers it, and answers the status and the lines.
fn make_and_tell<F: Files>(
    alloc: Global,
    files: &mut F,
    rows: Rows,
    name: &str,
    now: u64,
) -> Result<(Status, String), Stop>
    requires writable { IsTrue F.writable }
    requires some { 1 ≤ rows.count }
    requires few { rows.count ≤ 100000 }
    ensures said { IfOk result (λ r. IfTold (F.holds files.old) (λ m.
        string_bytes r.1 ≡ (make_turn rows.count rows.seed name.now now m).text)) }
    ensures status { IfOk result (λ r. IfTold (F.holds files.old) (λ m.
        r.0 ≡ (make_turn rows.count rows.seed name.now now m).status)) }
    ensures plain { IfOk result (λ r. IsFault r.0 → ⊥) }
    ensures usage { IfOk result (λ r. r.0 ≢ Status.Usage) }
    ensures done { OnOk result (Told (F.holds files.old) (F.holds files.new)
        (MakeDone rows.count rows.seed name.now now)) }
    ensures others { Told (F.holds files.old) (F.holds files.new) (KeepsBut (names_for name.now)) }
    ensures sink { IfErr result (λ stop. stop ≢ Stop.Sink) }
    ensures cause { HasCause Stop.File (F.faults files.old) (F.faults files.new) result }
{
    match make_table(alloc, files, name, rows.count, rows.seed, now) {
        Ok(made) => {
            let told = told_of(alloc, name, rows.count, &made)?;
            Ok(told)
        }
        Err(fault) => not_made(alloc, name, fault),
    }
}

// What is said of a table that was made, damaged and recovered.
fn told_of(
    alloc: Global,
    name: &str,
    count: u32,
    made: &Made,
) -> Result<(Status, String), AllocError>
    ensures said { IfOk result (λ r. made.now.found.items ≡ [] → string_bytes r.1
        ≡ spec.made_line name.now count made.now.damaged made.now.report.kept) }
    ensures status { IfOk result (λ r. made.now.found.items ≡ [] → r.0 ≡ Status.Ok) }
    ensures plain { IfOk result (λ r. IsFault r.0 → ⊥) }
    ensures usage { IfOk result (λ r. r.0 ≢ Status.Usage) }
{
    if made.found.is_empty() {
        Ok((Status::Ok, made_line(alloc, name, count, made)?))
    } else {
        Ok((Status::Findings, finding_lines(alloc, name, &made.found)?))
    }
}

// What is said of a table that was not made. Files that tell what they hold give cause for `File` and `Memory` alone.
fn not_made(alloc: Global, name: &str, fault: MakeFault) -> Result<(Status, String), Stop>
    ensures said { IfOk result (λ r. string_bytes r.1 ≡ spec.not_made_line name.now fault) }
    ensures status { IfOk result (λ r. r.0 ≡ not_made_status fault) }
    ensures plain { IfOk result (λ r. IsFault r.0 → ⊥) }
    ensures usage { IfOk result (λ r. r.0 ≢ Status.Usage) }
    ensures refusal { IfOk result (λ r. CutsOff fault → ⊥) }
    ensures file { IfErr result (λ s. s ≡ Stop.File → fault ≡ MakeFault.File) }
    ensures sink { IfErr result (λ s. s ≢ Stop.Sink) }
{
    match fault {
        MakeFault::Absent(file) => Ok((Status::Absent, absent_line(alloc, name, file)?)),
        MakeFault::Def(fault) => {
            Ok((
                Status::Refused,
                refused_line(alloc, name, reason_of(fault))?,
            ))
        }
        MakeFault::TooLong => Ok((Status::Refused, refused_line(alloc, name, "too long")?)),
        MakeFault::Damaged { at } => Ok((Status::Refused, damaged_line(alloc, name, at)?)),
        MakeFault::File => Err(Stop::File),
        MakeFault::Memory => Err(Stop::Memory),
    }
}
