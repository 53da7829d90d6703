//! Dumping a table.
ghost use Rattle.std.specs.Prelude.{◌≡◌, ◌≢◌, ◌++◌, [], string_bytes, IfOk, IfErr, OnOk, OnErr};
ghost use Rattle.myi_base.specs.Holding.{IfTold};
ghost use Rattle.myi_base.specs.Output.{Appends, AppendsPart};
ghost use Rattle.myi_base.specs.Causes.{HasCause};
ghost use Rattle.myi_opening.specs.Opening.{IsCutOff};
ghost use Rattle.myi_check.specs.Checking.{Finds};
ghost use Rattle.myi_repair.specs.Faults.{repair_fault};
ghost use Rattle.myisamkit.specs.Statuses.{IsFault};
ghost use Rattle.myisamkit.specs.Lines as spec;
ghost use Rattle.myisamkit.specs.Turns.{fault_status};
ghost use Rattle.myisamkit.specs.Dumps.{dump_turn, reason};

use crate::lines::{push_finding, refused_line};
use crate::recover::not_worked_on;
use crate::say::say;
use crate::status::{Status, Stop};
use myi_check::check;
use myi_dump::dump_rows;
use myi_io::{Files, Sink};
use myi_opening::{TableFault, TableFile, open_table};
use myi_pair::{Finding, HeaderItem};
use std::alloc::{AllocError, Global};

/// Prints the rows of a table in which nothing is found wrong; else the first thing that is.
pub(crate) fn dump_table<F: Files, O: Sink>(
    alloc: Global,
    files: &mut F,
    out: &mut O,
    name: &str,
) -> Result<Status, Stop>
    ensures status { IfOk result (λ s. IfTold (F.holds files.old) (λ m.
        s ≡ (dump_turn name.now m).status)) }
    ensures said { OnOk result (IfTold (F.holds files.old) (λ m. IfTold (O.written out.old)
        (Appends (dump_turn name.now m).text (O.written out.new)))) }
    ensures part { OnErr result (IfTold (F.holds files.old) (λ m. IfTold (O.written out.old)
        (AppendsPart (dump_turn name.now m).text (O.written out.new)))) }
    ensures holds { F.holds files.new ≡ F.holds files.old }
    ensures plain { IfOk result (λ s. IsFault s → ⊥) }
    ensures usage { IfOk result (λ s. s ≢ Status.Usage) }
    ensures findings { IfOk result (λ s. s ≢ Status.Findings) }
    ensures file { HasCause Stop.File (F.faults files.old) (F.faults files.new) result }
    ensures sink { HasCause Stop.Sink (O.faults out.old) (O.faults out.new) result }
{
    match check(alloc, files, name) {
        Ok(found) => match found.as_slice().split_first() {
            None => dump_sound(alloc, files, out, name),
            Some((finding, _)) => refuse(alloc, out, name, *finding),
        },
        Err(fault) => say_fault(alloc, out, name, fault),
    }
}

// Prints the rows of a table in which nothing was found wrong.
fn dump_sound<F: Files, O: Sink>(
    alloc: Global,
    files: &mut F,
    out: &mut O,
    name: &str,
) -> Result<Status, Stop>
    requires sound { IfTold (F.holds files.old) (Finds name.now []) }
    ensures status { IfOk result (λ s. IfTold (F.holds files.old) (λ m.
        s ≡ (dump_turn name.now m).status)) }
    ensures said { OnOk result (IfTold (F.holds files.old) (λ m. IfTold (O.written out.old)
        (Appends (dump_turn name.now m).text (O.written out.new)))) }
    ensures part { OnErr result (IfTold (F.holds files.old) (λ m. IfTold (O.written out.old)
        (AppendsPart (dump_turn name.now m).text (O.written out.new)))) }
    ensures holds { F.holds files.new ≡ F.holds files.old }
    ensures plain { IfOk result (λ s. IsFault s → ⊥) }
    ensures usage { IfOk result (λ s. s ≢ Status.Usage) }
    ensures findings { IfOk result (λ s. s ≢ Status.Findings) }
    ensures file { HasCause Stop.File (F.faults files.old) (F.faults files.new) result }
    ensures sink { HasCause Stop.Sink (O.faults out.old) (O.faults out.new) result }
{
    let index = TableFile::Index.of(alloc, name)?;
    let rows = TableFile::Data.of(alloc, name)?;
    match open_table(alloc, files, index.as_str(), rows.as_str()) {
        Ok(opened) => {
            dump_rows(
                alloc,
                files,
                out,
                rows.as_str(),
                &opened.defs,
                opened.length,
            )?;
            Ok(Status::Ok)
        }
        Err(fault) => say_fault(alloc, out, name, fault),
    }
}

// Says why a table is not opened.
fn say_fault<O: Sink>(
    alloc: Global,
    out: &mut O,
    name: &str,
    fault: TableFault,
) -> Result<Status, Stop>
    ensures status { IfOk result (λ s. s ≡ fault_status (repair_fault fault)) }
    ensures said { OnOk result (IfTold (O.written out.old)
        (Appends (spec.fault_line name.now (repair_fault fault)) (O.written out.new))) }
    ensures part { OnErr result (IfTold (O.written out.old)
        (AppendsPart (spec.fault_line name.now (repair_fault fault)) (O.written out.new))) }
    ensures refusal { IfOk result (λ s. IsCutOff fault → ⊥) }
    ensures plain { IfOk result (λ s. IsFault s → ⊥) }
    ensures usage { IfOk result (λ s. s ≢ Status.Usage) }
    ensures findings { IfOk result (λ s. s ≢ Status.Findings) }
    ensures file { IfErr result (λ s. s ≡ Stop.File → fault ≡ TableFault.File) }
    ensures sink { HasCause Stop.Sink (O.faults out.old) (O.faults out.new) result }
{
    let (status, line) = not_worked_on(alloc, name, fault.into())?;
    say(out, line.as_str())?;
    Ok(status)
}

// Says what was found first.
fn refuse<O: Sink>(alloc: Global, out: &mut O, name: &str, finding: Finding) -> Result<Status, Stop>
    ensures status { IfOk result (λ s. s ≡ Status.Refused) }
    ensures said { OnOk result (IfTold (O.written out.old)
        (Appends (spec.finding_line name.now finding ++ reason name.now finding)
        (O.written out.new))) }
    ensures part { OnErr result (IfTold (O.written out.old)
        (AppendsPart (spec.finding_line name.now finding ++ reason name.now finding)
        (O.written out.new))) }
    ensures file { IfErr result (λ s. s ≢ Stop.File) }
    ensures sink { HasCause Stop.Sink (O.faults out.old) (O.faults out.new) result }
{
    let text = refusal(alloc, name, finding)?;
    say(out, text.as_str())?;
    Ok(Status::Refused)
}

/// The line on what was found, and where the table is foreign, that it is refused for this.
pub(crate) fn refusal(alloc: Global, name: &str, finding: Finding) -> Result<String, AllocError>
    ensures { IfOk result (λ text. string_bytes text
        ≡ spec.finding_line name.now finding ++ reason name.now finding) }
{
    let mut text = String::new(alloc);
    push_finding(&mut text, name, finding)?;
    if let Finding::Header(HeaderItem::Mark) = finding {
        text.push_str(refused_line(alloc, name, "foreign")?.as_str())?;
    }
    Ok(text)
}
