//! The turn of a table whose pages are sorted.
ghost use Rattle.std.specs.Prelude.{◌≡◌, ◌≢◌, string_bytes, IfOk, IfErr, OnOk, OnErr, IsTrue};
ghost use Rattle.myi_base.specs.Holding.{IfTold, Told};
ghost use Rattle.myi_base.specs.Output.{Appends, AppendsPart};
ghost use Rattle.myi_base.specs.Causes.{HasCause};
ghost use Rattle.myi_sortindex.specs.Refusals as index;
ghost use Rattle.myisamkit.specs.Stops.{status_of_stop};
ghost use Rattle.myisamkit.specs.Statuses.{IsFault, faults_told};
ghost use Rattle.myisamkit.specs.Lines as spec;
ghost use Rattle.myisamkit.specs.Turns.{sort_index_turn, sort_index_status, unless_silent};
ghost use Rattle.myisamkit.specs.Turns.{SortIndexDone, SortIndexCutOff, SortIndexStops};

use crate::lines::{absent_line, finding_lines, reason_of, refused_line, sorted_pages_line};
use crate::options::Options;
use crate::say::say;
use crate::status::{Status, Stop};
use myi_io::{Files, Sink};
use myi_sortindex::{SortFault, sort_index};
use std::alloc::{AllocError, Global};

/// Sorts the pages of a table's index file, if nothing is wrong with the table, and says how many there are.
pub(crate) fn sort_index_table<F: Files, O: Sink>(
    alloc: Global,
    files: &mut F,
    out: &mut O,
    options: &Options,
    name: &str,
) -> Result<Status, Stop>
    requires { IsTrue F.writable }
    ensures status { IfOk result (λ s. IfTold (F.holds files.old) (λ m.
        s ≡ (sort_index_turn options.now name.now m).status)) }
    ensures said { OnOk result (IfTold (F.holds files.old) (λ m. IfTold (O.written out.old)
        (Appends (sort_index_turn options.now name.now m).text (O.written out.new)))) }
    ensures part { OnErr result (IfTold (F.holds files.old) (λ m. IfTold (O.written out.old)
        (AppendsPart (sort_index_turn options.now name.now m).text (O.written out.new)))) }
    ensures done { OnOk result (Told (F.holds files.old) (F.holds files.new)
        (SortIndexDone options.now name.now)) }
    ensures stops { IfErr result (λ stop. Told (F.holds files.old) (F.holds files.new)
        (SortIndexStops options.now (F.faults files.old) (F.faults files.new) name.now stop)) }
    ensures plain { IfOk result (λ s. IsFault s → ⊥) }
    ensures usage { IfOk result (λ s. s ≢ Status.Usage) }
    ensures file { HasCause Stop.File (F.faults files.old) (F.faults files.new) result }
    ensures sink { HasCause Stop.Sink (O.faults out.old) (O.faults out.new) result }
{
    let (status, line) = sort_and_tell(alloc, files, options, name)?;
    say(out, line.as_str())?;
    Ok(status)
}

// Sorts the pages, if nothing is wrong with the table, and answers the status and the line.
fn sort_and_tell<F: Files>(
    alloc: Global,
    files: &mut F,
    options: &Options,
    name: &str,
) -> Result<(Status, String), Stop>
    requires { IsTrue F.writable }
    ensures said { IfOk result (λ r. IfTold (F.holds files.old) (λ m.
        string_bytes r.1 ≡ (sort_index_turn options.now name.now m).text)) }
    ensures status { IfOk result (λ r. IfTold (F.holds files.old) (λ m.
        r.0 ≡ (sort_index_turn options.now name.now m).status)) }
    ensures plain { IfOk result (λ r. IsFault r.0 → ⊥) }
    ensures usage { IfOk result (λ r. r.0 ≢ Status.Usage) }
    ensures done { OnOk result (Told (F.holds files.old) (F.holds files.new)
        (SortIndexDone options.now name.now)) }
    ensures off { IfErr result (λ stop. Told (F.holds files.old) (F.holds files.new)
        (SortIndexCutOff options.now (faults_told (status_of_stop stop)) (F.faults files.old)
        (F.faults files.new) name.now)) }
    ensures sink { IfErr result (λ stop. stop ≢ Stop.Sink) }
    ensures cause { HasCause Stop.File (F.faults files.old) (F.faults files.new) result }
{
    match sort_index(alloc, files, name) {
        Ok(pages) => {
            let line = success_line(alloc, options, name, pages)?;
            Ok((Status::Ok, line))
        }
        Err(fault) => not_sorted(alloc, name, fault),
    }
}

// The line on an index file whose pages were sorted, where such a line is wanted.
fn success_line(
    alloc: Global,
    options: &Options,
    name: &str,
    pages: u64,
) -> Result<String, AllocError>
    ensures { IfOk result (λ line. string_bytes line
        ≡ unless_silent options.now.silent (spec.sorted_pages_line name.now pages)) }
{
    if options.silent {
        Ok(String::new(alloc))
    } else {
        sorted_pages_line(alloc, name, pages)
    }
}

// What is said of a table whose pages are not sorted.
fn not_sorted(alloc: Global, name: &str, fault: SortFault) -> Result<(Status, String), Stop>
    ensures said { IfOk result (λ r. string_bytes r.1 ≡ spec.sort_index_line name.now fault) }
    ensures status { IfOk result (λ r. r.0 ≡ sort_index_status fault) }
    ensures plain { IfOk result (λ r. IsFault r.0 → ⊥) }
    ensures usage { IfOk result (λ r. r.0 ≢ Status.Usage) }
    ensures refusal { IfOk result (λ r. index.CutsOff fault → ⊥) }
    ensures file { IfErr result (λ s. s ≡ Stop.File → fault ≡ SortFault.File) }
    ensures sink { IfErr result (λ s. s ≢ Stop.Sink) }
    ensures told { IfErr result (λ s. faults_told (status_of_stop s) ≡ index.faults_told fault) }
{
    match fault {
        SortFault::Absent(file) => Ok((Status::Absent, absent_line(alloc, name, file)?)),
        SortFault::Def(fault) => {
            Ok((
                Status::Refused,
                refused_line(alloc, name, reason_of(fault))?,
            ))
        }
        SortFault::Damaged(finding) => {
            Ok((Status::Findings, finding_lines(alloc, name, &[finding])?))
        }
        SortFault::File => Err(Stop::File),
        SortFault::Memory => Err(Stop::Memory),
    }
}
