//! The turn of a table whose rows are sorted.
ghost use Rattle.std.specs.Prelude.{◌≡◌, ◌≢◌, string_bytes, IfOk, IfErr, OnOk, OnErr, IsTrue};
ghost use Rattle.myi_base.specs.Holding.{IfTold, Told};
ghost use Rattle.myi_base.specs.Output.{Appends, AppendsPart};
ghost use Rattle.myi_base.specs.Causes.{HasCause};
ghost use Rattle.myisamkit.specs.Stops.{status_of_stop};
ghost use Rattle.myisamkit.specs.Statuses.{IsFault, faults_told};
ghost use Rattle.myisamkit.specs.Lines as spec;
ghost use Rattle.myisamkit.specs.Turns.{sort_turn, unless_silent};
ghost use Rattle.myisamkit.specs.Turns.{SortDone, SortCutOff, SortStops};

use crate::lines::sorted_line;
use crate::options::Options;
use crate::ordering::not_ordered;
use crate::say::say;
use crate::status::{Status, Stop};
use myi_io::{Files, Sink};
use myi_order::sort_records;
use myi_repair::Report;
use std::alloc::{AllocError, Global};

/// The key by which rows are sorted, and the moment.
#[derive(Clone, Copy)]
pub(crate) struct Order {
    /// The number of the key, from 1.
    pub(crate) key: u8,
    pub(crate) now: u64,
}

/// Sorts the rows of a table, if it has the key and nothing is wrong with it, and says so.
pub(crate) fn sort_table<F: Files, O: Sink>(
    alloc: Global,
    files: &mut F,
    out: &mut O,
    options: &Options,
    name: &str,
    order: Order,
) -> Result<Status, Stop>
    requires { IsTrue F.writable }
    ensures status { IfOk result (λ s. IfTold (F.holds files.old) (λ m.
        s ≡ (sort_turn options.now order.now order.key name.now m).status)) }
    ensures said { OnOk result (IfTold (F.holds files.old) (λ m. IfTold (O.written out.old)
        (Appends (sort_turn options.now order.now order.key name.now m).text (O.written out.new)))) }
    ensures part { OnErr result (IfTold (F.holds files.old) (λ m. IfTold (O.written out.old)
        (AppendsPart (sort_turn options.now order.now order.key name.now m).text
        (O.written out.new)))) }
    ensures done { OnOk result (Told (F.holds files.old) (F.holds files.new)
        (SortDone options.now order.now order.key name.now)) }
    ensures stops { IfErr result (λ stop. Told (F.holds files.old) (F.holds files.new)
        (SortStops options.now order.now order.key (F.faults files.old) (F.faults files.new)
        name.now stop)) }
    ensures plain { IfOk result (λ s. IsFault s → ⊥) }
    ensures usage { IfOk result (λ s. s ≢ Status.Usage) }
    ensures file { HasCause Stop.File (F.faults files.old) (F.faults files.new) result }
    ensures sink { HasCause Stop.Sink (O.faults out.old) (O.faults out.new) result }
{
    let (status, line) = sort_and_tell(alloc, files, options, name, order)?;
    say(out, line.as_str())?;
    Ok(status)
}

// Sorts the rows of a table, if that can be done, and answers the status and the line.
fn sort_and_tell<F: Files>(
    alloc: Global,
    files: &mut F,
    options: &Options,
    name: &str,
    order: Order,
) -> Result<(Status, String), Stop>
    requires { IsTrue F.writable }
    ensures said { IfOk result (λ r. IfTold (F.holds files.old) (λ m.
        string_bytes r.1 ≡ (sort_turn options.now order.now order.key name.now m).text)) }
    ensures status { IfOk result (λ r. IfTold (F.holds files.old) (λ m.
        r.0 ≡ (sort_turn options.now order.now order.key name.now m).status)) }
    ensures plain { IfOk result (λ r. IsFault r.0 → ⊥) }
    ensures usage { IfOk result (λ r. r.0 ≢ Status.Usage) }
    ensures done { OnOk result (Told (F.holds files.old) (F.holds files.new)
        (SortDone options.now order.now order.key name.now)) }
    ensures whole { OnOk result (Told (F.holds files.old) (F.holds files.new)
        (SortCutOff order.now order.key 0 (F.faults files.old) (F.faults files.new) name.now)) }
    ensures off { IfErr result (λ stop. Told (F.holds files.old) (F.holds files.new)
        (SortCutOff order.now order.key (faults_told (status_of_stop stop)) (F.faults files.old)
        (F.faults files.new) name.now)) }
    ensures sink { IfErr result (λ stop. stop ≢ Stop.Sink) }
    ensures cause { HasCause Stop.File (F.faults files.old) (F.faults files.new) result }
{
    match sort_records(alloc, files, name, order.key, order.now) {
        Ok(report) => {
            let line = success_line(alloc, options, name, order.key, report)?;
            Ok((Status::Ok, line))
        }
        Err(fault) => not_ordered(alloc, name, order.key, fault),
    }
}

// The line on a table whose rows were sorted, where such a line is wanted.
fn success_line(
    alloc: Global,
    options: &Options,
    name: &str,
    key: u8,
    report: Report,
) -> Result<String, AllocError>
    ensures { IfOk result (λ line. string_bytes line
        ≡ unless_silent options.now.silent (spec.sorted_line name.now key report)) }
{
    if options.silent {
        Ok(String::new(alloc))
    } else {
        sorted_line(alloc, name, key, report)
    }
}
