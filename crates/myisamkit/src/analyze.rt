//! The turn of a table that is analyzed.
ghost use Rattle.std.specs.Prelude.{◌≡◌, ◌≢◌, string_bytes, IfOk, IfErr, OnOk, OnErr, IsTrue};
ghost use Rattle.myi_base.specs.Holding.{IfTold, Told};
ghost use Rattle.myi_base.specs.Output.{Appends, AppendsPart};
ghost use Rattle.myi_base.specs.Causes.{HasCause};
ghost use Rattle.myisamkit.specs.Stops.{status_of_stop};
ghost use Rattle.myisamkit.specs.Statuses.{IsFault, faults_told};
ghost use Rattle.myisamkit.specs.Lines as spec;
ghost use Rattle.myisamkit.specs.Turns.{analyze_turn, unless_silent};
ghost use Rattle.myisamkit.specs.Turns.{AnalyzeDone, AnalyzeCutOff, AnalyzeStops};

use crate::lines::analyzed_lines;
use crate::options::Options;
use crate::ordering::not_ordered;
use crate::say::say;
use crate::status::{Status, Stop};
use myi_io::{Files, Sink};
use myi_order::{KeyParts, analyze};
use std::alloc::{AllocError, Global};

/// Analyzes a table, if nothing is wrong with it, and says how many rows go to the prefixes of its keys.
pub(crate) fn analyze_table<F: Files, O: Sink>(
    alloc: Global,
    files: &mut F,
    out: &mut O,
    options: &Options,
    name: &str,
) -> Result<Status, Stop>
    requires { IsTrue F.writable }
    ensures status { IfOk result (λ s. IfTold (F.holds files.old) (λ m.
        s ≡ (analyze_turn options.now name.now m).status)) }
    ensures said { OnOk result (IfTold (F.holds files.old) (λ m. IfTold (O.written out.old)
        (Appends (analyze_turn options.now name.now m).text (O.written out.new)))) }
    ensures part { OnErr result (IfTold (F.holds files.old) (λ m. IfTold (O.written out.old)
        (AppendsPart (analyze_turn options.now name.now m).text (O.written out.new)))) }
    ensures done { OnOk result (Told (F.holds files.old) (F.holds files.new)
        (AnalyzeDone options.now name.now)) }
    ensures stops { IfErr result (λ stop. Told (F.holds files.old) (F.holds files.new)
        (AnalyzeStops options.now (F.faults files.old) (F.faults files.new) name.now stop)) }
    ensures plain { IfOk result (λ s. IsFault s → ⊥) }
    ensures usage { IfOk result (λ s. s ≢ Status.Usage) }
    ensures file { HasCause Stop.File (F.faults files.old) (F.faults files.new) result }
    ensures sink { HasCause Stop.Sink (O.faults out.old) (O.faults out.new) result }
{
    let (status, text) = analyze_and_tell(alloc, files, options, name)?;
    say(out, text.as_str())?;
    Ok(status)
}

// Analyzes a table, if nothing is wrong with it, and answers the status and the lines.
fn analyze_and_tell<F: Files>(
    alloc: Global,
    files: &mut F,
    options: &Options,
    name: &str,
) -> Result<(Status, String), Stop>
    requires { IsTrue F.writable }
    ensures said { IfOk result (λ r. IfTold (F.holds files.old) (λ m.
        string_bytes r.1 ≡ (analyze_turn options.now name.now m).text)) }
    ensures status { IfOk result (λ r. IfTold (F.holds files.old) (λ m.
        r.0 ≡ (analyze_turn options.now name.now m).status)) }
    ensures plain { IfOk result (λ r. IsFault r.0 → ⊥) }
    ensures usage { IfOk result (λ r. r.0 ≢ Status.Usage) }
    ensures done { OnOk result (Told (F.holds files.old) (F.holds files.new)
        (AnalyzeDone options.now name.now)) }
    ensures off { IfErr result (λ stop. Told (F.holds files.old) (F.holds files.new)
        (AnalyzeCutOff options.now (faults_told (status_of_stop stop)) (F.faults files.old)
        (F.faults files.new) name.now)) }
    ensures sink { IfErr result (λ stop. stop ≢ Stop.Sink) }
    ensures cause { HasCause Stop.File (F.faults files.old) (F.faults files.new) result }
{
    match analyze(alloc, files, name) {
        Ok(parts) => {
            let text = success_lines(alloc, options, name, &parts)?;
            Ok((Status::Ok, text))
        }
        Err(fault) => not_ordered(alloc, name, 0, fault),
    }
}

// The lines on a table that was analyzed, where such lines are wanted.
fn success_lines(
    alloc: Global,
    options: &Options,
    name: &str,
    parts: &[KeyParts],
) -> Result<String, AllocError>
    ensures { IfOk result (λ text. string_bytes text
        ≡ unless_silent options.now.silent (spec.analyzed_lines name.now parts.now)) }
{
    if options.silent {
        Ok(String::new(alloc))
    } else {
        analyzed_lines(alloc, name, parts)
    }
}
