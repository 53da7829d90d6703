//! The tables of a run, one after the other.
ghost use Rattle.std.specs.Prelude.{◌≡◌, ◌≢◌, ◌+◌, ℕ, Err, IfOk, IfErr, OnOk, OnErr, IsTrue};
ghost use Rattle.myi_base.specs.Holding.{IfTold, Told};
ghost use Rattle.myi_base.specs.Causes.{HasCause};
ghost use Rattle.myisamkit.specs.Reading.{tables_named};
ghost use Rattle.myisamkit.specs.Statuses.{IsFault};
ghost use Rattle.myisamkit.specs.Turns.{MayFind};
ghost use Rattle.myisamkit.specs.Runs.{TablesEnd, TablesSaid, TablesSaidPart, TablesStop};

use crate::options::Options;
use crate::status::{Status, Stop};
use crate::turn::run_table;
use crate::words::{Names, table_name};
use myi_io::{Files, Sink};
use myi_shell::{Gate, Host};
use std::thread::Threads;

/// Gives each table that the words name its turn, and answers the greatest status.
pub(crate) fn run_tables<R: Threads + Sync, G: Gate, F: Files, O: Sink>(
    host: &Host<'_, R, G>,
    files: &mut F,
    out: &mut O,
    options: &Options,
    words: &[String],
    now: u64,
) -> Result<Status, Stop>
    requires { IsTrue F.writable }
    ensures said { IfOk result (λ s. IfTold (F.holds files.old) (TablesSaid options.now now
        (tables_named words.now) s (O.written out.old) (O.written out.new))) }
    ensures part { OnErr result (IfTold (F.holds files.old) (TablesSaidPart options.now now
        (tables_named words.now) (O.written out.old) (O.written out.new))) }
    ensures done { IfOk result (λ s. Told (F.holds files.old) (F.holds files.new)
        (TablesEnd options.now now (tables_named words.now) s)) }
    ensures stops { IfErr result (λ stop. Told (F.holds files.old) (F.holds files.new)
        (TablesStop options.now now (F.faults files.old) (F.faults files.new)
        (tables_named words.now) stop)) }
    ensures plain { IfOk result (λ s. IsFault s → ⊥) }
    ensures usage { IfOk result (λ s. s ≢ Status.Usage) }
    ensures findings { IfOk result (λ s. s ≡ Status.Findings → MayFind options.now) }
    ensures file { HasCause Stop.File (F.faults files.old) (F.faults files.new) result }
    ensures sink { HasCause Stop.Sink (O.faults out.old) (O.faults out.new) result }
{
    let mut status = Status::Ok;
    let mut names = Names::new();
    for word in words {
        let word = word.as_str();
        if !names.take(word) {
            continue;
        }
        let table = run_table(host, files, out, options, table_name(word), now)?;
        status = status.worse(table);
    }
    Ok(status)
}
