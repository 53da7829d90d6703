//! The turn of a table, in each mode.
ghost use Rattle.std.specs.Prelude.{◌≡◌, ◌≢◌, ℕ, IfOk, IfErr, OnOk, OnErr, IsTrue};
ghost use Rattle.myi_base.specs.Holding.{IfTold, Told};
ghost use Rattle.myi_base.specs.Output.{Appends, AppendsPart};
ghost use Rattle.myi_base.specs.Causes.{HasCause};
ghost use Rattle.myisamkit.specs.Statuses.{IsFault};
ghost use Rattle.myisamkit.specs.Turns.{turn, MayFind, TurnDone, TurnStops};

use crate::analyze::analyze_table;
use crate::check::check_table;
use crate::describe::describe_table;
use crate::options::{Mode, Options};
use crate::recover::recover_table;
use crate::sort::{Order, sort_table};
use crate::sort_index::sort_index_table;
use crate::status::{Status, Stop};
use myi_io::{Files, Sink};
use myi_shell::{Gate, Host};
use std::thread::Threads;

/// Gives a table its turn.
#[tactic(auto, unfolding(crate::specs::Turns::turn, crate::specs::Turns::TurnDone, crate::specs::Turns::CutsTurnOff, crate::specs::Turns::FailsInTurn))]
pub(crate) fn run_table<R: Threads + Sync, G: Gate, F: Files, O: Sink>(
    host: &Host<'_, R, G>,
    files: &mut F,
    out: &mut O,
    options: &Options,
    name: &str,
    now: u64,
) -> Result<Status, Stop>
    requires { IsTrue F.writable }
    ensures status { IfOk result (λ s. IfTold (F.holds files.old) (λ m.
        s ≡ (turn options.now now name.now m).status)) }
    ensures said { OnOk result (IfTold (F.holds files.old) (λ m. IfTold (O.written out.old)
        (Appends (turn options.now now name.now m).text (O.written out.new)))) }
    ensures part { OnErr result (IfTold (F.holds files.old) (λ m. IfTold (O.written out.old)
        (AppendsPart (turn options.now now name.now m).text (O.written out.new)))) }
    ensures done { OnOk result (Told (F.holds files.old) (F.holds files.new)
        (TurnDone options.now now name.now)) }
    ensures stops { IfErr result (λ stop. Told (F.holds files.old) (F.holds files.new)
        (TurnStops options.now now (F.faults files.old) (F.faults files.new) name.now stop)) }
    ensures plain { IfOk result (λ s. IsFault s → ⊥) }
    ensures usage { IfOk result (λ s. s ≢ Status.Usage) }
    ensures findings { IfOk result (λ s. s ≡ Status.Findings → MayFind options.now) }
    ensures file { HasCause Stop.File (F.faults files.old) (F.faults files.new) result }
    ensures sink { HasCause Stop.Sink (O.faults out.old) (O.faults out.new) result }
{
    match options.mode {
        Mode::Recover { .. } => recover_table(host, files, out, options, name, now),
        Mode::Describe => describe_table(host.alloc, files, out, options, name),
        Mode::Analyze => analyze_table(host.alloc, files, out, options, name),
        Mode::Sort { key } => {
            let order = Order { key, now };
            sort_table(host.alloc, files, out, options, name, order)
        }
        Mode::SortIndex => sort_index_table(host.alloc, files, out, options, name),
        Mode::Check => check_table(host, files, out, options, name, now),
    }
}
