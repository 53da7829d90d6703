//! Scripts of sessions that are run on a table, or on the tables of a MERGE list.
//!
//! `run_script` runs a script, round by round under the table's locks (`myi_locks`), on a table
//! (`myi_table`) or a list (`myi_merge`), prints what its steps say, and closes the tables. The
//! rounds, the changes that the table accepts, and the text are those that `myi_history` defines:
//! what is printed is the script's text, with the numbers of reads and counters within their
//! bounds.
//!
//! In a round of kind Together on a table each session's run goes on a thread of its own
//! (`myi_rounds`), while the table is shared. What a fault of a reader object, or want of memory
//! there, leaves undone the calling thread does behind them, inserts first. It does all other
//! rounds, those of one run, and those on a list, in which the reads of all sessions go first.
//! Callers may rely on the bounds of the numbers alone. A session that holds READ or READ LOCAL
//! sees the rows that stood below the length that the data file had when it took the lock.
//!
//! - `ScriptRun` (`script_run.rt`): the locks, the number of changes, and what the sessions' locks
//!   see; its methods do one step, one run and one round.
//! - `beside.rt`: rounds whose runs go side by side.
//! - `reading.rt`, `changes.rt`: statements that read and that change.
//! - `Target` (`target.rt`): a table or a list, for what is the same on both.
//! - `laws.rt`: scripts of tables that are alike.
//!
//! ```
//! let script = myi_script::parse_script(alloc, text, table.defs(), false)?;
//! let host = Host { rt, alloc, gate: &OpenGate };
//! run_script(&host, Target::One(table), &script, 1, files, out)?;
//! ```
#![tactic(auto)]

mod beside;
mod changes;
mod fault;
mod laws;
mod reading;
mod run;
mod script_run;
mod target;

pub use fault::ShellFault;
pub use laws::scripts_run_on_like_tables;
pub use myi_rounds::{Gate, Host, OpenGate};
pub use run::run_script;
pub use target::Target;
