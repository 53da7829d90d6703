//! Trees that are laid side by side, each key's by a worker on a thread of its own.
//!
//! `parallel_recover` repairs a table as `recover` of `myi_repair` does, with its clauses, but that the
//! trees are laid by `Workers`. It gathers the rows, has the trees laid, and completes the repair; no worker
//! touches a file.
//!
//! `lay_all` lays the trees of keys in memory (`KeyPairs`, `Laid` of `myi_btree`). The keys are dealt out
//! to the workers in turn (`specs/Dealing`); each worker sorts the pairs of its keys and lays their
//! pages, one key after the other. What is answered is the same for every number of workers.
//!
//! A `KeyGate` is told before and after each key, and may hold a worker up.
//!
//! ```
//! let workers = Workers {
//!     rt: host.rt,
//!     count: WORKERS,
//!     gate: &OpenGate,
//! };
//! parallel_recover(host.alloc, files, name, options.extend, now, &workers)
//! ```
//!
//! `crates/myisamkit/src/recover.rt` has it, and the case `kit` in
//! `crates/cases_runs/src/runs.rt` runs it.
#![tactic(auto)]

mod collecting;
mod dealing;
mod gate;
mod key_tree;
mod laying;
mod recovering;
mod workers;
mod working;

pub use gate::{KeyGate, OpenGate};
pub use myi_btree::{Laid, lay};
pub use recovering::{Workers, parallel_recover};
pub use workers::{KeyPairs, lay_all};
