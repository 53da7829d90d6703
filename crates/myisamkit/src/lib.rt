//! The program `kit` as a library: from the words of a command line and files to the repaired files,
//! the printed lines and the status.
//!
//! `kit` is the top call. What the words ask for is a `Plan`: options, and the tables that the words
//! name. Each table has its turn (`turn.rt`), one after the other (`tables.rt`). What a turn and a whole
//! run say, answer and do is defined over what the files hold before (`Turns`, `Runs`), and the files
//! that a repair leaves over the bytes of the two files before it (`Rattle.myi_pair.specs`,
//! `RecoveredBytes` and `Recovered`), what a check finds over the same bytes (`Findings`); analysis
//! and sorting are those of `myi_order`, and the sorting of pages is that of `myi_sortindex`. The
//! commands are `chk`, `create`, `dump`, `make` and `shell`. A `Gate` of `myi_shell` is told of the
//! steps of a script.
//!
//! ```
//! let mut words = Vec::new(alloc);
//! for word in ["chk", "--recover", "a", "b"] {
//!     words.push(String::from_str(alloc, word)?)?;
//! }
//! let mut out = MemSink::new(alloc, Vec::new(alloc))?;
//! let status = kit(rt, alloc, &words, &mut files, &mut out, &OpenGate, MOMENT);
//! ```
//!
//! `crates/myi_tests/src/failing_calls.rt` runs it, over `MemFiles`.
#![tactic(auto)]

mod analyze;
mod check;
mod create;
mod describe;
mod description;
mod dump;
mod laws;
mod lines;
mod make;
mod numbers;
mod options;
mod ordering;
mod recover;
mod say;
mod shell;
mod shell_options;
mod shell_ready;
mod shell_text;
mod shell_words;
mod sort;
mod sort_index;
mod status;
mod tables;
mod top;
mod turn;
mod words;

pub use laws::{
    accepted_words_are_a_command, creating_words_are_a_command, dumping_words_are_a_command,
    making_words_are_a_command, refused_words_have_a_reason, shell_words_are_a_command,
};
pub use status::Status;
pub use top::kit;
