//! Scripts of sessions on one table: the grammar, and how a text is read.
//!
//! A script is a text of lines. A line says which session (`S1` to `S9`) does what: it changes rows, reads
//! them, takes or gives up a lock of the table, asks for the numbers of the key cache, or ends. What is a
//! line is a relation of its text and its `Act` (`specs/Grammar`), over the table's definitions: a row has
//! a value for each field, a range has one for each segment of its key. The values themselves are in
//! `specs/Values`.
//!
//! `parse_script` answers the lines that do something, or the number of the first line that is not in the
//! grammar. That these are exactly what the grammar says is its contract; that no text says two things is
//! that of the functions in `laws`.
//!
//! ```
//! let script = parse_script(alloc, text, &defs, false)?;
//! for line in script.lines.as_slice() {
//!     push_line(&mut out, line)?;
//! }
//! ```
//!
//! The case `script` in `crates/cases_locks/src/scripts.rt` runs one like it.
#![tactic(auto)]

mod bound;
mod form;
mod laws;
mod script;
mod statement;
mod types;
mod value;
mod words;

pub use laws::{lines_say_one_thing, values_say_one_thing};
pub use script::parse_script;
pub use types::{Act, Line, Range, Script, ScriptFault};
