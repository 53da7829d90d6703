//! Creating texts: what a user writes to have a table made.
//!
//! A text is lines of words, which say the row format, the bytes of a row pointer, the fields, and the keys with
//! their segments. The grammar (`specs/Grammar`) says of which table lines speak, and `specs/TextHeader` which
//! header stands for them. `parse_text` answers the definitions that are read of that header, so that a
//! text is refused exactly as its header is.
//!
//! ```
//! match parse_text(alloc, &text) {
//!     Ok(defs) => print_defs(alloc, &defs)?,
//!     Err(TextFault::Line(number)) => write!(out, "line {number} of the text is wrong")?,
//!     Err(fault) => write!(out, "{fault}")?,
//! }
//! ```
//!
//! The case `text` in `crates/cases_formats/src/definitions.rt` runs it.
#![tactic(auto)]

mod laws;
mod parse;
mod text;
mod text_header;

pub use laws::{headers_say_the_table, texts_are_read_by_the_grammar, texts_describe_one_table};
pub use parse::{TextFault, parse_text};
