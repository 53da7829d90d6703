//! Dumping the rows of a table: a line each, in the order of the data file.
//!
//! `dump_rows` reads the data file once through a window, and writes the lines in pieces; neither
//! the file nor the text is held whole. What a line says is `row_text` of
//! `Rattle.myi_rowtext.specs.RowText`.
#![tactic(auto)]

mod fault;
mod line_buffer;
mod row_lines;

pub use fault::DumpFault;
pub use row_lines::dump_rows;
