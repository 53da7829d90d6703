//! The state of a table, as the header of its index file keeps it, and the mark.
//!
//! The state stands between the first 24 bytes of the header and its base section: counts of rows and
//! of deleted blocks, the lengths of both files, the root of each key's tree, and bytes that are kept
//! as they are. An index file that this project wrote carries a mark in the last six bytes of the base
//! section; a file without it is foreign. `read_state` reads the state of a marked file, `print_state`
//! writes the header with a state and the mark, and `first_page` is the place behind it at which the
//! first page of a tree stands. What the file says of the last analysis is read by `changed_bits`,
//! `rows_counted` and `part_number`, and `new_numbers` gives the bytes that an analysis writes.
//!
//! ```
//! match read_state(alloc, &defs, &bytes) {
//!     Ok(state) => write!(out, "{} {}", state.records, state.data_file_length)?,
//!     Err(StateFault::Memory) => return Err(Fault::Memory),
//!     Err(fault) => write!(out, "{fault}")?,
//! }
//! ```
//!
//! The case `state` in `crates/cases_formats/src/states.rt` runs it.
#![tactic(auto)]

mod analysis;
mod laws;
mod print;
mod read;
mod state;

pub use analysis::{
    ANEW_BITS, CHANGED_PLACE, NOT_ANALYZED, NOT_SORTED_PAGES, NewNumbers, changed_bits,
    new_numbers, part_number, rows_counted,
};
pub use laws::{
    empty_tables_are_empty, headers_read_back, numbers_read_back, states_rest_on_the_header,
};
pub use myi_defs::MARK;
pub use print::print_state;
pub use read::{read_state, stored_state};
pub use state::{State, StateFault, first_page};
