//! The definitions of a table, as the header of its index file gives them.
//!
//! `Defs` says how the rows of a table stand in its data file and which keys the table has: the row
//! format, the fields, the keys with their segments, and the sizes. Nothing else of the index file is
//! looked at. The layout of the header is that of the MySQL Internals Manual, "The .MYI file".
//!
//! The model is the definition "read definitions" (`specs/ReadDefs`) over the bytes of an index file: the
//! first of fifteen numbered conditions that holds, or the definitions. `read_defs` answers it. `print_defs`
//! gives the header of an empty table with given definitions. `Defs::addressable` says which data files
//! row pointers reach, and `definitions_are_sound` is the law on which the crates above rest. `Front`,
//! `SegItem` and the constants are what a header is made of, for who prints one.
//!
//! ```
//! match read_defs(alloc, &bytes) {
//!     Ok(defs) => {
//!         for field in defs.fields.as_slice() {
//!             write!(out, " {:?}:{}:{}", field.kind, field.length, field.start)?;
//!         }
//!     }
//!     Err(DefFault::Memory) => return Err(Fault::Memory),
//!     Err(fault) => write!(out, "{fault}")?,
//! }
//! ```
//!
//! The case `defs` in `crates/cases_formats/src/definitions.rt` runs it.
#![tactic(auto)]

mod conditions;
mod header;
mod laws;
mod layout;
mod outline;
mod places;
mod print;
mod read;
mod types;

pub use conditions::seg_cost;
pub use header::{Front, SegItem};
pub use laws::{definitions_are_sound, definitions_rest_on_the_header, empty_tables_print_again};
pub use layout::{
    BASE_LENGTH, FRONT_LENGTH, Layout, MARK, MARK_PLACE, MOST_FIELDS, MOST_KEYS, MOST_SEGMENTS,
    ROOTS_PLACE, STATE_LENGTH, base_place, first_page_behind,
};
pub use print::{append_state, append_zeros, print_defs};
pub use read::read_defs;
pub use types::{DefFault, Defs, Field, FieldKind, Key, RowFormat, SegType, Segment};
