//! The bytes of a row: packed, as in the blocks of a dynamic table, or in a slot of a static one.
//!
//! A row is one value for each field. The model of a row's bytes is the relation `Packs` of
//! `specs/Packed`: field by field, which bytes stand for which value. No bytes pack two rows, but a row
//! may have several packings; the one that is written is its `spelling`, and none is shorter.
//!
//! `view` finds the row in its bytes and takes no memory (`view_packed` where they are known to pack one):
//! a `RowView` lends each field as a slice of the bytes, one by one (`fields`) or by its number (`field`,
//! and for several `numbered`, with a buffer that may serve for many rows). `unpack` copies the row that is viewed, and `value_of` one field of it, or `value_into`
//! into a buffer. `fits` decides whether a row has the form that the definitions of the table ask for,
//! and `pack` writes the spelling of such a row, or `spell_into` that of a row that is viewed, into a
//! buffer. The laws over the definitions are in `laws`.
//!
//! ```
//! match view(&defs, &bytes) {
//!     None => out.push_str("none")?,
//!     Some(row) => {
//!         for value in unpack(alloc, &row)?.as_slice() {
//!             push_word(&mut out, value.as_slice())?;
//!         }
//!     }
//! }
//! ```
//!
//! The case `view` in `crates/cases_tables/src/rows.rt` runs it.
#![tactic(auto)]

mod fields;
mod laws;
mod packing;
mod places;
mod row;
mod spell;
mod values;

pub use fields::FieldView;
pub use laws::{packings_are_read, shorter_forms_win, spellings_are_shortest, views_go_on};
pub use packing::{fits, pack};
pub use places::FieldPlaces;
pub use row::{NumberedFields, RowFields, RowView, view, view_packed};
pub use spell::spell_into;
pub use values::{Row, Value, unpack, value_into, value_of};
