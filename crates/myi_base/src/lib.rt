//! What every layer of Rithkoal cites, and nothing else.
//!
//! A MyISAM table is two files. The layers above speak of them as lists of bytes under names, and of
//! the bytes as numbers. So this crate defines, in `specs/`, numbers in bytes (`Numbers`, `Items`),
//! blanks at the end of a text (`Blanks`), ranges of bytes (`Ranges`), what files hold and how one call
//! changes it (`Holding`), when a fault may be told (`Causes`), and how the layer above tells it
//! (`HandsOn`). It has the few functions that read and write numbers, in `numbers`, and the laws over
//! these definitions that other crates build on, in `laws`.
//!
//! ```
//! let number = number_at(&bytes, at, width);
//! let place = pointer_of(number);
//! ```
//!
//! The case `number` in `crates/cases_blocks/src/numbers.rt` runs it.
#![tactic(auto)]

mod blanks;
mod laws;
mod numbers;
mod sequence;

pub use blanks::without_blanks;
pub use laws::{
    blanks_taken_off, bytes_in_parts, items_read_back, low_numbers_read_back, numbers_read_back,
    slices_are_bytes,
};
pub use numbers::{
    append_number, append_u8, append_u16, append_u32, append_u64, be, le, number_at,
    pointer_number, pointer_of, put_number, u8_at, u16_at, u32_at, u64_at,
};
pub use sequence::Sequence;
