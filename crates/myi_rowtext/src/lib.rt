//! The text of a row, as dumps print it: its position in the data file, and each of its values in hexadecimal
//! digits.
//!
//! ```
//! let mut texts = RowTexts::new(alloc);
//! texts.push(&mut out, at, &row)?;
//! out.push(b'\n')?;
//! ```
#![tactic(auto)]

mod row_texts;

pub use row_texts::RowTexts;
