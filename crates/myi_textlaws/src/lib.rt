//! What the definitions are that are read of a creating text.
//!
//! `myi_deftext` answers the definitions that are read of the header of a text, which is bytes. Here is what
//! follows for the definitions themselves: they have the rows, the row pointer, the fields and the keys that the
//! lines of the text say (`specs/Said`).
#![tactic(auto)]

mod laws;

pub use laws::definitions_are_said;
