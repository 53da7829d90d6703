//! What the programs of stored cases share.
//!
//! A program of cases reads lines. Each line is one case: the name of a call, and its words. For each line
//! one line is written; `docs/CASES.md` has the grammar of both. `Words` reads words into numbers, bytes,
//! definitions and files, the module `spelled` writes what calls answer, `files` writes files in memory,
//! `Untold` is such files that tell nothing, and `run` answers each line by a program's `Calls`.
#![tactic(auto)]

mod files;
mod lines;
mod spelled;
mod untold;
mod words;

pub use files::{file_name, halves, push_file, push_files};
pub use lines::{Calls, run};
pub use spelled::{PlaceText, digest, push_word, word};
pub use untold::{Untold, UntoldReader};
pub use words::{
    Fault, Words, four_bytes, key_of_code, number, one_byte, place, sides, size, two_bytes,
    yes_or_no,
};
