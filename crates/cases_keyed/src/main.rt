//! Stored cases of tables with keys that change: calls, read from standard input, and what they answer.
//!
//! `docs/CASES.md` has the grammar of the lines, which `case_lines` reads. The module `tables` makes the calls on a
//! table, `walks` those on a reading of it, `sharing` those on a reader of one that is shared, and `answers` writes what they
//! answer. The stored input and output lie beside `src`.
#![tactic(auto)]

mod answers;
mod sharing;
mod tables;
mod walks;

use case_lines::{Calls, Fault, Words};
use std::io;

/// The calls on tables.
struct TheCalls;

impl Calls for TheCalls {
    fn answer(&self, words: &Words, name: &str, args: &[&str]) -> Option<Result<String, Fault>> {
        match name {
            "table" => Some(tables::table(words, args)),
            "share" => Some(sharing::share(words, args)),
            _ => None,
        }
    }
}

fn main(rt: HostRuntime) -> io::Result<()> {
    case_lines::run(&rt, rt.alloc(), &TheCalls)
}
