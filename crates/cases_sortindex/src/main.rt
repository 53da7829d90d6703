//! Stored cases of index files whose pages are sorted: calls, read from standard input, and what they answer.
//!
//! `docs/CASES.md` has the grammar of the lines, which `case_lines` reads. The stored input and output lie beside
//! `src`.
#![tactic(auto)]

mod sorts;

use case_lines::{Calls, Fault, Words};
use std::io;

/// The one call.
struct TheCalls;

impl Calls for TheCalls {
    fn answer(&self, words: &Words, name: &str, args: &[&str]) -> Option<Result<String, Fault>> {
        match name {
            "sort_index" => Some(sorts::sorted(words, args)),
            _ => None,
        }
    }
}

fn main(rt: HostRuntime) -> io::Result<()> {
    case_lines::run(&rt, rt.alloc(), &TheCalls)
}
