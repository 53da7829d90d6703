//! Stored cases of MERGE lists: calls, read from standard input, and what they answer.
//!
//! `docs/CASES.md` has the grammar of the lines, which `case_lines` reads. The module `lists` makes the calls on a list,
//! and `answers` writes what they answer. The stored input and output lie beside `src`.
#![tactic(auto)]

mod answers;
mod lists;

use case_lines::{Calls, Fault, Words};
use std::io;

/// The calls on MERGE lists.
struct TheCalls;

impl Calls for TheCalls {
    fn answer(&self, words: &Words, name: &str, args: &[&str]) -> Option<Result<String, Fault>> {
        match name {
            "members" => Some(lists::members(words, args)),
            "merge" => Some(lists::merge(words, args)),
            _ => None,
        }
    }
}

fn main(rt: HostRuntime) -> io::Result<()> {
    case_lines::run(&rt, rt.alloc(), &TheCalls)
}
