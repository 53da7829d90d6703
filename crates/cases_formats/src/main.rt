//! Stored cases of keys, definitions, states and lists of tables: calls, read from standard input, and what they answer.
//!
//! `docs/CASES.md` has the grammar of the lines, which `case_lines` reads. Each module has one function a
//! call, and the table of its calls in `answer`. The stored input and output lie beside `src`.
#![tactic(auto)]

mod definitions;
mod keys;
mod lists;
mod states;

use case_lines::{Calls, Fault, Words};
use std::io;

/// The calls on keys, definitions, states and lists of tables.
struct TheCalls;

impl Calls for TheCalls {
    fn answer(&self, words: &Words, name: &str, args: &[&str]) -> Option<Result<String, Fault>> {
        if let Some(answer) = keys::answer(words, name, args) {
            return Some(answer);
        }
        if let Some(answer) = definitions::answer(words, name, args) {
            return Some(answer);
        }
        if let Some(answer) = lists::answer(words, name, args) {
            return Some(answer);
        }
        states::answer(words, name, args)
    }
}

fn main(rt: HostRuntime) -> io::Result<()> {
    case_lines::run(&rt, rt.alloc(), &TheCalls)
}
