//! Stored cases of the trees of an index: calls, read from standard input, and what they answer.
//!
//! `docs/CASES.md` has the grammar of the lines, which `case_lines` reads. Each module has one function a
//! call, and the table of its calls in `answer`. The stored input and output lie beside `src`.
#![tactic(auto)]

mod changes;
mod copies;
mod keytrees;
mod searches;
mod trees;

use case_lines::{Calls, Fault, Words};
use std::io;

/// The calls on trees: built, walked, copied, searched and changed.
struct TheCalls;

impl Calls for TheCalls {
    fn answer(&self, words: &Words, name: &str, args: &[&str]) -> Option<Result<String, Fault>> {
        if let Some(answer) = trees::answer(words, name, args) {
            return Some(answer);
        }
        if let Some(answer) = copies::answer(words, name, args) {
            return Some(answer);
        }
        if let Some(answer) = searches::answer(words, name, args) {
            return Some(answer);
        }
        if let Some(answer) = keytrees::answer(words, name, args) {
            return Some(answer);
        }
        changes::answer(words, name, args)
    }
}

fn main(rt: HostRuntime) -> io::Result<()> {
    case_lines::run(&rt, rt.alloc(), &TheCalls)
}
