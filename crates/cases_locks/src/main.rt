//! Stored cases of table locks and of scripts: calls, read from standard input, and what they answer.
//!
//! `docs/CASES.md` has the grammar of the lines, which `case_lines` reads. Each module has one function a
//! call, and the table of its calls in `answer`. The stored input and output lie beside `src`.
#![tactic(auto)]

mod rounds;
mod scripts;

use case_lines::{Calls, Fault, Words};
use std::io;

/// The calls on scripts, and on the rounds of sessions under table locks.
struct TheCalls;

impl Calls for TheCalls {
    fn answer(&self, words: &Words, name: &str, args: &[&str]) -> Option<Result<String, Fault>> {
        if let Some(answer) = rounds::answer(words, name, args) {
            return Some(answer);
        }
        scripts::answer(words, name, args)
    }
}

fn main(rt: HostRuntime) -> io::Result<()> {
    case_lines::run(&rt, rt.alloc(), &TheCalls)
}
