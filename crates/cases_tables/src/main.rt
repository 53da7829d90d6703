//! Stored cases of rows and scans: calls, read from standard input, and what they answer.
//!
//! `docs/CASES.md` has the grammar of the lines, which `case_lines` reads. Each module has one function a
//! call, and the table of its calls in `answer`. The stored input and output lie beside `src`.
#![tactic(auto)]

mod rows;
mod scans;

use case_lines::{Calls, Fault, Words};
use std::io;

/// The calls on rows and their keys, and scans of data files.
struct TheCalls;

impl Calls for TheCalls {
    fn answer(&self, words: &Words, name: &str, args: &[&str]) -> Option<Result<String, Fault>> {
        if let Some(answer) = rows::answer(words, name, args) {
            return Some(answer);
        }
        scans::answer(words, name, args)
    }
}

fn main(rt: HostRuntime) -> io::Result<()> {
    case_lines::run(&rt, rt.alloc(), &TheCalls)
}
