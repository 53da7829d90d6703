//! Stored cases of files, the key cache and lists of keys: calls, read from standard input, and what they answer.
//!
//! `docs/CASES.md` has the grammar of the lines, which `case_lines` reads. Each module has one function a
//! call, and the table of its calls in `answer`. The stored input and output lie beside `src`.
#![tactic(auto)]

mod caches;
mod files;
mod pairs;

use case_lines::{Calls, Fault, Words};
use std::io;

/// The calls on files and sinks in memory, the key cache and lists of keys.
struct TheCalls;

impl Calls for TheCalls {
    fn answer(&self, words: &Words, name: &str, args: &[&str]) -> Option<Result<String, Fault>> {
        if let Some(answer) = caches::answer(words, name, args) {
            return Some(answer);
        }
        if let Some(answer) = pairs::answer(words, name, args) {
            return Some(answer);
        }
        files::answer(words, name, args)
    }
}

fn main(rt: HostRuntime) -> io::Result<()> {
    case_lines::run(&rt, rt.alloc(), &TheCalls)
}
