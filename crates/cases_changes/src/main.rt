//! Stored cases of data files that change: calls, read from standard input, and what they answer.
//!
//! `docs/CASES.md` has the grammar of the lines, which `case_lines` reads. The modules `lists`, `blocks`,
//! `row_files` and `rows` have one call each, and the table of their calls in `answer`. The stored input and output lie beside `src`.
#![tactic(auto)]

mod blocks;
mod lists;
mod row_files;
mod rows;
mod tables;

use case_lines::{Calls, Fault, Words};
use std::io;

/// The calls on deleted lists, and on the rows of data files.
struct TheCalls;

impl Calls for TheCalls {
    fn answer(&self, words: &Words, name: &str, args: &[&str]) -> Option<Result<String, Fault>> {
        if let Some(answer) = lists::answer(words, name, args) {
            return Some(answer);
        }
        if let Some(answer) = blocks::answer(words, name, args) {
            return Some(answer);
        }
        if let Some(answer) = row_files::answer(words, name, args) {
            return Some(answer);
        }
        rows::answer(words, name, args)
    }
}

fn main(rt: HostRuntime) -> io::Result<()> {
    case_lines::run(&rt, rt.alloc(), &TheCalls)
}
