//! Stored cases of scripts that are run on a table: calls, read from standard input, and what they
//! answer.
//!
//! `docs/CASES.md` has the grammar of the lines, whose words `case_lines` reads. `lines` answers
//! each line, `tables` makes the tables that scripts begin on and shows what they leave, `scripts`
//! runs a script on one, and `answers` writes what was printed and how a run ended. The stored
//! input and output lie beside `src`.
#![tactic(auto)]

mod answers;
mod lines;
mod scripts;
mod tables;

use std::io;

fn main(rt: HostRuntime) -> io::Result<()> {
    lines::run(&rt, rt.alloc())
}
