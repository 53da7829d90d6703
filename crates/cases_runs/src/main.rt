//! Stored cases of whole runs: calls, read from standard input, and what they answer.
//!
//! `docs/CASES.md` has the grammar of the lines, whose words `case_lines` reads. `lines` answers each line, and
//! `runs` has one function a call. The stored input and output lie beside `src`.
#![tactic(auto)]

mod lines;
mod runs;
mod short;

use std::io;

fn main(rt: HostRuntime) -> io::Result<()> {
    lines::run(&rt, rt.alloc())
}
