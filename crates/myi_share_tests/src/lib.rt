//! Tests of a table that is shared: what an inserter and readers on threads see of each other, and that there is an answer where
//! there is memory.
//!
//! A test on threads makes a list of jobs (`job`), one for the inserter and one for each reader, and runs it by halves (`run`);
//! `round` shares the table and takes it back. `jobs` does a round of a script so. `rows` has the table and its rows. Nothing is told of the files, as of a disk's.
#![tactic(auto)]

mod job;
mod jobs;
mod round;
mod rows;
mod run;
#[cfg(test)]
mod tests;

pub use job::{Job, Put, Read};
pub use jobs::{Said, run_script_round};
pub use round::{Round, run_round};
pub use rows::{NAME, SETUP, TEXT, number_of, row_of};
pub use run::run_all;
