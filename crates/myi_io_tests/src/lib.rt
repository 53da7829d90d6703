//! Tests of files that need code: readers and gathered writes over files in memory, and a real folder.
//! Calls on files in memory are lines of the program `cases_indexes`.
#![tactic(auto)]

#[cfg(test)]
mod expect;
#[cfg(test)]
mod memory_files;
#[cfg(test)]
mod real_folder;
