//! Making a table of rows, damaging every tenth row, and recovering it.
//!
//! `make_table` makes an empty table, inserts so many rows and closes it, as a program does that keeps its rows in a table
//! (`myi_table`); writes bytes FF over the block of every tenth row; repairs the table and checks it. A seed decides the
//! rows. It serves to try a disk, or an installation, on a table of which everything is known before.
//!
//! The model is in `specs/MadeTable`: the definitions that a creating text stands for, the rows of a seed, and the
//! damaged data file. `filling` makes and fills the table, `damage` writes over blocks. What is left is what a repair
//! leaves of exactly this data file (`Rattle.myi_repair.specs.Repaired`). `fault` says why a table is not made.
//!
//! ```
//! let made = make_table(alloc, files, "g", 1000, 7, now)?;
//! write!(out, "made 1000, damaged {}, recovered {}", made.damaged, made.report.kept)?;
//! ```
#![tactic(auto)]

mod damage;
mod fault;
mod filling;
mod laws;
mod make;
mod rows;

pub use fault::MakeFault;
pub use laws::{rows_are_short, the_text_says_the_table};
pub use make::{Made, make_table};
