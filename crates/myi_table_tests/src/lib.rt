//! Tests of tables, and of data files that change, that need code. Rows and vectors are lines of the programs of stored
//! cases.
//!
//! The module `pairs` makes the files of the tables that the tests begin with, `table_calls` makes each file call of a
//! call on a table fail in turn, and `row_calls` each of one on a data file. `readings` reads the rows again that were
//! put into a table.
#![tactic(auto)]

#[cfg(test)]
mod pairs;
#[cfg(test)]
mod readings;
#[cfg(test)]
mod row_calls;
#[cfg(test)]
mod table_calls;
