//! The rows of a table's data file, in both formats, and the keys of a row.
//!
//! The model is in `specs/`: which rows of any bytes can be read and which deleted blocks are passed
//! (`Readable`), where a scan stands and what it has still to answer (`Scanning`), and the key of a row
//! (`Keys`).
//!
//! A `DataFile` stands for the data file of one table. Its `scan` makes a `DataScan`: `next_item`
//! answers rows and deleted blocks in order of their places, `next_row` the rows alone, and `blocks`
//! the blocks of the row answered last. The file is read through a window that slides forward; a row is
//! lent from there where it can be. `key_of` gives the key of a row that is viewed in its bytes, and
//! `key_code_into` the code of that key, into a buffer.
//! The laws over the definitions are in `laws`.
//!
//! ```
//! let mut scan = DataFile::new(alloc, NAME, &defs, &state)?.scan(extend)?;
//! while let Some((at, piece)) = scan.next_row(&mut files)? {
//!     push_row(&mut out, at, piece)?;
//! }
//! ```
//!
//! The case `scan_rows` in `crates/cases_tables/src/scans.rt` runs it, and tells a failed read.
#![tactic(auto)]

mod blocks;
mod data_file;
mod keys;
mod laws;
mod next_slot;
mod row_test;
mod scan;
mod slot_bytes;
mod slots;

pub use data_file::DataFile;
pub use keys::{key_code_into, key_of};
pub use laws::{
    giant_rows_stand, null_bits_tell, plain_tables_are_read, rows_are_readable, rows_have_keys,
    scans_begin_with_all, slots_are_read, stored_files_are_read,
};
pub use scan::DataScan;
