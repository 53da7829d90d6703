//! A reading of the rows of a key, between whose rows a table changes.
ghost use Rattle.std.specs.Prelude.{◌<◌, length};
ghost use Rattle.myi_table.specs.Table.{IsSame};
ghost use Rattle.myi_table.specs.Reading.{HasKey, IsSameReading};

use crate::answers::{push_done, push_read_fault, push_row};
use case_lines::{Fault, Untold};
use myi_ranges::RangeRows;
use myi_table::{Range, Table};
use std::alloc::Global;

/// The rows that are read: so many of them before the row at a position is deleted, and the others behind that.
#[derive(Drop)]
pub struct Walk {
    pub range: Range,
    pub most: u32,
    pub at: u64,
}

// Writes the next rows of a reading, at most so many, and answers whether it is at its end.
fn push_next(
    out: &mut String,
    files: &mut Untold,
    table: &mut Table,
    reading: &mut RangeRows,
    most: u32,
) -> Result<bool, Fault>
    requires key { HasKey table.old reading.old }
    ensures same { IsSame table.old table.new }
    ensures reading { IsSameReading reading.old reading.new }
{
    for _ in 0..most {
        match table.next_in_range(files, reading) {
            Ok(Some((at, row))) => push_row(out, at, &row)?,
            Ok(None) => return Ok(true),
            Err(fault) => {
                push_read_fault(out, fault)?;
                return Ok(true);
            }
        }
        out.push_str(" ")?;
    }
    Ok(false)
}

/// Reads the first rows, deletes a row, and reads the others.
pub fn push_walk(
    out: &mut String,
    alloc: Global,
    files: &mut Untold,
    table: &mut Table,
    walk: &Walk,
) -> Result<(), Fault>
    requires key { walk.now.range.key < length table.old.rows.trees.places }
{
    let mut reading = walk.range.begin(alloc)?;
    table.defs();
    if push_next(out, files, table, &mut reading, walk.most)? {
        out.push_str("end ")?;
    }
    push_done(out, table.delete(files, walk.at))?;
    out.push_str(" ")?;
    table.forget_ahead(&mut reading)?;
    table.defs();
    push_next(out, files, table, &mut reading, u32::MAX)?;
    Ok(out.push_str("end")?)
}
