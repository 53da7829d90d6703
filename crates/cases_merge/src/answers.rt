//! How the answers of calls on MERGE lists are written.
use case_lines::{Fault, push_word};
use myi_keycache::Counters;
use myi_merge::{MergeFault, MergeInsertFault};
use myi_pack::Row;
use myi_table::{ChangeFault, ReadFault};
use std::alloc::AllocError;

fn push_named(out: &mut String, word: &str, name: &str) -> Result<(), AllocError> {
    write!(out, "{word} {name}")
}

/// Writes why a list is not loaded.
pub fn push_merge_fault(out: &mut String, fault: &MergeFault) -> Result<(), Fault> {
    match fault {
        MergeFault::Absent { file } => push_named(out, "absent", file.as_str())?,
        MergeFault::List => out.push_str("no list")?,
        MergeFault::Differs { table } => push_named(out, "differs", table.as_str())?,
        MergeFault::Def { table, fault: _ } => push_named(out, "refused", table.as_str())?,
        MergeFault::Foreign { table } => push_named(out, "foreign", table.as_str())?,
        MergeFault::File => out.push_str("failed")?,
        MergeFault::Memory => return Err(Fault::Memory),
    }
    Ok(())
}

/// Writes names, each behind a space.
pub fn push_names(out: &mut String, names: &[String]) -> Result<(), Fault> {
    write!(out, "{} names", names.len())?;
    for name in names {
        write!(out, " {name}")?;
    }
    Ok(())
}

fn push_change_fault(out: &mut String, fault: ChangeFault) -> Result<(), Fault> {
    match fault {
        ChangeFault::Broken(_) => Ok(out.push_str("broken")?),
        ChangeFault::NoRow { at } => Ok(write!(out, "no row {at}")?),
        ChangeFault::Duplicate { key, at } => Ok(write!(out, "duplicate {key} {at}")?),
        ChangeFault::Full => Ok(out.push_str("full")?),
        ChangeFault::Damaged { at } => Ok(write!(out, "damaged {at}")?),
        ChangeFault::File => Ok(out.push_str("failed")?),
        ChangeFault::Memory => Err(Fault::Memory),
    }
}

/// Writes the number of the table and the position of a row that was inserted, or why it was not.
pub fn push_place(
    out: &mut String,
    answer: Result<(u32, u64), MergeInsertFault>,
) -> Result<(), Fault> {
    match answer {
        Ok((table, at)) => Ok(write!(out, "{table}:{at}")?),
        Err(MergeInsertFault::NoInsertMethod) => Ok(out.push_str("no method")?),
        Err(MergeInsertFault::Change(fault)) => push_change_fault(out, fault),
    }
}

/// Writes how a list was closed.
pub fn push_done(out: &mut String, answer: Result<(), ChangeFault>) -> Result<(), Fault> {
    match answer {
        Ok(()) => Ok(out.push_str("ok")?),
        Err(fault) => push_change_fault(out, fault),
    }
}

fn push_read_fault(out: &mut String, fault: ReadFault) -> Result<(), Fault> {
    match fault {
        ReadFault::Broken(_) => Ok(out.push_str("broken")?),
        ReadFault::Damaged { at } => Ok(write!(out, "damaged {at}")?),
        ReadFault::File => Ok(out.push_str("failed")?),
        ReadFault::Memory => Err(Fault::Memory),
    }
}

// The number of the table, the position of a row and its values, with commas between these.
fn push_row(out: &mut String, table: u32, at: u64, row: &Row) -> Result<(), Fault> {
    write!(out, "{table}:{at}")?;
    let mut before = ":";
    for value in row.as_slice() {
        out.push_str(before)?;
        push_word(out, value.as_slice())?;
        before = ",";
    }
    Ok(())
}

/// Writes the rows that were read, or why they were not.
pub fn push_rows(
    out: &mut String,
    answer: Result<Vec<(u32, u64, Row)>, ReadFault>,
) -> Result<(), Fault> {
    match answer {
        Ok(rows) => {
            write!(out, "{} rows", rows.len())?;
            for (table, at, row) in rows.iter() {
                out.push_str(" ")?;
                push_row(out, *table, *at, row)?;
            }
            Ok(())
        }
        Err(fault) => push_read_fault(out, fault),
    }
}

/// Writes what the key caches counted.
pub fn push_counters(out: &mut String, counters: Counters) -> Result<(), Fault> {
    write!(out, "{},{},", counters.read_requests, counters.reads)?;
    Ok(write!(out, "{},{}", counters.write_requests, counters.writes)?)
}
