//! How the answers of calls on tables are written.
use case_lines::{Fault, push_word};
use myi_pack::Row;
use myi_readers::SeenFault;
use myi_table::{ChangeFault, LoadFault, ReadFault};

fn push_fault(out: &mut String, fault: ChangeFault) -> Result<(), Fault> {
    match fault {
        ChangeFault::Broken(_) => Ok(out.push_str("broken")?),
        ChangeFault::NoRow { at } => Ok(write!(out, "no row {at}")?),
        ChangeFault::Duplicate { key, at } => Ok(write!(out, "duplicate {key} {at}")?),
        ChangeFault::Full => Ok(out.push_str("full")?),
        ChangeFault::Damaged { at } => Ok(write!(out, "damaged {at}")?),
        ChangeFault::File => Ok(out.push_str("failed")?),
        ChangeFault::Memory => Err(Fault::Memory),
    }
}

pub fn push_load_fault(out: &mut String, fault: LoadFault) -> Result<(), Fault> {
    match fault {
        LoadFault::Absent(_) => Ok(out.push_str("absent")?),
        LoadFault::Def(_) => Ok(out.push_str("refused")?),
        LoadFault::Foreign => Ok(out.push_str("foreign")?),
        LoadFault::File => Ok(out.push_str("failed")?),
        LoadFault::Memory => Err(Fault::Memory),
    }
}

pub fn push_place(out: &mut String, answer: Result<u64, ChangeFault>) -> Result<(), Fault> {
    match answer {
        Ok(at) => Ok(write!(out, "{at}")?),
        Err(fault) => push_fault(out, fault),
    }
}

pub fn push_done(out: &mut String, answer: Result<(), ChangeFault>) -> Result<(), Fault> {
    match answer {
        Ok(()) => Ok(out.push_str("ok")?),
        Err(fault) => push_fault(out, fault),
    }
}

pub fn push_read_fault(out: &mut String, fault: ReadFault) -> Result<(), Fault> {
    match fault {
        ReadFault::Broken(_) => Ok(out.push_str("broken")?),
        ReadFault::Damaged { at } => Ok(write!(out, "damaged {at}")?),
        ReadFault::File => Ok(out.push_str("failed")?),
        ReadFault::Memory => Err(Fault::Memory),
    }
}

/// The position of a row and its values, with commas between these.
pub fn push_row(out: &mut String, at: u64, row: &Row) -> Result<(), Fault> {
    write!(out, "{at}")?;
    let mut before = ":";
    for value in row.as_slice() {
        out.push_str(before)?;
        push_word(out, value.as_slice())?;
        before = ",";
    }
    Ok(())
}

// How many rows there are, and each of them.
fn push_all_rows(out: &mut String, rows: &[(u64, Row)]) -> Result<(), Fault> {
    write!(out, "{} rows", rows.len())?;
    for (at, row) in rows {
        out.push_str(" ")?;
        push_row(out, *at, row)?;
    }
    Ok(())
}

pub fn push_rows(
    out: &mut String,
    answer: Result<Vec<(u64, Row)>, ReadFault>,
) -> Result<(), Fault> {
    match answer {
        Ok(rows) => push_all_rows(out, rows.as_slice()),
        Err(fault) => push_read_fault(out, fault),
    }
}

pub fn push_seen(
    out: &mut String,
    answer: Result<Vec<(u64, Row)>, SeenFault>,
) -> Result<(), Fault> {
    match answer {
        Ok(rows) => push_all_rows(out, rows.as_slice()),
        Err(SeenFault::Damaged { at }) => Ok(write!(out, "damaged {at}")?),
        Err(SeenFault::File) => Ok(out.push_str("failed")?),
        Err(SeenFault::Memory) => Err(Fault::Memory),
    }
}
