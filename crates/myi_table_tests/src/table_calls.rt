//! Each file call of a call on a table failing in turn: the table is broken then, and a repair of its files leaves a table
//! in which a check finds nothing.
use crate::pairs::{
    FORMS, Form, MOST_CALLS, NAME, ROWS, Rows, SETUP, can_be_repaired, files, filled, pair_of, row,
};
use case_lines::Untold;
use myi_check::check;
use myi_io::Files;
use myi_table::{Cause, ChangeFault, LoadFault, ReadFault, Table};
use std::alloc::Global;
use std::process::Abort;
use std::test::Fail;

/// A call on a table of some rows.
#[derive(Clone, Copy, Debug, PartialEq, Eq)]
enum Call {
    Insert,
    InsertAtEnd,
    /// Of the first row, by one of another length.
    Update,
    /// Of the first row.
    Delete,
    /// Behind an insert, whose pages it writes.
    Flush,
    Scan,
}

const CALLS: [Call; 6] = [
    Call::Insert,
    Call::InsertAtEnd,
    Call::Update,
    Call::Delete,
    Call::Flush,
    Call::Scan,
];

/// Where a run was cut off.
#[derive(Clone, Copy, Debug, PartialEq, Eq)]
enum Cut {
    /// While the table was loaded.
    Loading,
    /// In a change, which broke the table.
    Change,
    /// In a flush or a reading, after which the table is as before.
    Other,
    /// While it was closed.
    Closing,
    Nowhere,
}

// Makes a call on such a table.
fn make(
    alloc: Global,
    table: &mut Table,
    files: &mut Untold,
    form: &Form,
    first: u64,
    call: Call,
) -> Result<Result<(), ChangeFault>, Fail> {
    let new = row(alloc, table.defs(), form, ROWS + 4)?;
    Ok(match call {
        Call::Insert => table.insert(files, &new).map(|_| ()),
        Call::InsertAtEnd => table.insert_at_end(files, &new).map(|_| ()),
        Call::Update => table.update(files, first, &new),
        Call::Delete => table.delete(files, first),
        Call::Flush => match table.insert(files, &new) {
            Ok(_) if table.broken().is_none() => table.flush(files),
            Ok(_) => Ok(()),
            Err(fault) => Err(fault),
        },
        Call::Scan => table.scan(files).map(|_| ()).map_err(of_reading),
    })
}

// A fault of a reading as one of a change.
fn of_reading(fault: ReadFault) -> ChangeFault {
    match fault {
        ReadFault::Broken(cause) => ChangeFault::Broken(cause),
        ReadFault::Damaged { at } => ChangeFault::Damaged { at },
        ReadFault::File => ChangeFault::File,
        ReadFault::Memory => ChangeFault::Memory,
    }
}

// A table that a fault cut off refuses what comes then, changes no file, and what it left can be repaired.
fn breaks<R: Abort>(
    rt: &R,
    alloc: Global,
    files: &mut Untold,
    table: Table,
    form: &Form,
    called: (Call, u64),
) -> Result<(), Fail> {
    let mut table = table;
    let before = pair_of(alloc, files)?;
    let broken = ChangeFault::Broken(Cause::File(1));
    assert_eq!(rt; table.broken(), Some(Cause::File(1)), "at {called:?}");
    for call in [
        Call::Insert,
        Call::InsertAtEnd,
        Call::Update,
        Call::Delete,
        Call::Scan,
    ] {
        let refused = make(alloc, &mut table, files, form, 0, call)?;
        assert_eq!(rt; refused, Err(broken), "{call:?} after {called:?}");
    }
    assert_eq!(rt; table.close(files), Err(broken), "after {called:?}");
    let after = pair_of(alloc, files)?;
    assert!(rt; after.data == before.data, "after {called:?}");
    assert!(rt; after.index == before.index, "after {called:?}");
    can_be_repaired(rt, alloc, files, called)
}

// A table that is not broken by a fault is closed, and a check finds nothing in it.
fn closes<R: Abort>(
    rt: &R,
    alloc: Global,
    files: &mut Untold,
    table: Table,
    called: (Call, u64),
) -> Result<(), Fail> {
    assert_eq!(rt; table.broken(), None, "at {called:?}");
    assert_eq!(rt; table.close(files), Ok(()), "after {called:?}");
    let mut left = self::files(alloc, &pair_of(alloc, files)?, &[])?;
    let found = check(alloc, &mut left, NAME)?;
    assert!(rt; found.is_empty(), "after {called:?}");
    Ok(())
}

// Loads a table, makes a call on it and closes it, where the file call of this number fails, if there is such a one: where.
fn fails_well<R: Abort>(
    rt: &R,
    alloc: Global,
    form: &Form,
    rows: &Rows,
    called: (Call, u64),
) -> Result<Cut, Fail> {
    let (call, number) = called;
    let mut files = files(alloc, &rows.pair, &[number])?;
    let mut table = match Table::load(alloc, &mut files, NAME, SETUP) {
        Ok(table) => table,
        Err(fault) => {
            assert_eq!(rt; fault, LoadFault::File, "at {called:?}");
            return Ok(Cut::Loading);
        }
    };
    let made = make(alloc, &mut table, &mut files, form, rows.first, call)?;
    if files.fault_count() == 0 {
        assert_eq!(rt; made, Ok(()), "without a fault {called:?}");
        return ends(rt, alloc, &mut files, table, called);
    }
    assert_eq!(rt; made, Err(ChangeFault::File), "at {called:?}");
    if table.broken().is_some() {
        breaks(rt, alloc, &mut files, table, form, called)?;
        return Ok(Cut::Change);
    }
    closes(rt, alloc, &mut files, table, called)?;
    Ok(Cut::Other)
}

// Closes a table behind a call that was not cut off.
fn ends<R: Abort>(
    rt: &R,
    alloc: Global,
    files: &mut Untold,
    table: Table,
    called: (Call, u64),
) -> Result<Cut, Fail> {
    let closed = table.close(files);
    if files.fault_count() > 0 {
        assert_eq!(rt; closed, Err(ChangeFault::File), "at {called:?}");
        can_be_repaired(rt, alloc, files, called)?;
        return Ok(Cut::Closing);
    }
    assert_eq!(rt; closed, Ok(()), "without a fault {called:?}");
    let mut left = self::files(alloc, &pair_of(alloc, files)?, &[])?;
    let found = check(alloc, &mut left, NAME)?;
    assert!(rt; found.is_empty(), "without a fault {called:?}");
    Ok(Cut::Nowhere)
}

// Where the call itself is cut off, if it is.
fn cut_in(call: Call) -> Cut {
    match call {
        Call::Flush | Call::Scan => Cut::Other,
        _ => Cut::Change,
    }
}

// Each file call of loading, of a call and of closing fails in turn, some of the call itself among them.
fn each_call_fails_well<R: Abort>(
    rt: &R,
    alloc: Global,
    form: &Form,
    rows: &Rows,
    call: Call,
) -> Result<(), Fail> {
    let mut inside = 0u64;
    for number in 1..=MOST_CALLS {
        let cut = fails_well(rt, alloc, form, rows, (call, number))?;
        if cut == cut_in(call) {
            inside = inside.saturating_add(1);
        }
        if cut == Cut::Nowhere {
            assert!(rt;
                inside > 0 || makes_none(form, call),
                "{call:?} makes no file call"
            );
            return Ok(());
        }
    }
    assert!(rt; false, "more calls than expected");
    Ok(())
}

// Without keys there is nothing that a flush could write.
fn makes_none(form: &Form, call: Call) -> bool {
    call == Call::Flush && form.keys == 0
}

#[test]
fn a_table_is_broken_by_a_call_that_fails(rt: HostRuntime) -> Result<(), Fail> {
    let alloc = rt.alloc();
    for form in &FORMS {
        let rows = filled(alloc, form)?;
        for call in CALLS {
            each_call_fails_well(&rt, alloc, form, &rows, call)?;
        }
    }
    Ok(())
}
