//! Each file call of a call on a data file failing in turn: the call answers `File`, the numbers stay, and a repair leaves a
//! table in which a check finds nothing.
ghost use Rattle.std.specs.Prelude.{IsTrue};
ghost use Rattle.myi_pack.specs.Spelling.{fits};

use crate::pairs::{
    DATA, FORMS, Form, MOST_CALLS, ROWS, Rows, can_be_repaired, files, filled, row,
};
use case_lines::Untold;
use myi_defs::{definitions_are_sound, read_defs};
use myi_header::stored_state;
use myi_io::Files;
use myi_pack::Row;
use myi_rows::RowFile;
use myi_slots::DataFault;
use std::alloc::Global;
use std::process::Abort;
use std::test::Fail;

/// A call on a data file of some rows.
#[derive(Clone, Copy, Debug, PartialEq, Eq)]
enum Call {
    Insert,
    InsertAtEnd,
    /// Of the first row, by one of another length.
    Update,
    /// Of the first row.
    Delete,
    /// Of the first row.
    Read,
}

const CALLS: [Call; 5] = [
    Call::Insert,
    Call::InsertAtEnd,
    Call::Update,
    Call::Delete,
    Call::Read,
];

// Makes a call on such a data file.
fn make(
    file: &mut RowFile,
    files: &mut Untold,
    new: &Row,
    first: u64,
    call: Call,
) -> Result<(), DataFault>
    requires { IsTrue (fits file.old.file.defs new.now) }
{
    match call {
        Call::Insert => file.insert(files, new).map(|_| ()),
        Call::InsertAtEnd => file.insert_at_end(files, new).map(|_| ()),
        Call::Update => file.update_at(files, first, new),
        Call::Delete => file.delete_at(files, first),
        Call::Read => file.read_at(files, first).map(|_| ()),
    }
}

// Makes a call on a data file where the file call of this number fails, if there is such a one: whether there is.
fn fails_well<R: Abort>(
    rt: &R,
    alloc: Global,
    form: &Form,
    rows: &Rows,
    called: (Call, u64),
) -> Result<bool, Fail> {
    definitions_are_sound();
    let (call, number) = called;
    let defs = read_defs(alloc, &rows.pair.index)?;
    let state = stored_state(alloc, &defs)?;
    let new = row(alloc, &defs, form, ROWS + 4)?;
    let mut files = files(alloc, &rows.pair, &[number])?;
    let mut file = RowFile::new(alloc, DATA, &defs, &state)?;
    let counts = file.counts();
    let made = make(&mut file, &mut files, &new, rows.first, call);
    if files.fault_count() == 0 {
        assert_eq!(rt; made, Ok(()), "without a fault {called:?}");
        return Ok(false);
    }
    assert_eq!(rt; made, Err(DataFault::File), "at {called:?}");
    assert_eq!(rt; file.counts(), counts, "at {called:?}");
    can_be_repaired(rt, alloc, &mut files, called)?;
    Ok(true)
}

// Each file call of a call fails in turn.
fn each_call_fails_well<R: Abort>(
    rt: &R,
    alloc: Global,
    form: &Form,
    rows: &Rows,
    call: Call,
) -> Result<(), Fail> {
    for number in 1..=MOST_CALLS {
        if !fails_well(rt, alloc, form, rows, (call, number))? {
            assert!(rt; number > 1, "{call:?} makes no call");
            return Ok(());
        }
    }
    assert!(rt; false, "more calls than expected");
    Ok(())
}

#[test]
fn a_data_file_keeps_its_numbers_where_a_call_fails(rt: HostRuntime) -> Result<(), Fail> {
    let alloc = rt.alloc();
    for form in &FORMS {
        let rows = filled(alloc, form)?;
        for call in CALLS {
            each_call_fails_well(&rt, alloc, form, &rows, call)?;
        }
    }
    Ok(())
}
