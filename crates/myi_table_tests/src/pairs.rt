//! The two files of the tables that the tests begin with, over files in memory of which nothing is told.
ghost use Rattle.std.specs.Prelude.{◌≡◌, true, IfOk};
ghost use Rattle.myi_defs.specs.ReadDefs.{AreDefs};
ghost use Rattle.myi_defs.specs.Sound.{IsSound};
ghost use Rattle.myi_pack.specs.Spelling.{fits};

use case_lines::Untold;
use myi_base::Sequence;
use myi_check::check;
use myi_defs::{Defs, definitions_are_sound, read_defs};
use myi_deftext::parse_text;
use myi_keycache::CacheSetup;
use myi_memfiles::MemFiles;
use myi_pack::{Row, Value, fits};
use myi_repair::recover;
use myi_table::Table;
use std::alloc::{AllocError, Global};
use std::fmt::Debug;
use std::process::Abort;
use std::test::Fail;

pub const MOMENT: u64 = 1_700_000_000;

/// More file calls than a call on one of these tables makes.
pub const MOST_CALLS: u64 = 100;

/// The name of each table, and the names of its files.
pub const NAME: &str = "t";

pub const DATA: &str = "t.MYD";

pub const INDEX: &str = "t.MYI";

/// A key cache of one page, so that a page of one key leaves it for one of another.
pub const SETUP: CacheSetup = CacheSetup {
    blocks: 1,
    division: 100,
    age: 300,
};

/// A table: its creating text, and values of rows of it, the keys of which differ.
pub struct Form {
    pub text: &'static [u8],
    /// How many keys it has.
    pub keys: usize,
    /// A row is these values, but for the second one, which is its number in four bytes.
    pub values: &'static [&'static [u8]],
}

// With two keys; without one; of dynamic rows with a text, of which a row is longer than what a deleted one leaves.
pub const FORMS: [Form; 3] = [
    Form {
        text: b"rows static\nfield normal 1\nfield normal 4\nfield normal 3\nkey unique\nseg long_int 1 4 0 0 0\nkey plain\nseg text 5 3 8 0 0\n",
        keys: 2,
        values: &[b"\xFF", b"\x01\0\0\0", b"abc"],
    },
    Form {
        text: b"rows static\nfield normal 1\nfield normal 4\nfield normal 3\n",
        keys: 0,
        values: &[b"\xFF", b"\x01\0\0\0", b"abc"],
    },
    Form {
        text: b"rows dynamic\nfield normal 1\nfield normal 4\nfield varchar 101\nkey unique\nseg long_int 1 4 0 0 0\nkey plain\nseg vartext 5 100 8 0 0\n",
        keys: 2,
        values: &[b"\xFE", b"\x01\0\0\0", b"abcdefghijklmnopqrstuvwxyz"],
    },
];

/// The two files of a table.
#[derive(Drop)]
pub struct Pair {
    pub index: Vec<u8>,
    pub data: Vec<u8>,
}

/// The files of a pair, of which the listed calls fail.
pub fn files(alloc: Global, pair: &Pair, fail: &[u64]) -> Result<Untold, AllocError> {
    let given = vec![in alloc;
        (
            String::from_str(alloc, INDEX)?,
            Vec::from_slice(alloc, &pair.index)?
        ),
        (
            String::from_str(alloc, DATA)?,
            Vec::from_slice(alloc, &pair.data)?
        ),
    ]?;
    let files = MemFiles::new(alloc, given, Vec::from_slice(alloc, fail)?)?;
    Ok(Untold { files })
}

/// The pair that these files hold.
pub fn pair_of(alloc: Global, files: &Untold) -> Result<Pair, AllocError> {
    Ok(Pair {
        index: Vec::from_slice(alloc, files.files.get(INDEX).unwrap_or(&[]))?,
        data: Vec::from_slice(alloc, files.files.get(DATA).unwrap_or(&[]))?,
    })
}

/// The row of that number; each third one is longer than the others where it may be.
pub fn row(alloc: Global, defs: &Defs, form: &Form, number: u8) -> Result<Row, Fail>
    requires { IsSound defs.now }
    ensures { IfOk result (λ row. fits defs.now row ≡ true) }
{
    let mut values: Vec<Value> = Vec::with_capacity(alloc, form.values.len())?;
    for (i, value) in form.values.iter().enumerate() {
        let mut bytes = Vec::from_slice(alloc, *value)?;
        if i == 1 {
            bytes.clear();
            bytes.extend_from_slice(&[number, 0, 0, 0])?;
        }
        if number % 3 == 0 && bytes.len() > 20 {
            bytes.extend_from_slice(*value)?;
            bytes.extend_from_slice(*value)?;
        }
        values.push(Sequence::new(bytes))?;
    }
    let row = Sequence::new(values);
    if fits(defs, &row) {
        Ok(row)
    } else {
        Err(Fail::new("the row does not fit"))
    }
}

/// The definitions of a table of this form.
pub fn definitions(alloc: Global, form: &Form) -> Result<Defs, Fail>
    ensures { IfOk result AreDefs }
{
    match parse_text(alloc, form.text) {
        Ok(defs) => Ok(defs),
        Err(fault) => Err(Fail::new(fault)),
    }
}

/// An empty table of this form.
pub fn empty_pair(alloc: Global, form: &Form) -> Result<Pair, Fail> {
    let defs = definitions(alloc, form)?;
    Ok(Pair {
        index: Vec::from_slice(alloc, defs.raw.as_slice())?,
        data: Vec::new(alloc),
    })
}

/// How many rows a table has; another one is deleted.
pub const ROWS: u8 = 5;

/// A table of rows, closed, and where its first row stands.
pub struct Rows {
    pub pair: Pair,
    pub first: u64,
}

impl Drop for Rows {
    fn drop(self) {
        let Rows { pair: _, first: _ } = self;
    }
}

/// A table of this form that was filled and closed without a fault; the row before the last was deleted.
pub fn filled(alloc: Global, form: &Form) -> Result<Rows, Fail> {
    let mut files = files(alloc, &empty_pair(alloc, form)?, &[])?;
    let mut table = Table::load(alloc, &mut files, NAME, SETUP)?;
    let mut places = Vec::new(alloc);
    for number in 1..=ROWS + 1 {
        let row = row(alloc, table.defs(), form, number)?;
        places.push(table.insert(&mut files, &row)?)?;
    }
    let [first, _, _, _, deleted, _] = places.as_slice() else {
        return Err(Fail::new("another number of rows"));
    };
    let (first, deleted) = (*first, *deleted);
    table.delete(&mut files, deleted)?;
    table.close(&mut files)?;
    let pair = pair_of(alloc, &files)?;
    Ok(Rows { pair, first })
}

/// A repair of these files leaves a table in which a check finds nothing, with all rows but one that the call was about.
pub fn can_be_repaired<R: Abort, C: Copy + Debug>(
    rt: &R,
    alloc: Global,
    files: &mut Untold,
    called: C,
) -> Result<(), Fail> {
    let report = recover(alloc, files, NAME, false, MOMENT)?;
    assert!(rt;
        report.kept >= ROWS as u64 - 1,
        "{report:?} after {called:?}"
    );
    let found = check(alloc, files, NAME)?;
    assert!(rt; found.is_empty(), "after {called:?}");
    Ok(())
}
