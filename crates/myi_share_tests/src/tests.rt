//! Rounds on threads.
use crate::jobs::run_script_round;
use crate::round::{Counts, run_round};
use crate::rows::{NAME, SETUP, TEXT, number_of, row_of};
use case_lines::Untold;
use myi_check::check;
use myi_deftext::parse_text;
use myi_memfiles::MemFiles;
use myi_table::Table;
use std::alloc::Global;
use std::test::Fail;

// A table with the rows of the numbers from 1 to this one.
fn filled(alloc: Global, files: &mut Untold, rows: u32) -> Result<Table, Fail> {
    let Ok(defs) = parse_text(alloc, TEXT) else {
        return Err(Fail::new("the text is refused"));
    };
    Table::create(alloc, files, NAME, &defs)?;
    let mut table = Table::load(alloc, files, NAME, SETUP)?;
    for number in 0..rows {
        let row = row_of(alloc, table.defs(), number.wrapping_add(1))?.ok_or("no row")?;
        table.insert(files, &row)?;
    }
    Ok(table)
}

// Eight readers see the rows of a table, and behind them the first so many of those that an inserter puts meanwhile; and the table
// that is taken back has them all.
#[test]
fn eight_readers_and_an_inserter_on_threads(rt: HostRuntime) -> Result<(), Fail> {
    let alloc = rt.alloc();
    let files = MemFiles::new(alloc, Vec::new(alloc), Vec::new(alloc))?;
    let mut files = Untold { files };
    let table = filled(alloc, &mut files, 50)?;
    let counts = Counts { base: 50, put: 150 };
    let round = run_round(&rt, alloc, &mut files, table, 8, counts)?;
    assert_eq!(rt; round.wrong, 0);
    assert_eq!(rt; round.unsound, 0);
    let mut number = 0;
    for (_, row) in round.table.scan(&mut files)?.iter() {
        number = number_of(row).unwrap_or(0);
    }
    assert_eq!(rt; number, 200);
    let mut table = round.table;
    table.close(&mut files)?;
    let found = check(alloc, &mut files, NAME)?;
    assert!(rt; found.is_empty());
    Ok(())
}

// How many rows the first read of a text found, and after how many changes.
fn counts_in(text: &[u8]) -> Option<(u64, u64)> {
    let line = text.split(|byte| *byte == b'\n').next()?;
    let mut words = std::str::from_utf8(line).ok()?.split(' ').skip(2);
    let count = words.next()?.parse().ok()?;
    let number = words.skip(1).next()?.parse().ok()?;
    Some((count, number))
}

// Runs of a script side by side: all steps are done, and the first read of each finds the rows that its number says.
#[test]
fn runs_of_a_script_on_threads(rt: HostRuntime) -> Result<(), Fail> {
    let alloc = rt.alloc();
    let files = MemFiles::new(alloc, Vec::new(alloc), Vec::new(alloc))?;
    let mut files = Untold { files };
    let table = filled(alloc, &mut files, 4)?;
    let said = run_script_round(&rt, alloc, &mut files, table, 7)?;
    assert_eq!(rt; said.inserted, 3);
    assert_eq!(rt; said.answered, 3);
    assert_eq!(rt; said.refused, 0);
    assert_eq!(rt; said.texts.len(), 7);
    for text in said.texts.iter() {
        let (count, number) = counts_in(text).ok_or("no read")?;
        assert!(rt; number <= 2);
        assert_eq!(rt; count, number.wrapping_add(4));
    }
    Ok(())
}
