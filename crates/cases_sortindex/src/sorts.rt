//! Index files whose pages are sorted.

use case_lines::{Fault, Words, push_files};
use myi_opening::TableFile;
use myi_pair::Finding;
use myi_sortindex::{SortFault, sort_index};
use std::alloc::AllocError;

/// The name of the table.
const NAME: &str = "t";

// What is found wrong first.
fn push_finding(out: &mut String, finding: Finding) -> Result<(), AllocError> {
    match finding {
        Finding::Header(_) => out.push_str("header"),
        Finding::Deleted { at } => write!(out, "deleted at {at}"),
        Finding::Key { key, at } => write!(out, "key {key} at {at}"),
        Finding::Rows { at } => write!(out, "data at {at}"),
    }
}

// Why the pages are not sorted.
fn push_fault(out: &mut String, fault: SortFault) -> Result<(), Fault> {
    match fault {
        SortFault::Absent(TableFile::Index) => out.push_str("absent MYI")?,
        SortFault::Absent(TableFile::Data) => out.push_str("absent MYD")?,
        SortFault::Def(_) => out.push_str("refused")?,
        SortFault::Damaged(finding) => {
            out.push_str("damaged ")?;
            push_finding(out, finding)?;
        }
        SortFault::File => out.push_str("file")?,
        SortFault::Memory => return Err(Fault::Memory),
    }
    Ok(())
}

/// `sort_index FAULTS FILE..`: the pages of the index file of the table `t` sorted: `sorted PAGES`, or why not, and
/// what the files hold then.
pub fn sorted(words: &Words, args: &[&str]) -> Result<String, Fault> {
    let [faults, given @ ..] = args else {
        return Err(Fault::Unread);
    };
    let alloc = words.alloc();
    let mut files = words.files(given, *faults)?;
    let mut out = String::new(alloc);
    match sort_index(alloc, &mut files, NAME) {
        Ok(pages) => write!(out, "sorted {pages}")?,
        Err(fault) => push_fault(&mut out, fault)?,
    }
    push_files(&mut out, &files, given)?;
    Ok(out)
}
