//! Scans of a data file, over files that tell nothing.
//!
//! A scan is called until it is at its end. Each answer brings its place nearer to that, and a call that fails
//! meets one of the faults that the line lists.
ghost use Rattle.std.specs.Prelude.{◌≡◌, ◌<◌, ◌+◌, ◌-◌, true, IfOk};

use case_lines::{Fault, Untold, Words, number, push_word, yes_or_no};
use myi_chain::{Item, Piece, ScanFault};
use myi_data::{DataFile, DataScan};
use myi_header::stored_state;
use myi_memfiles::MemFiles;
use std::alloc::AllocError;

/// The name of the data file.
const NAME: &str = "t.MYD";

/// A file and a scan of it.
struct Scanned {
    files: Untold,
    scan: DataScan,
    /// How many faults were listed and not met.
    faults: usize,
}

impl Drop for Scanned {
    fn drop(self) {
        let Scanned {
            files: _,
            scan: _,
            faults: _,
        } = self;
    }
}

// Of the words DEFINITIONS FAULTS END EXTEND BYTES.
fn opened(words: &Words, args: &[&str]) -> Result<Scanned, Fault> {
    let [defs, faults, end, extend, bytes] = args else {
        return Err(Fault::Unread);
    };
    let alloc = words.alloc();
    let defs = words.definitions(*defs)?;
    let mut state = stored_state(alloc, &defs)?;
    state.data_file_length = number(*end)?;
    let given = vec![in alloc; (String::from_str(alloc, NAME)?, words.bytes(*bytes)?)]?;
    let faults = words.numbers(*faults)?;
    let count = faults.len();
    let files = MemFiles::new(alloc, given, faults)?;
    let file = DataFile::new(alloc, NAME, &defs, &state)?;
    let scan = file.scan(yes_or_no(*extend)?)?;
    Ok(Scanned {
        files: Untold { files },
        scan,
        faults: count,
    })
}

fn push_row(out: &mut String, at: u64, piece: Piece) -> Result<(), AllocError> {
    match piece {
        Piece::Lent(_) => write!(out, "lent {at} ")?,
        Piece::Joined(_) => write!(out, "joined {at} ")?,
    }
    push_word(out, piece.bytes())
}

// One fault less, after a call that failed.
fn met(faults: usize) -> Result<usize, Fault>
    ensures { IfOk result (λ left. left < faults) }
{
    if faults == 0 {
        return Err(Fault::Unread);
    }
    Ok(faults - 1)
}

// Writes what the next call answers, and says whether it was not the end.
fn push_next(scanned: &mut Scanned, out: &mut String) -> Result<bool, Fault>
    ensures { IfOk result (λ more. more ≡ true
        → scanned.new.scan.end - scanned.new.scan.place + scanned.new.faults
        < scanned.old.scan.end - scanned.old.scan.place + scanned.old.faults) }
{
    match scanned.scan.next_item(&mut scanned.files) {
        Ok(None) => {
            out.push_str("end")?;
            return Ok(false);
        }
        Ok(Some(Item::Row(at, piece))) => push_row(out, at, piece)?,
        Ok(Some(Item::Free { at, size })) => write!(out, "free {at} {size}")?,
        Err(ScanFault::File) => {
            out.push_str("failed")?;
            scanned.faults = met(scanned.faults)?;
        }
        Err(ScanFault::Memory) => return Err(Fault::Memory),
    }
    Ok(true)
}

/// `scan DEFINITIONS FAULTS END EXTEND BYTES`: the rows and the deleted blocks of a data file up to its end, and
/// what comes behind it.
fn scan(words: &Words, args: &[&str]) -> Result<String, Fault> {
    let mut scanned = opened(words, args)?;
    let mut out = String::new(words.alloc());
    while push_next(&mut scanned, &mut out)? {
        out.push_str("; ")?;
    }
    out.push_str("; ")?;
    push_next(&mut scanned, &mut out)?;
    Ok(out)
}

fn push_blocks(out: &mut String, blocks: &[(u64, u32)]) -> Result<(), AllocError> {
    out.push_str(" in")?;
    for (at, size) in blocks {
        write!(out, " {at}:{size}")?;
    }
    Ok(())
}

// The same for a call for rows, each with its blocks.
fn push_next_row(scanned: &mut Scanned, out: &mut String) -> Result<bool, Fault>
    ensures { IfOk result (λ more. more ≡ true
        → scanned.new.scan.end - scanned.new.scan.place + scanned.new.faults
        < scanned.old.scan.end - scanned.old.scan.place + scanned.old.faults) }
{
    match scanned.scan.next_row(&mut scanned.files) {
        Ok(None) => {
            out.push_str("end")?;
            return Ok(false);
        }
        Ok(Some((at, piece))) => {
            push_row(out, at, piece)?;
            push_blocks(out, scanned.scan.blocks())?;
        }
        Err(ScanFault::File) => {
            out.push_str("failed")?;
            scanned.faults = met(scanned.faults)?;
        }
        Err(ScanFault::Memory) => return Err(Fault::Memory),
    }
    Ok(true)
}

/// The same for the rows alone, each with its blocks.
fn scan_rows(words: &Words, args: &[&str]) -> Result<String, Fault> {
    let mut scanned = opened(words, args)?;
    let mut out = String::new(words.alloc());
    while push_next_row(&mut scanned, &mut out)? {
        out.push_str("; ")?;
    }
    Ok(out)
}

/// The answer to a call of this module, and None where the name is no such call.
pub fn answer(words: &Words, name: &str, args: &[&str]) -> Option<Result<String, Fault>> {
    match name {
        "scan" => Some(scan(words, args)),
        "scan_rows" => Some(scan_rows(words, args)),
        _ => None,
    }
}
