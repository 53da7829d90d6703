//! Deleted lists, over files that tell nothing.
ghost use Rattle.std.specs.Prelude.{◌≡◌, ◌<◌, ◌^◌, true, length, IfOk};
ghost use Rattle.myi_frames.specs.Block.{IsPlace};

use case_lines::{Fault, PlaceText, Untold, Words, four_bytes, number, place, push_file};
use myi_dellist::{FreeFault, FreeList, Limits};
use myi_io::Files;
use myi_memfiles::MemFiles;
use std::alloc::{AllocError, Global};

/// The name of the data file.
const NAME: &str = "t.MYD";

/// The greatest size of a deleted block.
const MOST_SIZE: u32 = 16_777_212;

/// The greatest size of an area that is released as two.
const MOST_AREA: u32 = 8_388_608 + MOST_SIZE;

/// A file, where its deleted list begins, and the place that its end stays below.
struct Listed {
    files: Untold,
    head: Option<u64>,
    end_below: u128,
}

impl Drop for Listed {
    fn drop(self) {
        let Listed {
            files: _,
            head: _,
            end_below: _,
        } = self;
    }
}

// Of the words HEAD LIMIT FAULTS BYTES.
fn opened(words: &Words, args: &[&str]) -> Result<Listed, Fault> {
    let [head, limit, faults, bytes] = args else {
        return Err(Fault::Unread);
    };
    let alloc = words.alloc();
    let given = vec![in alloc; (String::from_str(alloc, NAME)?, words.bytes(*bytes)?)]?;
    let files = MemFiles::new(alloc, given, words.numbers(*faults)?)?;
    Ok(Listed {
        files: Untold { files },
        head: place(*head)?,
        end_below: number(*limit)? as u128,
    })
}

impl Listed {
    fn end(&self) -> Result<u64, Fault> {
        match self.files.files.get(NAME) {
            None => Err(Fault::Unread),
            Some(bytes) => Ok(bytes.len() as u64),
        }
    }

    // The list of the file, which ends there.
    fn list(&self, alloc: Global, end: u64) -> Result<FreeList, Fault>
        ensures { IfOk result (λ list. list.end ≡ end) }
    {
        if end as u128 >= self.end_below {
            return Err(Fault::Unread);
        }
        let limits = Limits {
            end_below: self.end_below,
        };
        Ok(FreeList::new(alloc, NAME, self.head, end, limits)?)
    }

    // Where the list begins from now on.
    fn keep(&mut self, list: &FreeList) {
        self.head = match list.place() {
            (at, true) => Some(at),
            (_, false) => None,
        };
    }
}

// Whether a list may be given such a row.
fn is_row(packed: &[u8]) -> bool
    ensures some { result ≡ true → 0 < length packed.now }
    ensures few { result ≡ true → length packed.now < 2 ^ 32 }
{
    !packed.is_empty() && packed.len() < 1 << 32
}

// Whether a file of that length has such an area.
fn is_area(at: u64, size: u32, end: u64) -> bool
    ensures { result ≡ true → IsPlace at size end }
{
    at % 4 == 0 && size % 4 == 0 && size >= 20 && size as u64 <= end && at <= end - size as u64
}

fn push_fault(out: &mut String, fault: FreeFault) -> Result<(), Fault> {
    match fault {
        FreeFault::Full => Ok(out.push_str("full")?),
        FreeFault::Damaged { at } => Ok(write!(out, "damaged {at}")?),
        FreeFault::File => Ok(out.push_str("failed")?),
        FreeFault::Memory => Err(Fault::Memory),
    }
}

fn push_number(out: &mut String, answer: Result<u64, FreeFault>) -> Result<(), Fault> {
    match answer {
        Ok(number) => Ok(write!(out, "{number}")?),
        Err(fault) => push_fault(out, fault),
    }
}

fn push_done(out: &mut String, answer: Result<(), FreeFault>) -> Result<(), Fault> {
    match answer {
        Ok(()) => Ok(out.push_str("ok")?),
        Err(fault) => push_fault(out, fault),
    }
}

fn push_write(
    out: &mut String,
    words: &Words,
    listed: &mut Listed,
    row: &str,
    at_end: bool,
) -> Result<(), Fault> {
    let packed = words.bytes(row)?;
    if !is_row(&packed) {
        return Err(Fault::Unread);
    }
    let mut list = listed.list(words.alloc(), listed.end()?)?;
    let answer = if at_end {
        list.write_row_at_end(&mut listed.files, &packed)
    } else {
        list.write_row(&mut listed.files, &packed)
    };
    listed.keep(&list);
    push_number(out, answer)
}

fn push_release(
    out: &mut String,
    words: &Words,
    listed: &mut Listed,
    at: u64,
    size: u32,
) -> Result<(), Fault> {
    let end = listed.end()?;
    if !is_area(at, size, end) || size > MOST_AREA {
        return Err(Fault::Unread);
    }
    let mut list = listed.list(words.alloc(), end)?;
    let answer = list.release(&mut listed.files, at, size);
    listed.keep(&list);
    push_done(out, answer)
}

fn push_merge(
    out: &mut String,
    words: &Words,
    listed: &mut Listed,
    at: u64,
    size: u32,
) -> Result<(), Fault> {
    let end = listed.end()?;
    if !is_area(at, size, end) || size > MOST_SIZE {
        return Err(Fault::Unread);
    }
    let mut list = listed.list(words.alloc(), end)?;
    let answer = list.merge_next(&mut listed.files, at, size);
    listed.keep(&list);
    match answer {
        Ok(whole) => Ok(write!(out, "{whole}")?),
        Err(fault) => push_fault(out, fault),
    }
}

fn push_rewrite(
    out: &mut String,
    words: &Words,
    listed: &mut Listed,
    at: u64,
    row: &str,
) -> Result<(), Fault> {
    let packed = words.bytes(row)?;
    if !is_row(&packed) {
        return Err(Fault::Unread);
    }
    let mut list = listed.list(words.alloc(), listed.end()?)?;
    let answer = list.rewrite_row(&mut listed.files, at, &packed);
    listed.keep(&list);
    push_done(out, answer)
}

fn push_release_row(
    out: &mut String,
    words: &Words,
    listed: &mut Listed,
    at: u64,
) -> Result<(), Fault> {
    let mut list = listed.list(words.alloc(), listed.end()?)?;
    let answer = list.release_row(&mut listed.files, at);
    listed.keep(&list);
    match answer {
        Ok(_) => push_done(out, Ok(())),
        Err(fault) => push_fault(out, fault),
    }
}

// Makes a call, and writes its answer.
fn push_call(
    out: &mut String,
    words: &Words,
    listed: &mut Listed,
    call: &str,
) -> Result<(), Fault> {
    let parts: Vec<&str> = call.split(':').collect(words.alloc())?;
    match parts.as_slice() {
        ["write", row] => push_write(out, words, listed, *row, false),
        ["write_at_end", row] => push_write(out, words, listed, *row, true),
        ["release", at, size] => {
            push_release(out, words, listed, number(*at)?, four_bytes(*size)?)
        }
        ["rewrite", at, row] => push_rewrite(out, words, listed, number(*at)?, *row),
        ["release_row", at] => push_release_row(out, words, listed, number(*at)?),
        ["merge", at, size] => push_merge(out, words, listed, number(*at)?, four_bytes(*size)?),
        _ => Err(Fault::Unread),
    }
}

/// `list HEAD LIMIT FAULTS BYTES CALL..`: what each call on the deleted list of a data file answers, where the list
/// begins then, the count of faults, and the file. A call is `write:ROW`, `write_at_end:ROW`, `release:AT:SIZE`,
/// `merge:AT:SIZE`, `rewrite:AT:ROW` or `release_row:AT`.
fn list(words: &Words, args: &[&str]) -> Result<String, Fault> {
    let [head, limit, faults, bytes, calls @ ..] = args else {
        return Err(Fault::Unread);
    };
    let mut listed = opened(words, &[*head, *limit, *faults, *bytes])?;
    let mut out = String::new(words.alloc());
    for call in calls {
        push_call(&mut out, words, &mut listed, *call)?;
        out.push_str("; ")?;
    }
    let head = PlaceText(listed.head);
    write!(out, "{head}; faults {}; ", listed.files.fault_count())?;
    push_file(&mut out, &listed.files.files, NAME)?;
    Ok(out)
}

/// The answer to a call of this module, and None where the name is no such call.
pub fn answer(words: &Words, name: &str, args: &[&str]) -> Option<Result<String, Fault>> {
    match name {
        "list" => Some(list(words, args)),
        _ => None,
    }
}
