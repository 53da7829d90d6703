//! Pages of an index.
ghost use Rattle.std.specs.Prelude.{◌≡◌, ◌^◌, ◌<◌, ◌≤◌, true, length};
ghost use Rattle.std.specs.List.{AllByRecursion};
ghost use Rattle.myi_keypage.specs.Page.{page_with, IsPlace, IsBranching};

use case_lines::{
    Fault, PlaceText, Words, number, one_byte, push_word, sides, size, word, yes_or_no,
};
use myi_base::Sequence;
use myi_keypage::{Entry, PageItem, PageView, fits, fitting, read_page, write_page};
use std::alloc::{AllocError, Global};

/// The greatest length of a page, in bytes.
const MOST_LENGTH: usize = 16_384;

fn push_item(out: &mut String, item: &PageItem) -> Result<(), AllocError> {
    write!(out, " {}:", item.prefix)?;
    push_word(out, item.rest)?;
    write!(out, ":{}", item.row)?;
    match item.child {
        None => Ok(()),
        Some(child) => write!(out, ":{child}"),
    }
}

fn page_text(alloc: Global, page: &PageView) -> Result<String, AllocError> {
    let first = PlaceText(page.first_child());
    let kind = if page.is_node() { "node" } else { "leaf" };
    let mut out = format!(in alloc; "{kind} {first}")?;
    let mut walk = page.walk();
    while let Some(item) = walk.next_item() {
        push_item(&mut out, &item)?;
    }
    Ok(out)
}

/// `page POINTER BYTES`: the page that the bytes are, with row pointers of that size.
fn page(words: &Words, args: &[&str]) -> Result<String, Fault> {
    let [rec_ref, bytes] = args else {
        return Err(Fault::Unread);
    };
    let rec_ref = one_byte(*rec_ref)?;
    let bytes = words.bytes(*bytes)?;
    if rec_ref < 2 || rec_ref > 8 {
        return Err(Fault::Unread);
    }
    match read_page(&bytes, rec_ref) {
        None => Ok(String::from_str(words.alloc(), "none")?),
        Some(page) => Ok(page_text(words.alloc(), &page)?),
    }
}

/// `page_bytes POINTER AT BYTES`: the ranges of byte values with which, at that place, the bytes are a page.
fn page_bytes(words: &Words, args: &[&str]) -> Result<String, Fault> {
    let [rec_ref, at, bytes] = args else {
        return Err(Fault::Unread);
    };
    let (rec_ref, at) = (one_byte(*rec_ref)?, size(*at)?);
    let mut bytes = words.bytes(*bytes)?;
    if rec_ref < 2 || rec_ref > 8 || at >= bytes.len() {
        return Err(Fault::Unread);
    }
    let mut out = String::from_str(words.alloc(), "bytes")?;
    let mut begin: Option<u8> = None;
    for byte in 0..=255u8 {
        if let Some(cell) = bytes.get_mut(at) {
            *cell = byte;
        }
        match (read_page(&bytes, rec_ref), begin) {
            (Some(_), None) => begin = Some(byte),
            (None, Some(first)) => {
                write!(out, " {first}..{byte}")?;
                begin = None;
            }
            _ => {}
        }
    }
    if let Some(first) = begin {
        write!(out, " {first}..256")?;
    }
    Ok(out)
}

// Entries, each a key and its row pointer with a colon between them.
fn entries(words: &Words, args: &[&str]) -> Result<Vec<Entry>, Fault> {
    let mut entries = Vec::new(words.alloc());
    for arg in args {
        let (key, row) = sides(*arg, ':')?;
        entries.push(Entry {
            key: Sequence::new(words.bytes(key)?),
            row: number(row)?,
        })?;
    }
    Ok(entries)
}

fn is_row(rec_ref: u8, row: u64) -> bool
    requires { rec_ref ≤ 8 }
    ensures { result ≡ true → row < 256 ^ rec_ref }
{
    match 256u64.checked_pow(rec_ref as u32) {
        Some(all) => row < all,
        None => true,
    }
}

fn are_rows(rec_ref: u8, entries: &[Entry]) -> bool
    requires { rec_ref ≤ 8 }
    ensures { result ≡ true → AllByRecursion (λ e. e.row < 256 ^ rec_ref) entries.now }
{
    for entry in entries {
        if !is_row(rec_ref, entry.row) {
            return false;
        }
    }
    true
}

fn is_place(child: u64) -> bool
    ensures { result ≡ true → IsPlace child }
{
    child % 1024 == 0
}

fn are_places(children: &[u64]) -> bool
    ensures { result ≡ true → AllByRecursion IsPlace children.now }
{
    for child in children {
        if !is_place(*child) {
            return false;
        }
    }
    true
}

fn is_branching(entries: &[Entry], children: &[u64]) -> bool
    ensures { result ≡ true → IsBranching (page_with entries.now children.now) }
{
    match children {
        [] => true,
        [_, others @ ..] => others.len() == entries.len(),
    }
}

/// `write_page POINTER LENGTH CHILDREN KEY:ROW..`: a page with these children and entries, written over bytes
/// AA.
fn write(words: &Words, args: &[&str]) -> Result<String, Fault> {
    let [rec_ref, length, children, others @ ..] = args else {
        return Err(Fault::Unread);
    };
    let (rec_ref, length) = (one_byte(*rec_ref)?, size(*length)?);
    let children = words.numbers(*children)?;
    let entries = entries(words, others)?;
    if rec_ref < 2 || rec_ref > 8 || length > MOST_LENGTH || entries.is_empty() {
        return Err(Fault::Unread);
    }
    if !are_rows(rec_ref, &entries)
        || !are_places(&children)
        || !is_branching(&entries, &children)
    {
        return Err(Fault::Unread);
    }
    if !fits(&entries, !children.is_empty(), rec_ref, length) {
        return Ok(String::from_str(words.alloc(), "does not fit")?);
    }
    let mut page = vec![in words.alloc(); 0xAAu8; length]?;
    write_page(&entries, &children, rec_ref, &mut page);
    Ok(word(words.alloc(), &page)?)
}

/// `fits_page POINTER NODE LENGTH KEY:ROW..`: how many entries from the front fit, and whether all do.
fn fits_page(words: &Words, args: &[&str]) -> Result<String, Fault> {
    let [rec_ref, node, length, others @ ..] = args else {
        return Err(Fault::Unread);
    };
    let (rec_ref, node, length) = (one_byte(*rec_ref)?, yes_or_no(*node)?, size(*length)?);
    let entries = entries(words, others)?;
    if rec_ref < 2 || rec_ref > 8 {
        return Err(Fault::Unread);
    }
    let count = fitting(&entries, node, rec_ref, length);
    let all = fits(&entries, node, rec_ref, length);
    Ok(format!(in words.alloc(); "{count} {all}")?)
}

/// The answer to a call of this module, and None where the name is no such call.
pub fn answer(words: &Words, name: &str, args: &[&str]) -> Option<Result<String, Fault>> {
    match name {
        "page" => Some(page(words, args)),
        "page_bytes" => Some(page_bytes(words, args)),
        "write_page" => Some(write(words, args)),
        "fits_page" => Some(fits_page(words, args)),
        _ => None,
    }
}
