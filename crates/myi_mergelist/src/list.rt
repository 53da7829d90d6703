//! `parse_list`: a text is read as a MERGE list.
ghost use Rattle.std.specs.Prelude.{◌≡◌, ℕ, List, map, filter, bytes_eq, string_bytes, IfOk, Ok, Err, None, true, false};
ghost use Rattle.std.specs.List.{IsDistinct};
ghost use Rattle.myi_mergelist.specs.declared.list.ListFault.TheVariants as fault;
ghost use Rattle.myi_mergelist.specs.MergeList as spec;
ghost use Rattle.myi_mergelist.specs.Reading.{method_after, method_of};

use std::alloc::{AllocError, Global};
use std::collections::BTreeSet;
use std::str;
use thiserror::Error;

/// How many names a list may have.
const MOST_NAMES: usize = 65535;

/// Which of the tables takes the rows that are inserted.
#[derive(Clone, Copy, Debug, PartialEq, Eq)]
pub enum InsertMethod {
    /// The first table of the list.
    First,
    /// The last one.
    Last,
}

/// What a MERGE list says.
#[derive(Drop)]
pub struct MergeList {
    /// The names of the tables, in the order of the list.
    pub members: Vec<String>,
    /// Without one no row can be inserted.
    pub method: Option<InsertMethod>,
}

/// Why a text is not read.
#[derive(Clone, Copy, Debug, PartialEq, Eq, Error)]
pub enum ListFault {
    /// It is not UTF-8, has no name, has more than 65,535 names, or has one twice.
    #[error("the text is no list of tables")]
    List,
    #[error("out of memory")]
    Memory,
}

impl From<AllocError> for ListFault {
    ghost use Rattle.std.specs.Prelude.{◌≡◌};
    ghost use Rattle.myi_mergelist.specs.declared.list.ListFault.TheVariants.{Memory};

    ghost from_gives = { λ _ e. e ≡ Memory };

    fn from(_: AllocError) -> Self {
        ListFault::Memory
    }
}

// Whether a line is the name of a table.
fn is_name(line: &str) -> bool
    ensures { result ≡ spec.is_name line.now }
{
    match line.as_bytes() {
        [] => false,
        [first, ..] => *first != b'#',
    }
}

fn lines_of<'a>(alloc: Global, text: &'a str) -> Result<Vec<&'a str>, AllocError>
    ensures { IfOk result (λ v. map (λ s. s.now) v.items ≡ spec.lines text.now) }
{
    text.split('\n').collect(alloc)
}

// The lines that are names.
fn names_of<'a>(alloc: Global, lines: &[&'a str]) -> Result<Vec<&'a str>, AllocError>
    ensures { IfOk result (λ v. v.items ≡ filter (λ s. spec.is_name s.now) lines.now) }
{
    lines
        .iter()
        .copied()
        .filter(|line| is_name(line))
        .collect(alloc)
}

// Where rows are inserted, by a line and what the lines before it say.
fn method_after(line: &str, before: Option<InsertMethod>) -> Option<InsertMethod>
    ensures { result ≡ method_after line.now before }
{
    match line {
        "#INSERT_METHOD=FIRST" => Some(InsertMethod::First),
        "#INSERT_METHOD=LAST" => Some(InsertMethod::Last),
        "#INSERT_METHOD=NO" => None,
        _ => before,
    }
}

// Where rows are inserted, by all lines.
fn method_of(lines: &[&str]) -> Option<InsertMethod>
    ensures { result ≡ method_of None (map (λ s. s.now) lines.now) }
{
    let mut method = None;
    for line in lines {
        method = method_after(line, method);
    }
    method
}

// Whether a name stands twice.
fn has_repeat(alloc: Global, names: &[&str]) -> Result<bool, AllocError>
    ensures alike { result ≡ Ok true → IsDistinct bytes_eq (map (λ s. s.now) names.now) → ⊥ }
    ensures apart { result ≡ Ok false → IsDistinct bytes_eq (map (λ s. s.now) names.now) }
{
    let mut met = BTreeSet::new(alloc);
    for name in names {
        if !met.insert(*name)? {
            return Ok(true);
        }
    }
    Ok(false)
}

// The names as texts of their own.
fn owned(alloc: Global, names: &[&str]) -> Result<Vec<String>, AllocError>
    ensures { IfOk result (λ v. map (λ s. string_bytes s) v.items ≡ map (λ s. s.now) names.now) }
{
    let mut members = Vec::with_capacity(alloc, names.len())?;
    for name in names {
        members.push(String::from_str(alloc, name)?)?;
    }
    Ok(members)
}

/// What a MERGE list says, or that the text is none.
pub fn parse_list(alloc: Global, bytes: &[u8]) -> Result<MergeList, ListFault>
    ensures inside { IfOk result (λ l.
        spec.IsMergeList bytes.now (map (λ s. string_bytes s) l.members.items) l.method) }
    ensures outside { result ≡ Err fault.List → spec.IsNoList bytes.now }
{
    let Ok(text) = str::from_utf8(bytes) else {
        return Err(ListFault::List);
    };
    let lines = lines_of(alloc, text)?;
    let names = names_of(alloc, &lines)?;
    if names.is_empty() || names.len() > MOST_NAMES || has_repeat(alloc, &names)? {
        return Err(ListFault::List);
    }
    Ok(MergeList {
        members: owned(alloc, &names)?,
        method: method_of(&lines),
    })
}
