//! Which rows are kept where keys repeat: by the class numbers of equal keys.
//!
//! In each unique key a row has a number, 0 where its key is not complete. Numbers go on from one unique
//! key to the next, so that one table says which are taken by the rows that are kept.
ghost use Rattle.std.specs.Prelude.{◌≡◌, ◌<◌, ◌||◌, ◌==◌, ◌++◌, ◌∷◌, ℕ, List, [], false, not};
ghost use Rattle.std.specs.Prelude.{if◌then◌else◌, length, slice_index, slice_index_or, IfOk};
ghost use Rattle.std.specs.List.{list_any};
ghost use Rattle.myi_keylist.specs.Classes.{AreBelow, has_class, share_class, class_flags};
ghost use Rattle.myi_keylist.specs.Classes.{is_taken, AreTaken};

use myi_base::Sequence;
use std::alloc::{AllocError, Global};

/// Whether each of so many rows is kept: one that shares a class number with none kept before it. The
/// numbers are those of the rows in each unique key, 0 where a key is not complete, and below `end`.
pub fn keep_first(
    alloc: Global,
    columns: &[Sequence<u64>],
    rows: usize,
    end: usize,
) -> Result<Vec<bool>, AllocError>
    requires { AreBelow end columns.now }
    ensures { IfOk result (λ flags. flags.items ≡ class_flags columns.now rows) }
{
    let mut taken: Vec<bool> = Vec::new(alloc);
    taken.resize(end, false)?;
    keep_rows(alloc, columns, &mut taken, rows)
}

// The same with a table in which no number is taken.
fn keep_rows(
    alloc: Global,
    columns: &[Sequence<u64>],
    taken: &mut [bool],
    rows: usize,
) -> Result<Vec<bool>, AllocError>
    requires below { AreBelow (length taken.old) columns.now }
    requires none { AreTaken columns.now taken.old [] }
    ensures { IfOk result (λ flags. flags.items ≡ class_flags columns.now rows) }
{
    let mut flags = Vec::with_capacity(alloc, rows)?;
    for row in 0..rows {
        flags.push(keep_row(columns, taken, row))?;
    }
    Ok(flags)
}

// Keeps a row, and takes its numbers, unless one of them is taken.
fn keep_row(columns: &[Sequence<u64>], taken: &mut [bool], row: usize) -> bool
    requires { AreBelow (length taken.old) columns.now }
    ensures kept { (kept : List ℕ) → AreTaken columns.now taken.old kept
        → result ≡ not (list_any (share_class columns.now row) kept) }
    ensures taken { (kept : List ℕ) → AreTaken columns.now taken.old kept
        → AreTaken columns.now taken.new (if result then kept ++ row ∷ [] else kept) }
{
    if repeats_taken(columns, taken, row) {
        return false;
    }
    take_numbers(columns, taken, row);
    true
}

// The row's class number.
fn number_at(numbers: &[u64], row: usize) -> u64
    ensures { result ≡ slice_index numbers.now row }
{
    numbers.get(row).copied().unwrap_or(0)
}

// Whether the number is taken.
fn is_taken(taken: &[bool], number: u64) -> bool
    ensures { result ≡ is_taken taken.now number }
{
    number != 0 && taken.get(number as usize).copied().unwrap_or(false)
}

// Whether a number of the row is taken.
fn repeats_taken(columns: &[Sequence<u64>], taken: &[bool], row: usize) -> bool
    ensures { result
        ≡ list_any (λ numbers. is_taken taken.now (slice_index numbers row)) columns.now }
{
    columns.iter().any(|numbers| is_taken(taken, number_at(numbers.as_slice(), row)))
}

// Takes the numbers of the row.
fn take_numbers(columns: &[Sequence<u64>], taken: &mut [bool], row: usize)
    ensures { (c : ℕ) → c < length taken.old
        → slice_index_or taken.new c false
        ≡ (slice_index_or taken.old c false || has_class columns.now c row) }
{
    for numbers in columns {
        take_number(taken, number_at(numbers.as_slice(), row));
    }
}

// Takes a number, if it is one of the table's.
fn take_number(taken: &mut [bool], number: u64)
    ensures { (c : ℕ) → c < length taken.old
        → slice_index_or taken.new c false
        ≡ (slice_index_or taken.old c false || (number == c)) }
{
    let place = number as usize;
    if place < taken.len() {
        taken[place] = true;
    }
}
