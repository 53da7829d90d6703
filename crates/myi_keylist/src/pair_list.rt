//! `PairList`: a list of pairs with the codes of all keys in one buffer.
//!
//! A mark for each pair says where its key's code stands in the buffer, and has the pair's row pointer and
//! a number that stands in the order of keys, so that a sort moves marks alone and mostly compares
//! numbers. Contracts see the list of the pairs.
ghost use Rattle.std.specs.Prelude.{◌≡◌, ◌<◌, ◌≤◌, ◌+◌, ◌==◌, ◌++◌, ◌∷◌, ℕ, false, [], length, map, take};
ghost use Rattle.std.specs.Prelude.{slice_index, slice_index_or, if◌then◌else◌, OnOk, OnErr};
ghost use Rattle.std.specs.List.{AllByRecursion, filter};
ghost use Rattle.myi_keys.specs.Limits.{IsKey};
ghost use Rattle.myi_keys.specs.Codes.{key_code};
ghost use Rattle.myi_keys.specs.Comparing.{key_front, IsCode};
ghost use Rattle.myi_keylist.specs.declared.pair.Pair.{Pair};
ghost use Rattle.myi_keylist.specs.PairOrder.{pair_with, sorted};
ghost use Rattle.myi_keylist.specs.Repeats.{is_same_key, has_repeat};
ghost use Rattle.myi_keylist.specs.FirstBy.{KeyOf};
ghost use Rattle.myi_keylist.specs.Columns.{IsColumn, numbered, has_flag, pointed};
ghost use Rattle.myi_keylist.specs.PairLists.{led, code_from, mark_cmp, pairs_at, pointed_mark, IsMark};
ghost use Rattle.myi_keylist.specs.PairLists.{repeats_last, next_number, is_flagged};

use crate::row_pointers::RowPointers;
use myi_keys::{code_prefix, compare_codes, is_complete_code};
use std::alloc::{AllocError, Global};
use std::cmp::Ordering;
use std::marker::Model;

/// Where the code of a pair's key stands, the number that the key is sorted by first, and the pair's
/// row pointer.
#[derive(Clone, Copy)]
struct Mark {
    prefix: u64,
    start: u64,
    row: u64,
}

/// Pairs, whose keys are codes in one buffer.
pub struct PairList {
    codes: Vec<u8>,
    marks: Vec<Mark>,
}

impl Drop for PairList {
    fn drop(self) {
        let PairList { codes: _, marks: _ } = self;
    }
}

impl Model for PairList {
    ghost use Rattle.std.specs.Prelude.{List};
    ghost use Rattle.std.specs.List.{AllByRecursion};
    ghost use Rattle.myi_keylist.specs.declared.pair.Pair.{Pair};
    ghost use Rattle.myi_keylist.specs.PairLists.{IsMark, pairs_at};

    ghost Value = { List Pair };

    ghost view = { λ l. pairs_at l.codes.items l.marks.items };

    ghost invariant = { λ l. AllByRecursion (IsMark l.codes.items) l.marks.items };
}

impl PairList {
    /// No pair.
    pub fn new(alloc: Global) -> PairList
        ensures { result ≡ [] }
    {
        PairList {
            codes: Vec::new(alloc),
            marks: Vec::new(alloc),
        }
    }

    /// The number of pairs.
    pub fn len(&self) -> usize
        ensures { result ≡ length self.now }
    {
        self.marks.len()
    }

    /// Adds a pair, by the code of its key. Where memory runs out the list is as before.
    pub fn push(&mut self, code: &[u8], row: u64) -> Result<(), AllocError>
        requires { IsCode code.now }
        ensures added { OnOk result
            (self.new ≡ self.old ++ pair_with (key_front code.now) row ∷ []) }
        ensures unchanged { OnErr result (self.new ≡ self.old) }
    {
        let start = self.codes.len() as u64;
        append_code(&mut self.codes, code)?;
        self.marks.push(Mark {
            prefix: code_prefix(code),
            start,
            row,
        })?;
        Ok(())
    }

    /// The code of the key of pair `i`, from 0.
    pub fn code(&self, i: usize) -> &[u8]
        requires { i < length self.now }
        ensures value { (other : Pair)
            → result.now ≡ key_code (slice_index_or self.now i other).key }
        ensures key { (other : Pair) → IsKey (slice_index_or self.now i other).key }
    {
        code_from(&self.codes, self.marks[i].start)
    }

    /// The row pointer of pair `i`, from 0.
    pub fn row(&self, i: usize) -> u64
        requires { i < length self.now }
        ensures { (other : Pair) → result ≡ (slice_index_or self.now i other).row }
    {
        self.marks[i].row
    }

    /// Whether two pairs, one behind the other, have one complete key. In a list in order this is so where
    /// any two pairs have one.
    pub fn has_repeat(&self) -> bool
        ensures { result ≡ has_repeat self.now }
    {
        let Some(last) = self.len().checked_sub(1) else {
            return false;
        };
        for i in 0..last {
            if is_repeat(self.code(i), self.code(i + 1)) {
                return true;
            }
        }
        false
    }

    /// Puts the pairs in order. It takes no memory.
    pub fn sort(&mut self)
        ensures { self.new ≡ sorted self.old }
    {
        sort_marks(&self.codes, &mut self.marks);
    }

    /// Where the pairs are those of all rows with their numbers, in order, writes for each row its class
    /// number in this key. The numbers go on behind those that are taken; answers the last one.
    pub fn number(&self, taken: u64, column: &mut [u64]) -> u64
        requires { taken + length self.now < 18446744073709551616 }
        ensures column { (key : KeyOf ℕ) → self.now ≡ sorted (numbered key (length column.old))
            → IsColumn key (length column.old) taken result column.new }
        ensures few { result ≤ taken + length self.now }
    {
        let mut last = taken;
        for i in 0..self.len() {
            let number = self.next_number(i, last);
            write_number(column, self.row(i), number);
            if number > last {
                last = number;
            }
        }
        last
    }

    // The class number of pair `i`, where the last one so far is known.
    fn next_number(&self, i: usize, last: u64) -> u64
        requires inside { i < length self.now }
        requires room { last + 1 < 18446744073709551616 }
        ensures { result ≡ next_number self.now i last }
    {
        if self.repeats_last(i) {
            last
        } else if is_complete_code(self.code(i)) {
            last + 1
        } else {
            0
        }
    }

    // Whether pair `i` and the one before it have one complete key.
    fn repeats_last(&self, i: usize) -> bool
        requires { i < length self.now }
        ensures { result ≡ repeats_last self.now i }
    {
        i != 0 && is_repeat(self.code(i - 1), self.code(i))
    }

    /// Where the pairs have the numbers of rows, takes out those of rows whose flag is not set. The others
    /// stay in order. It takes no memory.
    pub fn retain(&mut self, flags: &[bool])
        ensures { self.new ≡ filter (has_flag flags.now) self.old }
    {
        retain_marks(&mut self.marks, flags);
    }

    /// Where the pairs have the numbers of rows, puts in place of each the pointer that stands at it, 0
    /// where none does.
    pub fn point(&mut self, pointers: &RowPointers)
        ensures { self.new ≡ map (pointed pointers.now) self.old }
    {
        point_marks(&mut self.marks, pointers);
    }
}

// Appends a code behind its length.
fn append_code(codes: &mut Vec<u8>, code: &[u8]) -> Result<(), AllocError>
    requires { length code.now < 65536 }
    ensures added { OnOk result (codes.new.items ≡ codes.old.items ++ led code.now) }
    ensures front { take (length codes.old.items) codes.new.items ≡ codes.old.items }
{
    codes.extend_from_slice(&(code.len() as u16).to_be_bytes())?;
    codes.extend_from_slice(code)?;
    Ok(())
}

// The code at a place of the buffer.
fn code_from(codes: &[u8], start: u64) -> &[u8]
    ensures { result.now ≡ code_from codes.now start }
{
    match codes.get(start as usize..) {
        Some([high, low, rest @ ..]) => {
            let length = u16::from_be_bytes([*high, *low]) as usize;
            &rest[..length.min(rest.len())]
        }
        _ => &[],
    }
}

// Whether two codes stand for one complete key.
fn is_repeat(one: &[u8], other: &[u8]) -> bool
    ensures { result ≡ is_same_key (key_front one.now) (key_front other.now) }
{
    is_complete_code(one) && compare_codes(one, other).is_eq()
}

// Which of two marks is first.
fn compare_marks(codes: &[u8], one: &Mark, other: &Mark) -> Ordering
    ensures { result ≡ mark_cmp codes.now one.now other.now }
{
    if one.prefix != other.prefix {
        return one.prefix.cmp(&other.prefix);
    }
    let code = code_from(codes, one.start);
    let other_code = code_from(codes, other.start);
    compare_codes(code, other_code).then(one.row.cmp(&other.row))
}

// Puts the marks in the order of their pairs.
fn sort_marks(codes: &[u8], marks: &mut Vec<Mark>)
    requires { AllByRecursion (IsMark codes.now) marks.old.items }
    ensures marks { AllByRecursion (IsMark codes.now) marks.new.items }
    ensures sorted { pairs_at codes.now marks.new.items
        ≡ sorted (pairs_at codes.now marks.old.items) }
{
    marks.sort_unstable_by(|one, other| compare_marks(codes, one, other));
}

// Writes the number of a row, if it is one of the column's.
fn write_number(column: &mut [u64], row: u64, number: u64)
    ensures { (r : ℕ) → r < length column.old
        → slice_index column.new r ≡ (if r == row then number else slice_index column.old r) }
{
    let place = row as usize;
    if place < column.len() {
        column[place] = number;
    }
}

// Whether the row's flag is set.
fn is_set(flags: &[bool], row: u64) -> bool
    ensures { result ≡ slice_index_or flags.now row false }
{
    flags.get(row as usize).copied().unwrap_or(false)
}

// Takes out the marks of rows whose flag is not set.
fn retain_marks(marks: &mut Vec<Mark>, flags: &[bool])
    ensures { marks.new.items ≡ filter (is_flagged flags.now) marks.old.items }
{
    marks.retain(|mark| is_set(flags, mark.row));
}

// Puts in place of a mark's row number the pointer that stands at it.
fn point_mark(mark: &mut Mark, pointers: &RowPointers)
    ensures { mark.new ≡ pointed_mark pointers.now mark.old }
{
    mark.row = pointers.at(mark.row);
}

// The same for each mark.
fn point_marks(marks: &mut [Mark], pointers: &RowPointers)
    ensures { marks.new ≡ map (pointed_mark pointers.now) marks.old }
{
    for mark in marks.iter_mut() {
        point_mark(mark, pointers);
    }
}
