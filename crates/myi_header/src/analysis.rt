//! What an index file says of the last analysis of its table, and the bytes that an analysis changes.
//!
//! `changed_bits`, `rows_counted` and `part_number` read it of a header. `new_numbers` gives a
//! `NewNumbers`: each run of bytes that is written for new numbers, with its place.
ghost use Rattle.std.specs.Prelude.{◌≡◌, ◌<◌, ◌≤◌, ◌+◌, ◌++◌, ◌^◌, length, map, IfOk, OnOk};
ghost use Rattle.std.specs.List.{AllByRecursion};
ghost use Rattle.myi_base.specs.Items.{spelling};
ghost use Rattle.myi_defs.specs.Sound.{IsSound};
ghost use Rattle.myi_header.specs.Layout.{key_parts};
ghost use Rattle.myi_header.specs.Analysis as spec;

use crate::state::layout_of;
use myi_base::{append_number, append_u64, u8_at, u32_at, u64_at};
use myi_defs::Defs;
use std::alloc::{AllocError, Global};

/// Where the changed bits stand in an index file.
pub const CHANGED_PLACE: u64 = 26;

/// The changed bit that says that the rows per prefix are not counted.
pub const NOT_ANALYZED: u8 = 8;

/// The changed bit that says that the pages of the trees do not stand in their order.
pub const NOT_SORTED_PAGES: u8 = 32;

/// The changed bits of a table that was made anew, as by a repair or by sorting.
pub const ANEW_BITS: u8 = NOT_ANALYZED | NOT_SORTED_PAGES;

/// What an analysis writes into an index file.
#[derive(Drop)]
pub struct NewNumbers {
    /// The changed bits, which stand at `CHANGED_PLACE`.
    pub changed: u8,
    /// Where the other numbers stand.
    pub place: u64,
    /// The bytes of the number of rows, and of the numbers of the key parts.
    pub bytes: Vec<u8>,
}

/// What is written for so many rows and these numbers of the key parts.
pub fn new_numbers(
    alloc: Global,
    defs: &Defs,
    rows: u64,
    parts: &[u64],
) -> Result<NewNumbers, AllocError>
    requires sound { IsSound defs.now }
    requires small { AllByRecursion (λ n. n < 256 ^ 4) parts.now }
    ensures changed { IfOk result (λ n.
        n.changed ≡ spec.analyzed_bits (spec.changed_bits defs.now.raw)) }
    ensures place { IfOk result (λ n. n.place ≡ spec.rows_place defs.now) }
    ensures bytes { IfOk result (λ n. n.bytes.items ≡ spec.number_bytes rows parts.now) }
{
    Ok(NewNumbers {
        changed: analyzed_bits(changed_bits(defs.raw.as_slice())),
        place: rows_place(defs),
        bytes: number_bytes(alloc, rows, parts)?,
    })
}

/// The changed bits of an index file.
pub fn changed_bits(index: &[u8]) -> u8
    requires { spec.changed_place < length index.now }
    ensures { result ≡ spec.changed_bits index.now }
{
    u8_at(index, CHANGED_PLACE as usize)
}

/// For how many rows the numbers of the key parts of an index file were counted.
pub fn rows_counted(defs: &Defs, index: &[u8]) -> u64
    requires sound { IsSound defs.now }
    requires long { length defs.now.raw ≤ length index.now }
    ensures { result ≡ spec.rows_counted defs.now index.now }
{
    u64_at(index, rows_place(defs) as usize)
}

/// The number of a key part, from 0, in an index file.
pub fn part_number(defs: &Defs, index: &[u8], part: usize) -> u32
    requires sound { IsSound defs.now }
    requires long { length defs.now.raw ≤ length index.now }
    requires part { part < key_parts defs.now }
    ensures { result ≡ spec.part_number defs.now part index.now }
{
    u32_at(index, rows_place(defs) as usize + 8 + 4 * part)
}

// The changed bits without the one that says not analyzed.
fn analyzed_bits(bits: u8) -> u8
    ensures { result ≡ spec.analyzed_bits bits }
{
    bits & !NOT_ANALYZED
}

// Where the number of rows stands, which those of the key parts follow.
fn rows_place(defs: &Defs) -> u64
    requires { IsSound defs.now }
    ensures { result ≡ spec.rows_place defs.now }
{
    layout_of(defs).recover_time as u64 + 16
}

fn number_bytes(alloc: Global, rows: u64, parts: &[u64]) -> Result<Vec<u8>, AllocError>
    requires { AllByRecursion (λ n. n < 256 ^ 4) parts.now }
    ensures { IfOk result (λ bytes. bytes.items ≡ spec.number_bytes rows parts.now) }
{
    let mut bytes = Vec::new(alloc);
    append_u64(&mut bytes, rows)?;
    append_parts(&mut bytes, parts)?;
    Ok(bytes)
}

fn append_parts(out: &mut Vec<u8>, parts: &[u64]) -> Result<(), AllocError>
    requires { AllByRecursion (λ n. n < 256 ^ 4) parts.now }
    ensures { OnOk result
        (out.new.items ≡ out.old.items ++ spelling (map (λ n. 4) parts.now) parts.now) }
{
    for number in parts {
        append_number(out, 4, *number)?;
    }
    Ok(())
}
