//! The rows of the table that is made.
ghost use Rattle.std.specs.Prelude.{◌≡◌, ◌<◌, ◌≤◌, ◌/◌, ◌%◌, ◌^◌, IfOk};
ghost use Rattle.myi_base.specs.Numbers.{low_num_bytes};
ghost use Rattle.myi_make.specs.MadeTable as spec;

use myi_base::Sequence;
use myi_pack::{Row, Value};
use std::alloc::{AllocError, Global};

/// The number behind a number.
#[tactic(auto, unfolding(crate::specs::MadeTable::next_number))]
pub(crate) fn next_number(x: u64) -> u64
    ensures { result ≡ spec.next_number x }
{
    x.wrapping_mul(6364136223846793005)
        .wrapping_add(1442695040888963407)
}

/// A letter of the text of a row's number.
#[tactic(auto, unfolding(crate::specs::MadeTable::letter))]
fn letter(x: u64, j: u32) -> u8
    requires { j < 64 }
    ensures { result ≡ spec.letter x j }
{
    97 + ((x >> j) % 26) as u8
}

/// A byte of the BLOB of a row's number.
#[tactic(auto, unfolding(crate::specs::MadeTable::blob_byte))]
fn blob_byte(x: u64, j: u32) -> u8
    ensures { result ≡ spec.blob_byte x j }
{
    ((x >> (8 * (j % 8))) % 256) as u8
}

/// The text of a row's number.
fn text_of(alloc: Global, x: u64) -> Result<Value, AllocError>
    ensures { IfOk result (λ text. text ≡ spec.letters x 0 (x / 2 ^ 32 % 41)) }
{
    let count = ((x >> 32) % 41) as u32;
    let mut text = Vec::with_capacity(alloc, count as usize)?;
    for j in 0..count {
        text.push(letter(x, j))?;
    }
    Ok(Sequence::new(text))
}

/// The BLOB of a row's number.
fn blob_of(alloc: Global, x: u64) -> Result<Value, AllocError>
    ensures { IfOk result (λ blob. blob ≡ spec.blob_bytes x 0 (x / 2 ^ 40 % 200)) }
{
    let count = ((x >> 40) % 200) as u32;
    let mut blob = Vec::with_capacity(alloc, count as usize)?;
    for j in 0..count {
        blob.push(blob_byte(x, j))?;
    }
    Ok(Sequence::new(blob))
}

/// Row i, of the number x.
#[tactic(auto, unfolding(crate::specs::MadeTable::row_of))]
pub(crate) fn row_of(alloc: Global, i: u32, x: u64) -> Result<Row, AllocError>
    ensures { IfOk result (λ row. row ≡ spec.row_of i x) }
{
    let mut values = Vec::with_capacity(alloc, 4)?;
    values.push(value(alloc, &[254])?)?;
    values.push(value(alloc, &number_bytes(i))?)?;
    values.push(text_of(alloc, x)?)?;
    values.push(blob_of(alloc, x)?)?;
    Ok(Sequence::new(values))
}

fn value(alloc: Global, bytes: &[u8]) -> Result<Value, AllocError>
    ensures { IfOk result (λ v. v ≡ bytes.now) }
{
    Ok(Sequence::new(Vec::from_slice(alloc, bytes)?))
}

/// A number in four bytes, low byte first.
#[tactic(auto, unfolding(myi_base::specs::Numbers::low_num_bytes))]
fn number_bytes(i: u32) -> [u8; 4]
    ensures { result ≡ low_num_bytes 4 i }
{
    i.to_le_bytes()
}
