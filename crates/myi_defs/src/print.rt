//! Printing definitions.
//!
//! `print_defs` gives the header of an empty table. Items that this crate does not read stay as they
//! were in the header that the definitions came from.
ghost use Rattle.std.specs.Prelude.{◌≡◌, ◌≤◌, ◌+◌, ◌++◌, length, take, drop, OnOk, IfOk};
ghost use Rattle.myi_defs.specs.Header as layout;
ghost use Rattle.myi_defs.specs.EmptyTable as spec;
ghost use Rattle.myi_defs.specs.ReadDefs.{AreDefs, read_defs};

use crate::header::Front;
use crate::layout::{BASE_LENGTH, FRONT_LENGTH, MARK, MARK_PLACE, all_keys, first_page_behind};
use crate::types::Defs;
use myi_base::append_u64;
use std::alloc::{AllocError, Global};

/// The header of an empty table with these definitions, with the mark, and with zeros up to the place
/// of the first index page. Items that definitions do not say, as flags and the numbers of a row's
/// collation, are those of the header that the definitions were read from.
pub fn print_defs(alloc: Global, defs: &Defs) -> Result<Vec<u8>, AllocError>
    requires { AreDefs defs.now }
    ensures bytes { IfOk result (λ bytes. bytes.items ≡ spec.empty_header defs.now.raw) }
    ensures read { IfOk result (λ bytes.
        read_defs bytes.items
        ≡ Ok (record defs.now { raw = take (length defs.now.raw) bytes.items })) }
{
    let raw = defs.raw.as_slice();
    let front = Front::read(raw);
    Ok(empty_header(alloc, &front, raw)?)
}

#[tactic(auto, unfolding(crate::specs::EmptyTable::empty_header))]
fn empty_header(alloc: Global, front: &Front, raw: &[u8]) -> Result<Vec<u8>, AllocError>
    requires front { front.now ≡ layout.front raw.now }
    requires base { front.now.base_pos + 100 ≤ length raw.now }
    requires front_length { 24 ≤ length raw.now }
    requires short { length raw.now ≤ 65535 }
    ensures { IfOk result (λ bytes. bytes.items ≡ spec.empty_header raw.now) }
{
    let base_pos = front.base_pos as usize;
    let end = first_page_behind(raw.len());
    let rest = &raw[base_pos + BASE_LENGTH..];
    let mut bytes = Vec::with_capacity(alloc, end)?;
    bytes.extend_from_slice(front_bytes(raw))?;
    append_state(&mut bytes, front, end as u64)?;
    bytes.extend_from_slice(base_bytes(raw, base_pos))?;
    bytes.extend_from_slice(&MARK)?;
    bytes.extend_from_slice(rest)?;
    append_zeros(&mut bytes, end - raw.len())?;
    Ok(bytes)
}

#[tactic(auto, unfolding(crate::specs::EmptyTable::front_bytes))]
fn front_bytes(raw: &[u8]) -> &[u8]
    requires { 24 ≤ length raw.now }
    ensures { result.now ≡ spec.front_bytes raw.now }
{
    &raw[..FRONT_LENGTH]
}

#[tactic(auto, unfolding(crate::specs::EmptyTable::base_bytes))]
fn base_bytes(raw: &[u8], at: usize) -> &[u8]
    requires { at + 100 ≤ length raw.now }
    ensures { result.now ≡ spec.base_bytes at raw.now }
{
    &raw[at..at + MARK_PLACE]
}

/// Appends the state of a table without rows, whose index file has this length.
#[tactic(auto, unfolding(crate::specs::EmptyTable::empty_state))]
pub fn append_state(out: &mut Vec<u8>, front: &Front, index_length: u64) -> Result<(), AllocError>
    ensures { OnOk result
        (out.new.items ≡ out.old.items ++ spec.empty_state front.now index_length) }
{
    append_zeros(out, 28)?;
    append_nulls(out, 1)?;
    append_u64(out, index_length)?;
    append_zeros(out, 56)?;
    append_nulls(out, front.keys as usize + front.page_sizes as usize)?;
    append_zeros(out, 12)?;
    append_u64(out, all_keys(front.keys))?;
    append_zeros(out, 32 + 4 * front.key_parts as usize)?;
    Ok(())
}

/// Appends so many zeros.
#[tactic(auto, unfolding(crate::specs::EmptyTable::zeros))]
pub fn append_zeros(out: &mut Vec<u8>, count: usize) -> Result<(), AllocError>
    ensures { OnOk result (out.new.items ≡ out.old.items ++ spec.zeros count) }
{
    match out.len().checked_add(count) {
        Some(length) => out.resize(length, 0),
        None => Err(AllocError),
    }
}

#[tactic(auto, unfolding(crate::specs::EmptyTable::nulls))]
fn append_nulls(out: &mut Vec<u8>, count: usize) -> Result<(), AllocError>
    requires { count ≤ 510 }
    ensures { OnOk result (out.new.items ≡ out.old.items ++ spec.nulls count) }
{
    match out.len().checked_add(8 * count) {
        Some(length) => out.resize(length, 0xFF),
        None => Err(AllocError),
    }
}
