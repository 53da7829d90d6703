//! The statements of a script's lines.
ghost use Rattle.std.specs.Prelude.{◌≡◌, ◌<◌, ◌≤◌, List, All, length, IfOk, Some};
ghost use Rattle.myi_defs.specs.declared.types.Field.{Field};
ghost use Rattle.myi_defs.specs.Sound.{IsSound, IsSoundSegment};
ghost use Rattle.myi_script.specs.Grammar.{row_forms};
ghost use Rattle.myi_script.specs.Reading as spec;

use crate::bound::bound_of;
use crate::form::Form;
use crate::types::{Act, Range};
use crate::value::{number, value_of};
use crate::words::{after, before, next_value};
use myi_base::Sequence;
use myi_defs::{Defs, Segment};
use myi_locks::LockKind;
use myi_pack::{Row, fits};
use std::alloc::{AllocError, Global};

// A statement without values.
#[tactic(auto, unfolding(crate::specs::Reading::word_of))]
fn word_of(text: &[u8]) -> Option<Act>
    ensures { result ≡ spec.word_of text.now }
{
    if text == b"scan".as_slice() {
        Some(Act::Scan)
    } else if text == b"lock read".as_slice() {
        Some(Act::Lock(LockKind::Read))
    } else if text == b"lock read local".as_slice() {
        Some(Act::Lock(LockKind::ReadLocal))
    } else if text == b"lock write".as_slice() {
        Some(Act::Lock(LockKind::Write))
    } else if text == b"unlock".as_slice() {
        Some(Act::Unlock)
    } else if text == b"stats".as_slice() {
        Some(Act::Stats)
    } else if text == b"end".as_slice() {
        Some(Act::End)
    } else {
        None
    }
}

// One value for each field.
#[tactic(auto, unfolding(crate::specs::Reading::values_of))]
fn values_of(alloc: Global, defs: &Defs, text: &[u8]) -> Result<Option<Row>, AllocError>
    requires { IsSound defs.now }
    ensures { IfOk result (λ v. v ≡ spec.values_of (row_forms defs.now) text.now) }
{
    let mut row = Vec::new(alloc);
    let mut rest = text;
    for field in defs.fields.as_slice() {
        let Some((word, more)) = next_value(b' ', rest) else {
            return Ok(None);
        };
        let Some(content) = value_of(alloc, Form::of_field(defs.format, field), word)? else {
            return Ok(None);
        };
        row.push(content)?;
        rest = more;
    }
    if rest.is_empty() {
        Ok(Some(Sequence::new(row)))
    } else {
        Ok(None)
    }
}

// The row of a statement, where a table can have it.
#[tactic(auto, unfolding(crate::specs::Reading::row_of))]
fn row_of(alloc: Global, defs: &Defs, text: &[u8]) -> Result<Option<Row>, AllocError>
    requires { IsSound defs.now }
    ensures { IfOk result (λ v. v ≡ spec.row_of defs.now text.now) }
{
    match values_of(alloc, defs, text)? {
        Some(row) if fits(defs, &row) => Ok(Some(row)),
        _ => Ok(None),
    }
}

#[tactic(auto, unfolding(crate::specs::Reading::insert_of))]
fn insert_of(alloc: Global, defs: &Defs, text: &[u8]) -> Result<Option<Act>, AllocError>
    requires { IsSound defs.now }
    ensures { IfOk result (λ v. v ≡ spec.insert_of defs.now text.now) }
{
    let Some(values) = after(b"insert", text) else {
        return Ok(None);
    };
    match row_of(alloc, defs, values)? {
        Some(row) => Ok(Some(Act::Insert(row))),
        None => Ok(None),
    }
}

#[tactic(auto, unfolding(crate::specs::Reading::update_of))]
fn update_of(alloc: Global, defs: &Defs, text: &[u8]) -> Result<Option<Act>, AllocError>
    requires { IsSound defs.now }
    ensures { IfOk result (λ v. v ≡ spec.update_of defs.now text.now) }
{
    let Some(rest) = after(b"update ", text) else {
        return Ok(None);
    };
    let end = before(rest, b' ');
    let at = number(0, u64::MAX, &rest[..end]);
    let row = row_of(alloc, defs, &rest[end..])?;
    match (at, row) {
        (Some(at), Some(row)) => Ok(Some(Act::Update { at, row })),
        _ => Ok(None),
    }
}

#[tactic(auto, unfolding(crate::specs::Reading::delete_of))]
fn delete_of(text: &[u8]) -> Option<Act>
    ensures { result ≡ spec.delete_of text.now }
{
    let at = number(0, u64::MAX, after(b"delete ", text)?)?;
    Some(Act::Delete { at })
}

// A range of the key of these segments, by its bounds.
fn range_over(
    alloc: Global,
    segments: &[Segment],
    key: u8,
    text: &[u8],
) -> Result<Option<Act>, AllocError>
    requires sound { (fields : List Field) × All (IsSoundSegment fields) segments.now }
    requires short { All (λ s. s.length ≤ 1000) segments.now }
    requires few { length segments.now ≤ 16 }
    ensures { IfOk result (λ v. v
        ≡ spec.with_from segments.now key (spec.bound_of segments.now text.now)) }
{
    let Some((from, rest)) = bound_of(alloc, segments, text)? else {
        return Ok(None);
    };
    let Some((to, rest)) = bound_of(alloc, segments, rest)? else {
        return Ok(None);
    };
    if rest.is_empty() {
        Ok(Some(Act::Over(Range { key, from, to })))
    } else {
        Ok(None)
    }
}

// A range of this key, by its bounds.
fn range_with(alloc: Global, defs: &Defs, key: u8, text: &[u8]) -> Result<Option<Act>, AllocError>
    requires sound { IsSound defs.now }
    requires low { 0 < key }
    requires high { key ≤ length defs.now.keys }
    ensures { IfOk result (λ v. v ≡ spec.with_key defs.now text.now (Some key)) }
{
    let segments = defs.keys.as_slice()[key as usize - 1].segments.as_slice();
    range_over(alloc, segments, key, text)
}

#[tactic(auto, unfolding(crate::specs::Reading::range_of))]
fn range_of(alloc: Global, defs: &Defs, text: &[u8]) -> Result<Option<Act>, AllocError>
    requires { IsSound defs.now }
    ensures { IfOk result (λ v. v ≡ spec.range_of defs.now text.now) }
{
    let Some(rest) = after(b"range ", text) else {
        return Ok(None);
    };
    let end = before(rest, b' ');
    match number(1, defs.keys.as_slice().len() as u64, &rest[..end]) {
        Some(key) => range_with(alloc, defs, key as u8, &rest[end..]),
        None => Ok(None),
    }
}

// A statement that names a position.
#[tactic(auto, unfolding(crate::specs::Reading::place_of))]
fn place_of(alloc: Global, merge: bool, defs: &Defs, text: &[u8]) -> Result<Option<Act>, AllocError>
    requires { IsSound defs.now }
    ensures { IfOk result (λ v. v ≡ spec.place_of merge defs.now text.now) }
{
    if merge {
        return Ok(None);
    }
    if let Some(act) = update_of(alloc, defs, text)? {
        return Ok(Some(act));
    }
    Ok(delete_of(text))
}

#[tactic(auto, unfolding(crate::specs::Reading::statement_of))]
fn statement_of(
    alloc: Global,
    merge: bool,
    defs: &Defs,
    text: &[u8],
) -> Result<Option<Act>, AllocError>
    requires { IsSound defs.now }
    ensures { IfOk result (λ v. v ≡ spec.statement_of merge defs.now text.now) }
{
    if let Some(act) = word_of(text) {
        return Ok(Some(act));
    }
    if let Some(act) = insert_of(alloc, defs, text)? {
        return Ok(Some(act));
    }
    if let Some(act) = range_of(alloc, defs, text)? {
        return Ok(Some(act));
    }
    place_of(alloc, merge, defs, text)
}

/// The session and the statement of a line that does something.
#[tactic(auto, unfolding(crate::specs::Reading::line_of))]
pub(crate) fn line_of(
    alloc: Global,
    merge: bool,
    defs: &Defs,
    line: &[u8],
) -> Result<Option<(u32, Act)>, AllocError>
    requires { IsSound defs.now }
    ensures { IfOk result (λ v. v ≡ spec.line_of merge defs.now line.now) }
{
    match line {
        [b'S', session @ b'1'..=b'9', b' ', text @ ..] => {
            match statement_of(alloc, merge, defs, text)? {
                Some(act) => Ok(Some(((*session - b'0') as u32, act))),
                None => Ok(None),
            }
        }
        _ => Ok(None),
    }
}
