//! The values of a line.
ghost use Rattle.std.specs.Prelude.{◌≡◌, ◌≤◌, ◌<◌, ◌+◌, ◌-◌, ◌*◌, ◌^◌, nat_le, if◌then◌else◌, length, Option, Some, None, IfOk, IfSome};
ghost use Rattle.std.specs.List.{list_all};
ghost use Rattle.myi_base.specs.Numbers.{low_num_bytes};
ghost use Rattle.myi_deftext.specs.Text as text;
ghost use Rattle.myi_script.specs.Values.{IsForm, filled};
ghost use Rattle.myi_script.specs.Reading as spec;

use crate::form::{Form, greatest_of};
use byteorder::{ByteOrder, LittleEndian};
use myi_base::Sequence;
use myi_pack::Value;
use std::alloc::{AllocError, Global};

fn digit_of(byte: u8) -> Option<u8>
    ensures value { result ≡ spec.digit_of byte }
    ensures low { IfSome result (λ d. d < 16) }
{
    match byte {
        b'0'..=b'9' => Some(byte - b'0'),
        b'A'..=b'F' => Some(byte - b'A' + 10),
        _ => None,
    }
}

fn byte_of(first: u8, second: u8) -> Option<u8>
    ensures { result ≡ spec.byte_of (spec.digit_of first) (spec.digit_of second) }
{
    let high = digit_of(first)?;
    let low = digit_of(second)?;
    Some(high * 16 + low)
}

// The bytes of a text in hexadecimal digits.
fn unhex(alloc: Global, word: &[u8]) -> Result<Option<Value>, AllocError>
    ensures { IfOk result (λ v. v ≡ spec.unhex word.now) }
{
    let mut bytes = Vec::with_capacity(alloc, word.len() / 2)?;
    let mut rest = word;
    while let [first, second, tail @ ..] = rest {
        match byte_of(*first, *second) {
            Some(byte) => bytes.push(byte)?,
            None => return Ok(None),
        }
        rest = tail;
    }
    if !rest.is_empty() {
        return Ok(None);
    }
    Ok(Some(Sequence::new(bytes)))
}

fn hex_of(alloc: Global, form: Form, word: &[u8]) -> Result<Option<Value>, AllocError>
    ensures { IfOk result (λ v. v ≡ spec.hex_of form word.now) }
{
    match unhex(alloc, word)? {
        Some(bytes) if form.fits(bytes.as_slice().len()) => Ok(Some(bytes)),
        _ => Ok(None),
    }
}

fn is_printable(byte: u8) -> bool
    ensures { result ≡ spec.is_printable byte }
{
    byte >= b' ' && byte < 127 && byte != b'\''
}

fn are_printable(text: &[u8]) -> bool
    ensures { result ≡ list_all spec.is_printable text.now }
{
    text.iter().all(|byte| is_printable(*byte))
}

// A text, filled up with spaces to the one length.
fn filled(alloc: Global, form: Form, text: &[u8]) -> Result<Vec<u8>, AllocError>
    requires { length text.now ≤ form.most }
    ensures { IfOk result (λ v. v.items ≡ filled form text.now) }
{
    let mut content = Vec::from_slice(alloc, text)?;
    if form.fixed {
        content.resize(form.most as usize, b' ')?;
    }
    Ok(content)
}

// A value after its first quote.
fn quoted_of(alloc: Global, form: Form, rest: &[u8]) -> Result<Option<Value>, AllocError>
    ensures { IfOk result (λ v. v ≡ spec.quoted_of form rest.now) }
{
    if rest.is_empty() || rest[rest.len() - 1] != b'\'' {
        return Ok(None);
    }
    let text = &rest[..rest.len() - 1];
    if !are_printable(text) || text.len() as u64 > form.most {
        return Ok(None);
    }
    Ok(Some(Sequence::new(filled(alloc, form, text)?)))
}

fn are_digits(word: &[u8]) -> bool
    ensures { result ≡ list_all text.is_digit word.now }
{
    word.iter().all(|byte| is_digit(*byte))
}

fn is_digit(byte: u8) -> bool
    ensures { result ≡ text.is_digit byte }
{
    byte >= b'0' && byte <= b'9'
}

#[tactic(auto, unfolding(myi_deftext::specs::Text::is_decimal))]
fn is_decimal(word: &[u8]) -> bool
    ensures { result ≡ text.is_decimal word.now }
{
    are_digits(word) && (word.len() == 1 || word.len() > 1 && word[0] != b'0')
}

// The number that digits say, and none where it is above the greatest.
#[tactic(auto, unfolding(myi_deftext::specs::Text::value))]
fn value_up_to(most: u64, word: &[u8]) -> Option<u64>
    ensures value { result
        ≡ (if nat_le (text.value word.now) most then Some (text.value word.now) else None) }
    ensures few { IfSome result (λ n. n ≤ most) }
{
    let mut value = 0u128;
    for byte in word {
        value = value * 10 + (*byte as u128).saturating_sub(48);
        if value > most as u128 {
            return None;
        }
    }
    Some(value as u64)
}

/// The number that a word says, from a least one to a greatest, in decimal digits without a leading zero.
#[tactic(auto, unfolding(myi_deftext::specs::Text::number))]
pub(crate) fn number(least: u64, most: u64, word: &[u8]) -> Option<u64>
    ensures value { result ≡ text.number least most word.now }
    ensures few { IfSome result (λ n. n ≤ most) }
    ensures many { IfSome result (λ n. least ≤ n) }
{
    if !is_decimal(word) {
        return None;
    }
    let number = value_up_to(most, word)?;
    if number < least {
        return None;
    }
    Some(number)
}

#[tactic(auto, unfolding(myi_base::specs::Numbers::low_num_bytes))]
fn low_bytes(alloc: Global, width: u64, number: u64) -> Result<Value, AllocError>
    requires some { 0 < width }
    requires narrow { width ≤ 8 }
    requires fits { number < 256 ^ width }
    ensures { IfOk result (λ v. v ≡ low_num_bytes width number) }
{
    let mut bytes = [0u8; 8];
    LittleEndian::write_uint(&mut bytes, number, width as usize);
    Ok(Sequence::new(Vec::from_slice(alloc, &bytes[..width as usize])?))
}

fn positive_of(alloc: Global, form: Form, digits: &[u8]) -> Result<Option<Value>, AllocError>
    requires { IsForm form }
    ensures { IfOk result (λ v. v ≡ spec.positive_of form digits.now) }
{
    let Some(most) = form.greatest() else {
        return Ok(None);
    };
    match number(0, most, digits) {
        Some(number) => Ok(Some(low_bytes(alloc, form.most, number)?)),
        None => Ok(None),
    }
}

fn negative_of(alloc: Global, form: Form, digits: &[u8]) -> Result<Option<Value>, AllocError>
    requires { IsForm form }
    ensures { IfOk result (λ v. v ≡ spec.negative_of form digits.now) }
{
    let Some(most) = form.depth() else {
        return Ok(None);
    };
    match number(1, most, digits) {
        Some(number) => {
            let bytes = low_bytes(alloc, form.most, greatest_of(form.most) - (number - 1))?;
            Ok(Some(bytes))
        }
        None => Ok(None),
    }
}

// The number of a value, after its `#`.
fn number_of(alloc: Global, form: Form, rest: &[u8]) -> Result<Option<Value>, AllocError>
    requires { IsForm form }
    ensures { IfOk result (λ v. v ≡ spec.number_of form rest.now) }
{
    match rest {
        [] => Ok(None),
        [b'-', digits @ ..] => negative_of(alloc, form, digits),
        _ => positive_of(alloc, form, rest),
    }
}

/// The content of a value.
#[tactic(auto, unfolding(crate::specs::Reading::value_of))]
pub(crate) fn value_of(alloc: Global, form: Form, word: &[u8]) -> Result<Option<Value>, AllocError>
    requires { IsForm form }
    ensures { IfOk result (λ v. v ≡ spec.value_of form word.now) }
{
    match word {
        [] => Ok(None),
        [b'\'', rest @ ..] => quoted_of(alloc, form, rest),
        [b'#', rest @ ..] => number_of(alloc, form, rest),
        [b'-'] => {
            if form.fixed {
                Ok(None)
            } else {
                Ok(Some(Sequence::new(Vec::new(alloc))))
            }
        }
        _ => hex_of(alloc, form, word),
    }
}
