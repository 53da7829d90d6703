//! Numbers and pointers in bytes.
use case_lines::{Fault, PlaceText, Words, size};
use myi_base::{number_at, pointer_of};

/// The greatest width of a number, in bytes.
const MOST_WIDTH: usize = 8;

/// `number AT WIDTH BYTES`: the number of so many bytes at a place, high byte first, and where it points.
fn number(words: &Words, args: &[&str]) -> Result<String, Fault> {
    let [at, width, bytes] = args else {
        return Err(Fault::Unread);
    };
    let (at, width) = (size(*at)?, size(*width)?);
    let bytes = words.bytes(*bytes)?;
    if width > MOST_WIDTH || at > bytes.len() || bytes.len() - at < width {
        return Err(Fault::Unread);
    }
    let number = number_at(&bytes, at, width);
    let place = PlaceText(pointer_of(number));
    Ok(format!(in words.alloc(); "{number} {place}")?)
}

/// The answer to a call of this module, and None where the name is no such call.
pub fn answer(words: &Words, name: &str, args: &[&str]) -> Option<Result<String, Fault>> {
    match name {
        "number" => Some(number(words, args)),
        _ => None,
    }
}
