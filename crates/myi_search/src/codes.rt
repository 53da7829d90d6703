//! Whether bytes are a key's code, asked without taking memory for the key.
ghost use Rattle.std.specs.Prelude.{◌≡◌, true, Some, option_map, is_some, is_ok};
ghost use Rattle.myi_keys.specs.Decoding.{number_at, seg_at, key_at};
ghost use Rattle.myi_keys.specs.Comparing.{key_front, IsCode};
ghost use Rattle.myi_btree.specs.Nodes.{key_in};
ghost use Rattle.myi_search.specs.ReadCodes.{if_read, behind};

use myi_keys::{MOST_SEGMENTS, MOST_WEIGHTS, codes_read_back};

/// The least number that takes three bytes in a code, and the first of them.
const LEAST_WIDE: usize = 255;

// The number that a segment begins with, and the bytes behind it. None where no number stands there.
#[inline(always)]
#[tactic(auto, unfolding(myi_keys::specs::Decoding::number_at))]
fn number_of(bytes: &[u8]) -> Option<(usize, &[u8])>
    ensures { option_map (λ x. (x.0, x.1.now)) result ≡ if_read (number_at bytes.now) }
{
    match bytes {
        [first, rest @ ..] if (*first as usize) < LEAST_WIDE => Some((*first as usize, rest)),
        [_, high, low, rest @ ..] => {
            let number = u16::from_be_bytes([*high, *low]) as usize;
            if number < LEAST_WIDE {
                None
            } else {
                Some((number, rest))
            }
        }
        _ => None,
    }
}

// The bytes behind the first segment of a code. None where no segment stands there.
#[inline(always)]
#[tactic(auto, unfolding(myi_keys::specs::Decoding::seg_at))]
fn behind_segment(bytes: &[u8]) -> Option<&[u8]>
    ensures { option_map (λ x. x.now) result ≡ behind (seg_at bytes.now) }
{
    let (number, rest) = number_of(bytes)?;
    let count = number.saturating_sub(1);
    if count > MOST_WEIGHTS || rest.len() < count {
        return None;
    }
    Some(&rest[count..])
}

// Whether bytes can be read as a key to their end.
#[inline(always)]
fn can_be_read(bytes: &[u8]) -> bool
    ensures { result ≡ is_ok (key_at bytes.now) }
{
    let mut rest = bytes;
    for _turn in 0..MOST_SEGMENTS {
        if rest.is_empty() {
            return true;
        }
        let Some(after) = behind_segment(rest) else {
            return false;
        };
        rest = after;
    }
    rest.is_empty()
}

/// Whether bytes are the code of a key. It takes no memory.
pub fn is_code(bytes: &[u8]) -> bool
    ensures read { result ≡ is_some (key_in bytes.now) }
    ensures key { result ≡ true → key_in bytes.now ≡ Some (key_front bytes.now) }
    ensures code { result ≡ true → IsCode bytes.now }
{
    codes_read_back();
    can_be_read(bytes)
}
