//! The words of a line. One space stands before each but the first.
ghost use Rattle.std.specs.Prelude.{◌≡◌, ◌==◌, ◌≤◌, not, ◌||◌, option_map, length, take, drop};
ghost use Rattle.std.specs.List.{prefix_len};
ghost use Rattle.std.specs.Option.{option_copied};
ghost use Rattle.myi_script.specs.Reading as spec;

// How many bytes from the front on are not this byte.
pub(crate) fn before(text: &[u8], byte: u8) -> usize
    ensures within { result ≤ length text.now }
    ensures value { result ≡ prefix_len (λ b. not (b == byte)) text.now }
{
    let mut at = 0;
    while at < text.len() && text[at] != byte {
        at += 1;
    }
    at
}

// How many bytes from the front on are no space and no comma.
fn before_end(text: &[u8]) -> usize
    ensures within { result ≤ length text.now }
    ensures value { result ≡ prefix_len spec.goes_on text.now }
{
    let mut at = 0;
    while at < text.len() && text[at] != b' ' && text[at] != b',' {
        at += 1;
    }
    at
}

// How many bytes the first value has.
fn value_len(text: &[u8]) -> usize
    ensures within { result ≤ length text.now }
    ensures front { take result text.now ≡ take (spec.value_len text.now) text.now }
    ensures back { drop result text.now ≡ drop (spec.value_len text.now) text.now }
{
    match text {
        [] => 0,
        [b'\'', rest @ ..] => {
            let end = before(rest, b'\'');
            if end < rest.len() {
                end + 2
            } else {
                text.len()
            }
        }
        _ => before_end(text),
    }
}

/// The first value, which this byte stands before, and what stands after it.
#[tactic(auto, unfolding(crate::specs::Reading::next_value))]
pub(crate) fn next_value(mark: u8, text: &[u8]) -> Option<(&[u8], &[u8])>
    ensures { option_map (λ p. (p.0.now, p.1.now)) result ≡ spec.next_value mark text.now }
{
    let [first, rest @ ..] = text else {
        return None;
    };
    if *first != mark {
        return None;
    }
    let end = value_len(rest);
    Some((&rest[..end], &rest[end..]))
}

/// What stands after a word.
#[tactic(auto, unfolding(crate::specs::Reading::after))]
pub(crate) fn after<'a>(word: &[u8], text: &'a [u8]) -> Option<&'a [u8]>
    ensures { option_copied result ≡ spec.after word.now text.now }
{
    if text.len() < word.len() || &text[..word.len()] != word {
        return None;
    }
    Some(&text[word.len()..])
}
