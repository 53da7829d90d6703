//! Numbers among the words of a command.
ghost use Rattle.std.specs.Prelude.{◌≡◌, ◌≤◌, None, Some, IfSome, nat_le, if◌then◌else◌};
ghost use Rattle.std.specs.List.{list_all};
ghost use Rattle.myi_deftext.specs.Text.{is_digit, value};
ghost use Rattle.myisamkit.specs.Numbers as spec;

/// The number of a word of one to twenty digits, where it is from the one number to the other.
pub(crate) fn number_in(least: u64, most: u64, word: &[u8]) -> Option<u64>
    ensures is { result ≡ spec.number_in least most word.now }
    ensures few { IfSome result (λ number. number ≤ most) }
{
    if word.is_empty() || word.len() > 20 || !are_digits(word) {
        return None;
    }
    let number = number_up_to(most, word)?;
    if number < least {
        return None;
    }
    Some(number)
}

fn are_digits(word: &[u8]) -> bool
    ensures { result ≡ list_all is_digit word.now }
{
    word.iter().all(|byte| is_digit(*byte))
}

fn is_digit(byte: u8) -> bool
    ensures { result ≡ is_digit byte }
{
    byte >= b'0' && byte <= b'9'
}

// The number that digits write, where it is at most that one.
fn number_up_to(most: u64, digits: &[u8]) -> Option<u64>
    ensures { result
        ≡ (if nat_le (value digits.now) most then Some (value digits.now) else None) }
{
    let mut number = 0u128;
    for digit in digits {
        number = number * 10 + (*digit as u128).saturating_sub(48);
        if number > most as u128 {
            return None;
        }
    }
    Some(number as u64)
}
