//! Words and the bytes that they hold.
ghost use Rattle.std.specs.Prelude.{◌≡◌, ◌≢◌, ◌≤◌, ◌<◌, ◌+◌, ◌*◌, ◌/◌, ◌∷◌, ◌++◌};
ghost use Rattle.std.specs.Prelude.{ℕ, List, length, vec_len, nat_eq, None, MatchOption};
ghost use Rattle.std.specs.Vec.{vec_capacity};
ghost use Rattle.std.specs.List.{flat_map, starts_with};
ghost use Rattle.myi_base.specs.Numbers.{low_num_bytes};
ghost use Rattle.myi_tail.specs.Rows.{bytes_words};
ghost use Rattle.myi_spelling.specs.Pieces.{NoneStands, IsAppended};

use byteorder::{ByteOrder, LittleEndian};
use myi_base::le;

/// How many words so many bytes take, and None where there are not so many.
pub(crate) fn word_count(bytes: u64, words: &[u64]) -> Option<usize>
    ensures { MatchOption result (length words.now < (bytes + 7) / 8)
        (λ count. (count ≡ (bytes + 7) / 8) × (count ≤ length words.now)) }
{
    let count = bytes.div_ceil(8);
    if count > words.len() as u64 {
        return None;
    }
    Some(count as usize)
}

// The eight bytes of a word, low byte first.
#[tactic(auto, unfolding(myi_base::specs::Numbers::low_num_bytes))]
fn bytes_of(word: u64) -> [u8; 8]
    ensures { result ≡ low_num_bytes 8 word }
{
    let mut eight = [0; 8];
    LittleEndian::write_u64(&mut eight, word);
    eight
}

// Appends the bytes of a word, for which there is memory.
fn append_word(bytes: &mut Vec<u8>, word: u64)
    requires { vec_len bytes.old + 8 ≤ vec_capacity bytes.old }
    ensures bytes { bytes.new.items ≡ bytes.old.items ++ low_num_bytes 8 word }
    ensures memory { vec_capacity bytes.new ≡ vec_capacity bytes.old }
{
    for byte in &bytes_of(word) {
        bytes.push_reserved(*byte);
    }
}

/// Appends the bytes of words, for which there is memory.
pub(crate) fn append_words(bytes: &mut Vec<u8>, words: &[u64])
    requires { vec_len bytes.old + 8 * length words.now ≤ vec_capacity bytes.old }
    ensures bytes { bytes.new.items ≡ bytes.old.items ++ flat_map (low_num_bytes 8) words.now }
    ensures memory { vec_capacity bytes.new ≡ vec_capacity bytes.old }
{
    for word in words {
        append_word(bytes, *word);
    }
}

// The words behind this one, where it is the first.
fn behind<'a>(words: &'a [u64], word: u64) -> Option<&'a [u64]>
    ensures { MatchOption result ((rest : List ℕ) → words.now ≢ word ∷ rest)
        (λ rest. words.now ≡ word ∷ rest.now) }
{
    let [first, rest @ ..] = words else {
        return None;
    };
    if *first != word {
        return None;
    }
    Some(rest)
}

/// Whether words begin with those of a row's bytes.
pub(crate) fn begin_with_words_of(words: &[u64], row: &[u8]) -> bool
    ensures { result ≡ starts_with nat_eq words.now (bytes_words row.now) }
{
    let mut left = words;
    for eight in row.chunks(8) {
        let Some(rest) = behind(left, le(eight)) else {
            return false;
        };
        left = rest;
    }
    true
}

/// Appends the bytes of the row that stands in front of the words, and answers how many words it takes; None where none
/// stands there. There is memory for all that the words hold.
pub(crate) fn append_row(bytes: &mut Vec<u8>, words: &[u64]) -> Option<usize>
    requires { vec_len bytes.old + 8 * length words.now ≤ vec_capacity bytes.old }
    ensures row { MatchOption result (NoneStands words.now)
        (λ count. IsAppended words.now count bytes.old.items bytes.new.items) }
    ensures none { result ≡ None → bytes.new.items ≡ bytes.old.items }
    ensures memory { vec_capacity bytes.new ≡ vec_capacity bytes.old }
{
    let Some((size, rest)) = words.split_first() else {
        return None;
    };
    let Some(count) = word_count(*size, rest) else {
        return None;
    };
    let begin = bytes.len();
    append_words(bytes, &rest[..count]);
    bytes.truncate(begin + *size as usize);
    if !begin_with_words_of(rest, &bytes[begin..]) {
        bytes.truncate(begin);
        return None;
    }
    Some(count + 1)
}
