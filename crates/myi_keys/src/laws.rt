//! Laws over the definitions of this crate. Each is the contract of a function that does nothing, so
//! that it is proved with the crate and stands for the crates above.
ghost use Rattle.std.specs.Prelude.{if◌then◌else◌, ◌≡◌, ◌≢◌, ◌≤◌, ◌<◌, ◌+◌, ◌-◌, ◌↔◌, ◌++◌};
ghost use Rattle.std.specs.Prelude.{All, nat_lt, ℕ, List, length, take, drop, map, max};
ghost use Rattle.std.specs.Prelude.{replicate, slice_index, count_by, Some, Ok, Err};
ghost use Rattle.std.specs.List.{range_with_len};
ghost use Rattle.std.specs.Char.{to_ascii_uppercase};
ghost use Rattle.std.specs.Ordering.{nat_cmp, int_cmp};
ghost use Rattle.std.specs.declared.cmp.Ordering.{Ordering};
ghost use Rattle.std.specs.declared.cmp.Ordering.TheVariants.{Less, Equal};
ghost use Rattle.std.specs.Cmp.{IsTotalOrder};
ghost use Rattle.std.specs.Cmp.Lexicographic.{slice_cmp};
ghost use Rattle.myi_base.specs.Numbers.{AreBytes};
ghost use Rattle.myi_defs.specs.declared.types.Segment.{Segment};
ghost use Rattle.myi_defs.specs.Kinds.{int_size};
ghost use Rattle.myi_keys.specs.declared.values.KeySeg.{KeySeg};
ghost use Rattle.myi_keys.specs.declared.codes.KeyFault.{KeyFault};
ghost use Rattle.myi_keys.specs.declared.collations.Collation.TheVariants.{Latin1SwedishCi};
ghost use Rattle.myi_keys.specs.Limits.{IsKey};
ghost use Rattle.myi_keys.specs.Order.{key_cmp};
ghost use Rattle.myi_keys.specs.Codes.{seg_code, key_code, HasBytes};
ghost use Rattle.myi_keys.specs.Comparing.{key_front, code_cmp, key_prefix, IsCode, AreAlike};
ghost use Rattle.myi_keys.specs.Decoding.{key_at};
ghost use Rattle.myi_keys.specs.Faults.{BreaksOff};
ghost use Rattle.myi_keys.specs.Collations.{weight, letters_with_accents};
ghost use Rattle.myi_keys.specs.Weights.{weights, CanWeigh, begins_character};
ghost use Rattle.myi_keys.specs.Weights.{first_characters};
ghost use Rattle.myi_keys.specs.Integers.{IsSigned, IsUnsigned, signed_number, unsigned_number};

use crate::collations::LATIN1_SWEDISH_CI;

/// The order of keys is a total order, and two keys stand equal in it exactly where they are equal.
pub fn keys_totally_ordered()
    ensures total { IsTotalOrder key_cmp }
    ensures equal { (one other : List KeySeg)
        → (key_cmp one other ≡ Ordering.Equal) ↔ (one ≡ other) }
{}

/// The weights of integers stand in the order of the numbers that their contents are.
pub fn integers_in_order()
    ensures signed { (seg : Segment) (x y : List ℕ)
        → IsSigned seg.seg → CanWeigh seg x → CanWeigh seg y → AreBytes x → AreBytes y
        → slice_cmp nat_cmp (weights seg x) (weights seg y)
        ≡ int_cmp (signed_number x) (signed_number y) }
    ensures unsigned { (seg : Segment) (x y : List ℕ)
        → IsUnsigned seg.seg → CanWeigh seg x → CanWeigh seg y → AreBytes x → AreBytes y
        → slice_cmp nat_cmp (weights seg x) (weights seg y)
        ≡ nat_cmp (unsigned_number x) (unsigned_number y) }
{}

/// A code is read back to its key, no two keys have one code, and what is read is coded so.
pub fn codes_read_back()
    ensures once { (one other : List KeySeg) → key_code one ≡ key_code other → one ≡ other }
    ensures read { (key : List KeySeg) → IsKey key → key_at (key_code key) ≡ Ok key }
    ensures written { (bytes : List ℕ) (key : List KeySeg)
        → AreBytes bytes → key_at bytes ≡ Ok key → bytes ≡ key_code key }
    ensures limits { (bytes : List ℕ) (key : List KeySeg) → AreBytes bytes → key_at bytes ≡ Ok key
        → IsKey key }
{}

/// The code of a key stands for the key, and is a code. Codes compare as their keys do. The order of all
/// bytes by the keys that they stand for is total. Where no segment is absent and both keys have segments
/// of the same lengths, codes stand in byte order. A lesser number of first weights is a lesser code.
pub fn codes_stand_for_keys()
    ensures again { (key : List KeySeg) → IsKey key → key_front (key_code key) ≡ key }
    ensures code { (key : List KeySeg) → IsKey key → IsCode (key_code key) }
    ensures order { (one other : List KeySeg) → IsKey one → IsKey other
        → code_cmp (key_code one) (key_code other) ≡ key_cmp one other }
    ensures total { IsTotalOrder code_cmp }
    ensures alike { (one other : List KeySeg) → AreAlike one other
        → slice_cmp nat_cmp (key_code one) (key_code other) ≡ key_cmp one other }
    ensures prefixes { (one other : List ℕ) → AreBytes one → AreBytes other
        → key_prefix (key_front one) < key_prefix (key_front other)
        → code_cmp one other ≡ Less }
{}

/// The code of a key whose weights are bytes is bytes, and a segment's code is longer than its weights
/// by one byte, or by three where 254 weights or more may be there.
pub fn codes_fit()
    ensures bytes { (key : List KeySeg) → IsKey key → All HasBytes key → AreBytes (key_code key) }
    ensures length { (most : ℕ) (weights : List ℕ) → length weights ≤ most
        → length (seg_code (KeySeg.Weights weights))
        ≤ (if nat_lt most 254 then most + 1 else most + 3) }
{}

/// Bytes are read with a fault exactly where their first bad place is bad in this way.
pub fn faults_at_first_place()
    ensures { (bytes : List ℕ) (fault : KeyFault)
        → AreBytes bytes → (key_at bytes ≡ Err fault) ↔ BreaksOff fault bytes }
{}

/// The table of collation 8: below C0 the weights are those of collation 11, so that 61 to 7A weigh 20
/// hexadecimal less, and from C0 on they are those of letters with accents.
pub fn swedish_table()
    ensures size { length LATIN1_SWEDISH_CI ≡ 256 }
    ensures below { take 0xC0 LATIN1_SWEDISH_CI ≡ map to_ascii_uppercase (range_with_len 0 0xC0) }
    ensures above { drop 0xC0 LATIN1_SWEDISH_CI ≡ letters_with_accents }
    ensures small_letters { (b : ℕ) → 0x61 ≤ b → b ≤ 0x7A → weight Latin1SwedishCi b ≡ b - 0x20 }
    ensures before { (b : ℕ) → b < 0x61 → weight Latin1SwedishCi b ≡ b }
    ensures between { (b : ℕ) → 0x7A < b → b < 0xC0 → weight Latin1SwedishCi b ≡ b }
{}

/// The characters that a length has room for are the longest prefix with at most so many bytes that
/// begin one.
pub fn characters_cut()
    ensures prefix { (n : ℕ) (bytes : List ℕ)
        → first_characters n bytes ≡ take (length (first_characters n bytes)) bytes }
    ensures few { (n : ℕ) (bytes : List ℕ)
        → count_by begins_character (first_characters n bytes) ≤ n }
    ensures longest { (n k : ℕ) (bytes : List ℕ) → k ≤ length bytes
        → count_by begins_character (take k bytes) ≤ n → k ≤ length (first_characters n bytes) }
{}

/// Weights are bytes. They are no more than the bytes of the content, and no more than the segment's
/// length or the eight bytes of the widest integer; where an integer's segment has its type's size, no more
/// than the segment's length.
pub fn weights_fit()
    ensures bytes { (seg : Segment) (content : List ℕ) → AreBytes content
        → AreBytes (weights seg content) }
    ensures content { (seg : Segment) (content : List ℕ)
        → length (weights seg content) ≤ length content }
    ensures segment { (seg : Segment) (content : List ℕ)
        → CanWeigh seg content → length (weights seg content) ≤ max seg.length 8 }
    ensures sized { (seg : Segment) (content : List ℕ)
        → ((n : ℕ) → int_size seg.seg ≡ Some n → seg.length ≡ n)
        → CanWeigh seg content → length (weights seg content) ≤ seg.length }
{}
