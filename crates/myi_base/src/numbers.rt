//! Numbers in bytes, read and written.
//!
//! `be` and `le` read a whole slice. The calls with a width or a type read and write at a place, high
//! byte first, which is the order of index files and of block headers. A pointer of eight bytes is a
//! place in a file, or eight bytes FF where it points to nothing.
ghost use Rattle.std.specs.Prelude.{◌≡◌, ◌≤◌, ◌<◌, ◌+◌, ◌^◌, ◌++◌, length, take, drop, OnOk, OnErr};
ghost use Rattle.myi_base.specs.Numbers.{num, num_bytes, low_num, num_at};
ghost use Rattle.myi_base.specs.Numbers.{pointer_of, pointer_number};

use byteorder::{BigEndian, ByteOrder, LittleEndian};
use std::alloc::AllocError;

/// The number that the bytes spell, high byte first.
#[tactic(auto, unfolding(crate::specs::Numbers::num))]
pub fn be(bytes: &[u8]) -> u64
    requires some { 0 < length bytes.now }
    requires few { length bytes.now ≤ 8 }
    ensures value { result ≡ num (length bytes.now) bytes.now }
    ensures below { result < 256 ^ length bytes.now }
{
    BigEndian::read_uint(bytes, bytes.len())
}

/// The number that the bytes spell, low byte first.
#[tactic(auto, unfolding(crate::specs::Numbers::low_num))]
pub fn le(bytes: &[u8]) -> u64
    requires some { 0 < length bytes.now }
    requires few { length bytes.now ≤ 8 }
    ensures value { result ≡ low_num (length bytes.now) bytes.now }
    ensures below { result < 256 ^ length bytes.now }
{
    LittleEndian::read_uint(bytes, bytes.len())
}

/// The number of `width` bytes at a place. A number of no bytes is 0.
#[tactic(auto, unfolding(crate::specs::Numbers::num))]
pub fn number_at(bytes: &[u8], at: usize, width: usize) -> u64
    requires narrow { width ≤ 8 }
    requires inside { at + width ≤ length bytes.now }
    ensures value { result ≡ num_at at width bytes.now }
    ensures below { result < 256 ^ width }
{
    if width == 0 {
        return 0;
    }
    BigEndian::read_uint(&bytes[at..], width)
}

/// The byte at a place, as a number.
#[tactic(auto, unfolding(crate::specs::Numbers::num))]
pub fn u8_at(bytes: &[u8], at: usize) -> u8
    requires { at < length bytes.now }
    ensures { result ≡ num_at at 1 bytes.now }
{
    bytes[at]
}

/// The number of two bytes at a place.
#[tactic(auto, unfolding(crate::specs::Numbers::num))]
pub fn u16_at(bytes: &[u8], at: usize) -> u16
    requires { at + 2 ≤ length bytes.now }
    ensures { result ≡ num_at at 2 bytes.now }
{
    BigEndian::read_u16(&bytes[at..])
}

/// The number of four bytes at a place.
#[tactic(auto, unfolding(crate::specs::Numbers::num))]
pub fn u32_at(bytes: &[u8], at: usize) -> u32
    requires { at + 4 ≤ length bytes.now }
    ensures { result ≡ num_at at 4 bytes.now }
{
    BigEndian::read_u32(&bytes[at..])
}

/// The number of eight bytes at a place.
#[tactic(auto, unfolding(crate::specs::Numbers::num))]
pub fn u64_at(bytes: &[u8], at: usize) -> u64
    requires { at + 8 ≤ length bytes.now }
    ensures { result ≡ num_at at 8 bytes.now }
{
    BigEndian::read_u64(&bytes[at..])
}

/// Where a pointer of eight bytes points.
pub fn pointer_of(number: u64) -> Option<u64>
    ensures { result ≡ pointer_of number }
{
    if number == u64::MAX {
        None
    } else {
        Some(number)
    }
}

/// The number that stands for a pointer. That of `Some(u64::MAX)` reads back as None.
pub fn pointer_number(pointer: Option<u64>) -> u64
    ensures { result ≡ pointer_number pointer }
{
    pointer.unwrap_or(u64::MAX)
}

/// Writes a number into `width` bytes at a place. A number of no bytes writes nothing.
#[tactic(auto, unfolding(crate::specs::Numbers::num_bytes))]
pub fn put_number(into: &mut [u8], at: usize, width: usize, number: u64)
    requires narrow { width ≤ 8 }
    requires inside { at + width ≤ length into.old }
    requires fits { 0 < width → number < 256 ^ width }
    ensures front { take (at + width) into.new ≡ take at into.old ++ num_bytes width number }
    ensures back { drop (at + width) into.new ≡ drop (at + width) into.old }
{
    if width > 0 {
        BigEndian::write_uint(&mut into[at..at + width], number, width);
    }
}

/// Appends a number in `width` bytes.
#[tactic(auto, unfolding(crate::specs::Numbers::num_bytes))]
pub fn append_number(out: &mut Vec<u8>, width: usize, number: u64) -> Result<(), AllocError>
    requires some { 0 < width }
    requires narrow { width ≤ 8 }
    requires fits { number < 256 ^ width }
    ensures ok { OnOk result (out.new.items ≡ out.old.items ++ num_bytes width number) }
    ensures err { OnErr result (out.new.items ≡ out.old.items) }
{
    let mut bytes = [0u8; 8];
    BigEndian::write_uint(&mut bytes, number, width);
    out.extend_from_slice(&bytes[..width])?;
    Ok(())
}

/// Appends a number of one byte.
#[tactic(auto, unfolding(crate::specs::Numbers::num_bytes))]
pub fn append_u8(out: &mut Vec<u8>, number: u8) -> Result<(), AllocError>
    ensures ok { OnOk result (out.new.items ≡ out.old.items ++ num_bytes 1 number) }
    ensures err { OnErr result (out.new.items ≡ out.old.items) }
    ensures fits { number < 256 ^ 1 }
{
    out.push(number)?;
    Ok(())
}

/// Appends a number of two bytes.
#[tactic(auto, unfolding(crate::specs::Numbers::num_bytes))]
pub fn append_u16(out: &mut Vec<u8>, number: u16) -> Result<(), AllocError>
    ensures ok { OnOk result (out.new.items ≡ out.old.items ++ num_bytes 2 number) }
    ensures err { OnErr result (out.new.items ≡ out.old.items) }
    ensures fits { number < 256 ^ 2 }
{
    let mut bytes = [0u8; 2];
    BigEndian::write_u16(&mut bytes, number);
    out.extend_from_slice(&bytes)?;
    Ok(())
}

/// Appends a number of four bytes.
#[tactic(auto, unfolding(crate::specs::Numbers::num_bytes))]
pub fn append_u32(out: &mut Vec<u8>, number: u32) -> Result<(), AllocError>
    ensures ok { OnOk result (out.new.items ≡ out.old.items ++ num_bytes 4 number) }
    ensures err { OnErr result (out.new.items ≡ out.old.items) }
    ensures fits { number < 256 ^ 4 }
{
    let mut bytes = [0u8; 4];
    BigEndian::write_u32(&mut bytes, number);
    out.extend_from_slice(&bytes)?;
    Ok(())
}

/// Appends a number of eight bytes.
#[tactic(auto, unfolding(crate::specs::Numbers::num_bytes))]
pub fn append_u64(out: &mut Vec<u8>, number: u64) -> Result<(), AllocError>
    ensures ok { OnOk result (out.new.items ≡ out.old.items ++ num_bytes 8 number) }
    ensures err { OnErr result (out.new.items ≡ out.old.items) }
    ensures fits { number < 256 ^ 8 }
{
    let mut bytes = [0u8; 8];
    BigEndian::write_u64(&mut bytes, number);
    out.extend_from_slice(&bytes)?;
    Ok(())
}
