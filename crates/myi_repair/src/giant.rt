//! Writing a row of 2^24 bytes and more into blocks of the sizes of those that held it.
//!
//! A start and middles are filled, one after the other, and what is left is an end in the first block that
//! has room for it. Of each block the header is written, then the row bytes as they stand in the row, then
//! the unused part, so that no block is made in memory. Where the sizes do not hold the row, as they may
//! where the files tell nothing, the answer is that there is no memory.
ghost use Rattle.std.specs.Prelude.{◌≡◌, ◌+◌, ◌%◌, ◌^◌, ◌<◌, ◌≤◌, length, replicate, Some, IfOk, OnOk, OnErr, IsTrue, true};
ghost use Rattle.myi_base.specs.Holding.{Told, Writes, WritesPart};
ghost use Rattle.myi_base.specs.Causes.{HasCause};
ghost use Rattle.myi_io.specs.declared.files.FileErr.TheVariants.{Failed};
ghost use Rattle.myi_frames.specs.Sizes.{start_room, middle_room};
ghost use Rattle.myi_repair.specs.Giant.{start_block, bytes_taken};
ghost use Rattle.myi_frames.specs.Writing.{IsWritable, block_bytes, middle_spec, end_spec};
ghost use Rattle.myi_data.specs.Stored.{is_end, end_size, shares_behind, shares, bytes_behind, shared_bytes};

use myi_frames::{
    FrameKind, FrameSpec, GIANT, LEAST_SIZE, frame_header, least_size, middle_room, start_room,
};
use myi_io::{FileErr, Files};

/// No block of a giant row has more bytes unused.
const MOST_UNUSED: usize = 260;

/// Writes a row of 2^24 bytes and more at a place of the file of that name, into blocks of these sizes, in
/// their order, and answers the place behind them and their number.
pub(crate) fn put_giant<F: Files>(
    files: &mut F,
    file: &str,
    at: u64,
    packed: &[u8],
    sizes: &[u32],
) -> Result<(u64, u64), FileErr>
    requires writable { IsTrue F.writable }
    requires giant { 2 ^ 24 ≤ length packed.now }
    requires few { length packed.now < 2 ^ 32 }
    requires place { at ≤ 2 ^ 40 }
    ensures ok { OnOk result (Told (F.holds files.old) (F.holds files.new)
        (Writes file.now at (shared_bytes at (shares sizes.now (length packed.now)) packed.now))) }
    ensures err { OnErr result (Told (F.holds files.old) (F.holds files.new)
        (WritesPart file.now at
        (shared_bytes at (shares sizes.now (length packed.now)) packed.now))) }
    ensures end { IfOk result (λ r. r.0
        ≡ at + length (shared_bytes at (shares sizes.now (length packed.now)) packed.now)) }
    ensures count { IfOk result (λ r. r.1 ≡ length (shares sizes.now (length packed.now))) }
    ensures less { IfOk result (λ r. at + r.1 ≤ r.0) }
    ensures whole { OnOk result
        (bytes_taken (shares sizes.now (length packed.now)) ≡ length packed.now) }
    ensures cause { HasCause Failed (F.faults files.old) (F.faults files.new) result }
{
    let Some((&size, behind)) = sizes.split_first() else {
        return Err(FileErr::Memory);
    };
    if !may_be_size(size) {
        return Err(FileErr::Memory);
    }
    let room = start_room(packed.len() as u32, size);
    if room >= GIANT {
        return Err(FileErr::Memory);
    }
    let next = put_start(files, file, at, packed, size)?;
    let (_, left) = packed.split_at(room as usize);
    let (end, count) = put_behind(files, file, next, left, behind)?;
    Ok((end, count + 1))
}

// Writes what is left of a row into middles and an end of these sizes.
fn put_behind<F: Files>(
    files: &mut F,
    file: &str,
    at: u64,
    rest: &[u8],
    sizes: &[u32],
) -> Result<(u64, u64), FileErr>
    requires writable { IsTrue F.writable }
    requires some { 0 < length rest.now }
    requires few { length rest.now < 2 ^ 32 }
    requires place { at ≤ 2 ^ 41 }
    ensures ok { OnOk result (Told (F.holds files.old) (F.holds files.new)
        (Writes file.now at
        (bytes_behind at (shares_behind sizes.now (length rest.now)) rest.now))) }
    ensures err { OnErr result (Told (F.holds files.old) (F.holds files.new)
        (WritesPart file.now at
        (bytes_behind at (shares_behind sizes.now (length rest.now)) rest.now))) }
    ensures end { IfOk result (λ r. r.0
        ≡ at + length (bytes_behind at (shares_behind sizes.now (length rest.now)) rest.now)) }
    ensures count { IfOk result (λ r. r.1 ≡ length (shares_behind sizes.now (length rest.now))) }
    ensures less { IfOk result (λ r. at + r.1 ≤ r.0) }
    ensures whole { OnOk result
        (bytes_taken (shares_behind sizes.now (length rest.now)) ≡ length rest.now) }
    ensures few { IfOk result (λ r. r.1 ≤ length rest.now) }
    ensures cause { HasCause Failed (F.faults files.old) (F.faults files.new) result }
{
    let mut place = at;
    let mut left = rest;
    let mut count = 0;
    let mut sizes = sizes;
    while let Some((&size, behind)) = sizes.split_first() {
        if !may_be_size(size) {
            return Err(FileErr::Memory);
        }
        if is_end(left.len(), size) {
            let end = put_end(files, file, place, left, size)?;
            return Ok((end, count + 1));
        }
        if behind.is_empty() || middle_room(size) >= GIANT {
            return Err(FileErr::Memory);
        }
        let (piece, more) = left.split_at(middle_room(size) as usize);
        place = put_middle(files, file, place, piece, size)?;
        count += 1;
        left = more;
        sizes = behind;
    }
    Err(FileErr::Memory)
}

// Whether a block may have this size.
fn may_be_size(size: u32) -> bool
    ensures sized { result ≡ true → (size % 4 ≡ 0) × (20 ≤ size) }
    ensures all { size % 4 ≡ 0 → 20 ≤ size → result ≡ true }
{
    size % 4 == 0 && size >= LEAST_SIZE as u32
}

// Whether so many bytes fit into a block of this size as an end.
fn is_end(rest: usize, size: u32) -> bool
    requires { rest < 2 ^ 32 }
    ensures { result ≡ is_end rest size }
{
    rest < GIANT as usize && least_size(rest as u32) <= size
}

// The size of the end that so many bytes are in a block of this size.
fn end_size(rest: usize, size: u32) -> u32
    requires { is_end rest size ≡ true }
    ensures { result ≡ end_size rest size }
{
    let least = least_size(rest as u32);
    if size - least >= LEAST_SIZE as u32 {
        least
    } else {
        size
    }
}

// Writes an end, and answers the place behind it.
fn put_end<F: Files>(
    files: &mut F,
    file: &str,
    at: u64,
    rest: &[u8],
    size: u32,
) -> Result<u64, FileErr>
    requires writable { IsTrue F.writable }
    requires multiple { size % 4 ≡ 0 }
    requires least { 20 ≤ size }
    requires end { is_end (length rest.now) size ≡ true }
    requires place { at < 2 ^ 63 }
    ensures ok { OnOk result (Told (F.holds files.old) (F.holds files.new)
        (Writes file.now at (block_bytes end_spec rest.now (end_size (length rest.now) size)))) }
    ensures err { OnErr result (Told (F.holds files.old) (F.holds files.new)
        (WritesPart file.now at
        (block_bytes end_spec rest.now (end_size (length rest.now) size)))) }
    ensures behind { IfOk result (λ r. r ≡ at + end_size (length rest.now) size) }
    ensures less { IfOk result (λ r. at < r) }
    ensures cause { HasCause Failed (F.faults files.old) (F.faults files.new) result }
{
    let size = end_size(rest.len(), size);
    let spec = FrameSpec {
        kind: FrameKind::End,
        rec_len: 0,
        next: None,
        prev: None,
    };
    put_block(files, file, at, &spec, rest, size)
}

// Writes a start that a row fills, and answers the place behind it, which it names.
fn put_start<F: Files>(
    files: &mut F,
    file: &str,
    at: u64,
    packed: &[u8],
    size: u32,
) -> Result<u64, FileErr>
    requires writable { IsTrue F.writable }
    requires multiple { size % 4 ≡ 0 }
    requires least { 20 ≤ size }
    requires giant { 2 ^ 24 ≤ length packed.now }
    requires short { length packed.now < 2 ^ 32 }
    requires few { start_room (length packed.now) size < 2 ^ 24 }
    requires place { at < 2 ^ 63 }
    ensures ok { OnOk result (Told (F.holds files.old) (F.holds files.new)
        (Writes file.now at (start_block at size packed.now))) }
    ensures err { OnErr result (Told (F.holds files.old) (F.holds files.new)
        (WritesPart file.now at (start_block at size packed.now))) }
    ensures behind { IfOk result (λ r. r ≡ at + size) }
    ensures cause { HasCause Failed (F.faults files.old) (F.faults files.new) result }
{
    let rec_len = packed.len() as u32;
    let spec = FrameSpec {
        kind: FrameKind::Start,
        rec_len,
        next: Some(at + size as u64),
        prev: None,
    };
    let room = start_room(rec_len, size) as usize;
    put_block(files, file, at, &spec, &packed[..room], size)
}

// Writes a middle that is filled, and answers the place behind it, which it names.
fn put_middle<F: Files>(
    files: &mut F,
    file: &str,
    at: u64,
    piece: &[u8],
    size: u32,
) -> Result<u64, FileErr>
    requires writable { IsTrue F.writable }
    requires multiple { size % 4 ≡ 0 }
    requires least { 20 ≤ size }
    requires room { length piece.now ≡ middle_room size }
    requires few { middle_room size < 2 ^ 24 }
    requires place { at < 2 ^ 63 }
    ensures ok { OnOk result (Told (F.holds files.old) (F.holds files.new)
        (Writes file.now at (block_bytes (middle_spec (Some (at + size))) piece.now size))) }
    ensures err { OnErr result (Told (F.holds files.old) (F.holds files.new)
        (WritesPart file.now at (block_bytes (middle_spec (Some (at + size))) piece.now size))) }
    ensures behind { IfOk result (λ r. r ≡ at + size) }
    ensures cause { HasCause Failed (F.faults files.old) (F.faults files.new) result }
{
    let spec = FrameSpec {
        kind: FrameKind::Middle,
        rec_len: 0,
        next: Some(at + size as u64),
        prev: None,
    };
    put_block(files, file, at, &spec, piece, size)
}

// Writes a block, and answers the place behind it.
fn put_block<F: Files>(
    files: &mut F,
    file: &str,
    at: u64,
    spec: &FrameSpec,
    bytes: &[u8],
    size: u32,
) -> Result<u64, FileErr>
    requires writable { IsTrue F.writable }
    requires block { IsWritable spec.now (length bytes.now) size }
    requires unused { size ≤ length bytes.now + 260 }
    requires place { at < 2 ^ 63 }
    ensures ok { OnOk result (Told (F.holds files.old) (F.holds files.new)
        (Writes file.now at (block_bytes spec.now bytes.now size))) }
    ensures err { OnErr result (Told (F.holds files.old) (F.holds files.new)
        (WritesPart file.now at (block_bytes spec.now bytes.now size))) }
    ensures behind { IfOk result (λ r. r ≡ at + size) }
    ensures cause { HasCause Failed (F.faults files.old) (F.faults files.new) result }
{
    let (header, header_length) = frame_header(spec, bytes.len(), size);
    let start = at + header_length as u64;
    let end = start + bytes.len() as u64;
    let behind = at + size as u64;
    files.write_at(file, at, &header[..header_length])?;
    files.write_at(file, start, bytes)?;
    if end == behind {
        return Ok(behind);
    }
    put_unused(files, file, end, (behind - end) as usize)?;
    Ok(behind)
}

// Writes so many zeros.
fn put_unused<F: Files>(files: &mut F, file: &str, at: u64, count: usize) -> Result<(), FileErr>
    requires writable { IsTrue F.writable }
    requires few { count ≤ 260 }
    ensures ok { OnOk result (Told (F.holds files.old) (F.holds files.new)
        (Writes file.now at (replicate count 0))) }
    ensures err { OnErr result (Told (F.holds files.old) (F.holds files.new)
        (WritesPart file.now at (replicate count 0))) }
    ensures cause { HasCause Failed (F.faults files.old) (F.faults files.new) result }
{
    let zeros = [0u8; MOST_UNUSED];
    files.write_at(file, at, &zeros[..count])
}
