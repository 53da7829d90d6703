//! How a block is written.
//!
//! A `FrameSpec` is what a block says beside its row bytes; with the number of row bytes and the size
//! it decides the type, so that there is one way to write a block: in numbers of two bytes where the
//! lengths allow it, and without a number of unused bytes where there are none. Nothing here takes
//! memory.
ghost use Rattle.std.specs.Prelude.{◌≡◌, ℕ, ◌+◌, ◌-◌, ◌%◌, ◌^◌, ◌<◌, ◌≤◌, ◌++◌, List, [], length, take, replicate, Some};
ghost use Rattle.myi_base.specs.Holding.{overwritten};
ghost use Rattle.myi_base.specs.Items.{Fit};
ghost use Rattle.myi_frames.specs.Form.{header_len, IsNarrow};
ghost use Rattle.myi_frames.specs.Block.{block_of, IsPlace, IsPointer};
ghost use Rattle.myi_frames.specs.Writing.{type_for, len_of, unused_of, link_number, widths, numbers_of, header_as, header_bytes, block_bytes, deleted_head, written_block, deleted_spec, IsWritable};

use crate::form::{Form, FrameKind, form_of};
use crate::sizes::{GIANT, LEAST_SIZE, MOST_SHORT};
use myi_base::{pointer_number, put_number};

/// The type of deleted blocks.
const DELETED: u8 = 0;

/// What a block says beside its row bytes.
#[derive(Clone, Copy, Debug, PartialEq, Eq)]
pub struct FrameSpec {
    pub kind: FrameKind,
    /// The number of row bytes of the whole row, in a whole row or a start; else 0.
    pub rec_len: u32,
    /// The place of the row's next block, or of the next deleted block.
    pub next: Option<u64>,
    /// The place of the previous deleted block.
    pub prev: Option<u64>,
}

fn type_for(kind: FrameKind, rec_len: u32, len: usize, size: usize) -> u8
    requires { len < 2 ^ 63 }
    ensures { result ≡ type_for kind rec_len len size }
{
    let short = len <= MOST_SHORT as usize;
    match kind {
        FrameKind::Deleted => DELETED,
        FrameKind::Whole if short => { if size == 3 + len { 1 } else { 3 } }
        FrameKind::Whole => { if size == 4 + len { 2 } else { 4 } }
        FrameKind::Start if rec_len >= GIANT => 13,
        FrameKind::Start => { if rec_len <= MOST_SHORT && short { 5 } else { 6 } }
        FrameKind::Middle => { if short { 11 } else { 12 } }
        FrameKind::End if short => { if size == 3 + len { 7 } else { 9 } }
        FrameKind::End => { if size == 4 + len { 8 } else { 10 } }
    }
}

fn len_of(kind: FrameKind, len: usize, size: usize) -> u64
    ensures { result ≡ len_of kind len size }
{
    match kind {
        FrameKind::Deleted => size as u64,
        FrameKind::Whole => 0,
        FrameKind::Start | FrameKind::Middle | FrameKind::End => len as u64,
    }
}

fn unused_of(kind: FrameKind, used: usize, size: usize) -> u64
    requires { used ≤ size }
    ensures { result ≡ unused_of kind used size }
{
    match kind {
        FrameKind::Deleted => 0,
        FrameKind::Whole | FrameKind::Start | FrameKind::Middle | FrameKind::End => {
            (size - used) as u64
        }
    }
}

fn link_number(width: usize, place: Option<u64>) -> u64
    ensures { result ≡ link_number width place }
{
    if width == 0 { 0 } else { pointer_number(place) }
}

// Writes the header of a block with `len` row bytes and this size to the front of `into`.
fn put_header(into: &mut [u8], number: u8, form: Form, spec: &FrameSpec, len: usize, size: usize)
    requires narrow { IsNarrow form }
    requires room { header_len form ≤ length into.old }
    requires used { header_len form + len ≤ size }
    requires fit { Fit (widths form) (numbers_of form spec.now len size) }
    ensures { take (header_len form) into.new ≡ header_as number form spec.now len size }
{
    let unused = unused_of(spec.kind, form.header_len() + len, size);
    into[0] = number;
    put_number(into, 1, form.rec_len, spec.rec_len as u64);
    put_number(into, form.len_at(), form.len, len_of(spec.kind, len, size));
    put_number(into, form.unused_at(), form.unused, unused);
    put_number(
        into,
        form.next_at(),
        form.next,
        link_number(form.next, spec.next),
    );
    put_number(
        into,
        form.prev_at(),
        form.prev,
        link_number(form.prev, spec.prev),
    );
}

fn put_bytes(into: &mut [u8], at: usize, bytes: &[u8])
    requires { at + length bytes.now ≤ length into.old }
    ensures { take (at + length bytes.now) into.new ≡ take at into.old ++ bytes.now }
{
    into[at..at + bytes.len()].copy_from_slice(bytes);
}

fn put_zeros(into: &mut [u8], at: usize)
    requires { at ≤ length into.old }
    ensures { into.new ≡ take at into.old ++ replicate (length into.old - at) 0 }
{
    into[at..].fill(0);
}

/// Writes a block whose size is the length of `into`, with zeros in its unused part.
///
/// `into` has a size that the format allows for these row bytes, fewer than 2^24, of which a deleted
/// block has none: a whole row and an end may leave up to 255 bytes unused, and a start and a middle
/// are filled. `rec_len` is the number of row bytes of a whole row, that of the whole chain in a start,
/// and else 0. A place is None where the kind has no such number, and is never `u64::MAX`.
#[tactic(auto, unfolding(crate::specs::Writing::block_bytes, crate::specs::Writing::header_bytes))]
pub fn write_frame(into: &mut [u8], spec: &FrameSpec, bytes: &[u8])
    requires { IsWritable spec.now (length bytes.now) (length into.old) }
    ensures written { into.new ≡ block_bytes spec.now bytes.now (length into.old) }
    ensures block { (front back : List ℕ) → length front % 4 ≡ 0
        → block_of (front ++ (into.new ++ back)) (length front)
        ≡ Some (written_block spec.now (length front) (length into.old) bytes.now) }
{
    let size = into.len();
    let number = type_for(spec.kind, spec.rec_len, bytes.len(), size);
    let Some(form) = form_of(number) else {
        unreachable!();
    };
    let start = form.header_len();
    put_header(into, number, form, spec, bytes.len(), size);
    put_bytes(into, start, bytes);
    put_zeros(into, start + bytes.len());
}

/// The header of such a block, with `len` row bytes and this size, in bytes: at the front of 20 bytes, and its
/// length. The block is its header, its row bytes, and zeros up to its size.
pub fn frame_header(spec: &FrameSpec, len: usize, size: u32) -> ([u8; 20], usize)
    requires { IsWritable spec.now len size }
    ensures header { take result.1 result.0 ≡ header_bytes spec.now len size }
    ensures inside { result.1 + len ≤ size }
    ensures most { result.1 ≤ 20 }
{
    let number = type_for(spec.kind, spec.rec_len, len, size as usize);
    let Some(form) = form_of(number) else {
        unreachable!();
    };
    let mut head = [0u8; LEAST_SIZE];
    put_header(&mut head, number, form, spec, len, size as usize);
    (head, form.header_len())
}

/// The first 20 bytes of a deleted block of this size, in bytes. Its other bytes stay as they are.
#[tactic(auto, unfolding(crate::specs::Writing::deleted_head, crate::specs::Writing::header_bytes))]
pub fn deleted_head(size: u32, next: Option<u64>, prev: Option<u64>) -> [u8; 20]
    requires least { 20 ≤ size }
    requires most { size < 2 ^ 24 }
    requires next { IsPointer next }
    requires prev { IsPointer prev }
    ensures written { result ≡ deleted_head size next prev }
    ensures block { (d : List ℕ) (at : ℕ) → IsPlace at size (length d)
        → block_of (overwritten at result d) at
        ≡ Some (written_block (deleted_spec next prev) at size []) }
{
    let spec = FrameSpec {
        kind: FrameKind::Deleted,
        rec_len: 0,
        next,
        prev,
    };
    let mut head = [0u8; LEAST_SIZE];
    let Some(form) = form_of(DELETED) else {
        unreachable!();
    };
    put_header(&mut head, DELETED, form, &spec, 0, size as usize);
    head
}
