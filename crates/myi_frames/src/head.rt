//! What the header of a block says.
//!
//! A `Head` is a block without its row bytes: its kind, its place and size, and what it points to. The
//! first 20 bytes of a block are enough for it, as no header is longer, so that a deleted block of
//! megabytes is known by one short read. `Header` also says where the row bytes stand.
ghost use Rattle.std.specs.Prelude.{◌≡◌, ℕ, ◌+◌, ◌≤◌, ◌⊎◌, List, length, IfSome};
ghost use Rattle.std.specs.Option.{option_map};
ghost use Rattle.myi_frames.specs.Block.{is_place, link_of, header_of, block_of, head_of, IsPlace};
ghost use Rattle.myi_frames.specs.Seeing.{IsPartAt, HeadsBlock};
ghost use Rattle.myi_frames.specs.Sizes.{IsSized};

use crate::form::{FrameKind, block_size, data_len, form_of};
use crate::sizes::LEAST_SIZE;
use myi_base::{number_at, pointer_of};

/// Places and sizes of blocks are multiples of this.
const ALIGNMENT: u64 = 4;

/// A block without its row bytes.
#[derive(Clone, Copy, Debug, PartialEq, Eq)]
pub struct Head {
    pub kind: FrameKind,
    /// Its place in the data file.
    pub at: u64,
    /// In bytes, with its header and its unused bytes.
    pub size: u32,
    /// The number of row bytes of the whole row, in a whole row or a start; else 0.
    pub rec_len: u32,
    /// The place of the row's next block, or of the next deleted block.
    pub next: Option<u64>,
    /// The place of the previous deleted block.
    pub prev: Option<u64>,
}

/// A head, and where the row bytes stand in the block.
#[derive(Clone, Copy, Debug, PartialEq, Eq)]
pub struct Header {
    pub head: Head,
    /// Where the row bytes begin, from the block's place on; that is the header's length.
    pub start: usize,
    /// How many row bytes the block holds. A deleted block holds none.
    pub data_len: usize,
}

fn is_place(at: u64, size: u64, file_len: u64) -> bool
    ensures { result ≡ is_place at size file_len }
{
    at % ALIGNMENT == 0
        && size % ALIGNMENT == 0
        && size >= LEAST_SIZE as u64
        && at <= file_len
        && size <= file_len - at
}

fn link_of(width: usize, number: u64) -> Option<u64>
    ensures { result ≡ link_of width number }
{
    if width == 0 { None } else { pointer_of(number) }
}

/// The header at a place of a file of `file_len` bytes, by the file's bytes from there on.
#[tactic(auto, unfolding(crate::specs::Block::header_of))]
pub(crate) fn read_header(bytes: &[u8], at: u64, file_len: u64) -> Option<Header>
    requires window { (20 ≤ length bytes.now) ⊎ (file_len ≤ at + length bytes.now) }
    ensures header { result ≡ header_of bytes.now at file_len }
    ensures inside { IfSome result (λ h. h.start + h.data_len ≤ h.head.size) }
    ensures place { IfSome result (λ h. (h.head.at ≡ at) × IsPlace at h.head.size file_len
        × IsSized h.data_len h.head.size) }
{
    if bytes.len() < LEAST_SIZE {
        return None;
    }
    let Some(form) = form_of(bytes[0]) else {
        return None;
    };
    let start = form.header_len();
    let rec_len = number_at(bytes, 1, form.rec_len);
    let len = number_at(bytes, form.len_at(), form.len);
    let unused = number_at(bytes, form.unused_at(), form.unused);
    let size = block_size(form.kind, start as u64, rec_len, len, unused);
    if !is_place(at, size, file_len) {
        return None;
    }
    let next = number_at(bytes, form.next_at(), form.next);
    let prev = number_at(bytes, form.prev_at(), form.prev);
    Some(Header {
        head: Head {
            kind: form.kind,
            at,
            size: size as u32,
            rec_len: rec_len as u32,
            next: link_of(form.next, next),
            prev: link_of(form.prev, prev),
        },
        start,
        data_len: data_len(form.kind, rec_len, len) as usize,
    })
}

/// The header of the block at a place of a data file of `file_len` bytes, by the file's bytes from there
/// on: at least 20 of them, or all up to the file's end. None where no block starts at the place. It
/// takes no memory.
pub fn header_at(bytes: &[u8], at: u64, file_len: u64) -> Option<Header>
    requires window { (20 ≤ length bytes.now) ⊎ (file_len ≤ at + length bytes.now) }
    ensures header { result ≡ header_of bytes.now at file_len }
    ensures block { (d : List ℕ) → length d ≡ file_len → IsPartAt at bytes.now d
        → HeadsBlock d result (block_of d at) }
    ensures inside { IfSome result (λ h. h.start + h.data_len ≤ h.head.size) }
    ensures place { IfSome result (λ h. (h.head.at ≡ at) × IsPlace at h.head.size file_len) }
{
    let header = read_header(bytes, at, file_len);
    header
}

/// The head of the block at a place of a data file of `file_len` bytes, by the file's bytes from there
/// on: at least 20 of them, or all up to the file's end. None where no block starts at the place. It
/// takes no memory.
pub fn head_at(bytes: &[u8], at: u64, file_len: u64) -> Option<Head>
    requires window { (20 ≤ length bytes.now) ⊎ (file_len ≤ at + length bytes.now) }
    ensures head { (d : List ℕ) → length d ≡ file_len → IsPartAt at bytes.now d
        → result ≡ option_map head_of (block_of d at) }
    ensures place { IfSome result (λ head. (head.at ≡ at) × IsPlace at head.size file_len) }
{
    let Some(header) = read_header(bytes, at, file_len) else {
        return None;
    };
    Some(header.head)
}
