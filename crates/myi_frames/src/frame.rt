//! A block as it stands in bytes.
//!
//! `frame_at` looks at the bytes from a place of a data file on, and answers what `Seen` says: no block
//! starts there, or one that is longer than the bytes, or the block. A `Frame` lends its row bytes,
//! without the header and the unused bytes.
ghost use Rattle.std.specs.Prelude.{◌≡◌, ℕ, ◌+◌, ◌≤◌, ◌⊎◌, List, length};
ghost use Rattle.myi_frames.specs.Block.{header_of, block_of};
ghost use Rattle.myi_frames.specs.Seeing.{IsPartAt, SeesBlock, SeesPlace, SeesWhole, Sees};

use crate::form::FrameKind;
use crate::head::read_header;

/// A block, whose row bytes are lent.
#[derive(Clone, Copy, Debug, PartialEq, Eq)]
pub struct Frame<'a> {
    pub kind: FrameKind,
    /// Its place in the data file.
    pub at: u64,
    /// In bytes, with its header and its unused bytes.
    pub size: u32,
    /// The number of row bytes of the whole row, in a whole row or a start; else 0.
    pub rec_len: u32,
    /// The place of the row's next block, or of the next deleted block.
    pub next: Option<u64>,
    /// The place of the previous deleted block.
    pub prev: Option<u64>,
    /// The row bytes that the block holds. A deleted block holds none.
    pub bytes: &'a [u8],
}

/// What stands at a place of a data file.
#[derive(Clone, Copy, Debug, PartialEq, Eq)]
pub enum Seen<'a> {
    /// No block starts there.
    Nothing,
    /// A block of this size in bytes, of which there are fewer at hand.
    Longer(u32),
    /// The block.
    Frame(Frame<'a>),
}

fn seen_at<'a>(bytes: &'a [u8], at: u64, file_len: u64) -> Seen<'a>
    requires window { (20 ≤ length bytes.now) ⊎ (file_len ≤ at + length bytes.now) }
    ensures seen { Sees result bytes.now (header_of bytes.now at file_len) }
    ensures place { SeesPlace result at file_len }
    ensures whole { SeesWhole result (length bytes.now) }
{
    let Some(header) = read_header(bytes, at, file_len) else {
        return Seen::Nothing;
    };
    let head = header.head;
    if bytes.len() < head.size as usize {
        return Seen::Longer(head.size);
    }
    Seen::Frame(Frame {
        kind: head.kind,
        at: head.at,
        size: head.size,
        rec_len: head.rec_len,
        next: head.next,
        prev: head.prev,
        bytes: &bytes[header.start..header.start + header.data_len],
    })
}

/// What stands at a place of a data file of `file_len` bytes, by the file's bytes from there on: at
/// least 20 of them, or all up to the file's end. It takes no memory.
pub fn frame_at<'a>(bytes: &'a [u8], at: u64, file_len: u64) -> Seen<'a>
    requires window { (20 ≤ length bytes.now) ⊎ (file_len ≤ at + length bytes.now) }
    ensures block { (d : List ℕ) → length d ≡ file_len → IsPartAt at bytes.now d
        → SeesBlock result (length bytes.now) (block_of d at) }
    ensures place { SeesPlace result at file_len }
    ensures whole { SeesWhole result (length bytes.now) }
{
    seen_at(bytes, at, file_len)
}
