//! The types of blocks, as a table.
//!
//! Byte 0 of a block is its type. A type is a kind and a width for each number of the header, its
//! `Form`: the numbers stand one after the other behind the type, in one order for all types, and a
//! number that a type does not have has no bytes. So one reader and one writer serve all fourteen.
ghost use Rattle.std.specs.Prelude.{◌≡◌, ℕ, ◌^◌, ◌<◌, ◌≤◌, IfSome};
ghost use Rattle.myi_frames.specs.Form.{row, form_of, IsNarrow, data_len, block_size};

/// What a block is for.
#[derive(Clone, Copy, Debug, PartialEq, Eq)]
pub enum FrameKind {
    /// It belongs to no row, and stands in the list of deleted blocks.
    Deleted,
    /// A row that is one block.
    Whole,
    /// The first block of a row of several.
    Start,
    /// A block of a row between its first and its last.
    Middle,
    /// The last block of a row of several.
    End,
}

/// How the header of a type is laid out: the bytes of each number, in the order of the fields.
#[derive(Clone, Copy)]
pub struct Form {
    pub kind: FrameKind,
    /// The number of row bytes of the whole row.
    pub rec_len: usize,
    /// The block's size in a deleted block, and the number of its row bytes in all others.
    pub len: usize,
    /// The number of unused bytes behind the row bytes.
    pub unused: usize,
    /// The place of the next block.
    pub next: usize,
    /// The place of the previous deleted block.
    pub prev: usize,
}

impl Form {
    ghost use Rattle.myi_frames.specs.Form.{len_at, unused_at, next_at, prev_at, header_len};

    /// The place in the header of the block's size or of the number of its row bytes.
    pub fn len_at(self) -> usize
        requires { IsNarrow self }
        ensures { result ≡ len_at self }
    {
        1 + self.rec_len
    }

    /// The place in the header of the number of unused bytes.
    pub fn unused_at(self) -> usize
        requires { IsNarrow self }
        ensures { result ≡ unused_at self }
    {
        self.len_at() + self.len
    }

    /// The place in the header of the place of the next block.
    pub fn next_at(self) -> usize
        requires { IsNarrow self }
        ensures { result ≡ next_at self }
    {
        self.unused_at() + self.unused
    }

    /// The place in the header of the place of the previous block.
    pub fn prev_at(self) -> usize
        requires { IsNarrow self }
        ensures { result ≡ prev_at self }
    {
        self.next_at() + self.next
    }

    /// The length of the header, in bytes.
    pub fn header_len(self) -> usize
        requires { IsNarrow self }
        ensures { result ≡ header_len self }
    {
        self.prev_at() + self.prev
    }
}

fn row(kind: FrameKind, rec_len: usize, len: usize, unused: usize, next: usize, prev: usize) -> Form
    ensures { result ≡ row kind rec_len len unused next prev }
{
    Form {
        kind,
        rec_len,
        len,
        unused,
        next,
        prev,
    }
}

/// The form of a type, by the format's table.
#[tactic(auto, unfolding(crate::specs::Form::form_of))]
pub fn form_of(number: u8) -> Option<Form>
    ensures form { result ≡ form_of number }
    ensures narrow { IfSome result IsNarrow }
{
    match number {
        0 => Some(row(FrameKind::Deleted, 0, 3, 0, 8, 8)),
        1 => Some(row(FrameKind::Whole, 2, 0, 0, 0, 0)),
        2 => Some(row(FrameKind::Whole, 3, 0, 0, 0, 0)),
        3 => Some(row(FrameKind::Whole, 2, 0, 1, 0, 0)),
        4 => Some(row(FrameKind::Whole, 3, 0, 1, 0, 0)),
        5 => Some(row(FrameKind::Start, 2, 2, 0, 8, 0)),
        6 => Some(row(FrameKind::Start, 3, 3, 0, 8, 0)),
        7 => Some(row(FrameKind::End, 0, 2, 0, 0, 0)),
        8 => Some(row(FrameKind::End, 0, 3, 0, 0, 0)),
        9 => Some(row(FrameKind::End, 0, 2, 1, 0, 0)),
        10 => Some(row(FrameKind::End, 0, 3, 1, 0, 0)),
        11 => Some(row(FrameKind::Middle, 0, 2, 0, 8, 0)),
        12 => Some(row(FrameKind::Middle, 0, 3, 0, 8, 0)),
        13 => Some(row(FrameKind::Start, 4, 3, 0, 8, 0)),
        _ => None,
    }
}

/// How many row bytes a block holds.
pub fn data_len(kind: FrameKind, rec_len: u64, len: u64) -> u64
    ensures { result ≡ data_len kind rec_len len }
{
    match kind {
        FrameKind::Deleted => 0,
        FrameKind::Whole => rec_len,
        FrameKind::Start | FrameKind::Middle | FrameKind::End => len,
    }
}

/// The size of a block, in bytes.
pub fn block_size(kind: FrameKind, header: u64, rec_len: u64, len: u64, unused: u64) -> u64
    requires header { header ≤ 20 }
    requires rec_len { rec_len < 2 ^ 32 }
    requires whole { kind ≡ FrameKind.Whole → rec_len < 2 ^ 24 }
    requires len { len < 2 ^ 24 }
    requires unused { unused < 256 }
    ensures size { result ≡ block_size kind header rec_len len unused }
    ensures below { result < 2 ^ 32 }
{
    match kind {
        FrameKind::Deleted => len,
        FrameKind::Whole => header + rec_len + unused,
        FrameKind::Start | FrameKind::Middle | FrameKind::End => header + len + unused,
    }
}
