//! How large a block is for its row bytes.
//!
//! A row that is one block, and the end of a chain, have the least size that holds their row bytes. A
//! start and a middle are as long as the space that they take, and are filled with row bytes.
ghost use Rattle.std.specs.Prelude.{◌≡◌, ◌^◌, ◌<◌, ◌≤◌};
ghost use Rattle.myi_frames.specs.Sizes.{row_header, least_size, start_room, middle_room};

/// The least size of a block, in bytes. No header is longer.
pub const LEAST_SIZE: usize = 20;

/// The greatest size of a deleted block, and of a block that is taken at the file's end, in bytes: the
/// greatest multiple of 4 that three bytes hold.
pub const MOST_SIZE: u32 = 16_777_212;

/// The greatest length that stands in two bytes.
pub const MOST_SHORT: u32 = 65_535;

/// The number of row bytes from which on a row is giant: no whole row, and begun with type 13.
pub const GIANT: u32 = 1 << 24;

/// The greatest size of a middle whose length stands in two bytes.
const MOST_SHORT_MIDDLE: u32 = MOST_SHORT + 11;

/// The least size of a block that holds `len` row bytes as a whole row or an end, in bytes.
#[tactic(auto, unfolding(crate::specs::Sizes::least_size))]
pub fn least_size(len: u32) -> u32
    requires { len < 2 ^ 24 }
    ensures { result ≡ least_size len }
{
    let header = if len <= MOST_SHORT { 3 } else { 4 };
    (header + len).next_multiple_of(4).max(LEAST_SIZE as u32)
}

/// How many bytes of a row of `rec_len` bytes a start of this size holds.
#[tactic(auto, unfolding(crate::specs::Sizes::start_room))]
pub fn start_room(rec_len: u32, size: u32) -> u32
    requires { 20 ≤ size }
    ensures { result ≡ start_room rec_len size }
{
    let header = if rec_len >= GIANT {
        16
    } else if rec_len <= MOST_SHORT {
        13
    } else {
        15
    };
    size - header
}

/// How many row bytes a middle of this size holds.
#[tactic(auto, unfolding(crate::specs::Sizes::middle_room))]
pub fn middle_room(size: u32) -> u32
    requires { 20 ≤ size }
    ensures { result ≡ middle_room size }
{
    if size <= MOST_SHORT_MIDDLE {
        size - 11
    } else {
        size - 12
    }
}
