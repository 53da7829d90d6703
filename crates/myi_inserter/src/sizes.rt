//! How many bytes of the data file a row takes that comes behind its end.
ghost use Rattle.std.specs.Prelude.{◌≡◌, ◌<◌, ◌^◌, true, length};
ghost use Rattle.myi_defs.specs.declared.types.RowFormat.TheVariants.{Dynamic};
ghost use Rattle.myi_dellist.specs.Placing.{append_from, end_behind};
ghost use Rattle.myi_snapshots.specs.Known.{size_of};

use myi_defs::{Defs, RowFormat};
use myi_frames::{GIANT, MOST_SIZE, least_size, middle_room, start_room};

// How many bytes the blocks of a row of so many packed bytes have.
fn blocks_size(len: u32) -> u64
    ensures { result ≡ end_behind 0 (append_from len len true len 0) }
{
    if len == 0 {
        return 0;
    }
    let mut left = len;
    let mut size = 0u64;
    let mut room = start_room(len, MOST_SIZE);
    while left >= GIANT {
        left -= room;
        size += MOST_SIZE as u64;
        room = middle_room(MOST_SIZE);
    }
    size + least_size(left) as u64
}

/// How many bytes a packed row takes: a slot, or its blocks.
pub(crate) fn size_of(defs: &Defs, packed: &[u8]) -> u64
    requires { defs.now.format ≡ Dynamic → length packed.now < 2 ^ 32 }
    ensures { result ≡ size_of defs.now packed.now }
{
    match defs.format {
        RowFormat::Static => defs.slot_length as u64,
        RowFormat::Dynamic => blocks_size(packed.len() as u32),
    }
}
