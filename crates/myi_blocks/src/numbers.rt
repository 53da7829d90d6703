//! The numbers of a table behind a change of its dynamic data file, and how long the file may become.
ghost use Rattle.std.specs.Prelude.{◌≡◌, ◌-◌, ◌+◌, ◌^◌, min};
ghost use Rattle.myi_slots.specs.SlotFile.{risen};

use myi_dellist::{Freed, Put, Replaced};

/// How many rows and blocks a file has.
#[derive(Clone, Copy)]
pub(crate) struct Tally {
    /// The number of rows.
    pub records: u64,
    /// The number of deleted blocks.
    pub del: u64,
    /// The number of blocks that belong to rows.
    pub split: u64,
    /// The bytes of deleted blocks.
    pub empty: u64,
}

/// Behind a row that was put into a file that became so much longer.
pub(crate) fn with_row(tally: Tally, put: Put, grown: u64) -> Tally
    ensures { result ≡ record {
      records = risen tally.records 1;
      del = risen tally.del put.more - put.taken;
      split = risen tally.split put.blocks;
      empty = risen tally.empty grown - put.bytes;
    } }
{
    Tally {
        records: tally.records.saturating_add(1),
        del: tally.del.saturating_add(put.more).saturating_sub(put.taken),
        split: tally.split.saturating_add(put.blocks),
        empty: tally.empty.saturating_add(grown).saturating_sub(put.bytes),
    }
}

/// Behind a row that was released.
pub(crate) fn without_row(tally: Tally, freed: Freed) -> Tally
    ensures { result ≡ record {
      records = tally.records - 1;
      del = risen tally.del freed.more;
      split = tally.split - freed.blocks;
      empty = risen tally.empty freed.bytes;
    } }
{
    Tally {
        records: tally.records.saturating_sub(1),
        del: tally.del.saturating_add(freed.more),
        split: tally.split.saturating_sub(freed.blocks),
        empty: tally.empty.saturating_add(freed.bytes),
    }
}

/// Behind a row that was put in the place of another, in a file that became so much longer.
pub(crate) fn with_other(tally: Tally, new: Replaced, grown: u64) -> Tally
    ensures { result ≡ record {
      records = tally.records;
      del = risen tally.del new.put.more - new.put.taken;
      split = risen tally.split new.put.blocks - new.blocks;
      empty = risen (risen tally.empty new.bytes) grown - new.put.bytes;
    } }
{
    let free = tally.empty.saturating_add(new.bytes);
    Tally {
        records: tally.records,
        del: tally
            .del
            .saturating_add(new.put.more)
            .saturating_sub(new.put.taken),
        split: tally
            .split
            .saturating_add(new.put.blocks)
            .saturating_sub(new.blocks),
        empty: free.saturating_add(grown).saturating_sub(new.put.bytes),
    }
}

/// A file that row pointers reach ends below this place, whatever their width.
const FARTHEST: u64 = (1 << 40) + 1;

/// The place that the end of a file stays below, so that pointers of so many bytes reach all of it.
pub(crate) fn end_limit(rec_ref: u8) -> u64
    ensures { result ≡ min (2 ^ 40 + 1) (256 ^ rec_ref - 1) }
{
    match 256u64.checked_pow(rec_ref as u32) {
        Some(all) => FARTHEST.min(all.saturating_sub(1)),
        None => FARTHEST,
    }
}
