//! The state's items, and where the runs of them stand in a header.
//!
//! A `State` has the numbers that this project reads and, in `rest`, the bytes between them in their
//! order. `Layout` has the places that depend on how many keys, page sizes and key parts there are.
ghost use Rattle.std.specs.Prelude.{◌≡◌, ◌≤◌, ◌<◌, ◌+◌, ◌%◌, ◌++◌, length, vec_len, OnOk};
ghost use Rattle.myi_defs.specs.Sound.{IsSound};
ghost use Rattle.myi_header.specs.Layout.{layout_of, first_page_of};
ghost use Rattle.myi_header.specs.Parts.{part};

use myi_base::{Sequence, u8_at, u16_at};
use myi_defs::{Defs, Layout, first_page_behind};
use std::alloc::AllocError;
use thiserror::Error;

/// The state of a table. Places and lengths are in bytes.
#[derive(Drop)]
pub struct State {
    /// How many programs have the table open.
    pub open_count: u16,
    /// Bits that say what was done since the table was last looked after: 1 changed, 8 not analyzed,
    /// 16 and 32 pages not sorted.
    pub changed: u8,
    pub sortkey: u8,
    /// The number of rows.
    pub records: u64,
    /// The number of deleted blocks.
    pub del: u64,
    /// The number of blocks that belong to rows.
    pub split: u64,
    /// The place of the first block of the deleted list.
    pub dellink: Option<u64>,
    pub key_file_length: u64,
    pub data_file_length: u64,
    /// The bytes of deleted blocks.
    pub empty: u64,
    /// The bytes of the index file past the first page place that belong to no page.
    pub key_empty: u64,
    pub auto_increment: u64,
    /// The place of the root page of each key.
    pub roots: Sequence<Option<u64>>,
    pub key_map: u64,
    /// In seconds since 1970.
    pub recover_time: u64,
    /// The other bytes of the state in their order, which are kept.
    pub rest: Sequence<u8>,
}

/// Why there is no state to read.
#[derive(Clone, Copy, Debug, PartialEq, Eq, Error)]
pub enum StateFault {
    /// There are fewer bytes than the header has.
    #[error("the header is cut short")]
    Short,
    /// The mark is not there.
    #[error("the index file is foreign")]
    Foreign,
    #[error("out of memory")]
    Memory,
}

impl From<AllocError> for StateFault {
    ghost use Rattle.std.specs.Prelude.{◌≡◌};
    ghost use Rattle.myi_header.specs.declared.state.StateFault.TheVariants.{Memory};

    ghost from_gives = { λ _ e. e ≡ Memory };

    fn from(_: AllocError) -> Self {
        StateFault::Memory
    }
}

/// Where the parts of a state stand in a header with these definitions.
pub(crate) fn layout_of(defs: &Defs) -> Layout
    requires { IsSound defs.now }
    ensures { result ≡ layout_of defs.now }
{
    let raw = defs.raw.as_slice();
    Layout::by(
        defs.keys.as_slice().len() as u8,
        u8_at(raw, 21),
        u16_at(raw, 14),
    )
}

/// The place of the first page in an index file with these definitions: the least multiple of 1024
/// that is not below the header's length. It takes no memory.
pub fn first_page(defs: &Defs) -> u64
    requires { IsSound defs.now }
    ensures value { result ≡ first_page_of defs.now }
    ensures behind { length defs.now.raw ≤ result }
    ensures least { result < length defs.now.raw + 1024 }
    ensures multiple { result % 1024 ≡ 0 }
{
    first_page_behind(defs.raw.as_slice().len()) as u64
}

/// Appends so many bytes at a place.
pub(crate) fn append_part(
    out: &mut Vec<u8>,
    bytes: &[u8],
    at: usize,
    count: usize,
) -> Result<(), AllocError>
    requires { at + count ≤ length bytes.now }
    ensures bytes { OnOk result (out.new.items ≡ out.old.items ++ part at count bytes.now) }
    ensures long { OnOk result (vec_len out.new ≡ vec_len out.old + count) }
{
    out.extend_from_slice(&bytes[at..at + count])?;
    Ok(())
}
