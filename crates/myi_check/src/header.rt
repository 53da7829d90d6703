//! The header of an index file beside what the two files show.
//!
//! A `StoredHeader` is what the header says, and `Shown` what the files show of the same numbers;
//! `header_item` answers the first item in which they differ.
ghost use Rattle.std.specs.Prelude.{◌≡◌, ℕ, true, false, List, length, Ok, IfOk, IfErr};
ghost use Rattle.myi_defs.specs.Sound.{IsSound};
ghost use Rattle.myi_defs.specs.ReadDefs.{read_defs};
ghost use Rattle.myi_header.specs.StateOf.{state_of, has_mark};
ghost use Rattle.myi_header.specs.Layout.{first_page_of};
ghost use Rattle.myi_opening.specs.declared.fault.TableFault.TheVariants.{Memory};
ghost use Rattle.myi_pair.specs.FirstBad.{first_failed};
ghost use Rattle.myi_check.specs.HeaderShown.{agrees, shown_tests, room_left};

use myi_defs::{Defs, definitions_are_sound};
use myi_header::{State, StateFault, first_page, read_state, stored_state};
use myi_opening::TableFault;
use myi_pair::HeaderItem;
use std::alloc::Global;

/// The state in the header of an index file, and whether the header is marked.
#[derive(Drop)]
pub(crate) struct StoredHeader {
    pub(crate) state: State,
    pub(crate) marked: bool,
}

/// What the files show of the numbers in a header.
#[derive(Clone, Copy)]
pub(crate) struct Shown {
    pub(crate) records: u64,
    pub(crate) del: u64,
    pub(crate) split: u64,
    pub(crate) key_file_length: u64,
    pub(crate) data_file_length: u64,
    pub(crate) empty: u64,
    /// None where a tree has no walk.
    pub(crate) key_empty: Option<u64>,
}

/// What the header says from which the definitions were read. It is that of the index file itself.
pub(crate) fn stored_header(alloc: Global, defs: &Defs) -> Result<StoredHeader, TableFault>
    requires { IsSound defs.now }
    ensures state { IfOk result (λ h. (x : List ℕ) → read_defs x ≡ Ok defs.now
        → h.state ≡ state_of defs.now x) }
    ensures marked { IfOk result (λ h. (x : List ℕ) → read_defs x ≡ Ok defs.now
        → h.marked ≡ has_mark defs.now x) }
    ensures roots { IfOk result (λ h. length h.state.roots ≡ length defs.now.keys) }
    ensures memory { IfErr result (λ f. f ≡ Memory) }
{
    definitions_are_sound();
    match read_state(alloc, defs, defs.raw.as_slice()) {
        Ok(state) => Ok(StoredHeader {
            state,
            marked: true,
        }),
        Err(StateFault::Foreign) => foreign_header(alloc, defs),
        Err(StateFault::Short) => unreachable!(),
        Err(StateFault::Memory) => Err(TableFault::Memory),
    }
}

// What a header without the mark says.
fn foreign_header(alloc: Global, defs: &Defs) -> Result<StoredHeader, TableFault>
    requires { IsSound defs.now }
    ensures state { IfOk result (λ h. h.state ≡ state_of defs.now defs.now.raw) }
    ensures marked { IfOk result (λ h. h.marked ≡ false) }
    ensures memory { IfErr result (λ f. f ≡ Memory) }
{
    let state = stored_state(alloc, defs)?;
    Ok(StoredHeader {
        state,
        marked: false,
    })
}

/// The first item of a header that is not what the files show.
pub(crate) fn header_item(header: &StoredHeader, shown: &Shown) -> Option<HeaderItem>
    ensures { result
        ≡ first_failed (shown_tests header.now.marked header.now.state shown.now) }
{
    if !header.marked {
        return Some(HeaderItem::Mark);
    }
    number_item(&header.state, shown)
}

// The first number of a state that is not what the files show.
fn number_item(state: &State, shown: &Shown) -> Option<HeaderItem>
    ensures { result ≡ first_failed (shown_tests true state.now shown.now) }
{
    if state.records != shown.records {
        return Some(HeaderItem::Records);
    }
    if state.del != shown.del {
        return Some(HeaderItem::Del);
    }
    if state.split != shown.split {
        return Some(HeaderItem::Split);
    }
    if state.key_file_length != shown.key_file_length {
        return Some(HeaderItem::KeyFileLength);
    }
    if state.data_file_length != shown.data_file_length {
        return Some(HeaderItem::DataFileLength);
    }
    if state.empty != shown.empty {
        return Some(HeaderItem::Empty);
    }
    if !agrees(state.key_empty, shown.key_empty) {
        return Some(HeaderItem::KeyEmpty);
    }
    None
}

fn agrees(number: u64, shown: Option<u64>) -> bool
    ensures { result ≡ agrees number shown }
{
    match shown {
        None => true,
        Some(other) => number == other,
    }
}

/// How many bytes of an index file of `size` bytes, from the place of the first page on, belong to no page,
/// where so many belong to pages.
pub(crate) fn room_left(defs: &Defs, size: u64, pages: Option<u64>) -> Option<u64>
    requires { IsSound defs.now }
    ensures { result ≡ room_left defs.now size pages }
{
    match pages {
        None => None,
        Some(pages) => Some(size.saturating_sub(first_page(defs)).saturating_sub(pages)),
    }
}
