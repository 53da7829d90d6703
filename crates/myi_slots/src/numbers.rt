//! The numbers of a table behind a change of a static data file.
ghost use Rattle.std.specs.Prelude.{◌≡◌};
ghost use Rattle.myi_slots.specs.SlotFile.{appended_counts, filled_counts, freed_counts, counts_in};

use myi_header::State;
use myi_state::Counts;

/// The numbers that a header's state has.
pub(crate) fn counts_in(state: &State) -> Counts
    ensures { result ≡ counts_in state.now }
{
    Counts {
        records: state.records,
        del: state.del,
        split: state.split,
        empty: state.empty,
        length: state.data_file_length,
        dellink: state.dellink,
    }
}

/// Behind a row in a new slot, up to an end.
pub(crate) fn appended(counts: Counts, end: u64) -> Counts
    ensures { result ≡ appended_counts end counts }
{
    Counts {
        records: counts.records.saturating_add(1),
        del: counts.del,
        split: counts.split.saturating_add(1),
        empty: counts.empty,
        length: end,
        dellink: counts.dellink,
    }
}

/// Behind a row in the first deleted slot, before the next one.
pub(crate) fn filled(counts: Counts, size: u64, next: Option<u64>) -> Counts
    ensures { result ≡ filled_counts size next counts }
{
    Counts {
        records: counts.records.saturating_add(1),
        del: counts.del.saturating_sub(1),
        split: counts.split.saturating_add(1),
        empty: counts.empty.saturating_sub(size),
        length: counts.length,
        dellink: next,
    }
}

/// Behind the slot of a row as the first deleted one.
pub(crate) fn freed(counts: Counts, size: u64, at: u64) -> Counts
    ensures { result ≡ freed_counts size at counts }
{
    Counts {
        records: counts.records.saturating_sub(1),
        del: counts.del.saturating_add(1),
        split: counts.split.saturating_sub(1),
        empty: counts.empty.saturating_add(size),
        length: counts.length,
        dellink: Some(at),
    }
}
