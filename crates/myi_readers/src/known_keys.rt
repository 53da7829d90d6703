//! `KnownKeys`: the rows that a reader knows, by their keys in one key of the table.
//!
//! Rows are taken in as they become known, in the order of their numbers, and each key is made once. In `places` a row
//! stands by its key and then by its number, so that rows whose key lies between bounds are found without the others.
ghost use Rattle.std.specs.Prelude.{ℕ, List, IfOk};
ghost use Rattle.myi_readers.specs.Indexes.{AreIndexes};

use crate::known_places::KnownPlaces;
use myi_data::key_of;
use myi_defs::Defs;
use myi_keylist::Pair;
use myi_pack::view_packed;
use myi_snapshots::KnownRows;
use std::alloc::{AllocError, Global};

/// The first rows that a reader knows, by their keys in one key of the table.
#[derive(Drop)]
pub struct KnownKeys {
    /// The key and the number of each of these rows, with the row's position. Numbers count from 0.
    pub places: KnownPlaces,
    /// How many rows these are.
    pub count: usize,
    /// Where the data file ends behind them.
    pub end: u64,
}

impl KnownKeys {
    ghost use Rattle.std.specs.Prelude.{◌≡◌, ◌+◌, ◌^◌, ◌<◌, length, OnOk};
    ghost use Rattle.myi_defs.specs.Sound.{IsSound};
    ghost use Rattle.myi_snapshots.specs.Knowing.{packed_of};
    ghost use Rattle.myi_readers.specs.Indexes.{IndexesKnown, IsEmptyIndex};

    /// No rows, behind a data file that ends there.
    pub(crate) fn new(alloc: Global, end: u64) -> KnownKeys
        ensures { IsEmptyIndex end result }
    {
        KnownKeys {
            places: KnownPlaces::new(alloc),
            count: 0,
            end,
        }
    }

    // Takes in the next row that is known, by its key in the key of that number, counted from 0.
    fn take_next(&mut self, defs: &Defs, key: usize, known: &KnownRows) -> Result<(), AllocError>
        requires sound { IsSound defs.now }
        requires key { key < length defs.now.keys }
        requires table { known.now.defs ≡ defs.now }
        requires there { self.old.count < length (packed_of known.now) }
        requires few { length (packed_of known.now) < 2 ^ 64 }
        requires index { IndexesKnown defs.now known.now key self.old }
        ensures index { IndexesKnown defs.now known.now key self.new }
        ensures next { OnOk result (self.new.count ≡ self.old.count + 1) }
    {
        let number = self.count;
        let view = view_packed(defs, known.bytes(number));
        let value = key_of(defs.raw.allocator(), defs, key + 1, &view)?;
        let pair = Pair {
            key: value,
            row: number as u64,
        };
        self.places.insert(pair, self.end)?;
        self.end = self.end.saturating_add(known.size(number));
        self.count = number + 1;
        Ok(())
    }

    /// Takes in the rows that became known, by their keys in the key of that number, counted from 0. For want of memory
    /// some of them are left for the next call.
    pub(crate) fn read_on(
        &mut self,
        defs: &Defs,
        key: usize,
        known: &KnownRows,
    ) -> Result<(), AllocError>
        requires sound { IsSound defs.now }
        requires key { key < length defs.now.keys }
        requires table { known.now.defs ≡ defs.now }
        requires index { IndexesKnown defs.now known.now key self.old }
        ensures index { IndexesKnown defs.now known.now key self.new }
        ensures whole { OnOk result (self.new.count ≡ length (packed_of known.now)) }
        ensures few { OnOk result (length (packed_of known.now) < 2 ^ 64) }
    {
        while self.count < known.count() {
            self.take_next(defs, key, known)?;
        }
        Ok(())
    }
}

/// An index of no rows for each key of a table, behind a data file that ends there.
pub(crate) fn begin_indexes(
    alloc: Global,
    defs: &Defs,
    end: u64,
) -> Result<Vec<KnownKeys>, AllocError>
    ensures { IfOk result (λ all. (packed : List (List ℕ))
        → AreIndexes defs.now end packed all.items) }
{
    let count = defs.keys.as_slice().len();
    let mut all = Vec::with_capacity(alloc, count)?;
    for _key in 0..count {
        all.push(KnownKeys::new(alloc, end))?;
    }
    Ok(all)
}
