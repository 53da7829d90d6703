//! `RowPointers`: the row pointer of each row, by the rows' numbers from 0.
//!
//! Of static rows none of which is left out each pointer is the row's own number. Such pointers at the
//! front of the list are counted only, so that they take no memory.
ghost use Rattle.std.specs.Prelude.{◌≡◌, slice_index};

use std::alloc::{AllocError, Global};
use std::marker::Model;

/// No more pointers are counted.
const MOST_COUNTED: u64 = 1 << 62;

/// The row pointers of rows, by the rows' numbers.
pub struct RowPointers {
    /// How many rows at the front have their own numbers as pointers.
    same: u64,
    /// The pointers of the rows behind them.
    others: Vec<u64>,
}

impl Drop for RowPointers {
    fn drop(self) {
        let RowPointers { same: _, others: _ } = self;
    }
}

impl Model for RowPointers {
    ghost use Rattle.std.specs.Prelude.{ℕ, List, ◌++◌, ◌≤◌, ◌^◌};
    ghost use Rattle.std.specs.List.{range_with_len};

    ghost Value = { List ℕ };

    ghost view = { λ p. range_with_len 0 p.same ++ p.others.items };

    ghost invariant = { λ p. p.same ≤ 2 ^ 62 };
}

impl RowPointers {
    ghost use Rattle.std.specs.Prelude.{◌≡◌, ◌++◌, ◌∷◌, [], length, slice_index, OnOk, OnErr};

    /// No row yet.
    pub fn new(alloc: Global) -> RowPointers
        ensures { result ≡ [] }
    {
        RowPointers {
            same: 0,
            others: Vec::new(alloc),
        }
    }

    /// The number of rows.
    pub fn len(&self) -> usize
        ensures { result ≡ length self.now }
    {
        self.same as usize + self.others.len()
    }

    /// Adds the pointer of the next row. Where memory runs out the list is as before.
    pub fn push(&mut self, pointer: u64) -> Result<(), AllocError>
        ensures added { OnOk result (self.new ≡ self.old ++ pointer ∷ []) }
        ensures unchanged { OnErr result (self.new ≡ self.old) }
    {
        if pointer == self.same && pointer < MOST_COUNTED && self.others.is_empty() {
            self.same += 1;
            return Ok(());
        }
        self.others.push(pointer)?;
        Ok(())
    }

    /// The pointer of the row of that number, 0 where there is none.
    pub fn at(&self, number: u64) -> u64
        ensures { result ≡ slice_index self.now number }
    {
        if number < self.same {
            return number;
        }
        pointer_at(&self.others, number - self.same)
    }
}

// The pointer at a place of a list, 0 where there is none.
fn pointer_at(pointers: &[u64], place: u64) -> u64
    ensures { result ≡ slice_index pointers.now place }
{
    pointers.get(place as usize).copied().unwrap_or(0)
}
