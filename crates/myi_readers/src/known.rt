//! The rows that a reader knows, behind those of its base.
use crate::reader::TableReader;
use myi_pack::Row;
use std::alloc::{AllocError, Global};

impl TableReader {
    ghost use Rattle.std.specs.Prelude.{◌≡◌, ◌<◌, ◌∷◌, ◌++◌, [], length, slice_index_or, unwrap_or, OnOk};
    ghost use Rattle.myi_pack.specs.Unpacking.{row_of};
    ghost use Rattle.myi_readers.specs.Reader.{IsReader, rows_known};
    ghost use Rattle.myi_readers.specs.Placed.{placed_before, placed_packed};

    // Appends the known row of a number, which stands at a position, where that is before a place.
    fn push_known_row(
        &self,
        rows: &mut Vec<(u64, Row)>,
        i: usize,
        at: u64,
        below: u64,
    ) -> Result<(), AllocError>
        requires ready { IsReader self.now }
        requires there { i < length (rows_known self.now) }
        ensures { OnOk result (rows.new.items ≡ rows.old.items ++ placed_before below
            ((at, unwrap_or (row_of self.now.defs (slice_index_or (rows_known self.now) i [])) [])
            ∷ [])) }
    {
        if at >= below {
            return Ok(());
        }
        let row = self.known.row(*rows.allocator(), i)?;
        rows.push((at, row))?;
        Ok(())
    }

    /// Appends the rows that are known and stand before a place.
    pub(crate) fn push_known(
        &self,
        rows: &mut Vec<(u64, Row)>,
        below: u64,
    ) -> Result<(), AllocError>
        requires ready { IsReader self.now }
        ensures { OnOk result (rows.new.items ≡ rows.old.items ++ placed_before below
            (placed_packed self.now.defs self.now.rows.rows.file.counts.length
            (rows_known self.now))) }
    {
        let mut at = self.rows.rows.counts().length;
        for i in 0..self.known.count() {
            self.push_known_row(rows, i, at, below)?;
            at = at.saturating_add(self.known.size(i));
        }
        Ok(())
    }
}
