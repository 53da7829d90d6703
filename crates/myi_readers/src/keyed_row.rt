//! `KeyedRow`: a row by its key and its position.
use myi_keylist::Pair;
use myi_pack::Row;
use std::cmp::Ordering;

/// A row with its key and its position, which a pair has. Rows are in order by the pair.
pub(crate) struct KeyedRow {
    pub(crate) pair: Pair,
    pub(crate) row: Row,
}

impl Drop for KeyedRow {
    fn drop(self) {
        let KeyedRow { pair: _, row: _ } = self;
    }
}

impl KeyedRow {
    ghost use Rattle.std.specs.Prelude.{◌≡◌};
    ghost use Rattle.myi_readers.specs.KeyedRows.{placed_of};

    /// The position and the row.
    pub(crate) fn into_placed(self) -> (u64, Row)
        ensures { result ≡ placed_of self }
    {
        let KeyedRow { pair, row } = self;
        (pair.row, row)
    }
}

impl PartialEq for KeyedRow {
    ghost use Rattle.std.specs.Ordering.{eq_by_cmp};
    ghost use Rattle.std.specs.Cmp.{partial_equiv_from_equiv};
    ghost use Rattle.std.proofs.lemmas.Cmp.{eq_by_cmp_equiv};
    ghost use Rattle.myi_readers.specs.KeyedRows.{keyed_cmp, keyed_total};

    ghost eq = { eq_by_cmp keyed_cmp };

    ghost laws = { partial_equiv_from_equiv (eq_by_cmp_equiv keyed_total) };

    fn eq(&self, other: &Self) -> bool {
        self.cmp(other).is_eq()
    }
}

impl Eq for KeyedRow {
    ghost use Rattle.std.proofs.lemmas.Cmp.{eq_by_cmp_equiv};
    ghost use Rattle.myi_readers.specs.KeyedRows.{keyed_total};

    ghost laws = { eq_by_cmp_equiv keyed_total };
}

impl PartialOrd for KeyedRow {
    ghost use Rattle.std.specs.Ordering.{as_partial_cmp};
    ghost use Rattle.std.specs.Cmp.{partial_order_from_total};
    ghost use Rattle.myi_readers.specs.KeyedRows.{keyed_cmp, keyed_total};

    ghost partial_cmp = { as_partial_cmp keyed_cmp };

    ghost laws = { partial_order_from_total keyed_total };

    fn partial_cmp(&self, other: &Self) -> Option<Ordering> {
        Some(self.cmp(other))
    }
}

impl Ord for KeyedRow {
    ghost use Rattle.std.specs.Prelude.{refl};
    ghost use Rattle.myi_readers.specs.KeyedRows.{keyed_cmp, keyed_total};

    ghost cmp = { keyed_cmp };

    ghost total = { keyed_total };

    ghost matches_partial_cmp = { λ x y. refl };

    ghost matches_eq = { λ x y. refl };

    fn cmp(&self, other: &Self) -> Ordering {
        let keys = self.pair.key.compare(&other.pair.key);
        keys.then(self.pair.row.cmp(&other.pair.row))
    }
}
