//! `KnownPlaces`: positions of rows, by a key and the rows' numbers.
use myi_keylist::Pair;
use std::alloc::{AllocError, Global};
use std::collections::BTreeMap;
use std::collections::btree_map::Range;
use std::marker::Model;
use std::ops::Bound;

/// The position of each of some rows, by its key and its number, in order. Contracts see the list of these, so that a type
/// that owns a reader may have a model.
pub struct KnownPlaces {
    map: BTreeMap<Pair, u64>,
}

impl Drop for KnownPlaces {
    fn drop(self) {
        let KnownPlaces { map: _ } = self;
    }
}

impl Model for KnownPlaces {
    ghost use Rattle.std.specs.Prelude.{ℕ, List, ⊤};
    ghost use Rattle.myi_keylist.specs.declared.pair.Pair.{Pair};

    ghost Value = { List (Pair × ℕ) };

    ghost view = { λ p. p.map.entries };

    ghost invariant = { λ p. ⊤ };
}

impl KnownPlaces {
    ghost use Rattle.std.specs.Prelude.{◌≡◌, [], OnOk, OnErr};
    ghost use Rattle.std.specs.Range.Bound.{IsForward};
    ghost use Rattle.std.specs.BTreeMap.{insert_entry};
    ghost use Rattle.std.specs.BTreeMap.Range.{IsLeBy, IsLtBy, entries_between};
    ghost use Rattle.myi_keylist.specs.PairOrder.{pair_cmp};

    /// No row.
    pub(crate) fn new(alloc: Global) -> KnownPlaces
        ensures { result ≡ [] }
    {
        KnownPlaces {
            map: BTreeMap::new(alloc),
        }
    }

    /// Puts a row's position in its place. Where memory runs out nothing is put.
    pub(crate) fn insert(&mut self, pair: Pair, at: u64) -> Result<(), AllocError>
        ensures put { OnOk result (self.new ≡ insert_entry pair_cmp self.old pair at) }
        ensures unchanged { OnErr result (self.new ≡ self.old) }
    {
        self.map.insert(pair, at)?;
        Ok(())
    }

    /// Those between two bounds, which do not cross.
    pub(crate) fn between(&self, bounds: (Bound<Pair>, Bound<Pair>)) -> Range<'_, Pair, u64>
        requires { IsForward (IsLeBy pair_cmp) (IsLtBy pair_cmp) bounds.0 bounds.1 }
        ensures { result ≡ entries_between pair_cmp bounds.0 bounds.1 self.now }
    {
        self.map.range(bounds)
    }
}
