//! Where the trees of a table stand.
ghost use Rattle.std.specs.Prelude.{◌≡◌, length, IfOk};
ghost use Rattle.std.specs.List.{AllByRecursion};
ghost use Rattle.myi_defs.specs.Sound.{IsSound};
ghost use Rattle.myi_btree.specs.declared.place.Place.{Place};
ghost use Rattle.myi_btree.specs.Sizes.{IsPlaced};
ghost use Rattle.myi_rowtrees.specs.Places.{places_of};

use myi_btree::Place;
use myi_defs::Defs;
use std::alloc::{AllocError, Global};

/// The places of the trees of a table, one for each key in their order, with these roots.
pub fn places_of(
    alloc: Global,
    defs: &Defs,
    roots: &[Option<u64>],
) -> Result<Vec<Place>, AllocError>
    requires sound { IsSound defs.now }
    requires roots { length roots.now ≡ length defs.now.keys }
    ensures places { IfOk result (λ places. places.items ≡ places_of defs.now roots.now) }
    ensures placed { IfOk result (λ places. AllByRecursion IsPlaced places.items) }
    ensures each { IfOk result (λ places. length places.items ≡ length defs.now.keys) }
    ensures pointers { IfOk result (λ places.
        AllByRecursion (λ (p : Place). p.rec_ref ≡ defs.now.rec_ref) places.items) }
{
    let keys = defs.keys.as_slice();
    let mut places = Vec::with_capacity(alloc, keys.len())?;
    for i in 0..keys.len() {
        places.push(Place {
            block_length: keys[i].block_length,
            rec_ref: defs.rec_ref,
            root: roots[i],
        })?;
    }
    Ok(places)
}
