//! What is made ready of a row before it is put, and the complete keys in unique keys of those that were put.
ghost use Rattle.std.specs.Prelude.{◌≡◌, ◌<◌, ◌≤◌, ◌∷◌, ◌++◌, suc, true, [], length, map, filter, IfOk, OnOk};
ghost use Rattle.indexmap.specs.IndexMap.{spare};
ghost use Rattle.myi_base.specs.Numbers.{AreBytes};
ghost use Rattle.myi_defs.specs.Sound.{IsSound};
ghost use Rattle.myi_pack.specs.Spelling.{spelling, fits};
ghost use Rattle.myi_inserter.specs.UniqueKeys.{key_in, may_not_repeat, unique_keys};
ghost use Rattle.myi_inserter.specs.Putting.{FindsMore};

use crate::unique_key::UniqueKey;
use indexmap::IndexMap;
use myi_base::slices_are_bytes;
use myi_data::key_of;
use myi_defs::Defs;
use myi_pack::{Row, RowView, pack, spellings_are_shortest, view_packed};
use std::alloc::{AllocError, Global};

/// A row that is ready to be put: its bytes, and its complete keys in unique keys.
#[derive(Drop)]
pub(crate) struct ReadyRow {
    pub(crate) packed: Vec<u8>,
    pub(crate) keys: Vec<UniqueKey>,
}

// Appends the key of a row in the key with index `i`, where that is unique and the row's is complete.
fn push_unique(
    keys: &mut Vec<UniqueKey>,
    defs: &Defs,
    i: usize,
    view: &RowView<'_>,
) -> Result<(), AllocError>
    requires sound { IsSound defs.now }
    requires key { i < length defs.now.keys }
    requires row { fits defs.now view.now ≡ true }
    ensures { OnOk result (keys.new.items ≡ keys.old.items ++ map (key_in defs.now view.now)
        (filter (may_not_repeat defs.now view.now) (suc i ∷ []))) }
{
    if !defs.keys.as_slice()[i].unique {
        return Ok(());
    }
    let number = i + 1;
    let key = key_of(*keys.allocator(), defs, number, view)?;
    if key.is_complete() {
        keys.push(UniqueKey { number, key })?;
    }
    Ok(())
}

// The complete keys of a row in unique keys.
fn unique_keys(alloc: Global, defs: &Defs, view: &RowView<'_>) -> Result<Vec<UniqueKey>, AllocError>
    requires sound { IsSound defs.now }
    requires row { fits defs.now view.now ≡ true }
    ensures { IfOk result (λ keys. keys.items ≡ unique_keys defs.now view.now) }
{
    let count = defs.keys.as_slice().len();
    let mut keys = Vec::new(alloc);
    for i in 0..count {
        push_unique(&mut keys, defs, i, view)?;
    }
    Ok(keys)
}

/// Packs a row and makes its keys.
pub(crate) fn make_ready(alloc: Global, defs: &Defs, row: &Row) -> Result<ReadyRow, AllocError>
    requires sound { IsSound defs.now }
    requires fits { fits defs.now row.now ≡ true }
    ensures packed { IfOk result (λ r. r.packed.items ≡ spelling defs.now row.now) }
    ensures bytes { OnOk result (AreBytes (spelling defs.now row.now)) }
    ensures keys { IfOk result (λ r. r.keys.items ≡ unique_keys defs.now row.now) }
{
    spellings_are_shortest();
    let packed = pack(alloc, defs, row)?;
    slices_are_bytes(&packed);
    let view = view_packed(defs, &packed);
    let keys = unique_keys(alloc, defs, &view)?;
    Ok(ReadyRow { packed, keys })
}

/// Notes a position by each of these keys. There is room for them.
pub(crate) fn put_keys(put: &mut IndexMap<UniqueKey, u64>, keys: Vec<UniqueKey>, at: u64)
    requires { length keys.items ≤ spare put.old }
    ensures { FindsMore put.old put.new keys.items at }
{
    let mut left = keys;
    while let Some(key) = left.pop() {
        let _ = put.insert(key, at);
    }
}
