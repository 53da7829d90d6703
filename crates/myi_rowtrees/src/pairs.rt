//! The pairs of a row.
ghost use Rattle.std.specs.Prelude.{◌≡◌, IfOk, IsTrue};
ghost use Rattle.myi_defs.specs.Sound.{IsSound};
ghost use Rattle.myi_pack.specs.Spelling.{fits};
ghost use Rattle.myi_pair.specs.KeyList.{pointer};
ghost use Rattle.myi_rowtrees.specs.RowLists.{row_pairs};

use myi_data::key_of;
use myi_defs::{Defs, RowFormat};
use myi_keylist::Pair;
use myi_pack::{Row, pack, spellings_are_shortest, view_packed};
use std::alloc::{AllocError, Global};

/// The pointer of the row at a position.
pub fn pointer_of(defs: &Defs, at: u64) -> u64
    requires sound { IsSound defs.now }
    ensures { result ≡ pointer defs.now at }
{
    match defs.format {
        RowFormat::Static => at / defs.slot_length as u64,
        RowFormat::Dynamic => at,
    }
}

/// The pairs of a row that fits, one for each key of the table in their order, with this row pointer.
pub fn pairs_of_row(
    alloc: Global,
    defs: &Defs,
    row: &Row,
    pointer: u64,
) -> Result<Vec<Pair>, AllocError>
    requires sound { IsSound defs.now }
    requires fits { IsTrue (fits defs.now row.now) }
    ensures { IfOk result (λ pairs. pairs.items ≡ row_pairs defs.now row.now pointer) }
{
    spellings_are_shortest();
    let packed = pack(alloc, defs, row)?;
    let view = view_packed(defs, &packed);
    let count = defs.keys.as_slice().len();
    let mut pairs = Vec::with_capacity(alloc, count)?;
    for i in 0..count {
        let key = key_of(alloc, defs, i + 1, &view)?;
        pairs.push(Pair { key, row: pointer })?;
    }
    Ok(pairs)
}
