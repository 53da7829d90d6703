//! `RowPairs`: the pairs of a row, one for each key of its table.
//!
//! The code of each key stands in a buffer that serves row after row, so that no row takes memory of its own.
ghost use Rattle.std.specs.Prelude.{◌≡◌, true, length, OnOk};
ghost use Rattle.myi_defs.specs.Sound.{IsSound};
ghost use Rattle.myi_pack.specs.Spelling.{fits};
ghost use Rattle.myi_keylist.specs.PairOrder.{pair_with};
ghost use Rattle.myi_data.specs.Keys.{IsKeyNumber, key_of};
ghost use Rattle.myi_rowtrees.specs.RowLists.{row_pairs};

use myi_data::key_code_into;
use myi_defs::Defs;
use myi_keylist::Pair;
use myi_keys::KeyVal;
use myi_pack::{FieldPlaces, NumberedFields, RowView, view_packed};
use myi_repair::NextRow;
use std::alloc::{AllocError, Global};
use std::marker::Model;
use std::mem::replace;

/// The pairs of a row, in the order of the keys.
pub(crate) struct RowPairs {
    pairs: Vec<Pair>,
    /// For one value of the row.
    scratch: Vec<u8>,
    places: FieldPlaces,
}

impl Drop for RowPairs {
    fn drop(self) {
        let RowPairs {
            pairs: _,
            scratch: _,
            places: _,
        } = self;
    }
}

impl Model for RowPairs {
    ghost use Rattle.std.specs.Prelude.{List};
    ghost use Rattle.myi_keylist.specs.declared.pair.Pair.{Pair};

    ghost Value = { List Pair };

    ghost view = { λ p. p.pairs.items };
}

impl RowPairs {
    ghost use Rattle.std.specs.Prelude.{◌≡◌, true, length, IfOk, OnOk};
    ghost use Rattle.myi_defs.specs.ReadDefs.{AreDefs};
    ghost use Rattle.myi_defs.specs.Sound.{IsSound};
    ghost use Rattle.myi_pack.specs.Spelling.{fits};
    ghost use Rattle.myi_data.specs.Stored.{SizedRow};
    ghost use Rattle.myi_rowtrees.specs.RowLists.{row_pairs};
    ghost use Rattle.myi_repair.specs.Keeping.{IsPrepared};

    /// A pair without a segment for each key.
    pub(crate) fn new(alloc: Global, defs: &Defs) -> Result<RowPairs, AllocError>
        ensures { IfOk result (λ pairs. length pairs ≡ length defs.now.keys) }
    {
        let count = defs.keys.as_slice().len();
        let mut pairs = Vec::with_capacity(alloc, count)?;
        for _ in 0..count {
            let key = no_key(alloc);
            pairs.push(Pair { key, row: 0 })?;
        }
        Ok(RowPairs {
            pairs,
            scratch: Vec::new(alloc),
            places: FieldPlaces::new(alloc),
        })
    }

    /// Puts the pairs of a row that was read in place of those that were there, with this row pointer.
    pub(crate) fn read(
        &mut self,
        defs: &Defs,
        next: &NextRow,
        pointer: u64,
    ) -> Result<(), AllocError>
        requires defs { AreDefs defs.now }
        requires row { (row : SizedRow) × IsPrepared defs.now row next.now }
        requires each { length self.old ≡ length defs.now.keys }
        ensures { OnOk result ((row : SizedRow) → IsPrepared defs.now row next.now
            → self.new ≡ row_pairs defs.now row.values pointer) }
    {
        let view = view_packed(defs, &next.bytes);
        self.put(defs, &view, pointer)
    }

    // Puts the pairs of a row in place of those that were there. The view was made with these definitions.
    fn put(&mut self, defs: &Defs, view: &RowView<'_>, pointer: u64) -> Result<(), AllocError>
        requires sound { IsSound defs.now }
        requires row { fits defs.now view.now ≡ true }
        requires each { length self.old ≡ length defs.now.keys }
        ensures { OnOk result (self.new ≡ row_pairs defs.now view.now pointer) }
    {
        let none = FieldPlaces::new(*self.scratch.allocator());
        let mut fields = view.numbered(replace(&mut self.places, none));
        let put = write_pairs(
            &mut self.pairs,
            &mut self.scratch,
            defs,
            &mut fields,
            pointer,
        );
        self.places = fields.into_places();
        put
    }

    /// The pairs.
    pub(crate) fn as_slice(&self) -> &[Pair]
        ensures { result.now ≡ self.now }
    {
        self.pairs.as_slice()
    }
}

// A key without a segment. It takes no memory.
fn no_key(alloc: Global) -> KeyVal {
    KeyVal::of_code(Vec::new(alloc))
}

// Puts the pairs of a row in place of those that were there.
fn write_pairs(
    pairs: &mut [Pair],
    scratch: &mut Vec<u8>,
    defs: &Defs,
    fields: &mut NumberedFields<'_>,
    pointer: u64,
) -> Result<(), AllocError>
    requires sound { IsSound defs.now }
    requires row { fits defs.now fields.old ≡ true }
    requires each { length pairs.old ≡ length defs.now.keys }
    ensures { OnOk result (pairs.new ≡ row_pairs defs.now fields.old pointer) }
{
    for i in 0..pairs.len() {
        write_pair(&mut pairs[i], scratch, defs, i + 1, fields, pointer)?;
    }
    Ok(())
}

// Puts the pair of the row's key for the key of that number, from 1, in place of the one that was there.
fn write_pair(
    pair: &mut Pair,
    scratch: &mut Vec<u8>,
    defs: &Defs,
    key: usize,
    fields: &mut NumberedFields<'_>,
    pointer: u64,
) -> Result<(), AllocError>
    requires sound { IsSound defs.now }
    requires key { IsKeyNumber defs.now key }
    requires row { fits defs.now fields.old ≡ true }
    ensures pair { OnOk result (pair.new ≡ pair_with (key_of defs.now key fields.old) pointer) }
    ensures same { OnOk result (fields.new ≡ fields.old) }
{
    let none = no_key(*scratch.allocator());
    let mut code = replace(&mut pair.key, none).into_code();
    key_code_into(&mut code, scratch, defs, key, fields)?;
    pair.key = KeyVal::of_code(code);
    pair.row = pointer;
    Ok(())
}
