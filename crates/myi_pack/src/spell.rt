//! The spelling of a row that a view shows, written into a buffer.
//!
//! `spell_into` gives the bytes of `pack` for the row that a view shows, without a copy of the row: each
//! value stands in one buffer for a moment, and both buffers may live as long as a scan.
ghost use Rattle.std.specs.Prelude.{◌≡◌, ◌≤◌, ◌*◌, ◌++◌, true, [], length, All, IsTrue, OnOk};
ghost use Rattle.myi_defs.specs.Sound.{IsSound, IsLengthOf};
ghost use Rattle.myi_pack.specs.Flags.{flag_bytes, flag_count, packed_bits, with_flags};
ghost use Rattle.myi_pack.specs.Spelling.{spelled_fields, flags_of, filled, spelling};
ghost use Rattle.myi_pack.specs.Spelling.{fits_fields, fits};

use crate::RowView;
use crate::fields::{flag_count, next_flag};
use crate::packing::{push_field, push_slot, set_flag};
use crate::values::{push_repeated, value_into};
use myi_defs::{Defs, Field, RowFormat};
use std::alloc::AllocError;

/// Writes the spelling of the row that a view shows, in place of what the buffer held. The second buffer
/// is for one value at a time. The view was made with these definitions.
#[tactic(auto, unfolding(crate::specs::Spelling::spelling))]
pub fn spell_into(
    out: &mut Vec<u8>,
    scratch: &mut Vec<u8>,
    defs: &Defs,
    view: &RowView<'_>,
) -> Result<(), AllocError>
    requires sound { IsSound defs.now }
    requires fits { IsTrue (fits defs.now view.now) }
    ensures { OnOk result (out.new.items ≡ spelling defs.now view.now) }
{
    out.clear();
    match defs.format {
        RowFormat::Static => spell_slot(out, scratch, defs, view),
        RowFormat::Dynamic => spell_fields(out, scratch, defs.fields.as_slice(), view),
    }
}

// Writes the slot of a static row.
fn spell_slot(
    out: &mut Vec<u8>,
    scratch: &mut Vec<u8>,
    defs: &Defs,
    view: &RowView<'_>,
) -> Result<(), AllocError>
    requires sound { IsSound defs.now }
    requires slot { defs.now.format ≡ RowFormat.Static }
    requires fits { fits_fields RowFormat.Static defs.now.fields view.now ≡ true }
    requires empty { out.old.items ≡ [] }
    ensures { OnOk result
        (out.new.items
        ≡ filled defs.now.slot_length
        (spelled_fields RowFormat.Static defs.now.fields view.now)) }
{
    spell_slots(out, scratch, defs.fields.as_slice(), view)?;
    let rest = defs.slot_length as usize - out.len();
    push_repeated(out, 0, rest)
}

// Appends the fields of a static row.
fn spell_slots(
    out: &mut Vec<u8>,
    scratch: &mut Vec<u8>,
    fields: &[Field],
    view: &RowView<'_>,
) -> Result<(), AllocError>
    requires lengths { All (λ f. IsLengthOf RowFormat.Static f.kind f.length) fields.now }
    requires fits { fits_fields RowFormat.Static fields.now view.now ≡ true }
    ensures { OnOk result
        (out.new.items ≡ out.old.items ++ spelled_fields RowFormat.Static fields.now view.now) }
{
    let mut values = view.fields();
    for field in fields {
        let Some((length, shown)) = values.next_with_length() else {
            unreachable!();
        };
        value_into(scratch, length as usize, shown)?;
        push_slot(out, field, scratch)?;
    }
    Ok(())
}

// Writes the flags and the fields of a dynamic row.
fn spell_fields(
    out: &mut Vec<u8>,
    scratch: &mut Vec<u8>,
    fields: &[Field],
    view: &RowView<'_>,
) -> Result<(), AllocError>
    requires few { length fields.now ≤ 4096 }
    requires lengths { All (λ f. IsLengthOf RowFormat.Dynamic f.kind f.length) fields.now }
    requires fits { fits_fields RowFormat.Dynamic fields.now view.now ≡ true }
    requires empty { out.old.items ≡ [] }
    ensures { OnOk result
        (out.new.items
        ≡ packed_bits (flag_bytes (flag_count fields.now)) (flags_of fields.now view.now)
        ++ spelled_fields RowFormat.Dynamic fields.now view.now) }
{
    push_repeated(out, 0, flag_count(fields).div_ceil(8))?;
    spell_behind(out, scratch, fields, view)?;
    Ok(())
}

// Appends the fields behind their flags, and sets the flags.
fn spell_behind(
    out: &mut Vec<u8>,
    scratch: &mut Vec<u8>,
    fields: &[Field],
    view: &RowView<'_>,
) -> Result<(), AllocError>
    requires few { length fields.now ≤ 4096 }
    requires room { flag_count fields.now ≤ 8 * length out.old.items }
    requires lengths { All (λ f. IsLengthOf RowFormat.Dynamic f.kind f.length) fields.now }
    requires fits { fits_fields RowFormat.Dynamic fields.now view.now ≡ true }
    ensures { OnOk result
        (out.new.items
        ≡ with_flags out.old.items 0 (flags_of fields.now view.now)
        ++ spelled_fields RowFormat.Dynamic fields.now view.now) }
{
    let mut values = view.fields();
    let mut k = 0;
    for field in fields {
        let Some((length, shown)) = values.next_with_length() else {
            unreachable!();
        };
        value_into(scratch, length as usize, shown)?;
        let bit = push_field(out, field, scratch)?;
        set_flag(out, k, bit);
        k = next_flag(field.kind, k);
    }
    Ok(())
}
