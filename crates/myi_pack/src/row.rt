//! A row behind its bytes.
//!
//! `view` looks whether bytes pack a row, and a `RowView` is such a row, still in its bytes; `view_packed`
//! makes one of bytes that were looked at before. `RowFields` goes over its fields from the first on, and
//! `NumberedFields` finds them by their numbers. A contract sees a `RowView` and a `NumberedFields` as the
//! row, and a `RowFields` as the values that are left.
ghost use Rattle.std.specs.Prelude.{◌≡◌, true, ℕ, List, ◌+◌, ◌<◌, ◌≤◌, ◌^◌, [], length, All, Option};
ghost use Rattle.std.specs.Prelude.{Some, None, IsSome, MatchOption, is_some, slice_index_or};
ghost use Rattle.std.specs.Prelude.{drop, IfOk, OnOk};
ghost use Rattle.std.specs.Option.{option_map};
ghost use Rattle.myi_defs.specs.Sound.{IsSound, IsLengthOf};
ghost use Rattle.myi_pack.specs.Flags.{flag_at, flag_count, flag_bytes};
ghost use Rattle.myi_pack.specs.Packed.{Values, Packs};
ghost use Rattle.myi_pack.specs.Unpacking.{as_cut, parts_of, is_spare_clear};
ghost use Rattle.myi_pack.specs.Unpacking.{fields_of, field_of, ended, row_of, as_value, filled_field};
ghost use Rattle.myi_pack.specs.Views.{Shows, IsNext, IsNextShown, field_value};

use crate::fields::{FieldView, cut, cut_field, filled_field, flag_at, flag_count, next_flag};
use crate::places::{FieldPlaces, cut_at, place_of, reach};
use myi_defs::{Defs, Field, RowFormat};
use std::alloc::AllocError;
use std::marker::Model;

/// A row, lent from its bytes.
#[derive(Drop)]
pub struct RowView<'a> {
    format: RowFormat,
    fields: &'a [Field],
    flags: &'a [u8],
    bytes: &'a [u8],
}

impl<'a> Model for RowView<'a> {
    ghost use Rattle.myi_pack.specs.Packed.{Values};
    ghost use Rattle.myi_pack.specs.Left.{values_left, IsPlaced};

    ghost Value = { Values };

    ghost view = { λ s. values_left s.format s.fields.now 0 s.flags.now s.bytes.now };

    ghost invariant = { λ s. IsPlaced s.format s.fields.now s.flags.now s.bytes.now };
}

/// The fields of a row that are left, from the first to the last.
#[derive(Drop)]
pub struct RowFields<'a> {
    format: RowFormat,
    fields: &'a [Field],
    flags: &'a [u8],
    /// The number of the first flag that is left.
    flag: usize,
    bytes: &'a [u8],
}

impl<'a> Model for RowFields<'a> {
    ghost use Rattle.myi_pack.specs.Packed.{Values};
    ghost use Rattle.myi_pack.specs.Left.{values_left, IsLeft};

    ghost Value = { Values };

    ghost view = { λ s. values_left s.format s.fields.now s.flag s.flags.now s.bytes.now };

    ghost invariant = { λ s. IsLeft s.format s.fields.now s.flag s.flags.now s.bytes.now };
}

/// The fields of a row by their numbers. Those of a static row stand at their starts; those of a dynamic row
/// are met one after the other, as far as they are asked for, and their places are kept.
#[derive(Drop)]
pub struct NumberedFields<'a> {
    format: RowFormat,
    fields: &'a [Field],
    flags: &'a [u8],
    bytes: &'a [u8],
    places: FieldPlaces,
}

impl<'a> Model for NumberedFields<'a> {
    ghost use Rattle.myi_pack.specs.Packed.{Values};
    ghost use Rattle.myi_pack.specs.Left.{values_left};
    ghost use Rattle.myi_pack.specs.Places.{IsNumbered};

    ghost Value = { Values };

    ghost view = { λ s. values_left s.format s.fields.now 0 s.flags.now s.bytes.now };

    ghost invariant = { λ s.
        IsNumbered s.format s.fields.now s.flags.now s.bytes.now s.places.behind.items };
}

/// The row that the bytes pack, or None where they pack none. It takes no memory. In a dynamic table the
/// bytes are those of a row's blocks, one after the other; in a static table they are a slot.
pub fn view<'a>(defs: &'a Defs, bytes: &'a [u8]) -> Option<RowView<'a>>
    requires { IsSound defs.now }
    ensures packs { MatchOption result ((row : Values) → Packs defs.now row bytes.now → ⊥)
        (λ row. Packs defs.now row bytes.now) }
    ensures found { MatchOption result (row_of defs.now bytes.now ≡ None)
        (λ row. row_of defs.now bytes.now ≡ Some row) }
{
    find_row(defs, bytes)
}

/// The row that the bytes pack, where they are known to pack one, as those of a row that a scan answered
/// are. The fields are not looked at.
pub fn view_packed<'a>(defs: &'a Defs, bytes: &'a [u8]) -> RowView<'a>
    requires sound { IsSound defs.now }
    requires packed { is_some (row_of defs.now bytes.now) ≡ true }
    ensures packs { Packs defs.now result bytes.now }
    ensures found { row_of defs.now bytes.now ≡ Some result }
{
    let (flags, content) = split(defs, bytes).unwrap();
    RowView {
        format: defs.format,
        fields: defs.fields.as_slice(),
        flags,
        bytes: content,
    }
}

#[tactic(auto, unfolding(crate::specs::Unpacking::row_of))]
fn find_row<'a>(defs: &'a Defs, bytes: &'a [u8]) -> Option<RowView<'a>>
    requires { IsSound defs.now }
    ensures { MatchOption result (row_of defs.now bytes.now ≡ None)
        (λ row. row_of defs.now bytes.now ≡ Some row) }
{
    let fields = defs.fields.as_slice();
    let format = defs.format;
    let (flags, content) = split(defs, bytes)?;
    if !has_fields(format, fields, flags, content) {
        return None;
    }
    Some(RowView {
        format,
        fields,
        flags,
        bytes: content,
    })
}

// The flags, and the bytes of the fields behind them.
fn split<'a>(defs: &Defs, bytes: &'a [u8]) -> Option<(&'a [u8], &'a [u8])>
    ensures { as_cut result ≡ parts_of defs.now.format defs.now bytes.now }
{
    match defs.format {
        RowFormat::Static => {
            let [first, ..] = bytes else {
                return None;
            };
            if bytes.len() == defs.slot_length as usize && *first != 0 {
                Some((&[], bytes))
            } else {
                None
            }
        }
        RowFormat::Dynamic => {
            let count = flag_count(defs.fields.as_slice());
            let (flags, content) = cut(bytes, count.div_ceil(8))?;
            if is_spare_clear(count, flags) {
                Some((flags, content))
            } else {
                None
            }
        }
    }
}

fn is_spare_clear(count: usize, flags: &[u8]) -> bool
    requires { flag_bytes count ≤ length flags.now }
    ensures { result ≡ is_spare_clear count flags.now }
{
    count % 8 == 0 || flags[count / 8] < 1 << (count % 8)
}

// Whether the fields stand in the bytes, and nothing else but in a static row.
fn has_fields(format: RowFormat, fields: &[Field], flags: &[u8], bytes: &[u8]) -> bool
    requires few { length fields.now ≤ 4096 }
    requires lengths { All (λ f. IsLengthOf format f.kind f.length) fields.now }
    ensures { result ≡ is_some (ended format (fields_of format fields.now 0 flags.now bytes.now)) }
{
    let mut rest = bytes;
    let mut k = 0;
    for field in fields {
        let Some((_, after)) = cut_field(format, field, flag_at(flags, k), rest) else {
            return false;
        };
        rest = after;
        k = next_flag(field.kind, k);
    }
    format == RowFormat::Static || rest.is_empty()
}

impl<'a> RowView<'a> {
    /// The fields, from the first to the last.
    pub fn fields(&self) -> RowFields<'a>
        ensures { result ≡ self.now }
    {
        RowFields {
            format: self.format,
            fields: self.fields,
            flags: self.flags,
            flag: 0,
            bytes: self.bytes,
        }
    }

    /// How many fields there are.
    pub fn count(&self) -> usize
        ensures { result ≡ length self.now }
    {
        self.fields.len()
    }

    /// The fields by their numbers, with a buffer for their places. It takes no memory itself.
    pub fn numbered(&self, places: FieldPlaces) -> NumberedFields<'a>
        ensures { result ≡ self.now }
    {
        let mut places = places;
        places.behind.clear();
        NumberedFields {
            format: self.format,
            fields: self.fields,
            flags: self.flags,
            bytes: self.bytes,
            places,
        }
    }

    /// What field `i`, from 0, shows. It goes over the fields before it; `fields` goes over all in one
    /// pass.
    pub fn field(&self, i: usize) -> FieldView<'a>
        requires { i < length self.now }
        ensures { Shows result (slice_index_or self.now i []) }
    {
        let mut fields = self.fields();
        for _j in 0..i {
            let _passed = fields.next_field();
        }
        fields.next_field().unwrap()
    }
}

impl<'a> RowFields<'a> {
    /// The next field, or None behind the last one.
    pub fn next_field(&mut self) -> Option<FieldView<'a>>
        ensures { IsNext self.old result self.new }
    {
        let (_, shown) = self.next_with_length()?;
        Some(shown)
    }

    /// The length of the next field, in bytes, and what the field shows, or None behind the last one.
    /// Both together determine the field's value.
    pub fn next_with_length(&mut self) -> Option<(u16, FieldView<'a>)>
        ensures { IsNextShown self.old result self.new }
    {
        let [field, fields @ ..] = self.fields else {
            return None;
        };
        let bit = flag_at(self.flags, self.flag);
        let (shown, bytes) = cut_field(self.format, field, bit, self.bytes)?;
        self.fields = fields;
        self.flag = next_flag(field.kind, self.flag);
        self.bytes = bytes;
        Some((field.length, shown))
    }
}

impl<'a> NumberedFields<'a> {
    /// The length of field `i`, from 0, in bytes, and what the field shows.
    pub fn field(&mut self, i: usize) -> Result<(u16, FieldView<'a>), AllocError>
        requires { i < length self.old }
        ensures same { OnOk result (self.new ≡ self.old) }
        ensures shown { IfOk result (λ shown.
            slice_index_or self.old i [] ≡ field_value shown.0 shown.1) }
    {
        match self.format {
            RowFormat::Static => Ok(slot_field(&self.fields[i], self.bytes)),
            RowFormat::Dynamic => {
                let behind = &mut self.places.behind;
                reach(behind, self.fields, self.flags, self.bytes, i)?;
                let place = place_of(&self.places.behind, i);
                let field = &self.fields[i];
                let (shown, _) = cut_at(field, self.flags, self.bytes, place);
                Ok((field.length, shown))
            }
        }
    }

    /// The buffer, for another row.
    pub fn into_places(self) -> FieldPlaces {
        let NumberedFields {
            format: _,
            fields: _,
            flags: _,
            bytes: _,
            places,
        } = self;
        places
    }
}

// The field of a static row: its length, and what it shows.
fn slot_field<'a>(field: &Field, slot: &'a [u8]) -> (u16, FieldView<'a>)
    requires length { IsLengthOf RowFormat.Static field.now.kind field.now.length }
    requires inside { field.now.start ≤ length slot.now }
    requires found { IsSome
        (filled_field field.now.kind field.now.length (drop field.now.start slot.now)) }
    ensures { as_value
        (filled_field field.now.kind field.now.length (drop field.now.start slot.now))
        ≡ Some (field_value result.0 result.1) }
{
    let (value, _) = filled_field(field, &slot[field.start as usize..]).unwrap();
    (field.length, FieldView::Plain(value))
}
