//! Where the fields of a dynamic row begin.
//!
//! `cut_at` reads the field at a place, and answers the place of the next field too. `reach` goes over the
//! fields until the place of a wanted one is known, and keeps the places in a buffer, so that no field is
//! searched for twice. Places are plain numbers, so the buffer may serve for many rows.
ghost use Rattle.std.specs.Prelude.{◌≡◌, ◌≤◌, ◌<◌, ◌^◌, length, drop, IsSome, Some, OnOk};
ghost use Rattle.myi_defs.specs.Sound.{IsLengthOf};
ghost use Rattle.myi_pack.specs.Flags.{flag_at, next_flag};
ghost use Rattle.myi_pack.specs.Unpacking.{field_of};
ghost use Rattle.myi_pack.specs.Views.{field_value};
ghost use Rattle.myi_pack.specs.Left.{IsLeft};
ghost use Rattle.myi_pack.specs.Places.{place_of, AreBegun};

use crate::fields::{FieldView, cut_field, flag_at, next_flag};
use myi_defs::{Field, RowFormat};
use std::alloc::{AllocError, Global};

/// Where a field begins in the bytes of the fields, and the number of its flag, if it has one.
#[derive(Clone, Copy)]
pub(crate) struct FieldPlace {
    pub(crate) begin: usize,
    pub(crate) flag: usize,
}

/// A buffer for the places of the fields of a row. It may serve for one row after the other.
#[derive(Drop)]
pub struct FieldPlaces {
    /// The place of the second field, of the third, and so on, as far as they were met.
    pub(crate) behind: Vec<FieldPlace>,
}

impl FieldPlaces {
    /// A buffer with nothing in it. It takes no memory.
    pub fn new(alloc: Global) -> FieldPlaces {
        FieldPlaces {
            behind: Vec::new(alloc),
        }
    }
}

// The place of field `i`, from 0, where those behind the first one are known so far.
pub(crate) fn place_of(behind: &[FieldPlace], i: usize) -> FieldPlace
    requires { i ≤ length behind.now }
    ensures { result ≡ place_of behind.now i }
{
    if i == 0 {
        FieldPlace { begin: 0, flag: 0 }
    } else {
        behind[i - 1]
    }
}

// What the field at a place shows, and the place of the next field.
#[tactic(auto, unfolding(crate::specs::Unpacking::field_of))]
pub(crate) fn cut_at<'a>(
    field: &Field,
    flags: &[u8],
    bytes: &'a [u8],
    place: FieldPlace,
) -> (FieldView<'a>, FieldPlace)
    requires length { IsLengthOf RowFormat.Dynamic field.now.kind field.now.length }
    requires inside { place.begin ≤ length bytes.now }
    requires few { place.flag < 2 ^ 32 }
    requires found { IsSome (field_of RowFormat.Dynamic field.now (flag_at flags.now place.flag)
        (drop place.begin bytes.now)) }
    ensures found { field_of RowFormat.Dynamic field.now (flag_at flags.now place.flag)
        (drop place.begin bytes.now)
        ≡ Some (field_value field.now.length result.0, drop result.1.begin bytes.now) }
    ensures inside { result.1.begin ≤ length bytes.now }
    ensures flag { result.1.flag ≡ next_flag field.now.kind place.flag }
{
    let bit = flag_at(flags, place.flag);
    let from = &bytes[place.begin..];
    let (shown, rest) = cut_field(RowFormat::Dynamic, field, bit, from).unwrap();
    let next = FieldPlace {
        begin: bytes.len() - rest.len(),
        flag: next_flag(field.kind, place.flag),
    };
    (shown, next)
}

// Goes over the fields until the place of field `i` is known.
pub(crate) fn reach(
    behind: &mut Vec<FieldPlace>,
    fields: &[Field],
    flags: &[u8],
    bytes: &[u8],
    i: usize,
) -> Result<(), AllocError>
    requires row { IsLeft RowFormat.Dynamic fields.now 0 flags.now bytes.now }
    requires begun { AreBegun fields.now flags.now bytes.now 1 behind.old.items }
    requires inside { i < length fields.now }
    ensures begun { AreBegun fields.now flags.now bytes.now 1 behind.new.items }
    ensures reached { OnOk result (i ≤ length behind.new.items) }
{
    while behind.len() < i {
        let last = behind.len();
        let place = place_of(behind, last);
        let (_, next) = cut_at(&fields[last], flags, bytes, place);
        behind.push(next)?;
    }
    Ok(())
}
