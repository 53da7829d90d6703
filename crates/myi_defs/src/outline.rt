//! The outline of a header, or that its lengths do not fit together.
//!
//! `Outline::read` goes through the header once. What the lengths say is asked before anything that they
//! lead to is read, so that nothing past the header is, and no list is made longer than its limit.
ghost use Rattle.std.specs.Prelude.{◌≡◌, ◌≢◌, ◌≤◌, ◌+◌, ◌*◌};
ghost use Rattle.std.specs.Prelude.{true, false, length, sum_by, IfOk, IfErr};
ghost use Rattle.std.specs.List.{list_any};
ghost use Rattle.myi_defs.specs.declared.types.DefFault.TheVariants.{Lengths, Memory};
ghost use Rattle.myi_defs.specs.Header as layout;
ghost use Rattle.myi_defs.specs.Conditions as spec;
ghost use Rattle.myi_defs.specs.ReadDefs.{has_wrong_lengths};

use crate::conditions::{DYNAMIC, has_bit};
use crate::header::{Base, FIELD_LENGTH, Front, KeyItem, Outline, field_items, key_items};
use crate::layout::{BASE_LENGTH, MOST_FIELDS, MOST_KEYS, MOST_SEGMENTS, STATE_LENGTH, base_place};
use crate::types::DefFault;
use myi_base::Sequence;
use std::alloc::Global;

const MOST_ROW: u32 = 1 << 20;

impl Outline {
    /// Reads on from the first items.
    #[tactic(auto, unfolding(crate::specs::Header::outline, crate::specs::ReadDefs::has_wrong_lengths))]
    pub(crate) fn read(alloc: Global, front: Front, header: &[u8]) -> Result<Outline, DefFault>
        requires { length header.now ≡ front.header_length }
        ensures value { IfOk result (λ o. o ≡ layout.outline front header.now) }
        ensures right { IfOk result (λ o. has_wrong_lengths o ≡ false) }
        ensures starts { IfOk result (λ o. spec.ItemsStartFrom 0 o.fields) }
        ensures few { IfOk result (λ o. length o.fields ≤ 4096) }
        ensures fault { IfErr result (λ f. f ≢ Memory → f ≡ Lengths) }
        ensures wrong { IfErr result (λ f. f ≢ Memory
            → has_wrong_lengths (layout.outline front header.now) ≡ true) }
    {
        if has_wrong_front(&front) {
            return Err(DefFault::Lengths);
        }
        let base_pos = front.base_pos as usize;
        let base = Base::read(header, base_pos);
        let (keys, place) = key_items(alloc, header, base_pos + BASE_LENGTH, front.keys)?;
        if has_wrong_keys(&front, &keys)
            || has_wrong_fields(&front, &base, place)
            || has_wrong_row(&front, &base)
        {
            return Err(DefFault::Lengths);
        }
        let fields = Sequence::new(field_items(alloc, header, place, base.fields as usize)?);
        Ok(Outline {
            front,
            base,
            keys: Sequence::new(keys),
            fields,
        })
    }
}

#[tactic(auto, unfolding(crate::specs::Conditions::has_wrong_front))]
fn has_wrong_front(front: &Front) -> bool
    ensures value { result ≡ spec.has_wrong_front front.now }
    ensures inside { result ≡ false → layout.keys_place front.now ≤ front.now.header_length }
{
    let place = base_place(
        front.keys as u32,
        front.page_sizes as u32,
        front.key_parts as u32,
    );
    front.state_info_length != STATE_LENGTH
        || front.base_info_length as usize != BASE_LENGTH
        || front.base_pos as u32 != place
        || (front.header_length as usize) < front.base_pos as usize + BASE_LENGTH
        || front.keys > MOST_KEYS
}

// The keys are already known to lie in the header.
#[tactic(auto, unfolding(crate::specs::Conditions::has_wrong_keys))]
fn has_wrong_keys(front: &Front, keys: &[KeyItem]) -> bool
    requires few { length keys.now ≤ 255 }
    requires inside { layout.fields_place front.now keys.now ≤ front.now.header_length }
    ensures { result ≡ spec.has_wrong_keys front.now keys.now }
{
    has_wrong_segments(keys) || (front.key_parts as usize) < parts(keys)
}

fn has_wrong_segments(keys: &[KeyItem]) -> bool
    ensures { result ≡ list_any spec.has_wrong_segments keys.now }
{
    keys.iter().any(|key| {
        let segments = key.segments.as_slice().len();
        segments == 0 || segments > MOST_SEGMENTS as usize
    })
}

fn parts(keys: &[KeyItem]) -> usize
    requires few { length keys.now ≤ 255 }
    requires short { list_any spec.has_wrong_segments keys.now ≡ false }
    ensures { result ≡ sum_by (λ k. length k.segments) keys.now }
{
    let mut parts = 0;
    for key in keys {
        parts += key.segments.as_slice().len();
    }
    parts
}

#[tactic(auto, unfolding(crate::specs::Conditions::has_wrong_fields))]
fn has_wrong_fields(front: &Front, base: &Base, place: usize) -> bool
    requires { place ≤ 65535 }
    ensures value { result ≡ spec.has_wrong_fields front.now base.now place }
    ensures inside { result ≡ false → place + 7 * base.now.fields ≤ front.now.header_length }
    ensures few { result ≡ false → base.now.fields ≤ 4096 }
{
    base.fields == 0
        || base.fields > MOST_FIELDS as u32
        || (front.header_length as usize) < place + FIELD_LENGTH * base.fields as usize
}

#[tactic(auto, unfolding(crate::specs::Conditions::has_wrong_row))]
fn has_wrong_row(front: &Front, base: &Base) -> bool
    ensures { result ≡ spec.has_wrong_row front.now base.now }
{
    base.row_length == 0
        || base.row_length > MOST_ROW
        || !has_bit(DYNAMIC, front.options)
            && (base.slot_length < base.row_length || base.slot_length > MOST_ROW)
}
