//! Writing a header with a state and the mark.
ghost use Rattle.std.specs.Prelude.{◌≡◌, ◌≤◌, ◌+◌, ◌-◌, ◌++◌, true, length, take};
ghost use Rattle.std.specs.Prelude.{drop, map, replicate, vec_len, All, IfOk, OnOk};
ghost use Rattle.myi_base.specs.Numbers.{pointer_number};
ghost use Rattle.myi_base.specs.Items.{spelling, Fit};
ghost use Rattle.myi_defs.specs.Sound.{IsSound};
ghost use Rattle.myi_defs.specs.Elsewhere.{AgreeOutsideState};
ghost use Rattle.myi_header.specs.Layout.{first_page_of};
ghost use Rattle.myi_header.specs.StateOf.{IsPlace, rest_length, state_of, has_mark};
ghost use Rattle.myi_header.specs.HeaderOf as spec;

use crate::state::{State, append_part, first_page, layout_of};
use myi_base::{append_u8, append_u16, append_u64, pointer_number};
use myi_defs::{BASE_LENGTH, Defs, FRONT_LENGTH, Layout, MARK, MARK_PLACE};
use std::alloc::{AllocError, Global};

/// The header of an index file with these definitions, this state and the mark, filled up with zeros
/// to the first page. Its bytes that are neither state nor mark are those of `defs.raw`.
#[tactic(auto, unfolding(crate::specs::HeaderOf::header_of))]
pub fn print_state(alloc: Global, defs: &Defs, state: &State) -> Result<Vec<u8>, AllocError>
    requires sound { IsSound defs.now }
    requires roots { length state.now.roots ≡ length defs.now.keys }
    requires rest { length state.now.rest ≡ rest_length defs.now }
    requires dellink { IsPlace state.now.dellink }
    requires places { All IsPlace state.now.roots }
    ensures read { IfOk result (λ out. state_of defs.now out.items ≡ state.now) }
    ensures marked { IfOk result (λ out. has_mark defs.now out.items ≡ true) }
    ensures elsewhere { IfOk result (λ out. AgreeOutsideState defs.now.raw out.items) }
    ensures long { IfOk result (λ out. length out.items ≡ first_page_of defs.now) }
    ensures bytes { IfOk result (λ out. out.items ≡ spec.header_of defs.now state.now) }
{
    let layout = layout_of(defs);
    let raw = defs.raw.as_slice();
    let mut out = Vec::with_capacity(alloc, first_page(defs) as usize)?;
    append_front(&mut out, raw, FRONT_LENGTH)?;
    append_state(&mut out, layout, state)?;
    append_part(&mut out, raw, layout.base, MARK_PLACE)?;
    out.extend_from_slice(&MARK)?;
    append_rest(&mut out, raw, layout.base + BASE_LENGTH)?;
    fill(&mut out, first_page(defs) as usize)?;
    Ok(out)
}

fn append_front(out: &mut Vec<u8>, bytes: &[u8], count: usize) -> Result<(), AllocError>
    requires { count ≤ length bytes.now }
    ensures { OnOk result (out.new.items ≡ out.old.items ++ take count bytes.now) }
{
    out.extend_from_slice(&bytes[..count])?;
    Ok(())
}

fn append_rest(out: &mut Vec<u8>, bytes: &[u8], at: usize) -> Result<(), AllocError>
    requires { at ≤ length bytes.now }
    ensures { OnOk result (out.new.items ≡ out.old.items ++ drop at bytes.now) }
{
    out.extend_from_slice(&bytes[at..])?;
    Ok(())
}

// Adds zeros up to a length.
fn fill(out: &mut Vec<u8>, length: usize) -> Result<(), AllocError>
    requires { vec_len out.old ≤ length }
    ensures { OnOk result
        (out.new.items ≡ out.old.items ++ replicate (length - vec_len out.old) 0) }
{
    out.resize(length, 0)?;
    Ok(())
}

#[tactic(auto, unfolding(crate::specs::HeaderOf::state_bytes))]
fn append_state(out: &mut Vec<u8>, layout: Layout, state: &State) -> Result<(), AllocError>
    requires rest { 32 + spec.middle_length layout ≤ length state.now.rest }
    requires middle { layout.key_del ≤ layout.key_map }
    ensures bytes { OnOk result
        (out.new.items ≡ out.old.items ++ spec.state_bytes layout state.now) }
    ensures fits { OnOk result (spec.FitsWidths state.now) }
{
    let rest = state.rest.as_slice();
    let middle = layout.key_map - layout.key_del;
    append_counts(out, state)?;
    append_front(out, rest, 24)?;
    append_roots(out, state.roots.as_slice())?;
    append_part(out, rest, 24, middle)?;
    append_u64(out, state.key_map)?;
    append_part(out, rest, 24 + middle, 8)?;
    append_u64(out, state.recover_time)?;
    append_rest(out, rest, 32 + middle)?;
    Ok(())
}

fn append_counts(out: &mut Vec<u8>, state: &State) -> Result<(), AllocError>
    ensures bytes { OnOk result
        (out.new.items ≡ out.old.items ++ spelling spec.count_widths (spec.counts state.now)) }
    ensures fits { OnOk result (Fit spec.count_widths (spec.counts state.now)) }
{
    append_u16(out, state.open_count)?;
    append_u8(out, state.changed)?;
    append_u8(out, state.sortkey)?;
    append_u64(out, state.records)?;
    append_u64(out, state.del)?;
    append_u64(out, state.split)?;
    append_lengths(out, state)?;
    Ok(())
}

fn append_lengths(out: &mut Vec<u8>, state: &State) -> Result<(), AllocError>
    ensures bytes { OnOk result
        (out.new.items
        ≡ out.old.items
        ++ spelling (drop 6 spec.count_widths) (drop 6 (spec.counts state.now))) }
    ensures fits { OnOk result (Fit (drop 6 spec.count_widths) (drop 6 (spec.counts state.now))) }
{
    append_u64(out, pointer_number(state.dellink))?;
    append_u64(out, state.key_file_length)?;
    append_u64(out, state.data_file_length)?;
    append_u64(out, state.empty)?;
    append_u64(out, state.key_empty)?;
    append_u64(out, state.auto_increment)?;
    Ok(())
}

fn append_roots(out: &mut Vec<u8>, roots: &[Option<u64>]) -> Result<(), AllocError>
    ensures bytes { OnOk result (out.new.items ≡ out.old.items ++ spec.root_bytes roots.now) }
    ensures fits { OnOk result (Fit (map (λ r. 8) roots.now) (map pointer_number roots.now)) }
{
    for root in roots {
        append_u64(out, pointer_number(*root))?;
    }
    Ok(())
}
