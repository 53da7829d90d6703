//! Reading the state of a marked file.
ghost use Rattle.std.specs.Prelude.{◌≡◌, ◌≢◌, ◌≤◌, ◌<◌, ◌+◌, ◌-◌, ◌*◌, length, IfOk, IfErr};
ghost use Rattle.std.specs.Str.{bytes_eq};
ghost use Rattle.myi_defs.specs.Sound.{IsSound};
ghost use Rattle.myi_defs.specs.Layout.{mark};
ghost use Rattle.myi_header.specs.declared.state.StateFault.TheVariants.{Memory};
ghost use Rattle.myi_header.specs.Parts.{part};
ghost use Rattle.myi_header.specs.StateOf as spec;

use crate::state::{State, StateFault, append_part, layout_of};
use myi_base::{Sequence, pointer_of, u8_at, u16_at, u64_at};
use myi_defs::{Defs, Layout, MARK, MARK_PLACE, ROOTS_PLACE};
use std::alloc::{AllocError, Global};

/// The state in the bytes of an index file with these definitions. Only a file with the mark has one.
#[tactic(auto, unfolding(crate::specs::StateOf::read_state))]
pub fn read_state(alloc: Global, defs: &Defs, bytes: &[u8]) -> Result<State, StateFault>
    requires { IsSound defs.now }
    ensures found { IfOk result (λ s. spec.read_state defs.now bytes.now ≡ Ok s) }
    ensures refused { IfErr result (λ f. f ≢ Memory → spec.read_state defs.now bytes.now ≡ Err f) }
{
    if bytes.len() < defs.raw.as_slice().len() {
        return Err(StateFault::Short);
    }
    if !has_mark(defs, bytes) {
        return Err(StateFault::Foreign);
    }
    Ok(state_of(alloc, defs, bytes)?)
}

#[tactic(auto, unfolding(crate::specs::StateOf::has_mark))]
fn has_mark(defs: &Defs, bytes: &[u8]) -> bool
    requires sound { IsSound defs.now }
    requires long { length defs.now.raw ≤ length bytes.now }
    ensures { result ≡ spec.has_mark defs.now bytes.now }
{
    let place = layout_of(defs).base + MARK_PLACE;
    is_mark(bytes, place)
}

fn is_mark(bytes: &[u8], place: usize) -> bool
    requires { place + 6 ≤ length bytes.now }
    ensures { result ≡ bytes_eq (part place 6 bytes.now) mark }
{
    &bytes[place..place + 6] == MARK.as_slice()
}

fn roots(alloc: Global, keys: usize, bytes: &[u8]) -> Result<Vec<Option<u64>>, AllocError>
    requires { 124 + 8 * keys ≤ length bytes.now }
    ensures { IfOk result (λ roots. roots.items ≡ spec.roots_in keys bytes.now) }
{
    let mut roots = Vec::with_capacity(alloc, keys)?;
    for key in 0..keys {
        roots.push(pointer_of(u64_at(bytes, ROOTS_PLACE + 8 * key)))?;
    }
    Ok(roots)
}

fn rest(alloc: Global, layout: Layout, bytes: &[u8]) -> Result<Vec<u8>, AllocError>
    requires ordered { layout.key_del ≤ layout.key_map }
    requires times { layout.key_map + 16 ≡ layout.recover_time }
    requires end { layout.recover_time + 8 ≤ layout.base }
    requires inside { layout.base ≤ length bytes.now }
    requires room { 124 ≤ length bytes.now }
    ensures value { IfOk result (λ rest. rest.items ≡ spec.rest_at layout bytes.now) }
    ensures length { IfOk result (λ rest. length rest.items
        ≡ 32 + (layout.key_map - layout.key_del) + (layout.base - (layout.recover_time + 8))) }
{
    let mut rest = Vec::new(alloc);
    append_part(&mut rest, bytes, 100, 24)?;
    append_part(
        &mut rest,
        bytes,
        layout.key_del,
        layout.key_map - layout.key_del,
    )?;
    append_part(&mut rest, bytes, layout.key_map + 8, 8)?;
    let place = layout.recover_time + 8;
    append_part(&mut rest, bytes, place, layout.base - place)?;
    Ok(rest)
}

/// The state in the header that the definitions were read from, whether it has the mark or not: what a
/// repair of a foreign table begins with.
pub fn stored_state(alloc: Global, defs: &Defs) -> Result<State, AllocError>
    requires { IsSound defs.now }
    ensures value { IfOk result (λ s. s ≡ spec.state_of defs.now defs.now.raw) }
    ensures rest { IfOk result (λ s. length s.rest ≡ spec.rest_length defs.now) }
{
    Ok(state_of(alloc, defs, defs.raw.as_slice())?)
}

#[tactic(auto, unfolding(crate::specs::StateOf::state_of))]
fn state_of(alloc: Global, defs: &Defs, bytes: &[u8]) -> Result<State, AllocError>
    requires sound { IsSound defs.now }
    requires long { length defs.now.raw ≤ length bytes.now }
    ensures value { IfOk result (λ s. s ≡ spec.state_of defs.now bytes.now) }
    ensures rest { IfOk result (λ s. length s.rest ≡ spec.rest_length defs.now) }
{
    let layout = layout_of(defs);
    let roots = roots(alloc, defs.keys.as_slice().len(), bytes)?;
    let rest = rest(alloc, layout, bytes)?;
    Ok(State {
        open_count: u16_at(bytes, 24),
        changed: u8_at(bytes, 26),
        sortkey: u8_at(bytes, 27),
        records: u64_at(bytes, 28),
        del: u64_at(bytes, 36),
        split: u64_at(bytes, 44),
        dellink: pointer_of(u64_at(bytes, 52)),
        key_file_length: u64_at(bytes, 60),
        data_file_length: u64_at(bytes, 68),
        empty: u64_at(bytes, 76),
        key_empty: u64_at(bytes, 84),
        auto_increment: u64_at(bytes, 92),
        roots: Sequence::new(roots),
        key_map: u64_at(bytes, layout.key_map),
        recover_time: u64_at(bytes, layout.recover_time),
        rest: Sequence::new(rest),
    })
}
