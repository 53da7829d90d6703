//! `Group`: 64 places, which stand in one of three lists. In the list of steps each takes one byte, in the near
//! list two.
ghost use Rattle.std.specs.Prelude.{◌≡◌, ◌≤◌, ◌<◌, ◌+◌, ◌^◌, ◌++◌, ℕ, List, true, length, slice_index, IfOk, OnOk};
ghost use Rattle.std.specs.List.{AllByRecursion, sum};
ghost use Rattle.myi_placelist.specs.Groups.{AreClose, steps_of, places_behind, IsNear, lows_of, places_at, IsWithin, Extends};

use std::alloc::AllocError;

/// How many places a group has.
pub(crate) const GROUP_LENGTH: usize = 64;

/// How far the places of a group in the near list reach, or more than one in the list of steps.
const REACH: u64 = 65_536;

/// How far a place in the list of steps can stand behind the one before it.
const LONGEST_STEP: u64 = 255;

/// Where the places of a group stand.
#[derive(Clone, Copy)]
pub(crate) enum Group {
    /// In the list of steps, from this index on, each by how far it stands behind the one before it, the first
    /// by how far it stands behind this base.
    Close(u64, usize),
    /// In the near list, from this index on, each by how far it stands behind this base.
    Near(u64, usize),
    /// In the far list, from this index on.
    Far(usize),
}

/// Whether each of these places stands so closely behind the one before it, the first behind a base, that the
/// list of steps can have them.
fn are_close(places: &[u64], base: u64) -> bool
    ensures { result ≡ true → AreClose base places.now }
{
    let mut before = base;
    let mut left = places;
    while let Some((place, behind)) = left.split_first() {
        if *place < before || *place - before > LONGEST_STEP {
            return false;
        }
        before = *place;
        left = behind;
    }
    true
}

/// Adds to the list of steps how far each of these places stands behind the one before it, the first behind a
/// base.
fn push_steps(steps: &mut Vec<u8>, places: &[u64], base: u64) -> Result<(), AllocError>
    requires { AreClose base places.now }
    ensures steps { OnOk result (steps.new.items ≡ steps.old.items ++ steps_of base places.now) }
    ensures kept { Extends steps.old.items steps.new.items }
{
    let mut before = base;
    let mut left = places;
    while let Some((place, behind)) = left.split_first() {
        steps.push((*place - before) as u8)?;
        before = *place;
        left = behind;
    }
    Ok(())
}

/// Puts 64 places into the list of steps.
fn add_close(steps: &mut Vec<u8>, places: &[u64], base: u64) -> Result<Group, AllocError>
    requires whole { length places.now ≡ 64 }
    requires close { AreClose base places.now }
    requires base { base + 2 ^ 16 ≤ 2 ^ 64 }
    ensures within { IfOk result (λ g. (near far : List ℕ)
        → IsWithin steps.new.items near far g) }
    ensures places { IfOk result (λ g. (near far : List ℕ)
        → places_at steps.new.items near far g ≡ places.now) }
    ensures kept { Extends steps.old.items steps.new.items }
{
    let start = steps.len();
    push_steps(steps, places, base)?;
    Ok(Group::Close(base, start))
}

/// Whether these places stand so closely behind a base that the near list can have them.
fn are_near(places: &[u64], base: u64) -> bool
    ensures { result ≡ true → AllByRecursion (IsNear base) places.now }
{
    let mut left = places;
    while let Some((place, behind)) = left.split_first() {
        if *place < base || *place - base >= REACH {
            return false;
        }
        left = behind;
    }
    true
}

/// Adds to the near list how far these places stand behind a base.
fn push_near(near: &mut Vec<u16>, places: &[u64], base: u64) -> Result<(), AllocError>
    requires { AllByRecursion (IsNear base) places.now }
    ensures lows { OnOk result (near.new.items ≡ near.old.items ++ lows_of base places.now) }
    ensures kept { Extends near.old.items near.new.items }
{
    let mut left = places;
    while let Some((place, behind)) = left.split_first() {
        near.push((*place - base) as u16)?;
        left = behind;
    }
    Ok(())
}

/// Puts 64 places into the near list.
fn add_near(near: &mut Vec<u16>, places: &[u64], base: u64) -> Result<Group, AllocError>
    requires whole { length places.now ≡ 64 }
    requires near { AllByRecursion (IsNear base) places.now }
    requires base { base + 2 ^ 16 ≤ 2 ^ 64 }
    ensures within { IfOk result (λ g. (steps far : List ℕ)
        → IsWithin steps near.new.items far g) }
    ensures places { IfOk result (λ g. (steps far : List ℕ)
        → places_at steps near.new.items far g ≡ places.now) }
    ensures kept { Extends near.old.items near.new.items }
{
    let start = near.len();
    push_near(near, places, base)?;
    Ok(Group::Near(base, start))
}

/// Puts 64 places into the far list.
fn add_far(far: &mut Vec<u64>, places: &[u64]) -> Result<Group, AllocError>
    requires { length places.now ≡ 64 }
    ensures within { IfOk result (λ g. (steps near : List ℕ)
        → IsWithin steps near far.new.items g) }
    ensures places { IfOk result (λ g. (steps near : List ℕ)
        → places_at steps near far.new.items g ≡ places.now) }
    ensures kept { Extends far.old.items far.new.items }
{
    let start = far.len();
    far.extend_from_slice(places)?;
    Ok(Group::Far(start))
}

/// Puts 64 places into the list that takes the least memory of those that can have them.
pub(crate) fn add_group(
    steps: &mut Vec<u8>,
    near: &mut Vec<u16>,
    far: &mut Vec<u64>,
    places: &[u64],
) -> Result<Group, AllocError>
    requires { length places.now ≡ 64 }
    ensures within { IfOk result (IsWithin steps.new.items near.new.items far.new.items) }
    ensures places { IfOk result (λ g.
        places_at steps.new.items near.new.items far.new.items g ≡ places.now) }
    ensures steps { Extends steps.old.items steps.new.items }
    ensures near { Extends near.old.items near.new.items }
    ensures far { Extends far.old.items far.new.items }
{
    let base = places[0];
    if base > u64::MAX - REACH {
        return add_far(far, places);
    }
    if are_close(places, base) {
        return add_close(steps, places, base);
    }
    if are_near(places, base) {
        return add_near(near, places, base);
    }
    add_far(far, places)
}

/// The place that these steps lead to from a base.
fn place_behind(base: u64, steps: &[u8]) -> u64
    requires few { length steps.now ≤ 64 }
    requires base { base + 2 ^ 16 ≤ 2 ^ 64 }
    ensures { result ≡ base + sum steps.now }
{
    let mut place = base;
    let mut left = steps;
    while let Some((step, behind)) = left.split_first() {
        place += *step as u64;
        left = behind;
    }
    place
}

/// How many of the places that these steps lead to from a base come before the first that is not below one.
pub(crate) fn count_passed(base: u64, steps: &[u8], place: u128) -> usize
    requires few { length steps.now ≤ 64 }
    requires base { base + 2 ^ 16 ≤ 2 ^ 64 }
    ensures few { result ≤ length steps.now }
    ensures below { (k : ℕ) → k < result → slice_index (places_behind base steps.now) k < place }
    ensures above { result < length steps.now
        → place ≤ slice_index (places_behind base steps.now) result }
{
    let mut at = base;
    for index in 0..steps.len() {
        at += steps[index] as u64;
        if at as u128 >= place {
            return index;
        }
    }
    steps.len()
}

/// The place of a group at an index.
pub(crate) fn place_at(steps: &[u8], near: &[u16], far: &[u64], group: Group, index: usize) -> u64
    requires within { IsWithin steps.now near.now far.now group }
    requires inside { index < 64 }
    ensures { result ≡ slice_index (places_at steps.now near.now far.now group) index }
{
    match group {
        Group::Close(base, start) => place_behind(base, &steps[start..start + index + 1]),
        Group::Near(base, start) => base + near[start + index] as u64,
        Group::Far(start) => far[start + index],
    }
}
