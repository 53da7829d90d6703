//! `PlaceList`: a list of places.
ghost use Rattle.std.specs.Prelude.{◌≡◌, ◌+◌, IfOk};

use crate::groups::{GROUP_LENGTH, Group, add_group, count_passed, place_at};
use std::alloc::{AllocError, Global};
use std::marker::Model;

/// A list of places.
#[derive(Drop)]
pub struct PlaceList {
    /// The places in groups, by where each group stands in the lists.
    groups: Vec<Group>,
    steps: Vec<u8>,
    near: Vec<u16>,
    far: Vec<u64>,
    /// The places behind the last group.
    latest: Vec<u64>,
    /// How many places there are.
    count: usize,
}

impl Model for PlaceList {
    ghost use Rattle.std.specs.Prelude.{ℕ, List, ◌++◌};
    ghost use Rattle.myi_placelist.specs.Groups.{places_in, AreGrouped};

    ghost Value = { List ℕ };

    ghost view = { λ l. places_in l.steps.items l.near.items l.far.items l.groups.items
        ++ l.latest.items };

    ghost invariant = { λ l.
        AreGrouped l.steps.items l.near.items l.far.items l.groups.items l.latest.items l.count };
}

/// Where a search for a place goes on: those before are below it, and those from the end on are not.
#[derive(Clone, Copy)]
struct Part {
    from: usize,
    to: usize,
}

fn one_more(count: usize) -> Result<usize, AllocError>
    ensures { IfOk result (λ n. n ≡ count + 1) }
{
    count.checked_add(1).ok_or(AllocError)
}

impl PlaceList {
    ghost use Rattle.std.specs.Prelude.{◌≡◌, ◌≢◌, ◌<◌, ◌≤◌, ◌+◌, ◌%◌, true, [], ◌++◌, ◌∷◌, None, length, slice_index, IfSome, OnOk, OnErr};
    ghost use Rattle.std.specs.List.{AllByRecursion};
    ghost use Rattle.myi_placelist.specs.Places.{IsRising, IsCountBelow};
    ghost use Rattle.myi_placelist.specs.Groups.{IsBetween};

    /// No place yet. It takes no memory.
    pub fn new(alloc: Global) -> PlaceList
        ensures { result ≡ [] }
    {
        PlaceList {
            groups: Vec::new(alloc),
            steps: Vec::new(alloc),
            near: Vec::new(alloc),
            far: Vec::new(alloc),
            latest: Vec::new(alloc),
            count: 0,
        }
    }

    /// How many places there are.
    pub fn len(&self) -> usize
        ensures { result ≡ length self.now }
    {
        self.count
    }

    /// Adds a place behind the others.
    pub fn push(&mut self, place: u64) -> Result<(), AllocError>
        ensures ok { OnOk result (self.new ≡ self.old ++ place ∷ []) }
        ensures err { OnErr result (self.new ≡ self.old) }
    {
        self.close_group()?;
        let count = one_more(self.count)?;
        self.latest.push(place)?;
        self.count = count;
        Ok(())
    }

    /// Makes a group of the places behind the last one, where there are enough.
    fn close_group(&mut self) -> Result<(), AllocError>
        ensures { self.new ≡ self.old }
    {
        if self.latest.len() != GROUP_LENGTH {
            return Ok(());
        }
        let group = add_group(&mut self.steps, &mut self.near, &mut self.far, &self.latest)?;
        self.groups.push(group)?;
        self.latest.clear();
        Ok(())
    }

    /// The place at an index, in constant time.
    pub fn at(&self, index: usize) -> u64
        requires { index < length self.now }
        ensures { result ≡ slice_index self.now index }
    {
        let number = index / GROUP_LENGTH;
        if number < self.groups.len() {
            return place_at(
                &self.steps,
                &self.near,
                &self.far,
                self.groups[number],
                index % GROUP_LENGTH,
            );
        }
        self.latest[index - self.groups.len() * GROUP_LENGTH]
    }

    /// Whether each place is below one, where they rise, by the last of them.
    fn are_below(&self, place: u128) -> bool
        ensures { result ≡ true → IsRising self.now → IsCountBelow place self.now (length self.now) }
    {
        let count = self.len();
        count > 0 && (self.at(count - 1) as u128) < place
    }

    /// Where to search on for a place, by the first place of each group.
    fn group_part(&self, place: u128) -> Part
        ensures first { result.from % 64 ≡ 0 }
        ensures order { result.from ≤ result.to }
        ensures near { result.to ≤ result.from + 64 }
        ensures inside { result.to ≤ length self.now }
        ensures part { IsRising self.now → IsBetween place self.now result.from result.to }
    {
        let mut from = 0;
        let mut to = self.len().div_ceil(GROUP_LENGTH);
        while to - from > 1 {
            let middle = from + (to - from) / 2;
            if (self.at(middle * GROUP_LENGTH) as u128) < place {
                from = middle;
            } else {
                to = middle;
            }
        }
        Part {
            from: from * GROUP_LENGTH,
            to: self.len().min(to.saturating_mul(GROUP_LENGTH)),
        }
    }

    /// How many places are below one, by a binary search in the part where it stands.
    fn count_in(&self, place: u128, part: Part) -> usize
        requires order { part.from ≤ part.to }
        requires inside { part.to ≤ length self.now }
        requires part { IsRising self.now → IsBetween place self.now part.from part.to }
        ensures few { result ≤ length self.now }
        ensures count { IsRising self.now → IsCountBelow place self.now result }
    {
        let Part { mut from, mut to } = part;
        while from < to {
            let middle = from + (to - from) / 2;
            if (self.at(middle) as u128) < place {
                from = middle + 1;
            } else {
                to = middle;
            }
        }
        from
    }

    /// How many places are below one, where they rise: by the last of them, else by a binary search for its
    /// group. The steps of a group are then gone through, and other places are searched as the groups.
    pub fn count_below(&self, place: u128) -> usize
        ensures few { result ≤ length self.now }
        ensures count { IsRising self.now → IsCountBelow place self.now result }
    {
        let count = self.len();
        if self.are_below(place) {
            return count;
        }
        let part = self.group_part(place);
        let number = part.from / GROUP_LENGTH;
        if number < self.groups.len() {
            if let Group::Close(base, start) = self.groups[number] {
                let steps = &self.steps[start..start + GROUP_LENGTH];
                return part.from + count_passed(base, steps, place);
            }
        }
        self.count_in(place, part)
    }

    /// The index of a place: where the places rise, it is found if it is among them.
    pub fn index_of(&self, place: u128) -> Option<usize>
        ensures inside { IfSome result (λ i. i < length self.now) }
        ensures found { IfSome result (λ i. slice_index self.now i ≡ place) }
        ensures none { result ≡ None → IsRising self.now
            → AllByRecursion (λ p. p ≢ place) self.now }
    {
        let index = self.count_below(place);
        if index == self.len() {
            return None;
        }
        if self.at(index) as u128 != place {
            return None;
        }
        Some(index)
    }
}
