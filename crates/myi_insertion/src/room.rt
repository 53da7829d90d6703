//! Taking pages out of a room, and giving them back.
//!
//! `take_page` hands out a free page of the length that is asked for, and goes to the end of the room where
//! there is none. `give_page` makes a page free.
ghost use Rattle.std.specs.Prelude.{◌≡◌, ◌+◌, ◌%◌, ◌^◌, ◌<◌, ◌++◌, ◌∷◌, ℕ, [], length, slice_index_or, IfOk, IfErr, IfSome, OnOk, OnErr, IsNone};
ghost use Rattle.std.specs.List.{AllByRecursion};
ghost use Rattle.myi_btree.specs.declared.fault.TreeFault.TheVariants.{Memory};
ghost use Rattle.myi_keypage.specs.Page.{IsPlace};
ghost use Rattle.myi_insertion.specs.Rooms.{IsWhole, TakesFree, Takes, Gives};

use myi_base::Sequence;
use myi_btree::{Room, TreeFault};
use std::alloc::Global;
use std::mem::replace;

// The last free page of a length.
fn last_of(free: &[(u64, u16)], len: u16) -> Option<usize>
    ensures inside { IfSome result (λ i. i < length free.now) }
    ensures len { IfSome result (λ i. (r : ℕ × ℕ) → (slice_index_or free.now i r).1 ≡ len) }
    ensures none { IsNone result → AllByRecursion (λ (r : ℕ × ℕ). r.1 ≡ len → ⊥) free.now }
{
    let mut i = free.len();
    while i > 0 {
        i -= 1;
        if free[i].1 == len {
            return Some(i);
        }
    }
    None
}

/// Takes a page of so many bytes out of a room, and answers its place: a free page of the length, or else
/// the bytes at the end. Where no place is left below 2^64 the answer is `Memory`, and the room is as
/// before.
pub fn take_page(room: &mut Room, len: u16) -> Result<u64, TreeFault>
    ensures taken { IfOk result (λ at. Takes len at room.old room.new) }
    ensures place { len % 1024 ≡ 0 → IsWhole room.old → IfOk result IsPlace }
    ensures whole { len % 1024 ≡ 0 → IsWhole room.old → IsWhole room.new }
    ensures refused { OnErr result (room.new ≡ room.old) }
    ensures memory { IfErr result (λ fault. fault ≡ Memory) }
{
    if let Some(i) = last_of(room.free.as_slice(), len) {
        return Ok(take_free(room, i));
    }
    let at = room.end;
    let Some(end) = at.checked_add(len as u64) else {
        return Err(TreeFault::Memory);
    };
    room.end = end;
    Ok(at)
}

// Takes the free page `i`, from 0.
fn take_free(room: &mut Room, i: usize) -> u64
    requires { i < length room.old.free }
    ensures small { result < 2 ^ 64 }
    ensures taken { (len : ℕ) → ((r : ℕ × ℕ) → (slice_index_or room.old.free i r).1 ≡ len)
        → TakesFree len result room.old room.new }
{
    let alloc = room.free.allocator();
    let mut free = replace(&mut room.free, Sequence::new(Vec::new(alloc))).into_vec();
    let (at, _) = free.remove(i);
    room.free = Sequence::new(free);
    at
}

/// Gives a page to a room: its bytes are free afterwards. Where memory runs out the room is as before.
pub fn give_page(room: &mut Room, at: u64, len: u16) -> Result<(), TreeFault>
    ensures given { OnOk result (Gives len at room.old room.new) }
    ensures whole { at % 1024 ≡ 0 → IsWhole room.old → IsWhole room.new }
    ensures refused { OnErr result (room.new ≡ room.old) }
    ensures memory { IfErr result (λ fault. fault ≡ Memory) }
{
    let alloc = room.free.allocator();
    let mut free = replace(&mut room.free, Sequence::new(Vec::new(alloc))).into_vec();
    let given = free.push((at, len));
    room.free = Sequence::new(free);
    given?;
    Ok(())
}
