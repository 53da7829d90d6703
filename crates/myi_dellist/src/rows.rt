//! Putting rows into a data file.
ghost use Rattle.std.specs.Prelude.{◌≡◌, ◌≤◌, ◌<◌, ◌^◌, ◌++◌, List, [], None, true, min, Option, IfOk, IfErr, IfSome, OnOk, IsTrue, length};
ghost use Rattle.myi_base.specs.Holding.{Told, IfTold, OthersStay, bytes_of};
ghost use Rattle.myi_base.specs.Causes.{HasCause};
ghost use Rattle.myi_dellist.specs.declared.fault.FreeFault.TheVariants.{File};
ghost use Rattle.myi_dellist.specs.Areas.{Area, AreInside};
ghost use Rattle.myi_dellist.specs.Placing.{areas_of, append_from, end_behind, is_none};
ghost use Rattle.myi_dellist.specs.Freeing.{Becomes, CutsOff, IfDamaged};
ghost use Rattle.myi_dellist.specs.Taking.{Run, IsRun, HasTaken};
ghost use Rattle.myi_dellist.specs.Rows.{row_written, IfFull, IsNotDamaged};
ghost use Rattle.myi_dellist.specs.Planning.{rest_bytes, head_by, more_by, IsReleasable};
ghost use Rattle.myi_dellist.specs.Putting.{Puts, PutsBy, PutCounts, PutBad, BadBy, PutLong, LongBy};

use crate::fault::FreeFault;
use crate::linked::alone_by;
use crate::links::{put_first, take_joined, write_first};
use crate::pieces::{Piece, append_pieces};
use crate::planning::{RestPlan, RowPlan, plan_last};
use crate::taking::{ListEnds, take_full};
use crate::writing::write_pieces;
use myi_io::Files;

/// No file is longer than places reach.
const PLACES: u128 = 1 << 64;

/// What putting a row did.
#[derive(Clone, Copy, Debug, PartialEq, Eq)]
pub struct Put {
    /// The row's place.
    pub at: u64,
    /// How many blocks it has.
    pub blocks: u64,
    /// How many bytes these have.
    pub bytes: u64,
    /// How many deleted blocks it took.
    pub taken: u64,
    /// How many deleted blocks are on the list that were not: what its last block left over, if that is
    /// joined with none.
    pub more: u64,
}

/// What releasing a row did.
#[derive(Clone, Copy, Debug, PartialEq, Eq)]
pub struct Freed {
    /// How many blocks the row had.
    pub blocks: u64,
    /// How many bytes these had.
    pub bytes: u64,
    /// How many deleted blocks are on the list that were not: those that were joined with none.
    pub more: u64,
}

/// What putting a row in the place of another did.
#[derive(Clone, Copy, Debug, PartialEq, Eq)]
pub struct Replaced {
    /// The new row. What is on the list that was not is what it left of the blocks, as far as that was joined
    /// with none.
    pub put: Put,
    /// How many blocks the other row had.
    pub blocks: u64,
    /// How many bytes these had.
    pub bytes: u64,
}

/// The list once a row was put, how many of the row's blocks stood before (its own and deleted ones), and how
/// many are on it that were not.
#[derive(Clone, Copy)]
pub(crate) struct Placed {
    pub list: ListEnds,
    pub taken: u64,
    pub more: u64,
}

/// The deleted list of a file, and the place that the file's end stays below.
#[derive(Clone, Copy)]
pub(crate) struct Room {
    pub list: ListEnds,
    pub below: u128,
}

/// Where a file ends, and the place that its end stays below.
#[derive(Clone, Copy)]
pub(crate) struct FileEnd {
    pub at: u64,
    pub below: u128,
}

/// Writes a row into these blocks, and what they leave of it behind the file's end; answers where the file
/// ends then.
fn put_behind<F: Files>(
    files: &mut F,
    name: &str,
    pieces: &mut Vec<Piece>,
    packed: &[u8],
    left: u32,
    end: &FileEnd,
) -> Result<u64, FreeFault>
    requires writable { IsTrue F.writable }
    requires few { length packed.now < 2 ^ 32 }
    requires run { Run (length packed.now) true (length packed.now) pieces.old.items left }
    requires some { 0 < left }
    requires less { left ≤ length packed.now }
    requires inside { AreInside end.now.at (areas_of pieces.old.items) }
    ensures ok { OnOk result (Told (F.holds files.old) (F.holds files.new) (λ m n. Becomes name.now
        (row_written (pieces.old.items
        ++ append_from left (length packed.now) (is_none pieces.old.items) left end.now.at)
        packed.now (bytes_of name.now m)) m n)) }
    ensures pieces { OnOk result (pieces.new.items ≡ pieces.old.items
        ++ append_from left (length packed.now) (is_none pieces.old.items) left end.now.at) }
    ensures others { Told (F.holds files.old) (F.holds files.new) (OthersStay name.now) }
    ensures end { IfOk result (λ r. r ≡ end_behind end.now.at
        (append_from left (length packed.now) (is_none pieces.old.items) left end.now.at)) }
    ensures grows { IfOk result (λ r. end.now.at ≤ r) }
    ensures room { IfOk result (λ r. r < min end.now.below (2 ^ 64)) }
    ensures full { IfErr result (λ f. IfFull f (min end.now.below (2 ^ 64) ≤ end_behind end.now.at
        (append_from left (length packed.now) (is_none pieces.old.items) left end.now.at))) }
    ensures unchanged { IfErr result (λ f. IfFull f (F.holds files.new ≡ F.holds files.old)) }
    ensures found { IfErr result IsNotDamaged }
    ensures cause { HasCause File (F.faults files.old) (F.faults files.new) result }
{
    let len = packed.len() as u32;
    let to = append_pieces(pieces, len, left, end.at, end.below.min(PLACES))?;
    write_pieces(files, name, pieces, packed)?;
    Ok(to)
}

/// Puts a row at the end of a file of that length, and answers where it ends then.
pub(crate) fn put_at_end<F: Files>(
    files: &mut F,
    name: &str,
    pieces: &mut Vec<Piece>,
    packed: &[u8],
    end: &FileEnd,
) -> Result<u64, FreeFault>
    requires writable { IsTrue F.writable }
    requires some { 0 < length packed.now }
    requires few { length packed.now < 2 ^ 32 }
    ensures ok { OnOk result (Told (F.holds files.old) (F.holds files.new) (λ m n. Becomes name.now
        (row_written (append_from (length packed.now) (length packed.now) true (length packed.now)
        end.now.at) packed.now (bytes_of name.now m)) m n)) }
    ensures pieces { OnOk result (pieces.new.items ≡ append_from (length packed.now)
        (length packed.now) true (length packed.now) end.now.at) }
    ensures others { Told (F.holds files.old) (F.holds files.new) (OthersStay name.now) }
    ensures end { IfOk result (λ r. r ≡ end_behind end.now.at (append_from (length packed.now)
        (length packed.now) true (length packed.now) end.now.at)) }
    ensures grows { IfOk result (λ r. end.now.at ≤ r) }
    ensures room { IfOk result (λ r. r < min end.now.below (2 ^ 64)) }
    ensures full { IfErr result (λ f. IfFull f (min end.now.below (2 ^ 64)
        ≤ end_behind end.now.at (append_from (length packed.now) (length packed.now) true
        (length packed.now) end.now.at))) }
    ensures unchanged { IfErr result (λ f. IfFull f (F.holds files.new ≡ F.holds files.old)) }
    ensures found { IfErr result IsNotDamaged }
    ensures cause { HasCause File (F.faults files.old) (F.faults files.new) result }
{
    pieces.clear();
    put_behind(files, name, pieces, packed, packed.len() as u32, end)
}

/// Releases what a row's last block leaves over, as it was planned.
fn write_rest<F: Files>(files: &mut F, name: &str, rest: Option<RestPlan>) -> Result<(), FreeFault>
    requires writable { IsTrue F.writable }
    requires rest { IfSome rest IsReleasable }
    ensures ok { OnOk result (Told (F.holds files.old) (F.holds files.new) (λ m n. Becomes name.now
        (rest_bytes rest (bytes_of name.now m)) m n)) }
    ensures others { Told (F.holds files.old) (F.holds files.new) (OthersStay name.now) }
    ensures cut { IfErr result CutsOff }
    ensures cause { HasCause File (F.faults files.old) (F.faults files.new) result }
{
    let Some(rest) = rest else {
        return Ok(());
    };
    let whole = take_joined(files, name, rest.size, rest.plan.joined)?;
    put_first(files, name, rest.at, whole, rest.plan.first)?;
    Ok(())
}

/// Where the list begins once a row was put.
fn head_by(plan: &RowPlan) -> Option<u64>
    ensures { result ≡ head_by plan.now.next plan.now.rest }
{
    if let Some(rest) = plan.rest {
        return Some(rest.at);
    }
    match plan.next {
        None => None,
        Some(next) => Some(next.at),
    }
}

/// How many deleted blocks are on the list that were not, once a row was put.
fn more_by(plan: &RowPlan) -> u64
    ensures { result ≡ more_by plan.now.rest }
{
    let Some(rest) = plan.rest else {
        return 0;
    };
    alone_by(&rest.plan.joined)
}

/// Puts the last `left` bytes of a row, behind the blocks that it has, into the blocks of the list, and behind
/// the end what they do not hold; answers the list then, how many blocks the row has that were there, and
/// how many are on the list that were not.
pub(crate) fn put_beyond<F: Files>(
    files: &mut F,
    name: &str,
    room: Room,
    pieces: &mut Vec<Piece>,
    packed: &[u8],
    left: u32,
) -> Result<Placed, FreeFault>
    requires writable { IsTrue F.writable }
    requires few { length packed.now < 2 ^ 32 }
    requires run { IsRun room.list.end (length packed.now) pieces.old.items
        (record { left = left; last = None; next = None }) }
    requires end { room.list.end < room.below }
    ensures ok { IfOk result (λ new. Told (F.holds files.old) (F.holds files.new) (λ m n.
        (own : List Area) → HasTaken own (length packed.now) pieces.old.items left
        → PutsBy own name.now room.list packed.now new.list m n)) }
    ensures counts { IfOk result (λ new. IfTold (F.holds files.old) (λ m.
        length (bytes_of name.now m) ≡ room.list.end → (own : List Area)
        → HasTaken own (length packed.now) pieces.old.items left
        → PutCounts own (bytes_of name.now m) room.list (length packed.now) pieces.new.items
        new.taken new.more)) }
    ensures before { IfOk result (λ new. length pieces.old.items ≤ new.taken) }
    ensures others { Told (F.holds files.old) (F.holds files.new) (OthersStay name.now) }
    ensures inside { OnOk result (IfSome room.list.head (λ at. at < room.list.end)) }
    ensures grows { IfOk result (λ new. room.list.end ≤ new.list.end) }
    ensures room { IfOk result (λ new. new.list.end < min room.below (2 ^ 64)) }
    ensures damaged { IfErr result (λ f. IfDamaged f (λ p. IfTold (F.holds files.old) (λ m.
        length (bytes_of name.now m) ≡ room.list.end → (own : List Area)
        → HasTaken own (length packed.now) pieces.old.items left
        → BadBy own (bytes_of name.now m) room.list.head (length packed.now) p))) }
    ensures full { IfErr result (λ f. IfFull f (IfTold (F.holds files.old) (λ m.
        length (bytes_of name.now m) ≡ room.list.end → (own : List Area)
        → HasTaken own (length packed.now) pieces.old.items left
        → LongBy own (bytes_of name.now m) room.list.head room.list.end
        (min room.below (2 ^ 64)) (length packed.now)))) }
    ensures unchanged { IfErr result (λ f. IfDamaged f (λ p.
        F.holds files.new ≡ F.holds files.old)) }
    ensures refused { IfErr result (λ f. IfFull f (F.holds files.new ≡ F.holds files.old)) }
    ensures cause { HasCause File (F.faults files.old) (F.faults files.new) result }
{
    let list = room.list;
    let taken = take_full(files, name, &list, pieces, packed.len() as u32, left)?;
    let filled = pieces.len() as u64;
    let Some(hole) = taken.next else {
        let limit = FileEnd {
            at: list.end,
            below: room.below,
        };
        let to = put_behind(files, name, pieces, packed, taken.left, &limit)?;
        let new = ListEnds {
            head: None,
            end: to,
        };
        return Ok(Placed {
            list: new,
            taken: filled,
            more: 0,
        });
    };
    let plan = plan_last(files, name, &list, pieces, taken.left, &hole)?;
    write_first(files, name, plan.next)?;
    write_pieces(files, name, pieces, packed)?;
    write_rest(files, name, plan.rest)?;
    let new = ListEnds {
        head: head_by(&plan),
        end: list.end,
    };
    Ok(Placed {
        list: new,
        taken: pieces.len() as u64,
        more: more_by(&plan),
    })
}

/// Puts a row into the blocks of the list, and behind the end what they do not hold; answers the list then,
/// and how many blocks came and went.
pub(crate) fn put_row<F: Files>(
    files: &mut F,
    name: &str,
    list: ListEnds,
    pieces: &mut Vec<Piece>,
    packed: &[u8],
    end_below: u128,
) -> Result<Placed, FreeFault>
    requires writable { IsTrue F.writable }
    requires some { 0 < length packed.now }
    requires few { length packed.now < 2 ^ 32 }
    requires end { list.end < end_below }
    ensures ok { IfOk result (λ new. Told (F.holds files.old) (F.holds files.new)
        (Puts name.now list packed.now new.list)) }
    ensures counts { IfOk result (λ new. IfTold (F.holds files.old) (λ m.
        length (bytes_of name.now m) ≡ list.end → PutCounts [] (bytes_of name.now m) list
        (length packed.now) pieces.new.items new.taken new.more)) }
    ensures others { Told (F.holds files.old) (F.holds files.new) (OthersStay name.now) }
    ensures inside { OnOk result (IfSome list.head (λ at. at < list.end)) }
    ensures grows { IfOk result (λ new. list.end ≤ new.list.end) }
    ensures room { IfOk result (λ new. new.list.end < min end_below (2 ^ 64)) }
    ensures damaged { IfErr result (λ f. IfDamaged f (λ p. IfTold (F.holds files.old) (λ m.
        length (bytes_of name.now m) ≡ list.end
        → PutBad (bytes_of name.now m) list.head (length packed.now) p))) }
    ensures full { IfErr result (λ f. IfFull f (IfTold (F.holds files.old) (λ m.
        length (bytes_of name.now m) ≡ list.end
        → PutLong (bytes_of name.now m) list.head list.end (min end_below (2 ^ 64))
        (length packed.now)))) }
    ensures unchanged { IfErr result (λ f. IfDamaged f (λ p.
        F.holds files.new ≡ F.holds files.old)) }
    ensures refused { IfErr result (λ f. IfFull f (F.holds files.new ≡ F.holds files.old)) }
    ensures cause { HasCause File (F.faults files.old) (F.faults files.new) result }
{
    pieces.clear();
    let room = Room {
        list,
        below: end_below,
    };
    put_beyond(files, name, room, pieces, packed, packed.len() as u32)
}
