//! `Nearby`: a part of a data file whose rows are read by their places.
//!
//! Rows in the order of a key stand anywhere in the file. Where the places of some that follow one another
//! rise and lie close together, as all do in a table that has that order already, they are a `Run`, and one
//! read takes the bytes of all of them into a window. What is not in the window is read by itself.
ghost use Rattle.std.specs.Prelude.{◌≡◌, ◌≤◌, ◌<◌, ◌+◌, ◌^◌, ◌++◌, ℕ, List, true, length, take, drop, IfOk, IfErr, OnOk};
ghost use Rattle.myi_base.specs.Holding.{IfTold, bytes_of};
ghost use Rattle.myi_base.specs.Causes.{HasCause};
ghost use Rattle.myi_frames.specs.Seeing.{IsPartAt};
ghost use Rattle.myi_window.specs.declared.window.TheConstants.{WINDOW};
ghost use Rattle.myi_order.specs.Faults.{CutsOff};
ghost use Rattle.myi_order.specs.RowLinks.{IsHeaderAt, IsBlockThere};
ghost use Rattle.myi_order.specs.Nearby.{Knows};

use crate::fault::OrderFault;
use myi_defs::{Defs, RowFormat};
use myi_frames::{Header, LEAST_SIZE, header_at};
use myi_io::Files;
use myi_keylist::PairList;
use myi_window::{WINDOW, Window};
use std::alloc::{AllocError, Global};

/// How many bytes at most lie between two rows of a run.
const GAP: u64 = 1024;

/// How many bytes of the last row of a run are read where the row's length is not known.
const HEAD: u32 = 1024;

/// A part of a data file that ends at `end`.
#[derive(Drop)]
pub(crate) struct Nearby {
    pub(crate) window: Window,
    pub(crate) end: u64,
    /// The index behind the last row of the run that the window was read for.
    pub(crate) behind: usize,
}

/// How the rows of a table are read together.
#[derive(Clone, Copy)]
struct Pace {
    /// How many bytes are read of the last row of a run.
    row: u32,
    /// How far one row is behind the one before at most.
    step: u64,
}

fn pace_of(defs: &Defs) -> Pace {
    match defs.format {
        RowFormat::Static => Pace {
            row: defs.slot_length,
            step: defs.slot_length as u64 + GAP,
        },
        RowFormat::Dynamic => Pace {
            row: HEAD,
            step: HEAD as u64 + GAP,
        },
    }
}

/// Rows that are read together: where their bytes begin and end, and the index behind the last one.
#[derive(Clone, Copy)]
struct Run {
    from: u64,
    to: u64,
    behind: usize,
}

// The run from the row at `from` to that at `last`, of which so many bytes are read.
fn run_to(from: u64, last: u64, row: u32, behind: usize) -> Run
    requires rises { from ≤ last }
    requires near { last < from + WINDOW }
    ensures { result.from ≤ result.to }
{
    let size = (last - from + row as u64).min(WINDOW as u64);
    Run {
        from,
        to: from.saturating_add(size),
        behind,
    }
}

// Whether the row at `next` goes on a run that began at `from` and reaches to the row at `last`.
fn goes_on(from: u64, last: u64, next: u64, step: u64) -> bool
    requires { from ≤ last }
    ensures rises { result ≡ true → from ≤ next }
    ensures near { result ≡ true → next < from + WINDOW }
{
    last < next && next - last <= step && next - from < WINDOW as u64
}

// The run that begins with the row of an index of an order.
fn run_from(order: &PairList, first: usize, pace: Pace) -> Run
    requires { first < length order.now }
    ensures { result.from ≤ result.to }
{
    let count = order.len();
    let from = order.row(first);
    let mut last = from;
    let mut behind = first + 1;
    while behind < count {
        let next = order.row(behind);
        if !goes_on(from, last, next, pace.step) {
            return run_to(from, last, pace.row, behind);
        }
        last = next;
        behind += 1;
    }
    run_to(from, last, pace.row, behind)
}

impl Nearby {
    ghost use Rattle.std.specs.Prelude.{◌≡◌, ◌<◌, length, IfOk, IfErr};
    ghost use Rattle.myi_base.specs.Holding.{IfTold};
    ghost use Rattle.myi_base.specs.Causes.{HasCause};
    ghost use Rattle.myi_window.specs.Excerpt.{nothing, GoesOnStanding};
    ghost use Rattle.myi_order.specs.Faults.{CutsOff};

    /// Nothing of a data file that ends there.
    pub(crate) fn new(alloc: Global, end: u64) -> Result<Nearby, AllocError>
        ensures end { IfOk result (λ near. near.end ≡ end) }
        ensures none { IfOk result (λ near. near.window ≡ nothing) }
    {
        Ok(Nearby {
            window: Window::new(alloc)?,
            end,
            behind: 0,
        })
    }

    /// Reads the run of the row of an index of an order, where that is not one of the run that was read.
    pub(crate) fn look_ahead<F: Files>(
        &mut self,
        files: &mut F,
        name: &str,
        defs: &Defs,
        order: &PairList,
        at: usize,
    ) -> Result<(), OrderFault>
        requires { at < length order.now }
        ensures end { self.new.end ≡ self.old.end }
        ensures stands { IfTold (F.holds files.old)
            (GoesOnStanding name.now self.old.window self.new.window) }
        ensures cut { IfErr result CutsOff }
        ensures holds { F.holds files.new ≡ F.holds files.old }
        ensures cause { HasCause OrderFault.File (F.faults files.old) (F.faults files.new) result }
    {
        if at < self.behind {
            return Ok(());
        }
        let run = run_from(order, at, pace_of(defs));
        self.behind = run.behind;
        self.window.slide(files, name, run.from, run.to)?;
        Ok(())
    }
}

// The header of the block at a place of a file that ends at `end`, by the file's bytes from there on.
fn header_in(bytes: &[u8], at: u64, end: u64) -> Result<Header, OrderFault>
    requires { 20 ≤ length bytes.now }
    ensures place { IfOk result (IsHeaderAt at end) }
    ensures told { IfOk result (λ h. (d : List ℕ) → length d ≡ end → IsPartAt at bytes.now d
        → IsBlockThere d at h) }
    ensures err { IfErr result (λ f. f ≡ OrderFault.Memory) }
{
    match header_at(bytes, at, end) {
        Some(block) => Ok(block),
        None => Err(OrderFault::Memory),
    }
}

// The same, by a read of the file.
fn read_header<F: Files>(files: &mut F, name: &str, at: u64, end: u64) -> Result<Header, OrderFault>
    ensures place { IfOk result (IsHeaderAt at end) }
    ensures told { IfOk result (λ h. IfTold (F.holds files.old) (λ m.
        length (bytes_of name.now m) ≡ end → IsBlockThere (bytes_of name.now m) at h)) }
    ensures cut { IfErr result CutsOff }
    ensures holds { F.holds files.new ≡ F.holds files.old }
    ensures cause { HasCause OrderFault.File (F.faults files.old) (F.faults files.new) result }
{
    let mut bytes = [0u8; LEAST_SIZE];
    let count = files.read_at(name, at, &mut bytes)?;
    if count < LEAST_SIZE {
        return Err(OrderFault::Memory);
    }
    header_in(&bytes, at, end)
}

/// The header of the block at a place of a file of which a part is held.
pub(crate) fn header_near<F: Files>(
    files: &mut F,
    name: &str,
    near: &Nearby,
    at: u64,
) -> Result<Header, OrderFault>
    ensures place { IfOk result (IsHeaderAt at near.now.end) }
    ensures ends { IfOk result (λ h. h.head.at + h.head.size < 2 ^ 64) }
    ensures told { IfOk result (λ h. IfTold (F.holds files.old) (λ m.
        Knows near.now name.now m → IsBlockThere (bytes_of name.now m) at h)) }
    ensures cut { IfErr result CutsOff }
    ensures holds { F.holds files.new ≡ F.holds files.old }
    ensures cause { HasCause OrderFault.File (F.faults files.old) (F.faults files.new) result }
{
    let held = near.window.bytes_from(at);
    if held.len() < LEAST_SIZE {
        return read_header(files, name, at, near.end);
    }
    header_in(held, at, near.end)
}

/// Fills a buffer behind its first bytes from a place of a file on, and answers how many bytes it gave.
fn fill<F: Files>(
    files: &mut F,
    name: &str,
    at: u64,
    into: &mut [u8],
    start: usize,
) -> Result<usize, OrderFault>
    requires { start ≤ length into.old }
    ensures told { IfOk result (λ count. IfTold (F.holds files.old) (λ m.
        start + count ≡ length into.old
        → into.new ≡ take start into.old ++ take count (drop at (bytes_of name.now m)))) }
    ensures cut { IfErr result CutsOff }
    ensures holds { F.holds files.new ≡ F.holds files.old }
    ensures cause { HasCause OrderFault.File (F.faults files.old) (F.faults files.new) result }
{
    let count = files.read_at(name, at, &mut into[start..])?;
    Ok(count)
}

// Appends so many bytes from a place of a file on to a buffer, by a read of the file.
fn append<F: Files>(
    files: &mut F,
    name: &str,
    at: u64,
    count: usize,
    row: &mut Vec<u8>,
) -> Result<(), OrderFault>
    requires few { length row.old.items + count < 2 ^ 32 }
    ensures grown { OnOk result (length row.new.items ≡ length row.old.items + count) }
    ensures told { OnOk result (IfTold (F.holds files.old) (λ m.
        row.new.items ≡ row.old.items ++ take count (drop at (bytes_of name.now m)))) }
    ensures cut { IfErr result CutsOff }
    ensures holds { F.holds files.new ≡ F.holds files.old }
    ensures cause { HasCause OrderFault.File (F.faults files.old) (F.faults files.new) result }
{
    let start = row.len();
    row.resize(start + count, 0)?;
    let given = fill(files, name, at, row, start)?;
    if given != count {
        return Err(OrderFault::Memory);
    }
    Ok(())
}

// Appends so many of the bytes that are held.
fn append_held(held: &[u8], count: usize, row: &mut Vec<u8>) -> Result<(), AllocError>
    requires { count ≤ length held.now }
    ensures { OnOk result (row.new.items ≡ row.old.items ++ take count held.now) }
{
    row.extend_from_slice(&held[..count])?;
    Ok(())
}

/// Appends so many bytes from a place of a file on, of which a part is held, to a buffer.
pub(crate) fn append_near<F: Files>(
    files: &mut F,
    name: &str,
    near: &Nearby,
    at: u64,
    count: usize,
    row: &mut Vec<u8>,
) -> Result<(), OrderFault>
    requires few { length row.old.items + count < 2 ^ 32 }
    ensures grown { OnOk result (length row.new.items ≡ length row.old.items + count) }
    ensures told { OnOk result (IfTold (F.holds files.old) (λ m. Knows near.now name.now m
        → row.new.items ≡ row.old.items ++ take count (drop at (bytes_of name.now m)))) }
    ensures cut { IfErr result CutsOff }
    ensures holds { F.holds files.new ≡ F.holds files.old }
    ensures cause { HasCause OrderFault.File (F.faults files.old) (F.faults files.new) result }
{
    let held = near.window.bytes_from(at);
    if held.len() < count {
        append(files, name, at, count, row)?;
        return Ok(());
    }
    append_held(held, count, row)?;
    Ok(())
}
