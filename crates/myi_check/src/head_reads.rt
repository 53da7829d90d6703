//! `HeadReads`: the first bytes of deleted blocks, read by their places.
//!
//! Where a list goes on close to the block before, as it does when rows are deleted in the order of the file,
//! one read takes the bytes about the place into a window: few at first, and twice as many each time that the
//! list goes on close behind or before them. What is not in the window is read by itself.
ghost use Rattle.std.specs.Prelude.{◌≡◌, ◌≤◌};

use myi_frames::LEAST_SIZE;
use myi_io::{FileErr, Files};
use myi_window::{WINDOW, Window};
use std::alloc::{AllocError, Global};

/// How far two places may lie apart so that the bytes about them are read together.
pub(crate) const GAP: u64 = 1024;

/// How many bytes the first read of places that lie close together takes.
const LEAST_PART: u64 = 2048;

/// The first bytes of deleted blocks of a data file, of which a part is held.
#[derive(Drop)]
pub(crate) struct HeadReads {
    pub(crate) window: Window,
    /// The place that was asked for last.
    latest: u64,
    /// How many bytes the next read into the window takes.
    next_part: u64,
}

/// A part of a file that is read at once.
#[derive(Clone, Copy)]
struct Part {
    from: u64,
    to: u64,
}

// The part of so many bytes that is read for a place where another one came before: from the place on, or up
// to behind the head there where the list goes down.
fn part_about(at: u64, before: u64, size: u64) -> Part
    ensures { result.from ≤ result.to }
{
    if at < before {
        let to = at.saturating_add(LEAST_SIZE as u64);
        return Part {
            from: to.saturating_sub(size),
            to,
        };
    }
    Part {
        from: at,
        to: at.saturating_add(size),
    }
}

impl HeadReads {
    ghost use Rattle.std.specs.Prelude.{◌≡◌, ◌≤◌, length, take, drop, IfOk, IfErr};
    ghost use Rattle.myi_base.specs.Holding.{IfTold, bytes_of};
    ghost use Rattle.myi_base.specs.Causes.{HasCause};
    ghost use Rattle.myi_io.specs.declared.files.FileErr.TheVariants.{Failed};
    ghost use Rattle.myi_window.specs.Excerpt.{nothing, StandsIn, GoesOnStanding};

    /// Nothing of a file yet.
    pub(crate) fn new(alloc: Global) -> Result<HeadReads, AllocError>
        ensures { IfOk result (λ heads. heads.window ≡ nothing) }
    {
        Ok(HeadReads {
            window: Window::new(alloc)?,
            latest: 0,
            next_part: LEAST_PART,
        })
    }

    // Reads the bytes about a place, where they are not held and the place lies close to the one before.
    fn look_about<F: Files>(&mut self, files: &mut F, name: &str, at: u64) -> Result<(), FileErr>
        ensures stands { IfTold (F.holds files.old)
            (GoesOnStanding name.now self.old.window self.new.window) }
        ensures holds { F.holds files.new ≡ F.holds files.old }
        ensures cause { HasCause Failed (F.faults files.old) (F.faults files.new) result }
    {
        let before = self.latest;
        self.latest = at;
        if LEAST_SIZE <= self.window.bytes_from(at).len() {
            return Ok(());
        }
        if at.abs_diff(before) > GAP {
            self.next_part = LEAST_PART;
            return Ok(());
        }
        let part = part_about(at, before, self.next_part);
        self.next_part = self.next_part.min(WINDOW as u64 / 2) * 2;
        self.window.slide(files, name, part.from, part.to)?;
        Ok(())
    }

    /// Fills 20 bytes from a place on, or so many of them as the file has there, and answers how many.
    pub(crate) fn read<F: Files>(
        &mut self,
        files: &mut F,
        name: &str,
        at: u64,
        into: &mut [u8],
    ) -> Result<usize, FileErr>
        requires { length into.old ≡ 20 }
        ensures bound { IfOk result (λ count. count ≤ length into.new) }
        ensures told { IfOk result (λ count. IfTold (F.holds files.old) (λ m.
            StandsIn self.old.window (bytes_of name.now m)
            → take count into.new ≡ take 20 (drop at (bytes_of name.now m)))) }
        ensures stands { IfTold (F.holds files.old)
            (GoesOnStanding name.now self.old.window self.new.window) }
        ensures holds { F.holds files.new ≡ F.holds files.old }
        ensures cause { HasCause Failed (F.faults files.old) (F.faults files.new) result }
    {
        self.look_about(files, name, at)?;
        let held = self.window.bytes_from(at);
        if held.len() < LEAST_SIZE {
            let count = files.read_at(name, at, into)?;
            return Ok(count);
        }
        into.copy_from_slice(&held[..LEAST_SIZE]);
        Ok(LEAST_SIZE)
    }
}
