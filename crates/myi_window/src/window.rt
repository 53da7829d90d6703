//! `Window`: 131,072 bytes of a file, which slide forward.
//!
//! The buffer of a window holds an excerpt of a file: the bytes that were read from a place on. `slide`
//! goes to another place: what the excerpt holds of the bytes from there on moves to the front, and one
//! read adds what is missing. So no byte is read twice while the place rises and the end stays. `stretch`
//! does the same for a range that is longer than a window, and makes the buffer longer for it.
ghost use Rattle.std.specs.Prelude.{◌≡◌, ◌<◌, ◌≤◌, ◌+◌, ◌-◌, ◌^◌, ◌++◌, length, take, drop, IfOk, IfErr, OnOk, OnErr};
ghost use Rattle.myi_base.specs.Holding.{IfTold, bytes_of};
ghost use Rattle.myi_base.specs.Causes.{HasCause};
ghost use Rattle.myi_io.specs.declared.files.FileErr.TheVariants.{Failed};
ghost use Rattle.myi_window.specs.declared.window.TheConstants.{WINDOW};

use myi_io::{FileErr, Files};
use std::alloc::{AllocError, Global};
use std::marker::Model;

/// How many bytes of a file a window holds that is not stretched.
pub const WINDOW: usize = 131_072;

/// Moves the bytes from `skip` up to `count` to the front.
fn move_front(buffer: &mut [u8], skip: usize, count: usize)
    requires order { skip ≤ count }
    requires inside { count ≤ length buffer.old }
    ensures { take (count - skip) buffer.new ≡ drop skip (take count buffer.old) }
{
    buffer.copy_within(skip..count, 0);
}

/// Reads the bytes of a file from a place on behind the first `skip` of the buffer, and answers how many.
fn read_behind<F: Files>(
    files: &mut F,
    name: &str,
    at: u64,
    buffer: &mut [u8],
    skip: usize,
    room: usize,
) -> Result<usize, FileErr>
    requires { skip + room ≤ length buffer.old }
    ensures front { take skip buffer.new ≡ take skip buffer.old }
    ensures bound { IfOk result (λ count. count ≤ room) }
    ensures told { IfOk result (λ count. IfTold (F.holds files.old) (λ m.
        take (skip + count) buffer.new
        ≡ take skip buffer.old ++ take room (drop at (bytes_of name.now m)))) }
    ensures failed { IfErr result (λ e. e ≡ Failed) }
    ensures holds { F.holds files.new ≡ F.holds files.old }
    ensures cause { HasCause Failed (F.faults files.old) (F.faults files.new) result }
{
    let count = files.read_at(name, at, &mut buffer[skip..skip + room])?;
    Ok(count)
}

/// Makes a buffer so long, if it is shorter. Its bytes stay.
fn grow(buffer: &mut Vec<u8>, len: usize) -> Result<(), AllocError>
    requires { len ≤ 2 ^ 33 }
    ensures long { OnOk result (len ≤ length buffer.new.items) }
    ensures front { take (length buffer.old.items) buffer.new.items ≡ buffer.old.items }
    ensures some { OnErr result (length buffer.old.items < len) }
{
    if len <= buffer.len() {
        return Ok(());
    }
    buffer.resize(len, 0)?;
    Ok(())
}

/// A part of a file in memory.
pub struct Window {
    buffer: Vec<u8>,
    /// The place of the buffer's first byte in the file.
    from: u64,
    /// How many bytes of the buffer are those of the file.
    count: usize,
}

impl Drop for Window {
    fn drop(self) {
        let Window {
            buffer: _,
            from: _,
            count: _,
        } = self;
    }
}

impl Model for Window {
    ghost use Rattle.std.specs.Prelude.{◌≡◌, ◌≤◌, length, take};
    ghost use Rattle.myi_window.specs.Excerpt.{Excerpt};
    ghost use Rattle.myi_window.specs.declared.window.TheConstants.{WINDOW};

    ghost Value = { Excerpt };

    ghost view = { λ w. record { from = w.from; bytes = take w.count w.buffer.items } };

    ghost invariant = { λ w. (WINDOW ≤ length w.buffer.items) × (w.count ≤ length w.buffer.items) };
}

impl Window {
    ghost use Rattle.std.specs.Prelude.{◌≡◌, ◌≤◌, ◌+◌, ◌^◌, IfOk, IfErr, OnOk, OnErr};
    ghost use Rattle.myi_base.specs.Holding.{IfTold};
    ghost use Rattle.myi_base.specs.Causes.{HasCause};
    ghost use Rattle.myi_io.specs.declared.files.FileErr.TheVariants.{Failed};
    ghost use Rattle.myi_window.specs.Excerpt.{nothing, bytes_from, moved, EndsBy, GoesTo, HoldsTo, IsFull, IsOver};
    ghost use Rattle.myi_window.specs.declared.window.TheConstants.{WINDOW};

    /// A window that holds nothing of a file yet. Its memory is taken here, and more only by `stretch`.
    pub fn new(alloc: Global) -> Result<Window, AllocError>
        ensures { IfOk result (λ w. w ≡ nothing) }
    {
        let mut buffer = Vec::new(alloc);
        buffer.resize(WINDOW, 0)?;
        Ok(Window {
            buffer,
            from: 0,
            count: 0,
        })
    }

    /// The bytes that the window holds from a place of the file on: none where the place is before or
    /// behind them.
    pub fn bytes_from(&self, at: u64) -> &[u8]
        ensures { result.now ≡ bytes_from at self.now }
    {
        if at < self.from || (self.count as u64) < at - self.from {
            return &[];
        }
        &self.buffer[(at - self.from) as usize..self.count]
    }

    // Moves to a place. What is held of the bytes from there up to an end stays.
    fn move_to(&mut self, at: u64, end: u64)
        requires { at ≤ end }
        ensures { self.new ≡ moved at end self.old }
    {
        let mut skip = self.count;
        if self.from <= at && at - self.from < self.count as u64 {
            skip = (at - self.from) as usize;
        }
        move_front(&mut self.buffer, skip, self.count);
        self.count -= skip;
        self.from = at;
        if end - at < self.count as u64 {
            self.count = (end - at) as usize;
        }
    }

    // Reads what is missing up to an end. Where that is behind a window, it may take memory.
    fn read_to<F: Files>(&mut self, files: &mut F, name: &str, end: u64) -> Result<(), FileErr>
        requires inside { EndsBy end self.old }
        requires near { end ≤ self.old.from + 2 ^ 33 }
        ensures from { self.new.from ≡ self.old.from }
        ensures full { OnOk result (IfTold (F.holds files.old)
            (HoldsTo name.now self.old.from end self.old self.new)) }
        ensures inside { OnOk result (EndsBy end self.new) }
        ensures err { OnErr result (self.new ≡ self.old) }
        ensures failed { end ≤ self.old.from + WINDOW → IfErr result (λ e. e ≡ Failed) }
        ensures holds { F.holds files.new ≡ F.holds files.old }
        ensures cause { HasCause Failed (F.faults files.old) (F.faults files.new) result }
    {
        let len = (end - self.from) as usize;
        grow(&mut self.buffer, len)?;
        let at = self.from + self.count as u64;
        let room = len - self.count;
        let count = read_behind(files, name, at, &mut self.buffer, self.count, room)?;
        self.count += count;
        Ok(())
    }

    // Goes to a place and reads what is missing up to an end.
    fn hold<F: Files>(
        &mut self,
        files: &mut F,
        name: &str,
        at: u64,
        end: u64,
    ) -> Result<(), FileErr>
        requires order { at ≤ end }
        requires near { end ≤ at + 2 ^ 33 }
        ensures goes { GoesTo name.now at end (F.holds files.old) self.old self.new }
        ensures full { OnOk result (IfTold (F.holds files.old)
            (HoldsTo name.now at end self.old self.new)) }
        ensures failed { end ≤ at + WINDOW → IfErr result (λ e. e ≡ Failed) }
        ensures holds { F.holds files.new ≡ F.holds files.old }
        ensures cause { HasCause Failed (F.faults files.old) (F.faults files.new) result }
    {
        self.move_to(at, end);
        self.read_to(files, name, end)?;
        Ok(())
    }

    /// Slides to a place of a file that is read up to an end. Where what the window held stands in the
    /// file, it then holds the file from the place on, as far as a window goes; after a failure what it
    /// holds stands there still. It takes no memory, and reads at most once, only bytes that it does not
    /// hold.
    pub fn slide<F: Files>(
        &mut self,
        files: &mut F,
        name: &str,
        at: u64,
        end: u64,
    ) -> Result<(), FileErr>
        requires { at ≤ end }
        ensures goes { GoesTo name.now at end (F.holds files.old) self.old self.new }
        ensures full { OnOk result (IfTold (F.holds files.old)
            (IsFull name.now at end self.old self.new)) }
        ensures failed { IfErr result (λ e. e ≡ Failed) }
        ensures holds { F.holds files.new ≡ F.holds files.old }
        ensures cause { HasCause Failed (F.faults files.old) (F.faults files.new) result }
    {
        let to = at + (end - at).min(WINDOW as u64);
        self.hold(files, name, at, to)?;
        Ok(())
    }

    /// Stretches over so many bytes from a place on, more than a window holds: as `slide`, but it takes
    /// the memory that it needs, and keeps it. A window that is stretched already reads a further window
    /// behind them, so that ranges that overlap are not read in small parts.
    pub fn stretch<F: Files>(
        &mut self,
        files: &mut F,
        name: &str,
        at: u64,
        size: u32,
        end: u64,
    ) -> Result<(), FileErr>
        requires { at + size ≤ end }
        ensures goes { GoesTo name.now at end (F.holds files.old) self.old self.new }
        ensures over { OnOk result (IfTold (F.holds files.old)
            (IsOver name.now at size self.old self.new)) }
        ensures holds { F.holds files.new ≡ F.holds files.old }
        ensures cause { HasCause Failed (F.faults files.old) (F.faults files.new) result }
    {
        let mut len = size as u64;
        if self.count > WINDOW {
            len += WINDOW as u64;
        }
        let to = at + (end - at).min(len);
        self.hold(files, name, at, to)?;
        Ok(())
    }
}
