//! `SlotBytes`: the bytes of slots as they are read, whole slots of one length.
//!
//! Slots that a window can hold are read through one. Longer slots are read one by one into a buffer of
//! their length. The memory of either is taken when it is made. What is held of the file is an excerpt
//! of it, for both.
ghost use Rattle.std.specs.Prelude.{◌≡◌, ◌≤◌, ◌<◌, ◌+◌, true, false, length, take, IfOk, IfErr};
ghost use Rattle.myi_base.specs.Holding.{IfTold, bytes_of};
ghost use Rattle.myi_base.specs.Causes.{HasCause};
ghost use Rattle.myi_io.specs.declared.files.FileErr.TheVariants.{Failed};
ghost use Rattle.myi_window.specs.Excerpt.{bytes_from, EndsBy, StandsIn, GoesOnStanding};
ghost use Rattle.myi_window.specs.declared.window.TheConstants.{WINDOW};
ghost use Rattle.myi_data.specs.SlotBytes.{EndsBefore};

use myi_io::{FileErr, Files};
use myi_window::{WINDOW, Window};
use std::alloc::{AllocError, Global};
use std::marker::Model;

/// Whether a window holds a slot at a place, once it is there. If not, the file ends before the slot
/// does.
fn slide_to<F: Files>(
    files: &mut F,
    name: &str,
    window: &mut Window,
    at: u64,
    end: u64,
    size: usize,
) -> Result<bool, FileErr>
    requires order { at ≤ end }
    requires narrow { size ≤ WINDOW }
    requires inside { EndsBy end window.old }
    ensures whole { IfOk result (λ is. is ≡ true → size ≤ length (bytes_from at window.new)) }
    ensures short { IfOk result (λ is. is ≡ false → IfTold (F.holds files.old)
        (EndsBefore name.now (at + size) end window.old)) }
    ensures stands { IfTold (F.holds files.old) (GoesOnStanding name.now window.old window.new) }
    ensures inside { EndsBy end window.new }
    ensures failed { IfErr result (λ e. e ≡ Failed) }
    ensures holds { F.holds files.new ≡ F.holds files.old }
    ensures cause { HasCause Failed (F.faults files.old) (F.faults files.new) result }
{
    if size <= window.bytes_from(at).len() {
        return Ok(true);
    }
    window.slide(files, name, at, end)?;
    Ok(size <= window.bytes_from(at).len())
}

/// One slot, read whole.
#[derive(Drop)]
struct LongSlot {
    /// As long as a slot.
    buffer: Vec<u8>,
    /// The place of the slot in the file.
    from: u64,
    /// How many bytes of the buffer are those of the file.
    count: usize,
}

impl Model for LongSlot {
    ghost use Rattle.std.specs.Prelude.{◌≤◌, length, take};
    ghost use Rattle.myi_data.specs.SlotBytes.{SlotsHeld};

    ghost Value = { SlotsHeld };

    ghost view = { λ s. record {
      size = length s.buffer.items;
      held = record { from = s.from; bytes = take s.count s.buffer.items };
    } };

    ghost invariant = { λ s. s.count ≤ length s.buffer.items };
}

impl LongSlot {
    ghost use Rattle.std.specs.Prelude.{◌≡◌, ◌≤◌, ◌+◌, true, false, length, IfOk, IfErr};
    ghost use Rattle.myi_base.specs.Holding.{IfTold};
    ghost use Rattle.myi_base.specs.Causes.{HasCause};
    ghost use Rattle.myi_io.specs.declared.files.FileErr.TheVariants.{Failed};
    ghost use Rattle.myi_window.specs.Excerpt.{nothing, bytes_from, EndsBy, GoesOnStanding};
    ghost use Rattle.myi_data.specs.SlotBytes.{EndsBefore};

    /// A buffer for a slot of so many bytes. Nothing is read yet.
    fn new(alloc: Global, size: usize) -> Result<LongSlot, AllocError>
        ensures { IfOk result (λ slot. slot ≡ record { size = size; held = nothing }) }
    {
        Ok(LongSlot {
            buffer: vec![in alloc; 0u8; size]?,
            from: 0,
            count: 0,
        })
    }

    /// The bytes of the file that are held from a place on.
    fn bytes_from(&self, at: u64) -> &[u8]
        ensures { result.now ≡ bytes_from at self.now.held }
    {
        if at < self.from || (self.count as u64) < at - self.from {
            return &[];
        }
        &self.buffer[(at - self.from) as usize..self.count]
    }

    /// Reads the slot at a place, and answers whether it is whole. If not, the file ends before it
    /// does.
    fn read<F: Files>(
        &mut self,
        files: &mut F,
        name: &str,
        at: u64,
        end: u64,
    ) -> Result<bool, FileErr>
        requires { at + self.old.size ≤ end }
        ensures whole { IfOk result (λ is. is ≡ true
            → self.old.size ≤ length (bytes_from at self.new.held)) }
        ensures short { IfOk result (λ is. is ≡ false → IfTold (F.holds files.old)
            (EndsBefore name.now (at + self.old.size) end self.old.held)) }
        ensures size { self.new.size ≡ self.old.size }
        ensures stands { IfTold (F.holds files.old)
            (GoesOnStanding name.now self.old.held self.new.held) }
        ensures inside { EndsBy end self.new.held }
        ensures failed { IfErr result (λ e. e ≡ Failed) }
        ensures holds { F.holds files.new ≡ F.holds files.old }
        ensures cause { HasCause Failed (F.faults files.old) (F.faults files.new) result }
    {
        self.from = at;
        self.count = 0;
        self.count = files.read_at(name, at, &mut self.buffer)?;
        Ok(self.count == self.buffer.len())
    }
}

#[derive(Drop)]
enum Held {
    Window(Window),
    Slot(LongSlot),
}

/// The bytes of slots of one length.
#[derive(Drop)]
pub(crate) struct SlotBytes {
    size: usize,
    held: Held,
}

impl Model for SlotBytes {
    ghost use Rattle.myi_data.specs.SlotBytes.{SlotsHeld};
    ghost use Rattle.myi_data.specs.Held.{excerpt_in, IsForSize};

    ghost Value = { SlotsHeld };

    ghost view = { λ s. record { size = s.size; held = excerpt_in s.held } };

    ghost invariant = { λ s. IsForSize s.size s.held };
}

impl SlotBytes {
    ghost use Rattle.std.specs.Prelude.{◌≡◌, ◌≤◌, ◌+◌, true, false, length, IfOk, IfErr};
    ghost use Rattle.myi_base.specs.Holding.{IfTold};
    ghost use Rattle.myi_base.specs.Causes.{HasCause};
    ghost use Rattle.myi_io.specs.declared.files.FileErr.TheVariants.{Failed};
    ghost use Rattle.myi_window.specs.Excerpt.{nothing, bytes_from, EndsBy, GoesOnStanding};
    ghost use Rattle.myi_data.specs.SlotBytes.{EndsBefore};

    /// Room for slots of so many bytes. Nothing is read yet.
    pub(crate) fn new(alloc: Global, size: usize) -> Result<SlotBytes, AllocError>
        ensures { IfOk result (λ bytes. bytes ≡ record { size = size; held = nothing }) }
    {
        if size > WINDOW {
            let held = Held::Slot(LongSlot::new(alloc, size)?);
            return Ok(SlotBytes { size, held });
        }
        let held = Held::Window(Window::new(alloc)?);
        Ok(SlotBytes { size, held })
    }

    /// The bytes of the file that are held from a place on.
    pub(crate) fn bytes_from(&self, at: u64) -> &[u8]
        ensures { result.now ≡ bytes_from at self.now.held }
    {
        match &self.held {
            Held::Window(window) => window.bytes_from(at),
            Held::Slot(slot) => slot.bytes_from(at),
        }
    }

    /// Whether the slot at a place is held whole, once it is read. If not, the file ends before the
    /// slot does. It takes no memory.
    pub(crate) fn reach<F: Files>(
        &mut self,
        files: &mut F,
        name: &str,
        at: u64,
        end: u64,
    ) -> Result<bool, FileErr>
        requires room { at + self.old.size ≤ end }
        requires inside { EndsBy end self.old.held }
        ensures whole { IfOk result (λ is. is ≡ true
            → self.old.size ≤ length (bytes_from at self.new.held)) }
        ensures short { IfOk result (λ is. is ≡ false → IfTold (F.holds files.old)
            (EndsBefore name.now (at + self.old.size) end self.old.held)) }
        ensures size { self.new.size ≡ self.old.size }
        ensures stands { IfTold (F.holds files.old)
            (GoesOnStanding name.now self.old.held self.new.held) }
        ensures inside { EndsBy end self.new.held }
        ensures failed { IfErr result (λ e. e ≡ Failed) }
        ensures holds { F.holds files.new ≡ F.holds files.old }
        ensures cause { HasCause Failed (F.faults files.old) (F.faults files.new) result }
    {
        match &mut self.held {
            Held::Window(window) => slide_to(files, name, window, at, end, self.size),
            Held::Slot(slot) => slot.read(files, name, at, end),
        }
    }
}
