//! Writing a row into a new data file.
ghost use Rattle.std.specs.Prelude.{◌≡◌, ◌+◌, ◌^◌, ◌<◌, ◌≤◌, length, IfOk, OnOk, OnErr, IsTrue};
ghost use Rattle.myi_base.specs.Holding.{Told, Writes, WritesPart};
ghost use Rattle.myi_base.specs.Causes.{HasCause};
ghost use Rattle.myi_io.specs.declared.files.FileErr.TheVariants.{Failed};
ghost use Rattle.myi_data.specs.Stored.{group_by, stored_by, own_block};
ghost use Rattle.myi_repair.specs.Giant.{bytes_taken};

use crate::giant::put_giant;
use myi_defs::{Defs, RowFormat};
use myi_frames::{FrameKind, FrameSpec, GIANT, least_size, write_frame};
use myi_io::{FileErr, Files};
use std::alloc::AllocError;

/// Writes a row at a place of the file of that name, in its slot or its blocks, and answers the place behind
/// them and their number. `packed` is the row's spelling. `sizes`, the sizes of the blocks that held it, are
/// read only for a row of 2^24 bytes and more; where they do not hold it, it is refused, as if for want of
/// memory.
pub fn put_row<F: Files>(
    files: &mut F,
    file: &str,
    defs: &Defs,
    at: u64,
    packed: &[u8],
    sizes: &[u32],
) -> Result<(u64, u64), FileErr>
    requires writable { IsTrue F.writable }
    requires few { length packed.now < 2 ^ 32 }
    requires place { at ≤ 2 ^ 40 }
    ensures ok { OnOk result (Told (F.holds files.old) (F.holds files.new)
        (Writes file.now at (stored_by defs.now.format at sizes.now packed.now))) }
    ensures err { OnErr result (Told (F.holds files.old) (F.holds files.new)
        (WritesPart file.now at (stored_by defs.now.format at sizes.now packed.now))) }
    ensures end { IfOk result (λ r.
        r.0 ≡ at + length (stored_by defs.now.format at sizes.now packed.now)) }
    ensures count { IfOk result (λ r.
        r.1 ≡ length (group_by defs.now.format sizes.now (length packed.now))) }
    ensures whole { OnOk result (bytes_taken
        (group_by defs.now.format sizes.now (length packed.now)) ≡ length packed.now) }
    ensures cause { HasCause Failed (F.faults files.old) (F.faults files.new) result }
{
    let mut block = Vec::new(defs.raw.allocator());
    let row = PackedRow {
        bytes: packed,
        sizes,
    };
    put_packed(files, file, defs, at, row, &mut block)
}

/// The spelling of a row, and the sizes of the blocks that held it.
#[derive(Clone, Copy)]
pub(crate) struct PackedRow<'a> {
    pub(crate) bytes: &'a [u8],
    pub(crate) sizes: &'a [u32],
}

/// The same with a buffer for the row's block, which may serve for many rows.
pub(crate) fn put_packed<F: Files>(
    files: &mut F,
    file: &str,
    defs: &Defs,
    at: u64,
    row: PackedRow<'_>,
    block: &mut Vec<u8>,
) -> Result<(u64, u64), FileErr>
    requires writable { IsTrue F.writable }
    requires few { length row.bytes.now < 2 ^ 32 }
    requires place { at ≤ 2 ^ 40 }
    ensures ok { OnOk result (Told (F.holds files.old) (F.holds files.new)
        (Writes file.now at (stored_by defs.now.format at row.entry.sizes.now row.entry.bytes.now))) }
    ensures err { OnErr result (Told (F.holds files.old) (F.holds files.new)
        (WritesPart file.now at (stored_by defs.now.format at row.entry.sizes.now row.entry.bytes.now))) }
    ensures end { IfOk result (λ r.
        r.0 ≡ at + length (stored_by defs.now.format at row.entry.sizes.now row.entry.bytes.now)) }
    ensures count { IfOk result (λ r.
        r.1 ≡ length (group_by defs.now.format row.entry.sizes.now (length row.entry.bytes.now))) }
    ensures whole { OnOk result (bytes_taken
        (group_by defs.now.format row.entry.sizes.now (length row.entry.bytes.now))
        ≡ length row.entry.bytes.now) }
    ensures less { IfOk result (λ r. 0 < length row.entry.bytes.now → at + r.1 ≤ r.0) }
    ensures cause { HasCause Failed (F.faults files.old) (F.faults files.new) result }
{
    match defs.format {
        RowFormat::Static => write_row(files, file, at, row.bytes),
        RowFormat::Dynamic => {
            if row.bytes.len() >= GIANT as usize {
                return put_giant(files, file, at, row.bytes, row.sizes);
            }
            fill_block(block, row.bytes)?;
            write_row(files, file, at, block)
        }
    }
}

// Writes the slot or the one block of a row.
fn write_row<F: Files>(
    files: &mut F,
    file: &str,
    at: u64,
    bytes: &[u8],
) -> Result<(u64, u64), FileErr>
    requires writable { IsTrue F.writable }
    requires end { at + length bytes.now < 2 ^ 64 }
    ensures ok { OnOk result (Told (F.holds files.old) (F.holds files.new)
        (Writes file.now at bytes.now)) }
    ensures err { OnErr result (Told (F.holds files.old) (F.holds files.new)
        (WritesPart file.now at bytes.now)) }
    ensures end { IfOk result (λ r. r.0 ≡ at + length bytes.now) }
    ensures count { IfOk result (λ r. r.1 ≡ 1) }
    ensures less { IfOk result (λ r. 0 < length bytes.now → at + r.1 ≤ r.0) }
    ensures cause { HasCause Failed (F.faults files.old) (F.faults files.new) result }
{
    files.write_at(file, at, bytes)?;
    Ok((at + bytes.len() as u64, 1))
}

// Makes the one block of a row, in place of what the buffer held.
fn fill_block(block: &mut Vec<u8>, packed: &[u8]) -> Result<(), AllocError>
    requires { length packed.now < 2 ^ 24 }
    ensures { OnOk result (block.new.items ≡ own_block packed.now) }
{
    let rec_len = packed.len() as u32;
    let spec = FrameSpec {
        kind: FrameKind::Whole,
        rec_len,
        next: None,
        prev: None,
    };
    block.clear();
    block.resize(least_size(rec_len) as usize, 0)?;
    write_frame(block, &spec, packed);
    Ok(())
}
