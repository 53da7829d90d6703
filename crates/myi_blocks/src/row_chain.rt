//! The blocks of a row, read one after the other from the place of the first.
//!
//! A `Link` says how a row goes on behind a block: not at all, or at the place that the block names. The row
//! bytes of each block are appended to a buffer. No list of the blocks is kept: where a row stands, its blocks
//! share no byte, and each further one leaves fewer bytes to come.
ghost use Rattle.std.specs.Prelude.{◌≡◌, ◌≤◌, ◌<◌, ◌+◌, ◌-◌, ◌^◌, ◌++◌, [], length, take, drop, true, IfOk, IfErr, IfSome, OnOk, List, ℕ};
ghost use Rattle.myi_base.specs.Holding.{IfTold, bytes_of, blocks};
ghost use Rattle.myi_base.specs.Causes.{HasCause};
ghost use Rattle.myi_frames.specs.Block.{Block, block_of};
ghost use Rattle.myi_frames.specs.Seeing.{Heads};
ghost use Rattle.myi_chain.specs.Chain.{IsChain, row_bytes};
ghost use Rattle.myi_slots.specs.declared.fault.DataFault.TheVariants.{File};
ghost use Rattle.myi_slots.specs.SlotFile.{CutsOff, ByCause, Never};
ghost use Rattle.myi_blocks.specs.RowLinks.{IsHeaderAt, IsBlockThere, more_at, first_link, next_link, left_of, chain_cost, GoesOn, Advances, HasRead, Remains};

use myi_frames::{FrameKind, Header, LEAST_SIZE, header_at};
use myi_io::Files;
use myi_slots::DataFault;

/// How a row goes on behind a block.
#[derive(Clone, Copy)]
pub(crate) enum Link {
    /// The block is the last one.
    Last,
    /// The next block is to stand at this place, and it and those behind it are to hold so many row bytes.
    More { at: u64, left: usize },
}

/// How a row goes on at a place, if there is one.
fn more_at(next: Option<u64>, left: usize) -> Option<Link>
    ensures { result ≡ more_at next left }
{
    match next {
        None => None,
        Some(at) => Some(Link::More { at, left }),
    }
}

/// How a row goes on behind its first block. None where the block is no first one.
fn first_link(block: &Header) -> Option<Link>
    ensures link { result ≡ first_link block.now }
    ensures few { IfSome result (λ link. block.now.data_len + left_of link
        ≤ block.now.head.rec_len) }
{
    let whole = block.head.rec_len as usize;
    match block.head.kind {
        FrameKind::Whole if block.data_len == whole => Some(Link::Last),
        FrameKind::Start if block.data_len < whole => {
            more_at(block.head.next, whole - block.data_len)
        }
        _ => None,
    }
}

/// How a row goes on behind a further block, where so many row bytes were to come. None where the block is
/// not such a one.
fn next_link(block: &Header, left: usize) -> Option<Link>
    ensures link { result ≡ next_link block.now left }
    ensures few { IfSome result (λ link. block.now.data_len + left_of link ≤ left) }
    ensures falls { IfSome result (λ link. left_of link < left) }
{
    if block.data_len == 0 {
        return None;
    }
    match block.head.kind {
        FrameKind::Middle if block.data_len < left => {
            more_at(block.head.next, left - block.data_len)
        }
        FrameKind::End if block.data_len == left => Some(Link::Last),
        _ => None,
    }
}

/// The header of the block at a place of a file that ends at `end`. `Damaged` where no block stands there.
fn read_header<F: Files>(files: &mut F, name: &str, at: u64, end: u64) -> Result<Header, DataFault>
    ensures place { IfOk result (IsHeaderAt at end) }
    ensures told { IfOk result (λ h. IfTold (F.holds files.old) (λ m.
        length (bytes_of name.now m) ≡ end → IsBlockThere (bytes_of name.now m) at h)) }
    ensures err { IfErr result (ByCause Never ⊥ (λ p. IfTold (F.holds files.old) (λ m.
        length (bytes_of name.now m) ≡ end → block_of (bytes_of name.now m) at ≡ None))) }
    ensures holds { F.holds files.new ≡ F.holds files.old }
    ensures few { F.reads files.new ≤ F.reads files.old + 1 }
    ensures cause { HasCause File (F.faults files.old) (F.faults files.new) result }
{
    let mut bytes = [0u8; LEAST_SIZE];
    let count = files.read_at(name, at, &mut bytes)?;
    if count < LEAST_SIZE {
        return Err(DataFault::Damaged { at });
    }
    match header_at(&bytes, at, end) {
        Some(block) => Ok(block),
        None => Err(DataFault::Damaged { at }),
    }
}

/// Fills a buffer behind its first bytes from a place of a file on, and answers how many bytes it gave.
fn fill<F: Files>(
    files: &mut F,
    name: &str,
    at: u64,
    into: &mut [u8],
    start: usize,
) -> Result<usize, DataFault>
    requires { start ≤ length into.old }
    ensures told { IfOk result (λ count. IfTold (F.holds files.old) (λ m.
        at + length into.old ≤ start + length (bytes_of name.now m)
        → (start + count ≡ length into.old)
        × (into.new ≡ take start into.old ++ take count (drop at (bytes_of name.now m))))) }
    ensures cut { IfErr result CutsOff }
    ensures holds { F.holds files.new ≡ F.holds files.old }
    ensures few { F.reads files.new ≤ F.reads files.old + blocks (length into.old - start) }
    ensures cause { HasCause File (F.faults files.old) (F.faults files.new) result }
{
    let count = files.read_at(name, at, &mut into[start..])?;
    Ok(count)
}

/// Appends the row bytes of a block to a buffer, and says whether they were there.
fn append<F: Files>(
    files: &mut F,
    name: &str,
    block: &Header,
    row: &mut Vec<u8>,
) -> Result<bool, DataFault>
    requires place { block.now.head.at + block.now.start < 2 ^ 64 }
    requires few { length row.old.items + block.now.data_len < 2 ^ 32 }
    ensures grown { IfOk result (λ whole.
        length row.new.items ≡ length row.old.items + block.now.data_len) }
    ensures told { IfOk result (λ whole. IfTold (F.holds files.old) (λ m.
        (b : Block) → Heads (bytes_of name.now m) block.now b
        → (whole ≡ true) × (row.new.items ≡ row.old.items ++ b.bytes))) }
    ensures cut { IfErr result CutsOff }
    ensures holds { F.holds files.new ≡ F.holds files.old }
    ensures few { F.reads files.new ≤ F.reads files.old + blocks block.now.data_len }
    ensures cause { HasCause File (F.faults files.old) (F.faults files.new) result }
{
    let start = row.len();
    row.resize(start + block.data_len, 0)?;
    let at = block.head.at + block.start as u64;
    let count = fill(files, name, at, row, start)?;
    Ok(count == block.data_len)
}

/// Reads the first block of the row at a place into a buffer, in place of what it held.
fn read_first<F: Files>(
    files: &mut F,
    name: &str,
    at: u64,
    end: u64,
    row: &mut Vec<u8>,
) -> Result<Link, DataFault>
    ensures told { IfTold (F.holds files.old) (λ m. length (bytes_of name.now m) ≡ end
        → (bs : List Block) → IsChain (block_of (bytes_of name.now m)) at [] bs
        → Advances (block_of (bytes_of name.now m)) (row_bytes bs)
        (F.reads files.old + chain_cost bs) result row.new.items (F.reads files.new)) }
    ensures few { IfOk result (λ link. length row.new.items + left_of link < 2 ^ 32) }
    ensures err { IfErr result (ByCause Never ⊥ (λ p. Unit {0})) }
    ensures holds { F.holds files.new ≡ F.holds files.old }
    ensures cause { HasCause File (F.faults files.old) (F.faults files.new) result }
{
    row.clear();
    let block = read_header(files, name, at, end)?;
    let Some(link) = first_link(&block) else {
        return Err(DataFault::Damaged { at });
    };
    if !append(files, name, &block, row)? {
        return Err(DataFault::Damaged { at });
    }
    Ok(link)
}

/// Appends the row bytes of the block at a place, where so many are to come.
fn read_next<F: Files>(
    files: &mut F,
    name: &str,
    at: u64,
    left: usize,
    end: u64,
    row: &mut Vec<u8>,
) -> Result<Link, DataFault>
    requires few { length row.old.items + left < 2 ^ 32 }
    ensures told { IfTold (F.holds files.old) (λ m. length (bytes_of name.now m) ≡ end
        → (bytes : List ℕ) (most : ℕ)
        → Remains (block_of (bytes_of name.now m)) bytes most at left row.old.items
        (F.reads files.old)
        → Advances (block_of (bytes_of name.now m)) bytes most result row.new.items
        (F.reads files.new)) }
    ensures few { IfOk result (λ link. length row.new.items + left_of link < 2 ^ 32) }
    ensures falls { IfOk result (λ link. left_of link < left) }
    ensures err { IfErr result (ByCause Never ⊥ (λ p. Unit {0})) }
    ensures holds { F.holds files.new ≡ F.holds files.old }
    ensures cause { HasCause File (F.faults files.old) (F.faults files.new) result }
{
    let block = read_header(files, name, at, end)?;
    let Some(link) = next_link(&block, left) else {
        return Err(DataFault::Damaged { at });
    };
    if !append(files, name, &block, row)? {
        return Err(DataFault::Damaged { at });
    }
    Ok(link)
}

/// Reads the bytes of the row at a place into a buffer, in place of what it held. `Damaged` where a block
/// that is read is not the one that a row needs there.
pub(crate) fn read_chain<F: Files>(
    files: &mut F,
    name: &str,
    at: u64,
    end: u64,
    row: &mut Vec<u8>,
) -> Result<(), DataFault>
    ensures told { IfTold (F.holds files.old) (λ m. length (bytes_of name.now m) ≡ end
        → (bs : List Block) → IsChain (block_of (bytes_of name.now m)) at [] bs
        → HasRead (row_bytes bs) (F.reads files.old + chain_cost bs) result row.new.items
        (F.reads files.new)) }
    ensures few { OnOk result (length row.new.items < 2 ^ 32) }
    ensures err { IfErr result (ByCause Never ⊥ (λ p. Unit {0})) }
    ensures holds { F.holds files.new ≡ F.holds files.old }
    ensures cause { HasCause File (F.faults files.old) (F.faults files.new) result }
{
    let mut link = read_first(files, name, at, end, row)?;
    while let Link::More { at: place, left } = link {
        link = read_next(files, name, place, left, end, row)?;
    }
    Ok(())
}
