//! What a scan finds in a file, one place after the other.
//!
//! `step` does what the definition of readable rows says of one place: it looks at the used ranges and at
//! the block there, and at its chain where one may start. `advance` does steps up to what is wanted,
//! a `Found`: the next row, or the next row or deleted block. `Rules` says what packs
//! a row and how the file is scanned, `Position` where the scan stands, and a `RowBuffer` holds a row
//! of several blocks while it is looked for.
ghost use Rattle.std.specs.Prelude.{◌≡◌, ℕ, ◌+◌, ◌-◌, ◌<◌, ◌≤◌, ◌++◌, true, false, List, length, OnOk, OnErr, IfOk, IfErr, IfSome, Some};
ghost use Rattle.std.specs.Option.{option_map};
ghost use Rattle.myi_base.specs.Holding.{IfTold};
ghost use Rattle.myi_base.specs.Causes.{HasCause};
ghost use Rattle.myi_io.specs.declared.files.FileErr.TheVariants.{Failed};
ghost use Rattle.myi_frames.specs.Block.{Block};
ghost use Rattle.myi_frames.specs.Seeing.{Heads, HeadsBlock};
ghost use Rattle.myi_chain.specs.declared.piece.ScanFault.TheVariants.{File, Memory};
ghost use Rattle.myi_chain.specs.Chain.{row_bytes, chain_of};
ghost use Rattle.myi_chain.specs.Readable.{skip_by, free_by, rows_of};
ghost use Rattle.myi_chain.specs.Pieces.{is_lent};
ghost use Rattle.myi_chain.specs.ScanModel.{AreBlocksAt};
ghost use Rattle.myi_chain.specs.Used.{AddsBlocks, NeedsMemory};
ghost use Rattle.myi_chain.specs.Chain.{placed, ranges_at};
ghost use Rattle.myi_chain.specs.Source.{read_bytes, read_blocks, IsReady, ReadsOn, MayFall, StaysAt, EndStaysOr, IsHeader, HoldsWhole, IsKept, kept_bytes, first_by, HasFollowed, CanAdd, AreRead, StandsThere};
ghost use Rattle.myi_chain.specs.Found.{found_at, found_blocks, LiesRow, LiesItem, FindsRow, IsPassed, IsBlockOf, IsFree, met_at, items_at, HoldsItem, HoldsRow, MeetsShortAt, FindsShortAt, FindsItem, KeepsUsed, IsBetween, Rises, picked, IsMeant};

use crate::chain::{Chain, Link, first_link, follow, join};
use crate::piece::{Accepts, ScanFault, Wanted};
use crate::source::Source;
use crate::used::Used;
use myi_frames::{FrameKind, Header};
use myi_io::{FileErr, Files};
use std::alloc::AllocError;

/// A row that was found.
#[derive(Clone, Copy)]
pub(crate) enum FoundRow {
    /// One block, which the window holds whole, by its header.
    Kept(Header),
    /// Several blocks, by the place of the first. They and their bytes are in the row buffer.
    Joined(u64),
}

/// What was found.
#[derive(Clone, Copy)]
pub(crate) enum Found {
    Row(FoundRow),
    /// A deleted block at this place, of this size in bytes.
    Free(u64, u32),
}

/// How a file is scanned.
#[derive(Drop)]
pub(crate) struct Rules<A: Accepts> {
    /// What packs a row.
    pub(crate) test: A,
    /// Whether every place is tried.
    pub(crate) extend: bool,
}

/// Where a scan stands.
#[derive(Drop)]
pub(crate) struct Position {
    /// The place from which on the rest is to be found.
    pub(crate) place: u64,
    /// The ranges of the blocks of the rows that were found.
    pub(crate) used: Used,
}

/// A row of several blocks, while it is looked for.
pub(crate) struct RowBuffer {
    pub(crate) chain: Chain,
    /// The bytes of its blocks.
    pub(crate) joined: Vec<u8>,
}

impl Drop for RowBuffer {
    fn drop(self) {
        let RowBuffer {
            chain: _,
            joined: _,
        } = self;
    }
}

/// How far it is to the next place, in bytes.
const STEP: u64 = 4;

/// How far it is over a block at which no row starts, in bytes, and the deleted block that is passed.
fn past(block: &Header, extend: bool) -> (u64, Option<Found>)
    requires { 20 ≤ block.now.head.size }
    ensures passed { IsPassed extend block.now result.0 result.1 }
    ensures here { IfSome result.1 (IsBlockOf block.now) }
    ensures rises { 0 < result.0 }
    ensures free { IfSome result.1 IsFree }
{
    if extend {
        return (STEP, None);
    }
    let size = block.head.size;
    match block.head.kind {
        FrameKind::Deleted => (size as u64, Some(Found::Free(block.head.at, size))),
        FrameKind::Middle | FrameKind::End => (size as u64, None),
        FrameKind::Whole | FrameKind::Start => (STEP, None),
    }
}

/// Whether the row bytes of a block that the window holds whole pack a row.
fn keeps_row<A: Accepts>(test: &A, source: &Source, block: &Header) -> bool
    requires { IsKept block.now source.now.kept }
    ensures { result ≡ A.accepts_gives test.now (kept_bytes block.now source.now.kept) }
{
    test.accepts(source.row_bytes(block))
}

/// Follows the chain that starts with a block behind which more are to come, and says whether there is one.
fn chain_from<F: Files>(
    files: &mut F,
    source: &Source,
    used: &Used,
    block: &Header,
    chain: &mut Chain,
) -> Result<bool, ScanFault>
    requires block { IsHeader block.now.head.at source.now.end block.now }
    requires more { first_by block.now used.now ≡ Link.More }
    requires below { block.now.data_len < block.now.head.rec_len }
    requires ready { IfTold (F.holds files.old) (IsReady source.now) }
    ensures told { IfOk result (λ found. IfTold (F.holds files.old) (λ m.
        StandsThere source.now block.now m → HasFollowed found chain.new.taken
        (option_map placed (chain_of (read_blocks source.now m) block.now.head.at used.now)))) }
    ensures can { IfOk result (λ found. found ≡ true → CanAdd used.now chain.new.taken) }
    ensures lies { IfOk result (λ found. found ≡ true
        → AreBlocksAt block.now.head.at source.now.end chain.new.taken) }
    ensures long { IfOk result (λ found. found ≡ true
        → is_lent (ranges_at chain.new.taken) ≡ false) }
    ensures holds { F.holds files.new ≡ F.holds files.old }
    ensures cause { HasCause File (F.faults files.old) (F.faults files.new) result }
{
    chain.begin(block)?;
    let found = follow(files, source, used, chain)?;
    Ok(found)
}

/// Joins the row bytes of the blocks that were taken, and says whether they are so many and pack a row.
fn joins_row<A: Accepts, F: Files>(
    files: &mut F,
    test: &A,
    source: &Source,
    len: u32,
    row: &mut RowBuffer,
) -> Result<bool, ScanFault>
    requires ready { IfTold (F.holds files.old) (IsReady source.now) }
    ensures told { IfOk result (λ is. IfTold (F.holds files.old) (λ m.
        (bs : List Block) → row.old.chain.taken ≡ placed bs → AreRead (read_blocks source.now m) bs
        → length (row_bytes bs) ≡ len
        → (is ≡ A.accepts_gives test.now (row_bytes bs)) × (row.new.joined.items ≡ row_bytes bs))) }
    ensures long { IfOk result (λ is. is ≡ true → length row.new.joined.items ≡ len) }
    ensures packs { IfOk result (λ is. is ≡ true
        → A.accepts_gives test.now row.new.joined.items ≡ true) }
    ensures chain { row.new.chain ≡ row.old.chain }
    ensures holds { F.holds files.new ≡ F.holds files.old }
    ensures cause { HasCause File (F.faults files.old) (F.faults files.new) result }
{
    row.joined.clear();
    row.joined.reserve_exact(len as usize)?;
    if !join(files, source, row.chain.taken(), len, &mut row.joined)? {
        return Ok(false);
    }
    if row.joined.len() != len as usize {
        return Ok(false);
    }
    Ok(test.accepts(&row.joined))
}

/// The row that starts with a block, if one does.
fn row_at<A: Accepts, F: Files>(
    files: &mut F,
    test: &A,
    source: &Source,
    used: &Used,
    block: &Header,
    row: &mut RowBuffer,
) -> Result<Option<FoundRow>, ScanFault>
    requires block { IsHeader block.now.head.at source.now.end block.now }
    requires whole { HoldsWhole block.now source.now.kept }
    requires ready { IfTold (F.holds files.old) (IsReady source.now) }
    requires here { IfTold (F.holds files.old) (StandsThere source.now block.now) }
    ensures told { IfOk result (λ found. IfTold (F.holds files.old) (λ m.
        FindsRow (A.accepts_gives test.now) source.now.kept row.new.chain.taken row.new.joined.items
        (chain_of (read_blocks source.now m) block.now.head.at used.now) found)) }
    ensures held { IfOk result (λ found. IfSome found
        (HoldsRow (A.accepts_gives test.now) source.now row.new)) }
    ensures can { IfOk result (λ found. IfSome found (λ r. (found_at r ≡ block.now.head.at)
        × CanAdd used.now (found_blocks row.new.chain.taken r))) }
    ensures lies { IfOk result (λ found. IfSome found (LiesRow source.now row.new)) }
    ensures never { IfErr result (λ e. e ≡ Memory → first_by block.now used.now ≡ Link.More) }
    ensures holds { F.holds files.new ≡ F.holds files.old }
    ensures cause { HasCause File (F.faults files.old) (F.faults files.new) result }
{
    match first_link(block, used) {
        Link::Broken => Ok(None),
        Link::Last => {
            if !keeps_row(test, source, block) {
                return Ok(None);
            }
            Ok(Some(FoundRow::Kept(*block)))
        }
        Link::More => {
            if !chain_from(files, source, used, block, &mut row.chain)? {
                return Ok(None);
            }
            if !joins_row(files, test, source, block.head.rec_len, row)? {
                return Ok(None);
            }
            Ok(Some(FoundRow::Joined(block.head.at)))
        }
    }
}

/// Adds the blocks of a row that was found to the used ranges.
fn add_row(used: &mut Used, found: FoundRow, chain: &Chain) -> Result<(), AllocError>
    requires can { CanAdd used.old (found_blocks chain.now.taken found) }
    ensures ok { OnOk result (AddsBlocks used.old (found_blocks chain.now.taken found) used.new) }
    ensures err { OnErr result ((used.new ≡ used.old)
        × NeedsMemory used.old (found_blocks chain.now.taken found)) }
{
    match found {
        FoundRow::Kept(block) => used.add(&[(block.head.at, block.head.size)])?,
        FoundRow::Joined(_) => used.add(chain.taken())?,
    }
    Ok(())
}

/// Does what is done at one place, and answers what was found there. After a failure nothing is done.
fn step<A: Accepts, F: Files>(
    files: &mut F,
    rules: &Rules<A>,
    source: &mut Source,
    position: &mut Position,
    row: &mut RowBuffer,
) -> Result<Option<Found>, ScanFault>
    requires inside { position.old.place < source.old.end }
    requires ready { IfTold (F.holds files.old) (IsReady source.old) }
    ensures told { IfOk result (λ found. IfTold (F.holds files.old) (λ m.
        met_at rules.now.extend (A.accepts_gives rules.now.test) source.old position.old m
        ≡ items_at source.new row.new found
        ++ met_at rules.now.extend (A.accepts_gives rules.now.test) source.old position.new m)) }
    ensures held { IfOk result (λ found. IfSome found
        (HoldsItem (A.accepts_gives rules.now.test) source.new row.new)) }
    ensures lies { IfOk result (λ found. IfSome found (LiesItem source.new row.new)) }
    ensures rises { IfOk result (λ found. IfSome found
        (IsBetween position.old.place position.new.place)) }
    ensures within { OnOk result ((position.old.place ≤ position.new.place)
        × (position.new.place ≤ source.new.end)) }
    ensures nearer { OnOk result (source.new.end - position.new.place
        < source.old.end - position.old.place) }
    ensures room { position.old.place ≤ source.new.end }
    ensures err { OnErr result (position.new ≡ position.old) }
    ensures kept { IfOk result (KeepsUsed position.old.used position.new.used) }
    ensures short { IfOk result (λ found. IfTold (F.holds files.old) (λ m.
        MeetsShortAt (A.accepts_gives rules.now.test) source.old position.old m
        → FindsShortAt source.old m position.old found position.new)) }
    ensures never { IfErr result (λ e. e ≡ Memory → IfTold (F.holds files.old) (λ m.
        MeetsShortAt (A.accepts_gives rules.now.test) source.old position.old m → ⊥)) }
    ensures falls { MayFall position.old.place source.old source.new }
    ensures stays { StaysAt position.old.place source.old source.new }
    ensures reads { ReadsOn (F.holds files.old) source.old source.new }
    ensures holds { F.holds files.new ≡ F.holds files.old }
    ensures cause { HasCause File (F.faults files.old) (F.faults files.new) result }
{
    let at = position.place;
    let end = source.end();
    let used_end = position.used.end_from(at);
    if at < used_end {
        position.place = used_end.min(end);
        return Ok(None);
    }
    let Some(block) = source.slide_to(files, at, !rules.extend)? else {
        position.place = at + STEP.min(source.end() - at);
        return Ok(None);
    };
    if let Some(found) = row_at(files, &rules.test, source, &position.used, &block, row)? {
        add_row(&mut position.used, found, &row.chain)?;
        position.place = at + block.head.size as u64;
        return Ok(Some(Found::Row(found)));
    }
    let (skip, found) = past(&block, rules.extend);
    position.place = at + skip.min(source.end() - at);
    Ok(found)
}

// What was found, if it is wanted.
fn pick(found: Option<Found>, wanted: Wanted) -> Option<Found>
    ensures { result ≡ picked wanted found }
{
    match (found?, wanted) {
        (Found::Free(..), Wanted::Rows) => None,
        (found, _) => Some(found),
    }
}

/// Goes to the next thing that is wanted, over what is not. After a failure nothing is done.
pub(crate) fn advance<A: Accepts, F: Files>(
    files: &mut F,
    rules: &Rules<A>,
    source: &mut Source,
    position: &mut Position,
    row: &mut RowBuffer,
    wanted: Wanted,
) -> Result<Option<Found>, ScanFault>
    requires within { position.old.place ≤ source.old.end }
    requires ready { IfTold (F.holds files.old) (IsReady source.old) }
    ensures told { IfOk result (λ found. IfTold (F.holds files.old) (λ m.
        FindsItem source.new row.new wanted
        (met_at rules.now.extend (A.accepts_gives rules.now.test) source.old position.old m)
        (met_at rules.now.extend (A.accepts_gives rules.now.test) source.old position.new m)
        found)) }
    ensures meant { IfOk result (λ found. IfSome found (IsMeant wanted)) }
    ensures held { IfOk result (λ found. IfSome found
        (HoldsItem (A.accepts_gives rules.now.test) source.new row.new)) }
    ensures lies { IfOk result (λ found. IfSome found (LiesItem source.new row.new)) }
    ensures rises { IfOk result (Rises position.old.place position.new.place source.new.end) }
    ensures within { position.new.place ≤ source.new.end }
    ensures err { OnErr result (position.new ≡ position.old) }
    ensures some { OnErr result (position.old.place < source.old.end) }
    ensures short { IfOk result (λ found. IfTold (F.holds files.old) (λ m.
        MeetsShortAt (A.accepts_gives rules.now.test) source.old position.old m
        → FindsShortAt source.old m position.old found position.new)) }
    ensures never { IfErr result (λ e. e ≡ Memory → IfTold (F.holds files.old) (λ m.
        MeetsShortAt (A.accepts_gives rules.now.test) source.old position.old m → ⊥)) }
    ensures falls { EndStaysOr source.old source.new }
    ensures reads { ReadsOn (F.holds files.old) source.old source.new }
    ensures holds { F.holds files.new ≡ F.holds files.old }
    ensures cause { HasCause File (F.faults files.old) (F.faults files.new) result }
{
    let from = position.place;
    while position.place < source.end() {
        let found = match step(files, rules, source, position, row) {
            Ok(found) => found,
            Err(fault) => {
                position.place = from;
                return Err(fault);
            }
        };
        if let Some(found) = pick(found, wanted) {
            return Ok(Some(found));
        }
    }
    Ok(None)
}
