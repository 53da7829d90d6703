//! `Scan`: what stands in a data file of dynamic rows, one after the other.
//!
//! The file is read through a window that slides forward, and is stretched over a longer row in one block.
//! The bytes of a row in one block are a slice of it, `Lent` where the block is no longer than a window; those
//! of any other row are joined in a buffer of the scan. The model of a
//! `Scan` is where it stands, from which the definition of readable rows says what is left of the file.
ghost use Rattle.std.specs.Prelude.{◌≡◌, ◌≤◌, ◌∷◌, [], IfOk};
ghost use Rattle.std.specs.Borrow.{sem};
ghost use Rattle.std.specs.Io.BufRead.{Rests};
ghost use Rattle.myi_base.specs.Holding.{IfTold};
ghost use Rattle.myi_base.specs.Causes.{HasCause};
ghost use Rattle.myi_chain.specs.declared.piece.ScanFault.TheVariants.{File};
ghost use Rattle.myi_chain.specs.declared.piece.Wanted.TheVariants.{Items, Rows};
ghost use Rattle.myi_chain.specs.Pieces.{piece_bytes};
ghost use Rattle.myi_chain.specs.ScanModel.{LendsBlock};
ghost use Rattle.myi_chain.specs.Source.{IsKept, kept_bytes};

use crate::chain::Chain;
use crate::piece::{Accepts, Item, Piece, ScanFault, ScanSetup, Wanted};
use crate::source::Source;
use crate::step::{Found, FoundRow, Position, RowBuffer, Rules, advance};
use crate::used::Used;
use myi_frames::Header;
use myi_io::Files;
use myi_window::WINDOW;
use std::alloc::{AllocError, Global};
use std::marker::Model;

/// The blocks of the row that was answered last, each by its place and its size.
#[derive(Drop)]
struct Blocks {
    /// The block of a row in one block, for which no memory is taken.
    one: Option<(u64, u32)>,
    /// Those of any other row.
    several: Vec<(u64, u32)>,
}

impl Model for Blocks {
    ghost use Rattle.std.specs.Prelude.{ℕ, List};
    ghost use Rattle.myi_chain.specs.ScanModel.{one_or};

    ghost Value = { List (ℕ × ℕ) };

    ghost view = { λ b. one_or b.several.items b.one };
}

impl Blocks {
    ghost use Rattle.std.specs.Prelude.{◌≡◌, ◌∷◌, []};

    fn new(alloc: Global) -> Blocks
        ensures { result ≡ [] }
    {
        Blocks {
            one: None,
            several: Vec::new(alloc),
        }
    }

    fn set_one(&mut self, at: u64, size: u32)
        ensures { self.new ≡ (at, size) ∷ [] }
    {
        self.one = Some((at, size));
    }

    // Takes the blocks of a chain.
    fn take(&mut self, chain: &mut Chain)
        ensures { self.new ≡ chain.old.taken }
    {
        self.one = None;
        chain.move_into(&mut self.several);
    }

    fn as_slice(&self) -> &[(u64, u32)]
        ensures { result.now ≡ self.now }
    {
        if self.one.is_some() {
            return self.one.as_slice();
        }
        &self.several
    }
}

/// The bytes of a row in one block, which the window holds: lent where a window that is not stretched can.
fn piece_of<'w>(source: &'w Source, block: &Header) -> Piece<'w>
    requires { IsKept block.now source.now.kept }
    ensures bytes { piece_bytes result ≡ kept_bytes block.now source.now.kept }
    ensures form { LendsBlock result ((block.now.head.at, block.now.head.size) ∷ []) }
{
    let bytes = source.row_bytes(block);
    if block.head.size as usize <= WINDOW {
        return Piece::Lent(bytes);
    }
    Piece::Joined(bytes)
}

/// A scan of the rows and the deleted blocks of a data file.
pub struct Scan<A: Accepts> {
    rules: Rules<A>,
    source: Source,
    position: Position,
    row: RowBuffer,
    blocks: Blocks,
}

impl<A: Accepts + Drop> Drop for Scan<A> {
    fn drop(self) {
        let Scan {
            rules: _,
            source: _,
            position: _,
            row: _,
            blocks: _,
        } = self;
    }
}

impl<A: Accepts> Model for Scan<A> {
    ghost use Rattle.std.specs.Prelude.{◌≤◌};
    ghost use Rattle.myi_chain.specs.ScanModel.{Scanning};

    ghost Value = { Scanning A };

    ghost view = { λ s. record {
      name = s.source.name;
      test = s.rules.test;
      extend = s.rules.extend;
      end = s.source.end;
      place = s.position.place;
      used = s.position.used;
      blocks = s.blocks;
      kept = s.source.kept;
    } };

    ghost invariant = { λ s. s.position.place ≤ s.source.end };
}

impl<A: Accepts> Scan<A> {
    ghost use Rattle.std.specs.Prelude.{◌≡◌, Option, IfOk};
    ghost use Rattle.std.specs.Borrow.{sem};
    ghost use Rattle.std.specs.Io.BufRead.{Rests};
    ghost use Rattle.myi_base.specs.Holding.{IfTold};
    ghost use Rattle.myi_base.specs.Causes.{HasCause};
    ghost use Rattle.myi_chain.specs.declared.piece.ScanFault.TheVariants.{File};
    ghost use Rattle.myi_chain.specs.declared.piece.Wanted.TheVariants.{Items, Rows};
    ghost use Rattle.myi_chain.specs.ScanModel.{Scanning, fresh_scan, IsCurrent, Finds, After, as_items};
    ghost use Rattle.myi_chain.specs.contracts.scan.Scan.{the_row};

    /// A scan of the file of a name. Nothing is read yet; the memory of its window is taken. For want of
    /// memory the test is lost.
    pub fn new(
        alloc: Global,
        name: &str,
        accepts: A,
        setup: ScanSetup,
    ) -> Result<Scan<A>, AllocError>
    where
        A: Drop,
        ensures { IfOk result (λ scan. scan
            ≡ fresh_scan name.now accepts setup.extend setup.file_len) }
    {
        let source = Source::new(alloc, name, setup.file_len)?;
        Ok(Scan {
            rules: Rules {
                test: accepts,
                extend: setup.extend,
            },
            source,
            position: Position {
                place: 0,
                used: Used::new(alloc),
            },
            row: RowBuffer {
                chain: Chain::new(alloc),
                joined: Vec::new(alloc),
            },
            blocks: Blocks::new(alloc),
        })
    }

    /// The next row or deleted block, or the next row, and None where none is left. The bytes of a row pass
    /// the test. After an error the scan stands where it stood. Where the files tell what they hold: while
    /// only rows in one block of at most 131,072 bytes are met, one directly after the other from the
    /// file's start on, the answer is not Memory.
    pub fn next_wanted<F: Files>(
        &mut self,
        files: &mut F,
        wanted: Wanted,
    ) -> Result<Option<Item<'_>>, ScanFault>
        requires current { IfTold (F.holds files.old) (IsCurrent self.old) }
        ensures says { Finds A.accepts_gives wanted (F.holds files.old) self.old result }
        ensures holds { F.holds files.new ≡ F.holds files.old }
        ensures cause { HasCause File (F.faults files.old) (F.faults files.new) result }
        ensures* after { sem 𝓛 (Rests (the_row A.row A.Accepts) self.entry
            (After A.accepts_gives wanted (F.holds files.old) self.old result)) }
    {
        let Some(found) = advance(
            files,
            &self.rules,
            &mut self.source,
            &mut self.position,
            &mut self.row,
            wanted,
        )?
        else {
            return Ok(None);
        };
        match found {
            Found::Free(at, size) => Ok(Some(Item::Free { at, size })),
            Found::Row(row) => match row {
                FoundRow::Kept(block) => {
                    let at = block.head.at;
                    self.blocks.set_one(at, block.head.size);
                    Ok(Some(Item::Row(at, piece_of(&self.source, &block))))
                }
                FoundRow::Joined(at) => {
                    self.blocks.take(&mut self.row.chain);
                    Ok(Some(Item::Row(at, Piece::Joined(&self.row.joined))))
                }
            },
        }
    }

    /// The next row or deleted block, and None where none is left: `next_wanted` for items.
    pub fn next_item<F: Files>(&mut self, files: &mut F) -> Result<Option<Item<'_>>, ScanFault>
        requires current { IfTold (F.holds files.old) (IsCurrent self.old) }
        ensures says { Finds A.accepts_gives Items (F.holds files.old) self.old result }
        ensures holds { F.holds files.new ≡ F.holds files.old }
        ensures cause { HasCause File (F.faults files.old) (F.faults files.new) result }
        ensures* after { sem 𝓛 (Rests (the_row A.row A.Accepts) self.entry
            (After A.accepts_gives Items (F.holds files.old) self.old result)) }
    {
        self.next_wanted(files, Wanted::Items)
    }

    /// The next row with its position, and None where no row is left. Deleted blocks before it are
    /// passed: `next_wanted` for rows.
    pub fn next_row<F: Files>(
        &mut self,
        files: &mut F,
    ) -> Result<Option<(u64, Piece<'_>)>, ScanFault>
        requires current { IfTold (F.holds files.old) (IsCurrent self.old) }
        ensures says { Finds A.accepts_gives Rows (F.holds files.old) self.old (as_items result) }
        ensures holds { F.holds files.new ≡ F.holds files.old }
        ensures cause { HasCause File (F.faults files.old) (F.faults files.new) result }
        ensures* after { sem 𝓛 (Rests (the_row A.row A.Accepts) self.entry
            (After A.accepts_gives Rows (F.holds files.old) self.old (as_items result))) }
    {
        let Some(item) = self.next_wanted(files, Wanted::Rows)? else {
            return Ok(None);
        };
        match item {
            Item::Row(at, piece) => Ok(Some((at, piece))),
            Item::Free { .. } => unreachable!(),
        }
    }

    /// The blocks of the row that was answered last, each by its place and its size in bytes, in the
    /// order of its chain. The first stands at the row's position, and each ends in the file as far as it
    /// is scanned. Before the first row there are none.
    pub fn blocks(&self) -> &[(u64, u32)]
        ensures { result.now ≡ self.now.blocks }
    {
        self.blocks.as_slice()
    }
}
