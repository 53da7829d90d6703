//! Writing what a table has put, and closing it.
ghost use Rattle.std.specs.Prelude.{◌≡◌, IfOk, IfErr};
ghost use Rattle.myi_header.specs.StateOf.{IsPlace};
ghost use Rattle.myi_table.specs.declared.fault.ChangeFault.TheVariants.{File, Memory};

use crate::fault::ChangeFault;
use crate::table::Table;
use myi_base::Sequence;
use myi_header::{NOT_ANALYZED, NOT_SORTED_PAGES, State, print_state};
use myi_io::Files;
use myi_keyedrows::closed_files_stand;
use myi_keytrees::written_trees_stand_in_the_file;

/// The changed bit that says that the table was changed.
const WAS_CHANGED: u8 = 1;

/// The changed bit that says that the pages of its keys are not packed as tightly as they could be.
const NOT_OPTIMIZED_KEYS: u8 = 16;

/// The changed bits that a change sets.
const CHANGED: u8 = WAS_CHANGED | NOT_ANALYZED | NOT_OPTIMIZED_KEYS | NOT_SORTED_PAGES;

// A place that a pointer of eight bytes can have. The greatest number stands for none; only files that tell nothing
// have a page or a deleted block there.
fn checked(place: Option<u64>) -> Result<Option<u64>, ChangeFault>
    ensures same { IfOk result (λ p. p ≡ place) }
    ensures place { IfOk result (λ p. IsPlace p) }
    ensures memory { IfErr result (λ f. f ≡ Memory) }
{
    if place == Some(u64::MAX) {
        return Err(ChangeFault::Memory);
    }
    Ok(place)
}

impl Table {
    ghost use Rattle.myi_table.specs.declared.fault.Cause.{Cause};
    ghost use Rattle.std.specs.Prelude.{None, Some, map, All, OnOk, IsTrue, if◌then◌else◌};
    ghost use Rattle.myi_base.specs.Holding.{IfTold, Told};
    ghost use Rattle.myi_base.specs.Causes.{HasCause};
    ghost use Rattle.myi_keycache.specs.Kept.{AllWritten};
    ghost use Rattle.myi_keycache.specs.Caching.{pages_of};
    ghost use Rattle.myi_btree.specs.declared.place.Place.{Place};
    ghost use Rattle.myi_search.specs.Counting.{CountsOn};
    ghost use Rattle.myi_keyedrows.specs.KeyedRows.{IsLeft};
    ghost use Rattle.myi_table.specs.Faults.{CutsOff};
    ghost use Rattle.myi_table.specs.Table.{IsKept, IfHolds, StillHolds, IsSame, KeepsRows, ChangesItsOwn};
    ghost use Rattle.myi_table.specs.Closing.{changed_bits, closing_state, HasState, TreesStand, IsClosed};

    /// Writes all pages that were put, so that the tree of each key stands in the index file, at its `place`. The table
    /// stands for the same state afterwards, also after a refusal, and is not broken by it. The data file stays.
    pub fn flush<F: Files>(&mut self, files: &mut F) -> Result<(), ChangeFault>
        requires writable { IsTrue F.writable }
        requires whole { self.old.broken ≡ None }
        ensures written { OnOk result (AllWritten (pages_of self.new.rows.trees.cache)) }
        ensures stand { OnOk result (IfHolds (F.holds files.old) self.old (λ m s.
            IfTold (F.holds files.new) (TreesStand self.new s))) }
        ensures still { StillHolds (F.holds files.old) (F.holds files.new) self.old self.new }
        ensures same { IsSame self.old self.new }
        ensures whole { self.new.broken ≡ None }
        ensures changed { self.new.changed ≡ self.old.changed }
        ensures left { IsLeft self.old.rows self.new.rows }
        ensures cut { IfErr result CutsOff }
        ensures others { ChangesItsOwn (F.holds files.old) (F.holds files.new) self.old }
        ensures rows { Told (F.holds files.old) (F.holds files.new)
            (KeepsRows self.old.name) }
        ensures counted { CountsOn self.old.rows.trees.cache self.new.rows.trees.cache }
        ensures cause { HasCause File (F.faults files.old) (F.faults files.new) result }
    {
        written_trees_stand_in_the_file();
        self.rows.trees.flush(files)?;
        Ok(())
    }

    /// Writes all pages, and then the header with the numbers of the table. Where the table stands for a state the two
    /// files stand for it then, and are a clean pair. The data file stays; after a refusal the index file is what the calls
    /// left.
    pub fn close<F: Files>(self, files: &mut F) -> Result<(), ChangeFault>
        requires writable { IsTrue F.writable }
        requires kept { IsKept (F.holds files.old) self }
        ensures closed { OnOk result (IfHolds (F.holds files.old) self (λ m s.
            IfTold (F.holds files.new) (IsClosed self s))) }
        ensures whole { OnOk result (self.broken ≡ None) }
        ensures first { IfErr result (λ f. (by : Cause) → self.broken ≡ Some by
            → (f ≡ ChangeFault.Broken by) × (F.holds files.new ≡ F.holds files.old)) }
        ensures refused { IfErr result (λ f. self.broken ≡ None → CutsOff f) }
        ensures others { ChangesItsOwn (F.holds files.old) (F.holds files.new) self }
        ensures rows { Told (F.holds files.old) (F.holds files.new) (KeepsRows self.name) }
        ensures cause { HasCause File (F.faults files.old) (F.faults files.new) result }
    {
        closed_files_stand();
        let mut table = self;
        table.refuse_broken()?;
        table.flush(files)?;
        let end = table.rows.trees.end();
        let header = table.header()?;
        let index = table.index.as_str();
        files.cut(index, end)?;
        files.write_at(index, 0, &header)?;
        Ok(())
    }

    // The header with the numbers of the table.
    fn header(&self) -> Result<Vec<u8>, ChangeFault>
        ensures header { IfOk result (λ h. HasState self.now h.items) }
        ensures memory { IfErr result (λ f. f ≡ Memory) }
    {
        let state = self.state()?;
        let header = print_state(self.alloc, &self.defs, &state)?;
        Ok(header)
    }

    // The state that was read, with the numbers of the table.
    fn state(&self) -> Result<State, ChangeFault>
        ensures state { IfOk result (λ state. state ≡ closing_state self.now) }
        ensures roots { IfOk result (λ state. All IsPlace state.roots) }
        ensures deleted { IfOk result (λ state. IsPlace state.dellink) }
        ensures memory { IfErr result (λ f. f ≡ Memory) }
    {
        let counts = self.rows.rows.counts();
        let roots = self.roots()?;
        Ok(State {
            open_count: self.header.open_count,
            changed: self.changed_bits(),
            sortkey: self.header.sortkey,
            records: counts.records,
            del: counts.del,
            split: counts.split,
            dellink: checked(counts.dellink)?,
            key_file_length: self.rows.trees.end(),
            data_file_length: counts.length,
            empty: counts.empty,
            key_empty: self.lost.saturating_add(self.rows.trees.room_bytes()),
            auto_increment: self.header.auto_increment,
            roots: Sequence::new(roots),
            key_map: self.header.key_map,
            recover_time: self.header.recover_time,
            rest: self.header.rest.copy()?,
        })
    }

    // What is said of a table that was changed, or was not.
    fn changed_bits(&self) -> u8
        ensures { result
            ≡ if self.now.changed then changed_bits self.now.header.changed
            else self.now.header.changed }
    {
        if self.changed {
            return self.header.changed | CHANGED;
        }
        self.header.changed
    }

    // The roots of the trees.
    fn roots(&self) -> Result<Vec<Option<u64>>, ChangeFault>
        ensures roots { IfOk result (λ roots. roots.items
            ≡ map (λ (p : Place). p.root) self.now.rows.trees.places) }
        ensures places { IfOk result (λ roots. All IsPlace roots.items) }
        ensures memory { IfErr result (λ f. f ≡ Memory) }
    {
        let trees = &self.rows.trees;
        let mut roots = Vec::with_capacity(self.alloc, trees.count())?;
        for key in 0..trees.count() {
            roots.push(checked(trees.place(key).root)?)?;
        }
        Ok(roots)
    }
}
