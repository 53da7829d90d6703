//! `NewFiles`: the rows of the new data file, and the trees of the new index file, as far as they are made.
ghost use Rattle.std.specs.Prelude.{◌≡◌, ◌≢◌, map, IfOk, IfErr};
ghost use Rattle.std.specs.List.{AllByRecursion};
ghost use Rattle.myi_btree.specs.declared.place.Place.{Place};
ghost use Rattle.myi_repair.specs.declared.fault.RepairFault.TheVariants as repair;
ghost use Rattle.myi_saferepair.specs.declared.fault.Stop.TheVariants.{Cut};
ghost use Rattle.myi_saferepair.specs.Stops.{TellsOfNone};
ghost use Rattle.myi_saferepair.specs.Filling.{RootFits};

use crate::fault::Stop;
use crate::repeats::repeats_any;
use crate::row_pairs::RowPairs;
use myi_defs::Defs;
use myi_header::first_page;
use myi_io::Files;
use myi_keycache::CacheSetup;
use myi_keytrees::KeyTrees;
use myi_repair::{NewRows, NextRow};
use myi_rowtrees::{places_of, pointer_of, put_row};
use std::alloc::Global;

/// How the pages of the trees are kept.
const SETUP: CacheSetup = CacheSetup {
    blocks: 1_024,
    division: 100,
    age: 300,
};

/// The rows that were written, and the trees of their keys.
pub(crate) struct NewFiles {
    pub(crate) rows: NewRows,
    pub(crate) trees: KeyTrees,
}

impl Drop for NewFiles {
    fn drop(self) {
        let NewFiles { rows: _, trees: _ } = self;
    }
}

impl NewFiles {
    ghost use Rattle.std.specs.Prelude.{◌≡◌, ◌≢◌, length, map, List, IfOk, IfErr, OnOk, IsTrue};
    ghost use Rattle.std.specs.List.{AllByRecursion};
    ghost use Rattle.myi_base.specs.Holding.{IfTold, Told, OthersStay};
    ghost use Rattle.myi_base.specs.Causes.{HasCause};
    ghost use Rattle.myi_defs.specs.ReadDefs.{AreDefs};
    ghost use Rattle.myi_defs.specs.Sound.{IsSound};
    ghost use Rattle.myi_keycache.specs.Kept.{AllWritten};
    ghost use Rattle.myi_keycache.specs.Caching.{pages_of};
    ghost use Rattle.myi_btree.specs.declared.place.Place.{Place};
    ghost use Rattle.myi_data.specs.Stored.{SizedRow};
    ghost use Rattle.myi_keytrees.specs.InFile.{bytes_of_free};
    ghost use Rattle.myi_keytrees.specs.Standing.{StillStand};
    ghost use Rattle.myi_repair.specs.declared.fault.RepairFault.TheVariants as repair;
    ghost use Rattle.myi_repair.specs.Keeping.{IsPrepared, HasWritten};
    ghost use Rattle.myi_repair.specs.Gathering.{all_chosen};
    ghost use Rattle.myi_saferepair.specs.declared.fault.Stop.TheVariants.{Cut};
    ghost use Rattle.myi_saferepair.specs.Stops.{TellsOfNone};
    ghost use Rattle.myi_saferepair.specs.Filling.{IsFit, IsFresh, RootFits, Takes, StaysWritten, HoldsSome, WritesBoth};

    /// No row yet, and a tree without a pair for each key, whose pages will stand in the file of this name.
    pub(crate) fn new(alloc: Global, index: &str, defs: &Defs) -> Result<NewFiles, Stop>
        requires { IsSound defs.now }
        ensures fresh { IfOk result (IsFresh defs.now index.now) }
        ensures cut { IfErr result TellsOfNone }
        ensures memory { IfErr result (λ s. s ≢ Cut repair.File) }
    {
        let mut roots = Vec::new(alloc);
        roots.resize(defs.keys.as_slice().len(), None)?;
        let places = places_of(alloc, defs, roots.as_slice())?;
        let trees = KeyTrees::open(alloc, index, SETUP, places, first_page(defs))?;
        Ok(NewFiles {
            rows: NewRows::new(alloc),
            trees,
        })
    }

    /// Writes a row at the end of the file of that name and puts its pairs into the trees, but where it repeats the
    /// unique key of a row that was written. Answers whether it was written. `pairs` takes the row's pairs.
    pub(crate) fn take<F: Files>(
        &mut self,
        files: &mut F,
        file: &str,
        defs: &Defs,
        next: &NextRow,
        pairs: &mut RowPairs,
    ) -> Result<bool, Stop>
        requires writable { IsTrue F.writable }
        requires defs { AreDefs defs.now }
        requires row { (row : SizedRow) × IsPrepared defs.now row next.now }
        requires each { length pairs.old ≡ length defs.now.keys }
        requires written { (rows : List SizedRow) × HasWritten defs.now all_chosen rows self.old.rows }
        requires fit { IsFit defs.now self.old }
        requires apart { self.old.trees.cache.name ≢ file.now }
        requires kept { IfTold (F.holds files.old) (HoldsSome defs.now self.old) }
        ensures takes { IfOk result (λ keeps. Told (F.holds files.old) (F.holds files.new)
            (Takes defs.now file.now next.now keeps self.old self.new)) }
        ensures written { IfOk result (λ keeps.
            StaysWritten defs.now next.now keeps self.old self.new) }
        ensures fit { OnOk result (IsFit defs.now self.new) }
        ensures each { OnOk result (length pairs.new ≡ length defs.now.keys) }
        ensures name { self.new.trees.cache.name ≡ self.old.trees.cache.name }
        ensures others { Told (F.holds files.old) (F.holds files.new)
            (WritesBoth file.now self.old.trees.cache.name) }
        ensures cut { IfErr result TellsOfNone }
        ensures cause { HasCause (Cut repair.File) (F.faults files.old) (F.faults files.new) result }
    {
        let pointer = pointer_of(defs, self.rows.end);
        pairs.read(defs, next, pointer)?;
        let pairs = pairs.as_slice();
        if repeats_any(files, &mut self.trees, defs, pairs)? {
            return Ok(false);
        }
        self.rows.put(files, file, defs, next)?;
        put_row(files, &mut self.trees, pairs)?;
        Ok(true)
    }

    /// Writes the pages that were put, and answers the roots of the trees.
    pub(crate) fn write_trees<F: Files>(
        &mut self,
        alloc: Global,
        files: &mut F,
    ) -> Result<Vec<Option<u64>>, Stop>
        requires writable { IsTrue F.writable }
        ensures roots { IfOk result (λ roots.
            roots.items ≡ map (λ (p : Place). p.root) self.new.trees.places) }
        ensures fits { IfOk result (λ roots. AllByRecursion RootFits roots.items) }
        ensures written { OnOk result (AllWritten (pages_of self.new.trees.cache)) }
        ensures full { OnOk result (bytes_of_free self.new.trees.room.free ≡ 0) }
        ensures stand { StillStand (F.holds files.old) (F.holds files.new)
            self.old.trees self.new.trees }
        ensures places { self.new.trees.places ≡ self.old.trees.places }
        ensures room { self.new.trees.room ≡ self.old.trees.room }
        ensures name { self.new.trees.cache.name ≡ self.old.trees.cache.name }
        ensures rows { self.new.rows ≡ self.old.rows }
        ensures others { Told (F.holds files.old) (F.holds files.new)
            (OthersStay self.old.trees.cache.name) }
        ensures cut { IfErr result TellsOfNone }
        ensures cause { HasCause (Cut repair.File) (F.faults files.old) (F.faults files.new) result }
    {
        self.trees.flush(files)?;
        // Trees that only grow leave no page free.
        if self.trees.room_bytes() != 0 {
            return Err(Stop::Damaged);
        }
        roots_of(alloc, &self.trees)
    }
}

// The roots of the trees.
fn roots_of(alloc: Global, trees: &KeyTrees) -> Result<Vec<Option<u64>>, Stop>
    ensures roots { IfOk result (λ roots.
        roots.items ≡ map (λ (p : Place). p.root) trees.now.places) }
    ensures fits { IfOk result (λ roots. AllByRecursion RootFits roots.items) }
    ensures cut { IfErr result TellsOfNone }
    ensures memory { IfErr result (λ s. s ≢ Cut repair.File) }
{
    let mut roots = Vec::with_capacity(alloc, trees.count())?;
    for key in 0..trees.count() {
        let root = storable(trees.place(key).root)?;
        roots.push(root)?;
    }
    Ok(roots)
}

// A root that can be stored. The greatest number stands for none; only files that tell nothing have a page there.
fn storable(root: Option<u64>) -> Result<Option<u64>, Stop>
    ensures same { IfOk result (λ r. r ≡ root) }
    ensures fits { IfOk result RootFits }
    ensures damaged { IfErr result (λ s. s ≡ Stop.Damaged) }
{
    let Some(at) = root else {
        return Ok(None);
    };
    if at == u64::MAX {
        return Err(Stop::Damaged);
    }
    Ok(Some(at))
}
