//! Laws over an object and the two files of a table, when it is opened on them and when they are closed. Each is
//! the contract of a function that does nothing, so that it is proved with the crate and stands for the crates above.
ghost use Rattle.std.specs.Prelude.{◌≡◌, ◌<◌, ◌^◌, ℕ, true, List, map, Option, Some, Ok};
ghost use Rattle.std.specs.List.{AllByRecursion};
ghost use Rattle.myi_base.specs.Holding.{Holding, bytes_of};
ghost use Rattle.myi_defs.specs.declared.types.Defs.{Defs};
ghost use Rattle.myi_defs.specs.Sound.{IsSound};
ghost use Rattle.myi_defs.specs.ReadDefs.{AreDefs};
ghost use Rattle.myi_defs.specs.Addressable.{is_addressable};
ghost use Rattle.myi_header.specs.StateOf.{IsPlace, state_of};
ghost use Rattle.myi_keycache.specs.Kept.{AllWritten};
ghost use Rattle.myi_keycache.specs.Caching.{pages_of, IsCurrent};
ghost use Rattle.myi_btree.specs.declared.place.Place.{Place};
ghost use Rattle.myi_state.specs.State.{TableState};
ghost use Rattle.myi_state.specs.Changes.{Change};
ghost use Rattle.myi_tablestate.specs.Keyed.{keyed_step};
ghost use Rattle.myi_tablestate.specs.Standing.{StandForTable};
ghost use Rattle.myi_keyedrows.specs.declared.keyed_rows.KeyedRows.{KeyedRows};
ghost use Rattle.myi_keyedrows.specs.KeyedRows.{defs_of, HoldThen, IsSameTable};
ghost use Rattle.myi_keyedrows.specs.Files.{AreOfKeys, lost_bytes, IsOpened, HoldFiles, IsHeaderOf, closed_index, defs_with};

use myi_keytrees::walks_stay_between;
use myi_rowtrees::trees_of_pairs_are_trees;
use myi_tablestate::key_lists_are_in_order;

/// Where two files stand for a table, an object that was just opened on them stands for it, and so that they can be
/// closed.
pub fn opened_files_stand()
    ensures { (k : KeyedRows) (m : Holding) (s : TableState) (b x : List ℕ) → IsOpened k x
        → IsCurrent k.trees.cache m → m k.rows.file.name ≡ Some b
        → m k.trees.cache.name ≡ Some x → StandForTable (defs_of k) s b x
        → (own : ℕ → ℕ)
        × HoldFiles k (lost_bytes (defs_of k) (state_of (defs_of k) x)) own s m }
{
    key_lists_are_in_order();
    trees_of_pairs_are_trees();
}

/// Where an object stands for a table and all pages are written, the two files stand for it once the index file is cut
/// where the room begins and a header with the numbers of the table is written. No root and no first deleted block is
/// the place that stands for none.
pub fn closed_files_stand()
    ensures places { (k : KeyedRows) (lost : ℕ) (own : ℕ → ℕ) (s : TableState) (m : Holding)
        → IsSound (defs_of k) → HoldFiles k lost own s m → AllWritten (pages_of k.trees.cache)
        → k.trees.room.end < 2 ^ 64
        → AllByRecursion IsPlace (map (λ (p : Place). p.root) k.trees.places)
        × IsPlace k.rows.file.counts.dellink }
    ensures stand { (k : KeyedRows) (lost : ℕ) (own : ℕ → ℕ) (s : TableState) (m : Holding) (h : List ℕ)
        → AreDefs (defs_of k) → AreOfKeys k → HoldFiles k lost own s m
        → AllWritten (pages_of k.trees.cache) → IsHeaderOf k lost h
        → StandForTable (defs_with (defs_of k) (closed_index k h m)) s
        (bytes_of k.rows.file.name m) (closed_index k h m) }
{
    trees_of_pairs_are_trees();
    walks_stay_between();
}

/// A step that is accepted leaves a data file within reach, and an object that stands for a table after a call does so
/// that its files can be closed, with as many lost bytes.
pub fn calls_keep_files()
    ensures reached { (d : Defs) (s : TableState) (c : Change) (at : ℕ)
        → (keyed_step d s c).reply ≡ Ok at
        → is_addressable d (keyed_step d s c).state.space.end ≡ true }
    ensures stand { (k new : KeyedRows) (lost : ℕ) (own : ℕ → ℕ) (s t : TableState) (m : Holding)
        (next : Option Holding) → HoldFiles k lost own s m → IsSameTable k new
        → is_addressable (defs_of k) t.space.end ≡ true → (then : HoldThen k m own next new t)
        → HoldFiles new lost own t then.now }
{}
