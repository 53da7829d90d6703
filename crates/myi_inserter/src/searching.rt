//! Whether a row repeats a complete key of a row of the base, or of one that was put in this sharing.
ghost use Rattle.std.specs.Prelude.{◌≡◌, ◌≢◌, ◌<◌, ◌≤◌, ℕ, true, length, IfOk, IfErr};
ghost use Rattle.myi_base.specs.Causes.{HasCause};
ghost use Rattle.myi_defs.specs.Sound.{IsSound};
ghost use Rattle.myi_pack.specs.Packed.{Values};
ghost use Rattle.myi_keys.specs.Limits.{is_complete};
ghost use Rattle.myi_keycache.specs.Kept.{AllWritten};
ghost use Rattle.myi_keycache.specs.Caching.{pages_of};
ghost use Rattle.myi_data.specs.Keys.{IsKeyNumber, key_of};
ghost use Rattle.myi_rowkeys.specs.TableKeys.{is_unique};
ghost use Rattle.myi_tablestate.specs.Keyed.{holder};
ghost use Rattle.myi_keyedrows.specs.KeyedRows.{defs_of, HoldTable, IfHold, IsLeft};
ghost use Rattle.myi_inserter.specs.declared.fault.InsertFault.TheVariants.{File};
ghost use Rattle.myi_inserter.specs.Faults.{IsOfSearch, IsCutOff};
ghost use Rattle.myi_inserter.specs.UniqueKeys.{key_in};

use crate::fault::InsertFault;
use crate::inserter::TableInserter;
use crate::unique_key::UniqueKey;
use myi_defs::Defs;
use myi_io::Files;
use myi_keyedrows::KeyedRows;
use myi_ranges::{pointers_lead_to_rows, position_of};
use myi_tablestate::duplicates_are_found;

// The position of the row of a base that has a complete key in a unique key. The trees keep no unwritten page.
fn base_holder<F: Files>(
    files: &mut F,
    defs: &Defs,
    rows: &mut KeyedRows,
    key: &UniqueKey,
) -> Result<Option<u64>, InsertFault>
    requires sound { IsSound defs.now }
    requires defs { defs_of rows.old ≡ defs.now }
    requires number { IsKeyNumber defs.now key.now.number }
    requires each { length rows.old.trees.places ≡ length defs.now.keys }
    requires written { AllWritten (pages_of rows.old.trees.cache) }
    ensures held { IfOk result (λ at. IfHold (F.holds files.old) rows.old (λ m own base.
        (values : Values) → key.now ≡ key_in defs.now values key.now.number
        → is_unique defs.now key.now.number ≡ true → is_complete key.now.key ≡ true
        → at ≡ holder defs.now values key.now.number base.rows)) }
    ensures search { IfErr result IsOfSearch }
    ensures never { IfErr result (λ f. IfHold (F.holds files.old) rows.old (λ m own base.
        IsCutOff f)) }
    ensures still { IfHold (F.holds files.old) rows.old (λ m own base.
        HoldTable rows.new own base m) }
    ensures written { AllWritten (pages_of rows.new.trees.cache) }
    ensures left { IsLeft rows.old rows.new }
    ensures rows { rows.new.rows ≡ rows.old.rows }
    ensures name { rows.new.trees.cache.name ≡ rows.old.trees.cache.name }
    ensures holds { F.holds files.new ≡ F.holds files.old }
    ensures cause { HasCause File (F.faults files.old) (F.faults files.new) result }
{
    duplicates_are_found();
    pointers_lead_to_rows();
    let found = rows.trees.find(files, key.number - 1, &key.key)?;
    let Some(pointer) = found else {
        return Ok(None)
    };
    let end = rows.rows.counts().length;
    Ok(Some(position_of(defs, pointer, end)))
}

impl TableInserter {
    ghost use Rattle.std.specs.Prelude.{◌≡◌, ℕ, List, [], length, map, Some, None, IfOk, IfErr, OnOk, OnErr};
    ghost use Rattle.std.specs.List.{AllByRecursion};
    ghost use Rattle.myi_base.specs.Causes.{HasCause};
    ghost use Rattle.myi_pack.specs.Packed.{Values};
    ghost use Rattle.myi_data.specs.Keys.{IsKeyNumber};
    ghost use Rattle.myi_rowkeys.specs.TableKeys.{is_unique, key_numbers};
    ghost use Rattle.myi_keys.specs.Limits.{is_complete};
    ghost use Rattle.myi_tablestate.specs.Keyed.{holder, first_holder};
    ghost use Rattle.myi_keyedrows.specs.KeyedRows.{HoldTable, IfHold};
    ghost use Rattle.myi_snapshots.specs.Appended.{with_rows};
    ghost use Rattle.myi_inserter.specs.declared.fault.InsertFault.TheVariants.{File};
    ghost use Rattle.myi_inserter.specs.declared.unique_key.UniqueKey.{UniqueKey};
    ghost use Rattle.myi_inserter.specs.Faults.{IsOfSearch, IsCutOff, IsHeldBy, IsOfSearching};
    ghost use Rattle.myi_inserter.specs.UniqueKeys.{key_in, unique_keys, is_same, FindsNone};
    ghost use Rattle.indexmap.specs.IndexMap.{get};
    ghost use Rattle.myi_inserter.specs.Inserter.{IsInserter, IsSearched};

    // The position of the first row, of the base and then of those that were put, that has a complete key in a unique key.
    fn holder<F: Files>(
        &mut self,
        files: &mut F,
        key: &UniqueKey,
    ) -> Result<Option<u64>, InsertFault>
        requires ready { (rows : List Values) × IsInserter self.old rows }
        requires number { IsKeyNumber self.old.defs key.now.number }
        ensures held { IfOk result (λ at. IfHold (F.holds files.old) self.old.rows (λ m own base.
            (rows : List Values) → IsInserter self.old rows
            → (values : Values) → key.now ≡ key_in self.old.defs values key.now.number
            → is_unique self.old.defs key.now.number ≡ true → is_complete key.now.key ≡ true
            → at ≡ holder self.old.defs values key.now.number
            (with_rows self.old.defs base rows).rows)) }
        ensures absent { IfOk result (λ at. at ≡ None → get is_same self.old.put key.now ≡ None) }
        ensures search { IfErr result IsOfSearch }
        ensures never { IfErr result (λ f. IfHold (F.holds files.old) self.old.rows
            (λ m own base. IsCutOff f)) }
        ensures searched { IsSearched self.old self.new }
        ensures still { IfHold (F.holds files.old) self.old.rows (λ m own base.
            HoldTable self.new.rows own base m) }
        ensures holds { F.holds files.new ≡ F.holds files.old }
        ensures cause { HasCause File (F.faults files.old) (F.faults files.new) result }
    {
        let held = base_holder(files, &self.defs, &mut self.rows, key)?;
        if held.is_some() {
            return Ok(held);
        }
        Ok(self.put.get(key).copied())
    }

    /// Refuses a row with these complete keys in unique keys where another row, of the base or of those that were put, has
    /// one of them.
    pub(crate) fn refuse_duplicate<F: Files>(
        &mut self,
        files: &mut F,
        keys: &[UniqueKey],
    ) -> Result<(), InsertFault>
        requires ready { (rows : List Values) × IsInserter self.old rows }
        requires keys { (row : Values) × (keys.now ≡ unique_keys self.old.defs row) }
        ensures none { OnOk result (IfHold (F.holds files.old) self.old.rows (λ m own base.
            (rows : List Values) → IsInserter self.old rows
            → (row : Values) → keys.now ≡ unique_keys self.old.defs row
            → first_holder self.old.defs row (with_rows self.old.defs base rows).rows
            (key_numbers self.old.defs) ≡ None)) }
        ensures held { IfErr result (λ f. IfHold (F.holds files.old) self.old.rows (λ m own base.
            (rows : List Values) → IsInserter self.old rows
            → (row : Values) → keys.now ≡ unique_keys self.old.defs row
            → IsHeldBy (first_holder self.old.defs row (with_rows self.old.defs base rows).rows
            (key_numbers self.old.defs)) f)) }
        ensures absent { OnOk result (FindsNone self.old.put keys.now) }
        ensures search { IfErr result IsOfSearching }
        ensures searched { IsSearched self.old self.new }
        ensures still { IfHold (F.holds files.old) self.old.rows (λ m own base.
            HoldTable self.new.rows own base m) }
        ensures holds { F.holds files.new ≡ F.holds files.old }
        ensures cause { HasCause File (F.faults files.old) (F.faults files.new) result }
    {
        duplicates_are_found();
        for i in 0..keys.len() {
            if let Some(at) = self.holder(files, &keys[i])? {
                let key = keys[i].number as u64;
                return Err(InsertFault::Duplicate { key, at });
            }
        }
        Ok(())
    }
}
