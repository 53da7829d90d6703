//! Rows that have the complete key of another row in a unique key.
ghost use Rattle.std.specs.Prelude.{◌≡◌, ◌+◌, ◌<◌, ◌≤◌, ℕ, true, length, option_map, IfOk, IfErr, IfSome, IsTrue};
ghost use Rattle.myi_base.specs.Holding.{Told, OthersStay};
ghost use Rattle.myi_base.specs.Causes.{HasCause};
ghost use Rattle.myi_defs.specs.Sound.{IsSound};
ghost use Rattle.myi_pack.specs.Packed.{Values};
ghost use Rattle.myi_btree.specs.declared.fault.TreeFault.TheVariants.{File};
ghost use Rattle.myi_btree.specs.Faults.{DamagedAt};
ghost use Rattle.myi_search.specs.Counting.{CountsOn};
ghost use Rattle.myi_keys.specs.Limits.{is_complete};
ghost use Rattle.myi_data.specs.Keys.{key_of};
ghost use Rattle.myi_rowkeys.specs.TableKeys.{is_unique};
ghost use Rattle.myi_state.specs.State.{TableState};
ghost use Rattle.myi_keytrees.specs.Standing.{list_of, IfStand, StillStand, CanSearch};
ghost use Rattle.myi_tablestate.specs.Keyed.{IsTable, holder};
ghost use Rattle.myi_tablestate.specs.Listed.{listed, position};
ghost use Rattle.myi_rowtrees.specs.RowLists.{lists_of, row_pairs};
ghost use Rattle.myi_rowtrees.specs.Duplicates.{others, another, IsFirstHeld, IsUniqueKey, MayRepeat};

use myi_btree::TreeFault;
use myi_defs::Defs;
use myi_io::Files;
use myi_keylist::Pair;
use myi_keys::is_complete_code;
use myi_keytrees::{KeyTrees, calls_follow};
use myi_tablestate::duplicates_are_found;

/// A unique key, by its number from 1, and the pointer of a row.
#[derive(Clone, Copy, Debug, PartialEq, Eq)]
pub struct Duplicate {
    pub key: u64,
    pub row: u64,
}

// The pointer of a row, where it is not the given one.
fn another(own: Option<u64>, row: Option<u64>) -> Option<u64>
    ensures { result ≡ another own row }
{
    let Some(found) = row else { return None };
    let Some(given) = own else { return row };
    if found == given {
        return None;
    }
    row
}

// The least row that has the complete key of a pair in the key with index `i`, if that is unique, where it is not the
// row whose pointer is given.
fn other_row<F: Files>(
    files: &mut F,
    trees: &mut KeyTrees,
    defs: &Defs,
    i: usize,
    pair: &Pair,
    own: Option<u64>,
) -> Result<Option<u64>, TreeFault>
    requires sound { IsSound defs.now }
    requires key { i < length defs.now.keys }
    requires tree { i < length trees.old.places }
    requires kept { CanSearch F.writable (F.holds files.old) trees.old }
    ensures held { IfOk result (λ row. IfStand (F.holds files.old) trees.old (λ m bytes lists.
        (s : TableState) (values : Values) → IsTable defs.now s
        → list_of lists i ≡ listed defs.now (i + 1) s.rows
        → pair.now.key ≡ key_of defs.now (i + 1) values → option_map (position defs.now) row
        ≡ holder defs.now values (i + 1) (others defs.now own s.rows))) }
    ensures unique { IfOk result (λ row. IfSome row (λ at. is_unique defs.now (i + 1) ≡ true)) }
    ensures whole { IfOk result (λ row. IfSome row (λ at. is_complete pair.now.key ≡ true)) }
    ensures stand { StillStand (F.holds files.old) (F.holds files.new) trees.old trees.new }
    ensures never { IfErr result (DamagedAt (λ at.
        IfStand (F.holds files.old) trees.old (λ m bytes lists. ⊥))) }
    ensures places { trees.new.places ≡ trees.old.places }
    ensures room { trees.new.room ≡ trees.old.room }
    ensures search { IsTrue F.writable → CanSearch F.writable (F.holds files.new) trees.new }
    ensures others { Told (F.holds files.old) (F.holds files.new)
        (OthersStay trees.old.cache.name) }
    ensures name { trees.new.cache.name ≡ trees.old.cache.name }
    ensures counted { CountsOn trees.old.cache trees.new.cache }
    ensures cause { HasCause File (F.faults files.old) (F.faults files.new) result }
    ensures reads { F.reads files.old ≤ F.reads files.new }
{
    duplicates_are_found();
    let unique = defs.keys.as_slice()[i].unique;
    if !unique || !is_complete_code(pair.key.code()) {
        return Ok(None);
    }
    let row = trees.find(files, i, &pair.key)?;
    Ok(another(own, row))
}

/// The first unique key in which another row of the table has the complete key of a row with these pairs, and the
/// pointer of the row that has it. Of a row that is in the table its own pointer is given. Where the trees stand for
/// the lists of a table they do so after each answer.
pub fn first_duplicate<F: Files>(
    files: &mut F,
    trees: &mut KeyTrees,
    defs: &Defs,
    pairs: &[Pair],
    own: Option<u64>,
) -> Result<Option<Duplicate>, TreeFault>
    requires writable { IsTrue F.writable }
    requires sound { IsSound defs.now }
    requires each { length pairs.now ≡ length defs.now.keys }
    requires trees { length pairs.now ≡ length trees.old.places }
    requires kept { CanSearch F.writable (F.holds files.old) trees.old }
    ensures first { IfOk result (λ found. IfStand (F.holds files.old) trees.old (λ m bytes lists.
        (s : TableState) (values : Values) (pointer : ℕ) → IsTable defs.now s
        → lists ≡ lists_of defs.now s.rows → pairs.now ≡ row_pairs defs.now values pointer
        → IsFirstHeld defs.now values (others defs.now own s.rows) found)) }
    ensures unique { IfOk result (λ found. IfSome found (λ d. IsUniqueKey defs.now d.key)) }
    ensures named { IfOk result (λ found. IfSome found (λ d. (values : Values) (pointer : ℕ)
        → pairs.now ≡ row_pairs defs.now values pointer → MayRepeat defs.now values d.key)) }
    ensures stand { StillStand (F.holds files.old) (F.holds files.new) trees.old trees.new }
    ensures never { IfErr result (DamagedAt (λ at.
        IfStand (F.holds files.old) trees.old (λ m bytes lists. ⊥))) }
    ensures places { trees.new.places ≡ trees.old.places }
    ensures room { trees.new.room ≡ trees.old.room }
    ensures search { CanSearch F.writable (F.holds files.new) trees.new }
    ensures others { Told (F.holds files.old) (F.holds files.new)
        (OthersStay trees.old.cache.name) }
    ensures name { trees.new.cache.name ≡ trees.old.cache.name }
    ensures counted { CountsOn trees.old.cache trees.new.cache }
    ensures cause { HasCause File (F.faults files.old) (F.faults files.new) result }
    ensures reads { F.reads files.old ≤ F.reads files.new }
{
    calls_follow();
    for i in 0..pairs.len() {
        if let Some(row) = other_row(files, trees, defs, i, &pairs[i], own)? {
            let key = i as u64 + 1;
            return Ok(Some(Duplicate { key, row }));
        }
    }
    Ok(None)
}
