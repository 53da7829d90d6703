//! Rows that come, go and get other values.
ghost use Rattle.std.specs.Prelude.{◌≡◌, ◌≤◌, ◌<◌, ◌^◌, false, true, List, length, take, slice_set, OnOk, IfErr, IsTrue, HoldsAt};
ghost use Rattle.std.specs.List.{AllByRecursion};
ghost use Rattle.myi_base.specs.Holding.{Told, OthersStay};
ghost use Rattle.myi_base.specs.Causes.{HasCause};
ghost use Rattle.myi_keylist.specs.declared.pair.Pair.{Pair};
ghost use Rattle.myi_btree.specs.declared.fault.TreeFault.TheVariants.{File};
ghost use Rattle.myi_btree.specs.declared.place.Place.{Place};
ghost use Rattle.myi_btree.specs.Faults.{DamagedAt};
ghost use Rattle.myi_search.specs.Counting.{CountsOn};
ghost use Rattle.myi_insertion.specs.Rooms.{IsWhole};
ghost use Rattle.myi_insertion.specs.Removal.{has_pair, without_pair};
ghost use Rattle.myi_keytrees.specs.Trees.{SameKinds};
ghost use Rattle.myi_keytrees.specs.Standing.{list_of, StandThen, IfStand};
ghost use Rattle.myi_rowtrees.specs.RowLists.{put_each, take_each, moved_in, move_each, LackPointers, ArePointers};

use myi_btree::TreeFault;
use myi_io::Files;
use myi_keylist::Pair;
use myi_keytrees::{KeyTrees, calls_follow};

/// Puts the pairs of a row that has none there into the trees, the first into the tree of the first key. After a
/// refusal nothing is said of the trees.
pub fn put_row<F: Files>(
    files: &mut F,
    trees: &mut KeyTrees,
    pairs: &[Pair],
) -> Result<(), TreeFault>
    requires writable { IsTrue F.writable }
    requires each { length pairs.now ≡ length trees.old.places }
    requires whole { IsWhole trees.old.room }
    requires rows { ArePointers trees.old.places pairs.now }
    ensures put { OnOk result (IfStand (F.holds files.old) trees.old (λ m own lists.
        LackPointers pairs.now lists → StandThen trees.old m own (F.holds files.new) trees.new
        (put_each pairs.now lists))) }
    ensures never { IfErr result (DamagedAt (λ at. IfStand (F.holds files.old) trees.old
        (λ m own lists. LackPointers pairs.now lists → ⊥))) }
    ensures kinds { SameKinds trees.old.places trees.new.places }
    ensures whole { IsWhole trees.new.room }
    ensures counted { CountsOn trees.old.cache trees.new.cache }
    ensures others { Told (F.holds files.old) (F.holds files.new)
        (OthersStay trees.old.cache.name) }
    ensures name { trees.new.cache.name ≡ trees.old.cache.name }
    ensures cause { HasCause File (F.faults files.old) (F.faults files.new) result }
    ensures reads { F.reads files.old ≤ F.reads files.new }
{
    calls_follow();
    for i in 0..pairs.len() {
        trees.insert(files, i, &pairs[i])?;
    }
    Ok(())
}

/// Takes the pairs of a row out of the trees, the first out of the tree of the first key. After a refusal nothing
/// is said of the trees.
pub fn take_row<F: Files>(
    files: &mut F,
    trees: &mut KeyTrees,
    pairs: &[Pair],
) -> Result<(), TreeFault>
    requires writable { IsTrue F.writable }
    requires each { length pairs.now ≡ length trees.old.places }
    requires whole { IsWhole trees.old.room }
    ensures taken { OnOk result (IfStand (F.holds files.old) trees.old (λ m own lists.
        StandThen trees.old m own (F.holds files.new) trees.new (take_each pairs.now lists))) }
    ensures never { IfErr result (DamagedAt (λ at.
        IfStand (F.holds files.old) trees.old (λ m own lists. ⊥))) }
    ensures kinds { SameKinds trees.old.places trees.new.places }
    ensures whole { IsWhole trees.new.room }
    ensures counted { CountsOn trees.old.cache trees.new.cache }
    ensures others { Told (F.holds files.old) (F.holds files.new)
        (OthersStay trees.old.cache.name) }
    ensures name { trees.new.cache.name ≡ trees.old.cache.name }
    ensures cause { HasCause File (F.faults files.old) (F.faults files.new) result }
    ensures reads { F.reads files.old ≤ F.reads files.new }
{
    calls_follow();
    for i in 0..pairs.len() {
        trees.remove(files, i, &pairs[i])?;
    }
    Ok(())
}

// Puts a pair into the tree of a key in place of another one, but leaves the tree alone where both have one key.
fn move_pair<F: Files>(
    files: &mut F,
    trees: &mut KeyTrees,
    key: usize,
    old: &Pair,
    new: &Pair,
) -> Result<(), TreeFault>
    requires writable { IsTrue F.writable }
    requires key { key < length trees.old.places }
    requires whole { IsWhole trees.old.room }
    requires row { HoldsAt (λ (p : Place). new.now.row < 256 ^ p.rec_ref) trees.old.places key }
    ensures moved { OnOk result (IfStand (F.holds files.old) trees.old (λ m own lists.
        has_pair new.now (without_pair old.now (list_of lists key)) ≡ false
        → StandThen trees.old m own (F.holds files.new) trees.new
        (slice_set lists key (moved_in old.now new.now (list_of lists key))))) }
    ensures never { IfErr result (DamagedAt (λ at. IfStand (F.holds files.old) trees.old
        (λ m own lists. ⊥))) }
    ensures kinds { SameKinds trees.old.places trees.new.places }
    ensures whole { IsWhole trees.new.room }
    ensures counted { CountsOn trees.old.cache trees.new.cache }
    ensures others { Told (F.holds files.old) (F.holds files.new)
        (OthersStay trees.old.cache.name) }
    ensures name { trees.new.cache.name ≡ trees.old.cache.name }
    ensures cause { HasCause File (F.faults files.old) (F.faults files.new) result }
    ensures reads { F.reads files.old ≤ F.reads files.new }
{
    calls_follow();
    if old.key == new.key {
        return Ok(());
    }
    trees.remove(files, key, old)?;
    trees.insert(files, key, new)?;
    Ok(())
}

/// Puts the pairs of a row into the trees in place of those that it had, the first into the tree of the first key. A
/// tree whose two pairs have one key is left alone. After a refusal nothing is said of the trees.
pub fn move_row<F: Files>(
    files: &mut F,
    trees: &mut KeyTrees,
    old: &[Pair],
    new: &[Pair],
) -> Result<(), TreeFault>
    requires writable { IsTrue F.writable }
    requires before { length old.now ≡ length trees.old.places }
    requires each { length new.now ≡ length trees.old.places }
    requires whole { IsWhole trees.old.room }
    requires rows { ArePointers trees.old.places new.now }
    ensures moved { OnOk result (IfStand (F.holds files.old) trees.old (λ m own lists.
        LackPointers new.now (take_each old.now lists) → StandThen trees.old m own
        (F.holds files.new) trees.new (move_each old.now new.now lists))) }
    ensures never { IfErr result (DamagedAt (λ at. IfStand (F.holds files.old) trees.old
        (λ m own lists. LackPointers new.now (take_each old.now lists) → ⊥))) }
    ensures kinds { SameKinds trees.old.places trees.new.places }
    ensures whole { IsWhole trees.new.room }
    ensures counted { CountsOn trees.old.cache trees.new.cache }
    ensures others { Told (F.holds files.old) (F.holds files.new)
        (OthersStay trees.old.cache.name) }
    ensures name { trees.new.cache.name ≡ trees.old.cache.name }
    ensures cause { HasCause File (F.faults files.old) (F.faults files.new) result }
    ensures reads { F.reads files.old ≤ F.reads files.new }
{
    calls_follow();
    for i in 0..new.len() {
        move_pair(files, trees, i, &old[i], &new[i])?;
    }
    Ok(())
}
