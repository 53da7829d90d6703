//! Whether a row has the key of one whose pairs are in the trees.
ghost use Rattle.std.specs.Prelude.{◌≡◌, ◌<◌, ◌≤◌, length, IfOk, IsTrue};
ghost use Rattle.myi_base.specs.Holding.{Told, OthersStay};
ghost use Rattle.myi_base.specs.Causes.{HasCause};
ghost use Rattle.myi_btree.specs.declared.fault.TreeFault.TheVariants.{File};
ghost use Rattle.myi_keytrees.specs.Standing.{list_of, IfStand, StillStand, CanSearch};
ghost use Rattle.myi_saferepair.specs.Held.{is_held, AreHeld};

use myi_btree::TreeFault;
use myi_defs::Defs;
use myi_io::Files;
use myi_keylist::Pair;
use myi_keys::is_complete_code;
use myi_keytrees::KeyTrees;

/// Whether one of these pairs has the complete key of a pair in the tree of its key, where that is unique. Where the
/// trees stand for some lists they do so after each answer.
pub(crate) fn repeats_any<F: Files>(
    files: &mut F,
    trees: &mut KeyTrees,
    defs: &Defs,
    pairs: &[Pair],
) -> Result<bool, TreeFault>
    requires writable { IsTrue F.writable }
    requires each { length pairs.now ≡ length defs.now.keys }
    requires trees { length pairs.now ≡ length trees.old.places }
    requires kept { CanSearch F.writable (F.holds files.old) trees.old }
    ensures held { IfOk result (λ there. IfStand (F.holds files.old) trees.old (λ m own lists.
        AreHeld defs.now pairs.now lists there)) }
    ensures stand { StillStand (F.holds files.old) (F.holds files.new) trees.old trees.new }
    ensures places { trees.new.places ≡ trees.old.places }
    ensures room { trees.new.room ≡ trees.old.room }
    ensures others { Told (F.holds files.old) (F.holds files.new)
        (OthersStay trees.old.cache.name) }
    ensures name { trees.new.cache.name ≡ trees.old.cache.name }
    ensures cause { HasCause File (F.faults files.old) (F.faults files.new) result }
{
    for i in 0..pairs.len() {
        if is_held(files, trees, defs, i, &pairs[i])? {
            return Ok(true);
        }
    }
    Ok(false)
}

// Whether the key with index `i` is unique and a pair in its tree has the complete key of the given one.
fn is_held<F: Files>(
    files: &mut F,
    trees: &mut KeyTrees,
    defs: &Defs,
    i: usize,
    pair: &Pair,
) -> Result<bool, TreeFault>
    requires writable { IsTrue F.writable }
    requires key { i < length defs.now.keys }
    requires tree { i < length trees.old.places }
    requires kept { CanSearch F.writable (F.holds files.old) trees.old }
    ensures held { IfOk result (λ there. IfStand (F.holds files.old) trees.old (λ m own lists.
        there ≡ is_held defs.now i pair.now.key (list_of lists i))) }
    ensures stand { StillStand (F.holds files.old) (F.holds files.new) trees.old trees.new }
    ensures places { trees.new.places ≡ trees.old.places }
    ensures room { trees.new.room ≡ trees.old.room }
    ensures search { CanSearch F.writable (F.holds files.new) trees.new }
    ensures others { Told (F.holds files.old) (F.holds files.new)
        (OthersStay trees.old.cache.name) }
    ensures name { trees.new.cache.name ≡ trees.old.cache.name }
    ensures cause { HasCause File (F.faults files.old) (F.faults files.new) result }
{
    let unique = defs.keys.as_slice()[i].unique;
    if !unique || !is_complete_code(pair.key.code()) {
        return Ok(false);
    }
    let row = trees.find(files, i, &pair.key)?;
    Ok(row.is_some())
}
