//! `check_keys`: the trees of all keys, walked one after the other.
ghost use Rattle.std.specs.Prelude.{◌≡◌, ◌<◌, ◌+◌, ◌^◌, ◌&&◌, ◌++◌, if◌then◌else◌};
ghost use Rattle.std.specs.Prelude.{ℕ, List, [], true, not, length, map, All, Some, None};
ghost use Rattle.std.specs.Prelude.{IfOk, IfErr, OnOk};
ghost use Rattle.std.specs.Option.{option_to_list};
ghost use Rattle.myi_base.specs.Holding.{IfTold};
ghost use Rattle.myi_base.specs.Causes.{HasCause};
ghost use Rattle.myi_opening.specs.Opening.{IsCutOff};
ghost use Rattle.myi_defs.specs.ReadDefs.{AreDefs};
ghost use Rattle.myi_header.specs.StateOf.{state_of};
ghost use Rattle.myi_data.specs.Keys.{IsKeyNumber};
ghost use Rattle.myi_keylist.specs.PairOrder.{sorted};
ghost use Rattle.myi_btree.specs.Sizes.{IsPlaced};
ghost use Rattle.myi_pair.specs.declared.finding.Finding.TheVariants as finding;
ghost use Rattle.myi_pair.specs.FirstRows.{key_numbers};
ghost use Rattle.myi_pair.specs.KeyList.{PlacedRow, pairs_of};
ghost use Rattle.myi_pair.specs.Findings.{told};
ghost use Rattle.myi_check.specs.WalksBusy.{HasBytes};
ghost use Rattle.myi_check.specs.Walks.{events_in};
ghost use Rattle.myi_check.specs.Keys.{HasKeys, Adds, tree_key, tree_if};
ghost use Rattle.myi_check.specs.Sections.{AreInOrder};

use crate::busy::BusyPages;
use crate::walks::{TreeKey, TreeWalk, walk_tree};
use myi_base::Sequence;
use myi_btree::Place;
use myi_defs::Defs;
use myi_header::first_page;
use myi_io::Files;
use myi_keylist::PairList;
use myi_opening::TableFault;
use myi_pair::Finding;
use std::alloc::{AllocError, Global};

/// What the walks of all trees show.
#[derive(Drop)]
pub(crate) struct KeysFound {
    /// The first bad thing of each key that has one, in the order of the keys.
    pub(crate) findings: Vec<Finding>,
    /// How many bytes the pages of all trees have, at most 2^64 - 1. None where a tree has no
    /// walk.
    pub(crate) page_bytes: Option<u64>,
}

/// What the walks of the trees so far show.
pub(crate) struct KeysSoFar {
    /// The number of the key that comes next, from 1.
    pub(crate) number: u8,
    pub(crate) findings: Vec<Finding>,
    pub(crate) busy: BusyPages,
    /// Whether each tree had a walk.
    pub(crate) walks: bool,
    pub(crate) page_bytes: u64,
}

impl Drop for KeysSoFar {
    fn drop(self) {
        let KeysSoFar {
            number: _,
            findings: _,
            busy: _,
            walks: _,
            page_bytes: _,
        } = self;
    }
}

impl KeysSoFar {
    /// Before the first key, where pages begin at this place.
    pub(crate) fn new(alloc: Global, first_page: u64) -> KeysSoFar
        ensures number { result.number ≡ 1 }
        ensures findings { result.findings.items ≡ [] }
        ensures first { result.busy.first_page ≡ first_page }
        ensures none { result.busy.trees.items ≡ [] }
        ensures walks { result.walks ≡ true }
        ensures bytes { result.page_bytes ≡ 0 }
    {
        KeysSoFar {
            number: 1,
            findings: Vec::new(alloc),
            busy: BusyPages::new(alloc, first_page),
            walks: true,
            page_bytes: 0,
        }
    }

    /// What was found, where no key is left.
    pub(crate) fn into_found(self) -> KeysFound
        ensures findings { result.findings ≡ self.findings }
        ensures bytes { result.page_bytes ≡ (if self.walks then Some self.page_bytes else None) }
        ensures fits { self.page_bytes < 2 ^ 64 }
    {
        let KeysSoFar {
            number: _,
            findings,
            busy: _,
            walks,
            page_bytes,
        } = self;
        KeysFound {
            findings,
            page_bytes: if walks { Some(page_bytes) } else { None },
        }
    }

    // Adds the first bad thing of the key that comes next, where it has one.
    fn add_finding(&mut self, bad: Option<u64>) -> Result<(), AllocError>
        ensures findings { OnOk result (self.new.findings.items ≡ self.old.findings.items
            ++ map (λ at. finding.Key self.old.number at) (option_to_list bad)) }
        ensures number { self.new.number ≡ self.old.number }
        ensures busy { self.new.busy ≡ self.old.busy }
        ensures walks { self.new.walks ≡ self.old.walks }
        ensures bytes { self.new.page_bytes ≡ self.old.page_bytes }
    {
        if let Some(at) = bad {
            let key = self.number;
            self.findings.push(Finding::Key { key, at })?;
        }
        Ok(())
    }

    /// Adds the pages of a tree, where its walk met no bad place.
    pub(crate) fn add_pages(&mut self, block_length: u16, walk: TreeWalk) -> Result<(), AllocError>
        ensures walks { OnOk result (self.new.walks ≡ (self.old.walks && not walk.is_cut)) }
        ensures bytes { OnOk result (self.new.page_bytes ≡ (if walk.is_cut then
            self.old.page_bytes else told (self.old.page_bytes + walk.bytes))) }
        ensures first { self.new.busy.first_page ≡ self.old.busy.first_page }
        ensures trees { OnOk result (self.new.busy.trees.items
            ≡ self.old.busy.trees.items ++ tree_if walk block_length) }
        ensures number { self.new.number ≡ self.old.number }
        ensures findings { self.new.findings ≡ self.old.findings }
    {
        if walk.is_cut {
            self.walks = false;
            return Ok(());
        }
        self.page_bytes = self.page_bytes.saturating_add(walk.bytes);
        self.busy.trees.push(walk.into_pages(block_length))?;
        Ok(())
    }
}

/// The key of that number, as far as its tree is looked at.
pub(crate) fn tree_key(defs: &Defs, number: usize, root: Option<u64>) -> TreeKey
    requires { IsKeyNumber defs.now number }
    ensures { result ≡ tree_key defs.now number root }
{
    let key = &defs.keys.as_slice()[number - 1];
    TreeKey {
        place: Place {
            block_length: key.block_length,
            rec_ref: defs.rec_ref,
            root,
        },
        unique: key.unique,
    }
}

// Walks the tree of the key that comes next, beside its pairs.
fn check_key<F: Files>(
    alloc: Global,
    files: &mut F,
    index: &str,
    key: TreeKey,
    mut pairs: PairList,
    found: &mut KeysSoFar,
) -> Result<(), TableFault>
    requires placed { IsPlaced key.place }
    requires sized { All HasBytes found.old.busy.trees.items }
    requires number { found.old.number < 255 }
    ensures number { OnOk result (found.new.number ≡ found.old.number + 1) }
    ensures sized { OnOk result (All HasBytes found.new.busy.trees.items) }
    ensures shows { OnOk result (IfTold (F.holds files.old) (λ m. (x : List ℕ)
        → m index.now ≡ Some x
        → Adds key (sorted pairs) (events_in key.place x) found.old found.new)) }
    ensures order { OnOk result (AreInOrder 2 (1 + found.old.number) found.old.findings.items
        → AreInOrder 2 (1 + found.new.number) found.new.findings.items) }
    ensures cut { IfErr result IsCutOff }
    ensures holds { F.holds files.new ≡ F.holds files.old }
    ensures cause { HasCause TableFault.File (F.faults files.old) (F.faults files.new) result }
{
    pairs.sort();
    let walk = walk_tree(alloc, files, index, key, &pairs, &found.busy)?;
    found.add_finding(walk.met.first_bad(&pairs))?;
    found.add_pages(key.place.block_length, walk)?;
    found.number += 1;
    Ok(())
}

/// Walks the tree of each key, from its root, beside the pairs of the table's rows in that key.
/// Each tree is walked once.
pub(crate) fn check_keys<F: Files>(
    alloc: Global,
    files: &mut F,
    index: &str,
    defs: &Defs,
    roots: &[Option<u64>],
    lists: Sequence<PairList>,
) -> Result<KeysFound, TableFault>
    requires defs { AreDefs defs.now }
    requires roots { length roots.now ≡ length defs.now.keys }
    requires lists { length lists ≡ length defs.now.keys }
    ensures found { IfOk result (λ r. IfTold (F.holds files.old) (λ m.
        (x : List ℕ) (rows : List PlacedRow) → m index.now ≡ Some x
        → roots.now ≡ (state_of defs.now x).roots
        → lists ≡ map (λ k. pairs_of defs.now k rows) (key_numbers defs.now)
        → HasKeys defs.now x rows r)) }
    ensures order { IfOk result (λ r. AreInOrder 2 256 r.findings.items) }
    ensures cut { IfErr result IsCutOff }
    ensures holds { F.holds files.new ≡ F.holds files.old }
    ensures cause { HasCause TableFault.File (F.faults files.old) (F.faults files.new) result }
{
    let mut found = KeysSoFar::new(alloc, first_page(defs));
    for pairs in lists.into_vec() {
        let number = found.number as usize;
        let key = tree_key(defs, number, roots[number - 1]);
        check_key(alloc, files, index, key, pairs, &mut found)?;
    }
    Ok(found.into_found())
}
