//! A search in one page.
ghost use Rattle.std.specs.Prelude.{◌≡◌, ◌≤◌, ◌++◌, is_some, true, false, IfOk, OnOk, List, [], Some, None};
ghost use Rattle.std.specs.Option.{option_to_list};
ghost use Rattle.myi_keypage.specs.Page.{IsBranching};
ghost use Rattle.myi_keypage.specs.Views.{page_of, entries_after};
ghost use Rattle.myi_keylist.specs.declared.pair.Pair.{Pair};
ghost use Rattle.myi_btree.specs.Walk.{each};
ghost use Rattle.myi_btree.specs.Nodes.{pair_in, node_in};
ghost use Rattle.myi_search.specs.Passing.{passes, best_of, HasCode, way_to, Seeks};
ghost use Rattle.myi_search.specs.Seeking.{node_shown};
ghost use Rattle.myi_search.specs.Runs.{GathersLeaf};

use crate::bound::Bound;
use crate::codes::is_code;
use crate::reached::Reached;
use myi_keylist::PairList;
use myi_keypage::{PageView, PageWalk, read_page};
use std::alloc::AllocError;

/// Where a search goes on behind a page.
#[derive(Clone, Copy)]
pub(crate) enum Way {
    /// Into this child.
    Child(u64),
    /// Nowhere, since it was a leaf.
    Leaf,
    /// Nowhere, since it was no page.
    NoPage,
}

fn way_to(child: Option<u64>) -> Way
    ensures { result ≡ way_to child }
{
    match child {
        Some(child) => Way::Child(child),
        None => Way::Leaf,
    }
}

// Whether each item that is left has the code of a key.
fn are_codes(walk: &mut PageWalk, reached: &mut Reached) -> Result<bool, AllocError>
    ensures all { IfOk result (λ all. all
        ≡ is_some (each pair_in (entries_after reached.old.code.items walk.old))) }
    ensures best { reached.new.best ≡ reached.old.best }
    ensures row { reached.new.row ≡ reached.old.row }
    ensures gathers { reached.new.gathers ≡ reached.old.gathers }
    ensures run { reached.new.run ≡ reached.old.run }
{
    while let Some(item) = walk.next_item() {
        reached.read(&item)?;
        if !is_code(&reached.code) {
            return Ok(false);
        }
    }
    Ok(true)
}

// Seeks among the items of a page.
fn seek_items(view: &PageView, bound: &Bound, reached: &mut Reached) -> Result<Way, AllocError>
    requires { IsBranching (page_of view.now) }
    ensures seeks { IfOk result (λ way. Seeks (passes bound.now) (node_shown view.now) way
        (best_of reached.old) (best_of reached.new)) }
    ensures code { HasCode reached.old → OnOk result (HasCode reached.new) }
    ensures gathers { reached.new.gathers ≡ reached.old.gathers }
    ensures run { reached.new.run ≡ reached.old.run }
{
    let mut walk = view.walk();
    let mut child = view.first_child();
    reached.begin_page();
    while let Some(item) = walk.next_item() {
        reached.read(&item)?;
        if !is_code(&reached.code) {
            return Ok(Way::NoPage);
        }
        if !bound.passes(&reached.code, item.row) {
            reached.reach(item.row)?;
            let all = are_codes(&mut walk, reached)?;
            return Ok(if all { way_to(child) } else { Way::NoPage });
        }
        child = item.child;
    }
    Ok(way_to(child))
}

// Gathers the pairs of a leaf, and the best pair so far behind them. Answers whether each item has the code of a
// key.
fn gather(view: &PageView, reached: &mut Reached) -> Result<bool, AllocError>
    requires code { HasCode reached.old }
    ensures all { IfOk result (λ all. all
        ≡ is_some (each pair_in (entries_after [] view.now.items))) }
    ensures run { IfOk result (λ all. (pairs : List Pair)
        → each pair_in (entries_after [] view.now.items) ≡ Some pairs
        → reached.new.run ≡ pairs ++ option_to_list (best_of reached.old)) }
    ensures best { reached.new.best ≡ reached.old.best }
    ensures row { reached.new.row ≡ reached.old.row }
    ensures gathers { reached.new.gathers ≡ reached.old.gathers }
{
    let mut run = PairList::new(*reached.code.allocator());
    let mut walk = view.walk();
    reached.begin_page();
    while let Some(item) = walk.next_item() {
        reached.read(&item)?;
        if !is_code(&reached.code) {
            return Ok(false);
        }
        run.push(&reached.code, item.row)?;
    }
    reached.push_best(&mut run)?;
    reached.run = run;
    Ok(true)
}

// The same, where pairs are gathered and the page is a leaf; nothing else is gathered.
fn gather_leaf(view: &PageView, reached: &mut Reached) -> Result<bool, AllocError>
    requires code { HasCode reached.old }
    ensures none { IfOk result (λ all. all ≡ false → node_shown view.now ≡ None) }
    ensures run { IfOk result (λ all. reached.old.gathers ≡ true
        → GathersLeaf (node_shown view.now) (best_of reached.old) reached.new.run) }
    ensures best { reached.new.best ≡ reached.old.best }
    ensures row { reached.new.row ≡ reached.old.row }
    ensures gathers { reached.new.gathers ≡ reached.old.gathers }
{
    if !reached.gathers || view.first_child().is_some() {
        return Ok(true);
    }
    let all = gather(view, reached)?;
    Ok(all)
}

/// Seeks in the page that bytes are: where the search goes on, and the best pair so far.
pub(crate) fn seek_in(
    bytes: &[u8],
    rec_ref: u8,
    bound: &Bound,
    reached: &mut Reached,
) -> Result<Way, AllocError>
    requires wide { 2 ≤ rec_ref }
    requires narrow { rec_ref ≤ 8 }
    requires code { HasCode reached.old }
    ensures seeks { IfOk result (λ way. Seeks (passes bound.now) (node_in rec_ref bytes.now) way
        (best_of reached.old) (best_of reached.new)) }
    ensures code { OnOk result (HasCode reached.new) }
    ensures gathers { reached.new.gathers ≡ reached.old.gathers }
    ensures run { IfOk result (λ way. reached.old.gathers ≡ true
        → GathersLeaf (node_in rec_ref bytes.now) (best_of reached.old) reached.new.run) }
{
    let Some(view) = read_page(bytes, rec_ref) else {
        return Ok(Way::NoPage);
    };
    let all = gather_leaf(&view, reached)?;
    if !all {
        return Ok(Way::NoPage);
    }
    let way = seek_items(&view, bound, reached)?;
    Ok(way)
}
