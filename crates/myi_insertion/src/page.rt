//! A page as lists: its pairs, with the codes of their keys in one buffer, and its children.
//!
//! `read_pairs` reads a `PageData` from the bytes of a page, `place_of` seeks a pair in it, and
//! `with_pair`, `with_strip`, `with_joined`, `with_other` and `without_pair` make another page of it.
ghost use Rattle.std.specs.Prelude.{◌≡◌, ◌≤◌, ◌<◌, ◌+◌, ◌-◌, ◌^◌, ◌++◌, ◌∷◌, [], ℕ, List, take, drop, length, slice_index_or, IfOk, IfErr, OnOk, option_map, IfSome, Some};
ghost use Rattle.std.specs.Option.{option_to_list};
ghost use Rattle.std.specs.Ordering.{is_gt};
ghost use Rattle.myi_keys.specs.Comparing.{key_front, IsCode};
ghost use Rattle.myi_keys.specs.Codes.{key_code};
ghost use Rattle.myi_keys.specs.Limits.{IsKey};
ghost use Rattle.myi_keylist.specs.declared.pair.Pair.{Pair};
ghost use Rattle.myi_keylist.specs.PairOrder.{pair_with, pair_cmp};
ghost use Rattle.myi_btree.specs.Nodes.{node_in};
ghost use Rattle.myi_insertion.specs.Ordered.{AreBefore, BeginsBehind, begins_with};
ghost use Rattle.myi_insertion.specs.Written.{page_node, CanWrite};

use myi_keylist::PairList;
use myi_keypage::read_page;
use myi_keys::compare_codes;
use myi_search::is_code;
use std::alloc::{AllocError, Global};

/// A page: its pairs, and the places of its children, of which a leaf has none.
pub(crate) struct PageData {
    pub(crate) pairs: PairList,
    pub(crate) children: Vec<u64>,
}

impl Drop for PageData {
    fn drop(self) {
        let PageData {
            pairs: _,
            children: _,
        } = self;
    }
}

/// The code of the key after this one, of which it keeps a front.
#[inline(always)]
pub(crate) fn change_code(code: &mut Vec<u8>, prefix: usize, rest: &[u8]) -> Result<(), AllocError>
    ensures { OnOk result (code.new.items ≡ take prefix code.old.items ++ rest.now) }
{
    code.truncate(prefix);
    code.extend_from_slice(rest)
}

fn push_child(children: &mut Vec<u64>, child: Option<u64>) -> Result<(), AllocError>
    ensures { OnOk result (children.new.items ≡ children.old.items ++ option_to_list child) }
{
    if let Some(place) = child {
        children.push(place)?;
    }
    Ok(())
}

/// The page that the bytes are, with row pointers of `rec_ref` bytes, and None where they are no page or a
/// key of it is no key's code.
pub(crate) fn read_pairs(
    alloc: Global,
    bytes: &[u8],
    rec_ref: u8,
) -> Result<Option<PageData>, AllocError>
    requires wide { 2 ≤ rec_ref }
    requires narrow { rec_ref ≤ 8 }
    ensures node { IfOk result (λ page. option_map page_node page ≡ node_in rec_ref bytes.now) }
    ensures written { IfOk result (λ page. IfSome page (λ p.
        CanWrite rec_ref p.pairs p.children.items)) }
{
    let Some(view) = read_page(bytes, rec_ref) else {
        return Ok(None);
    };
    let mut walk = view.walk();
    let mut code: Vec<u8> = Vec::new(alloc);
    let mut pairs = PairList::new(alloc);
    let mut children: Vec<u64> = Vec::new(alloc);
    push_child(&mut children, view.first_child())?;
    while let Some(item) = walk.next_item() {
        change_code(&mut code, item.prefix, item.rest)?;
        if !is_code(&code) {
            return Ok(None);
        }
        pairs.push(&code, item.row)?;
        push_child(&mut children, item.child)?;
    }
    Ok(Some(PageData { pairs, children }))
}

/// Where the pair of a code and a row goes: before the first that does not stand before it.
pub(crate) fn place_of(pairs: &PairList, code: &[u8], row: u64) -> usize
    requires { IsCode code.now }
    ensures inside { result ≤ length pairs.now }
    ensures before { AreBefore (pair_with (key_front code.now) row) (take result pairs.now) }
    ensures behind { BeginsBehind (pair_with (key_front code.now) row) (drop result pairs.now) }
{
    for i in 0..pairs.len() {
        if !compare_codes(code, pairs.code(i))
            .then(row.cmp(&pairs.row(i)))
            .is_gt()
        {
            return i;
        }
    }
    pairs.len()
}

// Adds some pairs of a list to another one.
fn push_pairs(
    into: &mut PairList,
    pairs: &PairList,
    start: usize,
    end: usize,
) -> Result<(), AllocError>
    requires inside { end ≤ length pairs.now }
    requires order { start ≤ end }
    ensures { OnOk result (into.new ≡ into.old ++ take (end - start) (drop start pairs.now)) }
{
    for i in start..end {
        into.push(pairs.code(i), pairs.row(i))?;
    }
    Ok(())
}

/// The pairs of a list, with others in the place of pair `i`.
pub(crate) fn replace_pair(
    alloc: Global,
    pairs: &PairList,
    i: usize,
    others: &PairList,
) -> Result<PairList, AllocError>
    requires inside { i < length pairs.now }
    ensures { IfOk result (λ made. made ≡ (take i pairs.now ++ others.now) ++ drop (i + 1) pairs.now) }
{
    let count = pairs.len();
    let mut made = PairList::new(alloc);
    push_pairs(&mut made, pairs, 0, i)?;
    push_pairs(&mut made, others, 0, others.len())?;
    push_pairs(&mut made, pairs, i + 1, count)?;
    Ok(made)
}

/// A pair of a list, alone.
pub(crate) fn pair_at(alloc: Global, pairs: &PairList, i: usize) -> Result<PairList, AllocError>
    requires inside { i < length pairs.now }
    ensures { (other : Pair) → IfOk result (λ made. made ≡ slice_index_or pairs.now i other ∷ []) }
{
    let mut made = PairList::new(alloc);
    made.push(pairs.code(i), pairs.row(i))?;
    Ok(made)
}

/// What stands on two pages, and pair `i` of a list between it.
pub(crate) fn join_pages(
    alloc: Global,
    left: &PageData,
    pairs: &PairList,
    i: usize,
    right: &PageData,
) -> Result<PageData, AllocError>
    requires inside { i < length pairs.now }
    ensures pairs { (other : Pair) → IfOk result (λ page. page.pairs
        ≡ left.now.pairs ++ slice_index_or pairs.now i other ∷ right.now.pairs) }
    ensures children { IfOk result (λ page. page.children.items ≡ left.now.children.items
        ++ right.now.children.items) }
{
    let mut both = PairList::new(alloc);
    push_pairs(&mut both, &left.pairs, 0, left.pairs.len())?;
    both.push(pairs.code(i), pairs.row(i))?;
    push_pairs(&mut both, &right.pairs, 0, right.pairs.len())?;
    let mut children: Vec<u64> = Vec::new(alloc);
    children.extend_from_slice(&left.children)?;
    children.extend_from_slice(&right.children)?;
    Ok(PageData {
        pairs: both,
        children,
    })
}

/// Whether the pair of a code and a row stands at `i` of a list.
pub(crate) fn is_at(pairs: &PairList, i: usize, code: &[u8], row: u64) -> bool
    requires { IsCode code.now }
    ensures { result ≡ begins_with (pair_with (key_front code.now) row) (drop i pairs.now) }
{
    if i >= pairs.len() {
        return false;
    }
    compare_codes(code, pairs.code(i))
        .then(row.cmp(&pairs.row(i)))
        .is_eq()
}

impl PageData {
    /// The leaf with a pair put in at `i`.
    pub(crate) fn with_pair(
        &self,
        alloc: Global,
        i: usize,
        code: &[u8],
        row: u64,
    ) -> Result<PageData, AllocError>
        requires inside { i ≤ length self.now.pairs }
        requires code { IsCode code.now }
        ensures pairs { IfOk result (λ grown. grown.pairs ≡ (take i self.now.pairs
            ++ pair_with (key_front code.now) row ∷ []) ++ drop i self.now.pairs) }
        ensures children { IfOk result (λ grown. grown.children.items ≡ []) }
    {
        let mut pairs = PairList::new(alloc);
        push_pairs(&mut pairs, &self.pairs, 0, i)?;
        pairs.push(code, row)?;
        push_pairs(&mut pairs, &self.pairs, i, self.pairs.len())?;
        Ok(PageData {
            pairs,
            children: Vec::new(alloc),
        })
    }

    /// The node with trees side by side in the place of child `i`.
    pub(crate) fn with_strip(
        &self,
        alloc: Global,
        i: usize,
        places: &[u64],
        separators: &PairList,
    ) -> Result<PageData, AllocError>
        requires inside { i ≤ length self.now.pairs }
        requires child { i < length self.now.children.items }
        ensures pairs { IfOk result (λ grown. grown.pairs
            ≡ (take i self.now.pairs ++ separators.now) ++ drop i self.now.pairs) }
        ensures children { IfOk result (λ grown. grown.children.items
            ≡ (take i self.now.children.items ++ places.now)
            ++ drop (i + 1) self.now.children.items) }
    {
        let mut pairs = PairList::new(alloc);
        push_pairs(&mut pairs, &self.pairs, 0, i)?;
        push_pairs(&mut pairs, separators, 0, separators.len())?;
        push_pairs(&mut pairs, &self.pairs, i, self.pairs.len())?;
        let mut children: Vec<u64> = Vec::new(alloc);
        children.extend_from_slice(&self.children[..i])?;
        children.extend_from_slice(places)?;
        children.extend_from_slice(&self.children[i + 1..])?;
        Ok(PageData { pairs, children })
    }

    /// The leaf without pair `i`.
    pub(crate) fn without_pair(&self, alloc: Global, i: usize) -> Result<PageData, AllocError>
        requires inside { i < length self.now.pairs }
        ensures pairs { IfOk result (λ page. page.pairs
            ≡ take i self.now.pairs ++ drop (i + 1) self.now.pairs) }
        ensures children { IfOk result (λ page. page.children.items ≡ []) }
    {
        let none = PairList::new(alloc);
        let pairs = replace_pair(alloc, &self.pairs, i, &none)?;
        Ok(PageData {
            pairs,
            children: Vec::new(alloc),
        })
    }

    /// The node with another pair in the place of pair `i`.
    pub(crate) fn with_other(
        &self,
        alloc: Global,
        i: usize,
        other: &PairList,
    ) -> Result<PageData, AllocError>
        requires inside { i < length self.now.pairs }
        ensures pairs { IfOk result (λ page. page.pairs
            ≡ (take i self.now.pairs ++ other.now) ++ drop (i + 1) self.now.pairs) }
        ensures children { IfOk result (λ page. page.children.items ≡ self.now.children.items) }
    {
        let pairs = replace_pair(alloc, &self.pairs, i, other)?;
        let mut children: Vec<u64> = Vec::new(alloc);
        children.extend_from_slice(&self.children)?;
        Ok(PageData { pairs, children })
    }

    /// The node with trees side by side in the place of the children `i` and `i + 1`, and of the pair between
    /// them.
    pub(crate) fn with_joined(
        &self,
        alloc: Global,
        i: usize,
        places: &[u64],
        separators: &PairList,
    ) -> Result<PageData, AllocError>
        requires inside { i < length self.now.pairs }
        requires child { i + 1 < length self.now.children.items }
        ensures pairs { IfOk result (λ page. page.pairs
            ≡ (take i self.now.pairs ++ separators.now) ++ drop (i + 1) self.now.pairs) }
        ensures children { IfOk result (λ page. page.children.items
            ≡ (take i self.now.children.items ++ places.now)
            ++ drop (i + 2) self.now.children.items) }
    {
        let pairs = replace_pair(alloc, &self.pairs, i, separators)?;
        let mut children: Vec<u64> = Vec::new(alloc);
        children.extend_from_slice(&self.children[..i])?;
        children.extend_from_slice(places)?;
        children.extend_from_slice(&self.children[i + 2..])?;
        Ok(PageData { pairs, children })
    }
}
