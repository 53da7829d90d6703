//! `RowKeys`: the pairs of rows, a list for each key of their table.
ghost use Rattle.std.specs.Prelude.{◌≡◌, ◌<◌, ◌≤◌, ◌+◌, ◌*◌, ◌^◌, ◌&&◌, ◌++◌, ◌∷◌, ℕ, true, List, [], length, map, if◌then◌else◌};
ghost use Rattle.std.specs.Prelude.{replicate, IfOk, OnOk};
ghost use Rattle.std.specs.List.{filter};
ghost use Rattle.myi_defs.specs.Sound.{IsSound};
ghost use Rattle.myi_pack.specs.Spelling.{fits};
ghost use Rattle.myi_keylist.specs.PairOrder.{pair_with, sorted};
ghost use Rattle.myi_keylist.specs.Repeats.{has_repeat};
ghost use Rattle.myi_keylist.specs.Columns.{AreColumns, key_by_number, has_flag, pointed};
ghost use Rattle.myi_data.specs.Stored.{SizedRow};
ghost use Rattle.myi_data.specs.Keys.{IsKeyNumber, key_of};
ghost use Rattle.myi_rowkeys.specs.TableKeys.{row_keys, unique_keys};
ghost use Rattle.myi_rowkeys.specs.RowLists.{with_pairs, sorted_unique, any_repeat, no_row, AreNumberLists, AddsColumn};

use myi_base::Sequence;
use myi_data::key_code_into;
use myi_defs::{Defs, Key};
use myi_keylist::{PairList, RowPointers, keep_first};
use myi_pack::{FieldPlaces, NumberedFields, RowView};
use std::alloc::{AllocError, Global};
use std::marker::Model;
use std::mem;

/// Buffers for the code of one key, and for one value.
struct CodeBuffers {
    code: Vec<u8>,
    scratch: Vec<u8>,
}

impl Drop for CodeBuffers {
    fn drop(self) {
        let CodeBuffers {
            code: _,
            scratch: _,
        } = self;
    }
}

/// The pairs of rows, a list for each key of their table.
pub struct RowKeys {
    lists: Vec<PairList>,
    buffers: CodeBuffers,
    places: FieldPlaces,
}

impl Drop for RowKeys {
    fn drop(self) {
        let RowKeys {
            lists: _,
            buffers: _,
            places: _,
        } = self;
    }
}

impl Model for RowKeys {
    ghost use Rattle.std.specs.Prelude.{List};
    ghost use Rattle.myi_keylist.specs.declared.pair.Pair.{Pair};

    ghost Value = { List (List Pair) };

    ghost view = { λ k. k.lists.items };
}

impl RowKeys {
    ghost use Rattle.std.specs.Prelude.{◌≡◌, ◌≤◌, ◌^◌, true, List, [], length, map, replicate, IfOk, OnOk};
    ghost use Rattle.std.specs.List.{filter};
    ghost use Rattle.myi_defs.specs.Sound.{IsSound};
    ghost use Rattle.myi_pack.specs.Spelling.{fits};
    ghost use Rattle.myi_keylist.specs.FirstBy.{first_by, repeats_in};
    ghost use Rattle.myi_keylist.specs.Classes.{picked};
    ghost use Rattle.myi_keylist.specs.Columns.{has_flag, pointed};
    ghost use Rattle.myi_data.specs.Stored.{SizedRow};
    ghost use Rattle.myi_rowkeys.specs.TableKeys.{row_keys, unique_keys};
    ghost use Rattle.myi_rowkeys.specs.RowLists.{with_pairs, sorted_unique, any_repeat, AreNumberLists};

    /// No row yet, of a table with so many keys.
    pub fn new(alloc: Global, keys: usize) -> Result<RowKeys, AllocError>
        ensures { IfOk result (λ k. k ≡ replicate keys []) }
    {
        let mut lists = Vec::with_capacity(alloc, keys)?;
        for _list in 0..keys {
            lists.push(PairList::new(alloc))?;
        }
        Ok(RowKeys {
            lists,
            buffers: CodeBuffers {
                code: Vec::new(alloc),
                scratch: Vec::new(alloc),
            },
            places: FieldPlaces::new(alloc),
        })
    }

    /// Adds the pairs of a row, a pair to each list, with its row pointer or its number. The view was made
    /// with these definitions. Where memory runs out, some of the pairs may have been added.
    pub fn push(&mut self, defs: &Defs, view: &RowView<'_>, row: u64) -> Result<(), AllocError>
        requires sound { IsSound defs.now }
        requires row { fits defs.now view.now ≡ true }
        requires all { length self.old ≡ length defs.now.keys }
        ensures { OnOk result (self.new ≡ with_pairs row (row_keys defs.now view.now) self.old) }
    {
        let none = FieldPlaces::new(*self.buffers.code.allocator());
        let mut fields = view.numbered(mem::replace(&mut self.places, none));
        let pushed = push_pairs(&mut self.lists, &mut self.buffers, defs, &mut fields, row);
        self.places = fields.into_places();
        pushed
    }

    /// Puts the lists of unique keys in order. It takes no memory.
    pub fn sort_unique(&mut self, defs: &Defs)
        requires { length self.old ≡ length defs.now.keys }
        ensures { self.new ≡ sorted_unique defs.now.keys self.old }
    {
        sort_unique(&mut self.lists, defs.keys.as_slice());
    }

    /// Whether two pairs of a unique key, one behind the other, have one complete key. Where the lists of
    /// unique keys are in order, this is so where any two of the rows repeat each other.
    pub fn has_repeat(&self, defs: &Defs) -> bool
        requires { length self.now ≡ length defs.now.keys }
        ensures { result ≡ any_repeat defs.now.keys self.now }
    {
        has_repeat(&self.lists, defs.keys.as_slice())
    }

    /// Says of each of so many rows whether it is kept: one that repeats, in a unique key, none kept before
    /// it. The lists have the rows by their numbers.
    pub fn keep_first(
        &self,
        alloc: Global,
        defs: &Defs,
        rows: usize,
    ) -> Result<Vec<bool>, AllocError>
        requires sound { IsSound defs.now }
        requires all { length self.now ≡ length defs.now.keys }
        requires few { rows ≤ 2 ^ 40 }
        requires lists { (all : List SizedRow) × (length all ≡ rows)
            × AreNumberLists defs.now all self.now }
        ensures long { IfOk result (λ flags. length flags.items ≡ rows) }
        ensures kept { IfOk result (λ flags. (all : List SizedRow) → length all ≡ rows
            → AreNumberLists defs.now all self.now
            → picked flags.items all ≡ first_by (repeats_in (unique_keys defs.now)) all) }
    {
        let (columns, last) = class_columns(alloc, &self.lists, defs, rows)?;
        keep_first(alloc, &columns, rows, last as usize + 1)
    }

    /// Takes out the pairs of rows whose flag is not set. The lists have the rows by their numbers.
    pub fn retain(&mut self, flags: &[bool])
        ensures { self.new ≡ map (filter (has_flag flags.now)) self.old }
    {
        retain_rows(&mut self.lists, flags);
    }

    /// Puts in place of each row's number the pointer that stands at it, 0 where none does.
    pub fn point(&mut self, pointers: &RowPointers)
        ensures { self.new ≡ map (map (pointed pointers.now)) self.old }
    {
        point_rows(&mut self.lists, pointers);
    }

    /// The lists, in the order of the keys. It takes no memory.
    pub fn into_lists(self) -> Sequence<PairList>
        ensures { result ≡ self }
    {
        let RowKeys {
            lists,
            buffers: _,
            places: _,
        } = self;
        Sequence::new(lists)
    }
}

// Adds to each list the pair of its key.
fn push_pairs(
    lists: &mut [PairList],
    buffers: &mut CodeBuffers,
    defs: &Defs,
    fields: &mut NumberedFields<'_>,
    row: u64,
) -> Result<(), AllocError>
    requires sound { IsSound defs.now }
    requires row { fits defs.now fields.old ≡ true }
    requires all { length lists.old ≡ length defs.now.keys }
    ensures { OnOk result (lists.new ≡ with_pairs row (row_keys defs.now fields.old) lists.old) }
{
    for index in 0..lists.len() {
        push_pair(&mut lists[index], buffers, defs, index + 1, fields, row)?;
    }
    Ok(())
}

// Adds the pair of the row's key for the key of that number, from 1.
fn push_pair(
    list: &mut PairList,
    buffers: &mut CodeBuffers,
    defs: &Defs,
    key: usize,
    fields: &mut NumberedFields<'_>,
    row: u64,
) -> Result<(), AllocError>
    requires sound { IsSound defs.now }
    requires key { IsKeyNumber defs.now key }
    requires row { fits defs.now fields.old ≡ true }
    ensures pair { OnOk result
        (list.new ≡ list.old ++ pair_with (key_of defs.now key fields.old) row ∷ []) }
    ensures same { OnOk result (fields.new ≡ fields.old) }
{
    key_code_into(&mut buffers.code, &mut buffers.scratch, defs, key, fields)?;
    list.push(&buffers.code, row)
}

// Puts the lists of unique keys in order.
fn sort_unique(lists: &mut [PairList], keys: &[Key])
    requires { length lists.old ≡ length keys.now }
    ensures { lists.new ≡ sorted_unique keys.now lists.old }
{
    for index in 0..lists.len() {
        sort_if_unique(&mut lists[index], &keys[index]);
    }
}

// Puts the list in order, if it is one of a unique key.
fn sort_if_unique(list: &mut PairList, key: &Key)
    ensures { list.new ≡ (if key.now.unique then sorted list.old else list.old) }
{
    if key.unique {
        list.sort();
    }
}

// Whether a list of a unique key has a complete key twice, one behind the other.
fn has_repeat(lists: &[PairList], keys: &[Key]) -> bool
    requires { length lists.now ≡ length keys.now }
    ensures { result ≡ any_repeat keys.now lists.now }
{
    for index in 0..lists.len() {
        if is_repeated(&keys[index], &lists[index]) {
            return true;
        }
    }
    false
}

// Whether the list is one of a unique key and has a complete key twice, one behind the other.
fn is_repeated(key: &Key, list: &PairList) -> bool
    ensures { result ≡ (key.now.unique && has_repeat list.now) }
{
    key.unique && list.has_repeat()
}

// Takes out the pairs of rows whose flag is not set.
fn retain_rows(lists: &mut [PairList], flags: &[bool])
    ensures { lists.new ≡ map (filter (has_flag flags.now)) lists.old }
{
    for list in lists.iter_mut() {
        list.retain(flags);
    }
}

// Puts row pointers in place of the numbers of rows.
fn point_rows(lists: &mut [PairList], pointers: &RowPointers)
    ensures { lists.new ≡ map (map (pointed pointers.now)) lists.old }
{
    for list in lists.iter_mut() {
        list.point(pointers);
    }
}

// The class numbers of the rows in each unique key, and the last one given.
fn class_columns(
    alloc: Global,
    lists: &[PairList],
    defs: &Defs,
    rows: usize,
) -> Result<(Vec<Sequence<u64>>, u64), AllocError>
    requires sound { IsSound defs.now }
    requires all { length lists.now ≡ length defs.now.keys }
    requires few { rows ≤ 2 ^ 40 }
    requires lists { (all : List SizedRow) × (length all ≡ rows)
        × AreNumberLists defs.now all lists.now }
    ensures columns { IfOk result (λ r. (all : List SizedRow) → length all ≡ rows
        → AreNumberLists defs.now all lists.now
        → AreColumns (map (key_by_number all no_row) (unique_keys defs.now)) rows 0 r.1 r.0.items) }
    ensures few { IfOk result (λ r. r.1 ≤ 64 * rows) }
{
    let keys = defs.keys.as_slice();
    let mut columns = Vec::with_capacity(alloc, keys.len())?;
    let mut last = 0;
    for index in 0..lists.len() {
        last = push_if_unique(&mut columns, &keys[index], &lists[index], rows, last)?;
    }
    Ok((columns, last))
}

// Adds the class numbers of the rows in the key, if it is unique.
fn push_if_unique(
    columns: &mut Vec<Sequence<u64>>,
    key: &Key,
    list: &PairList,
    rows: usize,
    last: u64,
) -> Result<u64, AllocError>
    requires { last + length list.now < 2 ^ 64 }
    ensures column { IfOk result (λ next. AddsColumn key.now.unique list.now rows last next
        columns.old.items columns.new.items) }
    ensures few { IfOk result (λ next. next ≤ last + length list.now) }
{
    if !key.unique {
        return Ok(last);
    }
    push_column(columns, list, rows, last)
}

// Adds the class numbers of so many rows in one key, which go on behind the last one given; answers the last
// one then.
fn push_column(
    columns: &mut Vec<Sequence<u64>>,
    list: &PairList,
    rows: usize,
    last: u64,
) -> Result<u64, AllocError>
    requires { last + length list.now < 2 ^ 64 }
    ensures column { IfOk result (λ next. AddsColumn true list.now rows last next
        columns.old.items columns.new.items) }
    ensures few { IfOk result (λ next. next ≤ last + length list.now) }
{
    let mut column = vec![in *columns.allocator(); 0u64; rows]?;
    let next = list.number(last, &mut column);
    columns.push(Sequence::new(column))?;
    Ok(next)
}
