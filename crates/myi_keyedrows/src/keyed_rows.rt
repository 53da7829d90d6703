//! `KeyedRows`: a data file and the trees of its keys, which change together.
ghost use Rattle.std.specs.Prelude.{◌≡◌, ◌≤◌, true, IfOk, IfErr, OnOk, OnErr, IsTrue};
ghost use Rattle.myi_base.specs.Holding.{IfTold, Told, OthersStay};
ghost use Rattle.myi_base.specs.Causes.{HasCause};
ghost use Rattle.myi_pack.specs.Spelling.{fits};
ghost use Rattle.myi_slots.specs.declared.fault.DataFault.TheVariants as read;
ghost use Rattle.myi_slots.specs.SlotFile.{IsLong, IfRefused, Never, is_reached};
ghost use Rattle.myi_slots.specs.SlotFile as slots;
ghost use Rattle.myi_blocks.specs.Places.{StepsNoted, RefusesNoted};
ghost use Rattle.myi_rows.specs.RowFile.{SaysNoRow};
ghost use Rattle.myi_keyedrows.specs.Refusals.{LacksPlace};
ghost use Rattle.myi_keyedrows.specs.Checking.{come, next_at, AddsTo, FindsNewBad};

use crate::fault::KeyedFault;
use myi_defs::Defs;
use myi_io::Files;
use myi_keylist::Pair;
use myi_keytrees::KeyTrees;
use myi_pack::Row;
use myi_ranges::{pointers_lead_to_rows, position_of};
use myi_rows::RowFile;
use myi_rowtrees::{
    first_duplicate, lists_follow_rows, move_row, new_rows_are_in_no_list, pairs_of_row,
    pointer_of, put_row, take_row,
};
use myi_slots::DataFault;
use myi_tablestate::{
    key_lists_are_in_order, keyed_changes_keep_tables, keyed_refusals_come_in_order,
    keyed_steps_are_steps,
};
use std::alloc::Global;

// Where a new row goes: behind the end, or where the first deleted slot or block is.
fn next_place(rows: &RowFile, at_end: bool) -> u64
    ensures { result ≡ next_at at_end rows.now.file.counts }
{
    let counts = rows.counts();
    if at_end {
        return counts.length;
    }
    counts.dellink.unwrap_or(counts.length)
}

// Puts a new row into the data file, behind the end or where the next one goes.
fn put_in_file<F: Files>(
    rows: &mut RowFile,
    files: &mut F,
    row: &Row,
    at_end: bool,
) -> Result<u64, DataFault>
    requires writable { IsTrue F.writable }
    requires fits { fits rows.old.file.defs row.now ≡ true }
    requires long { IfTold (F.holds files.old) (IsLong rows.old.file) }
    ensures ok { IfOk result (λ at. Told (F.holds files.old) (F.holds files.new)
        (StepsNoted (come at_end row.now) rows.old rows.new at)) }
    ensures refused { IfErr result (λ f. IfTold (F.holds files.old)
        (RefusesNoted (come at_end row.now) rows.old f)) }
    ensures appended { OnOk result (Told (F.holds files.old) (F.holds files.new)
        (AddsTo at_end rows.old.file rows.new.file row.now)) }
    ensures others { Told (F.holds files.old) (F.holds files.new) (OthersStay rows.old.file.name) }
    ensures place { IfOk result (λ at. at ≡ next_at at_end rows.old.file.counts) }
    ensures inside { IfOk result (λ at. at ≤ rows.new.file.counts.length) }
    ensures room { OnOk result (is_reached rows.new.file.counts.length rows.old.file ≡ true) }
    ensures rows { IfErr result (λ f. SaysNoRow f → ⊥) }
    ensures causes { IfErr result (slots.ByCause Never
        (LacksPlace at_end rows.old.file row.now (F.holds files.old))
        (FindsNewBad at_end rows.old.file row.now (F.holds files.old))) }
    ensures object { rows.new.file ≡ record rows.old.file { counts = rows.new.file.counts } }
    ensures unchanged { IfErr result (λ f. IfRefused f
        (F.holds files.new ≡ F.holds files.old)) }
    ensures same { OnErr result (rows.new ≡ rows.old) }
    ensures cause { HasCause read.File (F.faults files.old) (F.faults files.new) result }
{
    if at_end {
        return rows.insert_at_end(files, row);
    }
    rows.insert(files, row)
}

/// The data file of a table, and the trees of its keys in the index file.
pub struct KeyedRows {
    pub rows: RowFile,
    /// One tree for each key, in their order.
    pub trees: KeyTrees,
}

impl Drop for KeyedRows {
    fn drop(self) {
        let KeyedRows { rows: _, trees: _ } = self;
    }
}

impl KeyedRows {
    ghost use Rattle.std.specs.Prelude.{◌≡◌, ◌≤◌, ℕ, true, length, None, IfOk, IfErr, OnOk, IsTrue};
    ghost use Rattle.myi_base.specs.Holding.{Told, OthersStay};
    ghost use Rattle.myi_base.specs.Causes.{HasCause};
    ghost use Rattle.myi_pack.specs.Packed.{Values};
    ghost use Rattle.myi_pack.specs.Spelling.{fits};
    ghost use Rattle.myi_search.specs.Counting.{CountsOn};
    ghost use Rattle.myi_state.specs.State.{row_at};
    ghost use Rattle.myi_state.specs.Changes.{insert, insert_at_end, delete, update};
    ghost use Rattle.myi_slots.specs.SlotFile.{Adds, AddsNew, Never};
    ghost use Rattle.myi_rows.specs.Refusals.{LacksRoom, LacksEnd, LacksOther, LacksReach};
    ghost use Rattle.myi_pair.specs.FirstRows.{key_numbers};
    ghost use Rattle.myi_tablestate.specs.Keyed.{first_holder};
    ghost use Rattle.myi_rowtrees.specs.RowLists.{row_pairs};
    ghost use Rattle.myi_rowtrees.specs.Duplicates.{others, MayRepeat};
    ghost use Rattle.myi_keyedrows.specs.declared.fault.KeyedFault.TheVariants.{File};
    ghost use Rattle.myi_keyedrows.specs.Refusals.{ByCause, FindsNoneAt, LacksPlace};
    ghost use Rattle.myi_keyedrows.specs.KeyedRows.{IsFit, IsKept, IfHold, StillHold, Makes, Refuses, IfReply, IsLeft, IsSameTable, ChangesItsOwn};
    ghost use Rattle.myi_keytrees.specs.Trees.{SameKinds};
    ghost use Rattle.myi_keyedrows.specs.Checking.{come, AddsTo, IsHeldBy, Looks, HasPairsAt, IsAbsent};

    // Refuses a row with these pairs where another row has its complete key in a unique key. Of a row that is in the
    // table its own pointer is given.
    fn refuse_duplicate<F: Files>(
        &mut self,
        files: &mut F,
        defs: &Defs,
        pairs: &[Pair],
        own: Option<u64>,
    ) -> Result<(), KeyedFault>
        requires writable { IsTrue F.writable }
        requires each { length pairs.now ≡ length defs.now.keys }
        requires defs { self.old.rows.file.defs ≡ defs.now }
        requires fit { IsFit self.old }
        requires kept { IsKept (F.holds files.old) self.old }
        ensures none { OnOk result (IfHold (F.holds files.old) self.old (λ m bytes s.
            (values : Values) (pointer : ℕ) → pairs.now ≡ row_pairs defs.now values pointer
            → first_holder defs.now values (others defs.now own s.rows)
            (key_numbers defs.now) ≡ None)) }
        ensures held { IfErr result (λ f. IfHold (F.holds files.old) self.old (λ m bytes s.
            (values : Values) (pointer : ℕ) → pairs.now ≡ row_pairs defs.now values pointer
            → IsHeldBy (first_holder defs.now values
            (others defs.now own s.rows) (key_numbers defs.now)) f)) }
        ensures causes { IfErr result (ByCause Never (λ key. (values : Values) (pointer : ℕ)
            → pairs.now ≡ row_pairs defs.now values pointer → MayRepeat defs.now values key) ⊥) }
        ensures looks { Looks (F.holds files.old) (F.holds files.new) self.old self.new }
        ensures cause { HasCause File (F.faults files.old) (F.faults files.new) result }
        ensures reads { F.reads files.old ≤ F.reads files.new }
    {
        pointers_lead_to_rows();
        let found = first_duplicate(files, &mut self.trees, defs, pairs, own)?;
        let Some(found) = found else { return Ok(()) };
        let end = self.rows.counts().length;
        Err(KeyedFault::Duplicate {
            key: found.key,
            at: position_of(defs, found.row, end),
        })
    }

    // Puts a new row behind the end, or where the next one goes.
    fn insert_row<F: Files>(
        &mut self,
        alloc: Global,
        files: &mut F,
        defs: &Defs,
        row: &Row,
        at_end: bool,
    ) -> Result<u64, KeyedFault>
        requires writable { IsTrue F.writable }
        requires fits { fits defs.now row.now ≡ true }
        requires defs { self.old.rows.file.defs ≡ defs.now }
        requires fit { IsFit self.old }
        requires kept { IsKept (F.holds files.old) self.old }
        ensures made { IfOk result (Makes (come at_end row.now) (F.holds files.old)
            (F.holds files.new) self.old self.new) }
        ensures appended { OnOk result (Told (F.holds files.old) (F.holds files.new)
            (AddsTo at_end self.old.rows.file self.new.rows.file row.now)) }
        ensures refused { IfErr result (Refuses (come at_end row.now) (F.holds files.old)
            self.old) }
        ensures causes { IfErr result (ByCause Never (MayRepeat defs.now row.now)
            (LacksPlace at_end self.old.rows.file row.now (F.holds files.old))) }
        ensures unchanged { IfErr result (λ f. IfReply f
            (StillHold (F.holds files.old) (F.holds files.new) self.old self.new)) }
        ensures apart { IfErr result (λ f. IfReply f
            (Told (F.holds files.old) (F.holds files.new) (OthersStay self.old.trees.cache.name))) }
        ensures others { ChangesItsOwn (F.holds files.old) (F.holds files.new) self.old }
        ensures left { IfErr result (λ f. IfReply f (IsLeft self.old self.new)) }
        ensures kinds { SameKinds self.old.trees.places self.new.trees.places }
        ensures counted { CountsOn self.old.trees.cache self.new.trees.cache }
        ensures same { IsSameTable self.old self.new }
        ensures fit { IsFit self.new }
        ensures cause { HasCause File (F.faults files.old) (F.faults files.new) result }
    {
        lists_follow_rows();
        new_rows_are_in_no_list();
        keyed_changes_keep_tables();
        keyed_refusals_come_in_order();
        keyed_steps_are_steps();
        let pointer = pointer_of(defs, next_place(&self.rows, at_end));
        let made = pairs_of_row(alloc, defs, row, pointer)?;
        let pairs = made.as_slice();
        self.refuse_duplicate(files, defs, pairs, None)?;
        let at = put_in_file(&mut self.rows, files, row, at_end)?;
        put_row(files, &mut self.trees, pairs)?;
        Ok(at)
    }

    /// Puts a new row into the first deleted slot, or into deleted blocks and behind the end what they do not hold,
    /// and answers its position. Where the object stands for a table the answer, also a refusal, is the reply of the
    /// step.
    pub fn insert<F: Files>(
        &mut self,
        alloc: Global,
        files: &mut F,
        defs: &Defs,
        row: &Row,
    ) -> Result<u64, KeyedFault>
        requires writable { IsTrue F.writable }
        requires fits { fits defs.now row.now ≡ true }
        requires defs { self.old.rows.file.defs ≡ defs.now }
        requires fit { IsFit self.old }
        requires kept { IsKept (F.holds files.old) self.old }
        ensures made { IfOk result (Makes (insert row.now) (F.holds files.old) (F.holds files.new)
            self.old self.new) }
        ensures appended { OnOk result (Told (F.holds files.old) (F.holds files.new)
            (AddsNew self.old.rows.file self.new.rows.file row.now)) }
        ensures refused { IfErr result (Refuses (insert row.now) (F.holds files.old) self.old) }
        ensures causes { IfErr result (ByCause Never (MayRepeat defs.now row.now)
            (LacksRoom self.old.rows.file row.now (F.holds files.old))) }
        ensures unchanged { IfErr result (λ f. IfReply f
            (StillHold (F.holds files.old) (F.holds files.new) self.old self.new)) }
        ensures apart { IfErr result (λ f. IfReply f
            (Told (F.holds files.old) (F.holds files.new) (OthersStay self.old.trees.cache.name))) }
        ensures others { ChangesItsOwn (F.holds files.old) (F.holds files.new) self.old }
        ensures left { IfErr result (λ f. IfReply f (IsLeft self.old self.new)) }
        ensures kinds { SameKinds self.old.trees.places self.new.trees.places }
        ensures counted { CountsOn self.old.trees.cache self.new.trees.cache }
        ensures same { IsSameTable self.old self.new }
        ensures fit { IsFit self.new }
        ensures cause { HasCause File (F.faults files.old) (F.faults files.new) result }
    {
        self.insert_row(alloc, files, defs, row, false)
    }

    /// Puts a new row behind the end, whatever is deleted, and answers its position. Where the object stands for a
    /// table the answer, also a refusal, is the reply of the step.
    pub fn insert_at_end<F: Files>(
        &mut self,
        alloc: Global,
        files: &mut F,
        defs: &Defs,
        row: &Row,
    ) -> Result<u64, KeyedFault>
        requires writable { IsTrue F.writable }
        requires fits { fits defs.now row.now ≡ true }
        requires defs { self.old.rows.file.defs ≡ defs.now }
        requires fit { IsFit self.old }
        requires kept { IsKept (F.holds files.old) self.old }
        ensures made { IfOk result (Makes (insert_at_end row.now) (F.holds files.old)
            (F.holds files.new) self.old self.new) }
        ensures appended { OnOk result (Told (F.holds files.old) (F.holds files.new)
            (Adds self.old.rows.file self.new.rows.file row.now)) }
        ensures refused { IfErr result (Refuses (insert_at_end row.now) (F.holds files.old)
            self.old) }
        ensures causes { IfErr result (ByCause Never (MayRepeat defs.now row.now)
            (LacksEnd self.old.rows.file row.now)) }
        ensures unchanged { IfErr result (λ f. IfReply f
            (StillHold (F.holds files.old) (F.holds files.new) self.old self.new)) }
        ensures apart { IfErr result (λ f. IfReply f
            (Told (F.holds files.old) (F.holds files.new) (OthersStay self.old.trees.cache.name))) }
        ensures others { ChangesItsOwn (F.holds files.old) (F.holds files.new) self.old }
        ensures left { IfErr result (λ f. IfReply f (IsLeft self.old self.new)) }
        ensures kinds { SameKinds self.old.trees.places self.new.trees.places }
        ensures counted { CountsOn self.old.trees.cache self.new.trees.cache }
        ensures same { IsSameTable self.old self.new }
        ensures fit { IsFit self.new }
        ensures cause { HasCause File (F.faults files.old) (F.faults files.new) result }
    {
        self.insert_row(alloc, files, defs, row, true)
    }

    // The pairs of the row at a position.
    fn pairs_at<F: Files>(
        &mut self,
        alloc: Global,
        files: &mut F,
        defs: &Defs,
        at: u64,
    ) -> Result<Vec<Pair>, KeyedFault>
        requires defs { self.old.rows.file.defs ≡ defs.now }
        requires fit { IsFit self.old }
        requires kept { IsKept (F.holds files.old) self.old }
        ensures pairs { IfOk result (λ pairs. IfHold (F.holds files.old) self.old (λ m own s.
            HasPairsAt defs.now at s.rows pairs.items)) }
        ensures each { IfOk result (λ pairs. length pairs.items ≡ length defs.now.keys) }
        ensures absent { IfErr result (λ f. IfHold (F.holds files.old) self.old (λ m own s.
            IsAbsent at (row_at at s.rows) f)) }
        ensures causes { IfErr result (ByCause (FindsNoneAt self.old.rows.file
            self.new.rows.places at (F.holds files.old)) Never ⊥) }
        ensures still { StillHold (F.holds files.old) (F.holds files.new) self.old self.new }
        ensures file { self.new.rows.file ≡ self.old.rows.file }
        ensures trees { self.new.trees ≡ self.old.trees }
        ensures holds { F.holds files.new ≡ F.holds files.old }
        ensures cause { HasCause File (F.faults files.old) (F.faults files.new) result }
    {
        let row = self.rows.read_at(files, at)?;
        let pointer = pointer_of(defs, at);
        let pairs = pairs_of_row(alloc, defs, &row, pointer)?;
        Ok(pairs)
    }

    /// Takes the row at a position away. Where the object stands for a table the answer, also a refusal, is the reply
    /// of the step.
    pub fn delete<F: Files>(
        &mut self,
        alloc: Global,
        files: &mut F,
        defs: &Defs,
        at: u64,
    ) -> Result<(), KeyedFault>
        requires writable { IsTrue F.writable }
        requires defs { self.old.rows.file.defs ≡ defs.now }
        requires fit { IsFit self.old }
        requires kept { IsKept (F.holds files.old) self.old }
        ensures made { OnOk result (Makes (delete at) (F.holds files.old) (F.holds files.new)
            self.old self.new at) }
        ensures refused { IfErr result (Refuses (delete at) (F.holds files.old) self.old) }
        ensures causes { IfErr result (ByCause (FindsNoneAt self.old.rows.file
            self.new.rows.places at (F.holds files.old)) Never
            (LacksReach self.old.rows.file self.new.rows.places at)) }
        ensures unchanged { IfErr result (λ f. IfReply f
            (StillHold (F.holds files.old) (F.holds files.new) self.old self.new)) }
        ensures apart { IfErr result (λ f. IfReply f (F.holds files.new ≡ F.holds files.old)) }
        ensures others { ChangesItsOwn (F.holds files.old) (F.holds files.new) self.old }
        ensures left { IfErr result (λ f. IfReply f (IsLeft self.old self.new)) }
        ensures kinds { SameKinds self.old.trees.places self.new.trees.places }
        ensures counted { CountsOn self.old.trees.cache self.new.trees.cache }
        ensures same { IsSameTable self.old self.new }
        ensures fit { IsFit self.new }
        ensures cause { HasCause File (F.faults files.old) (F.faults files.new) result }
    {
        lists_follow_rows();
        keyed_changes_keep_tables();
        keyed_refusals_come_in_order();
        keyed_steps_are_steps();
        let had = self.pairs_at(alloc, files, defs, at)?;
        self.rows.delete_at(files, at)?;
        take_row(files, &mut self.trees, had.as_slice())?;
        Ok(())
    }

    /// Gives the row at a position, which it keeps, other values. Its own key does not count as that of another row,
    /// and the tree of a key that stays is left alone. Where the object stands for a table the answer, also a refusal, is
    /// the reply of the step.
    pub fn update<F: Files>(
        &mut self,
        alloc: Global,
        files: &mut F,
        defs: &Defs,
        at: u64,
        row: &Row,
    ) -> Result<(), KeyedFault>
        requires writable { IsTrue F.writable }
        requires fits { fits defs.now row.now ≡ true }
        requires defs { self.old.rows.file.defs ≡ defs.now }
        requires fit { IsFit self.old }
        requires kept { IsKept (F.holds files.old) self.old }
        ensures made { OnOk result (Makes (update at row.now) (F.holds files.old)
            (F.holds files.new) self.old self.new at) }
        ensures refused { IfErr result (Refuses (update at row.now) (F.holds files.old) self.old) }
        ensures causes { IfErr result (ByCause (FindsNoneAt self.old.rows.file
            self.new.rows.places at (F.holds files.old)) (MayRepeat defs.now row.now)
            (LacksOther self.old.rows.file self.new.rows.places at row.now (F.holds files.old))) }
        ensures unchanged { IfErr result (λ f. IfReply f
            (StillHold (F.holds files.old) (F.holds files.new) self.old self.new)) }
        ensures apart { IfErr result (λ f. IfReply f
            (Told (F.holds files.old) (F.holds files.new) (OthersStay self.old.trees.cache.name))) }
        ensures others { ChangesItsOwn (F.holds files.old) (F.holds files.new) self.old }
        ensures left { IfErr result (λ f. IfReply f (IsLeft self.old self.new)) }
        ensures kinds { SameKinds self.old.trees.places self.new.trees.places }
        ensures counted { CountsOn self.old.trees.cache self.new.trees.cache }
        ensures same { IsSameTable self.old self.new }
        ensures fit { IsFit self.new }
        ensures cause { HasCause File (F.faults files.old) (F.faults files.new) result }
    {
        lists_follow_rows();
        new_rows_are_in_no_list();
        keyed_changes_keep_tables();
        keyed_refusals_come_in_order();
        keyed_steps_are_steps();
        key_lists_are_in_order();
        let had = self.pairs_at(alloc, files, defs, at)?;
        let pointer = pointer_of(defs, at);
        let made = pairs_of_row(alloc, defs, row, pointer)?;
        let pairs = made.as_slice();
        self.refuse_duplicate(files, defs, pairs, Some(pointer))?;
        self.rows.update_at(files, at, row)?;
        move_row(files, &mut self.trees, had.as_slice(), pairs)?;
        Ok(())
    }
}
