//! `KeyTrees`: the trees of all keys, which stand for a list of pairs each.
use myi_base::Sequence;
use myi_btree::{Pair, Place, Room, TreeFault, walks_add_their_own};
use myi_insertion::{insert, remove};
use myi_io::Files;
use myi_keycache::{CacheSetup, Counters, KeyCache};
use myi_keys::KeyVal;
use myi_search::{TreeCursor, find, next_after, searches_are_short};
use std::alloc::{AllocError, Global};
use std::marker::Model;

/// The trees of all keys of a table, by the number of the key.
pub struct KeyTrees {
    alloc: Global,
    places: Vec<Place>,
    room: Room,
    cache: KeyCache,
}

impl Drop for KeyTrees {
    fn drop(self) {
        let KeyTrees {
            alloc: _,
            places: _,
            room: _,
            cache: _,
        } = self;
    }
}

impl Model for KeyTrees {
    ghost use Rattle.std.specs.List.{AllByRecursion};
    ghost use Rattle.myi_btree.specs.Sizes.{IsPlaced};
    ghost use Rattle.myi_keytrees.specs.Trees.{Trees};

    ghost Value = { Trees };

    ghost view = { λ t. record { places = t.places.items; room = t.room; cache = t.cache } };

    ghost invariant = { λ t. AllByRecursion IsPlaced t.places.items };
}

impl KeyTrees {
    ghost use Rattle.std.specs.Prelude.{◌≡◌, ◌≢◌, ◌<◌, ◌≤◌, ◌^◌, ◌%◌, ◌-◌, ℕ, List, [], true, false, min, length, is_some};
    ghost use Rattle.std.specs.Prelude.{IsOk, IfOk, IfErr, OnOk, OnErr, IsTrue, HoldsAt};
    ghost use Rattle.std.specs.List.{AllByRecursion};
    ghost use Rattle.std.specs.Option.{option_copied};
    ghost use Rattle.myi_base.specs.Holding.{Holding, Told, OthersStay};
    ghost use Rattle.myi_base.specs.Causes.{HasCause};
    ghost use Rattle.myi_keycache.specs.Setup.{IsSetup};
    ghost use Rattle.myi_keycache.specs.Counts.{no_counts};
    ghost use Rattle.myi_keycache.specs.Kept.{AllWritten};
    ghost use Rattle.myi_keycache.specs.Caching.{pages_of, IsCurrent, Stays};
    ghost use Rattle.myi_btree.specs.declared.fault.TreeFault.TheVariants.{File};
    ghost use Rattle.myi_keylist.specs.declared.pair.Pair.{Pair};
    ghost use Rattle.myi_btree.specs.declared.place.Place.{Place};
    ghost use Rattle.myi_btree.specs.Faults.{DamagedAt, IsFileOrMemory};
    ghost use Rattle.myi_btree.specs.Sizes.{IsPlaced};
    ghost use Rattle.myi_btree.specs.CachedTrees.{ReadsOnly};
    ghost use Rattle.myi_search.specs.Least.{IsLeastRow, IsLeastAbove};
    ghost use Rattle.myi_search.specs.Cursor.{StandsIn, Advances};
    ghost use Rattle.myi_search.specs.Counting.{CountsOn};
    ghost use Rattle.myi_insertion.specs.Rooms.{IsWhole};
    ghost use Rattle.myi_insertion.specs.Removal.{has_pair};
    ghost use Rattle.myi_keytrees.specs.Trees.{SameKinds};
    ghost use Rattle.myi_keytrees.specs.InFile.{bytes_of_free};
    ghost use Rattle.myi_keytrees.specs.Standing.{list_of, put_in, taken_out, Stand, StandThen, IfStand, StillStand, CanSearch, RoseByLevels};

    /// The trees at these places, by the number of their key, in the index file of that name. All bytes from `end` on
    /// are free, and none before it. Nothing is read yet.
    pub fn open(
        alloc: Global,
        name: &str,
        setup: CacheSetup,
        places: Vec<Place>,
        end: u64,
    ) -> Result<KeyTrees, AllocError>
        requires setup { IsSetup setup }
        requires placed { AllByRecursion IsPlaced places.items }
        requires whole { end % 1024 ≡ 0 }
        ensures places { IfOk result (λ trees. trees.places ≡ places.items) }
        ensures room { IfOk result (λ trees. trees.room ≡ record { end = end; free = [] }) }
        ensures whole { IfOk result (λ trees. IsWhole trees.room) }
        ensures name { IfOk result (λ trees. trees.cache.name ≡ name.now) }
        ensures setup { IfOk result (λ trees. trees.cache.setup ≡ setup) }
        ensures kept { IfOk result (λ trees. pages_of trees.cache ≡ []) }
        ensures counted { IfOk result (λ trees. trees.cache.counters ≡ no_counts) }
        ensures current { IfOk result (λ trees. (m : Holding) → IsCurrent trees.cache m) }
    {
        let cache = KeyCache::new(alloc, name, setup)?;
        let room = Room {
            end,
            free: Sequence::new(Vec::new(alloc)),
        };
        Ok(KeyTrees {
            alloc,
            places,
            room,
            cache,
        })
    }

    /// The least row of a key value in the list of a key, and None where none has it. Where the trees stand for some
    /// lists they do so after each answer, and no more pages are asked for and read than a tree of so many pairs has levels,
    /// and one.
    pub fn find<F: Files>(
        &mut self,
        files: &mut F,
        key: usize,
        value: &KeyVal,
    ) -> Result<Option<u64>, TreeFault>
        requires key { key < length self.old.places }
        requires kept { CanSearch F.writable (F.holds files.old) self.old }
        ensures least { IfOk result (λ row. IfStand (F.holds files.old) self.old (λ m own lists.
            IsLeastRow value.now (list_of lists key) row)) }
        ensures stand { StillStand (F.holds files.old) (F.holds files.new) self.old self.new }
        ensures never { IfErr result (DamagedAt (λ at.
            IfStand (F.holds files.old) self.old (λ m own lists. ⊥))) }
        ensures places { self.new.places ≡ self.old.places }
        ensures room { self.new.room ≡ self.old.room }
        ensures cache { ReadsOnly (F.holds files.old) (F.holds files.new)
            self.old.cache self.new.cache }
        ensures counted { CountsOn self.old.cache self.new.cache }
        ensures few { IfStand (F.holds files.old) self.old (λ m own lists.
            RoseByLevels (length (list_of lists key)) (F.reads files.old) (F.reads files.new)) }
        ensures asked { IfStand (F.holds files.old) self.old (λ m own lists.
            RoseByLevels (length (list_of lists key)) self.old.cache.counters.read_requests
            self.new.cache.counters.read_requests) }
        ensures cause { HasCause File (F.faults files.old) (F.faults files.new) result }
        ensures reads { F.reads files.old ≤ F.reads files.new }
    {
        searches_are_short();
        walks_add_their_own();
        let place = self.places[key];
        let row = find(self.alloc, &place, files, &mut self.cache, value)?;
        Ok(row)
    }

    /// The least pair above the given one in the list of a key, or where none is given the least of all, and None
    /// where there is none. What is said of `find` beside its answer holds of this call too.
    pub fn next_after<F: Files>(
        &mut self,
        files: &mut F,
        key: usize,
        after: Option<&Pair>,
    ) -> Result<Option<Pair>, TreeFault>
        requires key { key < length self.old.places }
        requires kept { CanSearch F.writable (F.holds files.old) self.old }
        ensures least { IfOk result (λ pair. IfStand (F.holds files.old) self.old (λ m own lists.
            IsLeastAbove (option_copied after.entry) (list_of lists key) pair)) }
        ensures stand { StillStand (F.holds files.old) (F.holds files.new) self.old self.new }
        ensures never { IfErr result (DamagedAt (λ at.
            IfStand (F.holds files.old) self.old (λ m own lists. ⊥))) }
        ensures places { self.new.places ≡ self.old.places }
        ensures room { self.new.room ≡ self.old.room }
        ensures cache { ReadsOnly (F.holds files.old) (F.holds files.new)
            self.old.cache self.new.cache }
        ensures counted { CountsOn self.old.cache self.new.cache }
        ensures few { IfStand (F.holds files.old) self.old (λ m own lists.
            RoseByLevels (length (list_of lists key)) (F.reads files.old) (F.reads files.new)) }
        ensures asked { IfStand (F.holds files.old) self.old (λ m own lists.
            RoseByLevels (length (list_of lists key)) self.old.cache.counters.read_requests
            self.new.cache.counters.read_requests) }
        ensures cause { HasCause File (F.faults files.old) (F.faults files.new) result }
        ensures reads { F.reads files.old ≤ F.reads files.new }
    {
        searches_are_short();
        walks_add_their_own();
        let place = self.places[key];
        let pair = next_after(self.alloc, &place, files, &mut self.cache, after)?;
        Ok(pair)
    }

    /// A cursor behind a pair, whether it is in a list or not, or before all where none is given. It has read no pair,
    /// and so stands in the list of each key.
    pub fn cursor(&self, after: Option<&Pair>) -> Result<TreeCursor, AllocError>
        ensures { IfOk result (λ cursor. cursor ≡ record {
          last = option_copied after.entry;
          ahead = [];
        }) }
    {
        match after {
            Some(pair) => {
                let cursor = TreeCursor::behind(self.alloc, pair)?;
                Ok(cursor)
            }
            None => Ok(TreeCursor::new(self.alloc)),
        }
    }

    /// A cursor behind the pair that this one stands behind, which has read no pair: for a list that may have
    /// changed since this one was made.
    pub fn cursor_again(&self, cursor: &TreeCursor) -> Result<TreeCursor, AllocError>
        ensures { IfOk result (λ again. again ≡ record {
          last = cursor.now.last;
          ahead = [];
        }) }
    {
        let Some((code, row)) = cursor.pair() else {
            return Ok(TreeCursor::new(self.alloc));
        };
        let mut key = Vec::new(self.alloc);
        key.extend_from_slice(code)?;
        let pair = Pair {
            key: KeyVal::of_code(key),
            row,
        };
        let again = TreeCursor::behind(self.alloc, &pair)?;
        Ok(again)
    }

    /// Goes on with a cursor behind the next pair in the list of a key, and answers whether there is one. It is asked of
    /// the cursor that it stands in the list, as it does afterwards while the list stays as it is. What is
    /// said of `find` beside its answer holds of this call too; where the cursor has read a pair before, nothing is
    /// asked for.
    pub fn advance<F: Files>(
        &mut self,
        files: &mut F,
        key: usize,
        cursor: &mut TreeCursor,
    ) -> Result<bool, TreeFault>
        requires key { key < length self.old.places }
        requires kept { CanSearch F.writable (F.holds files.old) self.old }

        // It stands behind the least pair above the one before, or there is none and it stays.
        ensures next { IfOk result (λ there. IfStand (F.holds files.old) self.old (λ m own lists.
            StandsIn (list_of lists key) cursor.old
            → Advances (list_of lists key) cursor.old cursor.new there)) }
        ensures some { IfOk result (λ there. there ≡ true → is_some cursor.new.last ≡ true) }
        ensures end { IfOk result (λ there. there ≡ false → cursor.new ≡ cursor.old) }
        ensures refused { OnErr result (cursor.new ≡ cursor.old) }

        // What was read before is answered with no page asked for.
        ensures quiet { cursor.old.ahead ≢ []
            → IsOk result × (files.new ≡ files.old) × (self.new ≡ self.old) }

        ensures stand { StillStand (F.holds files.old) (F.holds files.new) self.old self.new }
        ensures never { IfErr result (DamagedAt (λ at.
            IfStand (F.holds files.old) self.old (λ m own lists. ⊥))) }
        ensures places { self.new.places ≡ self.old.places }
        ensures room { self.new.room ≡ self.old.room }
        ensures cache { ReadsOnly (F.holds files.old) (F.holds files.new)
            self.old.cache self.new.cache }
        ensures counted { CountsOn self.old.cache self.new.cache }
        ensures few { IfStand (F.holds files.old) self.old (λ m own lists.
            RoseByLevels (length (list_of lists key)) (F.reads files.old) (F.reads files.new)) }
        ensures asked { IfStand (F.holds files.old) self.old (λ m own lists.
            RoseByLevels (length (list_of lists key)) self.old.cache.counters.read_requests
            self.new.cache.counters.read_requests) }
        ensures cause { HasCause File (F.faults files.old) (F.faults files.new) result }
        ensures reads { F.reads files.old ≤ F.reads files.new }
    {
        searches_are_short();
        walks_add_their_own();
        let place = self.places[key];
        let more = cursor.advance(self.alloc, &place, files, &mut self.cache)?;
        Ok(more)
    }

    /// Puts a pair that is not there into the list of a key. After a refusal nothing is said of the trees.
    pub fn insert<F: Files>(
        &mut self,
        files: &mut F,
        key: usize,
        pair: &Pair,
    ) -> Result<(), TreeFault>
        requires writable { IsTrue F.writable }
        requires key { key < length self.old.places }
        requires whole { IsWhole self.old.room }
        requires row { HoldsAt (λ (p : Place). pair.now.row < 256 ^ p.rec_ref) self.old.places key }
        ensures inserted { OnOk result (IfStand (F.holds files.old) self.old (λ m own lists.
            has_pair pair.now (list_of lists key) ≡ false
            → StandThen self.old m own (F.holds files.new) self.new (put_in key pair.now lists))) }
        ensures never { IfErr result (DamagedAt (λ at.
            IfStand (F.holds files.old) self.old (λ m own lists. ⊥))) }
        ensures kinds { SameKinds self.old.places self.new.places }
        ensures whole { IsWhole self.new.room }
        ensures others { Told (F.holds files.old) (F.holds files.new)
            (OthersStay self.old.cache.name) }
        ensures name { self.new.cache.name ≡ self.old.cache.name }
        ensures counted { CountsOn self.old.cache self.new.cache }
        ensures cause { HasCause File (F.faults files.old) (F.faults files.new) result }
        ensures reads { F.reads files.old ≤ F.reads files.new }
    {
        let mut place = self.places[key];
        insert(
            self.alloc,
            &mut place,
            files,
            &mut self.cache,
            &mut self.room,
            pair,
        )?;
        self.places[key] = place;
        Ok(())
    }

    /// Takes a pair out of the list of a key, and answers whether it was there. After a refusal nothing is said of
    /// the trees.
    pub fn remove<F: Files>(
        &mut self,
        files: &mut F,
        key: usize,
        pair: &Pair,
    ) -> Result<bool, TreeFault>
        requires writable { IsTrue F.writable }
        requires key { key < length self.old.places }
        requires whole { IsWhole self.old.room }
        ensures there { IfOk result (λ there. IfStand (F.holds files.old) self.old (λ m own lists.
            there ≡ has_pair pair.now (list_of lists key))) }
        ensures removed { OnOk result (IfStand (F.holds files.old) self.old (λ m own lists.
            StandThen self.old m own (F.holds files.new) self.new
            (taken_out key pair.now lists))) }

        // Where the pair was not there nothing changes: nothing was put, and the same is lent.
        ensures kept { IfOk result (λ there. there ≡ false → (self.new.places ≡ self.old.places)
            × (self.new.room ≡ self.old.room)) }
        ensures quiet { IfOk result (λ there. there ≡ false → ReadsOnly
            (F.holds files.old) (F.holds files.new) self.old.cache self.new.cache) }
        ensures same { IfOk result (λ there. there ≡ false → Told
            (F.holds files.old) (F.holds files.new) (λ m n. (own : ℕ → ℕ) (lists : List (List Pair))
            → Stand self.old m own lists → Stays self.old.cache self.new.cache m n)) }

        ensures never { IfErr result (DamagedAt (λ at.
            IfStand (F.holds files.old) self.old (λ m own lists. ⊥))) }
        ensures kinds { SameKinds self.old.places self.new.places }
        ensures whole { IsWhole self.new.room }
        ensures others { Told (F.holds files.old) (F.holds files.new)
            (OthersStay self.old.cache.name) }
        ensures name { self.new.cache.name ≡ self.old.cache.name }
        ensures counted { CountsOn self.old.cache self.new.cache }
        ensures cause { HasCause File (F.faults files.old) (F.faults files.new) result }
        ensures reads { F.reads files.old ≤ F.reads files.new }
    {
        let mut place = self.places[key];
        let there = remove(
            self.alloc,
            &mut place,
            files,
            &mut self.cache,
            &mut self.room,
            pair,
        )?;
        self.places[key] = place;
        Ok(there)
    }

    /// Writes all that was put: where the trees stand for some lists, each stands in the file then
    /// (`written_trees_stand_in_the_file`). After a refusal they still stand, and the call may be made again.
    pub fn flush<F: Files>(&mut self, files: &mut F) -> Result<(), TreeFault>
        requires writable { IsTrue F.writable }
        ensures written { OnOk result (AllWritten (pages_of self.new.cache)) }
        ensures stand { StillStand (F.holds files.old) (F.holds files.new) self.old self.new }
        ensures places { self.new.places ≡ self.old.places }
        ensures room { self.new.room ≡ self.old.room }
        ensures quiet { AllWritten (pages_of self.old.cache) → files.new ≡ files.old }
        ensures others { Told (F.holds files.old) (F.holds files.new)
            (OthersStay self.old.cache.name) }
        ensures name { self.new.cache.name ≡ self.old.cache.name }
        ensures counted { CountsOn self.old.cache self.new.cache }
        ensures faults { IfErr result IsFileOrMemory }
        ensures cause { HasCause File (F.faults files.old) (F.faults files.new) result }
        ensures reads { F.reads files.new ≡ F.reads files.old }
    {
        self.cache.flush(files)?;
        Ok(())
    }

    /// How many trees there are.
    pub fn count(&self) -> usize
        ensures { result ≡ length self.now.places }
    {
        self.places.len()
    }

    /// Where the tree of a key stands, and how its pages are made.
    pub fn place(&self, key: usize) -> Place
        requires { key < length self.now.places }
        ensures place { HoldsAt (λ (p : Place). p ≡ result) self.now.places key }
        ensures placed { IsPlaced result }
    {
        self.places[key]
    }

    /// Where the room behind all pages begins.
    pub fn end(&self) -> u64
        ensures { result ≡ self.now.room.end }
    {
        self.room.end
    }

    /// How many bytes the free pages have, but no more than 2^64 - 1 (`bytes_are_counted` says that there are never more
    /// where the trees stand).
    pub fn room_bytes(&self) -> u64
        ensures { result ≡ min (bytes_of_free self.now.room.free) (2 ^ 64 - 1) }
    {
        let free = self.room.free.as_slice();
        let mut bytes: u64 = 0;
        let mut i = free.len();
        while i > 0 {
            i -= 1;
            bytes = bytes.saturating_add(free[i].1 as u64);
        }
        bytes
    }

    /// How often the key cache was asked, and how often it went to the file.
    pub fn counters(&self) -> Counters
        ensures counters { result ≡ self.now.cache.counters }
        ensures fewer { result.reads ≤ result.read_requests }
    {
        self.cache.counters()
    }
}
