//! Another object on the two files of a table.
use crate::table::Table;
use myi_base::Sequence;
use myi_btree::Place;
use myi_header::State;
use myi_keyedrows::KeyedRows;
use myi_keytrees::KeyTrees;
use myi_opening::TableFile;
use myi_rows::RowFile;
use std::alloc::AllocError;

impl Table {
    ghost use Rattle.std.specs.Prelude.{◌≡◌, [], None, IfOk};
    ghost use Rattle.std.specs.List.{AllByRecursion};
    ghost use Rattle.myi_base.specs.Holding.{Holding};
    ghost use Rattle.myi_keycache.specs.Counts.{no_counts};
    ghost use Rattle.myi_keycache.specs.Caching.{pages_of, IsCurrent};
    ghost use Rattle.myi_btree.specs.Sizes.{IsPlaced};
    ghost use Rattle.myi_slots.specs.SlotFile.{counts_in};

    /// The rows and trees of this table as another object, which has read nothing: for one that reads the same two files
    /// while the table is not changed. It does not know what the key cache of the table keeps and has not written.
    pub fn open_again(&self) -> Result<KeyedRows, AllocError>
        ensures rows { IfOk result (λ k. k.rows ≡ record {
          file = self.now.rows.rows.file;
          places = None;
        }) }
        ensures places { IfOk result (λ k. k.trees.places ≡ self.now.rows.trees.places) }
        ensures placed { IfOk result (λ k. AllByRecursion IsPlaced k.trees.places) }
        ensures room { IfOk result (λ k. k.trees.room ≡ record {
          end = self.now.rows.trees.room.end;
          free = [];
        }) }
        ensures name { IfOk result (λ k.
            k.trees.cache.name ≡ self.now.rows.trees.cache.name) }
        ensures setup { IfOk result (λ k. k.trees.cache.setup ≡ self.now.setup) }
        ensures kept { IfOk result (λ k. pages_of k.trees.cache ≡ []) }
        ensures counted { IfOk result (λ k. k.trees.cache.counters ≡ no_counts) }
        ensures current { IfOk result (λ k. (m : Holding) → IsCurrent k.trees.cache m) }
    {
        let rows = self.rows_again()?;
        let trees = self.trees_again()?;
        Ok(KeyedRows { rows, trees })
    }

    // The data file, with its numbers.
    fn rows_again(&self) -> Result<RowFile, AllocError>
        ensures file { IfOk result (λ rows. rows.file ≡ self.now.rows.rows.file) }
        ensures noted { IfOk result (λ rows. rows.places ≡ None) }
    {
        let name = TableFile::Data.of(self.alloc, self.name.as_str())?;
        RowFile::new(self.alloc, name.as_str(), &self.defs, &self.numbers())
    }

    // The state of a header with the numbers of the rows, and nothing else.
    fn numbers(&self) -> State
        ensures { counts_in result ≡ self.now.rows.rows.file.counts }
    {
        let counts = self.rows.rows.counts();
        State {
            open_count: 0,
            changed: 0,
            sortkey: 0,
            records: counts.records,
            del: counts.del,
            split: counts.split,
            dellink: counts.dellink,
            key_file_length: 0,
            data_file_length: counts.length,
            empty: counts.empty,
            key_empty: 0,
            auto_increment: 0,
            roots: Sequence::new(Vec::new(self.alloc)),
            key_map: 0,
            recover_time: 0,
            rest: Sequence::new(Vec::new(self.alloc)),
        }
    }

    // The trees, where they stand.
    fn trees_again(&self) -> Result<KeyTrees, AllocError>
        ensures places { IfOk result (λ trees. trees.places ≡ self.now.rows.trees.places) }
        ensures placed { IfOk result (λ trees. AllByRecursion IsPlaced trees.places) }
        ensures room { IfOk result (λ trees. trees.room ≡ record {
          end = self.now.rows.trees.room.end;
          free = [];
        }) }
        ensures name { IfOk result (λ trees.
            trees.cache.name ≡ self.now.rows.trees.cache.name) }
        ensures setup { IfOk result (λ trees. trees.cache.setup ≡ self.now.setup) }
        ensures kept { IfOk result (λ trees. pages_of trees.cache ≡ []) }
        ensures counted { IfOk result (λ trees. trees.cache.counters ≡ no_counts) }
        ensures current { IfOk result (λ trees. (m : Holding) → IsCurrent trees.cache m) }
    {
        let places = self.places()?;
        let end = self.rows.trees.end();
        KeyTrees::open(self.alloc, self.index.as_str(), self.setup, places, end)
    }

    // The places of the trees.
    fn places(&self) -> Result<Vec<Place>, AllocError>
        ensures places { IfOk result (λ places. places.items ≡ self.now.rows.trees.places) }
        ensures placed { IfOk result (λ places. AllByRecursion IsPlaced places.items) }
    {
        let trees = &self.rows.trees;
        let mut places = Vec::with_capacity(self.alloc, trees.count())?;
        for key in 0..trees.count() {
            places.push(trees.place(key))?;
        }
        Ok(places)
    }
}
