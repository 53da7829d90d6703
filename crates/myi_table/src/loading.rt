//! Loading a table.
ghost use Rattle.std.specs.Prelude.{◌≡◌, ◌⊎◌, ◌<◌, ◌≤◌, ◌^◌, ◌+◌, ◌*◌, ◌/◌, ◌%◌, length, [], None, false, IfOk, IfErr, IfSome};
ghost use Rattle.std.specs.List.{AllByRecursion};
ghost use Rattle.myi_base.specs.Holding.{Holding, IfTold};
ghost use Rattle.myi_base.specs.Causes.{HasCause};
ghost use Rattle.myi_defs.specs.Sound.{IsSound};
ghost use Rattle.myi_keycache.specs.Counts.{no_counts};
ghost use Rattle.myi_keycache.specs.Setup.{IsSetup};
ghost use Rattle.myi_keycache.specs.Caching.{pages_of, IsCurrent};
ghost use Rattle.myi_btree.specs.declared.place.Place.{Place};
ghost use Rattle.myi_btree.specs.Sizes.{IsPlaced};
ghost use Rattle.myi_insertion.specs.Rooms.{IsWhole};
ghost use Rattle.myi_slots.specs.SlotFile.{counts_in};
ghost use Rattle.myi_rowtrees.specs.Places.{places_of};
ghost use Rattle.myi_keyedrows.specs.Files.{used_end};
ghost use Rattle.myi_table.specs.declared.fault.LoadFault.TheVariants as fault;
ghost use Rattle.myi_table.specs.Loading.{IsLoaded, IsRefused, IsCutOff};

use crate::fault::LoadFault;
use crate::table::Table;
use myi_defs::{Defs, definitions_are_sound};
use myi_header::{State, first_page, read_state};
use myi_io::Files;
use myi_keycache::{CacheSetup, Counters};
use myi_keyedrows::{KeyedRows, opened_files_stand};
use myi_keytrees::KeyTrees;
use myi_opening::{TableFile, open_table};
use myi_rows::RowFile;
use myi_rowtrees::places_of;
use std::alloc::{AllocError, Global};

/// Pages stand at multiples of this place.
const PAGE_UNIT: u64 = 1024;

// Where an index file with this state ends, or its header.
fn used_end(defs: &Defs, header: &State) -> u64
    requires { IsSound defs.now }
    ensures { result ≡ used_end defs.now header.now }
{
    first_page(defs).max(header.key_file_length)
}

// The first place from that end on where a page may stand, and None where that is past 2^64 - 1.
fn room_begin(used: u64) -> Option<u64>
    ensures begin { IfSome result (λ begin. begin ≡ (used + 1023) / 1024 * 1024) }
    ensures whole { IfSome result (λ begin. begin % 1024 ≡ 0) }
    ensures past { IfSome result (λ begin. used ≤ begin) }
    ensures small { IfSome result (λ begin. begin < 2 ^ 64) }
{
    let past = used.checked_add(PAGE_UNIT - 1)?;
    Some(past / PAGE_UNIT * PAGE_UNIT)
}

impl Table {
    /// The table of that name, of whose rows and trees nothing is kept yet. Where files tell what they hold, and the two
    /// files stand for a state, the table stands for that state.
    pub fn load<F: Files>(
        alloc: Global,
        files: &mut F,
        name: &str,
        setup: CacheSetup,
    ) -> Result<Table, LoadFault>
        requires setup { IsSetup setup }

        // The table of the two files, and why there is none.
        ensures loaded { IfOk result (λ t. IfTold (F.holds files.old) (IsLoaded name.now t)) }
        ensures refused { IfErr result (λ f.
            IsCutOff f ⊎ IfTold (F.holds files.old) (IsRefused name.now f)) }

        // What is known over any files.
        ensures name { IfOk result (λ t. t.name ≡ name.now) }
        ensures setup { IfOk result (λ t. t.setup ≡ setup) }
        ensures whole { IfOk result (λ t. t.broken ≡ None) }
        ensures unchanged { IfOk result (λ t. t.changed ≡ false) }
        ensures pages { IfOk result (λ t. pages_of t.rows.trees.cache ≡ []) }
        ensures counted { IfOk result (λ t. t.rows.trees.cache.counters ≡ no_counts) }
        ensures added { IfOk result (λ t. t.added ≡ no_counts) }
        ensures holds { F.holds files.new ≡ F.holds files.old }
        ensures cause { HasCause fault.File (F.faults files.old) (F.faults files.new) result }
    {
        definitions_are_sound();
        opened_files_stand();
        let index = TableFile::Index.of(alloc, name)?;
        let data = TableFile::Data.of(alloc, name)?;
        let opened = open_table(alloc, files, index.as_str(), data.as_str())?;
        let defs = opened.defs;
        let header = read_state(alloc, &defs, defs.raw.as_slice())?;
        let used = used_end(&defs, &header);
        let Some(begin) = room_begin(used) else {
            return Err(LoadFault::Memory);
        };
        let rows = open_rows(data.as_str(), &defs, &header)?;
        let trees = open_trees(index.as_str(), &defs, &header, setup, begin)?;
        let lost = header.key_empty.saturating_add(begin - used);
        Ok(Table {
            alloc,
            name: String::from_str(alloc, name)?,
            index,
            defs,
            setup,
            header,
            lost,
            rows: KeyedRows { rows, trees },
            changed: false,
            broken: None,
            added: Counters {
                read_requests: 0,
                reads: 0,
                write_requests: 0,
                writes: 0,
            },
        })
    }
}

// The rows of a data file, by the state of the header.
fn open_rows(file: &str, defs: &Defs, header: &State) -> Result<RowFile, AllocError>
    requires sound { IsSound defs.now }
    ensures file { IfOk result (λ rows. rows.file ≡ record {
      name = file.now;
      defs = defs.now;
      counts = counts_in header.now;
    }) }
    ensures noted { IfOk result (λ rows. rows.places ≡ None) }
{
    RowFile::new(defs.raw.allocator(), file, defs, header)
}

// The trees of an index file, by the roots of the header.
fn open_trees(
    index: &str,
    defs: &Defs,
    header: &State,
    setup: CacheSetup,
    begin: u64,
) -> Result<KeyTrees, AllocError>
    requires setup { IsSetup setup }
    requires sound { IsSound defs.now }
    requires roots { length header.now.roots ≡ length defs.now.keys }
    requires whole { begin % 1024 ≡ 0 }
    ensures places { IfOk result (λ trees.
        trees.places ≡ places_of defs.now header.now.roots) }
    ensures placed { IfOk result (λ trees. AllByRecursion IsPlaced trees.places) }
    ensures each { IfOk result (λ trees. length trees.places ≡ length defs.now.keys) }
    ensures pointers { IfOk result (λ trees.
        AllByRecursion (λ (p : Place). p.rec_ref ≡ defs.now.rec_ref) trees.places) }
    ensures room { IfOk result (λ trees. trees.room ≡ record { end = begin; free = [] }) }
    ensures whole { IfOk result (λ trees. IsWhole trees.room) }
    ensures name { IfOk result (λ trees. trees.cache.name ≡ index.now) }
    ensures setup { IfOk result (λ trees. trees.cache.setup ≡ setup) }
    ensures kept { IfOk result (λ trees. pages_of trees.cache ≡ []) }
    ensures counted { IfOk result (λ trees. trees.cache.counters ≡ no_counts) }
    ensures current { IfOk result (λ trees. (m : Holding) → IsCurrent trees.cache m) }
{
    let alloc = defs.raw.allocator();
    let places = places_of(alloc, defs, header.roots.as_slice())?;
    KeyTrees::open(alloc, index, setup, places, begin)
}
