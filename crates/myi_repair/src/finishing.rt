//! The end of a repair: the header of the new index file, and the new files in the place of the old.
ghost use Rattle.std.specs.Prelude.{◌≡◌, ◌≤◌, ◌+◌, ◌-◌, ◌*◌, ◌^◌, ◌++◌, All, length, take, drop, replicate, IfOk, OnOk, IsTrue};
ghost use Rattle.myi_base.specs.Holding.{Told, Sets, bytes_of, resized, overwritten};
ghost use Rattle.myi_defs.specs.ReadDefs.{AreDefs};
ghost use Rattle.myi_defs.specs.Sound.{IsSound};
ghost use Rattle.myi_header.specs.StateOf.{IsPlace, rest_length};
ghost use Rattle.myi_header.specs.HeaderOf.{header_of};
ghost use Rattle.myi_repair.specs.Names.{names_of, names_for, AreApart, KeepsBut, NoWorking};
ghost use Rattle.myi_repair.specs.Outcome.{Ends, EndsCutOff, EndsIn, EndsWith};
ghost use Rattle.myi_repair.specs.Finishing.{state_set, Finishes, FinishesPart, FinishesAlone};

use crate::fault::RepairFault;
use crate::gathering::Gathered;
use crate::names::TableFiles;
use myi_base::{Sequence, u8_at};
use myi_defs::Defs;
use myi_header::{ANEW_BITS, State, print_state, stored_state};
use myi_io::Files;
use std::alloc::{AllocError, Global};

/// Writes the header, with the mark and the state that a repair sets, to the front of the working index
/// file, `NAME.TMI`, makes that file `index_length` bytes long, and gives first the working data file and
/// then the working index file the name of the old one. `now` is the moment, in seconds since 1970. Where
/// that is cut off, the working files are taken away, if there was memory for their names. Where `NAME.TMD`
/// is not there `NAME.MYD` stays, and the index file is the old one or the new one.
pub fn finish<F: Files>(
    files: &mut F,
    name: &str,
    gathered: &Gathered,
    roots: &[Option<u64>],
    index_length: u64,
    now: u64,
) -> Result<(), RepairFault>
    requires writable { IsTrue F.writable }
    requires defs { AreDefs gathered.now.defs }
    requires roots { length roots.now ≡ length gathered.now.defs.keys }
    requires places { All IsPlace roots.now }
    ensures done { OnOk result (Told (F.holds files.old) (F.holds files.new)
        (Finishes (names_for name.now) gathered.now roots.now index_length now)) }
    ensures whole { Told (F.holds files.old) (F.holds files.new)
        (FinishesPart (names_for name.now) gathered.now roots.now index_length now) }
    ensures alone { Told (F.holds files.old) (F.holds files.new)
        (FinishesAlone (names_for name.now) gathered.now roots.now index_length now) }
    ensures gone { OnOk result (Told (F.holds files.old) (F.holds files.new)
        (λ _ n. NoWorking (names_for name.now) n)) }
    ensures ends { Ends (names_for name.now) (F.holds files.old) (F.holds files.new)
        (F.faults files.old) (F.faults files.new) result }
{
    let table = TableFiles::of(gathered.defs.raw.allocator(), name)?;
    finish_table(files, &table, gathered, roots, index_length, now)
}

/// The same for the table of these files, whose working files are taken away after a refusal, each as far
/// as that succeeds.
pub fn finish_table<F: Files>(
    files: &mut F,
    table: &TableFiles,
    gathered: &Gathered,
    roots: &[Option<u64>],
    index_length: u64,
    now: u64,
) -> Result<(), RepairFault>
    requires writable { IsTrue F.writable }
    requires apart { AreApart (names_of table.now) }
    requires sound { IsSound gathered.now.defs }
    requires roots { length roots.now ≡ length gathered.now.defs.keys }
    requires places { All IsPlace roots.now }
    ensures done { OnOk result (Told (F.holds files.old) (F.holds files.new)
        (Finishes (names_of table.now) gathered.now roots.now index_length now)) }
    ensures whole { Told (F.holds files.old) (F.holds files.new)
        (FinishesPart (names_of table.now) gathered.now roots.now index_length now) }
    ensures alone { Told (F.holds files.old) (F.holds files.new)
        (FinishesAlone (names_of table.now) gathered.now roots.now index_length now) }
    ensures gone { OnOk result (Told (F.holds files.old) (F.holds files.new)
        (λ _ n. NoWorking (names_of table.now) n)) }
    ensures ends { EndsCutOff (names_of table.now) (F.holds files.old) (F.holds files.new)
        (F.faults files.old) (F.faults files.new) result }
{
    match replace(files, table, gathered, roots, index_length, now) {
        Ok(()) => Ok(()),
        Err(fault) => {
            table.clear(files);
            Err(fault)
        }
    }
}

fn replace<F: Files>(
    files: &mut F,
    table: &TableFiles,
    gathered: &Gathered,
    roots: &[Option<u64>],
    index_length: u64,
    now: u64,
) -> Result<(), RepairFault>
    requires writable { IsTrue F.writable }
    requires apart { AreApart (names_of table.now) }
    requires sound { IsSound gathered.now.defs }
    requires roots { length roots.now ≡ length gathered.now.defs.keys }
    requires places { All IsPlace roots.now }
    ensures done { OnOk result (Told (F.holds files.old) (F.holds files.new)
        (Finishes (names_of table.now) gathered.now roots.now index_length now)) }
    ensures whole { Told (F.holds files.old) (F.holds files.new)
        (FinishesPart (names_of table.now) gathered.now roots.now index_length now) }
    ensures alone { Told (F.holds files.old) (F.holds files.new)
        (FinishesAlone (names_of table.now) gathered.now roots.now index_length now) }
    ensures gone { OnOk result (Told (F.holds files.old) (F.holds files.new)
        (λ _ n. NoWorking (names_of table.now) n)) }
    ensures ends { EndsWith
        (Told (F.holds files.old) (F.holds files.new) (KeepsBut (names_of table.now)))
        (F.faults files.old) (F.faults files.new) result }
{
    let header = new_header(
        gathered.defs.raw.allocator(),
        gathered,
        roots,
        index_length,
        now,
    )?;
    put_header(files, table.new_index.as_str(), &header, index_length)?;
    files.rename(table.new_rows.as_str(), table.rows.as_str())?;
    files.rename(table.new_index.as_str(), table.index.as_str())?;
    Ok(())
}

// Writes a header to the front of a file, and makes the file that long.
fn put_header<F: Files>(
    files: &mut F,
    file: &str,
    header: &[u8],
    file_length: u64,
) -> Result<(), RepairFault>
    requires { IsTrue F.writable }
    ensures done { OnOk result (Told (F.holds files.old) (F.holds files.new) (λ m n.
        Sets file.now (resized file_length (overwritten 0 header.now (bytes_of file.now m))) m n)) }
    ensures ends { EndsIn file.now (F.holds files.old) (F.holds files.new)
        (F.faults files.old) (F.faults files.new) result }
{
    files.write_at(file, 0, header)?;
    files.cut(file, file_length)?;
    Ok(())
}

// The header of the new index file.
fn new_header(
    alloc: Global,
    gathered: &Gathered,
    roots: &[Option<u64>],
    index_length: u64,
    now: u64,
) -> Result<Vec<u8>, AllocError>
    requires sound { IsSound gathered.now.defs }
    requires roots { length roots.now ≡ length gathered.now.defs.keys }
    requires places { All IsPlace roots.now }
    ensures { IfOk result (λ header. header.items
        ≡ header_of gathered.now.defs (state_set gathered.now roots.now index_length now)) }
{
    let state = new_state(alloc, gathered, roots, index_length, now)?;
    print_state(alloc, &gathered.defs, &state)
}

// The state of the table after the repair.
fn new_state(
    alloc: Global,
    gathered: &Gathered,
    roots: &[Option<u64>],
    index_length: u64,
    now: u64,
) -> Result<State, AllocError>
    requires sound { IsSound gathered.now.defs }
    ensures state { IfOk result (λ s. s ≡ state_set gathered.now roots.now index_length now) }
    ensures rest { IfOk result (λ s. length s.rest ≡ rest_length gathered.now.defs) }
{
    let defs = &gathered.defs;
    let stored = stored_state(alloc, defs)?;
    let page_sizes = u8_at(defs.raw.as_slice(), 21) as usize;
    Ok(State {
        open_count: 0,
        changed: ANEW_BITS,
        sortkey: stored.sortkey,
        records: gathered.report.kept,
        del: 0,
        split: gathered.split,
        dellink: None,
        key_file_length: index_length,
        data_file_length: gathered.report.new_length,
        empty: 0,
        key_empty: 0,
        auto_increment: stored.auto_increment,
        roots: Sequence::new(Vec::from_slice(alloc, roots)?),
        key_map: key_map(defs),
        recover_time: now,
        rest: Sequence::new(without_free_pages(stored.rest.into_vec(), page_sizes)),
    })
}

// A bit for each key.
fn key_map(defs: &Defs) -> u64
    requires { length defs.now.keys ≤ 64 }
    ensures { result ≡ 2 ^ length defs.now.keys - 1 }
{
    match defs.keys.as_slice().len() {
        64 => u64::MAX,
        keys => (1 << keys) - 1,
    }
}

// The kept bytes of the state, with no list of free pages.
fn without_free_pages(mut rest: Vec<u8>, page_sizes: usize) -> Vec<u8>
    requires { 24 + 8 * page_sizes ≤ length rest.items }
    ensures { result.items ≡ take 24 rest.items
        ++ (replicate (8 * page_sizes) 255 ++ drop (24 + 8 * page_sizes) rest.items) }
{
    fill_part(&mut rest, 24, 8 * page_sizes);
    rest
}

fn fill_part(bytes: &mut [u8], at: usize, count: usize)
    requires { at + count ≤ length bytes.old }
    ensures { bytes.new
        ≡ take at bytes.old ++ (replicate count 255 ++ drop (at + count) bytes.old) }
{
    bytes[at..at + count].fill(0xFF);
}
