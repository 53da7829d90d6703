//! Calls on a reader of a shared table, over files that tell nothing. An appender stands where an inserter does.
ghost use Rattle.std.specs.Prelude.{IfOk};
ghost use Rattle.myi_readers.specs.Reader.{IsReader};

use crate::answers::{push_load_fault, push_seen};
use crate::tables::{NAME, empty_files, push_answer, push_calls, range_of, row, setup};
use case_lines::{Fault, Untold, Words, four_bytes, halves, size};
use myi_defs::definitions_are_sound;
use myi_io::Files;
use myi_pack::pack;
use myi_readers::TableReader;
use myi_snapshots::Snapshot;
use myi_table::Table;
use myi_tail::{Appender, Tail};

/// The word for no file call that fails.
const NO_FAULT: &str = "-";

/// A table that is shared: its appender and a reader, and the snapshots that this has taken.
#[derive(Drop)]
struct Shared {
    appender: Appender,
    reader: TableReader,
    snaps: Vec<Snapshot>,
}

// Publishes the words of a row, and writes how many are published.
fn push_put(out: &mut String, words: &Words, shared: &mut Shared, values: &str) -> Result<(), Fault>
    requires ready { IsReader shared.old.reader }
    ensures ready { IsReader shared.new.reader }
{
    let row = row(words, &shared.reader.defs, values)?;
    let packed = pack(words.alloc(), &shared.reader.defs, &row)?;
    match shared.appender.stage(packed.as_slice()) {
        Ok(()) => Ok(write!(out, "{}", shared.appender.publish())?),
        Err(no) => Ok(write!(out, "no room {} {}", no.need, no.free)?),
    }
}

// Takes a snapshot, and writes it.
fn push_snapshot(out: &mut String, shared: &mut Shared) -> Result<(), Fault>
    requires ready { IsReader shared.old.reader }
    ensures ready { IsReader shared.new.reader }
{
    let snap = shared.reader.lock();
    shared.snaps.push(snap)?;
    Ok(write!(out, "{}:{}", snap.number, snap.length)?)
}

// The snapshot of a number, counted from 0 as they were taken.
fn snapshot(shared: &Shared, number: &str) -> Result<Snapshot, Fault> {
    match shared.snaps.as_slice().get(size(number)?) {
        Some(snap) => Ok(*snap),
        None => Err(Fault::Unread),
    }
}

// Makes a call on a shared table, and writes its answer.
fn push_shared(
    out: &mut String,
    words: &Words,
    files: &mut Untold,
    shared: &mut Shared,
    call: &str,
) -> Result<(), Fault>
    requires ready { IsReader shared.old.reader }
    ensures ready { IsReader shared.new.reader }
{
    let parts: Vec<&str> = call.split(':').collect(words.alloc())?;
    match parts.as_slice() {
        ["put", values] => push_put(out, words, shared, *values),
        ["lock"] => push_snapshot(out, shared),
        ["scan", number] => {
            let snap = snapshot(shared, *number)?;
            push_seen(out, shared.reader.scan(files, &snap))
        }
        ["range", number, key, from, to] => {
            let snap = snapshot(shared, *number)?;
            let range = range_of(words, &shared.reader.defs, *key, *from, *to)?;
            push_seen(out, shared.reader.range(files, &snap, &range))
        }
        _ => Err(Fault::Unread),
    }
}

// Shares a table in its state, behind so many changes, with room for so many words.
fn begin_sharing(words: &Words, table: &Table, room: u32, number: u32) -> Result<Shared, Fault>
    ensures { IfOk result (λ shared. IsReader shared.reader) }
{
    let alloc = words.alloc();
    let Tail { appender, readers } = Tail::new(alloc, room as usize, 1)?;
    let mut readers = readers;
    let Some(seat) = readers.pop() else {
        return Err(Fault::Unread);
    };
    let reader = TableReader::new(alloc, table, seat, room as usize, number as u64)?;
    let snaps = Vec::new(alloc);
    Ok(Shared {
        appender,
        reader,
        snaps,
    })
}

// Makes calls on a shared table one after the other.
fn push_all(
    out: &mut String,
    words: &Words,
    files: &mut Untold,
    shared: &mut Shared,
    calls: &[&str],
) -> Result<(), Fault>
    requires ready { IsReader shared.old.reader }
{
    for call in calls {
        push_shared(out, words, files, shared, *call)?;
        out.push_str("; ")?;
    }
    Ok(())
}

/// `share DEFINITIONS BLOCKS WORDS NUMBER CALL.. -- CALL..`: what the first calls on a table answer, which begins without a row,
/// and then what those on a reader of it do, which it has when it is shared behind NUMBER changes with room for so many WORDS;
/// behind all, the count of faults. Its key cache keeps BLOCKS pages.
pub fn share(words: &Words, args: &[&str]) -> Result<String, Fault> {
    definitions_are_sound();
    let (given, calls) = halves(args)?;
    let [defs, blocks, room, number, before @ ..] = given else {
        return Err(Fault::Unread);
    };
    let defs = words.definitions(*defs)?;
    let setup = setup(*blocks)?;
    let mut files = empty_files(words, &defs, NO_FAULT)?;
    let mut out = String::new(words.alloc());
    match Table::load(words.alloc(), &mut files, NAME, setup) {
        Ok(table) => {
            let mut table = table;
            push_calls(&mut out, words, &mut files, &mut table, before)?;
            push_answer(&mut out, words, &mut files, &mut table, "flush")?;
            out.push_str("; ")?;
            let mut shared = begin_sharing(
                words,
                &table,
                four_bytes(*room)?,
                four_bytes(*number)?,
            )?;
            push_all(&mut out, words, &mut files, &mut shared, calls)?;
        }
        Err(fault) => push_load_fault(&mut out, fault)?,
    }
    write!(out, "faults {}", files.fault_count())?;
    Ok(out)
}
