//! The parts of a sharing, each with reader objects of its own.
ghost use Rattle.std.specs.Prelude.{◌≡◌, ◌+◌, ◌^◌, ◌<◌, [], None, All, IfOk, IsTrue, length, string_bytes, vec_len};
ghost use Rattle.myi_base.specs.Holding.{IfTold};
ghost use Rattle.myi_base.specs.Causes.{HasCause};
ghost use Rattle.myi_adapters.specs.TwoReaders.{told_by};
ghost use Rattle.myi_keycache.specs.Kept.{AllWritten};
ghost use Rattle.myi_keycache.specs.Caching.{pages_of};
ghost use Rattle.myi_tail.specs.Seats.{TailId, room_of, IsNew};
ghost use Rattle.myi_share.specs.declared.fault.ShareFault.TheVariants.{File};
ghost use Rattle.myi_share.specs.Sharing.{IsInserterOf, IsReaderOf};
ghost use Rattle.myi_share.specs.Opening.{AreOpened, IsOpenedAs};

use crate::fault::ShareFault;
use myi_adapters::{Opened, ReaderFiles};
use myi_inserter::{Inserter, TableInserter};
use myi_io::{FileReader, Files};
use myi_opening::TableFile;
use myi_readers::{Reader, TableReader};
use myi_table::Table;
use myi_tail::{Appender, ReaderSeat, Tail};
use std::alloc::Global;

/// The inserter and the readers of a sharing, each with reader objects of its own, so that each may go to a thread of its own.
#[derive(Drop)]
pub struct Parts<R: FileReader> {
    pub inserter: Inserter<R>,
    pub readers: Vec<Reader<R>>,
}

// A file, by a reader object.
fn open<F: Files>(files: &mut F, name: String) -> Result<Opened<F::Reader>, ShareFault>
    requires writable { IsTrue F.writable }
    ensures name { IfOk result (λ o. string_bytes o.name ≡ string_bytes name) }
    ensures told { IfOk result (λ o. IfTold (F.holds files.old)
        (IsOpenedAs (string_bytes name) o.length (F.Reader.holds o.reader))) }
    ensures untold { IfOk result (λ o. F.holds files.old ≡ None → F.Reader.holds o.reader ≡ None) }
    ensures holds { F.holds files.new ≡ F.holds files.old }
    ensures cause { HasCause File (F.faults files.old) (F.faults files.new) result }
{
    let length = files.length(name.as_str())?.unwrap_or(0);
    let reader = files.reader(name.as_str())?;
    Ok(Opened {
        name,
        length,
        reader,
    })
}

// The two files of a table, each by a reader object.
fn open_files<F: Files>(
    alloc: Global,
    files: &mut F,
    table: &Table,
) -> Result<ReaderFiles<F::Reader>, ShareFault>
    requires writable { IsTrue F.writable }
    ensures told { IfOk result (λ o. IfTold (F.holds files.old)
        (AreOpened table.now (told_by F.Reader.holds o))) }
    ensures untold { IfOk result (λ o. F.holds files.old ≡ None
        → told_by F.Reader.holds o ≡ None) }
    ensures holds { F.holds files.new ≡ F.holds files.old }
    ensures cause { HasCause File (F.faults files.old) (F.faults files.new) result }
{
    let rows = TableFile::Data.of(alloc, table.name())?;
    let index = TableFile::Index.of(alloc, table.name())?;
    Ok(ReaderFiles {
        rows: open(files, rows)?,
        index: open(files, index)?,
        refused: 0,
    })
}

// The inserter of a table that has written all of its pages.
fn inserter_of<F: Files>(
    alloc: Global,
    files: &mut F,
    table: &Table,
    appender: Appender,
    number: u64,
) -> Result<Inserter<F::Reader>, ShareFault>
    requires writable { IsTrue F.writable }
    requires written { AllWritten (pages_of table.now.rows.trees.cache) }
    requires empty { appender.words ≡ [] }
    requires unpublished { appender.published ≡ 0 }
    ensures of { IfOk result (λ i. IsInserterOf
        (record { table = table.now; tail = appender.tail; number = number })
        (F.holds files.old) (told_by F.Reader.holds i.files) i.table []) }
    ensures tail { IfOk result (λ i. i.table.appender.tail ≡ appender.tail) }
    ensures number { IfOk result (λ i. i.table.number ≡ number) }
    ensures holds { F.holds files.new ≡ F.holds files.old }
    ensures cause { HasCause File (F.faults files.old) (F.faults files.new) result }
{
    let files = open_files(alloc, files, table)?;
    let table = TableInserter::new(alloc, table, appender, number)?;
    Ok(Inserter { table, files })
}

// A reader of a table that has written all of its pages.
fn reader_of<F: Files>(
    alloc: Global,
    files: &mut F,
    table: &Table,
    seat: ReaderSeat,
    words: usize,
    number: u64,
) -> Result<Reader<F::Reader>, ShareFault>
    requires writable { IsTrue F.writable }
    requires written { AllWritten (pages_of table.now.rows.trees.cache) }
    requires room { words ≡ room_of seat.tail }
    requires unknown { seat.known ≡ [] }
    requires small { number + words < 2 ^ 64 }
    ensures of { IfOk result (λ r. IsReaderOf
        (record { table = table.now; tail = seat.tail; number = number })
        (F.holds files.old) (told_by F.Reader.holds r.files) r.table) }
    ensures seat { IfOk result (λ r. r.table.seat ≡ seat) }
    ensures holds { F.holds files.new ≡ F.holds files.old }
    ensures cause { HasCause File (F.faults files.old) (F.faults files.new) result }
{
    let files = open_files(alloc, files, table)?;
    let table = TableReader::new(alloc, table, seat, words, number)?;
    Ok(Reader { table, files })
}

// A reader for each of these seats.
fn readers_of<F: Files>(
    alloc: Global,
    files: &mut F,
    table: &Table,
    seats: Vec<ReaderSeat>,
    words: usize,
    number: u64,
) -> Result<Vec<Reader<F::Reader>>, ShareFault>
    requires writable { IsTrue F.writable }
    requires written { AllWritten (pages_of table.now.rows.trees.cache) }
    requires new { (tail : TailId) × (words ≡ room_of tail) × All (IsNew tail) seats.items }
    requires small { number + words < 2 ^ 64 }
    ensures count { IfOk result (λ rs. vec_len rs ≡ vec_len seats) }
    ensures of { IfOk result (λ rs. (tail : TailId) → All (IsNew tail) seats.items
        → All (λ r. IsReaderOf (record { table = table.now; tail = tail; number = number })
        (F.holds files.old) (told_by F.Reader.holds r.files) r.table) rs.items) }
    ensures new { IfOk result (λ rs. (tail : TailId) → All (IsNew tail) seats.items
        → All (λ r. IsNew tail r.table.seat) rs.items) }
    ensures holds { F.holds files.new ≡ F.holds files.old }
    ensures cause { HasCause File (F.faults files.old) (F.faults files.new) result }
{
    let mut readers = Vec::with_capacity(alloc, seats.len())?;
    for seat in seats {
        let reader = reader_of(alloc, files, table, seat, words, number)?;
        readers.push(reader)?;
    }
    Ok(readers)
}

/// The inserter and the readers of a table that has written all of its pages, at a new tail.
pub(crate) fn parts_of<F: Files>(
    alloc: Global,
    files: &mut F,
    table: &Table,
    tail: Tail,
    words: usize,
    number: u64,
) -> Result<Parts<F::Reader>, ShareFault>
    requires writable { IsTrue F.writable }
    requires written { AllWritten (pages_of table.now.rows.trees.cache) }
    requires empty { (tail.appender.words ≡ []) × (tail.appender.published ≡ 0) }
    requires new { All (IsNew tail.appender.tail) tail.readers.items }
    requires room { words ≡ room_of tail.appender.tail }
    requires small { number + words < 2 ^ 64 }
    ensures inserter { IfOk result (λ p. IsInserterOf
        (record { table = table.now; tail = tail.appender.tail; number = number })
        (F.holds files.old) (told_by F.Reader.holds p.inserter.files) p.inserter.table []) }
    ensures readers { IfOk result (λ p. All (λ r. IsReaderOf
        (record { table = table.now; tail = tail.appender.tail; number = number })
        (F.holds files.old) (told_by F.Reader.holds r.files) r.table) p.readers.items) }
    ensures count { IfOk result (λ p. vec_len p.readers ≡ vec_len tail.readers) }
    ensures new { IfOk result (λ p. All (λ r. IsNew tail.appender.tail r.table.seat)
        p.readers.items) }
    ensures holds { F.holds files.new ≡ F.holds files.old }
    ensures cause { HasCause File (F.faults files.old) (F.faults files.new) result }
{
    let Tail { appender, readers } = tail;
    let readers = readers_of(alloc, files, table, readers, words, number)?;
    let inserter = inserter_of(alloc, files, table, appender, number)?;
    Ok(Parts { inserter, readers })
}
