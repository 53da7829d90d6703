//! A law over readers. It is the contract of a function that does nothing, so that it is proved with the crate and stands for
//! the crates above.
ghost use Rattle.std.specs.Prelude.{List, length, take};
ghost use Rattle.myi_pack.specs.Packed.{Values};
ghost use Rattle.myi_tail.specs.Prefix.{BeginsWith};
ghost use Rattle.myi_snapshots.specs.Appended.{AllFit, AllAreBytes};
ghost use Rattle.myi_snapshots.specs.Known.{words_of_rows};
ghost use Rattle.myi_readers.specs.declared.reader.TableReader.{TableReader};
ghost use Rattle.myi_readers.specs.Reader.{IsReader, AreKnown, rows_known};

/// Where the words that a reader knows are the first of those of rows that were inserted, each of which fits, the rows that
/// it knows are the first of these.
pub fn first_inserted_rows_are_known()
    ensures { (r : TableReader) (inserted : List Values) → IsReader r → AllFit r.defs inserted
        → AllAreBytes r.defs inserted → BeginsWith (words_of_rows r.defs inserted) r.seat.known
        → AreKnown r (take (length (rows_known r)) inserted) }
{}
