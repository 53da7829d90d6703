//! What a statement that reads finds by a reader.
ghost use Rattle.std.specs.Prelude.{◌≡◌, List, Some, IfOk, IfErr};
ghost use Rattle.myi_base.specs.Causes.{HasCause};
ghost use Rattle.myi_adapters.specs.TwoReaders.{told_by};
ghost use Rattle.myi_pack.specs.Packed.{Values};
ghost use Rattle.myi_state.specs.State.{TableState};
ghost use Rattle.myi_keyedrows.specs.KeyedRows.{IsKept, IfHold};
ghost use Rattle.myi_history.specs.Lines.{ReadsRange};
ghost use Rattle.myi_history.specs.Reads.{found};
ghost use Rattle.myi_readers.specs.declared.fault.SeenFault.TheVariants.{File};
ghost use Rattle.myi_readers.specs.Reader.{IsReader, AreKnown};
ghost use Rattle.myi_readers.specs.Ranges.{NeverDamaged};
ghost use Rattle.myi_rounds.specs.Reads.{IsSeen};
ghost use Rattle.myi_rounds.specs.ReadJob.{ReadsOn, faults_of};

use crate::statements::range_of;
use myi_io::FileReader;
use myi_pack::Row;
use myi_readers::{Reader, SeenFault};
use myi_script::Act;
use myi_snapshots::Snapshot;

/// The rows that a statement finds by a snapshot, with their positions.
pub(crate) fn find<R: FileReader>(
    reader: &mut Reader<R>,
    snap: &Snapshot,
    act: &Act,
) -> Result<Vec<(u64, Row)>, SeenFault>
    requires ready { IsReader reader.old.table }
    requires kept { IsKept (told_by R.holds reader.old.files) reader.old.table.rows }
    requires range { ReadsRange reader.old.table.defs act.now }
    ensures rows { IfOk result (λ rows.
        IfHold (told_by R.holds reader.old.files) reader.old.table.rows (λ m own base.
        (known : List Values) → AreKnown reader.old.table known
        → (s : TableState) → IsSeen reader.old.table.defs base known snap.now s
        → rows.items ≡ found reader.old.table.defs s (Some act.now))) }
    ensures on { ReadsOn R.holds reader.old reader.new }
    ensures seat { reader.new.table.seat ≡ reader.old.table.seat }
    ensures never { IfErr result (NeverDamaged (told_by R.holds reader.old.files)) }
    ensures cause { HasCause File (faults_of R.faults reader.old)
        (faults_of R.faults reader.new) result }
{
    match act {
        Act::Scan => reader.scan(snap),
        Act::Over(range) => {
            let range = range_of(reader.table.defs.raw.allocator(), range)?;
            reader.range(snap, &range)
        }
        _ => Ok(Vec::new(reader.table.defs.raw.allocator())),
    }
}
