//! One read of a session, by a reader.
ghost use Rattle.std.specs.Prelude.{◌≡◌, ◌++◌, ◌∷◌, [], List, IfErr, OnOk, OnErr};
ghost use Rattle.myi_base.specs.Causes.{HasCause};
ghost use Rattle.myi_adapters.specs.TwoReaders.{told_by};
ghost use Rattle.myi_pack.specs.Packed.{Values};
ghost use Rattle.myi_state.specs.State.{TableState};
ghost use Rattle.myi_keyedrows.specs.KeyedRows.{IsKept, IfHold};
ghost use Rattle.myi_history.specs.Lines.{MayRun};
ghost use Rattle.myi_history.specs.RoundTexts.{text_of};
ghost use Rattle.myi_readers.specs.declared.fault.SeenFault.TheVariants.{File};
ghost use Rattle.myi_readers.specs.Reader.{IsReader, AreKnown};
ghost use Rattle.myi_readers.specs.Ranges.{NeverDamaged};
ghost use Rattle.myi_locks.specs.declared.steps.Step.{Step};
ghost use Rattle.myi_rounds.specs.Reads.{IsSeen, read_said};
ghost use Rattle.myi_rounds.specs.ReadJob.{SaidBy, ReadsOn, faults_of};

use crate::finding::find;
use crate::statements::act_of;
use myi_history::RoundTexts;
use myi_io::FileReader;
use myi_readers::{Reader, SeenFault};
use myi_script::Line;
use myi_snapshots::Snapshot;

// Reads the rows of a line's statement by a snapshot, and notes the lines of them.
fn read<R: FileReader>(
    reader: &mut Reader<R>,
    texts: &mut RoundTexts,
    lines: &[Line],
    line: u32,
    snap: &Snapshot,
) -> Result<(), SeenFault>
    requires ready { IsReader reader.old.table }
    requires kept { IsKept (told_by R.holds reader.old.files) reader.old.table.rows }
    requires lines { MayRun reader.old.table.defs lines.now }
    ensures said { OnOk result
        (IfHold (told_by R.holds reader.old.files) reader.old.table.rows (λ m own base.
        (known : List Values) → AreKnown reader.old.table known
        → (s : TableState) → IsSeen reader.old.table.defs base known snap.now s
        → texts.new ≡ texts.old ++ text_of
        (read_said reader.old.table.defs lines.now s line snap.now.number) ∷ [])) }
    ensures kept { OnErr result (texts.new ≡ texts.old) }
    ensures on { ReadsOn R.holds reader.old reader.new }
    ensures seat { reader.new.table.seat ≡ reader.old.table.seat }
    ensures never { IfErr result (NeverDamaged (told_by R.holds reader.old.files)) }
    ensures cause { HasCause File (faults_of R.faults reader.old)
        (faults_of R.faults reader.new) result }
{
    let Some(act) = act_of(lines, line) else {
        texts.push_found(line, &[], snap.number)?;
        return Ok(());
    };
    let found = find(reader, snap, act)?;
    texts.push_found(line, &found, snap.number)?;
    Ok(())
}

/// Does the read of a line: by the snapshot of the session's Take where there is one, and else by one of this moment.
pub(crate) fn read_next<R: FileReader>(
    reader: &mut Reader<R>,
    texts: &mut RoundTexts,
    lines: &[Line],
    line: u32,
    taken: Option<Snapshot>,
) -> Result<(), SeenFault>
    requires ready { IsReader reader.old.table }
    requires kept { IsKept (told_by R.holds reader.old.files) reader.old.table.rows }
    requires lines { MayRun reader.old.table.defs lines.now }
    ensures said { OnOk result
        (IfHold (told_by R.holds reader.old.files) reader.old.table.rows (λ m own base.
        (steps : List Step) (x : Step) → x.line ≡ line
        → SaidBy lines.now reader.old.table base taken steps texts.old
        → SaidBy lines.now reader.new.table base taken (steps ++ x ∷ []) texts.new)) }
    ensures kept { OnErr result (texts.new ≡ texts.old) }
    ensures on { ReadsOn R.holds reader.old reader.new }
    ensures never { IfErr result (NeverDamaged (told_by R.holds reader.old.files)) }
    ensures cause { HasCause File (faults_of R.faults reader.old)
        (faults_of R.faults reader.new) result }
{
    match taken {
        Some(snap) => read(reader, texts, lines, line, &snap),
        None => {
            let snap = reader.lock();
            read(reader, texts, lines, line, &snap)
        }
    }
}
