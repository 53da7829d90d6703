//! One insert of a session, by the inserter.
ghost use Rattle.std.specs.Prelude.{◌≡◌, List, option_map, IfOk, OnErr};
ghost use Rattle.myi_base.specs.Causes.{HasCause};
ghost use Rattle.myi_adapters.specs.TwoReaders.{told_by};
ghost use Rattle.myi_pack.specs.Packed.{Values};
ghost use Rattle.myi_state.specs.Changes.{insert_at_end};
ghost use Rattle.myi_keyedrows.specs.KeyedRows.{IfHold};
ghost use Rattle.myi_history.specs.Lines as lines_spec;
ghost use Rattle.myi_history.specs.Lines.{MayRun};
ghost use Rattle.myi_inserter.specs.declared.fault.InsertFault.TheVariants.{File};
ghost use Rattle.myi_inserter.specs.Inserter.{IsInserter};
ghost use Rattle.myi_rounds.specs.Inserts as spec;
ghost use Rattle.myi_rounds.specs.Inserts.{inserted_row, IsAnswered};
ghost use Rattle.myi_rounds.specs.InsertJob.{InsertsOn, faults_of};

use crate::statements::act_of;
use myi_history::StepAnswer;
use myi_inserter::{InsertFault, Inserter, put_rows_can_be_folded};
use myi_io::FileReader;
use myi_script::{Act, Line};

/// What the step of a line answered.
#[derive(Clone, Copy, Debug, PartialEq, Eq)]
pub struct Replied {
    pub line: u32,
    pub answer: StepAnswer,
}

// A row that was put, or why it is refused, as an answer, and what cuts it off as a fault.
fn answer_to(made: Result<u64, InsertFault>) -> Result<StepAnswer, InsertFault>
    ensures { result ≡ spec.answer_to made }
{
    match made {
        Ok(at) => Ok(StepAnswer::Made { at }),
        Err(InsertFault::Duplicate { key, at }) => Ok(StepAnswer::Duplicate { key, at }),
        Err(InsertFault::Full) => Ok(StepAnswer::Full),
        Err(fault) => Err(fault),
    }
}

/// Makes the insert of a line, if it is one. Where words are wanting nothing is put, and that is no answer.
pub(crate) fn insert_next<R: FileReader>(
    inserter: &mut Inserter<R>,
    lines: &[Line],
    line: u32,
) -> Result<Option<StepAnswer>, InsertFault>
    requires ready { (rows : List Values) × IsInserter inserter.old.table rows }
    requires lines { MayRun inserter.old.table.defs lines.now }
    ensures answered { IfOk result (λ answer.
        IfHold (told_by R.holds inserter.old.files) inserter.old.table.rows (λ m own base.
        (rows : List Values) → IsInserter inserter.old.table rows
        → IsAnswered inserter.old.table.defs base rows (option_map insert_at_end
        (inserted_row (lines_spec.act_of lines.now line))) answer inserter.new.table)) }
    ensures again { OnErr result ((rows : List Values) → IsInserter inserter.old.table rows
        → IsInserter inserter.new.table rows) }
    ensures ready { (rows : List Values) × IsInserter inserter.new.table rows }
    ensures on { InsertsOn R.holds inserter.old inserter.new }
    ensures cause { HasCause File (faults_of R.faults inserter.old.files)
        (faults_of R.faults inserter.new.files) result }
{
    put_rows_can_be_folded();
    let Some(act) = act_of(lines, line) else {
        return Ok(None)
    };
    let Act::Insert(row) = act else {
        return Ok(None)
    };
    let answer = answer_to(inserter.insert(row))?;
    Ok(Some(answer))
}
