//! The steps of a script.
ghost use Rattle.std.specs.Prelude.{◌≡◌, ◌∷◌, ◌++◌, [], IfOk, OnOk};
ghost use Rattle.myi_history.specs.Lines as spec;

use myi_locks::{Step, StepKind};
use myi_script::{Act, Line};
use std::alloc::{AllocError, Global};

// The kind of a statement's step, on a table or a MERGE list; where it takes a lock, of its second.
fn kind_of(list: bool, act: &Act) -> StepKind
    ensures { result ≡ spec.kind_of list act.now }
{
    match act {
        Act::Insert(_) if list => StepKind::Change,
        Act::Insert(_) => StepKind::Insert,
        Act::Update { .. } | Act::Delete { .. } => StepKind::Change,
        Act::Scan | Act::Over(_) => StepKind::Rows,
        Act::Lock(lock) => StepKind::Take(*lock),
        Act::Unlock => StepKind::Unlock,
        Act::Stats => StepKind::Stats,
        Act::End => StepKind::End,
    }
}

fn push_step(steps: &mut Vec<Step>, line: &Line, kind: StepKind) -> Result<(), AllocError>
    ensures { OnOk result (steps.new.items
        ≡ steps.old.items ++ spec.steps_with line.now.session line.now.line (kind ∷ [])) }
{
    steps.push(Step {
        session: line.session,
        line: line.line,
        kind,
    })?;
    Ok(())
}

fn push_steps(steps: &mut Vec<Step>, list: bool, line: &Line) -> Result<(), AllocError>
    ensures { OnOk result (steps.new.items ≡ steps.old.items ++ spec.steps_of_line list line.now) }
{
    if let Act::Lock(_) = line.act {
        push_step(steps, line, StepKind::Release)?;
    }
    push_step(steps, line, kind_of(list, &line.act))
}

/// The steps of a script on a table, or, where `list` is true, on a MERGE list, for `Locks::new`.
pub fn script_steps(alloc: Global, list: bool, lines: &[Line]) -> Result<Vec<Step>, AllocError>
    ensures { IfOk result (λ v. v.items ≡ spec.script_steps list lines.now) }
{
    let mut steps = Vec::new(alloc);
    for line in lines {
        push_steps(&mut steps, list, line)?;
    }
    Ok(steps)
}
