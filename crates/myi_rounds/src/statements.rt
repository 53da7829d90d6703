//! The statement of a line, and the range that it asks of a table.
ghost use Rattle.std.specs.Prelude.{◌≡◌, ◌<◌, IfOk};
ghost use Rattle.std.specs.Option.{option_copied};
ghost use Rattle.myi_history.specs.Lines as spec;
ghost use Rattle.myi_history.specs.Lines.{LinesGrow};
ghost use Rattle.myi_rounds.specs.Reads.{table_range};

use myi_keys::KeyVal;
use myi_script::{self as script, Act, Line};
use myi_table::Range;
use std::alloc::{AllocError, Global};

/// The statement of a line, by the line's number.
pub fn act_of(lines: &[Line], line: u32) -> Option<&Act>
    requires grow { LinesGrow 1 lines.now }
    ensures { option_copied result ≡ spec.act_of lines.now line }
{
    let at = lines.partition_point(|one| one.line < line);
    if at == lines.len() {
        return None;
    }
    let one = &lines[at];
    if one.line == line {
        Some(&one.act)
    } else {
        None
    }
}

// The same bound.
fn bound_of(alloc: Global, bound: &Option<KeyVal>) -> Result<Option<KeyVal>, AllocError>
    ensures { IfOk result (λ same. same ≡ bound.now) }
{
    let Some(key) = bound else { return Ok(None) };
    let code = Vec::from_slice(alloc, key.code())?;
    Ok(Some(KeyVal::of_code(code)))
}

/// The rows of a script's range, whose keys are counted from 1.
pub fn range_of(alloc: Global, range: &script::Range) -> Result<Range, AllocError>
    requires { 0 < range.now.key }
    ensures { IfOk result (λ r. r ≡ table_range range.now) }
{
    Ok(Range {
        key: range.key as usize - 1,
        from: bound_of(alloc, &range.from)?,
        to: bound_of(alloc, &range.to)?,
    })
}
