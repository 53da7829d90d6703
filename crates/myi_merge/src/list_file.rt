//! The file of a MERGE list, read.
ghost use Rattle.std.specs.Prelude.{◌≡◌, map, string_bytes, IfOk, IfErr};
ghost use Rattle.myi_base.specs.Holding.{IfTold};
ghost use Rattle.myi_base.specs.Causes.{HasCause};
ghost use Rattle.myi_merge.specs.declared.fault.MergeFault.TheVariants as fault;
ghost use Rattle.myi_merge.specs.Loading.{IsListIn, SomeText, RefusesList, TellsOfList};

use crate::fault::MergeFault;
use myi_io::{Files, read_front};
use myi_mergelist::{MergeList, parse_list};
use std::alloc::Global;

/// What the file of the list says.
pub(crate) fn read_list<F: Files>(
    alloc: Global,
    files: &mut F,
    name: &str,
) -> Result<MergeList, MergeFault>
    ensures list { IfOk result (λ l. IfTold (F.holds files.old)
        (IsListIn name.now (map (λ s. string_bytes s) l.members.items) l.method)) }
    ensures sound { IfOk result (λ l.
        SomeText (map (λ s. string_bytes s) l.members.items) l.method) }
    ensures refused { IfErr result (λ f. IfTold (F.holds files.old) (RefusesList name.now f)) }
    ensures tells { IfErr result (TellsOfList name.now) }
    ensures holds { F.holds files.new ≡ F.holds files.old }
    ensures cause { HasCause fault.File (F.faults files.old) (F.faults files.new) result }
{
    let file = format!(in alloc; "{name}.MRG")?;
    let Some(length) = files.length(file.as_str())? else {
        return Err(MergeFault::Absent { file });
    };
    let text = read_front(alloc, files, file.as_str(), length)?;
    let list = parse_list(alloc, &text)?;
    Ok(list)
}
