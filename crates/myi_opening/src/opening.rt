//! Opening a table, whose files stay as they are.
ghost use Rattle.std.specs.Prelude.{◌≡◌, ◌≢◌, ◌⊎◌, ℕ, List, take, Err, Ok, IfOk, IfErr};
ghost use Rattle.myi_base.specs.Holding.{IfTold};
ghost use Rattle.myi_base.specs.Causes.{HasCause};
ghost use Rattle.myi_base.specs.Numbers.{AreBytes};
ghost use Rattle.myi_defs.specs.ReadDefs.{read_defs, AreDefs};
ghost use Rattle.myi_opening.specs.Opening.{table_by, HasTable, HasNoTable, IsCutOff};

use crate::fault::{TableFault, TableFile};
use myi_defs::{DefFault, Defs, read_defs};
use myi_io::{Files, read_front};
use std::alloc::Global;

/// No header is longer, in bytes.
const LONGEST_HEADER: u64 = 65_535;

/// The definitions of a table, and the length of its data file, in bytes.
#[derive(Drop)]
pub struct OpenedTable {
    pub defs: Defs,
    pub length: u64,
}

/// Opens the table of an index file and a data file of these names. Both are needed, and the index file is
/// looked for first.
pub fn open_table<F: Files>(
    alloc: Global,
    files: &mut F,
    index: &str,
    rows: &str,
) -> Result<OpenedTable, TableFault>
    ensures table { IfOk result (λ o.
        IfTold (F.holds files.old) (HasTable index.now rows.now o.defs o.length)) }
    ensures defs { IfOk result (λ o. AreDefs o.defs) }
    ensures header { IfOk result (λ o. AreBytes o.defs.raw) }
    ensures refused { IfErr result (λ f.
        IsCutOff f ⊎ IfTold (F.holds files.old) (HasNoTable index.now rows.now f)) }
    ensures memory { IfErr result (λ f. f ≢ TableFault.Def DefFault.Memory) }
    ensures holds { F.holds files.new ≡ F.holds files.old }
    ensures cause { HasCause TableFault.File (F.faults files.old) (F.faults files.new) result }
{
    if files.length(index)?.is_none() {
        return Err(TableFault::Absent(TableFile::Index));
    }
    let Some(length) = files.length(rows)? else {
        return Err(TableFault::Absent(TableFile::Data));
    };
    let header = read_front(alloc, files, index, LONGEST_HEADER)?;
    let defs = defs_of(alloc, &header)?;
    Ok(OpenedTable { defs, length })
}

// The definitions at the front of an index file.
fn defs_of(alloc: Global, header: &[u8]) -> Result<Defs, TableFault>
    ensures read { IfOk result (λ defs. (x : List ℕ) → header.now ≡ take 65535 x
        → read_defs x ≡ Ok defs) }
    ensures defs { IfOk result (λ defs. AreDefs defs) }
    ensures bytes { IfOk result (λ defs. AreBytes defs.raw) }
    ensures refused { IfErr result (λ f. (f ≡ TableFault.Memory)
        ⊎ ((x d : List ℕ) → header.now ≡ take 65535 x → table_by (read_defs x) d x ≡ Err f)) }
    ensures file { IfErr result (λ f. f ≢ TableFault.File) }
    ensures memory { IfErr result (λ f. f ≢ TableFault.Def DefFault.Memory) }
{
    match read_defs(alloc, header) {
        Ok(defs) => Ok(defs),
        Err(fault) => Err(of_defs(fault)),
    }
}

fn of_defs(fault: DefFault) -> TableFault
    ensures refused { (result ≡ TableFault.Memory)
        ⊎ ((fault ≢ DefFault.Memory) × (result ≡ TableFault.Def fault)) }
    ensures file { result ≢ TableFault.File }
    ensures memory { result ≢ TableFault.Def DefFault.Memory }
{
    match fault {
        DefFault::Memory => TableFault::Memory,
        fault => TableFault::Def(fault),
    }
}
