//! Reading all rows of a MERGE list, table by table.
ghost use Rattle.std.specs.Prelude.{◌≡◌, ◌++◌, map, OnOk};

use crate::merge::Merge;
use myi_io::Files;
use myi_pack::Row;
use myi_table::ReadFault;
use std::alloc::AllocError;

// Appends rows of the table of that number.
fn append(
    found: &mut Vec<(u32, u64, Row)>,
    number: u32,
    rows: Vec<(u64, Row)>,
) -> Result<(), AllocError>
    ensures { OnOk result (found.new.items
        ≡ found.old.items ++ map (λ r. (number, r.0, r.1)) rows.items) }
{
    for (at, row) in rows {
        found.push((number, at, row))?;
    }
    Ok(())
}

impl Merge {
    ghost use Rattle.std.specs.Prelude.{◌≡◌, map, IfOk, IfErr, OnOk};
    ghost use Rattle.myi_base.specs.Causes.{HasCause};
    ghost use Rattle.myi_table.specs.declared.fault.ReadFault.TheVariants.{File};
    ghost use Rattle.myi_merge.specs.Merged.{AreKept, AreWhole, IsRefusedFor, IfHoldEach};
    ghost use Rattle.myi_merge.specs.Reading.{AnswersAll, NotDamaged};

    /// All rows, each with the number of its table, counted from 1, and its position: table by table in the order of
    /// the list, those of each in the order of their positions. The first table that is broken is the refusal before
    /// any other.
    pub fn scan<F: Files>(&self, files: &mut F) -> Result<Vec<(u32, u64, Row)>, ReadFault>
        requires kept { AreKept (F.holds files.old) self.now.tables }
        ensures rows { IfOk result (λ rows. IfHoldEach (F.holds files.old) self.now.tables (λ m ss.
            AnswersAll ss rows.items)) }
        ensures whole { OnOk result (AreWhole self.now.tables) }
        ensures refused { IfErr result (IsRefusedFor self.now.tables) }
        ensures never { IfErr result NotDamaged }
        ensures holds { F.holds files.new ≡ F.holds files.old }
        ensures cause { HasCause File (F.faults files.old) (F.faults files.new) result }
    {
        self.refuse_reading()?;
        let mut found = Vec::new(self.alloc);
        let mut number = 0;
        for table in &self.tables {
            number += 1;
            let rows = table.scan(files)?;
            append(&mut found, number, rows)?;
        }
        Ok(found)
    }
}
