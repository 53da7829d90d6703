//! `Merge`: a MERGE list between loading and closing.
ghost use Rattle.std.specs.Prelude.{◌≡◌, ◌≤◌};
ghost use Rattle.myi_table.specs.Counting.{sum_of};
ghost use Rattle.myi_merge.specs.Merged.{IsSoundTable};

use myi_defs::Defs;
use myi_keycache::Counters;
use myi_mergelist::InsertMethod;
use myi_table::{ReadFault, Table};
use std::alloc::Global;
use std::marker::Model;

/// The tables of a MERGE list, which are loaded.
pub struct Merge {
    pub(crate) alloc: Global,
    pub(crate) tables: Vec<Table>,
    pub(crate) method: Option<InsertMethod>,
}

impl Drop for Merge {
    fn drop(self) {
        let Merge {
            alloc: _,
            tables: _,
            method: _,
        } = self;
    }
}

impl Model for Merge {
    ghost use Rattle.myi_merge.specs.Merged.{OpenMerge, IsMerge};

    ghost Value = { OpenMerge };

    ghost view = { λ g. record { tables = g.tables.items; method = g.method } };

    ghost invariant = { λ g. IsMerge (record { tables = g.tables.items; method = g.method }) };
}

/// A table that is loaded has sound definitions and the files of its name.
pub(crate) fn table_is_sound(table: &Table)
    ensures { IsSoundTable table.now }
{
    table.name();
    table.defs();
}

impl Merge {
    ghost use Rattle.std.specs.Prelude.{◌≡◌, ◌≤◌, slice_get, Some, IfSome, IfErr, OnOk, OnErr};
    ghost use Rattle.myi_defs.specs.Sound.{IsSound};
    ghost use Rattle.myi_table.specs.Table.{OpenTable, defs_in};
    ghost use Rattle.myi_merge.specs.Merged.{IsMerge, AreWhole, counted_by};
    ghost use Rattle.myi_merge.specs.Merging.{IsFirstBroken};

    // The tables, in the order of the list.
    pub(crate) fn into_tables(self) -> Vec<Table>
        ensures { result.items ≡ self.tables }
    {
        let Merge {
            alloc: _,
            tables,
            method: _,
        } = self;
        tables
    }

    // Refuses a reading where a table is broken, for the first that is. Each list is sound.
    pub(crate) fn refuse_reading(&self) -> Result<(), ReadFault>
        ensures whole { OnOk result (AreWhole self.now.tables) }
        ensures first { IfErr result (IsFirstBroken self.now.tables) }
        ensures sound { IsMerge self.now }
    {
        for table in &self.tables {
            if let Some(cause) = table.broken() {
                return Err(ReadFault::Broken(cause));
            }
        }
        Ok(())
    }

    /// The definitions of the first table. All tables have its row format, fields and keys.
    pub fn defs(&self) -> &Defs
        ensures defs { IfSome (slice_get self.now.tables 0) (λ (t : OpenTable).
            result.now ≡ defs_in t) }
        ensures sound { IsSound result.now }
        ensures list { IsMerge self.now }
    {
        self.tables[0].defs()
    }

    /// What the key caches of all tables counted, and what was added.
    pub fn counters(&self) -> Counters
        ensures sum { result ≡ counted_by self.now.tables }
        ensures fewer { result.reads ≤ result.read_requests }
    {
        let mut sum = Counters {
            read_requests: 0,
            reads: 0,
            write_requests: 0,
            writes: 0,
        };
        for table in self.tables.iter().rev() {
            sum = sum_of(table.counters(), sum);
        }
        sum
    }
}

// Each count with another one; a count that would pass 2^64 - 1 stays there.
fn sum_of(one: Counters, other: Counters) -> Counters
    requires one { one.reads ≤ one.read_requests }
    requires other { other.reads ≤ other.read_requests }
    ensures sum { result ≡ sum_of one other }
    ensures fewer { result.reads ≤ result.read_requests }
{
    Counters {
        read_requests: one.read_requests.saturating_add(other.read_requests),
        reads: one.reads.saturating_add(other.reads),
        write_requests: one.write_requests.saturating_add(other.write_requests),
        writes: one.writes.saturating_add(other.writes),
    }
}
