//! Loading a MERGE list.
ghost use Rattle.std.specs.Prelude.{◌≡◌, ◌↔◌, [], map, string_bytes, IfOk, IfErr, IsTrue};
ghost use Rattle.myi_base.specs.Holding.{IfTold};
ghost use Rattle.myi_base.specs.Causes.{HasCause};
ghost use Rattle.myi_keycache.specs.Setup.{IsSetup};
ghost use Rattle.myi_table.specs.Table.{OpenTable};
ghost use Rattle.myi_table.specs.Loading.{IsLoaded};
ghost use Rattle.myi_merge.specs.declared.fault.MergeFault.TheVariants as fault;
ghost use Rattle.std.specs.List.{AllByRecursion};
ghost use Rattle.myi_table.specs.Counting.{no_counts};
ghost use Rattle.myi_merge.specs.Merged.{IsLike, IsLikeFirst, AreAlike, IsSoundTable, counted_by};
ghost use Rattle.myi_merge.specs.Loading.{EachLoaded, IsFresh, StopsAtMember, StopsAmong};
ghost use Rattle.myi_merge.specs.Loading.{HasMembers, RefusesList, IsLoadedMerge, RefusesMerge};
ghost use Rattle.myi_merge.specs.Loading.{SomeText, SomeNames, TellsOfList, TellsOfMember, MayDiffer};
ghost use Rattle.myi_merge.specs.Loading.{TellsAmong, TellsOf};

use crate::fault::MergeFault;
use crate::list_file::read_list;
use crate::merge::{Merge, table_is_sound};
use myi_defs::{Defs, Key};
use myi_io::Files;
use myi_keycache::CacheSetup;
use myi_table::{LoadFault, Table};
use std::alloc::Global;

fn is_like_key(one: &Key, other: &Key) -> bool
    ensures { IsTrue result ↔ (one.now ≡ other.now) }
{
    one.unique == other.unique
        && one.block_length == other.block_length
        && one.segments.as_slice() == other.segments.as_slice()
}

fn have_like_keys(one: &[Key], other: &[Key]) -> bool
    ensures { IsTrue result ↔ (one.now ≡ other.now) }
{
    if one.len() != other.len() {
        return false;
    }
    for index in 0..one.len() {
        if !is_like_key(&one[index], &other[index]) {
            return false;
        }
    }
    true
}

// Whether both have one row format, the same fields and the same keys.
fn is_like(one: &Defs, other: &Defs) -> bool
    ensures { IsTrue result ↔ IsLike one.now other.now }
{
    one.format == other.format
        && one.fields.as_slice() == other.fields.as_slice()
        && have_like_keys(one.keys.as_slice(), other.keys.as_slice())
}

// Whether the table is like the first of these, as it is where there is none.
fn is_like_first(tables: &[Table], table: &Table) -> bool
    ensures { IsTrue result ↔ IsLikeFirst tables.now table.now }
{
    match tables {
        [] => true,
        [first, ..] => is_like(first.defs(), table.defs()),
    }
}

// The table of a name.
fn load_table<F: Files>(
    alloc: Global,
    files: &mut F,
    name: &str,
    setup: CacheSetup,
) -> Result<Table, MergeFault>
    requires setup { IsSetup setup }
    ensures loaded { IfOk result (λ t. IfTold (F.holds files.old) (IsLoaded name.now t)) }
    ensures named { IfOk result (λ t. t.name ≡ name.now) }
    ensures fresh { IfOk result (IsFresh setup) }
    ensures sound { IfOk result IsSoundTable }
    ensures refused { IfErr result (λ f. IfTold (F.holds files.old) (StopsAtMember name.now f)) }
    ensures tells { IfErr result (TellsOfMember name.now) }
    ensures alone { IfErr result (MayDiffer []) }
    ensures holds { F.holds files.new ≡ F.holds files.old }
    ensures cause { HasCause fault.File (F.faults files.old) (F.faults files.new) result }
{
    match Table::load(alloc, files, name, setup) {
        Ok(table) => {
            table_is_sound(&table);
            Ok(table)
        }
        Err(LoadFault::Absent(file)) => {
            let file = file.of(alloc, name)?;
            Err(MergeFault::Absent { file })
        }
        Err(LoadFault::Def(fault)) => {
            let table = String::from_str(alloc, name)?;
            Err(MergeFault::Def { table, fault })
        }
        Err(LoadFault::Foreign) => {
            let table = String::from_str(alloc, name)?;
            Err(MergeFault::Foreign { table })
        }
        Err(LoadFault::File) => Err(MergeFault::File),
        Err(LoadFault::Memory) => Err(MergeFault::Memory),
    }
}

// The tables of these names, or the first that is refused, or is not like the first one.
fn load_tables<F: Files>(
    alloc: Global,
    files: &mut F,
    names: &[String],
    setup: CacheSetup,
) -> Result<Vec<Table>, MergeFault>
    requires setup { IsSetup setup }
    ensures loaded { IfOk result (λ ts. IfTold (F.holds files.old)
        (EachLoaded (map (λ s. string_bytes s) names.now) ts.items)) }
    ensures fresh { IfOk result (λ ts. AllByRecursion (IsFresh setup) ts.items) }
    ensures alike { IfOk result (λ ts. AreAlike ts.items) }
    ensures sound { IfOk result (λ ts. AllByRecursion IsSoundTable ts.items) }
    ensures named { IfOk result (λ ts. map (λ (t : OpenTable). t.name) ts.items
        ≡ map (λ s. string_bytes s) names.now) }
    ensures refused { IfErr result (λ f. IfTold (F.holds files.old)
        (StopsAmong (map (λ s. string_bytes s) names.now) f)) }
    ensures tells { IfErr result (TellsAmong (map (λ s. string_bytes s) names.now)) }
    ensures holds { F.holds files.new ≡ F.holds files.old }
    ensures cause { HasCause fault.File (F.faults files.old) (F.faults files.new) result }
{
    let mut tables = Vec::with_capacity(alloc, names.len())?;
    for name in names {
        let table = load_table(alloc, files, name.as_str(), setup)?;
        if !is_like_first(&tables, &table) {
            let table = String::from_str(alloc, name.as_str())?;
            return Err(MergeFault::Differs { table });
        }
        tables.push(table)?;
    }
    Ok(tables)
}

impl Merge {
    /// The names of the tables of a list, in its order: one or more, up to 65,535, each another.
    pub fn members<F: Files>(
        alloc: Global,
        files: &mut F,
        name: &str,
    ) -> Result<Vec<String>, MergeFault>
        ensures names { IfOk result (λ names. IfTold (F.holds files.old)
            (HasMembers name.now (map (λ s. string_bytes s) names.items))) }
        ensures some { IfOk result (λ names. SomeNames (map (λ s. string_bytes s) names.items)) }
        ensures refused { IfErr result (λ f. IfTold (F.holds files.old) (RefusesList name.now f)) }
        ensures tells { IfErr result (TellsOfList name.now) }
        ensures holds { F.holds files.new ≡ F.holds files.old }
        ensures cause { HasCause fault.File (F.faults files.old) (F.faults files.new) result }
    {
        let list = read_list(alloc, files, name)?;
        Ok(list.members)
    }

    /// The list of that name. Its tables have the names in the text, in their order; their key caches keep no page and
    /// counted nothing yet. Where files tell what they hold, and the files of a table stand for a state, that table
    /// stands for that state.
    pub fn load<F: Files>(
        alloc: Global,
        files: &mut F,
        name: &str,
        setup: CacheSetup,
    ) -> Result<Merge, MergeFault>
        requires setup { IsSetup setup }
        ensures loaded { IfOk result (λ g. IfTold (F.holds files.old) (IsLoadedMerge name.now g)) }
        ensures named { IfOk result (λ g.
            SomeText (map (λ (t : OpenTable). t.name) g.tables) g.method) }
        ensures fresh { IfOk result (λ g. AllByRecursion (IsFresh setup) g.tables) }
        ensures counted { IfOk result (λ g. counted_by g.tables ≡ no_counts) }
        ensures refused { IfErr result (λ f. IfTold (F.holds files.old) (RefusesMerge name.now f)) }
        ensures tells { IfErr result (TellsOf name.now) }
        ensures holds { F.holds files.new ≡ F.holds files.old }
        ensures cause { HasCause fault.File (F.faults files.old) (F.faults files.new) result }
    {
        let list = read_list(alloc, files, name)?;
        let tables = load_tables(alloc, files, &list.members, setup)?;
        Ok(Merge {
            alloc,
            tables,
            method: list.method,
        })
    }
}
