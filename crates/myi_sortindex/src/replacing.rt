//! The new index file: its trees and its header, and in the place of the old one.
ghost use Rattle.std.specs.Prelude.{◌≡◌, ◌≢◌, ◌⊎◌, None, IfOk, IfErr, OnOk, OnErr, IsTrue};
ghost use Rattle.myi_base.specs.Holding.{IfTold, Told, Cuts, Writes, OthersStay};
ghost use Rattle.myi_base.specs.Causes.{HasCause};
ghost use Rattle.myi_base.specs.Numbers.{AreBytes};
ghost use Rattle.myi_defs.specs.ReadDefs.{AreDefs};
ghost use Rattle.myi_header.specs.declared.state.State.{State};
ghost use Rattle.myi_sortindex.specs.Refusals.{CutsOff, IsCleared};
ghost use Rattle.myi_sortindex.specs.Sorting.{sorted_bits};
ghost use Rattle.myi_sortindex.specs.Laying.{IsCleanIndex, Replaces, OthersStayOf, KeepsIndex, state_laid};

use crate::fault::SortFault;
use crate::laying::{IndexCopy, LaidTrees, lay_trees};
use myi_base::Sequence;
use myi_btree::walks_depend_on_their_pages;
use myi_defs::{Defs, definitions_are_sound};
use myi_header::{NOT_SORTED_PAGES, State, first_page, print_state, stored_state};
use myi_io::Files;
use std::alloc::Global;

/// Lays the trees of a clean index file with these definitions into the working file, gives that the index file's name,
/// and answers how many pages it has. After a fault the index file is as before, and the working file is taken away, as
/// far as that succeeds.
pub(crate) fn replace_index<F: Files>(
    alloc: Global,
    files: &mut F,
    index: &str,
    working: &str,
    defs: &Defs,
) -> Result<u64, SortFault>
    requires writable { IsTrue F.writable }
    requires apart { index.now ≢ working.now }
    requires defs { AreDefs defs.now }
    requires header { AreBytes defs.now.raw }
    requires clean { IfTold (F.holds files.old) (IsCleanIndex index.now defs.now) }
    ensures replaced { IfOk result (λ pages. Told (F.holds files.old) (F.holds files.new)
        (Replaces index.now working.now defs.now pages)) }
    ensures kept { OnErr result (Told (F.holds files.old) (F.holds files.new)
        (KeepsIndex index.now)) }
    ensures others { Told (F.holds files.old) (F.holds files.new)
        (OthersStayOf index.now working.now) }
    ensures cleared { IfErr result (IsCleared working.now
        (F.holds files.old) (F.holds files.new) (F.faults files.old) (F.faults files.new)) }
    ensures cut { IfErr result (λ f. CutsOff f ⊎ (F.holds files.old ≡ None)) }
    ensures cause { HasCause SortFault.File (F.faults files.old) (F.faults files.new) result }
{
    match write_index(alloc, files, index, working, defs) {
        Ok(pages) => Ok(pages),
        Err(fault) => {
            let _ = files.remove(working);
            Err(fault)
        }
    }
}

// The same, with the working file left as it is after a fault.
fn write_index<F: Files>(
    alloc: Global,
    files: &mut F,
    index: &str,
    working: &str,
    defs: &Defs,
) -> Result<u64, SortFault>
    requires writable { IsTrue F.writable }
    requires apart { index.now ≢ working.now }
    requires defs { AreDefs defs.now }
    requires header { AreBytes defs.now.raw }
    requires clean { IfTold (F.holds files.old) (IsCleanIndex index.now defs.now) }
    ensures replaced { IfOk result (λ pages. Told (F.holds files.old) (F.holds files.new)
        (Replaces index.now working.now defs.now pages)) }
    ensures kept { OnErr result (Told (F.holds files.old) (F.holds files.new)
        (KeepsIndex index.now)) }
    ensures others { Told (F.holds files.old) (F.holds files.new)
        (OthersStayOf index.now working.now) }
    ensures cut { IfErr result (λ f. CutsOff f ⊎ (F.holds files.old ≡ None)) }
    ensures cause { HasCause SortFault.File (F.faults files.old) (F.faults files.new) result }
{
    definitions_are_sound();
    walks_depend_on_their_pages();
    let state = stored_state(alloc, defs)?;
    make_working(files, working, first_page(defs))?;
    let copy = IndexCopy {
        alloc,
        index,
        working,
        limit: state.key_file_length.max(first_page(defs)),
    };
    let laid = lay_trees(&copy, files, defs, state.roots.as_slice())?;
    let pages = laid.pages;
    let header = print_state(alloc, defs, &with_trees(state, laid))?;
    put_header(files, working, &header)?;
    files.rename(working, index)?;
    Ok(pages)
}

// Makes the working file, so long: what stands in it is written later.
fn make_working<F: Files>(files: &mut F, working: &str, length: u64) -> Result<(), SortFault>
    requires { IsTrue F.writable }
    ensures made { OnOk result (Told (F.holds files.old) (F.holds files.new)
        (Cuts working.now length)) }
    ensures others { Told (F.holds files.old) (F.holds files.new) (OthersStay working.now) }
    ensures cut { IfErr result CutsOff }
    ensures cause { HasCause SortFault.File (F.faults files.old) (F.faults files.new) result }
{
    files.cut(working, length)?;
    Ok(())
}

// Writes a header to the front of the working file.
fn put_header<F: Files>(files: &mut F, working: &str, header: &[u8]) -> Result<(), SortFault>
    requires { IsTrue F.writable }
    ensures put { OnOk result (Told (F.holds files.old) (F.holds files.new)
        (Writes working.now 0 header.now)) }
    ensures others { Told (F.holds files.old) (F.holds files.new) (OthersStay working.now) }
    ensures cut { IfErr result CutsOff }
    ensures cause { HasCause SortFault.File (F.faults files.old) (F.faults files.new) result }
{
    files.write_at(working, 0, header)?;
    Ok(())
}

// The state with the trees that were laid.
fn with_trees(mut state: State, laid: LaidTrees) -> State
    ensures { result ≡ state_laid state laid }
{
    state.changed = sorted_bits(state.changed);
    state.key_file_length = laid.end;
    state.key_empty = 0;
    state.roots = Sequence::new(laid.roots);
    state
}

// The changed bits without the one that says that the pages are not sorted.
fn sorted_bits(bits: u8) -> u8
    ensures { result ≡ sorted_bits bits }
{
    bits & !NOT_SORTED_PAGES
}
