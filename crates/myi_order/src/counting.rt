//! Counting the distinct prefixes of the keys of a table, by its trees.
ghost use Rattle.std.specs.Prelude.{◌≡◌, ◌<◌, ◌^◌, ℕ, Ok, Some, List, length, map, IfOk, IfErr};
ghost use Rattle.std.specs.List.{AllByRecursion, range_with_len};
ghost use Rattle.myi_keylist.specs.declared.pair.Pair.{Pair};
ghost use Rattle.myi_base.specs.Holding.{IfTold};
ghost use Rattle.myi_base.specs.Causes.{HasCause};
ghost use Rattle.myi_defs.specs.ReadDefs.{read_defs};
ghost use Rattle.myi_defs.specs.Sound.{IsSound};
ghost use Rattle.myi_pair.specs.Clean.{IsClean};
ghost use Rattle.myi_order.specs.Faults.{CutsOff};
ghost use Rattle.myi_order.specs.Numbers.{all_per};
ghost use Rattle.myi_order.specs.Counting.{CountsFile};
ghost use Rattle.myi_order.specs.Listed.{HaveLists, parts_at};

use crate::fault::OrderFault;
use crate::key_parts::{KeyParts, parts_of_tree};
use myi_defs::{Defs, definitions_are_sound};
use myi_header::stored_state;
use myi_io::Files;
use std::alloc::Global;

/// What was counted of the rows of a table.
#[derive(Drop)]
pub(crate) struct Counted {
    pub(crate) rows: u64,
    /// The rows per prefix of each key.
    pub(crate) parts: Vec<KeyParts>,
}

/// Counts the rows of a clean table by its index file, whose header the definitions were read from: the header
/// has their number, and the tree of each key its pairs in order.
pub(crate) fn count_trees<F: Files>(
    alloc: Global,
    files: &mut F,
    index: &str,
    defs: &Defs,
) -> Result<Counted, OrderFault>
    requires { IsSound defs.now }
    ensures counted { IfOk result (λ c. IfTold (F.holds files.old) (λ m. (x : List ℕ)
        → m index.now ≡ Some x → read_defs x ≡ Ok defs.now → (file : List ℕ) → IsClean file x
        → CountsFile defs.now file c)) }
    ensures small { IfOk result (λ c. AllByRecursion (λ n. n < 256 ^ 4) (all_per c.parts.items)) }
    ensures few { IfOk result (λ c. c.rows < 256 ^ 8) }
    ensures holds { F.holds files.new ≡ F.holds files.old }
    ensures cut { IfErr result CutsOff }
    ensures cause { HasCause OrderFault.File (F.faults files.old) (F.faults files.new) result }
{
    definitions_are_sound();
    let state = stored_state(alloc, defs)?;
    Ok(Counted {
        rows: state.records,
        parts: parts_of_trees(alloc, files, index, defs, state.roots.as_slice())?,
    })
}

// The rows per prefix of all keys, by their trees.
fn parts_of_trees<F: Files>(
    alloc: Global,
    files: &mut F,
    index: &str,
    defs: &Defs,
    roots: &[Option<u64>],
) -> Result<Vec<KeyParts>, OrderFault>
    requires sound { IsSound defs.now }
    requires roots { length roots.now ≡ length defs.now.keys }
    ensures counted { IfOk result (λ parts. IfTold (F.holds files.old) (λ m. (x : List ℕ)
        → m index.now ≡ Some x → (lists : List (List Pair))
        → HaveLists defs.now roots.now x lists
        → parts.items ≡ map (parts_at defs.now lists) (range_with_len 0 (length roots.now)))) }
    ensures small { IfOk result (λ parts. AllByRecursion (λ n. n < 256 ^ 4) (all_per parts.items)) }
    ensures holds { F.holds files.new ≡ F.holds files.old }
    ensures cut { IfErr result CutsOff }
    ensures cause { HasCause OrderFault.File (F.faults files.old) (F.faults files.new) result }
{
    let mut parts = Vec::with_capacity(alloc, roots.len())?;
    for at in 0..roots.len() {
        let root = roots[at];
        parts.push(parts_of_tree(alloc, files, index, defs, at, root)?)?;
    }
    Ok(parts)
}
