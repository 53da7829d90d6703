//! `KeyParts`: how many rows go to one prefix of a key.
ghost use Rattle.std.specs.Prelude.{◌≡◌, ◌<◌, ◌+◌, ◌^◌, ℕ, List, length, Some, IfOk, IfErr};
ghost use Rattle.std.specs.List.{AllByRecursion};
ghost use Rattle.myi_base.specs.Holding.{IfTold};
ghost use Rattle.myi_base.specs.Causes.{HasCause};
ghost use Rattle.myi_defs.specs.Sound.{IsSound};
ghost use Rattle.myi_check.specs.Keys.{rooted_place};
ghost use Rattle.myi_order.specs.Faults.{CutsOff};
ghost use Rattle.myi_order.specs.Listed.{CountsKey};

use crate::fault::OrderFault;
use crate::tree_counts::count_tree;
use myi_base::Sequence;
use myi_btree::Place;
use myi_defs::Defs;
use myi_io::Files;
use std::alloc::Global;

/// How many rows go to one prefix of a key, on average.
#[derive(Drop)]
pub struct KeyParts {
    /// The number of the key, from 1.
    pub key: u8,
    /// The rows per prefix of one segment, of two, and so on, up to all segments of the key. No number is
    /// above 4,294,967,295, and each is 0 where there is no row.
    pub per: Sequence<u64>,
}

// The tree of the key at an index, with that root.
fn place_of(defs: &Defs, at: usize, root: Option<u64>) -> Place
    requires { at < length defs.now.keys }
    ensures { result ≡ rooted_place defs.now (at + 1) root }
{
    Place {
        block_length: defs.keys.as_slice()[at].block_length,
        rec_ref: defs.rec_ref,
        root,
    }
}

/// The rows per prefix of the key at an index, by its tree in an index file.
pub(crate) fn parts_of_tree<F: Files>(
    alloc: Global,
    files: &mut F,
    index: &str,
    defs: &Defs,
    at: usize,
    root: Option<u64>,
) -> Result<KeyParts, OrderFault>
    requires sound { IsSound defs.now }
    requires inside { at < length defs.now.keys }
    ensures counts { IfOk result (λ parts. IfTold (F.holds files.old) (λ m. (x : List ℕ)
        → m index.now ≡ Some x → CountsKey defs.now at root x parts)) }
    ensures small { IfOk result (λ parts. AllByRecursion (λ n. n < 256 ^ 4) parts.per) }
    ensures cut { IfErr result CutsOff }
    ensures holds { F.holds files.new ≡ F.holds files.old }
    ensures cause { HasCause OrderFault.File (F.faults files.old) (F.faults files.new) result }
{
    let place = place_of(defs, at, root);
    let segments = defs.keys.as_slice()[at].segments.as_slice().len();
    let per = count_tree(alloc, files, index, place, segments)?;
    Ok(KeyParts {
        key: at as u8 + 1,
        per: Sequence::new(per),
    })
}
