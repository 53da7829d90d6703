//! Laws over the definitions of this crate. Each is the contract of a function that does nothing, so
//! that it is proved with the crate and stands for the crates above.
ghost use Rattle.std.specs.Prelude.{◌≡◌, ◌<◌, ◌^◌, ℕ, Bool, List, [], Option, Some, length};
ghost use Rattle.myi_base.specs.Holding.{Holding, bytes_of};
ghost use Rattle.myi_base.specs.Numbers.{AreBytes};
ghost use Rattle.myi_defs.specs.ReadDefs.{AreDefs};
ghost use Rattle.myi_defs.specs.Sound.{IsSound};
ghost use Rattle.myi_data.specs.Stored.{SizedRow, stored_file};
ghost use Rattle.myi_pair.specs.RebuiltBytes.{rebuilt, rebuilt_index};
ghost use Rattle.myi_pair.specs.RecoveredBytes.{kept, new_index};
ghost use Rattle.myi_repair.specs.declared.gathering.Gathered.{Gathered};
ghost use Rattle.myi_repair.specs.declared.report.Report.{Report};
ghost use Rattle.myi_repair.specs.Names.{FourNames, names_for, AreApart, Holds, KeepsBoth};
ghost use Rattle.myi_repair.specs.Gathering.{IsOfRows, IsGathered, Gathers};
ghost use Rattle.myi_repair.specs.Building.{trees_of, Builds};
ghost use Rattle.myi_repair.specs.Finishing.{finished_index, Finishes};
ghost use Rattle.myi_repair.specs.Repaired.{LeavesRepaired, OldOrNew, Completes, CompletesPart};

/// The trees of the pairs of a table of any rows in the working index file, and their roots and end, make
/// its new index file, whoever laid the trees and whatever became of the pairs by then. Where the working
/// data file holds the rows, the end of a repair leaves the two files of a table that is made anew of them.
/// So it is with what was gathered of a table, and the rows that are kept.
pub fn laid_trees_are_finished()
    ensures index { (t : FourNames) (rows : List SizedRow) (g left : Gathered) (now end : ℕ)
        (roots : List (Option ℕ)) (m n : Holding)
        → IsSound g.defs → length g.pairs ≡ length g.defs.keys → IsOfRows rows g
        → left ≡ record g { pairs = [] }
        → roots ≡ (trees_of g.defs g.pairs).roots → end ≡ (trees_of g.defs g.pairs).end
        → Builds g.defs g.pairs t.new_index m n
        → finished_index left roots end now (bytes_of t.new_index n)
        ≡ rebuilt_index g.defs rows now }
    ensures files { (t : FourNames) (rows : List SizedRow) (g left : Gathered) (now end : ℕ)
        (roots : List (Option ℕ)) (m n o : Holding)
        → IsSound g.defs → length g.pairs ≡ length g.defs.keys → IsOfRows rows g
        → left ≡ record g { pairs = [] }
        → roots ≡ (trees_of g.defs g.pairs).roots → end ≡ (trees_of g.defs g.pairs).end
        → Builds g.defs g.pairs t.new_index m n → n t.new_rows ≡ Some (stored_file g.defs rows)
        → Finishes t left roots end now n o
        → Holds t (rebuilt g.defs rows now).0 (rebuilt g.defs rows now).1 o }
    ensures gathered { (t : FourNames) (extend : Bool) (d : List ℕ) (g : Gathered) (m : Holding)
        → IsGathered t extend d g m → IsOfRows (kept g.defs extend d) g }
    ensures recovered { (t : FourNames) (extend : Bool) (d : List ℕ) (g left : Gathered)
        (now end : ℕ) (roots : List (Option ℕ)) (m n : Holding)
        → IsSound g.defs → length g.pairs ≡ length g.defs.keys → IsGathered t extend d g m
        → left ≡ record g { pairs = [] }
        → roots ≡ (trees_of g.defs g.pairs).roots → end ≡ (trees_of g.defs g.pairs).end
        → Builds g.defs g.pairs t.new_index m n
        → finished_index left roots end now (bytes_of t.new_index n)
        ≡ new_index g.defs extend d now }
{}

/// The files of a table and its working files have four names.
pub fn names_of_files_are_apart()
    ensures { (name : List ℕ) → AreApart (names_for name) }
{}

/// A table that was gathered and then completed is repaired. At every outcome its two files are the old
/// ones or whole new ones, where gathering keeps both and completing does its part at most.
pub fn completed_tables_are_repaired()
    ensures repaired { (name : List ℕ) (extend : Bool) (now : ℕ) (g : Gathered) (said : Report)
        (m n o : Holding)
        → AreDefs g.defs → AreBytes g.defs.raw → now < 2 ^ 64
        → Gathers (names_for name) extend g m n → said ≡ g.report
        → Completes (names_for name) g now n o → LeavesRepaired name extend now said m o }
    ensures kept { (name : List ℕ) (extend : Bool) (now : ℕ) (m n : Holding)
        → KeepsBoth (names_for name) m n → OldOrNew name extend now m n }
    ensures part { (name : List ℕ) (extend : Bool) (now : ℕ) (g : Gathered) (m n o : Holding)
        → Gathers (names_for name) extend g m n → KeepsBoth (names_for name) m n
        → CompletesPart (names_for name) g now n o → OldOrNew name extend now m o }
{}
