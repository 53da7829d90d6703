//! A law over scripts of tables that are alike. It is the contract of a function that does
//! nothing, so that it is proved with the crate and stands for the crates above.
ghost use Rattle.std.specs.Prelude.{List};
ghost use Rattle.myi_defs.specs.declared.types.Defs.{Defs};
ghost use Rattle.myi_script.specs.declared.types.Line.{Line};
ghost use Rattle.myi_history.specs.Lines.{MayRun};
ghost use Rattle.myi_merge.specs.Merged.{IsLike};

/// The lines of a script that may run on a table may run on each table that is like it.
pub fn scripts_run_on_like_tables()
    ensures { (d e : Defs) (ls : List Line) → IsLike d e → MayRun d ls → MayRun e ls }
{}
