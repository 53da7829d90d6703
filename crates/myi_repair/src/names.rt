//! `TableFiles`: the names of a table's two files and of their working files.

use myi_io::Files;
use std::alloc::{AllocError, Global};

/// The names of a table's files.
pub struct TableFiles {
    pub rows: String,
    pub index: String,
    /// The new data file, until it is whole.
    pub new_rows: String,
    /// The new index file, until it is whole.
    pub new_index: String,
}

impl Drop for TableFiles {
    fn drop(self) {
        let TableFiles {
            rows: _,
            index: _,
            new_rows: _,
            new_index: _,
        } = self;
    }
}

impl TableFiles {
    ghost use Rattle.std.specs.Prelude.{◌≡◌, ◌≤◌, IfOk, IsTrue, ℕ};
    ghost use Rattle.myi_base.specs.Holding.{Told};
    ghost use Rattle.myi_repair.specs.Faults.{RoseAtMost};
    ghost use Rattle.myi_repair.specs.Names.{names_of, names_for, AreApart, KeepsBut, KeepsBoth, working_left};

    /// The names of the files of a table of this name.
    pub fn of(alloc: Global, name: &str) -> Result<TableFiles, AllocError>
        ensures { IfOk result (λ t. names_of t ≡ names_for name.now) }
    {
        Ok(TableFiles {
            rows: format!(in alloc; "{name}.MYD")?,
            index: format!(in alloc; "{name}.MYI")?,
            new_rows: format!(in alloc; "{name}.TMD")?,
            new_index: format!(in alloc; "{name}.TMI")?,
        })
    }

    /// Takes the working files away, each as far as that succeeds.
    pub fn clear<F: Files>(&self, files: &mut F)
        requires writable { IsTrue F.writable }
        requires apart { AreApart (names_of self.now) }
        ensures gone { (more : ℕ) → RoseAtMost more (F.faults files.old) (F.faults files.new)
            → Told (F.holds files.old) (F.holds files.new)
            (λ _ n. working_left (names_of self.now) n ≤ more) }
        ensures both { Told (F.holds files.old) (F.holds files.new)
            (KeepsBoth (names_of self.now)) }
        ensures others { Told (F.holds files.old) (F.holds files.new)
            (KeepsBut (names_of self.now)) }
        ensures later { F.faults files.old ≤ F.faults files.new }
    {
        let _ = files.remove(self.new_rows.as_str());
        let _ = files.remove(self.new_index.as_str());
    }
}
