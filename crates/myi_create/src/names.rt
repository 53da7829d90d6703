//! `NewFiles`: the names of the files of a table that is made.

use std::alloc::{AllocError, Global};

/// The names of a table's two files, and of the index file until it is whole.
#[derive(Drop)]
pub(crate) struct NewFiles {
    pub(crate) rows: String,
    pub(crate) index: String,
    pub(crate) new_index: String,
}

impl NewFiles {
    ghost use Rattle.std.specs.Prelude.{◌≡◌, IfOk};
    ghost use Rattle.myi_create.specs.Names.{names_of, names_for};

    pub(crate) fn of(alloc: Global, name: &str) -> Result<NewFiles, AllocError>
        ensures { IfOk result (λ t. names_of t ≡ names_for name.now) }
    {
        Ok(NewFiles {
            rows: format!(in alloc; "{name}.MYD")?,
            index: format!(in alloc; "{name}.MYI")?,
            new_index: format!(in alloc; "{name}.TMI")?,
        })
    }
}
