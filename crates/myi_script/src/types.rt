//! What a script says.
//!
//! A `Script` has the lines that do something, in order; a `Line` has its session and its number, and an `Act`,
//! which is what is done.
use myi_base::Sequence;
use myi_keys::KeyVal;
use myi_locks::LockKind;
use myi_pack::Row;
use std::alloc::{AllocError, AllocFailed};
use thiserror::Error;

/// Rows whose key is at least one bound and at most another. In a script a bound has all segments of the
/// key.
#[derive(Drop)]
pub struct Range {
    /// The number of the key, from 1.
    pub key: u8,
    /// The least key; without it there is none.
    pub from: Option<KeyVal>,
    /// The greatest key; without it there is none.
    pub to: Option<KeyVal>,
}

/// What a line does. Positions are places in the data file for dynamic rows and for static ones, from 0.
#[derive(Drop)]
pub enum Act {
    Insert(Row),
    Update { at: u64, row: Row },
    Delete { at: u64 },
    /// Reads all rows in the order of their positions.
    Scan,
    /// Reads the rows of a range in the order of their keys.
    Over(Range),
    /// Gives up the session's lock, and takes this one.
    Lock(LockKind),
    Unlock,
    /// Asks for the numbers of the key cache.
    Stats,
    /// Ends the session.
    End,
}

/// A line that does something.
#[derive(Drop)]
pub struct Line {
    /// The number of the session, from 1 to 9.
    pub session: u32,
    /// The number of the line in the text, from 1; empty lines and comments are counted.
    pub line: u32,
    pub act: Act,
}

/// The lines of a script that do something.
#[derive(Drop)]
pub struct Script {
    pub lines: Sequence<Line>,
}

/// Why a script is refused.
#[derive(Clone, Copy, Debug, PartialEq, Eq, Error)]
pub enum ScriptFault {
    /// The number of the first line that is not in the grammar, from 1.
    #[error("line {0} is not in the grammar")]
    Line(u32),
    #[error("out of memory")]
    Memory,
}

impl From<AllocError> for ScriptFault {
    ghost use Rattle.std.specs.Prelude.{◌≡◌};
    ghost use Rattle.myi_script.specs.declared.types.ScriptFault.TheVariants.{Memory};

    ghost from_gives = { λ _ e. e ≡ Memory };

    fn from(_: AllocError) -> Self {
        ScriptFault::Memory
    }
}

impl<T: Drop> From<AllocFailed<T>> for ScriptFault {
    ghost use Rattle.std.specs.Prelude.{◌≡◌};
    ghost use Rattle.myi_script.specs.declared.types.ScriptFault.TheVariants.{Memory};

    ghost from_gives = { λ _ e. e ≡ Memory };

    fn from(_: AllocFailed<T>) -> Self {
        ScriptFault::Memory
    }
}
