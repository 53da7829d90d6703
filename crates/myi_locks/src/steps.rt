//! The steps of a script, and the rounds in which they are done.
ghost use Rattle.std.specs.Prelude.{◌≡◌, Option};
ghost use Rattle.myi_locks.specs.Steps as spec;
ghost use Rattle.myi_locks.specs.Script.{is_end};

use myi_base::Sequence;

/// A lock of the table.
#[derive(Clone, Copy, Debug, PartialEq, Eq)]
pub enum LockKind {
    /// All may read, and nobody writes.
    Read,
    /// All may read, and other sessions may insert at the end of the data file.
    ReadLocal,
    /// The holder alone reads and writes.
    Write,
}

/// What a step does. `Release`, `Unlock` and `End` give up the session's lock.
#[derive(Clone, Copy, Debug, PartialEq, Eq)]
pub enum StepKind {
    /// The first half of a `lock` line: the lock that the session holds is given up.
    Release,
    /// The second half of a `lock` line.
    Take(LockKind),
    /// A read: a scan or a range.
    Rows,
    Insert,
    /// A delete or an update.
    Change,
    Unlock,
    /// The counters of the key cache are told.
    Stats,
    /// Nothing of the session follows.
    End,
}

/// A step of a session. `line` is the script's line that it comes from, counted from 1; an `End`
/// that no line says has line 0, and comes after all lines.
#[derive(Clone, Copy, Debug, PartialEq, Eq)]
pub struct Step {
    pub session: u32,
    pub line: u32,
    pub kind: StepKind,
}

/// Steps of one kind and one session, which are done one after the other.
#[derive(Drop)]
pub struct Run {
    pub session: u32,
    pub steps: Sequence<Step>,
}

/// Runs of several sessions, in the order of the sessions' numbers.
#[derive(Drop)]
pub struct Runs {
    pub runs: Sequence<Run>,
}

/// What is done next.
#[derive(Drop)]
pub enum Round {
    /// No step is left.
    Finished,
    /// One step, while no other session does anything.
    Alone(Step),
    /// The runs of reads of several sessions, in any order and side by side, and beside them the
    /// run of inserts of one session, if any.
    Together {
        inserter: Option<Run>,
        readers: Runs,
    },
}

impl StepKind {
    /// Whether the step waits for no lock of another session, whatever it is.
    pub(crate) fn waits_for_none(self) -> bool
        ensures { result ≡ spec.waits_for_none self }
    {
        matches!(
            self,
            StepKind::Release | StepKind::Unlock | StepKind::Stats | StepKind::End
        )
    }

    /// Whether the step writes rows.
    pub(crate) fn writes_rows(self) -> bool
        ensures { result ≡ spec.writes_rows self }
    {
        matches!(self, StepKind::Insert | StepKind::Change)
    }

    pub(crate) fn is_insert(self) -> bool
        ensures { result ≡ spec.is_insert self }
    {
        matches!(self, StepKind::Insert)
    }

    pub(crate) fn is_read(self) -> bool
        ensures { result ≡ spec.is_read self }
    {
        matches!(self, StepKind::Rows)
    }

    /// Whether the step is a write whatever stands round it: a delete, an update or `lock write`.
    pub(crate) fn is_always_write(self) -> bool
        ensures { result ≡ spec.is_always_write self }
    {
        matches!(self, StepKind::Change | StepKind::Take(LockKind::Write))
    }

    pub(crate) fn is_end(self) -> bool
        ensures { result ≡ is_end self }
    {
        matches!(self, StepKind::End)
    }

    pub(crate) fn takes_read(self) -> bool
        ensures { result ≡ spec.takes_read self }
    {
        matches!(
            self,
            StepKind::Take(LockKind::Read) | StepKind::Take(LockKind::ReadLocal)
        )
    }

    /// The lock that a session holds after a step, by the one that it held before.
    pub(crate) fn lock_after(self, held: Option<LockKind>) -> Option<LockKind>
        ensures { result ≡ spec.lock_after self held }
    {
        match self {
            StepKind::Release | StepKind::Unlock | StepKind::End => None,
            StepKind::Take(kind) => Some(kind),
            _ => held,
        }
    }
}
