//! `Locks`: the sessions of a script, under their table locks.
ghost use Rattle.std.specs.Prelude.{◌≡◌, ◌≤◌, IfOk, Bool, true};
ghost use Rattle.std.specs.Option.{option_copied};
ghost use Rattle.myi_locks.specs.Rounds as spec;
ghost use Rattle.myi_locks.specs.Rounds.{LockState, has_steps};
ghost use Rattle.myi_locks.specs.Done.{advanced, held};
ghost use Rattle.myi_locks.specs.Script.{opening, IsScript};
ghost use Rattle.myi_locks.specs.Laws.{IsLawful, HoldsStep};

use crate::done::do_round;
use crate::opening::{end_all, gathered};
use crate::rounds::{next_round, session_of};
use crate::session::Session;
use crate::steps::{LockKind, Round, Step};
use std::alloc::{AllocError, Global};
use std::marker::Model;

/// The sessions of a script: the steps that each has not done, and its lock.
#[derive(Drop)]
pub struct Locks {
    setting: u8,
    sessions: Vec<Session>,
}

impl Model for Locks {
    ghost Value = { LockState };

    ghost view = { λ s. record { setting = s.setting; sessions = s.sessions.items } };

    ghost invariant = { λ s. IsLawful s.sessions.items };
}

impl Locks {
    /// The sessions of a script with these steps, before the first round. Lines count from 1 and do
    /// not fall; no line has steps of two sessions; a `Take` comes right behind a `Release` of its
    /// session, and nothing of a session behind its `End`. `setting` is that of concurrent inserts: 0 never, 1 at the end of a table without holes, 2 also at the end of a
    /// table with holes that other sessions use. A session whose steps have no `End` gets one, of
    /// line 0.
    pub fn new(alloc: Global, steps: Vec<Step>, setting: u8) -> Result<Locks, AllocError>
        requires setting { setting ≤ 2 }
        requires script { IsScript steps.items }
        ensures { IfOk result (λ locks. locks ≡ opening setting steps.items) }
    {
        let mut sessions = gathered(alloc, &steps)?;
        end_all(&mut sessions)?;
        Ok(Locks { setting, sessions })
    }

    /// The next round, where `holes` says whether the table has a hole. It is `Finished` exactly
    /// where no step is left. Its cost goes by the square of the number of sessions, and the
    /// steps that it answers.
    pub fn round(&self, holes: bool) -> Result<Round, AllocError>
        ensures rule { IfOk result (λ round. round ≡ spec.next_round self.now holes) }
        ensures some { IfOk result (λ round. has_steps self.now ≡ true → HoldsStep round) }
    {
        let alloc = *self.sessions.allocator();
        let round = next_round(alloc, self.setting, &self.sessions, holes)?;
        Ok(round)
    }

    /// The steps of a round are done, which is the next one for some answer on holes. It takes no
    /// memory.
    pub fn advance(&mut self, round: &Round)
        requires { (holes : Bool) × (round.now ≡ spec.next_round self.old holes) }
        ensures { self.new ≡ advanced self.old round.now }
    {
        do_round(&mut self.sessions, round);
    }

    /// The lock that a session holds after the steps that are done. A number that no session has
    /// holds none.
    pub fn held(&self, session: u32) -> Option<LockKind>
        ensures { result ≡ held self.now session }
    {
        match session_of(&self.sessions, session) {
            Some(session) => session.held(),
            None => None,
        }
    }
}
