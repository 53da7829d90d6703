//! `Session`: a session's number, the steps that it has not done, and its lock.
//!
//! The steps stand in a queue, so that a step is done without moving the others. Contracts see a
//! session as the record `Session` of `specs/Sessions`, and each question that the rule asks is one
//! method here.
ghost use Rattle.std.specs.Prelude.{◌≡◌, IfOk, OnOk};
ghost use Rattle.std.specs.List.{take_while};
ghost use Rattle.myi_locks.specs.Sessions as spec;
ghost use Rattle.myi_locks.specs.Steps as kind;
ghost use Rattle.myi_locks.specs.Rounds.{run_of, has_step, at_once};
ghost use Rattle.myi_locks.specs.Done.{after_any};
ghost use Rattle.myi_locks.specs.Placing.{begun, with_step, ended};

use crate::steps::{LockKind, Run, Step, StepKind};
use myi_base::Sequence;
use std::alloc::{AllocError, Global};
use std::collections::VecDeque;
use std::marker::Model;

/// A session of a script.
pub(crate) struct Session {
    number: u32,
    left: VecDeque<Step>,
    held: Option<LockKind>,
}

impl Drop for Session {
    fn drop(self) {
        let Session {
            number: _,
            left: _,
            held: _,
        } = self;
    }
}

impl Model for Session {
    ghost Value = { spec.Session };

    ghost view = { λ s. record { number = s.number; left = s.left.items; held = s.held } };
}

fn reads_of(alloc: Global, left: &VecDeque<Step>) -> Result<Vec<Step>, AllocError>
    ensures { IfOk result (λ v. v.items ≡ take_while (λ x. kind.is_read x.kind) left.now.items) }
{
    left.iter()
        .take_while(|step| step.kind.is_read())
        .copied()
        .collect(alloc)
}

fn inserts_of(alloc: Global, left: &VecDeque<Step>) -> Result<Vec<Step>, AllocError>
    ensures { IfOk result (λ v. v.items ≡ take_while (λ x. kind.is_insert x.kind) left.now.items) }
{
    left.iter()
        .take_while(|step| step.kind.is_insert())
        .copied()
        .collect(alloc)
}

impl Session {
    /// A session with one step.
    pub(crate) fn new(alloc: Global, step: &Step) -> Result<Session, AllocError>
        ensures { IfOk result (λ s. s ≡ begun step.now) }
    {
        let mut left = VecDeque::new(alloc);
        left.push_back(*step)?;
        Ok(Session {
            number: step.session,
            left,
            held: None,
        })
    }

    /// One more step, after all others.
    pub(crate) fn push(&mut self, step: &Step) -> Result<(), AllocError>
        ensures { OnOk result (self.new ≡ with_step step.now self.old) }
    {
        self.left.push_back(*step)?;
        Ok(())
    }

    /// Adds an `End` where the session's steps have none.
    pub(crate) fn end(&mut self) -> Result<(), AllocError>
        ensures { OnOk result (self.new ≡ ended self.old) }
    {
        match self.left.back().copied() {
            Some(step) if step.kind.is_end() => Ok(()),
            _ => {
                self.left.push_back(Step {
                    session: self.number,
                    line: 0,
                    kind: StepKind::End,
                })?;
                Ok(())
            }
        }
    }

    pub(crate) fn number(&self) -> u32
        ensures { result ≡ self.now.number }
    {
        self.number
    }

    pub(crate) fn held(&self) -> Option<LockKind>
        ensures { result ≡ self.now.held }
    {
        self.held
    }

    /// The session's next step.
    pub(crate) fn next(&self) -> Option<Step>
        ensures { result ≡ spec.head self.now.left }
    {
        self.left.front().copied()
    }

    pub(crate) fn has_step(&self) -> bool
        ensures { result ≡ has_step self.now }
    {
        !self.left.is_empty()
    }

    pub(crate) fn is_next_read(&self) -> bool
        ensures { result ≡ spec.is_next kind.is_read self.now }
    {
        self.next().is_some_and(|step| step.kind.is_read())
    }

    pub(crate) fn is_next_insert(&self) -> bool
        ensures { result ≡ spec.is_next kind.is_insert self.now }
    {
        self.next().is_some_and(|step| step.kind.is_insert())
    }

    pub(crate) fn is_next_always_write(&self) -> bool
        ensures { result ≡ spec.is_next kind.is_always_write self.now }
    {
        self.next().is_some_and(|step| step.kind.is_always_write())
    }

    pub(crate) fn is_next_takes_read(&self) -> bool
        ensures { result ≡ spec.is_next kind.takes_read self.now }
    {
        self.next().is_some_and(|step| step.kind.takes_read())
    }

    /// Whether the session's next step goes whatever lock another session holds.
    pub(crate) fn goes_at_once(&self) -> bool
        ensures { result ≡ at_once self.now }
    {
        match self.next() {
            Some(step) => {
                step.kind.waits_for_none()
                    || step.kind.writes_rows() && (self.holds_read() || self.holds_local())
            }
            None => false,
        }
    }

    pub(crate) fn holds_read(&self) -> bool
        ensures { result ≡ spec.holds_read self.now.held }
    {
        matches!(self.held, Some(LockKind::Read))
    }

    pub(crate) fn holds_local(&self) -> bool
        ensures { result ≡ spec.holds_local self.now.held }
    {
        matches!(self.held, Some(LockKind::ReadLocal))
    }

    pub(crate) fn holds_write(&self) -> bool
        ensures { result ≡ spec.holds_write self.now.held }
    {
        matches!(self.held, Some(LockKind::Write))
    }

    pub(crate) fn holds_any(&self) -> bool
        ensures { result ≡ spec.holds_any self.now.held }
    {
        self.held.is_some()
    }

    /// The run of the session's reads that begins with its next step.
    pub(crate) fn reads(&self, alloc: Global) -> Result<Run, AllocError>
        ensures { IfOk result (λ run. run ≡ run_of kind.is_read self.now) }
    {
        let steps = reads_of(alloc, &self.left)?;
        Ok(Run {
            session: self.number,
            steps: Sequence::new(steps),
        })
    }

    /// The run of the session's inserts that begins with its next step.
    pub(crate) fn inserts(&self, alloc: Global) -> Result<Run, AllocError>
        ensures { IfOk result (λ run. run ≡ run_of kind.is_insert self.now) }
    {
        let steps = inserts_of(alloc, &self.left)?;
        Ok(Run {
            session: self.number,
            steps: Sequence::new(steps),
        })
    }

    /// A step of a round is done.
    pub(crate) fn step(&mut self, step: &Step)
        ensures { self.new ≡ after_any step.now self.old }
    {
        if self.number == step.session {
            self.left.pop_front();
            self.held = step.kind.lock_after(self.held);
        }
    }
}
