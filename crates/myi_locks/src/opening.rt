//! The sessions of a script before the first round.
//!
//! The steps are gone through once: each goes to the end of its session, which is put where its
//! number belongs at its first step. Then each session without an `End` gets one.
ghost use Rattle.std.specs.Prelude.{◌≡◌, map, fold, IfOk, OnOk};
ghost use Rattle.myi_locks.specs.Placing.{placed, all_placed, ended};

use crate::session::Session;
use crate::steps::Step;
use std::alloc::{AllocError, Global};

fn place(alloc: Global, sessions: &mut Vec<Session>, step: &Step) -> Result<(), AllocError>
    ensures { OnOk result (sessions.new.items ≡ placed step.now sessions.old.items) }
{
    let mut at = 0;
    while at < sessions.len() && sessions[at].number() < step.session {
        at += 1;
    }
    if at == sessions.len() {
        sessions.push(Session::new(alloc, step)?)?;
        return Ok(());
    }
    if sessions[at].number() == step.session {
        sessions[at].push(step)?;
        return Ok(());
    }
    sessions.insert(at, Session::new(alloc, step)?)?;
    Ok(())
}

/// The sessions of the steps, each without an added `End`.
pub(crate) fn gathered(alloc: Global, steps: &[Step]) -> Result<Vec<Session>, AllocError>
    ensures { IfOk result (λ v. v.items ≡ all_placed steps.now) }
{
    let mut sessions = Vec::new(alloc);
    for step in steps {
        place(alloc, &mut sessions, step)?;
    }
    Ok(sessions)
}

pub(crate) fn end_all(sessions: &mut Vec<Session>) -> Result<(), AllocError>
    ensures { OnOk result (sessions.new.items ≡ map ended sessions.old.items) }
{
    for session in sessions.iter_mut() {
        session.end()?;
    }
    Ok(())
}
