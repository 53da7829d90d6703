//! The next round: each of the six cases of the rule as one function, and `next_round`, which
//! answers the first that holds.
//!
//! Each function mirrors one definition of `specs/Rounds`. A case looks at the next step and the
//! lock of each session; only runs that are answered are gone through.
ghost use Rattle.std.specs.Prelude.{◌≡◌, ◌||◌, not, IfOk, Bool};
ghost use Rattle.std.specs.List.{list_any};
ghost use Rattle.std.specs.Option.{option_copied};
ghost use Rattle.myi_locks.specs.Rounds as spec;
ghost use Rattle.myi_locks.specs.Sessions as session;
ghost use Rattle.myi_locks.specs.Steps as kind;

use crate::session::Session;
use crate::steps::{Round, Run, Runs, Step};
use myi_base::Sequence;
use std::alloc::{AllocError, Global};

fn comes_before(a: Step, b: Step) -> bool
    ensures { result ≡ kind.comes_before a b }
{
    a.line != 0 && (b.line == 0 || a.line < b.line)
}

fn earlier(best: Option<Step>, step: Step) -> Option<Step>
    ensures { result ≡ session.earlier best step }
{
    match best {
        Some(found) if !comes_before(step, found) => Some(found),
        _ => Some(step),
    }
}

/// Some next step is `Release`, `Unlock`, `End`, `Stats`, or an insert, delete or update of a
/// session that itself holds a read lock: the first of these.
#[tactic(auto, unfolding(crate::specs::Rounds::case_at_once))]
fn at_once(sessions: &[Session]) -> Option<Step>
    ensures { result ≡ spec.case_at_once sessions.now }
{
    sessions
        .iter()
        .filter(|session| session.goes_at_once())
        .filter_map(|session| session.next())
        .fold(None, earlier)
}

/// A session holds the write lock: its next step.
#[tactic(auto, unfolding(crate::specs::Rounds::case_write_held))]
fn write_held(sessions: &[Session]) -> Option<Step>
    ensures { result ≡ spec.case_write_held sessions.now }
{
    sessions
        .iter()
        .filter(|session| session.holds_write())
        .filter_map(|session| session.next())
        .fold(None, earlier)
}

/// Some next step is a write, and no other session than its own holds a lock: the first such.
#[tactic(auto, unfolding(crate::specs::Rounds::case_write))]
fn write(setting: u8, sessions: &[Session], holes: bool) -> Option<Step>
    ensures { result ≡ spec.case_write (spec.lock_state setting sessions.now) holes }
{
    sessions
        .iter()
        .filter(|session| {
            is_write(setting, sessions, holes, session)
                && !others_hold_any(sessions, session.number())
        })
        .filter_map(|session| session.next())
        .fold(None, earlier)
}

/// Some next step is a write, and has to wait: the runs of reads of all sessions that hold a lock.
#[tactic(auto, unfolding(crate::specs::Rounds::case_write_waits))]
fn write_waits(
    alloc: Global,
    setting: u8,
    sessions: &[Session],
    holes: bool,
) -> Result<Option<Round>, AllocError>
    ensures { IfOk result (λ round. round
        ≡ spec.case_write_waits (spec.lock_state setting sessions.now) holes) }
{
    if !some_write(setting, sessions, holes) {
        return Ok(None);
    }
    let runs = reads(alloc, sessions, true)?;
    Ok(Some(Round::Together {
        inserter: None,
        readers: Runs {
            runs: Sequence::new(runs),
        },
    }))
}

/// Some next step takes a read lock: the first such.
#[tactic(auto, unfolding(crate::specs::Rounds::case_takes_read))]
fn takes_read(sessions: &[Session]) -> Option<Step>
    ensures { result ≡ spec.case_takes_read sessions.now }
{
    sessions
        .iter()
        .filter(|session| session.is_next_takes_read())
        .filter_map(|session| session.next())
        .fold(None, earlier)
}

/// The runs of reads of all sessions, with the run of inserts of the first session whose next step
/// is one.
#[tactic(auto, unfolding(crate::specs::Rounds::case_together))]
fn together(alloc: Global, sessions: &[Session]) -> Result<Round, AllocError>
    ensures { IfOk result (λ round. round ≡ spec.case_together sessions.now) }
{
    let inserter = inserter(alloc, sessions)?;
    let runs = reads(alloc, sessions, false)?;
    Ok(Round::Together {
        inserter,
        readers: Runs {
            runs: Sequence::new(runs),
        },
    })
}

fn first_insert(sessions: &[Session]) -> Option<Step>
    ensures { result ≡ session.first (session.is_next kind.is_insert) sessions.now }
{
    sessions
        .iter()
        .filter(|session| session.is_next_insert())
        .filter_map(|session| session.next())
        .fold(None, earlier)
}

fn others_hold_any(sessions: &[Session], number: u32) -> bool
    ensures { result ≡ session.others_hold session.holds_any number sessions.now }
{
    sessions.iter().any(|session| session.number() != number && session.holds_any())
}

fn others_hold_read(sessions: &[Session], number: u32) -> bool
    ensures { result ≡ session.others_hold session.holds_read number sessions.now }
{
    sessions.iter().any(|session| session.number() != number && session.holds_read())
}

fn is_in_use(sessions: &[Session], number: u32) -> bool
    ensures { result ≡ spec.is_in_use sessions.now number }
{
    sessions.iter().any(|session| {
        session.number() != number && (session.holds_local() || session.is_next_read())
    })
}

/// Whether an insert of that session may go beside reads.
fn may_be_concurrent(setting: u8, sessions: &[Session], holes: bool, number: u32) -> bool
    ensures { result ≡ spec.may_be_concurrent (spec.lock_state setting sessions.now) holes number }
{
    !others_hold_read(sessions, number)
        && ((setting == 1 || setting == 2) && !holes || setting == 2 && is_in_use(sessions, number))
}

fn is_write(setting: u8, sessions: &[Session], holes: bool, session: &Session) -> bool
    ensures { result ≡ spec.is_write (spec.lock_state setting sessions.now) holes session.now }
{
    session.is_next_always_write()
        || session.is_next_insert()
            && !may_be_concurrent(setting, sessions, holes, session.number())
}

fn some_write(setting: u8, sessions: &[Session], holes: bool) -> bool
    ensures { result
        ≡ list_any (spec.is_write (spec.lock_state setting sessions.now) holes) sessions.now }
{
    sessions
        .iter()
        .any(|session| is_write(setting, sessions, holes, session))
}

fn some_step(sessions: &[Session]) -> bool
    ensures { result ≡ list_any spec.has_step sessions.now }
{
    sessions.iter().any(|session| session.has_step())
}

pub(crate) fn session_of(sessions: &[Session], number: u32) -> Option<&Session>
    ensures { option_copied result ≡ spec.session_of number sessions.now }
{
    sessions.iter().find(|session| session.number() == number)
}

/// The runs of reads of all sessions, or of those that hold a lock.
fn reads(alloc: Global, sessions: &[Session], holders: bool) -> Result<Vec<Run>, AllocError>
    ensures { IfOk result (λ v. v.items
        ≡ spec.reads (λ s. not holders || session.holds_any s.held) sessions.now) }
{
    let mut runs = Vec::new(alloc);
    for session in sessions {
        if (!holders || session.holds_any()) && session.is_next_read() {
            runs.push(session.reads(alloc)?)?;
        }
    }
    Ok(runs)
}

fn inserter(alloc: Global, sessions: &[Session]) -> Result<Option<Run>, AllocError>
    ensures { IfOk result (λ run. run ≡ spec.inserter sessions.now) }
{
    let Some(step) = first_insert(sessions) else {
        return Ok(None);
    };
    match session_of(sessions, step.session) {
        Some(session) => Ok(Some(session.inserts(alloc)?)),
        None => Ok(None),
    }
}

/// The first case of the rule that holds.
#[tactic(auto, unfolding(crate::specs::Rounds::next_round))]
pub(crate) fn next_round(
    alloc: Global,
    setting: u8,
    sessions: &[Session],
    holes: bool,
) -> Result<Round, AllocError>
    ensures { IfOk result (λ round. round
        ≡ spec.next_round (spec.lock_state setting sessions.now) holes) }
{
    if !some_step(sessions) {
        return Ok(Round::Finished);
    }
    if let Some(step) = at_once(sessions) {
        return Ok(Round::Alone(step));
    }
    if let Some(step) = write_held(sessions) {
        return Ok(Round::Alone(step));
    }
    if let Some(step) = write(setting, sessions, holes) {
        return Ok(Round::Alone(step));
    }
    if let Some(round) = write_waits(alloc, setting, sessions, holes)? {
        return Ok(round);
    }
    if let Some(step) = takes_read(sessions) {
        return Ok(Round::Alone(step));
    }
    together(alloc, sessions)
}
