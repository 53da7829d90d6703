//! Rounds of several sessions under table locks.
//!
//! `is_script` decides whether steps may be those of a script, condition by condition. `rounds` plays their
//! rounds.
ghost use Rattle.std.specs.Prelude.{◌≡◌, true, false, []};
ghost use Rattle.std.specs.List.{AllByRecursion};
ghost use Rattle.myi_locks.specs.Script.{IsScript, LinesRise, LinesAreOwn, TakesFollow, EndIsLast, own};

use case_lines::{Fault, Words, four_bytes, one_byte, sides, yes_or_no};
use myi_locks::{LockKind, Locks, Round, Run, Step, StepKind};
use std::alloc::AllocError;

/// The greatest number of a session.
const MOST_SESSIONS: u32 = 9;

fn kind(word: &str) -> Result<StepKind, Fault> {
    match word {
        "release" => Ok(StepKind::Release),
        "read" => Ok(StepKind::Take(LockKind::Read)),
        "local" => Ok(StepKind::Take(LockKind::ReadLocal)),
        "write" => Ok(StepKind::Take(LockKind::Write)),
        "rows" => Ok(StepKind::Rows),
        "insert" => Ok(StepKind::Insert),
        "change" => Ok(StepKind::Change),
        "unlock" => Ok(StepKind::Unlock),
        "stats" => Ok(StepKind::Stats),
        "end" => Ok(StepKind::End),
        _ => Err(Fault::Unread),
    }
}

/// The word for a lock.
pub(crate) fn lock_word(kind: LockKind) -> &'static str {
    match kind {
        LockKind::Read => "read",
        LockKind::ReadLocal => "local",
        LockKind::Write => "write",
    }
}

fn kind_word(kind: StepKind) -> &'static str {
    match kind {
        StepKind::Release => "release",
        StepKind::Take(lock) => lock_word(lock),
        StepKind::Rows => "rows",
        StepKind::Insert => "insert",
        StepKind::Change => "change",
        StepKind::Unlock => "unlock",
        StepKind::Stats => "stats",
        StepKind::End => "end",
    }
}

// A word `SESSION:LINE:KIND`.
fn step(word: &str) -> Result<Step, Fault> {
    let (session, behind) = sides(word, ':')?;
    let (line, word) = sides(behind, ':')?;
    let session = four_bytes(session)?;
    if session > MOST_SESSIONS {
        return Err(Fault::Unread);
    }
    Ok(Step {
        session,
        line: four_bytes(line)?,
        kind: kind(word)?,
    })
}

fn steps(words: &Words, args: &[&str]) -> Result<Vec<Step>, Fault> {
    let mut steps = Vec::new(words.alloc());
    for arg in args {
        steps.push(step(*arg)?)?;
    }
    Ok(steps)
}

fn lines_rise(low: u32, steps: &[Step]) -> bool
    ensures { result ≡ true → LinesRise low steps.now }
{
    match steps {
        [] => true,
        [first, others @ ..] => low <= first.line && lines_rise(first.line, others),
    }
}

// Whether a line, where these steps have it, is one of that session.
fn is_line_of(session: u32, line: u32, steps: &[Step]) -> bool
    ensures { result ≡ true → AllByRecursion (λ y. y.line ≡ line → y.session ≡ session) steps.now }
{
    match steps {
        [] => true,
        [first, others @ ..] => {
            (first.line != line || first.session == session) && is_line_of(session, line, others)
        }
    }
}

fn lines_are_own(steps: &[Step]) -> bool
    ensures { result ≡ true → LinesAreOwn steps.now }
{
    match steps {
        [] => true,
        [first, others @ ..] => {
            is_line_of(first.session, first.line, others) && lines_are_own(others)
        }
    }
}

fn takes_follow(session: u32, released: bool, steps: &[Step]) -> bool
    ensures { result ≡ true → TakesFollow released (own session steps.now) }
{
    match steps {
        [] => true,
        [first, others @ ..] if first.session != session => takes_follow(session, released, others),
        [first, others @ ..] => {
            (released || !matches!(first.kind, StepKind::Take(_)))
                && takes_follow(session, first.kind == StepKind::Release, others)
        }
    }
}

fn has_none(session: u32, steps: &[Step]) -> bool
    ensures { result ≡ true → own session steps.now ≡ [] }
{
    match steps {
        [] => true,
        [first, others @ ..] => first.session != session && has_none(session, others),
    }
}

fn end_is_last(session: u32, steps: &[Step]) -> bool
    ensures { result ≡ true → EndIsLast (own session steps.now) }
{
    match steps {
        [] => true,
        [first, others @ ..] if first.session != session => end_is_last(session, others),
        [first, others @ ..] => {
            (first.kind != StepKind::End || has_none(session, others))
                && end_is_last(session, others)
        }
    }
}

// Whether the sessions of some of the steps have steps of a script.
fn are_sessions(all: &[Step], some: &[Step]) -> bool
    ensures takes { result ≡ true
        → AllByRecursion (λ x. TakesFollow false (own x.session all.now)) some.now }
    ensures ends { result ≡ true
        → AllByRecursion (λ x. EndIsLast (own x.session all.now)) some.now }
{
    match some {
        [] => true,
        [first, others @ ..] => {
            takes_follow(first.session, false, all)
                && end_is_last(first.session, all)
                && are_sessions(all, others)
        }
    }
}

fn is_script(steps: &[Step]) -> bool
    ensures { result ≡ true → IsScript steps.now }
{
    lines_rise(1, steps) && lines_are_own(steps) && are_sessions(steps, steps)
}

fn push_step(out: &mut String, step: &Step) -> Result<(), AllocError> {
    let kind = kind_word(step.kind);
    write!(out, "{}:{}:{kind}", step.session, step.line)
}

// The steps of a run with `+` between them.
fn push_run(out: &mut String, run: &Run) -> Result<(), AllocError> {
    let mut is_first = true;
    for step in run.steps.as_slice() {
        if !is_first {
            out.push('+')?;
        }
        push_step(out, step)?;
        is_first = false;
    }
    Ok(())
}

fn push_together(
    out: &mut String,
    inserter: &Option<Run>,
    readers: &[Run],
) -> Result<(), AllocError> {
    out.push_str("together ")?;
    match inserter {
        None => out.push('-')?,
        Some(run) => push_run(out, run)?,
    }
    for run in readers {
        out.push(' ')?;
        push_run(out, run)?;
    }
    Ok(())
}

fn push_round(out: &mut String, round: &Round) -> Result<(), AllocError> {
    match round {
        Round::Finished => out.push_str("finished"),
        Round::Alone(step) => {
            out.push_str("alone ")?;
            push_step(out, step)
        }
        Round::Together { inserter, readers } => {
            push_together(out, inserter, readers.runs.as_slice())
        }
    }
}

// The locks that sessions hold, each as ` SESSION=LOCK`.
fn push_locks(out: &mut String, locks: &Locks) -> Result<(), AllocError> {
    for session in 0..=MOST_SESSIONS {
        if let Some(kind) = locks.held(session) {
            write!(out, " {session}={}", lock_word(kind))?;
        }
    }
    Ok(())
}

// Plays the next round, and writes it and the locks that are held behind it.
fn push_next(out: &mut String, locks: &mut Locks, holes: bool) -> Result<(), Fault> {
    let round = locks.round(holes)?;
    locks.advance(&round);
    push_round(out, &round)?;
    Ok(push_locks(out, locks)?)
}

/// `rounds SETTING HOLES STEP..`: the rounds of a script of these steps, one for each word of HOLES.
fn rounds(words: &Words, args: &[&str]) -> Result<String, Fault> {
    let [setting, holes, others @ ..] = args else {
        return Err(Fault::Unread);
    };
    let setting = one_byte(*setting)?;
    let steps = steps(words, others)?;
    if setting > 2 || !is_script(&steps) {
        return Err(Fault::Unread);
    }
    let mut locks = Locks::new(words.alloc(), steps, setting)?;
    let mut out = String::new(words.alloc());
    for hole in holes.split(',') {
        if !out.is_empty() {
            out.push_str(" / ")?;
        }
        push_next(&mut out, &mut locks, yes_or_no(hole)?)?;
    }
    Ok(out)
}

/// The answer to a call of this module, and None where the name is no such call.
pub fn answer(words: &Words, name: &str, args: &[&str]) -> Option<Result<String, Fault>> {
    match name {
        "rounds" => Some(rounds(words, args)),
        _ => None,
    }
}
