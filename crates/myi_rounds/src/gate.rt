//! `Gate`: what is called when a step of a script begins and when it ends.
use myi_locks::Step;

/// What is called before and after each step of a script, with its session and line, on the thread
/// that does the step. A line that takes a lock is two steps; for the end of a session that no line
/// ends there is no call. A gate changes nothing of what a script prints. It may wait, but for no
/// other step, as one thread does them all.
pub trait Gate: Sync {
    /// A session is about to do a step of a line.
    fn pass(&self, session: u32, line: u32);

    /// The step is done, or a fault cut it off.
    fn done(&self, session: u32, line: u32);
}

/// A gate that holds up nobody.
pub struct OpenGate;

impl Gate for OpenGate {
    fn pass(&self, _session: u32, _line: u32) {}

    fn done(&self, _session: u32, _line: u32) {}
}

/// Calls the gate before a step.
pub fn pass_step<G: Gate>(gate: &G, step: &Step) {
    if step.line != 0 {
        gate.pass(step.session, step.line);
    }
}

/// Calls the gate behind a step.
pub fn end_step<G: Gate>(gate: &G, step: &Step) {
    if step.line != 0 {
        gate.done(step.session, step.line);
    }
}
