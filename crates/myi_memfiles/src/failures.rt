//! `Failures`: which calls of an object in memory fail.
ghost use Rattle.std.specs.Prelude.{◌≡◌, ◌≤◌};
ghost use Rattle.std.specs.Bool.{OnTrue, OnFalse};
ghost use Rattle.myi_base.specs.Causes.{Rose};
ghost use Rattle.myi_memfiles.specs.Failures.{fresh, is_next, counted};
ghost use Rattle.myi_memfiles.specs.FailingOf.{failing_of};

/// The calls that fail, counted from 1, how many calls were made, and how many of them failed.
#[derive(Drop)]
pub(crate) struct Failures {
    pub(crate) calls: u64,
    pub(crate) fail: Vec<u64>,
    pub(crate) faults: u64,
}

impl Failures {
    pub(crate) fn new(fail: Vec<u64>) -> Self
        ensures { failing_of result ≡ fresh fail.items }
    {
        Failures {
            calls: 0,
            fail,
            faults: 0,
        }
    }

    /// Counts a call, and answers whether it is to fail.
    pub(crate) fn next_fails(&mut self) -> bool
        ensures listed { result ≡ is_next (failing_of self.old) }
        ensures counts { failing_of self.new ≡ counted (failing_of self.old) }
        ensures later { self.old.faults ≤ self.new.faults }
        ensures fails { OnTrue result (Rose self.old.faults self.new.faults) }
        ensures goes { OnFalse result (self.new.faults ≡ self.old.faults) }
    {
        self.calls = self.calls.saturating_add(1);
        let fails = self.fail.contains(&self.calls);
        if fails {
            self.faults = self.faults.saturating_add(1);
        }
        fails
    }
}
