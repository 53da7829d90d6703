//! `MemSink`: a sink in memory, which fails at the writes that a list names.
ghost use Rattle.std.specs.Prelude.{◌≡◌, [], IfOk};

use crate::failures::Failures;
use myi_io::{Sink, SinkErr};
use std::alloc::{AllocError, Global};

/// A sink in memory, which fails at the writes that a list names.
pub struct MemSink {
    written: Vec<u8>,
    failures: Failures,
}

impl Drop for MemSink {
    fn drop(self) {
        let MemSink {
            written: _,
            failures: _,
        } = self;
    }
}

impl MemSink {
    ghost use Rattle.myi_memfiles.specs.MemSink.{sink_bytes, sink_failing};
    ghost use Rattle.myi_memfiles.specs.Failures.{fresh};

    /// An empty sink. The writes with these numbers, counted from 1, fail.
    pub fn new(alloc: Global, fail: Vec<u64>) -> Result<MemSink, AllocError>
        ensures written { IfOk result (λ sink. sink_bytes sink ≡ []) }
        ensures failures { IfOk result (λ sink. sink_failing sink ≡ fresh fail.items) }
    {
        Ok(MemSink {
            written: Vec::new(alloc),
            failures: Failures::new(fail),
        })
    }

    /// What was written.
    pub fn written(&self) -> &[u8]
        ensures { result.now ≡ sink_bytes self.now }
    {
        &self.written
    }
}

impl Sink for MemSink {
    ghost use Rattle.std.specs.Prelude.{◌≡◌, Some, OnOk, OnErr};
    ghost use Rattle.myi_base.specs.Causes.{HasCause};
    ghost use Rattle.myi_base.specs.Output.{Appends, AppendsPart};
    ghost use Rattle.myi_io.specs.declared.sink.SinkErr.TheVariants.{Failed};
    ghost use Rattle.myi_memfiles.specs.Failures.{IsCall};
    ghost use Rattle.myi_memfiles.specs.MemSink.{sink_bytes, sink_faults, sink_failing, IfSinkTold};

    ghost written = { λ s. Some s.written.items };

    ghost faults = { λ s. s.failures.faults };

    fn write(&mut self, bytes: &[u8]) -> Result<(), SinkErr>
        ensures ok { OnOk result
            (IfSinkTold self.old (Appends bytes.now (Some (sink_bytes self.new)))) }
        ensures err { OnErr result
            (IfSinkTold self.old (AppendsPart bytes.now (Some (sink_bytes self.new)))) }
        ensures cause { HasCause Failed (sink_faults self.old) (sink_faults self.new) result }
        ensures exact { IsCall Failed (sink_failing self.old) result (sink_failing self.new) }
    {
        if self.failures.next_fails() {
            return Err(SinkErr::Failed);
        }
        match self.written.extend_from_slice(bytes) {
            Ok(()) => Ok(()),
            Err(_) => Err(SinkErr::Memory),
        }
    }
}
