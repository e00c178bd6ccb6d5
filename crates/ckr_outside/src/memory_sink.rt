//! A sink in memory that fails at listed calls, and where it finds no memory.
ghost use Rattle.std.specs.Prelude.{◌≡◌, ◌≤◌, ◌<◌, ◌⊎◌, [], Some, IfOk, OnErr, OnOk, IsErr, Contains, length};
ghost use Rattle.std.specs.Io.KnownBytes.{WriteAppends};
ghost use Rattle.ckr_outside.specs.Faults.{Rose, one_more};

use crate::Sink;
use crate::failure::Failed;
use crate::plan::{FailurePlan, ListedCalls};
use std::alloc::Global;

/// A text in memory. It fails exactly at the listed calls, which are counted from 0, and where it finds no memory.
#[derive(Drop)]
pub struct MemSink {
    text: Vec<u8>,
    plan: FailurePlan,
}

impl MemSink {
    ghost use Rattle.ckr_outside.specs.Memory.{sink_text, sink_failing, sink_calls, sink_faults, sink_lacks};

    /// Nothing is written yet, and the calls with these numbers fail. It takes no memory.
    pub fn new(alloc: Global, failing: Vec<u32>) -> Self
        ensures text { sink_text result ≡ [] }
        ensures failing { sink_failing result ≡ failing.items }
        ensures calls { sink_calls result ≡ 0 }
        ensures faults { sink_faults result ≡ 0 }
        ensures lacks { sink_lacks result ≡ 0 }
    {
        MemSink {
            text: Vec::new(alloc),
            plan: FailurePlan::new(ListedCalls::Narrow(failing)),
        }
    }

    /// The bytes written.
    pub fn bytes(&self) -> &[u8]
        ensures { result.now ≡ sink_text self.now }
    {
        &self.text
    }

    /// How many of its faults were want of memory.
    pub fn lacks(&self) -> u64
        ensures { result ≡ sink_lacks self.now }
    {
        self.plan.lacks
    }
}

impl Sink for MemSink {
    ghost use Rattle.ckr_outside.specs.Memory.{sink_text, sink_failing, sink_calls, sink_faults, sink_lacks};

    ghost written = { λ s. Some (sink_text s) };

    ghost faults = { sink_faults };

    /// The whole piece, unless the call is listed or no memory is found for it.
    fn put(&mut self, bytes: &[u8]) -> Result<usize, Failed>
        ensures bound { IfOk result (λ taken. taken ≤ length bytes.now) }
        ensures progress { IfOk result (λ taken. 0 < length bytes.now → 0 < taken) }
        ensures bytes { WriteAppends (Some (sink_text self.old)) (Some (sink_text self.new)) result bytes.now }
        ensures later { sink_faults self.old ≤ sink_faults self.new }
        ensures cause { OnErr result (Rose (sink_faults self.old) (sink_faults self.new)) }

        ensures amount { IfOk result (λ taken. taken ≡ length bytes.now) }
        ensures fails { IsErr result → Contains (sink_failing self.old) (sink_calls self.old) ⊎ Rose (sink_lacks self.old) (sink_lacks self.new) }
        ensures listed { Contains (sink_failing self.old) (sink_calls self.old) → IsErr result }
        ensures lacked { sink_lacks self.old < sink_lacks self.new → IsErr result }
        ensures fault { OnErr result (sink_faults self.new ≡ one_more (sink_faults self.old)) }
        ensures no_fault { OnOk result (sink_faults self.new ≡ sink_faults self.old) }
        ensures lacks { sink_lacks self.old ≤ sink_lacks self.new }
        ensures calls { sink_calls self.new ≡ one_more (sink_calls self.old) }
        ensures failing { sink_failing self.new ≡ sink_failing self.old }
    {
        if self.plan.call_is_listed() {
            return Err(self.plan.fail());
        }
        if self.text.extend_from_slice(bytes).is_err() {
            return Err(self.plan.lack());
        }
        Ok(bytes.len())
    }
}
