//! A source in memory that fails at listed calls.
ghost use Rattle.std.specs.Prelude.{◌≡◌, ◌≤◌, ◌<◌, ◌↔◌, [], ◌++◌, Some, IfOk, OnErr, OnOk, IsErr, Contains, length, take, drop, min, vec_len};
ghost use Rattle.std.specs.Io.KnownBytes.{ReadConsumes};
ghost use Rattle.ckr_outside.specs.Faults.{Rose, one_more};

use crate::Source;
use crate::failure::Failed;
use crate::plan::{FailurePlan, ListedCalls};

/// A stream in memory. It fails exactly at the listed calls, which are counted from 0.
#[derive(Drop)]
pub struct MemSource {
    bytes: Vec<u8>,
    at: usize,
    plan: FailurePlan,
    ghost in_bytes: { at ≤ vec_len bytes },
}

impl MemSource {
    ghost use Rattle.ckr_outside.specs.Memory.{bytes_left, source_failing, source_calls, source_faults};

    /// A stream of these bytes, of which the calls with these numbers fail. It takes no memory.
    pub fn new(bytes: Vec<u8>, failing: Vec<u32>) -> Self
        ensures bytes { bytes_left result ≡ bytes.items }
        ensures failing { source_failing result ≡ failing.items }
        ensures calls { source_calls result ≡ 0 }
        ensures faults { source_faults result ≡ 0 }
    {
        MemSource {
            bytes,
            at: 0,
            plan: FailurePlan::new(ListedCalls::Narrow(failing)),
        }
    }
}

/// As many bytes as fit go to the front of the buffer. It tells how many.
pub fn copy_front(bytes: &[u8], buf: &mut [u8]) -> usize
    ensures amount { result ≡ min (length bytes.now) (length buf.new) }
    ensures bytes { bytes.now ≡ take result buf.new ++ drop result bytes.now }
    ensures end { result ≡ 0 → 0 < length buf.new → bytes.now ≡ [] }
{
    let count = bytes.len().min(buf.len());
    let (front, _) = bytes.split_at(count);
    buf[..count].copy_from_slice(front);
    count
}

impl Source for MemSource {
    ghost use Rattle.ckr_outside.specs.Memory.{bytes_left, source_failing, source_calls, source_faults};

    ghost left = { λ s. Some (bytes_left s) };

    ghost faults = { source_faults };

    /// As many bytes as there are and as fit, unless the call is listed.
    fn take(&mut self, buf: &mut [u8]) -> Result<usize, Failed>
        ensures bound { IfOk result (λ taken. taken ≤ length buf.new) }
        ensures bytes { ReadConsumes (Some (bytes_left self.old)) (Some (bytes_left self.new)) result buf.new }
        ensures later { source_faults self.old ≤ source_faults self.new }
        ensures cause { OnErr result (Rose (source_faults self.old) (source_faults self.new)) }

        ensures amount { IfOk result (λ taken. taken ≡ min (length (bytes_left self.old)) (length buf.new)) }
        ensures listed { IsErr result ↔ Contains (source_failing self.old) (source_calls self.old) }
        ensures fault { OnErr result (source_faults self.new ≡ one_more (source_faults self.old)) }
        ensures no_fault { OnOk result (source_faults self.new ≡ source_faults self.old) }
        ensures calls { source_calls self.new ≡ one_more (source_calls self.old) }
        ensures failing { source_failing self.new ≡ source_failing self.old }
    {
        if self.plan.call_is_listed() {
            return Err(self.plan.fail());
        }
        let taken = copy_front(&self.bytes[self.at..], buf);
        self.at += taken;
        Ok(taken)
    }
}
