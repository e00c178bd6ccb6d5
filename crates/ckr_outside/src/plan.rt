//! Which calls of a fake in memory fail, and how often calls have failed.
ghost use Rattle.std.specs.Prelude.{◌≡◌, ◌≤◌, ◌↔◌, IsTrue, Contains};
ghost use Rattle.ckr_outside.specs.Faults.{Rose, one_more};
ghost use Rattle.ckr_outside.specs.Plan.{listed_calls, planned, next_is_listed, next_is_due};

use crate::failure::{Failed, count_on};

/// The numbers of the calls that are to fail, in either width.
#[derive(Drop)]
pub(crate) enum ListedCalls {
    Narrow(Vec<u32>),
    Wide(Vec<u64>),
}

impl ListedCalls {
    fn contains(&self, call: u64) -> bool
        ensures { IsTrue result ↔ Contains (listed_calls self.now) call }
    {
        match self {
            ListedCalls::Narrow(calls) => calls.iter().any(|listed| u64::from(*listed) == call),
            ListedCalls::Wide(calls) => calls.contains(&call),
        }
    }
}

/// A plan of failures, with the counts that go with it.
#[derive(Drop)]
pub(crate) struct FailurePlan {
    pub(crate) failing: ListedCalls,
    /// The number of the next call, counted from 0.
    pub(crate) next: u64,
    /// How often a call has failed.
    pub(crate) faults: u64,
    /// How many of the faults were want of memory.
    pub(crate) lacks: u64,
}

impl FailurePlan {
    /// These calls are to fail, and none was made.
    pub(crate) fn new(failing: ListedCalls) -> FailurePlan
        ensures { result ≡ planned failing }
    {
        FailurePlan {
            failing,
            next: 0,
            faults: 0,
            lacks: 0,
        }
    }

    /// Counts a call, and tells whether it is listed.
    pub(crate) fn call_is_listed(&mut self) -> bool
        ensures listed { IsTrue result ↔ next_is_listed self.old }
        ensures counted { self.new ≡ record self.old { next = one_more self.old.next } }
    {
        let number = self.next;
        count_on(&mut self.next);
        self.failing.contains(number)
    }

    /// Counts a call, and tells whether it is listed or comes from the stop on.
    pub(crate) fn call_is_due(&mut self, stop_at: Option<u64>) -> bool
        ensures due { IsTrue result ↔ next_is_due self.old stop_at }
        ensures counted { self.new ≡ record self.old { next = one_more self.old.next } }
    {
        let stopped = stop_at.is_some_and(|first| first <= self.next);
        self.call_is_listed() || stopped
    }

    /// A call fails.
    pub(crate) fn fail(&mut self) -> Failed
        ensures counted { self.new ≡ record self.old { faults = one_more self.old.faults } }
        ensures rose { Rose self.old.faults self.new.faults }
        ensures never_falls { self.old.faults ≤ self.new.faults }
    {
        count_on(&mut self.faults);
        Failed
    }

    /// A call fails because it found no memory.
    pub(crate) fn lack(&mut self) -> Failed
        ensures counted { self.new ≡ record self.old { faults = one_more self.old.faults; lacks = one_more self.old.lacks } }
        ensures rose { Rose self.old.faults self.new.faults }
        ensures never_falls { self.old.faults ≤ self.new.faults }
        ensures lacks_rose { Rose self.old.lacks self.new.lacks }
        ensures lacks_never_fall { self.old.lacks ≤ self.new.lacks }
    {
        count_on(&mut self.lacks);
        self.fail()
    }
}
