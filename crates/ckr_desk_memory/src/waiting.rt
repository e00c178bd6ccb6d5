//! A run waits with its code for the operator's word.
ghost use Rattle.std.specs.Prelude.{◌≡◌, map};
ghost use Rattle.ckr_desk_memory.specs.EventChanges.{coded_on, with_code};
ghost use Rattle.ckr_desk_memory.specs.Invariant.{AreJobs};
ghost use Rattle.ckr_desk_memory.specs.OwnSteps.{AreLeft, HoldTheirOwn};
ghost use Rattle.ckr_desk_memory.specs.Parts.{step_seen};
ghost use Rattle.ckr_desk_turn.specs.Desk.{asked_run, with_asked};
ghost use Rattle.ckr_desk_turn.specs.Spelling.{IsCode};
ghost use Rattle.ckr_volumes.specs.declared.layout.Layout.{Layout as LayoutOfDisk};

use crate::{Jobs, RunningStep};
use ckr_base::Code;
use ckr_desk_turn::FailedRun;

/// A step stops with a code where it is of this run.
fn stop(on: &mut RunningStep, run: u32, code: Code)
    ensures { step_seen on.new ≡ coded_on run code (step_seen on.old) }
{
    if on.run == run {
        on.code = Some(code);
    }
}

/// The running step of a run stops with a code.
fn stop_with(running: &mut [RunningStep], run: u32, code: Code)
    ensures { map step_seen running.new ≡ with_code run code (map step_seen running.old) }
{
    for on in running.iter_mut() {
        stop(on, run, code);
    }
}

/// The operator was asked for this run, where it is marked.
fn mark(one: &mut FailedRun, run: u32)
    ensures { one.new ≡ asked_run run one.old }
{
    if one.run == run {
        one.asked = true;
    }
}

/// The operator was asked for a run that was running when the system failed.
fn mark_asked(failed: &mut [FailedRun], run: u32)
    ensures { failed.new ≡ with_asked run failed.old }
{
    for one in failed.iter_mut() {
        mark(one, run);
    }
}

impl Jobs {
    /// The operator didn't answer: a run waits on its initiator with its code, which is at most 4095. It takes no memory (this project's
    /// profile).
    pub fn wait(&mut self, job: u32, code: Code)
        requires { IsCode code }
        ensures tables { self.new.tables ≡ self.old.tables }
        ensures running { self.new.running ≡ with_code job code self.old.running }
        ensures failed { self.new.failed ≡ with_asked job self.old.failed }
        ensures points { self.new.points ≡ self.old.points }
        ensures jobs { (layout : LayoutOfDisk) → AreJobs layout self.old → AreJobs layout self.new }
        ensures own { HoldTheirOwn self.old → HoldTheirOwn self.new }
        ensures left { AreLeft self.old → AreLeft self.new }
    {
        stop_with(self.running.as_mut_slice(), job, code);
        mark_asked(self.failed.as_mut_slice(), job);
    }
}
