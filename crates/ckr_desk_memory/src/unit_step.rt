//! A running step is taken out for a unit of its work, and put back.
ghost use Rattle.std.specs.Prelude.{◌≡◌, ◌==◌, ◌∷◌, ◌+◌, ◌-◌, ◌<◌, IsSome, IfSome, find, map, position, vec_len, vec_capacity};
ghost use Rattle.std.specs.List.{AllByRecursion};
ghost use Rattle.std.specs.Option.{option_map};
ghost use Rattle.ckr_desk_memory.specs.EventChanges.{is_of_run, without_first};
ghost use Rattle.ckr_desk_memory.specs.Invariant.{AreJobs, IsRunnable};
ghost use Rattle.ckr_desk_memory.specs.OwnSets.{IsRunningOf};
ghost use Rattle.ckr_desk_memory.specs.OwnSteps.{HoldTheirOwn, IsOfOther};
ghost use Rattle.ckr_desk_memory.specs.Parts.{step_seen};
ghost use Rattle.ckr_desk_plans.specs.declared.running_step.RunningStep.{RunningStep as StepOnIt};
ghost use Rattle.ckr_volumes.specs.declared.layout.Layout.{Layout as LayoutOfDisk};

use crate::start::put_first;
use crate::{Jobs, RunningStep};

/// The place of the first running step of a run.
fn place_of(running: &[RunningStep], run: u32) -> Option<usize>
    ensures { result ≡ position (λ (on : StepOnIt). on.run == run) running.now }
{
    running.iter().position(|on| on.run == run)
}

/// Takes the first running step of a run out.
pub(crate) fn take_first(running: &mut Vec<RunningStep>, run: u32) -> Option<RunningStep>
    ensures step { option_map step_seen result ≡ find (is_of_run run) (map step_seen running.old.items) }
    ensures others { map step_seen running.new.items ≡ without_first run (map step_seen running.old.items) }
    ensures room { IsSome result → 0 < vec_capacity running.new - vec_len running.new }
    ensures place { IsSome result → vec_capacity running.new - vec_len running.new ≡ vec_capacity running.old - vec_len running.old + 1 }
{
    match place_of(running.as_slice(), run) {
        Some(place) => Some(running.remove(place)),
        None => None,
    }
}

impl Jobs {
    /// Takes the first running step of a run out, for a unit of its work; there is room to put it back. None exactly where no step
    /// of the run is running, and then nothing changes.
    pub fn take_step(&mut self, run: u32) -> Option<RunningStep>
        ensures step { option_map step_seen result ≡ find (is_of_run run) self.old.running }
        ensures running { self.new.running ≡ without_first run self.old.running }
        ensures tables { self.new.tables ≡ self.old.tables }
        ensures failed { self.new.failed ≡ self.old.failed }
        ensures points { self.new.points ≡ self.old.points }
        ensures queue { self.new.queue_room ≡ self.old.queue_room }
        ensures room { IsSome result → 0 < self.new.running_room }
        ensures place { IsSome result → self.new.running_room ≡ self.old.running_room + 1 }

        // What holds of the jobs holds of the step and of the others.
        ensures jobs { (layout : LayoutOfDisk) → AreJobs layout self.old → AreJobs layout self.new }
        ensures runnable { (layout : LayoutOfDisk) → AreJobs layout self.old → IfSome result (λ on. IsRunnable layout (step_seen on)) }

        // So it does on any disk; and no other running step is of the run.
        ensures own { HoldTheirOwn self.old → HoldTheirOwn self.new }
        ensures own_step { HoldTheirOwn self.old → IfSome result (λ on. IsRunningOf self.old.tables.desk (step_seen on)) }
        ensures others { HoldTheirOwn self.old → AllByRecursion (IsOfOther run) self.new.running }
    {
        take_first(&mut self.running, run)
    }

    /// Puts a running step before the others. There is room for it, as where one was taken out.
    pub fn put_step(&mut self, step: RunningStep)
        requires room { 0 < self.old.running_room }
        ensures running { self.new.running ≡ step_seen step ∷ self.old.running }
        ensures place { self.new.running_room + 1 ≡ self.old.running_room }
        ensures tables { self.new.tables ≡ self.old.tables }
        ensures failed { self.new.failed ≡ self.old.failed }
        ensures points { self.new.points ≡ self.old.points }
        ensures queue { self.new.queue_room ≡ self.old.queue_room }
        ensures jobs { (layout : LayoutOfDisk) → AreJobs layout self.old → IsRunnable layout (step_seen step) → AreJobs layout self.new }
        ensures own { HoldTheirOwn self.old → IsRunningOf self.old.tables.desk (step_seen step) → AllByRecursion (IsOfOther step.run) self.old.running → HoldTheirOwn self.new }
    {
        put_first(&mut self.running, step);
    }
}
