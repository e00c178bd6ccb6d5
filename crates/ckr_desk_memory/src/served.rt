//! What is due of a running step is done, and an entry is written or none.
ghost use Rattle.std.specs.Prelude.{◌≡◌, Some, map, nat_lt};
ghost use Rattle.std.specs.List.{AllByRecursion};
ghost use Rattle.ckr_desk_plans.specs.Model.StepUnit.{AreCounted};
ghost use Rattle.ckr_desk_plans.specs.Model.Units.{entries_of};
ghost use Rattle.ckr_desk_memory.specs.EventChanges.{served_in, with_entry_end, HasEntered, IsEntered};
ghost use Rattle.ckr_desk_memory.specs.Invariant.{AreJobs};
ghost use Rattle.ckr_desk_memory.specs.OwnSteps.{HoldTheirOwn};
ghost use Rattle.ckr_desk_memory.specs.Parts.{step_seen};
ghost use Rattle.ckr_desk_memory.specs.Plans.{HasCounts};
ghost use Rattle.ckr_volumes.specs.declared.layout.Layout.{Layout as LayoutOfDisk};

use crate::start::put_first;
use crate::unit_step::take_first;
use crate::{Jobs, RunningStep};
use ckr_base::DsName;
use ckr_entry::State;
use ckr_library::{DataSet, Library};

/// The checkpoint or the cancel that is due of the first running step of a run is done without an entry, and the step stands before the
/// others. Nothing changes where no step of the run is running.
pub(crate) fn serve(running: &mut Vec<RunningStep>, run: u32)
    requires counted { AllByRecursion HasCounts (map step_seen running.old.items) }
    ensures { map step_seen running.new.items ≡ served_in run (map step_seen running.old.items) }
{
    if let Some(mut on) = take_first(running, run) {
        on.step.served(false);
        put_first(running, on);
    }
}

/// Whether a state counts fewer than a million entries, so that one more is counted.
fn has_few_entries(state: &State) -> bool
    ensures { result ≡ nat_lt (entries_of state.now) 1000000 }
{
    let entries = match state {
        State::Plain(state) => state.entries,
        State::Matched(state) => state.entries,
    };
    entries < 1_000_000
}

/// The space of a data set, in records.
fn space_of(set: &DataSet) -> u32
    ensures { result ≡ set.now.space }
{
    set.space
}

/// A data set gets a length, in records, if it is there and has the space.
fn lengthen(sets: &mut Library, name: &DsName, length: u64)
    ensures { sets.new.sets ≡ with_entry_end (Some name.now) length sets.old.sets }
{
    let Some(set) = sets.get(name) else {
        return;
    };
    let space = space_of(set);
    if length <= u64::from(space) {
        sets.set_length(name, length as u32);
    }
}

/// A running step goes on behind the entry of its checkpoint: its data set for checkpoints has this length.
fn enter_step(on: &mut RunningStep, check: &Option<DsName>, length: u64)
    requires { AreCounted on.old.step }
    ensures { IsEntered check.now length (step_seen on.old) (step_seen on.new) }
{
    let few = has_few_entries(on.step.progress().state);
    on.step.served(few);
    if let Some(name) = check {
        lengthen(&mut on.sets, name, length);
    }
}

/// The entry of the first running step of a run was written: the checkpoint is done, and its data set for checkpoints has this length. The
/// step stands before the others. Nothing changes where no step of the run is running.
pub(crate) fn enter(running: &mut Vec<RunningStep>, run: u32, check: &Option<DsName>, length: u64)
    requires counted { AllByRecursion HasCounts (map step_seen running.old.items) }
    ensures { HasEntered run check.now length (map step_seen running.old.items) (map step_seen running.new.items) }
{
    if let Some(mut on) = take_first(running, run) {
        enter_step(&mut on, check, length);
        put_first(running, on);
    }
}

impl Jobs {
    /// The checkpoint that is due of the running step of a run is done, and no entry was written: it is suppressed. Nothing else changes, and
    /// no memory is taken (IBM GC28-6708).
    pub fn pass(&mut self, run: u32)
        requires counted { AllByRecursion HasCounts self.old.running }
        ensures running { self.new.running ≡ served_in run self.old.running }
        ensures tables { self.new.tables ≡ self.old.tables }
        ensures failed { self.new.failed ≡ self.old.failed }
        ensures points { self.new.points ≡ self.old.points }
        ensures queue { self.new.queue_room ≡ self.old.queue_room }
        ensures jobs { (layout : LayoutOfDisk) → AreJobs layout self.old → AreJobs layout self.new }
        ensures own { HoldTheirOwn self.old → HoldTheirOwn self.new }
    {
        serve(&mut self.running, run);
    }
}
