//! What the jobs in memory have of a run.
ghost use Rattle.std.specs.Prelude.{◌≡◌, ◌≤◌, ◌==◌, ◌&&◌, not, IfSome, IfNone, IsSome, None, Some, find, pred, slice_get};
ghost use Rattle.std.specs.List.{list_any, AllByRecursion};
ghost use Rattle.std.specs.Option.{option_copied, option_map};
ghost use Rattle.ckr_events.specs.Format.{length_list};
ghost use Rattle.ckr_jcl.specs.declared.deck.Dd.{Dd as DdOfDeck};
ghost use Rattle.ckr_desk_memory.specs.EventChanges.{is_of_run};
ghost use Rattle.ckr_desk_memory.specs.Invariant.{AreJobs, IsAcceptedRow, IsRunnable};
ghost use Rattle.ckr_desk_memory.specs.OwnSets.{IsRunningOf};
ghost use Rattle.ckr_desk_memory.specs.OwnSteps.{HoldTheirOwn};
ghost use Rattle.ckr_desk_memory.specs.Parts.{step_seen};
ghost use Rattle.ckr_desk_memory.specs.Plans.{reached_seen, row_for, HasCounts, IsKnown};
ghost use Rattle.ckr_desk_memory.specs.View.{jobs_of, RunningStepView};
ghost use Rattle.ckr_desk_plans.specs.declared.running_step.RunningStep.{RunningStep as StepOnIt};
ghost use Rattle.ckr_meaning.specs.EffectiveJob.{OwnedStep};
ghost use Rattle.ckr_points.specs.Payload.{writes_in};
ghost use Rattle.ckr_points.specs.Rows.{run_of, step_of_run, RunRow};
ghost use Rattle.ckr_desk_turn.specs.Codes.{initiator_of, reached_by};
ghost use Rattle.ckr_desk_turn.specs.Jobs.{is_failed, waiting_code};
ghost use Rattle.ckr_desk_turn.specs.declared.failed_run.FailedRun.{FailedRun as FailedOne};
ghost use Rattle.ckr_desk_turn.specs.Queue.{AreNumbered};
ghost use Rattle.ckr_volumes.specs.declared.layout.Layout.{Layout as LayoutOfDisk};

use crate::{Jobs, RunningStep};
use ckr_base::{Code, Name8};
use ckr_desk_plans::{CodePlace, Extents, lengths_of, place_of};
use ckr_desk_turn::FailedRun;
use ckr_jcl::Dd;
use ckr_meaning::Place;
use ckr_points::Run;
use ckr_points_tables::{RunTable, step_at};

/// Whether a run is among these that were running when the system failed, and the operator wasn't asked for it since.
fn is_marked_in(failed: &[FailedRun], run: u32) -> bool
    ensures { result ≡ list_any (λ (one : FailedOne). one.run == run && not one.asked) failed.now }
{
    failed.iter().any(|one| one.run == run && !one.asked)
}

/// Whether it is, and the operator was.
fn is_asked_in(failed: &[FailedRun], run: u32) -> bool
    ensures { result ≡ list_any (λ (one : FailedOne). one.run == run && one.asked) failed.now }
{
    failed.iter().any(|one| one.run == run && one.asked)
}

/// The first running step of a run.
pub(crate) fn first_on(items: &[RunningStep], run: u32) -> Option<&RunningStep>
    ensures { option_copied result ≡ find (λ (on : StepOnIt). on.run == run) items.now }
{
    items.iter().find(|on| on.run == run)
}

/// The writes behind which a place stands.
fn writes_in(place: Place) -> u32
    ensures { result ≡ writes_in place }
{
    match place {
        Place::Before(_) | Place::Opened(_) => 0,
        Place::Within(_, writes) => writes,
    }
}

/// The DD of a number, from 1.
fn dd_at(dds: &[Dd], number: u8) -> Option<&Dd>
    ensures { option_copied result ≡ slice_get dds.now (pred number) }
{
    dds.get(number.saturating_sub(1) as usize)
}

/// The line of a run by its number, from 1.
fn line_at(lines: &[Run], number: u32) -> Option<&Run>
    ensures { option_copied result ≡ slice_get lines.now (pred number) }
{
    lines.get(number.saturating_sub(1) as usize)
}

/// The code of a run that was running when the system failed.
pub(crate) const SYSTEM_FAILURE: Code = Code::System(0x2F3);

impl Jobs {
    /// What the tables keep of a run. None exactly where there is no such run.
    pub(crate) fn known(&self, job: u32) -> Option<&RunTable>
        requires { AllByRecursion IsAcceptedRow self.now.tables.desk.runs }
        ensures some { IfSome (option_copied result) (IsKnown self.now.tables.desk job) }
        ensures none { IfNone result (run_of self.now.tables.desk job ≡ None) }
        ensures numbered { AreNumbered 1 self.now.tables.desk.runs }
    {
        let _lines = self.tables.runs();
        self.tables.run(job)
    }

    /// The initiator that a run is on, and 0 where it is on none.
    pub(crate) fn initiator_of(&self, job: u32) -> u8
        ensures { (row : RunRow) → run_of self.now.tables.desk job ≡ Some row → result ≡ initiator_of row }
    {
        match line_at(self.tables.runs(), job) {
            Some(line) => line.initiator.unwrap_or(0),
            None => 0,
        }
    }

    /// Whether a run was running when the system failed, and the operator wasn't asked for it since.
    pub(crate) fn is_marked(&self, run: u32) -> bool
        ensures { result ≡ is_failed (jobs_of self.now) run }
    {
        is_marked_in(self.failed.as_slice(), run)
    }

    /// The code with which a run waits for the operator's word, if it does.
    pub(crate) fn waiting_code(&self, run: u32) -> Option<Code>
        ensures { result ≡ waiting_code (jobs_of self.now) run }
    {
        if is_asked_in(self.failed.as_slice(), run) {
            return Some(SYSTEM_FAILURE);
        }
        match self.running_in(run) {
            Some(on) => on.code,
            None => None,
        }
    }

    /// The running step of a run, if there is one.
    pub(crate) fn running_in(&self, run: u32) -> Option<&RunningStep>
        ensures { option_map step_seen (option_copied result) ≡ find (λ (on : RunningStepView). on.run == run) self.now.running }
    {
        first_on(self.running.as_slice(), run)
    }

    /// The running step of a run, if there is one.
    pub fn running_step(&self, run: u32) -> Option<&RunningStep>
        ensures step { option_map step_seen (option_copied result) ≡ find (is_of_run run) self.now.running }
        ensures runnable { (layout : LayoutOfDisk) → AreJobs layout self.now → IfSome (option_copied result) (λ on. IsRunnable layout (step_seen on)) }
        ensures own { HoldTheirOwn self.now → IfSome (option_copied result) (λ on. IsRunningOf self.now.tables.desk (step_seen on)) }
    {
        self.running_in(run)
    }

    /// The name of a step of a run, by its number from 1. None where there is no such step.
    pub(crate) fn step_name(&self, job: u32, number: u8) -> Option<Name8>
        requires { AllByRecursion IsAcceptedRow self.now.tables.desk.runs }
        ensures name { (row : RunRow) → run_of self.now.tables.desk job ≡ Some row → result ≡ option_map (λ (own : OwnedStep). own.step.name) (step_of_run row number) }
        ensures first { IfSome result (λ _. 1 ≤ number) }
        ensures run { IfSome result (λ _. IsSome (run_of self.now.tables.desk job)) }
    {
        let table = self.known(job)?;
        let own = step_at(&table.job, job, number)?;
        Some(own.step.name.copied())
    }

    /// The name of a DD of a step of a run, by their numbers from 1. None where there is no such DD.
    pub(crate) fn dd_name(&self, job: u32, number: u8, dd: u8) -> Option<Name8>
        requires { AllByRecursion IsAcceptedRow self.now.tables.desk.runs }
        ensures { (row : RunRow) (own : OwnedStep) → run_of self.now.tables.desk job ≡ Some row → step_of_run row number ≡ Some own → result ≡ option_map (λ (one : DdOfDeck). one.name) (slice_get own.step.dds (pred dd)) }
    {
        let table = self.known(job)?;
        let own = step_at(&table.job, job, number)?;
        let found = dd_at(own.step.dds.as_slice(), dd)?;
        Some(found.name.copied())
    }

    /// How far a run has come: as far as its running step, or else as far as the tables say.
    pub(crate) fn reached(&self, run: u32, table: &RunTable) -> CodePlace
        requires known { IsKnown self.now.tables.desk run table.now }
        requires counted { AllByRecursion HasCounts self.now.running }
        ensures reached { reached_seen result ≡ reached_by (jobs_of self.now) (row_for run table.now) }
        ensures fits { length_list.fits result.lengths.items }
    {
        match self.running_in(run) {
            Some(on) => CodePlace {
                writes: on.step.progress().writes,
                lengths: lengths_of(&Extents::Now(&on.sets), run, table),
            },
            None => CodePlace {
                writes: writes_in(place_of(table)),
                lengths: lengths_of(&Extents::Now(self.tables.library()), run, table),
            },
        }
    }
}
