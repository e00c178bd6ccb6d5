//! Turns that come to a unit of a running step, found without a plan.
ghost use Rattle.std.specs.Prelude.{◌≡◌, ℕ, IfSome, Some, true};
ghost use Rattle.std.specs.List.{AllByRecursion};
ghost use Rattle.ckr_desk_memory.specs.Invariant.{IsAcceptedRow};
ghost use Rattle.ckr_desk_memory.specs.Plans.{HasDue, row_for};
ghost use Rattle.ckr_desk_memory.specs.View.{jobs_of};
ghost use Rattle.ckr_points.specs.Restart.{place_of as place_of_row};
ghost use Rattle.ckr_points.specs.Rows.{run_of, RunRow};
ghost use Rattle.ckr_desk_turn.specs.Plans.{is_within, plan_of, run_plan};
ghost use Rattle.ckr_volumes.specs.declared.layout.Layout.{Layout as LayoutOfDisk};

use crate::Jobs;
use ckr_base::{Code, NextDue};
use ckr_desk_plans::place_of;
use ckr_desk_turn::{Plan, Turn};
use ckr_meaning::Place;
use ckr_points_tables::RunTable;

/// Whether a run is within a step.
fn is_within(table: &RunTable) -> bool
    ensures { (run : ℕ) → result ≡ is_within (place_of_row (row_for run table.now)) }
{
    match place_of(table) {
        Place::Within(_, _) => true,
        Place::Before(_) => false,
        Place::Opened(_) => false,
    }
}

impl Jobs {
    /// The run of an initiator whose running step does its next unit in this turn. A plan has room for an event, and a unit that goes on tells
    /// none: so a turn asks this first. None where the turn comes to something else.
    pub fn unit_due(&self, turn: Turn) -> Option<u32>
        requires { AllByRecursion IsAcceptedRow self.now.tables.desk.runs }
        ensures plan { (layout : LayoutOfDisk) → IfSome result (λ job. plan_of layout (jobs_of self.now) turn ≡ Plan.Work job) }
        ensures due { (layout : LayoutOfDisk) → IfSome result (λ job. HasDue self.now (Plan.Work job)) }
    {
        let job = self.tables.on_initiator(turn.initiator)?;
        if self.works_on(job, turn.fail) {
            Some(job)
        } else {
            None
        }
    }

    /// Whether the running step of a run does its next unit: no code is given, the run didn't fail and waits with none, and it is within a step of
    /// which a unit is due.
    fn works_on(&self, job: u32, fail: Option<Code>) -> bool
        requires { AllByRecursion IsAcceptedRow self.now.tables.desk.runs }
        ensures { result ≡ true → (layout : LayoutOfDisk) (row : RunRow) → run_of self.now.tables.desk job ≡ Some row → run_plan layout (jobs_of self.now) fail row ≡ Plan.Work job }
    {
        let Some(table) = self.known(job) else {
            return false;
        };
        if fail.is_some() || self.is_marked(job) || !is_within(table) {
            return false;
        }
        if self.waiting_code(job).is_some() {
            return false;
        }
        match self.running_in(job) {
            Some(on) => matches!(on.step.due(), NextDue::Unit),
            None => false,
        }
    }
}
