//! What a turn tells of a unit that was worked out.
ghost use Rattle.std.specs.Prelude.{◌≡◌, [], ◌∷◌, Some};
ghost use Rattle.std.specs.List.{AllByRecursion};
ghost use Rattle.ckr_base.specs.declared.programs.Heads.{Heads as HeadsOfInputs};
ghost use Rattle.ckr_desk_plans.specs.Extents.{IsShort};
ghost use Rattle.ckr_desk_memory.specs.Invariant.{IsAcceptedRow, IsPlacedRow};
ghost use Rattle.ckr_desk_memory.specs.OwnSets.{IsRunningOf};
ghost use Rattle.ckr_desk_memory.specs.OwnSteps.{PlanCommits, PlanFollows, PlanIsOf, PlanLeaves};
ghost use Rattle.ckr_desk_memory.specs.Parts.{step_seen};
ghost use Rattle.ckr_desk_memory.specs.Plans.{behind_unit, told_by, IsSpelledPlan, IsToldReply, IsUnitPlan, IsWent, IsWorkedCode};
ghost use Rattle.ckr_desk_memory.specs.Start.{AllFit};
ghost use Rattle.ckr_desk_memory.specs.View.{running_of};
ghost use Rattle.ckr_meaning.specs.EffectiveJob.{OwnedStep};
ghost use Rattle.ckr_points.specs.Restart.{place_of as place_of_row, step_in as step_in_place};
ghost use Rattle.ckr_points.specs.Rows.{run_of, step_of_run, RunRow};
ghost use Rattle.ckr_desk_plans.specs.Model.Inputs.{AreThere};
ghost use Rattle.ckr_desk_plans.specs.Model.StepUnit.{behind_ahead, AreCounted, IsUnitFor};
ghost use Rattle.ckr_desk_turn.specs.Queue.{AreNumbered};
ghost use Rattle.ckr_volumes.specs.declared.layout.Layout.{Layout as LayoutOfDisk};

use crate::{Jobs, RunningStep};
use ckr_desk_plans::{Seat, UnitAhead, Worked, code_plan, reached_by, worked_reply};
use ckr_desk_turn::{Plan, Reply, rewritten_event};
use ckr_volumes::Layout;

impl Jobs {
    /// The reply to a unit that was worked out and isn't done yet, behind which the step goes on: what the turn tells of it, and that alone.
    /// Its run is within a step of its deck (this project's profile).
    pub fn worked(&self, on: &RunningStep, ahead: &UnitAhead) -> Reply
        requires rows { AllByRecursion IsAcceptedRow self.now.tables.desk.runs }
        requires counted { AreCounted (behind_ahead on.now.step ahead.now) }
        requires went { IsWent ahead.now.worked }
        ensures plan { (layout : LayoutOfDisk) (row : RunRow) (own : OwnedStep) → run_of self.now.tables.desk on.now.run ≡ Some row → step_of_run row (step_in_place (place_of_row row)) ≡ Some own
            → Plan.Rest result ≡ told_by layout self.now.tables.desk row (running_of self.now.tables.desk (behind_unit (step_seen on.now) ahead.now)) ahead.now.worked }
        ensures told { IsToldReply result }
    {
        match self.known(on.run) {
            Some(table) => worked_reply(on, ahead, table).unwrap_or(Reply::Idle),
            None => Reply::Idle,
        }
    }

    /// What a turn tells of a unit that was worked out and isn't done yet, exactly as it tells it behind the unit: the records taken, with
    /// the rewrite in place if the unit makes one, or what becomes of the run by the code with which the unit ends the step: its end, or what the
    /// operator is asked. The code is at most 4095. Its run is within a step of its deck; else the turn tells nothing (IBM
    /// GC28-6704; the replies are this project's profile).
    pub fn told(&self, layout: &Layout, on: &RunningStep, ahead: &UnitAhead) -> Plan
        requires rows { AllByRecursion IsAcceptedRow self.now.tables.desk.runs }
        requires counted { AreCounted (behind_ahead on.now.step ahead.now) }
        requires short { IsShort on.now.sets }
        requires code { IsWorkedCode ahead.now.worked }
        ensures plan { (row : RunRow) (own : OwnedStep) → run_of self.now.tables.desk on.now.run ≡ Some row → step_of_run row (step_in_place (place_of_row row)) ≡ Some own
            → result ≡ told_by layout.now self.now.tables.desk row (running_of self.now.tables.desk (behind_unit (step_seen on.now) ahead.now)) ahead.now.worked }
        ensures spelled { IsSpelledPlan result }
        ensures unit { IsUnitPlan result }

        // Where the step is that of its run, and the unit is its own for some heads, what is told is of its run and follows on any disk: a run
        // that is restarted is on its initiator, and its step has a point. It commits what the step has behind the unit.
        ensures own { (heads : HeadsOfInputs) → AllByRecursion IsPlacedRow self.now.tables.desk.runs → IsRunningOf self.now.tables.desk (step_seen on.now) → AllFit on.now.sets.sets → AreThere on.now.step.files on.now.sets
            → IsUnitFor on.now.sets on.now.step heads ahead.now → PlanFollows layout.now self.now.tables.desk result }
        ensures commits { IsRunningOf self.now.tables.desk (step_seen on.now) → PlanCommits self.now.tables.desk (behind_unit (step_seen on.now) ahead.now ∷ []) result }
        ensures of_run { IsRunningOf self.now.tables.desk (step_seen on.now) → PlanIsOf on.now.run result }

        // It ends no step.
        ensures left { PlanLeaves self.now.failed result }
    {
        self.answered(layout, on, ahead)
    }

    /// What a turn tells of it, by the tables.
    fn answered(&self, layout: &Layout, on: &RunningStep, ahead: &UnitAhead) -> Plan
        requires rows { AllByRecursion IsAcceptedRow self.now.tables.desk.runs }
        requires counted { AreCounted (behind_ahead on.now.step ahead.now) }
        requires short { IsShort on.now.sets }
        requires code { IsWorkedCode ahead.now.worked }
        ensures numbered { AreNumbered 1 self.now.tables.desk.runs }
        ensures plan { (row : RunRow) (own : OwnedStep) → run_of self.now.tables.desk on.now.run ≡ Some row → step_of_run row (step_in_place (place_of_row row)) ≡ Some own
            → result ≡ told_by layout.now self.now.tables.desk row (running_of self.now.tables.desk (behind_unit (step_seen on.now) ahead.now)) ahead.now.worked }
        ensures spelled { IsSpelledPlan result }
        ensures unit { IsUnitPlan result }
    {
        let Some(table) = self.known(on.run) else {
            return Plan::Rest(Reply::Idle);
        };
        let Some(reply) = worked_reply(on, ahead, table) else {
            return Plan::Rest(Reply::Idle);
        };
        let reached = reached_by(on, ahead, table);
        match &ahead.worked {
            Worked::Went { .. } => Plan::Rest(reply),
            Worked::Rewrite { place, image, .. } => Plan::Tell {
                reply,
                event: rewritten_event(
                    on.run,
                    on.step.progress_behind(ahead).taken,
                    reached.writes,
                    reached.lengths,
                    *place,
                    image.copied(),
                ),
            },
            Worked::Abend(code) => {
                let seat = Seat {
                    initiator: self.initiator_of(on.run),
                    lodged: true,
                };
                code_plan(layout, &self.tables, on.run, seat, table, *code, reached)
            }
        }
    }
}
