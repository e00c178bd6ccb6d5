//! What a turn comes to by what is due in a running step.
ghost use Rattle.std.specs.Prelude.{◌≡◌, ◌≤◌, IsSome, None};
ghost use Rattle.ckr_events.specs.declared.event.Event.TheVariants.{StepEnded as StepEndedEvent};
ghost use Rattle.ckr_desk_plans.specs.Plans.{row_for, IsSpelledPlan};
ghost use Rattle.ckr_desk_plans.specs.StepView.{lengths_of_row};
ghost use Rattle.ckr_points.specs.Follows.{own_step};
ghost use Rattle.ckr_points.specs.Restart.{place_of as place_of_row, step_in as step_in_place};
ghost use Rattle.ckr_steps.specs.StepUnit.{AreCounted};
ghost use Rattle.ckr_points_tables.specs.RunJobs.{effective, IsFitting};
ghost use Rattle.ckr_desk_turn.specs.Jobs.{step_name_of};
ghost use Rattle.ckr_desk_turn.specs.Plans.{checkpoint_plan, cancelled_plan, suppressed_plan};

use crate::RunningStep;
use crate::run_code::{Extents, is_suppressed, lengths_of, name_within, place_of};
use ckr_desk_turn::{Chkpt, Plan, Reply, cancelled_event, step_ended_event};
use ckr_points::step_in;
use ckr_points_tables::RunTable;

/// A running step has ended with this return code. Its run is within that step.
pub fn step_ended(on: &RunningStep, run: u32, table: &RunTable, rc: u16) -> Plan
    requires run { run ≤ 9999999 }
    requires there { IsSome (own_step (row_for run table.now)) }
    requires fits { IsFitting (effective run table.now.job) }
    requires counted { AreCounted on.now.step }
    ensures plan { let row = row_for run table.now in result ≡ Plan.Tell (Reply.StepEnded run (step_name_of row) rc) (StepEndedEvent run (step_in_place (place_of_row row)) rc on.now.step.writes (record { items = lengths_of_row on.now.sets.sets row })) }
    ensures spelled { IsSpelledPlan result }
{
    Plan::Tell {
        reply: Reply::StepEnded {
            job: run,
            step: name_within(run, table),
            rc,
        },
        event: step_ended_event(
            run,
            step_in(place_of(table)),
            rc,
            on.step.progress().writes,
            lengths_of(&Extents::Now(&on.sets), run, table),
        ),
    }
}

/// A checkpoint is due, and the RD in effect suppresses it.
fn suppressed(run: u32, table: &RunTable) -> Plan
    requires there { IsSome (own_step (row_for run table.now)) }
    ensures plan { result ≡ suppressed_plan (row_for run table.now) }
    ensures spelled { IsSpelledPlan result }
{
    Plan::Pass {
        job: run,
        reply: Reply::Checkpointed {
            job: run,
            step: name_within(run, table),
            code: Chkpt::Suppressed,
            id: None,
        },
    }
}

/// A checkpoint is due: the RD in effect suppresses it, or it is taken.
pub fn checkpoint_due(run: u32, table: &RunTable) -> Plan
    requires there { IsSome (own_step (row_for run table.now)) }
    ensures plan { let row = row_for run table.now in result ≡ checkpoint_plan row (step_in_place (place_of_row row)) }
    ensures spelled { IsSpelledPlan result }
{
    if is_suppressed(table) {
        suppressed(run, table)
    } else {
        Plan::Take { job: run }
    }
}

/// A cancel is due.
pub fn cancelled(run: u32, table: &RunTable) -> Plan
    requires there { IsSome (own_step (row_for run table.now)) }
    ensures plan { result ≡ cancelled_plan (row_for run table.now) }
    ensures spelled { IsSpelledPlan result }
{
    Plan::Tell {
        reply: Reply::Cancelled {
            job: run,
            step: name_within(run, table),
        },
        event: cancelled_event(run),
    }
}
