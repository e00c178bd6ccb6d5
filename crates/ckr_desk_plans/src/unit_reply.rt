//! What a turn tells of a unit that was worked out.
ghost use Rattle.std.specs.Prelude.{◌≡◌, ◌≤◌, IfSome, IsSome, Some};
ghost use Rattle.ckr_events.specs.Format.{length_list};
ghost use Rattle.ckr_desk_plans.specs.Extents.{IsShort};
ghost use Rattle.ckr_desk_plans.specs.StepView.{step_seen, lengths_of_row};
ghost use Rattle.ckr_desk_plans.specs.Plans.{behind_unit, reached_seen, row_for, IsToldReply};
ghost use Rattle.ckr_meaning.specs.EffectiveJob.{OwnedStep};
ghost use Rattle.ckr_points.specs.Follows.{own_step};
ghost use Rattle.ckr_points.specs.Restart.{place_of as place_of_row, step_in as step_in_place};
ghost use Rattle.ckr_points.specs.Rows.{step_of_run};
ghost use Rattle.ckr_steps.specs.StepUnit.{behind_ahead, AreCounted};
ghost use Rattle.ckr_steps.specs.Units.{taken_of};
ghost use Rattle.ckr_points_tables.specs.RunJobs.{effective, IsFitting};
ghost use Rattle.ckr_desk_turn.specs.Jobs.{step_name_of};

use crate::RunningStep;
use crate::run_code::{CodePlace, Extents, lengths_of, place_of};
use ckr_desk_turn::Reply;
use ckr_points::step_in;
use ckr_points_tables::{RunTable, step_at};
use ckr_steps::UnitAhead;

/// The reply to a unit of a running step that goes on. None where its run is within no step of its deck.
pub fn worked_reply(on: &RunningStep, ahead: &UnitAhead, table: &RunTable) -> Option<Reply>
    requires { AreCounted (behind_ahead on.now.step ahead.now) }
    ensures reply { let row = row_for on.now.run table.now in (own : OwnedStep) → step_of_run row (step_in_place (place_of_row row)) ≡ Some own → result ≡ Some (Reply.Worked on.now.run (step_name_of row) (taken_of (behind_ahead on.now.step ahead.now).state)) }
    ensures told { IfSome result IsToldReply }
    ensures there { IfSome result (λ _. IsSome (own_step (row_for on.now.run table.now))) }
{
    let own = step_at(&table.job, on.run, step_in(place_of(table)))?;
    Some(Reply::Worked {
        job: on.run,
        step: own.step.name.copied(),
        taken: on.step.progress_behind(ahead).taken,
    })
}

/// How far a running step comes by a unit that was worked out.
pub fn reached_by(on: &RunningStep, ahead: &UnitAhead, table: &RunTable) -> CodePlace
    requires run { on.now.run ≤ 9999999 }
    requires fits { IsFitting (effective on.now.run table.now.job) }
    requires counted { AreCounted (behind_ahead on.now.step ahead.now) }
    requires short { IsShort on.now.sets }
    ensures reached { let moved = behind_unit (step_seen on.now) ahead.now in reached_seen result ≡ record { writes = moved.step.writes; lengths = lengths_of_row moved.sets.sets (row_for on.now.run table.now) } }
    ensures fits { length_list.fits result.lengths.items }
{
    CodePlace {
        writes: on.step.progress_behind(ahead).writes,
        lengths: lengths_of(&Extents::Behind(on, ahead), on.run, table),
    }
}
