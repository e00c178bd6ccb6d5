//! The steps of a run.
ghost use Rattle.std.specs.Prelude.{◌≡◌, IfSome};
ghost use Rattle.std.specs.Option.{option_map};
ghost use Rattle.ckr_points.specs.Follows.{own_step};
ghost use Rattle.ckr_points.specs.Rows.{step_of_run};
ghost use Rattle.ckr_points_tables.specs.RunJobs.{own_of, IsFitting, IsFittingStep};
ghost use Rattle.ckr_points_deferred.specs.Runs.{row_now};

use crate::runs::place_of;
use ckr_points::step_in;
use ckr_points_deferred::RunNow;
use ckr_points_tables::{OwnStep, step_at};

/// A step of a run by its number, from 1.
pub(crate) fn step_of<'a>(run: &RunNow<'a>, step: u8) -> Option<OwnStep<'a>>
    ensures step { option_map own_of result ≡ step_of_run (row_now run.now) step }
    ensures fitting { IsFitting (row_now run.now).job → IfSome result (λ own. IsFittingStep (own_of own)) }
{
    step_at(&run.table.job, run.line.number, step)
}

/// The step that a run is before or in.
pub(crate) fn own_step<'a>(run: &RunNow<'a>) -> Option<OwnStep<'a>>
    ensures step { option_map own_of result ≡ own_step (row_now run.now) }
    ensures fitting { IsFitting (row_now run.now).job → IfSome result (λ own. IsFittingStep (own_of own)) }
{
    step_of(run, step_in(place_of(run)))
}
