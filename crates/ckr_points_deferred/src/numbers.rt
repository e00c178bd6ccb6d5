//! The number of a step by its name.
ghost use Rattle.std.specs.Prelude.{◌≡◌, pred, suc};
ghost use Rattle.ckr_points.specs.RuleCases.{number_named};
ghost use Rattle.ckr_points_deferred.specs.Numbers.{has_step_name};
ghost use Rattle.ckr_points_deferred.specs.Runs.{row_now, IsRunNow};
ghost use Rattle.ckr_points_tables.specs.RunJobs.{own_of};

use crate::RunNow;
use ckr_base::Name8;
use ckr_points_tables::{OwnStep, step_at};

/// The number of the step at which a run began: that at which it continued another one, or 1.
fn first_number(run: &RunNow<'_>) -> u8
    ensures { result ≡ suc (pred (row_now run.now).earlier_step) }
{
    let step = run.table.job.earlier_step();
    if step == 0 { 1 } else { step }
}

/// Whether a step has this name.
fn has_step_name(own: &OwnStep<'_>, name: &Name8) -> bool
    ensures { result ≡ has_step_name name.now (own_of own.now) }
{
    own.step.name.cmp(name).is_eq()
}

/// The number of the step of this name among those that a run executed itself, or 0 where there is none: from the step on at which it
/// continued another run, if it did.
pub fn number_named(run: &RunNow<'_>, name: &Name8) -> u8
    requires { IsRunNow run.now }
    ensures { result ≡ number_named (row_now run.now) name.now }
{
    let mut number = first_number(run);
    while let Some(own) = step_at(&run.table.job, run.line.number, number) {
        if has_step_name(&own, name) {
            return number;
        }
        number += 1;
    }
    0
}
