//! Whether an automatic restart of a run follows.
ghost use Rattle.std.specs.Prelude.{◌≡◌, ◌&&◌, ◌||◌, false, nat_eq, Some, true};
ghost use Rattle.std.specs.Option.{option_eq};
ghost use Rattle.ckr_points.specs.declared.run.RunState.TheVariants.{Released as ReleasedRun};
ghost use Rattle.ckr_points.specs.Follows.{is_free, is_in_state, is_running, may_restart_again, of_run};
ghost use Rattle.ckr_points_deferred.specs.Runs.{row_now};

use crate::runs::{is_released, is_running, place_of};
use crate::select::is_free;
use ckr_points::step_in;
use ckr_points_deferred::{RunNow, run_now};
use ckr_points_tables::{Tables, point_at};
use ckr_volumes::Layout;

/// Whether a run is within a step, on this initiator.
fn is_running_on(initiator: u8, run: &RunNow<'_>) -> bool
    ensures { result ≡ (is_running (row_now run.now) && option_eq nat_eq (row_now run.now).initiator (Some initiator)) }
{
    is_running(run) && run.line.initiator == Some(initiator)
}

/// Whether a run was restarted fewer than three times at the checkpoint in effect.
fn may_restart_at_checkpoint(run: &RunNow<'_>) -> bool
    ensures { result ≡ may_restart_again true (row_now run.now) }
{
    match &run.table.in_effect {
        Some(effect) => effect.restarts < 3,
        None => false,
    }
}

/// Whether a run was restarted fewer than three times at the start of the step that it is in.
fn may_restart_at_start(run: &RunNow<'_>) -> bool
    ensures { result ≡ may_restart_again false (row_now run.now) }
{
    match point_at(run.table.points.as_slice(), step_in(place_of(run))) {
        Some(point) => point.restarts < 3,
        None => false,
    }
}

/// Whether a run was restarted fewer than three times at the checkpoint in effect, or at the start of its step.
fn may_restart_again(checkpoint: bool, run: &RunNow<'_>) -> bool
    ensures { result ≡ may_restart_again checkpoint (row_now run.now) }
{
    if checkpoint {
        may_restart_at_checkpoint(run)
    } else {
        may_restart_at_start(run)
    }
}

/// Whether an automatic restart of a run follows, by its row.
fn run_restarts(
    layout: &Layout,
    tables: &Tables,
    initiator: u8,
    checkpoint: bool,
    run: &RunNow<'_>,
) -> bool
    ensures { result ≡ ((is_running (row_now run.now) && option_eq nat_eq (row_now run.now).initiator (Some initiator) || is_in_state ReleasedRun (row_now run.now) && is_free layout.now tables.now.desk initiator) && may_restart_again checkpoint (row_now run.now)) }
{
    (is_running_on(initiator, run) || is_released(run) && is_free(layout, tables, initiator))
        && may_restart_again(checkpoint, run)
}

/// Whether an automatic restart follows: its run is within a step on this initiator, or it waits to go on and the initiator is free,
/// and it was restarted fewer than three times at the point, which is the checkpoint in effect or the start of its step.
pub fn restarted_follows(
    layout: &Layout,
    tables: &Tables,
    job: u32,
    initiator: u8,
    checkpoint: bool,
) -> bool
    ensures { result ≡ of_run tables.now.desk job (λ row. (is_running row && option_eq nat_eq row.initiator (Some initiator) || is_in_state ReleasedRun row && is_free layout.now tables.now.desk initiator) && may_restart_again checkpoint row) }
{
    match run_now(tables, job) {
        Some(run) => run_restarts(layout, tables, initiator, checkpoint, &run),
        None => false,
    }
}
