//! Whether the end of a step or of a run follows.
ghost use Rattle.std.specs.Prelude.{◌≡◌, ◌==◌, ◌&&◌, ◌||◌, not, nat_le, length, false};
ghost use Rattle.std.specs.Option.{is_none, option_map_or};
ghost use Rattle.ckr_points.specs.declared.run.RunState.TheVariants.{On as OnInitiator, Released as ReleasedRun};
ghost use Rattle.ckr_points.specs.Follows.{ended_follows, is_in_state, is_running, is_within, lengths_follow, of_run, own_step};
ghost use Rattle.ckr_points.specs.Restart.{place_of, step_in};
ghost use Rattle.ckr_points.specs.Rows.{RunRow};
ghost use Rattle.ckr_meaning.specs.EffectiveJob.{OwnedStep};
ghost use Rattle.ckr_points_deferred.specs.Runs.{row_now, IsRunNow};

use crate::lengths::lengths_follow;
use crate::runs::{is_on, is_released, is_running, is_within, place_of};
use crate::steps::own_step;
use ckr_events::Ending;
use ckr_points::step_in;
use ckr_points_deferred::{RunNow, run_now};
use ckr_points_tables::Tables;

/// Whether the end of a step follows, for a run.
fn step_ends(tables: &Tables, run: &RunNow<'_>, step: u8, lengths: &[u32]) -> bool
    requires { IsRunNow run.now }
    ensures { result ≡ (is_running (row_now run.now) && step_in (place_of (row_now run.now)) == step && lengths_follow tables.now.desk (row_now run.now) lengths.now) }
{
    is_running(run) && step_in(place_of(run)) == step && lengths_follow(tables, run, lengths)
}

/// Whether the end of a step follows: its run is on an initiator and within this step, and the lengths are those of the step's outputs.
pub fn step_ended_follows(tables: &Tables, job: u32, step: u8, lengths: &[u32]) -> bool
    ensures { result ≡ of_run tables.now.desk job (λ row. is_running row && step_in (place_of row) == step && lengths_follow tables.now.desk row lengths.now) }
{
    match run_now(tables, job) {
        Some(run) => step_ends(tables, &run, step, lengths),
        None => false,
    }
}

/// Whether a run that has no step left is on an initiator and within none.
fn is_done(run: &RunNow<'_>) -> bool
    ensures { result ≡ (is_in_state OnInitiator (row_now run.now) && not (is_within (place_of (row_now run.now))) && is_none (own_step (row_now run.now))) }
{
    is_on(run) && !is_within(place_of(run)) && own_step(run).is_none()
}

/// Whether the failure of a run's step follows, with which the run ends or is held: it is within the step or waits to go on, and the
/// lengths are those of the step's outputs.
pub(crate) fn step_fails(tables: &Tables, run: &RunNow<'_>, lengths: &[u32]) -> bool
    requires { IsRunNow run.now }
    ensures { result ≡ ((is_running (row_now run.now) || is_in_state ReleasedRun (row_now run.now)) && lengths_follow tables.now.desk (row_now run.now) lengths.now) }
{
    (is_running(run) || is_released(run)) && lengths_follow(tables, run, lengths)
}

/// Whether the step that a run is before or in has a DD of this number, counted from 1.
fn has_dd(run: &RunNow<'_>, dd: u8) -> bool
    ensures { result ≡ option_map_or (λ (owned : OwnedStep). nat_le 1 dd && nat_le dd (length owned.step.dds)) (own_step (row_now run.now)) false }
{
    match own_step(run) {
        Some(own) => dd >= 1 && usize::from(dd) <= own.step.dds.as_slice().len(),
        None => false,
    }
}

/// Whether an end of a run follows.
fn run_ends(tables: &Tables, run: &RunNow<'_>, ending: &Ending) -> bool
    requires { IsRunNow run.now }
    ensures { result ≡ ended_follows tables.now.desk (row_now run.now) ending.now }
{
    match ending {
        Ending::Completed => is_done(run),
        Ending::Coded { lengths, .. } => step_fails(tables, run, lengths.as_slice()),
        Ending::Allocation { dd, .. } => is_on(run) && has_dd(run, *dd),
    }
}

/// Whether an end of a run follows. It is completed where it is on an initiator, before a step that the job doesn't have. It ends
/// with a code where it is within a step or waits to go on, with the lengths of its step's outputs. It ends for want of a data set
/// where it is on an initiator, at a DD of its step.
pub fn ended_follows(tables: &Tables, job: u32, ending: &Ending) -> bool
    ensures { result ≡ of_run tables.now.desk job (λ row. ended_follows tables.now.desk row ending.now) }
{
    match run_now(tables, job) {
        Some(run) => run_ends(tables, &run, ending),
        None => false,
    }
}
