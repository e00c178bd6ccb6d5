//! The state of a run of the tables, and where it is.
ghost use Rattle.std.specs.Prelude.{◌≡◌, ◌==◌};
ghost use Rattle.ckr_points.specs.Follows.{is_in_state, is_running, is_within, state_number};
ghost use Rattle.ckr_points.specs.declared.run.RunState.TheVariants.{Held as HeldRun, On as OnInitiator, Queued as QueuedRun, Released as ReleasedRun};
ghost use Rattle.ckr_points.specs.Restart.{place_of};
ghost use Rattle.ckr_points_deferred.specs.Runs.{row_now};

use ckr_meaning::Place;
use ckr_points::RunState;
use ckr_points_deferred::RunNow;
use ckr_points_tables::place_now;

/// Whether a run in this state waits for an initiator.
fn is_queued_state(state: RunState) -> bool
    ensures { result ≡ (state_number state == state_number QueuedRun) }
{
    matches!(state, RunState::Queued)
}

/// Whether a run in this state is on an initiator.
fn is_on_state(state: RunState) -> bool
    ensures { result ≡ (state_number state == state_number OnInitiator) }
{
    matches!(state, RunState::On)
}

/// Whether a run in this state is held.
fn is_held_state(state: RunState) -> bool
    ensures { result ≡ (state_number state == state_number HeldRun) }
{
    matches!(state, RunState::Held)
}

/// Whether a run in this state was held and waits to go on.
fn is_released_state(state: RunState) -> bool
    ensures { result ≡ (state_number state == state_number ReleasedRun) }
{
    matches!(state, RunState::Released)
}

/// Whether a run waits for an initiator.
pub(crate) fn is_queued(run: &RunNow<'_>) -> bool
    ensures { result ≡ is_in_state QueuedRun (row_now run.now) }
{
    is_queued_state(run.line.state)
}

/// Whether a run is on an initiator.
pub(crate) fn is_on(run: &RunNow<'_>) -> bool
    ensures { result ≡ is_in_state OnInitiator (row_now run.now) }
{
    is_on_state(run.line.state)
}

/// Whether a run is held.
pub(crate) fn is_held(run: &RunNow<'_>) -> bool
    ensures { result ≡ is_in_state HeldRun (row_now run.now) }
{
    is_held_state(run.line.state)
}

/// Whether a run was held and waits to go on.
pub(crate) fn is_released(run: &RunNow<'_>) -> bool
    ensures { result ≡ is_in_state ReleasedRun (row_now run.now) }
{
    is_released_state(run.line.state)
}

/// Where a run is.
pub(crate) fn place_of(run: &RunNow<'_>) -> Place
    ensures { result ≡ place_of (row_now run.now) }
{
    place_now(run.table)
}

/// Whether a place is within a step.
pub(crate) fn is_within(place: Place) -> bool
    ensures { result ≡ is_within place }
{
    matches!(place, Place::Within(..))
}

/// Whether a run is on an initiator and within a step.
pub(crate) fn is_running(run: &RunNow<'_>) -> bool
    ensures { result ≡ is_running (row_now run.now) }
{
    is_on(run) && is_within(place_of(run))
}
