//! The lines of the runs in the tables.
ghost use Rattle.std.specs.Prelude.{◌≡◌, ◌==◌, slice_get};
ghost use Rattle.std.specs.Option.{option_copied, option_map};
ghost use Rattle.ckr_points.specs.Follows.{is_in_state, of_run, state_number};
ghost use Rattle.ckr_points.specs.Rows.{run_of};
ghost use Rattle.ckr_points.specs.declared.run.RunState.TheVariants.{On as OnInitiator};
ghost use Rattle.ckr_points_tables.specs.View.{line_of};

use ckr_points::{Run, RunState};
use ckr_points_tables::Tables;

/// The line at a place.
fn line_in(lines: &[Run], place: usize) -> Option<&Run>
    ensures { option_copied result ≡ slice_get lines.now place }
{
    lines.get(place)
}

/// The line of a run.
fn run_line(tables: &Tables, job: u32) -> Option<&Run>
    ensures { option_copied result ≡ option_map line_of (run_of tables.now.desk job) }
{
    if job == 0 {
        return None;
    }
    line_in(tables.runs(), job as usize - 1)
}

/// Whether a run in this state is on an initiator.
fn is_on_state(state: RunState) -> bool
    ensures { result ≡ (state_number state == state_number OnInitiator) }
{
    matches!(state, RunState::On)
}

/// Whether a run is on an initiator.
pub(crate) fn is_on(tables: &Tables, job: u32) -> bool
    ensures { result ≡ of_run tables.now.desk job (is_in_state OnInitiator) }
{
    match run_line(tables, job) {
        Some(line) => is_on_state(line.state),
        None => false,
    }
}
