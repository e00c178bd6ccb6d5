//! Whether the hold of a run follows.
ghost use Rattle.std.specs.Prelude.{◌≡◌, ◌&&◌, ◌||◌, false};
ghost use Rattle.ckr_points.specs.declared.run.RunState.TheVariants.{Released as ReleasedRun};
ghost use Rattle.ckr_points.specs.Follows.{is_in_state, is_running, lengths_follow, of_run};
ghost use Rattle.ckr_points_deferred.specs.Runs.{row_now};

use crate::step_end::step_fails;
use ckr_points_deferred::run_now;
use ckr_points_tables::Tables;

/// Whether the hold of a run follows: it is within a step or waits to go on, and the lengths are those of its step's outputs.
pub fn held_follows(tables: &Tables, job: u32, lengths: &[u32]) -> bool
    ensures { result ≡ of_run tables.now.desk job (λ row. (is_running row || is_in_state ReleasedRun row) && lengths_follow tables.now.desk row lengths.now) }
{
    match run_now(tables, job) {
        Some(run) => step_fails(tables, &run, lengths),
        None => false,
    }
}
