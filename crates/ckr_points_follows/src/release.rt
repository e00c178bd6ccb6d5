//! Whether the end of a run's hold follows.
ghost use Rattle.std.specs.Prelude.{◌≡◌, false};
ghost use Rattle.ckr_points.specs.declared.run.RunState.TheVariants.{Held as HeldRun};
ghost use Rattle.ckr_points.specs.Follows.{is_in_state, of_run};
ghost use Rattle.ckr_points_deferred.specs.Runs.{row_now};

use crate::runs::is_held;
use ckr_points_deferred::run_now;
use ckr_points_tables::Tables;

/// Whether the end of a run's hold follows: it is held.
pub fn released_follows(tables: &Tables, job: u32) -> bool
    ensures { result ≡ of_run tables.now.desk job (is_in_state HeldRun) }
{
    match run_now(tables, job) {
        Some(run) => is_held(&run),
        None => false,
    }
}
