//! The latest run of a job name.
ghost use Rattle.std.specs.Prelude.{◌≡◌, IfSome};
ghost use Rattle.std.specs.Option.{option_map};
ghost use Rattle.ckr_points.specs.RuleCases.{latest_run};
ghost use Rattle.ckr_points.specs.Rows.{run_of};
ghost use Rattle.ckr_points_deferred.specs.Latest.{is_selected_as, selected_among};
ghost use Rattle.ckr_points_deferred.specs.Runs.{row_now, IsRunNow};

use crate::{RunNow, run_now};
use ckr_base::Name8;
use ckr_points_tables::Tables;

/// Whether a run has this job name and was ever selected.
pub(crate) fn is_selected_as(run: &RunNow<'_>, name: &Name8) -> bool
    ensures { result ≡ is_selected_as name.now (row_now run.now) }
{
    run.table.place.is_some() && run.table.job.deck().name.cmp(name).is_eq()
}

/// The run of this number, if it has this job name and was ever selected.
fn selected_run<'a>(tables: &'a Tables, job: u32, name: &Name8) -> Option<RunNow<'a>>
    ensures row { option_map row_now result ≡ selected_among name.now (run_of tables.now.desk job) }
    ensures is { IfSome result IsRunNow }
{
    let run = run_now(tables, job)?;
    if is_selected_as(&run, name) {
        Some(run)
    } else {
        None
    }
}

/// The latest run of a job name: that of the greatest number among those that were ever selected. `None` exactly where none was
/// (IBM GC28-6708, this project's profile).
pub fn latest_run<'a>(tables: &'a Tables, name: &Name8) -> Option<RunNow<'a>>
    ensures row { option_map row_now result ≡ latest_run name.now tables.now.desk }
    ensures is { IfSome result IsRunNow }
{
    let lines = tables.runs();
    let mut left = lines.len();
    while left > 0 {
        left -= 1;
        if let Some(run) = selected_run(tables, lines[left].number, name) {
            return Some(run);
        }
    }
    None
}
