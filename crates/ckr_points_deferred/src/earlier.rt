//! The run that is continued.
ghost use Rattle.std.specs.Prelude.{◌≡◌, IfSome};
ghost use Rattle.std.specs.Option.{option_map};
ghost use Rattle.ckr_points.specs.RuleCases.{earlier_run};
ghost use Rattle.ckr_points_deferred.specs.Runs.{row_now, IsRunNow};
ghost use Rattle.ckr_points_tables.specs.Entries.{entry_in};

use crate::{RunNow, latest_run, run_now};
use ckr_points_tables::{EntryNow, Tables};

/// The run that a run with RESTART continues: that of the entry, where a checkpoint is wanted and its entry was found, else the latest
/// one of this job name. `None` exactly where it isn't known.
pub(crate) fn earlier_run<'a>(
    tables: &'a Tables,
    run: &RunNow<'_>,
    found: Option<EntryNow<'_>>,
    checkpoint: bool,
) -> Option<RunNow<'a>>
    ensures row { option_map row_now result ≡ earlier_run (row_now run.now) tables.now.desk (option_map entry_in found.entry) checkpoint }
    ensures is { IfSome result IsRunNow }
{
    match found {
        Some(entry) if checkpoint => run_now(tables, entry.kept.run),
        _ => latest_run(tables, &run.table.job.deck().name),
    }
}
