//! Whether a run may go on from an earlier one.
ghost use Rattle.std.specs.Prelude.{◌≡◌, ◌&&◌, not, IfSome, Some};
ghost use Rattle.std.specs.Option.{is_none, option_eq, option_map_or};
ghost use Rattle.ckr_library.specs.NameMaps.{same_name};
ghost use Rattle.ckr_points.specs.Follows.{is_point_of, may_continue, may_restart, same_restart};
ghost use Rattle.ckr_points.specs.RuleCases.{is_ended, stale_denial};
ghost use Rattle.ckr_points_deferred.specs.Latest.{is_selected_as};
ghost use Rattle.ckr_points_deferred.specs.Runs.{row_now, IsRunNow};
ghost use Rattle.ckr_points_deferred.specs.Wanted.{wanted_by, wanted_in};

use crate::cases::{has_point, is_ended};
use crate::latest::is_selected_as;
use crate::sameness::is_wanted_step;
use crate::wanted_now::{step_of, wanted_entry};
use crate::{RunNow, WantedNow, run_now, stale_denial};
use ckr_base::CheckId;
use ckr_jcl::Restart;
use ckr_points_tables::Tables;

/// Whether a run is an ended one of the job name of this one, and was ever selected.
fn is_past_run(earlier: &RunNow<'_>, run: &RunNow<'_>) -> bool
    ensures { result ≡ (is_selected_as (row_now run.now).deck.name (row_now earlier.now) && is_ended (row_now earlier.now).state) }
{
    is_selected_as(earlier, &run.table.job.deck().name) && is_ended(earlier.line.state)
}

/// Whether the wanted entry, if a checkpoint is wanted, was found and is one of the earlier run in the wanted step.
fn is_entry_of(wanted: &WantedNow<'_>, earlier: &RunNow<'_>) -> bool
    ensures { result ≡ option_map_or (is_point_of (row_now earlier.now).number wanted.now.number) (wanted_in wanted.now).entry (not wanted.now.checkpoint) }
{
    match &wanted.entry {
        Some(entry) => entry.is_point_of(earlier.line.number, wanted.number),
        None => !wanted.checkpoint,
    }
}

/// Whether no needed name is stale.
fn is_fresh<'a>(tables: &Tables, run: &RunNow<'a>, wanted: &WantedNow<'a>) -> bool
    requires run { IsRunNow run.now }
    requires earlier { IfSome wanted.now.earlier IsRunNow }
    ensures { result ≡ is_none (stale_denial (row_now run.now) (wanted_in wanted.now) tables.now.desk) }
{
    stale_denial(tables, run, wanted).is_none()
}

/// Whether a run may go on from an earlier one: none of the rules D5 to D10 holds.
fn may_continue<'a>(
    tables: &Tables,
    run: &RunNow<'a>,
    earlier: &RunNow<'a>,
    wanted: &WantedNow<'a>,
) -> bool
    requires run { IsRunNow run.now }
    requires earlier { IsRunNow earlier.now }
    requires wanted { IfSome wanted.now.earlier IsRunNow }
    ensures { result ≡ may_continue tables.now.desk (row_now run.now) (row_now earlier.now) (wanted_in wanted.now) }
{
    is_past_run(earlier, run)
        && has_point(earlier, wanted.number)
        && is_wanted_step(wanted, earlier)
        && is_fresh(tables, run, wanted)
        && is_entry_of(wanted, earlier)
}

/// Whether two identifiers are the same, or neither is given.
fn same_id(first: &Option<CheckId>, second: &Option<CheckId>) -> bool
    ensures { result ≡ option_eq same_name first.now second.now }
{
    match (first, second) {
        (Some(first), Some(second)) => first.text().cmp(second.text()).is_eq(),
        (None, None) => true,
        _ => false,
    }
}

/// Whether RESTART names this step and this checkpoint, or none.
fn same_restart(restart: &Restart, step: u8, id: &Option<CheckId>) -> bool
    ensures { result ≡ same_restart restart.now step id.now }
{
    restart.step == step && same_id(&restart.id, id)
}

/// What is wanted of an earlier run: a step, and the entry of a checkpoint, if one is named.
fn wanted_by<'a>(
    tables: &'a Tables,
    run: &RunNow<'a>,
    earlier: &RunNow<'a>,
    step: u8,
    id: &Option<CheckId>,
) -> WantedNow<'a>
    requires { IsRunNow run.now }
    ensures wanted { wanted_in result ≡ wanted_by tables.now.desk (row_now run.now) (row_now earlier.now) step id.now }
    ensures earlier { result.earlier ≡ Some earlier.now }
{
    WantedNow {
        number: step,
        checkpoint: id.is_some(),
        entry: wanted_entry(tables, run, id.as_ref()),
        earlier: Some(*earlier),
        step: step_of(run.table.job.deck(), step),
    }
}

/// Whether a run with RESTART may be selected so: it goes on from this earlier run, at this step and at this checkpoint, if one is
/// named (IBM GC28-6708, this project's profile).
pub fn may_restart<'a>(
    tables: &'a Tables,
    run: &RunNow<'a>,
    restart: &Restart,
    earlier: u32,
    step: u8,
    id: &Option<CheckId>,
) -> bool
    requires { IsRunNow run.now }
    ensures { result ≡ may_restart tables.now.desk (row_now run.now) restart.now earlier step id.now }
{
    if !same_restart(restart, step, id) {
        return false;
    }
    match run_now(tables, earlier) {
        Some(other) => {
            let wanted = wanted_by(tables, run, &other, step, id);
            may_continue(tables, run, &other, &wanted)
        }
        None => false,
    }
}
