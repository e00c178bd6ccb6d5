//! The case of a deferred restart, by which it is judged.
ghost use Rattle.std.specs.Prelude.{◌≡◌, ◌&&◌, false, IfSome};
ghost use Rattle.std.specs.Option.{is_some, option_map, option_map_or};
ghost use Rattle.ckr_points.specs.Marks.{point_at};
ghost use Rattle.ckr_points.specs.RuleCases.{deferred_case, is_ended, is_entry_known, is_of_step, is_same_step, is_syschk_found, latest_run, number_named};
ghost use Rattle.ckr_points.specs.Rows.{KeptEntry, RunRow};
ghost use Rattle.ckr_points.specs.Soundness.{serials};
ghost use Rattle.ckr_points.specs.declared.denial.Denial.{Denial as DenialOfRun};
ghost use Rattle.ckr_points_deferred.specs.Runs.{row_now, IsRunNow};
ghost use Rattle.ckr_points_deferred.specs.Wanted.{has_step_point, wanted_in};

use crate::sameness::is_wanted_step;
use crate::{RunNow, WantedNow, latest_run, number_named, stale_denial};
use ckr_points::{Denial, RunState, is_syschk_found};
use ckr_points_tables::{Tables, point_at};
use ckr_rules::{DeferredCase, Rule};
use ckr_volumes::Layout;

/// Whether a run in this state has ended.
pub(crate) fn is_ended(state: RunState) -> bool
    ensures { result ≡ is_ended state }
{
    matches!(state, RunState::Ended)
}

/// Whether a run has a step point of this number.
pub(crate) fn has_point(run: &RunNow<'_>, step: u8) -> bool
    ensures { result ≡ is_some (point_at (row_now run.now).points step) }
{
    match point_at(run.table.points.as_slice(), step) {
        Some(_) => true,
        None => false,
    }
}

/// Whether the run of the entry, if that was found, is known.
fn is_entry_known(wanted: &WantedNow<'_>) -> bool
    ensures { result ≡ is_entry_known (wanted_in wanted.now) }
{
    match &wanted.entry {
        Some(_) => wanted.earlier.is_some(),
        None => true,
    }
}

/// Whether some run of this job name was ever selected, and the run of the entry is known.
fn is_known(tables: &Tables, run: &RunNow<'_>, wanted: &WantedNow<'_>) -> bool
    ensures { result ≡ (is_some (latest_run (row_now run.now).deck.name tables.now.desk) && is_entry_known (wanted_in wanted.now)) }
{
    latest_run(tables, &run.table.job.deck().name).is_some() && is_entry_known(wanted)
}

/// Whether the data set of a run's SYSCHK is found.
fn is_set_found(layout: &Layout, tables: &Tables, run: &RunNow<'_>) -> bool
    requires { IsRunNow run.now }
    ensures { result ≡ is_syschk_found (serials layout.now) (row_now run.now) tables.now.desk.sets }
{
    is_syschk_found(
        run.table.job.deck().syschk.as_ref(),
        tables.library(),
        layout,
    )
}

/// Whether the entry is one of the run's job name and of the name of the wanted step.
fn is_entry_of_step(run: &RunNow<'_>, wanted: &WantedNow<'_>) -> bool
    ensures { result ≡ option_map_or (λ (entry : KeptEntry). is_of_step (row_now run.now) (wanted_in wanted.now) entry.point) (wanted_in wanted.now).entry false }
{
    match &wanted.entry {
        Some(entry) => entry.is_of_step(run.table.job.deck(), wanted.step),
        None => false,
    }
}

/// Whether the earlier run has ended.
fn has_ended(wanted: &WantedNow<'_>) -> bool
    ensures { result ≡ option_map_or (λ (earlier : RunRow). is_ended earlier.state) (wanted_in wanted.now).earlier false }
{
    match &wanted.earlier {
        Some(earlier) => is_ended(earlier.line.state),
        None => false,
    }
}

/// Whether a run started the wanted step itself, or went on in it.
fn has_step_point(earlier: &RunNow<'_>, wanted: &WantedNow<'_>) -> bool
    requires { IsRunNow earlier.now }
    ensures { result ≡ has_step_point (row_now earlier.now) (wanted_in wanted.now).step }
{
    match wanted.step {
        Some(step) => has_point(earlier, number_named(earlier, &step.name)),
        None => false,
    }
}

/// Whether the earlier run started the wanted step itself, or went on in it.
fn has_reached(wanted: &WantedNow<'_>) -> bool
    requires { IfSome wanted.now.earlier IsRunNow }
    ensures { result ≡ option_map_or (λ (earlier : RunRow). has_step_point earlier (wanted_in wanted.now).step) (wanted_in wanted.now).earlier false }
{
    match &wanted.earlier {
        Some(earlier) => has_step_point(earlier, wanted),
        None => false,
    }
}

/// Whether the wanted step is the one that the earlier run had.
fn has_same_step(wanted: &WantedNow<'_>) -> bool
    requires { IfSome wanted.now.earlier IsRunNow }
    ensures { result ≡ option_map_or (λ (earlier : RunRow). option_map_or (is_same_step earlier (wanted_in wanted.now)) (wanted_in wanted.now).step false) (wanted_in wanted.now).earlier false }
{
    match &wanted.earlier {
        Some(earlier) => is_wanted_step(wanted, earlier),
        None => false,
    }
}

/// The rule of a denial.
fn rule_of(denial: &Option<Denial>) -> Option<Rule>
    ensures { result ≡ option_map (λ (denial : DenialOfRun). denial.rule) denial.now }
{
    match denial {
        Some(denial) => Some(denial.rule),
        None => None,
    }
}

/// The case of a deferred restart, as the tables of a desk with this layout have it (IBM GC28-6708, this project's profile).
pub fn deferred_case<'a>(
    layout: &Layout,
    tables: &Tables,
    run: &RunNow<'a>,
    wanted: &WantedNow<'a>,
) -> DeferredCase
    requires run { IsRunNow run.now }
    requires earlier { IfSome wanted.now.earlier IsRunNow }
    ensures { result ≡ deferred_case (serials layout.now) (row_now run.now) (wanted_in wanted.now) tables.now.desk }
{
    DeferredCase {
        checkpoint: wanted.checkpoint,
        known: is_known(tables, run, wanted),
        found_set: is_set_found(layout, tables, run),
        found_entry: wanted.entry.is_some(),
        same_job_step: is_entry_of_step(run, wanted),
        ended: has_ended(wanted),
        reached: has_reached(wanted),
        same_statements: has_same_step(wanted),
        stale: rule_of(&stale_denial(tables, run, wanted)),
    }
}
