//! Whether the selection of a run follows, its denial, or its being taken from the queue.
ghost use Rattle.std.specs.Prelude.{◌≡◌, ◌≤◌, ◌==◌, ◌&&◌, Some, nat_eq, nat_le, not};
ghost use Rattle.std.specs.List.{list_all};
ghost use Rattle.std.specs.Option.{is_none, is_some, option_eq, option_map_or};
ghost use Rattle.ckr_jcl.specs.declared.deck.Restart.{Restart as RestartOfDeck};
ghost use Rattle.ckr_points.specs.Rows.{RunRow};
ghost use Rattle.ckr_points.specs.Office.{is_holder};
ghost use Rattle.ckr_points.specs.declared.run.RunState.TheVariants.{Queued as QueuedRun};
ghost use Rattle.ckr_points.specs.Follows.{is_free, is_in_state, may_hold, may_restart, of_run, selected_follows};
ghost use Rattle.ckr_points_follows.specs.DeckConflicts.{may_be_beside, holds_beside};
ghost use Rattle.ckr_points_deferred.specs.Runs.{row_now, IsRunNow};

use crate::deck_conflicts::hold_against;
use crate::runs::is_queued;
use ckr_base::CheckId;
use ckr_points::{Run, RunState};
use ckr_points_deferred::{RunNow, may_restart, run_now};
use ckr_points_tables::Tables;
use ckr_volumes::Layout;

/// Whether the operator's taking a run from the queue follows: it waits for an initiator.
pub fn purged_follows(tables: &Tables, job: u32) -> bool
    ensures { result ≡ of_run tables.now.desk job (is_in_state QueuedRun) }
{
    match run_now(tables, job) {
        Some(run) => is_queued(&run),
        None => false,
    }
}

/// Whether an initiator is one of the layout's.
fn is_initiator(layout: &Layout, initiator: u8) -> bool
    ensures { result ≡ (nat_le 1 initiator && nat_le initiator layout.now.initiators) }
{
    initiator >= 1 && initiator <= layout.initiators
}

/// Whether no run is on an initiator. It looks into the index of the initiators.
fn has_no_run(tables: &Tables, initiator: u8) -> bool
    ensures { result ≡ list_all (λ (row : RunRow). not (option_eq nat_eq row.initiator (Some initiator))) tables.now.desk.runs }
{
    tables.on_initiator(initiator).is_none()
}

/// Whether an initiator is one of the layout's, and no run is on it.
pub(crate) fn is_free(layout: &Layout, tables: &Tables, initiator: u8) -> bool
    ensures { result ≡ is_free layout.now tables.now.desk initiator }
{
    is_initiator(layout, initiator) && has_no_run(tables, initiator)
}

/// Whether a run holds its names: it is selected and not ended.
fn is_holder(state: RunState) -> bool
    ensures { result ≡ is_holder state }
{
    matches!(state, RunState::On | RunState::Held | RunState::Released)
}

/// Whether the uses of two runs hold against each other, the other by its number.
fn holds_beside(tables: &Tables, run: &RunNow<'_>, other: u32) -> bool
    requires { IsRunNow run.now }
    ensures { result ≡ holds_beside tables.now.desk (row_now run.now) other }
{
    match run_now(tables, other) {
        Some(other) => hold_against(
            run.line.number,
            run.table.job.deck(),
            other.line.number,
            other.table.job.deck(),
        ),
        None => false,
    }
}

/// Whether a run may be selected beside another one, by the line of that one.
fn may_be_beside(tables: &Tables, run: &RunNow<'_>, line: &Run) -> bool
    requires { IsRunNow run.now }
    ensures { result ≡ may_be_beside tables.now.desk (row_now run.now) line.now }
{
    !(is_holder(line.state) && holds_beside(tables, run, line.number))
}

/// Whether a run may be selected beside each of these.
fn may_be_beside_all(tables: &Tables, run: &RunNow<'_>, lines: &[Run]) -> bool
    requires { IsRunNow run.now }
    ensures { result ≡ list_all (may_be_beside tables.now.desk (row_now run.now)) lines.now }
{
    lines.iter().all(|line| may_be_beside(tables, run, line))
}

/// Whether no uses of a selected run that isn't ended hold against those of this run. It looks at the decks of the selected runs
/// alone, at no line before the first run that has not ended, and at none behind the last one that ever left the queue.
fn may_hold(tables: &Tables, run: &RunNow<'_>) -> bool
    requires { IsRunNow run.now }
    ensures { result ≡ may_hold tables.now.desk (row_now run.now) }
{
    may_be_beside_all(tables, run, tables.begun())
}

/// Whether the selection of a run without RESTART names nothing that it goes on from.
fn names_none(earlier: u32, step: u8, id: &Option<CheckId>) -> bool
    ensures { result ≡ (earlier == 0 && step == 0 && is_none id.now) }
{
    earlier == 0 && step == 0 && id.is_none()
}

/// Whether a run may go on from what its selection names: with RESTART from this earlier run, at this step and at this checkpoint, if
/// one is named; without it from none.
fn goes_on_from<'a>(
    tables: &'a Tables,
    run: &RunNow<'a>,
    earlier: u32,
    step: u8,
    id: &Option<CheckId>,
) -> bool
    requires { IsRunNow run.now }
    ensures { result ≡ option_map_or (λ (restart : RestartOfDeck). may_restart tables.now.desk (row_now run.now) restart earlier step id.now) (row_now run.now).deck.restart (earlier == 0 && step == 0 && is_none id.now) }
{
    match &run.table.job.deck().restart {
        Some(restart) => may_restart(tables, run, restart, earlier, step, id),
        None => names_none(earlier, step, id),
    }
}

/// Whether the selection of a run follows, by its row.
fn run_follows<'a>(
    layout: &Layout,
    tables: &'a Tables,
    run: &RunNow<'a>,
    initiator: u8,
    earlier: u32,
    step: u8,
    id: &Option<CheckId>,
) -> bool
    requires { IsRunNow run.now }
    ensures { result ≡ selected_follows layout.now tables.now.desk initiator earlier step id.now (row_now run.now) }
{
    is_queued(run)
        && is_free(layout, tables, initiator)
        && may_hold(tables, run)
        && goes_on_from(tables, run, earlier, step, id)
}

/// Whether the selection of a run follows: it waits for an initiator, the initiator is one of the layout's with no run on it, and the
/// uses of no selected run hold against its own. With RESTART it goes on from the earlier run, at the step and at the checkpoint that
/// the event names, where the rules of deferred restarts permit it; without RESTART the event names none of these (IBM GC28-6708 and
/// this project's profile).
pub fn selected_follows(
    layout: &Layout,
    tables: &Tables,
    job: u32,
    initiator: u8,
    earlier: u32,
    step: u8,
    id: &Option<CheckId>,
) -> bool
    ensures { result ≡ of_run tables.now.desk job (selected_follows layout.now tables.now.desk initiator earlier step id.now) }
{
    match run_now(tables, job) {
        Some(run) => run_follows(layout, tables, &run, initiator, earlier, step, id),
        None => false,
    }
}

/// Whether a run waits for an initiator, and has RESTART.
fn is_queued_restart(run: &RunNow<'_>) -> bool
    ensures { result ≡ (is_in_state QueuedRun (row_now run.now) && is_some (row_now run.now).deck.restart) }
{
    is_queued(run) && run.table.job.deck().restart.is_some()
}

/// Whether the denial of a run follows: it waits for an initiator, and has RESTART. Which rule denies it isn't looked at (this
/// project's profile).
pub fn denied_follows(tables: &Tables, job: u32) -> bool
    ensures { result ≡ of_run tables.now.desk job (λ row. is_in_state QueuedRun row && is_some row.deck.restart) }
{
    match run_now(tables, job) {
        Some(run) => is_queued_restart(&run),
        None => false,
    }
}
