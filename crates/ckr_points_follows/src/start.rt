//! Whether the start of a step follows.
ghost use Rattle.std.specs.Prelude.{◌≡◌, ◌≤◌, true, length};
ghost use Rattle.ckr_meaning.specs.EffectiveJob.{names_of};
ghost use Rattle.ckr_points.specs.Follows.{may_start, of_run, started_follows};
ghost use Rattle.ckr_points_deferred.specs.Runs.{row_now, IsRunNow};
ghost use Rattle.ckr_points_follows.specs.Start.{starts, starts_as};
ghost use Rattle.ckr_points_tables.specs.RunJobs.{own_of};
ghost use Rattle.ckr_uses.specs.Uses.{are_distinct};

use crate::runs::{is_on, place_of};
use crate::steps::step_of;
use ckr_events::Made;
use ckr_meaning::Place;
use ckr_points_clearance::makes_items;
use ckr_points_deferred::{RunNow, run_now};
use ckr_points_tables::{OwnStep, Tables};
use ckr_volumes::Layout;

/// Whether a run at this place may start a step: it is before the step, or the step was opened for it by a restart.
fn may_start(step: u8, place: Place) -> bool
    ensures { result ≡ may_start step place }
{
    match place {
        Place::Before(number) | Place::Opened(number) => number == step,
        Place::Within(..) => false,
    }
}

/// Whether a run starts a step of its job with these items, as far as its place and the step tell.
fn starts_with(
    tables: &Tables,
    layout: &Layout,
    run: &RunNow<'_>,
    own: &OwnStep<'_>,
    step: u8,
    items: &[Made],
) -> bool
    requires root { run.now.table.now.job.root ≤ 9999999 }
    requires owner { own.now.owner ≤ 9999999 }
    requires few { length own.now.step.now.dds ≤ 16 }
    requires distinct { are_distinct (names_of run.now.table.now.job.root (own_of own.now)) ≡ true }
    requires items { length items.now ≤ 80 }
    ensures { result ≡ starts_as layout.now tables.now.desk step items.now (row_now run.now) (own_of own.now) }
{
    may_start(step, place_of(run)) && makes_items(tables, layout, run.table, own, items)
}

/// Whether a step of a run starts with these items.
fn step_starts(tables: &Tables, layout: &Layout, run: &RunNow<'_>, step: u8, items: &[Made]) -> bool
    requires is { IsRunNow run.now }
    requires items { length items.now ≤ 80 }
    ensures { result ≡ starts layout.now tables.now.desk step items.now (row_now run.now) }
{
    match step_of(run, step) {
        Some(own) => starts_with(tables, layout, run, &own, step, items),
        None => false,
    }
}

/// Whether a run starts a step with these items.
fn run_starts(tables: &Tables, layout: &Layout, run: &RunNow<'_>, step: u8, items: &[Made]) -> bool
    requires is { IsRunNow run.now }
    requires items { length items.now ≤ 80 }
    ensures { result ≡ started_follows layout.now tables.now.desk step items.now (row_now run.now) }
{
    is_on(run) && step_starts(tables, layout, run, step, items)
}

/// Whether the start of a step follows: its run is on an initiator and before the step, no DD of it is refused, and the items are
/// those of the data sets that it makes, one for each part, in their order, with the records that SPACE gives. Each stands in the
/// layout, apart from those that are there and from one another.
pub fn started_follows(tables: &Tables, layout: &Layout, job: u32, step: u8, items: &[Made]) -> bool
    requires { length items.now ≤ 80 }
    ensures { result ≡ of_run tables.now.desk job (started_follows layout.now tables.now.desk step items.now) }
{
    match run_now(tables, job) {
        Some(run) => run_starts(tables, layout, &run, step, items),
        None => false,
    }
}
