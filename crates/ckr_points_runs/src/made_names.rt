//! Which names the steps of a run made.
ghost use Rattle.std.specs.Prelude.{◌≡◌, ◌+◌, ◌<◌, ◌≤◌, ◌&&◌, [], drop, false, length, map, pred, slice_get, take};
ghost use Rattle.std.specs.Option.{option_copied, option_map_or};
ghost use Rattle.std.specs.List.{list_any};
ghost use Rattle.ckr_points_library.specs.Holdings.{owned};
ghost use Rattle.ckr_library.specs.NameMaps.{same_name};
ghost use Rattle.ckr_meaning.specs.EffectiveJob.{is_among, name_of, names_of, names_of_steps};
ghost use Rattle.ckr_points_runs.specs.MadeNames.{earlier_flags, made_at, made_by, made_in, points_in, table_of_run};
ghost use Rattle.ckr_points_runs.specs.RunChange.{earlier_for, earlier_now};
ghost use Rattle.ckr_points_runs.specs.RunJobs.{effective, names_in, own_of, IsFitting};
ghost use Rattle.ckr_points_runs.specs.View.{facts_of, point_of};

use crate::run_table::{place_of, table_at};
use crate::start::point_at;
use crate::step_end::step_now;
use crate::{EffectiveJob, OwnStep, RunTable, StepPoint, step_at};
use arrayvec::ArrayVec;
use ckr_base::DsName;
use ckr_events::Event;
use ckr_jcl::{Dd, Step};
use ckr_points::is_marked_absent;
use ckr_uses::{has_set_named, library_name};

/// Whether the step of this number made a name.
fn made_at(points: &[StepPoint], step: u8, name: &DsName) -> bool
    ensures { result ≡ made_at (map point_of points.now) step name.now }
{
    match point_at(points, step) {
        Some(point) => is_marked_absent(point.marks.as_slice(), name),
        None => false,
    }
}

/// Whether one of these DDs of a step has the data set of this name.
pub fn is_any_named(root: u32, owner: u32, step: &Step, dds: &[Dd], name: &DsName) -> bool
    requires root { root ≤ 9999999 }
    requires owner { owner ≤ 9999999 }
    ensures { result ≡ list_any (λ dd. option_map_or (same_name name.now) (name_of root (owned step.now owner []) dd) false) dds.now }
{
    dds.iter()
        .any(|dd| has_set_named(dd, root, owner, &step.name, name))
}

/// Whether one of the data sets of a step has the name, under this root.
pub fn has_name(root: u32, own: &OwnStep<'_>, name: &DsName) -> bool
    requires root { root ≤ 9999999 }
    requires owner { own.now.owner ≤ 9999999 }
    ensures { result ≡ is_among (names_of root (own_of own.now)) name.now }
{
    is_any_named(root, own.owner, own.step, own.step.dds.as_slice(), name)
}

/// Whether the step at a place of a run's job has a name.
fn has_name_at(job: &EffectiveJob, run: u32, place: usize, name: &DsName) -> bool
    requires fits { IsFitting (effective run job.now) }
    ensures { result ≡ is_among (names_in job.now.root (slice_get (effective run job.now).steps place)) name.now }
{
    match job.step_in(run, place) {
        Some(own) => has_name(job.root(), &own, name),
        None => false,
    }
}

/// Whether one of the steps of a run's job has a name, from the one at a place on.
pub fn has_name_from(job: &EffectiveJob, run: u32, first: usize, name: &DsName) -> bool
    requires fits { IsFitting (effective run job.now) }
    ensures { result ≡ is_among (names_of_steps job.now.root (drop first (effective run job.now).steps)) name.now }
{
    for place in first..job.count_steps() {
        if has_name_at(job, run, place, name) {
            return true;
        }
    }
    false
}

/// The table of the run of this number. None exactly where there is no such run.
fn table_of(tables: &[RunTable], run: u32) -> Option<&RunTable>
    ensures { option_copied result ≡ table_of_run tables.now run }
{
    match place_of(run) {
        Some(place) => table_at(tables, place),
        None => None,
    }
}

/// Whether the step of this number made a name, by the points of the run that owns the step.
fn made_by_owner(tables: &[RunTable], owner: u32, step: u8, name: &DsName) -> bool
    ensures { result ≡ made_at (points_in tables.now owner) step name.now }
{
    match table_of(tables, owner) {
        Some(table) => made_at(table.points.as_slice(), step, name),
        None => false,
    }
}

/// Whether the step at a place made a name.
fn made_in_step(
    run: u32,
    job: &EffectiveJob,
    place: usize,
    tables: &[RunTable],
    name: &DsName,
) -> bool
    requires fits { IsFitting (effective run job.now) }
    requires place { place < 64 }
    ensures { result ≡ option_map_or (made_by (points_in tables.now) job.now.root (place + 1) name.now) (slice_get (effective run job.now).steps place) false }
{
    match job.step_in(run, place) {
        Some(own) => {
            has_name(job.root(), &own, name)
                && made_by_owner(tables, own.owner, place as u8 + 1, name)
        }
        None => false,
    }
}

/// Whether one of the first steps made a name: those before the step of this number.
fn made_in(run: u32, job: &EffectiveJob, step: u8, tables: &[RunTable], name: &DsName) -> bool
    requires fits { IsFitting (effective run job.now) }
    ensures { result ≡ made_in (points_in tables.now) job.now.root 1 (take (pred step) (effective run job.now).steps) name.now }
{
    let count = usize::from(step).saturating_sub(1).min(job.count_steps());
    for place in 0..count {
        if made_in_step(run, job, place, tables, name) {
            return true;
        }
    }
    false
}

/// Whether a step made it, for each name of the step.
pub(crate) fn made_flags(
    root: u32,
    step: u8,
    own: &OwnStep<'_>,
    points: &[StepPoint],
) -> ArrayVec<bool, 16>
    requires root { root ≤ 9999999 }
    requires owner { own.now.owner ≤ 9999999 }
    requires few { length own.now.step.now.dds ≤ 16 }
    ensures { result.items ≡ map (made_at (map point_of points.now) step) (names_of root (own_of own.now)) }
{
    let mut made = ArrayVec::new();
    for dd in own.step.dds.as_slice() {
        if let Some(name) = library_name(dd, root, own.owner, &own.step.name) {
            made.push(made_at(points, step, &name));
        }
    }
    made
}

/// Whether one of the steps before it made it, for each name of a step.
fn earlier_flags(
    run: u32,
    job: &EffectiveJob,
    step: u8,
    own: &OwnStep<'_>,
    tables: &[RunTable],
) -> ArrayVec<bool, 16>
    requires fits { IsFitting (effective run job.now) }
    requires owner { own.now.owner ≤ 9999999 }
    requires few { length own.now.step.now.dds ≤ 16 }
    ensures { result.items ≡ earlier_flags (points_in tables.now) job.now.root (effective run job.now).steps step (own_of own.now) }
{
    let mut made = ArrayVec::new();
    for dd in own.step.dds.as_slice() {
        if let Some(name) = library_name(dd, job.root(), own.owner, &own.step.name) {
            made.push(made_in(run, job, step, tables, &name));
        }
    }
    made
}

/// Whether one of the steps before it made it, for each name of the step that a run is before or in. None without such a step.
fn earlier_now(run: u32, table: &RunTable, tables: &[RunTable]) -> ArrayVec<bool, 16>
    requires fits { IsFitting (effective run table.now.job) }
    ensures { result.items ≡ earlier_now (points_in tables.now) run (facts_of table.now) }
{
    let step = step_now(table);
    match step_at(&table.job, run, step) {
        Some(own) => earlier_flags(run, &table.job, step, &own, tables),
        None => ArrayVec::new(),
    }
}

/// Whether one of the steps before it made it, for each name of the step that a run is before or in, for an event that ends this step: by
/// the tables before the event. The other events look at none, and get none.
pub fn earlier_for(
    event: &Event,
    run: u32,
    table: &RunTable,
    tables: &[RunTable],
) -> ArrayVec<bool, 16>
    requires fits { IsFitting (effective run table.now.job) }
    ensures { result.items ≡ earlier_for event.now (points_in tables.now) run (facts_of table.now) }
{
    match event {
        Event::StepEnded { .. } | Event::Ended { .. } => earlier_now(run, table, tables),
        _ => ArrayVec::new(),
    }
}
