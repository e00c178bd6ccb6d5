//! A step that starts, with its data sets.
ghost use Rattle.std.specs.Prelude.{◌≡◌, ◌∷◌, ◌+◌, ◌-◌, ◌<◌, ◌≤◌, if◌then◌else◌, IfSome, Option, None, Some, length, map, vec_len, vec_capacity};
ghost use Rattle.std.specs.List.{AllByRecursion};
ghost use Rattle.ckr_desk_memory.specs.Invariant.{IsAcceptedRow};
ghost use Rattle.ckr_desk_memory.specs.Parts.{step_seen};
ghost use Rattle.ckr_desk_memory.specs.Preparation.{HasAgain, IsEmpty};
ghost use Rattle.ckr_desk_memory.specs.RunningSteps.{may_go_back, MayGoBack, StepGoesBack};
ghost use Rattle.ckr_desk_memory.specs.Start.{has_all, has_any, has_sets, with_all_taken, with_any_taken, with_taken, AllFit, HasNew};
ghost use Rattle.ckr_desk_memory.specs.View.{PointView as PointOfStep};
ghost use Rattle.ckr_meaning.specs.EffectiveJob.{name_of, OwnedStep as OwnedStepOfRun};
ghost use Rattle.ckr_points.specs.Follows.{own_step};
ghost use Rattle.ckr_points.specs.Restart.{place_of as place_of_row, step_in as step_in_place};
ghost use Rattle.ckr_points.specs.Rows.{holding_of, run_of, step_of_run, RunRow as RowOfRun};
ghost use Rattle.ckr_points_tables.specs.RunJobs.{own_of};
ghost use Rattle.ckr_points_tables.specs.View.{seen_by};
ghost use Rattle.ckr_desk_turn.specs.Queue.{AreNumbered};
ghost use Rattle.ckr_desk_plans.specs.declared.running_step.RunningStep.{RunningStep as PreparedStep};

use crate::RunningStep;
use crate::event::leave;
use crate::lines::is_on;
use ckr_base::DsName;
use ckr_desk_plans::{copy_of_set, place_of};
use ckr_jcl::Dd;
use ckr_library::Library;
use ckr_points::step_in;
use ckr_points_tables::{OwnStep, Tables, step_at};
use ckr_uses::library_name;

/// Takes the data set of a name, where it isn't there yet. There is room for it.
fn take_set(name: DsName, from: &Library, sets: &mut Library)
    requires fit { AllFit from.now.sets }
    requires room { 0 < sets.old.room }
    ensures sets { sets.new.sets ≡ with_taken from.now.sets name sets.old.sets }
    ensures room { sets.old.room ≤ sets.new.room + 1 }
{
    if sets.get(&name).is_some() {
        return;
    }
    if let Some(set) = from.get(&name) {
        match sets.insert(name, copy_of_set(set)) {
            Ok(()) => {}
            Err(_) => unreachable!(),
        }
    }
}

/// The same for a DD that has a data set or none.
fn take_dd(root: u32, own: &OwnStep<'_>, dd: &Dd, from: &Library, sets: &mut Library)
    requires root { root ≤ 9999999 }
    requires owner { own.now.owner ≤ 9999999 }
    requires fit { AllFit from.now.sets }
    requires room { 0 < sets.old.room }
    ensures sets { sets.new.sets ≡ with_any_taken from.now.sets (name_of root (own_of own.now) dd.now) sets.old.sets }
    ensures room { sets.old.room ≤ sets.new.room + 1 }
{
    if let Some(name) = library_name(dd, root, own.owner, &own.step.name) {
        take_set(name, from, sets);
    }
}

/// Takes the data sets of a step. There is room for them.
fn take_sets(root: u32, own: &OwnStep<'_>, from: &Library, sets: &mut Library)
    requires root { root ≤ 9999999 }
    requires owner { own.now.owner ≤ 9999999 }
    requires fit { AllFit from.now.sets }
    requires room { length own.now.step.now.dds ≤ sets.old.room }
    ensures { sets.new.sets ≡ with_all_taken (name_of root (own_of own.now)) from.now.sets own.now.step.now.dds sets.old.sets }
{
    for dd in own.step.dds.as_slice() {
        take_dd(root, own, dd, from, sets);
    }
}

/// A step is running, before the others. There is room for it.
pub(crate) fn put_first(running: &mut Vec<RunningStep>, on: RunningStep)
    requires { vec_len running.old < vec_capacity running.old }
    ensures items { running.new.items ≡ on ∷ running.old.items }
    ensures room { vec_capacity running.new - vec_len running.new + 1 ≡ vec_capacity running.old - vec_len running.old }
{
    match running.insert(0, on) {
        Ok(()) => {}
        Err(_) => unreachable!(),
    }
}

/// A step of a run is running, as it was prepared: it takes its data sets from the tables, and stands before the others; the steps of its run
/// that were running go. There is room for it.
pub(crate) fn start_step(
    job: u32,
    step: u8,
    begun: &mut Option<RunningStep>,
    tables: &Tables,
    running: &mut Vec<RunningStep>,
)
    requires job { job ≤ 9999999 }
    requires empty { IfSome begun.old (IsEmpty job) }
    requires rows { AllByRecursion IsAcceptedRow tables.now.desk.runs }
    requires numbered { AreNumbered 1 tables.now.desk.runs }
    requires fit { AllFit (seen_by holding_of tables.now.desk.sets) }
    requires room { vec_len running.old < vec_capacity running.old }
    ensures { (on : PreparedStep) (row : RowOfRun) (owned : OwnedStepOfRun) → begun.old ≡ Some on → run_of tables.now.desk job ≡ Some row → step_of_run row step ≡ Some owned → HasNew job row.job.root owned on.step tables.now.desk.sets (map step_seen running.old.items) (map step_seen running.new.items) }
{
    let _lines = tables.runs();
    let Some(table) = tables.run(job) else {
        return;
    };
    let Some(own) = step_at(&table.job, job, step) else {
        return;
    };
    let Some(mut on) = begun.take() else {
        return;
    };
    take_sets(table.job.root(), &own, tables.library(), &mut on.sets);
    leave(running, job);
    put_first(running, on);
}

/// Whether a library has the data set of a DD, where it names one.
fn has_set(root: u32, own: &OwnStep<'_>, dd: &Dd, from: &Library) -> bool
    requires root { root ≤ 9999999 }
    requires owner { own.now.owner ≤ 9999999 }
    ensures { result ≡ has_any from.now.sets (name_of root (own_of own.now) dd.now) }
{
    match library_name(dd, root, own.owner, &own.step.name) {
        Some(name) => from.get(&name).is_some(),
        None => true,
    }
}

/// Whether it has each data set that a step names.
fn has_sets(root: u32, own: &OwnStep<'_>, from: &Library) -> bool
    requires root { root ≤ 9999999 }
    requires owner { own.now.owner ≤ 9999999 }
    ensures { result ≡ has_all (name_of root (own_of own.now)) from.now.sets own.now.step.now.dds }
{
    for dd in own.step.dds.as_slice() {
        if !has_set(root, own, dd, from) {
            return false;
        }
    }
    true
}

/// The number of the step that a run is in, where the run is on an initiator and the tables have all that the step names.
fn step_there(tables: &Tables, job: u32) -> Option<u8>
    requires job { job ≤ 9999999 }
    requires rows { AllByRecursion IsAcceptedRow tables.now.desk.runs }
    requires numbered { AreNumbered 1 tables.now.desk.runs }
    ensures { (row : RowOfRun) (owned : OwnedStepOfRun) → run_of tables.now.desk job ≡ Some row → own_step row ≡ Some owned → result ≡ if may_go_back tables.now.desk owned row then Some (step_in_place (place_of_row row)) else None }
{
    if !is_on(tables, job) {
        return None;
    }
    let _lines = tables.runs();
    let Some(table) = tables.run(job) else {
        return None;
    };
    let step = step_in(place_of(table));
    let Some(own) = step_at(&table.job, job, step) else {
        return None;
    };
    if has_sets(table.job.root(), &own, tables.library()) {
        Some(step)
    } else {
        None
    }
}

/// A run goes on in the step that it is in, as it was prepared, where it is on its initiator and the tables have all that the step names: no
/// other step of it is running.
pub(crate) fn start_again(
    job: u32,
    again: &mut Option<RunningStep>,
    tables: &Tables,
    running: &mut Vec<RunningStep>,
)
    requires { MayGoBack job tables.now.desk again.old (vec_capacity running.old - vec_len running.old) }
    ensures { (point : Option PointOfStep) → HasAgain point tables.now.desk job again.old → StepGoesBack point job tables.now.desk (map step_seen running.old.items) (map step_seen running.new.items) }
{
    if again.is_none() {
        leave(running, job);
        return;
    }
    match step_there(tables, job) {
        Some(step) => start_step(job, step, again, tables, running),
        None => leave(running, job),
    }
}
