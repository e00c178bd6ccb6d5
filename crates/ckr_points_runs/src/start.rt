//! The start of a step.
ghost use Rattle.std.specs.Prelude.{◌≡◌, ◌+◌, ◌≤◌, ◌<◌, [], ◌++◌, length, map, find, ◌==◌};
ghost use Rattle.std.specs.Option.{option_copied, option_map, option_map_or};
ghost use Rattle.ckr_meaning.specs.EffectiveJob.{names_of_job};
ghost use Rattle.ckr_points.specs.Marks.{mark_now, point_at};
ghost use Rattle.ckr_points.specs.Rows.{StartPoint as StartOfStep};
ghost use Rattle.ckr_points_runs.specs.declared.run_table.StepPoint.{StepPoint as PointOfStep};
ghost use Rattle.ckr_points_runs.specs.RunMarks.{carried_by, point_marks};
ghost use Rattle.ckr_points_runs.specs.RunJobs.{effective, IsFitting};
ghost use Rattle.ckr_points_runs.specs.View.{facts_of, point_of, seen_by, table_of};
ghost use Rattle.ckr_points_runs.specs.Start.{fresh_point, started_facts, started_point, started_sets, HasPointRoom, MayStart};

use crate::marking::Marking;
use crate::new_sets::make_sets;
use crate::run_marks::{mark_job, own_from};
use crate::{RunTable, Spare, StepPoint, step_at};
use ckr_entry::{Mark, Marks, Passed, PassedList};
use ckr_events::Made;
use ckr_library::{Library, Stamp};
use ckr_meaning::Place;
use ckr_points_library::open_outputs;
use std::mem;

/// The step point of a step.
pub fn point_at(points: &[StepPoint], step: u8) -> Option<&StepPoint>
    ensures { option_copied result ≡ find (λ (point : PointOfStep). point.step == step) points.now }
{
    points.iter().find(|point| point.step == step)
}

/// How often a run was restarted at the start of a step.
fn restarts_at(points: &[StepPoint], step: u8) -> u8
    ensures { result ≡ option_map_or (λ (point : StartOfStep). point.restarts) (point_at (map point_of points.now) step) 0 }
{
    match point_at(points, step) {
        Some(point) => point.restarts,
        None => 0,
    }
}

/// The same mark.
pub(crate) fn copy_of_mark(mark: &Mark) -> Mark
    ensures { result ≡ mark.now }
{
    Mark {
        name: mark.name.copied(),
        present: mark.present,
    }
}

/// Puts marks behind others. There is a spare place for each, and it takes no memory.
pub fn put_marks(items: &[Mark], marks: &mut Marks)
    requires { length items.now ≤ marks.old.room }
    ensures { marks.new.items ≡ marks.old.items ++ items.now }
{
    for mark in items {
        match marks.push(copy_of_mark(mark)) {
            Ok(()) => {}
            Err(_) => unreachable!(),
        }
    }
}

/// The same entry of a passed list.
fn copy_of_passed(one: &Passed) -> Passed
    ensures { result ≡ one.now }
{
    Passed {
        name: one.name.copied(),
        made: one.made,
    }
}

/// Puts what was passed behind the others. There is a spare place for each, and it takes no memory.
pub fn put_passed(items: &[Passed], passed: &mut PassedList)
    requires { length items.now ≤ passed.old.room }
    ensures { passed.new.items ≡ passed.old.items ++ items.now }
{
    for one in items {
        match passed.push(copy_of_passed(one)) {
            Ok(()) => {}
            Err(_) => unreachable!(),
        }
    }
}

/// The marks of the point from which a run was continued, and none where it wasn't.
fn carried_by(points: &[StepPoint], step: u8) -> &[Mark]
    ensures { result.now ≡ carried_by (map point_of points.now) step }
{
    match point_at(points, step) {
        Some(point) => point.marks.as_slice(),
        None => &[],
    }
}

/// The marks of a run's names now, out of the spare ones.
pub(crate) fn take_marks(run: u32, table: &RunTable, library: &Library, spare: &mut Spare) -> Marks
    requires fits { IsFitting (effective run table.now.job) }
    requires empty { spare.old.marks.items ≡ [] }
    requires sorted { length (names_of_job (effective run table.now.job)) ≤ spare.old.sorted.room }
    requires marks { length (names_of_job (effective run table.now.job)) ≤ spare.old.marks.room }
    ensures marks { result.items ≡ point_marks run (facts_of table.now) (mark_now (seen_by table_of library.now.sets)) }
    ensures empty { spare.new.marks.items ≡ [] }
    ensures passed { spare.new.passed ≡ spare.old.passed }
{
    let marking = Marking {
        run,
        job: &table.job,
        own_from: own_from(&table.job),
        carried: carried_by(table.points.as_slice(), table.job.earlier_step()),
        library,
    };
    mark_job(&marking, &mut spare.sorted);
    let mut marks = mem::replace(&mut spare.marks, Marks::new(spare.alloc));
    put_marks(spare.sorted.as_slice(), &mut marks);
    marks
}

/// The same passed list, out of the spare one.
pub(crate) fn take_passed(items: &[Passed], spare: &mut Spare) -> PassedList
    requires { length items.now ≤ spare.old.passed.room }
    ensures passed { result.items ≡ items.now }
    ensures marks { spare.new.marks ≡ spare.old.marks }
{
    spare.passed.clear();
    let mut passed = mem::replace(&mut spare.passed, PassedList::new(spare.alloc));
    put_passed(items, &mut passed);
    passed
}

/// The step point of a step that starts, with its outputs opened.
fn take_point(
    run: u32,
    step: u8,
    table: &RunTable,
    library: &Library,
    spare: &mut Spare,
) -> StepPoint
    requires fits { IsFitting (effective run table.now.job) }
    requires empty { spare.old.marks.items ≡ [] }
    requires room { HasPointRoom run table.now spare.old }
    ensures point { point_of result ≡ fresh_point run (facts_of table.now) step (seen_by table_of library.now.sets) }
    ensures empty { spare.new.marks.items ≡ [] }
{
    let marks = take_marks(run, table, library, spare);
    let passed = take_passed(table.passed.as_slice(), spare);
    StepPoint {
        step,
        restarts: restarts_at(table.points.as_slice(), step),
        rewritten: false,
        count: table.count,
        marks,
        passed,
    }
}

/// The library as a step starts: its outputs are opened, and what it makes is made. The step point is that between the two. None
/// for a job without such a step; then nothing changes.
fn open_step(
    run: u32,
    step: u8,
    items: &[Made],
    table: &RunTable,
    library: &mut Library,
    spare: &mut Spare,
) -> Option<StepPoint>
    requires fits { IsFitting (effective run table.now.job) }
    requires empty { spare.old.marks.items ≡ [] }
    requires room { HasPointRoom run table.now spare.old }
    requires sets { 16 ≤ library.old.room }
    requires may { MayStart run step items.now (facts_of table.now) library.old.sets }
    ensures point { option_map point_of result ≡ started_point run step (facts_of table.now) library.old.sets }
    ensures sets { library.new.sets ≡ started_sets run step items.now (facts_of table.now) library.old.sets }
    ensures empty { spare.new.marks.items ≡ [] }
{
    let own = step_at(&table.job, run, step)?;
    let root = table.job.root();
    let stamp = Stamp {
        run: own.owner,
        step,
        rewrites: 0,
    };
    open_outputs(
        own.step,
        root,
        own.owner,
        step,
        library,
        table.passed.as_slice(),
    );
    let point = take_point(run, step, table, library, spare);
    make_sets(root, &own, stamp, items, library);
    Some(point)
}

/// A step starts. A job without such a step stays as it is.
pub(crate) fn start_run(
    run: u32,
    step: u8,
    items: &[Made],
    table: &mut RunTable,
    library: &mut Library,
    spare: &mut Spare,
)
    requires fits { IsFitting (effective run table.old.job) }
    requires empty { spare.old.marks.items ≡ [] }
    requires room { HasPointRoom run table.old spare.old }
    requires point { 0 < table.old.points.room }
    requires sets { 16 ≤ library.old.room }
    requires may { MayStart run step items.now (facts_of table.old) library.old.sets }
    ensures facts { facts_of table.new ≡ started_facts step (started_point run step (facts_of table.old) library.old.sets) (facts_of table.old) }
    ensures sets { library.new.sets ≡ started_sets run step items.now (facts_of table.old) library.old.sets }
    ensures empty { spare.new.marks.items ≡ [] }
{
    if let Some(point) = open_step(run, step, items, table, library, spare) {
        table.points.put(point);
        table.place = Some(Place::Within(step, 0));
    }
}
