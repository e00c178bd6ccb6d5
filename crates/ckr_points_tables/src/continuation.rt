//! A run as it goes on that continues another one, made before it is selected.
ghost use Rattle.std.specs.Prelude.{◌≡◌, ◌≤◌, ◌+◌, ◌∷◌, [], IfOk, IfSome, IsTrue, None, map, true, vec_len, vec_capacity};
ghost use Rattle.std.specs.Option.{option_copied, option_map, option_map_or};
ghost use Rattle.ckr_library.specs.NameMaps.{entry_at, Name};
ghost use Rattle.ckr_points.specs.Marks.{mark_now};
ghost use Rattle.ckr_points.specs.Restart.{rcs_before, syschk_name};
ghost use Rattle.ckr_points.specs.Syschk.{names_its_set};
ghost use Rattle.ckr_points.specs.Tables.{kept_entry};
ghost use Rattle.ckr_points_runs.specs.RunJobs.{effective, is_within_limits, IsFitting};
ghost use Rattle.ckr_points_tables.specs.Selection.{begun_facts, carried_in, carried_marks, entries_in, prepared, resumed, resumed_at_entry, resumed_at_start, resumption_of, HasLostRoom};
ghost use Rattle.ckr_points_runs.specs.View.{code_of, facts_of, point_of, seen_by, table_of, written_of};
ghost use Rattle.ckr_points_tables.specs.View.{point_for};

use crate::restart::{count_of, entry_for, marks_of, passed_of, writes_of};
use crate::rooms::dds_of;
use ckr_base::{CheckId, DsName, NoMemory, RoomyList};
use ckr_entry::{Mark, Marks, Passed, PassedList};
use ckr_jcl::Job;
use ckr_library::{Kept, Library};
use ckr_meaning::Place;
use ckr_points::{kept_under, syschk_name};
use ckr_points_runs::{
    EffectiveJob, InEffect, LostNames, Marking, MarksInOrder, ReturnCode, RunTable, StepPoint,
    StepPoints, WrittenEntries, has_step, mark_job, point_at, put_marks, put_passed,
};
use std::alloc::Global;

/// Where a run goes on that continues another one, and what its point has.
#[derive(Drop)]
pub(crate) struct Resumption<'a> {
    pub(crate) place: Place,
    pub(crate) count: u32,
    pub(crate) marks: &'a [Mark],
    pub(crate) passed: &'a [Passed],
    pub(crate) in_effect: Option<InEffect>,
}

/// The name of the data set of a deck's SYSCHK, if it has one.
fn set_name(deck: &Job) -> Option<&DsName>
    requires { names_its_set deck.now.syschk ≡ true }
    ensures { option_map_or (λ (name : Name). name) (option_copied result) [] ≡ syschk_name deck.now }
{
    match &deck.syschk {
        Some(dd) => syschk_name(dd),
        None => None,
    }
}

/// No data set has an empty name.
fn no_set_without_name(library: &Library)
    ensures { entry_at library.now.sets [] ≡ None }
{
    if let Some(first) = library.name_at(0) {
        let _ = first.text();
    }
}

/// The same entry.
fn copy_of_kept(kept: &Kept) -> Kept
    ensures { result ≡ kept.now }
{
    Kept {
        id: kept.id.copied(),
        run: kept.run,
        place: kept.place,
        bytes: kept.bytes,
    }
}

/// A run goes on at the start of a step.
fn at_start(step: u8, point: &StepPoint) -> Resumption<'_>
    ensures { resumption_of result ≡ resumed_at_start step (point_of point.now) }
{
    Resumption {
        place: Place::Opened(step),
        count: point.count,
        marks: point.marks.as_slice(),
        passed: point.passed.as_slice(),
        in_effect: None,
    }
}

/// A run goes on at an entry that the data set of a name keeps, which is then in effect.
fn at_entry<'a>(
    step: u8,
    set: &DsName,
    kept: &Kept,
    writings: &'a [WrittenEntries],
) -> Resumption<'a>
    ensures { resumption_of result ≡ resumed_at_entry step set.now (kept_entry kept.now (point_for (map written_of writings.now) set.now kept.now)) }
{
    let point = entry_for(writings, set, kept);
    Resumption {
        place: Place::Within(step, writes_of(point)),
        count: count_of(point),
        marks: marks_of(point),
        passed: passed_of(point),
        in_effect: Some(InEffect {
            set: set.copied(),
            kept: copy_of_kept(kept),
            restarts: 0,
            rewritten: false,
        }),
    }
}

/// A run goes on at the entry of an identifier that the data set of a deck's SYSCHK keeps. None where it keeps none.
fn at_entry_of<'a>(
    deck: &Job,
    step: u8,
    id: &CheckId,
    library: &Library,
    writings: &'a [WrittenEntries],
) -> Option<Resumption<'a>>
    requires { names_its_set deck.now.syschk ≡ true }
    ensures { option_map resumption_of result ≡ option_map (resumed_at_entry step (syschk_name deck.now)) (entries_in (map written_of writings.now) library.now.sets (syschk_name deck.now) id.now) }
{
    let Some(set) = set_name(deck) else {
        no_set_without_name(library);
        return None;
    };
    match kept_under(library, set, id) {
        Some(kept) => Some(at_entry(step, set, kept, writings)),
        None => None,
    }
}

/// Where a run with this deck goes on, by the step point of the earlier run's step: there, or at the entry of an identifier. None where
/// that isn't kept.
pub(crate) fn resumption_for<'a>(
    deck: &Job,
    step: u8,
    point: &'a StepPoint,
    id: &Option<CheckId>,
    library: &Library,
    writings: &'a [WrittenEntries],
) -> Option<Resumption<'a>>
    requires { names_its_set deck.now.syschk ≡ true }
    ensures { option_map resumption_of result ≡ resumed (entries_in (map written_of writings.now) library.now.sets) deck.now step (point_of point.now) id.now }
{
    match id {
        Some(id) => at_entry_of(deck, step, id, library, writings),
        None => Some(at_start(step, point)),
    }
}

/// The marks of a run's names: those of a point, and of other names as the data sets are.
fn carried_marks(
    alloc: Global,
    run: u32,
    job: &EffectiveJob,
    carried: &[Mark],
    library: &Library,
) -> Result<Marks, NoMemory>
    requires fits { IsFitting (effective run job.now) }
    ensures { IfOk result (λ marks. marks.items ≡ carried_marks (mark_now (seen_by table_of library.now.sets)) run job.now carried.now) }
{
    let marking = Marking {
        run,
        job,
        own_from: job.count_steps(),
        carried,
        library,
    };
    let names = dds_of(run, job);
    let mut sorted = MarksInOrder::new(alloc);
    sorted.reserve(names)?;
    mark_job(&marking, &mut sorted);
    let mut marks = Marks::new(alloc);
    marks.reserve(names)?;
    put_marks(sorted.as_slice(), &mut marks);
    Ok(marks)
}

/// The same passed list.
fn passed_list(alloc: Global, items: &[Passed]) -> Result<PassedList, NoMemory>
    ensures { IfOk result (λ list. list.items ≡ items.now) }
{
    let Ok(more) = u32::try_from(items.len()) else {
        return Err(NoMemory);
    };
    let mut passed = PassedList::new(alloc);
    passed.reserve(more)?;
    put_passed(items, &mut passed);
    Ok(passed)
}

/// The step point that a run begins with, by that of the earlier run's step.
fn carried_point(
    alloc: Global,
    run: u32,
    job: &EffectiveJob,
    point: &StepPoint,
    library: &Library,
) -> Result<StepPoint, NoMemory>
    requires fits { IsFitting (effective run job.now) }
    ensures { IfOk result (λ carried. point_of carried ≡ carried_in (mark_now (seen_by table_of library.now.sets)) run job.now (point_of point.now)) }
{
    let marks = carried_marks(alloc, run, job, point.marks.as_slice(), library)?;
    let passed = passed_list(alloc, point.passed.as_slice())?;
    Ok(StepPoint {
        step: point.step,
        restarts: 0,
        rewritten: point.rewritten,
        count: point.count,
        marks,
        passed,
    })
}

/// One step point.
fn one_point(alloc: Global, point: StepPoint) -> Result<StepPoints, NoMemory>
    ensures { IfOk result (λ points. map point_of points.items ≡ point_of point ∷ []) }
{
    let mut points = StepPoints::new(alloc);
    points.reserve(1)?;
    points.put(point);
    Ok(points)
}

/// The return codes of the steps before one.
fn codes_before(
    alloc: Global,
    step: u8,
    codes: &[ReturnCode],
) -> Result<RoomyList<ReturnCode>, NoMemory>
    ensures { IfOk result (λ before. map code_of before.items ≡ rcs_before step (map code_of codes.now)) }
{
    let mut before = RoomyList::new(alloc);
    for code in codes {
        if code.step < step {
            before.push(*code)?;
        }
    }
    Ok(before)
}

/// Room for the loss of this many names.
fn lost_room(alloc: Global, count: usize) -> Result<LostNames, NoMemory>
    ensures { IfOk result (λ lost. (lost.items ≡ []) × (vec_len lost + count ≤ vec_capacity lost)) }
{
    let mut lost = Vec::new(alloc);
    lost.reserve(count)?;
    Ok(lost)
}

/// A run with this job that goes on so, by the step point of the earlier run's step.
fn table_at(
    alloc: Global,
    run: u32,
    job: EffectiveJob,
    codes: RoomyList<ReturnCode>,
    point: &StepPoint,
    at: Resumption<'_>,
    library: &Library,
) -> Result<RunTable, NoMemory>
    requires fits { IsFitting (effective run job) }
    ensures facts { IfOk result (λ table. facts_of table ≡ begun_facts (mark_now (seen_by table_of library.now.sets)) run job (map code_of codes.items) (point_of point.now) (resumption_of at.entry)) }
    ensures room { IfOk result (λ table. HasLostRoom table) }
{
    let carried = carried_point(alloc, run, &job, point, library)?;
    Ok(RunTable {
        points: one_point(alloc, carried)?,
        passed: passed_list(alloc, at.passed)?,
        lost: lost_room(alloc, at.passed.len())?,
        job,
        place: Some(at.place),
        code: None,
        count: at.count,
        codes,
        in_effect: at.in_effect,
    })
}

/// A run with a deck as it goes on that continues a run of this number at a step, at its start or at an entry. None where the earlier
/// run has no such step or no step point of it, and where the entry isn't kept.
pub(crate) fn continuation(
    alloc: Global,
    run: u32,
    own: &EffectiveJob,
    number: u32,
    earlier: &RunTable,
    step: u8,
    id: &Option<CheckId>,
    library: &Library,
    writings: &[WrittenEntries],
) -> Result<Option<RunTable>, NoMemory>
    requires run { run ≤ 9999999 }
    requires limits { IsTrue (is_within_limits own.now.deck) }
    requires fits { IsFitting (effective number earlier.now.job) }
    requires syschk { names_its_set own.now.deck.syschk ≡ true }
    ensures facts { IfOk result (λ next. option_map facts_of next ≡ prepared (mark_now (seen_by table_of library.now.sets)) (entries_in (map written_of writings.now) library.now.sets) run number own.now.deck (facts_of earlier.now) step id.now) }
    ensures room { IfOk result (λ next. IfSome next HasLostRoom) }
{
    if !has_step(&earlier.job, step) {
        return Ok(None);
    }
    let Some(point) = point_at(earlier.points.as_slice(), step) else {
        return Ok(None);
    };
    let Some(at) = resumption_for(own.deck(), step, point, id, library, writings) else {
        return Ok(None);
    };
    let job = own.continued(alloc, number, &earlier.job, step)?;
    let codes = codes_before(alloc, step, earlier.codes.as_slice())?;
    let table = table_at(alloc, run, job, codes, point, at, library)?;
    Ok(Some(table))
}
