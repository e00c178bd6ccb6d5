//! The marks of a run's names, as the tables are now.
ghost use Rattle.std.specs.Prelude.{◌≡◌, ◌+◌, ◌≤◌, [], ◌++◌, Some, length, List, map, pred, slice_get, true};
ghost use Rattle.std.specs.Option.{option_map, option_map_or, option_to_list};
ghost use Rattle.ckr_library.specs.NameMaps.{entry_at};
ghost use Rattle.ckr_meaning.specs.EffectiveJob.{is_among, name_of, names_of, names_of_job};
ghost use Rattle.ckr_points.specs.Marks.{first_volume, mark_at, mark_now, marks_for, present_of};
ghost use Rattle.ckr_points_runs.specs.MarkOrder.{marked, marked_onto};
ghost use Rattle.ckr_entry.specs.declared.point.Mark.{Mark as MarkOfName};
ghost use Rattle.ckr_points_runs.specs.RunMarks.{marking_mark, marking_names, names_from, AreOwn};
ghost use Rattle.ckr_points_runs.specs.RunJobs.{effective, names_in, own_of, IsFitting};
ghost use Rattle.ckr_points_runs.specs.View.{seen_by, table_of};

use crate::made_names::has_name_from;
use crate::marking::Marking;
use crate::marks_in_order::MarksInOrder;
use crate::start::copy_of_mark;
use crate::{EffectiveJob, OwnStep};
use ckr_base::DsName;
use ckr_entry::{Mark, Present};
use ckr_jcl::Dd;
use ckr_library::{DataSet, Library, Part};
use ckr_points::mark_at;
use ckr_uses::library_name;

/// The volume of a data set's first part.
fn first_volume(parts: &[Part]) -> u8
    ensures { result ≡ first_volume parts.now }
{
    match parts.first() {
        Some(part) => part.volume,
        None => 0,
    }
}

/// What a mark says of a data set.
fn present_of(set: &DataSet) -> Present
    ensures { result ≡ present_of (record { set = set.now; entries = [] }) }
{
    Present {
        volume: first_volume(set.parts.as_slice()),
        lrecl: set.lrecl,
        space: set.space,
        length: set.length,
        cataloged: set.cataloged,
        stamp: set.stamp,
    }
}

/// What a mark says of a name: nothing where there is no data set of this name.
fn present_now(name: &DsName, library: &Library) -> Option<Present>
    ensures { result ≡ option_map present_of (entry_at (seen_by table_of library.now.sets) name.now) }
{
    match library.get(name) {
        Some(set) => Some(present_of(set)),
        None => None,
    }
}

/// A name as the data sets are.
fn mark_now(name: DsName, library: &Library) -> Mark
    ensures { result ≡ mark_now (seen_by table_of library.now.sets) name }
{
    let present = present_now(&name, library);
    Mark { name, present }
}

/// Whether a name is one of those that are marked as the data sets are.
fn is_own_name(marking: &Marking<'_>, name: &DsName) -> bool
    requires fits { IsFitting (effective marking.now.run marking.now.job.now) }
    ensures { result ≡ is_among (marking_names marking.now) name.now }
{
    has_name_from(marking.job, marking.run, marking.own_from, name)
}

/// The place, from 0, of the first step that a run executes itself.
pub fn own_from(job: &EffectiveJob) -> usize
    ensures { result ≡ pred job.now.earlier_step }
{
    usize::from(job.earlier_step()).saturating_sub(1)
}

/// The mark that was carried over for a name, or else the name as the data sets are.
fn carried_mark(name: DsName, marking: &Marking<'_>) -> Mark
    ensures { result ≡ option_map_or (λ (mark : MarkOfName). mark) (mark_at marking.now.carried.now name) (mark_now (seen_by table_of marking.now.library.now.sets) name) }
{
    match mark_at(marking.carried, &name) {
        Some(mark) => copy_of_mark(mark),
        None => mark_now(name, marking.library),
    }
}

/// The mark of a name, which may be known to be one of the run's own.
fn mark_of(name: DsName, own: bool, marking: &Marking<'_>) -> Mark
    requires fits { IsFitting (effective marking.now.run marking.now.job.now) }
    requires own { own ≡ true → is_among (marking_names marking.now) name ≡ true }
    ensures { result ≡ marking_mark marking.now name }
{
    if own || is_own_name(marking, &name) {
        mark_now(name, marking.library)
    } else {
        carried_mark(name, marking)
    }
}

/// Enters the mark of a DD's name, if it has a data set. There is a spare place for it.
fn mark_dd(step: &OwnStep<'_>, dd: &Dd, own: bool, marking: &Marking<'_>, marks: &mut MarksInOrder)
    requires fits { IsFitting (effective marking.now.run marking.now.job.now) }
    requires owner { step.now.owner ≤ 9999999 }
    requires own { own ≡ true → AreOwn marking.now (option_to_list (name_of marking.now.job.now.root (own_of step.now) dd.now)) }
    requires room { length (option_to_list (name_of marking.now.job.now.root (own_of step.now) dd.now)) ≤ marks.old.room }
    ensures items { marked marks.new.items ≡ marked_onto (marking_mark marking.now) (option_to_list (name_of marking.now.job.now.root (own_of step.now) dd.now)) (marked marks.old.items) }
    ensures room { marks.old.room ≤ marks.new.room + length (option_to_list (name_of marking.now.job.now.root (own_of step.now) dd.now)) }
{
    if let Some(name) = library_name(dd, marking.job.root(), step.owner, &step.step.name) {
        marks.enter(mark_of(name, own, marking));
    }
}

/// Enters the marks of a step's names, which may be known to be the run's own. There is a spare place for each.
fn mark_step(step: &OwnStep<'_>, own: bool, marking: &Marking<'_>, marks: &mut MarksInOrder)
    requires fits { IsFitting (effective marking.now.run marking.now.job.now) }
    requires owner { step.now.owner ≤ 9999999 }
    requires own { own ≡ true → AreOwn marking.now (names_of marking.now.job.now.root (own_of step.now)) }
    requires room { length (names_of marking.now.job.now.root (own_of step.now)) ≤ marks.old.room }
    ensures items { marked marks.new.items ≡ marked_onto (marking_mark marking.now) (names_of marking.now.job.now.root (own_of step.now)) (marked marks.old.items) }
    ensures room { marks.old.room ≤ marks.new.room + length (names_of marking.now.job.now.root (own_of step.now)) }
{
    let dds = step.step.dds.as_slice();
    let mut left = dds.len();
    while left > 0 {
        left -= 1;
        mark_dd(step, &dds[left], own, marking, marks);
    }
}

/// Enters the marks of the names of the step at a place. There is a spare place for each.
fn mark_step_in(place: usize, marking: &Marking<'_>, marks: &mut MarksInOrder)
    requires fits { IsFitting (effective marking.now.run marking.now.job.now) }
    requires room { length (names_in marking.now.job.now.root (slice_get (effective marking.now.run marking.now.job.now).steps place)) ≤ marks.old.room }
    ensures items { marked marks.new.items ≡ marked_onto (marking_mark marking.now) (names_in marking.now.job.now.root (slice_get (effective marking.now.run marking.now.job.now).steps place)) (marked marks.old.items) }
    ensures room { marks.old.room ≤ marks.new.room + length (names_in marking.now.job.now.root (slice_get (effective marking.now.run marking.now.job.now).steps place)) }
{
    if let Some(step) = marking.job.step_in(marking.run, place) {
        mark_step(&step, marking.own_from <= place, marking, marks);
    }
}

/// The marks of all names of a run, in place of those that the list has. There is a spare place for each, and it takes no memory.
pub fn mark_job(marking: &Marking<'_>, marks: &mut MarksInOrder)
    requires fits { IsFitting (effective marking.now.run marking.now.job.now) }
    requires room { length (names_of_job (effective marking.now.run marking.now.job.now)) ≤ marks.old.room }
    ensures marks { marks.new.items ≡ marks_for (marking_mark marking.now) (names_of_job (effective marking.now.run marking.now.job.now)) }
    ensures few { length marks.new.items ≤ length (names_of_job (effective marking.now.run marking.now.job.now)) }
{
    marks.clear();
    let mut left = marking.job.count_steps();
    while left > 0 {
        left -= 1;
        mark_step_in(left, marking, marks);
    }
}
