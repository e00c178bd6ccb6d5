//! The marks of an entry: one for each name of the job, in ascending order. Names of the run's own steps are marked as the data sets are behind
//! the checkpoint; others carry over the mark of the point from which the run was continued.
ghost use Rattle.std.specs.Prelude.{◌≡◌, ◌≤◌, [], false, true, suc, pred, IfOk, OnOk, IsTrue, length, slice_get};
ghost use Rattle.std.specs.List.{list_any, AllByRecursion};
ghost use Rattle.std.specs.Option.{option_map_or, option_to_list};
ghost use Rattle.std.specs.Ordering.{is_gt};
ghost use Rattle.ckr_entry.specs.Numbers.{given};
ghost use Rattle.ckr_entry.specs.Sets.{present};
ghost use Rattle.ckr_entry.specs.declared.point.Mark.{Mark as MarkOfName};
ghost use Rattle.ckr_library.specs.NameMaps.{name_cmp, same_name, with_entry};
ghost use Rattle.ckr_meaning.specs.EffectiveJob.{is_among, name_of, names_of, names_of_job, step_at};
ghost use Rattle.ckr_points.specs.Marks.{first_volume, mark_at, marks_for};
ghost use Rattle.ckr_points_tables.specs.RunJobs.{effective, names_in, own_of};
ghost use Rattle.ckr_points_tables.specs.RunMarks.{carried_by};
ghost use Rattle.ckr_points_tables.specs.View.{facts_of};
ghost use Rattle.ckr_points_tables.specs.MarkOrder.{are_in_order, has_name, marked, marked_onto, place_in};
ghost use Rattle.ckr_desk_plans.specs.EntryMarks.{carried_behind, is_output_of, length_of, mark_behind, now_behind, own_names_behind, present_behind, AreOwnNames, MayMark};
ghost use Rattle.ckr_desk_plans.specs.EntryTypes.{IsTypedMark};

use crate::RunningStep;
use ckr_base::{DsName, NoMemory};
use ckr_entry::{Mark, Marks, Present};
use ckr_jcl::Dd;
use ckr_library::{DataSet, Library, Part, Stamp};
use ckr_points::mark_at;
use ckr_points_library::output_name;
use ckr_points_tables::{OwnStep, RunTable, point_at, step_at};
use ckr_uses::library_name;
use std::alloc::Global;

/// What the marks are taken from.
#[derive(Drop)]
pub(crate) struct Behind<'a> {
    /// What the tables keep of the run.
    pub(crate) table: &'a RunTable,
    /// The step that it is in, with the run that owns it.
    pub(crate) own: &'a OwnStep<'a>,
    /// The running step, whose data sets have the lengths that they have by now.
    pub(crate) on: &'a RunningStep,
    /// The data sets, with the lengths that are committed.
    pub(crate) committed: &'a Library,
    /// The name of the step's data set for checkpoints.
    pub(crate) check: &'a DsName,
    /// The length that it has behind the checkpoint.
    pub(crate) end: u32,
}

/// Whether a data set of this name is an output of the step.
fn is_output(behind: &Behind<'_>, name: &DsName) -> bool
    requires { MayMark behind.now }
    ensures { result ≡ is_output_of behind.now name.now }
{
    let root = behind.table.job.root();
    let own = behind.own;
    for dd in own.step.dds.as_slice() {
        if let Some(output) = output_name(dd, root, own.owner, own.step) {
            if name.is_same(&output) {
                return true;
            }
        }
    }
    false
}

/// The length of a data set: an output has the one that the step gives it, another one that which is committed.
fn length_of(behind: &Behind<'_>, name: &DsName, set: &DataSet) -> u32
    requires { MayMark behind.now }
    ensures { result ≡ length_of behind.now name.now set.now }
{
    if !is_output(behind, name) {
        return set.length;
    }
    if name.is_same(behind.check) {
        return behind.end;
    }
    match behind.on.sets.get(name) {
        Some(own) => own.length,
        None => 0,
    }
}

/// The volume of a data set's first part.
fn first_volume(parts: &[Part]) -> u8
    ensures { result ≡ first_volume parts.now }
{
    match parts.first() {
        Some(part) => part.volume,
        None => 0,
    }
}

/// What a mark says of a data set.
fn present_of(behind: &Behind<'_>, name: &DsName, set: &DataSet) -> Present
    requires { MayMark behind.now }
    ensures { result ≡ present_behind behind.now name.now set.now }
{
    Present {
        volume: first_volume(set.parts.as_slice()),
        lrecl: set.lrecl,
        space: set.space,
        length: length_of(behind, name, set),
        cataloged: set.cataloged,
        stamp: set.stamp,
    }
}

/// A name as the data sets are behind the checkpoint: absent where there is no data set of this name.
fn mark_now(behind: &Behind<'_>, name: DsName) -> Mark
    requires { MayMark behind.now }
    ensures { result ≡ now_behind behind.now name }
{
    let present = match behind.committed.get(&name) {
        Some(set) => Some(present_of(behind, &name, set)),
        None => None,
    };
    Mark { name, present }
}

/// What a mark says of a data set, again. Its numbers have the widths of their types.
fn copy_of_present(found: Option<Present>) -> Option<Present>
    ensures value { result ≡ found }
    ensures typed { (given present).fits result }
{
    match found {
        None => None,
        Some(set) => Some(Present {
            volume: set.volume,
            lrecl: set.lrecl,
            space: set.space,
            length: set.length,
            cataloged: set.cataloged,
            stamp: Stamp {
                run: set.stamp.run,
                step: set.stamp.step,
                rewrites: set.stamp.rewrites,
            },
        }),
    }
}

/// The same mark.
fn copy_of_mark(mark: &Mark) -> Mark
    ensures value { result ≡ mark.now }
    ensures typed { IsTypedMark result }
{
    let _grammar = mark.name.text();
    Mark {
        name: mark.name.copied(),
        present: copy_of_present(mark.present),
    }
}

/// Whether the data set of a DD has this name.
fn is_named(root: u32, own: &OwnStep<'_>, dd: &Dd, name: &DsName) -> bool
    requires root { root ≤ 9999999 }
    requires owner { own.now.owner ≤ 9999999 }
    ensures { result ≡ option_map_or (same_name name.now) (name_of root (own_of own.now) dd.now) false }
{
    match library_name(dd, root, own.owner, &own.step.name) {
        Some(other) => name.is_same(&other),
        None => false,
    }
}

/// Whether one of these DDs has the data set of this name.
fn is_any_named(root: u32, own: &OwnStep<'_>, dds: &[Dd], name: &DsName) -> bool
    requires root { root ≤ 9999999 }
    requires owner { own.now.owner ≤ 9999999 }
    ensures { result ≡ list_any (λ dd. option_map_or (same_name name.now) (name_of root (own_of own.now) dd) false) dds.now }
{
    dds.iter().any(|dd| is_named(root, own, dd, name))
}

/// Whether the step of a number has the name, if the run has that step.
fn has_name_at(behind: &Behind<'_>, step: u8, name: &DsName) -> bool
    requires { MayMark behind.now }
    ensures { result ≡ is_among (names_in behind.now.table.now.job.root (step_at (effective behind.now.on.now.run behind.now.table.now.job) step)) name.now }
{
    match step_at(&behind.table.job, behind.on.run, step) {
        Some(own) => {
            let dds = own.step.dds.as_slice();
            is_any_named(behind.table.job.root(), &own, dds, name)
        }
        None => false,
    }
}

/// The number of the first step that a run executes itself, from 1.
fn first_own(table: &RunTable) -> u8
    ensures { result ≡ suc (pred table.now.job.earlier_step) }
{
    let step = table.job.earlier_step();
    if step == 0 { 1 } else { step }
}

/// Whether a name is one of the steps that the run executes itself. A job has at most 64 steps.
fn is_own_name(behind: &Behind<'_>, name: &DsName) -> bool
    requires { MayMark behind.now }
    ensures { result ≡ is_among (own_names_behind behind.now) name.now }
{
    for step in first_own(behind.table)..65 {
        if has_name_at(behind, step, name) {
            return true;
        }
    }
    false
}

/// The marks of the point of a step, and none where the run has no such point.
fn marks_at(table: &RunTable, step: u8) -> &[Mark]
    ensures { result.now ≡ carried_by (facts_of table.now).points step }
{
    match point_at(table.points.as_slice(), step) {
        Some(point) => point.marks.as_slice(),
        None => &[],
    }
}

/// The marks of the point from which the run was continued, and none where it wasn't.
fn carried_marks<'a>(behind: &Behind<'a>) -> &'a [Mark]
    ensures { result.now ≡ carried_behind behind.now }
{
    marks_at(behind.table, behind.table.job.earlier_step())
}

/// The mark that was carried over for a name, or else the name as the data sets are.
fn carried_mark(behind: &Behind<'_>, name: DsName) -> Mark
    requires { MayMark behind.now }
    ensures { result ≡ option_map_or (λ (mark : MarkOfName). mark) (mark_at (carried_behind behind.now) name) (now_behind behind.now name) }
{
    match mark_at(carried_marks(behind), &name) {
        Some(mark) => copy_of_mark(mark),
        None => mark_now(behind, name),
    }
}

/// The mark of a name, which may be known to be one of the run's own.
fn mark_of(behind: &Behind<'_>, name: DsName, own: bool) -> Mark
    requires may { MayMark behind.now }
    requires own { own ≡ true → is_among (own_names_behind behind.now) name ≡ true }
    ensures { result ≡ mark_behind behind.now name }
{
    if own || is_own_name(behind, &name) {
        mark_now(behind, name)
    } else {
        carried_mark(behind, name)
    }
}

/// Whether the first name stands above the second one.
fn is_above(name: &DsName, other: &DsName) -> bool
    ensures { result ≡ is_gt (name_cmp name.now other.now) }
{
    name.cmp(other).is_gt()
}

/// The place of a name: that of its mark, or where that is to stand.
fn place_of(items: &[Mark], name: &DsName) -> usize
    requires { IsTrue (are_in_order items.now) }
    ensures place { result ≡ place_in name.now items.now }
    ensures bound { result ≤ length items.now }
{
    items.partition_point(|mark| is_above(name, &mark.name))
}

/// Whether the mark at a place has this name.
fn has_name(items: &[Mark], place: usize, name: &DsName) -> bool
    ensures { result ≡ has_name name.now (slice_get items.now place) }
{
    match items.get(place) {
        Some(mark) => name.is_same(&mark.name),
        None => false,
    }
}

/// Puts a mark at the place of its name, in place of the one that was there.
fn enter(items: &mut Vec<Mark>, mark: Mark) -> Result<(), NoMemory>
    requires { IsTrue (are_in_order items.old.items) }
    ensures items { OnOk result (marked items.new.items ≡ with_entry mark.name mark (marked items.old.items)) }
    ensures order { OnOk result (IsTrue (are_in_order items.new.items)) }
{
    let place = place_of(items.as_slice(), &mark.name);
    if has_name(items.as_slice(), place, &mark.name) {
        items[place] = mark;
        return Ok(());
    }
    items.insert(place, mark)?;
    Ok(())
}

/// Enters the mark of a DD's name, if it has a data set. It may be known to be one of the run's own.
fn mark_dd(
    behind: &Behind<'_>,
    root: u32,
    own: &OwnStep<'_>,
    dd: &Dd,
    known: bool,
    items: &mut Vec<Mark>,
) -> Result<(), NoMemory>
    requires may { MayMark behind.now }
    requires root { root ≤ 9999999 }
    requires owner { own.now.owner ≤ 9999999 }
    requires known { known ≡ true → AreOwnNames behind.now (option_to_list (name_of root (own_of own.now) dd.now)) }
    requires order { IsTrue (are_in_order items.old.items) }
    ensures items { OnOk result (marked items.new.items ≡ marked_onto (mark_behind behind.now) (option_to_list (name_of root (own_of own.now) dd.now)) (marked items.old.items)) }
    ensures order { OnOk result (IsTrue (are_in_order items.new.items)) }
{
    match library_name(dd, root, own.owner, &own.step.name) {
        Some(name) => enter(items, mark_of(behind, name, known)),
        None => Ok(()),
    }
}

/// Enters the marks of a step's names, which may be known to be the run's own.
fn mark_step(
    behind: &Behind<'_>,
    root: u32,
    own: &OwnStep<'_>,
    known: bool,
    items: &mut Vec<Mark>,
) -> Result<(), NoMemory>
    requires may { MayMark behind.now }
    requires root { root ≤ 9999999 }
    requires owner { own.now.owner ≤ 9999999 }
    requires known { known ≡ true → AreOwnNames behind.now (names_of root (own_of own.now)) }
    requires order { IsTrue (are_in_order items.old.items) }
    ensures items { OnOk result (marked items.new.items ≡ marked_onto (mark_behind behind.now) (names_of root (own_of own.now)) (marked items.old.items)) }
    ensures order { OnOk result (IsTrue (are_in_order items.new.items)) }
{
    let dds = own.step.dds.as_slice();
    let mut left = dds.len();
    while left > 0 {
        left -= 1;
        mark_dd(behind, root, own, &dds[left], known, items)?;
    }
    Ok(())
}

/// Enters the marks of the names of the step of a number, if the run has one.
fn mark_step_at(behind: &Behind<'_>, step: u8, items: &mut Vec<Mark>) -> Result<(), NoMemory>
    requires may { MayMark behind.now }
    requires order { IsTrue (are_in_order items.old.items) }
    ensures items { OnOk result (marked items.new.items ≡ marked_onto (mark_behind behind.now) (names_in behind.now.table.now.job.root (step_at (effective behind.now.on.now.run behind.now.table.now.job) step)) (marked items.old.items)) }
    ensures order { OnOk result (IsTrue (are_in_order items.new.items)) }
{
    match step_at(&behind.table.job, behind.on.run, step) {
        Some(own) => mark_step(
            behind,
            behind.table.job.root(),
            &own,
            first_own(behind.table) <= step,
            items,
        ),
        None => Ok(()),
    }
}

/// The marks of all names of a run. It has at most 64 steps.
fn mark_job(alloc: Global, behind: &Behind<'_>) -> Result<Vec<Mark>, NoMemory>
    requires { MayMark behind.now }
    ensures items { IfOk result (λ items. items.items ≡ marks_for (mark_behind behind.now) (names_of_job (effective behind.now.on.now.run behind.now.table.now.job))) }
    ensures order { IfOk result (λ items. IsTrue (are_in_order items.items)) }
{
    let mut items = Vec::new(alloc);
    let mut left = 64;
    while left > 0 {
        mark_step_at(behind, left, &mut items)?;
        left -= 1;
    }
    Ok(items)
}

/// The marks of all names of a run, as a point has them, in ascending order of the names.
///
/// `NoMemory`: there is none for them.
pub(crate) fn marks_of(alloc: Global, behind: &Behind<'_>) -> Result<Marks, NoMemory>
    requires { MayMark behind.now }
    ensures items { IfOk result (λ marks. marks.items ≡ marks_for (mark_behind behind.now) (names_of_job (effective behind.now.on.now.run behind.now.table.now.job))) }
    ensures order { IfOk result (λ marks. IsTrue (are_in_order marks.items)) }
    ensures typed { IfOk result (λ marks. AllByRecursion IsTypedMark marks.items) }
{
    let items = mark_job(alloc, behind)?;
    let mut marks = Marks::new(alloc);
    for mark in items.as_slice() {
        marks.push(copy_of_mark(mark))?;
    }
    Ok(marks)
}
