//! The selection of a run that continues another one: what is put back, and which passed names the run loses.
ghost use Rattle.std.specs.Prelude.{◌≡◌, ◌≤◌, ◌<◌, ◌+◌, ◌&&◌, ◌++◌, ◌∷◌, [], false, length, slice_get, map, true, vec_len, vec_capacity, IfSome, Option, Some};
ghost use Rattle.std.specs.List.{list_any};
ghost use Rattle.std.specs.Option.{is_none, option_copied, option_map, option_map_or, option_or};
ghost use Rattle.ckr_events.specs.declared.event.Event.TheVariants.{Selected};
ghost use Rattle.ckr_jcl.specs.declared.deck.Job.{Job as JobOfDeck};
ghost use Rattle.ckr_jcl.specs.declared.deck.Step.{Step as StepOfDeck};
ghost use Rattle.ckr_library.specs.NameMaps.{entry_at, EachEntry};
ghost use Rattle.ckr_meaning.specs.EffectiveJob.{is_among, names_of, owned_by, step_at, OwnedStep as StepWithOwner};
ghost use Rattle.ckr_points.specs.Marks.{deck_names, is_as_marked, point_at, present_at, same_stamp, still_exists};
ghost use Rattle.ckr_points.specs.Restart.{after_event, without_names};
ghost use Rattle.ckr_points.specs.Rows.{StartPoint, TableSet};
ghost use Rattle.ckr_points.specs.Syschk.{names_its_set};
ghost use Rattle.ckr_entry.specs.declared.point.Present.{Present as PresentInMark};
ghost use Rattle.ckr_points_tables.specs.Invariant.{HasRoom, MayContinue, MayFollow};
ghost use Rattle.ckr_points_runs.specs.PutBack.{catalogs_back, IsFilled};
ghost use Rattle.ckr_points_runs.specs.RunJobs.{effective, names_in, own_of, IsFitting};
ghost use Rattle.ckr_points_runs.specs.RunMarks.{names_from, own_names_of};
ghost use Rattle.ckr_points_tables.specs.Selection.{entries_in, lost_by, printed_names, resumed, sets_resumed, HasLostRoom, IsResumed, Resumption as ResumptionOfRun};
ghost use Rattle.ckr_points_runs.specs.View.{facts_of, seen_by, table_of, written_of};

use crate::Tables;
use crate::continuation::resumption_for;
use crate::event::put_at;
use crate::restart::go_on;
use ckr_base::{CheckId, DsName};
use ckr_entry::{Mark, Passed, Present};
use ckr_jcl::{Job, Step};
use ckr_library::{DataSet, Library, Stamp};
use ckr_points::{has_sysout_name, present_at};
use ckr_points_runs::{
    EffectiveJob, LostNames, OwnStep, RunTable, WrittenEntries, delete_printed, has_name,
    has_name_from, own_from, point_at, put_back_catalog, put_back_lengths, step_at,
};
use ckr_uses::library_name;

/// Whether a step, if there is one, has the name for the printer.
fn is_printed(root: u32, printing: Option<&OwnStep<'_>>, name: &DsName) -> bool
    requires root { root ≤ 9999999 }
    requires owner { IfSome printing (λ own. own.now.owner ≤ 9999999) }
    ensures { result ≡ is_among (printed_names root (option_map own_of (option_copied printing.entry))) name.now }
{
    match printing {
        Some(own) => has_sysout_name(root, own.owner, own.step, name),
        None => false,
    }
}

/// The names of a step get the catalog marks of their marks, but for those that a step has for the printer.
fn put_back_step(
    root: u32,
    own: &OwnStep<'_>,
    printing: Option<&OwnStep<'_>>,
    marks: &[Mark],
    library: &mut Library,
)
    requires root { root ≤ 9999999 }
    requires owner { own.now.owner ≤ 9999999 }
    requires printing { IfSome printing (λ one. one.now.owner ≤ 9999999) }
    ensures { library.new.sets ≡ catalogs_back marks.now (without_names (printed_names root (option_map own_of (option_copied printing.entry))) (names_of root (own_of own.now))) library.old.sets }
{
    for dd in own.step.dds.as_slice() {
        if let Some(name) = library_name(dd, root, own.owner, &own.step.name)
            && !is_printed(root, printing, &name)
        {
            put_back_catalog(marks, &name, library);
        }
    }
}

/// The names of the step at a place get the catalog marks of their marks, but for those that a step has for the printer.
fn put_back_step_in(
    run: u32,
    job: &EffectiveJob,
    place: usize,
    printing: Option<&OwnStep<'_>>,
    marks: &[Mark],
    library: &mut Library,
)
    requires fits { IsFitting (effective run job.now) }
    requires printing { IfSome printing (λ one. one.now.owner ≤ 9999999) }
    ensures { library.new.sets ≡ catalogs_back marks.now (without_names (printed_names job.now.root (option_map own_of (option_copied printing.entry))) (names_in job.now.root (slice_get (effective run job.now).steps place))) library.old.sets }
{
    if let Some(own) = job.step_in(run, place) {
        put_back_step(job.root(), &own, printing, marks, library);
    }
}

/// The names of the steps from a place on get the catalog marks of their marks, but for those that a step has for the printer.
fn put_back_catalogs_from(
    first: usize,
    run: u32,
    job: &EffectiveJob,
    printing: Option<&OwnStep<'_>>,
    marks: &[Mark],
    library: &mut Library,
)
    requires fits { IsFitting (effective run job.now) }
    requires printing { IfSome printing (λ one. one.now.owner ≤ 9999999) }
    ensures { library.new.sets ≡ catalogs_back marks.now (without_names (printed_names job.now.root (option_map own_of (option_copied printing.entry))) (names_from first run job.now)) library.old.sets }
{
    for place in first..job.count_steps() {
        put_back_step_in(run, job, place, printing, marks, library);
    }
}

/// What a point has of the data sets of a run that goes on at a step of another one is put back: the lengths of the step's outputs, and the
/// catalog marks of the names of the step and of the later ones. At the start of the step, its data sets for the printer go and are made anew.
pub(crate) fn put_back_for(
    at_start: bool,
    run: u32,
    job: &EffectiveJob,
    own: &OwnStep<'_>,
    marks: &[Mark],
    library: &mut Library,
)
    requires fits { IsFitting (effective run job.now) }
    requires owner { own.now.owner ≤ 9999999 }
    requires filled { EachEntry IsFilled library.old.sets }
    ensures { library.new.sets ≡ sets_resumed at_start run job.now job.now.earlier_step marks.now (own_of own.now) library.old.sets }
{
    let root = job.root();
    let first = own_from(job);
    if at_start {
        delete_printed(root, own, marks, library);
        put_back_lengths(root, own, marks, library);
        put_back_catalogs_from(first, run, job, Some(own), marks, library);
    } else {
        put_back_lengths(root, own, marks, library);
        put_back_catalogs_from(first, run, job, None, marks, library);
    }
}

/// Whether two stamps are the same.
fn same_stamp(first: &Stamp, second: &Stamp) -> bool
    ensures { result ≡ same_stamp first.now second.now }
{
    first.run == second.run && first.step == second.step && first.rewrites == second.rewrites
}

/// Whether a data set has the stamp, the length and the catalog mark of a mark.
fn is_as_marked(set: &DataSet, present: &Present) -> bool
    ensures { result ≡ is_as_marked (record { set = set.now; entries = [] }) present.now }
{
    same_stamp(&set.stamp, &present.stamp)
        && set.length == present.length
        && set.cataloged == present.cataloged
}

/// Whether a data set is there, as a mark has it.
fn stands_as(name: &DsName, present: &Present, library: &Library) -> bool
    ensures { result ≡ option_map_or (λ (table : TableSet). is_as_marked table present.now) (entry_at (seen_by table_of library.now.sets) name.now) false }
{
    match library.get(name) {
        Some(set) => is_as_marked(set, present),
        None => false,
    }
}

/// Whether a data set is there, as it is marked.
fn stands_as_marked(marks: &[Mark], name: &DsName, library: &Library) -> bool
    ensures { result ≡ option_map_or (λ (present : PresentInMark). option_map_or (λ (table : TableSet). is_as_marked table present) (entry_at (seen_by table_of library.now.sets) name.now) false) (present_at marks.now name.now) false }
{
    match present_at(marks, name) {
        Some(present) => stands_as(name, &present, library),
        None => false,
    }
}

/// Whether one of these steps of a deck has the name, with this root and owner.
fn is_of_steps(root: u32, owner: u32, deck: &Job, steps: &[Step], name: &DsName) -> bool
    requires root { root ≤ 9999999 }
    requires owner { owner ≤ 9999999 }
    ensures { result ≡ list_any (λ (step : StepOfDeck). is_among (names_of root (owned_by owner deck.now step)) name.now) steps.now }
{
    steps.iter().any(|step| has_name(root, &OwnStep { deck, step, owner }, name))
}

/// Whether a deck has the name, with this root and owner.
fn is_of_deck(root: u32, owner: u32, deck: &Job, name: &DsName) -> bool
    requires root { root ≤ 9999999 }
    requires owner { owner ≤ 9999999 }
    ensures { result ≡ is_among (deck_names root owner deck.now) name.now }
{
    is_of_steps(root, owner, deck, deck.steps.as_slice(), name)
}

/// Whether a run names a data set: a step that it executes itself does, or its deck.
fn is_named_by(run: u32, job: &EffectiveJob, name: &DsName) -> bool
    requires run { run ≤ 9999999 }
    requires fits { IsFitting (effective run job.now) }
    ensures { result ≡ is_among (own_names_of run job.now ++ deck_names job.now.root run job.now.deck) name.now }
{
    has_name_from(job, run, own_from(job), name) || is_of_deck(job.root(), run, job.deck(), name)
}

/// Whether a passed name of a point still exists for a run.
fn still_exists(
    run: u32,
    job: &EffectiveJob,
    marks: &[Mark],
    library: &Library,
    name: &DsName,
) -> bool
    requires run { run ≤ 9999999 }
    requires fits { IsFitting (effective run job.now) }
    ensures { result ≡ still_exists marks.now (own_names_of run job.now ++ deck_names job.now.root run job.now.deck) (seen_by table_of library.now.sets) name.now }
{
    is_named_by(run, job, name) && stands_as_marked(marks, name, library)
}

/// A run loses a name. There is a spare place for it.
fn put_lost(name: &DsName, lost: &mut LostNames)
    requires { vec_len lost.old < vec_capacity lost.old }
    ensures items { lost.new.items ≡ lost.old.items ++ name.now ∷ [] }
    ensures len { vec_len lost.new ≡ vec_len lost.old + 1 }
    ensures capacity { vec_capacity lost.old ≤ vec_capacity lost.new }
{
    match lost.push(name.copied()) {
        Ok(()) => {}
        Err(_) => unreachable!(),
    }
}

/// A run loses the passed names that no longer exist for it. There is a spare place for each.
pub(crate) fn lose(
    run: u32,
    job: &EffectiveJob,
    marks: &[Mark],
    passed: &[Passed],
    library: &Library,
    lost: &mut LostNames,
)
    requires run { run ≤ 9999999 }
    requires fits { IsFitting (effective run job.now) }
    requires none { lost.old.items ≡ [] }
    requires room { vec_len lost.old + length passed.now ≤ vec_capacity lost.old }
    ensures { lost.new.items ≡ lost_by run job.now marks.now passed.now library.now.sets }
{
    for one in passed {
        if !still_exists(run, job, marks, library, &one.name) {
            put_lost(&one.name, lost);
        }
    }
}

/// A run that was made beforehand goes on, at the start of a step of the earlier run or at an entry: what its point has of the data sets is put
/// back, and it loses the passed names that no longer exist. It takes no memory. A run stays as it is that has no such step, or
/// whose earlier run has no step point of it, or whose entry isn't kept.
pub(crate) fn resume(
    run: u32,
    step: u8,
    id: &Option<CheckId>,
    next: &mut RunTable,
    earlier: &RunTable,
    library: &mut Library,
    writings: &[WrittenEntries],
)
    requires run { run ≤ 9999999 }
    requires fits { IsFitting (effective run next.old.job) }
    requires at { next.old.job.earlier_step ≡ step }
    requires syschk { names_its_set next.old.job.deck.syschk ≡ true }
    requires filled { EachEntry IsFilled library.old.sets }
    requires none { next.old.lost.items ≡ [] }
    requires room { HasLostRoom next.old }
    ensures { (own : StepWithOwner) (point : StartPoint) (at : ResumptionOfRun) → step_at (effective run next.old.job) step ≡ Some own → point_at (facts_of earlier.now).points step ≡ Some point → resumed (entries_in (map written_of writings.now) library.old.sets) next.old.job.deck step point id.now ≡ Some at → IsResumed (is_none id.now) run step at.marks own (facts_of next.old) (facts_of next.new) library.old.sets library.new.sets }
{
    let Some(own) = step_at(&next.job, run, step) else {
        return;
    };
    let Some(point) = point_at(earlier.points.as_slice(), step) else {
        return;
    };
    let Some(at) = resumption_for(next.job.deck(), step, point, id, library, writings) else {
        return;
    };
    put_back_for(id.is_none(), run, &next.job, &own, at.marks, library);
    lose(
        run,
        &next.job,
        at.marks,
        next.passed.as_slice(),
        library,
        &mut next.lost,
    );
}

/// A run goes on as it was made beforehand, with the checkpoint in effect at which it goes on, or else the one that it had.
fn go_on_as(next: RunTable, table: &mut RunTable)
    ensures { facts_of table.new ≡ record (facts_of next) { in_effect = option_or (facts_of next).in_effect (facts_of table.old).in_effect } }
{
    let mut next = next;
    if next.in_effect.is_none() {
        next.in_effect = table.in_effect.take();
    }
    *table = next;
}

impl Tables {
    /// A run goes on, on an initiator, where it continues an earlier one: at the start of a step of it, or at an entry. It was made
    /// beforehand. It takes no memory.
    pub(crate) fn continue_run(
        &mut self,
        number: u32,
        initiator: u8,
        earlier: u32,
        step: u8,
        id: &Option<CheckId>,
    )
        requires earlier { 1 ≤ earlier }
        requires follows { (deck : Option JobOfDeck) → MayFollow self.old.desk (Selected number initiator earlier step id.now) deck }
        requires room { HasRoom self.old (Selected number initiator earlier step id.now) }
        requires continues { MayContinue (Selected number initiator earlier step id.now) self.old.desk }
        ensures { (deck : Option JobOfDeck) → self.new.desk ≡ after_event (Selected number initiator earlier step id.now) deck self.old.desk }
    {
        let Some(mut next) = self.spare.next.take() else {
            return;
        };
        let place = number as usize - 1;
        resume(
            number,
            step,
            id,
            &mut next,
            &self.tables[earlier as usize - 1],
            &mut self.library,
            self.writings.as_slice(),
        );
        let before = self.lines[place].initiator;
        go_on(initiator, &mut self.lines[place]);
        go_on_as(next, &mut self.tables[place]);
        put_at(&mut self.index, before, 0);
        put_at(&mut self.index, Some(initiator), number);
        self.ended = self.ended.min(place);
        self.changed = self.changed.max(number as usize);
    }
}
