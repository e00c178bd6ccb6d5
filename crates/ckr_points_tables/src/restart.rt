//! An automatic restart.
ghost use Rattle.std.specs.Prelude.{◌≡◌, ◌≤◌, ◌<◌, length, map, slice_get, None, Option, Some};
ghost use Rattle.std.specs.Option.{option_copied, option_map};
ghost use Rattle.ckr_base.specs.declared.code.Code.{Code as CodeOfStep};
ghost use Rattle.ckr_events.specs.declared.event.Event.TheVariants.{Restarted};
ghost use Rattle.ckr_jcl.specs.declared.deck.Job.{Job as JobOfDeck};
ghost use Rattle.ckr_library.specs.NameMaps.{EachEntry};
ghost use Rattle.ckr_points.specs.Marks.{point_at, with_point};
ghost use Rattle.ckr_points.specs.Restart.{after_event, effect_restarted, kept_at, point_restarted};
ghost use Rattle.ckr_points.specs.Rows.{EffectPoint, KeptEntry as EntryOfSet, StartPoint};
ghost use Rattle.ckr_points_tables.specs.Invariant.{CanRestart, MayFollow};
ghost use Rattle.ckr_points_runs.specs.PutBack.{IsFilled};
ghost use Rattle.ckr_points_tables.specs.Restart.{back_at_entry, check_restarted, facts_back, line_on, passed_at_entry, passed_at_start, passed_for, point_written, restarted, step_restarted, HasFewRestarts, HasPassedFor};
ghost use Rattle.ckr_points_runs.specs.RunChange.{by_step_of, going};
ghost use Rattle.ckr_points_runs.specs.RunJobs.{effective, IsFitting};
ghost use Rattle.ckr_points_runs.specs.View.{facts_of, writing_of, written_of};
ghost use Rattle.ckr_points_tables.specs.View.{find_last, is_entry, point_for};

use crate::Tables;
use crate::event::put_at;
use ckr_base::{CheckId, DsName};
use ckr_entry::{Mark, Passed};
use ckr_library::{Kept, Library};
use ckr_meaning::Place;
use ckr_points::{Run, RunState, kept_under};
use ckr_points_runs::{
    RunTable, WrittenEntries, WrittenEntry, delete_all_made, point_at, put_back_passed,
    put_back_sets, step_at, step_now,
};

impl Tables {
    /// Goes on by an automatic restart of a run on an initiator, at the checkpoint in effect or at the start of its step. The restart
    /// follows, with any code, and there is room for it, by `make_room`: the tables are those of one more event, Restarted. The
    /// data sets and the passed list are put back to what they were at the point. It takes no memory (this project's profile).
    pub fn restart(&mut self, job: u32, initiator: u8, checkpoint: bool)
        requires follows { (code : CodeOfStep) → MayFollow self.old.desk (Restarted job initiator code checkpoint) None }
        requires room { CanRestart self.old job checkpoint }
        ensures { (code : CodeOfStep) (deck : Option JobOfDeck) → self.new.desk ≡ after_event (Restarted job initiator code checkpoint) deck self.old.desk }
    {
        let place = job as usize - 1;
        let before = self.lines[place].initiator;
        restart_run(
            initiator,
            checkpoint,
            &mut self.lines[place],
            &mut self.tables[place],
            &mut self.library,
            self.writings.as_slice(),
        );
        let after = self.lines[place].initiator;
        put_at(&mut self.index, before, 0);
        put_at(&mut self.index, after, job);
        self.ended = self.ended.min(place);
        self.changed = self.changed.max(job as usize);
    }

    /// How many records the step had taken at the first entry of an identifier that a data set keeps. None exactly where it keeps none.
    pub fn taken_at(&self, set: &DsName, id: &CheckId) -> Option<u32>
        ensures { result ≡ option_map (λ (entry : EntryOfSet). entry.point.taken) (kept_at self.now.desk.sets set.now id.now) }
    {
        let Some(kept) = kept_under(&self.library, set, id) else {
            return None;
        };
        Some(taken_of(entry_for(self.writings.as_slice(), set, kept)))
    }
}

/// A run goes on, on an initiator.
pub(crate) fn go_on(initiator: u8, line: &mut Run)
    ensures { line.new ≡ line_on initiator line.old }
{
    line.state = RunState::On;
    line.initiator = Some(initiator);
}

/// A run is at a place, with so many entries, and waits with no code.
fn go_back(place: Place, count: u32, table: &mut RunTable)
    ensures facts { facts_of table.new ≡ facts_back place count (facts_of table.old) }
{
    table.place = Some(place);
    table.code = None;
    table.count = count;
}

/// A run is restarted once more at the start of a step, and no checkpoint is in effect.
fn count_at_start(step: u8, table: &mut RunTable)
    requires few { (point : StartPoint) → point_at (facts_of table.old).points step ≡ Some point → point.restarts < 255 }
    ensures { (point : StartPoint) → point_at (facts_of table.old).points step ≡ Some point → facts_of table.new ≡ record (facts_of table.old) { points = with_point (point_restarted point) (facts_of table.old).points; in_effect = None } }
{
    table.points.restart(step);
    table.in_effect = None;
}

/// A run goes back to the start of a step. A job without such a step stays as it is, and so does one without its step point.
fn restart_at_start(
    step: u8,
    initiator: u8,
    line: &mut Run,
    table: &mut RunTable,
    library: &mut Library,
)
    requires fits { IsFitting (effective line.old.number table.old.job) }
    requires filled { EachEntry IsFilled library.old.sets }
    requires few { (point : StartPoint) → point_at (facts_of table.old).points step ≡ Some point → point.restarts < 255 }
    requires room { HasPassedFor table.old.passed.room (passed_at_start (facts_of table.old).points step) }
    ensures { going line.new (facts_of table.new) library.new.sets ≡ by_step_of step (step_restarted initiator step (going line.old (facts_of table.old) library.old.sets)) (going line.old (facts_of table.old) library.old.sets) }
{
    let root = table.job.root();
    let Some(own) = step_at(&table.job, line.number, step) else {
        return;
    };
    let Some(point) = point_at(table.points.as_slice(), step) else {
        return;
    };
    let marks = point.marks.as_slice();
    let count = point.count;
    delete_all_made(root, &own, marks, library);
    put_back_sets(root, &own, marks, library);
    put_back_passed(point.passed.as_slice(), &mut table.passed);
    go_back(Place::Opened(step), count, table);
    count_at_start(step, table);
    go_on(initiator, line);
}

/// Whether this is the entry that the data set of a name keeps.
fn is_entry(set: &DsName, kept: &Kept, entry: &WrittenEntry) -> bool
    ensures { result ≡ is_entry set.now kept.now (writing_of entry.now) }
{
    entry.set.is_same(set)
        && entry.id.text().cmp(kept.id.text()).is_eq()
        && entry.place == kept.place
}

/// The last of these entries that is the one that the data set of a name keeps.
fn written_at<'a>(
    entries: &'a [WrittenEntry],
    set: &DsName,
    kept: &Kept,
) -> Option<&'a WrittenEntry>
    ensures { option_map writing_of (option_copied result) ≡ find_last (is_entry set.now kept.now) (map writing_of entries.now) }
{
    let mut found = None;
    for entry in entries {
        if is_entry(set, kept, entry) {
            found = Some(entry);
        }
    }
    found
}

/// What the run at a place has written.
fn written_in(writings: &[WrittenEntries], place: usize) -> Option<&WrittenEntries>
    ensures { option_copied result ≡ slice_get writings.now place }
{
    writings.get(place)
}

/// The entry, with its point, that the data set of a name keeps: the last one that its run wrote there.
pub(crate) fn entry_for<'a>(
    writings: &'a [WrittenEntries],
    set: &DsName,
    kept: &Kept,
) -> Option<&'a WrittenEntry>
    ensures { point_written (option_copied result) ≡ point_for (map written_of writings.now) set.now kept.now }
{
    if kept.run == 0 {
        return None;
    }
    match written_in(writings, kept.run as usize - 1) {
        Some(entries) => written_at(entries.as_slice(), set, kept),
        None => None,
    }
}

/// The marks of a point of an entry.
pub(crate) fn marks_of<'a>(point: Option<&'a WrittenEntry>) -> &'a [Mark]
    ensures { result.now ≡ (point_written (option_copied point.entry)).marks }
{
    match point {
        Some(entry) => entry.marks.as_slice(),
        None => &[],
    }
}

/// What had been passed on at a point of an entry.
pub(crate) fn passed_of<'a>(point: Option<&'a WrittenEntry>) -> &'a [Passed]
    ensures { result.now ≡ (point_written (option_copied point.entry)).passed }
{
    match point {
        Some(entry) => entry.passed.as_slice(),
        None => &[],
    }
}

/// How many records the step had taken at a point of an entry.
fn taken_of(point: Option<&WrittenEntry>) -> u32
    ensures { result ≡ (point_written (option_copied point.entry)).taken }
{
    match point {
        Some(entry) => entry.taken,
        None => 0,
    }
}

/// How many writes the step had made at a point of an entry.
pub(crate) fn writes_of(point: Option<&WrittenEntry>) -> u32
    ensures { result ≡ (point_written (option_copied point.entry)).writes }
{
    match point {
        Some(entry) => entry.writes,
        None => 0,
    }
}

/// How many entries the job had written at a point of an entry.
pub(crate) fn count_of(point: Option<&WrittenEntry>) -> u32
    ensures { result ≡ (point_written (option_copied point.entry)).count }
{
    match point {
        Some(entry) => entry.count,
        None => 0,
    }
}

/// A run is restarted once more at the checkpoint in effect.
fn count_at_entry(table: &mut RunTable)
    requires few { (effect : EffectPoint) → (facts_of table.old).in_effect ≡ Some effect → effect.restarts < 255 }
    ensures { facts_of table.new ≡ record (facts_of table.old) { in_effect = option_map effect_restarted (facts_of table.old).in_effect } }
{
    if let Some(effect) = &mut table.in_effect {
        effect.restarts += 1;
    }
}

/// A run goes back to the point of an entry. A job without such a step stays as it is.
fn restart_at_point(
    step: u8,
    initiator: u8,
    point: Option<&WrittenEntry>,
    line: &mut Run,
    table: &mut RunTable,
    library: &mut Library,
)
    requires fits { IsFitting (effective line.old.number table.old.job) }
    requires filled { EachEntry IsFilled library.old.sets }
    requires few { (effect : EffectPoint) → (facts_of table.old).in_effect ≡ Some effect → effect.restarts < 255 }
    requires room { length (point_written (option_copied point)).passed ≤ table.old.passed.room }
    ensures { (effect : EffectPoint) → (facts_of table.old).in_effect ≡ Some effect → going line.new (facts_of table.new) library.new.sets ≡ by_step_of step (λ own. back_at_entry initiator step effect (going line.old (facts_of table.old) library.old.sets) own (point_written (option_copied point.entry))) (going line.old (facts_of table.old) library.old.sets) }
{
    let root = table.job.root();
    let Some(own) = step_at(&table.job, line.number, step) else {
        return;
    };
    let marks = marks_of(point);
    put_back_sets(root, &own, marks, library);
    put_back_passed(passed_of(point), &mut table.passed);
    go_back(
        Place::Within(step, writes_of(point)),
        count_of(point),
        table,
    );
    count_at_entry(table);
    go_on(initiator, line);
}

/// A run goes back to the checkpoint in effect. A job without such a step stays as it is, and so does one whose entry isn't kept.
fn restart_at_entry(
    step: u8,
    initiator: u8,
    line: &mut Run,
    table: &mut RunTable,
    library: &mut Library,
    writings: &[WrittenEntries],
)
    requires fits { IsFitting (effective line.old.number table.old.job) }
    requires filled { EachEntry IsFilled library.old.sets }
    requires few { (effect : EffectPoint) → (facts_of table.old).in_effect ≡ Some effect → effect.restarts < 255 }
    requires room { HasPassedFor table.old.passed.room (passed_at_entry (map written_of writings.now) library.old.sets (facts_of table.old).in_effect) }
    ensures { going line.new (facts_of table.new) library.new.sets ≡ by_step_of step (check_restarted (map written_of writings.now) initiator step (going line.old (facts_of table.old) library.old.sets)) (going line.old (facts_of table.old) library.old.sets) }
{
    let Some(effect) = &table.in_effect else {
        return;
    };
    let Some(kept) = kept_under(library, &effect.set, &effect.kept.id) else {
        return;
    };
    let point = entry_for(writings, &effect.set, kept);
    restart_at_point(step, initiator, point, line, table, library);
}

/// A run is restarted in its step: at the checkpoint in effect, or at the start of the step.
fn restart_run(
    initiator: u8,
    checkpoint: bool,
    line: &mut Run,
    table: &mut RunTable,
    library: &mut Library,
    writings: &[WrittenEntries],
)
    requires fits { IsFitting (effective line.old.number table.old.job) }
    requires filled { EachEntry IsFilled library.old.sets }
    requires few { HasFewRestarts checkpoint (facts_of table.old) }
    requires room { HasPassedFor table.old.passed.room (passed_for checkpoint (map written_of writings.now) library.old.sets (facts_of table.old)) }
    ensures { going line.new (facts_of table.new) library.new.sets ≡ restarted (map written_of writings.now) checkpoint initiator (going line.old (facts_of table.old) library.old.sets) }
{
    let step = step_now(table);
    if checkpoint {
        restart_at_entry(step, initiator, line, table, library, writings);
    } else {
        restart_at_start(step, initiator, line, table, library);
    }
}
