//! The jobs go on by an event that was written.
ghost use Rattle.std.specs.Prelude.{◌≡◌, ◌∷◌, ◌+◌, ◌-◌, ◌<◌, ◌≤◌, ◌==◌, List, true, false, not, filter, length, map, None, Option, vec_len, vec_capacity};
ghost use Rattle.std.specs.List.{AllByRecursion};
ghost use Rattle.std.specs.Option.{option_map};
ghost use Rattle.std.specs.Rc.{rc_value};
ghost use Rattle.ckr_jcl.specs.declared.deck.Job.{Job as JobOfDeck};
ghost use Rattle.ckr_desk_memory.specs.EventChanges.{check_name_in, point_of, points_behind, queue_after, with_point, without_point, without_run, HasUses, MayQueue};
ghost use Rattle.ckr_desk_memory.specs.RunningSteps.{GoesOn, IsStartedFrom, MayGoBack, MayLookUp, MayRun, StepGoesBack};
ghost use Rattle.ckr_desk_memory.specs.Invariant.{AreJobs, IsAnyAccepted, MayGoOn};
ghost use Rattle.ckr_desk_memory.specs.OwnSets.{CommitsItsOwn};
ghost use Rattle.ckr_desk_memory.specs.OwnSteps.{AreLeft, HoldTheirOwn, KnowsItsPoint, LeavesLeft};
ghost use Rattle.ckr_desk_memory.specs.Parts.{step_seen};
ghost use Rattle.ckr_desk_memory.specs.Plans.{HasCounts};
ghost use Rattle.ckr_desk_memory.specs.Preparation.{HasAgain, HasPointRoom, HasQueueRoom, IsPrepared};
ghost use Rattle.ckr_desk_memory.specs.View.{PointView};
ghost use Rattle.ckr_desk_plans.specs.Model.StepUnit.{AreCounted};
ghost use Rattle.ckr_desk_memory.specs.Rewrite.{HasRecordPlace};
ghost use Rattle.ckr_desk_plans.specs.declared.running_step.RunningStep.{RunningStep as StepOnIt};
ghost use Rattle.ckr_library.specs.Catalog.{records_of};
ghost use Rattle.ckr_points.specs.Follows.{follows};
ghost use Rattle.ckr_points.specs.Restart.{after_event};
ghost use Rattle.ckr_queue.specs.Queue.{queued, state_of, with_entry};
ghost use Rattle.ckr_points_tables.specs.Invariant.{HasRoom, MayContinue, MayCount, MayFollow, MaySubmit};
ghost use Rattle.ckr_desk_turn.specs.Desk.{failed_behind, without_mark};
ghost use Rattle.ckr_desk_turn.specs.Queue.{AreNumbered};
ghost use Rattle.ckr_volumes.specs.declared.layout.Layout.{Layout as LayoutOfDisk};

use crate::found_run::first_on;
use crate::lines::is_on;
use crate::served::{enter, serve};
use crate::start::{start_again, start_step};
use crate::{Jobs, Prepared, RunningStep, StepPoint};
use ckr_base::DsName;
use ckr_desk_plans::place_of;
use ckr_desk_turn::FailedRun;
use ckr_events::Event;
use ckr_jcl::Job;
use ckr_points::step_in;
use ckr_points_tables::{Tables, checkpoint_name, step_at};
use ckr_queue::Queue;
use ckr_uses::Uses;
use std::rc::Rc;

/// A run is queued, for which there is room.
fn queue_run(queue: &mut Queue, number: u32, uses: Uses)
    requires absent { state_of number queue.old.entries ≡ None }
    requires room { 0 < queue.old.room }
    ensures { queue.new.entries ≡ with_entry (queued number uses) queue.old.entries }
{
    match queue.submit(number, uses) {
        Ok(()) => {}
        Err(_) => unreachable!(),
    }
}

/// The queue goes on by an event that follows, by the tables behind it: a run that is restarted is selected where it is on an initiator. The
/// uses are those of a deck that is submitted, which the queue takes, and there is room for it.
fn keep_queue(queue: &mut Queue, event: &Event, uses: &mut Option<Uses>, tables: &Tables)
    requires may { MayQueue event.now queue.old.entries }
    requires room { HasQueueRoom event.now queue.old.room }
    ensures { (deck : Option JobOfDeck) → HasUses event.now deck uses.old → queue.new.entries ≡ queue_after tables.now.desk event.now deck queue.old.entries }
{
    match event {
        Event::Submitted { job, .. } => {
            if let Some(uses) = uses.take() {
                queue_run(queue, *job, uses);
            }
        }
        Event::Selected { job, .. } => queue.take(*job),
        Event::Restarted { job, .. } => {
            if is_on(tables, *job) {
                queue.resume(*job);
            }
        }
        Event::Held { job, .. } => queue.hold(*job),
        Event::Released { job } => {
            queue.release(*job);
        }
        Event::Ended { job, .. } => queue.end(*job),
        Event::Denied { job, .. } | Event::Purged { job } => {
            queue.purge(*job);
        }
        _ => {}
    }
}

/// The running steps of a run go.
pub(crate) fn leave(running: &mut Vec<RunningStep>, run: u32)
    ensures items { running.new.items ≡ filter (λ (on : StepOnIt). not (on.run == run)) running.old.items }
    ensures bound { vec_len running.new ≤ vec_len running.old }
    ensures capacity { vec_capacity running.new ≡ vec_capacity running.old }
{
    running.retain(|on| on.run != run);
}

/// A run isn't marked any more.
fn unmark(failed: &mut Vec<FailedRun>, run: u32)
    ensures { failed.new.items ≡ without_mark run failed.old.items }
{
    failed.retain(|one| one.run != run);
}

/// The name of the data set for checkpoints of the step that a run is in.
fn check_of(tables: &Tables, run: u32) -> Option<DsName>
    requires { MayLookUp tables.now.desk }
    ensures { result ≡ check_name_in tables.now.desk run }
{
    let _lines = tables.runs();
    let Some(table) = tables.run(run) else {
        return None;
    };
    match step_at(&table.job, run, step_in(place_of(table))) {
        Some(own) => checkpoint_name(table.job.root(), &own),
        None => None,
    }
}

/// Where an entry ends that begins at a place and has so many bytes, in records of 256 bytes.
fn end_of(place: u32, bytes: u32) -> u64
    ensures { result ≡ place + records_of bytes }
{
    u64::from(place) + u64::from(bytes).div_ceil(256)
}

/// A run is restarted. At its checkpoint it goes on there, as it was prepared; at the start of its step no step of it is running.
fn restart(
    job: u32,
    checkpoint: bool,
    again: &mut Option<RunningStep>,
    tables: &Tables,
    running: &mut Vec<RunningStep>,
)
    requires { checkpoint ≡ true → MayGoBack job tables.now.desk again.old (vec_capacity running.old - vec_len running.old) }
    ensures back { checkpoint ≡ true → (point : Option PointView) → HasAgain point tables.now.desk job again.old → StepGoesBack point job tables.now.desk (map step_seen running.old.items) (map step_seen running.new.items) }
    ensures start { checkpoint ≡ false → map step_seen running.new.items ≡ without_run job (map step_seen running.old.items) }
{
    if checkpoint {
        start_again(job, again, tables, running);
    } else {
        leave(running, job);
    }
}

/// A run is selected. Where it continues an earlier run at a checkpoint it goes on there, as it was prepared.
fn go_over(
    job: u32,
    earlier: u32,
    checkpoint: bool,
    taken: &mut Option<RunningStep>,
    tables: &Tables,
    running: &mut Vec<RunningStep>,
)
    requires { 0 < earlier → checkpoint ≡ true → MayGoBack job tables.now.desk taken.old (vec_capacity running.old - vec_len running.old) }
    ensures over { 0 < earlier → checkpoint ≡ true → (point : Option PointView) → HasAgain point tables.now.desk job taken.old → StepGoesBack point job tables.now.desk (map step_seen running.old.items) (map step_seen running.new.items) }
    ensures alone { earlier ≡ 0 → running.new.items ≡ running.old.items }
    ensures start { checkpoint ≡ false → running.new.items ≡ running.old.items }
{
    if earlier != 0 {
        if checkpoint {
            start_again(job, taken, tables, running);
        }
    }
}

/// The running steps behind an event, by the tables behind it. The step that starts is at its beginning, that of a run that is restarted at its
/// checkpoint, or goes on with an earlier one at a checkpoint, is at the run's point, and there is room for it. A checkpoint is due of the step
/// whose entry was written, and a cancel of the step that cancels.
fn keep_running(
    event: &Event,
    begun: &mut Option<RunningStep>,
    tables: &Tables,
    running: &mut Vec<RunningStep>,
)
    requires may { MayRun event.now tables.now.desk begun.old (vec_capacity running.old - vec_len running.old) }
    requires counted { AllByRecursion HasCounts (map step_seen running.old.items) }
    ensures { (points : List PointView) → IsStartedFrom event.now tables.now.desk points begun.old → GoesOn event.now tables.now.desk points (map step_seen running.old.items) (map step_seen running.new.items) }
{
    match event {
        Event::Selected {
            job,
            earlier,
            id,
            ..
        } => go_over(*job, *earlier, id.is_some(), begun, tables, running),
        Event::Started { job, step, .. } => start_step(*job, *step, begun, tables, running),
        Event::Restarted {
            job,
            checkpoint,
            ..
        } => restart(*job, *checkpoint, begun, tables, running),
        Event::Checkpointed {
            job,
            place,
            bytes,
            ..
        } => enter(
            running,
            *job,
            &check_of(tables, *job),
            end_of(*place, *bytes),
        ),
        Event::Cancelled { job } => serve(running, *job),
        Event::StepEnded { job, .. } | Event::Held { job, .. } | Event::Ended { job, .. } => {
            leave(running, *job)
        }
        _ => {}
    }
}

/// Those points that aren't of a run.
pub(crate) fn forget_point(points: &mut Vec<StepPoint>, run: u32)
    ensures items { points.new.items ≡ without_point run points.old.items }
    ensures bound { vec_len points.new ≤ vec_len points.old }
    ensures capacity { vec_capacity points.new ≡ vec_capacity points.old }
{
    points.retain(|point| point.run != run);
}

/// Where a running step stands.
fn point_of(on: &RunningStep) -> StepPoint
    requires { AreCounted on.now.step }
    ensures { result ≡ point_of (step_seen on.now) }
{
    let progress = on.step.progress();
    StepPoint {
        run: on.run,
        state: progress.state.copied(),
        writes: progress.writes,
    }
}

/// A point stands before the others. There is room for it.
pub(crate) fn put_point(points: &mut Vec<StepPoint>, point: StepPoint)
    requires { vec_len points.old < vec_capacity points.old }
    ensures { points.new.items ≡ point ∷ points.old.items }
{
    match points.insert(0, point) {
        Ok(()) => {}
        Err(_) => unreachable!(),
    }
}

/// The running step of a run stands at its checkpoint now. There is room for its point.
fn keep_point(points: &mut Vec<StepPoint>, run: u32, running: &[RunningStep])
    requires room { vec_len points.old < vec_capacity points.old }
    requires counted { AllByRecursion HasCounts (map step_seen running.now) }
    ensures { points.new.items ≡ with_point run (map step_seen running.now) points.old.items }
{
    forget_point(points, run);
    if let Some(on) = first_on(running, run) {
        put_point(points, point_of(on));
    }
}

/// The points behind an event, by the running steps behind it. There is room for that of a checkpoint.
fn keep_points(points: &mut Vec<StepPoint>, event: &Event, running: &[RunningStep])
    requires room { HasPointRoom event.now (vec_capacity points.old - vec_len points.old) }
    requires counted { AllByRecursion HasCounts (map step_seen running.now) }
    ensures { points.new.items ≡ points_behind event.now (map step_seen running.now) points.old.items }
{
    match event {
        Event::Checkpointed { job, .. } => keep_point(points, *job, running),
        Event::Restarted {
            job,
            checkpoint: false,
            ..
        } => forget_point(points, *job),
        Event::Cancelled { job } | Event::StepEnded { job, .. } | Event::Ended { job, .. } => {
            forget_point(points, *job)
        }
        _ => {}
    }
}

/// The runs that were running when the system failed, behind an event.
fn keep_failed(failed: &mut Vec<FailedRun>, event: &Event)
    ensures { failed.new.items ≡ failed_behind event.now failed.old.items }
{
    match event {
        Event::Restarted { job, .. } | Event::Held { job, .. } | Event::Ended { job, .. } => {
            unmark(failed, *job)
        }
        _ => {}
    }
}

impl Jobs {
    /// Goes on by an event that follows, with the memory that `prepare` took for it. A deck is given exactly where the event is Submitted
    /// and its cards are a deck, and it is that deck, which was accepted. It takes no memory, and doesn't fail. A record that the event tells has its
    /// place then (this project's profile).
    pub fn keep(&mut self, event: &Event, deck: Option<Rc<Job>>, mut prepared: Prepared)
        requires follows { MayGoOn self.old event.now (option_map rc_value deck) }
        requires deck { MaySubmit event.now (option_map rc_value deck) }
        requires accepted { IsAnyAccepted event.now (option_map rc_value deck) }
        requires count { MayCount event.now self.old.tables.desk.sets }
        requires prepared { IsPrepared self.old event.now (option_map rc_value deck) prepared }
        ensures tables { self.new.tables.desk ≡ after_event event.now (option_map rc_value deck) self.old.tables.desk }
        ensures running { GoesOn event.now self.new.tables.desk self.old.points self.old.running self.new.running }
        ensures failed { self.new.failed ≡ failed_behind event.now self.old.failed }
        ensures points { self.new.points ≡ points_behind event.now self.new.running self.old.points }
        ensures place { HasRecordPlace event.now self.new.tables.desk }
        ensures jobs { (layout : LayoutOfDisk) → AreJobs layout self.old → follows layout self.old.tables.desk event.now (option_map rc_value deck) ≡ true → AreJobs layout self.new }
        ensures own { (layout : LayoutOfDisk) → AreJobs layout self.old → HoldTheirOwn self.old → follows layout self.old.tables.desk event.now (option_map rc_value deck) ≡ true
            → KnowsItsPoint event.now self.old.tables.desk self.old.points → CommitsItsOwn event.now self.old.tables.desk self.old.running → HoldTheirOwn self.new }
        ensures left { (layout : LayoutOfDisk) → AreJobs layout self.old → AreLeft self.old → follows layout self.old.tables.desk event.now (option_map rc_value deck) ≡ true
            → LeavesLeft event.now self.old.failed → AreLeft self.new }
    {
        self.go_on(event, deck, prepared.uses);
        keep_running(event, &mut prepared.step, &self.tables, &mut self.running);
        keep_failed(&mut self.failed, event);
        keep_points(&mut self.points, event, self.running.as_slice());
    }

    /// The tables go on by an event that follows, and the queue with them. There is room for the event, and the uses are those
    /// of the deck that it submits; the deck of a run that is selected to continue another one may do so. It takes no memory, and doesn't fail.
    pub(crate) fn go_on(&mut self, event: &Event, deck: Option<Rc<Job>>, mut uses: Option<Uses>)
        requires continues { MayContinue event.now self.old.tables.desk }
        requires follows { MayFollow self.old.tables.desk event.now (option_map rc_value deck) }
        requires deck { MaySubmit event.now (option_map rc_value deck) }
        requires count { MayCount event.now self.old.tables.desk.sets }
        requires tables { HasRoom self.old.tables event.now }
        requires queue { HasQueueRoom event.now self.old.queue_room }
        requires uses { HasUses event.now (option_map rc_value deck) uses }
        ensures tables { self.new.tables.desk ≡ after_event event.now (option_map rc_value deck) self.old.tables.desk }
        ensures running { self.new.running ≡ self.old.running }
        ensures failed { self.new.failed ≡ self.old.failed }
        ensures points { self.new.points ≡ self.old.points }
        ensures points_room { self.new.points_room ≡ self.old.points_room }
        ensures room { self.new.running_room ≡ self.old.running_room }
        ensures numbered { AreNumbered 1 self.old.tables.desk.runs }
        ensures few { length self.old.tables.desk.runs ≤ 9999999 }
    {
        self.tables.apply(event, deck);
        keep_queue(&mut self.queue, event, &mut uses, &self.tables);
    }
}
