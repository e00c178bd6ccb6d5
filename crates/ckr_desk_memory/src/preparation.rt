//! Memory for an event, before it is written.
ghost use Rattle.std.specs.Prelude.{◌≡◌, ◌≤◌, ◌<◌, true, find, None, IfErr, IfOk, IfSome, OnOk};
ghost use Rattle.std.specs.List.{AllByRecursion};
ghost use Rattle.std.specs.Option.{option_copied};
ghost use Rattle.ckr_desk_memory.specs.EventChanges.{is_point_of, AreUsesOf, HasUses};
ghost use Rattle.ckr_desk_memory.specs.Invariant.{AreJobs, IsAcceptedRow};
ghost use Rattle.ckr_desk_memory.specs.Parts.{IsPointCounted};
ghost use Rattle.ckr_desk_memory.specs.Preparation.{needs_room, HasAgain, HasTaken, HasQueueRoom, HasStep, IsEmpty, IsPrepared, IsPreparedFor, StandsEmpty};
ghost use Rattle.ckr_desk_memory.specs.View.{begun, resumed};
ghost use Rattle.ckr_desk_plans.specs.Model.StepUnit.{AreCounted};
ghost use Rattle.ckr_programs.specs.Ranges.{IsInRange};
ghost use Rattle.ckr_points_tables.specs.Invariant.{HasRoom, IsAnySubmittable, MaySubmit};
ghost use Rattle.ckr_points_tables.specs.Rooms.{IsRoomier};
ghost use Rattle.ckr_points_tables.specs.RunJobs.{own_of};
ghost use Rattle.ckr_volumes.specs.declared.layout.Layout.{Layout as LayoutOfDisk};

use crate::{Jobs, RunningStep, StepPoint};
use ckr_base::NoMemory;
use ckr_desk_plans::{StepRun, place_of};
use ckr_desk_turn::Inquiry;
use ckr_events::Event;
use ckr_jcl::Job;
use ckr_library::Library;
use ckr_points::step_in;
use ckr_points_tables::{OwnStep, step_at};
use ckr_uses::{Uses, uses_of};
use std::alloc::Global;

/// The memory for an event: the uses of a deck that is submitted, and the step that starts or goes on from a run's point.
#[derive(Drop)]
pub struct Prepared {
    pub(crate) uses: Option<Uses>,
    pub(crate) step: Option<RunningStep>,
}

impl Prepared {
    /// No uses and no step: the memory for an event that needs neither.
    pub fn none() -> Prepared
        ensures { result ≡ record { uses = None; step = None } }
    {
        Prepared {
            uses: None,
            step: None,
        }
    }
}

/// The uses of a deck that is submitted under a number, if one is.
fn uses_for(alloc: Global, number: u32, deck: Option<&Job>) -> Result<Option<Uses>, NoMemory>
    requires { IsAnySubmittable number (option_copied deck) }
    ensures { IfOk result (AreUsesOf number (option_copied deck.entry)) }
{
    match deck {
        Some(job) => Ok(Some(uses_of(alloc, number, job)?)),
        None => Ok(None),
    }
}

/// A step of a run, with room for its data sets.
fn with_room(alloc: Global, job: u32, step: StepRun) -> Result<RunningStep, NoMemory>
    requires { AreCounted step }
    ensures { IfOk result (StandsEmpty job step) }
{
    let mut sets = Library::new(alloc);
    sets.reserve(16)?;
    Ok(RunningStep {
        run: job,
        step,
        sets,
        code: None,
    })
}

/// A step of a run of this root that starts.
fn begin_step(
    alloc: Global,
    job: u32,
    root: u32,
    own: &OwnStep<'_>,
) -> Result<RunningStep, NoMemory>
    requires root { root ≤ 9999999 }
    requires owner { own.now.owner ≤ 9999999 }
    requires parm { IsInRange own.now.step.now.parm }
    ensures { IfOk result (StandsEmpty job (begun root (own_of own.now))) }
{
    with_room(
        alloc,
        job,
        StepRun::begin(alloc, own.step, root, own.owner)?,
    )
}

/// A step of a run of this root that goes on from a point of it.
fn resume_step(
    alloc: Global,
    job: u32,
    root: u32,
    own: &OwnStep<'_>,
    point: &StepPoint,
) -> Result<RunningStep, NoMemory>
    requires root { root ≤ 9999999 }
    requires owner { own.now.owner ≤ 9999999 }
    requires parm { IsInRange own.now.step.now.parm }
    requires counted { IsPointCounted point.now }
    ensures { IfOk result (StandsEmpty job (resumed root (own_of own.now) point.now)) }
{
    let again = StepRun::at_point(alloc, own.step, root, own.owner, &point.state, point.writes)?;
    with_room(alloc, job, again)
}

/// The point of a run.
fn point_in(points: &[StepPoint], run: u32) -> Option<&StepPoint>
    ensures { option_copied result ≡ find (is_point_of run) points.now }
{
    points.iter().find(|point| point.run == run)
}

/// Whether an event needs memory: one that submits a run, selects one that continues another, starts or ends a step, restarts or ends a
/// run, or keeps an entry.
fn needs_room(event: &Event) -> bool
    ensures { result ≡ needs_room event.now }
{
    match event {
        Event::Selected { earlier, .. } => *earlier != 0,
        Event::Submitted { .. }
        | Event::Started { .. }
        | Event::Checkpointed { .. }
        | Event::StepEnded { .. }
        | Event::Restarted { .. }
        | Event::Ended { .. } => true,
        _ => false,
    }
}

impl Jobs {
    /// The step of this number of a run, at its beginning. None where there is no such step.
    fn begun(&self, job: u32, step: u8) -> Result<Option<RunningStep>, NoMemory>
        requires { AllByRecursion IsAcceptedRow self.now.tables.desk.runs }
        ensures step { IfOk result (HasStep self.now.tables.desk job step) }
        ensures empty { IfOk result (λ begun. IfSome begun (IsEmpty job)) }
    {
        let Some(table) = self.known(job) else {
            return Ok(None);
        };
        match step_at(&table.job, job, step) {
            Some(own) => Ok(Some(begin_step(self.alloc, job, table.job.root(), &own)?)),
            None => Ok(None),
        }
    }

    /// The step of this number of an earlier run, as a run goes on in it from its own point. None where that isn't known.
    fn taken(&self, earlier: u32, step: u8, job: u32) -> Result<Option<RunningStep>, NoMemory>
        requires { AllByRecursion IsAcceptedRow self.now.tables.desk.runs }
        ensures step { IfOk result (HasTaken (find (is_point_of job) self.now.points) self.now.tables.desk earlier step job) }
        ensures empty { IfOk result (λ taken. IfSome taken (IsEmpty job)) }
    {
        let Some(point) = point_in(self.points.as_slice(), job) else {
            return Ok(None);
        };
        let Some(table) = self.known(earlier) else {
            return Ok(None);
        };
        match step_at(&table.job, earlier, step) {
            Some(own) => Ok(Some(resume_step(self.alloc, job, table.job.root(), &own, point)?)),
            None => Ok(None),
        }
    }

    /// The step that a run is in, as it goes on from the run's point. None where that isn't known.
    fn again(&self, job: u32) -> Result<Option<RunningStep>, NoMemory>
        requires { AllByRecursion IsAcceptedRow self.now.tables.desk.runs }
        ensures step { IfOk result (HasAgain (find (is_point_of job) self.now.points) self.now.tables.desk job) }
        ensures empty { IfOk result (λ again. IfSome again (IsEmpty job)) }
    {
        match self.known(job) {
            Some(table) => self.taken(job, step_in(place_of(table)), job),
            None => Ok(None),
        }
    }

    /// Takes the memory for an event, so that `keep` takes none and doesn't fail. A deck is given exactly where the event is
    /// Submitted and its cards are a deck, and it is that deck. What the jobs are stays the same in either case.
    ///
    /// `NoMemory`: there may be none for the event; one that needs none gets it always.
    pub fn prepare(&mut self, event: &Event, deck: Option<&Job>) -> Result<Prepared, NoMemory>
        requires rows { AllByRecursion IsAcceptedRow self.old.tables.desk.runs }
        requires deck { MaySubmit event.now (option_copied deck) }
        ensures desk { self.new.tables.desk ≡ self.old.tables.desk }
        ensures running { self.new.running ≡ self.old.running }
        ensures failed { self.new.failed ≡ self.old.failed }
        ensures points { self.new.points ≡ self.old.points }
        ensures jobs { (layout : LayoutOfDisk) → AreJobs layout self.old → AreJobs layout self.new }
        ensures room { IsRoomier self.old.tables.room self.new.tables.room }
        ensures ok { IfOk result (IsPrepared self.new event.now (option_copied deck.entry)) }
        ensures takes { IfErr result (λ _. needs_room event.now ≡ true) }
    {
        let uses = self.make_room(event, deck)?;
        match event {
            Event::Started { job, step, .. } => {
                self.running.reserve(1)?;
                let step = self.begun(*job, *step)?;
                Ok(Prepared { uses, step })
            }
            Event::Selected {
                job,
                earlier,
                step,
                id: Some(_),
                ..
            } => {
                if *earlier == 0 {
                    return Ok(Prepared { uses, step: None });
                }
                self.running.reserve(1)?;
                let step = self.taken(*earlier, *step, *job)?;
                Ok(Prepared { uses, step })
            }
            Event::Restarted {
                job,
                checkpoint: true,
                ..
            } => {
                self.running.reserve(1)?;
                let step = self.again(*job)?;
                Ok(Prepared { uses, step })
            }
            Event::Checkpointed { .. } => {
                self.points.reserve(1)?;
                Ok(Prepared { uses, step: None })
            }
            _ => Ok(Prepared { uses, step: None }),
        }
    }

    /// Takes the memory for whatever the operator answers to what he is asked: his answer costs none then, and can't be lost for want of it. What
    /// the jobs are stays the same in either case.
    ///
    /// `NoMemory`: there may be none for an answer.
    pub fn prepare_answers(&mut self, inquiry: &Inquiry) -> Result<Prepared, NoMemory>
        requires rows { AllByRecursion IsAcceptedRow self.old.tables.desk.runs }
        ensures desk { self.new.tables.desk ≡ self.old.tables.desk }
        ensures running { self.new.running ≡ self.old.running }
        ensures failed { self.new.failed ≡ self.old.failed }
        ensures points { self.new.points ≡ self.old.points }
        ensures jobs { (layout : LayoutOfDisk) → AreJobs layout self.old → AreJobs layout self.new }
        ensures room { IsRoomier self.old.tables.room self.new.tables.room }
        ensures ok { IfOk result (IsPreparedFor self.new inquiry.now) }
    {
        let checkpoint = inquiry.id.is_some();
        self.tables.room_for_answers(inquiry.job, checkpoint)?;
        if !checkpoint {
            return Ok(Prepared {
                uses: None,
                step: None,
            });
        }
        self.running.reserve(1)?;
        let step = self.again(inquiry.job)?;
        Ok(Prepared { uses: None, step })
    }

    /// Room for an event on the tables and in the queue, and the uses of the deck that it submits, if it submits one. What the jobs
    /// are stays the same in either case.
    ///
    /// `NoMemory`: there may be none for the event.
    pub(crate) fn make_room(
        &mut self,
        event: &Event,
        deck: Option<&Job>,
    ) -> Result<Option<Uses>, NoMemory>
        requires { MaySubmit event.now (option_copied deck) }
        ensures desk { self.new.tables.desk ≡ self.old.tables.desk }
        ensures running { self.new.running ≡ self.old.running }
        ensures failed { self.new.failed ≡ self.old.failed }
        ensures points { self.new.points ≡ self.old.points }
        ensures jobs { (layout : LayoutOfDisk) → AreJobs layout self.old → AreJobs layout self.new }
        ensures room { IsRoomier self.old.tables.room self.new.tables.room }
        ensures tables { OnOk result (HasRoom self.new.tables event.now) }
        ensures queue { OnOk result (HasQueueRoom event.now self.new.queue_room) }
        ensures uses { IfOk result (HasUses event.now (option_copied deck.entry)) }
        ensures takes { IfErr result (λ _. needs_room event.now ≡ true) }
    {
        if !needs_room(event) {
            return Ok(None);
        }
        self.tables.make_room(event)?;
        match event {
            Event::Submitted { job, .. } => {
                self.queue.reserve(1)?;
                uses_for(self.alloc, *job, deck)
            }
            _ => Ok(None),
        }
    }
}
