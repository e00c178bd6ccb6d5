//! Turns, and the units of running steps.
ghost use Rattle.std.specs.Prelude.{◌≡◌, ◌≤◌, ℕ, IfErr, IfOk, OnOk, None, false};
ghost use Rattle.ckr_book.specs.Book.{room_of};
ghost use Rattle.ckr_console.specs.Answering.{restart_answer};
ghost use Rattle.ckr_console.specs.declared.question.Answer.{Answer as AnswerOf};
ghost use Rattle.ckr_desk_refines.specs.Memory.Invariant.{IsRunnable};
ghost use Rattle.ckr_desk_refines.specs.Memory.OwnSteps.{PlanCommits};
ghost use Rattle.ckr_desk_refines.specs.Memory.Parts.{step_seen};
ghost use Rattle.ckr_desk_refines.specs.Memory.Plans.{HasDue, IsToldReply, IsWent};
ghost use Rattle.ckr_desk_refines.specs.Memory.View.{RunningStepView as RunningStepOf};
ghost use Rattle.ckr_meaning.specs.EffectiveJob.{OwnedStep};
ghost use Rattle.ckr_points.specs.Rows.{RunRow};
ghost use Rattle.ckr_meaning.specs.StepRun.{StepStart};
ghost use Rattle.ckr_outside.specs.Disk.{EachSince, OnlyReads};
ghost use Rattle.ckr_steps.specs.Places.{GoesOn, ShowsWithin, IsStepPlace};
ghost use Rattle.ckr_steps.specs.StepUnit.{HasWorked, HasWorkedOut, behind_ahead};
ghost use Rattle.ckr_steps.specs.Writes.{ChangesKeeping, grown};
ghost use Rattle.ckr_desk_store.specs.OpenImages.{event_records, Opens};
ghost use Rattle.ckr_desk_turn.specs.declared.plan.Plan.{Plan as PlanOf};
ghost use Rattle.ckr_desk_turn.specs.declared.plan.Plan.TheVariants as Plans;
ghost use Rattle.ckr_desk_turn.specs.Turns.{MountedTurn};
ghost use Rattle.ckr_desk_store.specs.State.{IsSound};
ghost use Rattle.ckr_desk.specs.Requests.{MayFail, TellsNumbers};
ghost use Rattle.ckr_desk.specs.Calls.{HasSameJobs};
ghost use Rattle.ckr_desk.specs.Preparation.{IsAhead, IsLookedAhead, IsWorkedOut, NotLooked, NotWorkedOut, asks_behind};
ghost use Rattle.ckr_desk.specs.Rewrite.{IsFault, OpensSame};
ghost use Rattle.ckr_desk.specs.NoChange.{HasHalted, IsOfDisk, StaysBy};
ghost use Rattle.ckr_desk.specs.Soundness.{state_of};
ghost use Rattle.ckr_desk.specs.Turn.{AnswerStands, asks};
ghost use Rattle.ckr_desk.specs.Units.{HasDoneUnit, HasTurned, IsAt, IsPlanned, IsLeftByUnit};

use crate::preparation::Ready;
use crate::{Desk, DeskError};
use ckr_console::Operator;
use ckr_desk_refines::RunningStep;
use ckr_desk_store::Store;
use ckr_desk_turn::{Plan, Reply};
use ckr_outside::Disk;
use ckr_steps::{UnitAhead, Worked};

/// Does a unit of a running step that was worked out from where the step stands. Answers what it came to.
fn do_unit<D: Disk>(
    store: &mut Store<D>,
    on: &mut RunningStep,
    unit: UnitAhead,
) -> Result<Worked, DeskError>
    requires runnable { IsRunnable store.old.layout (step_seen on.old) }
    requires is_open { store.old.fault ≡ None }
    requires unit { HasWorkedOut D.told (D.content store.old.disk) store.old.layout on.old.step on.old.sets unit }
    ensures answer { IfOk result (λ worked. worked ≡ unit.worked) }
    ensures run { on.new.run ≡ on.old.run }
    ensures code { on.new.code ≡ on.old.code }
    ensures behind { OnOk result (on.new.step ≡ behind_ahead on.old.step unit) }
    ensures lengths { OnOk result (on.new.sets.sets ≡ grown on.old.step.files unit.writes.items on.old.sets.sets) }
    ensures runnable { OnOk result (IsRunnable store.old.layout (step_seen on.new)) }
    ensures worked { IfOk result (HasWorked D.told (D.content store.old.disk) (D.content store.new.disk) store.old.layout on.old.step on.new.step on.old.sets on.new.sets) }
    ensures goes_on { D.told → IfOk result (λ worked. (start : StepStart) (taken : ℕ) → IsStepPlace start taken false on.old.step on.old.sets
        → ShowsWithin D.told (D.content store.old.disk) store.old.layout start on.old.step.writes on.old.sets
        → GoesOn D.told (D.content store.new.disk) store.old.layout start taken on.old.step on.new.step on.new.sets worked) }
    ensures keeps { ChangesKeeping D.told D.content D.may_leave D.moment D.left_since store.old.layout on.old.sets store.old.disk store.new.disk }
    ensures events { D.told → event_records store.old.layout (D.content store.new.disk) ≡ event_records store.old.layout (D.content store.old.disk) }
    ensures any_moment { EachSince D.moment D.left_since store.old.disk store.new.disk
        (Opens store.old.layout (D.size store.old.disk) (λ records. records ≡ event_records store.old.layout (D.content store.old.disk))) }
    ensures kept { OnOk result (store.new ≡ record store.old { disk = store.new.disk }) }
    ensures sound { IsSound D.content D.may_leave D.size store.new }
    ensures layout { store.new.layout ≡ store.old.layout }
    ensures size { D.size store.new.disk ≡ D.size store.old.disk }
    ensures faults { D.faults store.old.disk ≤ D.faults store.new.disk }
    ensures cause { IfErr result (IsFault (D.faults store.old.disk) (D.faults store.new.disk)) }
    ensures halted { IfErr result (HasHalted D.faults store.new) }
{
    Ok(store.work(&mut on.step, &mut on.sets, unit)?)
}

/// A unit that tells an event, and was looked at: the unit, what the turn tells of it, and what is ready for that.
#[derive(Drop)]
pub(crate) struct Ahead {
    pub(crate) unit: UnitAhead,
    pub(crate) plan: Plan,
    pub(crate) ready: Option<Ready>,
}

impl<D: Disk, O: Operator> Desk<D, O> {
    /// Works the next unit of a run's running step out, which is due, so that what it comes to is known before it is done. The disk is only read,
    /// and what the jobs are stays the same.
    ///
    /// `DiskFault`: only where the disk's faults rose in this call; then the desk has stopped.
    pub(crate) fn work_out(&mut self, run: u32) -> Result<UnitAhead, DeskError>
        requires is_open { self.old.store.fault ≡ None }
        requires due { HasDue self.old.jobs (Plans.Work run) }
        ensures unit { IfOk result (IsWorkedOut D.told D.content run self.new) }
        ensures kept { OnOk result (self.new.store ≡ record self.old.store { disk = self.new.store.disk }) }
        ensures sound { IsSound D.content D.may_leave D.size self.new.store }
        ensures jobs { HasSameJobs self.old self.new }
        ensures machine_room { self.new.machine_room ≡ self.old.machine_room }
        ensures only_reads { OnlyReads D.content D.may_leave D.moment D.left_since self.old.store.disk self.new.store.disk }
        ensures any_moment { EachSince D.moment D.left_since self.old.store.disk self.new.store.disk (OpensSame D.content D.size self.old) }
        ensures layout { self.new.store.layout ≡ self.old.store.layout }
        ensures room { room_of self.new.store.book ≡ room_of self.old.store.book }
        ensures size { D.size self.new.store.disk ≡ D.size self.old.store.disk }
        ensures faults { D.faults self.old.store.disk ≤ D.faults self.new.store.disk }
        ensures cause { IfErr result (NotWorkedOut D.faults self.old self.new) }
    {
        let Some(on) = self.jobs.running_step(run) else {
            unreachable!()
        };
        let unit = self.store.ahead(&on.step, &on.sets)?;
        Ok(unit)
    }

    /// Makes what a unit tells that was worked out ready, before it is done; where the unit ends the step with a code after which the run may be
    /// restarted, the operator is asked first. What the jobs are and the disk stay as they are.
    ///
    /// `NoMemory`, and the operator wasn't asked. `BookFull`: the event that the unit tells needs more than the room of the book.
    fn look(&mut self, run: u32, unit: UnitAhead) -> Result<Ahead, DeskError>
        requires is_open { self.old.store.fault ≡ None }
        requires unit { IsWorkedOut D.told D.content run self.old unit }
        ensures ahead { IfOk result (IsAhead D.told D.content run (restart_answer self.old.machine_room.operator) self.new) }
        ensures jobs { HasSameJobs self.old self.new }
        ensures store { self.new.store ≡ self.old.store }
        ensures answered { (on : RunningStepOf) (row : RunRow) (own : OwnedStep) → IsAt run self.old on row own
            → AnswerStands (asks_behind self.old row on unit) self.old.machine_room self.new.machine_room result }
        ensures mounts { self.new.machine_room.mounts ≡ self.old.machine_room.mounts }
        ensures cause { IfErr result (NotLooked D.told D.content run (restart_answer self.old.machine_room.operator) self.old self.new) }
    {
        let Some(on) = self.jobs.running_step(run) else {
            unreachable!()
        };
        let plan = self.jobs.told(self.store.layout(), on, &unit);
        let (plan, ready) = self.settle(plan)?;
        Ok(Ahead { unit, plan, ready })
    }

    /// The next unit of a run's running step, which was looked at, is done, and the step stands before the others.
    fn done_unit(&mut self, run: u32, unit: UnitAhead) -> Result<(), DeskError>
        requires is_open { self.old.store.fault ≡ None }
        requires unit { IsWorkedOut D.told D.content run self.old unit }
        ensures done { OnOk result ((answer : AnswerOf) (plan : PlanOf) → IsLookedAhead D.told D.content run self.old unit answer plan
            → HasDoneUnit D.told D.content D.may_leave D.moment D.left_since run self.old self.new answer plan) }
        ensures tables { OnOk result (self.new.jobs.tables ≡ self.old.jobs.tables) }
        ensures points { OnOk result (self.new.jobs.points ≡ self.old.jobs.points) }
        ensures place { OnOk result (self.new.jobs.running_room ≡ self.old.jobs.running_room) }
        ensures commits { OnOk result ((answer : AnswerOf) (plan : PlanOf) → IsLookedAhead D.told D.content run self.old unit answer plan → PlanCommits self.new.jobs.tables.desk self.new.jobs.running plan) }
        ensures machine_room { self.new.machine_room ≡ self.old.machine_room }
        ensures left { EachSince D.moment D.left_since self.old.store.disk self.new.store.disk (IsLeftByUnit D.content D.may_leave D.size run self.old) }
        ensures events { D.told → OnOk result (event_records self.old.store.layout (D.content self.new.store.disk) ≡ event_records self.old.store.layout (D.content self.old.store.disk)) }
        ensures kept { OnOk result (self.new.store ≡ record self.old.store { disk = self.new.store.disk }) }
        ensures layout { self.new.store.layout ≡ self.old.store.layout }
        ensures size { D.size self.new.store.disk ≡ D.size self.old.store.disk }
        ensures faults { D.faults self.old.store.disk ≤ D.faults self.new.store.disk }
        ensures cause { IfErr result (IsFault (D.faults self.old.store.disk) (D.faults self.new.store.disk)) }
        ensures halted { IfErr result (HasHalted D.faults self.new.store) }
    {
        let Some(mut on) = self.jobs.take_step(run) else {
            unreachable!()
        };
        // Where the disk has failed the step goes no further, and it isn't put back.
        do_unit(&mut self.store, &mut on, unit)?;
        self.jobs.put_step(on);
        Ok(())
    }

    /// The next unit of a run's running step, which was looked at, and what goes on behind it. It takes no memory.
    pub(crate) fn work_on(&mut self, run: u32, ahead: Ahead) -> Result<Reply, DeskError>
        requires is_open { self.old.store.fault ≡ None }
        requires ahead { (answer : AnswerOf) × IsAhead D.told D.content run answer self.old ahead }
        ensures turned { (turn : MountedTurn) (answer : AnswerOf) → IsPlanned D.told D.content D.may_leave self.old turn (Plans.Work run) → IsAhead D.told D.content run answer self.old ahead
            → HasTurned D.told D.content D.may_leave D.moment D.left_since D.size turn answer self.old self.new result }
        ensures unasked { (turn : MountedTurn) (answer : AnswerOf) → IsPlanned D.told D.content D.may_leave self.old turn (Plans.Work run) → IsAhead D.told D.content run answer self.old ahead
            → IsWent ahead.unit.worked → OnOk result (asks (state_of D.content self.old) turn answer ≡ false) }
        ensures machine_room { self.new.machine_room ≡ self.old.machine_room }
        ensures spelled { IfOk result IsToldReply }
        ensures is_open { OnOk result (self.new.store.fault ≡ None) }
        ensures layout { self.new.store.layout ≡ self.old.store.layout }
        ensures size { D.size self.new.store.disk ≡ D.size self.old.store.disk }
        ensures faults { D.faults self.old.store.disk ≤ D.faults self.new.store.disk }
        ensures may_fail { IfErr result (MayFail (D.faults self.old.store.disk) (D.faults self.new.store.disk) self.old.store.fault) }
        ensures of_disk { IfErr result IsOfDisk }
        ensures halted { IfErr result (HasHalted D.faults self.new.store) }
    {
        let Ahead { unit, plan, ready } = ahead;
        self.done_unit(run, unit)?;
        match self.go_on(plan, ready) {
            Ok(reply) => Ok(reply),
            Err(error) => {
                // The unit is done, and no event tells of it: the step goes no further until the disk is opened again.
                self.jobs.take_step(run);
                Err(error)
            }
        }
    }

    /// The next unit of a run's running step, which was worked out, where the step goes on behind it and tells no event. It takes no memory.
    fn went(&mut self, run: u32, unit: UnitAhead) -> Result<Reply, DeskError>
        requires is_open { self.old.store.fault ≡ None }
        requires unit { IsWorkedOut D.told D.content run self.old unit }
        requires went { IsWent unit.worked }
        ensures turned { (turn : MountedTurn) (answer : AnswerOf) → IsPlanned D.told D.content D.may_leave self.old turn (Plans.Work run) → HasTurned D.told D.content D.may_leave D.moment D.left_since D.size turn answer self.old self.new result }
        ensures answered { (turn : MountedTurn) (answer : AnswerOf) → IsPlanned D.told D.content D.may_leave self.old turn (Plans.Work run)
            → AnswerStands (asks (state_of D.content self.old) turn answer) self.old.machine_room self.new.machine_room result }
        ensures machine_room { self.new.machine_room ≡ self.old.machine_room }
        ensures spelled { IfOk result IsToldReply }
        ensures is_open { OnOk result (self.new.store.fault ≡ None) }
        ensures layout { self.new.store.layout ≡ self.old.store.layout }
        ensures size { D.size self.new.store.disk ≡ D.size self.old.store.disk }
        ensures faults { D.faults self.old.store.disk ≤ D.faults self.new.store.disk }
        ensures may_fail { IfErr result (MayFail (D.faults self.old.store.disk) (D.faults self.new.store.disk) self.old.store.fault) }
        ensures of_disk { IfErr result IsOfDisk }
        ensures halted { IfErr result (HasHalted D.faults self.new.store) }
    {
        let Some(on) = self.jobs.running_step(run) else {
            unreachable!()
        };
        let reply = self.jobs.worked(on, &unit);
        self.done_unit(run, unit)?;
        Ok(reply)
    }

    /// The next unit of a run's running step, which was worked out, where it tells an event or asks the operator: that is made ready before the unit
    /// is done.
    fn tell_unit(&mut self, run: u32, unit: UnitAhead) -> Result<Reply, DeskError>
        requires is_open { self.old.store.fault ≡ None }
        requires sound { IsSound D.content D.may_leave D.size self.old.store }
        requires unit { IsWorkedOut D.told D.content run self.old unit }
        requires tells { IsWent unit.worked → ⊥ }
        ensures turned { (turn : MountedTurn) → IsPlanned D.told D.content D.may_leave self.old turn (Plans.Work run)
            → HasTurned D.told D.content D.may_leave D.moment D.left_since D.size turn (restart_answer self.old.machine_room.operator) self.old self.new result }
        ensures answered { (turn : MountedTurn) → IsPlanned D.told D.content D.may_leave self.old turn (Plans.Work run)
            → AnswerStands (asks (state_of D.content self.old) turn (restart_answer self.old.machine_room.operator)) self.old.machine_room self.new.machine_room result }
        ensures mounts { self.new.machine_room.mounts ≡ self.old.machine_room.mounts }
        ensures spelled { IfOk result IsToldReply }
        ensures is_open { OnOk result (self.new.store.fault ≡ None) }
        ensures layout { self.new.store.layout ≡ self.old.store.layout }
        ensures size { D.size self.new.store.disk ≡ D.size self.old.store.disk }
        ensures faults { D.faults self.old.store.disk ≤ D.faults self.new.store.disk }
        ensures may_fail { IfErr result (MayFail (D.faults self.old.store.disk) (D.faults self.new.store.disk) self.old.store.fault) }
        ensures full { IfErr result (TellsNumbers (room_of self.old.store.book)) }
        ensures stays { IfErr result (StaysBy D.content D.may_leave D.faults self.old self.new) }
    {
        let ahead = self.look(run, unit)?;
        self.work_on(run, ahead)
    }

    /// The next unit of a run's running step, which is due, and what goes on behind it. A unit behind which the step goes on makes no plan, since
    /// that has room for an event.
    pub(crate) fn work(&mut self, run: u32) -> Result<Reply, DeskError>
        requires is_open { self.old.store.fault ≡ None }
        requires due { HasDue self.old.jobs (Plans.Work run) }
        ensures turned { (turn : MountedTurn) → IsPlanned D.told D.content D.may_leave self.old turn (Plans.Work run)
            → HasTurned D.told D.content D.may_leave D.moment D.left_since D.size turn (restart_answer self.old.machine_room.operator) self.old self.new result }
        ensures answered { (turn : MountedTurn) → IsPlanned D.told D.content D.may_leave self.old turn (Plans.Work run)
            → AnswerStands (asks (state_of D.content self.old) turn (restart_answer self.old.machine_room.operator)) self.old.machine_room self.new.machine_room result }
        ensures mounts { self.new.machine_room.mounts ≡ self.old.machine_room.mounts }
        ensures spelled { IfOk result IsToldReply }
        ensures is_open { OnOk result (self.new.store.fault ≡ None) }
        ensures layout { self.new.store.layout ≡ self.old.store.layout }
        ensures size { D.size self.new.store.disk ≡ D.size self.old.store.disk }
        ensures faults { D.faults self.old.store.disk ≤ D.faults self.new.store.disk }
        ensures may_fail { IfErr result (MayFail (D.faults self.old.store.disk) (D.faults self.new.store.disk) self.old.store.fault) }
        ensures full { IfErr result (TellsNumbers (room_of self.old.store.book)) }
        ensures stays { IfErr result (StaysBy D.content D.may_leave D.faults self.old self.new) }
    {
        let unit = self.work_out(run)?;
        if let Worked::Went { .. } = unit.worked {
            self.went(run, unit)
        } else {
            self.tell_unit(run, unit)
        }
    }
}
