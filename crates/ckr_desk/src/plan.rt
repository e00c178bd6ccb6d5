//! What goes on behind what a turn comes to.
ghost use Rattle.std.specs.Prelude.{◌≡◌, ◌≤◌, IfErr, IfOk, OnOk, None};
ghost use Rattle.ckr_book.specs.Book.{room_of};
ghost use Rattle.ckr_console.specs.Answering.{restart_answer};
ghost use Rattle.ckr_desk_refines.specs.Memory.OwnSteps.{PlanCommits, PlanFollows, PlanLeaves};
ghost use Rattle.ckr_desk_refines.specs.Memory.Plans.{HasDue, IsSpelledPlan, IsToldReply};
ghost use Rattle.ckr_outside.specs.Disk.{EachSince};
ghost use Rattle.ckr_desk_refines.specs.Moves.{event_in, reply_in};
ghost use Rattle.ckr_desk_refines.specs.Unit.{HasPassed};
ghost use Rattle.ckr_desk_store.specs.State.{IsSound};
ghost use Rattle.ckr_desk.specs.Requests.{MayFail, TellsNumbers};
ghost use Rattle.ckr_desk.specs.Preparation.{IsReadyFor};
ghost use Rattle.ckr_desk.specs.NoChange.{HasHalted, StaysBy};
ghost use Rattle.ckr_desk.specs.Soundness.{state_of};
ghost use Rattle.ckr_desk.specs.Turn.{AnswerStands, asks};
ghost use Rattle.ckr_desk.specs.Continuation.{PlanKnows, PlanStandsAt};
ghost use Rattle.ckr_desk.specs.Units.{HasGoneBehind, HasTurned, IsLeftBehind, IsPlanned, IsSettledPlan, NotBehind, OpensBehind};
ghost use Rattle.ckr_desk_turn.specs.Turns.{MountedTurn};

use crate::preparation::Ready;
use crate::{Desk, DeskError};
use ckr_console::Operator;
use ckr_desk_turn::{Plan, Reply};
use ckr_outside::Disk;

impl<D: Disk, O: Operator> Desk<D, O> {
    /// Goes on behind what a turn comes to, which is no unit and no question: its event, if it tells one, is kept with what is ready for it, and the
    /// record that it tells of is written, which the next event's sync reaches; or its run waits for the operator's word. It takes no memory.
    pub(crate) fn go_on(&mut self, plan: Plan, ready: Option<Ready>) -> Result<Reply, DeskError>
        requires is_open { self.old.store.fault ≡ None }
        requires spelled { IsSpelledPlan plan }
        requires settled { IsSettledPlan plan }
        requires knows { PlanKnows self.old.jobs.tables.desk self.old.jobs.points plan }
        requires follows { PlanFollows self.old.store.layout self.old.jobs.tables.desk plan }
        requires commits { PlanCommits self.old.jobs.tables.desk self.old.jobs.running plan }
        requires leaves { PlanLeaves self.old.jobs.failed plan }
        requires ready { IsReadyFor (event_in plan) self.old ready }
        ensures reply { IfOk result (λ reply. reply ≡ reply_in plan) }
        ensures spelled { IfOk result IsToldReply }
        ensures gone { OnOk result (HasGoneBehind D.told D.content D.may_leave plan self.old self.new) }
        ensures opens { D.told → OnOk result (OpensBehind D.content D.may_leave (event_in plan) self.old self.new) }
        ensures left { D.told → EachSince D.moment D.left_since self.old.store.disk self.new.store.disk (IsLeftBehind D.content D.may_leave D.size (event_in plan) self.old) }
        ensures machine_room { self.new.machine_room ≡ self.old.machine_room }
        ensures is_open { OnOk result (self.new.store.fault ≡ None) }
        ensures layout { self.new.store.layout ≡ self.old.store.layout }
        ensures size { D.size self.new.store.disk ≡ D.size self.old.store.disk }
        ensures faults { D.faults self.old.store.disk ≤ D.faults self.new.store.disk }
        ensures cause { IfErr result (NotBehind D.faults plan self.old self.new) }
        ensures halted { IfErr result (HasHalted D.faults self.new.store) }
    {
        match plan {
            Plan::Rest(reply) => Ok(reply),
            Plan::Tell { reply, event } => {
                let Some(ready) = ready else { unreachable!() };
                self.enter(&event, None, ready)?;
                self.rewrite(&event)?;
                Ok(reply)
            }
            Plan::Wait { job, code } => {
                self.jobs.wait(job, code);
                Ok(Reply::AwaitingReply)
            }
            Plan::Work { .. } | Plan::Pass { .. } | Plan::Take { .. } | Plan::Ask(_) => {
                unreachable!()
            }
        }
    }

    /// The checkpoint that is due of a run's running step is done, and no entry is written: it is suppressed, or doesn't fit. The disk isn't
    /// called, and no memory is taken (IBM GC28-6708).
    pub(crate) fn pass(&mut self, run: u32)
        ensures passed { HasPassed run self.old.jobs self.new.jobs }
        ensures store { self.new.store ≡ self.old.store }
        ensures machine_room { self.new.machine_room ≡ self.old.machine_room }
    {
        self.jobs.pass(run);
    }

    /// Carries out what a turn comes to. What it tells is made ready before anything is written, and what it asks the operator is answered before. The
    /// point is known at which a run goes on that is selected to continue an earlier one.
    pub(crate) fn carry_out(&mut self, plan: Plan) -> Result<Reply, DeskError>
        requires is_open { self.old.store.fault ≡ None }
        requires sound { IsSound D.content D.may_leave D.size self.old.store }
        requires spelled { IsSpelledPlan plan }
        requires knows { PlanKnows self.old.jobs.tables.desk self.old.jobs.points plan }
        requires follows { PlanFollows self.old.store.layout self.old.jobs.tables.desk plan }
        requires commits { PlanCommits self.old.jobs.tables.desk self.old.jobs.running plan }
        requires leaves { PlanLeaves self.old.jobs.failed plan }
        requires due { HasDue self.old.jobs plan }
        ensures turned { (turn : MountedTurn) → IsPlanned D.told D.content D.may_leave self.old turn plan → PlanStandsAt (state_of D.content self.old).desk self.old.jobs.points plan
            → HasTurned D.told D.content D.may_leave D.moment D.left_since D.size turn (restart_answer self.old.machine_room.operator) self.old self.new result }
        ensures answered { (turn : MountedTurn) → IsPlanned D.told D.content D.may_leave self.old turn plan
            → AnswerStands (asks (state_of D.content self.old) turn (restart_answer self.old.machine_room.operator)) self.old.machine_room self.new.machine_room result }
        ensures mounts { self.new.machine_room.mounts ≡ self.old.machine_room.mounts }
        ensures spelled { IfOk result IsToldReply }
        ensures is_open { OnOk result (self.new.store.fault ≡ None) }
        ensures layout { self.new.store.layout ≡ self.old.store.layout }
        ensures size { D.size self.new.store.disk ≡ D.size self.old.store.disk }
        ensures faults { D.faults self.old.store.disk ≤ D.faults self.new.store.disk }
        ensures may_fail { IfErr result (MayFail (D.faults self.old.store.disk) (D.faults self.new.store.disk) self.old.store.fault) }
        ensures full { IfErr result (TellsNumbers (room_of self.old.store.book)) }
        ensures stays { IfErr result (StaysBy D.content D.may_leave D.faults self.old self.new) }
    {
        match plan {
            Plan::Work { job } => self.work(job),
            Plan::Take { job } => self.checkpoint(job),
            Plan::Pass { job, reply } => {
                self.pass(job);
                Ok(reply)
            }
            plan => {
                let (plan, ready) = self.settle(plan)?;
                self.go_on(plan, ready)
            }
        }
    }
}
