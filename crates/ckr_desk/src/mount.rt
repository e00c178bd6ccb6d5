//! A turn in which the operator is asked for mounts. There is memory for whatever he answers before he is asked.
ghost use Rattle.std.specs.Prelude.{◌≡◌, ◌≤◌, IfErr, IfOk, OnOk, None, false};
ghost use Rattle.ckr_book.specs.Book.{room_of};
ghost use Rattle.ckr_console.specs.Answering.{restart_answer};
ghost use Rattle.ckr_desk_refines.specs.Memory.OwnSteps.{PlanCommits, PlanFollows, PlanLeaves};
ghost use Rattle.ckr_desk_refines.specs.Memory.Plans.{HasDue, IsSpelledPlan, IsToldReply};
ghost use Rattle.ckr_desk_store.specs.State.{IsSound};
ghost use Rattle.ckr_desk.specs.declared.error.DeskError.TheVariants.{NoMemory};
ghost use Rattle.ckr_desk_refines.specs.Moves.{event_in};
ghost use Rattle.ckr_desk_turn.specs.Inquiries.{decide, is_ask};
ghost use Rattle.ckr_desk_turn.specs.Turns.{MountedTurn};
ghost use Rattle.ckr_desk_turn.specs.declared.plan.Plan.TheVariants as Plans;
ghost use Rattle.ckr_desk_turn.specs.declared.reply.Turn.{Turn as TurnOf};
ghost use Rattle.ckr_desk.specs.Attendance.{EndsUnmounted, untaken};
ghost use Rattle.ckr_desk.specs.Calls.{HasSameJobs};
ghost use Rattle.ckr_desk.specs.Continuation.{PlanKnows, PlanStandsAt};
ghost use Rattle.ckr_desk.specs.NoChange.{StaysBy};
ghost use Rattle.ckr_desk.specs.Preparation.{HasMemoryFor, IsPreparedToSettle, IsReadyFor, IsTellingPlan, IsToldByUnit, IsWorkedOut, LacksMemory, NotFit, may_tell};
ghost use Rattle.ckr_desk.specs.Requests.{MayFail, TellsNumbers};
ghost use Rattle.ckr_desk.specs.Soundness.{state_of};
ghost use Rattle.ckr_desk.specs.Turn.{AnswerStands, asks, room_behind_answer};
ghost use Rattle.ckr_desk.specs.Units.{HasTurned, IsPlanned};

use crate::preparation::Ready;
use crate::unit::Ahead;
use crate::{Desk, DeskError};
use ckr_console::Operator;
use ckr_desk_refines::{Prepared, decided, may_count};
use ckr_desk_turn::{Plan, Reply, Taking};
use ckr_outside::Disk;
use ckr_steps::UnitAhead;

impl<D: Disk, O: Operator> Desk<D, O> {
    /// Whether the rewrite of what a plan tells can be counted, if it tells one.
    fn may_tell(&self, plan: &Plan) -> bool
        ensures { result ≡ may_tell self.now.jobs plan.now }
    {
        match plan {
            Plan::Tell { event, .. } => may_count(self.jobs.tables(), event),
            _ => true,
        }
    }

    /// Takes the memory for what a plan tells or asks, and beside it for the end of the run by a refused mount. What the jobs are and the disk stay
    /// as they are.
    ///
    /// `NoMemory`: there is none for one of them, or a count of rewrites is at its end.
    pub(crate) fn memory_for(&mut self, run: u32, plan: &Plan) -> Result<Prepared, DeskError>
        requires spelled { IsSpelledPlan plan.now }
        ensures memory { IfOk result (HasMemoryFor run plan.now self.new) }
        ensures jobs { HasSameJobs self.old self.new }
        ensures store { self.new.store ≡ self.old.store }
        ensures machine_room { self.new.machine_room ≡ self.old.machine_room }
        ensures cause { IfErr result (LacksMemory self.old self.new) }
    {
        if !self.may_tell(plan) {
            return Err(DeskError::NoMemory);
        }
        let prepared = self.jobs.prepare_mounts(run, plan)?;
        Ok(prepared)
    }

    /// What a plan comes to by the operator's answer: where it asks whether a run may be restarted, he is asked.
    fn answered(&mut self, plan: Plan) -> Plan
        requires spelled { IsSpelledPlan plan }
        ensures decided { result ≡ decide (restart_answer self.old.machine_room.operator) plan }
        ensures spelled { IsSpelledPlan result }
        ensures jobs { self.new.jobs ≡ self.old.jobs }
        ensures store { self.new.store ≡ self.old.store }
        ensures asked { self.new.machine_room ≡ room_behind_answer (is_ask plan) self.old.machine_room }
    {
        match plan {
            Plan::Ask(inquiry) => {
                let answer = self.machine_room.ask(&inquiry.question());
                decided(inquiry, answer)
            }
            plan => plan,
        }
    }

    /// Settles what a turn comes to, for which there is this memory: where it asks whether a run may be restarted, the answer decides, and what is told then is made
    /// ready. What the jobs are and the disk stay as they are.
    ///
    /// `BookFull`: the event needs more than the room of the book; an answer that was given stands (this project's profile).
    fn settle_with(
        &mut self,
        plan: Plan,
        prepared: Prepared,
    ) -> Result<(Plan, Option<Ready>), DeskError>
        requires spelled { IsSpelledPlan plan }
        requires prepared { IsPreparedToSettle self.old.jobs plan prepared }
        ensures decided { IfOk result (λ settled. settled.0 ≡ decide (restart_answer self.old.machine_room.operator) plan) }
        ensures spelled { IfOk result (λ settled. IsSpelledPlan settled.0) }
        ensures ready { IfOk result (λ settled. IsReadyFor (event_in settled.0) self.new settled.1) }
        ensures jobs { HasSameJobs self.old self.new }
        ensures store { self.new.store ≡ self.old.store }
        ensures asked { self.new.machine_room ≡ room_behind_answer (is_ask plan) self.old.machine_room }
        ensures cause { IfErr result (NotFit (event_in (decide (restart_answer self.old.machine_room.operator) plan)) self.old self.new) }
    {
        let plan = self.answered(plan);
        let ready = self.ready_with(&plan, prepared)?;
        Ok((plan, ready))
    }

    /// Carries out what a turn comes to, which is no unit and no checkpoint, with this memory.
    pub(crate) fn carry_out_with(
        &mut self,
        plan: Plan,
        prepared: Prepared,
    ) -> Result<Reply, DeskError>
        requires is_open { self.old.store.fault ≡ None }
        requires sound { IsSound D.content D.may_leave D.size self.old.store }
        requires telling { IsTellingPlan plan }
        requires spelled { IsSpelledPlan plan }
        requires prepared { IsPreparedToSettle self.old.jobs plan prepared }
        requires knows { PlanKnows self.old.jobs.tables.desk self.old.jobs.points plan }
        requires follows { PlanFollows self.old.store.layout self.old.jobs.tables.desk plan }
        requires commits { PlanCommits self.old.jobs.tables.desk self.old.jobs.running plan }
        requires leaves { PlanLeaves self.old.jobs.failed plan }
        ensures turned { (turn : MountedTurn) → IsPlanned D.told D.content D.may_leave self.old turn plan → PlanStandsAt (state_of D.content self.old).desk self.old.jobs.points plan
            → HasTurned D.told D.content D.may_leave D.moment D.left_since D.size turn (restart_answer self.old.machine_room.operator) self.old self.new result }
        ensures answered { (turn : MountedTurn) → IsPlanned D.told D.content D.may_leave self.old turn plan
            → AnswerStands (asks (state_of D.content self.old) turn (restart_answer self.old.machine_room.operator)) self.old.machine_room self.new.machine_room result }
        ensures asked { self.new.machine_room ≡ room_behind_answer (is_ask plan) self.old.machine_room }
        ensures mounts { self.new.machine_room.mounts ≡ self.old.machine_room.mounts }
        ensures memory { IfErr result (λ error. error ≡ NoMemory → ⊥) }
        ensures spelled { IfOk result IsToldReply }
        ensures is_open { OnOk result (self.new.store.fault ≡ None) }
        ensures layout { self.new.store.layout ≡ self.old.store.layout }
        ensures size { D.size self.new.store.disk ≡ D.size self.old.store.disk }
        ensures faults { D.faults self.old.store.disk ≤ D.faults self.new.store.disk }
        ensures may_fail { IfErr result (MayFail (D.faults self.old.store.disk) (D.faults self.new.store.disk) self.old.store.fault) }
        ensures full { IfErr result (TellsNumbers (room_of self.old.store.book)) }
        ensures stays { IfErr result (StaysBy D.content D.may_leave D.faults self.old self.new) }
    {
        let (plan, ready) = self.settle_with(plan, prepared)?;
        self.go_on(plan, ready)
    }

    /// Does a unit that was worked out, and goes on behind it, with this memory for what it tells.
    pub(crate) fn work_with(
        &mut self,
        run: u32,
        unit: UnitAhead,
        told: Plan,
        prepared: Prepared,
    ) -> Result<Reply, DeskError>
        requires is_open { self.old.store.fault ≡ None }
        requires sound { IsSound D.content D.may_leave D.size self.old.store }
        requires unit { IsWorkedOut D.told D.content run self.old unit }
        requires told { IsToldByUnit run self.old unit told }
        requires prepared { IsPreparedToSettle self.old.jobs told prepared }
        ensures turned { (turn : MountedTurn) → IsPlanned D.told D.content D.may_leave self.old turn (Plans.Work run)
            → HasTurned D.told D.content D.may_leave D.moment D.left_since D.size turn (restart_answer self.old.machine_room.operator) self.old self.new result }
        ensures answered { (turn : MountedTurn) → IsPlanned D.told D.content D.may_leave self.old turn (Plans.Work run)
            → AnswerStands (asks (state_of D.content self.old) turn (restart_answer self.old.machine_room.operator)) self.old.machine_room self.new.machine_room result }
        ensures mounts { self.new.machine_room.mounts ≡ self.old.machine_room.mounts }
        ensures memory { IfErr result (λ error. error ≡ NoMemory → ⊥) }
        ensures spelled { IfOk result IsToldReply }
        ensures is_open { OnOk result (self.new.store.fault ≡ None) }
        ensures layout { self.new.store.layout ≡ self.old.store.layout }
        ensures size { D.size self.new.store.disk ≡ D.size self.old.store.disk }
        ensures faults { D.faults self.old.store.disk ≤ D.faults self.new.store.disk }
        ensures may_fail { IfErr result (MayFail (D.faults self.old.store.disk) (D.faults self.new.store.disk) self.old.store.fault) }
        ensures full { IfErr result (TellsNumbers (room_of self.old.store.book)) }
        ensures stays { IfErr result (StaysBy D.content D.may_leave D.faults self.old self.new) }
    {
        let (plan, ready) = self.settle_with(told, prepared)?;
        self.work_on(run, Ahead { unit, plan, ready })
    }

    /// What a turn tells of a unit that was worked out, before the operator is asked.
    pub(crate) fn told_of(&self, run: u32, unit: &UnitAhead) -> Plan
        requires unit { IsWorkedOut D.told D.content run self.now unit.now }
        ensures told { IsToldByUnit run self.now unit.now result }
        ensures spelled { IsSpelledPlan result }
    {
        let Some(on) = self.jobs.running_step(run) else {
            unreachable!()
        };
        self.jobs.told(self.store.layout(), on, unit)
    }

    /// What a turn comes to whose step doesn't get its volumes: its run ends, or the operator hasn't answered.
    pub(crate) fn unmounted(&mut self, taking: Taking, plan: Plan) -> Result<Reply, DeskError>
        requires is_open { self.old.store.fault ≡ None }
        requires ends { EndsUnmounted self.old.store.layout self.old.jobs taking plan }
        requires spelled { IsSpelledPlan plan }
        requires follows { PlanFollows self.old.store.layout self.old.jobs.tables.desk plan }
        requires commits { PlanCommits self.old.jobs.tables.desk self.old.jobs.running plan }
        requires leaves { PlanLeaves self.old.jobs.failed plan }
        requires due { HasDue self.old.jobs plan }
        ensures turned { (turn : TurnOf) → IsPlanned D.told D.content D.may_leave self.old (untaken turn) plan
            → HasTurned D.told D.content D.may_leave D.moment D.left_since D.size (record { turn = turn; taking = taking }) (restart_answer self.old.machine_room.operator) self.old self.new result }
        ensures unasked { (turn : TurnOf) → IsPlanned D.told D.content D.may_leave self.old (untaken turn) plan
            → asks (state_of D.content self.old) (record { turn = turn; taking = taking }) (restart_answer self.old.machine_room.operator) ≡ false }
        ensures machine_room { self.new.machine_room ≡ self.old.machine_room }
        ensures memory { IfErr result (λ error. error ≡ NoMemory → ⊥) }
        ensures spelled { IfOk result IsToldReply }
        ensures is_open { OnOk result (self.new.store.fault ≡ None) }
        ensures layout { self.new.store.layout ≡ self.old.store.layout }
        ensures size { D.size self.new.store.disk ≡ D.size self.old.store.disk }
        ensures faults { D.faults self.old.store.disk ≤ D.faults self.new.store.disk }
        ensures may_fail { IfErr result (MayFail (D.faults self.old.store.disk) (D.faults self.new.store.disk) self.old.store.fault) }
        ensures full { IfErr result (TellsNumbers (room_of self.old.store.book)) }
        ensures stays { IfErr result (StaysBy D.content D.may_leave D.faults self.old self.new) }
    {
        let plan = self.jobs.plan_by(self.store.layout(), taking, plan);
        self.carry_out_with(plan, Prepared::none())
    }
}
