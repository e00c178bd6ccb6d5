//! A turn whose step comes by the volumes that it wants.
ghost use Rattle.std.specs.Prelude.{◌≡◌, ◌≤◌, IfErr, IfOk, OnOk, None};
ghost use Rattle.ckr_book.specs.Book.{room_of};
ghost use Rattle.ckr_desk_refines.specs.Memory.OwnSteps.{PlanCommits, PlanFollows, PlanLeaves};
ghost use Rattle.ckr_desk_refines.specs.Memory.Plans.{HasDue, IsSpelledPlan, IsToldReply};
ghost use Rattle.ckr_desk_turn.specs.declared.plan.Plan.TheVariants as Plans;
ghost use Rattle.ckr_desk_turn.specs.declared.reply.Turn.{Turn as TurnOf};
ghost use Rattle.ckr_desk_store.specs.State.{IsSound};
ghost use Rattle.ckr_desk.specs.Attendance.{HasAttended, IsToMount, untaken};
ghost use Rattle.ckr_desk.specs.Continuation.{PlanKnows, PlanStandsAt};
ghost use Rattle.ckr_desk.specs.NoChange.{StaysBy};
ghost use Rattle.ckr_desk.specs.Preparation.{IsTellingPlan};
ghost use Rattle.ckr_desk.specs.Requests.{MayFail, TellsNumbers};
ghost use Rattle.ckr_desk.specs.Soundness.{state_of};
ghost use Rattle.ckr_desk.specs.Units.{IsPlanned};

use crate::{Desk, DeskError};
use ckr_console::Operator;
use ckr_desk_refines::{Prepared, run_wanting};
use ckr_desk_turn::{Plan, Reply, Taking};
use ckr_outside::Disk;
use ckr_queue::VolumeList;

impl<D: Disk, O: Operator> Desk<D, O> {
    /// Carries out what a turn of an initiator comes to, once its step has the volumes that it wants.
    pub(crate) fn attend(&mut self, initiator: u8, plan: Plan) -> Result<Reply, DeskError>
        requires is_open { self.old.store.fault ≡ None }
        requires above { 1 ≤ initiator }
        requires below { initiator ≤ self.old.store.layout.initiators }
        requires spelled { IsSpelledPlan plan }
        requires knows { PlanKnows self.old.jobs.tables.desk self.old.jobs.points plan }
        requires follows { PlanFollows self.old.store.layout self.old.jobs.tables.desk plan }
        requires commits { PlanCommits self.old.jobs.tables.desk self.old.jobs.running plan }
        requires leaves { PlanLeaves self.old.jobs.failed plan }
        requires due { HasDue self.old.jobs plan }
        ensures attended { (turn : TurnOf) → turn.initiator ≡ initiator → IsPlanned D.told D.content D.may_leave self.old (untaken turn) plan → PlanStandsAt (state_of D.content self.old).desk self.old.jobs.points plan
            → HasAttended D.told D.content D.may_leave D.moment D.left_since D.size turn self.old self.new result }
        ensures spelled { IfOk result IsToldReply }
        ensures is_open { OnOk result (self.new.store.fault ≡ None) }
        ensures layout { self.new.store.layout ≡ self.old.store.layout }
        ensures size { D.size self.new.store.disk ≡ D.size self.old.store.disk }
        ensures faults { D.faults self.old.store.disk ≤ D.faults self.new.store.disk }
        ensures may_fail { IfErr result (MayFail (D.faults self.old.store.disk) (D.faults self.new.store.disk) self.old.store.fault) }
        ensures full { IfErr result (TellsNumbers (room_of self.old.store.book)) }
        ensures stays { IfErr result (StaysBy D.content D.may_leave D.faults self.old self.new) }
    {
        if self.machine_room.holds(initiator) {
            return self.carry_out(plan);
        }
        let Some(wanted) = self.jobs.wanted(self.store.layout(), &plan) else {
            return self.carry_out(plan);
        };
        let Some(taking) = self.machine_room.unasked(self.store.layout(), &wanted) else {
            return self.mount(initiator, plan, wanted);
        };
        match taking {
            Taking::Taken => {
                let reply = self.carry_out(plan)?;
                self.machine_room.take(initiator, wanted);
                Ok(reply)
            }
            taking => {
                let plan = self.jobs.plan_by(self.store.layout(), taking, plan);
                self.carry_out(plan)
            }
        }
    }

    /// The same where the operator is asked for some of the volumes.
    fn mount(&mut self, initiator: u8, plan: Plan, wanted: VolumeList) -> Result<Reply, DeskError>
        requires is_open { self.old.store.fault ≡ None }
        requires sound { IsSound D.content D.may_leave D.size self.old.store }
        requires above { 1 ≤ initiator }
        requires below { initiator ≤ self.old.store.layout.initiators }
        requires spelled { IsSpelledPlan plan }
        requires knows { PlanKnows self.old.jobs.tables.desk self.old.jobs.points plan }
        requires follows { PlanFollows self.old.store.layout self.old.jobs.tables.desk plan }
        requires commits { PlanCommits self.old.jobs.tables.desk self.old.jobs.running plan }
        requires leaves { PlanLeaves self.old.jobs.failed plan }
        requires due { HasDue self.old.jobs plan }
        requires to_mount { IsToMount self.old.store.layout self.old.jobs self.old.machine_room initiator plan wanted.items }
        ensures attended { (turn : TurnOf) → turn.initiator ≡ initiator → IsPlanned D.told D.content D.may_leave self.old (untaken turn) plan → PlanStandsAt (state_of D.content self.old).desk self.old.jobs.points plan
            → HasAttended D.told D.content D.may_leave D.moment D.left_since D.size turn self.old self.new result }
        ensures spelled { IfOk result IsToldReply }
        ensures is_open { OnOk result (self.new.store.fault ≡ None) }
        ensures layout { self.new.store.layout ≡ self.old.store.layout }
        ensures size { D.size self.new.store.disk ≡ D.size self.old.store.disk }
        ensures faults { D.faults self.old.store.disk ≤ D.faults self.new.store.disk }
        ensures may_fail { IfErr result (MayFail (D.faults self.old.store.disk) (D.faults self.new.store.disk) self.old.store.fault) }
        ensures full { IfErr result (TellsNumbers (room_of self.old.store.book)) }
        ensures stays { IfErr result (StaysBy D.content D.may_leave D.faults self.old self.new) }
    {
        match plan {
            Plan::Work { job } => self.mount_and_work(initiator, job, wanted),
            plan => self.mount_and_tell(initiator, plan, wanted),
        }
    }

    /// The same for a step that starts, or in which restarts are cancelled.
    fn mount_and_tell(
        &mut self,
        initiator: u8,
        plan: Plan,
        wanted: VolumeList,
    ) -> Result<Reply, DeskError>
        requires is_open { self.old.store.fault ≡ None }
        requires sound { IsSound D.content D.may_leave D.size self.old.store }
        requires above { 1 ≤ initiator }
        requires below { initiator ≤ self.old.store.layout.initiators }
        requires spelled { IsSpelledPlan plan }
        requires knows { PlanKnows self.old.jobs.tables.desk self.old.jobs.points plan }
        requires follows { PlanFollows self.old.store.layout self.old.jobs.tables.desk plan }
        requires commits { PlanCommits self.old.jobs.tables.desk self.old.jobs.running plan }
        requires leaves { PlanLeaves self.old.jobs.failed plan }
        requires due { HasDue self.old.jobs plan }
        requires to_mount { IsToMount self.old.store.layout self.old.jobs self.old.machine_room initiator plan wanted.items }
        requires telling { IsTellingPlan plan }
        ensures attended { (turn : TurnOf) → turn.initiator ≡ initiator → IsPlanned D.told D.content D.may_leave self.old (untaken turn) plan → PlanStandsAt (state_of D.content self.old).desk self.old.jobs.points plan
            → HasAttended D.told D.content D.may_leave D.moment D.left_since D.size turn self.old self.new result }
        ensures spelled { IfOk result IsToldReply }
        ensures is_open { OnOk result (self.new.store.fault ≡ None) }
        ensures layout { self.new.store.layout ≡ self.old.store.layout }
        ensures size { D.size self.new.store.disk ≡ D.size self.old.store.disk }
        ensures faults { D.faults self.old.store.disk ≤ D.faults self.new.store.disk }
        ensures may_fail { IfErr result (MayFail (D.faults self.old.store.disk) (D.faults self.new.store.disk) self.old.store.fault) }
        ensures full { IfErr result (TellsNumbers (room_of self.old.store.book)) }
        ensures stays { IfErr result (StaysBy D.content D.may_leave D.faults self.old self.new) }
    {
        let Some(run) = run_wanting(&plan) else {
            unreachable!()
        };
        let prepared = self.memory_for(run, &plan)?;
        match self.machine_room.mount_all(self.store.layout(), &wanted) {
            Taking::Taken => {
                let reply = self.carry_out_with(plan, prepared)?;
                self.machine_room.take(initiator, wanted);
                Ok(reply)
            }
            taking => self.unmounted(taking, plan),
        }
    }

    /// The same for a step that works on behind a restart.
    fn mount_and_work(
        &mut self,
        initiator: u8,
        run: u32,
        wanted: VolumeList,
    ) -> Result<Reply, DeskError>
        requires is_open { self.old.store.fault ≡ None }
        requires above { 1 ≤ initiator }
        requires below { initiator ≤ self.old.store.layout.initiators }
        requires spelled { IsSpelledPlan (Plans.Work run) }
        requires knows { PlanKnows self.old.jobs.tables.desk self.old.jobs.points (Plans.Work run) }
        requires follows { PlanFollows self.old.store.layout self.old.jobs.tables.desk (Plans.Work run) }
        requires commits { PlanCommits self.old.jobs.tables.desk self.old.jobs.running (Plans.Work run) }
        requires leaves { PlanLeaves self.old.jobs.failed (Plans.Work run) }
        requires due { HasDue self.old.jobs (Plans.Work run) }
        requires to_mount { IsToMount self.old.store.layout self.old.jobs self.old.machine_room initiator (Plans.Work run) wanted.items }
        ensures attended { (turn : TurnOf) → turn.initiator ≡ initiator → IsPlanned D.told D.content D.may_leave self.old (untaken turn) (Plans.Work run) → PlanStandsAt (state_of D.content self.old).desk self.old.jobs.points (Plans.Work run)
            → HasAttended D.told D.content D.may_leave D.moment D.left_since D.size turn self.old self.new result }
        ensures spelled { IfOk result IsToldReply }
        ensures is_open { OnOk result (self.new.store.fault ≡ None) }
        ensures layout { self.new.store.layout ≡ self.old.store.layout }
        ensures size { D.size self.new.store.disk ≡ D.size self.old.store.disk }
        ensures faults { D.faults self.old.store.disk ≤ D.faults self.new.store.disk }
        ensures may_fail { IfErr result (MayFail (D.faults self.old.store.disk) (D.faults self.new.store.disk) self.old.store.fault) }
        ensures full { IfErr result (TellsNumbers (room_of self.old.store.book)) }
        ensures stays { IfErr result (StaysBy D.content D.may_leave D.faults self.old self.new) }
    {
        let unit = self.work_out(run)?;
        let told = self.told_of(run, &unit);
        let prepared = self.memory_for(run, &told)?;
        match self.machine_room.mount_all(self.store.layout(), &wanted) {
            Taking::Taken => {
                let reply = self.work_with(run, unit, told, prepared)?;
                self.machine_room.take(initiator, wanted);
                Ok(reply)
            }
            taking => self.unmounted(taking, Plan::Work { job: run }),
        }
    }
}
