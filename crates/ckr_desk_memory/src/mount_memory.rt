//! Memory for a turn in which the operator is asked for mounts.
ghost use Rattle.std.specs.Prelude.{◌≡◌, IfOk, OnOk, Some, length};
ghost use Rattle.std.specs.List.{AllByRecursion};
ghost use Rattle.ckr_desk_memory.specs.Invariant.{AreJobs, IsAcceptedRow};
ghost use Rattle.ckr_desk_memory.specs.MountMemory.{IsPreparedToMount, IsPreparedToTell};
ghost use Rattle.ckr_points.specs.Rows.{RunRow, run_of};
ghost use Rattle.ckr_points_tables.specs.Invariant.{CanEnd};
ghost use Rattle.ckr_points_tables.specs.Rooms.{IsRoomier};
ghost use Rattle.ckr_volumes.specs.declared.layout.Layout.{Layout as LayoutOfDisk};

use crate::{Jobs, Prepared};
use ckr_base::NoMemory;
use ckr_desk_turn::{Cause, Plan, allocation_event};
use ckr_points_tables::runs_have_room;

impl Jobs {
    /// Takes the memory for a turn in which the operator is asked for mounts: for the event that its plan tells, or for whatever he answers if the
    /// plan asks him, and for the end of this run where he refuses a mount. So his answer costs none, and can't be lost for want of it. What the jobs
    /// are stays the same in either case.
    ///
    /// `NoMemory`: there may be none for one of them.
    pub fn prepare_mounts(&mut self, run: u32, plan: &Plan) -> Result<Prepared, NoMemory>
        requires rows { AllByRecursion IsAcceptedRow self.old.tables.desk.runs }
        ensures desk { self.new.tables.desk ≡ self.old.tables.desk }
        ensures running { self.new.running ≡ self.old.running }
        ensures failed { self.new.failed ≡ self.old.failed }
        ensures points { self.new.points ≡ self.old.points }
        ensures jobs { (layout : LayoutOfDisk) → AreJobs layout self.old → AreJobs layout self.new }
        ensures ok { IfOk result (IsPreparedToMount self.new run plan.now) }
    {
        self.room_for_end(run)?;
        self.prepare_to_tell(plan)
    }

    /// Room for the end of a run at a DD of its step. What the jobs are stays the same in either case.
    ///
    /// `NoMemory`: there may be none.
    fn room_for_end(&mut self, run: u32) -> Result<(), NoMemory>
        ensures desk { self.new.tables.desk ≡ self.old.tables.desk }
        ensures running { self.new.running ≡ self.old.running }
        ensures failed { self.new.failed ≡ self.old.failed }
        ensures points { self.new.points ≡ self.old.points }
        ensures jobs { (layout : LayoutOfDisk) → AreJobs layout self.old → AreJobs layout self.new }
        ensures end { OnOk result (CanEnd self.new.tables run) }
        ensures number { (row : RunRow) → run_of self.new.tables.desk run ≡ Some row → row.number ≡ run }
        ensures each { length self.new.tables.room.each ≡ length self.new.tables.desk.runs }
    {
        let event = allocation_event(run, 1, Cause::MountRefused { volume: 0 });
        let room = self.tables.make_room(&event);
        runs_have_room(&self.tables);
        room
    }

    /// The memory for what a plan tells, or asks.
    fn prepare_to_tell(&mut self, plan: &Plan) -> Result<Prepared, NoMemory>
        requires rows { AllByRecursion IsAcceptedRow self.old.tables.desk.runs }
        ensures desk { self.new.tables.desk ≡ self.old.tables.desk }
        ensures running { self.new.running ≡ self.old.running }
        ensures failed { self.new.failed ≡ self.old.failed }
        ensures points { self.new.points ≡ self.old.points }
        ensures jobs { (layout : LayoutOfDisk) → AreJobs layout self.old → AreJobs layout self.new }
        ensures room { IsRoomier self.old.tables.room self.new.tables.room }
        ensures ok { IfOk result (IsPreparedToTell self.new plan.now) }
    {
        match plan {
            Plan::Tell { event, .. } => self.prepare(event, None),
            Plan::Ask(inquiry) => self.prepare_answers(inquiry),
            _ => Ok(Prepared::none()),
        }
    }
}
