//! What a turn comes to.
ghost use Rattle.std.specs.Prelude.{◌≡◌, ◌≤◌, true, IfErr, IfOk, IsSome, None, Some, length};
ghost use Rattle.std.specs.List.{AllByRecursion};
ghost use Rattle.std.specs.Option.{option_map_or};
ghost use Rattle.ckr_desk_memory.specs.Invariant.{AreJobs, IsAcceptedRow};
ghost use Rattle.ckr_desk_memory.specs.OwnSteps.{AreLeft, HoldTheirOwn, PlanCommits, PlanFollows, PlanLeaves};
ghost use Rattle.ckr_desk_memory.specs.Plans.{next_step, row_for, HasCounts, HasDd, HasDue, IsAnyCode, IsKnown, IsSpelledPlan, NeedsRoom};
ghost use Rattle.ckr_desk_memory.specs.View.{jobs_of};
ghost use Rattle.ckr_meaning.specs.EffectiveJob.{OwnedStep};
ghost use Rattle.ckr_points.specs.Follows.{own_step};
ghost use Rattle.ckr_points.specs.Restart.{place_of as place_of_row, step_in as step_in_place};
ghost use Rattle.ckr_points.specs.Rows.{run_of, step_of_run, RunRow};
ghost use Rattle.ckr_desk_turn.specs.Codes.{code_plan, initiator_of, reached_by};
ghost use Rattle.ckr_desk_turn.specs.Invariant.{IsTurnOf};
ghost use Rattle.ckr_desk_turn.specs.Jobs.{is_failed, running_in, waiting_code};
ghost use Rattle.ckr_desk_turn.specs.Plans.{allocation_ended, between_plan, chosen_plan, fail_plan, free_plan, plan_of, run_plan, running_plan, waiting_plan};
ghost use Rattle.ckr_desk_turn.specs.Queue.{AreNumbered};
ghost use Rattle.ckr_desk_turn.specs.Spelling.{IsCode};

use crate::Jobs;
use crate::found_run::SYSTEM_FAILURE;
use ckr_base::{Code, Name8, NextDue, NoMemory};
use ckr_desk_plans::{
    Refusal, Seat, cancelled, checkpoint_due, code_plan, place_of, queued_plan, step_ended,
};
use ckr_desk_turn::{How, Plan, Reply, Turn, allocation_event, completed_event, started_event};
use ckr_meaning::Place;
use ckr_points_tables::RunTable;
use ckr_queue::Selection;
use ckr_volumes::Layout;

impl Jobs {
    /// What a turn of an initiator comes to. Nothing has changed behind it, in either case. A system failure comes first, then the code with which
    /// the run waits for the operator's word, then a code that is given, which is at most 4095 (IBM GC28-6708; the order is this project's profile).
    /// The runs that were running when the system failed are within their steps, and so are those of the running steps.
    ///
    /// `NoMemory`: there may be none to find the place of what a step makes.
    pub fn plan(&mut self, layout: &Layout, turn: Turn) -> Result<Plan, NoMemory>
        requires few { length layout.now.volumes.items ≤ 32 }
        requires turn { IsTurnOf layout.now turn }
        requires code { IsAnyCode turn.fail }
        requires jobs { AreJobs layout.now self.old }
        requires left { AreLeft self.old }
        requires own { HoldTheirOwn self.old }
        ensures plan { IfOk result (λ plan. plan ≡ plan_of layout.now (jobs_of self.old) turn) }
        ensures spelled { IfOk result IsSpelledPlan }
        ensures tables { self.new.tables.desk ≡ self.old.tables.desk }
        ensures running { self.new.running ≡ self.old.running }
        ensures failed { self.new.failed ≡ self.old.failed }
        ensures points { self.new.points ≡ self.old.points }
        ensures jobs { AreJobs layout.now self.new }

        // What it tells follows, whatever the disk reads, and what it commits is its step's own.
        ensures own { IfOk result (PlanFollows layout.now self.new.tables.desk) }
        ensures commits { IfOk result (PlanCommits self.new.tables.desk self.new.running) }
        ensures left { IfOk result (PlanLeaves self.new.failed) }

        // A unit or a checkpoint is due where the turn comes to one.
        ensures due { IfOk result (HasDue self.new) }

        // A turn that tells no event, or one that needs no memory, takes none.
        ensures takes { IfErr result (λ _. NeedsRoom (plan_of layout.now (jobs_of self.old) turn)) }
    {
        self.planned(layout, turn)
    }

    /// What a turn comes to, by the run of its initiator.
    fn planned(&mut self, layout: &Layout, turn: Turn) -> Result<Plan, NoMemory>
        requires few { length layout.now.volumes.items ≤ 32 }
        requires code { IsAnyCode turn.fail }
        requires jobs { AreJobs layout.now self.old }
        requires left { AreLeft self.old }
        requires own { HoldTheirOwn self.old }
        ensures numbered { AreNumbered 1 self.old.tables.desk.runs }
        ensures plan { IfOk result (λ plan. plan ≡ plan_of layout.now (jobs_of self.old) turn) }
        ensures spelled { IfOk result IsSpelledPlan }
        ensures tables { self.new.tables.desk ≡ self.old.tables.desk }
        ensures running { self.new.running ≡ self.old.running }
        ensures failed { self.new.failed ≡ self.old.failed }
        ensures points { self.new.points ≡ self.old.points }
        ensures takes { IfErr result (λ _. NeedsRoom (plan_of layout.now (jobs_of self.old) turn)) }
    {
        match self.tables.on_initiator(turn.initiator) {
            Some(job) => self.run_plan(layout, turn.initiator, job, turn.fail),
            None => Ok(self.free_plan(layout, turn.initiator, turn.fail)),
        }
    }

    /// The same for an initiator that has a run.
    fn run_plan(
        &mut self,
        layout: &Layout,
        initiator: u8,
        job: u32,
        fail: Option<Code>,
    ) -> Result<Plan, NoMemory>
        requires few { length layout.now.volumes.items ≤ 32 }
        requires code { IsAnyCode fail }
        requires jobs { AreJobs layout.now self.old }
        requires left { AreLeft self.old }
        requires own { HoldTheirOwn self.old }
        ensures plan { (row : RunRow) → run_of self.old.tables.desk job ≡ Some row → initiator_of row ≡ initiator → IfOk result (λ plan. plan ≡ run_plan layout.now (jobs_of self.old) fail row) }
        ensures spelled { IfOk result IsSpelledPlan }
        ensures tables { self.new.tables.desk ≡ self.old.tables.desk }
        ensures running { self.new.running ≡ self.old.running }
        ensures failed { self.new.failed ≡ self.old.failed }
        ensures points { self.new.points ≡ self.old.points }
        ensures takes { (row : RunRow) → run_of self.old.tables.desk job ≡ Some row → IfErr result (λ _. NeedsRoom (run_plan layout.now (jobs_of self.old) fail row)) }
    {
        match self.next_step(job, fail) {
            Some(number) => self.between(layout, job, number),
            None => Ok(self.settled(layout, initiator, job, fail)),
        }
    }

    /// The step that a run on an initiator is to start: the one that it is before, where it didn't fail, waits with no code, and none is given.
    fn next_step(&self, job: u32, fail: Option<Code>) -> Option<u8>
        requires { AllByRecursion IsAcceptedRow self.now.tables.desk.runs }
        ensures { (row : RunRow) → run_of self.now.tables.desk job ≡ Some row → result ≡ next_step (is_failed (jobs_of self.now) row.number) (waiting_code (jobs_of self.now) row.number) fail (place_of_row row) }
    {
        let table = self.known(job)?;
        if self.is_marked(job) || self.waiting_code(job).is_some() {
            return None;
        }
        if fail.is_some() {
            return None;
        }
        match place_of(table) {
            Place::Before(number) | Place::Opened(number) => Some(number),
            Place::Within(_, _) => None,
        }
    }

    /// The same for a run that is to start no step.
    fn settled(&self, layout: &Layout, initiator: u8, job: u32, fail: Option<Code>) -> Plan
        requires code { IsAnyCode fail }
        requires jobs { AreJobs layout.now self.now }
        requires left { AreLeft self.now }
        requires own { HoldTheirOwn self.now }
        requires next { (row : RunRow) → run_of self.now.tables.desk job ≡ Some row → next_step (is_failed (jobs_of self.now) row.number) (waiting_code (jobs_of self.now) row.number) fail (place_of_row row) ≡ None }
        ensures plan { (row : RunRow) → run_of self.now.tables.desk job ≡ Some row → initiator_of row ≡ initiator → result ≡ run_plan layout.now (jobs_of self.now) fail row }
        ensures spelled { IsSpelledPlan result }
    {
        let Some(table) = self.known(job) else {
            return Plan::Rest(Reply::Idle);
        };
        let seat = Seat {
            initiator,
            lodged: true,
        };
        if self.is_marked(job) {
            return self.coded(layout, seat, job, table, SYSTEM_FAILURE);
        }
        if let Some(code) = self.waiting_code(job) {
            return self.awaiting(layout, seat, job, table, code, fail);
        }
        match fail {
            Some(code) => self.failing(layout, seat, job, table, code),
            None => self.within(job, table),
        }
    }

    /// A run waits with a code for the operator's word: he is asked again. It isn't running, so that no code can be given.
    fn awaiting(
        &self,
        layout: &Layout,
        seat: Seat,
        job: u32,
        table: &RunTable,
        code: Code,
        fail: Option<Code>,
    ) -> Plan
        requires code { IsCode code }
        requires known { IsKnown self.now.tables.desk job table.now }
        requires there { IsSome (own_step (row_for job table.now)) }
        requires counted { AllByRecursion HasCounts self.now.running }
        requires lodged { seat.lodged ≡ true }
        ensures plan { (row : RunRow) → run_of self.now.tables.desk job ≡ Some row → initiator_of row ≡ seat.initiator → result ≡ waiting_plan layout.now (jobs_of self.now) row code fail }
        ensures spelled { IsSpelledPlan result }
    {
        match fail {
            Some(_) => Plan::Rest(Reply::NothingToFail),
            None => self.coded(layout, seat, job, table, code),
        }
    }

    /// A code is given for a run: that of its running step, if it is within one.
    fn failing(&self, layout: &Layout, seat: Seat, job: u32, table: &RunTable, code: Code) -> Plan
        requires code { IsCode code }
        requires known { IsKnown self.now.tables.desk job table.now }
        requires jobs { AreJobs layout.now self.now }
        requires lodged { seat.lodged ≡ true }
        ensures plan { (row : RunRow) → run_of self.now.tables.desk job ≡ Some row → initiator_of row ≡ seat.initiator → result ≡ fail_plan layout.now (jobs_of self.now) row (Some code) }
        ensures spelled { IsSpelledPlan result }
    {
        match place_of(table) {
            Place::Within(_, _) => self.coded(layout, seat, job, table, code),
            Place::Before(_) | Place::Opened(_) => Plan::Rest(Reply::NothingToFail),
        }
    }

    /// A run has a code within its step: it ends with it, or the operator is asked whether it may be restarted.
    fn coded(&self, layout: &Layout, seat: Seat, job: u32, table: &RunTable, code: Code) -> Plan
        requires code { IsCode code }
        requires known { IsKnown self.now.tables.desk job table.now }
        requires there { IsSome (own_step (row_for job table.now)) }
        requires counted { AllByRecursion HasCounts self.now.running }
        ensures plan { let row = row_for job table.now in result ≡ code_plan layout.now self.now.tables.desk row seat.initiator seat.lodged code (reached_by (jobs_of self.now) row) }
        ensures spelled { IsSpelledPlan result }
    {
        code_plan(
            layout,
            &self.tables,
            job,
            seat,
            table,
            code,
            self.reached(job, table),
        )
    }

    /// A run that is within a step and waits with no code does what is due: the step works on, or a checkpoint is taken or suppressed, or restarts are cancelled, or
    /// the step ends where its closing unit is done (IBM GC28-6708).
    fn within(&self, job: u32, table: &RunTable) -> Plan
        requires known { IsKnown self.now.tables.desk job table.now }
        requires there { IsSome (own_step (row_for job table.now)) }
        requires counted { AllByRecursion HasCounts self.now.running }
        requires waits { waiting_code (jobs_of self.now) job ≡ None }
        ensures plan { let row = row_for job table.now in result ≡ option_map_or (running_plan row (step_in_place (place_of_row row))) (running_in (jobs_of self.now) job) (Plan.Rest Reply.Idle) }
        ensures spelled { IsSpelledPlan result }
    {
        let Some(on) = self.running_in(job) else {
            return Plan::Rest(Reply::Idle);
        };
        match on.step.due() {
            NextDue::Unit => Plan::Work { job },
            NextDue::Checkpoint => checkpoint_due(job, table),
            NextDue::Cancel => cancelled(job, table),
            NextDue::Finished(rc) => step_ended(on, job, table, rc),
        }
    }

    /// A run that is before a step starts it, or ends where no step is left.
    fn between(&mut self, layout: &Layout, job: u32, number: u8) -> Result<Plan, NoMemory>
        requires few { length layout.now.volumes.items ≤ 32 }
        requires jobs { AreJobs layout.now self.old }
        ensures plan { (row : RunRow) → run_of self.old.tables.desk job ≡ Some row → IfOk result (λ plan. plan ≡ between_plan layout.now (jobs_of self.old) row number) }
        ensures spelled { IfOk result IsSpelledPlan }
        ensures tables { self.new.tables.desk ≡ self.old.tables.desk }
        ensures running { self.new.running ≡ self.old.running }
        ensures failed { self.new.failed ≡ self.old.failed }
        ensures points { self.new.points ≡ self.old.points }
        ensures takes { (row : RunRow) → IfErr result (λ _. NeedsRoom (between_plan layout.now (jobs_of self.old) row number)) }
    {
        let Some(name) = self.step_name(job, number) else {
            return Ok(Plan::Tell {
                reply: Reply::JobEnded {
                    job,
                    how: How::Completed,
                },
                event: completed_event(job),
            });
        };
        match self.tables.allocate(layout, job, number)? {
            Ok(made) => Ok(Plan::Tell {
                reply: Reply::Started { job, step: name },
                event: started_event(job, number, made),
            }),
            Err(refusal) => Ok(self.refused(job, number, name, refusal)),
        }
    }

    /// A DD of the step that a run is before can't be allocated, and the run ends.
    pub(crate) fn refused(&self, job: u32, number: u8, name: Name8, refusal: Refusal) -> Plan
        requires rows { AllByRecursion IsAcceptedRow self.now.tables.desk.runs }
        requires dd { HasDd self.now.tables.desk job number refusal.dd }
        ensures plan { (row : RunRow) (own : OwnedStep) → run_of self.now.tables.desk job ≡ Some row → step_of_run row number ≡ Some own → row.number ≡ job → name ≡ own.step.name → result ≡ allocation_ended row own refusal.dd refusal.cause }
        ensures spelled { IsSpelledPlan result }
    {
        let Some(dd) = self.dd_name(job, number, refusal.dd) else {
            unreachable!()
        };
        Plan::Tell {
            reply: Reply::JobEnded {
                job,
                how: How::Allocation {
                    step: name,
                    dd,
                    cause: refusal.cause,
                },
            },
            event: allocation_event(job, refusal.dd, refusal.cause),
        }
    }

    /// An initiator has no run: one may come to it.
    fn free_plan(&mut self, layout: &Layout, initiator: u8, fail: Option<Code>) -> Plan
        requires jobs { AreJobs layout.now self.old }
        ensures plan { result ≡ free_plan layout.now (jobs_of self.old) initiator fail }
        ensures spelled { IsSpelledPlan result }
        ensures stays { self.new ≡ self.old }
    {
        if fail.is_some() {
            return Plan::Rest(Reply::NothingToFail);
        }
        match self.queue.select() {
            Selection::Idle => Plan::Rest(Reply::Idle),
            Selection::Job(job) => self.chosen(layout, initiator, job),
        }
    }

    /// A run comes to an initiator. One that was released goes on with the code that it was held with; of one with RESTART the deferred rules decide.
    fn chosen(&self, layout: &Layout, initiator: u8, job: u32) -> Plan
        requires jobs { AreJobs layout.now self.now }
        ensures plan { (row : RunRow) → run_of self.now.tables.desk job ≡ Some row → result ≡ chosen_plan layout.now (jobs_of self.now) initiator row }
        ensures spelled { IsSpelledPlan result }
    {
        let Some(table) = self.known(job) else {
            return Plan::Rest(Reply::Idle);
        };
        match table.code {
            None => queued_plan(layout, &self.tables, initiator, job),
            Some(code) => {
                let seat = Seat {
                    initiator,
                    lodged: false,
                };
                self.coded(layout, seat, job, table, code)
            }
        }
    }
}
