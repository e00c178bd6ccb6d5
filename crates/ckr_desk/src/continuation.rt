//! A run that goes on at a checkpoint of an earlier one: before it does, the checkpoint's entry is read from the disk.
ghost use Rattle.std.specs.Prelude.{◌≡◌, ◌≤◌, IfErr, IfOk, OnOk, None, true};
ghost use Rattle.std.specs.Option.{option_map};
ghost use Rattle.ckr_book.specs.Book.{room_of};
ghost use Rattle.ckr_desk_refines.specs.DiskEntries.Continuation.{IsEntryRule, there_of};
ghost use Rattle.ckr_desk_refines.specs.Memory.OwnSteps.{PlanCommits, PlanFollows, PlanLeaves};
ghost use Rattle.ckr_desk_refines.specs.Memory.Plans.{HasDue, IsSpelledPlan, NeedsRoom};
ghost use Rattle.ckr_library.specs.NameMaps.{EachEntry};
ghost use Rattle.ckr_outside.specs.Disk.{OnlyReads};
ghost use Rattle.ckr_points.specs.Restart.{syschk_name};
ghost use Rattle.ckr_points.specs.Rows.{TableSet};
ghost use Rattle.ckr_points.specs.Syschk.{names_its_set};
ghost use Rattle.ckr_rules.specs.RuleTables.{rule_number};
ghost use Rattle.ckr_volumes.specs.Layouts.{StandsIn};
ghost use Rattle.ckr_desk_store.specs.State.{IsSound};
ghost use Rattle.ckr_desk.specs.Continuation.{GoesOnThere, IsPointFound, PlanKnows, continuation_by, continuation_in, denial_plan, entry_there, judged_plan, judged_point, point_by, program_in, there_under};
ghost use Rattle.ckr_desk.specs.NoChange.{HaveStayed, IsUnchanged, StaysBy};
ghost use Rattle.ckr_desk.specs.Records.{ReadingCause};
ghost use Rattle.ckr_desk.specs.Soundness.{state_of};
ghost use Rattle.ckr_desk.specs.Units.{IsPlanned};
ghost use Rattle.ckr_desk_turn.specs.Turns.{MountedTurn};

use crate::entries::point_at;
use crate::{Desk, DeskError};
use ckr_base::CheckId;
use ckr_console::Operator;
use ckr_desk_refines::{
    KeptThere, StepPoint, StepState, Tables, entry_of_syschk, judged_there, run_now, set_of_syschk,
    step_at,
};
use ckr_desk_store::Store;
use ckr_desk_turn::{Plan, Reply, rule_number};
use ckr_events::Event;
use ckr_jcl::{Job, Kind};
use ckr_outside::Disk;
use ckr_points::Denial;
use ckr_rules::Rule;
use std::alloc::Global;

/// The checkpoint of an earlier run at which a run goes on.
#[derive(Drop)]
pub(crate) struct Continuation {
    job: u32,
    earlier: u32,
    step: u8,
    id: CheckId,
}

/// The checkpoint at which a run is selected to go on, if it continues an earlier one at a checkpoint.
fn continuation_by(event: &Event) -> Option<Continuation>
    ensures { result ≡ continuation_by event.now }
{
    match event {
        Event::Selected {
            job,
            earlier,
            step,
            id,
            ..
        } => {
            if *earlier == 0 {
                return None;
            }
            match id {
                Some(id) => Some(Continuation {
                    job: *job,
                    earlier: *earlier,
                    step: *step,
                    id: id.copied(),
                }),
                None => None,
            }
        }
        _ => None,
    }
}

/// The checkpoint at which a run goes on by a plan.
fn continuation_in(plan: &Plan) -> Option<Continuation>
    ensures { result ≡ continuation_in plan.now }
{
    match plan {
        Plan::Tell { event, .. } => continuation_by(event),
        _ => None,
    }
}

/// The first entry of an identifier that the data set of a deck's SYSCHK keeps, with that data set.
fn there_in_syschk<'a>(tables: &'a Tables, deck: &Job, id: &CheckId) -> Option<KeptThere<'a>>
    requires { names_its_set deck.now.syschk ≡ true }
    ensures { option_map there_of result ≡ there_under tables.now.desk id.now (syschk_name deck.now) }
{
    let Some(set) = set_of_syschk(tables, deck) else {
        return None;
    };
    match entry_of_syschk(tables, deck, id) {
        Some(entry) => Some(KeptThere { set, entry }),
        None => None,
    }
}

/// The entry at which a run goes on.
fn entry_there<'a>(tables: &'a Tables, at: &Continuation) -> Option<KeptThere<'a>>
    ensures { option_map there_of result ≡ entry_there tables.now.desk at.now }
{
    match run_now(tables, at.job) {
        Some(run) => there_in_syschk(tables, run.table.job.deck(), &at.id),
        None => None,
    }
}

/// The program of a step of a run.
fn program_in(tables: &Tables, run: u32, step: u8) -> Option<Kind>
    ensures { result ≡ program_in tables.now.desk run step }
{
    let Some(now) = run_now(tables, run) else {
        return None;
    };
    match step_at(&now.table.job, now.line.number, step) {
        Some(own) => Some(own.step.program),
        None => None,
    }
}

/// The point of a run whose step stands so, or the rule.
fn point_by(run: u32, found: Result<StepState, Rule>) -> Result<StepPoint, Rule>
    ensures { result ≡ point_by run found }
{
    match found {
        Ok(state) => Ok(point_at(run, state)),
        Err(rule) => Err(rule),
    }
}

/// The point at which a run goes on; or the rule that denies it, also where the entry isn't kept.
fn judged_point<D: Disk>(
    alloc: Global,
    store: &mut Store<D>,
    tables: &Tables,
    at: &Continuation,
) -> Result<Result<StepPoint, Rule>, DeskError>
    requires is_open { store.old.fault ≡ None }
    requires sound { IsSound D.content D.may_leave D.size store.old }
    requires stand { EachEntry (λ (table : TableSet). StandsIn store.old.layout table.set) tables.now.desk.sets }
    ensures judged { D.told → IfOk result (λ found. found ≡ judged_point store.old.layout tables.now.desk (D.content store.old.disk) at.now) }
    ensures its { IfOk result (IsPointFound at.now.job (program_in tables.now.desk at.now.earlier at.now.step)) }
    ensures kept { OnOk result (store.new ≡ record store.old { disk = store.new.disk }) }
    ensures sound { IsSound D.content D.may_leave D.size store.new }
    ensures only_reads { OnlyReads D.content D.may_leave D.moment D.left_since store.old.disk store.new.disk }
    ensures size { D.size store.new.disk ≡ D.size store.old.disk }
    ensures faults { D.faults store.old.disk ≤ D.faults store.new.disk }
    ensures cause { IfErr result (ReadingCause D.faults store.old store.new) }
{
    let program = program_in(tables, at.earlier, at.step);
    match entry_there(tables, at) {
        Some(there) => Ok(point_by(at.job, judged_there(alloc, store, &there, program)?)),
        None => Ok(Err(Rule::D3)),
    }
}

/// The restart is denied by a rule that tells what is wrong with an entry.
fn denied(job: u32, rule: Rule) -> Plan
    requires { IsEntryRule rule }
    ensures plan { result ≡ denial_plan job rule }
    ensures spelled { IsSpelledPlan result }
{
    Plan::Tell {
        reply: Reply::DeniedRestart {
            job,
            denial: Denial {
                rule,
                name: None,
                had: None,
                now: None,
            },
        },
        event: Event::Denied {
            job,
            rule: rule_number(rule),
            name: None,
        },
    }
}

impl<D: Disk, O: Operator> Desk<D, O> {
    /// Judges a plan by which a run goes on at a checkpoint of an earlier one: the checkpoint's entry is read, and where it is as the tables keep it, with
    /// a state of the step's program, the step's point is known from then on. Else the plan is the denial by D3 or D7. Every other plan is given as it is,
    /// and nothing is done (IBM GC28-6708, this project's profile).
    ///
    /// `NoMemory`: nothing has changed. `DiskFault`: only where the disk's faults rose in this call; then the desk has stopped. Nothing else comes.
    pub(crate) fn judged(&mut self, plan: Plan) -> Result<Plan, DeskError>
        requires is_open { self.old.store.fault ≡ None }
        requires spelled { IsSpelledPlan plan }
        requires follows { PlanFollows self.old.store.layout self.old.jobs.tables.desk plan }
        requires commits { PlanCommits self.old.jobs.tables.desk self.old.jobs.running plan }
        requires leaves { PlanLeaves self.old.jobs.failed plan }
        requires due { HasDue self.old.jobs plan }
        ensures judged { D.told → IfOk result (λ given. given ≡ judged_plan self.old.store.layout self.old.jobs.tables.desk (D.content self.old.store.disk) plan) }
        ensures spelled { IfOk result IsSpelledPlan }
        ensures follows { IfOk result (PlanFollows self.new.store.layout self.new.jobs.tables.desk) }
        ensures commits { IfOk result (PlanCommits self.new.jobs.tables.desk self.new.jobs.running) }
        ensures leaves { IfOk result (PlanLeaves self.new.jobs.failed) }
        ensures due { IfOk result (HasDue self.new.jobs) }
        ensures knows { IfOk result (PlanKnows self.new.jobs.tables.desk self.new.jobs.points) }

        // On a trusted disk the plan stays, and the point is that of the entry at which the run goes on.
        ensures trusted { (turn : MountedTurn) → IsPlanned D.told D.content D.may_leave self.old turn plan → IfOk result (GoesOnThere (state_of D.content self.old).desk self.new.jobs.points plan) }
        ensures jobs { HaveStayed self.old.jobs self.new.jobs }
        ensures machine_room { self.new.machine_room ≡ self.old.machine_room }
        ensures is_open { OnOk result (self.new.store.fault ≡ None) }
        ensures layout { self.new.store.layout ≡ self.old.store.layout }
        ensures room { room_of self.new.store.book ≡ room_of self.old.store.book }
        ensures only_reads { OnlyReads D.content D.may_leave D.moment D.left_since self.old.store.disk self.new.store.disk }
        ensures size { D.size self.new.store.disk ≡ D.size self.old.store.disk }
        ensures faults { D.faults self.old.store.disk ≤ D.faults self.new.store.disk }
        ensures unchanged { OnOk result (IsUnchanged D.content D.may_leave self.old self.new) }
        ensures cause { IfErr result (ReadingCause D.faults self.old.store self.new.store) }
        ensures takes { IfErr result (λ _. NeedsRoom plan) }
        ensures stays { IfErr result (StaysBy D.content D.may_leave D.faults self.old self.new) }
    {
        let Some(at) = continuation_in(&plan) else {
            return Ok(plan);
        };
        match judged_point(self.alloc, &mut self.store, self.jobs.tables(), &at)? {
            Ok(point) => {
                self.jobs.put_point(point)?;
                Ok(plan)
            }
            Err(rule) => Ok(denied(at.job, rule)),
        }
    }
}
