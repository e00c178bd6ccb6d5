//! The volumes that a step wants before it starts or goes on, and what its turn comes to by what has become of them.
ghost use Rattle.std.specs.Prelude.{◌≡◌, ◌≤◌, IfNone, IfSome, IsTrue, List, None, length, option_and_then};
ghost use Rattle.std.specs.List.{AllByRecursion};
ghost use Rattle.std.specs.Option.{option_map, option_map_or};
ghost use Rattle.ckr_desk_memory.specs.Invariant.{AreJobs, IsAcceptedRow};
ghost use Rattle.ckr_desk_memory.specs.Mounts.{dd_from, is_dd_on, lies_on, stands_on, volumes_from, IsNamedStep, IsWantingStep};
ghost use Rattle.ckr_desk_memory.specs.OwnSteps.{HoldTheirOwn, PlanCommits, PlanFollows, PlanLeaves};
ghost use Rattle.ckr_desk_memory.specs.Plans.{HasDue, IsSpelledPlan, IsToldReply};
ghost use Rattle.ckr_desk_memory.specs.View.{RunningStepView};
ghost use Rattle.ckr_desk_turn.specs.Mounts.{dd_on, ended_at, is_made_there, is_sought, plan_by, volumes_of, wanting, wants, Wanting};
ghost use Rattle.ckr_desk_turn.specs.Plans.{allocation_ended};
ghost use Rattle.ckr_desk_turn.specs.declared.failed_run.FailedRun.{FailedRun as FailedOne};
ghost use Rattle.ckr_queue.specs.Units.{is_volume_list};

use crate::Jobs;
use arrayvec::ArrayVec;
use ckr_base::DsName;
use ckr_desk_plans::{Refusal, place_of};
use ckr_desk_turn::{Cause, Plan, Reply, Taking};
use ckr_events::{Event, Made};
use ckr_jcl::Dd;
use ckr_library::{DataSet, Library};
use ckr_points::step_in;
use ckr_points_tables::{OwnStep, step_at};
use ckr_uses::library_name;
use ckr_volumes::Layout;

/// A step that wants its volumes.
#[derive(Drop)]
struct WantingStep<'a> {
    /// The number of its run.
    run: u32,
    /// Its number, from 1.
    number: u8,
    /// The number of the first of the runs that its run continues.
    root: u32,
    own: OwnStep<'a>,
    /// The parts that it is about to make.
    made: &'a [Made],
}

/// The run whose step wants its volumes, and the parts that the step makes: it starts, works, or cancels restarts.
fn want_of(plan: &Plan) -> Option<(u32, &[Made])>
    ensures { option_map (λ want. (want.0, want.1.now)) result ≡ wants plan.now }
{
    match plan {
        Plan::Tell {
            event: Event::Started { job, made, .. },
            ..
        } => Some((*job, made.as_slice())),
        Plan::Tell {
            event: Event::Cancelled { job },
            ..
        }
        | Plan::Work { job } => Some((*job, &[])),
        _ => None,
    }
}

/// The run whose step wants its volumes in a turn that comes to this plan. None where no step does.
pub fn run_wanting(plan: &Plan) -> Option<u32>
    ensures { result ≡ option_map (λ want. want.0) (wants plan.now) }
{
    match want_of(plan) {
        Some((run, _)) => Some(run),
        None => None,
    }
}

/// Whether a volume is the one that is looked for, or any is.
fn is_sought(sought: Option<u8>, volume: u8) -> bool
    ensures { result ≡ is_sought sought volume }
{
    match sought {
        Some(one) => volume == one,
        None => true,
    }
}

/// Whether the DD of a number makes its data set there.
fn is_made_there(made: &[Made], sought: Option<u8>, number: u8) -> bool
    ensures { result ≡ is_made_there made.now sought number }
{
    made.iter()
        .any(|item| item.dd == number && is_sought(sought, item.volume))
}

/// Whether a data set has a part there.
fn lies_on(set: &DataSet, sought: Option<u8>) -> bool
    ensures { result ≡ lies_on sought set.now }
{
    set.parts
        .as_slice()
        .iter()
        .any(|part| is_sought(sought, part.volume))
}

/// Whether the library has the data set of a DD, with a part there.
fn stands_on(sets: &Library, sought: Option<u8>, name: Option<DsName>) -> bool
    ensures { result ≡ stands_on sets.now.sets sought name }
{
    let Some(name) = name else {
        return false;
    };
    match sets.get(&name) {
        Some(set) => lies_on(set, sought),
        None => false,
    }
}

/// Whether the data set of a DD is there, or is made there.
fn is_dd_on(sets: &Library, step: &WantingStep<'_>, sought: Option<u8>, number: u8, dd: &Dd) -> bool
    requires { IsNamedStep step.now }
    ensures { result ≡ is_dd_on sets.now.sets step.now sought number dd.now }
{
    if is_made_there(step.made, sought, number) {
        return true;
    }
    let name = library_name(dd, step.root, step.own.owner, &step.own.step.name);
    stands_on(sets, sought, name)
}

/// The number of the first DD of a step whose data set is on the volume that is looked for, or on any.
fn dd_on(sets: &Library, step: &WantingStep<'_>, sought: Option<u8>) -> Option<u8>
    requires { IsNamedStep step.now }
    ensures { result ≡ dd_from sets.now.sets step.now sought 1 step.now.own.step.now.dds }
{
    let mut number = 0;
    for dd in step.own.step.dds.as_slice() {
        number += 1;
        if is_dd_on(sets, step, sought, number, dd) {
            return Some(number);
        }
    }
    None
}

/// Those of so many volumes on which data sets of a step are.
fn volumes_on(sets: &Library, step: &WantingStep<'_>, count: u8) -> ArrayVec<u8, 32>
    requires count { count ≤ 32 }
    requires named { IsNamedStep step.now }
    ensures volumes { result.items ≡ volumes_from sets.now.sets step.now 0 count }
    ensures list { IsTrue (is_volume_list result.items) }
{
    let mut volumes = ArrayVec::new();
    for volume in 0..count {
        if dd_on(sets, step, Some(volume)).is_some() {
            volumes.push(volume);
        }
    }
    volumes
}

impl Jobs {
    /// The step that wants its volumes in a turn that comes to this plan. None exactly where no step does.
    fn wanting<'a>(&'a self, plan: &'a Plan) -> Option<WantingStep<'a>>
        requires { AllByRecursion IsAcceptedRow self.now.tables.desk.runs }
        ensures some { IfSome result (IsWantingStep self.now.tables.desk plan.now) }
        ensures none { IfNone result (wanting self.now.tables.desk plan.now ≡ None) }
    {
        let (run, made) = want_of(plan)?;
        let table = self.known(run)?;
        let number = step_in(place_of(table));
        let own = step_at(&table.job, run, number)?;
        Some(WantingStep {
            run,
            number,
            root: table.job.root(),
            own,
            made,
        })
    }

    /// The volumes of the step that wants them in a turn that comes to this plan: those of its data sets, ascending, each counted from 0. None
    /// exactly where no step wants any.
    pub fn wanted(&self, layout: &Layout, plan: &Plan) -> Option<ArrayVec<u8, 32>>
        requires few { length layout.now.volumes.items ≤ 32 }
        requires jobs { AreJobs layout.now self.now }
        ensures volumes { option_map (λ volumes. volumes.items) result ≡ option_map (volumes_of layout.now) (wanting self.now.tables.desk plan.now) }
        ensures list { IfSome result (λ volumes. IsTrue (is_volume_list volumes.items)) }
    {
        let step = self.wanting(plan)?;
        let count = layout.volumes.as_slice().len() as u8;
        Some(volumes_on(self.tables.library(), &step, count))
    }

    /// The end of the run whose step wants its volumes, at the first DD that is on the volume that is looked for. None where there is no such DD.
    fn end_at(&self, plan: &Plan, sought: Option<u8>, cause: Cause) -> Option<Plan>
        requires { AllByRecursion IsAcceptedRow self.now.tables.desk.runs }
        ensures plan { result ≡ option_and_then (λ (step : Wanting). option_map (λ dd. allocation_ended step.row step.owned dd cause) (dd_on step sought)) (wanting self.now.tables.desk plan.now) }
        ensures spelled { IfSome result IsSpelledPlan }
    {
        let step = self.wanting(plan)?;
        let dd = dd_on(self.tables.library(), &step, sought)?;
        let name = step.own.step.name.copied();
        Some(self.refused(step.run, step.number, name, Refusal { dd, cause }))
    }

    /// What a turn comes to whose step can't have its volumes for this cause: its run ends at the first DD that is on the volume that is looked for.
    fn ended(&self, plan: Plan, sought: Option<u8>, cause: Cause) -> Plan
        requires rows { AllByRecursion IsAcceptedRow self.now.tables.desk.runs }
        requires spelled { IsSpelledPlan plan }
        ensures plan { result ≡ option_map_or (λ (step : Wanting). ended_at step cause plan (dd_on step sought)) (wanting self.now.tables.desk plan) plan }
        ensures spelled { IsSpelledPlan result }
    {
        match self.end_at(&plan, sought, cause) {
            Some(end) => end,
            None => plan,
        }
    }

    /// The same where its step waits for its volumes.
    fn rested(&self, plan: Plan, reply: Reply) -> Plan
        requires rows { AllByRecursion IsAcceptedRow self.now.tables.desk.runs }
        requires spelled { IsSpelledPlan plan }
        requires told { IsToldReply reply }
        ensures plan { result ≡ option_map_or (λ (step : Wanting). Plan.Rest reply) (wanting self.now.tables.desk plan) plan }
        ensures spelled { IsSpelledPlan result }
    {
        if self.wanting(&plan).is_some() {
            Plan::Rest(reply)
        } else {
            plan
        }
    }

    /// What a turn comes to, by what has become of the volumes that its step wants (this project's profile). Where none does, it comes to what it came to.
    pub fn plan_by(&self, layout: &Layout, taking: Taking, plan: Plan) -> Plan
        requires few { length layout.now.volumes.items ≤ 32 }
        requires jobs { AreJobs layout.now self.now }
        requires spelled { IsSpelledPlan plan }
        ensures plan { result ≡ plan_by layout.now self.now.tables.desk taking plan }
        ensures spelled { IsSpelledPlan result }

        // What it tells follows, commits what is its step's own, and comes to what is due, where the plan did.
        ensures own { PlanFollows layout.now self.now.tables.desk plan → HasDue self.now plan → HoldTheirOwn self.now → PlanFollows layout.now self.now.tables.desk result }
        ensures commits { (running : List RunningStepView) → PlanCommits self.now.tables.desk running plan → PlanCommits self.now.tables.desk running result }
        ensures left { (failed : List FailedOne) → PlanLeaves failed plan → PlanLeaves failed result }
        ensures due { HasDue self.now plan → HasDue self.now result }
    {
        let _lines = self.tables.runs();
        self.by_taking(layout, taking, plan)
    }

    /// The same plan, and no more said of it.
    fn by_taking(&self, layout: &Layout, taking: Taking, plan: Plan) -> Plan
        requires rows { AllByRecursion IsAcceptedRow self.now.tables.desk.runs }
        requires spelled { IsSpelledPlan plan }
        ensures plan { result ≡ plan_by layout.now self.now.tables.desk taking plan }
        ensures spelled { IsSpelledPlan result }
    {
        match taking {
            Taking::Taken => plan,
            Taking::Exceeds { need } => {
                let units = layout.units;
                self.ended(plan, None, Cause::Units { need, units })
            }
            Taking::Lacks { need, free } => self.rested(plan, Reply::WaitingUnits { need, free }),
            Taking::Refused { volume } => {
                self.ended(plan, Some(volume), Cause::MountRefused { volume })
            }
            Taking::Awaited => self.rested(plan, Reply::AwaitingReply),
        }
    }
}
