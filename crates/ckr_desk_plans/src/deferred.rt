//! What a turn comes to that takes up a queued run: without RESTART it is selected; with it, the deferred rules decide.
ghost use Rattle.std.specs.Prelude.{◌≡◌, ◌≤◌, IfSome, IsSome, IsTrue, Some};
ghost use Rattle.std.specs.Option.{option_map_or};
ghost use Rattle.ckr_base.specs.Grammar.{is_check_id, is_ds_name};
ghost use Rattle.ckr_desk_plans.specs.Plans.{IsSpelledPlan};
ghost use Rattle.ckr_desk_turn.specs.Deferred.{continued_at_entry, continued_at_start, deferred_plan, denied_plan, queued_plan};
ghost use Rattle.ckr_desk_turn.specs.Spelling.{IsSpelled};
ghost use Rattle.ckr_points.specs.Denials.{wanted_name};
ghost use Rattle.ckr_points.specs.Rows.{run_of, RunRow};
ghost use Rattle.ckr_points_follows.specs.Model.Runs.{row_now, IsRunNow};
ghost use Rattle.ckr_points_follows.specs.Model.Wanted.{wanted_in};
ghost use Rattle.ckr_points_tables.specs.Entries.{entry_in};
ghost use Rattle.ckr_rules.specs.RuleTables.{rule_number};

use ckr_base::{CheckId, DsName, Name8};
use ckr_desk_turn::{Plan, Reply, rule_number, selected_event};
use ckr_events::Event;
use ckr_jcl::Restart;
use ckr_points::Denial;
use ckr_points_follows::{
    RunNow, WantedNow, deferred_case, denial_of, earlier_number, run_now, wanted_of,
};
use ckr_points_tables::{EntryNow, Tables};
use ckr_rules::{Rule, Verdict, deferred};
use ckr_volumes::Layout;

/// The same name of a data set, or none.
fn copy_of_name(name: &Option<DsName>) -> Option<DsName>
    ensures value { result ≡ name.now }
    ensures grammar { IfSome result (λ text. IsTrue (is_ds_name text)) }
{
    match name {
        Some(name) => {
            let _grammar = name.text();
            Some(name.copied())
        }
        None => None,
    }
}

/// The same identifier, or none.
fn copy_of_id(id: &Option<CheckId>) -> Option<CheckId>
    ensures value { result ≡ id.now }
    ensures grammar { IfSome result (λ text. IsTrue (is_check_id text)) }
{
    match id {
        Some(id) => {
            let _grammar = id.text();
            Some(id.copied())
        }
        None => None,
    }
}

/// The restart that a run asks for is denied by one of the rules D1 to D10, with the name that meets it, if the rule tells one.
fn denied_event(job: u32, rule: Rule, name: Option<DsName>) -> Event
    requires rule { 17 ≤ rule_number rule }
    requires name { IfSome name (λ text. IsTrue (is_ds_name text)) }
    ensures event { result ≡ Event.Denied job (rule_number rule) name }
    ensures spelled { IsSpelled result }
{
    Event::Denied {
        job,
        rule: rule_number(rule),
        name,
    }
}

/// A run is selected on an initiator, and goes on from an earlier one: at the start of a step, or at a checkpoint of it.
fn continued_event(job: u32, initiator: u8, earlier: u32, step: u8, id: Option<CheckId>) -> Event
    requires { IfSome id (λ text. IsTrue (is_check_id text)) }
    ensures event { result ≡ Event.Selected job initiator earlier step id }
    ensures spelled { IsSpelled result }
{
    Event::Selected {
        job,
        initiator,
        earlier,
        step,
        id,
    }
}

/// The restart is denied.
fn denied(job: u32, denial: Denial) -> Plan
    requires { 17 ≤ rule_number denial.rule }
    ensures plan { (row : RunRow) → row.number ≡ job → result ≡ denied_plan row denial }
    ensures spelled { IsSpelledPlan result }
{
    let event = denied_event(job, denial.rule, copy_of_name(&denial.name));
    Plan::Tell {
        reply: Reply::DeniedRestart { job, denial },
        event,
    }
}

/// The name of the step that is wanted. The deck has it.
fn name_of(wanted: &WantedNow<'_>) -> Name8
    requires { IsSome (wanted_in wanted.now).step }
    ensures { result ≡ wanted_name (wanted_in wanted.now) }
{
    match wanted.step {
        Some(step) => step.name.copied(),
        None => unreachable!(),
    }
}

/// The run goes on at the start of the step.
fn at_start(job: u32, initiator: u8, wanted: &WantedNow<'_>) -> Plan
    requires { IsSome (wanted_in wanted.now).step }
    ensures plan { (row : RunRow) → row.number ≡ job → result ≡ continued_at_start initiator row (wanted_in wanted.now) }
    ensures spelled { IsSpelledPlan result }
{
    Plan::Tell {
        reply: Reply::Restarted {
            job,
            step: name_of(wanted),
            id: None,
            taken: 0,
        },
        event: continued_event(job, initiator, earlier_number(wanted), wanted.number, None),
    }
}

/// The records that a step had taken at an entry.
fn taken_at(entry: &EntryNow<'_>) -> u32
    ensures { result ≡ (entry_in entry.now).point.taken }
{
    match entry.written {
        Some(written) => written.taken,
        None => 0,
    }
}

/// The run goes on at a checkpoint of the step, by its entry.
fn at_entry(job: u32, initiator: u8, wanted: &WantedNow<'_>, entry: &EntryNow<'_>) -> Plan
    requires { IsSome (wanted_in wanted.now).step }
    ensures plan { (row : RunRow) → row.number ≡ job → result ≡ continued_at_entry initiator row (wanted_in wanted.now) (entry_in entry.now) }
    ensures spelled { IsSpelledPlan result }
{
    let id = Some(entry.kept.id.copied());
    let event = continued_event(
        job,
        initiator,
        earlier_number(wanted),
        wanted.number,
        copy_of_id(&id),
    );
    Plan::Tell {
        reply: Reply::Restarted {
            job,
            step: name_of(wanted),
            id,
            taken: taken_at(entry),
        },
        event,
    }
}

/// The run goes on at the checkpoint that is wanted. Where its entry isn't found, nothing is done.
fn at_checkpoint(job: u32, initiator: u8, wanted: &WantedNow<'_>) -> Plan
    requires { IsSome (wanted_in wanted.now).step }
    ensures plan { (row : RunRow) → row.number ≡ job → result ≡ option_map_or (continued_at_entry initiator row (wanted_in wanted.now)) (wanted_in wanted.now).entry (Plan.Rest Reply.Idle) }
    ensures spelled { IsSpelledPlan result }
{
    match &wanted.entry {
        Some(entry) => at_entry(job, initiator, wanted, entry),
        None => Plan::Rest(Reply::Idle),
    }
}

/// What the restart that a run asks for comes to: it is denied, or the run goes on at the start of the step or at the checkpoint
/// (IBM GC28-6708, this project's profile).
fn deferred_plan<'a>(
    layout: &Layout,
    tables: &'a Tables,
    initiator: u8,
    run: &RunNow<'a>,
    restart: &Restart,
) -> Plan
    requires { IsRunNow run.now }
    ensures plan { result ≡ deferred_plan layout.now tables.now.desk initiator (row_now run.now) restart.now }
    ensures spelled { IsSpelledPlan result }
{
    let job = run.line.number;
    let wanted = wanted_of(tables, run, restart);
    match deferred(&deferred_case(layout, tables, run, &wanted)) {
        Verdict::Denied(rule) => denied(job, denial_of(tables, run, &wanted, rule)),
        Verdict::Step => at_start(job, initiator, &wanted),
        Verdict::Checkpoint => at_checkpoint(job, initiator, &wanted),
    }
}

/// What a turn comes to that takes up a queued run: without RESTART it is selected on the initiator; with it, the deferred rules decide. Where
/// there is no such run, nothing is done.
pub fn queued_plan(layout: &Layout, tables: &Tables, initiator: u8, job: u32) -> Plan
    ensures plan { (row : RunRow) → run_of tables.now.desk job ≡ Some row → row.number ≡ job → result ≡ queued_plan layout.now tables.now.desk initiator row row.deck.restart }
    ensures spelled { IsSpelledPlan result }
{
    let Some(run) = run_now(tables, job) else {
        return Plan::Rest(Reply::Idle);
    };
    match &run.table.job.deck().restart {
        Some(restart) => deferred_plan(layout, tables, initiator, &run, restart),
        None => Plan::Tell {
            reply: Reply::Selected { job },
            event: selected_event(job, initiator),
        },
    }
}
