//! A run that has a code: how far it has come, and its end by the rule that denies a restart, or what the operator is asked.
ghost use Rattle.std.specs.Prelude.{◌≡◌, ◌≤◌, false, ℕ, IsSome, None, Some, length};
ghost use Rattle.std.specs.List.{list_any};
ghost use Rattle.std.specs.Option.{option_map};
ghost use Rattle.ckr_base.specs.CodeText.{same_code};
ghost use Rattle.ckr_events.specs.Format.{length_list};
ghost use Rattle.ckr_library.specs.Catalog.{fresh_holding};
ghost use Rattle.ckr_library.specs.NameMaps.{with_entry};
ghost use Rattle.ckr_library.specs.declared.sets.DataSet.{DataSet as SetOfName};
ghost use Rattle.ckr_desk_plans.specs.Extents.{sets_of, AreShort};
ghost use Rattle.ckr_desk_plans.specs.Plans.{reached_seen, row_for, told_entry, IsSpelledPlan, IsUnitPlan};
ghost use Rattle.ckr_desk_plans.specs.StepView.{length_in, lengths_in, lengths_of_row};
ghost use Rattle.ckr_points.specs.RuleCases.{auto_case, rd_in_effect, since_point, since_start};
ghost use Rattle.ckr_points.specs.Follows.{own_step};
ghost use Rattle.ckr_points.specs.Restart.{place_of as place_of_row, step_in as step_in_place};
ghost use Rattle.ckr_points.specs.Rows.{KeptEntry as EntryOfSet, RunRow};
ghost use Rattle.ckr_rules.specs.RuleTables.{is_rnc, rule_number, suppresses};
ghost use Rattle.ckr_points_tables.specs.RunJobs.{effective, own_of, IsFitting};
ghost use Rattle.ckr_desk_turn.specs.Codes.{asked_at_entry, asked_at_start, code_plan, ended_by, judged_plan};
ghost use Rattle.ckr_rules.specs.declared.cases.Verdict.TheVariants.{Checkpoint as AtCheckpoint};
ghost use Rattle.ckr_desk_turn.specs.Jobs.{effect_entry, step_name_of};
ghost use Rattle.ckr_desk_turn.specs.Spelling.{IsCode};

use crate::RunningStep;
use arrayvec::ArrayVec;
use ckr_base::{CheckId, Code, DsName, Name8};
use ckr_desk_turn::{How, Inquiry, Plan, Reply, coded_event};
use ckr_jcl::Rd;
use ckr_library::{DataSet, Library};
use ckr_meaning::Place;
use ckr_points::step_in;
use ckr_points_library::output_name;
use ckr_points_tables::{OwnStep, RunTable, Tables, place_now, point_at, step_at};
use ckr_rules::{AutoCase, Rule, Verdict, automatic};
use ckr_steps::UnitAhead;
use ckr_volumes::Layout;

/// How far a run has come.
#[derive(Drop)]
pub struct CodePlace {
    /// The writes of its step.
    pub writes: u32,
    /// The lengths of its step's outputs, in records, in the order of the DDs.
    pub lengths: ArrayVec<u32, 16>,
}

/// The initiator of a turn, and whether the run with a code is on it. Else it was released, and comes to it.
#[derive(Clone, Copy)]
pub struct Seat {
    /// The number of the initiator.
    pub initiator: u8,
    /// Whether the run is on it.
    pub lodged: bool,
}

/// Where a run is: before its first step where it wasn't selected yet.
pub fn place_of(table: &RunTable) -> Place
    ensures { (run : ℕ) → result ≡ place_of_row (row_for run table.now) }
{
    place_now(table)
}

/// Whose lengths are asked: those of a library, those behind a unit of a running step that was worked out and isn't done yet, or those of a
/// library where the data set of a name has another length, as that for checkpoints behind an entry.
#[derive(Drop)]
pub enum Extents<'a> {
    /// Those of this library.
    Now(&'a Library),
    /// Those of this running step behind the unit.
    Behind(&'a RunningStep, &'a UnitAhead),
    /// Those of this library, where the data set of this name, which is this one, is so long.
    Entered(&'a Library, &'a DsName, &'a DataSet, u32),
}

/// The length of a library's data set, and 0 where it isn't there.
fn length_of(sets: &Library, name: &DsName) -> u32
    ensures { result ≡ length_in sets.now.sets name.now }
{
    match sets.get(name) {
        Some(set) => set.length,
        None => 0,
    }
}

/// The same, where the data set of a name has this length.
fn length_with(sets: &Library, check: &DsName, end: u32, name: &DsName) -> u32
    ensures { (set : SetOfName) → result ≡ length_in (with_entry check.now (fresh_holding (record set { length = end })) sets.now.sets) name.now }
{
    if name.is_same(check) {
        return end;
    }
    length_of(sets, name)
}

/// The length of a data set, and 0 where it isn't there.
fn length_in(extents: &Extents<'_>, name: &DsName) -> u32
    requires { AreShort extents.now }
    ensures { result ≡ length_in (sets_of extents.now) name.now }
{
    match extents {
        Extents::Now(sets) => length_of(sets, name),
        Extents::Behind(on, ahead) => on.step.length_behind(ahead, &on.sets, name),
        Extents::Entered(sets, check, _set, end) => length_with(sets, check, *end, name),
    }
}

/// The lengths of a step's outputs, in the order of the DDs.
fn lengths_in(extents: &Extents<'_>, root: u32, own: &OwnStep<'_>) -> ArrayVec<u32, 16>
    requires root { root ≤ 9999999 }
    requires owner { own.now.owner ≤ 9999999 }
    requires few { length own.now.step.now.dds ≤ 16 }
    requires short { AreShort extents.now }
    ensures lengths { result.items ≡ lengths_in (sets_of extents.now) root (own_of own.now) }
    ensures fits { length_list.fits result.items }
{
    let mut lengths = ArrayVec::new();
    for dd in own.step.dds.as_slice() {
        if let Some(name) = output_name(dd, root, own.owner, own.step) {
            lengths.push(length_in(extents, &name));
        }
    }
    lengths
}

/// The lengths of the outputs of the step that a run is before or in, in the order of the DDs; none where there is no such step.
pub fn lengths_of(extents: &Extents<'_>, run: u32, table: &RunTable) -> ArrayVec<u32, 16>
    requires fits { IsFitting (effective run table.now.job) }
    requires short { AreShort extents.now }
    ensures lengths { result.items ≡ lengths_of_row (sets_of extents.now) (row_for run table.now) }
    ensures fits { length_list.fits result.items }
{
    match step_at(&table.job, run, step_in(place_of(table))) {
        Some(own) => lengths_in(extents, table.job.root(), &own),
        None => ArrayVec::new(),
    }
}

/// The RD in effect in a step: that of the JOB, else that of the step.
fn rd_of(table: &RunTable, step: u8) -> Option<Rd>
    ensures { (run : ℕ) → result ≡ rd_in_effect (row_for run table.now) step }
{
    let deck = table.job.deck();
    if deck.rd.is_some() {
        return deck.rd;
    }
    match deck.steps.as_slice().get(step.saturating_sub(1) as usize) {
        Some(own) => own.rd,
        None => None,
    }
}

/// RD is RNC or NC, under which no checkpoint is taken (IBM GC28-6708).
fn suppresses(rd: Option<Rd>) -> bool
    ensures { result ≡ suppresses rd }
{
    matches!(rd, Some(Rd::Rnc | Rd::Nc))
}

/// Whether the RD in effect in the step that a run is in suppresses its checkpoints.
pub(crate) fn is_suppressed(table: &RunTable) -> bool
    ensures { (run : ℕ) → let row = row_for run table.now in result ≡ suppresses (rd_in_effect row (step_in_place (place_of_row row))) }
{
    suppresses(rd_of(table, step_in(place_of(table))))
}

/// The restarts at the start of a step, and whether a record was rewritten in place since.
fn since_start(table: &RunTable, step: u8) -> (u8, bool)
    ensures { (run : ℕ) → record { restarts = result.0; rewritten = result.1 } ≡ since_start (row_for run table.now) step }
{
    match point_at(table.points.as_slice(), step) {
        Some(point) => (point.restarts, point.rewritten),
        None => (0, false),
    }
}

/// RD is RNC.
fn is_rnc(rd: Option<Rd>) -> bool
    ensures { result ≡ is_rnc rd }
{
    matches!(rd, Some(Rd::Rnc))
}

/// The same at the point to which an automatic restart would go back.
fn since_point(table: &RunTable, step: u8) -> (u8, bool)
    ensures { (run : ℕ) → record { restarts = result.0; rewritten = result.1 } ≡ since_point (row_for run table.now) step }
{
    if is_rnc(rd_of(table, step)) {
        return since_start(table, step);
    }
    match &table.in_effect {
        Some(effect) => (effect.restarts, effect.rewritten),
        None => since_start(table, step),
    }
}

/// Whether a code is among those after which a restart is permitted.
fn is_eligible(eligible: &[Code], code: Code) -> bool
    ensures { result ≡ list_any (same_code code) eligible.now }
{
    eligible.iter().any(|other| code.is_same(other))
}

/// What an automatic restart of a run after a code is judged by; no operator is asked.
fn auto_case(layout: &Layout, table: &RunTable, code: Code) -> AutoCase
    ensures { (run : ℕ) → let row = row_for run table.now in result ≡ auto_case row (step_in_place (place_of_row row)) layout.now.eligible.items code false }
{
    let step = step_in(place_of(table));
    let (restarts, rewritten) = since_point(table, step);
    AutoCase {
        rd: rd_of(table, step),
        checkpoint: table.in_effect.is_some(),
        eligible: is_eligible(layout.eligible.as_slice(), code),
        rewritten,
        restarts,
        refused: false,
    }
}

/// The name of the step that a run is within.
pub(crate) fn name_within(run: u32, table: &RunTable) -> Name8
    requires there { IsSome (own_step (row_for run table.now)) }
    ensures { result ≡ step_name_of (row_for run table.now) }
{
    match step_at(&table.job, run, step_in(place_of(table))) {
        Some(own) => own.step.name.copied(),
        None => unreachable!(),
    }
}

/// A run ends with a code, by the rule that denies a restart: one of A1 to A6.
fn ended(run: u32, code: Code, rule: Rule, reached: CodePlace) -> Plan
    requires code { IsCode code }
    requires rule { rule_number rule ≤ 6 }
    requires lengths { length_list.fits reached.lengths.items }
    ensures plan { (row : RunRow) → row.number ≡ run → result ≡ ended_by row code rule (reached_seen reached) }
    ensures spelled { IsSpelledPlan result }
    ensures unit { IsUnitPlan result }
{
    Plan::Tell {
        reply: Reply::JobEnded {
            job: run,
            how: How::Abended { code, rule },
        },
        event: coded_event(run, code, rule, reached.writes, reached.lengths),
    }
}

/// The identifier of a run's checkpoint in effect, and the records that the step had taken at its entry. None where the tables keep no such
/// entry.
fn effect_at(tables: &Tables, table: &RunTable) -> Option<(CheckId, u32)>
    ensures { (run : ℕ) → result ≡ option_map told_entry (effect_entry tables.now.desk (row_for run table.now)) }
{
    let Some(effect) = &table.in_effect else {
        return None;
    };
    match tables.taken_at(&effect.set, &effect.kept.id) {
        Some(taken) => Some((effect.kept.id.copied(), taken)),
        None => None,
    }
}

/// The operator is asked whether a run may be restarted after a code: at a checkpoint, with the records taken there, or at the start of the step that
/// the run is within.
fn asked(
    run: u32,
    seat: Seat,
    table: &RunTable,
    code: Code,
    reached: CodePlace,
    at: Option<(CheckId, u32)>,
) -> Plan
    requires code { IsCode code }
    requires there { IsSome (own_step (row_for run table.now)) }
    requires lengths { length_list.fits reached.lengths.items }
    ensures start { at ≡ None → result ≡ asked_at_start (row_for run table.now) seat.initiator seat.lodged code (reached_seen reached) }
    ensures entry { (entry : EntryOfSet) → at ≡ Some (told_entry entry) → result ≡ asked_at_entry (row_for run table.now) seat.initiator seat.lodged code (reached_seen reached) entry }
    ensures spelled { IsSpelledPlan result }
    ensures unit { IsUnitPlan result }
{
    let (id, taken) = match at {
        Some((id, taken)) => (Some(id), taken),
        None => (None, 0),
    };
    Plan::Ask(Inquiry {
        job: run,
        step: name_within(run, table),
        initiator: seat.initiator,
        lodged: seat.lodged,
        code,
        id,
        taken,
        writes: reached.writes,
        lengths: reached.lengths,
    })
}

/// The rules permit the restart of a run with a code at its checkpoint in effect. Where the tables keep no entry of it, the run ends.
fn asked_back(
    tables: &Tables,
    run: u32,
    seat: Seat,
    table: &RunTable,
    code: Code,
    reached: CodePlace,
) -> Plan
    requires code { IsCode code }
    requires there { IsSome (own_step (row_for run table.now)) }
    requires lengths { length_list.fits reached.lengths.items }
    ensures plan { let row = row_for run table.now in result ≡ judged_plan tables.now.desk row seat.initiator seat.lodged code (reached_seen reached) AtCheckpoint }
    ensures spelled { IsSpelledPlan result }
    ensures unit { IsUnitPlan result }
{
    let at = effect_at(tables, table);
    if at.is_none() {
        return ended(run, code, Rule::A6, reached);
    }
    asked(run, seat, table, code, reached, at)
}

/// What becomes of a run with a code that is within a step: it ends by the rule that denies its restart, or the operator is asked whether it may be
/// restarted at its checkpoint in effect or at the start of the step (IBM GC28-6708).
pub fn code_plan(
    layout: &Layout,
    tables: &Tables,
    run: u32,
    seat: Seat,
    table: &RunTable,
    code: Code,
    reached: CodePlace,
) -> Plan
    requires code { IsCode code }
    requires there { IsSome (own_step (row_for run table.now)) }
    requires lengths { length_list.fits reached.lengths.items }
    ensures plan { result ≡ code_plan layout.now tables.now.desk (row_for run table.now) seat.initiator seat.lodged code (reached_seen reached) }
    ensures spelled { IsSpelledPlan result }
    ensures unit { IsUnitPlan result }
{
    match automatic(&auto_case(layout, table, code)) {
        Verdict::Denied(rule) => ended(run, code, rule, reached),
        Verdict::Step => asked(run, seat, table, code, reached, None),
        Verdict::Checkpoint => asked_back(tables, run, seat, table, code, reached),
    }
}
