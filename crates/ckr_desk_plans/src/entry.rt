//! The entry of the next checkpoint of a running step.
ghost use Rattle.std.specs.Prelude.{◌≡◌, ◌==◌, ◌≤◌, ◌<◌, ◌+◌, ◌++◌, ◌^◌, ℕ, IfOk, IfSome, Some, length};
ghost use Rattle.std.specs.List.{list_any};
ghost use Rattle.std.specs.Option.{option_map_or};
ghost use Rattle.ckr_entry.specs.Entry.{spelling};
ghost use Rattle.ckr_entry.specs.Parts.{entry_of};
ghost use Rattle.ckr_entry.specs.Sets.{passed_one};
ghost use Rattle.ckr_fields.specs.Fields.{each_fits};
ghost use Rattle.ckr_library.specs.Catalog.{records_of};
ghost use Rattle.ckr_library.specs.NameMaps.{same_name};
ghost use Rattle.ckr_library.specs.declared.sets.Kept.{Kept as KeptOfSet};
ghost use Rattle.ckr_meaning.specs.EffectiveJob.{names_of_job, OwnedStep};
ghost use Rattle.ckr_points.specs.Marks.{point_at};
ghost use Rattle.ckr_points.specs.Rows.{holding_of, TablesModel, StartPoint as StartOfStep};
ghost use Rattle.ckr_points.specs.declared.run.Run.{Run as RunOfDesk};
ghost use Rattle.ckr_points_tables.specs.RunJobs.{effective, IsFitting};
ghost use Rattle.ckr_points_tables.specs.View.{facts_of, seen_by};
ghost use Rattle.ckr_steps.specs.StepUnit.{AreCounted};
ghost use Rattle.ckr_desk_turn.specs.Checkpoints.{are_counts_in_range, id_by, is_in_range, is_state_in_range, step_entries, id_in};
ghost use Rattle.ckr_desk_turn.specs.EntryStates.{at_checkpoint};
ghost use Rattle.ckr_desk_plans.specs.Entries.{entry_made, next_entry, next_id, row_of_line, step_now, IsEntryOf, IsNextOf};
ghost use Rattle.ckr_desk_plans.specs.EntryMarks.{MayMark};
ghost use Rattle.ckr_desk_plans.specs.EntryTypes.{IsFormedWithState, IsTyped, IsTypedMatch};
ghost use Rattle.ckr_desk_plans.specs.StepView.{step_seen};
ghost use Rattle.ckr_desk_plans.specs.Plans.{row_for};

use crate::RunningStep;
use crate::entry_marks::{Behind, marks_of};
use crate::run_code::place_of;
use arrayvec::ArrayVec;
use ckr_base::{CheckId, NoMemory, Rec, decimal_text, last_digits};
use ckr_entry::{Passed, PassedList, Point, State, encode_entry};
use ckr_jcl::Step;
use ckr_library::{DataSet, Kept, Library};
use ckr_match::MatchState;
use ckr_points::step_in;
use ckr_points_tables::{OwnStep, RunTable, checkpoint_name, point_at};
use ckr_programs::ProgState;
use std::alloc::Global;

/// The entry of a checkpoint, before it is written.
#[derive(Drop)]
pub struct NextEntry {
    /// The point that it keeps.
    pub point: Point,
    /// Its bytes.
    pub bytes: Vec<u8>,
}

/// A text and another one behind it.
fn joined(first: &[u8], second: &[u8]) -> ArrayVec<u8, 32>
    requires { length first.now + length second.now ≤ 32 }
    ensures { result.items ≡ first.now ++ second.now }
{
    let mut text = ArrayVec::new();
    put(&mut text, first);
    put(&mut text, second);
    text
}

/// Puts a piece of a text behind the others. There is room for it.
fn put(text: &mut ArrayVec<u8, 32>, piece: &[u8])
    requires { length text.old.items + length piece.now ≤ 32 }
    ensures { text.new.items ≡ text.old.items ++ piece.now }
{
    match text.try_extend_from_slice(piece) {
        Ok(()) => {}
        Err(_) => unreachable!(),
    }
}

/// The identifier of an entry by IDS, by its number in the run and by that in the step: `C` and the last seven digits of the former, or IDS and
/// the latter (IBM GC28-6708).
fn id_text(ids: &[u8], in_run: u128, in_step: u128) -> ArrayVec<u8, 32>
    requires ids { length ids.now ≤ 8 }
    requires in_step { in_step < 10 ^ 22 }
    ensures { result.items ≡ id_by ids.now in_run in_step }
{
    if ids.is_empty() {
        let digits: ArrayVec<u8, 7> = last_digits(in_run, 7);
        return joined(b"C", digits.as_slice());
    }
    joined(ids, decimal_text(in_step).as_slice())
}

/// How many entries a run had written before a step.
fn entries_before(table: &RunTable, step: u8) -> u32
    ensures { result ≡ option_map_or (λ (point : StartOfStep). point.count) (point_at (facts_of table.now).points step) 0 }
{
    match point_at(table.points.as_slice(), step) {
        Some(point) => point.count,
        None => 0,
    }
}

/// How many entries the step of a run has written that it is in.
fn step_entries(table: &RunTable) -> u32
    ensures value { (run : ℕ) → result ≡ step_entries (row_for run table.now) (step_now (row_for run table.now)) }
    ensures bound { result ≤ table.now.count }
{
    table
        .count
        .saturating_sub(entries_before(table, step_in(place_of(table))))
}

/// The identifier of the next entry of a run in a step. `None` where the text isn't in the grammar of identifiers.
pub fn id_of(table: &RunTable, own: &Step) -> Option<CheckId>
    ensures { (run : ℕ) (owned : OwnedStep) → owned.step ≡ own.now → result ≡ id_in (next_id (row_for run table.now) owned) }
{
    let in_run = u128::from(table.count) + 1;
    let in_step = u128::from(step_entries(table)) + 1;
    CheckId::read(id_text(own.parm.ids.as_slice(), in_run, in_step).as_slice())
}

/// Reads the record that a state holds, if it holds one, whose type bounds it.
fn read_held(held: &Option<Rec>)
    ensures { IfSome held.now (λ bytes. length bytes ≤ 256) }
{
    match held {
        Some(image) => {
            let _bytes = image.bytes();
        }
        None => {}
    }
}

/// Reads the last master of a state with its place, if it has one, whose types bound them.
fn read_last(last: &Option<(u32, Rec)>)
    ensures { IfSome last.now (λ at. (at.0 < 2 ^ 32) × (length at.1 ≤ 256)) }
{
    match last {
        Some((place, image)) => {
            let _place = *place;
            let _bytes = image.bytes();
        }
        None => {}
    }
}

/// Reads the keys and the records of a state of two inputs, whose types bound them.
fn read_parts(state: &MatchState)
    ensures { IsTypedMatch state.now }
{
    let _first_key = state.first_key.as_slice();
    let _second_key = state.second_key.as_slice();
    read_held(&state.held);
    read_last(&state.last);
}

/// A state as an entry has it: the checkpoint is done and counted, the cancel isn't done, and the program isn't closed.
fn at_checkpoint(state: &State, entries: u32) -> State
    ensures value { result ≡ at_checkpoint entries state.now }
    ensures typed { IsTyped state.now }
{
    if let State::Matched(matched) = state {
        read_parts(matched);
    }
    match state.copied() {
        State::Plain(plain) => State::Plain(ProgState {
            entries,
            checkpointed: true,
            cancelled: false,
            closed: false,
            ..plain
        }),
        State::Matched(matched) => State::Matched(MatchState {
            entries,
            checkpointed: true,
            cancelled: false,
            closed: false,
            ..matched
        }),
    }
}

/// The same passed list.
///
/// `NoMemory`: there is none for it.
fn passed_of(alloc: Global, items: &[Passed]) -> Result<PassedList, NoMemory>
    ensures items { IfOk result (λ passed. passed.items ≡ items.now) }
    ensures typed { IfOk result (λ passed. each_fits passed_one.fits passed.items) }
{
    let mut passed = PassedList::new(alloc);
    for one in items {
        let _grammar = one.name.text();
        passed.push(Passed {
            name: one.name.copied(),
            made: one.made,
        })?;
    }
    Ok(passed)
}

/// The entry of a checkpoint of this identifier.
///
/// `NoMemory`: there is none for it.
fn entry_with(alloc: Global, id: CheckId, behind: &Behind<'_>) -> Result<NextEntry, NoMemory>
    requires run { behind.now.on.now.run ≤ 9999999 }
    requires may { MayMark behind.now }
    requires counted { AreCounted behind.now.on.now.step }
    requires count { behind.now.table.now.count < 9999999 }
    requires names { length (names_of_job (effective behind.now.on.now.run behind.now.table.now.job)) ≤ 1024 }
    requires passed { length behind.now.table.now.passed.items < 65536 }
    ensures entry { (tables : TablesModel) → behind.now.committed.now.sets ≡ seen_by holding_of tables.sets → IfOk result (λ made. IsEntryOf id behind.now tables (entry_of made.point)) }
    ensures bytes { IfOk result (λ made. made.bytes.items ≡ spelling (entry_of made.point)) }
    ensures typed { IfOk result (λ _. IsTyped behind.now.on.now.step.state) }
    ensures form { IfOk result (λ made. IsFormedWithState (entry_of made.point)) }
{
    let table = behind.table;
    let _id = id.text();
    let deck = table.job.deck();
    let _job = deck.name.text();
    let _step = behind.own.step.name.text();
    let far = behind.on.step.progress();
    let point = Point {
        id: Some(id),
        job: deck.name.copied(),
        run: behind.on.run,
        owner: behind.own.owner,
        step: step_in(place_of(table)),
        step_name: behind.own.step.name.copied(),
        count: table.count + 1,
        taken: far.taken,
        writes: far.writes,
        state: at_checkpoint(far.state, step_entries(table) + 1),
        marks: marks_of(alloc, behind)?,
        passed: passed_of(alloc, table.passed.as_slice())?,
    };
    let bytes = encode_entry(alloc, &point)?;
    Ok(NextEntry { point, bytes })
}

/// Whether one of these entries has this identifier.
fn has_id(entries: &[Kept], id: &CheckId) -> bool
    ensures { result ≡ list_any (λ (kept : KeptOfSet). same_name kept.id id.now) entries.now }
{
    entries.iter().any(|kept| is_same_id(&kept.id, id))
}

/// Whether the identifiers are the same.
fn is_same_id(one: &CheckId, other: &CheckId) -> bool
    ensures { result ≡ same_name one.now other.now }
{
    one.text().cmp(other.text()).is_eq()
}

/// Whether the records of a data set have 256 bytes, as an entry's.
fn has_entry_records(set: &DataSet) -> bool
    ensures { result ≡ (set.now.lrecl == 256) }
{
    set.lrecl == 256
}

/// How many records of 256 bytes so many bytes take.
fn records_of(bytes: usize) -> u64
    ensures { result ≡ records_of bytes }
{
    (bytes as u64).div_ceil(256)
}

/// Whether the counts of a state are in their ranges.
fn are_counts_in_range(first: u32, second: u32, rejects: u32, entries: u32) -> bool
    ensures { result ≡ are_counts_in_range first second rejects entries }
{
    first <= 1_000_000 && second <= 1_000_000 && rejects <= 1_000_000 && entries <= 1_000_000
}

/// Whether the numbers of a state are in their ranges.
fn is_state_in_range(state: &State) -> bool
    ensures { result ≡ is_state_in_range state.now }
{
    match state {
        State::Plain(state) => {
            are_counts_in_range(state.first, state.second, state.rejects, state.entries)
                && state.sum < 1_000_000_000_000_000_000_000
        }
        State::Matched(state) => {
            are_counts_in_range(state.first, state.second, state.rejects, state.entries)
        }
    }
}

/// Whether the numbers of a point are in the ranges of an entry.
fn is_in_range(point: &Point) -> bool
    ensures { result ≡ is_in_range (entry_of point.now) }
{
    point.count <= 9_999_999 && point.writes <= 3_000_000 && is_state_in_range(&point.state)
}

/// The entry of a checkpoint of this identifier, if it fits its data set behind the last record there. Its end is looked for here: none is given.
///
/// `NoMemory`: there is none for it.
fn fitting(
    alloc: Global,
    id: CheckId,
    set: &DataSet,
    behind: &Behind<'_>,
) -> Result<Option<NextEntry>, NoMemory>
    requires run { behind.now.on.now.run ≤ 9999999 }
    requires may { MayMark behind.now }
    requires counted { AreCounted behind.now.on.now.step }
    requires names { length (names_of_job (effective behind.now.on.now.run behind.now.table.now.job)) ≤ 1024 }
    requires end { behind.now.end ≡ 0 }
    ensures entry { IfOk result (λ found. IsNextOf id behind.now set.now (entry_made found)) }
    ensures bytes { IfOk result (λ found. IfSome found (λ made. made.bytes.items ≡ spelling (entry_of made.point))) }
    ensures typed { IfOk result (λ found. IfSome found (λ _. IsTyped behind.now.on.now.step.state)) }
    ensures form { IfOk result (λ found. IfSome found (λ made. IsFormedWithState (entry_of made.point))) }
{
    let _grammar = id.text();
    if !has_entry_records(set) {
        return Ok(None);
    }
    if behind.table.count >= 9_999_999 {
        return Ok(None);
    }
    if behind.table.passed.as_slice().len() > 65_535 {
        return Ok(None);
    }
    if has_id(behind.committed.entries(behind.check), &id) {
        return Ok(None);
    }
    let first = entry_with(alloc, id.copied(), behind)?;
    let space = set.space;
    let end = u64::from(set.length) + records_of(first.bytes.as_slice().len());
    if end > u64::from(space) {
        return Ok(None);
    }
    let ahead = Behind {
        end: end as u32,
        ..*behind
    };
    let made = entry_with(alloc, id, &ahead)?;
    if !is_in_range(&made.point) {
        return Ok(None);
    }
    Ok(Some(made))
}

/// The entry of the next checkpoint of a running step, by what the tables keep of its run, and by the step that the run is in. `None` where it
/// doesn't fit.
///
/// `NoMemory`: there is none for it.
pub fn next_of(
    alloc: Global,
    library: &Library,
    table: &RunTable,
    own: &OwnStep<'_>,
    on: &RunningStep,
) -> Result<Option<NextEntry>, NoMemory>
    requires run { on.now.run ≤ 9999999 }
    requires owner { own.now.owner ≤ 9999999 }
    requires fits { IsFitting (effective on.now.run table.now.job) }
    requires counted { AreCounted on.now.step }
    requires names { length (names_of_job (effective on.now.run table.now.job)) ≤ 1024 }
    ensures entry { (line : RunOfDesk) (tables : TablesModel) (owned : OwnedStep) → library.now.sets ≡ seen_by holding_of tables.sets → owned.step ≡ own.now.step.now → owned.owner ≡ own.now.owner → IfOk result (λ found. entry_made found ≡ next_entry tables (row_of_line on.now.run line table.now) owned (step_seen on.now)) }
    ensures bytes { IfOk result (λ found. IfSome found (λ made. made.bytes.items ≡ spelling (entry_of made.point))) }
    ensures typed { IfOk result (λ found. IfSome found (λ _. IsTyped on.now.step.state)) }
    ensures form { IfOk result (λ found. IfSome found (λ made. IsFormedWithState (entry_of made.point))) }
{
    let Some(check) = checkpoint_name(table.job.root(), own) else {
        return Ok(None);
    };
    let Some(set) = library.get(&check) else {
        return Ok(None);
    };
    let Some(id) = id_of(table, own.step) else {
        return Ok(None);
    };
    let behind = Behind {
        table,
        own,
        on,
        committed: library,
        check: &check,
        end: 0,
    };
    fitting(alloc, id, set, &behind)
}
