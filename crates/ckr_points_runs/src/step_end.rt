//! The end of a step, and of a run.
ghost use Rattle.std.specs.Prelude.{◌≡◌, ◌≤◌, ◌<◌, map, false, true};
ghost use Rattle.std.specs.Option.{option_map_or};
ghost use Rattle.ckr_points_library.specs.Commit.{committed, output_names};
ghost use Rattle.ckr_points_library.specs.Holdings.{holding_ways, standing};
ghost use Rattle.ckr_library.specs.Catalog.{with_length, KeepsEntryRoom};
ghost use Rattle.ckr_meaning.specs.Dispositions.{disposed_all, passed_ended};
ghost use Rattle.ckr_meaning.specs.EffectiveJob.{is_among, step_at};
ghost use Rattle.ckr_points.specs.Marks.{without_passed};
ghost use Rattle.ckr_points_runs.specs.RunChange.{by_step_of, ended, ended_at, ended_by, ended_in, coded, going, gone_on, holding_kit, place_now, step_ended};
ghost use Rattle.ckr_points_runs.specs.MadeNames.{HasFlags};
ghost use Rattle.ckr_points_runs.specs.StepEnd.{disposals_at, AreLengthsOf, HasLengths, HasNamedOutputs, HasPassedRoom};
ghost use Rattle.ckr_points.specs.Restart.{step_in};
ghost use Rattle.ckr_points_runs.specs.RunJobs.{effective, IsFitting};
ghost use Rattle.ckr_points_runs.specs.View.{facts_of, point_of};

use crate::effective_job::has_step;
use crate::made_names::made_flags;
use crate::put_back::delete;
use crate::{EffectiveJob, ReturnCode, RunTable, StepPoint, step_at};
use ckr_base::DsName;
use ckr_entry::{Passed, PassedList};
use ckr_events::Ending;
use ckr_library::Library;
use ckr_meaning::Place;
use ckr_points::{Run, RunState, step_in};
use ckr_points_library::{commit_lengths, end_step};

/// Commits the lengths of a step's outputs. A job without such a step changes nothing.
pub fn commit(run: u32, step: u8, job: &EffectiveJob, lengths: &[u32], library: &mut Library)
    requires fits { IsFitting (effective run job.now) }
    requires lengths { AreLengthsOf job.now.root lengths.now library.old.sets (step_at (effective run job.now) step) }
    ensures sets { library.new.sets ≡ option_map_or (λ own. committed with_length (output_names job.now.root own) lengths.now library.old.sets) (step_at (effective run job.now) step) library.old.sets }
    ensures entries { KeepsEntryRoom library.old library.new }
    ensures named { HasNamedOutputs job.now.root (step_at (effective run job.now) step) }
{
    if let Some(own) = step_at(job, run, step) {
        commit_lengths(own.step, job.root(), own.owner, lengths, library);
    }
}

/// The dispositions of a step, by which of its names the steps before it made. A job without such a step changes nothing.
fn dispose(
    run: u32,
    step: u8,
    abnormal: bool,
    job: &EffectiveJob,
    points: &[StepPoint],
    earlier: &[bool],
    library: &mut Library,
    passed: &mut PassedList,
)
    requires fits { IsFitting (effective run job.now) }
    requires flags { HasFlags job.now.root earlier.now (step_at (effective run job.now) step) }
    requires room { HasPassedRoom passed.old.room (step_at (effective run job.now) step) }
    ensures { standing library.new.sets passed.new.items ≡ option_map_or (λ own. disposed_all holding_ways (disposals_at job.now.root (map point_of points.now) earlier.now step abnormal own) (standing library.old.sets passed.old.items)) (step_at (effective run job.now) step) (standing library.old.sets passed.old.items) }
{
    let root = job.root();
    if let Some(own) = step_at(job, run, step) {
        let made = made_flags(root, step, &own, points);
        end_step(
            own.step,
            root,
            own.owner,
            made.as_slice(),
            earlier,
            abnormal,
            library,
            passed,
        );
    }
}

/// A run behind a step that has ended.
fn go_on(line: &Run, step: u8, rc: u16, table: &mut RunTable, library: &Library)
    requires step { step ≤ 64 }
    requires room { 0 < table.old.codes.room }
    ensures { going line.now (facts_of table.new) library.now.sets ≡ gone_on holding_kit step rc (going line.now (facts_of table.old) library.now.sets) }
{
    match table.codes.push(ReturnCode { step, rc }) {
        Ok(()) => {}
        Err(_) => unreachable!(),
    }
    table.place = Some(Place::Before(step + 1));
    table.in_effect = None;
}

/// Whether a name is among those that a run has lost.
fn is_lost(lost: &[DsName], name: &DsName) -> bool
    ensures { result ≡ is_among lost.now name.now }
{
    lost.iter().any(|other| name.is_same(other))
}

/// Deletes the data sets that a run made, of those that it passed on and has not lost.
fn end_passed(lost: &[DsName], passed: &[Passed], library: &mut Library)
    ensures { library.new.sets ≡ passed_ended (without_passed lost.now passed.now) library.old.sets }
{
    for one in passed {
        if one.made && !is_lost(lost, &one.name) {
            delete(&one.name, library);
        }
    }
}

/// A run ends: what it passed on and no step received goes, where it made it and has not lost it.
fn finish(line: &mut Run, table: &mut RunTable, library: &mut Library)
    ensures { going line.new (facts_of table.new) library.new.sets ≡ ended (going line.old (facts_of table.old) library.old.sets) }
{
    end_passed(table.lost.as_slice(), table.passed.as_slice(), library);
    table.passed.clear();
    table.lost.clear();
    table.code = None;
    table.in_effect = None;
    line.state = RunState::Ended;
    line.initiator = None;
}

/// A step ends normally, by which of its names the steps before it made. A job without such a step stays as it is.
pub(crate) fn end_step_of(
    line: &Run,
    step: u8,
    rc: u16,
    lengths: &[u32],
    earlier: &[bool],
    table: &mut RunTable,
    library: &mut Library,
)
    requires fits { IsFitting (effective line.now.number table.old.job) }
    requires lengths { AreLengthsOf table.old.job.root lengths.now library.old.sets (step_at (effective line.now.number table.old.job) step) }
    requires flags { HasFlags table.old.job.root earlier.now (step_at (effective line.now.number table.old.job) step) }
    requires passed { HasPassedRoom table.old.passed.room (step_at (effective line.now.number table.old.job) step) }
    requires codes { 0 < table.old.codes.room }
    ensures { going line.now (facts_of table.new) library.new.sets ≡ by_step_of step (step_ended holding_kit earlier.now step rc lengths.now (going line.now (facts_of table.old) library.old.sets)) (going line.now (facts_of table.old) library.old.sets) }
{
    if !has_step(&table.job, step) {
        return;
    }
    let run = line.number;
    commit(run, step, &table.job, lengths, library);
    dispose(
        run,
        step,
        false,
        &table.job,
        table.points.as_slice(),
        earlier,
        library,
        &mut table.passed,
    );
    go_on(line, step, rc, table, library);
}

/// A run ends in a step, with its abnormal dispositions. A job without such a step stays as it is.
fn end_in(line: &mut Run, step: u8, earlier: &[bool], table: &mut RunTable, library: &mut Library)
    requires fits { IsFitting (effective line.old.number table.old.job) }
    requires flags { HasFlags table.old.job.root earlier.now (step_at (effective line.old.number table.old.job) step) }
    requires passed { HasPassedRoom table.old.passed.room (step_at (effective line.old.number table.old.job) step) }
    ensures { going line.new (facts_of table.new) library.new.sets ≡ by_step_of step (ended_in holding_kit earlier.now step (going line.old (facts_of table.old) library.old.sets)) (going line.old (facts_of table.old) library.old.sets) }
{
    if !has_step(&table.job, step) {
        return;
    }
    dispose(
        line.number,
        step,
        true,
        &table.job,
        table.points.as_slice(),
        earlier,
        library,
        &mut table.passed,
    );
    finish(line, table, library);
}

/// Where a run is.
pub fn place_now(table: &RunTable) -> Place
    ensures { result ≡ place_now (facts_of table.now) }
{
    match table.place {
        Some(place) => place,
        None => Place::Before(1),
    }
}

/// The number of the step that a run is before or in.
pub fn step_now(table: &RunTable) -> u8
    ensures { result ≡ step_in (place_now (facts_of table.now)) }
{
    step_in(place_now(table))
}

/// A run ends where it is: in a step with its abnormal dispositions.
fn end_here(line: &mut Run, earlier: &[bool], table: &mut RunTable, library: &mut Library)
    requires fits { IsFitting (effective line.old.number table.old.job) }
    requires flags { HasFlags table.old.job.root earlier.now (step_at (effective line.old.number table.old.job) (step_in (place_now (facts_of table.old)))) }
    requires passed { HasPassedRoom table.old.passed.room (step_at (effective line.old.number table.old.job) (step_in (place_now (facts_of table.old)))) }
    ensures { going line.new (facts_of table.new) library.new.sets ≡ ended_at holding_kit earlier.now (place_now (facts_of table.old)) (going line.old (facts_of table.old) library.old.sets) }
{
    match place_now(table) {
        Place::Before(_) | Place::Opened(_) => finish(line, table, library),
        Place::Within(step, _) => end_in(line, step, earlier, table, library),
    }
}

/// A run ends in its step with a code, behind so many writes. A job without such a step stays as it is.
fn end_coded(
    line: &mut Run,
    writes: u32,
    lengths: &[u32],
    earlier: &[bool],
    table: &mut RunTable,
    library: &mut Library,
)
    requires fits { IsFitting (effective line.old.number table.old.job) }
    requires flags { HasFlags table.old.job.root earlier.now (step_at (effective line.old.number table.old.job) (step_in (place_now (facts_of table.old)))) }
    requires lengths { AreLengthsOf table.old.job.root lengths.now library.old.sets (step_at (effective line.old.number table.old.job) (step_in (place_now (facts_of table.old)))) }
    requires passed { HasPassedRoom table.old.passed.room (step_at (effective line.old.number table.old.job) (step_in (place_now (facts_of table.old)))) }
    ensures { let step = step_in (place_now (facts_of table.old)) in going line.new (facts_of table.new) library.new.sets ≡ by_step_of step (coded holding_kit earlier.now step writes lengths.now (going line.old (facts_of table.old) library.old.sets)) (going line.old (facts_of table.old) library.old.sets) }
{
    let step = step_now(table);
    if !has_step(&table.job, step) {
        return;
    }
    commit(line.number, step, &table.job, lengths, library);
    table.place = Some(Place::Within(step, writes));
    end_in(line, step, earlier, table, library);
}

/// A run ends so, by which of the names of its step the steps before it made.
pub(crate) fn end_run(
    line: &mut Run,
    ending: &Ending,
    earlier: &[bool],
    table: &mut RunTable,
    library: &mut Library,
)
    requires fits { IsFitting (effective line.old.number table.old.job) }
    requires flags { HasFlags table.old.job.root earlier.now (step_at (effective line.old.number table.old.job) (step_in (place_now (facts_of table.old)))) }
    requires lengths { HasLengths table.old.job.root ending.now library.old.sets (step_at (effective line.old.number table.old.job) (step_in (place_now (facts_of table.old)))) }
    requires passed { HasPassedRoom table.old.passed.room (step_at (effective line.old.number table.old.job) (step_in (place_now (facts_of table.old)))) }
    ensures { going line.new (facts_of table.new) library.new.sets ≡ ended_by holding_kit earlier.now ending.now (going line.old (facts_of table.old) library.old.sets) }
{
    match ending {
        Ending::Completed => finish(line, table, library),
        Ending::Coded {
            writes,
            lengths,
            ..
        } => end_coded(line, *writes, lengths.as_slice(), earlier, table, library),
        Ending::Allocation { .. } => end_here(line, earlier, table, library),
    }
}
