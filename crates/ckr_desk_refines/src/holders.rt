//! Whether a run holds the name of a data set: its submitted deck has it, SYSCHK's included, by the root of its job and the owners of its steps.
ghost use Rattle.std.specs.Prelude.{◌≡◌, ◌<◌, ◌-◌, ℕ, Some, slice_get};
ghost use Rattle.std.specs.List.{list_any};
ghost use Rattle.std.specs.Option.{option_copied};
ghost use Rattle.ckr_desk_memory.specs.Model.RunJobs.{effective, names_in, IsFitting};
ghost use Rattle.ckr_desk_memory.specs.Model.RunRows.{IsRunRow};
ghost use Rattle.ckr_meaning.specs.EffectiveJob.{is_among, names_of_job, step_at};
ghost use Rattle.ckr_points.specs.Office.{is_holder};
ghost use Rattle.ckr_points.specs.Rows.{run_of, RunRow};
ghost use Rattle.ckr_desk_refines.specs.Holders.{as_submitted, is_held_in, names_held, syschk_names};

use ckr_base::DsName;
use ckr_desk_memory::{EffectiveJob, Tables, step_at};
use ckr_jcl::{Job, Step};
use ckr_points::{Run, RunState, has_name, syschk_name};

/// Whether a run in this state holds its names: it is selected and not ended.
fn is_holder(state: RunState) -> bool
    ensures { result ≡ is_holder state }
{
    matches!(state, RunState::On | RunState::Held | RunState::Released)
}

/// The step of a number of a deck, from 1.
fn step_of(deck: &Job, number: u8) -> Option<&Step>
    requires { 0 < number }
    ensures { option_copied result ≡ slice_get deck.now.steps (number - 1) }
{
    deck.steps.as_slice().get(usize::from(number) - 1)
}

/// Whether the step of a number of a run's deck has the name, with the root of its job and the owner of the job's step of this number.
fn has_name_at(job: &EffectiveJob, run: u32, number: u8, name: &DsName) -> bool
    requires fits { IsFitting (effective run job.now) }
    requires first { 0 < number }
    ensures { result ≡ is_among (names_in job.now.root (step_at (as_submitted job.now.deck (effective run job.now)) number)) name.now }
{
    let Some(step) = step_of(job.deck(), number) else {
        return false;
    };
    match step_at(job, run, number) {
        Some(own) => has_name(job.root(), own.owner, step, name),
        None => false,
    }
}

/// Whether one of the steps of a run's deck has the name. A job has at most 64 steps.
fn has_name_in_steps(job: &EffectiveJob, run: u32, name: &DsName) -> bool
    requires { IsFitting (effective run job.now) }
    ensures { result ≡ is_among (names_of_job (as_submitted job.now.deck (effective run job.now))) name.now }
{
    for number in 1..65 {
        if has_name_at(job, run, number, name) {
            return true;
        }
    }
    false
}

/// Whether the data set of a deck's SYSCHK has the name.
fn is_of_syschk(deck: &Job, name: &DsName) -> bool
    ensures { result ≡ is_among (syschk_names deck.now) name.now }
{
    let Some(dd) = &deck.syschk else {
        return false;
    };
    match syschk_name(dd) {
        Some(other) => name.is_same(other),
        None => false,
    }
}

/// Whether a run of this job holds the name, while it holds.
fn holds_name(job: &EffectiveJob, run: u32, name: &DsName) -> bool
    requires { IsFitting (effective run job.now) }
    ensures { result ≡ is_among (names_held job.now.deck (effective run job.now)) name.now }
{
    has_name_in_steps(job, run, name) || is_of_syschk(job.deck(), name)
}

/// Whether the run of a line holds this name.
fn is_held_in(tables: &Tables, line: &Run, name: &DsName) -> bool
    requires { (job : ℕ) (row : RunRow) → run_of tables.now.desk job ≡ Some row → IsRunRow job row }
    ensures { result ≡ is_held_in tables.now.desk name.now line.now }
{
    match tables.run(line.number) {
        Some(table) => is_holder(line.state) && holds_name(&table.job, line.number, name),
        None => false,
    }
}

/// Whether the run of one of these lines holds this name.
pub(crate) fn is_held_in_any(tables: &Tables, lines: &[Run], name: &DsName) -> bool
    requires { (job : ℕ) (row : RunRow) → run_of tables.now.desk job ≡ Some row → IsRunRow job row }
    ensures { result ≡ list_any (is_held_in tables.now.desk name.now) lines.now }
{
    lines.iter().any(|line| is_held_in(tables, line, name))
}
