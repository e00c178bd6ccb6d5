//! Whether the uses of two decks hold against each other. It compares the DDs of one with those of the other, and takes no memory.
ghost use Rattle.std.specs.Prelude.{◌≡◌, ◌≤◌, false};
ghost use Rattle.std.specs.List.{list_any};
ghost use Rattle.std.specs.Option.{is_some, option_and_then, option_map_or};
ghost use Rattle.ckr_uses.specs.Uses.{collides, holds, own_qualifier, use_in, use_of_syschk, uses_in_step, uses_of, uses_of_dds};

use ckr_jcl::{Dd, Job, Step};
use ckr_uses::{Use, collides, own_qualifier, use_in, use_of_any_syschk};

/// The use of a DD of a step, if it has a data set.
fn use_of(run: u32, job: &Job, step: &Step, dd: &Dd) -> Option<Use>
    ensures { result ≡ use_in (is_some job.now.restart) (own_qualifier run job.now) step.now.name dd.now }
{
    use_in(
        job.restart.is_some(),
        &own_qualifier(run, job),
        &step.name,
        dd,
    )
}

/// The use of a job's SYSCHK, if it has one.
fn use_of_syschk(job: &Job) -> Option<Use>
    ensures { result ≡ option_and_then (use_of_syschk (is_some job.now.restart)) job.now.syschk }
{
    use_of_any_syschk(job.restart.is_some(), &job.syschk)
}

/// Whether a use keeps out another one, if there is one.
fn collides_with(used: &Use, other: Option<Use>) -> bool
    ensures { result ≡ option_map_or (collides used.now) other false }
{
    match other {
        Some(other) => collides(used, &other),
        None => false,
    }
}

/// Whether a use keeps out that of one of these DDs of a step.
fn collides_with_dds(used: &Use, run: u32, job: &Job, step: &Step, dds: &[Dd]) -> bool
    requires { run ≤ 9999999 }
    ensures { result ≡ list_any (λ dd. option_map_or (collides used.now) (use_in (is_some job.now.restart) (own_qualifier run job.now) step.now.name dd) false) dds.now }
{
    dds.iter()
        .any(|dd| collides_with(used, use_of(run, job, step, dd)))
}

/// Whether a use keeps out one of a step.
fn collides_in_step(used: &Use, run: u32, job: &Job, step: &Step) -> bool
    requires { run ≤ 9999999 }
    ensures { result ≡ list_any (collides used.now) (uses_in_step (is_some job.now.restart) (own_qualifier run job.now) step.now) }
{
    collides_with_dds(used, run, job, step, step.dds.as_slice())
}

/// Whether a use keeps out one of these steps.
fn collides_in_steps(used: &Use, run: u32, job: &Job, steps: &[Step]) -> bool
    requires { run ≤ 9999999 }
    ensures { result ≡ list_any (λ step. list_any (collides used.now) (uses_in_step (is_some job.now.restart) (own_qualifier run job.now) step)) steps.now }
{
    steps
        .iter()
        .any(|step| collides_in_step(used, run, job, step))
}

/// Whether a use keeps out one of a job, that of its SYSCHK included.
fn collides_in_job(used: &Use, run: u32, job: &Job) -> bool
    requires { run ≤ 9999999 }
    ensures { result ≡ list_any (collides used.now) (uses_of_dds run job.now) }
{
    collides_in_steps(used, run, job, job.steps.as_slice())
        || collides_with(used, use_of_syschk(job))
}

/// Whether a use, if there is one, keeps out one of a job.
fn any_collides(used: Option<Use>, run: u32, job: &Job) -> bool
    requires { run ≤ 9999999 }
    ensures { result ≡ option_map_or (λ one. list_any (collides one) (uses_of_dds run job.now)) used false }
{
    match used {
        Some(used) => collides_in_job(&used, run, job),
        None => false,
    }
}

/// Whether the use of one of these DDs of a step keeps out one of another job.
fn dds_collide(run: u32, job: &Job, step: &Step, dds: &[Dd], other: u32, other_job: &Job) -> bool
    requires run { run ≤ 9999999 }
    requires other { other ≤ 9999999 }
    ensures { result ≡ list_any (λ dd. option_map_or (λ one. list_any (collides one) (uses_of_dds other other_job.now)) (use_in (is_some job.now.restart) (own_qualifier run job.now) step.now.name dd) false) dds.now }
{
    dds.iter().any(|dd| any_collides(use_of(run, job, step, dd), other, other_job))
}

/// Whether a use of a step keeps out one of another job.
fn step_collides(run: u32, job: &Job, step: &Step, other: u32, other_job: &Job) -> bool
    requires run { run ≤ 9999999 }
    requires other { other ≤ 9999999 }
    ensures { result ≡ list_any (λ one. list_any (collides one) (uses_of_dds other other_job.now)) (uses_in_step (is_some job.now.restart) (own_qualifier run job.now) step.now) }
{
    dds_collide(run, job, step, step.dds.as_slice(), other, other_job)
}

/// Whether a use of one of these steps keeps out one of another job.
fn steps_collide(run: u32, job: &Job, steps: &[Step], other: u32, other_job: &Job) -> bool
    requires run { run ≤ 9999999 }
    requires other { other ≤ 9999999 }
    ensures { result ≡ list_any (λ step. list_any (λ one. list_any (collides one) (uses_of_dds other other_job.now)) (uses_in_step (is_some job.now.restart) (own_qualifier run job.now) step)) steps.now }
{
    steps
        .iter()
        .any(|step| step_collides(run, job, step, other, other_job))
}

/// Whether the uses of two runs hold against each other, by their numbers and the jobs of their decks: one name stands in both,
/// and one of the two uses is exclusive.
#[tactic(auto, unfolding(ckr_uses::specs::Uses::uses_of))]
pub(crate) fn hold_against(run: u32, job: &Job, other: u32, other_job: &Job) -> bool
    requires run { run ≤ 9999999 }
    requires other { other ≤ 9999999 }
    ensures { result ≡ holds (uses_of run job.now) (uses_of other other_job.now) }
{
    steps_collide(run, job, job.steps.as_slice(), other, other_job)
        || any_collides(use_of_syschk(job), other, other_job)
}
