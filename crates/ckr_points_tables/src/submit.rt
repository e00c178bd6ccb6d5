//! Whether a deck may be submitted.
ghost use Rattle.std.specs.Prelude.{◌≡◌, ◌≤◌, [], false};
ghost use Rattle.std.specs.List.{filter_map, list_all};
ghost use Rattle.std.specs.Option.{option_map_or};
ghost use Rattle.ckr_points_library.specs.Holdings.{owned};
ghost use Rattle.ckr_points.specs.Syschk.{names_its_set};
ghost use Rattle.ckr_uses.specs.Uses.{are_distinct};
ghost use Rattle.ckr_meaning.specs.EffectiveJob.{is_among, name_of, names_of};
ghost use Rattle.ckr_points_tables.specs.Invariant.{is_submittable};
ghost use Rattle.ckr_points_runs.specs.Rewrite.{has_master, has_set};
ghost use Rattle.ckr_points_runs.specs.RunJobs.{has_few_dds, has_few_serials, is_within_limits};

use ckr_jcl::{Dd, Job, Kind, Origin, Step};
use ckr_points::syschk_name;
use ckr_points_runs::{is_any_named, master_dd};
use ckr_uses::library_name;

/// Whether a deck may be submitted under a number: the number has at most seven digits, there are at most 64 steps of at most 16
/// DDs, each with at most five serials, no data set name stands twice in a step, and a step of UPDATE has a MASTER, and SYSCHK
/// names a data set. Each deck that is accepted is so, and the
/// tables ask for it (this project's profile).
pub fn is_submittable(number: u32, job: &Job) -> bool
    ensures { result ≡ is_submittable number job.now }
{
    number <= 9_999_999
        && is_within_limits(job)
        && are_all_distinct(number, job.steps.as_slice())
        && all_have_masters(job.steps.as_slice())
        && names_its_set(&job.syschk)
}

/// Whether SYSCHK, where it is given, names a data set.
fn names_its_set(syschk: &Option<Dd>) -> bool
    ensures { result ≡ names_its_set syschk.now }
{
    match syschk {
        Some(dd) => syschk_name(dd).is_some(),
        None => true,
    }
}

/// Whether a DD of this origin has a data set.
fn has_set(origin: &Origin) -> bool
    ensures { result ≡ has_set origin.now }
{
    !matches!(origin, Origin::InStream(_) | Origin::Dummy)
}

/// Whether a step of UPDATE has a MASTER with a data set.
fn has_master(step: &Step) -> bool
    ensures { result ≡ has_master step.now }
{
    if !matches!(step.program, Kind::Update) {
        return true;
    }
    match master_dd(step) {
        Some(dd) => has_set(&dd.origin),
        None => false,
    }
}

/// Whether each of these steps has a MASTER where it is of UPDATE.
fn all_have_masters(steps: &[Step]) -> bool
    ensures { result ≡ list_all has_master steps.now }
{
    steps.iter().all(|step| has_master(step))
}

/// Whether a DD has at most five serials.
fn has_few_serials(dd: &Dd) -> bool
    ensures { result ≡ has_few_serials dd.now }
{
    dd.volumes.as_slice().len() <= 5
}

/// Whether each of these DDs has few serials.
fn all_have_few_serials(dds: &[Dd]) -> bool
    ensures { result ≡ list_all has_few_serials dds.now }
{
    dds.iter().all(|dd| has_few_serials(dd))
}

/// Whether a step has at most 16 DDs, each with few serials.
fn has_few_dds(step: &Step) -> bool
    ensures { result ≡ has_few_dds step.now }
{
    let dds = step.dds.as_slice();
    dds.len() <= 16 && all_have_few_serials(dds)
}

/// Whether each of these steps has few DDs.
fn all_have_few_dds(steps: &[Step]) -> bool
    ensures { result ≡ list_all has_few_dds steps.now }
{
    steps.iter().all(|step| has_few_dds(step))
}

/// Whether a job has at most 64 steps, each with few DDs.
fn is_within_limits(job: &Job) -> bool
    ensures { result ≡ is_within_limits job.now }
{
    let steps = job.steps.as_slice();
    steps.len() <= 64 && all_have_few_dds(steps)
}

/// Whether the name of a DD stands again among these DDs of its step.
fn stands_again(number: u32, step: &Step, dd: &Dd, rest: &[Dd]) -> bool
    requires { number ≤ 9999999 }
    ensures { let own = owned step.now number [] in result ≡ option_map_or (is_among (filter_map (name_of number own) rest.now)) (name_of number own dd.now) false }
{
    match library_name(dd, number, number, &step.name) {
        Some(name) => is_any_named(number, number, step, rest, &name),
        None => false,
    }
}

/// Whether no data set name stands twice in a step.
fn are_distinct(number: u32, step: &Step) -> bool
    requires { number ≤ 9999999 }
    ensures { result ≡ are_distinct (names_of number (owned step.now number [])) }
{
    let dds = step.dds.as_slice();
    for place in 0..dds.len() {
        if stands_again(number, step, &dds[place], &dds[place + 1..]) {
            return false;
        }
    }
    true
}

/// Whether no data set name stands twice in any of these steps.
fn are_all_distinct(number: u32, steps: &[Step]) -> bool
    requires { number ≤ 9999999 }
    ensures { result ≡ list_all (λ step. are_distinct (names_of number (owned step number []))) steps.now }
{
    steps.iter().all(|step| are_distinct(number, step))
}
