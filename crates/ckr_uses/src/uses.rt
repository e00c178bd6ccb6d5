//! The uses of a submitted deck.
ghost use Rattle.std.specs.Prelude.{◌≡◌, ◌≤◌, ◌++◌, flat_map, IfOk, OnOk};
ghost use Rattle.std.specs.List.{list_any};
ghost use Rattle.std.specs.Option.{is_some, option_to_list, option_and_then};
ghost use Rattle.ckr_uses.specs.Uses.{is_exclusive_of, is_of, is_shared, merged, own_qualifier, use_as, use_in, use_of_syschk, uses_in_step, uses_of, uses_of_dds};

use crate::disposal::{dispose, is_temporary};
use crate::set_names::{name_under, run_name};
use ckr_base::{DsName, Name8, NoMemory};
use ckr_jcl::{After, Dd, Job, Origin, Status, Step};
use ckr_library::{Use, Uses};
use std::alloc::Global;

/// Whether a DD leaves its data set as it is and others may use it too.
fn is_shared(dd: &Dd) -> bool
    ensures { result ≡ is_shared dd.now }
{
    let temporary = is_temporary(&dd.origin);
    matches!(dd.disp.status, Status::Shr)
        && matches!(dispose(temporary, &dd.disp, false, false), After::Keep)
        && matches!(dispose(temporary, &dd.disp, false, true), After::Keep)
}

/// The use of a name by a DD, in a run with RESTART or without.
fn use_as(restart: bool, dd: &Dd, name: DsName) -> Use
    ensures { result ≡ use_as restart dd.now name }
{
    Use {
        name,
        exclusive: restart || !is_shared(dd),
    }
}

/// The use of a DD of a step, if it has a data set.
pub fn use_in(restart: bool, own: &Name8, step: &Name8, dd: &Dd) -> Option<Use>
    ensures { result ≡ use_in restart own.now step.now dd.now }
{
    match name_under(dd, own, own, step) {
        Some(name) => Some(use_as(restart, dd, name)),
        None => None,
    }
}

/// Puts a use behind the others, if there is one.
fn put_use(uses: &mut Uses, used: Option<Use>) -> Result<(), NoMemory>
    ensures { OnOk result (uses.new ≡ uses.old ++ option_to_list used) }
{
    match used {
        Some(used) => uses.push(used),
        None => Ok(()),
    }
}

/// Puts the uses of a step behind the others.
fn put_uses_in_step(
    uses: &mut Uses,
    restart: bool,
    own: &Name8,
    step: &Step,
) -> Result<(), NoMemory>
    ensures { OnOk result (uses.new ≡ uses.old ++ uses_in_step restart own.now step.now) }
{
    for dd in step.dds.as_slice() {
        put_use(uses, use_in(restart, own, &step.name, dd))?;
    }
    Ok(())
}

/// Puts the uses of all steps behind the others.
fn put_uses_in_steps(
    uses: &mut Uses,
    restart: bool,
    own: &Name8,
    steps: &[Step],
) -> Result<(), NoMemory>
    ensures { OnOk result (uses.new ≡ uses.old ++ flat_map (uses_in_step restart own.now) steps.now) }
{
    for step in steps {
        put_uses_in_step(uses, restart, own, step)?;
    }
    Ok(())
}

/// The use of SYSCHK, if it names a data set.
fn use_of_syschk(restart: bool, dd: &Dd) -> Option<Use>
    ensures { result ≡ use_of_syschk restart dd.now }
{
    match &dd.origin {
        Origin::Named(name) => Some(use_as(restart, dd, name.copied())),
        _ => None,
    }
}

/// The use of a job's SYSCHK, if it has one.
pub fn use_of_any_syschk(restart: bool, syschk: &Option<Dd>) -> Option<Use>
    ensures { result ≡ option_and_then (use_of_syschk restart) syschk.now }
{
    match syschk {
        Some(dd) => use_of_syschk(restart, dd),
        None => None,
    }
}

/// The qualifier of a run's own data sets.
pub fn own_qualifier(run: u32, job: &Job) -> Name8
    ensures { result ≡ own_qualifier run job.now }
{
    if job.restart.is_some() {
        job.name.copied()
    } else {
        run_name(run)
    }
}

/// A use for each DD that has a data set, SYSCHK's behind those of the steps.
fn uses_of_dds(alloc: Global, run: u32, job: &Job) -> Result<Uses, NoMemory>
    ensures { IfOk result (λ uses. uses ≡ uses_of_dds run job.now) }
{
    let restart = job.restart.is_some();
    let own = own_qualifier(run, job);
    let mut uses = Uses::new(alloc);
    put_uses_in_steps(&mut uses, restart, &own, job.steps.as_slice())?;
    put_use(&mut uses, use_of_any_syschk(restart, &job.syschk))?;
    Ok(uses)
}

/// Whether one of the uses is of this name.
fn is_used(name: &DsName, uses: &[Use]) -> bool
    ensures { result ≡ list_any (is_of name.now) uses.now }
{
    uses.iter().any(|used| name.is_same(&used.name))
}

/// Whether one of the uses of this name is exclusive.
fn is_exclusive(name: &DsName, uses: &[Use]) -> bool
    ensures { result ≡ list_any (is_exclusive_of name.now) uses.now }
{
    uses.iter()
        .any(|used| name.is_same(&used.name) && used.exclusive)
}

/// One use for each name, exclusive where one of its uses is.
fn merged(alloc: Global, uses: &[Use]) -> Result<Uses, NoMemory>
    ensures { IfOk result (λ one. one ≡ merged uses.now) }
{
    let mut one = Uses::new(alloc);
    for (place, used) in uses.iter().enumerate() {
        if !is_used(&used.name, &uses[..place]) {
            one.push(Use {
                name: used.name.copied(),
                exclusive: is_exclusive(&used.name, uses),
            })?;
        }
    }
    Ok(one)
}

/// The uses that a run holds from its selection to its end, by the job of its submitted deck, SYSCHK's included: one for each
/// name, in the order of the deck. A name is shared where the status of each of its DDs is SHR and both its dispositions,
/// written or by default, are KEEP, and the run has no RESTART; else it is exclusive. In a run with RESTART the job's name
/// stands for the run's number in the names of its own data sets.
#[tactic(auto, unfolding(crate::specs::Uses::uses_of))]
pub fn uses_of(alloc: Global, run: u32, job: &Job) -> Result<Uses, NoMemory>
    requires { run ≤ 9999999 }
    ensures { IfOk result (λ uses. uses ≡ uses_of run job.now) }
{
    let uses = uses_of_dds(alloc, run, job)?;
    merged(alloc, uses.as_slice())
}
