//! J24: the names on CHKDD. They are met in sets, since a deck may have very many DDs.
ghost use Rattle.std.specs.Prelude.{◌≡◌, ◌||◌, ◌&&◌, Option, List, IfOk, OnOk, find};
ghost use Rattle.std.specs.List.{list_any};
ghost use Rattle.std.specs.Option.{option_map};
ghost use Rattle.ckr_jcl_operands.specs.declared.dd_values.DsnText.{DsnText as DsnValue};
ghost use Rattle.ckr_jcl_decks.specs.DeckFaults.{dd_where, dd_in_steps, is_checkpointed_on, any_dd, is_worked, checkpoint_name_fault};
ghost use Rattle.ckr_jcl_decks.specs.MetNames.{dsn_met, is_met_dd};

use crate::met_names::{dsn_met, is_new_dsn};
use ckr_base::{DsName, Name8, NoMemory};
use ckr_jcl::Role;
use ckr_jcl_faults::{DdText, JobText, StepText, is_chkdd};
use ckr_jcl_operands::DsnText;
use std::alloc::Global;
use std::collections::BTreeSet;

/// Puts the data set name of a DD among those that were met, where it is on CHKDD.
fn meet_dd(
    permanent: &mut BTreeSet<DsName>,
    passing: &mut BTreeSet<Name8>,
    dd: &DdText,
) -> Result<(), NoMemory>
    ensures { OnOk result ((other : Option DsnValue) → dsn_met permanent.new passing.new other ≡ (is_checkpointed_on other dd.now || dsn_met permanent.old passing.old other)) }
{
    if is_chkdd(dd) {
        is_new_dsn(permanent, passing, &dd.dsn)?;
    }
    Ok(())
}

/// Puts the data set names on CHKDD of a step among those that were met.
fn meet_dds(
    permanent: &mut BTreeSet<DsName>,
    passing: &mut BTreeSet<Name8>,
    dds: &[DdText],
) -> Result<(), NoMemory>
    ensures { OnOk result ((other : Option DsnValue) → dsn_met permanent.new passing.new other ≡ (list_any (is_checkpointed_on other) dds.now || dsn_met permanent.old passing.old other)) }
{
    for dd in dds {
        meet_dd(permanent, passing, dd)?;
    }
    Ok(())
}

/// Puts the data set names on CHKDD of all steps among those that were met.
fn meet_steps(
    permanent: &mut BTreeSet<DsName>,
    passing: &mut BTreeSet<Name8>,
    steps: &[StepText],
) -> Result<(), NoMemory>
    ensures { OnOk result ((other : Option DsnValue) → dsn_met permanent.new passing.new other ≡ (any_dd (is_checkpointed_on other) steps.now || dsn_met permanent.old passing.old other)) }
{
    for step in steps {
        meet_dds(permanent, passing, step.dds.as_slice())?;
    }
    Ok(())
}

/// Whether a program reads, writes or updates a DD.
const fn is_worked(role: Role) -> bool
    ensures { result ≡ is_worked role }
{
    matches!(role, Role::Reads | Role::Writes | Role::Updates)
}

/// Whether a DD is worked on, and its data set name was met.
fn is_met_dd(permanent: &BTreeSet<DsName>, passing: &BTreeSet<Name8>, dd: &DdText) -> bool
    ensures { result ≡ is_met_dd permanent.now passing.now dd.now }
{
    is_worked(dd.role) && dsn_met(permanent, passing, &dd.dsn)
}

/// The card of the first such DD.
fn met_in(permanent: &BTreeSet<DsName>, passing: &BTreeSet<Name8>, dds: &[DdText]) -> Option<u32>
    ensures { result ≡ dd_where (is_met_dd permanent.now passing.now) dds.now }
{
    match dds.iter().find(|dd| is_met_dd(permanent, passing, dd)) {
        Some(dd) => Some(dd.card),
        None => None,
    }
}

/// The card of the first such DD of all steps.
fn met_in_steps(
    permanent: &BTreeSet<DsName>,
    passing: &BTreeSet<Name8>,
    steps: &[StepText],
) -> Option<u32>
    ensures { result ≡ dd_in_steps (is_met_dd permanent.now passing.now) steps.now }
{
    for step in steps {
        if let Some(card) = met_in(permanent, passing, step.dds.as_slice()) {
            return Some(card);
        }
    }
    None
}

/// J24: a data set name on CHKDD stands in the deck on a DD that reads, writes or updates.
#[tactic(auto, unfolding(crate::specs::DeckFaults::checkpoint_name_fault))]
pub(crate) fn checkpoint_name_fault(alloc: Global, job: &JobText) -> Result<Option<u32>, NoMemory>
    ensures { IfOk result (λ card. card ≡ checkpoint_name_fault job.now) }
{
    let mut permanent = BTreeSet::new(alloc);
    let mut passing = BTreeSet::new(alloc);
    let steps = job.steps.as_slice();
    meet_steps(&mut permanent, &mut passing, steps)?;
    Ok(met_in_steps(&permanent, &passing, steps))
}
