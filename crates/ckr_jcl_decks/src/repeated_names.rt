//! J19: names that stand twice. A few names are compared with each other, and many are met in sets, since a deck may have very many.
ghost use Rattle.std.specs.Prelude.{◌≡◌, ◌||◌, not, ℕ, List, [], Option, IfOk, OnOk, bytes_eq};
ghost use Rattle.std.specs.List.{list_any};
ghost use Rattle.ckr_jcl_operands.specs.declared.dd_values.DsnText.{DsnText as DsnValue};
ghost use Rattle.ckr_jcl_decks.specs.DeckFaults.{has_dd_name, has_dsn, has_step_name, is_same_dsn, repeated_dd, repeated_in, repeated_name};
ghost use Rattle.ckr_jcl_decks.specs.MetNames.{was_met, dsn_met};

use crate::met_names::{is_new_dsn, is_new_name};
use ckr_base::{DsName, Name8, NoMemory};
use ckr_jcl::is_spelled;
use ckr_jcl_faults::{DdText, JobText, StepText};
use ckr_jcl_operands::DsnText;
use std::alloc::Global;
use std::collections::BTreeSet;

/// So many names at most are compared with each other; more are met in a set, which takes less time then.
const FEW_NAMES: usize = 16;

/// Puts the names of a DD among those that were met, and tells whether both are new.
fn is_new_dd(
    names: &mut BTreeSet<Name8>,
    permanent: &mut BTreeSet<DsName>,
    passing: &mut BTreeSet<Name8>,
    dd: &DdText,
) -> Result<bool, NoMemory>
    ensures new { IfOk result (λ new. new ≡ not (was_met names.old dd.now.name || dsn_met permanent.old passing.old dd.now.dsn)) }
    ensures names { OnOk result ((other : List ℕ) → was_met names.new other ≡ (bytes_eq dd.now.name other || was_met names.old other)) }
    ensures dsns { OnOk result ((other : Option DsnValue) → dsn_met permanent.new passing.new other ≡ (is_same_dsn dd.now.dsn other || dsn_met permanent.old passing.old other)) }
{
    let new_name = is_new_name(names, &dd.name)?;
    let new_dsn = is_new_dsn(permanent, passing, &dd.dsn)?;
    Ok(new_name && new_dsn)
}

/// Whether one of these DDs has this dd name.
fn has_dd_name(before: &[DdText], name: &Name8) -> bool
    ensures { result ≡ list_any (has_dd_name name.now) before.now }
{
    before
        .iter()
        .any(|other| is_spelled(other.name.text(), name.text()))
}

/// Whether two data set names are the same.
fn is_same_dsn(one: &Option<DsnText>, other: &Option<DsnText>) -> bool
    ensures { result ≡ is_same_dsn one.now other.now }
{
    match (one, other) {
        (Some(DsnText::Permanent(one)), Some(DsnText::Permanent(other))) => {
            is_spelled(one.text(), other.text())
        }
        (Some(DsnText::Passing(one)), Some(DsnText::Passing(other))) => {
            is_spelled(one.text(), other.text())
        }
        _ => false,
    }
}

/// Whether one of these DDs has this data set name.
fn has_dsn(before: &[DdText], dsn: &Option<DsnText>) -> bool
    ensures { result ≡ list_any (has_dsn dsn.now) before.now }
{
    before.iter().any(|other| is_same_dsn(&other.dsn, dsn))
}

/// The card of the first of a few DDs that has a name of one before it.
fn repeated_of_few(dds: &[DdText]) -> Option<u32>
    ensures { result ≡ repeated_dd [] dds.now }
{
    let mut count: usize = 0;
    for dd in dds {
        let before = &dds[..count];
        if has_dd_name(before, &dd.name) || has_dsn(before, &dd.dsn) {
            return Some(dd.card);
        }
        count += 1;
    }
    None
}

/// The card of the first of many DDs that has a name of one before it.
fn repeated_of_many(alloc: Global, dds: &[DdText]) -> Result<Option<u32>, NoMemory>
    ensures { IfOk result (λ card. card ≡ repeated_dd [] dds.now) }
{
    let mut names = BTreeSet::new(alloc);
    let mut permanent = BTreeSet::new(alloc);
    let mut passing = BTreeSet::new(alloc);
    for dd in dds {
        if !is_new_dd(&mut names, &mut permanent, &mut passing, dd)? {
            return Ok(Some(dd.card));
        }
    }
    Ok(None)
}

/// The card of the first DD that has a name of one before it in the step.
fn repeated_dd(alloc: Global, dds: &[DdText]) -> Result<Option<u32>, NoMemory>
    ensures { IfOk result (λ card. card ≡ repeated_dd [] dds.now) }
{
    if dds.len() <= FEW_NAMES {
        return Ok(repeated_of_few(dds));
    }
    repeated_of_many(alloc, dds)
}

/// Whether one of these steps has this name.
fn has_step_name(before: &[StepText], name: &Name8) -> bool
    ensures { result ≡ list_any (has_step_name name.now) before.now }
{
    before
        .iter()
        .any(|other| is_spelled(other.name.text(), name.text()))
}

/// The card of the first of a few steps that has the name of one before it, or of the first such DD of a step.
fn repeated_in_few(alloc: Global, steps: &[StepText]) -> Result<Option<u32>, NoMemory>
    ensures { IfOk result (λ card. card ≡ repeated_in [] steps.now) }
{
    let mut count: usize = 0;
    for step in steps {
        if has_step_name(&steps[..count], &step.name) {
            return Ok(Some(step.card));
        }
        if let Some(card) = repeated_dd(alloc, step.dds.as_slice())? {
            return Ok(Some(card));
        }
        count += 1;
    }
    Ok(None)
}

/// The card of the first of many steps that has the name of one before it, or of the first such DD of a step.
fn repeated_in_many(alloc: Global, steps: &[StepText]) -> Result<Option<u32>, NoMemory>
    ensures { IfOk result (λ card. card ≡ repeated_in [] steps.now) }
{
    let mut names = BTreeSet::new(alloc);
    for step in steps {
        if !is_new_name(&mut names, &step.name)? {
            return Ok(Some(step.card));
        }
        if let Some(card) = repeated_dd(alloc, step.dds.as_slice())? {
            return Ok(Some(card));
        }
    }
    Ok(None)
}

/// The card of the first step that has the name of one before it, or of the first such DD of a step.
fn repeated_in(alloc: Global, steps: &[StepText]) -> Result<Option<u32>, NoMemory>
    ensures { IfOk result (λ card. card ≡ repeated_in [] steps.now) }
{
    if steps.len() <= FEW_NAMES {
        return repeated_in_few(alloc, steps);
    }
    repeated_in_many(alloc, steps)
}

/// J19: a step name stands twice, or in a step a dd name or a data set name.
#[tactic(auto, unfolding(crate::specs::DeckFaults::repeated_name))]
pub(crate) fn repeated_name(alloc: Global, job: &JobText) -> Result<Option<u32>, NoMemory>
    ensures { IfOk result (λ card. card ≡ repeated_name job.now) }
{
    repeated_in(alloc, job.steps.as_slice())
}
