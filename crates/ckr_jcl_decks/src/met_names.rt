//! Names that were met.
ghost use Rattle.std.specs.Prelude.{◌≡◌, ◌||◌, not, ℕ, List, Option, IfOk, OnOk, bytes_eq};
ghost use Rattle.ckr_jcl_decks.specs.DeckFaults.{is_same_dsn};
ghost use Rattle.ckr_jcl_decks.specs.MetNames.{was_met, dsn_met};
ghost use Rattle.ckr_jcl_operands.specs.declared.dd_values.DsnText.{DsnText as DsnValue};

use ckr_base::{DsName, Name8, NoMemory};
use ckr_jcl_operands::DsnText;
use std::collections::BTreeSet;

/// Puts a name among those that were met, and tells whether it is new.
#[tactic(auto, unfolding(crate::specs::MetNames::was_met))]
pub(crate) fn is_new_name(names: &mut BTreeSet<Name8>, name: &Name8) -> Result<bool, NoMemory>
    ensures new { IfOk result (λ new. new ≡ not (was_met names.old name.now)) }
    ensures met { OnOk result ((other : List ℕ) → was_met names.new other ≡ (bytes_eq name.now other || was_met names.old other)) }
{
    Ok(names.insert(name.copied())?)
}

/// The same of a data set name.
#[tactic(auto, unfolding(crate::specs::MetNames::was_met))]
fn is_new_permanent(names: &mut BTreeSet<DsName>, name: &DsName) -> Result<bool, NoMemory>
    ensures new { IfOk result (λ new. new ≡ not (was_met names.old name.now)) }
    ensures met { OnOk result ((other : List ℕ) → was_met names.new other ≡ (bytes_eq name.now other || was_met names.old other)) }
{
    Ok(names.insert(name.copied())?)
}

/// Puts the data set name of a DD among those that were met, and tells whether it is new.
pub(crate) fn is_new_dsn(
    permanent: &mut BTreeSet<DsName>,
    passing: &mut BTreeSet<Name8>,
    dsn: &Option<DsnText>,
) -> Result<bool, NoMemory>
    ensures new { IfOk result (λ new. new ≡ not (dsn_met permanent.old passing.old dsn.now)) }
    ensures met { OnOk result ((other : Option DsnValue) → dsn_met permanent.new passing.new other ≡ (is_same_dsn dsn.now other || dsn_met permanent.old passing.old other)) }
{
    match dsn {
        Some(DsnText::Permanent(name)) => is_new_permanent(permanent, name),
        Some(DsnText::Passing(name)) => is_new_name(passing, name),
        _ => Ok(true),
    }
}

/// Whether a name was met.
#[tactic(auto, unfolding(crate::specs::MetNames::was_met))]
fn was_name_met(names: &BTreeSet<Name8>, name: &Name8) -> bool
    ensures { result ≡ was_met names.now name.now }
{
    names.contains(name)
}

/// The same of a data set name.
#[tactic(auto, unfolding(crate::specs::MetNames::was_met))]
fn was_permanent_met(names: &BTreeSet<DsName>, name: &DsName) -> bool
    ensures { result ≡ was_met names.now name.now }
{
    names.contains(name)
}

/// Whether the data set name of a DD was met.
pub(crate) fn dsn_met(
    permanent: &BTreeSet<DsName>,
    passing: &BTreeSet<Name8>,
    dsn: &Option<DsnText>,
) -> bool
    ensures { result ≡ dsn_met permanent.now passing.now dsn.now }
{
    match dsn {
        Some(DsnText::Permanent(name)) => was_permanent_met(permanent, name),
        Some(DsnText::Passing(name)) => was_name_met(passing, name),
        _ => false,
    }
}
