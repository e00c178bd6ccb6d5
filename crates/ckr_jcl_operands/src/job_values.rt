//! The values of RD, RESTART and PARM.
ghost use Rattle.std.specs.Prelude.{◌≡◌, ◌+◌, ◌∷◌, ◌++◌, [], length};
ghost use Rattle.std.specs.Option.{option_map, option_copied};
ghost use Rattle.ckr_cards.specs.Field.{parts_of};
ghost use Rattle.ckr_cards.specs.Tables.{look_up};
ghost use Rattle.ckr_jcl.specs.Text.{begins_quoted, begins_list, in_apostrophes, in_parentheses, opened, item_at, is_word};
ghost use Rattle.ckr_jcl_operands.specs.JobValues.{rd_value, rd_values, step_reference, unquoted_id, check_id, id_value, restart_at, restart_with, restart_in, restart_listed, restart_value};

use ckr_base::{CheckId, Name8};
use ckr_jcl::{Rd, begins_quoted, in_apostrophes, is_spelled, item_at, item_count, opened};

/// The step that RESTART names.
#[derive(Drop)]
pub enum StepReference {
    /// `*`.
    FirstStep,
    NamedStep(Name8),
}

/// The value of RESTART.
#[derive(Drop)]
pub struct RestartText {
    pub step: StepReference,
    /// The checkpoint, where one is named.
    pub id: Option<CheckId>,
}

/// The value of RD.
#[tactic(auto, unfolding(crate::specs::JobValues::rd_value))]
pub fn rd_value(text: &[u8]) -> Option<Rd>
    ensures { result ≡ rd_value text.now }
{
    if is_spelled(b"R", text) {
        return Some(Rd::R);
    }
    if is_spelled(b"RNC", text) {
        return Some(Rd::Rnc);
    }
    if is_spelled(b"NR", text) {
        return Some(Rd::Nr);
    }
    if is_spelled(b"NC", text) {
        return Some(Rd::Nc);
    }
    None
}

/// `*` or the name of a step.
#[tactic(auto, unfolding(crate::specs::JobValues::step_reference))]
fn step_reference(text: &[u8]) -> Option<StepReference>
    ensures { result ≡ step_reference text.now }
{
    if is_spelled(b"*", text) {
        return Some(StepReference::FirstStep);
    }
    match Name8::read(text) {
        Some(name) => Some(StepReference::NamedStep(name)),
        None => None,
    }
}

/// An identifier without its apostrophes.
fn unquoted_id(text: &[u8]) -> Option<&[u8]>
    ensures { option_copied result ≡ unquoted_id text.now }
{
    if begins_quoted(text) {
        return in_apostrophes(text);
    }
    Some(text)
}

/// An identifier.
fn check_id(text: &[u8]) -> Option<CheckId>
    ensures { result ≡ check_id text.now }
{
    CheckId::read(text)
}

/// An identifier, which may stand in apostrophes.
#[tactic(auto, unfolding(crate::specs::JobValues::id_value))]
fn id_value(text: &[u8]) -> Option<CheckId>
    ensures { result ≡ id_value text.now }
{
    match unquoted_id(text) {
        Some(id) => check_id(id),
        None => None,
    }
}

/// `x` or `x,checkid`.
#[tactic(auto, unfolding(crate::specs::JobValues::restart_in))]
fn restart_in(list: &[u8]) -> Option<RestartText>
    ensures { result ≡ restart_in (parts_of list.now) }
{
    let count = item_count(list);
    if count != 1 && count != 2 {
        return None;
    }
    let step = step_reference(item_at(0, list))?;
    if count == 1 {
        return Some(RestartText { step, id: None });
    }
    let id = id_value(item_at(1, list))?;
    Some(RestartText { step, id: Some(id) })
}

/// The value of RESTART.
#[tactic(auto, unfolding(crate::specs::JobValues::restart_value))]
pub fn restart_value(text: &[u8]) -> Option<RestartText>
    ensures { result ≡ restart_value text.now }
{
    match opened(text) {
        Some(list) => restart_in(list),
        None => None,
    }
}
