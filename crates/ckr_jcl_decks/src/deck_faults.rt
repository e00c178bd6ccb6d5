//! The faults of a whole deck whose statements have none.
ghost use Rattle.std.specs.Prelude.{◌≡◌, [], ◌+◌, ◌<◌, ◌≤◌, ◌^◌, ◌||◌, ◌&&◌, not, IfSome, List, length, find, slice_get, codes};
ghost use Rattle.std.specs.List.{list_any, list_all, position};
ghost use Rattle.std.specs.Option.{option_map, option_map_or, option_copied, is_some, is_none};
ghost use Rattle.ckr_cards.specs.Tables.{words};
ghost use Rattle.ckr_jcl.specs.ParmGrammar.{read_parm_text};
ghost use Rattle.ckr_jcl_faults.specs.DdFaults.{breaks};
ghost use Rattle.ckr_jcl_decks.specs.DeckFaults.{dd_card, step_where, dd_where, dd_in_steps, syschk_where, dd_or_syschk, is_step_of, step_place, no_step_of, restart_step_fault, names_checkpoint, is_right_syschk, syschk_fault, checkpoint_fault, has_no_program, program_fault, is_wrong_parm, has_wrong_parm, parm_text_fault, is_dd_of, has_dd, has_dds, parm_of, has_checkpoint_dd, has_needed_dds, lacks_needed, lacks_dd, missing_dd, step_beyond, dd_beyond, card_beyond, no_step, lesser, limit_fault};

use ckr_jcl::{
    Kind, Parm, before, is_spelled, length_before, names_checkpointed, names_read, names_updated,
    names_written, no_parm, read_parm,
};
use ckr_jcl_faults::{DdRule, DdText, JobText, StepText, breaks, is_old, is_shared, is_temporary};
use ckr_jcl_operands::{RestartText, StepReference};

/// The card of the first DD that breaks a rule.
fn dd_where(rule: DdRule, dds: &[DdText]) -> Option<u32>
    ensures { result ≡ dd_where (breaks rule) dds.now }
{
    match dds.iter().find(|dd| breaks(rule, dd)) {
        Some(dd) => Some(dd.card),
        None => None,
    }
}

/// The card of the first DD of the steps that breaks a rule.
pub(crate) fn dd_in_steps(rule: DdRule, steps: &[StepText]) -> Option<u32>
    ensures { result ≡ dd_in_steps (breaks rule) steps.now }
{
    for step in steps {
        if let Some(card) = dd_where(rule, step.dds.as_slice()) {
            return Some(card);
        }
    }
    None
}

/// The card of SYSCHK, where it breaks a rule.
fn syschk_where(rule: DdRule, syschk: &Option<DdText>) -> Option<u32>
    ensures { result ≡ syschk_where (breaks rule) syschk.now }
{
    match syschk {
        Some(dd) => {
            if breaks(rule, dd) {
                return Some(dd.card);
            }
            None
        }
        None => None,
    }
}

/// The card of SYSCHK or of the first DD of the steps that breaks a rule.
#[tactic(auto, unfolding(crate::specs::DeckFaults::dd_or_syschk))]
pub(crate) fn dd_or_syschk(rule: DdRule, job: &JobText) -> Option<u32>
    ensures { result ≡ dd_or_syschk (breaks rule) job.now }
{
    match syschk_where(rule, &job.syschk) {
        Some(card) => Some(card),
        None => dd_in_steps(rule, job.steps.as_slice()),
    }
}

/// Whether RESTART names a step.
fn is_step_of(reference: &StepReference, step: &StepText) -> bool
    ensures { result ≡ is_step_of reference.now step.now }
{
    match reference {
        StepReference::FirstStep => true,
        StepReference::NamedStep(name) => is_spelled(name.text(), step.name.text()),
    }
}

/// The place of the step that RESTART names, from 0.
#[tactic(auto, unfolding(crate::specs::DeckFaults::step_place))]
pub(crate) fn step_place(reference: &StepReference, steps: &[StepText]) -> Option<usize>
    ensures value { result ≡ step_place reference.now steps.now }
    ensures bound { IfSome result (λ place. place < length steps.now) }
{
    steps.iter().position(|step| is_step_of(reference, step))
}

/// Whether RESTART names no step of the deck.
fn no_step_of(restart: &Option<RestartText>, steps: &[StepText]) -> bool
    ensures { result ≡ no_step_of restart.now steps.now }
{
    match restart {
        Some(restart) => step_place(&restart.step, steps).is_none(),
        None => false,
    }
}

/// J12: RESTART names no step of the deck.
#[tactic(auto, unfolding(crate::specs::DeckFaults::restart_step_fault))]
pub(crate) fn restart_step_fault(job: &JobText) -> Option<u32>
    ensures { result ≡ restart_step_fault job.now }
{
    if no_step_of(&job.restart, job.steps.as_slice()) {
        return Some(job.card);
    }
    None
}

/// Whether RESTART names a checkpoint.
fn names_checkpoint(restart: &Option<RestartText>) -> bool
    ensures { result ≡ names_checkpoint restart.now }
{
    match restart {
        Some(restart) => restart.id.is_some(),
        None => false,
    }
}

/// Whether SYSCHK names a checkpoint data set that exists.
#[tactic(auto, unfolding(crate::specs::DeckFaults::is_right_syschk))]
fn is_right_syschk(dd: &DdText) -> bool
    ensures { result ≡ is_right_syschk dd.now }
{
    if dd.dsn.is_none() || dd.in_stream || dd.dummy || is_temporary(&dd.dsn) {
        return false;
    }
    is_old(dd.disp.status) || is_shared(dd.disp.status)
}

/// The card of a checkpoint without SYSCHK, or of a SYSCHK without a checkpoint or of the wrong form.
fn syschk_fault(syschk: &Option<DdText>, wanted: bool, card: u32) -> Option<u32>
    ensures { result ≡ syschk_fault syschk.now wanted card }
{
    match syschk {
        Some(dd) => {
            if !wanted || !is_right_syschk(dd) {
                return Some(dd.card);
            }
            None
        }
        None => {
            if wanted {
                return Some(card);
            }
            None
        }
    }
}

/// J13: a checkpoint without SYSCHK, or a SYSCHK without a checkpoint or of the wrong form.
#[tactic(auto, unfolding(crate::specs::DeckFaults::checkpoint_fault))]
pub(crate) fn checkpoint_fault(job: &JobText) -> Option<u32>
    ensures { result ≡ checkpoint_fault job.now }
{
    syschk_fault(&job.syschk, names_checkpoint(&job.restart), job.card)
}

/// J14: EXEC has no PGM, or one that is no program.
#[tactic(auto, unfolding(crate::specs::DeckFaults::program_fault))]
pub(crate) fn program_fault(job: &JobText) -> Option<u32>
    ensures { result ≡ program_fault job.now }
{
    match job
        .steps
        .as_slice()
        .iter()
        .find(|step| step.program.is_none())
    {
        Some(step) => Some(step.card),
        None => None,
    }
}

/// Whether the PARM of a step isn't in the program's grammar.
fn has_wrong_parm(step: &StepText) -> bool
    ensures { result ≡ has_wrong_parm step.now }
{
    match step.program {
        Some(kind) => read_parm(kind, step.parm.as_slice()).is_err(),
        None => false,
    }
}

/// J15: PARM isn't in the program's grammar.
#[tactic(auto, unfolding(crate::specs::DeckFaults::parm_text_fault))]
pub(crate) fn parm_text_fault(job: &JobText) -> Option<u32>
    ensures { result ≡ parm_text_fault job.now }
{
    match job
        .steps
        .as_slice()
        .iter()
        .find(|step| has_wrong_parm(step))
    {
        Some(step) => Some(step.card),
        None => None,
    }
}

/// Whether a step has a DD of a name.
fn has_dd(dds: &[DdText], name: &[u8]) -> bool
    ensures { result ≡ has_dd dds.now name.now }
{
    dds.iter().any(|dd| is_spelled(name, dd.name.text()))
}

/// Whether a step has each DD of a table, whose names are parted by blanks.
fn has_dds(dds: &[DdText], table: &[u8]) -> bool
    ensures { result ≡ has_dds dds.now (words table.now) }
{
    if !has_dd(dds, before(b' ', table)) {
        return false;
    }
    let length = length_before(b' ', table);
    if length == table.len() {
        return true;
    }
    has_dds(dds, &table[length + 1..])
}

/// Whether a step has each DD of a table, if there is one.
#[tactic(auto, using(crate::proofs::NeededDds::none_needed))]
fn has_any_dds(dds: &[DdText], table: Option<&[u8]>) -> bool
    ensures { result ≡ has_dds dds.now (option_map_or words (option_copied table.entry) []) }
{
    match table {
        Some(table) => has_dds(dds, table),
        None => true,
    }
}

/// What PARM says, or nothing where it isn't in the grammar.
#[tactic(auto, unfolding(crate::specs::DeckFaults::parm_of))]
pub(crate) fn parm_of(kind: Kind, text: &[u8]) -> Parm
    requires { length text.now ≤ 100 }
    ensures { result ≡ parm_of kind text.now }
{
    match read_parm(kind, text) {
        Ok(parm) => parm,
        Err(_) => no_parm(),
    }
}

/// Whether a step has the DD for checkpoints, where they are asked for.
#[tactic(auto, unfolding(crate::specs::DeckFaults::has_checkpoint_dd))]
fn has_checkpoint_dd(kind: Kind, parm: &Parm, dds: &[DdText]) -> bool
    ensures { result ≡ has_checkpoint_dd kind parm.now dds.now }
{
    parm.chk == 0 || has_any_dds(dds, names_checkpointed(kind))
}

/// Whether a step has each DD that its program needs.
#[tactic(auto, unfolding(crate::specs::DeckFaults::has_needed_dds))]
fn has_needed_dds(kind: Kind, parm: &Parm, dds: &[DdText]) -> bool
    ensures { result ≡ has_needed_dds kind parm.now dds.now }
{
    has_any_dds(dds, names_read(kind))
        && has_any_dds(dds, names_written(kind))
        && has_any_dds(dds, names_updated(kind))
        && has_checkpoint_dd(kind, parm, dds)
}

/// Whether a DD that its program needs is missing in a step.
fn lacks_dd(step: &StepText) -> bool
    ensures { result ≡ lacks_dd step.now }
{
    match step.program {
        Some(kind) => {
            let parm = parm_of(kind, step.parm.as_slice());
            !has_needed_dds(kind, &parm, step.dds.as_slice())
        }
        None => false,
    }
}

/// J16: a DD that the program needs is missing.
#[tactic(auto, unfolding(crate::specs::DeckFaults::missing_dd))]
pub(crate) fn missing_dd(job: &JobText) -> Option<u32>
    ensures { result ≡ missing_dd job.now }
{
    match job.steps.as_slice().iter().find(|step| lacks_dd(step)) {
        Some(step) => Some(step.card),
        None => None,
    }
}

/// The card of the 65th step.
fn step_beyond(steps: &[StepText]) -> Option<u32>
    ensures { result ≡ step_beyond steps.now }
{
    match steps.get(64) {
        Some(step) => Some(step.card),
        None => None,
    }
}

/// The card of the 17th DD.
fn dd_beyond_in(dds: &[DdText]) -> Option<u32>
    ensures { result ≡ option_map dd_card (slice_get dds.now 16) }
{
    match dds.get(16) {
        Some(dd) => Some(dd.card),
        None => None,
    }
}

/// The card of the first 17th DD of a step.
fn dd_beyond(steps: &[StepText]) -> Option<u32>
    ensures { result ≡ dd_beyond steps.now }
{
    for step in steps {
        if let Some(card) = dd_beyond_in(step.dds.as_slice()) {
            return Some(card);
        }
    }
    None
}

/// The most cards that a deck may have (J23; this project's profile). The card behind them refuses it.
pub const MOST_CARDS: u32 = 100_000;

/// The card behind the most that a deck may have.
const fn card_beyond(cards: u32) -> Option<u32>
    ensures { result ≡ card_beyond cards }
{
    if cards > MOST_CARDS {
        Some(MOST_CARDS + 1)
    } else {
        None
    }
}

/// The last card of a deck without a step.
fn no_step(cards: u32, steps: &[StepText]) -> Option<u32>
    ensures { result ≡ no_step cards steps.now }
{
    if steps.is_empty() {
        return Some(cards);
    }
    None
}

/// The lesser of two cards, where there are two.
const fn lesser(card: Option<u32>, other: Option<u32>) -> Option<u32>
    ensures { result ≡ lesser card other }
{
    match (card, other) {
        (None, later) => later,
        (Some(card), None) => Some(card),
        (Some(card), Some(other)) => {
            if card <= other {
                Some(card)
            } else {
                Some(other)
            }
        }
    }
}

/// J23: the 65th step, the 17th DD of a step, card 100,001, or a deck without a step.
#[tactic(auto, unfolding(crate::specs::DeckFaults::limit_fault))]
pub(crate) fn limit_fault(cards: u32, job: &JobText) -> Option<u32>
    ensures { result ≡ limit_fault cards job.now }
{
    let steps = job.steps.as_slice();
    lesser(
        step_beyond(steps),
        lesser(
            dd_beyond(steps),
            lesser(card_beyond(cards), no_step(cards, steps)),
        ),
    )
}
