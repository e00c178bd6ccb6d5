//! The answer to a deck whose statements have no fault.
ghost use Rattle.std.specs.Prelude.{◌≡◌, ◌≤◌, IfOk, IfErr, length, Ok};
ghost use Rattle.ckr_jcl_faults.specs.Faults.{fault_at, least_fault};
ghost use Rattle.ckr_jcl_faults.specs.DdFaults.{breaks};
ghost use Rattle.ckr_jcl_decks.specs.DeckFaults.{faults_of_uses, faults_of_names, deck_faults};
ghost use Rattle.ckr_jcl_decks.specs.Deck.{job_unless, judged, Answers};

use crate::checkpoint_names::checkpoint_name_fault;
use crate::deck_faults::{
    checkpoint_fault, dd_in_steps, dd_or_syschk, limit_fault, missing_dd, parm_text_fault,
    program_fault, restart_step_fault,
};
use crate::job::job_of;
use crate::repeated_names::repeated_name;
use ckr_base::NoMemory;
use ckr_jcl::{DeckError, Job};
use ckr_jcl_faults::{DdRule, Fault, JobText, fault_at};
use std::alloc::Global;

/// The least fault of J20 to J24.
#[tactic(auto, unfolding(crate::specs::DeckFaults::faults_of_uses))]
fn least_of_uses(alloc: Global, cards: u32, job: &JobText) -> Result<Option<Fault>, NoMemory>
    ensures { IfOk result (λ fault. fault ≡ least_fault (faults_of_uses cards job.now)) }
{
    let steps = job.steps.as_slice();
    let later = fault_at(24, checkpoint_name_fault(alloc, job)?, None);
    let later = fault_at(23, limit_fault(cards, job), later);
    let later = fault_at(22, dd_in_steps(DdRule::WrongRecords, steps), later);
    let later = fault_at(21, dd_in_steps(DdRule::WrongSpace, steps), later);
    Ok(fault_at(20, dd_in_steps(DdRule::WrongUse, steps), later))
}

/// The least fault of J17 to J24.
#[tactic(auto, unfolding(crate::specs::DeckFaults::faults_of_names))]
fn least_of_names(alloc: Global, cards: u32, job: &JobText) -> Result<Option<Fault>, NoMemory>
    ensures { IfOk result (λ fault. fault ≡ least_fault (faults_of_names cards job.now)) }
{
    let later = least_of_uses(alloc, cards, job)?;
    let later = fault_at(19, repeated_name(alloc, job)?, later);
    let later = fault_at(18, dd_or_syschk(DdRule::IllNamed, job), later);
    Ok(fault_at(17, dd_or_syschk(DdRule::LeftOut, job), later))
}

/// The fault, of J12 to J24, of the least card of a deck of so many cards whose statements have none, and of these the one of the least number
/// (IBM GC28-6704 and this project's profile). `NoMemory` where there is none.
#[tactic(auto, unfolding(crate::specs::DeckFaults::deck_faults))]
pub fn least_of_deck(alloc: Global, cards: u32, job: &JobText) -> Result<Option<Fault>, NoMemory>
    ensures { IfOk result (λ fault. fault ≡ least_fault (deck_faults cards job.now)) }
{
    let later = least_of_names(alloc, cards, job)?;
    let later = fault_at(16, missing_dd(job), later);
    let later = fault_at(15, parm_text_fault(job), later);
    let later = fault_at(14, program_fault(job), later);
    let later = fault_at(13, checkpoint_fault(job), later);
    Ok(fault_at(12, restart_step_fault(job), later))
}

/// The job of a deck of so many cards whose statements have no fault, or its least fault of J12 to J24.
#[tactic(auto, using(crate::proofs::Limits::few_steps), unfolding(crate::specs::Deck::judged))]
pub(crate) fn judged(alloc: Global, cards: u32, job: &JobText) -> Result<Job, DeckError>
    ensures { Answers result (judged cards job.now) }
{
    match least_of_deck(alloc, cards, job)? {
        Some(fault) => Err(DeckError::At {
            number: fault.number,
            card: fault.card,
        }),
        None => Ok(job_of(alloc, job)?),
    }
}
