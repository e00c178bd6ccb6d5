//! The steps that a run has taken over.
ghost use Rattle.std.specs.Prelude.{◌≡◌, ◌++◌, ◌∷◌, [], IsSome, OnErr, OnOk, Some, length, slice_get};
ghost use Rattle.std.specs.Option.{option_copied, option_map};
ghost use Rattle.std.specs.Rc.{rc_value};
ghost use Rattle.ckr_meaning.specs.EffectiveJob.{owned_by, OwnedStep};
ghost use Rattle.ckr_points_runs.specs.RunJobs.{own_of};

use crate::OwnStep;
use ckr_base::NoMemory;
use ckr_jcl::{Job, Step};
use std::alloc::Global;
use std::marker::Model;
use std::rc::Rc;

/// A step that a run has taken over from an earlier one: the step of the same number of a deck.
#[derive(Drop)]
pub struct TakenStep {
    /// The deck, which earlier runs may share.
    pub deck: Rc<Job>,
    /// The number of the run that owns the step.
    pub owner: u32,
}

/// The steps that a run has taken over, in their order: each is the step at its place of a deck.
#[derive(Drop)]
pub struct TakenSteps {
    items: Vec<TakenStep>,
}

impl Model for TakenSteps {
    ghost use Rattle.std.specs.Prelude.{List};
    ghost use Rattle.ckr_meaning.specs.EffectiveJob.{OwnedStep};
    ghost use Rattle.ckr_points_runs.specs.RunJobs.{taken_from, AreTaken};

    ghost Value = { List OwnedStep };

    ghost view = { λ a. taken_from 0 a.items.items };

    ghost invariant = { λ a. AreTaken 0 a.items.items };
}

impl TakenSteps {
    /// No steps. It takes no memory.
    pub fn new(alloc: Global) -> Self
        ensures { result ≡ [] }
    {
        TakenSteps {
            items: Vec::new(alloc),
        }
    }

    /// How many steps there are.
    pub(crate) fn count(&self) -> usize
        ensures { result ≡ length self.now }
    {
        self.items.len()
    }

    /// The step at a place.
    pub(crate) fn step_in(&self, place: usize) -> Option<OwnStep<'_>>
        ensures { option_map own_of result ≡ slice_get self.now place }
    {
        match taken_step(self.items.as_slice(), place) {
            Some(taken) => step_of(taken.deck.as_ref(), taken.owner, place),
            None => None,
        }
    }

    /// Takes over the step at the next place of a deck, which its run owns.
    ///
    /// `NoMemory`: the steps are as before.
    pub(crate) fn push(&mut self, deck: &Rc<Job>, owner: u32) -> Result<(), NoMemory>
        requires there { IsSome (slice_get (rc_value deck.now).steps (length self.old)) }
        ensures ok { (own : OwnedStep) → option_map (owned_by owner (rc_value deck.now)) (slice_get (rc_value deck.now).steps (length self.old)) ≡ Some own → OnOk result (self.new ≡ self.old ++ own ∷ []) }
        ensures err { OnErr result (self.new ≡ self.old) }
    {
        let deck = deck.clone()?;
        self.items.push(TakenStep { deck, owner })?;
        Ok(())
    }

    /// Takes over the step at the next place of these.
    ///
    /// `NoMemory`: the steps are as before.
    pub(crate) fn push_taken(&mut self, other: &TakenSteps, place: usize) -> Result<(), NoMemory>
        requires next { length self.old ≡ place }
        ensures { (own : OwnedStep) → slice_get other.now place ≡ Some own → OnOk result (self.new ≡ self.old ++ own ∷ []) }
    {
        match taken_step(other.items.as_slice(), place) {
            Some(taken) => self.push(&taken.deck, taken.owner),
            None => Ok(()),
        }
    }
}

/// The step that was taken over at a place.
fn taken_step(taken: &[TakenStep], place: usize) -> Option<&TakenStep>
    ensures { option_copied result ≡ slice_get taken.now place }
{
    taken.get(place)
}

/// The step at a place of a deck, with the run that owns it.
pub(crate) fn step_of(deck: &Job, owner: u32, place: usize) -> Option<OwnStep<'_>>
    ensures { option_map own_of result ≡ option_map (owned_by owner deck.now) (slice_get deck.now.steps place) }
{
    match deck_step(deck.steps.as_slice(), place) {
        Some(step) => Some(OwnStep { deck, step, owner }),
        None => None,
    }
}

/// The step at a place of these.
fn deck_step(steps: &[Step], place: usize) -> Option<&Step>
    ensures { option_copied result ≡ slice_get steps.now place }
{
    steps.get(place)
}
