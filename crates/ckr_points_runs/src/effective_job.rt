//! The job of a run: the steps that it has taken over from earlier runs, and those of its own deck.
ghost use Rattle.std.specs.Prelude.{◌≡◌, ◌≤◌, ℕ, ◌++◌, ◌∷◌, [], IfOk, IfSome, IsSome, OnOk, Some, length, map, slice_get, take};
ghost use Rattle.std.specs.Rc.{rc_value};
ghost use Rattle.std.specs.Option.{is_some, option_map};
ghost use Rattle.ckr_meaning.specs.EffectiveJob.{owned_by, step_at, OwnedStep};
ghost use Rattle.ckr_points_runs.specs.RunJobs.{continued_view, effective, own_of, plain_view, IsFitting, IsFittingStep};

use crate::taken_step::step_of;
use crate::{OwnStep, TakenSteps};
use ckr_base::NoMemory;
use ckr_jcl::Job;
use std::alloc::Global;
use std::marker::Model;
use std::rc::Rc;

/// The job of a run. It has the steps that the run has taken over from earlier ones, and behind them those of its own deck.
#[derive(Drop)]
pub struct EffectiveJob {
    deck: Rc<Job>,
    root: u32,
    earlier: u32,
    earlier_step: u8,
    taken: TakenSteps,
}

impl Model for EffectiveJob {
    ghost use Rattle.std.specs.Rc.{rc_value};
    ghost use Rattle.ckr_points_runs.specs.RunJobs.{JobView};

    ghost Value = { JobView };

    ghost view = { λ a. record { deck = rc_value a.deck; root = a.root; earlier = a.earlier; earlier_step = a.earlier_step; taken = a.taken } };
}

impl EffectiveJob {
    /// The job of a run that continues none. It takes no memory.
    pub fn plain(alloc: Global, run: u32, deck: Rc<Job>) -> Self
        ensures { result ≡ plain_view run (rc_value deck) }
    {
        EffectiveJob {
            deck,
            root: run,
            earlier: 0,
            earlier_step: 0,
            taken: TakenSteps::new(alloc),
        }
    }

    /// The deck of the run.
    pub fn deck(&self) -> &Job
        ensures { result.now ≡ self.now.deck }
    {
        self.deck.as_ref()
    }

    /// The number of the first of the runs that continue one another, up to this one.
    pub fn root(&self) -> u32
        ensures { result ≡ self.now.root }
    {
        self.root
    }

    /// The number of the run that this one continues, or 0.
    pub fn earlier(&self) -> u32
        ensures { result ≡ self.now.earlier }
    {
        self.earlier
    }

    /// The number of the step at which it continues it, or 0.
    pub fn earlier_step(&self) -> u8
        ensures { result ≡ self.now.earlier_step }
    {
        self.earlier_step
    }

    /// The job of a run with this deck that continues an earlier run, of this number and job, at a step: it takes over the steps up to
    /// that one.
    ///
    /// `NoMemory`: there may be no memory for them.
    pub fn continued(
        &self,
        alloc: Global,
        run: u32,
        earlier: &EffectiveJob,
        step: u8,
    ) -> Result<Self, NoMemory>
        ensures { IfOk result (λ job. job ≡ continued_view run self.now.deck earlier.now step) }
    {
        let taken = earlier.steps_up_to(alloc, run, step)?;
        let deck = self.deck.clone()?;
        Ok(EffectiveJob {
            deck,
            root: earlier.root,
            earlier: run,
            earlier_step: step,
            taken,
        })
    }

    /// The steps of a run of this number and job up to one, to be taken over.
    fn steps_up_to(&self, alloc: Global, run: u32, step: u8) -> Result<TakenSteps, NoMemory>
        ensures { IfOk result (λ steps. steps ≡ take step (effective run self.now).steps) }
    {
        let mut steps = TakenSteps::new(alloc);
        let count = self.count_steps().min(usize::from(step));
        for place in 0..count {
            self.take_over(run, place, &mut steps)?;
        }
        Ok(steps)
    }

    /// The step at the next place is taken over, of a run of this number and job.
    fn take_over(&self, run: u32, place: usize, steps: &mut TakenSteps) -> Result<(), NoMemory>
        requires next { length steps.old ≡ place }
        requires there { IsSome (slice_get (effective run self.now).steps place) }
        ensures { (own : OwnedStep) → slice_get (effective run self.now).steps place ≡ Some own → OnOk result (steps.new ≡ steps.old ++ own ∷ []) }
    {
        if place < self.taken.count() {
            steps.push_taken(&self.taken, place)
        } else {
            steps.push(&self.deck, run)
        }
    }

    /// How many steps a run of this job has.
    pub fn count_steps(&self) -> usize
        ensures { (run : ℕ) → result ≡ length (effective run self.now).steps }
    {
        let taken = self.taken.count();
        let own = self.deck().steps.as_slice().len();
        if taken < own { own } else { taken }
    }

    /// The step at a place, from 0, for the run of this number. None exactly where the run has no such step.
    pub fn step_in(&self, run: u32, place: usize) -> Option<OwnStep<'_>>
        ensures step { option_map own_of result ≡ slice_get (effective run self.now).steps place }
        ensures fitting { IsFitting (effective run self.now) → IfSome result (λ own. IsFittingStep (own_of own)) }
    {
        if place < self.taken.count() {
            self.taken.step_in(place)
        } else {
            step_of(self.deck(), run, place)
        }
    }
}

/// A step of a job by its number, from 1, for the run of this number.
pub fn step_at(job: &EffectiveJob, run: u32, step: u8) -> Option<OwnStep<'_>>
    ensures step { option_map own_of result ≡ step_at (effective run job.now) step }
    ensures fitting { IsFitting (effective run job.now) → IfSome result (λ own. IsFittingStep (own_of own)) }
{
    if step == 0 {
        return None;
    }
    job.step_in(run, step as usize - 1)
}

/// Whether a job has a step of this number, from 1.
pub fn has_step(job: &EffectiveJob, step: u8) -> bool
    ensures { (run : ℕ) → result ≡ is_some (step_at (effective run job.now) step) }
{
    step != 0 && step as usize <= job.count_steps()
}
