//! A step of a run.

use ckr_jcl::{Job, Step};

/// A step of a run, with the run that owns it.
#[derive(Clone, Copy)]
pub struct OwnStep<'a> {
    /// The deck that has the step.
    pub deck: &'a Job,
    pub step: &'a Step,
    /// The number of the run that owns the step: the run itself, or an earlier one from which it was taken over.
    pub owner: u32,
}
