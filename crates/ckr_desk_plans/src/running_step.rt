//! A running step.

use ckr_base::Code;
use ckr_library::Library;
use ckr_steps::StepRun;

/// A running step.
#[derive(Drop)]
pub struct RunningStep {
    /// The number of its run.
    pub run: u32,
    pub step: StepRun,
    /// Its data sets, with the lengths that they have by now; the tables keep those that are committed.
    pub sets: Library,
    /// The code with which its run waits for the operator's word, if it does; the step has stopped then.
    pub code: Option<Code>,
}
