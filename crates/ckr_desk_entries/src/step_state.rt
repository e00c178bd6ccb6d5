//! Where the step of an entry stands.
use ckr_entry::State;

/// Where an entry has its step.
#[derive(Drop)]
pub struct StepState {
    /// Where its program stands.
    pub state: State,
    /// How many records it has written and rewritten.
    pub writes: u32,
}
