//! A run that was running when the system failed.

/// A run that was within a step when the system failed.
#[derive(Clone, Copy)]
pub struct FailedRun {
    /// The number of the run.
    pub run: u32,
    /// Whether the operator was asked for its restart since, and hasn't answered: it waits with the code of the system failure.
    pub asked: bool,
}
